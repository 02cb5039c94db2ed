//! `source`: its form, and which names are free.

use super::expect_each;
use std::test::Fail;

/// "`source <name> root <tag> key <tag>`, or `key @<attribute>`."
const FORMS: &[(&str, &str)] = &[
    ("source quotes root Quotes key Symbol", "1 ok\n"),
    ("source quotes root Quotes key Symbol\r", "1 ok\n"),
    ("source quotes root Quotes key Symbol\r\r\n", "1 ok\n"),
    // Blanks, tabs and carriage returns part words, and keywords have any case.
    ("\t source\rquotes  root\tQuotes key Symbol \n", "1 ok\n"),
    ("SOURCE quotes Root Quotes KEY Symbol\n", "1 ok\n"),
    ("source root root root key key\n", "1 ok\n"),
    (
        "source\x0cquotes root Quotes key Symbol\n",
        "1 refused 1 command\n",
    ),
    // Exactly six words.
    ("source\n", "1 refused 1 command\n"),
    ("source quotes root Quotes key\n", "1 refused 1 command\n"),
    (
        "source quotes root Quotes key Symbol x\n",
        "1 refused 1 command\n",
    ),
    (
        "source quotes tag Quotes key Symbol\n",
        "1 refused 1 command\n",
    ),
    (
        "source quotes root Quotes keys Symbol\n",
        "1 refused 1 command\n",
    ),
];

/// No quotation mark, backslash, comma or parenthesis in the name of a source, no backslash in a
/// tag.
const NAMES: &[(&str, &str)] = &[
    (
        "source quo\"tes root Quotes key Symbol\nsource quo\\tes root Quotes key Symbol\n\
         source quo,tes root Quotes key Symbol\nsource (quotes root Quotes key Symbol\n\
         source quotes) root Quotes key Symbol\n",
        "1 refused 1 command\n2 refused 1 command\n3 refused 1 command\n4 refused 1 command\n\
         5 refused 1 command\n",
    ),
    (
        "source quotes root Quo\\tes key Symbol\n",
        "1 refused 1 command\n",
    ),
    (
        "source quotes root Quotes key Sym\\bol\n",
        "1 refused 1 command\n",
    ),
    // A key may be an attribute, whose name is a name; the form is judged before the source's name.
    (
        "source quotes root Quotes key @Symbol\nsource quotes root Quotes key @\n\
         source quotes root @Quotes key @\\\n",
        "1 ok\n2 refused 1 command\n3 refused 1 command\n",
    ),
    ("source quotes root @Quotes key @@\n", "1 ok\n"),
    // Any number of sources, each name once, whatever else is said of it.
    (
        "source a root A key k\nsource a root B key @k\nsource A root A key k\n\
         source a root A key\n",
        "1 ok\n2 refused 3 source-exists\n3 ok\n4 refused 1 command\n",
    ),
    // Any other byte belongs to names.
    (
        "source q\0#'\x7f root Q(\"\x01 key k)!\ndelta q\0#'\x7f\n.\n",
        "1 ok\n2 ok\n",
    ),
];

#[test]
fn a_source_line_has_its_form(rt: HostRuntime) -> Result<(), Fail> {
    expect_each(&rt, &rt, ("", ""), FORMS)
}

#[test]
fn sources_and_tags_have_names(rt: HostRuntime) -> Result<(), Fail> {
    expect_each(&rt, &rt, ("", ""), NAMES)
}
