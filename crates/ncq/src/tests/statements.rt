//! `create`: which texts are statements, and which of them are accepted.
//! Each text is a statement with another piece in one place.

use super::{PUT_95, SOURCE, TOLD_95, expect_each, expect_output, joined};
use std::alloc::Global;
use std::process::Abort;
use std::test::Fail;

/// What stands in front of a place and behind it.
type Place<'a> = (&'a str, &'a str);

/// The whole statement; here stands `create w WHERE <Quotes><a><b>c</></> ELEMENT_AS $g</> IN
/// "quotes" CONSTRUCT $g DO print`.
const WHOLE: Place<'_> = ("", "");

/// The name; here stands `w`.
const NAME: Place<'_> = (
    "create ",
    " WHERE <Quotes><a><b>c</></> ELEMENT_AS $g</> IN \"quotes\" CONSTRUCT $g DO print",
);

/// The match; here stands `<Quotes><a><b>c</></> ELEMENT_AS $g</>`.
const MATCH: Place<'_> = ("create w WHERE ", " IN \"quotes\" CONSTRUCT $g DO print");

/// The pattern in the root; here stands `<a><b>c</></> ELEMENT_AS $g`.
const PATTERN: Place<'_> = (
    "create w WHERE <Quotes>",
    "</> IN \"quotes\" CONSTRUCT $g DO print",
);

/// The pattern in that one; here stands `<b>c</>`.
const PART: Place<'_> = (
    "create w WHERE <Quotes><a>",
    "</> ELEMENT_AS $g</> IN \"quotes\" CONSTRUCT $g DO print",
);

/// The text in it; here stands `c`.
const TEXT: Place<'_> = (
    "create w WHERE <Quotes><a><b>",
    "</></> ELEMENT_AS $g</> IN \"quotes\" CONSTRUCT $g DO print",
);

/// From the source up to `CONSTRUCT`; here stands `"quotes"`.
const SOURCE_NAME: Place<'_> = (
    "create w WHERE <Quotes><a><b>c</></> ELEMENT_AS $g</> IN ",
    " CONSTRUCT $g DO print",
);

/// What is made of an answer; here stands `CONSTRUCT $g`.
const TEMPLATE: Place<'_> = (
    "create w WHERE <Quotes><a><b>c</></> ELEMENT_AS $g</> IN \"quotes\" ",
    " DO print",
);

/// What is done with it, up to the end; here stands `DO print`.
const ACTION: Place<'_> = (
    "create w WHERE <Quotes><a><b>c</></> ELEMENT_AS $g</> IN \"quotes\" CONSTRUCT $g ",
    "",
);

/// Each statement with such a piece in this place, behind the declared source, is answered so.
fn expect_answer(
    rt: &impl Abort,
    host: &HostRuntime,
    answer: &str,
    place: Place<'_>,
    pieces: &[&str],
) -> Result<(), Fail> {
    let alloc = host.alloc();
    let want = joined(alloc, &["1 ok\n2 ", answer, "\n"])?;
    for piece in pieces {
        let script = joined(alloc, &[SOURCE, place.0, *piece, place.1, "\n.\n"])?;
        expect_output(rt, host, &script, &want, piece)?;
    }
    Ok(())
}

/// Keywords have any case of letters, blanks are free where tokens end, and so are lines.
const SPELLED: &[&str] = &[
    "CREATE w where <Quotes><a><b>c</></> element_as $g</> in \"quotes\" construct $g do PRINT",
    "Create w Where <Quotes><a><b>c</></> Element_As $g</> In \"quotes\" Construct $g Do Print",
    " create\tw\rWHERE <Quotes ><a\t><b\r>c</ b></\n\
     a > ELEMENT_AS  $g</> IN \"quotes\" CONSTRUCT $g DO print ",
    "create\n\nw\nWHERE\n<Quotes\n><a>\n<b>\nc\n</></>\nELEMENT_AS\n$g</>\r\nIN\n\"quotes\"\n\
     CONSTRUCT\n$g\nDO\nprint\n",
    "create w WHERE<Quotes><a><b>c</></>ELEMENT_AS$g</>IN\"quotes\"CONSTRUCT$g DO print",
    // A variable has any name, the same in both places.
    "create w WHERE <Quotes><a><b>c</></> ELEMENT_AS $_9</> IN \"quotes\" CONSTRUCT $_9 DO print",
];

/// A name is a letter, `_` or a byte above 127; digits, `-` and `:` may follow. Keywords are names.
const NAMES: &[&str] = &["w", "Z9", "_-:9", "é", "create", "where"];

/// An end has the name of its tag or none.
const MATCHES: &[&str] = &[
    "<Quotes><a><b>c</b></a> ELEMENT_AS $g</Quotes>",
    "<Quotes><a-1><b:2>c</b:2></> ELEMENT_AS $g</>",
    "<Quotes><é><_>c</></é> ELEMENT_AS $g</>",
];

/// A literal is a quoted text or a run of words; a word has any bytes but blanks and `<`, `>`, `=`,
/// `"`, `$`, `,`.
const LITERALS: &[&str] = &[
    "c",
    " c\n  d ",
    ".Z9",
    "-1",
    "+1",
    "c_d",
    "é",
    "(c)'#;/.\\",
    "c!d",
    "!",
    "ELEMENT_AS",
    "\"c\"",
    "\"\"",
    "\" <,=$c> \"",
    "\"a \\\"b\\\" \\\\\"",
    "\"c\nd\"",
];

/// A source needs no quotation marks, and a comma may stand in front of `CONSTRUCT`.
const SOURCES: &[&str] = &[
    "\"quotes\"",
    "quotes",
    "quotes,",
    "\"quotes\" ,",
    "\"quotes\",\n",
];

/// `EVERY 0` is the same as no `EVERY`.
const ACTIONS: &[&str] = &[
    "DO print",
    "DO print\r\r",
    "DO print EVERY 0",
    "DO Print every 00000000000000000000",
];

#[test]
fn a_statement_has_many_spellings(rt: HostRuntime) -> Result<(), Fail> {
    expect_answer(&rt, &rt, "ok", WHOLE, SPELLED)?;
    expect_answer(&rt, &rt, "ok", NAME, NAMES)?;
    expect_answer(&rt, &rt, "ok", MATCH, MATCHES)?;
    expect_answer(&rt, &rt, "ok", TEXT, LITERALS)?;
    expect_answer(&rt, &rt, "ok", SOURCE_NAME, SOURCES)?;
    expect_answer(&rt, &rt, "ok", ACTION, ACTIONS)
}

/// Statements of one meaning: each is told the put of its quote.
const INSTALLED: &[(&str, &str)] = &[
    (
        "CREATE w where\n  <Quotes><Quote><Symbol>\"INTC\"</Symbol></Quote> element_as \
         $any</Quotes> in quotes, CONSTRUCT $any DO Print EVERY 0\n.\n",
        "2 ok\n",
    ),
    (
        "create w WHERE<Quotes><Quote><Price>95.50</></>ELEMENT_AS$g</>IN\"quotes\"CONSTRUCT$g DO \
         print\n.\n",
        "2 ok\n",
    ),
];

#[test]
fn a_spelling_changes_no_answer(rt: HostRuntime) -> Result<(), Fail> {
    let alloc = rt.alloc();
    for (statement, answer) in INSTALLED {
        let script = joined(alloc, &[SOURCE, *statement, PUT_95])?;
        let want = joined(alloc, &["1 ok\n", *answer, "3 ok\n", TOLD_95])?;
        expect_output(&rt, &rt, &script, &want, statement)?;
    }
    Ok(())
}

/// Texts that end too early, and two statements.
const CUT: &[&str] = &[
    "create",
    "create w",
    "create w WHERE",
    "create w WHERE <Quotes>",
    "create w <Quotes><a><b>c</></> ELEMENT_AS $g</> IN \"quotes\" CONSTRUCT $g DO print",
    "create w WHERES <Quotes><a><b>c</></> ELEMENT_AS $g</> IN \"quotes\" CONSTRUCT $g DO print",
    "create w WHERE <Quotes><a><b>c</></> ELEMENT_AS $g</> \"quotes\" CONSTRUCT $g DO print",
    "create v WHERE <Quotes><a/></> IN q CONSTRUCT $g DO print\n\
     create w WHERE <Quotes><a/></> IN q CONSTRUCT $g DO print",
];

const NO_NAMES: &[&str] = &["", "w w", "1w", "w.1", "-w", "$w", "\"w\""];

/// A root has patterns alone, one at least, no attribute and no suffix. Tags end in their order.
const NO_MATCHES: &[&str] = &[
    "",
    "<Quotes/>",
    "<Quotes></>",
    "<Quotes>c</>",
    "<Quotes>$g</>",
    "<Quotes><a/> c</>",
    "<Quotes x=\"1\"><a/></>",
    "<Quotes><a/></> ELEMENT_AS $g",
    "<Quotes><a/></quotes>",
    "<Quotes><a/></></>",
    "<Quotes><a/>",
    "$x = 1, <Quotes><a/></>",
    ", <Quotes><a/></>",
];

/// An attribute has a value in marks or a variable, and its name stands once. One suffix at most,
/// with a variable.
const NO_PATTERNS: &[&str] = &[
    "<-a/>",
    "<:a/>",
    "<1/>",
    "< a/>",
    "<>",
    "<a></A>",
    "<a></a a>",
    "<a></b>",
    "<a id/>",
    "<a id=7/>",
    "<a id=\"7\" id=\"8\"/>",
    "<a \"7\"/>",
    "<a id==\"7\"/>",
    "<a/> ELEMENT_AS",
    "<a/> ELEMENT_AS g",
    "<a/> ELEMENT AS $g",
    "<a/> ELEMENT_AS $g CONTENT_AS $c",
];

/// Patterns and texts do not mix, and a text is one literal or one variable.
const NO_CONTENTS: &[&str] = &[
    "c<d/>",
    "<d/>c",
    "\"c\" \"d\"",
    "c \"d\"",
    "$x $y",
    "c $x",
    "c,d",
    "c=d",
    "c!=d",
];

/// A name has a mark at both ends or none. A condition has a comparison and a variable.
const NO_SOURCES: &[&str] = &[
    "",
    "$q",
    "\"quotes\" \"quotes\"",
    "\"quotes\",,",
    "\"quotes\" CONSTRUCT",
    "\"quotes",
    "\"quotes\\\"",
    "quotes\"",
    "quotes, 1 = 1",
    "quotes, $x",
    "quotes, $x =",
    "quotes, = $x",
    "quotes, $x == 1",
    "quotes, $x ! = 1",
    "quotes $x = 1",
];

/// What is made of an answer is a variable or one element.
const NO_TEMPLATES: &[&str] = &[
    "",
    "$g",
    "CONSTRUCT",
    "CONSTRUCT g",
    "CONSTRUCT \"g\"",
    "CONSTRUCT $",
    "CONSTRUCT $1",
    "CONSTRUCT $é",
    "CONSTRUCT $g $g",
    "CONSTRUCT <hit>$g",
    "CONSTRUCT <hit a=1/>",
    "CONSTRUCT <hit a=\"1\" a=\"2\"/>",
    // There are no comments in a block.
    "CONSTRUCT $g\n# x\n",
];

/// One action, one argument at most, then times, each once and with a number.
const NO_ACTIONS: &[&str] = &[
    "",
    "DO",
    "print",
    "DO \"print\"",
    "DO $g",
    "DO print x y",
    "DO print \"x\" \"y\"",
    "DO print $g",
    "DO print,",
    "DO print EVERY",
    "DO print EVERY x",
    "DO print EVERY -1",
    "DO print EVERY \"0\"",
    "DO print EVERY 18446744073709551616",
    "DO print EVERY 000000000000000000000",
    "DO print EVERY 0 EVERY 0",
    "DO print START 1 EVERY 0 START 1",
    "DO print EVERY 0 x",
    "DO print\n# x",
];

#[test]
fn a_text_that_is_no_statement_is_refused(rt: HostRuntime) -> Result<(), Fail> {
    let answer = "refused 10 query";
    expect_answer(&rt, &rt, answer, WHOLE, CUT)?;
    expect_answer(&rt, &rt, answer, NAME, NO_NAMES)?;
    expect_answer(&rt, &rt, answer, MATCH, NO_MATCHES)?;
    expect_answer(&rt, &rt, answer, PATTERN, NO_PATTERNS)?;
    expect_answer(&rt, &rt, answer, TEXT, NO_CONTENTS)?;
    expect_answer(&rt, &rt, answer, SOURCE_NAME, NO_SOURCES)?;
    expect_answer(&rt, &rt, answer, TEMPLATE, NO_TEMPLATES)?;
    expect_answer(&rt, &rt, answer, ACTION, NO_ACTIONS)
}

/// Any number of patterns, with attributes, texts, parts and suffixes. An end closes the tag or
/// stands in it.
const PATTERNS: &[&str] = &[
    "<a><b>c</></> ELEMENT_AS $g <a/>",
    "<a/> <a><b>c</></> ELEMENT_AS $g",
    "<a/> ELEMENT_AS $g",
    "<a></> ELEMENT_AS $g",
    "<a>c</> ELEMENT_AS $g",
    "<a>$c</> ELEMENT_AS $g",
    "<a>$g</>",
    "<a id=$g/>",
    "<a><b>c</><d>e</></> ELEMENT_AS $g",
    "<a id=\"7\"><b>c</></> ELEMENT_AS $g",
    "<a id=$i><b>c</></> ELEMENT_AS $g",
    "<a><b>c</></> CONTENT_AS $g",
];

/// The same in a pattern; a variable may stand in many places.
const PARTS: &[&str] = &[
    "<b/>",
    "<b></>",
    "<b>$c</>",
    "<b><c/></>",
    "<b id=\"7\">c</>",
    "<b>c</> ELEMENT_AS $c",
    "<b>c</> CONTENT_AS $g",
];

/// More matches, and conditions.
const ITEMS: &[&str] = &[
    "\"quotes\", <Quotes><a/></> IN \"quotes\"",
    "\"quotes\", $g = 1",
    "\"quotes\", 1 != $g,",
    "\"quotes\", $g <= $g, <Quotes><d>$h</></> IN quotes, \"a b\" > $h",
];

const TEMPLATES: &[&str] = &["CONSTRUCT <hit>$g</>", "CONSTRUCT <hit/>"];

/// Other actions with their arguments, and times.
const OTHER_ACTIONS: &[&str] = &[
    "DO count",
    "DO mailto \"ops desk\"",
    "DO MAILTO x",
    "DO mailto \"\"",
    "DO mailto \"start\" START 1 EVERY 2 EXPIRE 3",
    "DO mailto\n.. ",
    "DO print EVERY 1",
    "DO print START 0",
    "DO print EXPIRE 0",
    "DO print EXPIRE 5 START 5",
    "DO print EXPIRE 18446744073709551615",
];

#[test]
fn a_statement_has_many_forms(rt: HostRuntime) -> Result<(), Fail> {
    expect_answer(&rt, &rt, "ok", PATTERN, PATTERNS)?;
    expect_answer(&rt, &rt, "ok", PART, PARTS)?;
    expect_answer(&rt, &rt, "ok", SOURCE_NAME, ITEMS)?;
    expect_answer(&rt, &rt, "ok", TEMPLATE, TEMPLATES)?;
    expect_answer(&rt, &rt, "ok", ACTION, OTHER_ACTIONS)
}

/// Patterns without the variable of the template. Variables are compared byte by byte.
const UNBOUND_PATTERNS: &[&str] = &[
    "<a><b>c</></>",
    "<a><b>c</></> ELEMENT_AS $h",
    "<a><b>c</></> ELEMENT_AS $G",
];

/// Conditions on a variable that no pattern has.
const UNBOUND_ITEMS: &[&str] = &["\"quotes\", $h = 1", "\"quotes\", $g = $h"];

const UNBOUND_TEMPLATES: &[&str] = &[
    "CONSTRUCT $h",
    "CONSTRUCT <hit>$g <in>$h</></>",
    "CONSTRUCT <hit a=$h/>",
];

#[test]
fn a_used_variable_is_in_a_pattern(rt: HostRuntime) -> Result<(), Fail> {
    let answer = "refused 11 unbound";
    expect_answer(&rt, &rt, answer, PATTERN, UNBOUND_PATTERNS)?;
    expect_answer(&rt, &rt, answer, SOURCE_NAME, UNBOUND_ITEMS)?;
    expect_answer(&rt, &rt, answer, TEMPLATE, UNBOUND_TEMPLATES)
}

/// An action that is not there, an argument too much, and one too few. A dot with a blank ends no
/// block: it is an argument. The action is judged before the times.
const NO_HANDLERS: &[&str] = &[
    "DO prints",
    "DO fax",
    "DO print x",
    "DO print \"start\"",
    "DO print \"\"",
    "DO count x",
    "DO mailto",
    "DO mailto EVERY 5",
    "DO start 5",
    "DO print\n. ",
    "DO print\n..",
    "DO fax START 5 EXPIRE 4",
];

/// The expiry is not below the start.
const NO_TIMES: &[&str] = &[
    "DO print START 5 EXPIRE 4",
    "DO print EXPIRE 4 EVERY 9 START 5",
];

#[test]
fn a_statement_has_an_action_and_times(rt: HostRuntime) -> Result<(), Fail> {
    expect_answer(&rt, &rt, "refused 13 action", ACTION, NO_HANDLERS)?;
    expect_answer(&rt, &rt, "refused 14 times", ACTION, NO_TIMES)
}

/// The name of a source is the text without its marks, byte by byte.
const OTHER_SOURCES: &[&str] = &[
    "\"Quotes\"",
    "Quotes",
    "\"quotes \"",
    "\"quotes\n\"",
    "\"a\rb\"",
    "a.b:c\x0c",
    "\"a,b\"",
    "\"a\\b\"",
    "\"\"",
    "(quotes)",
    "\"\\\"quotes\\\"\"",
    "\"nothing\", $g = 1",
    "\"quotes\", <quotes><a/></> IN \"nothing\"",
];

/// Roots that are not that of the source.
const OTHER_ROOTS: &[&str] = &[
    "<quotes><a><b>c</></> ELEMENT_AS $g</>",
    "<Quote><a><b>c</></> ELEMENT_AS $g</>",
    "<Quotes:1><a><b>c</></> ELEMENT_AS $g</>",
    "<é><a><b>c</></> ELEMENT_AS $g</é>",
];

/// The source is judged before the root.
const BOTH: &[&str] = &[
    "create w WHERE <quotes><a><b>c</></> ELEMENT_AS $g</> IN \"Quotes\" CONSTRUCT $g DO print",
];

#[test]
fn a_statement_names_a_source_and_its_root(rt: HostRuntime) -> Result<(), Fail> {
    expect_answer(&rt, &rt, "refused 4 no-source", SOURCE_NAME, OTHER_SOURCES)?;
    expect_answer(&rt, &rt, "refused 4 no-source", WHOLE, BOTH)?;
    expect_answer(&rt, &rt, "refused 12 root", MATCH, OTHER_ROOTS)
}

/// Where the lines of a statement begin and end.
const BLOCKS: &[(&str, &str)] = &[
    ("create", "2 refused 16 unfinished\n"),
    ("create w\n", "2 refused 16 unfinished\n"),
    ("create\nreport\n", "2 refused 16 unfinished\n"),
    ("create w\n. \n", "2 refused 16 unfinished\n"),
    (
        "creates w\n.\n",
        "2 refused 1 command\n3 refused 1 command\n",
    ),
    (
        "create\x0cw\n.\n",
        "2 refused 1 command\n3 refused 1 command\n",
    ),
    ("create\n.\nclock 0\n", "2 refused 10 query\n3 ok\n"),
    // Commands in it are words of the statement.
    (
        "create w\nsource a root A key k\ndelta quotes\n.\nclock 0\n",
        "2 refused 10 query\n3 ok\n",
    ),
];

#[test]
fn a_statement_ends_with_a_dot(rt: HostRuntime) -> Result<(), Fail> {
    expect_each(&rt, &rt, (SOURCE, "1 ok\n"), BLOCKS)
}
