//! How a script is cut into lines and words, and which of them begin a command.

use super::{expect_each, expect_output};
use std::test::Fail;

/// "A line without words, or whose first byte after blanks is `#`, is a comment."
const COMMENTS: &[(&str, &str)] = &[
    ("", ""),
    ("\n", ""),
    ("\n \t\r\n\r\n# x\n \t# clock 1\n", ""),
    // A carriage return is a blank, wherever it stands and whether its line ends or not.
    ("\r", ""),
    ("\r\r", ""),
    ("\r\r\n", ""),
    ("\r# x\n", ""),
    ("# x\r\n", ""),
    ("# x\rreport\n", ""),
    ("#report\n", ""),
    // They have no number.
    ("#\n\nclock 1\n  # x\nclock 1\n#", "1 ok\n2 ok\n"),
    // Behind a word it is no comment.
    ("report # x\n", "1 refused 1 command\n"),
    ("report#\n", "1 refused 1 command\n"),
];

/// "One CR at the end of a line is dropped." A last line needs no line feed.
const ENDS: &[(&str, &str)] = &[
    ("clock 0", "1 ok\n"),
    ("clock 0\n", "1 ok\n"),
    ("clock 0\r", "1 ok\n"),
    ("clock 0\r\n", "1 ok\n"),
    ("clock 0\r\r\n", "1 ok\n"),
    ("clock 0\n\r", "1 ok\n"),
    ("clock 0\n\n\r\nclock 0", "1 ok\n2 ok\n"),
    // A carriage return in a line parts words and ends no line.
    ("report\rreport\n", "1 refused 1 command\n"),
    ("clock\r1\n", "1 ok\n"),
    ("\rclock 0\n", "1 ok\n"),
];

/// "Every other byte belongs to a word": form feeds, vertical tabs, zeros, and the bytes of other
/// blanks and marks.
const WORDS: &[(&str, &str)] = &[
    (" \tclock \t 1\t \n", "1 ok\n"),
    ("\x0c\n", "1 refused 1 command\n"),
    ("\x0c# x\n", "1 refused 1 command\n"),
    ("\x0breport\n", "1 refused 1 command\n"),
    ("report\x0c\n", "1 refused 1 command\n"),
    ("clock\x0c1\n", "1 refused 1 command\n"),
    ("\0\n", "1 refused 1 command\n"),
    ("\u{a0}\n", "1 refused 1 command\n"),
    ("\u{a0}report\n", "1 refused 1 command\n"),
    ("\u{feff}# x\n", "1 refused 1 command\n"),
    ("é\n", "1 refused 1 command\n"),
];

/// Any word is a command, in any case of letters; one that is not known is refused, and so is
/// another form.
const COMMANDS: &[(&str, &str)] = &[
    ("jump\n", "1 refused 1 command\n"),
    // A dot outside a block is one.
    (".\n.\n", "1 refused 1 command\n2 refused 1 command\n"),
    (
        "sources quotes root Quotes key Symbol\n",
        "1 refused 1 command\n",
    ),
    (
        "REPORT\nClock 1\ndElEtE w\n",
        "1 ok\nqueries 0\nsources 0\nchanges 0\nfiles 0\ngroups 0\nend\n2 ok\n\
         3 refused 9 no-name\n",
    ),
    (
        "clock\nclock 1\nclock x\nclock 1 1\nreport\nreport 1\n",
        "1 refused 1 command\n2 ok\n3 refused 1 command\n4 refused 1 command\n5 ok\nqueries 0\n\
         sources 0\nchanges 0\nfiles 0\ngroups 0\nend\n6 refused 1 command\n",
    ),
    (
        "delete\ndelete w\ndelete w w\n",
        "1 refused 1 command\n2 refused 9 no-name\n3 refused 1 command\n",
    ),
    (
        "clock 18446744073709551615\nclock 18446744073709551616\nclock -1\nclock +1\n",
        "1 ok\n2 refused 1 command\n3 refused 1 command\n4 refused 1 command\n",
    ),
    (
        "clock 00000000000000000001\nclock 000000000000000000001\n",
        "1 ok\n2 refused 1 command\n",
    ),
];

#[test]
fn a_comment_is_no_command(rt: HostRuntime) -> Result<(), Fail> {
    expect_each(&rt, &rt, ("", ""), COMMENTS)
}

#[test]
fn a_line_ends_by_a_line_feed(rt: HostRuntime) -> Result<(), Fail> {
    expect_each(&rt, &rt, ("", ""), ENDS)
}

#[test]
fn blanks_part_words(rt: HostRuntime) -> Result<(), Fail> {
    expect_each(&rt, &rt, ("", ""), WORDS)
}

#[test]
fn a_first_word_begins_a_command(rt: HostRuntime) -> Result<(), Fail> {
    expect_each(&rt, &rt, ("", ""), COMMANDS)
}

/// Scripts that are no text: 255 is a letter in a statement and any byte in a document.
const BYTES: &[(&[u8], &[u8])] = &[
    (b"\xff\n", b"1 refused 1 command\n"),
    (b"\xff#\n", b"1 refused 1 command\n"),
    // The second byte of a no-break space alone.
    (b"\xa0report\n", b"1 refused 1 command\n"),
    (b"delta \xff\n.\n", b"1 refused 4 no-source\n"),
    (
        b"source \xff root \xff\xfe key \0\xff\ndelta \xff\n(\xff\n(\0\xff\n-x\n)\0\xff\n)\xff\n\
         .\n",
        b"1 ok\n2 ok\n",
    ),
    (
        b"source q root \xff key k\ncreate \xff WHERE <\xff><\xff><k>INTC</></> ELEMENT_AS $g</> \
         IN \"q\" CONSTRUCT $g DO print\n.\ndelta q\n(\xff\n-\0\xff\x80\n(k\n-INTC\n)k\n)\xff\n.\n",
        b"1 ok\n2 ok\n3 ok\nnotice \xff 0\ngain 1\n(\xff\n-\0\xff\x80\n(k\n-INTC\n)k\n)\xff\nend\n",
    ),
    (
        b"source q root R key k\ncreate w WHERE <R><a><k>\xff</></> ELEMENT_AS $g</> IN \"q\" \
         CONSTRUCT $g DO print\n.\ndelta q\n(a\n(k\n-\xff\n)k\n)a\n.\n",
        b"1 ok\n2 ok\n3 ok\nnotice w 0\ngain 1\n(a\n(k\n-\xff\n)k\n)a\nend\n",
    ),
    // A variable has ASCII letters alone.
    (
        b"source q root R key k\ncreate w WHERE <R><a><k>x</></> ELEMENT_AS $\xff</> IN \"q\" \
         CONSTRUCT $\xff DO print\n.\n",
        b"1 ok\n2 refused 10 query\n",
    ),
];

#[test]
fn bytes_that_are_no_text_are_kept(rt: HostRuntime) -> Result<(), Fail> {
    for (script, want) in BYTES {
        expect_output(&rt, &rt, script, want, "")?;
    }
    Ok(())
}
