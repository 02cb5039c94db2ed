//! `delta`: which lines open, fill and end its block, and what they say.

use super::{SOURCE, expect_each};
use std::test::Fail;

/// What stands in front of the scripts of this file, where a table does not say otherwise.
const DECLARED: (&str, &str) = (SOURCE, "1 ok\n");

/// "A block ends with the line that is exactly `.`." One carriage return at its end is no part of
/// the line.
const ENDS: &[(&str, &str)] = &[
    ("delta quotes\n.\r\n", "2 ok\n"),
    ("delta quotes\n.", "2 ok\n"),
    ("delta quotes\n.\r", "2 ok\n"),
    ("delta quotes\n", "2 refused 16 unfinished\n"),
    ("delta quotes\n. \n", "2 refused 16 unfinished\n"),
    ("delta quotes\n .\n", "2 refused 16 unfinished\n"),
    ("delta quotes\n..\n", "2 refused 16 unfinished\n"),
    ("delta quotes\n.\r\r\n", "2 refused 16 unfinished\n"),
    (
        "delta quotes\n. \n.\nclock 0\n",
        "2 refused 5 pyx 1\n3 ok\n",
    ),
    // A dot begins longer lines too.
    ("delta quotes\n.x\n.\n", "2 refused 5 pyx 1\n"),
    ("delta quotes\n.\n.\n", "2 ok\n3 refused 1 command\n"),
    ("delta quotes\n.\nclock 0", "2 ok\n3 ok\n"),
];

/// The line that opens a block: blanks and case are free.
const OPENINGS: &[(&str, &str)] = &[
    ("\tDELTA \rquotes\t\n.\n", "2 ok\n"),
    ("delta\n.\n", "2 refused 1 command\n"),
    ("delta quotes quotes\n.\n", "2 refused 1 command\n"),
    (
        "deltas quotes\n.\n",
        "2 refused 1 command\n3 refused 1 command\n",
    ),
    // Names are compared byte by byte.
    ("delta Quotes\n.\n", "2 refused 4 no-source\n"),
    ("delta quote\n.\n", "2 refused 4 no-source\n"),
    ("delta quotes\0\n.\n", "2 refused 4 no-source\n"),
    ("delta quotes\r\r\n.\n", "2 ok\n"),
    (
        "delta\x0cquotes\n.\n",
        "2 refused 1 command\n3 refused 1 command\n",
    ),
    // Whatever else the line holds, it opens a block.
    (
        "delta\n(Quote\n)Quote\n.\nclock 0\n",
        "2 refused 1 command\n3 ok\n",
    ),
    ("delta\nreport\n", "2 refused 1 command\n"),
];

/// Comments, blank lines and commands are lines of the block; an empty one is skipped.
const LINES: &[(&str, &str)] = &[
    ("delta quotes\n\n.\n", "2 ok\n"),
    ("delta quotes\n# x\n.\n", "2 refused 5 pyx 1\n"),
    ("delta quotes\n \n.\n", "2 refused 5 pyx 1\n"),
    (
        "delta quotes\nreport\ndelta quotes\n.\n",
        "2 refused 5 pyx 1\n",
    ),
    (
        "# x\ndelta quotes\n.\n# x\n\ndelta quotes\n.\n",
        "2 ok\n3 ok\n",
    ),
    // Of texts outside the elements only white ones are taken.
    ("delta quotes\n-\n- \n-\t\r\n.\n", "2 ok\n"),
    ("delta quotes\n-x\n.\n", "2 refused 5 pyx 1\n"),
    ("delta quotes\n-\x0c\n.\n", "2 refused 5 pyx 1\n"),
    ("delta quotes\n\r\n.\n", "2 ok\n"),
    ("delta quotes\n\r\r\n.\n", "2 refused 5 pyx 1\n"),
    ("delta quotes\n \r\n.\n", "2 refused 5 pyx 1\n"),
    ("delta quotes\n\t# x\n.\n", "2 refused 5 pyx 1\n"),
];

/// Brackets match by name, and names have no white space and no backslash.
const BRACKETS: &[(&str, &str)] = &[
    ("delta quotes\n(Quote\n.\n", "2 refused 5 pyx 2\n"),
    ("delta quotes\n)Quote\n.\n", "2 refused 5 pyx 1\n"),
    ("delta quotes\n(Quote\n)Quot\n.\n", "2 refused 5 pyx 2\n"),
    ("delta quotes\n(Quote\n)quote\n.\n", "2 refused 5 pyx 2\n"),
    (
        "delta quotes\n(Quote\n(a\n)Quote\n)a\n.\n",
        "2 refused 5 pyx 3\n",
    ),
    ("delta quotes\n(\n)\n.\n", "2 refused 5 pyx 1\n"),
    ("delta quotes\n(Quote \n)Quote \n.\n", "2 refused 5 pyx 1\n"),
    (
        "delta quotes\n(Qu\tote\n)Qu\tote\n.\n",
        "2 refused 5 pyx 1\n",
    ),
    (
        "delta quotes\n(Qu\\ote\n)Qu\\ote\n.\n",
        "2 refused 5 pyx 1\n",
    ),
    ("delta quotes\n (Quote\n )Quote\n.\n", "2 refused 5 pyx 1\n"),
];

/// Deletions, attributes, escapes, and the lines of other tools.
const OTHER_LINES: &[(&str, &str)] = &[
    ("delta quotes\n!INTC\n.\n", "2 refused 7 no-key 1\n"),
    ("delta quotes\n!\n.\n", "2 refused 7 no-key 1\n"),
    (
        "delta quotes\n(Quote\nAid 7\n(Symbol\n-a\n)Symbol\n)Quote\n.\n",
        "2 ok\n",
    ),
    (
        "delta quotes\n(Quote\n(Symbol\n-a\\n\n)Symbol\n)Quote\n.\n",
        "2 ok\n",
    ),
    (
        "delta quotes\n(Quote\n(Symbol\n-a\\\n)Symbol\n)Quote\n.\n",
        "2 ok\n",
    ),
    ("delta quotes\n-\\n\n.\n", "2 ok\n"),
    (
        "delta quotes\n?x\n.\ndelta quotes\nC\n.\ndelta quotes\n[x\n.\ndelta quotes\n&x\n.\n\
         delta quotes\n\0\n.\n",
        "2 ok\n3 ok\n4 refused 5 pyx 1\n5 refused 5 pyx 1\n6 refused 5 pyx 1\n",
    ),
    (
        "delta quotes\n(Quote\nAid\nAid 7\n)Quote\n.\n",
        "2 refused 5 pyx 3\n",
    ),
    (
        "delta quotes\n(Quote\n-x\nAid\n)Quote\n.\n",
        "2 refused 5 pyx 3\n",
    ),
    ("delta quotes\nAid 7\n.\n", "2 refused 5 pyx 1\n"),
    (
        "delta quotes\n(Quote\n!INTC\n)Quote\n.\n",
        "2 refused 5 pyx 2\n",
    ),
];

/// The items of a delta are applied in order: a deletion sees the items before it.
const ITEMS: &[(&str, &str)] = &[
    (
        "delta quotes\n(x\n(Symbol\n-a\n)Symbol\n)x\n!a\n.\n",
        "2 ok\n",
    ),
    (
        "delta quotes\n(x\n(Symbol\n-a\n)Symbol\n)x\n!a\n!a\n.\n",
        "2 refused 7 no-key 3\n",
    ),
    (
        "delta quotes\n!a\n(x\n(Symbol\n-a\n)Symbol\n)x\n.\n",
        "2 refused 7 no-key 1\n",
    ),
    // The first item that cannot be applied is named, and it alone.
    ("delta quotes\n(x\n)x\n!a\n.\n", "2 refused 6 key 1\n"),
    ("delta quotes\n!a\n(x\n)x\n.\n", "2 refused 7 no-key 1\n"),
    // A key has its escapes in the line that deletes it.
    (
        "delta quotes\n(x\n(Symbol\n-a\\tb\n)Symbol\n)x\n.\ndelta quotes\n!a\\tb\n.\n",
        "2 ok\n3 ok\n",
    ),
];

/// Exactly one key that is not empty, directly in the element.
const KEYS: &[(&str, &str)] = &[
    ("delta quotes\n(Quote\n)Quote\n.\n", "2 refused 6 key 1\n"),
    (
        "delta quotes\n(Quote\n-Symbol\n)Quote\n.\n",
        "2 refused 6 key 1\n",
    ),
    (
        "delta quotes\n(Quote\n(symbol\n-a\n)symbol\n)Quote\n.\n",
        "2 refused 6 key 1\n",
    ),
    (
        "delta quotes\n(Quote\n(Symbol\n)Symbol\n)Quote\n.\n",
        "2 refused 6 key 1\n",
    ),
    (
        "delta quotes\n(Quote\n(Symbol\n- \t\n)Symbol\n)Quote\n.\n",
        "2 refused 6 key 1\n",
    ),
    (
        "delta quotes\n(Quote\n(Symbol\n-\0\n)Symbol\n)Quote\n.\n",
        "2 ok\n",
    ),
    (
        "delta quotes\n(Quote\n(Symbol\n-a\n)Symbol\n(Symbol\n-a\n)Symbol\n)Quote\n.\n",
        "2 refused 6 key 1\n",
    ),
    (
        "delta quotes\n(Quote\n(Symbol\n-a\n)Symbol\n(Symbol\n)Symbol\n)Quote\n.\n",
        "2 refused 6 key 1\n",
    ),
    (
        "delta quotes\n(Quote\n(a\n(Symbol\n-a\n)Symbol\n)a\n)Quote\n.\n",
        "2 refused 6 key 1\n",
    ),
    (
        "delta quotes\n(Symbol\n-a\n)Symbol\n.\n",
        "2 refused 6 key 1\n",
    ),
    (
        "delta quotes\n(x\n(Symbol\n-a\n)Symbol\n)x\n-\n(y\n)y\n(z\n)z\n.\n",
        "2 refused 6 key 2\n",
    ),
    (
        "delta quotes\n(x\n(Symbol\n-a\n)Symbol\n)x\n(x\n)x\n-x\n.\n",
        "2 refused 5 pyx 8\n",
    ),
    // White space in an element is no text; blanks behind a bracket would be.
    (
        "delta quotes\n(x\n-\n(Symbol\n-\n-a\n- \n)Symbol\n- \n)x\n.\n",
        "2 ok\n",
    ),
];

/// Whole scripts without a source: first the form and the end, then the lines, then the source,
/// then the keys.
const UNDECLARED: &[(&str, &str)] = &[
    ("delta quotes\n.\n", "1 refused 4 no-source\n"),
    (
        "delta quotes\n(Quote\n)Quote\n.\n",
        "1 refused 4 no-source\n",
    ),
    ("delta quotes\n(Quote\n.\n", "1 refused 5 pyx 2\n"),
    ("delta quotes\n!INTC\n.\n", "1 refused 4 no-source\n"),
    ("delta a\"b,(\\\n.\n", "1 refused 4 no-source\n"),
    (
        "delta quotes\n(Quote\n)Quote\n",
        "1 refused 16 unfinished\n",
    ),
    ("delta quotes\n(Quote\n", "1 refused 16 unfinished\n"),
    ("delta quotes", "1 refused 16 unfinished\n"),
    ("delta", "1 refused 1 command\n"),
    ("delta\n.\n", "1 refused 1 command\n"),
];

#[test]
fn a_block_ends_with_a_dot(rt: HostRuntime) -> Result<(), Fail> {
    expect_each(&rt, &rt, DECLARED, ENDS)
}

#[test]
fn a_delta_opens_a_block(rt: HostRuntime) -> Result<(), Fail> {
    expect_each(&rt, &rt, DECLARED, OPENINGS)
}

#[test]
fn a_block_has_no_comments(rt: HostRuntime) -> Result<(), Fail> {
    expect_each(&rt, &rt, DECLARED, LINES)
}

#[test]
fn brackets_match_by_name(rt: HostRuntime) -> Result<(), Fail> {
    expect_each(&rt, &rt, DECLARED, BRACKETS)
}

#[test]
fn a_line_is_told_by_its_first_byte(rt: HostRuntime) -> Result<(), Fail> {
    expect_each(&rt, &rt, DECLARED, OTHER_LINES)
}

#[test]
fn items_are_applied_in_order(rt: HostRuntime) -> Result<(), Fail> {
    expect_each(&rt, &rt, DECLARED, ITEMS)
}

#[test]
fn an_element_has_one_key(rt: HostRuntime) -> Result<(), Fail> {
    expect_each(&rt, &rt, DECLARED, KEYS)
}

#[test]
fn a_delta_of_no_source_is_refused(rt: HostRuntime) -> Result<(), Fail> {
    expect_each(&rt, &rt, ("", ""), UNDECLARED)
}
