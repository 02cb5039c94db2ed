//! Blocks of PYX lines, read and written.

use super::{Pair, expect_bytes, expect_text, lines_of, push_line};
use ncq_base::{Bytes, Lines, bytes_of};
use ncq_flat::{Asked, Items, read_flat_block};
use ncq_pyx::{
    Item as TreeItem, Items as TreeItems, MAX_NESTING, PyxError, read_block, write_element,
    write_forest,
};
use ncq_tree::{Attribute, Attributes, Element, Forest, Node};
use std::alloc::{AllocError, Global};
use std::process::Abort;
use std::test::Fail;

/// `!` and the key of a removal.
fn write_removal(key: &Bytes, out: &mut Vec<u8>) -> Result<(), AllocError> {
    out.push(b'!')?;
    out.extend_from_slice(key.as_slice())?;
    out.push(b'\n')?;
    Ok(())
}

/// The canonical lines of each element, and `!` and the key of each removal.
fn write_trees(items: TreeItems, out: &mut Vec<u8>) -> Result<(), AllocError> {
    for item in items.as_slice() {
        match item {
            TreeItem::Put(element) => write_element(element, out)?,
            TreeItem::Remove(key) => write_removal(key, out)?,
        }
    }
    Ok(())
}

/// The same of items whose elements are their lines.
fn write_items(items: Items, out: &mut Vec<u8>) -> Result<(), AllocError> {
    for item in items.as_slice() {
        match item.asked() {
            Asked::Put(element) => out.extend_from_slice(element.get().lines())?,
            Asked::Remove(key) => write_removal(key, out)?,
        }
    }
    Ok(())
}

/// The lines, each ended by a slash, each byte as a character.
fn show(alloc: Global, lines: &[u8]) -> Result<String, AllocError> {
    let mut shown = String::new(alloc);
    for byte in lines {
        let shown_byte = if *byte == b'\n' { b'/' } else { *byte };
        shown.push(char::from(shown_byte))?;
    }
    Ok(shown)
}

/// The error and its line.
fn fault(alloc: Global, why: PyxError) -> Result<String, AllocError> {
    match why {
        PyxError::BadLine { line } => format!(in alloc; "bad {line}"),
        PyxError::TooDeep { line } => format!(in alloc; "deep {line}"),
        PyxError::OutOfMemory => Err(AllocError),
    }
}

/// What the lines spell, read as trees, as lines that each end by a slash; or the error and its
/// line.
fn tree_answer(alloc: Global, lines: &Lines) -> Result<String, AllocError> {
    let mut out = Vec::new(alloc);
    match read_block(alloc, lines) {
        Ok(items) => write_trees(items, &mut out)?,
        Err(why) => return fault(alloc, why),
    }
    show(alloc, out.as_slice())
}

/// The same, where the elements are read as their lines.
fn answer(alloc: Global, lines: &Lines) -> Result<String, AllocError> {
    let mut out = Vec::new(alloc);
    match read_flat_block(alloc, lines) {
        Ok(items) => write_items(items, &mut out)?,
        Err(why) => return fault(alloc, why),
    }
    show(alloc, out.as_slice())
}

/// Compares what the lines spell, by both readers, or the fault and its line.
fn expect_read(
    rt: &impl Abort,
    alloc: Global,
    lines: &Lines,
    want: &str,
    row: &str,
) -> Result<(), AllocError> {
    let tree = tree_answer(alloc, lines)?;
    expect_text(rt, tree.as_str(), want, row);
    let flat = answer(alloc, lines)?;
    expect_text(rt, flat.as_str(), want, row);
    Ok(())
}

/// The same of lines that are parted by slashes.
fn expect_answer(
    rt: &impl Abort,
    alloc: Global,
    text: &[u8],
    want: &str,
    row: &str,
) -> Result<(), AllocError> {
    let lines = lines_of(alloc, text)?;
    expect_read(rt, alloc, &lines, want, row)
}

/// Compares what the lines of each case spell, or the fault and its line.
fn expect_answers(rt: &impl Abort, alloc: Global, cases: &[Pair]) -> Result<(), AllocError> {
    for (text, want) in cases {
        expect_answer(rt, alloc, text.as_bytes(), want, text)?;
    }
    Ok(())
}

/// Lines outside elements.
const OUTSIDE: &[Pair] = &[
    // Empty lines and lines of other tools are skipped, whatever follows their first byte.
    ("", ""),
    ("//", ""),
    ("?/C/D/N/U", ""),
    ("?a/Cb/D-x/N(x/U)x", ""),
    // Of texts only white space is taken, and escapes are undone before that is judged.
    ("-", ""),
    ("- \\t\\n\\r", ""),
    ("-\\t\\n\\r /-\\t", ""),
    ("-\t \r", ""),
    ("-x", "bad 1"),
    ("- x ", "bad 1"),
    ("-\\\\", "bad 1"),
    ("-\\", "bad 1"),
    ("-\\ ", "bad 1"),
    ("-\\q", "bad 1"),
    ("-\x0b", "bad 1"),
    ("-\x0c", "bad 1"),
    ("-\0", "bad 1"),
    // A deletion has any key, an empty one too, with its escapes and its spaces.
    ("!k", "!k/"),
    ("!", "!/"),
    ("!!", "!!/"),
    ("! k ", "! k /"),
    ("!k/!k", "!k/!k/"),
    ("!a\\\\n", "!a\\n/"),
    ("!a\\nb", "!a/b/"),
    ("!a\\", "!a\\/"),
    ("!\\q", "!\\q/"),
    // An attribute, a closing line and every other line are faults.
    ("Ab 1", "bad 1"),
    ("A", "bad 1"),
    (")a", "bad 1"),
    (")", "bad 1"),
    ("[x", "bad 1"),
    ("&x", "bad 1"),
    ("a", "bad 1"),
    ("c", "bad 1"),
    (" ", "bad 1"),
    (" (a", "bad 1"),
    ("\\n", "bad 1"),
    ("\0", "bad 1"),
    ("?/-/x", "bad 3"),
    ("!k/Ab 1", "bad 2"),
];

/// Lines that open and close elements.
const BRACKETS: &[Pair] = &[
    ("(a/)a", "(a/)a/"),
    ("(a/)a/(b/)b", "(a/)a/(b/)b/"),
    ("(a/)a/!k/(b/)b", "(a/)a/!k/(b/)b/"),
    ("?/(a//)a/-", "(a/)a/"),
    ("(a/)a/?x/C/D/N/U//- ", "(a/)a/"),
    ("(a/(b/)b/)a", "(a/(b/)b/)a/"),
    ("(a/(a/)a/)a", "(a/(a/)a/)a/"),
    ("(a/(b/)b/(b/)b/)a", "(a/(b/)b/(b/)b/)a/"),
    // The name is all behind the bracket; any byte but white space and the backslash can stand in
    // it.
    ("((/)(", "((/)(/"),
    ("()/))", "()/))/"),
    ("(-A?!/)-A?!", "(-A?!/)-A?!/"),
    ("(1/)1", "(1/)1/"),
    ("(\0/)\0", "(\0/)\0/"),
    ("(/)", "bad 1"),
    ("(a /)a ", "bad 1"),
    ("( a/) a", "bad 1"),
    ("(a b/)a b", "bad 1"),
    ("(a\tb/)a\tb", "bad 1"),
    ("(a\r/)a\r", "bad 1"),
    ("(a\\/)a\\", "bad 1"),
    ("(a\\n/)a\\n", "bad 1"),
    ("(\\\\/)\\\\", "bad 1"),
    // It ends where the innermost open element has its name, byte by byte.
    ("(Quote/)Quot", "bad 2"),
    ("(Quot/)Quote", "bad 2"),
    ("(Quote/)quote", "bad 2"),
    ("(Quote/)", "bad 2"),
    ("(Quote/)Quote ", "bad 2"),
    ("(Quote/) Quote", "bad 2"),
    ("(a/(b/)a", "bad 3"),
    ("(a/(b/)a/)b", "bad 3"),
    ("(a/(b/)b/)b", "bad 4"),
    ("(a/)a/)a", "bad 3"),
    ("(a/?/-x/)b", "bad 4"),
    // Where the lines end inside an element, the line behind the last is named.
    ("(Quote", "bad 2"),
    ("(Quote/", "bad 3"),
    ("(a/?x//", "bad 5"),
    ("(a/Ab 1", "bad 3"),
    ("(a/-x", "bad 3"),
    ("(a/(b", "bad 3"),
    ("(a/(b/)b", "bad 4"),
    ("(a/)a/(b", "bad 4"),
    // The first fault is named, and no later one.
    ("(a/)a/x", "bad 3"),
    ("(a/)a/x/(/Ab", "bad 3"),
    ("(a/)b/x", "bad 2"),
    ("(a/x/(b", "bad 2"),
];

/// Attribute lines.
const ATTRIBUTES: &[Pair] = &[
    // The name ends at the first space, and the value is all behind it, white space too.
    ("(a/Ab/)a", "(a/Ab /)a/"),
    ("(a/Ab /)a", "(a/Ab /)a/"),
    ("(a/Ab  /)a", "(a/Ab  /)a/"),
    ("(a/Ab c/)a", "(a/Ab c/)a/"),
    ("(a/Ab c d/)a", "(a/Ab c d/)a/"),
    ("(a/Ab  c /)a", "(a/Ab  c /)a/"),
    ("(a/AA A/)a", "(a/AA A/)a/"),
    ("(a/A) (/)a", "(a/A) (/)a/"),
    ("(a/Ab c\td\r/)a", "(a/Ab c\\td\\r/)a/"),
    ("(a/Ab \\n\\t\\r\\\\/)a", "(a/Ab \\n\\t\\r\\\\/)a/"),
    ("(a/Ab \\q\\/)a", "(a/Ab \\\\q\\\\/)a/"),
    ("(a/Ab \\\\n/)a", "(a/Ab \\\\n/)a/"),
    ("(a/Ab \0/)a", "(a/Ab \0/)a/"),
    // A name has no white space and no backslash, and is not empty; no escape stands in it.
    ("(a/A b/)a", "bad 2"),
    ("(a/A/)a", "bad 2"),
    ("(a/A /)a", "bad 2"),
    ("(a/Ab\tc/)a", "bad 2"),
    ("(a/Ab\r/)a", "bad 2"),
    ("(a/Ab\\ c/)a", "bad 2"),
    ("(a/Ab\\n c/)a", "bad 2"),
    ("(a/Ab\\\\/)a", "bad 2"),
    // They stand behind the opening line and one another, with only skipped lines between.
    ("(a/?/C/D/N/U//Ab 1/)a", "(a/Ab 1/)a/"),
    ("(a/Ab 1/?/C/D/N/U//Ac 2/)a", "(a/Ab 1/Ac 2/)a/"),
    ("(a/Ab 1/-x/)a", "(a/Ab 1/-x/)a/"),
    ("(a/Ab 1/(c/Ab 2/)c/)a", "(a/Ab 1/(c/Ab 2/)c/)a/"),
    (
        "(a/(c/Ab 2/)c/(d/Ab 3/)d/)a",
        "(a/(c/Ab 2/)c/(d/Ab 3/)d/)a/",
    ),
    ("(a/)a/(a/Ab 1/)a", "(a/)a/(a/Ab 1/)a/"),
    ("(a/-/Ab 1/)a", "bad 3"),
    ("(a/- /Ab 1/)a", "bad 3"),
    ("(a/-x/Ab 1/)a", "bad 3"),
    ("(a/-x/?/Ab 1/)a", "bad 4"),
    ("(a/Ab 1/-\\n/Ac 2/)a", "bad 4"),
    ("(a/(b/)b/Ab 1/)a", "bad 4"),
    ("(a/(b/)b//Ab 1/)a", "bad 5"),
    ("(a/)a/Ab 1", "bad 3"),
    // No name stands twice, whatever the values are; case and length tell names apart.
    ("(a/Ab 1/Ab 2/)a", "bad 3"),
    ("(a/Ab 1/Ab 1/)a", "bad 3"),
    ("(a/Ab/Ab /)a", "bad 3"),
    ("(a/Ab 1/?/Ab 2/)a", "bad 4"),
    ("(a/Ab 1/Ac 2/Ab 3/)a", "bad 4"),
    ("(a/Ac 1/Ab 2/Ab 3/)a", "bad 4"),
    ("(a/Ab 1/AB 2/Abb 3/)a", "(a/AB 2/Ab 1/Abb 3/)a/"),
    // They are put in the order of their names.
    ("(a/Ac 1/?pi//Ab 2/)a", "(a/Ab 2/Ac 1/)a/"),
    ("(a/Aab 1/Aa 2/Ab 3/)a", "(a/Aa 2/Aab 1/Ab 3/)a/"),
    ("(a/Ab2 1/Ab10 2/)a", "(a/Ab10 2/Ab2 1/)a/"),
    ("(a/(c/A2 x/A1 y/)c/)a", "(a/(c/A1 y/A2 x/)c/)a/"),
];

/// Texts and other lines inside elements.
const TEXTS: &[Pair] = &[
    ("(a/-x/)a", "(a/-x/)a/"),
    ("(a/-x y/)a", "(a/-x y/)a/"),
    ("(a/--/)a", "(a/--/)a/"),
    ("(a/-(b/)a", "(a/-(b/)a/"),
    ("(a/-)a/)a", "(a/-)a/)a/"),
    ("(a/-!k/)a", "(a/-!k/)a/"),
    ("(a/-?/)a", "(a/-?/)a/"),
    // An empty text and white space alone are no text.
    ("(a/-/)a", "(a/)a/"),
    ("(a/- /)a", "(a/)a/"),
    ("(a/-\\n\\t\\r /)a", "(a/)a/"),
    ("(a/-/- /-\\n/)a", "(a/)a/"),
    ("(a/-\\n/(b/)b/-\\n/)a", "(a/(b/)b/)a/"),
    // White space at the ends of a text goes, and that inside stays.
    ("(a/- x /)a", "(a/-x/)a/"),
    ("(a/-\\n\\tx\\r\\n/)a", "(a/-x/)a/"),
    ("(a/-x\\ny\\rz\\tw/)a", "(a/-x\\ny\\rz\\tw/)a/"),
    ("(a/-\0 /)a", "(a/-\0/)a/"),
    ("(a/-\x0c/)a", "(a/-\x0c/)a/"),
    // Texts that only skipped lines part are one, with nothing put between them.
    ("(a/-x/-y/)a", "(a/-xy/)a/"),
    ("(a/-x /- y/)a", "(a/-x  y/)a/"),
    ("(a/-x/- /-y/)a", "(a/-x y/)a/"),
    ("(a/-x/-/-y/)a", "(a/-xy/)a/"),
    ("(a/-x/?/C/D/N/U//-y/)a", "(a/-xy/)a/"),
    ("(a/-x/- /(b/)b/- /-y/)a", "(a/-x/(b/)b/-y/)a/"),
    ("(a/-x/(b/)b/-y/)a", "(a/-x/(b/)b/-y/)a/"),
    ("(a/-x/(b/-y/)b/-z/)a", "(a/-x/(b/-y/)b/-z/)a/"),
    ("(C/Aid 7/-a/- b/?x/-\\n/)C", "(C/Aid 7/-a b/)C/"),
    // The four escapes; a backslash before any other byte, or at the end of a line, stands for
    // itself.
    ("(a/-b\\tc/)a", "(a/-b\\tc/)a/"),
    ("(a/-b\tc/)a", "(a/-b\\tc/)a/"),
    ("(a/-b\rc/)a", "(a/-b\\rc/)a/"),
    ("(a/-\\\\/)a", "(a/-\\\\/)a/"),
    ("(a/-\\\\n/)a", "(a/-\\\\n/)a/"),
    ("(a/-\\\\\\n/)a", "(a/-\\\\/)a/"),
    ("(a/-\\q/)a", "(a/-\\\\q/)a/"),
    ("(a/-\\N/)a", "(a/-\\\\N/)a/"),
    ("(a/-\\ /)a", "(a/-\\\\/)a/"),
    ("(a/-x\\/)a", "(a/-x\\\\/)a/"),
    ("(a/-\\/-n/)a", "(a/-\\\\n/)a/"),
    ("(a/-\\\\\\\\\\/)a", "(a/-\\\\\\\\\\\\/)a/"),
    // A deletion and every other line are faults at each place in an element.
    ("(a/!k", "bad 2"),
    ("(a/Ab 1/!k", "bad 3"),
    ("(a/-x/!k/)a", "bad 3"),
    ("(a/(b/)b/!k/)a", "bad 4"),
    ("(a/x/)a", "bad 2"),
    ("(a/ /)a", "bad 2"),
    ("(a/Ab 1/[/)a", "bad 3"),
    ("(a/-x/\\/)a", "bad 3"),
];

#[test]
fn each_line_where_it_may_stand_and_where_not(rt: HostRuntime) -> Result<(), Fail> {
    let alloc = rt.alloc();
    expect_answers(&rt, alloc, OUTSIDE)?;
    expect_answers(&rt, alloc, BRACKETS)?;
    expect_answers(&rt, alloc, ATTRIBUTES)?;
    expect_answers(&rt, alloc, TEXTS)?;
    Ok(())
}

/// Lines with bytes that are no text.
const NO_TEXTS: &[(&[u8], &str)] = &[
    (b"\xff", "bad 1"),
    (b"-\xff", "bad 1"),
    (b"!\0\xff", "!\0\u{ff}/"),
    (b"(\xff/)\xfe", "bad 2"),
    (
        b"(\xff/A\xff \xff/-\xff/)\xff",
        "(\u{ff}/A\u{ff} \u{ff}/-\u{ff}/)\u{ff}/",
    ),
    (b"(\0/A\0 \0/-\0/)\0", "(\0/A\0 \0/-\0/)\0/"),
    (
        b"(a/A\xff 1/A\x80 2/Az 3/)a",
        "(a/Az 3/A\u{80} 2/A\u{ff} 1/)a/",
    ),
    (b"(a/-\\\xff/)a", "(a/-\\\\\u{ff}/)a/"),
    (b"(a/-\x85\xa0/)a", "(a/-\u{85}\u{a0}/)a/"),
];

#[test]
fn bytes_that_are_no_text_are_kept(rt: HostRuntime) -> Result<(), Fail> {
    for (text, want) in NO_TEXTS {
        expect_answer(&rt, rt.alloc(), text, want, want)?;
    }
    Ok(())
}

/// So many elements open in one another, the line, and so many closed.
fn nested(alloc: Global, opened: usize, line: &str, closed: usize) -> Result<Lines, AllocError> {
    let mut lines = Lines::new(alloc);
    for _ in 0..opened {
        push_line(&mut lines, b"(e")?;
    }
    push_line(&mut lines, line.as_bytes())?;
    for _ in 0..closed {
        push_line(&mut lines, b")e")?;
    }
    Ok(lines)
}

/// How many elements are opened, a line, how many are closed, and the answer.
type Nested = (usize, &'static str, usize, &'static str);

const NESTED: &[Nested] = &[
    (512, "(e", 513, "deep 513"),
    (513, "", 513, "deep 513"),
    (512, "(", 513, "bad 513"),
    (512, "", 511, "bad 1025"),
    (512, "", 513, "bad 1026"),
];

fn expect_nested(rt: &impl Abort, alloc: Global, row: &Nested) -> Result<(), AllocError> {
    let (opened, line, closed, want) = *row;
    let lines = nested(alloc, opened, line, closed)?;
    expect_read(rt, alloc, &lines, want, line)
}

/// Whether a line is read inside as many elements as there may be.
fn is_read_at_the_limit(alloc: Global) -> Result<bool, AllocError> {
    let lines = nested(alloc, MAX_NESTING, "-x", MAX_NESTING)?;
    Ok(read_block(alloc, &lines).is_ok() && read_flat_block(alloc, &lines).is_ok())
}

#[test]
fn nesting_has_a_limit(rt: HostRuntime) -> Result<(), Fail> {
    assert!(rt; is_read_at_the_limit(rt.alloc())?);
    for row in NESTED {
        expect_nested(&rt, rt.alloc(), row)?;
    }
    Ok(())
}

/// The attribute `id`, whose value ends by LF.
fn one_attribute(alloc: Global) -> Result<Attributes, AllocError> {
    let name = bytes_of(alloc, b"id")?;
    let value = bytes_of(alloc, b"7\n")?;
    let mut attributes = Attributes::new(alloc);
    attributes.push(Attribute { name, value })?;
    Ok(attributes)
}

fn push_text(alloc: Global, forest: &mut Forest, text: &[u8]) -> Result<(), AllocError> {
    let text = bytes_of(alloc, text)?;
    forest.push(Node::Text(text))
}

/// An element with an attribute and a text.
fn one_element(alloc: Global) -> Result<Element, AllocError> {
    let name = bytes_of(alloc, b"C")?;
    let attributes = one_attribute(alloc)?;
    let mut children = Forest::new(alloc);
    push_text(alloc, &mut children, b"a\tb\\")?;
    Ok(Element {
        name,
        attributes,
        children,
    })
}

/// A text and an element.
fn one_forest(alloc: Global) -> Result<Forest, AllocError> {
    let mut forest = Forest::new(alloc);
    push_text(alloc, &mut forest, b"x")?;
    forest.push(Node::Element(one_element(alloc)?))?;
    Ok(forest)
}

/// The lines of that forest behind a line.
fn written_behind(alloc: Global, line: &[u8]) -> Result<Vec<u8>, AllocError> {
    let forest = one_forest(alloc)?;
    let mut out = Vec::from_slice(alloc, line)?;
    write_forest(&forest, &mut out)?;
    Ok(out)
}

#[test]
fn a_forest_is_written(rt: HostRuntime) -> Result<(), Fail> {
    let out = written_behind(rt.alloc(), b"gain 1\n")?;
    let want = b"gain 1\n-x\n(C\nAid 7\\n\n-a\\tb\\\\\n)C\n";
    expect_bytes(&rt, &out, want, "");
    Ok(())
}
