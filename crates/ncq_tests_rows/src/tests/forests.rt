//! Answers worked out by hand, for one row, made of an element and of the same element shared, and
//! the templates that are filled from it.
//!
//! A template is a list of words: `<r` begins an element and `>` ends it, `-text` is a text, `$1`
//! the value at slot 1, and `@name1` an attribute with the string value of slot 1. As in lines,
//! `(r` begins an element as well, and `)r` ends it.

use super::making::{element_with, rows_of, shape_with, text_node, value_shapes};
use ncq_base::{Op, atom_of, bytes_of};
use ncq_construct::{answer_bytes, build, passes};
use ncq_plan::{
    Check, Checks, Predicates, Side, SlotAttribute, SlotAttributes, SlotTemplate, SlotTemplates,
    SlotText, Test,
};
use ncq_pyx::write_forest;
use ncq_row::{Names, Row, Rows, Shape, ShapeSuffix};
use ncq_tree::{Attribute, Element, Forest, Node};
use std::alloc::{AllocError, Global};
use std::process::Abort;
use std::test::Fail;

fn leaf(alloc: Global, tag: &str, text: &str) -> Result<Node, AllocError> {
    let mut children = Forest::new(alloc);
    if !text.is_empty() {
        children.push(text_node(alloc, text.as_bytes())?)?;
    }
    let element = element_with(alloc, tag.as_bytes(), children)?;
    Ok(Node::Element(element))
}

/// `<Symbol>INTC</><Price>95.5</><Note></>`
fn quote_parts(alloc: Global) -> Result<Forest, AllocError> {
    let mut parts = Forest::new(alloc);
    for (tag, text) in &[("Symbol", "INTC"), ("Price", "95.5"), ("Note", "")] {
        parts.push(leaf(alloc, tag, text)?)?;
    }
    Ok(parts)
}

/// `id="7"`
fn identity(alloc: Global) -> Result<Attribute, AllocError> {
    Ok(Attribute {
        name: bytes_of(alloc, b"id")?,
        value: bytes_of(alloc, b"7")?,
    })
}

/// `<Quote id="7"><Symbol>INTC</><Price>95.5</><Note></></>`
fn quote(alloc: Global) -> Result<Element, AllocError> {
    let mut quote = element_with(alloc, b"Quote", quote_parts(alloc)?)?;
    quote.attributes.push(identity(alloc)?)?;
    Ok(quote)
}

/// `<Quote id=$0><Symbol>$1</><Price>$2</><Note>$3</></> ELEMENT_AS $4`
fn shape(alloc: Global) -> Result<Shape, AllocError> {
    let mut attributes = Names::new(alloc);
    attributes.push(bytes_of(alloc, b"id")?)?;
    let parts = value_shapes(alloc, &["Symbol", "Price", "Note"])?;
    shape_with(alloc, b"Quote", attributes, parts, ShapeSuffix::Element)
}

/// The row of the shape in the quote, and the row in the same quote shared.
fn rows_in_quote(rt: &HostRuntime, shape: &Shape) -> Result<(Rows, Rows), AllocError> {
    let quote = quote(rt.alloc())?;
    rows_of(rt, shape, &quote)
}

/// The row of the shape in the quote, and the row in the same quote shared.
fn the_rows(rt: &HostRuntime) -> Result<(Rows, Rows), AllocError> {
    let shape = shape(rt.alloc())?;
    rows_in_quote(rt, &shape)
}

fn attribute(alloc: Global, words: &[u8]) -> Result<SlotAttribute, AllocError> {
    let (last, name) = words.split_last().unwrap_or((&b'0', b"a".as_slice()));
    Ok(SlotAttribute {
        name: bytes_of(alloc, name)?,
        value: SlotText::Slot(last.saturating_sub(b'0') as usize),
    })
}

/// The template into the content of the outer one, behind what is there.
fn put(mut outer: SlotTemplate, inner: SlotTemplate) -> Result<SlotTemplate, AllocError> {
    if let SlotTemplate::Element { content, .. } = &mut outer {
        content.push(inner)?;
    }
    Ok(outer)
}

fn with_attribute(
    alloc: Global,
    mut outer: SlotTemplate,
    words: &[u8],
) -> Result<SlotTemplate, AllocError> {
    if let SlotTemplate::Element { attributes, .. } = &mut outer {
        attributes.push(attribute(alloc, words)?)?;
    }
    Ok(outer)
}

fn begun(alloc: Global, mark: u8, rest: &[u8]) -> Result<SlotTemplate, AllocError> {
    match mark {
        b'<' | b'(' => Ok(SlotTemplate::Element {
            tag: bytes_of(alloc, rest)?,
            attributes: SlotAttributes::new(alloc),
            content: SlotTemplates::new(alloc),
        }),
        b'$' => Ok(SlotTemplate::Slot(rest.first().map_or(0, |b| b.saturating_sub(b'0') as usize))),
        _ => Ok(SlotTemplate::Text(bytes_of(alloc, rest)?)),
    }
}

/// The last but one with the last put into it.
fn close(open: &mut Vec<SlotTemplate>) -> Result<(), AllocError> {
    if let Some(inner) = open.pop() {
        let whole = match open.pop() {
            Some(outer) => put(outer, inner)?,
            None => inner,
        };
        open.push(whole)?;
    }
    Ok(())
}

/// One word more of the templates that are open, the innermost last.
fn add_word(alloc: Global, open: &mut Vec<SlotTemplate>, word: &str) -> Result<(), AllocError> {
    let Some((mark, rest)) = word.as_bytes().split_first() else {
        return Ok(());
    };
    match *mark {
        b'>' | b')' => return close(open),
        b'@' => {
            if let Some(outer) = open.pop() {
                open.push(with_attribute(alloc, outer, rest)?)?;
            }
            return Ok(());
        }
        b'<' | b'(' => open.push(begun(alloc, *mark, rest)?)?,
        _ => {
            open.push(begun(alloc, *mark, rest)?)?;
            return close(open);
        }
    }
    Ok(())
}

fn template(alloc: Global, words: &[&str]) -> Result<SlotTemplate, AllocError> {
    let mut open = Vec::new(alloc);
    for word in words {
        add_word(alloc, &mut open, word)?;
    }
    match open.pop() {
        Some(whole) => Ok(whole),
        None => begun(alloc, b'-', b"no template"),
    }
}

/// The template that answers these lines.
pub fn template_of_lines(alloc: Global, lines: &str) -> Result<SlotTemplate, AllocError> {
    let mut words = Vec::new(alloc);
    for line in lines.split('\n') {
        words.push(line)?;
    }
    template(alloc, words.as_slice())
}

/// Whether these are the lines of the forest.
fn has_lines(alloc: Global, forest: &Forest, want: &str) -> Result<bool, AllocError> {
    let mut lines = Vec::new(alloc);
    write_forest(forest, &mut lines)?;
    Ok(lines.as_slice() == want.as_bytes())
}

/// Whether the template builds the forest that has these lines.
fn is_built(
    alloc: Global,
    template: &SlotTemplate,
    row: &Row,
    want: &str,
) -> Result<bool, AllocError> {
    let forest = build(alloc, template, row)?;
    has_lines(alloc, &forest, want)
}

/// Whether the template answers these bytes for the row.
fn is_made(
    alloc: Global,
    template: &SlotTemplate,
    row: &Row,
    want: &str,
) -> Result<bool, AllocError> {
    let bytes = answer_bytes(alloc, template, row)?;
    Ok(bytes.as_slice() == want.as_bytes())
}

/// Whether the template answers these bytes for the row, and builds the forest that has them.
fn answers(
    alloc: Global,
    template: &SlotTemplate,
    row: &Row,
    want: &str,
) -> Result<bool, AllocError> {
    Ok(is_made(alloc, template, row, want)? && is_built(alloc, template, row, want)?)
}

/// Whether the template of the words answers these bytes for the row, and builds their forest.
fn is_answered(alloc: Global, words: &[&str], row: &Row, want: &str) -> Result<bool, AllocError> {
    let template = template(alloc, words)?;
    answers(alloc, &template, row, want)
}

const WHOLE: &str =
    "(Quote\nAid 7\n(Symbol\n-INTC\n)Symbol\n(Price\n-95.5\n)Price\n(Note\n)Note\n)Quote\n";

const INSIDE: &str = "(r\n-a\n(Quote\nAid 7\n(Symbol\n-INTC\n)Symbol\n(Price\n-95.5\n)Price\n\
    (Note\n)Note\n)Quote\n-b\n)r\n";

/// The words of a template, and the bytes that it makes of the row.
const ANSWERS: &[(&[&str], &str)] = &[
    // one slot: an attribute is one text, nodes stand as they are
    (&["$0"], "-7\n"),
    (&["$1"], "-INTC\n"),
    (&["$3"], ""),
    (&["$4"], WHOLE),
    // a text, white and empty
    (&["-a  b"], "-a  b\n"),
    (&["- "], ""),
    (&["-"], ""),
    // a variable in an attribute and in content, and texts that are adjacent
    (
        &["<r", "@sym1", "-Price of ", "$1", "-is", "$2", ">"],
        "(r\nAsym INTC\n-Price of INTCis95.5\n)r\n",
    ),
    (&["<r", ">"], "(r\n)r\n"),
    (&["<r", "- ", "$1", "-", "$3", "- ", ">"], "(r\n-INTC\n)r\n"),
    (&["<r", "- ", "$3", ">"], "(r\n)r\n"),
    // an element parts the texts
    (&["<r", "-a ", "$4", "- b", ">"], INSIDE),
    (
        &["<r", "-a", "<s", "$1", ">", "<t", ">", "-b", ">"],
        "(r\n-a\n(s\n-INTC\n)s\n(t\n)t\n-b\n)r\n",
    ),
    // attributes are sorted; one that is bound to nodes has their string value
    (&["<r", "@b2", "@a0", ">"], "(r\nAa 7\nAb 95.5\n)r\n"),
    (
        &["<r", "@all4", "@none3", ">"],
        "(r\nAall INTC 95.5\nAnone \n)r\n",
    ),
];

/// Each template makes its bytes of the row.
fn expect_answers(rt: &impl Abort, alloc: Global, row: &Row) -> Result<(), AllocError> {
    for (words, want) in ANSWERS {
        assert!(rt; is_answered(alloc, words, row, want)?, "{want}");
    }
    Ok(())
}

/// The one row makes the bytes of each template.
fn expect_row_answers(rt: &impl Abort, alloc: Global, rows: &Rows) -> Result<(), AllocError> {
    assert!(rt; rows.len() == 1);
    for row in rows.as_slice() {
        expect_answers(rt, alloc, row)?;
    }
    Ok(())
}

/// The one row makes the bytes of each template, and so does the one that is shared.
fn expect_both_answers(
    rt: &impl Abort,
    alloc: Global,
    rows: &Rows,
    sharing: &Rows,
) -> Result<(), AllocError> {
    expect_row_answers(rt, alloc, rows)?;
    expect_row_answers(rt, alloc, sharing)
}

#[test]
fn each_template_makes_these_bytes_of_the_row(rt: HostRuntime) -> Result<(), Fail> {
    let (rows, sharing) = the_rows(&rt)?;
    expect_both_answers(&rt, rt.alloc(), &rows, &sharing)?;
    Ok(())
}

/// Whether the row passes the one test, whose slots it has.
fn passes_one(
    alloc: Global,
    row: &Row,
    op: Op,
    left: usize,
    right: Side,
) -> Result<bool, AllocError> {
    let within = match &right {
        Side::Slot(slot) => *slot < row.len(),
        Side::Constant(_) => true,
    };
    if left >= row.len() || !within {
        return Ok(false);
    }
    let mut checks = Checks::new(alloc);
    checks.push(Check::Compare(Test { op, left, right }))?;
    Ok(passes(&checks, row, &Predicates::new(alloc)))
}

/// Tests of a slot and a constant, and whether the row passes them.
const CONSTANTS: &[(Op, usize, &str, bool)] = &[
    (Op::Lt, 2, "95.50001", true),
    (Op::Ge, 2, "95.50001", false),
    (Op::Eq, 2, "+95.50", true),
    (Op::Ne, 2, "+95.50", false),
    (Op::Eq, 1, "INTC", true),
    (Op::Lt, 1, "INTD", false),
    (Op::Ne, 3, "INTC", true),
    (Op::Eq, 0, "07", true),
];

/// Tests of two slots, and whether the row passes them.
const SLOTS: &[(Op, usize, usize, bool)] = &[
    (Op::Lt, 0, 2, true),
    (Op::Lt, 2, 0, false),
    (Op::Eq, 1, 1, true),
    (Op::Eq, 1, 3, false),
];

fn expect_constants(rt: &impl Abort, alloc: Global, row: &Row) -> Result<(), AllocError> {
    for (op, left, text, want) in CONSTANTS {
        let right = Side::Constant(atom_of(alloc, text.as_bytes())?);
        let passed = passes_one(alloc, row, *op, *left, right)?;
        assert!(rt; passed == *want, "{text}");
    }
    Ok(())
}

fn expect_slots(rt: &impl Abort, alloc: Global, row: &Row) -> Result<(), AllocError> {
    for (op, left, right, want) in SLOTS {
        let passed = passes_one(alloc, row, *op, *left, Side::Slot(*right))?;
        assert!(rt; passed == *want, "{left} {right}");
    }
    Ok(())
}

/// The row passes where nothing is asked, and each of the tests or not as was worked out.
fn expect_passes(rt: &impl Abort, alloc: Global, row: &Row) -> Result<(), AllocError> {
    assert!(rt; passes(&Checks::new(alloc), row, &Predicates::new(alloc)));
    expect_constants(rt, alloc, row)?;
    expect_slots(rt, alloc, row)
}

/// The one row passes the tests that it was worked out to pass.
fn expect_row_passes(rt: &impl Abort, alloc: Global, rows: &Rows) -> Result<(), AllocError> {
    assert!(rt; rows.len() == 1);
    for row in rows.as_slice() {
        expect_passes(rt, alloc, row)?;
    }
    Ok(())
}

/// The one row passes the tests that it was worked out to pass, and so does the one that is shared.
fn expect_both_passes(
    rt: &impl Abort,
    alloc: Global,
    rows: &Rows,
    sharing: &Rows,
) -> Result<(), AllocError> {
    expect_row_passes(rt, alloc, rows)?;
    expect_row_passes(rt, alloc, sharing)
}

#[test]
fn each_test_is_of_the_atoms(rt: HostRuntime) -> Result<(), Fail> {
    let (rows, sharing) = the_rows(&rt)?;
    expect_both_passes(&rt, rt.alloc(), &rows, &sharing)?;
    Ok(())
}
