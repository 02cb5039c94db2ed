//! Texts of signatures worked out by hand, for expressions that are written in letters.
//!
//! A lower-case letter is a scan, any other letter stands behind its one or two inputs: `p=` is an
//! equality over the scan `p`, `pq.` the product of the scans `p` and `q`.

use super::making::{shape_with, value_shapes};
use ncq_base::{Atom, Shared, bytes_of};
use ncq_plan::{End, Expr, Interval, Pair, Pairs};
use ncq_row::{Names, Shape, ShapeSuffix, Shapes};
use ncq_signature::{Signature, signature_of, write_signature};
use std::alloc::{AllocError, Global};
use std::test::Fail;

/// Letters, and the text of the signature of their expression.
const TEXTS: &[(&str, &str)] = &[
    ("w=", "eq(scan(quotes,Quote(Symbol=)!e),0)"),
    ("p1", "eq(scan(quotes,Quote(Price=)),0)"),
    ("p^", "range(scan(quotes,Quote(Price=)),0)"),
    ("p^=", "eq(range(scan(quotes,Quote(Price=)),0,(10,90.5]),0)"),
    ("p=1", "eq(eq(scan(quotes,Quote(Price=)),0,\"INTC\"),0)"),
    ("p1-", "eq(eq(scan(quotes,Quote(Price=)),0,100),12)"),
    ("p-<", "range(eq(scan(quotes,Quote(Price=)),12,-0.5),0)"),
    (
        "p\"1",
        "eq(eq(scan(quotes,Quote(Price=)),0,\"a\\\"\\\\\\n\\t\\r\"),0)",
    ),
    (
        "p<>",
        "range(range(scan(quotes,Quote(Price=)),0,(-,-0.5)),0)",
    ),
    ("p><", "range(range(scan(quotes,Quote(Price=)),0,[0,-)),0)"),
    (
        "qq+",
        "join(scan(quotes,Quote(Symbol=,Price=)),scan(quotes,Quote(Symbol=,Price=)),1=1)",
    ),
    (
        "qc*",
        "join(scan(quotes,Quote(Symbol=,Price=)),scan(companies,Company(Symbol=,Area=)),0=0)",
    ),
    ("rr.", "join(scan(s,R),scan(s,R),)"),
    (
        "rn/",
        "join(scan(s,R),scan(s,A@i@k(B(C=,D=),E!e)!c),1=1;0=12)",
    ),
    (
        "p1r.-",
        "eq(join(eq(scan(quotes,Quote(Price=)),0,100),scan(s,R),),12)",
    ),
];

fn names(alloc: Global, from: &[&str]) -> Result<Names, AllocError> {
    let mut names = Names::new(alloc);
    for name in from {
        names.push(bytes_of(alloc, name.as_bytes())?)?;
    }
    Ok(names)
}

/// A shape whose parts have values.
fn shape(
    alloc: Global,
    tag: &str,
    tags: &[&str],
    suffix: ShapeSuffix,
) -> Result<Shape, AllocError> {
    let parts = value_shapes(alloc, tags)?;
    shape_with(alloc, tag.as_bytes(), Names::new(alloc), parts, suffix)
}

/// A part that has parts, and one that is an element.
fn nested_parts(alloc: Global) -> Result<Shapes, AllocError> {
    let mut parts = Shapes::new(alloc);
    parts.push(shape(alloc, "B", &["C", "D"], ShapeSuffix::Plain)?)?;
    parts.push(shape(alloc, "E", &[], ShapeSuffix::Element)?)?;
    Ok(parts)
}

/// A shape with two attributes, and a part in it that has parts.
fn nested(alloc: Global) -> Result<Shape, AllocError> {
    let attributes = names(alloc, &["i", "k"])?;
    let parts = nested_parts(alloc)?;
    shape_with(alloc, b"A", attributes, parts, ShapeSuffix::Content)
}

/// The shape of this letter.
fn shape_of(alloc: Global, letter: u8) -> Result<Shape, AllocError> {
    let plain = ShapeSuffix::Plain;
    match letter {
        b'c' => shape(alloc, "Company", &["Symbol", "Area"], plain),
        b'n' => nested(alloc),
        b'p' => shape(alloc, "Quote", &["Price"], plain),
        b'q' => shape(alloc, "Quote", &["Symbol", "Price"], plain),
        b'w' => shape(alloc, "Quote", &["Symbol"], ShapeSuffix::Element),
        _ => shape(alloc, "R", &[], plain),
    }
}

/// The source of this letter.
fn source_of(letter: u8) -> &'static str {
    match letter {
        b'c' => "companies",
        b'n' | b'r' => "s",
        _ => "quotes",
    }
}

/// The scan of this letter.
fn scan(alloc: Global, letter: u8) -> Result<Shared<Expr>, AllocError> {
    let source = bytes_of(alloc, source_of(letter).as_bytes())?;
    let shape = Shared::new(alloc, shape_of(alloc, letter)?)?;
    Shared::new(alloc, Expr::Scan { source, shape })
}

fn equal(
    alloc: Global,
    input: Shared<Expr>,
    slot: usize,
    constant: Atom,
) -> Result<Shared<Expr>, AllocError> {
    Shared::new(
        alloc,
        Expr::EqSel {
            input,
            slot,
            constant,
        },
    )
}

fn equal_text(alloc: Global, input: Shared<Expr>, text: &[u8]) -> Result<Shared<Expr>, AllocError> {
    let text = bytes_of(alloc, text)?;
    equal(alloc, input, 0, Atom::Text(text))
}

fn range(
    alloc: Global,
    input: Shared<Expr>,
    low: End,
    high: End,
) -> Result<Shared<Expr>, AllocError> {
    Shared::new(
        alloc,
        Expr::RangeSel {
            input,
            slot: 0,
            interval: Interval { low, high },
        },
    )
}

/// The selection of this letter over the input.
fn selected(alloc: Global, letter: u8, input: Shared<Expr>) -> Result<Shared<Expr>, AllocError> {
    match letter {
        b'=' => equal_text(alloc, input, b"INTC"),
        b'"' => equal_text(alloc, input, b"a\"\\\n\t\r"),
        b'1' => equal(alloc, input, 0, Atom::Num(100_000_000)),
        b'-' => equal(alloc, input, 12, Atom::Num(-500_000)),
        b'<' => range(alloc, input, End::Unbounded, End::Excluded(-500_000)),
        b'>' => range(alloc, input, End::Included(0), End::Unbounded),
        _ => range(
            alloc,
            input,
            End::Excluded(10_000_000),
            End::Included(90_500_000),
        ),
    }
}

/// The left and the right slots of the join of this letter.
fn slots_of(letter: u8) -> &'static [(usize, usize)] {
    match letter {
        b'*' => &[(0, 0)],
        b'+' => &[(1, 1)],
        b'/' => &[(1, 1), (0, 12)],
        _ => &[],
    }
}

fn pairs(alloc: Global, slots: &[(usize, usize)]) -> Result<Pairs, AllocError> {
    let mut pairs = Pairs::new(alloc);
    for &(left, right) in slots {
        pairs.push(Pair { left, right })?;
    }
    Ok(pairs)
}

/// The join of this letter: the product, or by one or two pairs.
fn joined(
    alloc: Global,
    letter: u8,
    left: Shared<Expr>,
    right: Shared<Expr>,
) -> Result<Shared<Expr>, AllocError> {
    let pairs = pairs(alloc, slots_of(letter))?;
    Shared::new(alloc, Expr::Join { left, right, pairs })
}

/// One expression more that waits.
fn wait(waiting: &mut Vec<Shared<Expr>>, expr: Shared<Expr>) -> Result<(), AllocError> {
    waiting.push(expr)?;
    Ok(())
}

/// A selection in place of the newest expression that waits.
fn add_selection(
    alloc: Global,
    waiting: &mut Vec<Shared<Expr>>,
    letter: u8,
) -> Result<(), AllocError> {
    match waiting.pop() {
        Some(input) => wait(waiting, selected(alloc, letter, input)?),
        None => Ok(()),
    }
}

/// A join in place of the newest two expressions that wait.
fn add_join(alloc: Global, waiting: &mut Vec<Shared<Expr>>, letter: u8) -> Result<(), AllocError> {
    match (waiting.pop(), waiting.pop()) {
        (Some(right), Some(left)) => wait(waiting, joined(alloc, letter, left, right)?),
        _ => Ok(()),
    }
}

/// One letter more of the expressions that wait, the newest last.
fn add_letter(
    alloc: Global,
    waiting: &mut Vec<Shared<Expr>>,
    letter: u8,
) -> Result<(), AllocError> {
    match letter {
        b'a'..=b'z' => wait(waiting, scan(alloc, letter)?),
        b'.' | b'*' | b'+' | b'/' => add_join(alloc, waiting, letter),
        _ => add_selection(alloc, waiting, letter),
    }
}

fn expr(alloc: Global, letters: &str) -> Result<Shared<Expr>, AllocError> {
    let mut waiting = Vec::new(alloc);
    for letter in letters.as_bytes() {
        add_letter(alloc, &mut waiting, *letter)?;
    }
    match waiting.pop() {
        Some(top) => Ok(top),
        None => scan(alloc, b'r'),
    }
}

fn text_of(alloc: Global, signature: &Signature) -> Result<Vec<u8>, AllocError> {
    let mut out = Vec::new(alloc);
    write_signature(signature, &mut out)?;
    Ok(out)
}

/// The text of the signature of the expression.
pub fn text(alloc: Global, expr: &Expr) -> Result<Vec<u8>, AllocError> {
    let signature = signature_of(alloc, expr)?;
    text_of(alloc, &signature)
}

/// Whether the signature of the expression of these letters has this text.
fn has_text(alloc: Global, letters: &str, want: &str) -> Result<bool, AllocError> {
    let whole = expr(alloc, letters)?;
    let text = text(alloc, whole.get())?;
    Ok(text.as_slice() == want.as_bytes())
}

#[test]
fn a_signature_shows_all_but_the_last_constant(rt: HostRuntime) -> Result<(), Fail> {
    for (letters, want) in TEXTS {
        assert!(rt; has_text(rt.alloc(), letters, want)?, "{letters}");
    }
    Ok(())
}
