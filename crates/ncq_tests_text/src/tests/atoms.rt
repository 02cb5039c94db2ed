//! Atoms, their order and their texts; intervals.

use super::{Pair, expect, expect_bytes};
use ncq_base::{
    Atom, Copied, End, Interval, Op, atom_of, bytes_of, compare, holds, in_interval, into_atom,
    is_atom_of, same, total_order, write_atom,
};
use std::alloc::{AllocError, Global};
use std::cmp::Ordering;
use std::process::Abort;
use std::test::Fail;

/// A number is an optional sign, 1 to 15 digits, and optionally a point and 1 to 6 digits; it
/// counts millionths.
const NUMBERS: &[(&str, i128)] = &[
    ("0", 0),
    ("-0", 0),
    ("+0.000000", 0),
    ("1", 1_000_000),
    ("01", 1_000_000),
    ("+1", 1_000_000),
    ("-1", -1_000_000),
    ("100.0", 100_000_000),
    ("95.5", 95_500_000),
    ("-0.5", -500_000),
    ("0.000001", 1),
    ("000000000000001", 1_000_000),
    ("123456789012345", 123_456_789_012_345_000_000),
    ("-999999999999999.999999", -999_999_999_999_999_999_999),
];

/// Every other text is a text.
const TEXTS: &[&str] = &[
    "",
    "+",
    "-",
    ".",
    "5.",
    ".5",
    "1e3",
    " 1",
    "1 ",
    "--1",
    "+-1",
    "1.5.0",
    "1,5",
    "0x1",
    "INTC",
    "1\0",
    "\u{661}",
    "1\u{661}",
    "1234567890123456",
    "0000000000000001",
    "0.0000001",
    "1.0000000",
    "+1.",
    "-.5",
];

/// Whether this atom is read of the text.
fn is_read(alloc: Global, text: &str, want: &Atom) -> Result<bool, AllocError> {
    let read = atom_of(alloc, text.as_bytes())?;
    Ok(read == *want)
}

/// Whether this atom is made of the bytes of the text.
fn is_made(alloc: Global, text: &str, want: &Atom) -> Result<bool, AllocError> {
    let made = into_atom(bytes_of(alloc, text.as_bytes())?);
    Ok(made == *want)
}

fn expect_atom(rt: &impl Abort, alloc: Global, text: &str, want: &Atom) -> Result<(), AllocError> {
    expect(rt, is_read(alloc, text, want)?, text);
    expect(rt, is_made(alloc, text, want)?, text);
    expect(rt, is_atom_of(want, text.as_bytes()), text);
    Ok(())
}

fn expect_number(
    rt: &impl Abort,
    alloc: Global,
    text: &str,
    millionths: i128,
) -> Result<(), AllocError> {
    let want = Atom::Num(millionths);
    expect_atom(rt, alloc, text, &want)
}

/// The text is its own atom.
fn expect_plain(rt: &impl Abort, alloc: Global, text: &str) -> Result<(), AllocError> {
    let want = Atom::Text(bytes_of(alloc, text.as_bytes())?);
    expect_atom(rt, alloc, text, &want)
}

#[test]
fn a_text_is_a_number_or_a_text(rt: HostRuntime) -> Result<(), Fail> {
    for (text, millionths) in NUMBERS {
        expect_number(&rt, rt.alloc(), text, *millionths)?;
    }
    for text in TEXTS {
        expect_plain(&rt, rt.alloc(), text)?;
    }
    Ok(())
}

/// Two texts, whether both are numbers, and their order.
type Ordered = (&'static str, &'static str, bool, Ordering);

const ORDERS: &[Ordered] = &[
    ("1", "1.0", true, Ordering::Equal),
    ("-0", "0", true, Ordering::Equal),
    ("2", "10", true, Ordering::Less),
    ("-1", "-2", true, Ordering::Greater),
    ("a", "a", false, Ordering::Equal),
    ("B", "a", false, Ordering::Less),
    ("ab", "a", false, Ordering::Greater),
    ("9", "a", false, Ordering::Less),
    ("a", "9", false, Ordering::Greater),
    ("99", "", false, Ordering::Less),
];

/// What the six comparisons say of two atoms.
fn expect_holds(rt: &impl Abort, a: &Atom, b: &Atom, numbers: bool, order: Ordering) {
    let equal = order == Ordering::Equal;
    let less = numbers && order == Ordering::Less;
    let greater = numbers && order == Ordering::Greater;
    assert!(rt; holds(Op::Eq, a, b) == equal && holds(Op::Ne, a, b) != equal);
    assert!(rt; holds(Op::Lt, a, b) == less && holds(Op::Gt, a, b) == greater);
    assert!(rt; holds(Op::Le, a, b) == (numbers && !greater));
    assert!(rt; holds(Op::Ge, a, b) == (numbers && !less));
}

fn is_same_as_its_copy(alloc: Global, a: &Atom) -> Result<bool, AllocError> {
    let copy = a.copy(alloc)?;
    Ok(same(a, &copy))
}

fn expect_order(rt: &impl Abort, a: &Atom, b: &Atom, numbers: bool, order: Ordering) {
    assert!(rt; total_order(a, b) == order);
    assert!(rt; compare(a, b) == numbers.then_some(order));
    assert!(rt; same(a, b) == (order == Ordering::Equal));
}

fn expect_compared(rt: &impl Abort, alloc: Global, row: &Ordered) -> Result<(), AllocError> {
    let (left, right, numbers, order) = *row;
    let a = atom_of(alloc, left.as_bytes())?;
    let b = atom_of(alloc, right.as_bytes())?;
    expect_order(rt, &a, &b, numbers, order);
    expect_holds(rt, &a, &b, numbers, order);
    expect(rt, is_same_as_its_copy(alloc, &a)?, left);
    Ok(())
}

#[test]
fn atoms_are_compared_by_value(rt: HostRuntime) -> Result<(), Fail> {
    for row in ORDERS {
        expect_compared(&rt, rt.alloc(), row)?;
    }
    Ok(())
}

/// Numbers in millionths, and how they are written.
const NUMBER_TEXTS: &[(i128, &str)] = &[
    (0, "0"),
    (-500_000, "-0.5"),
    (100_000_000, "100"),
    (95_500_000, "95.5"),
    (1, "0.000001"),
    (-1_000_010, "-1.00001"),
    (999_999_999_999_999_999_999, "999999999999999.999999"),
];

/// Texts, and how they are written.
const QUOTED: &[Pair] = &[
    ("", "\"\""),
    ("INTC", "\"INTC\""),
    ("a\"", "\"a\\\"\""),
    ("\n\t\r\\", "\"\\n\\t\\r\\\\\""),
];

fn written(alloc: Global, atom: &Atom) -> Result<Vec<u8>, AllocError> {
    let mut out = Vec::new(alloc);
    write_atom(atom, &mut out)?;
    Ok(out)
}

fn written_number(alloc: Global, millionths: i128) -> Result<Vec<u8>, AllocError> {
    let atom = Atom::Num(millionths);
    written(alloc, &atom)
}

fn written_text(alloc: Global, text: &str) -> Result<Vec<u8>, AllocError> {
    let atom = Atom::Text(bytes_of(alloc, text.as_bytes())?);
    written(alloc, &atom)
}

#[test]
fn atoms_are_written(rt: HostRuntime) -> Result<(), Fail> {
    for (millionths, want) in NUMBER_TEXTS {
        let out = written_number(rt.alloc(), *millionths)?;
        expect_bytes(&rt, &out, want.as_bytes(), "");
    }
    for (text, want) in QUOTED {
        let out = written_text(rt.alloc(), text)?;
        expect_bytes(&rt, &out, want.as_bytes(), "");
    }
    Ok(())
}

/// Intervals, and whether they hold 9, 10 and 11.
const INTERVALS: &[(End, End, [bool; 3])] = &[
    (End::Unbounded, End::Unbounded, [true, true, true]),
    (End::Included(10), End::Unbounded, [false, true, true]),
    (End::Excluded(10), End::Unbounded, [false, false, true]),
    (End::Unbounded, End::Included(10), [true, true, false]),
    (End::Unbounded, End::Excluded(10), [true, false, false]),
    (End::Included(10), End::Included(10), [false, true, false]),
    (End::Included(10), End::Excluded(10), [false, false, false]),
    (End::Excluded(9), End::Excluded(11), [false, true, false]),
    (End::Included(11), End::Included(9), [false, false, false]),
];

fn holds_number(interval: &Interval, millionths: i128) -> bool {
    let number = Atom::Num(millionths);
    in_interval(interval, &number)
}

/// Compares whether the interval holds 9, 10 and 11; it holds no text.
fn expect_held(rt: &impl Abort, interval: &Interval, want: &[bool; 3], text: &Atom) {
    let [nine, ten, eleven] = *want;
    assert!(rt; holds_number(interval, 9) == nine);
    assert!(rt; holds_number(interval, 10) == ten);
    assert!(rt; holds_number(interval, 11) == eleven);
    assert!(rt; !in_interval(interval, text));
}

#[test]
fn an_interval_holds_the_numbers_between_its_ends(rt: HostRuntime) -> Result<(), Fail> {
    let text = Atom::Text(bytes_of(rt.alloc(), b"10")?);
    for (low, high, held) in INTERVALS {
        let interval = Interval {
            low: *low,
            high: *high,
        };
        expect_held(&rt, &interval, held, &text);
    }
    Ok(())
}
