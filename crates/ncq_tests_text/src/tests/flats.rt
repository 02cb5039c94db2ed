//! Elements as their lines.

use super::{expect, expect_bytes, items_of, put_by};
use ncq_base::Shared;
use ncq_flat::{Written, first_inside, string_value};
use ncq_pyx::write_element;
use std::alloc::{AllocError, Global};
use std::process::Abort;
use std::test::Fail;

/// The lines of an element, parted by slashes: as they are given and in normal form; its name, its
/// string value, and that of its first child `s`, or a bar where there is none.
type Flat = (
    &'static str,
    &'static str,
    &'static str,
    &'static str,
    &'static str,
);

const FLATS: &[Flat] = &[
    ("(q/)q", "(q/)q/", "q", "", "|"),
    ("(q/-a/)q", "(q/-a/)q/", "q", "a", "|"),
    ("(q/- a /-b/)q", "(q/-a b/)q/", "q", "a b", "|"),
    ("(q/-a/- /)q", "(q/-a/)q/", "q", "a", "|"),
    ("(q/-a\\nb/)q", "(q/-a\\nb/)q/", "q", "a\nb", "|"),
    (
        "(q/(s/-x/)s/(p/-1/)p/)q",
        "(q/(s/-x/)s/(p/-1/)p/)q/",
        "q",
        "x 1",
        "x",
    ),
    (
        "(q/(p/(s/-x/)s/)p/(s/-y/)s/)q",
        "(q/(p/(s/-x/)s/)p/(s/-y/)s/)q/",
        "q",
        "x y",
        "y",
    ),
    (
        "(q/(s/)s/(s/-y/)s/)q",
        "(q/(s/)s/(s/-y/)s/)q/",
        "q",
        "y",
        "",
    ),
    (
        "(q/(s/(t/-x/)t/-y/)s/)q",
        "(q/(s/(t/-x/)t/-y/)s/)q/",
        "q",
        "x y",
        "x y",
    ),
    ("(s/-x/)s", "(s/-x/)s/", "s", "x", "|"),
    (
        "(q/Ab 1/Aa 2/(s/-x/)s/)q",
        "(q/Aa 2/Ab 1/(s/-x/)s/)q/",
        "q",
        "x",
        "x",
    ),
    ("(q/Aa 1/Ab 2/-x/)q", "(q/Aa 1/Ab 2/-x/)q/", "q", "x", "|"),
    ("(q/Aa /)q", "(q/Aa /)q/", "q", "", "|"),
    ("(qs/(ss/-x/)ss/)qs", "(qs/(ss/-x/)ss/)qs/", "qs", "x", "|"),
];

/// The element that the lines put.
fn element_of(alloc: Global, text: &str) -> Result<Shared<Written>, AllocError> {
    let items = items_of(alloc, text)?;
    match put_by(items.get(0)) {
        Some(element) => element.share(),
        None => Err(AllocError),
    }
}

/// Whether the bytes are the lines, each ended by a slash.
fn are_lines(bytes: &[u8], want: &str) -> bool {
    let want = want.as_bytes();
    if bytes.len() != want.len() {
        return false;
    }
    for at in 0..want.len() {
        let shown = if bytes[at] == b'\n' { b'/' } else { bytes[at] };
        if shown != want[at] {
            return false;
        }
    }
    true
}

/// The lines of the tree that is made of the element.
fn lines_again(alloc: Global, element: &Written) -> Result<Vec<u8>, AllocError> {
    let mut out = Vec::new(alloc);
    write_element(&element.element(alloc)?, &mut out)?;
    Ok(out)
}

/// Compares the string value of the first child `s`.
fn expect_child(
    rt: &impl Abort,
    alloc: Global,
    element: &Written,
    want: &str,
    row: &str,
) -> Result<(), AllocError> {
    match first_inside(element.inside(), b"s") {
        Some(inside) => {
            let value = string_value(alloc, inside)?;
            expect_bytes(rt, value.as_slice(), want.as_bytes(), row);
        }
        None => expect(rt, want == "|", row),
    }
    Ok(())
}

/// Compares what is known of the element.
fn expect_flat(rt: &impl Abort, alloc: Global, row: &Flat) -> Result<(), AllocError> {
    let (text, lines, name, value, child) = *row;
    let element = element_of(alloc, text)?;
    let element = element.get();
    expect(rt, are_lines(element.lines(), lines), text);
    let again = lines_again(alloc, element)?;
    expect(rt, are_lines(again.as_slice(), lines), text);
    expect_bytes(rt, element.name(), name.as_bytes(), text);
    let said = element.string_value(alloc)?;
    expect_bytes(rt, said.as_slice(), value.as_bytes(), text);
    expect_child(rt, alloc, element, child, text)
}

#[test]
fn an_element_is_its_lines(rt: HostRuntime) -> Result<(), Fail> {
    for row in FLATS {
        expect_flat(&rt, rt.alloc(), row)?;
    }
    Ok(())
}

/// Whether the two are told to be one element exactly where they should, as lines and as lines and
/// a tree.
fn expect_same(
    rt: &impl Abort,
    alloc: Global,
    one: &Written,
    other: &Written,
    same: bool,
    row: &str,
) -> Result<(), AllocError> {
    expect(rt, one.is_same(other) == same, row);
    let tree = other.element(alloc)?;
    expect(rt, one.is_element(&tree) == same, row);
    Ok(())
}

/// Compares the element with that of each row: they are one where their normal forms are.
fn expect_among(rt: &impl Abort, alloc: Global, one: &Flat) -> Result<(), AllocError> {
    let element = element_of(alloc, one.0)?;
    for row in FLATS {
        let other = element_of(alloc, row.0)?;
        expect_same(rt, alloc, element.get(), other.get(), one.1 == row.1, row.0)?;
    }
    Ok(())
}

#[test]
fn elements_are_one_where_their_lines_are(rt: HostRuntime) -> Result<(), Fail> {
    for row in FLATS {
        expect_among(&rt, rt.alloc(), row)?;
    }
    Ok(())
}
