//! Forests: their normal form, their string value and their order.

use super::{Pair, expect, expect_bytes};
use ncq_base::bytes_of;
use ncq_tree::{
    Attribute, Attributes, Element, Forest, Node, copy_forest, is_normal, is_same, normal,
    normal_element, order, string_value,
};
use std::alloc::{AllocError, Global};
use std::cmp::Ordering;
use std::process::Abort;
use std::test::Fail;

fn text(alloc: Global, bytes: &str) -> Result<Node, AllocError> {
    Ok(Node::Text(bytes_of(alloc, bytes.as_bytes())?))
}

/// The attribute with this one byte as its name.
fn attribute(alloc: Global, name: u8) -> Result<Attribute, AllocError> {
    let name = bytes_of(alloc, &[name])?;
    let value = bytes_of(alloc, b" v ")?;
    Ok(Attribute { name, value })
}

/// Attributes with one value, named by the bytes of the text.
fn attributes(alloc: Global, names: &str) -> Result<Attributes, AllocError> {
    let mut all = Attributes::new(alloc);
    for name in names.as_bytes() {
        all.push(attribute(alloc, *name)?)?;
    }
    Ok(all)
}

fn element(
    alloc: Global,
    name: &str,
    names: &str,
    children: Forest,
) -> Result<Element, AllocError> {
    Ok(Element {
        name: bytes_of(alloc, name.as_bytes())?,
        attributes: attributes(alloc, names)?,
        children,
    })
}

/// The texts, each ended by a bar.
fn texts(alloc: Global, parts: &str) -> Result<Forest, AllocError> {
    let mut forest = Forest::new(alloc);
    for part in parts.split_terminator('|') {
        forest.push(text(alloc, part)?)?;
    }
    Ok(forest)
}

/// The element `C` with the texts `a` and ` b`, as a block of lines spells it, or in normal form.
fn company(alloc: Global, names: &str, parts: &str) -> Result<Element, AllocError> {
    element(alloc, "C", names, texts(alloc, parts)?)
}

fn forest_of(alloc: Global, node: Element) -> Result<Forest, AllocError> {
    let mut forest = Forest::new(alloc);
    forest.push(Node::Element(node))?;
    Ok(forest)
}

/// Texts, and the same merged and trimmed.
const MERGED: &[Pair] = &[
    ("a| b|", "a b|"),
    ("\n a||\tb\r |", "a\tb|"),
    (" |\n|", ""),
    ("Price of |INTC|is|", "Price of INTCis|"),
    ("|", ""),
    ("", ""),
];

/// The normal form is this forest.
fn expect_made(rt: &impl Abort, made: &Forest, want: &Forest, row: &str) {
    expect(rt, is_same(made, want), row);
    expect(rt, is_normal(made), row);
}

fn expect_merged(rt: &impl Abort, alloc: Global, raw: &str, want: &str) -> Result<(), AllocError> {
    let made = normal(alloc, texts(alloc, raw)?)?;
    expect_made(rt, &made, &texts(alloc, want)?, raw);
    Ok(())
}

#[test]
fn texts_are_merged_and_trimmed(rt: HostRuntime) -> Result<(), Fail> {
    for (raw, want) in MERGED {
        expect_merged(&rt, rt.alloc(), raw, want)?;
    }
    Ok(())
}

fn push_company(
    alloc: Global,
    forest: &mut Forest,
    names: &str,
    parts: &str,
) -> Result<(), AllocError> {
    let node = company(alloc, names, parts)?;
    forest.push(Node::Element(node))
}

/// Texts beside elements, not in normal form.
fn parted(alloc: Global) -> Result<Forest, AllocError> {
    let mut raw = texts(alloc, " x|y |")?;
    push_company(alloc, &mut raw, "cab", "a| b|")?;
    raw.push(text(alloc, "  ")?)?;
    push_company(alloc, &mut raw, "", "")?;
    Ok(raw)
}

/// The normal form of `parted`.
fn parted_normal(alloc: Global) -> Result<Forest, AllocError> {
    let mut want = texts(alloc, "xy|")?;
    push_company(alloc, &mut want, "abc", "a b|")?;
    push_company(alloc, &mut want, "", "")?;
    Ok(want)
}

/// Whether this is the normal form of `parted`.
fn is_parted(alloc: Global, made: &Forest) -> Result<bool, AllocError> {
    let want = parted_normal(alloc)?;
    Ok(is_same(made, &want))
}

fn expect_value(
    rt: &impl Abort,
    alloc: Global,
    made: &Forest,
    want: &[u8],
) -> Result<(), AllocError> {
    let value = string_value(alloc, made)?;
    expect_bytes(rt, value.as_slice(), want, "");
    Ok(())
}

fn expect_parted(rt: &impl Abort, alloc: Global, raw: Forest) -> Result<(), AllocError> {
    assert!(rt; !is_normal(&raw));
    let made = normal(alloc, raw)?;
    assert!(rt; is_parted(alloc, &made)?);
    expect_value(rt, alloc, &made, b"xy a b")
}

#[test]
fn elements_part_texts(rt: HostRuntime) -> Result<(), Fail> {
    expect_parted(&rt, rt.alloc(), parted(rt.alloc())?)?;
    Ok(())
}

/// An element, normalized.
fn normalized(alloc: Global) -> Result<Forest, AllocError> {
    let raw = company(alloc, "ba", "a| b|")?;
    let made = normal_element(alloc, raw)?;
    forest_of(alloc, made)
}

/// Whether the copy of the forest is this one.
fn is_copied(alloc: Global, made: &Forest, want: &Forest) -> Result<bool, AllocError> {
    let copy = copy_forest(alloc, made)?;
    Ok(is_same(&copy, want))
}

fn expect_copied(rt: &impl Abort, alloc: Global, made: &Forest) -> Result<(), AllocError> {
    let want = forest_of(alloc, company(alloc, "ab", "a b|")?)?;
    assert!(rt; is_same(made, &want));
    assert!(rt; is_copied(alloc, made, &want)?);
    Ok(())
}

#[test]
fn an_element_is_normalized_and_copied(rt: HostRuntime) -> Result<(), Fail> {
    let made = normalized(rt.alloc())?;
    expect_copied(&rt, rt.alloc(), &made)?;
    Ok(())
}

/// The names and the texts of an element, and whether it is normal.
const EDGES: &[(&str, &str, bool)] = &[
    ("", "", true),
    ("ab", "x y|", true),
    ("ba", "", false),
    ("aa", "", false),
    ("", "|", false),
    ("", " x|", false),
    ("", "x\r|", false),
    ("", "x|y|", false),
];

fn is_normal_company(alloc: Global, names: &str, parts: &str) -> Result<bool, AllocError> {
    let forest = forest_of(alloc, company(alloc, names, parts)?)?;
    Ok(is_normal(&forest))
}

#[test]
fn edges_of_normal(rt: HostRuntime) -> Result<(), Fail> {
    for (names, parts, want) in EDGES {
        let told = is_normal_company(rt.alloc(), names, parts)?;
        expect(&rt, told == *want, names);
    }
    Ok(())
}

/// Texts, an element and one with an attribute.
fn expect_orders(rt: &impl Abort, alloc: Global, words: &Forest, tag: &Forest, more: &Forest) {
    assert!(rt; order(words, tag) == Ordering::Less);
    assert!(rt; order(more, tag) == Ordering::Greater);
    assert!(rt; order(&Forest::new(alloc), words) == Ordering::Less);
    assert!(rt; order(tag, tag) == Ordering::Equal);
}

#[test]
fn texts_come_before_elements(rt: HostRuntime) -> Result<(), Fail> {
    let alloc = rt.alloc();
    let words = texts(alloc, "z|")?;
    let tag = forest_of(alloc, company(alloc, "", "")?)?;
    let more = forest_of(alloc, company(alloc, "a", "")?)?;
    expect_orders(&rt, alloc, &words, &tag, &more);
    Ok(())
}
