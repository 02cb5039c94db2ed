//! The keys of elements.

use super::declared::sources;
use super::{Pair, expect, items_of, put_by};
use ncq_base::{Bytes, Shared};
use ncq_flat::Written;
use ncq_source::Store;
use std::alloc::{AllocError, Global};
use std::hash::RandomState;
use std::process::Abort;
use std::test::Fail;

/// The element that the lines put first.
fn element_of(alloc: Global, text: &str) -> Result<Shared<Written>, AllocError> {
    let items = items_of(alloc, text)?;
    match put_by(items.get(0)) {
        Some(element) => element.share(),
        None => Err(AllocError),
    }
}

/// Elements, and their keys by the child `Symbol`: empty where there is none.
const BY_CHILD: &[Pair] = &[
    ("(Q/(Symbol/-INTC/)Symbol/)Q", "INTC"),
    ("(Q/-x/(Symbol/-INTC/)Symbol/-y/)Q", "INTC"),
    ("(Q/(Symbol/-a/(b/-c/)b/-d/)Symbol/)Q", "a c d"),
    ("(Q/(Symbol/(b/)b/-a/)Symbol/)Q", "a"),
    ("(C/Aid 7/(Symbol/-INTC/)Symbol/)C", "INTC"),
    ("(Q/)Q", ""),
    ("(Q/(symbol/-INTC/)symbol/)Q", ""),
    ("(Q/(Symbol/)Symbol/)Q", ""),
    ("(Q/(Symbol/- /)Symbol/)Q", ""),
    ("(Q/(Symbol/(b/)b/)Symbol/)Q", ""),
    ("(Q/(Symbol/-A/)Symbol/(Symbol/-A/)Symbol/)Q", ""),
    ("(Q/(Symbol/-A/)Symbol/(Symbol/)Symbol/)Q", ""),
    ("(Q/(x/(Symbol/-A/)Symbol/)x/)Q", ""),
    ("(Q/ASymbol A/)Q", ""),
    ("(Symbol/-A/)Symbol", ""),
];

/// Elements, and their keys by the attribute `id`.
const BY_ATTRIBUTE: &[Pair] = &[
    ("(C/Aid 7/-a b/)C", "7"),
    ("(C/Aid  7 /Aie 8/)C", " 7 "),
    ("(C/Aid 7/(Symbol/-INTC/)Symbol/)C", "7"),
    ("(C/)C", ""),
    ("(C/Aid/)C", ""),
    ("(C/AId 7/)C", ""),
    ("(C/(id/-7/)id/)C", ""),
];

/// The bytes of a key, or none.
fn bytes_in(key: Option<&Bytes>) -> &[u8] {
    match key {
        Some(key) => key.as_slice(),
        None => b"".as_slice(),
    }
}

/// Whether the element has this key by the rule of the source.
fn has_key(
    alloc: Global,
    store: &Store,
    name: &str,
    element: &Written,
    want: &str,
) -> Result<bool, AllocError> {
    let Some(id) = store.find(name.as_bytes()) else {
        return Ok(false);
    };
    let key = store.key_of(alloc, id, element)?;
    Ok(bytes_in(key.as_ref()) == want.as_bytes())
}

/// Whether the element that the lines put has this key by the rule of the source.
fn puts_key(
    alloc: Global,
    store: &Store,
    name: &str,
    text: &str,
    want: &str,
) -> Result<bool, AllocError> {
    let element = element_of(alloc, text)?;
    has_key(alloc, store, name, element.get(), want)
}

/// Compares the key of each element by the rule of the source.
fn expect_keys(
    rt: &impl Abort,
    alloc: Global,
    seed: RandomState,
    name: &str,
    cases: &[Pair],
) -> Result<(), AllocError> {
    let store = sources(alloc, seed)?;
    for (text, want) in cases {
        expect(rt, puts_key(alloc, &store, name, text, want)?, text);
    }
    Ok(())
}

#[test]
fn a_key_is_one_value_that_is_not_empty(rt: HostRuntime) -> Result<(), Fail> {
    let seed = RandomState::new(&rt)?;
    expect_keys(&rt, rt.alloc(), seed, "quotes", BY_CHILD)?;
    expect_keys(&rt, rt.alloc(), seed, "c", BY_ATTRIBUTE)?;
    Ok(())
}
