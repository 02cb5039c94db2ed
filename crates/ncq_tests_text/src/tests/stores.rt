//! Sources that are declared and changed.

ghost use Rattle.std.specs.Prelude.{IfOk};
ghost use Rattle.ncq_source.specs.StoreStates.{AreDeclared, IsDeclared};

use super::{expect_bytes, items_of, put_by, sections_of};
use ncq_base::bytes_of;
use ncq_flat::{Items, Written};
use ncq_source::{Change, Entry, Key, SourceId, Store};
use std::alloc::Global;
use std::hash::RandomState;
use std::process::Abort;
use std::test::Fail;

fn quotes(alloc: Global, seed: RandomState) -> Result<(Store, SourceId), Fail>
    ensures { IfOk result (λ p. IsDeclared p.0 p.1) }
{
    let mut store = Store::new(alloc, seed);
    let key = Key::Child(bytes_of(alloc, b"Symbol")?);
    let id = store.declare(
        alloc,
        bytes_of(alloc, b"quotes")?,
        bytes_of(alloc, b"Quotes")?,
        key,
    )?;
    Ok((store, id))
}

/// The put of the quote INTC.
const INTC: &str = "(Quote/(Symbol/-INTC/)Symbol/)Quote";

#[test]
fn a_declared_source_is_found(rt: HostRuntime) -> Result<(), Fail> {
    let (store, id) = quotes(rt.alloc(), RandomState::new(&rt)?)?;
    assert!(rt; store.find(b"quotes") == Some(id));
    assert!(rt; store.find(b"Quotes").is_none());
    Ok(())
}

fn expect_key(
    rt: &impl Abort,
    alloc: Global,
    store: &Store,
    id: SourceId,
    element: &Written,
) -> Result<(), Fail>
    requires { IsDeclared store.now id }
{
    let key = store.key_of(alloc, id, element)?;
    let key = key.ok_or("a key is missing")?;
    expect_bytes(rt, key.as_slice(), b"INTC", "");
    Ok(())
}

/// The first item puts an element of the key INTC.
fn expect_first_key(
    rt: &impl Abort,
    alloc: Global,
    store: &Store,
    id: SourceId,
    items: &Items,
) -> Result<(), Fail>
    requires { IsDeclared store.now id }
{
    let put = put_by(items.get(0));
    assert!(rt; put.is_some());
    if let Some(element) = put {
        expect_key(rt, alloc, store, id, element.get())?;
    }
    Ok(())
}

#[test]
fn an_element_tells_its_key(rt: HostRuntime) -> Result<(), Fail> {
    let (store, id) = quotes(rt.alloc(), RandomState::new(&rt)?)?;
    let items = items_of(rt.alloc(), INTC)?;
    expect_first_key(&rt, rt.alloc(), &store, id, &items)?;
    Ok(())
}

/// One element of the key INTC comes in, and none goes out.
fn expect_put(rt: &impl Abort, entries: &[Entry]) {
    assert!(rt; entries.len() == 1);
    for entry in entries {
        expect_bytes(rt, entry.key.as_slice(), b"INTC", "");
        assert!(rt; entry.before.is_none() && entry.after.is_some());
    }
}

/// In each portion one element of the key INTC comes in.
fn expect_puts(rt: &impl Abort, change: &Change) {
    for portion in change.portions() {
        expect_put(rt, portion.entries.as_slice());
    }
}

/// The change is the first that the store takes.
fn expect_taken(rt: &impl Abort, store: &mut Store, change: Change) -> Result<(), Fail>
    requires { AreDeclared store.old change }
{
    store.reserve(&change)?;
    assert!(rt; store.changes() == 0);
    store.commit(change);
    assert!(rt; store.changes() == 1);
    Ok(())
}

#[test]
fn a_store_takes_what_was_put(rt: HostRuntime) -> Result<(), Fail> {
    let (mut store, _) = quotes(rt.alloc(), RandomState::new(&rt)?)?;
    let sections = sections_of(rt.alloc(), &[("quotes", INTC)])?;
    let change = store.prepare(rt.alloc(), &sections)?;
    expect_puts(&rt, &change);
    expect_taken(&rt, &mut store, change)
}
