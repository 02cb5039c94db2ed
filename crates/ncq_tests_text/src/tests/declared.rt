//! Stores whose sources are declared.

use ncq_base::bytes_of;
use ncq_source::{DeclareError, Key, SourceId, Store};
use std::alloc::{AllocError, Global};
use std::hash::RandomState;

fn child(alloc: Global, name: &str) -> Result<Key, AllocError> {
    let name = bytes_of(alloc, name.as_bytes())?;
    Ok(Key::Child(name))
}

pub(crate) fn attribute(alloc: Global, name: &str) -> Result<Key, AllocError> {
    let name = bytes_of(alloc, name.as_bytes())?;
    Ok(Key::Attribute(name))
}

/// Whether a source was declared.
fn is_new(answer: Result<SourceId, DeclareError>) -> Result<bool, AllocError> {
    match answer {
        Ok(_) => Ok(true),
        Err(DeclareError::Exists) => Ok(false),
        Err(DeclareError::OutOfMemory) => Err(AllocError),
    }
}

/// Declares a source, and tells whether there was none of its name.
fn declare(
    alloc: Global,
    store: &mut Store,
    name: &str,
    root: &str,
    key: Key,
) -> Result<bool, AllocError> {
    let name = bytes_of(alloc, name.as_bytes())?;
    let root = bytes_of(alloc, root.as_bytes())?;
    is_new(store.declare(alloc, name, root, key))
}

/// Declares a source whose key is a child.
fn declare_by_child(
    alloc: Global,
    store: &mut Store,
    name: &str,
    root: &str,
    key: &str,
) -> Result<bool, AllocError> {
    let key = child(alloc, key)?;
    declare(alloc, store, name, root, key)
}

/// Declares a source whose key is an attribute.
pub(crate) fn declare_by_attribute(
    alloc: Global,
    store: &mut Store,
    name: &str,
    root: &str,
    key: &str,
) -> Result<bool, AllocError> {
    let key = attribute(alloc, key)?;
    declare(alloc, store, name, root, key)
}

/// A store with the sources `quotes` and `companies`, whose key is the child `Symbol`, and `c`,
/// whose key is the attribute `id`.
pub(crate) fn sources(alloc: Global, seed: RandomState) -> Result<Store, AllocError> {
    let mut store = Store::new(alloc, seed);
    declare_by_child(alloc, &mut store, "quotes", "Quotes", "Symbol")?;
    declare_by_child(alloc, &mut store, "companies", "Companies", "Symbol")?;
    declare_by_attribute(alloc, &mut store, "c", "Cs", "id")?;
    Ok(store)
}
