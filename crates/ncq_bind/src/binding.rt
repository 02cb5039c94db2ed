//! From statements to normal queries.
ghost use Rattle.std.specs.Prelude.{◌≡◌, IfOk, true};
ghost use Rattle.std.specs.List.{list_all};
ghost use Rattle.ncq_construct.specs.Proper.{template_is_named};
ghost use Rattle.ncq_xmlql.specs.WellFormed.{IsWellFormed as StatementIsWellFormed};
ghost use Rattle.ncq_plan.specs.WellFormed.{IsWellFormed};
ghost use Rattle.ncq_bind.specs.Bindings.{Binds, are_declared, have_roots, is_root, roots_in};
ghost use Rattle.ncq_bind.specs.Bindings.{item_has_root, item_is_declared};
ghost use Rattle.ncq_plan.specs.Relations.{relations};
ghost use Rattle.ncq_source.specs.StoreStates.{found};

use crate::query::normal_query;
use crate::served::are_served;
use ncq_base::Bytes;
use ncq_plan::{NormalQuery, Predicates};
use ncq_source::Store;
use ncq_xmlql::{QueryItem, Statement};
use std::alloc::{AllocError, Global};
use thiserror::Error;

/// Why a statement has no normal query.
#[derive(Debug, Drop, Error)]
pub enum BindError {
    /// A pattern names a source that is not declared.
    #[error("no such source")]
    NoSource,
    /// A root tag is not that of its source.
    #[error("the root differs")]
    RootDiffers,
    /// A condition or the template uses a variable that no pattern has, or a condition asks a
    /// predicate that is not there, or with an argument where it wants none, or without one.
    #[error("a variable or a predicate is unbound")]
    Unbound,
    /// Memory ran out; this may come at any call.
    #[error("out of memory")]
    OutOfMemory,
}

impl From<AllocError> for BindError {
    ghost use Rattle.std.specs.Prelude.{◌≡◌};
    ghost use Rattle.ncq_bind.specs.declared.binding.BindError.TheVariants.{OutOfMemory};

    ghost from_gives = { λ _ e. e ≡ OutOfMemory };

    fn from(_error: AllocError) -> BindError {
        BindError::OutOfMemory
    }
}

/// The normal query of a statement; it is well formed, and its template makes proper forests of
/// proper values. `NoSource` comes exactly where a match names a source that is not declared, else
/// `RootDiffers` exactly where a root tag is not that of its source, else `Unbound` exactly where a
/// condition or the template uses a variable that no pattern has, or a condition asks a predicate
/// that is not there, or with an argument where it wants none, or without one where it wants one.
pub fn bind(
    alloc: Global,
    statement: &Statement,
    store: &Store,
    predicates: &Predicates,
) -> Result<NormalQuery, BindError>
    requires { StatementIsWellFormed statement.now }
    ensures answer { Binds (relations predicates.now.items (λ p. p.name) (λ p. p.relation))
        statement.now.query (roots_in store.now) result }
    ensures formed { IfOk result (λ n. IsWellFormed n) }
    ensures named { IfOk result (λ n. template_is_named n.template ≡ true) }
{
    let items = statement.query.items.as_slice();
    if !are_declared(store, items) {
        return Err(BindError::NoSource);
    }
    if !have_roots(store, items) {
        return Err(BindError::RootDiffers);
    }
    if !are_served(predicates, items) {
        return Err(BindError::Unbound);
    }
    match normal_query(alloc, &statement.query)? {
        Some(query) => Ok(query),
        None => Err(BindError::Unbound),
    }
}

/// Whether all sources are declared.
fn are_declared(store: &Store, items: &[QueryItem]) -> bool
    ensures { result ≡ are_declared (roots_in store.now) items.now }
{
    items.iter().all(|item| is_declared(store, item))
}

/// Whether the source of a match is declared.
fn is_declared(store: &Store, item: &QueryItem) -> bool
    ensures { result ≡ item_is_declared (roots_in store.now) item.now }
{
    match item {
        QueryItem::Match { source, .. } => store.find(source.as_slice()).is_some(),
        QueryItem::Condition { .. } | QueryItem::Satisfies { .. } => true,
    }
}

/// Whether all root tags are those of their sources.
fn have_roots(store: &Store, items: &[QueryItem]) -> bool
    ensures { result ≡ have_roots (roots_in store.now) items.now }
{
    items.iter().all(|item| item_has_root(store, item))
}

/// Whether the root tag of a match is that of its source.
fn item_has_root(store: &Store, item: &QueryItem) -> bool
    ensures { result ≡ item_has_root (roots_in store.now) item.now }
{
    match item {
        QueryItem::Match { root, source, .. } => has_root(store, source, root),
        QueryItem::Condition { .. } | QueryItem::Satisfies { .. } => true,
    }
}

/// Whether the source of this name has this root.
fn has_root(store: &Store, source: &Bytes, root: &Bytes) -> bool
    ensures { result ≡ is_root root.now (roots_in store.now source.now) }
{
    match store.find(source.as_slice()) {
        Some(id) => *store.root_of(id) == *root,
        None => false,
    }
}
