//! What an engine keeps of the handlers and predicates that it was made for.
ghost use Rattle.std.specs.Prelude.{◌≡◌, IfOk};
ghost use Rattle.ncq_callback.specs.Labels.{labels};
ghost use Rattle.ncq_plan.specs.Relations.{relations};

use ncq_base::{Bytes, Copied};
use ncq_callback::{Handlers, Kind};
use ncq_plan::{Predicate, Relation};
use std::alloc::{AllocError, Global};

/// The names and kinds of handlers.
pub(crate) fn labels_of(
    alloc: Global,
    handlers: &Handlers,
) -> Result<Vec<(Bytes, Kind)>, AllocError>
    ensures { IfOk result (λ found. found.items
        ≡ (labels handlers.now.items.items (λ h. h.name) (λ h. h.kind))) }
{
    let mut found = Vec::new(alloc);
    for at in 0..handlers.len() {
        found.push((handlers.name(at).copy(alloc)?, handlers.kind(at)))?;
    }
    Ok(found)
}

/// The names and relations of predicates.
pub(crate) fn relations_of(
    alloc: Global,
    predicates: &[Predicate],
) -> Result<Vec<(Bytes, Relation)>, AllocError>
    ensures { IfOk result (λ found. found.items
        ≡ relations predicates.now (λ p. p.name) (λ p. p.relation)) }
{
    let mut found = Vec::new(alloc);
    for predicate in predicates {
        found.push((
            predicate.name().copy(alloc)?,
            predicate.relation().copy(alloc)?,
        ))?;
    }
    Ok(found)
}
