//! Whether the predicates that a query asks are there, each with the argument that it wants.
ghost use Rattle.std.specs.Prelude.{◌≡◌};
ghost use Rattle.ncq_plan.specs.Relations.{relation_in, relations};
ghost use Rattle.ncq_bind.specs.Served.{are_served, item_is_served, serves, wants};

use ncq_base::Bytes;
use ncq_plan::{Predicates, Relation, relation_of};
use ncq_xmlql::QueryItem;

/// Whether each predicate that is asked is there, and has an argument exactly where it wants one.
pub(crate) fn are_served(predicates: &Predicates, items: &[QueryItem]) -> bool
    ensures { result ≡ are_served
        (relations predicates.now.items (λ p. p.name) (λ p. p.relation)) items.now }
{
    for item in items {
        if !item_is_served(predicates, item) {
            return false;
        }
    }
    true
}

/// Whether it is so with the predicate that a condition asks.
fn item_is_served(predicates: &Predicates, item: &QueryItem) -> bool
    ensures { result ≡ item_is_served
        (relations predicates.now.items (λ p. p.name) (λ p. p.relation)) item.now }
{
    match item {
        QueryItem::Match { .. } | QueryItem::Condition { .. } => true,
        QueryItem::Satisfies {
            predicate,
            argument,
            ..
        } => serves(predicates, predicate, argument),
    }
}

/// Whether there is a predicate of this name, and an argument exactly where it wants one.
fn serves(predicates: &Predicates, name: &Bytes, argument: &Option<Bytes>) -> bool
    ensures { result ≡ serves
        (relation_in name.now
        (relations predicates.now.items (λ p. p.name) (λ p. p.relation))) argument.now }
{
    match relation_of(predicates, name.as_slice()) {
        Some(relation) => wants(relation, argument),
        None => false,
    }
}

/// Membership of a list wants no argument, the other relations want one.
fn wants(relation: &Relation, argument: &Option<Bytes>) -> bool
    ensures { result ≡ wants relation.now argument.now }
{
    match relation {
        Relation::Prefix | Relation::Multiple => argument.is_some(),
        Relation::Member(_) => argument.is_none(),
    }
}
