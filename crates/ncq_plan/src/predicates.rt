//! The predicates that conditions may name.
ghost use Rattle.std.specs.Prelude.{◌≡◌, position};
ghost use Rattle.std.specs.Option.{option_map};
ghost use Rattle.std.specs.Str.{bytes_eq};
ghost use Rattle.ncq_plan.specs.Relations.{relation_in, relations, satisfies};

use crate::predicate::Predicate;
use crate::relation::Relation;
use ncq_base::Atom;

/// Predicates in order. Contracts see the list of their names and relations. It is a plain list, so
/// that a type of another crate that keeps predicates makes and changes it itself.
pub type Predicates = Vec<Predicate>;

/// The place of the first predicate of this name: none exactly where there is none.
pub fn find_predicate(predicates: &[Predicate], name: &[u8]) -> Option<usize>
    ensures { result ≡ position (λ p. bytes_eq name.now p.0)
        (relations predicates.now (λ p. p.name) (λ p. p.relation)) }
{
    let mut at = 0;
    while at < predicates.len() {
        if predicates[at].is_called(name) {
            return Some(at);
        }
        at += 1;
    }
    None
}

/// The relation of the first predicate of this name: none exactly where there is none.
pub fn relation_of<'a>(predicates: &'a [Predicate], name: &[u8]) -> Option<&'a Relation>
    ensures { option_map (λ r. r.now) result
        ≡ relation_in name.now (relations predicates.now (λ p. p.name) (λ p. p.relation)) }
{
    for known in predicates {
        if known.is_called(name) {
            return Some(known.relation());
        }
    }
    None
}

/// Whether there is a predicate of this name, and the value stands in the relation of the first one
/// to the argument.
pub fn satisfies(predicates: &[Predicate], name: &[u8], value: &Atom, argument: &Atom) -> bool
    ensures { result ≡ satisfies
        (relation_in name.now (relations predicates.now (λ p. p.name) (λ p. p.relation)))
        value.now argument.now }
{
    for predicate in predicates {
        if predicate.is_called(name) {
            return predicate.test(value, argument);
        }
    }
    false
}
