//! What predicates ask of a value and an argument.
ghost use Rattle.std.specs.Prelude.{◌≡◌, ◌==◌, ◌%◌, ◌&&◌, not};
ghost use Rattle.ncq_plan.specs.Relations.{begins_with, is_multiple};

use ncq_base::{Atom, Copied, Sequence};
use std::alloc::{AllocError, Global};

/// Atoms in order.
pub type Atoms = Sequence<Atom>;

/// What a predicate asks of a value and an argument.
#[derive(Drop)]
pub enum Relation {
    /// Both are texts, and the value begins with the argument.
    Prefix,
    /// Both are numbers, and the value is a multiple of the argument, which is not 0.
    Multiple,
    /// The value is one of these.
    Member(Atoms),
}

impl Copied for Relation {
    fn copy(&self, alloc: Global) -> Result<Relation, AllocError> {
        match self {
            Relation::Prefix => Ok(Relation::Prefix),
            Relation::Multiple => Ok(Relation::Multiple),
            Relation::Member(atoms) => Ok(Relation::Member(atoms.copy(alloc)?)),
        }
    }
}

/// Whether both are texts and the value begins with the argument.
pub fn starts(value: &Atom, argument: &Atom) -> bool
    ensures { result ≡ begins_with value.now argument.now }
{
    match (value, argument) {
        (Atom::Text(text), Atom::Text(front)) => text.as_slice().starts_with(front.as_slice()),
        _ => false,
    }
}

/// Whether both are numbers, the argument is not 0, and the value is a multiple of it.
pub fn multiple(value: &Atom, argument: &Atom) -> bool
    ensures { result ≡ is_multiple value.now argument.now }
{
    match (value, argument) {
        (Atom::Num(number), Atom::Num(part)) => is_multiple_of(
            number.unsigned_abs(),
            part.unsigned_abs(),
        ),
        _ => false,
    }
}

/// Whether the part is not 0 and the number is a multiple of it.
fn is_multiple_of(number: u128, part: u128) -> bool
    ensures { result ≡ (not (part == 0) && number % part == 0) }
{
    part != 0 && number % part == 0
}
