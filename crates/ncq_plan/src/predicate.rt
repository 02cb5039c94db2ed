//! A named closure that tells whether a value stands in a relation to an argument.
ghost use Rattle.std.specs.Prelude.{◌≡◌};
ghost use Rattle.std.specs.Str.{bytes_eq};
ghost use Rattle.ncq_plan.specs.Relations.{relates};

use crate::relation::Relation;
use ncq_base::{Atom, Bytes};

/// Whether a value stands in a relation to an argument.
pub type AtomTest = Box<dyn Fn(&Atom, &Atom) -> bool>;

/// A closure with its name and its relation. Beside the closure stands that it tells whether the
/// value stands in that relation to the argument.
#[derive(Drop)]
pub struct Predicate {
    name: Bytes,
    relation: Relation,
    test: AtomTest,
    ghost callable: { AtomTest.IsAlwaysCallable test },
    ghost tells: { (value : _) (argument : _) (result : _)
        → AtomTest.post test value argument result
        → result ≡ relates relation value.now argument.now },
}

impl Predicate {
    pub fn new(name: Bytes, relation: Relation, test: AtomTest) -> Predicate
        requires callable { AtomTest.IsAlwaysCallable test }
        requires tells { (value : _) (argument : _) (result : _)
            → AtomTest.post test value argument result
            → result ≡ relates relation value.now argument.now }
        ensures name { result.name ≡ name }
        ensures relation { result.relation ≡ relation }
    {
        Predicate {
            name,
            relation,
            test,
        }
    }

    pub fn name(&self) -> &Bytes
        ensures { result.now ≡ self.now.name }
    {
        &self.name
    }

    pub fn relation(&self) -> &Relation
        ensures { result.now ≡ self.now.relation }
    {
        &self.relation
    }

    /// Whether it has this name.
    pub(crate) fn is_called(&self, name: &[u8]) -> bool
        ensures { result ≡ bytes_eq name.now self.now.name }
    {
        name == self.name.as_slice()
    }

    /// Whether the value stands in its relation to the argument.
    pub fn test(&self, value: &Atom, argument: &Atom) -> bool
        ensures { result ≡ relates self.now.relation value.now argument.now }
    {
        (self.test)(value, argument)
    }
}
