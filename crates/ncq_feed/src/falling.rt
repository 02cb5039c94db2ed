//! A few numbers in order.
ghost use Rattle.std.specs.Prelude.{◌≡◌, ◌<◌, ◌≤◌, ◌^◌, ◌∷◌, [], ℕ, true, ◌||◌, nat_eq};
ghost use Rattle.std.specs.Prelude.{OnOk, IfOk, IfSome, IfNone, length, slice_index};
ghost use Rattle.ncq_feed.specs.Falling.{AreFalling};
ghost use Rattle.ncq_feed.specs.Runs.{is_among};

use std::alloc::{AllocError, Global};
use std::collections::BTreeSet;
use std::marker::Model;

/// A few numbers. They stand falling, so that the least is taken from the end. Contracts see them
/// rising.
#[derive(Drop)]
pub(crate) struct Falling {
    falling: Vec<u64>,
}

impl Model for Falling {
    ghost use Rattle.std.specs.Prelude.{List, ℕ, ◌^◌, reverse};
    ghost use Rattle.std.specs.Coded.{coded_list, coded_ℕ};
    ghost use Rattle.ncq_feed.specs.Falling.{AreFalling};

    ghost Value = { List ℕ };

    ghost coded = { coded_list coded_ℕ };

    ghost view = { λ p. reverse p.falling.items };

    ghost invariant = { λ p. AreFalling (2 ^ 64) p.falling.items };
}

impl Falling {
    /// No numbers.
    pub(crate) fn new(alloc: Global) -> Falling
        ensures { result ≡ [] }
    {
        Falling {
            falling: Vec::new(alloc),
        }
    }

    /// How many there are.
    pub(crate) fn len(&self) -> usize {
        self.falling.len()
    }

    /// One number more, unless it is there.
    pub(crate) fn note(&mut self, number: u64) -> Result<(), AllocError>
        ensures { OnOk result ((other : ℕ) → is_among other self.new
            ≡ (nat_eq other number || is_among other self.old)) }
    {
        let at = count_above(self.falling.as_slice(), number);
        if at < self.falling.len() && self.falling[at] == number {
            return Ok(());
        }
        self.falling.insert(at, number)?;
        Ok(())
    }

    /// The numbers and one more, in a tree.
    pub(crate) fn tree_with(&self, alloc: Global, number: u64) -> Result<BTreeSet<u64>, AllocError>
        ensures { IfOk result (λ tree. (other : ℕ) → is_among other tree.keys
            ≡ (nat_eq other number || is_among other self.now)) }
    {
        let mut tree = BTreeSet::new(alloc);
        for noted in &self.falling {
            tree.insert(*noted)?;
        }
        tree.insert(number)?;
        Ok(tree)
    }

    /// Takes the least number away.
    pub(crate) fn take_first(&mut self) -> Option<u64>
        ensures some { IfSome result (λ number. self.old ≡ number ∷ self.new) }
        ensures above { IfSome result (λ number. (other : ℕ)
            → is_among other self.new ≡ true → number < other) }
        ensures small { IfSome result (λ number. number < 2 ^ 64) }
        ensures none { IfNone result (self.old ≡ []) }
    {
        self.falling.pop()
    }
}

/// How many of the falling numbers are above one.
fn count_above(numbers: &[u64], number: u64) -> usize
    requires { AreFalling (2 ^ 64) numbers.now }
    ensures within { result ≤ length numbers.now }
    ensures above { (k : ℕ) → k < result → number < slice_index numbers.now k }
    ensures below { result < length numbers.now → slice_index numbers.now result ≤ number }
{
    numbers.partition_point(|other| *other > number)
}
