//! A few places.
ghost use Rattle.std.specs.Prelude.{◌≡◌, ◌<◌, ◌≤◌, [], ℕ, false, true, cond, nat_eq, length};
ghost use Rattle.std.specs.Prelude.{IsTrue, IfNone, IfSome, OnOk, OnErr, slice_index};
ghost use Rattle.std.specs.List.{list_any};
ghost use Rattle.ncq_midfile.specs.Content.{AreRising};

use std::alloc::{AllocError, Global};
use std::marker::Model;

/// Some places, rising. They are looked through one by one.
#[derive(Drop)]
pub(crate) struct Few {
    places: Vec<usize>,
}

impl Model for Few {
    ghost use Rattle.std.specs.Prelude.{List, ℕ};
    ghost use Rattle.std.specs.Coded.{coded_list, coded_ℕ};
    ghost use Rattle.ncq_midfile.specs.Content.{AreRising};

    ghost Value = { List ℕ };

    ghost coded = { coded_list coded_ℕ };

    ghost view = { λ f. f.places.items };

    ghost invariant = { λ f. AreRising 0 f.places.items };
}

impl Few {
    /// No places.
    pub(crate) fn new(alloc: Global) -> Few
        ensures { result ≡ [] }
    {
        Few {
            places: Vec::new(alloc),
        }
    }

    pub(crate) fn len(&self) -> usize
        ensures { result ≡ length self.now }
    {
        self.places.len()
    }

    /// One place more, if it is not there. After an error all is as before.
    pub(crate) fn insert(&mut self, place: usize) -> Result<(), AllocError>
        ensures ok { OnOk result ((q : ℕ) → list_any (nat_eq q) self.new
            ≡ cond (nat_eq place q) true (list_any (nat_eq q) self.old)) }
        ensures err { OnErr result (self.new ≡ self.old) }
    {
        put(&mut self.places, place)
    }

    /// Takes the place away; the answer is whether others are left. It takes no memory.
    pub(crate) fn remove(&mut self, place: usize) -> bool
        ensures others { (q : ℕ) → list_any (nat_eq q) self.new
            ≡ cond (nat_eq place q) false (list_any (nat_eq q) self.old) }
        ensures none { result ≡ false → self.new ≡ [] }
    {
        take_out(&mut self.places, place);
        !self.places.is_empty()
    }

    /// The places from one on.
    pub(crate) fn later(&self, from: usize) -> &[usize]
        ensures rising { AreRising from result.now }
        ensures same { (q : ℕ) → from ≤ q
            → list_any (nat_eq q) result.now ≡ list_any (nat_eq q) self.now }
    {
        later_of(self.places.as_slice(), from)
    }

    /// The first place from one on.
    pub(crate) fn first_from(&self, from: usize) -> Option<usize>
        ensures from { IfSome result (λ place. from ≤ place) }
        ensures there { IfSome result (λ place. IsTrue (list_any (nat_eq place) self.now)) }
        ensures first { IfSome result (λ place. (q : ℕ) → from ≤ q
            → IsTrue (list_any (nat_eq q) self.now) → place ≤ q) }
        ensures none { IfNone result ((q : ℕ) → from ≤ q
            → list_any (nat_eq q) self.now ≡ false) }
    {
        self.later(from).first().copied()
    }
}

/// How many places in front are below one.
fn count_below(places: &[usize], place: usize) -> usize
    ensures within { result ≤ length places.now }
    ensures below { (k : ℕ) → k < result → slice_index places.now k < place }
    ensures above { result < length places.now → place ≤ slice_index places.now result }
{
    let mut at = 0;
    while at < places.len() && places[at] < place {
        at += 1;
    }
    at
}

/// Puts the place where it belongs, if it is not there.
fn put(places: &mut Vec<usize>, place: usize) -> Result<(), AllocError>
    requires { AreRising 0 places.old.items }
    ensures rising { AreRising 0 places.new.items }
    ensures ok { OnOk result ((q : ℕ) → list_any (nat_eq q) places.new.items
        ≡ cond (nat_eq place q) true (list_any (nat_eq q) places.old.items)) }
    ensures err { OnErr result (places.new.items ≡ places.old.items) }
{
    let at = count_below(places.as_slice(), place);
    if at < places.len() && places[at] == place {
        return Ok(());
    }
    places.insert(at, place)?;
    Ok(())
}

/// Takes the place away.
fn take_out(places: &mut Vec<usize>, place: usize)
    requires { AreRising 0 places.old.items }
    ensures rising { AreRising 0 places.new.items }
    ensures others { (q : ℕ) → list_any (nat_eq q) places.new.items
        ≡ cond (nat_eq place q) false (list_any (nat_eq q) places.old.items) }
{
    places.retain(|at| *at != place);
}

/// The places from one on.
fn later_of(places: &[usize], from: usize) -> &[usize]
    requires { AreRising 0 places.now }
    ensures rising { AreRising from result.now }
    ensures same { (q : ℕ) → from ≤ q
        → list_any (nat_eq q) result.now ≡ list_any (nat_eq q) places.now }
{
    let below = count_below(places, from);
    &places[below..]
}
