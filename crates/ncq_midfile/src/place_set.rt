//! The places of one number.
ghost use Rattle.std.specs.Prelude.{◌≡◌, ◌<◌, ◌≤◌, ◌||◌, ◌++◌, ◌∷◌, [], ℕ, false, true};
ghost use Rattle.std.specs.Prelude.{cond, nat_eq, nat_le};
ghost use Rattle.std.specs.Prelude.{IsTrue, IfOk, IfNone, IfSome, OnOk, OnErr};
ghost use Rattle.std.specs.List.{list_any};
ghost use Rattle.ncq_midfile.specs.Content.{AreRising};
ghost use Rattle.ncq_midfile.specs.Spots.{has_place, HaveSamePlaces, PutsPlace, MovesPlace};

use crate::few::Few;
use crate::signed::Places;
use std::alloc::{AllocError, Global};
use std::collections::BTreeSet;

/// How many places stand in a list before a set is made of them.
const MOST_FEW: usize = 8;

/// Some places: one alone or two, which take no block of memory, a few in a list, or a set.
#[derive(Drop)]
pub(crate) enum PlaceSet {
    One(usize),
    Two(usize, usize),
    Few(Few),
    Many(BTreeSet<usize>),
}

impl PlaceSet {
    /// One place more. After an error the places are as before.
    pub(crate) fn insert(&mut self, alloc: Global, place: usize) -> Result<(), AllocError>
        ensures ok { OnOk result (PutsPlace self.old place true self.new) }
        ensures err { OnErr result (HaveSamePlaces self.old self.new) }
    {
        match self {
            PlaceSet::One(only) => *self = both(*only, place),
            PlaceSet::Two(one, other) => *self = three(alloc, *one, *other, place)?,
            PlaceSet::Few(few) => {
                if few.len() < MOST_FEW {
                    few.insert(place)?;
                } else {
                    *self = many(alloc, few.later(0), place)?;
                }
            }
            PlaceSet::Many(places) => {
                places.insert(place)?;
            }
        }
        Ok(())
    }

    /// Takes the place away, if others are left; where none would be left, the answer is no. It
    /// takes no memory.
    pub(crate) fn remove(&mut self, place: usize) -> bool
        ensures left { IsTrue result → PutsPlace self.old place false self.new }
        ensures none { result ≡ false → (q : ℕ)
            → nat_eq place q ≡ false → has_place self.old q ≡ false }
    {
        match self {
            PlaceSet::One(only) => *only != place,
            PlaceSet::Two(one, other) => {
                let (one, other) = (*one, *other);
                if one == place && other == place {
                    return false;
                }
                if one == place {
                    *self = PlaceSet::One(other);
                } else if other == place {
                    *self = PlaceSet::One(one);
                }
                true
            }
            PlaceSet::Few(few) => few.remove(place),
            PlaceSet::Many(places) => {
                places.remove(&place);
                !places.is_empty()
            }
        }
    }

    /// Another place in the place of one. After an error the places are as before.
    pub(crate) fn shift(&mut self, from: usize, to: usize) -> Result<(), AllocError>
        requires there { IsTrue (has_place self.old from) }
        requires apart { from ≡ to → ⊥ }
        ensures ok { OnOk result (MovesPlace self.old from to self.new) }
        ensures err { OnErr result (HaveSamePlaces self.old self.new) }
    {
        match self {
            PlaceSet::One(only) => *only = to,
            PlaceSet::Two(one, other) => *self = moved(*one, *other, from, to),
            PlaceSet::Few(few) => {
                few.insert(to)?;
                few.remove(from);
            }
            PlaceSet::Many(places) => {
                places.insert(to)?;
                places.remove(&from);
            }
        }
        Ok(())
    }

    /// The places from one on, rising.
    pub(crate) fn places_from(&self, alloc: Global, from: usize) -> Result<Places, AllocError>
        ensures rising { IfOk result (AreRising from) }
        ensures same { IfOk result (λ places. (q : ℕ) → from ≤ q
            → list_any (nat_eq q) places ≡ has_place self.now q) }
    {
        let mut places = Vec::new(alloc);
        match self {
            PlaceSet::One(only) => push_from(&mut places, from, *only)?,
            PlaceSet::Two(one, other) => push_two(&mut places, from, *one, *other)?,
            PlaceSet::Few(few) => places.extend_from_slice(few.later(from))?,
            PlaceSet::Many(all) => places.extend(all.range(from..).copied())?,
        }
        Ok(Places::from_vec(places))
    }

    /// The first place from one on.
    pub(crate) fn first_from(&self, from: usize) -> Option<usize>
        ensures from { IfSome result (λ place. from ≤ place) }
        ensures there { IfSome result (λ place. IsTrue (has_place self.now place)) }
        ensures first { IfSome result (λ place. (q : ℕ) → from ≤ q
            → IsTrue (has_place self.now q) → place ≤ q) }
        ensures none { IfNone result ((q : ℕ) → from ≤ q → has_place self.now q ≡ false) }
    {
        match self {
            PlaceSet::One(only) => from_on(from, *only),
            PlaceSet::Two(one, other) => {
                let (low, high) = (*one.min(other), *one.max(other));
                from_on(from, low).or(from_on(from, high))
            }
            PlaceSet::Few(few) => few.first_from(from),
            PlaceSet::Many(all) => all.range(from..).next().copied(),
        }
    }
}

/// One place and another.
fn both(one: usize, other: usize) -> PlaceSet
    ensures { (q : ℕ) → has_place result q ≡ (nat_eq one q || nat_eq other q) }
{
    if one == other {
        return PlaceSet::One(one);
    }
    PlaceSet::Two(one, other)
}

/// One place and another, of which one goes, and a third one.
fn moved(one: usize, other: usize, from: usize, to: usize) -> PlaceSet
    requires there { IsTrue (nat_eq one from || nat_eq other from) }
    requires apart { from ≡ to → ⊥ }
    ensures { (q : ℕ) → has_place result q ≡ cond (nat_eq from q) false
        (cond (nat_eq to q) true (nat_eq one q || nat_eq other q)) }
{
    if one == other {
        return PlaceSet::One(to);
    }
    if one == from {
        return both(other, to);
    }
    both(one, to)
}

/// Three places.
fn three(alloc: Global, one: usize, other: usize, third: usize) -> Result<PlaceSet, AllocError>
    ensures { IfOk result (λ set. (q : ℕ)
        → has_place set q ≡ (nat_eq one q || nat_eq other q || nat_eq third q)) }
{
    let mut few = Few::new(alloc);
    few.insert(one)?;
    few.insert(other)?;
    few.insert(third)?;
    Ok(PlaceSet::Few(few))
}

/// These places, and one more.
fn many(alloc: Global, places: &[usize], place: usize) -> Result<PlaceSet, AllocError>
    ensures { IfOk result (λ set. (q : ℕ) → has_place set q
        ≡ cond (nat_eq place q) true (list_any (nat_eq q) places.now)) }
{
    let mut all = BTreeSet::new(alloc);
    for at in places {
        all.insert(*at)?;
    }
    all.insert(place)?;
    Ok(PlaceSet::Many(all))
}

/// The place, if it is not below the first.
fn from_on(from: usize, place: usize) -> Option<usize>
    ensures some { IfSome result (λ at. (at ≡ place) × (from ≤ place)) }
    ensures none { IfNone result (place < from) }
{
    if place >= from { Some(place) } else { None }
}

/// Adds the place, if it is not below the first.
fn push_from(places: &mut Vec<usize>, from: usize, place: usize) -> Result<(), AllocError>
    ensures { OnOk result (places.new.items
        ≡ places.old.items ++ cond (nat_le from place) (place ∷ []) []) }
{
    if place >= from {
        places.push(place)?;
    }
    Ok(())
}

/// Adds to an empty list one place and another, rising, but for those below the first.
fn push_two(
    places: &mut Vec<usize>,
    from: usize,
    one: usize,
    other: usize,
) -> Result<(), AllocError>
    requires { places.old.items ≡ [] }
    ensures rising { OnOk result (AreRising from places.new.items) }
    ensures same { OnOk result ((q : ℕ) → from ≤ q
        → list_any (nat_eq q) places.new.items ≡ (nat_eq one q || nat_eq other q)) }
{
    push_from(places, from, one.min(other))?;
    if one != other {
        push_from(places, from, one.max(other))?;
    }
    Ok(())
}
