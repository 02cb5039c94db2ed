//! Where numbers stand.
ghost use Rattle.std.specs.Prelude.{◌≡◌, ◌≤◌, ℕ, false, true, nat_eq};
ghost use Rattle.std.specs.Prelude.{IsTrue, IfOk, IfNone, IfSome, OnOk, OnErr};
ghost use Rattle.std.specs.List.{list_any};
ghost use Rattle.ncq_midfile.specs.Content.{AreRising};
ghost use Rattle.ncq_midfile.specs.Spots.{is_spot, HaveSameSpots, PutsSpot, MovesSpot};

use crate::place_set::PlaceSet;
use crate::signed::Places;
use indexmap::IndexMap;
use std::alloc::{AllocError, Global};

/// The places of each number. A number that stands nowhere has no entry.
#[derive(Drop)]
pub(crate) struct Spots {
    places: IndexMap<u64, PlaceSet>,
}

impl Spots {
    /// No numbers.
    pub(crate) fn new(alloc: Global) -> Spots
        ensures { (number place : ℕ) → is_spot result number place ≡ false }
    {
        Spots {
            places: IndexMap::new(alloc),
        }
    }

    /// The number stands at the place, too. After an error all is as before.
    pub(crate) fn insert(&mut self, number: u64, place: usize) -> Result<(), AllocError>
        ensures ok { OnOk result (PutsSpot self.old number place true self.new) }
        ensures err { OnErr result (HaveSameSpots self.old self.new) }
    {
        let alloc = *self.places.allocator();
        if let Some(places) = self.places.get_mut(&number) {
            return places.insert(alloc, place);
        }
        self.places.insert(number, PlaceSet::One(place))?;
        Ok(())
    }

    /// The number does not stand at the place. It takes no memory.
    pub(crate) fn remove(&mut self, number: u64, place: usize)
        ensures { PutsSpot self.old number place false self.new }
    {
        let Some(places) = self.places.get_mut(&number) else {
            return;
        };
        if places.remove(place) {
            return;
        }
        self.places.swap_remove(&number);
    }

    /// The number stands at another place in the place of one. After an error all is as before.
    pub(crate) fn shift(&mut self, number: u64, from: usize, to: usize) -> Result<(), AllocError>
        requires there { IsTrue (is_spot self.old number from) }
        requires apart { from ≡ to → ⊥ }
        ensures ok { OnOk result (MovesSpot self.old number from to self.new) }
        ensures err { OnErr result (HaveSameSpots self.old self.new) }
    {
        let Some(places) = self.places.get_mut(&number) else {
            unreachable!()
        };
        places.shift(from, to)
    }

    /// The places of the number from one on, rising. No other number is looked at.
    pub(crate) fn places_of(
        &self,
        alloc: Global,
        number: u64,
        from: usize,
    ) -> Result<Places, AllocError>
        ensures rising { IfOk result (AreRising from) }
        ensures same { IfOk result (λ places. (q : ℕ) → from ≤ q
            → list_any (nat_eq q) places ≡ is_spot self.now number q) }
    {
        match self.places.get(&number) {
            Some(places) => places.places_from(alloc, from),
            None => Ok(Places::new(alloc)),
        }
    }

    /// The first place of the number from one on.
    pub(crate) fn first_place(&self, number: u64, from: usize) -> Option<usize>
        ensures from { IfSome result (λ place. from ≤ place) }
        ensures there { IfSome result (λ place. IsTrue (is_spot self.now number place)) }
        ensures first { IfSome result (λ place. (q : ℕ) → from ≤ q
            → IsTrue (is_spot self.now number q) → place ≤ q) }
        ensures none { IfNone result ((q : ℕ) → from ≤ q → is_spot self.now number q ≡ false) }
    {
        match self.places.get(&number) {
            Some(places) => places.first_from(from),
            None => None,
        }
    }
}
