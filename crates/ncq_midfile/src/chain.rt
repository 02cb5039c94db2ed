//! A list of numbers in which all places of a number are found.
ghost use Rattle.std.specs.Prelude.{◌≡◌, ◌++◌, ◌∷◌, [], ◌-◌, ◌<◌, ◌≤◌, length, take, drop, nat_eq};
ghost use Rattle.std.specs.Prelude.{IfOk, IfSome, OnOk, OnErr};
ghost use Rattle.std.specs.List.{swap_remove};
ghost use Rattle.ncq_midfile.specs.Matching.{places_where};

use crate::signed::Places;
use crate::spots::Spots;
use std::alloc::{AllocError, Global};
use std::marker::Model;

/// Numbers in order, and a table of where each stands. What is put or taken costs the same wherever
/// it stands.
#[derive(Drop)]
pub(crate) struct Chains {
    numbers: Vec<u64>,
    spots: Spots,
}

impl Model for Chains {
    ghost use Rattle.std.specs.Prelude.{List, ℕ};
    ghost use Rattle.std.specs.Coded.{coded_list, coded_ℕ};
    ghost use Rattle.ncq_midfile.specs.Chains.{AreSpotted};

    ghost Value = { List ℕ };

    ghost coded = { coded_list coded_ℕ };

    ghost view = { λ c. c.numbers.items };

    ghost invariant = { λ c. AreSpotted c.numbers.items c.spots };
}

impl Chains {
    /// No numbers.
    pub(crate) fn new(alloc: Global) -> Chains
        ensures { result ≡ [] }
    {
        Chains {
            numbers: Vec::new(alloc),
            spots: Spots::new(alloc),
        }
    }

    pub(crate) fn len(&self) -> usize
        ensures { result ≡ length self.now }
    {
        self.numbers.len()
    }

    /// The number at a place.
    pub(crate) fn get(&self, place: usize) -> Option<u64> {
        self.numbers.get(place).copied()
    }

    /// One number more.
    pub(crate) fn push(&mut self, number: u64) -> Result<(), AllocError>
        ensures ok { OnOk result (self.new ≡ self.old ++ number ∷ []) }
        ensures err { OnErr result (self.new ≡ self.old) }
    {
        self.numbers.reserve(1)?;
        let place = self.numbers.len();
        self.spots.insert(number, place)?;
        self.numbers.push(number).unwrap();
        Ok(())
    }

    /// Takes the last number away.
    fn pop(&mut self)
        requires { 0 < length self.old }
        ensures { self.new ≡ take (length self.old - 1) self.old }
    {
        let Some(number) = self.numbers.pop() else {
            unreachable!()
        };
        let place = self.numbers.len();
        self.spots.remove(number, place);
    }

    /// Takes the number at a place away, and puts the last one there.
    pub(crate) fn swap_remove(&mut self, at: usize) -> Result<(), AllocError>
        requires { at < length self.old }
        ensures ok { OnOk result (self.new ≡ swap_remove self.old at 0) }
        ensures err { OnErr result (self.new ≡ self.old) }
    {
        let end = self.numbers.len() - 1;
        let last = self.numbers[end];
        let gone = self.numbers[at];
        if gone == last {
            self.pop();
            return Ok(());
        }
        self.spots.shift(last, end, at)?;
        self.spots.remove(gone, at);
        self.numbers.swap_remove(at);
        Ok(())
    }

    /// The places of the number from one on, rising. No other places are looked at.
    pub(crate) fn places_of(
        &self,
        alloc: Global,
        number: u64,
        from: usize,
    ) -> Result<Places, AllocError>
        ensures { IfOk result (λ places.
            places ≡ places_where (nat_eq number) from (drop from self.now)) }
    {
        self.spots.places_of(alloc, number, from)
    }

    /// The first place of the number from one on.
    pub(crate) fn first_place(&self, number: u64, from: usize) -> Option<usize>
        ensures { IfSome result (λ place. from ≤ place) }
    {
        self.spots.first_place(number, from)
    }

    /// Takes away the numbers from this place on. It takes no memory.
    pub(crate) fn cut(&mut self, kept: usize)
        ensures { self.new ≡ take kept self.old }
    {
        while self.len() > kept {
            self.pop();
        }
    }
}
