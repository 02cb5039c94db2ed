//! Indexes of rows by the atoms in some slots.
//!
//! An index has the hashes of the atoms of the first rows, chained by equal hashes. It hashes them
//! under the seed of its file, so that nobody who does not know it can choose atoms whose hashes
//! meet. Atoms are always compared as well: hashes that meet cost time and change no answer.
ghost use Rattle.std.specs.Prelude.{◌≡◌, ◌++◌, ◌<◌, ◌≤◌, [], length, take, drop};
ghost use Rattle.std.specs.Prelude.{IfOk, IfSome, OnOk, IsTrue};
ghost use Rattle.std.specs.List.{All};
ghost use Rattle.ncq_midfile.specs.Content.{AreRising};
ghost use Rattle.ncq_midfile.specs.Finders.{AreFinders};
ghost use Rattle.ncq_midfile.specs.Indexes.{atoms_at, key_hash, Covers, cut_index};
ghost use Rattle.ncq_midfile.specs.Matching.{HaveSlots, is_wanted, places_where, chosen};
ghost use Rattle.ncq_midfile.specs.Pairs.{IsFull, taken_out};

use crate::chain::Chains;
use crate::content::push_where;
use crate::finder::{Finder, find_index};
use crate::key::KeyAtom;
use crate::matching::is_wanted;
use crate::signed::{Places, SignedRow};
use ncq_row::Row;
use std::alloc::{AllocError, Global};
use std::hash::{BuildHasher, Hash, Hasher, RandomState};

/// The hashes of the first rows' atoms in some slots.
#[derive(Drop)]
pub(crate) struct Index {
    seed: RandomState,
    slots: Places,
    hashes: Chains,
}

impl Index {
    /// An index on the slots that has no row yet. It hashes atoms under the seed.
    pub(crate) fn new(
        alloc: Global,
        seed: RandomState,
        slots: &[usize],
    ) -> Result<Index, AllocError>
        ensures slots { IfOk result (λ index. index.slots ≡ slots.now) }
        ensures hashes { IfOk result (λ index. index.hashes ≡ []) }
    {
        Ok(Index {
            seed,
            slots: Places::from_vec(Vec::from_slice(alloc, slots)?),
            hashes: Chains::new(alloc),
        })
    }

    /// How many of the rows it has.
    pub(crate) fn len(&self) -> usize
        ensures { result ≡ length self.now.hashes }
    {
        self.hashes.len()
    }

    /// Whether it is on just these slots.
    pub(crate) fn is_on(&self, slots: &[usize]) -> bool
        ensures { IsTrue result → self.now.slots ≡ slots.now }
    {
        self.slots.as_slice() == slots
    }

    /// The slots whose atoms are hashed.
    pub(crate) fn slots(&self) -> &[usize]
        ensures { result.now ≡ self.now.slots }
    {
        self.slots.as_slice()
    }

    /// The hash that it has of the row at the place.
    pub(crate) fn hash(&self, place: usize) -> Option<u64> {
        self.hashes.get(place)
    }

    /// The first place from one on at which the hash stands.
    pub(crate) fn first_place(&self, hash: u64, from: usize) -> Option<usize>
        ensures { IfSome result (λ place. from ≤ place) }
    {
        self.hashes.first_place(hash, from)
    }

    /// Takes in the rows that it has not yet, up to the first that has not its slots; where there
    /// is such a row, the answer is no. After an error it has some of them.
    pub(crate) fn fill(&mut self, rows: &[SignedRow]) -> Result<bool, AllocError>
        requires { Covers self.old rows.now }
        ensures slots { self.new.slots ≡ self.old.slots }
        ensures covers { Covers self.new rows.now }
        ensures full { IfOk result (λ all. IsTrue all → IsFull rows.now self.new) }
    {
        for at in self.hashes.len()..rows.len() {
            let row = &rows[at].row;
            if !fits(row, self.slots.as_slice()) {
                return Ok(false);
            }
            self.hashes
                .push(hash_at(self.seed, row, self.slots.as_slice()))?;
        }
        Ok(true)
    }

    /// Takes the hashes of the rows at the places out. Where memory runs out, it forgets all.
    pub(crate) fn forget(&mut self, rows: &[SignedRow], places: &[usize])
        requires rising { AreRising 0 places.now }
        requires within { All (λ place. place < length rows.now) places.now }
        requires full { IsFull rows.now self.old }
        ensures slots { self.new.slots ≡ self.old.slots }
        ensures covers { Covers self.new (taken_out places.now rows.now) }
    {
        let mut left = places.len();
        while left > 0 {
            left -= 1;
            if self.hashes.swap_remove(places[left]).is_err() {
                self.hashes.cut(0);
                return;
            }
        }
    }

    /// Leaves the first rows. It takes no memory.
    pub(crate) fn cut(&mut self, kept: usize)
        ensures { self.new ≡ cut_index kept self.old }
    {
        self.hashes.cut(kept);
    }
}

/// Adds the places of the rows with these atoms and numbers up to `n` that an index on the slots
/// has, and tells how many rows it has.
pub(crate) fn push_from_index(
    alloc: Global,
    places: &mut Places,
    rows: &[SignedRow],
    finders: &[Finder],
    slots: &[usize],
    key: &[KeyAtom<'_>],
    n: u64,
) -> Result<usize, AllocError>
    requires finders { AreFinders finders.now rows.now }
    requires slots { HaveSlots slots.now rows.now }
    ensures within { IfOk result (λ from. from ≤ length rows.now) }
    ensures places { IfOk result (λ from. places.new ≡ places.old
        ++ places_where (is_wanted slots.now key.now n) 0 (take from rows.now)) }
{
    let Some(index) = find_index(finders, slots) else {
        return Ok(0);
    };
    push_indexed(alloc, places, rows, index, key, 0, n)?;
    Ok(index.hashes.len())
}

/// Adds the places, from one on, of the indexed rows with these atoms and numbers up to `n`.
pub(crate) fn push_indexed(
    alloc: Global,
    places: &mut Places,
    rows: &[SignedRow],
    index: &Index,
    key: &[KeyAtom<'_>],
    from: usize,
    n: u64,
) -> Result<(), AllocError>
    requires covers { Covers index.now rows.now }
    requires slots { HaveSlots index.now.slots rows.now }
    ensures { OnOk result (places.new ≡ places.old
        ++ places_where (is_wanted index.now.slots key.now n) from
        (drop from (take (length index.now.hashes) rows.now))) }
{
    let chained = index
        .hashes
        .places_of(alloc, hash_of(index.seed, key), from)?;
    push_chosen(
        places,
        rows,
        chained.as_slice(),
        index.slots.as_slice(),
        key,
        n,
    )
}

/// Adds those of the places whose rows have these atoms and numbers up to `n`.
fn push_chosen(
    places: &mut Places,
    rows: &[SignedRow],
    candidates: &[usize],
    slots: &[usize],
    key: &[KeyAtom<'_>],
    n: u64,
) -> Result<(), AllocError>
    requires within { All (λ place. place < length rows.now) candidates.now }
    requires slots { HaveSlots slots.now rows.now }
    ensures { OnOk result (places.new ≡ places.old
        ++ chosen (is_wanted slots.now key.now n) rows.now candidates.now) }
{
    for place in candidates {
        let wanted = is_wanted(&rows[*place], slots, key, n);
        push_where(places, *place, wanted)?;
    }
    Ok(())
}

/// The hash of atoms under the seed.
#[tactic(auto, using(crate::proofs::FedLaws::fed_more))]
fn hash_of(seed: RandomState, key: &[KeyAtom<'_>]) -> u64
    ensures { result ≡ key_hash seed key.now }
{
    let mut state = seed.build_hasher();
    for atom in key {
        atom.get().hash(&mut state);
    }
    state.finish()
}

/// The hash of the row's atoms in the slots, under the seed.
fn hash_at(seed: RandomState, row: &Row, slots: &[usize]) -> u64
    requires { All (λ slot. slot < length row.now) slots.now }
    ensures { result ≡ key_hash seed (atoms_at row.now slots.now) }
{
    let mut state = seed.build_hasher();
    for slot in slots {
        row.atom(*slot).hash(&mut state);
    }
    state.finish()
}

/// Whether the row has each of the slots.
pub(crate) fn fits(row: &Row, slots: &[usize]) -> bool
    ensures { IsTrue result → All (λ slot. slot < length row.now) slots.now }
{
    for slot in slots {
        if *slot >= row.len() {
            return false;
        }
    }
    true
}
