//! How often byte strings stand, kept from one change to the next.
ghost use Rattle.std.specs.Prelude.{◌≡◌, ◌+◌, ◌<◌, ◌≤◌, ◌++◌, ◌↔◌, length, IfOk, OnOk, IsTrue};
ghost use Rattle.std.specs.FinMap.{empty};
ghost use Rattle.std.specs.List.{AllByRecursion};
ghost use Rattle.ncq_bag.specs.Counts.{AllPositive, CanChange, Fits, IsChange, after, changed};
ghost use Rattle.ncq_bag.specs.Counts.{stands, turn, turns, with_count};

use crate::bag::{Difference, Differences};
use indexmap::IndexMap;
use ncq_base::{Bytes, Copied};
use std::alloc::{AllocError, Global};
use std::hash::RandomState;
use std::marker::Model;

/// How often byte strings stand, each more than 0 times. Contracts see the counts, and how many
/// more byte strings need no memory.
#[derive(Drop)]
pub struct Counts {
    counts: IndexMap<Bytes, u64, RandomState>,
}

impl Model for Counts {
    ghost use Rattle.ncq_base.specs.Keys.{map_of};
    ghost use Rattle.ncq_bag.specs.CountStates.{CountState, IsPositive, count_code};
    ghost use Rattle.indexmap.specs.IndexMap.{spare};

    ghost Value = { CountState };

    ghost coded = { count_code };

    ghost view = { λ c. record { counts = map_of c.counts.entries; spare = spare c.counts } };

    ghost invariant = { λ c. IsPositive c.counts.entries };
}

/// Changes of counts that have their room. Contracts see the changes.
#[derive(Drop)]
pub struct Pending {
    changes: Differences,
}

impl Model for Pending {
    ghost use Rattle.std.specs.Prelude.{List};
    ghost use Rattle.std.specs.Coded.{coded_list};
    ghost use Rattle.ncq_bag.specs.declared.bag.Difference.{Difference};
    ghost use Rattle.ncq_bag.specs.contracts.bag.Difference.{the_row};

    ghost Value = { List Difference };

    ghost coded = { coded_list the_row.coded };

    ghost view = { λ p. p.changes };
}

impl Counts {
    /// No byte string stands. The map places byte strings by the seed, so that nobody who does not
    /// know it can choose byte strings that fall together.
    pub fn new(alloc: Global, seed: RandomState) -> Counts
        ensures { result.counts ≡ empty }
    {
        Counts {
            counts: IndexMap::with_hasher(alloc, seed),
        }
    }

    /// Whether the counts can be changed so: no more is taken away than stands, and no count
    /// exceeds 2^64 - 1.
    pub fn can_change(&self, changes: &[Difference]) -> bool
        ensures { IsTrue result ↔ AllByRecursion (Fits self.now.counts) changes.now }
    {
        for change in changes {
            if !can_change(self.count(&change.bytes), change.gain, change.count) {
                return false;
            }
        }
        true
    }

    /// Makes room for the changes, without making them, and tells what would leave 0, or reach it:
    /// each such byte string once, rising.
    pub fn prepare(
        &mut self,
        alloc: Global,
        changes: &Differences,
    ) -> Result<(Differences, Pending), AllocError>
        requires { IsChange self.old.counts changes.now }
        ensures counts { self.new.counts ≡ self.old.counts }
        ensures room { OnOk result (length changes.now ≤ self.new.spare) }
        ensures spare { self.old.spare ≤ self.new.spare }
        ensures entries { IfOk result (λ r. r.0 ≡ turns self.old.counts changes.now) }
        ensures pending { IfOk result (λ r. r.1 ≡ changes.now) }
        ensures positive { AllPositive self.new.counts }
    {
        self.reserve(changes.len())?;
        let turns = self.turns(alloc, changes)?;
        let changes = changes.copy(alloc)?;
        Ok((turns, Pending { changes }))
    }

    /// Makes the changes. It takes no memory and cannot be refused.
    pub fn commit(&mut self, pending: Pending)
        requires change { IsChange self.old.counts pending }
        requires room { length pending ≤ self.old.spare }
        ensures { self.new.counts ≡ after self.old.counts pending }
    {
        let Pending { changes } = pending;
        for change in changes.into_vec() {
            self.apply(change);
        }
    }

    /// Makes room for so many more byte strings.
    fn reserve(&mut self, additional: usize) -> Result<(), AllocError>
        ensures counts { self.new.counts ≡ self.old.counts }
        ensures room { OnOk result (additional ≤ self.new.spare) }
        ensures spare { self.old.spare ≤ self.new.spare }
        ensures positive { AllPositive self.new.counts }
    {
        self.counts.reserve(additional)
    }

    /// How often the byte string stands.
    fn count(&self, key: &Bytes) -> u64
        ensures { result ≡ stands self.now.counts key.now }
    {
        self.counts.get(key).copied().unwrap_or(0)
    }

    /// What the changes would make leave 0, or reach it.
    fn turns(&self, alloc: Global, changes: &Differences) -> Result<Differences, AllocError>
        requires { IsChange self.now.counts changes.now }
        ensures { IfOk result (λ d. d ≡ turns self.now.counts changes.now) }
    {
        let mut out = Differences::new(alloc);
        for change in changes.as_slice() {
            let before = self.count(&change.bytes);
            push_turn(alloc, &mut out, change, before)?;
        }
        Ok(out)
    }

    /// Makes one change.
    fn apply(&mut self, change: Difference)
        requires can { CanChange (stands self.old.counts change.bytes) change.gain change.count }
        requires room { 0 < self.old.spare }
        ensures counts { self.new.counts ≡ with_count self.old.counts change.bytes
            (changed (stands self.old.counts change.bytes) change.gain change.count) }
        ensures room { self.old.spare ≤ self.new.spare + 1 }
    {
        let before = self.count(&change.bytes);
        let after = changed(before, change.gain, change.count);
        if after == 0 {
            self.take(&change.bytes);
        } else {
            self.put(change.bytes, after);
        }
    }

    /// The byte string stands so often.
    fn put(&mut self, key: Bytes, count: u64)
        requires some { 0 < count }
        requires room { 0 < self.old.spare }
        ensures counts { self.new.counts ≡ with_count self.old.counts key count }
        ensures room { self.old.spare ≤ self.new.spare + 1 }
    {
        let _old = self.counts.insert(key, count).unwrap();
    }

    /// The byte string does not stand.
    fn take(&mut self, key: &Bytes)
        ensures counts { self.new.counts ≡ with_count self.old.counts key.now 0 }
        ensures room { self.old.spare ≤ self.new.spare }
    {
        let _old = self.counts.swap_remove(key);
    }
}

/// Whether there can be so many more, or so many less.
fn can_change(before: u64, gain: bool, times: u64) -> bool
    ensures { IsTrue result ↔ CanChange before gain times }
{
    if gain {
        times <= u64::MAX - before
    } else {
        times <= before
    }
}

/// So many more, or so many less.
fn changed(before: u64, gain: bool, times: u64) -> u64
    requires { CanChange before gain times }
    ensures { result ≡ changed before gain times }
{
    if gain { before + times } else { before - times }
}

/// What leaves 0 by the change, or reaches it.
fn push_turn(
    alloc: Global,
    out: &mut Differences,
    change: &Difference,
    before: u64,
) -> Result<(), AllocError>
    requires { CanChange before change.now.gain change.now.count }
    ensures { OnOk result (out.new ≡ out.old ++ turn change.now.bytes before
        (changed before change.now.gain change.now.count)) }
{
    let after = changed(before, change.gain, change.count);
    if (before == 0) == (after == 0) {
        return Ok(());
    }
    let bytes = change.bytes.copy(alloc)?;
    out.push(Difference {
        gain: before == 0,
        count: 1,
        bytes,
    })
}
