//! The counts of subscriptions, and the changes of them that wait.
ghost use Rattle.std.specs.Prelude.{◌≡◌, ◌==◌, [], if◌then◌else◌, IfOk, OnErr, OnOk, ℕ};
ghost use Rattle.std.specs.FinMap.{empty};
ghost use Rattle.ncq_bag.specs.Counts.{after, turns, IsChange};
ghost use Rattle.ncq_distinct.specs.DistinctTables.{counts_at, waiting_at, AreRising, AwaitsAt};
ghost use Rattle.ncq_distinct.specs.DistinctTables.{HaveSameCounts, IsSettled};

use crate::kept::{commit_at, turns_at};
use indexmap::IndexMap;
use ncq_bag::{Counts, Pending};
use ncq_callback::Entries;
use std::alloc::{AllocError, Global};
use std::hash::RandomState;
use std::marker::Model;

/// The counts of subscriptions by their install numbers: how often each forest stands in all that
/// the query of a subscription answered at its latest firing. Contracts see the counts, and the
/// changes of them that wait for the end of a command.
pub struct DistinctTable {
    counts: IndexMap<u64, Counts>,
    /// They can be made of the counts of their subscriptions, and have their room.
    waiting: IndexMap<u64, Pending>,
    seed: RandomState,
}

impl Drop for DistinctTable {
    fn drop(self) {
        let DistinctTable {
            counts,
            waiting,
            seed: _,
        } = self;
        drop(counts);
        drop(waiting);
    }
}

impl Model for DistinctTable {
    ghost use Rattle.ncq_distinct.specs.DistinctTables.{DistinctTable, distinct_code};
    ghost use Rattle.ncq_distinct.specs.Kept.{CanWait, table_of};

    ghost Value = { DistinctTable };

    ghost coded = { distinct_code };

    ghost view = { λ t. table_of t.counts.entries t.waiting.entries };

    ghost invariant = { λ t. CanWait t.counts.entries t.waiting.entries };
}

impl DistinctTable {
    /// No subscription has counts. They are to place forests by the seed.
    pub fn new(alloc: Global, seed: RandomState) -> DistinctTable
        ensures { result ≡ empty }
    {
        DistinctTable {
            counts: IndexMap::new(alloc),
            waiting: IndexMap::new(alloc),
            seed,
        }
    }

    /// What of the entries leaves 0 or reaches it, as the counts of the subscription of this
    /// install number stand. They stay as they are: the changes wait, in place of those that waited
    /// for it. Where memory runs out, all is as before; so it is where a forest would stand more
    /// than 2^64 - 1 times, which no memory holds, or less often than not at all.
    pub fn prepare(
        &mut self,
        alloc: Global,
        install: u64,
        entries: &Entries,
    ) -> Result<Entries, AllocError>
        requires rising { AreRising entries.now }
        ensures told { IfOk result (λ told. told ≡ turns (counts_at self.old install) entries.now) }
        ensures can { OnOk result (IsChange (counts_at self.old install) entries.now) }
        ensures counts { HaveSameCounts self.old self.new }
        ensures waiting { OnOk result (AwaitsAt install entries.now self.old self.new) }
        ensures err { OnErr result ((any : ℕ)
            → waiting_at self.new any ≡ waiting_at self.old any) }
    {
        let (told, pending) = turns_at(&mut self.counts, alloc, self.seed, install, entries)?;
        self.waiting.insert(install, pending)?;
        Ok(told)
    }

    /// Makes the changes that wait. It takes no memory.
    pub fn settle(&mut self)
        ensures counts { (any : ℕ) → counts_at self.new any
            ≡ after (counts_at self.old any) (waiting_at self.old any) }
        ensures settled { IsSettled self.new }
    {
        while let Some((install, pending)) = self.waiting.pop() {
            commit_at(&mut self.counts, install, pending);
        }
    }

    /// Lets the changes go that wait. It takes no memory.
    pub fn forget(&mut self)
        ensures counts { HaveSameCounts self.old self.new }
        ensures settled { IsSettled self.new }
    {
        self.waiting.clear();
    }

    /// The subscription of this install number has no counts any more, and no changes wait for it.
    /// It takes no memory.
    pub fn remove(&mut self, install: u64)
        ensures counts { (any : ℕ) → counts_at self.new any
            ≡ (if any == install then empty else counts_at self.old any) }
        ensures waiting { AwaitsAt install [] self.old self.new }
    {
        let _changes = self.waiting.swap_remove(&install);
        let _counts = self.counts.swap_remove(&install);
    }
}
