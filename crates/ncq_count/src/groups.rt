//! How many files each group has.
ghost use Rattle.std.specs.Prelude.{◌≡◌, ◌<◌, IfOk, OnOk, OnErr};
ghost use Rattle.std.specs.FinMap.{empty, remove};
ghost use Rattle.ncq_signature.specs.Groups.{AreGroupLines};
ghost use Rattle.ncq_shelf.specs.Stands.{IsGrounded, IsIdle};
ghost use Rattle.ncq_count.specs.Counted.{AreCounted, GainsFile, LosesFile, count_at};
ghost use Rattle.ncq_count.specs.FileExprs.{exprs_of};

use crate::key::{GroupKey, key_at};
use crate::lines::lines_of;
use indexmap::IndexMap;
use ncq_shelf::Shelf;
use ncq_signature::GroupLines;
use std::alloc::{AllocError, Global};
use std::marker::Model;

/// How many files of a shelf each group has. A group without files has no entry.
pub struct Groups {
    counts: IndexMap<GroupKey, u64>,
}

impl Drop for Groups {
    fn drop(self) {
        let Groups { counts } = self;
        drop(counts);
    }
}

impl Model for Groups {
    ghost use Rattle.std.specs.Prelude.{ℕ, List};
    ghost use Rattle.ncq_count.specs.declared.key.GroupKey.{GroupKey};

    ghost Value = { List (GroupKey × ℕ) };

    ghost view = { λ g. g.counts.entries };
}

impl Groups {
    /// No files.
    pub fn new(alloc: Global) -> Groups
        ensures { AreCounted empty result }
    {
        Groups {
            counts: IndexMap::new(alloc),
        }
    }

    /// Counts a file in that has come to the shelf. After an error all is as before.
    pub fn count_in(&mut self, shelf: &Shelf, number: u64) -> Result<(), AllocError>
        requires grounded { IsGrounded shelf.now }
        requires idle { IsIdle shelf.now number }
        requires counted { AreCounted (remove shelf.now number) self.old }
        ensures ok { OnOk result (AreCounted shelf.now self.new) }
        ensures err { OnErr result (self.new ≡ self.old) }
    {
        let key = key_at(shelf, number);
        gain(&mut self.counts, key)?;
        Ok(())
    }

    /// Counts a file out that is to go from the shelf. It takes no memory.
    pub fn count_out(&mut self, shelf: &Shelf, number: u64)
        requires grounded { IsGrounded shelf.now }
        requires idle { IsIdle shelf.now number }
        requires counted { AreCounted shelf.now self.old }
        ensures { AreCounted (remove shelf.now number) self.new }
    {
        let key = key_at(shelf, number);
        lose(&mut self.counts, key);
    }

    /// A line for each group of the files' expressions, in the order of a report. No file of a
    /// group is looked at. The only error is that memory ran out.
    pub fn lines(&self, alloc: Global, shelf: &Shelf) -> Result<GroupLines, AllocError>
        requires grounded { IsGrounded shelf.now }
        requires counted { AreCounted shelf.now self.now }
        ensures { IfOk result (AreGroupLines (exprs_of shelf.now)) }
    {
        let mut lines = lines_of(alloc, shelf, &self.counts)?;
        lines.sort_unstable();
        Ok(GroupLines::from_vec(lines))
    }
}

/// How many files the group has.
fn count_of(counts: &IndexMap<GroupKey, u64>, key: GroupKey) -> u64
    ensures { result ≡ count_at counts.now.entries key }
{
    counts.get(&key).copied().unwrap_or(0)
}

/// The group has one file more. After an error all is as before.
fn gain(counts: &mut IndexMap<GroupKey, u64>, key: GroupKey) -> Result<(), AllocError>
    ensures ok { OnOk result (GainsFile counts.old.entries key counts.new.entries) }
    ensures err { OnErr result (counts.new.entries ≡ counts.old.entries) }
{
    // More files than a count can tell do not fit in memory.
    let more = count_of(counts, key).checked_add(1).ok_or(AllocError)?;
    counts.insert(key, more)?;
    Ok(())
}

/// The group has one file less. It takes no memory.
fn lose(counts: &mut IndexMap<GroupKey, u64>, key: GroupKey)
    requires { 0 < count_at counts.old.entries key }
    ensures { LosesFile counts.old.entries key counts.new.entries }
{
    let Some(count) = counts.get_mut(&key) else {
        unreachable!()
    };
    *count -= 1;
    if *count != 0 {
        return;
    }
    counts.swap_remove(&key);
}
