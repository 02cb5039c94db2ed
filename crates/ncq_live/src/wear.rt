//! How many rows files may have lost above their bases.
ghost use Rattle.std.specs.Prelude.{◌≡◌, ◌+◌, ◌<◌, ◌≤◌, ◌≢◌, ◌⊎◌, ℕ, [], true, false, min, is_some};
ghost use Rattle.std.specs.Prelude.{OnOk};
ghost use Rattle.std.specs.FinMap.{get};
ghost use Rattle.ncq_shelf.specs.KeptFiles.{EachFile};
ghost use Rattle.ncq_live.specs.Wears.{bound_of, is_among, KnowsTheWorn, PinsNoMore};

use crate::waiting::Waiting;
use indexmap::IndexMap;
use ncq_base::FileId;
use ncq_group::GroupTable;
use std::alloc::{AllocError, Global};
use std::collections::BTreeSet;
use std::marker::Model;

/// So many rows that went out above its base make a file worn.
pub const LOSSES: u64 = 64;

/// Where one in so many of its rows went out above its base, a file waits to be listed before it is
/// worn.
const SHARE: u64 = 3;

/// For each file a number, and the files whose numbers are those of worn ones: each is listed among
/// the worn, or is pinned, so that it is not told of; others may be listed too, such as have
/// waited. Where the pinned are loose they do not count as pinned any more, but still stand apart.
/// Contracts see the numbers by file, where one that is not there has 0, the worn, and the files
/// that count as pinned.
pub(crate) struct Wear {
    bounds: IndexMap<u64, u64>,
    worn: BTreeSet<u64>,
    pinned: BTreeSet<u64>,
    is_loose: bool,
    waiting: Waiting,
}

impl Drop for Wear {
    fn drop(self) {
        let Wear {
            bounds,
            worn,
            pinned,
            is_loose: _,
            waiting,
        } = self;
        drop(bounds);
        drop(worn);
        drop(pinned);
        drop(waiting);
    }
}

impl Model for Wear {
    ghost use Rattle.std.specs.Prelude.{cond, []};
    ghost use Rattle.ncq_live.specs.Wears.{WearState, wear_code, KnowsTheWorn};

    ghost Value = { WearState };

    ghost coded = { wear_code };

    ghost view = { λ w. record {
      bounds = w.bounds.entries;
      worn = w.worn.keys;
      pinned = cond w.is_loose [] w.pinned.keys;
    } };

    ghost invariant = { λ w. KnowsTheWorn w.bounds.entries w.worn.keys w.pinned.keys };
}

impl Wear {
    /// No file has lost a row, and none is pinned. It takes no memory.
    pub(crate) fn new(alloc: Global) -> Wear
        ensures bounds { (file : ℕ) → bound_of file result.bounds ≡ 0 }
        ensures pinned { result.pinned ≡ [] }
    {
        Wear {
            bounds: IndexMap::new(alloc),
            worn: BTreeSet::new(alloc),
            pinned: BTreeSet::new(alloc),
            is_loose: false,
            waiting: Waiting::new(alloc),
        }
    }

    /// So many more rows of the file went out. Where it has signed rows of its own, here with their
    /// count, and lost no small part of them, it waits. After an error no number is lower than it
    /// was.
    pub(crate) fn raise(
        &mut self,
        file: u64,
        losses: u64,
        size: Option<u64>,
    ) -> Result<(), AllocError>
        ensures more { (other : ℕ)
            → bound_of other self.old.bounds ≤ bound_of other self.new.bounds }
        ensures here { OnOk result
            ((bound_of file self.old.bounds + losses ≤ bound_of file self.new.bounds)
            ⊎ (64 ≤ bound_of file self.new.bounds)) }
        ensures pinned { self.new.pinned ≡ self.old.pinned }
    {
        if losses == 0 {
            return Ok(());
        }
        let bound = self.bounds.get(&file).copied().unwrap_or(0);
        let more = bound.saturating_add(losses);
        if more >= LOSSES {
            if !self.pinned.contains(&file) {
                self.worn.insert(file)?;
            }
        } else if is_large(more, size) {
            self.waiting.put(file, more)?;
        }
        self.bounds.insert(file, more)?;
        Ok(())
    }

    /// Lists files that have waited, as long as more rows went out of such files than are let
    /// stand, but for those that are gone.
    pub(crate) fn list_waiting(&mut self, groups: &GroupTable) -> Result<(), AllocError>
        ensures bounds { self.new.bounds ≡ self.old.bounds }
        ensures pinned { self.new.pinned ≡ self.old.pinned }
    {
        for _ in 0..self.waiting.len() {
            let Some(file) = self.waiting.next() else {
                return Ok(());
            };
            if is_there(groups, file) {
                self.worn.insert(file)?;
            }
        }
        Ok(())
    }

    /// The file is among the worn until it is looked at, however few of its rows went out.
    pub(crate) fn list(&mut self, file: u64) -> Result<(), AllocError>
        ensures bounds { self.new.bounds ≡ self.old.bounds }
        ensures pinned { self.new.pinned ≡ self.old.pinned }
    {
        self.worn.insert(file)?;
        Ok(())
    }

    /// No more rows of the file than these have gone out. It takes no memory.
    pub(crate) fn lower(&mut self, file: u64, losses: u64)
        ensures here { bound_of file self.new.bounds
            ≡ min losses (bound_of file self.old.bounds) }
        ensures others { (other : ℕ) → other ≢ file
            → bound_of other self.new.bounds ≡ bound_of other self.old.bounds }
        ensures pinned { PinsNoMore self.old self.new }
        ensures free { losses < 64 → is_among file self.new.pinned ≡ false }
    {
        cap(&mut self.bounds, file, losses);
        self.waiting.take(file);
        if losses < LOSSES {
            self.worn.remove(&file);
            self.pinned.remove(&file);
        }
    }

    /// Forgets files that are gone, where most of those that are known may be: what is known stays
    /// in proportion to the files. It takes no memory.
    pub(crate) fn forget(&mut self, groups: &GroupTable)
        ensures bounds { EachFile groups.now.files (λ number file.
            bound_of number self.new.bounds ≡ bound_of number self.old.bounds) }
        ensures pinned { PinsNoMore self.old self.new }
    {
        if self.bounds.len().saturating_sub(64) / 2 <= groups.files() {
            return;
        }
        self.worn.retain(|number| is_there(groups, *number));
        self.pinned.retain(|number| is_there(groups, *number));
        self.bounds.retain(|number, _| is_there(groups, *number));
    }

    /// The file counts as pinned, unless the pinned are loose: it is not among the worn any more.
    pub(crate) fn pin(&mut self, file: u64) -> Result<(), AllocError>
        ensures bounds { self.new.bounds ≡ self.old.bounds }
        ensures pinned { (other : ℕ) → is_among other self.new.pinned ≡ true
            → (other ≡ file) ⊎ (is_among other self.old.pinned ≡ true) }
    {
        // It comes in before it goes out, so that an error loses nothing.
        self.pinned.insert(file)?;
        self.worn.remove(&file);
        Ok(())
    }

    /// No file counts as pinned any more. It takes no memory.
    pub(crate) fn loosen(&mut self)
        ensures bounds { self.new.bounds ≡ self.old.bounds }
        ensures pinned { self.new.pinned ≡ [] }
    {
        self.is_loose = !self.pinned.is_empty();
    }

    /// Where the pinned are loose, they go back among the worn: then each file that is worn is told
    /// of, but for those that count as pinned.
    pub(crate) fn gather(&mut self) -> Result<(), AllocError>
        ensures ok { OnOk result
            (KnowsTheWorn self.new.bounds self.new.worn self.new.pinned) }
        ensures bounds { self.new.bounds ≡ self.old.bounds }
        ensures pinned { self.new.pinned ≡ self.old.pinned }
    {
        if self.is_loose {
            self.worn.append(&mut self.pinned)?;
            self.is_loose = false;
        }
        Ok(())
    }

    /// The files that are worn, and perhaps others.
    pub(crate) fn worn(&self) -> &BTreeSet<u64>
        ensures { result.now.keys ≡ self.now.worn }
    {
        &self.worn
    }
}

/// Whether so many rows that went out are no small part of so many signed rows.
fn is_large(losses: u64, size: Option<u64>) -> bool {
    match size {
        Some(size) => losses.saturating_mul(SHARE) >= size,
        None => false,
    }
}

/// The number of the file is this one at most. It takes no memory.
fn cap(bounds: &mut IndexMap<u64, u64>, file: u64, most: u64)
    ensures here { bound_of file bounds.new.entries ≡ min most (bound_of file bounds.old.entries) }
    ensures others { (other : ℕ) → other ≢ file
        → bound_of other bounds.new.entries ≡ bound_of other bounds.old.entries }
{
    if most == 0 {
        bounds.swap_remove(&file);
        return;
    }
    if let Some(bound) = bounds.get_mut(&file) {
        *bound = most.min(*bound);
    }
}

/// Whether there is a file of this number.
fn is_there(groups: &GroupTable, number: u64) -> bool
    ensures { result ≡ is_some (get groups.now.files number) }
{
    groups.has(FileId(number))
}
