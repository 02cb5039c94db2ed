//! Who has which file.
ghost use Rattle.std.specs.Prelude.{◌≡◌, ℕ, ◌&&◌, ◌||◌, [], not, nat_eq, IfOk, OnOk, OnErr};
ghost use Rattle.std.specs.Prelude.{IsTrue};
ghost use Rattle.std.specs.List.{list_any};
ghost use Rattle.std.specs.List.Sorted.{IsStrictlySortedBy};
ghost use Rattle.std.specs.Ordering.{nat_cmp};
ghost use Rattle.ncq_book.specs.Watches.{is_watch, is_watched, Watch as a_watch};

use ncq_event::Installs;
use std::alloc::{AllocError, Global};
use std::collections::BTreeSet;
use std::marker::Model;

/// That a subscription has a file. The derived order is by file, then by install number.
#[derive(Clone, Copy, PartialEq, Eq, PartialOrd, Ord)]
pub(crate) struct Watch {
    /// The number of the file.
    pub file: u64,
    /// The install number of the subscription.
    pub install: u64,
}

/// Watches of subscriptions of one kind, each once, by file and then by install number. Contracts
/// see them as that list.
#[derive(Drop)]
pub(crate) struct Watchers {
    watches: BTreeSet<Watch>,
}

impl Model for Watchers {
    ghost use Rattle.std.specs.Prelude.{List};
    ghost use Rattle.std.specs.Coded.{coded_list};
    ghost use Rattle.ncq_book.specs.declared.watchers.Watch.{Watch};
    ghost use Rattle.ncq_book.specs.contracts.watchers.Watch.{the_row};
    ghost use Rattle.ncq_book.specs.Watches.{InstallsFit};

    ghost Value = { List Watch };

    ghost coded = { coded_list the_row.coded };

    ghost view = { λ w. w.watches.keys };

    ghost invariant = { λ w. InstallsFit w.watches.keys };
}

impl Watchers {
    /// No watches. It takes no memory.
    pub(crate) fn new(alloc: Global) -> Watchers
        ensures { result ≡ [] }
    {
        Watchers {
            watches: BTreeSet::new(alloc),
        }
    }

    /// The install numbers of those that have one of the files, rising, each once. Others are not
    /// looked at.
    pub(crate) fn of(&self, alloc: Global, files: &[u64]) -> Result<Installs, AllocError>
        ensures watchers { IfOk result (λ installs. (install : ℕ)
            → list_any (nat_eq install) installs ≡ is_watched self.now files.now install) }
        ensures rising { IfOk result (IsStrictlySortedBy nat_cmp) }
    {
        let installs = in_order(alloc, self.listed(alloc, files)?)?;
        Ok(Installs::from_vec(installs))
    }

    /// The install numbers of those that have one of the files, file by file.
    fn listed(&self, alloc: Global, files: &[u64]) -> Result<Vec<u64>, AllocError>
        ensures { IfOk result (λ installs. (install : ℕ)
            → list_any (nat_eq install) installs.items ≡ is_watched self.now files.now install) }
    {
        let mut installs = Vec::new(alloc);
        for file in files {
            let first = Watch {
                file: *file,
                install: 0,
            };
            let last = Watch {
                file: *file,
                install: u64::MAX,
            };
            let watches = self.watches.range(first..=last);
            installs.extend(watches.map(|watch| watch.install))?;
        }
        Ok(installs)
    }

    /// The install number of the last watch up to this file's: of the last of those that have the
    /// file, where anybody has it.
    pub(crate) fn last_to(&self, file: u64) -> Option<u64> {
        let last = Watch {
            file,
            install: u64::MAX,
        };
        let watch = self.watches.range(..=last).next_back()?;
        Some(watch.install)
    }

    /// The subscription has the file from now on. Where memory runs out, all is as before.
    pub(crate) fn add(&mut self, file: u64, install: u64) -> Result<(), AllocError>
        ensures ok { OnOk result ((w : a_watch) → list_any (is_watch w) self.new
            ≡ (list_any (is_watch w) self.old
            || is_watch w (record { file = file; install = install }))) }
        ensures err { OnErr result (self.new ≡ self.old) }
    {
        self.watches.insert(Watch { file, install })?;
        Ok(())
    }

    /// The subscription does not have the file any more. It takes no memory.
    pub(crate) fn remove(&mut self, file: u64, install: u64)
        ensures { (w : a_watch) → list_any (is_watch w) self.new
            ≡ (list_any (is_watch w) self.old
            && not (is_watch w (record { file = file; install = install }))) }
    {
        self.watches.remove(&Watch { file, install });
    }
}

/// The numbers, rising, each once. Those that rise already, as most often, stay as they are.
fn in_order(alloc: Global, numbers: Vec<u64>) -> Result<Vec<u64>, AllocError>
    ensures same { IfOk result (λ ordered. (number : ℕ)
        → list_any (nat_eq number) ordered.items ≡ list_any (nat_eq number) numbers.items) }
    ensures rising { IfOk result (λ ordered. IsStrictlySortedBy nat_cmp ordered.items) }
{
    if are_rising(numbers.as_slice()) {
        return Ok(numbers);
    }
    let set: BTreeSet<u64> = numbers.into_iter().collect(alloc)?;
    set.into_iter().collect(alloc)
}

/// Whether each number is below the next.
fn are_rising(numbers: &[u64]) -> bool
    ensures { IsTrue result → IsStrictlySortedBy nat_cmp numbers.now }
{
    for at in 1..numbers.len() {
        if numbers[at - 1] >= numbers[at] {
            return false;
        }
    }
    true
}
