//! The call that feeds a change.
ghost use Rattle.std.specs.Prelude.{◌≡◌, ◌+◌, ◌-◌, ◌<◌, ◌≤◌, ◌^◌, ℕ, IfOk, OnOk, OnErr};
ghost use Rattle.ncq_change.specs.Stores.{world_in};
ghost use Rattle.ncq_feed.specs.Feeds.{IsPreparedFrom, AreReady, AreFed, world_after, feed_work};
ghost use Rattle.ncq_feed.specs.Feeds.{NamesTheFed, CountsHeld, plain_work, held_work};
ghost use Rattle.ncq_feed.specs.Runs.{Run, IsStarted, IsUnderWay, AreRight, all_due, news_in};
ghost use Rattle.ncq_feed.specs.Runs.{AreCounted, own_due, groups};
ghost use Rattle.ncq_shelf.specs.Contents.{sum_over};

use crate::pending::Pending;
use crate::scan::feed_scans;
use crate::turn::take_turn;
use ncq_base::{Sequence, Steps};
use ncq_shelf::Shelf;
use ncq_source::{Change, Store};
use std::alloc::{AllocError, Global};
use std::sync::ledger::Ledger;

/// Gives each file the signed rows that the change makes of its expression, under the number of the
/// change. The answer names each file that got rows. After an error the files are as before. It
/// takes at most one step for each signed row, whatever it answers; and selections by intervals of
/// one slot of one file take together at most one step for each row that some of them takes. The
/// only error is that memory ran out.
pub fn feed<L: Ledger>(
    alloc: Global,
    shelf: &mut Shelf,
    change: &Change,
    store: &Store,
    steps: &mut Steps<L>,
) -> Result<Sequence<u64>, AllocError>
    requires change { IsPreparedFrom store.now change.now }
    requires more { store.now.changes < 2 ^ 64 - 1 }
    requires ready { AreReady store.now.changes (world_in store.now) shelf.old }
    ensures fed { OnOk result (AreFed store.now change.now shelf.old shelf.new) }
    ensures ready { OnOk result (AreReady (store.now.changes + 1)
        (world_after store.now change.now) shelf.new) }
    ensures named { IfOk result (NamesTheFed store.now.changes shelf.new) }
    ensures err { OnErr result (shelf.new ≡ shelf.old) }
    ensures cost { steps.new ≤ steps.old + feed_work store.now change.now shelf.old }
    ensures shared { (held : ℕ → ℕ → ℕ) → CountsHeld store.now change.now shelf.old held
        → steps.new ≤ steps.old
        + (plain_work store.now change.now shelf.old + held_work shelf.old held) }
{
    match pass_on(alloc, shelf, change, store, steps) {
        Ok(numbers) => Ok(numbers),
        Err(refused) => {
            shelf.roll_back(store.changes());
            Err(refused)
        }
    }
}

/// Passes the change on from file to file, by rising number. The answer names each file that got
/// rows. After an error some files have signed rows of the change.
fn pass_on<L: Ledger>(
    alloc: Global,
    shelf: &mut Shelf,
    change: &Change,
    store: &Store,
    steps: &mut Steps<L>,
) -> Result<Sequence<u64>, AllocError>
    ghost run: { Run }
    requires store { store.now ≡ run.store }
    requires change { change.now ≡ run.change }
    requires files { shelf.old ≡ run.files }
    requires start { IsStarted run }
    ensures under { IsUnderWay run shelf.new }
    ensures right { OnOk result ((number : ℕ)
        → AreRight run number (news_in run.store.changes shelf.new number)) }
    ensures named { IfOk result (NamesTheFed run.store.changes shelf.new) }
    ensures cost { steps.new ≤ steps.old + all_due run }
    ensures shared { (held : ℕ → ℕ → ℕ) → AreCounted run held
        → steps.new ≤ steps.old + (own_due run + sum_over run.files (groups run held)) }
{
    let mut numbers = Sequence::new(alloc);
    let mut pending = Pending::new(alloc);
    feed_scans(alloc, shelf, change, store, &mut pending, steps)?;
    while let Some(at) = pending.take_first() {
        let got = take_turn(alloc, shelf, at, store.changes(), &mut pending, steps)?;
        if !got {
            continue;
        }
        numbers.push(at)?;
    }
    Ok(numbers)
}
