//! The turn of a file: what it got of a change goes on to the files that read it.
ghost use Rattle.std.specs.Prelude.{◌≡◌, ◌+◌, ◌<◌, ◌≤◌, ◌∷◌, [], ℕ, List, true, false};
ghost use Rattle.std.specs.Prelude.{IfOk, OnOk};
ghost use Rattle.std.specs.List.{AllByRecursion};
ghost use Rattle.ncq_readers.specs.Passed.{held_at, size_of};
ghost use Rattle.ncq_readers.specs.declared.ranges.HeldRows.{HeldRows as held_rows};
ghost use Rattle.ncq_shelf.specs.Contents.{sum_over};
ghost use Rattle.ncq_shelf.specs.Ranges.{AreHeldOf};
ghost use Rattle.ncq_shelf.specs.Readers.{AreBoundBy};
ghost use Rattle.ncq_shelf.specs.Stands.{IsThere};
ghost use Rattle.ncq_feed.specs.Runs.{Run, IsUnderWay, ArePassed, all_due, all_in, is_among};
ghost use Rattle.ncq_feed.specs.Runs.{news_in, AreCounted, own_due, own_in, groups};
ghost use Rattle.ncq_feed.specs.Shares.{AreShared, IsHeldFor, at_slot};
ghost use Rattle.ncq_feed.specs.Turns.{IsPassedDown, IsParcelFor, AreDelivered, AreTold};

use crate::append::append;
use crate::join::feed_join;
use crate::pending::Pending;
use ncq_base::{Sequence, Steps};
use ncq_midfile::SignedRow;
use ncq_readers::HeldRows;
use ncq_shelf::Shelf;
use ncq_split::Parcels;
use std::alloc::{AllocError, Global};
use std::sync::ledger::Ledger;

/// The turn of a pending file, which is no longer pending: a join gets its rows of the change now,
/// and what a file got goes on to the selections over it and the joins that make something of it.
/// The answer is whether the file got rows.
pub(crate) fn take_turn<L: Ledger>(
    alloc: Global,
    shelf: &mut Shelf,
    at: u64,
    now: u64,
    pending: &mut Pending,
    steps: &mut Steps<L>,
) -> Result<bool, AllocError>
    ghost run: { Run }
    requires now { now ≡ run.store.changes }
    requires under { IsUnderWay run shelf.old }
    requires passed { ArePassed run at (at ∷ pending.old) shelf.old }
    requires above { (other : ℕ) → is_among other pending.old ≡ true → at < other }
    ensures under { IsUnderWay run shelf.new }
    ensures passed { OnOk result (ArePassed run (at + 1) pending.new shelf.new) }
    ensures below { OnOk result ((number : ℕ) → number < at → news_in run.store.changes shelf.new
        number ≡ news_in run.store.changes shelf.old number) }
    ensures nothing { IfOk result (λ got. got ≡ false
        → news_in run.store.changes shelf.new at ≡ []) }
    ensures cost { steps.new + all_in run shelf.old ≤ steps.old + all_due run }
    ensures spent { OnOk result
        (steps.new + all_in run shelf.old ≤ steps.old + all_in run shelf.new) }
    ensures shared { (held : ℕ → ℕ → ℕ) → AreCounted run held
        → steps.new + own_in run shelf.old ≤ steps.old + (own_due run + groups run held at) }
    ensures split { OnOk result ((held : ℕ → ℕ → ℕ) → AreCounted run held
        → steps.new + own_in run shelf.old
        ≤ steps.old + (own_in run shelf.new + groups run held at)) }
{
    feed_join(alloc, shelf, at, now, steps)?;
    if !got_rows(shelf, at, now) {
        return Ok(false);
    }
    if !shelf.is_read(at) {
        return Ok(true);
    }
    pass_down(alloc, shelf, at, now, pending, steps)?;
    tell_joins(alloc, shelf, at, now, pending)?;
    Ok(true)
}

/// Whether the file has rows of the change. It takes no memory.
fn got_rows(shelf: &Shelf, at: u64, now: u64) -> bool
    ghost run: { Run }
    requires now { now ≡ run.store.changes }
    requires under { IsUnderWay run shelf.now }
    requires there { IsThere run.files at }
    ensures { result ≡ false → news_in run.store.changes shelf.now at ≡ [] }
{
    shelf.content(at).last() > now
}

/// Gives each selection over the file those of its rows of the change that it takes. Those that got
/// any are pending. It takes at most one step for each parcel, and one for each row of a slot that
/// selections by intervals of the slot hold.
fn pass_down<L: Ledger>(
    alloc: Global,
    shelf: &mut Shelf,
    at: u64,
    now: u64,
    pending: &mut Pending,
    steps: &mut Steps<L>,
) -> Result<(), AllocError>
    ghost run: { Run }
    requires now { now ≡ run.store.changes }
    requires under { IsUnderWay run shelf.old }
    requires there { IsThere run.files at }
    ensures under { IsUnderWay run shelf.new }
    ensures down { OnOk result (IsPassedDown run at pending.old pending.new
        shelf.old shelf.new) }
    ensures cost { (bound : ℕ → ℕ)
        → AreBoundBy run.files at (news_in run.store.changes shelf.old at) bound
        → (held : List held_rows)
        × AreHeldOf run.files at (news_in run.store.changes shelf.old at) held
        × (steps.new ≤ steps.old + (sum_over run.files bound + size_of held)) }
{
    let held = shelf.held(alloc, at, now + 1, steps)?;
    let parcels = shelf.parcels(alloc, at, now + 1, steps)?;
    deliver(shelf, parcels, pending)?;
    deliver_held(alloc, shelf, at, held, pending)?;
    Ok(())
}

/// Gives each parcel's row to its file, which is pending then.
fn deliver(shelf: &mut Shelf, parcels: Parcels, pending: &mut Pending) -> Result<(), AllocError>
    ghost run: { Run }
    requires under { IsUnderWay run shelf.old }
    requires fits { AllByRecursion (IsParcelFor run) parcels }
    ensures under { IsUnderWay run shelf.new }
    ensures delivered { OnOk result (AreDelivered run parcels pending.old pending.new
        shelf.old shelf.new) }
{
    for parcel in parcels.into_vec() {
        append(shelf, parcel.file.0, parcel.row)?;
        pending.note(parcel.file.0)?;
    }
    Ok(())
}

/// Gives the held rows of each slot to the selections by intervals of it that take them. Those that
/// got any are pending.
fn deliver_held(
    alloc: Global,
    shelf: &mut Shelf,
    at: u64,
    held: Sequence<HeldRows>,
    pending: &mut Pending,
) -> Result<(), AllocError>
    ghost run: { Run }
    requires under { IsUnderWay run shelf.old }
    requires there { IsThere run.files at }
    requires fits { AllByRecursion (λ h. AllByRecursion (IsHeldFor run at h.slot) h.rows) held }
    ensures under { IsUnderWay run shelf.new }
    ensures shared { OnOk result (AreShared run at (λ slot. held_at slot held)
        pending.old pending.new shelf.old shelf.new) }
{
    for group in held.into_vec() {
        share_rows(alloc, shelf, at, group, pending)?;
    }
    Ok(())
}

/// Gives the rows to the selections by intervals of the slot that take them. Those that got any are
/// pending.
fn share_rows(
    alloc: Global,
    shelf: &mut Shelf,
    at: u64,
    group: HeldRows,
    pending: &mut Pending,
) -> Result<(), AllocError>
    ghost run: { Run }
    requires under { IsUnderWay run shelf.old }
    requires there { IsThere run.files at }
    requires fits { AllByRecursion (IsHeldFor run at group.slot) group.rows }
    ensures under { IsUnderWay run shelf.new }
    ensures shared { OnOk result (AreShared run at (at_slot group.slot group.rows)
        pending.old pending.new shelf.old shelf.new) }
{
    let slot = group.slot;
    for row in group.rows.into_vec() {
        share_row(alloc, shelf, at, slot, row, pending)?;
    }
    Ok(())
}

/// Gives one row to the selections by intervals of the slot that take it, which are pending then.
fn share_row(
    alloc: Global,
    shelf: &mut Shelf,
    at: u64,
    slot: usize,
    row: SignedRow,
    pending: &mut Pending,
) -> Result<(), AllocError>
    ghost run: { Run }
    requires under { IsUnderWay run shelf.old }
    requires there { IsThere run.files at }
    requires fits { IsHeldFor run at slot row }
    ensures under { IsUnderWay run shelf.new }
    ensures shared { OnOk result (AreShared run at (at_slot slot (row ∷ []))
        pending.old pending.new shelf.old shelf.new) }
{
    let takers = shelf.append_held(alloc, at, slot, row)?;
    pending.note_files(takers)?;
    Ok(())
}

/// Makes each join over the file pending that makes something of its rows of the change.
fn tell_joins(
    alloc: Global,
    shelf: &Shelf,
    at: u64,
    now: u64,
    pending: &mut Pending,
) -> Result<(), AllocError>
    ghost run: { Run }
    requires now { now ≡ run.store.changes }
    requires under { IsUnderWay run shelf.now }
    requires there { IsThere run.files at }
    ensures { OnOk result (AreTold run at shelf.now pending.old pending.new) }
{
    let joins = shelf.joins_met(alloc, at, now)?;
    pending.note_all(joins.as_slice())?;
    Ok(())
}
