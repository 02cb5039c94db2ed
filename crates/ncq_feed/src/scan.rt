//! What a change makes of the files of scans.
ghost use Rattle.std.specs.Prelude.{◌≡◌, ◌+◌, ◌<◌, ◌≤◌, ◌++◌, [], ℕ, List, true, false, length};
ghost use Rattle.std.specs.Prelude.{IfOk, OnOk, take};
ghost use Rattle.ncq_plan.specs.Deltas.{signed};
ghost use Rattle.ncq_change.specs.Entries.{element_rows, entry_delta, scan_delta};
ghost use Rattle.ncq_row.specs.declared.shape.Shape.{Shape as a_shape};
ghost use Rattle.ncq_row.specs.Formed.{shape_is_formed};
ghost use Rattle.ncq_shelf.specs.Contents.{AreFormed};
ghost use Rattle.ncq_shelf.specs.Stands.{Stands};
ghost use Rattle.ncq_feed.specs.Runs.{Run, IsUnderWay, ArePassed, news_in, IsScanFile, own_due};
ghost use Rattle.ncq_feed.specs.Runs.{own_in, due};
ghost use Rattle.ncq_feed.specs.ScanFeeds.{AreScansFed, IsScanFed, IsScanWith, numbered};

use crate::append::append_all;
use crate::pending::Pending;
use ncq_base::{Shared, Steps};
use ncq_flat::Written;
use ncq_midfile::{SignedRow, SignedRows};
use ncq_plan::Expr;
use ncq_row::{Rows, Shape, match_written};
use ncq_shelf::Shelf;
use ncq_source::{Change, Entry, Portion, Store};
use std::alloc::{AllocError, Global};
use std::sync::ledger::Ledger;

/// Gives the scans of the changed sources their rows of the change, portion by portion. Those that
/// got any are pending.
pub(crate) fn feed_scans<L: Ledger>(
    alloc: Global,
    shelf: &mut Shelf,
    change: &Change,
    store: &Store,
    pending: &mut Pending,
    steps: &mut Steps<L>,
) -> Result<(), AllocError>
    ghost run: { Run }
    requires store { store.now ≡ run.store }
    requires change { change.now ≡ run.change }
    requires under { IsUnderWay run shelf.old }
    requires still { (number : ℕ) → news_in run.store.changes shelf.old number ≡ [] }
    requires none { pending.old ≡ [] }
    ensures under { IsUnderWay run shelf.new }
    ensures passed { OnOk result (ArePassed run 0 pending.new shelf.new) }
    ensures cost { steps.new ≤ steps.old + own_due run }
    ensures spent { OnOk result (steps.new ≤ steps.old + own_in run shelf.new) }
{
    let portions = change.portions();
    for at in 0..portions.len() {
        feed_portion(alloc, shelf, portions, at, store, pending, steps)?;
    }
    Ok(())
}

/// Gives the scans of the source of the portion at this place their rows of the change.
fn feed_portion<L: Ledger>(
    alloc: Global,
    shelf: &mut Shelf,
    portions: &[Portion],
    at: usize,
    store: &Store,
    pending: &mut Pending,
    steps: &mut Steps<L>,
) -> Result<(), AllocError>
    ghost run: { Run }
    requires store { store.now ≡ run.store }
    requires portions { portions.now ≡ run.change }
    requires at { at < length run.change }
    requires under { IsUnderWay run shelf.old }
    requires fed { AreScansFed run (take at run.change) [] pending.old shelf.old }
    ensures under { IsUnderWay run shelf.new }
    ensures fed { OnOk result
        (AreScansFed run (take (at + 1) run.change) [] pending.new shelf.new) }
    ensures cost { steps.new + own_in run shelf.old ≤ steps.old + own_due run }
    ensures spent { OnOk result
        (steps.new + own_in run shelf.old ≤ steps.old + own_in run shelf.new) }
{
    let portion = &portions[at];
    let entries = portion.entries.as_slice();
    let now = store.changes();
    let scans = shelf.scans_of(alloc, store.name_of(portion.source))?;
    for scan in scans.into_vec() {
        feed_scan(alloc, shelf, scan, entries, now, pending, steps)?;
    }
    Ok(())
}

/// Gives one scan its rows of the change. It is pending if it got any.
fn feed_scan<L: Ledger>(
    alloc: Global,
    shelf: &mut Shelf,
    at: u64,
    entries: &[Entry],
    now: u64,
    pending: &mut Pending,
    steps: &mut Steps<L>,
) -> Result<(), AllocError>
    ghost run: { Run }
    requires now { now ≡ run.store.changes }
    requires under { IsUnderWay run shelf.old }
    requires scan { IsScanWith run entries.now at }
    requires still { news_in run.store.changes shelf.old at ≡ [] }
    ensures under { IsUnderWay run shelf.new }
    ensures fed { OnOk result (IsScanFed run at pending.old pending.new
        shelf.old shelf.new) }
    ensures cost { steps.new ≤ steps.old + due run at }
{
    let rows = changes_of(alloc, shape_of(shelf, at), entries, now + 1, steps)?;
    if rows.len() == 0 {
        return Ok(());
    }
    append_all(shelf, at, rows)?;
    pending.note(at)?;
    Ok(())
}

/// The shape of a scan.
fn shape_of(shelf: &Shelf, at: u64) -> &Shape
    requires formed { AreFormed shelf.now }
    requires scan { IsScanFile shelf.now at }
    ensures shape { (source : List ℕ) (shape : a_shape)
        → Stands shelf.now (Expr.Scan source shape) at → result.now ≡ shape }
    ensures formed { shape_is_formed result.now ≡ true }
{
    match shelf.expr(at) {
        Expr::Scan { shape, .. } => shape.get(),
        _ => unreachable!(),
    }
}

/// The signed rows of a scan that entries make, each with the number.
fn changes_of<L: Ledger>(
    alloc: Global,
    shape: &Shape,
    entries: &[Entry],
    number: u64,
    steps: &mut Steps<L>,
) -> Result<SignedRows, AllocError>
    requires { shape_is_formed shape.now ≡ true }
    ensures rows { IfOk result (λ rows. rows ≡ numbered number (scan_delta shape.now entries.now)) }
    ensures cost { steps.new ≤ steps.old + length (scan_delta shape.now entries.now) }
{
    let mut out = SignedRows::new(alloc);
    for entry in entries {
        add_entry(alloc, shape, entry, number, &mut out, steps)?;
    }
    Ok(out)
}

/// Adds the rows of the element before, which go, and those of the element after, which come.
fn add_entry<L: Ledger>(
    alloc: Global,
    shape: &Shape,
    entry: &Entry,
    number: u64,
    out: &mut SignedRows,
    steps: &mut Steps<L>,
) -> Result<(), AllocError>
    requires { shape_is_formed shape.now ≡ true }
    ensures rows { OnOk result
        (out.new ≡ out.old ++ numbered number (entry_delta shape.now entry.now)) }
    ensures cost { steps.new ≤ steps.old + length (entry_delta shape.now entry.now) }
{
    let gone = rows_in(alloc, shape, &entry.before, steps)?;
    let come = rows_in(alloc, shape, &entry.after, steps)?;
    add_signed(gone, false, number, out)?;
    add_signed(come, true, number, out)?;
    Ok(())
}

/// The rows of an element, where there is one.
fn rows_in<L: Ledger>(
    alloc: Global,
    shape: &Shape,
    element: &Option<Shared<Written>>,
    steps: &mut Steps<L>,
) -> Result<Rows, AllocError>
    requires { shape_is_formed shape.now ≡ true }
    ensures rows { IfOk result (λ rows. rows ≡ element_rows shape.now element.now) }
    ensures cost { steps.new ≤ steps.old + length (element_rows shape.now element.now) }
{
    let mut rows = Rows::new(alloc);
    let Some(element) = element else {
        return Ok(rows);
    };
    match_written(alloc, shape, element, &mut rows, steps)?;
    Ok(rows)
}

/// Adds the rows with the sign and the number.
fn add_signed(rows: Rows, plus: bool, number: u64, out: &mut SignedRows) -> Result<(), AllocError>
    ensures { OnOk result (out.new ≡ out.old ++ numbered number (signed plus rows)) }
{
    for row in rows.into_vec() {
        out.push(SignedRow { number, plus, row })?;
    }
    Ok(())
}
