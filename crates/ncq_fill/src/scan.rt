//! The rows of a scan, made from the elements.
ghost use Rattle.std.specs.Prelude.{◌≡◌, ◌++◌, ◌+◌, ◌≤◌, length, map, true, IfOk, OnOk};
ghost use Rattle.ncq_base.specs.Counts.{SameCounts};
ghost use Rattle.ncq_row.specs.Formed.{shape_is_formed};
ghost use Rattle.ncq_plan.specs.Exprs.{scan_rows};
ghost use Rattle.ncq_source.specs.Stores.{ShowsEach};
ghost use Rattle.ncq_source.specs.StoreStates.{At, IsDeclared};
ghost use Rattle.ncq_change.specs.Stores.{world_in};

use ncq_base::{Bytes, Steps};
use ncq_row::{Rows, Shape, match_written};
use ncq_source::{SourceId, Store};
use std::alloc::{AllocError, Global};
use std::sync::ledger::Ledger;

/// The rows of the shape in each element of the source.
pub(crate) fn scan<L: Ledger>(
    alloc: Global,
    source: &Bytes,
    shape: &Shape,
    store: &Store,
    steps: &mut Steps<L>,
) -> Result<Rows, AllocError>
    requires { shape_is_formed shape.now ≡ true }
    ensures counts { IfOk result (λ rows.
        SameCounts rows (scan_rows shape.now (world_in store.now source.now))) }
    ensures cost { steps.new ≤ steps.old
        + length (scan_rows shape.now (world_in store.now source.now)) }
{
    let mut rows = Rows::new(alloc);
    let Some(id) = store.find(source.as_slice()) else {
        return Ok(rows);
    };
    append_shown(alloc, shape, store, id, &mut rows, steps)?;
    Ok(rows)
}

/// Appends the rows of the shape in each element of the source at this place.
fn append_shown<L: Ledger>(
    alloc: Global,
    shape: &Shape,
    store: &Store,
    id: SourceId,
    rows: &mut Rows,
    steps: &mut Steps<L>,
) -> Result<(), AllocError>
    requires declared { IsDeclared store.now id }
    requires formed { shape_is_formed shape.now ≡ true }
    ensures rows { OnOk result (At store.now id (λ source.
        rows.new ≡ rows.old ++ scan_rows shape.now (map (λ entry. entry.1) source.shown))) }
    ensures shown { At store.now id ShowsEach }
    ensures cost { At store.now id (λ source. steps.new
        ≤ steps.old + length (scan_rows shape.now (map (λ entry. entry.1) source.shown))) }
{
    for at in 0..store.size(id) {
        match_written(alloc, shape, store.written(id, at), rows, steps)?;
    }
    Ok(())
}
