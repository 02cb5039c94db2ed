//! The rows that a new interval brings to its group.
ghost use Rattle.std.specs.Prelude.{◌≡◌, ◌++◌, ◌+◌, ◌<◌, ◌≤◌, [], ◌∷◌, List, length, filter, map};
ghost use Rattle.std.specs.Prelude.{IfOk, OnOk};
ghost use Rattle.std.specs.List.{All};
ghost use Rattle.std.specs.Map.{keys_of};
ghost use Rattle.ncq_row.specs.Embeddings.{Row as a_row};
ghost use Rattle.ncq_midfile.specs.Content.{IsContent, IsSoundAt};
ghost use Rattle.ncq_midfile.specs.Made.{gained_at};
ghost use Rattle.ncq_midfile.specs.Shown.{shown, rows_below};
ghost use Rattle.ncq_midfile.specs.Views.{is_missing, is_unheld};

use ncq_base::{Interval, Steps};
use ncq_consttab::RangeTable;
use ncq_midfile::{SignedRow, SignedRows, View};
use ncq_row::Row;
use std::alloc::{AllocError, Global};
use std::sync::ledger::Ledger;

/// The rows that are left of the input at `n` and have a number of the interval in the slot, but of
/// none of the table's, as rows that came in at `n`. Each is one step. Where the input keeps an
/// order by the slot, rows outside the interval are not gone through. The only error is that memory
/// ran out.
pub fn missing_rows<L: Ledger>(
    alloc: Global,
    standing: &RangeTable,
    interval: &Interval,
    slot: usize,
    input: &View<'_>,
    n: u64,
    steps: &mut Steps<L>,
) -> Result<SignedRows, AllocError>
    requires base { (shown input.now).base ≤ n }
    requires sound { IsSoundAt n (shown input.now).rows }
    requires slots { All (λ signed. slot < length signed.row) (rows_below input.now) }
    ensures rows { IfOk result (λ added. (list : List a_row)
        × IsContent n (shown input.now).rows list × (added ≡ map (gained_at n)
        (filter (is_missing slot (keys_of standing.now) interval.now) list))) }
    ensures cost { (list : List a_row) → IsContent n (shown input.now).rows list → steps.new
        ≤ steps.old
        + length (filter (is_missing slot (keys_of standing.now) interval.now) list) }
{
    let places = input.matching_interval(alloc, slot, interval, n)?;
    let mut added = SignedRows::new(alloc);
    for place in places.as_slice() {
        let signed = input.signed(*place);
        add_missing(alloc, standing, slot, &signed.row, n, &mut added, steps)?;
    }
    Ok(added)
}

/// Adds the row as one that came in at `n`, if no interval holds it.
fn add_missing<L: Ledger>(
    alloc: Global,
    standing: &RangeTable,
    slot: usize,
    row: &Row,
    n: u64,
    added: &mut SignedRows,
    steps: &mut Steps<L>,
) -> Result<(), AllocError>
    requires { slot < length row.now }
    ensures rows { OnOk result (added.new ≡ added.old ++ map (gained_at n)
        (filter (is_unheld slot (keys_of standing.now)) (row.now ∷ []))) }
    ensures cost { steps.new ≤ steps.old
        + length (filter (is_unheld slot (keys_of standing.now)) (row.now ∷ [])) }
{
    if standing.holds(row.atom(slot)) {
        return Ok(());
    }
    added.push(SignedRow {
        number: n,
        plus: true,
        row: row.copy(alloc, steps)?,
    })
}
