//! What a change makes of a join.
ghost use Rattle.std.specs.Prelude.{◌≡◌, ◌++◌, ◌+◌, ◌-◌, ◌<◌, ◌≤◌, List, length, map, IfOk, OnOk};
ghost use Rattle.std.specs.List.{flat_map, All};
ghost use Rattle.ncq_base.specs.Counts.{SameCounts};
ghost use Rattle.ncq_row.specs.Embeddings.{Row as a_row};
ghost use Rattle.ncq_midfile.specs.Content.{since, signed_at, IsContent, IsSoundAt};
ghost use Rattle.ncq_midfile.specs.Shown.{shown, rows_below};
ghost use Rattle.ncq_midfile.specs.Matching.{HaveSlots};
ghost use Rattle.ncq_midfile.specs.declared.signed.SignedRow.{SignedRow as a_signed_row};
ghost use Rattle.ncq_delta.specs.Joins.{with_row, left_slots, right_slots, join_change};
ghost use Rattle.ncq_delta.specs.Probes.{slots_on, changed_on, IsReady};

use crate::probe::{Probe, Side, joined, slots_on};
use ncq_base::Steps;
use ncq_midfile::{SignedRow, SignedRows, View};
use ncq_row::{Pairs, Rows};
use std::alloc::{AllocError, Global};
use std::sync::ledger::Ledger;

/// The signed rows that a change makes of a join: the left's changed rows with the right before,
/// then the left now with the right's changed rows. Where no row of either is above `number`, they
/// lead from the join's content at the change before to that at `number` (law `changes_lead`). A
/// changed row gives its number and its sign to the rows that it is joined to. Both sides may be
/// one file. It takes at most one step for each signed row. The only error is that memory ran out.
pub fn join_delta<L: Ledger>(
    alloc: Global,
    left: &View<'_>,
    right: &View<'_>,
    pairs: &Pairs,
    number: u64,
    steps: &mut Steps<L>,
) -> Result<SignedRows, AllocError>
    requires left_base { (shown left.now).base < number }
    requires right_base { (shown right.now).base < number }
    requires sound_before { IsSoundAt (number - 1) (shown right.now).rows }
    requires sound_now { IsSoundAt number (shown left.now).rows }
    requires lefts { HaveSlots (left_slots pairs.now) (rows_below left.now) }
    requires rights { HaveSlots (right_slots pairs.now) (rows_below right.now) }

    // `before` is any list that is the right's content before the change, `now` any that is the
    // left's at it.
    ensures rows { IfOk result (λ rows. (before now : List a_row)
        → IsContent (number - 1) (shown right.now).rows before
        → IsContent number (shown left.now).rows now
        → SameCounts rows (join_change pairs.now (since (number - 1) (shown left.now).rows)
        before now (since (number - 1) (shown right.now).rows))) }
    ensures cost { (before now : List a_row)
        → IsContent (number - 1) (shown right.now).rows before
        → IsContent number (shown left.now).rows now
        → steps.new ≤ steps.old + length (join_change pairs.now
        (since (number - 1) (shown left.now).rows) before now
        (since (number - 1) (shown right.now).rows)) }
{
    let left_own = slots_on(alloc, Side::Left, pairs)?;
    let right_own = slots_on(alloc, Side::Right, pairs)?;
    let left_changed = left.since(alloc, number - 1)?;
    let right_changed = right.since(alloc, number - 1)?;
    let before = Probe {
        side: Side::Left,
        pairs,
        other: right,
        slots: &right_own,
        number: number - 1,
    };
    let now = Probe {
        side: Side::Right,
        pairs,
        other: left,
        slots: &left_own,
        number,
    };
    let mut out = SignedRows::new(alloc);
    add_changes(
        alloc,
        &before,
        left,
        left_changed.as_slice(),
        &mut out,
        steps,
    )?;
    add_changes(
        alloc,
        &now,
        right,
        right_changed.as_slice(),
        &mut out,
        steps,
    )?;
    Ok(out)
}

/// Adds what the changed rows at these places of one side make of the join.
fn add_changes<L: Ledger>(
    alloc: Global,
    probe: &Probe<'_, '_>,
    own: &View<'_>,
    changed: &[usize],
    out: &mut SignedRows,
    steps: &mut Steps<L>,
) -> Result<(), AllocError>
    requires ready { IsReady probe.now.side probe.now.pairs.now probe.now.slots.now
        probe.now.number probe.now.other.now }
    requires places { All (λ place. place < length (rows_below own.now)) changed.now }
    requires within { HaveSlots (slots_on probe.now.side probe.now.pairs.now)
        (rows_below own.now) }
    ensures rows { OnOk result ((list : List a_row) (front : List a_signed_row)
        → IsContent probe.now.number (shown probe.now.other.now).rows list
        → SameCounts out.old front → SameCounts out.new (front
        ++ flat_map (changed_on probe.now.side probe.now.pairs.now list)
        (signed_at changed.now (rows_below own.now)))) }
    ensures cost { (list : List a_row)
        → IsContent probe.now.number (shown probe.now.other.now).rows list
        → steps.new ≤ steps.old
        + length (flat_map (changed_on probe.now.side probe.now.pairs.now list)
        (signed_at changed.now (rows_below own.now))) }
{
    for place in changed {
        let signed = own.signed(*place);
        let rows = joined(alloc, probe, &signed.row, steps)?;
        add_signed(signed, rows, out)?;
    }
    Ok(())
}

/// Adds the rows with the number and the sign of the changed row.
fn add_signed(signed: &SignedRow, rows: Rows, out: &mut SignedRows) -> Result<(), AllocError>
    ensures { OnOk result (out.new ≡ out.old ++ map (with_row signed.now) rows) }
{
    for row in rows.into_vec() {
        out.push(SignedRow {
            number: signed.number,
            plus: signed.plus,
            row,
        })?;
    }
    Ok(())
}
