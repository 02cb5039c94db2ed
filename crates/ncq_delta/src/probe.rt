//! The rows of one side of a join, each looked up in the other.
ghost use Rattle.std.specs.Prelude.{◌≡◌, ◌+◌, ◌<◌, ◌≤◌, List, length, map, IfOk};
ghost use Rattle.std.specs.List.{All};
ghost use Rattle.ncq_base.specs.Counts.{SameCounts};
ghost use Rattle.ncq_row.specs.Embeddings.{Row as a_row};
ghost use Rattle.ncq_row.specs.Values.{atom_at};
ghost use Rattle.ncq_midfile.specs.Content.{IsContent, rows_at};
ghost use Rattle.ncq_midfile.specs.Shown.{shown, rows_below};
ghost use Rattle.ncq_delta.specs.Probes.{beside, joined_on, slot_on, slots_on, IsReady};

use ncq_base::Steps;
use ncq_midfile::{Places, View};
use ncq_row::{Pair, Pairs, Row, RowKey, Rows};
use std::alloc::{AllocError, Global};
use std::sync::ledger::Ledger;

/// The side of a join that a row is on.
#[derive(Clone, Copy, PartialEq, Eq)]
pub(crate) enum Side {
    Left,
    Right,
}

/// How the rows of one side find those of the other.
#[derive(Drop)]
pub(crate) struct Probe<'a, 'b> {
    /// The side of the rows that are looked up.
    pub(crate) side: Side,
    pub(crate) pairs: &'a Pairs,
    /// The other side, with its slots of the pairs.
    pub(crate) other: &'a View<'b>,
    pub(crate) slots: &'a Places,
    /// The change at which the content of the other side is meant.
    pub(crate) number: u64,
}

/// The slot of the pair on the side.
fn slot_on(side: Side, pair: &Pair) -> usize
    ensures { result ≡ slot_on side pair.now }
{
    match side {
        Side::Left => pair.left,
        Side::Right => pair.right,
    }
}

/// The slots of the pairs on the side.
pub(crate) fn slots_on(alloc: Global, side: Side, pairs: &Pairs) -> Result<Places, AllocError>
    ensures { IfOk result (λ slots. slots ≡ slots_on side pairs.now) }
{
    let mut slots = Places::new(alloc);
    for pair in pairs.as_slice() {
        slots.push(slot_on(side, pair))?;
    }
    Ok(slots)
}

/// The row joined with each row of the other side where the pairs agree.
pub(crate) fn joined<L: Ledger>(
    alloc: Global,
    probe: &Probe<'_, '_>,
    row: &Row,
    steps: &mut Steps<L>,
) -> Result<Rows, AllocError>
    requires ready { IsReady probe.now.side probe.now.pairs.now probe.now.slots.now
        probe.now.number probe.now.other.now }
    requires within { All (λ slot. slot < length row.now)
        (slots_on probe.now.side probe.now.pairs.now) }
    ensures rows { IfOk result (λ rows. (list : List a_row)
        → IsContent probe.now.number (shown probe.now.other.now).rows list
        → SameCounts rows (joined_on probe.now.side probe.now.pairs.now list row.now)) }
    ensures cost { (list : List a_row)
        → IsContent probe.now.number (shown probe.now.other.now).rows list → steps.new
        ≤ steps.old + length (joined_on probe.now.side probe.now.pairs.now list row.now) }
{
    let key = key_on(alloc, probe.side, probe.pairs, row)?;
    let slots = probe.slots.as_slice();
    let places = probe.other.matching(alloc, slots, &key, probe.number)?;
    join_places(
        alloc,
        probe.side,
        row,
        probe.other,
        places.as_slice(),
        steps,
    )
}

/// The atoms of the row at the slots of the pairs.
fn key_on(alloc: Global, side: Side, pairs: &Pairs, row: &Row) -> Result<RowKey, AllocError>
    requires { All (λ slot. slot < length row.now) (slots_on side pairs.now) }
    ensures { IfOk result (λ key. key ≡ map (atom_at row.now) (slots_on side pairs.now)) }
{
    let mut key = RowKey::new(alloc);
    for pair in pairs.as_slice() {
        key.push(row.slot_atom(slot_on(side, pair))?)?;
    }
    Ok(key)
}

/// The row joined with each row at these places of the other side.
fn join_places<L: Ledger>(
    alloc: Global,
    side: Side,
    row: &Row,
    other: &View<'_>,
    places: &[usize],
    steps: &mut Steps<L>,
) -> Result<Rows, AllocError>
    requires { All (λ place. place < length (rows_below other.now)) places.now }
    ensures rows { IfOk result (λ rows.
        rows ≡ map (beside side row.now) (rows_at places.now (rows_below other.now))) }
    ensures cost { steps.new ≤ steps.old + length places.now }
{
    let mut rows = Rows::new(alloc);
    for place in places {
        rows.push(join_beside(alloc, side, row, other.row(*place), steps)?)?;
    }
    Ok(rows)
}

/// The two rows joined, that of the left in front. It is at most one step.
fn join_beside<L: Ledger>(
    alloc: Global,
    side: Side,
    row: &Row,
    other: &Row,
    steps: &mut Steps<L>,
) -> Result<Row, AllocError>
    ensures row { IfOk result (λ joined. joined ≡ beside side row.now other.now) }
    ensures cost { steps.new ≤ steps.old + 1 }
{
    match side {
        Side::Left => row.join(alloc, other, steps),
        Side::Right => other.join(alloc, row, steps),
    }
}
