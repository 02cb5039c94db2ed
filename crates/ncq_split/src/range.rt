//! The split of a range group.
ghost use Rattle.std.specs.Prelude.{◌≡◌, ◌+◌, ◌-◌, ◌<◌, ◌≤◌, ◌++◌, [], ◌∷◌, cond, length};
ghost use Rattle.std.specs.Prelude.{IfOk, OnOk};
ghost use Rattle.std.specs.List.{All};
ghost use Rattle.std.specs.Map.{keys_of};
ghost use Rattle.ncq_midfile.specs.Content.{since};
ghost use Rattle.ncq_midfile.specs.Shown.{shown, rows_below};
ghost use Rattle.ncq_midfile.specs.Views.{is_held, of_rows};

use ncq_base::Steps;
use ncq_consttab::RangeTable;
use ncq_midfile::{SignedRow, SignedRows, View};
use std::alloc::{AllocError, Global};
use std::sync::ledger::Ledger;

/// Those of the input's rows of the change whose atom in the slot is a number that at least one
/// interval holds, each once, with its number and its sign, in the rows' order. Its rows of the
/// change are those with no lower number. It takes at most one step for each row. The only error is
/// that memory ran out.
pub fn split_range<L: Ledger>(
    alloc: Global,
    table: &RangeTable,
    slot: usize,
    input: &View<'_>,
    number: u64,
    steps: &mut Steps<L>,
) -> Result<SignedRows, AllocError>
    requires base { (shown input.now).base < number }
    requires slots { All (λ signed. slot < length signed.row) (rows_below input.now) }
    ensures rows { IfOk result (λ rows. rows ≡ of_rows (is_held slot (keys_of table.now))
        (since (number - 1) (shown input.now).rows)) }
    ensures cost { steps.new ≤ steps.old + length (of_rows (is_held slot (keys_of table.now))
        (since (number - 1) (shown input.now).rows)) }
{
    let places = input.since(alloc, number - 1)?;
    let mut rows = SignedRows::new(alloc);
    for place in places.as_slice() {
        add_held(alloc, table, slot, input.signed(*place), &mut rows, steps)?;
    }
    Ok(rows)
}

/// Adds the row, if some interval holds it.
fn add_held<L: Ledger>(
    alloc: Global,
    table: &RangeTable,
    slot: usize,
    signed: &SignedRow,
    rows: &mut SignedRows,
    steps: &mut Steps<L>,
) -> Result<(), AllocError>
    requires { slot < length signed.now.row }
    ensures rows { OnOk result (rows.new ≡ rows.old
        ++ of_rows (is_held slot (keys_of table.now)) (signed.now ∷ [])) }
    ensures cost { steps.new ≤ steps.old
        + length (of_rows (is_held slot (keys_of table.now)) (signed.now ∷ [])) }
{
    if !table.holds(signed.row.atom(slot)) {
        return Ok(());
    }
    rows.push(SignedRow {
        number: signed.number,
        plus: signed.plus,
        row: signed.row.copy(alloc, steps)?,
    })
}
