//! The split of an equality group.
ghost use Rattle.std.specs.Prelude.{◌≡◌, ◌+◌, ◌-◌, ◌<◌, ◌≤◌, ◌++◌, length, IfOk, OnOk};
ghost use Rattle.std.specs.List.{All};
ghost use Rattle.ncq_midfile.specs.Content.{since};
ghost use Rattle.ncq_midfile.specs.Shown.{shown, rows_below};
ghost use Rattle.ncq_split.specs.Splits.{files_equal, row_parcels, parcels_of};

use crate::parcel::{Parcels, parcel_for};
use ncq_base::Steps;
use ncq_consttab::EqTable;
use ncq_midfile::{SignedRow, View};
use std::alloc::{AllocError, Global};
use std::sync::ledger::Ledger;

/// Each of the input's rows of the change goes, with its number and its sign, to the file of the
/// constant that its atom in the slot is, if there is one: numbers by value, texts by bytes. Its
/// rows of the change are those with no lower number. It takes at most one step for each parcel.
/// The only error is that memory ran out.
pub fn split_equal<L: Ledger>(
    alloc: Global,
    table: &EqTable,
    slot: usize,
    input: &View<'_>,
    number: u64,
    steps: &mut Steps<L>,
) -> Result<Parcels, AllocError>
    requires base { (shown input.now).base < number }
    requires slots { All (λ signed. slot < length signed.row) (rows_below input.now) }
    ensures parcels { IfOk result (λ parcels. parcels ≡ parcels_of (files_equal table.now) slot
        (since (number - 1) (shown input.now).rows)) }
    ensures cost { steps.new ≤ steps.old + length (parcels_of (files_equal table.now) slot
        (since (number - 1) (shown input.now).rows)) }
{
    let places = input.since(alloc, number - 1)?;
    let mut parcels = Parcels::new(alloc);
    for place in places.as_slice() {
        add_parcel(
            alloc,
            table,
            slot,
            input.signed(*place),
            &mut parcels,
            steps,
        )?;
    }
    Ok(parcels)
}

/// Adds the parcel of the row, if it has one.
fn add_parcel<L: Ledger>(
    alloc: Global,
    table: &EqTable,
    slot: usize,
    signed: &SignedRow,
    parcels: &mut Parcels,
    steps: &mut Steps<L>,
) -> Result<(), AllocError>
    requires { slot < length signed.now.row }
    ensures parcels { OnOk result (parcels.new
        ≡ parcels.old ++ row_parcels (files_equal table.now) slot signed.now) }
    ensures cost { steps.new
        ≤ steps.old + length (row_parcels (files_equal table.now) slot signed.now) }
{
    match table.find(signed.row.atom(slot)) {
        Some(file) => parcels.push(parcel_for(alloc, signed, file, steps)?),
        None => Ok(()),
    }
}
