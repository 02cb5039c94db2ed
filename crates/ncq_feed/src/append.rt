//! Signed rows of a change, behind the rows of a file.
ghost use Rattle.std.specs.Prelude.{◌≡◌, ◌∷◌, [], OnOk};
ghost use Rattle.std.specs.List.{AllByRecursion};
ghost use Rattle.ncq_shelf.specs.Ranges.{IsNoRange};
ghost use Rattle.ncq_shelf.specs.Stands.{IsThere};
ghost use Rattle.ncq_feed.specs.Runs.{Run, IsUnderWay, IsFor, IsGiven};

use ncq_midfile::{SignedRow, SignedRows};
use ncq_shelf::Shelf;
use std::alloc::AllocError;

/// One row of the change more.
pub(crate) fn append(shelf: &mut Shelf, at: u64, row: SignedRow) -> Result<(), AllocError>
    ghost run: { Run }
    requires under { IsUnderWay run shelf.old }
    requires there { IsThere run.files at }
    requires own { IsNoRange run.files at }
    requires fits { IsFor run at row }
    ensures under { IsUnderWay run shelf.new }
    ensures given { OnOk result (IsGiven run at (row ∷ []) shelf.old shelf.new) }
{
    shelf.append(at, row)?;
    Ok(())
}

/// These rows of the change more.
pub(crate) fn append_all(shelf: &mut Shelf, at: u64, rows: SignedRows) -> Result<(), AllocError>
    ghost run: { Run }
    requires under { IsUnderWay run shelf.old }
    requires there { IsThere run.files at }
    requires own { IsNoRange run.files at }
    requires fits { AllByRecursion (IsFor run at) rows }
    ensures under { IsUnderWay run shelf.new }
    ensures given { OnOk result (IsGiven run at rows shelf.old shelf.new) }
{
    for row in rows.into_vec() {
        append(shelf, at, row)?;
    }
    Ok(())
}
