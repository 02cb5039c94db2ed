//! Rows for files.
ghost use Rattle.std.specs.Prelude.{◌≡◌, ◌+◌, ◌≤◌, IfOk};
ghost use Rattle.ncq_split.specs.Splits.{for_file};

use ncq_base::{FileId, Sequence, Steps};
use ncq_midfile::SignedRow;
use std::alloc::{AllocError, Global};
use std::sync::ledger::Ledger;

/// A signed row for a file.
#[derive(Drop)]
pub struct Parcel {
    pub file: FileId,
    pub row: SignedRow,
}

/// Parcels in order.
pub type Parcels = Sequence<Parcel>;

/// An equal row, with its number and its sign, for the file. It is at most one step.
pub(crate) fn parcel_for<L: Ledger>(
    alloc: Global,
    signed: &SignedRow,
    file: FileId,
    steps: &mut Steps<L>,
) -> Result<Parcel, AllocError>
    ensures parcel { IfOk result (λ parcel. parcel ≡ for_file signed.now file) }
    ensures cost { steps.new ≤ steps.old + 1 }
{
    Ok(Parcel {
        file,
        row: SignedRow {
            number: signed.number,
            plus: signed.plus,
            row: signed.row.copy(alloc, steps)?,
        },
    })
}
