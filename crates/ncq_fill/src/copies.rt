//! Copies of rows of a file.
ghost use Rattle.std.specs.Prelude.{◌≡◌, ◌+◌, ◌<◌, ◌≤◌, length, IfOk};
ghost use Rattle.std.specs.List.{All};
ghost use Rattle.ncq_midfile.specs.Content.{rows_at};
ghost use Rattle.ncq_midfile.specs.Shown.{rows_below};

use ncq_base::Steps;
use ncq_midfile::View;
use ncq_row::Rows;
use std::alloc::{AllocError, Global};
use std::sync::ledger::Ledger;

/// A copy of the row at each of the places. It takes at most one step for each.
pub(crate) fn copies_at<L: Ledger>(
    alloc: Global,
    file: &View<'_>,
    places: &[usize],
    steps: &mut Steps<L>,
) -> Result<Rows, AllocError>
    requires { All (λ place. place < length (rows_below file.now)) places.now }
    ensures rows { IfOk result (λ rows. rows ≡ rows_at places.now (rows_below file.now)) }
    ensures cost { steps.new ≤ steps.old + length places.now }
{
    let mut rows = Rows::new(alloc);
    for place in places {
        rows.push(file.row(*place).copy(alloc, steps)?)?;
    }
    Ok(rows)
}
