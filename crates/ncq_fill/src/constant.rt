//! The rows of a file that have a constant.
ghost use Rattle.std.specs.Prelude.{◌≡◌, ◌+◌, ◌≤◌, [], ◌∷◌, List, length, filter, IfOk};
ghost use Rattle.ncq_base.specs.Counts.{SameCounts};
ghost use Rattle.ncq_row.specs.Embeddings.{Row as a_row};
ghost use Rattle.ncq_plan.specs.Meets.{has_atom};
ghost use Rattle.ncq_midfile.specs.Content.{IsContent};
ghost use Rattle.ncq_midfile.specs.Shown.{shown};
ghost use Rattle.ncq_fill.specs.Ready.{IsReady};

use crate::copies::copies_at;
use ncq_base::{Atom, Steps};
use ncq_midfile::View;
use ncq_row::Rows;
use std::alloc::{AllocError, Global};
use std::sync::ledger::Ledger;

/// The rows that are left at `now` and have the constant's atom in the slot. Where the file finds
/// rows by that slot, no others are looked at.
pub(crate) fn with_constant<L: Ledger>(
    alloc: Global,
    file: &View<'_>,
    slot: usize,
    constant: &Atom,
    now: u64,
    steps: &mut Steps<L>,
) -> Result<Rows, AllocError>
    requires { IsReady now (slot ∷ []) file.now }

    // `list` is any that is the file's content.
    ensures counts { IfOk result (λ rows. (list : List a_row)
        → IsContent now (shown file.now).rows list
        → SameCounts rows (filter (has_atom slot constant.now) list)) }
    ensures cost { (list : List a_row) → IsContent now (shown file.now).rows list
        → steps.new ≤ steps.old + length (filter (has_atom slot constant.now) list) }
{
    let places = file.matching_atom(alloc, slot, constant, now)?;
    copies_at(alloc, file, places.as_slice(), steps)
}
