//! All rows of a join.
ghost use Rattle.std.specs.Prelude.{◌≡◌, ◌+◌, ◌≤◌, List, length, IfOk};
ghost use Rattle.ncq_base.specs.Counts.{SameCounts};
ghost use Rattle.ncq_row.specs.Embeddings.{Row as a_row};
ghost use Rattle.ncq_plan.specs.Exprs.{join_rows};
ghost use Rattle.ncq_midfile.specs.Content.{IsContent, IsSoundAt};
ghost use Rattle.ncq_midfile.specs.Matching.{HaveSlots};
ghost use Rattle.ncq_midfile.specs.Shown.{shown, rows_below};
ghost use Rattle.ncq_delta.specs.Joins.{left_slots, right_slots};

use crate::probe::{Probe, Side, joined, slots_on};
use ncq_base::Steps;
use ncq_midfile::View;
use ncq_row::{Pairs, Rows};
use std::alloc::{AllocError, Global};
use std::sync::ledger::Ledger;

/// The join's content at `number`: each row of the left followed by each of the right where the
/// pairs agree. Both sides may be one file. It takes at most one step for each row. The only error
/// is that memory ran out.
pub fn join_whole<L: Ledger>(
    alloc: Global,
    left: &View<'_>,
    right: &View<'_>,
    pairs: &Pairs,
    number: u64,
    steps: &mut Steps<L>,
) -> Result<Rows, AllocError>
    requires left_base { (shown left.now).base ≤ number }
    requires right_base { (shown right.now).base ≤ number }
    requires left_sound { IsSoundAt number (shown left.now).rows }
    requires right_sound { IsSoundAt number (shown right.now).rows }
    requires lefts { HaveSlots (left_slots pairs.now) (rows_below left.now) }
    requires rights { HaveSlots (right_slots pairs.now) (rows_below right.now) }

    // `lefts` and `rights` are any lists that are the contents of the two sides.
    ensures rows { IfOk result (λ rows. (lefts rights : List a_row)
        → IsContent number (shown left.now).rows lefts
        → IsContent number (shown right.now).rows rights
        → SameCounts rows (join_rows pairs.now lefts rights)) }
    ensures cost { (lefts rights : List a_row)
        → IsContent number (shown left.now).rows lefts
        → IsContent number (shown right.now).rows rights
        → steps.new ≤ steps.old + length (join_rows pairs.now lefts rights) }
{
    let right_own = slots_on(alloc, Side::Right, pairs)?;
    let probe = Probe {
        side: Side::Left,
        pairs,
        other: right,
        slots: &right_own,
        number,
    };
    let places = left.content_at(alloc, number)?;
    let mut out = Rows::new(alloc);
    for place in places.as_slice() {
        out.append(joined(alloc, &probe, left.row(*place), steps)?)?;
    }
    Ok(out)
}
