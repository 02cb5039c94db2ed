//! The laws of changes in files: the function's contract is the law, and it does nothing.
ghost use Rattle.std.specs.Prelude.{ℕ, List};
ghost use Rattle.ncq_base.specs.Counts.{SameCounts};
ghost use Rattle.ncq_row.specs.Embeddings.{Row};
ghost use Rattle.ncq_row.specs.declared.pair.Pair.{Pair};
ghost use Rattle.ncq_plan.specs.Deltas.{join_delta as delta_of_join};
ghost use Rattle.ncq_plan.specs.Exprs.{join_rows};
ghost use Rattle.ncq_plan.specs.Totals.{SameChanges, LeadsTo};
ghost use Rattle.ncq_midfile.specs.Content.{since};
ghost use Rattle.ncq_midfile.specs.declared.signed.SignedRow.{SignedRow};
ghost use Rattle.ncq_delta.specs.Joins.{join_change};
ghost use Rattle.ncq_delta.specs.Leads.{unnumbered, HasContents};

/// The change of a join is the delta of a join as plans have it, each row as often with each sign.
/// What a file has above a number leads from its content there to that at its last number; and so
/// the change of a join leads from the join's content there to that at the last number of both
/// files, also where both are one.
pub fn changes_lead()
    ensures deltas { (pairs : List Pair) (left right rows : List SignedRow) (before now : List Row)
        → SameCounts rows (join_change pairs left before now right)
        → SameChanges (unnumbered rows)
        (delta_of_join pairs (unnumbered left) before now (unnumbered right)) }
    ensures files { (first second : ℕ) (rows : List SignedRow) (before after : List Row)
        → HasContents first second rows before after
        → LeadsTo before (unnumbered (since first rows)) after }
    ensures joins { (pairs : List Pair) (first second : ℕ) (left right rows : List SignedRow)
        (left_before left_now right_before right_now : List Row)
        → HasContents first second left left_before left_now
        → HasContents first second right right_before right_now
        → SameCounts rows
        (join_change pairs (since first left) right_before left_now (since first right))
        → LeadsTo (join_rows pairs left_before right_before) (unnumbered rows)
        (join_rows pairs left_now right_now) }
{}
