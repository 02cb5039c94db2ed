//! The law of what rows tell: the function does nothing, it is its contract.
ghost use Rattle.std.specs.Prelude.{◌≡◌, ℕ, Bool, List};
ghost use Rattle.std.specs.FinMap.{empty};
ghost use Rattle.ncq_bag.specs.Bags.{difference, differences};
ghost use Rattle.ncq_row.specs.Embeddings.{Row};
ghost use Rattle.ncq_plan.specs.Totals.{LeadsTo, SignedRow};
ghost use Rattle.ncq_callback.specs.Gathered.{answers, counts_after};

/// Where signed rows lead from the rows before to those after, the counts that they leave of the
/// bytes of those that pass a test tell the difference of the two answers.
pub fn counts_tell_the_difference()
    ensures { (before after : List Row) (delta : List SignedRow) → LeadsTo before delta after
        → (test : Row → Bool) (bytes : Row → List ℕ)
        → differences (counts_after test bytes empty delta)
        ≡ difference (answers test bytes after) (answers test bytes before) }
{}
