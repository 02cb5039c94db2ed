//! The two plans of a query.
ghost use Rattle.std.specs.Prelude.{◌≡◌, IfOk};
ghost use Rattle.ncq_plan.specs.WellFormed.{IsWellFormed};
ghost use Rattle.ncq_strategy.specs.Choices.{plan_by};

use ncq_plan::{Expr, NormalQuery, plan, plan_late};
use std::alloc::{AllocError, Global};

/// What stands below: the selections of each arm, or the join of all arms.
#[derive(Clone, Copy, Debug, PartialEq, Eq)]
pub enum Choice {
    SelectFirst,
    JoinFirst,
}

/// The plan of a query by the choice. The query has to be well formed.
pub fn plan_by(alloc: Global, choice: Choice, query: &NormalQuery) -> Result<Expr, AllocError>
    requires { IsWellFormed query.now }
    ensures { IfOk result (λ e. e ≡ plan_by choice query.now) }
{
    match choice {
        Choice::SelectFirst => plan(alloc, query),
        Choice::JoinFirst => plan_late(alloc, query),
    }
}
