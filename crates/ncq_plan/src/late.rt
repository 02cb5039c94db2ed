//! The plan of a query that joins first.
ghost use Rattle.std.specs.Prelude.{◌≡◌, ◌+◌, ◌≤◌, IfOk, map};
ghost use Rattle.ncq_plan.specs.Late.{bare_arm, bare_of, equal_behind, range_behind, equals_from};
ghost use Rattle.ncq_plan.specs.Late.{ranges_from, late_of};
ghost use Rattle.ncq_plan.specs.Plans.{arm_plan, with_equals, with_ranges};
ghost use Rattle.ncq_plan.specs.Products.{arm_width};
ghost use Rattle.ncq_plan.specs.WellFormed.{ArmFits, ArmsFit, arms_width, IsWellFormed};

use crate::expr::Expr;
use crate::query::{Arm, NormalQuery};
use ncq_base::{Copied, Shared};
use std::alloc::{AllocError, Global};

/// The plan of the query without its equalities and ranges: the scan of the first arm, joined in
/// turn with the scan of each further arm by its pairs. The query has to be well formed.
pub fn bare(alloc: Global, query: &NormalQuery) -> Result<Expr, AllocError>
    requires { IsWellFormed query.now }
    ensures { IfOk result (λ e. e ≡ bare_of query.now) }
{
    let arms = query.arms.as_slice();
    let mut plan = arm_scan(alloc, &arms[0])?;
    for arm in &arms[1..] {
        plan = Expr::Join {
            left: Shared::new(alloc, plan)?,
            right: Shared::new(alloc, arm_scan(alloc, arm)?)?,
            pairs: arm.pairs.copy(alloc)?,
        };
    }
    Ok(plan)
}

/// The plan of an arm that asks nothing of its own slots.
fn arm_scan(alloc: Global, arm: &Arm) -> Result<Expr, AllocError>
    ensures { IfOk result (λ e. e ≡ arm_plan (bare_arm arm.now)) }
{
    Ok(Expr::Scan {
        source: arm.source.copy(alloc)?,
        shape: arm.shape.share()?,
    })
}

/// The plan that joins first: the bare plan, then a selection for each demand of equality, arm by
/// arm, then one for each range, arm by arm. The query has to be well formed.
pub fn plan_late(alloc: Global, query: &NormalQuery) -> Result<Expr, AllocError>
    requires { IsWellFormed query.now }
    ensures { IfOk result (λ e. e ≡ late_of query.now) }
{
    let joined = bare(alloc, query)?;
    let selected = with_all_equals(alloc, joined, query.arms.as_slice())?;
    with_all_ranges(alloc, selected, query.arms.as_slice())
}

/// A selection over the input for each demand of equality of each arm, at the slot of the query.
fn with_all_equals(alloc: Global, input: Expr, arms: &[Arm]) -> Result<Expr, AllocError>
    requires fits { ArmsFit 0 arms.now }
    requires small { arms_width arms.now ≤ 64 }
    ensures { IfOk result (λ e. e ≡ with_equals input (equals_from 0 arms.now)) }
{
    let mut plan = input;
    let mut offset = 0;
    for arm in arms {
        plan = with_equals_behind(alloc, plan, offset, arm)?;
        offset += ncq_row::width(arm.shape.get());
    }
    Ok(plan)
}

/// A selection over the input for each range of each arm, at the slot of the query.
fn with_all_ranges(alloc: Global, input: Expr, arms: &[Arm]) -> Result<Expr, AllocError>
    requires fits { ArmsFit 0 arms.now }
    requires small { arms_width arms.now ≤ 64 }
    ensures { IfOk result (λ e. e ≡ with_ranges input (ranges_from 0 arms.now)) }
{
    let mut plan = input;
    let mut offset = 0;
    for arm in arms {
        plan = with_ranges_behind(alloc, plan, offset, arm)?;
        offset += ncq_row::width(arm.shape.get());
    }
    Ok(plan)
}

/// A selection over the input for each demand, in order, its slot behind the offset.
fn with_equals_behind(
    alloc: Global,
    input: Expr,
    offset: usize,
    arm: &Arm,
) -> Result<Expr, AllocError>
    requires fits { ArmFits offset arm.now }
    requires small { offset + arm_width arm.now ≤ 64 }
    ensures { IfOk result (λ e. e ≡ with_equals input (map (equal_behind offset) arm.now.equals)) }
{
    let mut plan = input;
    for equal in arm.equals.as_slice() {
        plan = Expr::EqSel {
            input: Shared::new(alloc, plan)?,
            slot: offset + equal.slot,
            constant: equal.constant.copy(alloc)?,
        };
    }
    Ok(plan)
}

/// A selection over the input for each range, in order, its slot behind the offset.
fn with_ranges_behind(
    alloc: Global,
    input: Expr,
    offset: usize,
    arm: &Arm,
) -> Result<Expr, AllocError>
    requires fits { ArmFits offset arm.now }
    requires small { offset + arm_width arm.now ≤ 64 }
    ensures { IfOk result (λ e. e ≡ with_ranges input (map (range_behind offset) arm.now.ranges)) }
{
    let mut plan = input;
    for range in arm.ranges.as_slice() {
        plan = Expr::RangeSel {
            input: Shared::new(alloc, plan)?,
            slot: offset + range.slot,
            interval: range.interval,
        };
    }
    Ok(plan)
}
