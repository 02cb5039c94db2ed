//! The checks at the end.
ghost use Rattle.std.specs.Prelude.{◌≡◌, ◌++◌, IfOk, OnOk};
ghost use Rattle.std.specs.List.{flat_map};
ghost use Rattle.ncq_bind.specs.NormalQueries.{in_one_arm, inner_check, other_check, residual_of};

use crate::arm::in_arm;
use crate::constraint::Constraint;
use crate::open_arm::OpenArm;
use ncq_base::{Copied, Op};
use ncq_plan::{Check, Checks, Side, Test};
use std::alloc::{AllocError, Global};

/// The equalities within one arm, then all other conditions.
pub(crate) fn residual_of(
    alloc: Global,
    arms: &[OpenArm],
    constraints: &[Constraint],
) -> Result<Checks, AllocError>
    ensures { IfOk result (λ c. c ≡ residual_of arms.now constraints.now) }
{
    let mut checks = Checks::new(alloc);
    add_inner(arms, constraints, &mut checks)?;
    add_other(alloc, constraints, &mut checks)?;
    Ok(checks)
}

/// Adds the equalities within one arm.
fn add_inner(
    arms: &[OpenArm],
    constraints: &[Constraint],
    checks: &mut Checks,
) -> Result<(), AllocError>
    ensures { OnOk result (checks.new
        ≡ checks.old ++ flat_map (inner_check arms.now) constraints.now) }
{
    for constraint in constraints {
        add_inner_check(arms, constraint, checks)?;
    }
    Ok(())
}

/// Adds the constraint, where it is an equality within one arm.
fn add_inner_check(
    arms: &[OpenArm],
    constraint: &Constraint,
    checks: &mut Checks,
) -> Result<(), AllocError>
    ensures { OnOk result (checks.new ≡ checks.old ++ inner_check arms.now constraint.now) }
{
    match constraint {
        Constraint::Alike { left, right } => {
            if in_one_arm(arms, *left, *right) {
                return checks.push(Check::Compare(Test {
                    op: Op::Eq,
                    left: *left,
                    right: Side::Slot(*right),
                }));
            }
            Ok(())
        }
        _ => Ok(()),
    }
}

/// Whether both slots lie in one of the arms.
fn in_one_arm(arms: &[OpenArm], left: usize, right: usize) -> bool
    ensures { result ≡ in_one_arm arms.now left right }
{
    arms.iter().any(|a| in_arm(a.offset, a.width, left) && in_arm(a.offset, a.width, right))
}

/// Adds all other conditions.
fn add_other(
    alloc: Global,
    constraints: &[Constraint],
    checks: &mut Checks,
) -> Result<(), AllocError>
    ensures { OnOk result (checks.new ≡ checks.old ++ flat_map other_check constraints.now) }
{
    for constraint in constraints {
        add_other_check(alloc, constraint, checks)?;
    }
    Ok(())
}

/// Adds the constraint, where it is one of these.
fn add_other_check(
    alloc: Global,
    constraint: &Constraint,
    checks: &mut Checks,
) -> Result<(), AllocError>
    ensures { OnOk result (checks.new ≡ checks.old ++ other_check constraint.now) }
{
    match constraint {
        Constraint::Other { check } => checks.push(check.copy(alloc)?),
        _ => Ok(()),
    }
}
