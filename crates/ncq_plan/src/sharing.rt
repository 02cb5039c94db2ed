//! Shapes that a query shares with its bare plan.
ghost use Rattle.std.specs.Prelude.{◌≡◌, map};
ghost use Rattle.ncq_plan.specs.Late.{bare_arm, bare_of};
ghost use Rattle.ncq_plan.specs.Plans.{arm_plan, arms_plan};

use crate::expr::Expr;
use crate::query::{Arm, Arms, NormalQuery};
use std::alloc::{AllocError, Global};
use std::mem::replace;

/// Each arm takes the shape of its scan in the query's bare plan, as one more owner, in place of an
/// equal one of its own: queries that have one bare plan keep its shapes once. The query stays what
/// it is, whatever is answered.
pub fn share_shapes(alloc: Global, query: &mut NormalQuery, bare: &Expr) -> Result<(), AllocError>
    requires { bare.now ≡ bare_of query.old }
    ensures { query.new ≡ query.old }
{
    let mut arms = replace(&mut query.arms, Arms::new(alloc)).into_vec();
    let shared = take_shapes(&mut arms, bare);
    query.arms = Arms::from_vec(arms);
    shared
}

/// Each of the arms takes the shape of its scan. The last one's is on the right of the outermost
/// join.
fn take_shapes(arms: &mut [Arm], bare: &Expr) -> Result<(), AllocError>
    requires { bare.now ≡ arms_plan (map bare_arm arms.old) }
    ensures { arms.new ≡ arms.old }
{
    let mut rest = bare;
    for at in (1..arms.len()).rev() {
        let Expr::Join { left, right, .. } = rest else {
            return Ok(());
        };
        take_shape(&mut arms[at], right.get())?;
        rest = left.get();
    }
    match arms.first_mut() {
        Some(arm) => take_shape(arm, rest),
        None => Ok(()),
    }
}

/// The arm takes the shape of its scan.
fn take_shape(arm: &mut Arm, scan: &Expr) -> Result<(), AllocError>
    requires { scan.now ≡ arm_plan (bare_arm arm.old) }
    ensures { arm.new ≡ arm.old }
{
    if let Expr::Scan { shape, .. } = scan {
        arm.shape = shape.share()?;
    }
    Ok(())
}
