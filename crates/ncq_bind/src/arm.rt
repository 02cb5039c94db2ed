//! The arms of a normal query.
ghost use Rattle.std.specs.Prelude.{◌≡◌, [], IfOk, OnOk, map};
ghost use Rattle.std.specs.List.{flat_map};
ghost use Rattle.ncq_bind.specs.NormalArms.{in_arm, equal_in, range_in, pair_in, normal_arm};
ghost use Rattle.ncq_bind.specs.Sorted.{sorted_onto, equal_order, pair_order};
ghost use Rattle.ncq_bind.specs.Ranges.{ranges_onto};

use crate::constraint::Constraint;
use crate::open_arm::{OpenArm, OpenArms};
use crate::range::{insert_range, one_sided};
use crate::sorted::insert_once;
use ncq_base::Copied;
use ncq_plan::{Arm, Arms, EqualTo, EqualTos, Pair, Pairs, Within, Withins};
use std::alloc::{AllocError, Global};

/// What is asked of an arm.
#[derive(Drop)]
struct Demands {
    equals: EqualTos,
    ranges: Withins,
    pairs: Pairs,
}

/// Whether a slot of the query is one of the arm with this offset and width.
pub(crate) fn in_arm(offset: usize, width: usize, slot: usize) -> bool
    ensures { result ≡ in_arm offset width slot }
{
    offset <= slot && slot - offset < width
}

/// The arms under these constraints.
pub(crate) fn normal_arms(
    alloc: Global,
    arms: OpenArms,
    constraints: &[Constraint],
) -> Result<Arms, AllocError>
    ensures { IfOk result (λ a. a ≡ map (normal_arm constraints.now) arms) }
{
    let mut normal = Arms::with_capacity(alloc, arms.len())?;
    for arm in arms.into_vec() {
        normal.push(normal_arm(alloc, arm, constraints)?)?;
    }
    Ok(normal)
}

/// The arm under these constraints.
fn normal_arm(alloc: Global, arm: OpenArm, constraints: &[Constraint]) -> Result<Arm, AllocError>
    ensures { IfOk result (λ a. a ≡ normal_arm constraints.now arm) }
{
    let demands = demands_in(alloc, arm.offset, arm.width, constraints)?;
    Ok(Arm {
        source: arm.source,
        shape: arm.shape,
        equals: demands.equals,
        ranges: demands.ranges,
        pairs: demands.pairs,
    })
}

/// What the constraints ask of the arm.
fn demands_in(
    alloc: Global,
    offset: usize,
    width: usize,
    constraints: &[Constraint],
) -> Result<Demands, AllocError>
    ensures equals { IfOk result (λ d. d.equals
        ≡ sorted_onto equal_order [] (flat_map (equal_in offset width) constraints.now)) }
    ensures ranges { IfOk result (λ d. d.ranges
        ≡ ranges_onto [] (flat_map (range_in offset width) constraints.now)) }
    ensures pairs { IfOk result (λ d. d.pairs
        ≡ sorted_onto pair_order [] (flat_map (pair_in offset width) constraints.now)) }
{
    let equals = equals_in(alloc, offset, width, constraints)?;
    let ranges = ranges_in(alloc, offset, width, constraints)?;
    let pairs = pairs_in(alloc, offset, width, constraints)?;
    Ok(Demands {
        equals,
        ranges,
        pairs,
    })
}

/// The slots of the arm that have to have a constant.
fn equals_in(
    alloc: Global,
    offset: usize,
    width: usize,
    constraints: &[Constraint],
) -> Result<EqualTos, AllocError>
    ensures { IfOk result (λ e. e
        ≡ sorted_onto equal_order [] (flat_map (equal_in offset width) constraints.now)) }
{
    let mut equals = Vec::new(alloc);
    for constraint in constraints {
        add_equal(alloc, offset, width, constraint, &mut equals)?;
    }
    equals.shrink_to_fit();
    Ok(EqualTos::from_vec(equals))
}

/// Puts in what the constraint asks of the arm, where it asks for a constant.
fn add_equal(
    alloc: Global,
    offset: usize,
    width: usize,
    constraint: &Constraint,
    equals: &mut Vec<EqualTo>,
) -> Result<(), AllocError>
    ensures { OnOk result (equals.new.items
        ≡ sorted_onto equal_order equals.old.items (equal_in offset width constraint.now)) }
{
    match constraint {
        Constraint::Equal { slot, constant } => {
            if in_arm(offset, width, *slot) {
                let constant = constant.copy(alloc)?;
                let slot = *slot - offset;
                return insert_once(EqualTo { slot, constant }, equals);
            }
            Ok(())
        }
        _ => Ok(()),
    }
}

/// The slots of the arm that have to be in an interval.
fn ranges_in(
    alloc: Global,
    offset: usize,
    width: usize,
    constraints: &[Constraint],
) -> Result<Withins, AllocError>
    ensures { IfOk result (λ r. r
        ≡ ranges_onto [] (flat_map (range_in offset width) constraints.now)) }
{
    let mut ranges = Vec::new(alloc);
    for constraint in constraints {
        add_range(offset, width, constraint, &mut ranges)?;
    }
    ranges.shrink_to_fit();
    Ok(Withins::from_vec(ranges))
}

/// Puts in what the constraint asks of the arm, where it is a bound.
fn add_range(
    offset: usize,
    width: usize,
    constraint: &Constraint,
    ranges: &mut Vec<Within>,
) -> Result<(), AllocError>
    ensures { OnOk result (ranges.new.items
        ≡ ranges_onto ranges.old.items (range_in offset width constraint.now)) }
{
    match constraint {
        Constraint::Bound { slot, op, number } => {
            if in_arm(offset, width, *slot) {
                let slot = *slot - offset;
                let interval = one_sided(*op, *number);
                return insert_range(Within { slot, interval }, ranges);
            }
            Ok(())
        }
        _ => Ok(()),
    }
}

/// The pairs that tie the arm to those before it.
fn pairs_in(
    alloc: Global,
    offset: usize,
    width: usize,
    constraints: &[Constraint],
) -> Result<Pairs, AllocError>
    ensures { IfOk result (λ p. p
        ≡ sorted_onto pair_order [] (flat_map (pair_in offset width) constraints.now)) }
{
    let mut pairs = Vec::new(alloc);
    for constraint in constraints {
        add_pair(offset, width, constraint, &mut pairs)?;
    }
    pairs.shrink_to_fit();
    Ok(Pairs::from_vec(pairs))
}

/// Puts in what the constraint asks of the arm, where it ties two slots and the left one stands
/// before the arm.
fn add_pair(
    offset: usize,
    width: usize,
    constraint: &Constraint,
    pairs: &mut Vec<Pair>,
) -> Result<(), AllocError>
    ensures { OnOk result (pairs.new.items
        ≡ sorted_onto pair_order pairs.old.items (pair_in offset width constraint.now)) }
{
    match constraint {
        Constraint::Alike { left, right } => {
            if *left < offset && in_arm(offset, width, *right) {
                let left = *left;
                let right = *right - offset;
                return insert_once(Pair { left, right }, pairs);
            }
            Ok(())
        }
        _ => Ok(()),
    }
}
