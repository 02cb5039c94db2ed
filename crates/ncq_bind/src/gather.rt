//! The arms and the places of a query.
ghost use Rattle.std.specs.Prelude.{◌≡◌, ◌++◌, ◌∷◌, IfOk, OnOk, List, length, map};
ghost use Rattle.std.specs.List.{flat_map};
ghost use Rattle.ncq_bind.specs.Places.{places};
ghost use Rattle.ncq_bind.specs.Answers.{QueryArm, arm_of, item_arms, arms_of, places_of};
ghost use Rattle.ncq_bind.specs.NormalArms.{open_arms};

use crate::open_arm::{OpenArm, OpenArms};
use crate::places::{Operands, add_places};
use crate::shape::shape_of;
use ncq_base::{Bytes, Copied, Shared};
use ncq_xmlql::{Pattern, QueryItem};
use std::alloc::{AllocError, Global};

/// The arms of a query, and its places.
#[derive(Drop)]
pub(crate) struct Gathered {
    pub arms: OpenArms,
    pub places: Operands,
}

/// The arms of the items, and their places.
pub(crate) fn gather(alloc: Global, items: &[QueryItem]) -> Result<Gathered, AllocError>
    ensures arms { IfOk result (λ g. g.arms ≡ open_arms 0 (arms_of items.now)) }
    ensures places { IfOk result (λ g. g.places ≡ places_of (arms_of items.now)) }
{
    let mut gathered = Gathered {
        arms: OpenArms::new(alloc),
        places: Operands::new(alloc),
    };
    for item in items {
        gather_item(alloc, item, &mut gathered)?;
    }
    Ok(gathered)
}

/// Adds the arms of an item, where it is a match.
fn gather_item(alloc: Global, item: &QueryItem, to: &mut Gathered) -> Result<(), AllocError>
    ensures arms { OnOk result ((rest : List QueryArm)
        → to.new.arms ++ open_arms (length to.new.places) rest
        ≡ to.old.arms ++ open_arms (length to.old.places) (item_arms item.now ++ rest)) }
    ensures places { OnOk result (to.new.places ≡ to.old.places ++ places_of (item_arms item.now)) }
{
    match item {
        QueryItem::Match { arms, source, .. } => { gather_arms(alloc, arms.as_slice(), source, to) }
        QueryItem::Condition { .. } | QueryItem::Satisfies { .. } => Ok(()),
    }
}

/// Adds the arms of a match.
fn gather_arms(
    alloc: Global,
    patterns: &[Pattern],
    source: &Bytes,
    to: &mut Gathered,
) -> Result<(), AllocError>
    ensures arms { OnOk result ((rest : List QueryArm)
        → to.new.arms ++ open_arms (length to.new.places) rest
        ≡ to.old.arms ++ open_arms (length to.old.places)
        (map (arm_of source.now) patterns.now ++ rest)) }
    ensures places { OnOk result (to.new.places
        ≡ to.old.places ++ places_of (map (arm_of source.now) patterns.now)) }
{
    for pattern in patterns {
        gather_arm(alloc, pattern, source, to)?;
    }
    Ok(())
}

/// Adds an arm.
fn gather_arm(
    alloc: Global,
    pattern: &Pattern,
    source: &Bytes,
    to: &mut Gathered,
) -> Result<(), AllocError>
    ensures arms { OnOk result ((rest : List QueryArm)
        → to.new.arms ++ open_arms (length to.new.places) rest
        ≡ to.old.arms ++ open_arms (length to.old.places)
        (arm_of source.now pattern.now ∷ rest)) }
    ensures places { OnOk result (to.new.places ≡ to.old.places ++ places pattern.now) }
{
    let offset = to.places.len();
    add_places(alloc, pattern, &mut to.places)?;
    let width = to.places.len() - offset;
    let source = source.copy(alloc)?;
    let shape = Shared::new(alloc, shape_of(alloc, pattern)?)?;
    to.arms.push(OpenArm {
        source,
        shape,
        offset,
        width,
    })
}
