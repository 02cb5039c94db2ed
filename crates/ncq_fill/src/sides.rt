//! What finds the rows of the two sides of a join.
ghost use Rattle.std.specs.Prelude.{◌≡◌, ◌<◌, IfOk};
ghost use Rattle.std.specs.List.{AllByRecursion};
ghost use Rattle.ncq_plan.specs.Exprs.{expr_width};
ghost use Rattle.ncq_delta.specs.Joins.{left_slots, right_slots};
ghost use Rattle.ncq_shelf.specs.Contents.{AreWide};
ghost use Rattle.ncq_shelf.specs.KeptFiles.{AtFile};
ghost use Rattle.ncq_shelf.specs.Stands.{IsThere};

use ncq_row::Pairs;
use ncq_shelf::Shelf;
use std::alloc::{AllocError, Global};

/// Makes sure that the rows of each side are found by its slots of the pairs.
pub(crate) fn index_sides(
    alloc: Global,
    shelf: &mut Shelf,
    left: u64,
    right: u64,
    pairs: &Pairs,
) -> Result<(), AllocError>
    requires left { IsThere shelf.old left }
    requires right { IsThere shelf.old right }
    requires wide { AreWide shelf.old }
    requires lefts { AtFile shelf.old left (λ file.
        AllByRecursion (λ slot. slot < expr_width file.expr) (left_slots pairs.now)) }
    requires rights { AtFile shelf.old right (λ file.
        AllByRecursion (λ slot. slot < expr_width file.expr) (right_slots pairs.now)) }
    ensures { shelf.new ≡ shelf.old }
{
    let lefts = left_slots(alloc, pairs)?;
    let rights = right_slots(alloc, pairs)?;
    shelf.ensure_index(alloc, left, lefts.as_slice())?;
    shelf.ensure_index(alloc, right, rights.as_slice())
}

/// The slots of the pairs on the left.
fn left_slots(alloc: Global, pairs: &Pairs) -> Result<Vec<usize>, AllocError>
    ensures { IfOk result (λ slots. slots.items ≡ left_slots pairs.now) }
{
    pairs.as_slice().iter().map(|pair| pair.left).collect(alloc)
}

/// The slots of the pairs on the right.
fn right_slots(alloc: Global, pairs: &Pairs) -> Result<Vec<usize>, AllocError>
    ensures { IfOk result (λ slots. slots.items ≡ right_slots pairs.now) }
{
    pairs
        .as_slice()
        .iter()
        .map(|pair| pair.right)
        .collect(alloc)
}
