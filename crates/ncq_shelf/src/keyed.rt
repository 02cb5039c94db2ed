//! Where the rows of two files are noted for a join of them.
ghost use Rattle.std.specs.Prelude.{◌≡◌, OnOk};
ghost use Rattle.ncq_shelf.specs.Enrolled.{HasFile, OneEach};
ghost use Rattle.ncq_shelf.specs.Groups.{IsGrouped};
ghost use Rattle.ncq_shelf.specs.Inputs.{AreInputs};
ghost use Rattle.ncq_shelf.specs.Keyed.{AreNotedIn, Grows, IsFound, IsJoinFound, IsKey};
ghost use Rattle.ncq_shelf.specs.Shown.{shown};

use crate::enroll::sides_of;
use crate::file::File;
use crate::group::{Group, view_of};
use crate::inputs::Inputs;
use crate::keys::Keys;
use indexmap::IndexMap;
use ncq_midfile::RangeFile;
use ncq_plan::Expr;
use ncq_row::Pairs;
use std::alloc::AllocError;

/// If the expression is a join, it is found when it is met.
pub(crate) fn key_join(
    keys: &mut Keys,
    files: &IndexMap<u64, File>,
    groups: &IndexMap<Group, RangeFile>,
    expr: &Expr,
    inputs: Inputs,
    number: u64,
) -> Result<(), AllocError>
    requires inputs { AreInputs (shown groups.now.entries files.now.entries) expr.now inputs }
    requires one { OneEach files.now.entries }
    requires grouped { IsGrouped files.now.entries groups.now.entries }
    ensures grows { Grows (AreNotedIn groups.now.entries files.now.entries keys.new.holders)
        keys.old keys.new }
    ensures ok { OnOk result (IsJoinFound keys.new number expr.now inputs) }
{
    match expr {
        Expr::Join { pairs, .. } => {
            let (left, right) = sides_of(inputs);
            key_pairs(keys, files, groups, pairs, left, right, number)
        }
        _ => Ok(()),
    }
}

/// A join of two files by these pairs is found when it is met: by the atoms of the first pair, or
/// whatever comes, where there are no pairs or one file is joined with itself.
fn key_pairs(
    keys: &mut Keys,
    files: &IndexMap<u64, File>,
    groups: &IndexMap<Group, RangeFile>,
    pairs: &Pairs,
    left: u64,
    right: u64,
    number: u64,
) -> Result<(), AllocError>
    requires left { HasFile files.now.entries left }
    requires right { HasFile files.now.entries right }
    requires grouped { IsGrouped files.now.entries groups.now.entries }
    ensures grows { Grows (AreNotedIn groups.now.entries files.now.entries keys.new.holders)
        keys.old keys.new }
    ensures ok { OnOk result (IsFound keys.new number left right pairs.now) }
{
    let Some(pair) = pairs.get(0) else {
        return keys.tell_always(number);
    };
    if left == right {
        return keys.tell_always(number);
    }
    key_side(keys, files, groups, left, pair.left)?;
    key_side(keys, files, groups, right, pair.right)
}

/// The rows of a file are noted at the slot.
fn key_side(
    keys: &mut Keys,
    files: &IndexMap<u64, File>,
    groups: &IndexMap<Group, RangeFile>,
    at: u64,
    slot: usize,
) -> Result<(), AllocError>
    requires there { HasFile files.now.entries at }
    requires grouped { IsGrouped files.now.entries groups.now.entries }
    ensures grows { Grows (AreNotedIn groups.now.entries files.now.entries keys.new.holders)
        keys.old keys.new }
    ensures ok { OnOk result (IsKey keys.new at slot) }
{
    let Some(file) = files.get(&at) else {
        unreachable!()
    };
    keys.key(at, slot, &view_of(groups, file))
}
