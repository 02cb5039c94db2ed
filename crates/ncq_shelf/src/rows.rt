//! Where the rows of a file are.
ghost use Rattle.std.specs.Prelude.{◌≡◌, ◌<◌, ◌≤◌, ◌++◌, ◌∷◌, [], None, Some, OnOk, OnErr};
ghost use Rattle.std.specs.List.{AllByRecursion};
ghost use Rattle.ncq_plan.specs.declared.expr.Expr.{Expr as an_expr};
ghost use Rattle.ncq_midfile.specs.Content.{IsSoundAt};
ghost use Rattle.ncq_midfile.specs.Files.{FileState};
ghost use Rattle.ncq_midfile.specs.Matching.{HaveSlots};
ghost use Rattle.ncq_shelf.specs.Groups.{Groups, HasBase, HasGroup};
ghost use Rattle.ncq_shelf.specs.Groups.{content_of, group_of, rows_of_group};
ghost use Rattle.ncq_shelf.specs.declared.group.Group.{Group as a_group};
ghost use Rattle.ncq_shelf.specs.declared.rows.Rows.TheVariants.{Whole, Ranged};

use crate::group::Group;
use indexmap::IndexMap;
use ncq_midfile::{MidFile, RangeFile, SignedRow};
use std::alloc::{AllocError, Global};

/// The rows of a file: its own, or those of its group's file that its interval has. The latter take
/// nothing on the heap.
pub(crate) enum Rows {
    Whole(MidFile),
    Ranged { group: Group, base: u64 },
}

impl Drop for Rows {
    fn drop(self) {
        match self {
            Rows::Whole(whole) => drop(whole),
            Rows::Ranged { group: _, base: _ } => {}
        }
    }
}

/// The change from which on a file tells its content.
pub(crate) fn base_of(rows: &Rows) -> u64
    ensures { (groups : Groups) (expr : an_expr)
        → result ≡ (content_of groups expr rows.now).base }
{
    match rows {
        Rows::Whole(content) => content.base(),
        Rows::Ranged { base, .. } => *base,
    }
}

/// One more signed row of a file that has its own.
pub(crate) fn append_own(rows: &mut Rows, row: SignedRow) -> Result<(), AllocError>
    requires own { group_of rows.old ≡ None }
    requires above { (file : FileState) → rows.old ≡ Whole file → file.base < row.number }
    requires last { (file : FileState) → rows.old ≡ Whole file
        → AllByRecursion (λ r. r.number ≤ row.number) file.rows }
    ensures own { group_of rows.new ≡ None }
    ensures ok { OnOk result ((groups : Groups) (expr : an_expr)
        → content_of groups expr rows.new ≡ record {
          base = (content_of groups expr rows.old).base;
          rows = (content_of groups expr rows.old).rows ++ row ∷ [];
        }) }
    ensures err { OnErr result (rows.new ≡ rows.old) }
{
    match rows {
        Rows::Whole(content) => content.append(row),
        Rows::Ranged { .. } => unreachable!(),
    }
}

/// Makes a change the base of a file. Where it has rows of its own it has then those that are left
/// there, and those of later changes.
pub(crate) fn compact_rows(alloc: Global, rows: &mut Rows, change: u64) -> Result<(), AllocError>
    requires base { (file : FileState) → rows.old ≡ Whole file → file.base ≤ change }
    requires sound { (file : FileState) → rows.old ≡ Whole file → IsSoundAt change file.rows }
    ensures group { group_of rows.new ≡ group_of rows.old }
    ensures own { OnOk result (group_of rows.old ≡ None → (groups : Groups) (expr : an_expr)
        → HasBase change (content_of groups expr rows.old) (content_of groups expr rows.new)) }
    ensures ranged { (group : a_group) → group_of rows.old ≡ Some group
        → rows.new ≡ Ranged group change }
    ensures err { OnErr result (rows.new ≡ rows.old) }
{
    match rows {
        Rows::Whole(content) => content.compact(alloc, change),
        Rows::Ranged { base, .. } => {
            *base = change;
            Ok(())
        }
    }
}

/// Makes a change the base of a virtual file; rows of a file's own stay. It takes no memory.
pub(crate) fn raise_rows(rows: &mut Rows, change: u64)
    ensures own { group_of rows.old ≡ None → rows.new ≡ rows.old }
    ensures ranged { (group : a_group) → group_of rows.old ≡ Some group
        → rows.new ≡ Ranged group change }
{
    if let Rows::Ranged { base, .. } = rows {
        *base = change;
    }
}

/// Makes sure that rows are found by the atoms at these slots: those of a file that has its own, or
/// those of a virtual file's group.
pub(crate) fn index_rows(
    alloc: Global,
    groups: &mut IndexMap<Group, RangeFile>,
    rows: &mut Rows,
    slots: &[usize],
) -> Result<(), AllocError>
    requires own { (file : FileState) → rows.old ≡ Whole file → HaveSlots slots.now file.rows }
    requires there { (group : a_group) → group_of rows.old ≡ Some group
        → HasGroup groups.old.entries group }
    requires ranged { (group : a_group) → group_of rows.old ≡ Some group
        → HaveSlots slots.now (rows_of_group groups.old.entries group) }
    ensures groups { groups.new.entries ≡ groups.old.entries }
    ensures rows { rows.new ≡ rows.old }
{
    match rows {
        Rows::Whole(content) => content.ensure_index(alloc, slots),
        Rows::Ranged { group, .. } => {
            let group = *group;
            let Some(held) = groups.get_mut(&group) else {
                unreachable!()
            };
            held.ensure_index(alloc, slots)
        }
    }
}

/// Makes sure that rows are found by the number in a slot: those of a file that has its own, or
/// those of a virtual file's group.
pub(crate) fn order_rows(
    alloc: Global,
    groups: &mut IndexMap<Group, RangeFile>,
    rows: &mut Rows,
    slot: usize,
) -> Result<(), AllocError>
    requires own { (file : FileState) → rows.old ≡ Whole file → HaveSlots (slot ∷ []) file.rows }
    requires there { (group : a_group) → group_of rows.old ≡ Some group
        → HasGroup groups.old.entries group }
    requires ranged { (group : a_group) → group_of rows.old ≡ Some group
        → HaveSlots (slot ∷ []) (rows_of_group groups.old.entries group) }
    ensures groups { groups.new.entries ≡ groups.old.entries }
    ensures rows { rows.new ≡ rows.old }
{
    match rows {
        Rows::Whole(content) => content.ensure_order(alloc, slot),
        Rows::Ranged { group, .. } => {
            let group = *group;
            let Some(held) = groups.get_mut(&group) else {
                unreachable!()
            };
            held.ensure_order(alloc, slot)
        }
    }
}

/// Gives up what finds rows by the number in a slot, if the file has its own: those of a virtual
/// file are its group's. It takes no memory.
pub(crate) fn unorder_rows(rows: &mut Rows, slot: usize)
    ensures { rows.new ≡ rows.old }
{
    match rows {
        Rows::Whole(content) => content.drop_order(slot),
        Rows::Ranged { .. } => {}
    }
}

/// Gives up what finds rows by their atoms, but for what finds whole rows, if the file has its own.
/// It takes no memory.
pub(crate) fn unindex_rows(rows: &mut Rows)
    ensures { rows.new ≡ rows.old }
{
    match rows {
        Rows::Whole(content) => content.drop_indexes(),
        Rows::Ranged { .. } => {}
    }
}
