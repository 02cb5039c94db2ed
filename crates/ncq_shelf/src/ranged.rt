//! What comes into the files of range groups and goes out of them.
ghost use Rattle.std.specs.Prelude.{◌≡◌, ℕ, None, Some, OnOk, OnErr};
ghost use Rattle.std.specs.List.{AllByRecursion};
ghost use Rattle.ncq_midfile.specs.Views.{HasNumber};
ghost use Rattle.ncq_shelf.specs.Enrolled.{HasFile};
ghost use Rattle.ncq_shelf.specs.Groups.{group_of, rows_of_group, HasGroup, IsRight};
ghost use Rattle.ncq_shelf.specs.Groups.{AddsToGroup, AreBehind, IsFrontOf, IsReleased, OpensGroup};
ghost use Rattle.ncq_shelf.specs.Keyed.{Grows, IsHeld, IsKey, nowhere};
ghost use Rattle.ncq_shelf.specs.Ranges.{IsRange};
ghost use Rattle.ncq_shelf.specs.declared.group.Group.{Group as a_group};

use crate::file::File;
use crate::group::{Group, interval_of};
use crate::keys::Keys;
use crate::rows::Rows;
use indexmap::IndexMap;
use ncq_base::FileId;
use ncq_midfile::{RangeFile, SignedRows};
use ncq_plan::Expr;
use ncq_row::Row;
use std::alloc::{AllocError, Global};
use std::hash::RandomState;

/// The group has a file from now on, if only one without rows.
pub(crate) fn open_group(
    alloc: Global,
    seed: RandomState,
    groups: &mut IndexMap<Group, RangeFile>,
    group: Group,
) -> Result<(), AllocError>
    ensures ok { OnOk result (OpensGroup groups.old.entries group groups.new.entries) }
    ensures err { OnErr result (groups.new.entries ≡ groups.old.entries) }
{
    if groups.contains_key(&group) {
        return Ok(());
    }
    groups.insert(group, RangeFile::new(alloc, seed, group.slot))?;
    Ok(())
}

/// More rows of the group's file. After an error some of them are there.
pub(crate) fn add_rows(
    groups: &mut IndexMap<Group, RangeFile>,
    group: Group,
    rows: SignedRows,
) -> Result<(), AllocError>
    requires there { HasGroup groups.old.entries group }
    requires numbers { AllByRecursion (λ r. HasNumber group.slot r.row) rows }
    requires rising { AreBehind (rows_of_group groups.old.entries group) rows }
    ensures ok { OnOk result (AddsToGroup groups.old.entries group rows groups.new.entries) }
    ensures err { OnErr result ((some : _) × IsFrontOf some rows
        × AddsToGroup groups.old.entries group some groups.new.entries) }
{
    let Some(held) = groups.get_mut(&group) else {
        unreachable!()
    };
    for row in rows.into_vec() {
        held.add(row)?;
    }
    Ok(())
}

/// Takes away what the group's file has of the interval and of no other of the group; where there
/// is no other, the file. It takes no memory.
pub(crate) fn release(
    groups: &mut IndexMap<Group, RangeFile>,
    files: &IndexMap<u64, File>,
    group: Group,
    expr: &Expr,
)
    requires range { IsRange expr.now }
    requires there { HasFile files.now.entries group.input }
    requires held { HasGroup groups.old.entries group }
    ensures { IsReleased files.now.entries groups.old.entries group expr.now groups.new.entries }
{
    let interval = interval_of(expr);
    let Some(file) = files.get(&group.input) else {
        return;
    };
    match file.readers.range_table(group.slot) {
        Some(table) => {
            let Some(held) = groups.get_mut(&group) else {
                unreachable!()
            };
            held.keep_without(interval, table);
        }
        None => {
            groups.swap_remove(&group);
        }
    }
}

/// Where a file that went has a group, takes away what the group's file has for it alone. It takes
/// no memory.
pub(crate) fn release_of(
    groups: &mut IndexMap<Group, RangeFile>,
    files: &IndexMap<u64, File>,
    gone: &File,
)
    requires right { IsRight groups.old.entries gone.now.expr gone.now.content }
    requires there { (group : a_group) → group_of gone.now.content ≡ Some group
        → HasFile files.now.entries group.input }
    ensures own { group_of gone.now.content ≡ None → groups.new.entries ≡ groups.old.entries }
    ensures ranged { (group : a_group) → group_of gone.now.content ≡ Some group → IsReleased
        files.now.entries groups.old.entries group gone.now.expr groups.new.entries }
{
    if let Rows::Ranged { group, .. } = &gone.content {
        release(groups, files, *group, gone.expr.get());
    }
}

/// Notes a row of each of these files at each slot at which the file's rows are noted.
pub(crate) fn note_takers(keys: &mut Keys, takers: &[FileId], row: &Row) -> Result<(), AllocError>
    ensures grows { Grows nowhere keys.old keys.new }
    ensures ok { OnOk result (AllByRecursion (λ file. (slot : ℕ) → IsKey keys.new file.0 slot
        → IsHeld keys.new.holders file.0 slot row.now) takers.now) }
{
    for file in takers {
        keys.note_row(file.0, row)?;
    }
    Ok(())
}
