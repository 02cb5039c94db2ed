//! The range groups of a file: intervals with their files, by slot.
ghost use Rattle.std.specs.Prelude.{◌≡◌, ◌+◌, ◌-◌, ◌<◌, ◌≤◌, ◌++◌, map, Some, None, OnOk, OnErr};
ghost use Rattle.std.specs.List.{AllByRecursion};
ghost use Rattle.ncq_consttab.specs.Ranges.{is_interval};
ghost use Rattle.ncq_midfile.specs.Content.{since};
ghost use Rattle.ncq_midfile.specs.Shown.{shown, rows_below};
ghost use Rattle.ncq_readers.specs.Passed.{held_by, size_of};
ghost use Rattle.ncq_readers.specs.Readings.{HaveSlot};
ghost use Rattle.ncq_readers.specs.Tables.{AreGroups, IsRangeTable, Sets, file_of, found_at};

use ncq_base::{FileId, Interval, Sequence, Steps};
use ncq_consttab::RangeTable;
use ncq_midfile::{SignedRows, View};
use ncq_split::split_range;
use std::alloc::{AllocError, Global};
use std::collections::BTreeMap;
use std::hash::RandomState;
use std::sync::ledger::Ledger;

/// Rows that some interval of a range group holds, each once, with the group's slot.
#[derive(Drop)]
pub struct HeldRows {
    pub slot: usize,
    pub rows: SignedRows,
}

/// The slot's interval has the file, where it had none. The intervals of a slot are placed by the
/// seed that came first. After an error all is as before.
pub(crate) fn add_interval(
    alloc: Global,
    seed: RandomState,
    groups: &mut BTreeMap<usize, RangeTable>,
    slot: usize,
    interval: Interval,
    file: FileId,
) -> Result<(), AllocError>
    requires tables { AreGroups IsRangeTable groups.old.entries }
    requires free { found_at file_of groups.old.entries slot interval ≡ None }
    ensures tables { AreGroups IsRangeTable groups.new.entries }
    ensures ok { OnOk result (Sets file_of is_interval groups.old.entries slot interval
        (Some file) groups.new.entries) }
    ensures err { OnErr result (groups.new.entries ≡ groups.old.entries) }
{
    if let Some(table) = groups.get_mut(&slot) {
        table.insert(interval, file)?;
        return Ok(());
    }
    let mut table = RangeTable::new(alloc, seed);
    table.insert(interval, file)?;
    groups.insert(slot, table)?;
    Ok(())
}

/// The slot's interval has no file any more. It takes no memory.
pub(crate) fn remove_interval(
    groups: &mut BTreeMap<usize, RangeTable>,
    slot: usize,
    interval: &Interval,
)
    requires tables { AreGroups IsRangeTable groups.old.entries }
    ensures tables { AreGroups IsRangeTable groups.new.entries }
    ensures sets { Sets file_of is_interval groups.old.entries slot interval.now None
        groups.new.entries }
{
    let Some(table) = groups.get_mut(&slot) else {
        return;
    };
    table.remove(interval);
    if table.len() != 0 {
        return;
    }
    groups.remove(&slot);
}

/// Adds the rows that each group holds, of the input's rows of the change.
pub(crate) fn add_held<L: Ledger>(
    alloc: Global,
    groups: &BTreeMap<usize, RangeTable>,
    input: &View<'_>,
    number: u64,
    held: &mut Sequence<HeldRows>,
    steps: &mut Steps<L>,
) -> Result<(), AllocError>
    requires base { (shown input.now).base < number }
    requires slots { AllByRecursion (λ table. HaveSlot table.0 (rows_below input.now))
        groups.now.entries }
    ensures held { OnOk result (held.new ≡ held.old
        ++ map (held_by (since (number - 1) (shown input.now).rows)) groups.now.entries) }
    ensures cost { steps.new ≤ steps.old
        + size_of (map (held_by (since (number - 1) (shown input.now).rows))
        groups.now.entries) }
{
    for (slot, table) in groups {
        let rows = split_range(alloc, table, *slot, input, number, steps)?;
        held.push(HeldRows { slot: *slot, rows })?;
    }
    Ok(())
}
