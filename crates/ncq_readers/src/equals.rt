//! The equality groups of a file: constants with their files, by slot.
ghost use Rattle.std.specs.Prelude.{◌≡◌, ◌+◌, ◌-◌, ◌<◌, ◌≤◌, ◌++◌, length, Some, None, OnOk, OnErr};
ghost use Rattle.std.specs.FinMap.{get};
ghost use Rattle.std.specs.List.{flat_map, AllByRecursion};
ghost use Rattle.std.specs.Ordering.{eq_by_cmp};
ghost use Rattle.ncq_base.specs.Atoms.{atom_cmp};
ghost use Rattle.ncq_midfile.specs.Content.{since};
ghost use Rattle.ncq_midfile.specs.Shown.{shown, rows_below};
ghost use Rattle.ncq_readers.specs.Passed.{equal_parcels};
ghost use Rattle.ncq_readers.specs.Readings.{HaveSlot};
ghost use Rattle.ncq_readers.specs.Tables.{AreGroups, IsEqualTable, Sets, found_at};

use ncq_base::{Atom, FileId, Steps};
use ncq_consttab::EqTable;
use ncq_midfile::View;
use ncq_split::{Parcels, split_equal};
use std::alloc::{AllocError, Global};
use std::collections::BTreeMap;
use std::hash::RandomState;
use std::sync::ledger::Ledger;

/// The slot's constant has the file, where it had none. The constants of a slot are placed by the
/// seed that came first. After an error all is as before.
pub(crate) fn add_constant(
    alloc: Global,
    seed: RandomState,
    groups: &mut BTreeMap<usize, EqTable>,
    slot: usize,
    constant: Atom,
    file: FileId,
) -> Result<(), AllocError>
    requires tables { AreGroups IsEqualTable groups.old.entries }
    requires free { found_at get groups.old.entries slot constant ≡ None }
    ensures tables { AreGroups IsEqualTable groups.new.entries }
    ensures ok { OnOk result (Sets get (eq_by_cmp atom_cmp) groups.old.entries slot constant
        (Some file) groups.new.entries) }
    ensures err { OnErr result (groups.new.entries ≡ groups.old.entries) }
{
    if let Some(table) = groups.get_mut(&slot) {
        table.insert(constant, file)?;
        return Ok(());
    }
    let mut table = EqTable::new(alloc, seed)?;
    table.insert(constant, file)?;
    groups.insert(slot, table)?;
    Ok(())
}

/// The slot's constant has no file any more. It takes no memory.
pub(crate) fn remove_constant(groups: &mut BTreeMap<usize, EqTable>, slot: usize, constant: &Atom)
    requires tables { AreGroups IsEqualTable groups.old.entries }
    ensures tables { AreGroups IsEqualTable groups.new.entries }
    ensures sets { Sets get (eq_by_cmp atom_cmp) groups.old.entries slot constant.now None
        groups.new.entries }
{
    let Some(table) = groups.get_mut(&slot) else {
        return;
    };
    table.remove(constant);
    if table.len() != 0 {
        return;
    }
    groups.remove(&slot);
}

/// Adds the parcels of each group, of the input's rows of the change.
pub(crate) fn add_equal_parcels<L: Ledger>(
    alloc: Global,
    groups: &BTreeMap<usize, EqTable>,
    input: &View<'_>,
    number: u64,
    parcels: &mut Parcels,
    steps: &mut Steps<L>,
) -> Result<(), AllocError>
    requires base { (shown input.now).base < number }
    requires slots { AllByRecursion (λ table. HaveSlot table.0 (rows_below input.now))
        groups.now.entries }
    ensures parcels { OnOk result (parcels.new ≡ parcels.old
        ++ flat_map (equal_parcels (since (number - 1) (shown input.now).rows))
        groups.now.entries) }
    ensures cost { steps.new ≤ steps.old
        + length (flat_map (equal_parcels (since (number - 1) (shown input.now).rows))
        groups.now.entries) }
{
    for (slot, table) in groups {
        let more = split_equal(alloc, table, *slot, input, number, steps)?;
        parcels.append(more)?;
    }
    Ok(())
}
