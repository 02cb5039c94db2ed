//! The joins over a file that its rows may meet.
ghost use Rattle.std.specs.Prelude.{◌↔◌, ◌<◌, ℕ, length, IfOk, IsTrue, OnOk};
ghost use Rattle.std.specs.List.{All, AllByRecursion};
ghost use Rattle.ncq_midfile.specs.Content.{signed_at};
ghost use Rattle.ncq_midfile.specs.Shown.{rows_below};
ghost use Rattle.ncq_shelf.specs.Met.{Gathers, IsGathered, IsHolderMet, IsJoinFileOver, IsOver};
ghost use Rattle.ncq_shelf.specs.Met.{IsRowMet, IsSide, IsSlotMet};
ghost use Rattle.ncq_shelf.specs.Readers.{IsAmong};

use crate::file::File;
use crate::inputs::Inputs;
use crate::keys::Keys;
use indexmap::{IndexMap, IndexSet};
use ncq_midfile::View;
use ncq_plan::Expr;
use ncq_row::Row;
use std::alloc::{AllocError, Global};

/// The joins over the file that its rows at these places may meet, and those that are met whatever
/// came.
pub(crate) fn joins_in(
    alloc: Global,
    files: &IndexMap<u64, File>,
    keys: &Keys,
    input: u64,
    view: &View<'_>,
    places: &[usize],
) -> Result<IndexSet<u64>, AllocError>
    requires { All (λ place. place < length (rows_below view.now)) places.now }
    ensures only { IfOk result (λ met. (n : ℕ) → IsAmong n met.keys
        → IsOver files.now.entries input n) }
    ensures always { IfOk result (λ met.
        AllByRecursion (IsGathered files.now.entries input met.keys) keys.now.always.keys) }
    ensures rows { IfOk result (λ met. AllByRecursion
        (λ r. IsRowMet files.now.entries keys.now input met.keys r.row)
        (signed_at places.now (rows_below view.now))) }
{
    let mut met = IndexSet::new(alloc);
    add_joins(&mut met, files, input, keys.always())?;
    for place in places {
        add_row(&mut met, files, keys, input, view.row(*place))?;
    }
    Ok(met)
}

/// Adds those that the row may meet.
fn add_row(
    met: &mut IndexSet<u64>,
    files: &IndexMap<u64, File>,
    keys: &Keys,
    input: u64,
    row: &Row,
) -> Result<(), AllocError>
    ensures gathers { Gathers files.now.entries input met.old.keys met.new.keys }
    ensures ok { OnOk result (IsRowMet files.now.entries keys.now input met.new.keys row.now) }
{
    for slot in keys.slots(input) {
        add_slot(met, files, keys, input, row, *slot)?;
    }
    Ok(())
}

/// Adds those that the row may meet by its atom at the slot.
fn add_slot(
    met: &mut IndexSet<u64>,
    files: &IndexMap<u64, File>,
    keys: &Keys,
    input: u64,
    row: &Row,
    slot: usize,
) -> Result<(), AllocError>
    ensures gathers { Gathers files.now.entries input met.old.keys met.new.keys }
    ensures ok { OnOk result (IsSlotMet files.now.entries keys.now input met.new.keys row.now
        slot) }
{
    if slot >= row.len() {
        return Ok(());
    }
    for holder in keys.holders(row.atom(slot)) {
        add_holder(met, files, input, *holder)?;
    }
    Ok(())
}

/// Adds the joins of the file with another, if that is there.
fn add_holder(
    met: &mut IndexSet<u64>,
    files: &IndexMap<u64, File>,
    input: u64,
    holder: u64,
) -> Result<(), AllocError>
    ensures gathers { Gathers files.now.entries input met.old.keys met.new.keys }
    ensures ok { OnOk result (IsHolderMet files.now.entries input met.new.keys holder) }
{
    if holder == input {
        return Ok(());
    }
    let Some(file) = files.get(&holder) else {
        return Ok(());
    };
    add_joins(met, files, input, file.readers.joins())
}

/// Adds those of the numbers that are joins over the file.
fn add_joins(
    met: &mut IndexSet<u64>,
    files: &IndexMap<u64, File>,
    input: u64,
    numbers: &[u64],
) -> Result<(), AllocError>
    ensures gathers { Gathers files.now.entries input met.old.keys met.new.keys }
    ensures ok { OnOk result (AllByRecursion
        (IsGathered files.now.entries input met.new.keys) numbers.now) }
{
    for number in numbers {
        add_join(met, files, input, *number)?;
    }
    Ok(())
}

/// Adds the number, if it is that of a join over the file.
fn add_join(
    met: &mut IndexSet<u64>,
    files: &IndexMap<u64, File>,
    input: u64,
    number: u64,
) -> Result<(), AllocError>
    ensures gathers { Gathers files.now.entries input met.old.keys met.new.keys }
    ensures ok { OnOk result (IsGathered files.now.entries input met.new.keys number) }
{
    let Some(file) = files.get(&number) else {
        return Ok(());
    };
    if is_join_over(file, input) {
        met.insert(number)?;
    }
    Ok(())
}

/// Whether the file is a join over the one of this number.
fn is_join_over(file: &File, input: u64) -> bool
    ensures { IsTrue result ↔ IsJoinFileOver file.now input }
{
    match file.expr.get() {
        Expr::Join { .. } => is_side(file.inputs, input),
        _ => false,
    }
}

/// Whether the number is one of the inputs.
fn is_side(inputs: Inputs, input: u64) -> bool
    ensures { IsTrue result ↔ IsSide inputs input }
{
    match inputs {
        Inputs::Nothing => false,
        Inputs::One(number) => number == input,
        Inputs::Two(left, right) => left == input || right == input,
    }
}
