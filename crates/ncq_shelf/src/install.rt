//! A selection by an interval on its way in: the rows that it brings to its group.
ghost use Rattle.std.specs.Prelude.{◌≡◌, ◌+◌, ◌<◌, ◌≤◌, ℕ, List, Some, [], length, map, filter};
ghost use Rattle.std.specs.Prelude.{cond, nat_eq};
ghost use Rattle.std.specs.Prelude.{IfOk, OnOk, OnErr};
ghost use Rattle.std.specs.List.{All, AllByRecursion};
ghost use Rattle.std.specs.Map.{lookup};
ghost use Rattle.indexmap.specs.IndexMap.{spare};
ghost use Rattle.ncq_row.specs.Embeddings.{Row as a_row};
ghost use Rattle.ncq_plan.specs.ExprLists.{is_expr};
ghost use Rattle.ncq_plan.specs.declared.expr.Expr.{Expr as an_expr};
ghost use Rattle.ncq_midfile.specs.Content.{IsContent, IsSoundAt};
ghost use Rattle.ncq_midfile.specs.Made.{gained_at};
ghost use Rattle.ncq_midfile.specs.Shown.{shown as what_is_shown, rows_below};
ghost use Rattle.ncq_midfile.specs.Views.{AreHeld, HasNumber, RangeState, is_missing};
ghost use Rattle.ncq_shelf.specs.Enrolled.{HasFile, IsUnread, OneEach};
ghost use Rattle.ncq_shelf.specs.Groups.{AreBehind, BringsRows, GainsRows, KeepsRows};
ghost use Rattle.ncq_shelf.specs.Groups.{intervals_at, intervals_in, is_group, rows_of_group};
ghost use Rattle.ncq_shelf.specs.Inputs.{AreInputs};
ghost use Rattle.ncq_shelf.specs.Shown.{shown};
ghost use Rattle.ncq_shelf.specs.Wired.{AreAlike, IsEnrolled};
ghost use Rattle.ncq_shelf.specs.declared.inputs.Inputs.TheVariants.{One};

use crate::enroll::enroll;
use crate::file::File;
use crate::group::Group;
use crate::inputs::Inputs;
use crate::ranged::{add_rows, open_group, release};
use indexmap::IndexMap;
use ncq_base::{Interval, Shared, Steps};
use ncq_consttab::RangeTable;
use ncq_midfile::{RangeFile, SignedRows, View};
use ncq_plan::Expr;
use ncq_readers::Readers;
use ncq_split::missing_rows;
use std::alloc::{AllocError, Global};
use std::hash::RandomState;
use std::sync::ledger::Ledger;

/// The rows that a view has at a change and the interval takes, but none of the intervals that read
/// at the slot, as rows that came in at the change. Each is one step. The only error is that memory
/// ran out.
pub(crate) fn missing_at<L: Ledger>(
    alloc: Global,
    seed: RandomState,
    readers: &Readers,
    interval: &Interval,
    slot: usize,
    input: &View<'_>,
    change: u64,
    steps: &mut Steps<L>,
) -> Result<SignedRows, AllocError>
    requires base { (what_is_shown input.now).base ≤ change }
    requires sound { IsSoundAt change (what_is_shown input.now).rows }
    requires slots { All (λ signed. slot < length signed.row) (rows_below input.now) }
    ensures rows { IfOk result (λ added. (list : List a_row)
        × IsContent change (what_is_shown input.now).rows list × (added ≡ map (gained_at change)
        (filter (is_missing slot (intervals_in readers.now slot) interval.now) list))) }
    ensures cost { (list : List a_row) → IsContent change (what_is_shown input.now).rows list
        → steps.new ≤ steps.old + length
        (filter (is_missing slot (intervals_in readers.now slot) interval.now) list) }
{
    match readers.range_table(slot) {
        Some(table) => missing_rows(alloc, table, interval, slot, input, change, steps),
        None => {
            let none = RangeTable::new(alloc, seed);
            missing_rows(alloc, &none, interval, slot, input, change, steps)
        }
    }
}

/// The group has these rows too from now on, and its input knows the number as that of a reader.
/// After an error the group has the rows that it had, and its input the readers.
pub(crate) fn install(
    alloc: Global,
    seed: RandomState,
    groups: &mut IndexMap<Group, RangeFile>,
    files: &mut IndexMap<u64, File>,
    group: Group,
    expr: &Expr,
    number: u64,
    rows: SignedRows,
) -> Result<(), AllocError>
    requires inputs { AreInputs (shown [] files.old.entries) expr.now (One group.input) }
    requires one { OneEach files.old.entries }
    requires unread { IsUnread files.old.entries expr.now number }
    requires there { HasFile files.old.entries group.input }
    requires slot { (held : RangeState) → lookup (is_group group) groups.old.entries ≡ Some held
        → held.slot ≡ group.slot }
    requires held { AreHeld group.slot (intervals_at files.old.entries group)
        (rows_of_group groups.old.entries group) }
    requires brings { BringsRows files.old.entries group expr.now rows }
    requires numbers { AllByRecursion (λ r. HasNumber group.slot r.row) rows }
    requires rising { AreBehind (rows_of_group groups.old.entries group) rows }
    ensures ok { OnOk result (GainsRows groups.old.entries group rows groups.new.entries) }
    ensures known { OnOk result (IsEnrolled files.old.entries expr.now number files.new.entries) }
    ensures err { OnErr result (KeepsRows files.old.entries groups.old.entries group
        groups.new.entries) }
    ensures alike { OnErr result (AreAlike files.old.entries files.new.entries) }
    ensures room { spare files.new ≡ spare files.old }
{
    open_group(alloc, seed, groups, group)?;
    if let Err(error) = add_rows(groups, group, rows) {
        release(groups, files, group, expr);
        return Err(error);
    }
    if let Err(error) = enroll(alloc, seed, files, expr, Inputs::One(group.input), number) {
        release(groups, files, group, expr);
        return Err(error);
    }
    Ok(())
}

/// Puts a file in, under its number and its expression. It takes no memory.
pub(crate) fn put_file(
    files: &mut IndexMap<u64, File>,
    numbers: &mut IndexMap<Shared<Expr>, u64, RandomState>,
    number: u64,
    key: Shared<Expr>,
    file: File,
)
    requires room { 0 < spare files.old }
    requires spare { 0 < spare numbers.old }
    ensures files { (q : ℕ) → lookup (nat_eq q) files.new.entries
        ≡ cond (nat_eq number q) (Some file) (lookup (nat_eq q) files.old.entries) }
    ensures numbers { (q : an_expr) → lookup (is_expr q) numbers.new.entries
        ≡ cond (is_expr key q) (Some number) (lookup (is_expr q) numbers.old.entries) }
{
    let _none = files.insert(number, file).unwrap();
    let _old = numbers.insert(key, number).unwrap();
}
