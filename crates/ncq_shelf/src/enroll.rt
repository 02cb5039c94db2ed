//! A file as a reader of its inputs: on its way in and on its way out.
ghost use Rattle.std.specs.Prelude.{◌≡◌, ◌⊎◌, [], ℕ, nat_eq, Some, OnOk, OnErr};
ghost use Rattle.std.specs.Map.{lookup};
ghost use Rattle.indexmap.specs.IndexMap.{spare};
ghost use Rattle.ncq_readers.specs.Readings.Reading.{equal, range, joined};
ghost use Rattle.ncq_readers.specs.ReaderTables.{IsReader};
ghost use Rattle.ncq_shelf.specs.Inputs.{AreInputs};
ghost use Rattle.ncq_shelf.specs.Shown.{shown};
ghost use Rattle.ncq_shelf.specs.Wired.{IsEnrolled, IsStruck, AreAlike};
ghost use Rattle.ncq_shelf.specs.Enrolled.{AreSidesOf, HasFile, OneEach, IsUnread, IsKnown};
ghost use Rattle.ncq_shelf.specs.Enrolled.{is_at, is_at_either, Enrolls, Strikes};
ghost use Rattle.ncq_shelf.specs.declared.file.File.{File as a_file};
ghost use Rattle.ncq_shelf.specs.declared.inputs.Inputs.TheVariants.{Nothing, One};

use crate::file::File;
use crate::inputs::Inputs;
use indexmap::IndexMap;
use ncq_base::{Atom, Copied, Interval};
use ncq_plan::Expr;
use std::alloc::{AllocError, Global};
use std::hash::RandomState;

/// The files that the expression reads know the number as that of a reader from now on. After an
/// error all know what they knew. The room for more files stays.
pub(crate) fn enroll(
    alloc: Global,
    seed: RandomState,
    files: &mut IndexMap<u64, File>,
    expr: &Expr,
    inputs: Inputs,
    number: u64,
) -> Result<(), AllocError>
    requires inputs { AreInputs (shown [] files.old.entries) expr.now inputs }
    requires one { OneEach files.old.entries }
    requires unread { IsUnread files.old.entries expr.now number }
    ensures ok { OnOk result (IsEnrolled files.old.entries expr.now number files.new.entries) }
    ensures err { OnErr result (AreAlike files.old.entries files.new.entries) }
    ensures room { spare files.new ≡ spare files.old }
{
    match expr {
        Expr::Scan { .. } => Ok(()),
        Expr::EqSel { slot, constant, .. } => {
            let copy = constant.copy(alloc)?;
            enroll_equal(alloc, seed, files, one_of(inputs), *slot, copy, number)
        }
        Expr::RangeSel { slot, interval, .. } => {
            enroll_range(alloc, seed, files, one_of(inputs), *slot, *interval, number)
        }
        Expr::Join { .. } => {
            let (left, right) = sides_of(inputs);
            enroll_sides(files, left, right, number)
        }
    }
}

/// The files that the expression reads know the number as that of a reader no more. It takes no
/// memory.
pub(crate) fn strike(files: &mut IndexMap<u64, File>, expr: &Expr, inputs: Inputs, number: u64)
    requires inputs { AreInputs (shown [] files.old.entries) expr.now inputs }
    requires one { OneEach files.old.entries }
    requires known { IsKnown files.old.entries expr.now number }
    ensures { IsStruck files.old.entries expr.now number files.new.entries }
{
    match expr {
        Expr::Scan { .. } => {}
        Expr::EqSel { slot, constant, .. } => {
            strike_equal(files, one_of(inputs), *slot, constant, number);
        }
        Expr::RangeSel { slot, interval, .. } => {
            strike_range(files, one_of(inputs), *slot, interval, number);
        }
        Expr::Join { .. } => {
            let (left, right) = sides_of(inputs);
            strike_join(files, left, number);
            strike_join(files, right, number);
        }
    }
}

/// The number of the one input.
pub(crate) fn one_of(inputs: Inputs) -> u64
    requires { (number : ℕ) × (inputs ≡ One number) }
    ensures { inputs ≡ One result }
{
    match inputs {
        Inputs::One(number) => number,
        _ => unreachable!(),
    }
}

/// The numbers of the two inputs: a file that is joined with itself is both.
pub(crate) fn sides_of(inputs: Inputs) -> (u64, u64)
    requires { inputs ≡ Nothing → ⊥ }
    ensures { AreSidesOf inputs result.0 result.1 }
{
    match inputs {
        Inputs::One(number) => (number, number),
        Inputs::Two(left, right) => (left, right),
        Inputs::Nothing => unreachable!(),
    }
}

/// The number selects of a file by a constant, by which none does.
fn enroll_equal(
    alloc: Global,
    seed: RandomState,
    files: &mut IndexMap<u64, File>,
    at: u64,
    slot: usize,
    constant: Atom,
    number: u64,
) -> Result<(), AllocError>
    requires there { HasFile files.old.entries at }
    requires unread { (file : a_file) (n : ℕ) → lookup (nat_eq at) files.old.entries ≡ Some file
        → IsReader file.readers (equal slot constant) n → ⊥ }
    ensures ok { OnOk result (Enrolls files.old.entries (is_at at (equal slot constant)) number
        files.new.entries) }
    ensures err { OnErr result (AreAlike files.old.entries files.new.entries) }
    ensures room { spare files.new ≡ spare files.old }
{
    let Some(file) = files.get_mut(&at) else {
        unreachable!()
    };
    file.readers.add_equal(alloc, seed, slot, constant, number)
}

/// The number selects of a file by an interval, by which none does.
fn enroll_range(
    alloc: Global,
    seed: RandomState,
    files: &mut IndexMap<u64, File>,
    at: u64,
    slot: usize,
    interval: Interval,
    number: u64,
) -> Result<(), AllocError>
    requires there { HasFile files.old.entries at }
    requires unread { (file : a_file) (n : ℕ) → lookup (nat_eq at) files.old.entries ≡ Some file
        → IsReader file.readers (range slot interval) n → ⊥ }
    ensures ok { OnOk result (Enrolls files.old.entries (is_at at (range slot interval)) number
        files.new.entries) }
    ensures err { OnErr result (AreAlike files.old.entries files.new.entries) }
    ensures room { spare files.new ≡ spare files.old }
{
    let Some(file) = files.get_mut(&at) else {
        unreachable!()
    };
    file.readers.add_range(alloc, seed, slot, interval, number)
}

/// The number joins two files, or one with itself. After an error no file knows of it.
fn enroll_sides(
    files: &mut IndexMap<u64, File>,
    left: u64,
    right: u64,
    number: u64,
) -> Result<(), AllocError>
    requires left { HasFile files.old.entries left }
    requires right { HasFile files.old.entries right }
    requires unread { (at : ℕ) (file : a_file) → lookup (nat_eq at) files.old.entries ≡ Some file
        → IsReader file.readers joined number → ⊥ }
    ensures ok { OnOk result (Enrolls files.old.entries (is_at_either left right joined) number
        files.new.entries) }
    ensures err { OnErr result (AreAlike files.old.entries files.new.entries) }
    ensures room { spare files.new ≡ spare files.old }
{
    enroll_join(files, left, number)?;
    if let Err(error) = enroll_join(files, right, number) {
        strike_join(files, left, number);
        return Err(error);
    }
    Ok(())
}

/// The number joins a file, also where it did.
fn enroll_join(files: &mut IndexMap<u64, File>, at: u64, number: u64) -> Result<(), AllocError>
    requires { HasFile files.old.entries at }
    ensures ok { OnOk result (Enrolls files.old.entries (is_at at joined) number
        files.new.entries) }
    ensures err { OnErr result (AreAlike files.old.entries files.new.entries) }
    ensures room { spare files.new ≡ spare files.old }
{
    let Some(file) = files.get_mut(&at) else {
        unreachable!()
    };
    file.readers.add_join(number)
}

/// The number selects no more of a file by the constant.
fn strike_equal(files: &mut IndexMap<u64, File>, at: u64, slot: usize, constant: &Atom, number: u64)
    requires there { HasFile files.old.entries at }
    requires known { (file : a_file) → lookup (nat_eq at) files.old.entries ≡ Some file
        → IsReader file.readers (equal slot constant.now) number }
    ensures { Strikes files.old.entries (is_at at (equal slot constant.now)) number
        files.new.entries }
{
    let Some(file) = files.get_mut(&at) else {
        unreachable!()
    };
    file.readers.remove_equal(slot, constant, number);
}

/// The number selects no more of a file by the interval.
fn strike_range(
    files: &mut IndexMap<u64, File>,
    at: u64,
    slot: usize,
    interval: &Interval,
    number: u64,
)
    requires there { HasFile files.old.entries at }
    requires known { (file : a_file) → lookup (nat_eq at) files.old.entries ≡ Some file
        → IsReader file.readers (range slot interval.now) number }
    ensures { Strikes files.old.entries (is_at at (range slot interval.now)) number
        files.new.entries }
{
    let Some(file) = files.get_mut(&at) else {
        unreachable!()
    };
    file.readers.remove_range(slot, interval, number);
}

/// The number joins a file no more.
fn strike_join(files: &mut IndexMap<u64, File>, at: u64, number: u64)
    requires { HasFile files.old.entries at }
    ensures struck { Strikes files.old.entries (is_at at joined) number files.new.entries }
    ensures room { spare files.new ≡ spare files.old }
{
    let Some(file) = files.get_mut(&at) else {
        unreachable!()
    };
    file.readers.remove_join(number);
}
