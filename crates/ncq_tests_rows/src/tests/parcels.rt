//! Splits of rows with one value each, worked out by hand.
ghost use Rattle.std.specs.Prelude.{◌≡◌, ◌<◌, ◌≤◌, length, IfOk, OnOk};
ghost use Rattle.std.specs.List.{AllByRecursion};
ghost use Rattle.ncq_midfile.specs.Shown.{shown, rows_below};

use super::histories::{fits, signed};
use super::making::{seed, value_rows};
use ncq_base::{End, FileId, Interval, Steps, atom_of};
use ncq_consttab::{EqTable, RangeTable};
use ncq_midfile::{MidFile, SignedRow, SignedRows, View};
use ncq_row::Rows;
use ncq_split::{Parcels, split_equal, split_range};
use std::alloc::{AllocError, Global};
use std::marker::Brand;
use std::sync::ledger::{Blank, Ledger};
use std::test::Fail;

/// The text of each row, its number and its sign.
const ROWS: [(&str, u64, bool); 12] = [
    ("1", 5, true),
    ("ab", 5, false),
    ("1.0", 6, true),
    ("3", 9, true),
    ("+01.000", 9, false),
    ("3", 9, false),
    ("10", 10, true),
    ("10.000001", 10, true),
    ("0", 11, false),
    ("-0.000001", 11, true),
    ("ab ", 12, true),
    ("", 12, false),
];

/// Constants and their files.
const CONSTANTS: [(&str, u64); 4] = [("ab", 3), ("2", 5), ("1", 7), ("abc", 8)];

/// Intervals and their files, in an order that is not the files'. Nothing lies in the last.
const INTERVALS: [(End, End, u64); 4] = [
    (End::Included(1_000_000), End::Unbounded, 9),
    (End::Excluded(1_000_000), End::Excluded(5_000_000), 2),
    (End::Included(0), End::Included(10_000_000), 4),
    (End::Excluded(1_000_000), End::Included(1_000_000), 11),
];

/// The number of a change, the file and the row of each parcel that a constant gets from it on, and
/// each row that some interval holds. A number is met however it is spelled, a text by its very
/// bytes alone. A row that three intervals hold stands once, and no interval holds a text.
const SPLITS: [(u64, &[(u64, usize)], &[usize]); 8] = [
    (
        1,
        &[(7, 0), (3, 1), (7, 2), (7, 4)],
        &[0, 2, 3, 4, 5, 6, 7, 8],
    ),
    (
        5,
        &[(7, 0), (3, 1), (7, 2), (7, 4)],
        &[0, 2, 3, 4, 5, 6, 7, 8],
    ),
    (6, &[(7, 2), (7, 4)], &[2, 3, 4, 5, 6, 7, 8]),
    (7, &[(7, 4)], &[3, 4, 5, 6, 7, 8]),
    (10, &[], &[6, 7, 8]),
    (11, &[], &[8]),
    (12, &[], &[]),
    (u64::MAX, &[], &[]),
];

/// One row more.
fn append(file: &mut MidFile, row: SignedRow) -> Result<(), AllocError>
    requires above { file.old.base < row.number }
    requires last { AllByRecursion (λ r. r.number ≤ row.number) file.old.rows }
    requires single { length row.row ≡ 1 }
    requires one { AllByRecursion (λ r. length r.row ≡ 1) file.old.rows }
    ensures { OnOk result (AllByRecursion (λ r. length r.row ≡ 1) file.new.rows) }
{
    file.append(row)
}

/// The rows of a text.
fn append_text<L: Ledger>(
    alloc: Global,
    file: &mut MidFile,
    text: &str,
    number: u64,
    plus: bool,
    steps: &mut Steps<L>,
) -> Result<(), AllocError>
    requires { AllByRecursion (λ r. length r.row ≡ 1) file.old.rows }
    ensures { OnOk result (AllByRecursion (λ r. length r.row ≡ 1) file.new.rows) }
{
    let rows = value_rows(alloc, text.as_bytes(), steps)?;
    let Some(row) = rows.get(0) else {
        return Err(AllocError);
    };
    if row.len() != 1 || !fits(file, number) {
        return Err(AllocError);
    }
    append(file, signed(alloc, number, plus, row, steps)?)
}

/// The rows of the table.
fn append_rows<L: Ledger>(
    alloc: Global,
    file: &mut MidFile,
    steps: &mut Steps<L>,
) -> Result<(), AllocError>
    requires { AllByRecursion (λ r. length r.row ≡ 1) file.old.rows }
    ensures { OnOk result (AllByRecursion (λ r. length r.row ≡ 1) file.new.rows) }
{
    for (text, number, plus) in &ROWS {
        append_text(alloc, file, text, *number, *plus, steps)?;
    }
    Ok(())
}

/// A file with the rows of the table.
fn file_of_rows<L: Ledger>(alloc: Global, steps: &mut Steps<L>) -> Result<MidFile, AllocError>
    ensures { IfOk result (λ f. AllByRecursion (λ r. length r.row ≡ 1) f.rows) }
{
    let mut file = MidFile::new(alloc, seed()?, 0, Rows::new(alloc))?;
    append_rows(alloc, &mut file, steps)?;
    Ok(file)
}

/// Whether the row has the number, the sign and the value of the row of the table.
fn is_row<L: Ledger>(
    alloc: Global,
    row: &SignedRow,
    at: usize,
    steps: &mut Steps<L>,
) -> Result<bool, AllocError> {
    let Some((text, number, plus)) = ROWS.get(at) else {
        return Ok(false);
    };
    let rows = value_rows(alloc, text.as_bytes(), steps)?;
    let Some(given) = rows.get(0) else {
        return Ok(false);
    };
    Ok(row.number == *number && row.plus == *plus && row.row.equal(given))
}

/// Whether these are the rows of the table at the places.
fn are_rows<L: Ledger>(
    alloc: Global,
    rows: &SignedRows,
    want: &[usize],
    steps: &mut Steps<L>,
) -> Result<bool, AllocError> {
    for i in 0..want.len() {
        let Some(row) = rows.get(i) else {
            return Ok(false);
        };
        if !is_row(alloc, row, want[i], steps)? {
            return Ok(false);
        }
    }
    Ok(rows.len() == want.len())
}

/// Whether the parcels are for these files, and have the rows of the table at the places.
fn are_parcels<L: Ledger>(
    alloc: Global,
    parcels: &Parcels,
    want: &[(u64, usize)],
    steps: &mut Steps<L>,
) -> Result<bool, AllocError> {
    for i in 0..want.len() {
        let (file, at) = want[i];
        let Some(parcel) = parcels.get(i) else {
            return Ok(false);
        };
        if parcel.file.0 != file || !is_row(alloc, &parcel.row, at, steps)? {
            return Ok(false);
        }
    }
    Ok(parcels.len() == want.len())
}

/// The table of the constants.
fn constants(alloc: Global) -> Result<EqTable, AllocError> {
    let mut table = EqTable::new(alloc, seed()?)?;
    for (text, file) in CONSTANTS {
        let constant = atom_of(alloc, text.as_bytes())?;
        if table.find(&constant).is_none() {
            table.insert(constant, FileId(file))?;
        }
    }
    Ok(table)
}

/// The table of the intervals.
fn intervals(alloc: Global) -> Result<RangeTable, AllocError> {
    let mut table = RangeTable::new(alloc, seed()?);
    for (low, high, file) in INTERVALS {
        let interval = Interval { low, high };
        if table.find(&interval).is_none() {
            table.insert(interval, FileId(file))?;
        }
    }
    Ok(table)
}

/// Whether the rows of the change give these parcels.
fn is_split_equal<L: Ledger>(
    alloc: Global,
    table: &EqTable,
    input: &View<'_>,
    number: u64,
    want: &[(u64, usize)],
    steps: &mut Steps<L>,
) -> Result<bool, AllocError>
    requires base { (shown input.now).base < number }
    requires one { AllByRecursion (λ r. length r.row ≡ 1) (rows_below input.now) }
{
    let parcels = split_equal(alloc, table, 0, input, number, steps)?;
    are_parcels(alloc, &parcels, want, steps)
}

/// Whether these rows of the change are held.
fn is_split_range<L: Ledger>(
    alloc: Global,
    table: &RangeTable,
    input: &View<'_>,
    number: u64,
    want: &[usize],
    steps: &mut Steps<L>,
) -> Result<bool, AllocError>
    requires base { (shown input.now).base < number }
    requires one { AllByRecursion (λ r. length r.row ≡ 1) (rows_below input.now) }
{
    let rows = split_range(alloc, table, 0, input, number, steps)?;
    are_rows(alloc, &rows, want, steps)
}

/// Whether the rows of the change give these parcels, and these rows are held.
fn is_split<L: Ledger>(
    alloc: Global,
    tables: (&EqTable, &RangeTable),
    input: &View<'_>,
    number: u64,
    parcels: &[(u64, usize)],
    held: &[usize],
    steps: &mut Steps<L>,
) -> Result<bool, AllocError>
    requires { AllByRecursion (λ r. length r.row ≡ 1) (rows_below input.now) }
{
    if input.base() >= number {
        return Ok(false);
    }
    Ok(
        is_split_equal(alloc, tables.0, input, number, parcels, steps)?
            && is_split_range(alloc, tables.1, input, number, held, steps)?,
    )
}

/// How many of the splits give what was worked out, up to the first that does not.
fn splits<L: Ledger>(
    alloc: Global,
    tables: (&EqTable, &RangeTable),
    file: &MidFile,
    steps: &mut Steps<L>,
) -> Result<usize, AllocError>
    requires { AllByRecursion (λ r. length r.row ≡ 1) file.now.rows }
{
    let all = &SPLITS;
    for at in 0..all.len() {
        let (number, parcels, held) = all[at];
        let view = View::Whole(file);
        if !is_split(alloc, tables, &view, number, parcels, held, steps)? {
            return Ok(at);
        }
    }
    Ok(all.len())
}

/// How many of the splits by the tables give it.
fn splits_by<L: Ledger>(
    alloc: Global,
    file: &MidFile,
    steps: &mut Steps<L>,
) -> Result<usize, AllocError>
    requires { AllByRecursion (λ r. length r.row ≡ 1) file.now.rows }
{
    let (constants, intervals) = (constants(alloc)?, intervals(alloc)?);
    splits(alloc, (&constants, &intervals), file, steps)
}

/// How many of the splits give what was worked out, up to the first that does not.
fn right_splits<L: Ledger>(rt: &HostRuntime, blank: Blank) -> Result<usize, AllocError>
    requires name { blank.name ≡ L.name }
    requires parts { blank.parts ≡ L.parts }
    requires some { 0 < L.parts }
{
    let mut steps = Steps::<L>::new(rt, blank);
    let file = file_of_rows(rt.alloc(), &mut steps)?;
    splits_by(rt.alloc(), &file, &mut steps)
}

#[test]
fn a_row_goes_to_the_files_whose_constants_it_meets(rt: HostRuntime) -> Result<(), Fail> {
    let right = right_splits::<Brand>(&rt, Blank::new(1))?;
    assert_eq!(rt; right, SPLITS.len());
    Ok(())
}
