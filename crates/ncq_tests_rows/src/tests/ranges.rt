//! Tables of intervals and files of range groups, worked out by hand. Each row has one value.
ghost use Rattle.std.specs.Prelude.{◌≡◌, ◌<◌, ◌≤◌, length, vec_len, IsTrue, IfOk};
ghost use Rattle.std.specs.List.{All, AllByRecursion};
ghost use Rattle.ncq_midfile.specs.Shown.{rows_below};
ghost use Rattle.ncq_midfile.specs.Views.{HasNumber};

use super::making::{seed, value_rows};
use ncq_base::{Atom, End, FileId, Interval, Steps, atom_of, in_interval};
use ncq_consttab::RangeTable;
use ncq_midfile::{RangeFile, SignedRow, View};
use ncq_row::Row;
use std::alloc::{AllocError, Global};
use std::marker::Brand;
use std::process::Abort;
use std::sync::ledger::{Blank, Ledger};
use std::test::Fail;

/// The interval of all numbers.
pub const ALL: Interval = Interval {
    low: End::Unbounded,
    high: End::Unbounded,
};

/// From 2 on, without 4 and above.
const TWO_TO_FOUR: Interval = Interval {
    low: End::Included(2_000_000),
    high: End::Excluded(4_000_000),
};

/// Above 3, up to 5.
const THREE_TO_FIVE: Interval = Interval {
    low: End::Excluded(3_000_000),
    high: End::Included(5_000_000),
};

/// No number lies in it.
const NONE: Interval = Interval {
    low: End::Excluded(3_000_000),
    high: End::Included(3_000_000),
};

/// Texts, and whether some interval holds them: where there is none, with `TWO_TO_FOUR`, with
/// `THREE_TO_FIVE` too, and with all three.
const HELD: [(&str, [bool; 4]); 12] = [
    ("1.999999", [false, false, false, false]),
    ("2", [false, true, true, true]),
    ("3", [false, true, true, true]),
    ("+3.0", [false, true, true, true]),
    ("3.000001", [false, true, true, true]),
    ("3.999999", [false, true, true, true]),
    ("4", [false, false, true, true]),
    ("5", [false, false, true, true]),
    ("5.000001", [false, false, false, false]),
    ("-3", [false, false, false, false]),
    ("", [false, false, false, false]),
    ("three", [false, false, false, false]),
];

/// What is done to a range file.
enum Turn {
    /// A row of the text comes in or goes out with a change.
    Add(&'static str, u64, bool),
    /// The rows stay that some of the intervals holds.
    Keep(&'static [Interval]),
    /// The interval goes, and these stand.
    Without(Interval, &'static [Interval]),
    Cut(u64),
    Fold(u64),
    /// Each of the intervals has a bound of its own.
    FoldEach(&'static [(Interval, u64)]),
    Index,
    Lose,
}

/// Turns of a file, and the value, the number and the sign of each row that it then has.
const TURNS: [(&[Turn], &[(i128, u64, bool)]); 17] = [
    (&[], &[]),
    (
        &[Turn::Index, Turn::Lose, Turn::Cut(0), Turn::Keep(&[])],
        &[],
    ),
    (
        &[Turn::Add("3", 1, true), Turn::Add("3", 1, true)],
        &[(3_000_000, 1, true), (3_000_000, 1, true)],
    ),
    // A row that went out stays as one that did.
    (
        &[
            Turn::Add("2", 1, true),
            Turn::Lose,
            Turn::Add("2", 4, false),
        ],
        &[(2_000_000, 1, true), (2_000_000, 4, false)],
    ),
    // Of the intervals any holds a row.
    (
        &[
            Turn::Add("2", 1, true),
            Turn::Add("5", 2, true),
            Turn::Add("6", 3, false),
            Turn::Add("3.5", 3, true),
            Turn::Keep(&[TWO_TO_FOUR, THREE_TO_FIVE]),
        ],
        &[
            (2_000_000, 1, true),
            (5_000_000, 2, true),
            (3_500_000, 3, true),
        ],
    ),
    (
        &[
            Turn::Add("2", 1, true),
            Turn::Add("5", 2, true),
            Turn::Index,
            Turn::Keep(&[THREE_TO_FIVE, NONE]),
            Turn::Add("4", 2, true),
        ],
        &[(5_000_000, 2, true), (4_000_000, 2, true)],
    ),
    (&[Turn::Add("2", 1, true), Turn::Keep(&[])], &[]),
    // What another interval holds stays.
    (
        &[
            Turn::Add("2", 1, true),
            Turn::Add("3.5", 2, true),
            Turn::Add("3.5", 3, false),
            Turn::Without(TWO_TO_FOUR, &[NONE, THREE_TO_FIVE]),
        ],
        &[(3_500_000, 2, true), (3_500_000, 3, false)],
    ),
    // What no interval holds goes, if the one that goes has it.
    (
        &[
            Turn::Add("3", 1, true),
            Turn::Add("7", 1, true),
            Turn::Index,
            Turn::Without(TWO_TO_FOUR, &[]),
        ],
        &[(7_000_000, 1, true)],
    ),
    // The ends: the last that is in, and the first that is not.
    (
        &[
            Turn::Add("2", 1, true),
            Turn::Add("1.999999", 1, true),
            Turn::Add("3.999999", 1, true),
            Turn::Add("4", 1, true),
            Turn::Without(TWO_TO_FOUR, &[NONE]),
        ],
        &[(1_999_999, 1, true), (4_000_000, 1, true)],
    ),
    // Later rows go, and others come.
    (
        &[
            Turn::Add("1", 1, true),
            Turn::Add("2", 2, true),
            Turn::Index,
            Turn::Add("3", 3, true),
            Turn::Cut(2),
            Turn::Add("4", 2, true),
        ],
        &[
            (1_000_000, 1, true),
            (2_000_000, 2, true),
            (4_000_000, 2, true),
        ],
    ),
    (&[Turn::Add("1", 1, true), Turn::Cut(0)], &[]),
    // Of a pair both go, where both have such a number.
    (
        &[
            Turn::Add("1", 1, true),
            Turn::Add("2", 1, true),
            Turn::Add("1", 3, false),
            Turn::Fold(3),
        ],
        &[(2_000_000, 1, true)],
    ),
    (
        &[
            Turn::Add("1", 1, true),
            Turn::Add("1", 3, false),
            Turn::Fold(2),
        ],
        &[(1_000_000, 1, true), (1_000_000, 3, false)],
    ),
    // Of two intervals one has an earlier bound: its pair stays.
    (
        &[
            Turn::Add("2", 1, true),
            Turn::Add("5", 1, true),
            Turn::Add("2", 3, false),
            Turn::Add("5", 3, false),
            Turn::FoldEach(&[(TWO_TO_FOUR, 3), (THREE_TO_FIVE, 2)]),
        ],
        &[(5_000_000, 1, true), (5_000_000, 3, false)],
    ),
    // A row of both has the lower of their bounds.
    (
        &[
            Turn::Add("2", 1, true),
            Turn::Add("3.5", 1, true),
            Turn::Add("2", 2, false),
            Turn::Add("3.5", 2, false),
            Turn::FoldEach(&[(THREE_TO_FIVE, 1), (TWO_TO_FOUR, 2)]),
        ],
        &[(3_500_000, 1, true), (3_500_000, 2, false)],
    ),
    // Pairs go until none is left. A row above its bound strikes none out. Others stay in order.
    (
        &[
            Turn::Add("2", 1, true),
            Turn::Add("2", 1, true),
            Turn::Add("5", 1, true),
            Turn::Add("2", 2, false),
            Turn::Add("5", 3, false),
            Turn::Add("2", 4, false),
            Turn::Index,
            Turn::FoldEach(&[(TWO_TO_FOUR, 3), (THREE_TO_FIVE, 3)]),
            Turn::Add("3", 4, true),
        ],
        &[
            (2_000_000, 1, true),
            (2_000_000, 4, false),
            (3_000_000, 4, true),
        ],
    ),
];

/// A table of the intervals, which have the files 0, 1 and so on.
pub fn table_of(alloc: Global, intervals: &[Interval]) -> Result<RangeTable, AllocError> {
    let mut table = RangeTable::new(alloc, seed()?);
    for at in 0..intervals.len() {
        if table.find(&intervals[at]).is_none() {
            table.insert(intervals[at], FileId(at as u64))?;
        }
    }
    Ok(table)
}

/// Whether a row with this number may be added.
pub fn fits(file: &RangeFile, number: u64) -> bool
    ensures { IsTrue result → AllByRecursion (λ r. r.number ≤ number) file.now.rows }
{
    let slot = file.slot();
    let view = View::Ranged {
        file,
        interval: &ALL,
        base: 0,
    };
    slot == 0 && view.last() <= number
}

/// Whether the row has a number in the slot.
pub fn has_number(row: &Row, slot: usize) -> bool
    ensures { IsTrue result → HasNumber slot row.now }
{
    if slot >= row.len() {
        return false;
    }
    match row.atom(slot) {
        Atom::Num(_) => true,
        Atom::Text(_) => false,
    }
}

/// A row of the text comes in or goes out.
pub fn add<L: Ledger>(
    alloc: Global,
    file: &mut RangeFile,
    text: &str,
    number: u64,
    plus: bool,
    steps: &mut Steps<L>,
) -> Result<(), AllocError> {
    for row in value_rows(alloc, text.as_bytes(), steps)?.into_vec() {
        if !has_number(&row, file.slot()) || !fits(file, number) {
            return Err(AllocError);
        }
        file.add(SignedRow { number, plus, row })?;
    }
    Ok(())
}

/// Rows are found by their number from now on.
fn keep_index(alloc: Global, file: &mut RangeFile) -> Result<(), AllocError>
    ensures { file.new ≡ file.old }
{
    let slot = file.slot();
    file.ensure_index(alloc, &[slot])
}

/// Rows are found by their number from now on, where that is wanted.
pub fn index_if(alloc: Global, file: &mut RangeFile, wanted: bool) -> Result<(), AllocError>
    ensures { file.new ≡ file.old }
{
    if wanted {
        return keep_index(alloc, file);
    }
    Ok(())
}

/// The least of the bounds of the intervals that hold the row.
fn bound_of(row: &Row, bounds: &[(Interval, u64)]) -> u64 {
    let mut least = u64::MAX;
    for (interval, bound) in bounds {
        if row.len() == 1 && in_interval(interval, row.atom(0)) && *bound < least {
            least = *bound;
        }
    }
    least
}

/// The bound of each row of the file.
fn bounds_of(
    alloc: Global,
    file: &RangeFile,
    bounds: &[(Interval, u64)],
) -> Result<Vec<u64>, AllocError>
    ensures { IfOk result (λ each. vec_len each ≡ length file.now.rows) }
{
    let mut each = Vec::new(alloc);
    for signed in file.rows() {
        each.push(bound_of(&signed.row, bounds))?;
    }
    Ok(each)
}

/// Pairs of rows are struck out up to the bounds of the intervals that hold them.
fn fold(alloc: Global, file: &mut RangeFile, bounds: &[(Interval, u64)]) -> Result<(), AllocError> {
    let each = bounds_of(alloc, file, bounds)?;
    file.fold(alloc, each.as_slice())
}

/// The rows of the interval go that none of the standing ones holds.
fn keep_standing(
    alloc: Global,
    file: &mut RangeFile,
    gone: &Interval,
    standing: &[Interval],
) -> Result<(), AllocError> {
    let table = table_of(alloc, standing)?;
    file.keep_without(gone, &table);
    Ok(())
}

/// The turn is taken.
fn take_turn<L: Ledger>(
    alloc: Global,
    file: &mut RangeFile,
    turn: &Turn,
    steps: &mut Steps<L>,
) -> Result<(), AllocError> {
    match turn {
        Turn::Add(text, number, plus) => return add(alloc, file, text, *number, *plus, steps),
        Turn::Keep(intervals) => file.keep(intervals),
        Turn::Without(gone, standing) => return keep_standing(alloc, file, gone, standing),
        Turn::Cut(number) => file.cut(*number),
        Turn::Fold(number) => return fold(alloc, file, &[(ALL, *number)]),
        Turn::FoldEach(bounds) => return fold(alloc, file, bounds),
        Turn::Index => return keep_index(alloc, file),
        Turn::Lose => file.drop_index(&[0]),
    }
    Ok(())
}

/// The value of the row, which is -1 where it has no number, with its number and its sign.
pub fn told(signed: &SignedRow) -> (i128, u64, bool) {
    let mut value = -1;
    if signed.row.len() == 1 {
        if let Atom::Num(number) = signed.row.atom(0) {
            value = *number;
        }
    }
    (value, signed.number, signed.plus)
}

/// Whether these are the values, the numbers and the signs of the rows at the places.
fn are_rows(
    alloc: Global,
    view: &View<'_>,
    places: &[usize],
    want: &[(i128, u64, bool)],
) -> Result<bool, AllocError>
    requires { All (λ place. place < length (rows_below view.now)) places.now }
{
    let mut seen = Vec::new(alloc);
    for place in places {
        seen.push(told(view.signed(*place)))?;
    }
    Ok(seen.as_slice() == want)
}

/// Whether the file has these rows.
fn has_rows(
    alloc: Global,
    file: &RangeFile,
    want: &[(i128, u64, bool)],
) -> Result<bool, AllocError> {
    let view = View::Ranged {
        file,
        interval: &ALL,
        base: 0,
    };
    let places = view.places(alloc)?;
    are_rows(alloc, &view, places.as_slice(), want)
}

/// The turns are taken.
fn take_turns<L: Ledger>(
    alloc: Global,
    file: &mut RangeFile,
    turns: &[Turn],
    steps: &mut Steps<L>,
) -> Result<(), AllocError> {
    for turn in turns {
        take_turn(alloc, file, turn, steps)?;
    }
    Ok(())
}

/// Whether the turns leave these rows in the file.
fn leave_in<L: Ledger>(
    alloc: Global,
    file: &mut RangeFile,
    turns: &[Turn],
    want: &[(i128, u64, bool)],
    steps: &mut Steps<L>,
) -> Result<bool, AllocError> {
    take_turns(alloc, file, turns, steps)?;
    has_rows(alloc, file, want)
}

/// Whether the turns leave these rows.
fn leave<L: Ledger>(
    alloc: Global,
    turns: &[Turn],
    want: &[(i128, u64, bool)],
    steps: &mut Steps<L>,
) -> Result<bool, AllocError> {
    let mut file = RangeFile::new(alloc, seed()?, 0);
    leave_in(alloc, &mut file, turns, want, steps)
}

/// How many of the turns leave what was worked out, up to the first that do not.
fn turns<L: Ledger>(alloc: Global, steps: &mut Steps<L>) -> Result<usize, AllocError> {
    let all = &TURNS;
    for at in 0..all.len() {
        let (turns, want) = all[at];
        if !leave(alloc, turns, want, steps)? {
            return Ok(at);
        }
    }
    Ok(all.len())
}

/// How many of the turns leave what was worked out, up to the first that do not.
fn right_turns<L: Ledger>(rt: &HostRuntime, blank: Blank) -> Result<usize, AllocError>
    requires name { blank.name ≡ L.name }
    requires parts { blank.parts ≡ L.parts }
    requires some { 0 < L.parts }
{
    let mut steps = Steps::<L>::new(rt, blank);
    turns(rt.alloc(), &mut steps)
}

/// Whether some interval of the table holds the text.
fn holds(alloc: Global, table: &RangeTable, text: &str) -> Result<bool, AllocError> {
    let atom = atom_of(alloc, text.as_bytes())?;
    Ok(table.holds(&atom))
}

/// The table of so many intervals holds the texts that were worked out.
fn expect_held(
    rt: &impl Abort,
    alloc: Global,
    table: &RangeTable,
    count: usize,
) -> Result<(), AllocError>
    requires { count < 4 }
{
    for (text, held) in &HELD {
        let holds = holds(alloc, table, text)?;
        assert_eq!(rt; holds, held[count], "{text} of {count}");
    }
    Ok(())
}

const INTERVALS: [Interval; 3] = [TWO_TO_FOUR, THREE_TO_FIVE, NONE];

/// A table of so many intervals has them, and holds the texts that were worked out.
fn expect_intervals(rt: &impl Abort, alloc: Global, count: usize) -> Result<(), AllocError>
    requires { count < 4 }
{
    let intervals = INTERVALS;
    let table = table_of(alloc, &intervals[..count])?;
    assert_eq!(rt; table.intervals(), &intervals[..count]);
    expect_held(rt, alloc, &table, count)
}

/// Where an interval goes, the others hold what was worked out.
fn expect_without(rt: &impl Abort, table: &mut RangeTable) {
    table.remove(&TWO_TO_FOUR);
    assert_eq!(rt; table.intervals(), [NONE, THREE_TO_FIVE].as_slice());
    assert!(rt; !table.holds(&Atom::Num(3_000_000)));
    assert!(rt; table.holds(&Atom::Num(3_000_001)));
}

#[test]
fn a_range_file_keeps_what_some_interval_holds(rt: HostRuntime) -> Result<(), Fail> {
    let right = right_turns::<Brand>(&rt, Blank::new(1))?;
    assert_eq!(rt; right, TURNS.len());
    Ok(())
}

#[test]
fn a_table_holds_what_some_interval_holds(rt: HostRuntime) -> Result<(), Fail> {
    for count in 0..4usize {
        expect_intervals(&rt, rt.alloc(), count)?;
    }
    let mut table = table_of(rt.alloc(), &INTERVALS)?;
    expect_without(&rt, &mut table);
    Ok(())
}
