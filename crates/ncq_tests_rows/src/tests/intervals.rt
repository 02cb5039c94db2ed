//! Rows of an interval, of whole files and of views that find them by their numbers, worked out by
//! hand.
ghost use Rattle.std.specs.Prelude.{◌≡◌, ◌<◌, ◌∷◌, [], length, IfOk, OnOk};
ghost use Rattle.std.specs.List.{AllByRecursion};
ghost use Rattle.ncq_midfile.specs.Content.{IsSound};
ghost use Rattle.ncq_midfile.specs.Matching.{HaveSlots};

use super::files::{bring_again, roll, settle};
use super::histories::file_of;
use super::making::{seed, value_rows};
use super::ranges::{ALL, add as add_text};
use super::views::{BACK, BELOW_3, FROM_5, GAP, THREES, add};
use ncq_base::{End, Interval, Steps};
use ncq_midfile::{MidFile, Places, RangeFile, View};
use ncq_row::{Row, Rows};
use std::alloc::{AllocError, Global};
use std::marker::Brand;
use std::sync::ledger::{Blank, Ledger};
use std::test::Fail;

/// Rows with the changes with which they come and go: digits are numbers, and letters texts. The
/// file has at its places: 3 and `a` came with 1; 7 came with 2 and went with 4; 5 came with 5; 3
/// came with 6; `b` came and went with 6; 4 came with 7 and went with 8; 3 came with 9.
const HISTORY: [(u8, u64, u64); 8] = [
    (b'3', 1, 0),
    (b'a', 1, 0),
    (b'7', 2, 4),
    (b'5', 5, 0),
    (b'3', 6, 0),
    (b'b', 6, 6),
    (b'4', 7, 8),
    (b'3', 9, 0),
];

/// An interval, a change, and places.
type Asked = (Interval, u64, &'static [usize]);

/// An interval, a change and the places of the rows of the interval that are left there.
const FOUND: [Asked; 18] = [
    (THREES, 0, &[]),
    (THREES, 1, &[0]),
    (THREES, 5, &[0]),
    (THREES, 6, &[0, 5]),
    (THREES, 7, &[0, 5, 8]),
    (THREES, 8, &[0, 5]),
    (THREES, 9, &[0, 5, 10]),
    // No text lies in an interval.
    (ALL, 1, &[0]),
    (ALL, 2, &[0, 2]),
    (ALL, 4, &[0]),
    (ALL, 9, &[0, 4, 5, 10]),
    (FROM_5, 3, &[2]),
    (FROM_5, 4, &[]),
    (FROM_5, 9, &[4]),
    (GAP, 7, &[8]),
    (GAP, 9, &[]),
    (BELOW_3, 9, &[]),
    (BACK, 9, &[]),
];

/// An interval, a change above which all rows are taken away, and the places of the rows of the
/// interval when 4 has come then.
const AGAIN: [Asked; 8] = [
    (THREES, 0, &[0]),
    (THREES, 1, &[0, 2]),
    (ALL, 1, &[0, 2]),
    (THREES, 5, &[0, 5]),
    (FROM_5, 5, &[4]),
    (THREES, 7, &[0, 5, 8, 9]),
    (GAP, 8, &[10]),
    (BELOW_3, 9, &[]),
];

/// An interval, a change that becomes the base, and the places of the rows of the interval then.
/// The pairs of a row that went and an equal one go from behind, and each time the last rows come
/// to the two places: with 7 the rows are 3, `a`, 3, 4 and 5, with 9 they are 3, `a`, 3, 3 and 5.
const SETTLED: [Asked; 7] = [
    (THREES, 0, &[]),
    (THREES, 4, &[0]),
    (FROM_5, 4, &[]),
    (ALL, 5, &[0, 2]),
    (THREES, 7, &[0, 2, 3]),
    (FROM_5, 7, &[4]),
    (ALL, 9, &[0, 2, 3, 4]),
];

/// Rows with two values, and the changes with which they come and go. The file has at its places:
/// 3 with 1 and 5 with 2 came with 1; 4 with 2 came with 2 and went with 3; 4 with `x` came with 4;
/// 3 with 2 came with 5; 7 with 2 came with 6; 4 with 3 came with 7.
const PAIRS: [(u8, u8, u64, u64); 7] = [
    (b'3', b'1', 1, 0),
    (b'5', b'2', 1, 0),
    (b'4', b'2', 2, 3),
    (b'4', b'x', 4, 0),
    (b'3', b'2', 5, 0),
    (b'7', b'2', 6, 0),
    (b'4', b'3', 7, 0),
];

const ONLY_2: Interval = Interval {
    low: End::Included(2_000_000),
    high: End::Included(2_000_000),
};

/// The interval of a view, that of the second values, a change and the places of the rows of both
/// that are left there.
const WITHIN: [(Interval, Interval, u64, &[usize]); 11] = [
    (THREES, ONLY_2, 1, &[]),
    (THREES, ONLY_2, 2, &[2]),
    (THREES, ONLY_2, 3, &[]),
    (THREES, ONLY_2, 9, &[5]),
    (THREES, BELOW_3, 9, &[0, 5]),
    (THREES, ALL, 7, &[0, 5, 7]),
    (THREES, THREES, 6, &[]),
    (ALL, ONLY_2, 2, &[1, 2]),
    (ALL, ONLY_2, 9, &[1, 5, 6]),
    (FROM_5, ALL, 9, &[1, 6]),
    (BACK, ALL, 9, &[]),
];

/// The numbers that come with 5, in this order.
const LARGE: [&str; 40] = [
    "0", "1", "2", "3", "4", "5", "6", "7", "8", "9", "0", "1", "2", "3", "4", "5", "6", "7", "8",
    "9", "0", "1", "2", "3", "4", "5", "6", "7", "8", "9", "0", "1", "2", "3", "4", "5", "6", "7",
    "8", "9",
];

/// How many of them come, a change, and the places of the rows of `THREES` above it.
const SINCE: [(usize, u64, &[usize]); 7] = [
    (40, 0, &[0, 1, 2, 6, 7, 16, 17, 26, 27, 36, 37]),
    (40, 2, &[2, 6, 7, 16, 17, 26, 27, 36, 37]),
    (40, 4, &[6, 7, 16, 17, 26, 27, 36, 37]),
    (40, 5, &[]),
    // The last row that comes is one of the interval.
    (35, 4, &[6, 7, 16, 17, 26, 27, 36, 37]),
    // A change of few rows.
    (4, 4, &[6]),
    (1, 4, &[]),
];

/// Whether the rows of the interval that are left at the change are at these places.
fn is_found(
    alloc: Global,
    file: &MidFile,
    interval: &Interval,
    n: u64,
    want: &[usize],
) -> Result<bool, AllocError>
    requires sound { IsSound file.now.rows }
    requires wide { HaveSlots (0 ∷ []) file.now.rows }
{
    if n < file.base() {
        return Ok(false);
    }
    let found = file.matching_interval(alloc, 0, interval, n)?;
    Ok(found.as_slice() == want)
}

/// Whether the rows that are left at the change are found, and whether they are where all later
/// rows are taken away.
fn stays_found(
    alloc: Global,
    file: &mut MidFile,
    interval: &Interval,
    n: u64,
    want: &[usize],
) -> Result<bool, AllocError>
    requires sound { IsSound file.old.rows }
    requires one { AllByRecursion (λ r. length r.row ≡ 1) file.old.rows }
    requires wide { HaveSlots (0 ∷ []) file.old.rows }
{
    if n < file.base() {
        return Ok(false);
    }
    let found = is_found(alloc, file, interval, n, want)?;
    roll(file, n);
    let kept = is_found(alloc, file, interval, n, want)?;
    Ok(found && kept)
}

/// Whether the rows are found where all later ones are taken away and 4 comes then.
fn is_found_again<L: Ledger>(
    alloc: Global,
    file: &mut MidFile,
    interval: &Interval,
    n: u64,
    want: &[usize],
    steps: &mut Steps<L>,
) -> Result<bool, AllocError>
    requires sound { IsSound file.old.rows }
    requires one { AllByRecursion (λ r. length r.row ≡ 1) file.old.rows }
{
    if n < file.base() {
        return Ok(false);
    }
    roll(file, n);
    bring_again(alloc, file, b'4', 10, steps)?;
    is_found(alloc, file, interval, 10, want)
}

/// Whether the rows are found where the change is the base.
fn is_settled(
    alloc: Global,
    file: &mut MidFile,
    interval: &Interval,
    n: u64,
    want: &[usize],
) -> Result<bool, AllocError>
    requires sound { IsSound file.old.rows }
    requires one { AllByRecursion (λ r. length r.row ≡ 1) file.old.rows }
{
    if n < file.base() {
        return Ok(false);
    }
    settle(alloc, file, n)?;
    is_found(alloc, file, interval, n, want)
}

/// Whether the rows stay found in a file with the history.
fn stays_in<L: Ledger>(
    alloc: Global,
    asked: &Asked,
    steps: &mut Steps<L>,
) -> Result<bool, AllocError> {
    let mut file = file_of(alloc, &HISTORY, HISTORY.len(), steps)?;
    stays_found(alloc, &mut file, &asked.0, asked.1, asked.2)
}

/// Whether the rows are found again in a file with the history.
fn comes_again_in<L: Ledger>(
    alloc: Global,
    asked: &Asked,
    steps: &mut Steps<L>,
) -> Result<bool, AllocError> {
    let mut file = file_of(alloc, &HISTORY, HISTORY.len(), steps)?;
    is_found_again(alloc, &mut file, &asked.0, asked.1, asked.2, steps)
}

/// Whether the rows are found in a file with the history that is settled.
fn is_settled_in<L: Ledger>(
    alloc: Global,
    asked: &Asked,
    steps: &mut Steps<L>,
) -> Result<bool, AllocError> {
    let mut file = file_of(alloc, &HISTORY, HISTORY.len(), steps)?;
    is_settled(alloc, &mut file, &asked.0, asked.1, asked.2)
}

/// Whether the rows of `FOUND` are found.
fn all_stay<L: Ledger>(alloc: Global, steps: &mut Steps<L>) -> Result<bool, AllocError> {
    let mut right = true;
    for asked in &FOUND {
        right &= stays_in(alloc, asked, steps)?;
    }
    Ok(right)
}

/// Whether the rows of `AGAIN` are found.
fn all_come_again<L: Ledger>(alloc: Global, steps: &mut Steps<L>) -> Result<bool, AllocError> {
    let mut right = true;
    for asked in &AGAIN {
        right &= comes_again_in(alloc, asked, steps)?;
    }
    Ok(right)
}

/// Whether the rows of `SETTLED` are found.
fn all_settled<L: Ledger>(alloc: Global, steps: &mut Steps<L>) -> Result<bool, AllocError> {
    let mut right = true;
    for asked in &SETTLED {
        right &= is_settled_in(alloc, asked, steps)?;
    }
    Ok(right)
}

/// Whether all is found as was worked out.
fn all_found<L: Ledger>(alloc: Global, steps: &mut Steps<L>) -> Result<bool, AllocError> {
    Ok(all_stay(alloc, steps)? && all_come_again(alloc, steps)? && all_settled(alloc, steps)?)
}

/// Whether all is found as was worked out.
fn is_all_found<L: Ledger>(rt: &HostRuntime, blank: Blank) -> Result<bool, AllocError>
    requires name { blank.name ≡ L.name }
    requires parts { blank.parts ≡ L.parts }
    requires some { 0 < L.parts }
{
    let alloc = rt.alloc();
    let mut steps = Steps::<L>::new(rt, blank);
    all_found(alloc, &mut steps)
}

/// The values of one row behind those of the other, where they are two.
fn joined<L: Ledger>(
    alloc: Global,
    left: &Row,
    right: &Row,
    steps: &mut Steps<L>,
) -> Result<Row, AllocError>
    ensures { IfOk result (λ row. length row ≡ 2) }
{
    let row = left.join(alloc, right, steps)?;
    if row.len() != 2 {
        return Err(AllocError);
    }
    Ok(row)
}

/// The row of the value of the digit behind those of the rows, where they are one.
fn with_second<L: Ledger>(
    alloc: Global,
    firsts: &Rows,
    second: u8,
    steps: &mut Steps<L>,
) -> Result<Row, AllocError>
    ensures { IfOk result (λ row. length row ≡ 2) }
{
    let seconds = value_rows(alloc, &[second], steps)?;
    match (firsts.get(0), seconds.get(0)) {
        (Some(left), Some(right)) => joined(alloc, left, right, steps),
        _ => Err(AllocError),
    }
}

/// The row of the values of two digits.
fn pair<L: Ledger>(
    alloc: Global,
    first: u8,
    second: u8,
    steps: &mut Steps<L>,
) -> Result<Row, AllocError>
    ensures { IfOk result (λ row. length row ≡ 2) }
{
    let firsts = value_rows(alloc, &[first], steps)?;
    with_second(alloc, &firsts, second, steps)
}

/// The pair comes with one change and goes with another.
fn add_pair<L: Ledger>(
    alloc: Global,
    file: &mut RangeFile,
    pair: (u8, u8),
    come: u64,
    go: u64,
    steps: &mut Steps<L>,
) -> Result<(), AllocError>
    requires sound { IsSound file.old.rows }
    requires two { AllByRecursion (λ r. length r.row ≡ 2) file.old.rows }
    ensures sound { OnOk result (IsSound file.new.rows) }
    ensures two { OnOk result (AllByRecursion (λ r. length r.row ≡ 2) file.new.rows) }
{
    let row = self::pair(alloc, pair.0, pair.1, steps)?;
    add(alloc, file, &row, come, go, steps)
}

/// The pairs come and go.
fn add_pairs<L: Ledger>(
    alloc: Global,
    file: &mut RangeFile,
    steps: &mut Steps<L>,
) -> Result<(), AllocError>
    requires sound { IsSound file.old.rows }
    requires two { AllByRecursion (λ r. length r.row ≡ 2) file.old.rows }
    ensures sound { OnOk result (IsSound file.new.rows) }
    ensures two { OnOk result (AllByRecursion (λ r. length r.row ≡ 2) file.new.rows) }
{
    for (first, second, come, go) in &PAIRS {
        add_pair(alloc, file, (*first, *second), *come, *go, steps)?;
    }
    Ok(())
}

/// A range file with the pairs.
fn pairs<L: Ledger>(alloc: Global, steps: &mut Steps<L>) -> Result<RangeFile, AllocError>
    ensures sound { IfOk result (λ f. IsSound f.rows) }
    ensures two { IfOk result (λ f. AllByRecursion (λ r. length r.row ≡ 2) f.rows) }
{
    let mut file = RangeFile::new(alloc, seed()?, 0);
    add_pairs(alloc, &mut file, steps)?;
    Ok(file)
}

/// Whether the rows of a view that are left at the change and have a second number of the interval
/// are at these places.
fn is_within(
    alloc: Global,
    file: &RangeFile,
    outer: &Interval,
    interval: &Interval,
    n: u64,
    want: &[usize],
) -> Result<bool, AllocError>
    requires sound { IsSound file.now.rows }
    requires two { AllByRecursion (λ r. length r.row ≡ 2) file.now.rows }
{
    let view = View::Ranged {
        file,
        interval: outer,
        base: 0,
    };
    let places = view.matching_interval(alloc, 1, interval, n)?;
    Ok(places.as_slice() == want)
}

/// How many of the views have the rows that were worked out, up to the first that has not.
fn within(alloc: Global, file: &RangeFile) -> Result<usize, AllocError>
    requires sound { IsSound file.now.rows }
    requires two { AllByRecursion (λ r. length r.row ≡ 2) file.now.rows }
{
    let all = &WITHIN;
    for at in 0..all.len() {
        let (outer, interval, n, want) = all[at];
        if !is_within(alloc, file, &outer, &interval, n, want)? {
            return Ok(at);
        }
    }
    Ok(all.len())
}

/// How many of the views have the rows that were worked out, up to the first that has not.
fn right_pairs<L: Ledger>(rt: &HostRuntime, blank: Blank) -> Result<usize, AllocError>
    requires name { blank.name ≡ L.name }
    requires parts { blank.parts ≡ L.parts }
    requires some { 0 < L.parts }
{
    let mut steps = Steps::<L>::new(rt, blank);
    let file = pairs(rt.alloc(), &mut steps)?;
    within(rt.alloc(), &file)
}

/// 3 comes with 1, 4 comes with 2 and goes with 3.
fn add_few<L: Ledger>(
    alloc: Global,
    file: &mut RangeFile,
    steps: &mut Steps<L>,
) -> Result<(), AllocError> {
    add_text(alloc, file, "3", 1, true, steps)?;
    add_text(alloc, file, "4", 2, true, steps)?;
    add_text(alloc, file, "4", 3, false, steps)
}

/// So many numbers come with 5.
fn add_many<L: Ledger>(
    alloc: Global,
    file: &mut RangeFile,
    count: usize,
    steps: &mut Steps<L>,
) -> Result<(), AllocError> {
    for text in LARGE.iter().take(count) {
        add_text(alloc, file, text, 5, true, steps)?;
    }
    Ok(())
}

/// The places of the rows of `THREES` above the change.
fn threes_since(alloc: Global, file: &RangeFile, n: u64) -> Result<Places, AllocError> {
    let view = View::Ranged {
        file,
        interval: &THREES,
        base: 0,
    };
    view.since(alloc, n)
}

/// Whether these are the places of the rows of `THREES` above the change.
fn are_since(alloc: Global, file: &RangeFile, n: u64, want: &[usize]) -> Result<bool, AllocError> {
    let places = threes_since(alloc, file, n)?;
    Ok(places.as_slice() == want)
}

/// Whether they are in a range file in which 3 came with 1, 4 came with 2 and went with 3, and so
/// many numbers came with 5.
fn are_since_in<L: Ledger>(
    alloc: Global,
    file: &mut RangeFile,
    count: usize,
    n: u64,
    want: &[usize],
    steps: &mut Steps<L>,
) -> Result<bool, AllocError> {
    add_few(alloc, file, steps)?;
    add_many(alloc, file, count, steps)?;
    are_since(alloc, file, n, want)
}

/// How many of the files have the rows above the change that were worked out, up to the first that
/// has not.
fn since<L: Ledger>(alloc: Global, steps: &mut Steps<L>) -> Result<usize, AllocError> {
    let all = &SINCE;
    for at in 0..all.len() {
        let (count, n, want) = all[at];
        let mut file = RangeFile::new(alloc, seed()?, 0);
        if !are_since_in(alloc, &mut file, count, n, want, steps)? {
            return Ok(at);
        }
    }
    Ok(all.len())
}

/// How many of the files have the rows above the change that were worked out, up to the first that
/// has not.
fn right_since<L: Ledger>(rt: &HostRuntime, blank: Blank) -> Result<usize, AllocError>
    requires name { blank.name ≡ L.name }
    requires parts { blank.parts ≡ L.parts }
    requires some { 0 < L.parts }
{
    let mut steps = Steps::<L>::new(rt, blank);
    since(rt.alloc(), &mut steps)
}

#[test]
fn a_file_finds_the_rows_of_an_interval(rt: HostRuntime) -> Result<(), Fail> {
    assert!(rt; is_all_found::<Brand>(&rt, Blank::new(1))?);
    Ok(())
}

#[test]
fn a_view_finds_the_rows_of_two_intervals(rt: HostRuntime) -> Result<(), Fail> {
    let right = right_pairs::<Brand>(&rt, Blank::new(1))?;
    assert_eq!(rt; right, WITHIN.len());
    Ok(())
}

#[test]
fn a_large_change_tells_what_a_small_one_does(rt: HostRuntime) -> Result<(), Fail> {
    let right = right_since::<Brand>(&rt, Blank::new(1))?;
    assert_eq!(rt; right, SINCE.len());
    Ok(())
}
