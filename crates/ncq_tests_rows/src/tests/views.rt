//! Views of a file and of parts of a range file, worked out by hand, and the rows that an interval
//! brings to a range file. Each row has one value, a digit.
ghost use Rattle.std.specs.Prelude.{◌≡◌, ◌<◌, ◌≤◌, length, IfOk, OnOk};
ghost use Rattle.std.specs.List.{AllByRecursion};
ghost use Rattle.ncq_midfile.specs.Content.{IsSound};
ghost use Rattle.ncq_midfile.specs.Made.{gained_at, lost_at};
ghost use Rattle.ncq_midfile.specs.Shown.{shown, rows_below};
ghost use Rattle.ncq_midfile.specs.Views.{HasNumber};

use super::files::key;
use super::histories::{file_of, signed};
use super::making::{seed, value_rows};
use super::ranges::{ALL, fits, has_number, index_if, table_of, told};
use ncq_base::{End, Interval, Steps};
use ncq_midfile::{MidFile, RangeFile, SignedRow, SignedRows, View};
use ncq_row::{Row, RowKey};
use ncq_split::missing_rows;
use std::alloc::{AllocError, Global};
use std::marker::Brand;
use std::sync::ledger::{Blank, Ledger};
use std::test::Fail;

/// Rows with the changes with which they come and go. The file has at its places: 3 came with 1 and
/// with 2, and went with 4; 5 came with 5; 3 came and went with 6; 7 came with 8.
const HISTORY: [(u8, u64, u64); 5] = [
    (b'3', 1, 0),
    (b'3', 2, 4),
    (b'5', 5, 0),
    (b'3', 6, 6),
    (b'7', 8, 0),
];

const ONLY_3: Interval = Interval {
    low: End::Included(3_000_000),
    high: End::Included(3_000_000),
};

pub const THREES: Interval = Interval {
    low: End::Included(3_000_000),
    high: End::Excluded(5_000_000),
};

const TO_3: Interval = Interval {
    low: End::Unbounded,
    high: End::Included(3_000_000),
};

const NEAR_3: Interval = Interval {
    low: End::Excluded(2_999_999),
    high: End::Excluded(5_000_000),
};

pub const BELOW_3: Interval = Interval {
    low: End::Unbounded,
    high: End::Excluded(3_000_000),
};

const FIVES: Interval = Interval {
    low: End::Excluded(3_000_000),
    high: End::Included(5_000_000),
};

const ONLY_5: Interval = Interval {
    low: End::Included(5_000_000),
    high: End::Included(5_000_000),
};

pub const FROM_5: Interval = Interval {
    low: End::Included(5_000_000),
    high: End::Unbounded,
};

const ABOVE_5: Interval = Interval {
    low: End::Excluded(5_000_000),
    high: End::Unbounded,
};

const THREE_TO_FIVE: Interval = Interval {
    low: End::Included(3_000_000),
    high: End::Included(5_000_000),
};

pub const GAP: Interval = Interval {
    low: End::Excluded(3_000_000),
    high: End::Excluded(5_000_000),
};

const INNER: Interval = Interval {
    low: End::Included(3_000_001),
    high: End::Included(4_999_999),
};

pub const BACK: Interval = Interval {
    low: End::Included(5_000_000),
    high: End::Included(3_000_000),
};

/// What shows the file: the whole, or a part of a range file with a base.
pub type Part = Option<(Interval, u64)>;

const WHOLE: Part = None;

/// Views, each with how many rows went out above its base, and its last number.
const LASTS: [(Part, usize, u64); 10] = [
    (WHOLE, 2, 8),
    (Some((ALL, 0)), 2, 8),
    (Some((THREES, 0)), 2, 6),
    (Some((THREES, 3)), 2, 6),
    (Some((THREES, 4)), 1, 6),
    (Some((THREES, 7)), 0, 7),
    (Some((FIVES, 0)), 0, 5),
    (Some((GAP, 0)), 0, 0),
    (Some((GAP, 3)), 0, 3),
    (Some((FROM_5, 0)), 0, 8),
];

/// A view and a change: the places of all rows of the view, those of the rows above the change, how
/// many rows are left at the change, and how many of them are 3.
type Question = (Part, u64, &'static [usize], &'static [usize], usize, usize);

const QUESTIONS: [Question; 19] = [
    (
        WHOLE,
        0,
        &[0, 1, 2, 3, 4, 5, 6],
        &[0, 1, 2, 3, 4, 5, 6],
        0,
        0,
    ),
    (WHOLE, 3, &[0, 1, 2, 3, 4, 5, 6], &[2, 3, 4, 5, 6], 2, 2),
    (WHOLE, 5, &[0, 1, 2, 3, 4, 5, 6], &[4, 5, 6], 2, 1),
    (WHOLE, 9, &[0, 1, 2, 3, 4, 5, 6], &[], 3, 1),
    (Some((ALL, 2)), 5, &[0, 1, 2, 3, 4, 5, 6], &[4, 5, 6], 2, 1),
    // Rows that are 3: the end at 3 is in, or a number a little below it is.
    (
        Some((THREES, 0)),
        0,
        &[0, 1, 2, 4, 5],
        &[0, 1, 2, 4, 5],
        0,
        0,
    ),
    (Some((THREES, 2)), 2, &[0, 1, 2, 4, 5], &[2, 4, 5], 2, 2),
    (Some((ONLY_3, 4)), 5, &[0, 1, 2, 4, 5], &[4, 5], 1, 1),
    (Some((TO_3, 0)), 3, &[0, 1, 2, 4, 5], &[2, 4, 5], 2, 2),
    (Some((NEAR_3, 9)), 9, &[0, 1, 2, 4, 5], &[], 1, 1),
    // The row that is 5.
    (Some((FIVES, 0)), 4, &[3], &[3], 0, 0),
    (Some((FIVES, 5)), 5, &[3], &[], 1, 0),
    (Some((FROM_5, 0)), 5, &[3, 6], &[6], 1, 0),
    (Some((FROM_5, 1)), 8, &[3, 6], &[], 2, 0),
    (Some((ABOVE_5, 1)), 8, &[6], &[], 1, 0),
    // None.
    (Some((GAP, 0)), 9, &[], &[], 0, 0),
    (Some((BELOW_3, 0)), 9, &[], &[], 0, 0),
    (Some((BACK, 0)), 9, &[], &[], 0, 0),
    (Some((INNER, 0)), 9, &[], &[], 0, 0),
];

/// Standing intervals, a new one, a change, and the value, the number and the sign of each row that
/// the new one brings.
type Asked = (
    &'static [Interval],
    Interval,
    u64,
    &'static [(i128, u64, bool)],
);

const MISSING: [Asked; 8] = [
    (&[], THREES, 5, &[(3_000_000, 5, true)]),
    (
        &[],
        FROM_5,
        8,
        &[(5_000_000, 8, true), (7_000_000, 8, true)],
    ),
    // A row that a standing interval has is there.
    (&[FIVES], FROM_5, 9, &[(7_000_000, 9, true)]),
    (&[THREES], TO_3, 9, &[]),
    (&[ONLY_5, ONLY_3], THREE_TO_FIVE, 9, &[]),
    // Each of equal rows is brought.
    (
        &[GAP],
        TO_3,
        3,
        &[(3_000_000, 3, true), (3_000_000, 3, true)],
    ),
    (&[], GAP, 9, &[]),
    (&[], ALL, 0, &[]),
];

/// A row comes in.
fn add_one(file: &mut RangeFile, come: SignedRow) -> Result<(), AllocError>
    requires number { HasNumber file.old.slot come.row }
    requires last { AllByRecursion (λ r. r.number ≤ come.number) file.old.rows }
    requires come { come ≡ gained_at come.number come.row }
    requires sound { IsSound file.old.rows }
    requires wide { AllByRecursion (λ r. length r.row ≡ length come.row) file.old.rows }
    ensures sound { OnOk result (IsSound file.new.rows) }
    ensures wide { OnOk result
        (AllByRecursion (λ r. length r.row ≡ length come.row) file.new.rows) }
{
    file.add(come)
}

/// A row comes in, and goes out not before.
fn add_both(file: &mut RangeFile, come: SignedRow, gone: SignedRow) -> Result<(), AllocError>
    requires number { HasNumber file.old.slot come.row }
    requires last { AllByRecursion (λ r. r.number ≤ come.number) file.old.rows }
    requires later { come.number ≤ gone.number }
    requires come { come ≡ gained_at come.number come.row }
    requires gone { gone ≡ lost_at gone.number come.row }
    requires sound { IsSound file.old.rows }
    requires wide { AllByRecursion (λ r. length r.row ≡ length come.row) file.old.rows }
    ensures sound { OnOk result (IsSound file.new.rows) }
    ensures wide { OnOk result
        (AllByRecursion (λ r. length r.row ≡ length come.row) file.new.rows) }
{
    file.add(come)?;
    file.add(gone)
}

/// The row comes with one change and goes with another, where it does not stay.
pub fn add<L: Ledger>(
    alloc: Global,
    file: &mut RangeFile,
    row: &Row,
    come: u64,
    go: u64,
    steps: &mut Steps<L>,
) -> Result<(), AllocError>
    requires sound { IsSound file.old.rows }
    requires wide { AllByRecursion (λ r. length r.row ≡ length row.now) file.old.rows }
    ensures sound { OnOk result (IsSound file.new.rows) }
    ensures wide { OnOk result
        (AllByRecursion (λ r. length r.row ≡ length row.now) file.new.rows) }
{
    if !has_number(row, file.slot()) || !fits(file, come) {
        return Err(AllocError);
    }
    let first = signed(alloc, come, true, row, steps)?;
    if go < come {
        return add_one(file, first);
    }
    let second = signed(alloc, go, false, row, steps)?;
    add_both(file, first, second)
}

/// The row of the digit comes with one change and goes with another.
fn bring<L: Ledger>(
    alloc: Global,
    file: &mut RangeFile,
    digit: u8,
    come: u64,
    go: u64,
    steps: &mut Steps<L>,
) -> Result<(), AllocError>
    requires sound { IsSound file.old.rows }
    requires one { AllByRecursion (λ r. length r.row ≡ 1) file.old.rows }
    ensures sound { OnOk result (IsSound file.new.rows) }
    ensures one { OnOk result (AllByRecursion (λ r. length r.row ≡ 1) file.new.rows) }
{
    let rows = value_rows(alloc, &[digit], steps)?;
    let Some(row) = rows.get(0) else {
        return Err(AllocError);
    };
    if row.len() != 1 {
        return Err(AllocError);
    }
    add(alloc, file, row, come, go, steps)
}

/// A range file with the history.
pub fn range_of<L: Ledger>(
    alloc: Global,
    history: &[(u8, u64, u64)],
    steps: &mut Steps<L>,
) -> Result<RangeFile, AllocError>
    ensures sound { IfOk result (λ f. IsSound f.rows) }
    ensures one { IfOk result (λ f. AllByRecursion (λ r. length r.row ≡ 1) f.rows) }
{
    let mut file = RangeFile::new(alloc, seed()?, 0);
    for (digit, come, go) in history {
        bring(alloc, &mut file, *digit, *come, *go, steps)?;
    }
    Ok(file)
}

/// The view of the whole file, or of the part of the range file.
pub fn view_of<'a>(whole: &'a MidFile, file: &'a RangeFile, part: &'a Part) -> View<'a>
    requires whole_sound { IsSound whole.now.rows }
    requires whole_one { AllByRecursion (λ r. length r.row ≡ 1) whole.now.rows }
    requires sound { IsSound file.now.rows }
    requires one { AllByRecursion (λ r. length r.row ≡ 1) file.now.rows }
    ensures sound { IsSound (shown result).rows }
    ensures one { AllByRecursion (λ r. length r.row ≡ 1) (rows_below result) }
{
    match part {
        None => View::Whole(whole),
        Some((interval, base)) => View::Ranged {
            file,
            interval,
            base: *base,
        },
    }
}

/// Whether the rows of the view are at these places, and those above the change.
fn has_places(
    alloc: Global,
    view: &View<'_>,
    n: u64,
    places: (&[usize], &[usize]),
) -> Result<bool, AllocError>
    requires { (shown view.now).base ≤ n }
{
    let all = view.places(alloc)?;
    let since = view.since(alloc, n)?;
    Ok(all.as_slice() == places.0 && since.as_slice() == places.1)
}

/// Whether the atom of the key finds these places.
fn is_found_by_atom(
    alloc: Global,
    view: &View<'_>,
    key: &RowKey,
    n: u64,
    places: &[usize],
) -> Result<bool, AllocError>
    requires base { (shown view.now).base ≤ n }
    requires sound { IsSound (shown view.now).rows }
    requires one { AllByRecursion (λ r. length r.row ≡ 1) (rows_below view.now) }
{
    let Some(atom) = key.get(0) else {
        return Ok(true);
    };
    let found = view.matching_atom(alloc, 0, atom.get(), n)?;
    Ok(found.as_slice() == places)
}

/// Whether so many rows are left at the change, and so many of them have the key.
fn has_left(
    alloc: Global,
    view: &View<'_>,
    key: &RowKey,
    n: u64,
    left: (usize, usize),
) -> Result<bool, AllocError>
    requires base { (shown view.now).base ≤ n }
    requires sound { IsSound (shown view.now).rows }
    requires one { AllByRecursion (λ r. length r.row ≡ 1) (rows_below view.now) }
{
    let content = view.content_at(alloc, n)?.len();
    let keyed = view.matching(alloc, &[0], key, n)?;
    let same = is_found_by_atom(alloc, view, key, n, keyed.as_slice())?;
    Ok(same && content == left.0 && keyed.len() == left.1)
}

/// Whether the view answers the question so.
fn is_answered(
    alloc: Global,
    view: &View<'_>,
    key: &RowKey,
    n: u64,
    places: (&[usize], &[usize]),
    left: (usize, usize),
) -> Result<bool, AllocError>
    requires sound { IsSound (shown view.now).rows }
    requires one { AllByRecursion (λ r. length r.row ≡ 1) (rows_below view.now) }
{
    if n < view.base() {
        return Ok(false);
    }
    Ok(has_places(alloc, view, n, places)? && has_left(alloc, view, key, n, left)?)
}

/// Whether the rows have these values, numbers and signs.
fn are_told(
    alloc: Global,
    rows: &SignedRows,
    want: &[(i128, u64, bool)],
) -> Result<bool, AllocError> {
    let mut seen = Vec::new(alloc);
    for signed in rows.as_slice() {
        seen.push(told(signed))?;
    }
    Ok(seen.as_slice() == want)
}

/// Whether the new interval brings these rows of the input.
fn is_brought<L: Ledger>(
    alloc: Global,
    input: &View<'_>,
    standing: &[Interval],
    interval: &Interval,
    n: u64,
    want: &[(i128, u64, bool)],
    steps: &mut Steps<L>,
) -> Result<bool, AllocError>
    requires sound { IsSound (shown input.now).rows }
    requires one { AllByRecursion (λ r. length r.row ≡ 1) (rows_below input.now) }
{
    if n < input.base() {
        return Ok(false);
    }
    let standing = table_of(alloc, standing)?;
    let rows = missing_rows(alloc, &standing, interval, 0, input, n, steps)?;
    are_told(alloc, &rows, want)
}

/// Whether the question is answered as was worked out.
fn is_right<'a>(
    alloc: Global,
    whole: &'a MidFile,
    file: &'a RangeFile,
    key: &RowKey,
    question: &'a Question,
) -> Result<bool, AllocError>
    requires whole_sound { IsSound whole.now.rows }
    requires whole_one { AllByRecursion (λ r. length r.row ≡ 1) whole.now.rows }
    requires sound { IsSound file.now.rows }
    requires one { AllByRecursion (λ r. length r.row ≡ 1) file.now.rows }
{
    let (part, n, all, since, left, keyed) = question;
    let view = view_of(whole, file, part);
    is_answered(alloc, &view, key, *n, (all, since), (*left, *keyed))
}

/// How many of the questions are answered as was worked out, up to the first that is not.
fn answered(
    alloc: Global,
    whole: &MidFile,
    file: &RangeFile,
    key: &RowKey,
) -> Result<usize, AllocError>
    requires whole_sound { IsSound whole.now.rows }
    requires whole_one { AllByRecursion (λ r. length r.row ≡ 1) whole.now.rows }
    requires sound { IsSound file.now.rows }
    requires one { AllByRecursion (λ r. length r.row ≡ 1) file.now.rows }
{
    let all = &QUESTIONS;
    for at in 0..all.len() {
        if !is_right(alloc, whole, file, key, &all[at])? {
            return Ok(at);
        }
    }
    Ok(all.len())
}

/// How many are answered where the range file has an index, or has none.
fn answered_by<L: Ledger>(
    alloc: Global,
    whole: &MidFile,
    file: &mut RangeFile,
    indexed: bool,
    steps: &mut Steps<L>,
) -> Result<usize, AllocError>
    requires whole_sound { IsSound whole.now.rows }
    requires whole_one { AllByRecursion (λ r. length r.row ≡ 1) whole.now.rows }
    requires sound { IsSound file.old.rows }
    requires one { AllByRecursion (λ r. length r.row ≡ 1) file.old.rows }
{
    index_if(alloc, file, indexed)?;
    let key = key(alloc, b'3', steps)?;
    answered(alloc, whole, file, &key)
}

/// How many are answered of the whole file, and of a range file that has the same rows.
fn answered_beside<L: Ledger>(
    alloc: Global,
    whole: &MidFile,
    indexed: bool,
    steps: &mut Steps<L>,
) -> Result<usize, AllocError>
    requires sound { IsSound whole.now.rows }
    requires one { AllByRecursion (λ r. length r.row ≡ 1) whole.now.rows }
{
    let mut file = range_of(alloc, &HISTORY, steps)?;
    answered_by(alloc, whole, &mut file, indexed, steps)
}

/// How many of the questions are answered as was worked out, up to the first that is not: with an
/// index in the range file, or without.
fn right_answers<L: Ledger>(
    rt: &HostRuntime,
    indexed: bool,
    blank: Blank,
) -> Result<usize, AllocError>
    requires name { blank.name ≡ L.name }
    requires parts { blank.parts ≡ L.parts }
    requires some { 0 < L.parts }
{
    let mut steps = Steps::<L>::new(rt, blank);
    let whole = file_of(rt.alloc(), &HISTORY, HISTORY.len(), &mut steps)?;
    answered_beside(rt.alloc(), &whole, indexed, &mut steps)
}

/// How many of the views have such a last number and so many losses, up to the first that has not.
fn lasts(whole: &MidFile, file: &RangeFile) -> usize
    requires whole_sound { IsSound whole.now.rows }
    requires whole_one { AllByRecursion (λ r. length r.row ≡ 1) whole.now.rows }
    requires sound { IsSound file.now.rows }
    requires one { AllByRecursion (λ r. length r.row ≡ 1) file.now.rows }
{
    let all = &LASTS;
    for at in 0..all.len() {
        let (part, minus, last) = all[at];
        let view = view_of(whole, file, &part);
        if view.minus() != minus || view.last() != last {
            return at;
        }
    }
    all.len()
}

/// How many have them of the whole file, and of a range file that has the same rows.
fn lasts_beside<L: Ledger>(
    alloc: Global,
    whole: &MidFile,
    steps: &mut Steps<L>,
) -> Result<usize, AllocError>
    requires sound { IsSound whole.now.rows }
    requires one { AllByRecursion (λ r. length r.row ≡ 1) whole.now.rows }
{
    let file = range_of(alloc, &HISTORY, steps)?;
    Ok(lasts(whole, &file))
}

/// How many of the views have such a last number and so many losses, up to the first that has not.
fn right_lasts<L: Ledger>(rt: &HostRuntime, blank: Blank) -> Result<usize, AllocError>
    requires name { blank.name ≡ L.name }
    requires parts { blank.parts ≡ L.parts }
    requires some { 0 < L.parts }
{
    let mut steps = Steps::<L>::new(rt, blank);
    let whole = file_of(rt.alloc(), &HISTORY, HISTORY.len(), &mut steps)?;
    lasts_beside(rt.alloc(), &whole, &mut steps)
}

/// Whether a new interval brings what was worked out, of the whole file, and of the range file.
fn brings<L: Ledger>(
    alloc: Global,
    whole: &MidFile,
    file: &RangeFile,
    asked: &Asked,
    steps: &mut Steps<L>,
) -> Result<bool, AllocError>
    requires whole_sound { IsSound whole.now.rows }
    requires whole_one { AllByRecursion (λ r. length r.row ≡ 1) whole.now.rows }
    requires sound { IsSound file.now.rows }
    requires one { AllByRecursion (λ r. length r.row ≡ 1) file.now.rows }
{
    let (standing, interval, n, want) = asked;
    for part in [WHOLE, Some((ALL, 0))] {
        let view = view_of(whole, file, &part);
        if !is_brought(alloc, &view, standing, interval, *n, want, steps)? {
            return Ok(false);
        }
    }
    Ok(true)
}

/// How many of the new intervals bring what was worked out, up to the first that does not.
fn brought<L: Ledger>(
    alloc: Global,
    whole: &MidFile,
    file: &RangeFile,
    steps: &mut Steps<L>,
) -> Result<usize, AllocError>
    requires whole_sound { IsSound whole.now.rows }
    requires whole_one { AllByRecursion (λ r. length r.row ≡ 1) whole.now.rows }
    requires sound { IsSound file.now.rows }
    requires one { AllByRecursion (λ r. length r.row ≡ 1) file.now.rows }
{
    let all = &MISSING;
    for at in 0..all.len() {
        if !brings(alloc, whole, file, &all[at], steps)? {
            return Ok(at);
        }
    }
    Ok(all.len())
}

/// How many bring it of the whole file, and of a range file that has the same rows.
fn brought_beside<L: Ledger>(
    alloc: Global,
    whole: &MidFile,
    steps: &mut Steps<L>,
) -> Result<usize, AllocError>
    requires sound { IsSound whole.now.rows }
    requires one { AllByRecursion (λ r. length r.row ≡ 1) whole.now.rows }
{
    let file = range_of(alloc, &HISTORY, steps)?;
    brought(alloc, whole, &file, steps)
}

/// How many of the new intervals bring what was worked out, up to the first that does not, of the
/// whole file, and of a range file that has the same rows.
fn right_missing<L: Ledger>(rt: &HostRuntime, blank: Blank) -> Result<usize, AllocError>
    requires name { blank.name ≡ L.name }
    requires parts { blank.parts ≡ L.parts }
    requires some { 0 < L.parts }
{
    let mut steps = Steps::<L>::new(rt, blank);
    let whole = file_of(rt.alloc(), &HISTORY, HISTORY.len(), &mut steps)?;
    brought_beside(rt.alloc(), &whole, &mut steps)
}

#[test]
fn a_view_answers_for_its_rows_alone(rt: HostRuntime) -> Result<(), Fail> {
    for indexed in [true, false] {
        let right = right_answers::<Brand>(&rt, indexed, Blank::new(1))?;
        assert_eq!(rt; right, QUESTIONS.len());
    }
    Ok(())
}

#[test]
fn a_view_has_a_last_number(rt: HostRuntime) -> Result<(), Fail> {
    let right = right_lasts::<Brand>(&rt, Blank::new(1))?;
    assert_eq!(rt; right, LASTS.len());
    Ok(())
}

#[test]
fn a_new_interval_brings_what_no_other_has(rt: HostRuntime) -> Result<(), Fail> {
    let right = right_missing::<Brand>(&rt, Blank::new(1))?;
    assert_eq!(rt; right, MISSING.len());
    Ok(())
}
