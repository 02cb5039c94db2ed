//! The content of files at each change, worked out by hand, with indexes made at any moment and
//! without.
ghost use Rattle.std.specs.Prelude.{◌≡◌, ◌<◌, ◌≤◌, ◌∷◌, [], length, OnOk};
ghost use Rattle.std.specs.List.{AllByRecursion};
ghost use Rattle.ncq_midfile.specs.Content.{IsSound};
ghost use Rattle.ncq_midfile.specs.Matching.{HaveSlots};

use super::histories::{bring, file_of};
use super::making::value_rows;
use ncq_base::Steps;
use ncq_midfile::{MidFile, Places};
use ncq_row::RowKey;
use std::alloc::{AllocError, Global};
use std::marker::Brand;
use std::mem::size_of;
use std::sync::ledger::{Blank, Ledger};
use std::test::Fail;

/// A file without rows takes no heap, and so many bytes.
const _: () = prove!(size_of::<MidFile>() == 72);

/// A history, how many rows are left at the changes 0 to 5, and how many of them are `a`.
type Worked = (&'static [(u8, u64, u64)], [usize; 6], [usize; 6]);

const HISTORIES: [Worked; 14] = [
    (&[], [0; 6], [0; 6]),
    (&[(b'a', 1, 0)], [0, 1, 1, 1, 1, 1], [0, 1, 1, 1, 1, 1]),
    // It comes with 1 and goes with 2.
    (&[(b'a', 1, 2)], [0, 1, 0, 0, 0, 0], [0, 1, 0, 0, 0, 0]),
    // It comes, goes and comes again, also within one change.
    (
        &[(b'a', 1, 2), (b'a', 3, 0)],
        [0, 1, 0, 1, 1, 1],
        [0, 1, 0, 1, 1, 1],
    ),
    (
        &[(b'a', 2, 2), (b'a', 2, 0)],
        [0, 0, 1, 1, 1, 1],
        [0, 0, 1, 1, 1, 1],
    ),
    (&[(b'a', 3, 3)], [0; 6], [0; 6]),
    // Of equal rows one goes.
    (
        &[(b'a', 1, 0), (b'a', 1, 2)],
        [0, 2, 1, 1, 1, 1],
        [0, 2, 1, 1, 1, 1],
    ),
    (
        &[(b'a', 1, 0), (b'a', 1, 0), (b'a', 2, 3)],
        [0, 2, 3, 2, 2, 2],
        [0, 2, 3, 2, 2, 2],
    ),
    (
        &[(b'a', 1, 0), (b'a', 2, 4), (b'a', 5, 5)],
        [0, 1, 2, 2, 1, 1],
        [0, 1, 2, 2, 1, 1],
    ),
    // Another row stays.
    (
        &[(b'b', 1, 0), (b'a', 1, 2)],
        [0, 2, 1, 1, 1, 1],
        [0, 1, 0, 0, 0, 0],
    ),
    (
        &[(b'a', 1, 0), (b'b', 1, 2), (b'b', 3, 0)],
        [0, 2, 1, 2, 2, 2],
        [0, 1, 1, 1, 1, 1],
    ),
    (
        &[(b'a', 1, 2), (b'b', 2, 3), (b'a', 3, 4), (b'b', 5, 0)],
        [0, 1, 1, 1, 0, 1],
        [0, 1, 0, 1, 0, 0],
    ),
    // With `a` stand many rows, those that went too.
    (
        &[
            (b'a', 1, 0),
            (b'a', 1, 0),
            (b'a', 1, 0),
            (b'a', 1, 0),
            (b'a', 1, 0),
            (b'a', 2, 2),
            (b'a', 2, 3),
            (b'b', 3, 0),
            (b'a', 3, 0),
            (b'a', 3, 0),
            (b'a', 4, 5),
            (b'a', 5, 0),
        ],
        [0, 5, 6, 8, 9, 9],
        [0, 5, 6, 7, 8, 8],
    ),
    // No row has the letter.
    (&[(b'b', 1, 0), (b'c', 2, 4)], [0, 1, 2, 2, 1, 1], [0; 6]),
];

/// Takes away all later rows.
pub fn roll(file: &mut MidFile, n: u64)
    requires base { file.old.base ≤ n }
    requires sound { IsSound file.old.rows }
    requires one { AllByRecursion (λ r. length r.row ≡ 1) file.old.rows }
    ensures base { file.new.base ≡ file.old.base }
    ensures last { AllByRecursion (λ r. r.number ≤ n) file.new.rows }
    ensures sound { IsSound file.new.rows }
    ensures one { AllByRecursion (λ r. length r.row ≡ 1) file.new.rows }
    ensures wide { HaveSlots (0 ∷ []) file.new.rows }
{
    file.roll_back(n);
}

/// Takes away all later rows, and makes the change the base.
pub fn settle(alloc: Global, file: &mut MidFile, n: u64) -> Result<(), AllocError>
    requires base { file.old.base ≤ n }
    requires sound { IsSound file.old.rows }
    requires one { AllByRecursion (λ r. length r.row ≡ 1) file.old.rows }
    ensures sound { OnOk result (IsSound file.new.rows) }
    ensures wide { OnOk result (HaveSlots (0 ∷ []) file.new.rows) }
{
    roll(file, n);
    file.compact(alloc, n)
}

/// A row of the letter comes at last, and stays.
pub fn bring_again<L: Ledger>(
    alloc: Global,
    file: &mut MidFile,
    letter: u8,
    number: u64,
    steps: &mut Steps<L>,
) -> Result<(), AllocError>
    requires sound { IsSound file.old.rows }
    requires one { AllByRecursion (λ r. length r.row ≡ 1) file.old.rows }
    ensures sound { OnOk result (IsSound file.new.rows) }
    ensures wide { OnOk result (HaveSlots (0 ∷ []) file.new.rows) }
{
    bring(alloc, file, letter, number, 0, steps)
}

/// The key of the rows with this letter.
pub fn key<L: Ledger>(
    alloc: Global,
    letter: u8,
    steps: &mut Steps<L>,
) -> Result<RowKey, AllocError> {
    let mut key = RowKey::new(alloc);
    let rows = value_rows(alloc, &[letter], steps)?;
    if let Some(row) = rows.get(0) {
        if row.len() > 0 {
            key.push(row.slot_atom(0)?)?;
        }
    }
    Ok(key)
}

/// The places that the atom of the key finds, where they are not these.
fn other_places(
    alloc: Global,
    file: &MidFile,
    key: &RowKey,
    n: u64,
    places: &[usize],
) -> Result<Option<Places>, AllocError>
    requires base { file.now.base ≤ n }
    requires sound { IsSound file.now.rows }
    requires wide { HaveSlots (0 ∷ []) file.now.rows }
{
    let Some(atom) = key.get(0) else {
        return Ok(None);
    };
    let found = file.matching_atom(alloc, 0, atom.get(), n)?;
    if found.as_slice() == places {
        return Ok(None);
    }
    Ok(Some(found))
}

/// How many rows are left, and the places of those with the key: 99, and the places that its atom
/// finds, where they are others.
fn keyed(
    alloc: Global,
    file: &MidFile,
    key: &RowKey,
    n: u64,
    all: usize,
) -> Result<(usize, Places), AllocError>
    requires base { file.now.base ≤ n }
    requires sound { IsSound file.now.rows }
    requires wide { HaveSlots (0 ∷ []) file.now.rows }
{
    let places = file.matching(alloc, &[0], key, n)?;
    match other_places(alloc, file, key, n, places.as_slice())? {
        Some(found) => Ok((99, found)),
        None => Ok((all, places)),
    }
}

/// How many rows are left at a change, and the places of those with the key.
fn left(alloc: Global, file: &MidFile, key: &RowKey, n: u64) -> Result<(usize, Places), AllocError>
    requires sound { IsSound file.now.rows }
    requires wide { HaveSlots (0 ∷ []) file.now.rows }
{
    if n < file.base() {
        return Ok((99, Places::new(alloc)));
    }
    let all = file.content_at(alloc, n)?.len();
    keyed(alloc, file, key, n, all)
}

/// Whether so many rows are left at the change, and these places have the key.
fn is_left_now(
    alloc: Global,
    file: &MidFile,
    key: &RowKey,
    n: u64,
    want: (usize, &[usize]),
) -> Result<bool, AllocError>
    requires sound { IsSound file.now.rows }
    requires wide { HaveSlots (0 ∷ []) file.now.rows }
{
    let (all, places) = left(alloc, file, key, n)?;
    Ok(all == want.0 && places.as_slice() == want.1)
}

/// How many rows are left where an index is made, and whether these places have the key then.
fn left_indexed(
    alloc: Global,
    file: &mut MidFile,
    key: &RowKey,
    n: u64,
    want: &[usize],
) -> Result<(usize, bool), AllocError>
    requires sound { IsSound file.old.rows }
    requires wide { HaveSlots (0 ∷ []) file.old.rows }
    ensures { file.new ≡ file.old }
{
    file.ensure_index(alloc, &[0])?;
    let (all, places) = left(alloc, file, key, n)?;
    Ok((all, places.as_slice() == want))
}

/// Whether so many rows are left at the change, and these places have the key: as the file is,
/// where an index is made then, and where all later rows are taken away.
fn is_left(
    alloc: Global,
    file: &mut MidFile,
    key: &RowKey,
    n: u64,
    want: (usize, &[usize]),
) -> Result<bool, AllocError>
    requires sound { IsSound file.old.rows }
    requires one { AllByRecursion (λ r. length r.row ≡ 1) file.old.rows }
    requires wide { HaveSlots (0 ∷ []) file.old.rows }
{
    let now = is_left_now(alloc, file, key, n, want)?;
    let (indexed, same) = left_indexed(alloc, file, key, n, want.1)?;
    if n < file.base() {
        return Ok(false);
    }
    roll(file, n);
    let cut = is_left_now(alloc, file, key, n, want)?;
    Ok(now && indexed == want.0 && same && cut)
}

/// Whether the file has so many rows, and so many with the key, where all later rows are taken away
/// and the change is the base: as it is then, and where an index is made then.
fn is_kept(
    alloc: Global,
    file: &mut MidFile,
    key: &RowKey,
    n: u64,
    want: (usize, usize),
) -> Result<bool, AllocError>
    requires sound { IsSound file.old.rows }
    requires one { AllByRecursion (λ r. length r.row ≡ 1) file.old.rows }
{
    if n < file.base() {
        return Ok(false);
    }
    settle(alloc, file, n)?;
    let (all, places) = left(alloc, file, key, n)?;
    let (indexed, same) = left_indexed(alloc, file, key, n, places.as_slice())?;
    Ok(file.base() == n && all == want.0 && indexed == want.0 && places.len() == want.1 && same)
}

/// Whether one row more has the key where all later rows of an indexed file are taken away and a
/// row with the key comes then: before the index has it, and when it does.
fn comes_again<L: Ledger>(
    alloc: Global,
    file: &mut MidFile,
    key: &RowKey,
    n: u64,
    want: usize,
    steps: &mut Steps<L>,
) -> Result<bool, AllocError>
    requires sound { IsSound file.old.rows }
    requires one { AllByRecursion (λ r. length r.row ≡ 1) file.old.rows }
    requires wide { HaveSlots (0 ∷ []) file.old.rows }
{
    if n < file.base() {
        return Ok(false);
    }
    file.ensure_index(alloc, &[0])?;
    roll(file, n);
    bring_again(alloc, file, b'a', 6, steps)?;
    let (_, places) = left(alloc, file, key, 6)?;
    let (_, same) = left_indexed(alloc, file, key, 6, places.as_slice())?;
    Ok(places.len() == want && same)
}

/// A history, and how many of its rows that come find no index yet.
type Past<'a> = (&'a [(u8, u64, u64)], usize);

/// Whether the file of the past leaves so many rows and these places.
fn leaves_places<L: Ledger>(
    alloc: Global,
    past: Past<'_>,
    key: &RowKey,
    n: u64,
    want: (usize, &[usize]),
    steps: &mut Steps<L>,
) -> Result<bool, AllocError> {
    let mut file = file_of(alloc, past.0, past.1, steps)?;
    is_left(alloc, &mut file, key, n, want)
}

/// Whether the file of the past keeps so many rows.
fn keeps_rows<L: Ledger>(
    alloc: Global,
    past: Past<'_>,
    key: &RowKey,
    n: u64,
    want: (usize, usize),
    steps: &mut Steps<L>,
) -> Result<bool, AllocError> {
    let mut file = file_of(alloc, past.0, past.1, steps)?;
    is_kept(alloc, &mut file, key, n, want)
}

/// Whether one row more comes again in the file of the past.
fn brings_again<L: Ledger>(
    alloc: Global,
    past: Past<'_>,
    key: &RowKey,
    n: u64,
    want: usize,
    steps: &mut Steps<L>,
) -> Result<bool, AllocError> {
    let mut file = file_of(alloc, past.0, past.1, steps)?;
    comes_again(alloc, &mut file, key, n, want, steps)
}

/// Whether a history leaves so many rows and these places, with an index from any moment on.
fn leaves_indexed<L: Ledger>(
    alloc: Global,
    history: &[(u8, u64, u64)],
    key: &RowKey,
    n: u64,
    want: (usize, &[usize]),
    steps: &mut Steps<L>,
) -> Result<bool, AllocError> {
    let (all, count) = (want.0, want.1.len());
    let mut right = true;
    for moment in 0..=history.len() {
        let past = (history, moment);
        right = right && leaves_places(alloc, past, key, n, want, steps)?;
        right = right && keeps_rows(alloc, past, key, n, (all, count), steps)?;
        right = right && brings_again(alloc, past, key, n, count.saturating_add(1), steps)?;
    }
    Ok(right)
}

/// How many rows a history leaves, and the places of those with the key, without an index.
fn plainly_left<L: Ledger>(
    alloc: Global,
    history: &[(u8, u64, u64)],
    key: &RowKey,
    n: u64,
    steps: &mut Steps<L>,
) -> Result<(usize, Places), AllocError> {
    let plain = file_of(alloc, history, history.len(), steps)?;
    left(alloc, &plain, key, n)
}

/// Whether a history leaves what was worked out, with an index from any moment on and without.
fn leaves_keyed<L: Ledger>(
    alloc: Global,
    history: &[(u8, u64, u64)],
    key: &RowKey,
    n: u64,
    want: (usize, usize),
    steps: &mut Steps<L>,
) -> Result<bool, AllocError> {
    let (all, places) = plainly_left(alloc, history, key, n, steps)?;
    let right = all == want.0 && places.len() == want.1;
    Ok(right && leaves_indexed(alloc, history, key, n, (all, places.as_slice()), steps)?)
}

/// Whether a history leaves what was worked out of the rows that are `a`.
fn leaves<L: Ledger>(
    alloc: Global,
    history: &[(u8, u64, u64)],
    n: u64,
    want: (usize, usize),
    steps: &mut Steps<L>,
) -> Result<bool, AllocError> {
    let key = key(alloc, b'a', steps)?;
    leaves_keyed(alloc, history, &key, n, want, steps)
}

/// Whether the history leaves what was worked out at each change.
fn is_right<L: Ledger>(
    alloc: Global,
    worked: &Worked,
    steps: &mut Steps<L>,
) -> Result<bool, AllocError> {
    let (history, all, keyed) = worked;
    for n in 0..6usize {
        if !leaves(alloc, history, n as u64, (all[n], keyed[n]), steps)? {
            return Ok(false);
        }
    }
    Ok(true)
}

/// Whether each history leaves what was worked out.
fn are_right<L: Ledger>(alloc: Global, steps: &mut Steps<L>) -> Result<bool, AllocError> {
    for worked in &HISTORIES {
        if !is_right(alloc, worked, steps)? {
            return Ok(false);
        }
    }
    Ok(true)
}

/// Whether each history leaves what was worked out.
fn are_left<L: Ledger>(rt: &HostRuntime, blank: Blank) -> Result<bool, AllocError>
    requires name { blank.name ≡ L.name }
    requires parts { blank.parts ≡ L.parts }
    requires some { 0 < L.parts }
{
    let mut steps = Steps::<L>::new(rt, blank);
    are_right(rt.alloc(), &mut steps)
}

#[test]
fn a_history_leaves_the_rows_that_did_not_go(rt: HostRuntime) -> Result<(), Fail> {
    assert!(rt; are_left::<Brand>(&rt, Blank::new(1))?);
    Ok(())
}
