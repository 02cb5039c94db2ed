//! The rows that are left at a change.
ghost use Rattle.std.specs.Prelude.{◌≡◌, ◌+◌, ◌-◌, ◌<◌, ◌≤◌, ◌^◌, ◌++◌, [], ◌∷◌, length, take};
ghost use Rattle.std.specs.Prelude.{drop, IfOk, OnOk, cond, false, ◌&&◌};
ghost use Rattle.std.specs.List.{range_with_len, All};
ghost use Rattle.ncq_midfile.specs.Content.{up_to, since, rows_at, signed_at, IsPart, IsBalanced};
ghost use Rattle.ncq_midfile.specs.Content.{IsContent, IsLeft, IsSoundAt, AreGains, AreRising};
ghost use Rattle.ncq_midfile.specs.Files.{AreParted};
ghost use Rattle.ncq_midfile.specs.LossCounts.{is_row, loss_count, has_sign, CountsOf, IsStrike};

use crate::signed::{Places, SignedRow};
use indexmap::IndexMap;
use ncq_row::Row;
use std::alloc::{AllocError, Global};
use std::hash::RandomState;

/// How many of the last rows are looked at one by one.
const NEAR: usize = 16;

/// How many of the rows have numbers up to `n`: the last ones are looked at one by one, and where
/// there are many behind them the place is found by halves.
pub(crate) fn count_up_to(rows: &[SignedRow], n: u64) -> usize
    requires { AreParted n rows.now }
    ensures within { result ≤ length rows.now }
    ensures front { up_to n rows.now ≡ take result rows.now }
    ensures back { since n rows.now ≡ drop result rows.now }
{
    let mut kept = rows.len();
    for _ in 0..NEAR {
        if kept == 0 || rows[kept - 1].number <= n {
            return kept;
        }
        kept -= 1;
    }
    rows[..kept].partition_point(|signed| signed.number <= n)
}

/// The first places.
#[tactic(auto, using(crate::proofs::Parts::range_push))]
pub(crate) fn first_places(alloc: Global, count: usize) -> Result<Places, AllocError>
    ensures { IfOk result (λ places. places ≡ range_with_len 0 count) }
{
    let mut places = Places::new(alloc);
    for place in 0..count {
        places.push(place)?;
    }
    Ok(places)
}

/// So many places from one on.
pub(crate) fn places_from(alloc: Global, from: usize, count: usize) -> Result<Places, AllocError>
    requires { from + count < 2 ^ 64 }
    ensures { IfOk result (λ places. places ≡ range_with_len from count) }
{
    let mut places = Places::new(alloc);
    for at in 0..count {
        places.push(from + at)?;
    }
    Ok(places)
}

/// The places of the rows that are left at `n`.
pub(crate) fn content_of(
    alloc: Global,
    seed: RandomState,
    rows: &[SignedRow],
    n: u64,
) -> Result<Places, AllocError>
    requires parted { AreParted n rows.now }
    requires sound { IsSoundAt n rows.now }
    ensures rising { IfOk result (λ places. AreRising 0 places) }
    ensures gains { IfOk result (λ places. AreGains rows.now places) }
    ensures within { IfOk result (λ places. All (λ place. place < length rows.now) places) }
    ensures early { IfOk result (λ places.
        All (λ place. place < length (up_to n rows.now)) places) }
    ensures content { IfOk result (λ places. IsContent n rows.now (rows_at places rows.now)) }
{
    let all = first_places(alloc, count_up_to(rows, n))?;
    let left = left_over(alloc, seed, rows, all.as_slice())?;
    Ok(left)
}

/// The places of the rows that came in and are left after each row that went out has struck out an
/// equal one. Rows are counted in a table under the seed.
pub(crate) fn left_over(
    alloc: Global,
    seed: RandomState,
    rows: &[SignedRow],
    candidates: &[usize],
) -> Result<Places, AllocError>
    requires within { All (λ place. place < length rows.now) candidates.now }
    requires balanced { IsBalanced (signed_at candidates.now rows.now) }
    ensures part { IfOk result (λ left. IsPart left candidates.now) }
    ensures gains { IfOk result (λ left. AreGains rows.now left) }
    ensures within { IfOk result (λ left. All (λ place. place < length rows.now) left) }
    ensures counts { IfOk result (λ left. IsLeft left candidates.now rows.now) }
{
    let mut lost = counts_of(alloc, seed, rows, candidates, false)?;
    let mut left = Places::new(alloc);
    for place in candidates {
        let kept = stays(&mut lost, &rows[*place]);
        push_where(&mut left, *place, kept)?;
    }
    Ok(left)
}

/// Adds the place where it is wanted.
pub(crate) fn push_where(places: &mut Places, place: usize, wanted: bool) -> Result<(), AllocError>
    ensures { OnOk result (places.new ≡ places.old ++ cond wanted (place ∷ []) []) }
{
    if wanted {
        return places.push(place);
    }
    Ok(())
}

/// How often each row came in, or how often it went out, in a table under the seed.
pub(crate) fn counts_of<'a>(
    alloc: Global,
    seed: RandomState,
    rows: &'a [SignedRow],
    candidates: &[usize],
    plus: bool,
) -> Result<IndexMap<&'a Row, u64, RandomState>, AllocError>
    requires { All (λ place. place < length rows.now) candidates.now }
    ensures { IfOk result (λ counts. CountsOf plus (signed_at candidates.now rows.now)
        counts.entries) }
{
    let mut counts = IndexMap::with_hasher(alloc, seed);
    for place in candidates {
        note_sign(&mut counts, &rows[*place], plus)?;
    }
    Ok(counts)
}

/// Counts the row once more, if it came in, or if it went out.
fn note_sign<'a>(
    counts: &mut IndexMap<&'a Row, u64, RandomState>,
    signed: &'a SignedRow,
    plus: bool,
) -> Result<(), AllocError>
    requires { loss_count signed.now.row counts.old.entries < 2 ^ 64 - 1 }
    ensures { OnOk result ((q : _) → loss_count q counts.new.entries
        ≡ loss_count q counts.old.entries
        + cond (has_sign plus signed.now && is_row q signed.now.row) 1 0) }
{
    if signed.plus != plus {
        return Ok(());
    }
    add_loss(counts, &signed.row)
}

/// Whether the row came in and stays; a row that came in and was lost takes one of its losses away.
fn stays<'a>(lost: &mut IndexMap<&'a Row, u64, RandomState>, signed: &'a SignedRow) -> bool
    ensures { (q : _) → IsStrike (is_row q signed.now.row) signed.now.plus result
        (loss_count q lost.old.entries) (loss_count q lost.new.entries) }
{
    if !signed.plus {
        return false;
    }
    !take_loss(lost, &signed.row)
}

/// One more loss of the row.
fn add_loss<'a>(
    lost: &mut IndexMap<&'a Row, u64, RandomState>,
    row: &'a Row,
) -> Result<(), AllocError>
    requires { loss_count row.now lost.old.entries < 2 ^ 64 - 1 }
    ensures { OnOk result ((q : _) → loss_count q lost.new.entries
        ≡ loss_count q lost.old.entries + cond (is_row q row.now) 1 0) }
{
    if let Some(count) = lost.get_mut(&row) {
        *count += 1;
        return Ok(());
    }
    lost.insert(row, 1)?;
    Ok(())
}

/// Takes one loss of the row away, if there is one.
pub(crate) fn take_loss<'a>(lost: &mut IndexMap<&'a Row, u64, RandomState>, row: &'a Row) -> bool
    ensures none { result ≡ false → loss_count row.now lost.old.entries ≡ 0 }
    ensures counts { (q : _) → loss_count q lost.new.entries + cond (result && is_row q row.now) 1 0
        ≡ loss_count q lost.old.entries }
{
    let Some(count) = lost.get_mut(&row) else {
        return false;
    };
    if *count == 0 {
        return false;
    }
    *count -= 1;
    true
}
