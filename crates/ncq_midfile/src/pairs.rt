//! The rows that went out since a base, and the rows that they strike out.
ghost use Rattle.std.specs.Prelude.{◌≡◌, ◌++◌, ◌<◌, ◌≤◌, true, false, not, length, drop, slice_get};
ghost use Rattle.std.specs.Prelude.{Some, IfOk, IfSome, OnOk, IsTrue};
ghost use Rattle.std.specs.List.{All};
ghost use Rattle.ncq_base.specs.Counts.{SameCounts};
ghost use Rattle.ncq_midfile.specs.Content.{AreRising, AreGains, rows_at};
ghost use Rattle.ncq_midfile.specs.Files.{IsFile};
ghost use Rattle.ncq_midfile.specs.Finders.{AreFinders};
ghost use Rattle.ncq_midfile.specs.Matching.{places_where};
ghost use Rattle.ncq_midfile.specs.Pairs.{ArePairs, HaveAll};
ghost use Rattle.ncq_midfile.specs.declared.signed.SignedRow.{SignedRow as a_signed_row};

use crate::content::{count_up_to, push_where};
use crate::finder::Finder;
use crate::index::Index;
use crate::signed::{Places, SignedRow};
use crate::whole::{fill_whole, find_whole};
use indexmap::IndexMap;
use ncq_row::Row;
use std::alloc::{AllocError, Global};
use std::hash::RandomState;

/// The places of all rows that went out and of an equal row that came in for each, found by the
/// index of whole rows, where all finders then have all rows. Where there is no such index, as in a
/// file that is not large, or no such row, there is no answer.
pub(crate) fn pairs(
    alloc: Global,
    seed: RandomState,
    rows: &[SignedRow],
    finders: &mut Vec<Finder>,
    base: u64,
) -> Result<Option<Places>, AllocError>
    requires finders { AreFinders finders.old.items rows.now }
    requires file { IsFile base rows.now }
    ensures finders { AreFinders finders.new.items rows.now }
    ensures full { IfOk result (λ o. IfSome o (λ _. HaveAll finders.new.items rows.now)) }
    ensures rising { IfOk result (λ o. IfSome o (λ places. AreRising 0 places)) }
    ensures within { IfOk result (λ o. IfSome o (λ places.
        All (λ place. place < length rows.now) places)) }
    ensures pairs { IfOk result (λ o. IfSome o (λ places. ArePairs places rows.now)) }
{
    if !fill_whole(alloc, seed, finders, rows)? {
        return Ok(None);
    }
    let Some(whole) = find_whole(finders.as_slice(), rows) else {
        return Ok(None);
    };
    let settled = count_up_to(rows, base);
    let mut lost = Places::new(alloc);
    push_lost(&mut lost, rows, settled)?;
    let Some(found) = partners(alloc, rows, whole, lost.as_slice())? else {
        return Ok(None);
    };
    in_order(lost, found, rows.len())
}

/// Adds the places of the rows that went out, from one place on.
fn push_lost(places: &mut Places, rows: &[SignedRow], from: usize) -> Result<(), AllocError>
    requires { from ≤ length rows.now }
    ensures { OnOk result (places.new ≡ places.old
        ++ places_where (λ r. not r.plus) from (drop from rows.now)) }
{
    for at in from..rows.len() {
        push_where(places, at, !rows[at].plus)?;
    }
    Ok(())
}

/// A place of an equal row that came in for each of the places.
fn partners(
    alloc: Global,
    rows: &[SignedRow],
    index: &Index,
    lost: &[usize],
) -> Result<Option<Places>, AllocError>
    requires { All (λ place. place < length rows.now) lost.now }
    ensures within { IfOk result (λ o. IfSome o (λ found.
        All (λ place. place < length rows.now) found)) }
    ensures gains { IfOk result (λ o. IfSome o (λ found. AreGains rows.now found)) }
    ensures alike { IfOk result (λ o. IfSome o (λ found.
        rows_at found rows.now ≡ rows_at lost.now rows.now)) }
{
    let mut found = Places::new(alloc);
    let mut starts = IndexMap::new(alloc);
    for place in lost {
        let Some(hash) = index.hash(*place) else {
            return Ok(None);
        };
        let row = &rows[*place].row;
        let Some(partner) = next_partner(rows, index, row, hash, &mut starts)? else {
            return Ok(None);
        };
        found.push(partner)?;
    }
    Ok(Some(found))
}

/// The next place of the hash at which an equal row stands that came in. The table has for each
/// hash the place from which on none is found yet; rows whose hashes meet share it, and may miss a
/// place by that.
fn next_partner(
    rows: &[SignedRow],
    index: &Index,
    row: &Row,
    hash: u64,
    starts: &mut IndexMap<u64, usize>,
) -> Result<Option<usize>, AllocError>
    ensures within { IfOk result (λ o. IfSome o (λ place. place < length rows.now)) }
    ensures like { IfOk result (λ o. IfSome o (λ place. (r : a_signed_row)
        × (slice_get rows.now place ≡ Some r) × (r.plus ≡ true) × (r.row ≡ row.now))) }
{
    let from = starts.get(&hash).copied().unwrap_or(0);
    let Some(partner) = first_partner(rows, index, row, hash, from) else {
        return Ok(None);
    };
    starts.insert(hash, partner + 1)?;
    Ok(Some(partner))
}

/// The first place from one on, among those of the hash, at which an equal row stands that came in.
fn first_partner(
    rows: &[SignedRow],
    index: &Index,
    row: &Row,
    hash: u64,
    from: usize,
) -> Option<usize>
    ensures within { IfSome result (λ place. place < length rows.now) }
    ensures like { IfSome result (λ place. (r : a_signed_row)
        × (slice_get rows.now place ≡ Some r) × (r.plus ≡ true) × (r.row ≡ row.now)) }
{
    let mut next = from;
    while let Some(place) = index.first_place(hash, next) {
        if place >= rows.len() {
            return None;
        }
        if is_partner(&rows[place], row) {
            return Some(place);
        }
        next = place + 1;
    }
    None
}

/// Whether the signed row came in and is the row.
pub(crate) fn is_partner(signed: &SignedRow, row: &Row) -> bool
    ensures is { IsTrue result → (signed.now.plus ≡ true) × (signed.now.row ≡ row.now) }
    ensures none { result ≡ false → signed.now.plus ≡ true → signed.now.row ≡ row.now → ⊥ }
{
    signed.plus && signed.row == *row
}

/// The places of both lists, rising, if there is none twice.
fn in_order(lost: Places, found: Places, count: usize) -> Result<Option<Places>, AllocError>
    ensures rising { IfOk result (λ o. IfSome o (λ places. AreRising 0 places)) }
    ensures within { IfOk result (λ o. IfSome o (λ places. All (λ place. place < count) places)) }
    ensures same { IfOk result (λ o. IfSome o (λ places. SameCounts places (lost ++ found))) }
{
    let mut both = lost;
    both.append(found)?;
    let mut places = both.into_vec();
    places.sort_unstable();
    if !are_rising(places.as_slice(), count) {
        return Ok(None);
    }
    Ok(Some(Places::from_vec(places)))
}

/// Whether each place is above the one before, and below the count.
fn are_rising(places: &[usize], count: usize) -> bool
    ensures rising { IsTrue result → AreRising 0 places.now }
    ensures within { IsTrue result → All (λ place. place < count) places.now }
{
    let mut low = 0;
    for place in places {
        if *place < low || *place >= count {
            return false;
        }
        low = *place + 1;
    }
    true
}
