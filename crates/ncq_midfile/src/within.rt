//! The rows that have a number of an interval.
ghost use Rattle.std.specs.Prelude.{◌≡◌, ◌++◌, ◌∷◌, [], ◌<◌, ◌≤◌, List, length, drop, take};
ghost use Rattle.std.specs.Prelude.{filter, IfOk, OnOk};
ghost use Rattle.std.specs.List.{All};
ghost use Rattle.ncq_base.specs.Counts.{SameCounts};
ghost use Rattle.ncq_row.specs.Embeddings.{Row as a_row};
ghost use Rattle.ncq_midfile.specs.Content.{IsContent, IsSoundAt, rows_at, AreRising, AreGains};
ghost use Rattle.ncq_midfile.specs.Content.{since, signed_at};
ghost use Rattle.ncq_midfile.specs.Files.{AreNumbered};
ghost use Rattle.ncq_midfile.specs.Finders.{AreFinders};
ghost use Rattle.ncq_midfile.specs.Matching.{HaveSlots, has_key, places_where, chosen};
ghost use Rattle.ncq_midfile.specs.Orders.{IsOrder};
ghost use Rattle.ncq_midfile.specs.Ranged.{is_early};
ghost use Rattle.ncq_midfile.specs.Views.{is_within, of_rows, IsContentOf};

use crate::content::{count_up_to, left_over, push_where};
use crate::counts::last_number;
use crate::finder::{Finder, find_order};
use crate::key::KeyAtom;
use crate::matching::wanted_places;
use crate::order::{Order, push_ordered};
use crate::signed::{Places, SignedRow};
use ncq_base::{Interval, in_interval};
use ncq_row::Row;
use std::alloc::{AllocError, Global};
use std::hash::RandomState;

/// Whether the row has a number of the interval in the slot.
pub(crate) fn is_within(row: &Row, slot: usize, interval: &Interval) -> bool
    ensures { result ≡ is_within slot interval.now row.now }
{
    slot < row.len() && in_interval(interval, row.atom(slot))
}

/// The places of the rows of the interval with numbers above `n`. Only rows above `n` are looked
/// at, or of those the rows of the interval, where it has few numbers.
pub(crate) fn since_within(
    alloc: Global,
    rows: &[SignedRow],
    finders: &[Finder],
    slot: usize,
    interval: &Interval,
    n: u64,
) -> Result<Places, AllocError>
    requires numbered { AreNumbered 0 rows.now }
    requires finders { AreFinders finders.now rows.now }
    requires slots { HaveSlots (slot ∷ []) rows.now }
    ensures rising { IfOk result (λ places. AreRising 0 places) }
    ensures within { IfOk result (λ places. All (λ place. place < length rows.now) places) }
    ensures rows { IfOk result (λ places. signed_at places rows.now
        ≡ since n (of_rows (is_within slot interval.now) rows.now)) }
{
    let from = count_up_to(rows, n);
    let last = last_number(rows, 0);
    early_within(alloc, rows, finders, slot, interval, from, last)
}

/// The places of all rows of the interval.
pub(crate) fn all_within(
    alloc: Global,
    rows: &[SignedRow],
    finders: &[Finder],
    slot: usize,
    interval: &Interval,
) -> Result<Places, AllocError>
    requires numbered { AreNumbered 0 rows.now }
    requires finders { AreFinders finders.now rows.now }
    requires slots { HaveSlots (slot ∷ []) rows.now }
    ensures rising { IfOk result (λ places. AreRising 0 places) }
    ensures within { IfOk result (λ places. All (λ place. place < length rows.now) places) }
    ensures rows { IfOk result (λ places.
        signed_at places rows.now ≡ of_rows (is_within slot interval.now) rows.now) }
{
    let last = last_number(rows, 0);
    early_within(alloc, rows, finders, slot, interval, 0, last)
}

/// The places of the rows of the interval that are left at `n`.
pub(crate) fn content_within(
    alloc: Global,
    seed: RandomState,
    rows: &[SignedRow],
    finders: &[Finder],
    slot: usize,
    interval: &Interval,
    n: u64,
) -> Result<Places, AllocError>
    requires finders { AreFinders finders.now rows.now }
    requires slots { HaveSlots (slot ∷ []) rows.now }
    requires sound { IsSoundAt n (of_rows (is_within slot interval.now) rows.now) }
    ensures rising { IfOk result (λ places. AreRising 0 places) }
    ensures gains { IfOk result (λ places. AreGains rows.now places) }
    ensures within { IfOk result (λ places. All (λ place. place < length rows.now) places) }
    ensures content { IfOk result (λ places.
        IsContent n (of_rows (is_within slot interval.now) rows.now) (rows_at places rows.now)) }
{
    let all = early_within(alloc, rows, finders, slot, interval, 0, n)?;
    let left = left_over(alloc, seed, rows, all.as_slice())?;
    Ok(left)
}

/// The places of the rows of the interval with these atoms that are left at `n`.
pub(crate) fn matching_within(
    alloc: Global,
    seed: RandomState,
    rows: &[SignedRow],
    finders: &[Finder],
    slots: &[usize],
    key: &[KeyAtom<'_>],
    n: u64,
    slot: usize,
    interval: &Interval,
) -> Result<Places, AllocError>
    requires finders { AreFinders finders.now rows.now }
    requires sound { IsSoundAt n (of_rows (is_within slot interval.now) rows.now) }
    requires slots { HaveSlots slots.now rows.now }
    ensures rising { IfOk result (λ places. AreRising 0 places) }
    ensures gains { IfOk result (λ places. AreGains rows.now places) }
    ensures within { IfOk result (λ places. All (λ place. place < length rows.now) places) }
    ensures counts { IfOk result (λ places. (list : List a_row)
        → IsContent n (of_rows (is_within slot interval.now) rows.now) list
        → SameCounts (rows_at places rows.now) (filter (has_key slots.now key.now) list)) }
{
    let wanted = wanted_places(alloc, rows, finders, slots, key, n)?;
    let within = only_within(alloc, rows, wanted.as_slice(), slot, interval)?;
    let left = left_over(alloc, seed, rows, within.as_slice())?;
    Ok(left)
}

/// Those of the places whose rows are of the interval.
pub(crate) fn only_within(
    alloc: Global,
    rows: &[SignedRow],
    places: &[usize],
    slot: usize,
    interval: &Interval,
) -> Result<Places, AllocError>
    requires { All (λ place. place < length rows.now) places.now }
    ensures { IfOk result (λ those.
        those ≡ chosen (λ r. is_within slot interval.now r.row) rows.now places.now) }
{
    let mut those = Places::new(alloc);
    for place in places {
        let wanted = is_within(&rows[*place].row, slot, interval);
        push_where(&mut those, *place, wanted)?;
    }
    Ok(those)
}

/// The places of the rows with a number of the interval in the slot that are left at `n`. Other
/// rows are passed by at a look.
pub(crate) fn interval_in(
    alloc: Global,
    seed: RandomState,
    rows: &[SignedRow],
    finders: &[Finder],
    slot: usize,
    interval: &Interval,
    n: u64,
) -> Result<Places, AllocError>
    requires finders { AreFinders finders.now rows.now }
    requires sound { IsSoundAt n rows.now }
    requires slots { HaveSlots (slot ∷ []) rows.now }
    ensures rising { IfOk result (λ places. AreRising 0 places) }
    ensures gains { IfOk result (λ places. AreGains rows.now places) }
    ensures within { IfOk result (λ places. All (λ place. place < length rows.now) places) }
    ensures content { IfOk result (λ places. IsContentOf (is_within slot interval.now) n rows.now
        (rows_at places rows.now)) }
{
    let all = early_within(alloc, rows, finders, slot, interval, 0, n)?;
    let left = left_over(alloc, seed, rows, all.as_slice())?;
    Ok(left)
}

/// The places, from one on, of the rows of the interval with numbers up to `n`: by their values in
/// the slot, where an order is kept and the interval has few, and those that it has not yet by
/// going through them.
pub(crate) fn early_within(
    alloc: Global,
    rows: &[SignedRow],
    finders: &[Finder],
    slot: usize,
    interval: &Interval,
    from: usize,
    n: u64,
) -> Result<Places, AllocError>
    requires finders { AreFinders finders.now rows.now }
    requires slots { HaveSlots (slot ∷ []) rows.now }
    requires from { from ≤ length rows.now }
    ensures { IfOk result (λ places. places
        ≡ places_where (is_early slot interval.now n) from (drop from rows.now)) }
{
    let behind = rows.len() - from;
    let found = find_order(finders, slot);
    let Some(order) = found.filter(|order| order.has_few(interval, behind)) else {
        let mut places = Places::new(alloc);
        push_early(&mut places, rows, from, slot, interval, n)?;
        return Ok(places);
    };
    let mut places = by_value(alloc, rows, order, interval, from, n)?;
    push_early(&mut places, rows, from.max(order.len()), slot, interval, n)?;
    Ok(places)
}

/// The places, from one on, of the ordered rows of the interval with numbers up to `n`.
fn by_value(
    alloc: Global,
    rows: &[SignedRow],
    order: &Order,
    interval: &Interval,
    from: usize,
    n: u64,
) -> Result<Places, AllocError>
    requires order { IsOrder order.now rows.now }
    requires slots { HaveSlots (order.now.slot ∷ []) rows.now }
    ensures { IfOk result (λ places. places ≡ places_where (is_early order.now.slot interval.now n)
        from (drop from (take (length order.now.index.hashes) rows.now))) }
{
    let mut found = Places::new(alloc);
    push_ordered(alloc, &mut found, rows, order, interval, from, n)?;
    let mut places = found.into_vec();
    places.sort_unstable();
    Ok(Places::from_vec(places))
}

/// Adds the places of the rows of the interval with numbers up to `n`, from one place on.
fn push_early(
    places: &mut Places,
    rows: &[SignedRow],
    from: usize,
    slot: usize,
    interval: &Interval,
    n: u64,
) -> Result<(), AllocError>
    requires { from ≤ length rows.now }
    ensures { OnOk result (places.new ≡ places.old
        ++ places_where (is_early slot interval.now n) from (drop from rows.now)) }
{
    for at in from..rows.len() {
        let wanted = is_early(&rows[at], slot, interval, n);
        push_where(places, at, wanted)?;
    }
    Ok(())
}

/// Whether the signed row is of the interval and has a number up to `n`.
fn is_early(signed: &SignedRow, slot: usize, interval: &Interval, n: u64) -> bool
    ensures { result ≡ is_early slot interval.now n signed.now }
{
    signed.number <= n && is_within(&signed.row, slot, interval)
}
