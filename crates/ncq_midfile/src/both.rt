//! The rows that have numbers of two intervals.
ghost use Rattle.std.specs.Prelude.{◌≡◌, ◌∷◌, [], ◌<◌, length, IfOk};
ghost use Rattle.std.specs.List.{All};
ghost use Rattle.ncq_midfile.specs.Content.{IsSoundAt, rows_at, AreRising, AreGains};
ghost use Rattle.ncq_midfile.specs.Finders.{AreFinders};
ghost use Rattle.ncq_midfile.specs.Matching.{HaveSlots, places_where};
ghost use Rattle.ncq_midfile.specs.Ranged.{is_early_of_both};
ghost use Rattle.ncq_midfile.specs.Views.{is_within, of_rows, IsContentOf};

use crate::content::left_over;
use crate::finder::{Finder, find_order};
use crate::signed::{Places, SignedRow};
use crate::within::{early_within, only_within};
use ncq_base::Interval;
use std::alloc::{AllocError, Global};
use std::hash::RandomState;

/// The places of the rows with numbers of two intervals, each in its slot, that are left at `n`:
/// `outer` has the rows of which those of `interval` are wanted.
pub(crate) fn interval_within(
    alloc: Global,
    seed: RandomState,
    rows: &[SignedRow],
    finders: &[Finder],
    slot: usize,
    interval: &Interval,
    n: u64,
    outer_slot: usize,
    outer: &Interval,
) -> Result<Places, AllocError>
    requires finders { AreFinders finders.now rows.now }
    requires sound { IsSoundAt n (of_rows (is_within outer_slot outer.now) rows.now) }
    requires slots { HaveSlots (slot ∷ []) rows.now }
    requires outer { HaveSlots (outer_slot ∷ []) rows.now }
    ensures rising { IfOk result (λ places. AreRising 0 places) }
    ensures gains { IfOk result (λ places. AreGains rows.now places) }
    ensures within { IfOk result (λ places. All (λ place. place < length rows.now) places) }
    ensures content { IfOk result (λ places. IsContentOf (is_within slot interval.now) n
        (of_rows (is_within outer_slot outer.now) rows.now) (rows_at places rows.now)) }
{
    let both = early_of_both(alloc, rows, finders, slot, interval, n, outer_slot, outer)?;
    let left = left_over(alloc, seed, rows, both.as_slice())?;
    Ok(left)
}

/// The places of the rows of both intervals with numbers up to `n`.
fn early_of_both(
    alloc: Global,
    rows: &[SignedRow],
    finders: &[Finder],
    slot: usize,
    interval: &Interval,
    n: u64,
    outer_slot: usize,
    outer: &Interval,
) -> Result<Places, AllocError>
    requires finders { AreFinders finders.now rows.now }
    requires slots { HaveSlots (slot ∷ []) rows.now }
    requires outer { HaveSlots (outer_slot ∷ []) rows.now }
    ensures { IfOk result (λ places. places
        ≡ places_where (is_early_of_both slot interval.now outer_slot outer.now n) 0 rows.now) }
{
    if is_sooner(finders, slot, interval, outer_slot, outer) {
        return by_first(alloc, rows, finders, slot, interval, n, outer_slot, outer);
    }
    by_first(alloc, rows, finders, outer_slot, outer, n, slot, interval)
}

/// The places of the rows of both intervals with numbers up to `n`: those of the first interval, as
/// far as the second has them too.
fn by_first(
    alloc: Global,
    rows: &[SignedRow],
    finders: &[Finder],
    slot: usize,
    interval: &Interval,
    n: u64,
    second_slot: usize,
    second: &Interval,
) -> Result<Places, AllocError>
    requires finders { AreFinders finders.now rows.now }
    requires slots { HaveSlots (slot ∷ []) rows.now }
    ensures { IfOk result (λ places. places
        ≡ places_where (is_early_of_both slot interval.now second_slot second.now n) 0 rows.now) }
{
    let early = early_within(alloc, rows, finders, slot, interval, 0, n)?;
    only_within(alloc, rows, early.as_slice(), second_slot, second)
}

/// Whether fewer numbers lead to the rows of the interval than to those of the outer one. An order
/// that is not kept has no number.
fn is_sooner(
    finders: &[Finder],
    slot: usize,
    interval: &Interval,
    outer_slot: usize,
    outer: &Interval,
) -> bool {
    let Some(order) = find_order(finders, slot) else {
        return false;
    };
    let Some(other) = find_order(finders, outer_slot) else {
        return true;
    };
    order.has_fewer(interval, other, outer)
}
