//! Orders of rows by the number in a slot.
//!
//! An order has an index of the first rows on its slot, and the numbers that they have there. Rows
//! with a text there are in the index alone. A number stays when its last row goes, and then leads
//! to no row; where most lead to none, the order begins anew.
ghost use Rattle.std.specs.Prelude.{◌≡◌, ◌++◌, ◌∷◌, [], ◌<◌, true, List, length, take, drop};
ghost use Rattle.std.specs.Prelude.{IfOk, OnOk, IsTrue};
ghost use Rattle.std.specs.List.{flat_map, All};
ghost use Rattle.std.specs.List.Sorted.{IsStrictlySortedBy};
ghost use Rattle.std.specs.Ordering.{int_cmp};
ghost use Rattle.ncq_base.specs.declared.atom.Atom.{Atom as an_atom};
ghost use Rattle.ncq_row.specs.Values.{atom_at};
ghost use Rattle.ncq_midfile.specs.Content.{AreRising};
ghost use Rattle.ncq_midfile.specs.Matching.{HaveSlots};
ghost use Rattle.ncq_midfile.specs.Orders.{IsOrder, cut_order, is_known, with_value};
ghost use Rattle.ncq_midfile.specs.Pairs.{IsFull, taken_out};
ghost use Rattle.ncq_midfile.specs.declared.signed.SignedRow.{SignedRow as a_signed_row};

use crate::bounds::{from_low, is_forward, to_high};
use crate::index::{Index, push_indexed};
use crate::key::KeyAtom;
use crate::signed::{Places, SignedRow};
use ncq_base::{Atom, Interval, in_interval};
use ncq_row::Row;
use std::alloc::{AllocError, Global};
use std::collections::BTreeSet;
use std::collections::btree_set::Range;
use std::hash::RandomState;

/// How many rows can be gone through while one number is looked up.
const ROWS_OF_A_LOOK_UP: usize = 8;

/// So many numbers for each row are too many: some of them lead to no row.
const MOST_NUMBERS: usize = 2;

/// The first rows by the number in a slot.
#[derive(Drop)]
pub(crate) struct Order {
    slot: usize,
    index: Index,
    values: BTreeSet<i128>,
}

impl Order {
    /// An order by the slot that has no row yet. Its index hashes atoms under the seed.
    pub(crate) fn new(alloc: Global, seed: RandomState, slot: usize) -> Result<Order, AllocError>
        ensures slot { IfOk result (λ order. order.slot ≡ slot) }
        ensures order { IfOk result (λ order. (rows : List a_signed_row) → IsOrder order rows) }
    {
        Ok(Order {
            slot,
            index: Index::new(alloc, seed, &[slot])?,
            values: BTreeSet::new(alloc),
        })
    }

    /// The slot whose numbers it has.
    pub(crate) fn slot(&self) -> usize
        ensures { result ≡ self.now.slot }
    {
        self.slot
    }

    /// How many of the rows it has.
    pub(crate) fn len(&self) -> usize
        ensures { result ≡ length self.now.index.hashes }
    {
        self.index.len()
    }

    /// Whether it has so few numbers of the interval that to look them up costs no more than to go
    /// through so many rows. No more numbers are looked at.
    pub(crate) fn has_few(&self, interval: &Interval, rows: usize) -> bool {
        let mut left = rows / ROWS_OF_A_LOOK_UP;
        if left == 0 {
            return false;
        }
        let Some(numbers) = self.numbers(interval) else {
            return true;
        };
        for _number in numbers {
            if left == 0 {
                return false;
            }
            left -= 1;
        }
        true
    }

    /// Whether it has fewer numbers of the interval than another order has of another one. No more
    /// of each are looked at than the fewer are.
    pub(crate) fn has_fewer(&self, interval: &Interval, other: &Order, outer: &Interval) -> bool {
        let Some(mut those) = other.numbers(outer) else {
            return false;
        };
        let Some(these) = self.numbers(interval) else {
            return true;
        };
        for _number in these {
            if those.next().is_none() {
                return false;
            }
        }
        those.next().is_some()
    }

    /// Its numbers of the interval, where there may be any.
    fn numbers(&self, interval: &Interval) -> Option<Range<'_, i128>> {
        let low = from_low(interval.low);
        let high = to_high(interval.high);
        if !is_forward(&low, &high) {
            return None;
        }
        Some(self.values.range((low, high)))
    }

    /// Takes in the rows that it has not yet; where one of them has not its slot, it takes none,
    /// and the answer is no. After an error it has some of the rows.
    pub(crate) fn fill(&mut self, rows: &[SignedRow]) -> Result<bool, AllocError>
        requires { IsOrder self.old rows.now }
        ensures slot { self.new.slot ≡ self.old.slot }
        ensures order { IsOrder self.new rows.now }
        ensures full { IfOk result (λ all. IsTrue all → IsFull rows.now self.new.index) }
    {
        self.renew();
        self.fill_up(rows)
    }

    /// Where it has no row, it has no number either from now on. It takes no memory.
    fn renew(&mut self)
        ensures slot { self.new.slot ≡ self.old.slot }
        ensures order { (rows : List a_signed_row) → IsOrder self.old rows → IsOrder self.new rows }
    {
        if self.index.len() == 0 {
            self.values.clear();
        }
    }

    /// Takes in the rows that it has not yet, as `fill` says. Numbers come first, so that none is
    /// wanting where memory runs out.
    fn fill_up(&mut self, rows: &[SignedRow]) -> Result<bool, AllocError>
        requires { IsOrder self.old rows.now }
        ensures slot { self.new.slot ≡ self.old.slot }
        ensures order { IsOrder self.new rows.now }
        ensures full { IfOk result (λ all. IsTrue all → IsFull rows.now self.new.index) }
    {
        for at in self.index.len()..rows.len() {
            let row = &rows[at].row;
            if self.slot >= row.len() {
                return Ok(false);
            }
            note_number(&mut self.values, row, self.slot)?;
        }
        self.index.fill(rows)
    }

    /// Takes the rows at the places out. Where memory runs out, or it has too many numbers, it
    /// forgets all.
    pub(crate) fn forget(&mut self, rows: &[SignedRow], places: &[usize])
        requires rising { AreRising 0 places.now }
        requires within { All (λ place. place < length rows.now) places.now }
        requires full { IsFull rows.now self.old.index }
        requires order { IsOrder self.old rows.now }
        ensures { IsOrder self.new (taken_out places.now rows.now) }
    {
        self.index.forget(rows, places);
        if self.values.len() / MOST_NUMBERS > rows.len() {
            self.index.cut(0);
        }
    }

    /// Leaves the first rows. It takes no memory.
    pub(crate) fn cut(&mut self, kept: usize)
        ensures { self.new ≡ cut_order kept self.old }
    {
        self.index.cut(kept);
    }
}

/// Adds the places, from one on, of the rows of the interval with numbers up to `n` that the order
/// has, in the order of their numbers. Numbers outside are not gone through.
pub(crate) fn push_ordered(
    alloc: Global,
    found: &mut Places,
    rows: &[SignedRow],
    order: &Order,
    interval: &Interval,
    from: usize,
    n: u64,
) -> Result<(), AllocError>
    requires order { IsOrder order.now rows.now }
    requires slots { HaveSlots (order.now.slot ∷ []) rows.now }
    ensures { OnOk result (found.new ≡ found.old
        ++ flat_map (with_value order.now.slot interval.now n from
        (drop from (take (length order.now.index.hashes) rows.now))) order.now.values.keys) }
{
    let low = from_low(interval.low);
    let high = to_high(interval.high);
    if !is_forward(&low, &high) {
        return Ok(());
    }
    for value in order.values.range((low, high)) {
        push_value(alloc, found, rows, order, value, interval, from, n)?;
    }
    Ok(())
}

/// Adds the places, from one on, of the ordered rows with this number and changes up to `n`, if it
/// is one of the interval.
fn push_value(
    alloc: Global,
    found: &mut Places,
    rows: &[SignedRow],
    order: &Order,
    value: &i128,
    interval: &Interval,
    from: usize,
    n: u64,
) -> Result<(), AllocError>
    requires order { IsOrder order.now rows.now }
    requires slots { HaveSlots (order.now.slot ∷ []) rows.now }
    ensures { OnOk result (found.new ≡ found.old
        ++ with_value order.now.slot interval.now n from
        (drop from (take (length order.now.index.hashes) rows.now)) value.now) }
{
    let atom = Atom::Num(*value);
    if !in_interval(interval, &atom) {
        return Ok(());
    }
    let key = [KeyAtom::new(&atom)];
    push_indexed(alloc, found, rows, &order.index, &key, from, n)
}

/// Takes in the number of the row in the slot, if it has one there.
fn note_number(values: &mut BTreeSet<i128>, row: &Row, slot: usize) -> Result<(), AllocError>
    requires slot { slot < length row.now }
    requires ordered { IsStrictlySortedBy int_cmp values.old.keys }
    ensures ordered { IsStrictlySortedBy int_cmp values.new.keys }
    ensures more { (atom : an_atom) → is_known atom values.old.keys ≡ true
        → is_known atom values.new.keys ≡ true }
    ensures known { OnOk result (is_known (atom_at row.now slot) values.new.keys ≡ true) }
{
    if let Atom::Num(number) = row.atom(slot) {
        values.insert(*number)?;
    }
    Ok(())
}
