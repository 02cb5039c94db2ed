//! What finds rows: by the atoms in some slots, or by the number in one.
ghost use Rattle.std.specs.Prelude.{◌≡◌, ◌<◌, List, length, map, slice_index_or, IfOk, IfSome};
ghost use Rattle.std.specs.Prelude.{IsTrue};
ghost use Rattle.std.specs.List.{All};
ghost use Rattle.ncq_midfile.specs.Content.{AreRising};
ghost use Rattle.ncq_midfile.specs.Finders.{AreFinders, IsFinder, IsIndexOn, IsOrderBy, cut_finder};
ghost use Rattle.ncq_midfile.specs.Indexes.{Covers};
ghost use Rattle.ncq_midfile.specs.Orders.{IsOrder};
ghost use Rattle.ncq_midfile.specs.Pairs.{HasAll, HaveAll, taken_out};
ghost use Rattle.ncq_midfile.specs.declared.finder.Finder.{Finder as a_finder};
ghost use Rattle.ncq_midfile.specs.declared.signed.SignedRow.{SignedRow as a_signed_row};

use crate::index::Index;
use crate::order::Order;
use crate::signed::SignedRow;
use std::alloc::{AllocError, Global};
use std::hash::RandomState;

/// What finds the first rows of a file, by atoms or by a number.
#[derive(Drop)]
pub(crate) enum Finder {
    Index(Index),
    Order(Order),
}

impl Finder {
    /// Takes in the rows that it has not yet; where one of them has not its slots, it takes fewer,
    /// and the answer is no. After an error it has some of them.
    fn fill(&mut self, rows: &[SignedRow]) -> Result<bool, AllocError>
        requires { IsFinder rows.now self.old }
        ensures finder { IsFinder rows.now self.new }
        ensures full { IfOk result (λ all. IsTrue all → HasAll rows.now self.new) }
    {
        match self {
            Finder::Index(index) => index.fill(rows),
            Finder::Order(order) => order.fill(rows),
        }
    }

    /// Takes the rows at the places out. Where memory runs out, it forgets all.
    fn forget(&mut self, rows: &[SignedRow], places: &[usize])
        requires rising { AreRising 0 places.now }
        requires within { All (λ place. place < length rows.now) places.now }
        requires full { HasAll rows.now self.old }
        ensures { IsFinder (taken_out places.now rows.now) self.new }
    {
        match self {
            Finder::Index(index) => index.forget(rows, places),
            Finder::Order(order) => order.forget(rows, places),
        }
    }

    /// Leaves the first rows. It takes no memory.
    fn cut(&mut self, kept: usize)
        ensures { self.new ≡ cut_finder kept self.old }
    {
        match self {
            Finder::Index(index) => index.cut(kept),
            Finder::Order(order) => order.cut(kept),
        }
    }
}

/// An index on the slots is among the finders, if only one without rows.
pub(crate) fn open_index(
    alloc: Global,
    seed: RandomState,
    finders: &mut Vec<Finder>,
    slots: &[usize],
) -> Result<(), AllocError>
    ensures { (rows : List a_signed_row)
        → AreFinders finders.old.items rows → AreFinders finders.new.items rows }
{
    if index_at(finders.as_slice(), slots).is_some() {
        return Ok(());
    }
    finders.push(Finder::Index(Index::new(alloc, seed, slots)?))?;
    Ok(())
}

/// Makes the index on the slots, if there is none, and takes all rows into it, up to the first that
/// has not the slots. After an error each finder has fewer rows.
pub(crate) fn keep_index(
    alloc: Global,
    seed: RandomState,
    finders: &mut Vec<Finder>,
    rows: &[SignedRow],
    slots: &[usize],
) -> Result<(), AllocError>
    requires { AreFinders finders.old.items rows.now }
    ensures { AreFinders finders.new.items rows.now }
{
    if let Some(at) = index_at(finders.as_slice(), slots) {
        let Finder::Index(index) = &mut finders[at] else {
            unreachable!()
        };
        index.fill(rows)?;
        return Ok(());
    }
    let mut index = Index::new(alloc, seed, slots)?;
    index.fill(rows)?;
    finders.push(Finder::Index(index))?;
    Ok(())
}

/// Gives up the index on the slots, if there is one. It takes no memory.
pub(crate) fn lose_index(finders: &mut Vec<Finder>, slots: &[usize])
    ensures { (rows : List a_signed_row)
        → AreFinders finders.old.items rows → AreFinders finders.new.items rows }
{
    if let Some(at) = index_at(finders.as_slice(), slots) {
        finders.swap_remove(at);
    }
}

/// Makes the order by the slot, if there is none, and takes all rows into it, unless one has not
/// the slot. After an error each finder has fewer rows.
pub(crate) fn keep_order(
    alloc: Global,
    seed: RandomState,
    finders: &mut Vec<Finder>,
    rows: &[SignedRow],
    slot: usize,
) -> Result<(), AllocError>
    requires { AreFinders finders.old.items rows.now }
    ensures { AreFinders finders.new.items rows.now }
{
    if let Some(at) = order_at(finders.as_slice(), slot) {
        let Finder::Order(order) = &mut finders[at] else {
            unreachable!()
        };
        order.fill(rows)?;
        return Ok(());
    }
    let mut order = Order::new(alloc, seed, slot)?;
    order.fill(rows)?;
    finders.push(Finder::Order(order))?;
    Ok(())
}

/// Gives up the order by the slot, if there is one. It takes no memory.
pub(crate) fn lose_order(finders: &mut Vec<Finder>, slot: usize)
    ensures { (rows : List a_signed_row)
        → AreFinders finders.old.items rows → AreFinders finders.new.items rows }
{
    if let Some(at) = order_at(finders.as_slice(), slot) {
        finders.swap_remove(at);
    }
}

/// The index on just these slots.
pub(crate) fn find_index<'a>(finders: &'a [Finder], slots: &[usize]) -> Option<&'a Index>
    ensures slots { IfSome result (λ index. index.now.slots ≡ slots.now) }
    ensures covers { IfSome result (λ index. (rows : List a_signed_row)
        → AreFinders finders.now rows → Covers index.now rows) }
{
    let at = index_at(finders, slots)?;
    match &finders[at] {
        Finder::Index(index) => Some(index),
        Finder::Order(_) => unreachable!(),
    }
}

/// The order by the slot.
pub(crate) fn find_order(finders: &[Finder], slot: usize) -> Option<&Order>
    ensures slot { IfSome result (λ order. order.now.slot ≡ slot) }
    ensures order { IfSome result (λ order. (rows : List a_signed_row)
        → AreFinders finders.now rows → IsOrder order.now rows) }
{
    let at = order_at(finders, slot)?;
    match &finders[at] {
        Finder::Order(order) => Some(order),
        Finder::Index(_) => unreachable!(),
    }
}

/// Takes all rows into each finder. Where one cannot take a row, the answer is no. After an error
/// each has some of them.
pub(crate) fn fill_all(finders: &mut Vec<Finder>, rows: &[SignedRow]) -> Result<bool, AllocError>
    requires { AreFinders finders.old.items rows.now }
    ensures finders { AreFinders finders.new.items rows.now }
    ensures full { IfOk result (λ all. IsTrue all → HaveAll finders.new.items rows.now) }
{
    for at in 0..finders.len() {
        if !finders[at].fill(rows)? {
            return Ok(false);
        }
    }
    Ok(true)
}

/// Takes the rows at the places out of each finder. It costs the places, but where memory runs out,
/// a finder forgets all.
pub(crate) fn forget_all(finders: &mut Vec<Finder>, rows: &[SignedRow], places: &[usize])
    requires rising { AreRising 0 places.now }
    requires within { All (λ place. place < length rows.now) places.now }
    requires full { HaveAll finders.old.items rows.now }
    ensures { AreFinders finders.new.items (taken_out places.now rows.now) }
{
    for at in 0..finders.len() {
        finders[at].forget(rows, places);
    }
}

/// Leaves in each finder the first rows. It takes no memory.
pub(crate) fn cut_all(finders: &mut [Finder], kept: usize)
    ensures { finders.new ≡ map (cut_finder kept) finders.old }
{
    for finder in finders.iter_mut() {
        finder.cut(kept);
    }
}

/// The place of the index on just these slots.
fn index_at(finders: &[Finder], slots: &[usize]) -> Option<usize>
    ensures within { IfSome result (λ at. at < length finders.now) }
    ensures index { IfSome result (λ at. (d : a_finder)
        → IsIndexOn slots.now (slice_index_or finders.now at d)) }
{
    for at in 0..finders.len() {
        if let Finder::Index(index) = &finders[at] {
            if index.is_on(slots) {
                return Some(at);
            }
        }
    }
    None
}

/// The place of the order by the slot.
fn order_at(finders: &[Finder], slot: usize) -> Option<usize>
    ensures within { IfSome result (λ at. at < length finders.now) }
    ensures order { IfSome result (λ at. (d : a_finder)
        → IsOrderBy slot (slice_index_or finders.now at d)) }
{
    for at in 0..finders.len() {
        if let Finder::Order(order) = &finders[at] {
            if order.slot() == slot {
                return Some(at);
            }
        }
    }
    None
}
