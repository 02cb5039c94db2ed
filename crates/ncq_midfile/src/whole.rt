//! The index of whole rows, which a large file has from the start and which grows with its rows.
ghost use Rattle.std.specs.Prelude.{◌<◌, List, length, IfOk, IfSome, IsTrue};
ghost use Rattle.ncq_midfile.specs.Finders.{AreFinders, IsFinder};
ghost use Rattle.ncq_midfile.specs.Pairs.{HaveAll};
ghost use Rattle.ncq_midfile.specs.declared.signed.SignedRow.{SignedRow as a_signed_row};

use crate::content::first_places;
use crate::finder::{Finder, fill_all, open_index};
use crate::index::Index;
use crate::signed::SignedRow;
use std::alloc::{AllocError, Global};
use std::hash::RandomState;

/// A file of so many rows is large.
const MANY_ROWS: usize = 256;

/// How many rows the index takes in at most with each row that the file gets, so that it reaches
/// the last one although it began behind it.
const ROWS_AT_ONCE: usize = 2;

/// Makes the index of whole rows of a large file, and takes all rows into each finder. Where the
/// file is not large, or a finder cannot take a row, the answer is no.
pub(crate) fn fill_whole(
    alloc: Global,
    seed: RandomState,
    finders: &mut Vec<Finder>,
    rows: &[SignedRow],
) -> Result<bool, AllocError>
    requires { AreFinders finders.old.items rows.now }
    ensures finders { AreFinders finders.new.items rows.now }
    ensures full { IfOk result (λ all. IsTrue all → HaveAll finders.new.items rows.now) }
{
    if rows.len() < MANY_ROWS {
        return Ok(false);
    }
    open_whole(alloc, seed, finders, width_of(rows))?;
    fill_all(finders, rows)
}

/// Takes the next few rows into the index of whole rows of a large file. Where it has none yet, it
/// gets one without rows.
pub(crate) fn grow_whole(
    alloc: Global,
    seed: RandomState,
    finders: &mut Vec<Finder>,
    rows: &[SignedRow],
) -> Result<(), AllocError>
    requires { AreFinders finders.old.items rows.now }
    ensures { AreFinders finders.new.items rows.now }
{
    if rows.len() < MANY_ROWS {
        return Ok(());
    }
    let width = width_of(rows);
    let Some(at) = whole_at(finders.as_slice(), width) else {
        return open_whole(alloc, seed, finders, width);
    };
    fill_some(&mut finders[at], rows)
}

/// The index of whole rows.
pub(crate) fn find_whole<'a>(finders: &'a [Finder], rows: &[SignedRow]) -> Option<&'a Index> {
    let at = whole_at(finders, width_of(rows))?;
    match &finders[at] {
        Finder::Index(index) => Some(index),
        Finder::Order(_) => None,
    }
}

/// An index of rows of the width is among the finders, if only one without rows.
fn open_whole(
    alloc: Global,
    seed: RandomState,
    finders: &mut Vec<Finder>,
    width: usize,
) -> Result<(), AllocError>
    ensures { (rows : List a_signed_row)
        → AreFinders finders.old.items rows → AreFinders finders.new.items rows }
{
    if whole_at(finders.as_slice(), width).is_some() {
        return Ok(());
    }
    let slots = first_places(alloc, width)?;
    open_index(alloc, seed, finders, slots.as_slice())
}

/// The place of the index of rows of the width.
fn whole_at(finders: &[Finder], width: usize) -> Option<usize>
    ensures { IfSome result (λ at. at < length finders.now) }
{
    for at in 0..finders.len() {
        if let Finder::Index(index) = &finders[at] {
            if is_whole(index, width) {
                return Some(at);
            }
        }
    }
    None
}

/// Whether the index is on whole rows of the width.
pub(crate) fn is_whole(index: &Index, width: usize) -> bool {
    are_all_slots(index.slots(), width)
}

/// Whether these are the slots of a row of the width, in order.
fn are_all_slots(slots: &[usize], width: usize) -> bool {
    slots.len() == width && slots.iter().enumerate().all(|(at, slot)| at == *slot)
}

/// Takes the next few rows into the finder, if it is an index.
fn fill_some(finder: &mut Finder, rows: &[SignedRow]) -> Result<(), AllocError>
    requires { IsFinder rows.now finder.old }
    ensures { IsFinder rows.now finder.new }
{
    if let Finder::Index(index) = finder {
        let end = rows.len().min(index.len() + ROWS_AT_ONCE);
        index.fill(&rows[..end])?;
    }
    Ok(())
}

/// How wide the first row is.
pub(crate) fn width_of(rows: &[SignedRow]) -> usize {
    match rows.first() {
        Some(signed) => signed.row.len(),
        None => 0,
    }
}
