//! Which number a file is compacted to.
ghost use Rattle.std.specs.Prelude.{◌≡◌, ◌<◌, ◌≤◌, IfOk, IsTrue};
ghost use Rattle.ncq_book.specs.Books.{subscription_of};
ghost use Rattle.ncq_engine.specs.Compactions.{IsWorn, least_among};
ghost use Rattle.ncq_engine.specs.Compactions.{least_at, least_mark};
ghost use Rattle.ncq_midfile.specs.Shown.{shown};
ghost use Rattle.ncq_midfile.specs.Views.{losses_above};

use crate::firing::mark_of;
use ncq_book::Book;
use ncq_live::LOSSES;
use ncq_midfile::View;
use ncq_source::Store;
use std::alloc::{AllocError, Global};

/// The least mark of the subscriptions that have the file and have fired, or the number of changes
/// where there is none.
pub(crate) fn least_mark(
    alloc: Global,
    book: &Book,
    store: &Store,
    number: u64,
) -> Result<u64, AllocError>
    ensures { IfOk result
        (λ least. least ≡ least_mark store.now book.now.subscriptions number) }
{
    book.facts();
    let watchers = book.watchers(alloc, &[number])?;
    let timers = book.timers(alloc, &[number])?;
    let least = least_among(book, store, watchers.as_slice(), store.changes());
    Ok(least_among(book, store, timers.as_slice(), least))
}

/// The least of the number and the marks of the subscriptions of these install numbers.
fn least_among(book: &Book, store: &Store, installs: &[u64], number: u64) -> u64
    ensures { result ≡ least_among store.now book.now.subscriptions installs.now number }
{
    let mut least = number;
    for install in installs {
        least = least_at(book, store, *install, least);
    }
    least
}

/// The lesser of the number and the mark of the subscription of this install number, if it is
/// there and has fired.
fn least_at(book: &Book, store: &Store, install: u64, number: u64) -> u64
    ensures { result
        ≡ least_at store.now (subscription_of install book.now.subscriptions) number }
{
    let Some(subscription) = book.get(install) else {
        return number;
    };
    match mark_of(subscription, store) {
        Some(mark) => mark.min(number),
        None => number,
    }
}

/// Whether the file is to be compacted to the number: the number is above its base, and it has lost
/// much. Where rows of it are above the number, only what went out up to the number counts, and has
/// to pay for a look at all rows.
pub(crate) fn is_due(view: &View<'_>, number: u64) -> bool
    ensures due { IsTrue result → (shown view.now).base < number }
    ensures worn { IsWorn number (shown view.now) → IsTrue result }
{
    if view.base() >= number {
        return false;
    }
    if view.last() <= number {
        return has_lost_much(view);
    }
    is_large(view, view.minus().saturating_sub(view.losses(number)))
}

/// Whether as many rows went out above the base as make a file worn, or a third of the signed rows
/// or more.
fn has_lost_much(view: &View<'_>) -> bool
    ensures { 64 ≤ losses_above (shown view.now).base (shown view.now).rows → IsTrue result }
{
    let losses = view.minus();
    losses as u64 >= LOSSES || is_large(view, losses)
}

/// Whether so many rows that went out are a third of the signed rows or more.
fn is_large(view: &View<'_>, losses: usize) -> bool {
    losses > 0 && losses.saturating_mul(3) >= view.len()
}
