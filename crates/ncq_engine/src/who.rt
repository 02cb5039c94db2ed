//! Who fires at a command.
ghost use Rattle.std.specs.Prelude.{◌≡◌, ◌==◌, nat_lt, IfOk};
ghost use Rattle.std.specs.List.{filter, flat_map, list_any};
ghost use Rattle.ncq_book.specs.Books.{subscription_of};
ghost use Rattle.ncq_engine.specs.Engines.{last_in, has_news_in, mark_in};
ghost use Rattle.ncq_engine.specs.Tellings.{started_at, has_started, is_news_at};

use crate::firing::mark_of;
use ncq_base::Bytes;
use ncq_book::{Book, Subscription};
use ncq_event::{Firing, Firings};
use ncq_source::Store;
use std::alloc::{AllocError, Global};

/// The firings now of those subscriptions of these install numbers that have started.
pub(crate) fn started(alloc: Global, book: &Book, installs: &[u64]) -> Result<Firings, AllocError>
    ensures { IfOk result (λ firings. firings
        ≡ flat_map (started_at book.now.instant book.now.subscriptions) installs.now) }
{
    let now = book.instant();
    let mut firings = Firings::new(alloc);
    for install in installs {
        if has_started(book, *install) {
            firings.push(Firing {
                instant: now,
                install: *install,
            })?;
        }
    }
    Ok(firings)
}

/// Whether the subscription of this install number is there and has started.
fn has_started(book: &Book, install: u64) -> bool
    ensures { result
        ≡ has_started book.now.instant (subscription_of install book.now.subscriptions) }
{
    match book.get(install) {
        Some(subscription) => subscription.timing.start <= book.instant(),
        None => false,
    }
}

/// Those firings whose subscriptions have not fired yet, or have a source that has changed since.
pub(crate) fn with_news(
    alloc: Global,
    book: &Book,
    store: &Store,
    firings: &[Firing],
) -> Result<Firings, AllocError>
    ensures { IfOk result (λ kept. kept
        ≡ filter (is_news_at store.now book.now.subscriptions) firings.now) }
{
    let mut kept = Firings::new(alloc);
    for firing in firings {
        if is_news(book, store, firing) {
            kept.push(*firing)?;
        }
    }
    Ok(kept)
}

/// Whether the subscription of the firing is there, and has not fired yet or has a source that has
/// changed since.
fn is_news(book: &Book, store: &Store, firing: &Firing) -> bool
    ensures { result ≡ is_news_at store.now book.now.subscriptions firing.now }
{
    match book.get(firing.install) {
        Some(subscription) => has_news(subscription, store),
        None => false,
    }
}

/// Whether the subscription has not fired yet, or a source of it has changed since.
fn has_news(subscription: &Subscription, store: &Store) -> bool
    ensures { result ≡ has_news_in store.now (mark_in store.now subscription.now)
        subscription.now.sources }
{
    match mark_of(subscription, store) {
        Some(mark) => has_changed(subscription, store, mark),
        None => true,
    }
}

/// Whether a source of the subscription has a change above this number.
fn has_changed(subscription: &Subscription, store: &Store, mark: u64) -> bool
    ensures { result ≡ list_any (λ source. nat_lt mark (last_in store.now source))
        subscription.now.sources }
{
    subscription
        .sources
        .as_slice()
        .iter()
        .any(|name| last_change(store, name) > mark)
}

/// The number of the last change of the source of this name.
pub(crate) fn last_change(store: &Store, name: &Bytes) -> u64
    ensures { result ≡ last_in store.now name.now }
{
    match store.find(name.as_slice()) {
        Some(id) => store.last_change(id),
        None => 0,
    }
}
