//! A firing: what the answer of a subscription gained and lost since its latest one.
ghost use Rattle.std.specs.Prelude.{◌≡◌, ◌++◌, ◌<◌, length, IfSome, IsTrue, OnOk};
ghost use Rattle.std.specs.Io.{StartsWith};
ghost use Rattle.ncq_book.specs.Books.{AskAlike};
ghost use Rattle.ncq_callback.specs.Labels.{handed_in, labels};
ghost use Rattle.ncq_distinct.specs.DistinctTables.{HaveSameCounts};
ghost use Rattle.ncq_plan.specs.Relations.{relations};
ghost use Rattle.ncq_source.specs.StoreStates.{StoreState};
ghost use Rattle.ncq_engine.specs.Cached.{AllServe, Grows};
ghost use Rattle.ncq_engine.specs.Engines.{mark_in, latest_in, entries_text, notice_text, CanTell};
ghost use Rattle.ncq_engine.specs.Spans.{span_of};
ghost use Rattle.ncq_engine.specs.Tellings.{AwaitsNews, IsLatest};

use crate::latest::{Latest, find_news};
use crate::span::{Span, Spans};
use crate::who::last_change;
use ncq_base::{Bytes, Copied};
use ncq_book::Subscription;
use ncq_cache::NoticeCache;
use ncq_callback::{Handlers, Notice};
use ncq_distinct::DistinctTable;
use ncq_group::GroupTable;
use ncq_source::Store;
use std::alloc::{AllocError, Global};
use std::mem::replace;

/// Appends what the answer of the subscription gained and lost since its latest firing, and adds
/// where that stands, if anything differs. What was told last, if anything was, serves where it is
/// the same, and what is kept of what was told before; what this subscription is told is what was
/// told last from then on. Where it is known to ask as what was told last, they are not compared.
/// With DISTINCT the changes of its counts wait. What was written before stays in front.
pub(crate) fn fire<'a>(
    alloc: Global,
    subscription: &'a Subscription,
    known: bool,
    instant: u64,
    groups: &GroupTable,
    store: &Store,
    handlers: &Handlers,
    out: &mut Vec<u8>,
    spans: &mut Spans,
    latest: &mut Option<Latest<'a>>,
    cache: &mut NoticeCache,
    distinct: &mut DistinctTable,
) -> Result<(), AllocError>
    requires can { CanTell (handed_in handlers.now.items.items (λ h. h.name) (λ h. h.kind)
        handlers.now.predicates.items (λ p. p.name) (λ p. p.relation))
        store.now groups.now subscription.now }
    requires latest { IfSome latest.old (IsLatest
        (relations handlers.now.predicates.items (λ p. p.name) (λ p. p.relation))
        store.now groups.now) }
    requires serve { AllServe
        (relations handlers.now.predicates.items (λ p. p.name) (λ p. p.relation))
        groups.now cache.old }
    requires known { IsTrue known → IfSome latest.old
        (λ told. AskAlike told.subscription.now subscription.now) }
    ensures text { OnOk result (out.new.items ≡ out.old.items
        ++ notice_text (handed_in handlers.now.items.items (λ h. h.name) (λ h. h.kind)
        handlers.now.predicates.items (λ p. p.name) (λ p. p.relation))
        store.now groups.now.files distinct.old subscription.now instant) }
    ensures front { StartsWith out.new.items out.old.items }
    ensures span { OnOk result (spans.new ≡ spans.old
        ++ span_of subscription.now.name (length out.old.items)
        (notice_text (handed_in handlers.now.items.items (λ h. h.name) (λ h. h.kind)
        handlers.now.predicates.items (λ p. p.name) (λ p. p.relation))
        store.now groups.now.files distinct.old subscription.now instant)) }
    ensures latest { IfSome latest.new (IsLatest
        (relations handlers.now.predicates.items (λ p. p.name) (λ p. p.relation))
        store.now groups.now) }
    ensures alike { IfSome latest.new
        (λ told. AskAlike told.subscription.now subscription.now) }
    ensures cached { Grows
        (relations handlers.now.predicates.items (λ p. p.name) (λ p. p.relation))
        groups.now cache.old cache.new }
    ensures counts { HaveSameCounts distinct.old distinct.new }
    ensures waiting { OnOk result (AwaitsNews
        (relations handlers.now.predicates.items (λ p. p.name) (λ p. p.relation))
        store.now groups.now.files subscription.now distinct.old distinct.new) }
{
    find_news(
        alloc,
        subscription,
        known,
        instant,
        groups,
        store,
        handlers,
        latest,
        cache,
    )?;
    match latest {
        Some(told) if subscription.distinct => {
            let entries = distinct.prepare(alloc, subscription.install, &told.notice.entries)?;
            let name = Bytes::new(alloc);
            let mut notice = Notice {
                name,
                instant,
                entries,
            };
            write_notice(
                alloc,
                subscription,
                instant,
                &mut notice,
                handlers,
                out,
                spans,
            )
        }
        Some(told) => {
            write_notice(
                alloc,
                subscription,
                instant,
                &mut told.notice,
                handlers,
                out,
                spans,
            )
        }
        None => unreachable!(),
    }
}

/// Appends a notice to the subscription at the instant, and adds where that stands, if it has
/// entries. What was written before stays in front.
fn write_notice(
    alloc: Global,
    subscription: &Subscription,
    instant: u64,
    notice: &mut Notice,
    handlers: &Handlers,
    out: &mut Vec<u8>,
    spans: &mut Spans,
) -> Result<(), AllocError>
    requires action { subscription.now.action
        < length (labels handlers.now.items.items (λ h. h.name) (λ h. h.kind)) }
    ensures text { OnOk result (out.new.items ≡ out.old.items
        ++ entries_text (handed_in handlers.now.items.items (λ h. h.name) (λ h. h.kind)
        handlers.now.predicates.items (λ p. p.name) (λ p. p.relation))
        subscription.now instant notice.old.entries) }
    ensures front { StartsWith out.new.items out.old.items }
    ensures span { OnOk result (spans.new ≡ spans.old
        ++ span_of subscription.now.name (length out.old.items)
        (entries_text (handed_in handlers.now.items.items (λ h. h.name) (λ h. h.kind)
        handlers.now.predicates.items (λ p. p.name) (λ p. p.relation))
        subscription.now instant notice.old.entries)) }
    ensures entries { notice.new.entries ≡ notice.old.entries }
{
    if notice.entries.as_slice().is_empty() {
        return Ok(());
    }
    notice.name = subscription.name.copy(alloc)?;
    notice.instant = instant;
    let from = out.len();
    let argument = subscription.argument.as_slice();
    handlers.call(subscription.action, argument, notice, out)?;
    let to = out.len();
    let name = replace(&mut notice.name, Bytes::new(alloc));
    spans.push(Span { name, from, to })
}

/// The number of changes at the subscription's latest firing. Of one that fires at changes it
/// follows from its first firing and the last changes of its sources: no change has to write it
/// down.
pub(crate) fn mark_of(subscription: &Subscription, store: &Store) -> Option<u64>
    ensures { result ≡ mark_in store.now subscription.now }
{
    mark_at(
        subscription,
        latest_change(store, subscription.sources.as_slice()),
    )
}

/// The number of changes at the latest firing of a subscription whose sources last changed at this
/// number.
pub(crate) fn mark_at(subscription: &Subscription, changed: u64) -> Option<u64>
    ensures { (store : StoreState) → changed ≡ latest_in store subscription.now.sources
        → result ≡ mark_in store subscription.now }
{
    let first = subscription.noted?;
    if subscription.timing.every != 0 {
        return Some(first);
    }
    Some(if changed > first { changed } else { first })
}

/// The greatest of the last changes of these sources.
pub(crate) fn latest_change(store: &Store, sources: &[Bytes]) -> u64
    ensures { result ≡ latest_in store.now sources.now }
{
    let mut latest = 0;
    for name in sources {
        let last = last_change(store, name);
        if last > latest {
            latest = last;
        }
    }
    latest
}
