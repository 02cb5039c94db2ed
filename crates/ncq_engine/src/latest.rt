//! What was told last, and what is kept of what was told before: those that ask the same are told
//! the same.
ghost use Rattle.std.specs.Prelude.{◌≡◌, None, IfOk, IfSome, IsTrue, List, OnOk};
ghost use Rattle.std.specs.FinMap.{get};
ghost use Rattle.ncq_book.specs.Books.{AskAlike};
ghost use Rattle.ncq_callback.specs.Labels.{Handed};
ghost use Rattle.ncq_group.specs.Tables.{Facts, TableState};
ghost use Rattle.ncq_news.specs.News.{entries_of, since_mark};
ghost use Rattle.ncq_plan.specs.Relations.{Relations, relations};
ghost use Rattle.ncq_shelf.specs.Stands.{IsThere};
ghost use Rattle.ncq_source.specs.StoreStates.{StoreState};
ghost use Rattle.ncq_engine.specs.Cached.{AllServe, Grows, key_of};
ghost use Rattle.ncq_engine.specs.Engines.{CanTell, latest_in, mark_in, rows_in_file};
ghost use Rattle.ncq_engine.specs.Tellings.{HasNews, IsKeyed, IsLatest, KnowsChange};

use crate::firing::{latest_change, mark_at};
use ncq_base::{Bytes, Copied};
use ncq_book::{Subscription, ask_alike};
use ncq_cache::{NoticeCache, NoticeKey};
use ncq_callback::{Entries, Handlers, Notice};
use ncq_group::GroupTable;
use ncq_news::news;
use ncq_source::Store;
use std::alloc::{AllocError, Global};

/// What the answer of a subscription gained and lost since a mark.
#[derive(Drop)]
pub(crate) struct Latest<'a> {
    pub(crate) subscription: &'a Subscription,
    /// The greatest of the last changes of its sources.
    pub(crate) changed: u64,
    pub(crate) mark: Option<u64>,
    /// The notice that it was told last.
    pub(crate) notice: Notice,
    /// By what others find the entries later: none where nobody else has the file.
    pub(crate) key: Option<NoticeKey>,
}

/// What the answer of the subscription gained and lost since its mark becomes what was told last,
/// to be told at the instant. It is that already, where that was told of the same file, by the same
/// checks and template, since the same mark; else it is looked for among what was told before, or
/// made. Where it is known to ask as what was told last, they are not compared.
pub(crate) fn find_news<'a>(
    alloc: Global,
    subscription: &'a Subscription,
    known: bool,
    instant: u64,
    groups: &GroupTable,
    store: &Store,
    handlers: &Handlers,
    latest: &mut Option<Latest<'a>>,
    cache: &mut NoticeCache,
) -> Result<(), AllocError>
    requires can { (handed : Handed) × CanTell handed store.now groups.now subscription.now }
    requires latest { IfSome latest.old (IsLatest
        (relations handlers.now.predicates.items (λ p. p.name) (λ p. p.relation))
        store.now groups.now) }
    requires serve { AllServe
        (relations handlers.now.predicates.items (λ p. p.name) (λ p. p.relation))
        groups.now cache.old }
    requires known { IsTrue known → IfSome latest.old
        (λ told. AskAlike told.subscription.now subscription.now) }
    ensures news { OnOk result (HasNews
        (relations handlers.now.predicates.items (λ p. p.name) (λ p. p.relation))
        store.now groups.now.files subscription.now latest.new) }
    ensures latest { IfSome latest.new (IsLatest
        (relations handlers.now.predicates.items (λ p. p.name) (λ p. p.relation))
        store.now groups.now) }
    ensures alike { IfSome latest.new
        (λ told. AskAlike told.subscription.now subscription.now) }
    ensures cached { Grows
        (relations handlers.now.predicates.items (λ p. p.name) (λ p. p.relation))
        groups.now cache.old cache.new }
{
    let changed = change_of(subscription, store, latest);
    let mark = mark_at(subscription, changed);
    if let Some(told) = latest {
        if serves(told, subscription, known, mark) {
            return told.notice.entries.write_down(alloc, instant);
        }
    }
    put_back(latest, cache);
    groups.facts();
    let key = shared_key(alloc, subscription, mark, groups)?;
    let entries = look_up(
        alloc,
        subscription,
        mark,
        instant,
        groups,
        handlers,
        &key,
        cache,
    )?;
    let notice = Notice {
        name: Bytes::new(alloc),
        instant: 0,
        entries,
    };
    *latest = Some(Latest {
        subscription,
        changed,
        mark,
        notice,
        key,
    });
    Ok(())
}

/// The greatest of the last changes of the sources of the subscription. It is known already where
/// what was told last is of the same file.
fn change_of(subscription: &Subscription, store: &Store, latest: &Option<Latest<'_>>) -> u64
    requires { (handed : Handed) × (table : TableState)
        × (CanTell handed store.now table subscription.now
        × IfSome latest.now (KnowsChange store.now table)) }
    ensures { result ≡ latest_in store.now subscription.now.sources }
{
    if let Some(told) = latest {
        if told.subscription.file.0 == subscription.file.0 {
            return told.changed;
        }
    }
    latest_change(store, subscription.sources.as_slice())
}

/// What was told last goes among what others may ask for, if others have its file. Then nothing was
/// told last.
pub(crate) fn put_back(latest: &mut Option<Latest<'_>>, cache: &mut NoticeCache)
    ensures none { latest.new ≡ None }
    ensures cached { (relations : Relations) (table : TableState)
        → IfSome latest.old (IsKeyed relations table)
        → Grows relations table cache.old cache.new }
{
    let Some(told) = latest.take() else {
        return;
    };
    let Latest { notice, key, .. } = told;
    if let Some(key) = key {
        cache.put(key, notice.entries);
    }
}

/// By what others find what the subscription is told since a mark: none where nobody else has its
/// file.
fn shared_key(
    alloc: Global,
    subscription: &Subscription,
    mark: Option<u64>,
    groups: &GroupTable,
) -> Result<Option<NoticeKey>, AllocError>
    requires { IsThere groups.now.files subscription.now.file.0 }
    ensures { IfOk result (λ key. IfSome key
        (λ k. k ≡ key_of subscription.now mark groups.now.number)) }
{
    if groups.uses(subscription.file) < 2 {
        return Ok(None);
    }
    Ok(Some(NoticeKey {
        file: subscription.file,
        residual: subscription.query.residual.copy(alloc)?,
        template: subscription.query.template.copy(alloc)?,
        mark,
        change: groups.number(),
    }))
}

/// What was told under the key, if that is kept, and else what the rows of the file tell since the
/// mark.
fn look_up(
    alloc: Global,
    subscription: &Subscription,
    mark: Option<u64>,
    instant: u64,
    groups: &GroupTable,
    handlers: &Handlers,
    key: &Option<NoticeKey>,
    cache: &mut NoticeCache,
) -> Result<Entries, AllocError>
    requires can { (handed : Handed) × (store : StoreState)
        × (CanTell handed store groups.now subscription.now
        × (mark ≡ mark_in store subscription.now)) }
    requires facts { Facts groups.now }
    requires key { IfSome key.now (λ k. k ≡ key_of subscription.now mark groups.now.number) }
    requires serve { AllServe
        (relations handlers.now.predicates.items (λ p. p.name) (λ p. p.relation))
        groups.now cache.old }
    ensures entries { IfOk result (λ entries. entries ≡ entries_of
        (relations handlers.now.predicates.items (λ p. p.name) (λ p. p.relation))
        subscription.now.query
        (since_mark mark (rows_in_file (get groups.now.files subscription.now.file.0)))) }
    ensures cached { Grows
        (relations handlers.now.predicates.items (λ p. p.name) (λ p. p.relation))
        groups.now cache.old cache.new }
{
    if let Some(key) = key {
        if let Some(mut entries) = cache.take(key) {
            entries.write_down(alloc, instant)?;
            return Ok(entries);
        }
    }
    let file = groups.file(subscription.file);
    news(
        alloc,
        &subscription.query,
        handlers.predicates(),
        &file,
        mark,
        groups.number(),
    )
}

/// Whether it is what the subscription is told since this mark. Where they are known to ask alike,
/// only the marks are compared.
fn serves(latest: &Latest<'_>, subscription: &Subscription, known: bool, mark: Option<u64>) -> bool
    requires { IsTrue known → AskAlike latest.now.subscription.now subscription.now }
    ensures alike { IsTrue result → AskAlike latest.now.subscription.now subscription.now }
    ensures mark { IsTrue result → (latest.now.mark ≡ mark) }
{
    same_mark(latest.mark, mark) && (known || ask_alike(latest.subscription, subscription))
}

fn same_mark(a: Option<u64>, b: Option<u64>) -> bool
    ensures { IsTrue result → (a ≡ b) }
{
    a == b
}
