//! What those that fire are told.
ghost use Rattle.std.specs.Prelude.{◌≡◌, ◌++◌, ◌∷◌, [], ◌<◌, ◌-◌, ◌^◌, length};
ghost use Rattle.std.specs.Prelude.{IsSome, IsTrue, IfOk, OnOk, Some};
ghost use Rattle.std.specs.Io.{StartsWith};
ghost use Rattle.std.specs.List.{AllByRecursion};
ghost use Rattle.ncq_book.specs.Books.{subscription_of, watchers_of, InstallsRise};
ghost use Rattle.ncq_callback.specs.Labels.{handed_in};
ghost use Rattle.ncq_distinct.specs.DistinctTables.{HaveSameCounts};
ghost use Rattle.ncq_plan.specs.Relations.{relations};
ghost use Rattle.ncq_engine.specs.Cached.{AllServe, Grows};
ghost use Rattle.ncq_engine.specs.Output.{ok_text};
ghost use Rattle.ncq_engine.specs.Tellings.{firings_spans, firings_text, noted_by};
ghost use Rattle.ncq_engine.specs.Tellings.{started_of, Awaits, CanTellEach};
ghost use Rattle.ncq_engine.specs.Tellings.{IsAnswered};

use crate::firing::fire;
use crate::latest::put_back;
use crate::span::Spans;
use crate::who::started;
use ncq_base::write_decimal;
use ncq_cache::NoticeCache;
use ncq_callback::Handlers;
use ncq_distinct::DistinctTable;
use ncq_event::{Firing, Firings};
use ncq_live::LiveTable;
use ncq_source::Store;
use std::alloc::{AllocError, Global};

/// What an accepted command wrote.
#[derive(Drop)]
pub(crate) struct Answered {
    /// The place in the output where its notices begin.
    pub from: usize,
    /// The place where they end.
    pub to: usize,
    /// Where each of them stands.
    pub spans: Spans,
}

impl Answered {
    /// Where these notices were written behind the first line.
    pub(crate) fn with(self, spans: Spans, out: &Vec<u8>) -> Answered
        ensures { result ≡ record {
          from = self.from;
          to = length out.now.items;
          spans = spans;
        } }
    {
        Answered {
            from: self.from,
            to: out.len(),
            spans,
        }
    }
}

/// Appends the line that says that the command of this number is accepted; what was there stays in
/// front.
pub(crate) fn write_accepted(
    alloc: Global,
    number: u64,
    out: &mut Vec<u8>,
) -> Result<Answered, AllocError>
    ensures text { OnOk result (out.new.items ≡ out.old.items ++ ok_text number) }
    ensures front { StartsWith out.new.items out.old.items }
    ensures places { IfOk result (λ answered. answered ≡ record {
      from = length out.new.items;
      to = length out.new.items;
      spans = [];
    }) }
{
    write_decimal(number, out)?;
    out.extend_from_slice(b" ok\n")?;
    Ok(Answered {
        from: out.len(),
        to: out.len(),
        spans: Spans::new(alloc),
    })
}

/// Appends the notices of firings, in their order, and tells where each stands. With DISTINCT the
/// changes of counts wait.
pub(crate) fn tell(
    alloc: Global,
    live_table: &LiveTable,
    firings: &[Firing],
    store: &Store,
    handlers: &Handlers,
    out: &mut Vec<u8>,
    cache: &mut NoticeCache,
    distinct: &mut DistinctTable,
) -> Result<Spans, AllocError>
    requires can { CanTellEach (handed_in handlers.now.items.items (λ h. h.name) (λ h. h.kind)
        handlers.now.predicates.items (λ p. p.name) (λ p. p.relation))
        store.now live_table.now }
    requires serve { AllServe
        (relations handlers.now.predicates.items (λ p. p.name) (λ p. p.relation))
        live_table.now.table cache.old }
    requires there { AllByRecursion
        (λ f. IsSome (subscription_of f.install live_table.now.subscriptions)) firings.now }
    ensures text { OnOk result (out.new.items ≡ out.old.items
        ++ firings_text (handed_in handlers.now.items.items (λ h. h.name) (λ h. h.kind)
        handlers.now.predicates.items (λ p. p.name) (λ p. p.relation)) store.now
        distinct.old live_table.now firings.now) }
    ensures front { StartsWith out.new.items out.old.items }
    ensures spans { IfOk result (λ spans. spans
        ≡ firings_spans (handed_in handlers.now.items.items (λ h. h.name) (λ h. h.kind)
        handlers.now.predicates.items (λ p. p.name) (λ p. p.relation)) store.now
        distinct.old live_table.now (length out.old.items) firings.now) }
    ensures cached { Grows
        (relations handlers.now.predicates.items (λ p. p.name) (λ p. p.relation))
        live_table.now.table cache.old cache.new }
    ensures counts { HaveSameCounts distinct.old distinct.new }
    ensures waiting { OnOk result (Awaits
        (relations handlers.now.predicates.items (λ p. p.name) (λ p. p.relation))
        store.now live_table.now firings.now distinct.new) }
{
    distinct.forget();
    let mut spans = Spans::new(alloc);
    let mut latest = None;
    for firing in firings {
        let Some(subscription) = live_table.book().get(firing.install) else {
            unreachable!();
        };
        fire(
            alloc,
            subscription,
            false,
            firing.instant,
            live_table.groups(),
            store,
            handlers,
            out,
            &mut spans,
            &mut latest,
            cache,
            distinct,
        )?;
    }
    put_back(&mut latest, cache);
    Ok(spans)
}

/// Appends the notices of those subscriptions of these install numbers that have started, each now,
/// and tells where each stands.
fn tell_started(
    alloc: Global,
    live_table: &LiveTable,
    installs: &[u64],
    store: &Store,
    handlers: &Handlers,
    out: &mut Vec<u8>,
    cache: &mut NoticeCache,
    distinct: &mut DistinctTable,
) -> Result<Spans, AllocError>
    requires can { CanTellEach (handed_in handlers.now.items.items (λ h. h.name) (λ h. h.kind)
        handlers.now.predicates.items (λ p. p.name) (λ p. p.relation))
        store.now live_table.now }
    requires serve { AllServe
        (relations handlers.now.predicates.items (λ p. p.name) (λ p. p.relation))
        live_table.now.table cache.old }
    ensures text { OnOk result (out.new.items ≡ out.old.items
        ++ firings_text (handed_in handlers.now.items.items (λ h. h.name) (λ h. h.kind)
        handlers.now.predicates.items (λ p. p.name) (λ p. p.relation)) store.now
        distinct.old live_table.now (started_of live_table.now installs.now)) }
    ensures front { StartsWith out.new.items out.old.items }
    ensures spans { IfOk result (λ spans. spans
        ≡ firings_spans (handed_in handlers.now.items.items (λ h. h.name) (λ h. h.kind)
        handlers.now.predicates.items (λ p. p.name) (λ p. p.relation)) store.now
        distinct.old live_table.now (length out.old.items)
        (started_of live_table.now installs.now)) }
    ensures cached { Grows
        (relations handlers.now.predicates.items (λ p. p.name) (λ p. p.relation))
        live_table.now.table cache.old cache.new }
    ensures counts { HaveSameCounts distinct.old distinct.new }
    ensures waiting { OnOk result (Awaits
        (relations handlers.now.predicates.items (λ p. p.name) (λ p. p.relation))
        store.now live_table.now
        (started_of live_table.now installs.now) distinct.new) }
{
    let list = live_table.book().listed(alloc, installs)?;
    let now = live_table.book().instant();
    distinct.forget();
    let mut spans = Spans::new(alloc);
    let mut latest = None;
    let mut asked = None;
    for listed in list.as_slice() {
        if listed.subscription.timing.start > now {
            continue;
        }
        let known = is_asked(asked, listed.question);
        asked = Some(listed.question);
        fire(
            alloc,
            listed.subscription,
            known,
            now,
            live_table.groups(),
            store,
            handlers,
            out,
            &mut spans,
            &mut latest,
            cache,
            distinct,
        )?;
    }
    put_back(&mut latest, cache);
    Ok(spans)
}

/// Whether this is the question that was asked last.
fn is_asked(asked: Option<u64>, question: u64) -> bool
    ensures { IsTrue result → (asked ≡ Some question) }
{
    asked == Some(question)
}

/// Appends the answer to an accepted change: its first line, and the notices of those that fire at
/// changes, have started, and have one of these files.
pub(crate) fn answer_change(
    alloc: Global,
    number: u64,
    live_table: &LiveTable,
    fed: &[u64],
    store: &Store,
    handlers: &Handlers,
    out: &mut Vec<u8>,
    cache: &mut NoticeCache,
    distinct: &mut DistinctTable,
) -> Result<Answered, AllocError>
    requires can { CanTellEach (handed_in handlers.now.items.items (λ h. h.name) (λ h. h.kind)
        handlers.now.predicates.items (λ p. p.name) (λ p. p.relation))
        store.now live_table.now }
    requires serve { AllServe
        (relations handlers.now.predicates.items (λ p. p.name) (λ p. p.relation))
        live_table.now.table cache.old }
    ensures told { IfOk result (IsAnswered number
        (handed_in handlers.now.items.items (λ h. h.name) (λ h. h.kind)
        handlers.now.predicates.items (λ p. p.name) (λ p. p.relation)) store.now distinct.old
        live_table.now
        (started_of live_table.now (watchers_of fed.now live_table.now.subscriptions))
        out.old.items out.new.items) }
    ensures front { StartsWith out.new.items out.old.items }
    ensures cached { Grows
        (relations handlers.now.predicates.items (λ p. p.name) (λ p. p.relation))
        live_table.now.table cache.old cache.new }
    ensures counts { HaveSameCounts distinct.old distinct.new }
    ensures waiting { OnOk result (Awaits
        (relations handlers.now.predicates.items (λ p. p.name) (λ p. p.relation))
        store.now live_table.now
        (started_of live_table.now (watchers_of fed.now live_table.now.subscriptions))
        distinct.new) }
{
    let answered = write_accepted(alloc, number, out)?;
    let watchers = live_table.book().watchers(alloc, fed)?;
    let installs = watchers.as_slice();
    let spans = tell_started(
        alloc, live_table, installs, store, handlers, out, cache, distinct,
    )?;
    Ok(answered.with(spans, out))
}

/// Appends the answer to an accepted create: its first line, and the first notice of the
/// subscription of this install number, if it starts now. The answer tells its firing too.
pub(crate) fn answer_create(
    alloc: Global,
    number: u64,
    live_table: &LiveTable,
    install: u64,
    store: &Store,
    handlers: &Handlers,
    out: &mut Vec<u8>,
    cache: &mut NoticeCache,
    distinct: &mut DistinctTable,
) -> Result<(Answered, Firings), AllocError>
    requires can { CanTellEach (handed_in handlers.now.items.items (λ h. h.name) (λ h. h.kind)
        handlers.now.predicates.items (λ p. p.name) (λ p. p.relation))
        store.now live_table.now }
    requires serve { AllServe
        (relations handlers.now.predicates.items (λ p. p.name) (λ p. p.relation))
        live_table.now.table cache.old }
    ensures told { IfOk result (λ told. IsAnswered number
        (handed_in handlers.now.items.items (λ h. h.name) (λ h. h.kind)
        handlers.now.predicates.items (λ p. p.name) (λ p. p.relation)) store.now distinct.old
        live_table.now told.1 out.old.items out.new.items told.0) }
    ensures front { StartsWith out.new.items out.old.items }
    ensures firings { IfOk result (λ told. told.1 ≡ started_of live_table.now (install ∷ [])) }
    ensures cached { Grows
        (relations handlers.now.predicates.items (λ p. p.name) (λ p. p.relation))
        live_table.now.table cache.old cache.new }
    ensures counts { HaveSameCounts distinct.old distinct.new }
    ensures waiting { OnOk result (Awaits
        (relations handlers.now.predicates.items (λ p. p.name) (λ p. p.relation))
        store.now live_table.now
        (started_of live_table.now (install ∷ [])) distinct.new) }
{
    let answered = write_accepted(alloc, number, out)?;
    let firings = started(alloc, live_table.book(), &[install])?;
    let spans = tell(
        alloc,
        live_table,
        firings.as_slice(),
        store,
        handlers,
        out,
        cache,
        distinct,
    )?;
    Ok((answered.with(spans, out), firings))
}

/// Writes down that the subscriptions of these firings fired at this number of changes. It takes no
/// memory.
pub(crate) fn note_all(live_table: &mut LiveTable, number: u64, firings: &[Firing])
    ensures { live_table.new ≡ record live_table.old {
      subscriptions = noted_by number firings.now live_table.old.subscriptions;
    } }
{
    for firing in firings {
        live_table.note(firing.install, number);
    }
}
