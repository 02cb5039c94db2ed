//! The engine: the sources, the clock and the live subscriptions, and the answer to each command.
ghost use Rattle.std.specs.Prelude.{◌≡◌, ◌≢◌, ◌⊎◌, ◌+◌, ◌-◌, ◌<◌, ◌≤◌, ◌^◌, ◌++◌, ◌∷◌, [], ℕ, List};
ghost use Rattle.std.specs.Prelude.{length, map};
ghost use Rattle.std.specs.Prelude.{codes, decimal, IfOk, OnOk, OnErr, IfSome, IfNone, Err, None};
ghost use Rattle.std.specs.Prelude.{Some, true, false};
ghost use Rattle.std.specs.FinMap.{empty, get};
ghost use Rattle.std.specs.List.{flat_map, list_all, AllByRecursion};
ghost use Rattle.std.specs.Option.{is_some, unwrap_or};
ghost use Rattle.ncq_bind.specs.Bindings.{are_declared, roots_in};
ghost use Rattle.ncq_callback.specs.Labels.{handed_in, labels};
ghost use Rattle.ncq_engine.specs.Cached.{AllServe};
ghost use Rattle.ncq_engine.specs.Firing.{source_of};
ghost use Rattle.ncq_engine.specs.Stands.{EngineState, Follows, IsBounded, Stands};
ghost use Rattle.ncq_engine.specs.Summaries.{IsSummary};
ghost use Rattle.ncq_engine.specs.Works.{IsWithinWork};
ghost use Rattle.ncq_live.specs.Shares.{Shares};
ghost use Rattle.ncq_engine.specs.Applies.{Applies, WritesNotices, IfAnswered, IfGivenUp};
ghost use Rattle.ncq_engine.specs.Applies.{IfRefused, OfEach, AreSpans, kind_at};
ghost use Rattle.ncq_engine.specs.Applies.{refused_change, change_refusal, refused_query};
ghost use Rattle.ncq_engine.specs.Applies.{query_refusal};
ghost use Rattle.ncq_engine.specs.Applies.{KeepsCache, OfFollowed};
ghost use Rattle.ncq_engine.specs.Compactions.{AreCompacted, HasBase, IsChange, IsWorn, KeepBases};
ghost use Rattle.ncq_engine.specs.Compactions.{least_of, MoveBases};
ghost use Rattle.ncq_engine.specs.Engines.{new_subscription, KeepsCounts};
ghost use Rattle.ncq_engine.specs.History.{History, start_of};
ghost use Rattle.ncq_engine.specs.Joins.{IsSubscriptionOf, OfStatement};
ghost use Rattle.ncq_engine.specs.Languages.{language_of};
ghost use Rattle.ncq_engine.specs.Notices.{kind_in, name_at};
ghost use Rattle.ncq_engine.specs.Output.{is_at_odds, first_refusal, accepted_text};
ghost use Rattle.ncq_book.specs.Books.{alike};
ghost use Rattle.ncq_plan.specs.Late.{bare_of};
ghost use Rattle.ncq_plan.specs.WellFormed.{IsWellFormed};
ghost use Rattle.ncq_script.specs.Proper.{IsProperCommand};
ghost use Rattle.ncq_shelf.specs.KeptFiles.{AtFile};
ghost use Rattle.ncq_shelf.specs.RowCounts.{CountsRows};
ghost use Rattle.ncq_shelf.specs.Stands.{IsThere};
ghost use Rattle.ncq_source.specs.Proper.{puts_proper};
ghost use Rattle.ncq_source.specs.StoreStates.{found, IsDeclared};
ghost use Rattle.ncq_xmlql.specs.declared.model.Statement.{Statement as a_statement};
ghost use Rattle.ncq_xmlql.specs.WellFormed.{IsWellFormed as StatementIsWellFormed};

use crate::compaction::{is_due, least_mark};
use crate::expiry::{take_all, write_expired};
use crate::handed::{labels_of, relations_of};
use crate::span::{Span, Spans};
use crate::telling::{Answered, answer_change, answer_create, note_all, tell, write_accepted};
use crate::who::with_news;
use ncq_base::{Bytes, Copied, FileId, Sequence, Shared, Steps};
use ncq_bind::{BindError, bind};
use ncq_book::Subscription;
use ncq_cache::NoticeCache;
use ncq_callback::{Handlers, Kind};
use ncq_distinct::DistinctTable;
use ncq_event::{Timing, is_expired};
use ncq_live::LiveTable;
use ncq_plan::{NormalQuery, Relation, bare, share_shapes};
use ncq_report::{Summary, write_report};
use ncq_script::{Command, Refusal};
use ncq_source::{ChangeError, DeclareError, Key, Sections, Store};
use ncq_strategy::plan_by;
use ncq_xmlql::{QueryItem, Statement};
use std::alloc::{AllocError, Global};
use std::hash::RandomState;
use std::marker::Model;
use std::sync::ledger::Ledger;
use thiserror::Error;

/// What an accepted command wrote.
#[derive(Clone, Copy, Debug, PartialEq, Eq)]
pub struct Applied {
    /// The place in the output where its notices begin.
    pub from: usize,
    /// The place where they end.
    pub to: usize,
    /// How many they are.
    pub notices: u64,
}

/// Why a command was not accepted.
#[derive(Debug, Drop, Error)]
pub enum ApplyError {
    /// The first refusal that the command meets.
    #[error("refused")]
    Refused(Refusal),
    /// Memory ran out; this may come at any call. The engine and the output stand as before the
    /// call: a caller can `shed`, give back memory of its own, and try the same command again.
    #[error("out of memory")]
    OutOfMemory,
}

impl From<AllocError> for ApplyError {
    ghost use Rattle.std.specs.Prelude.{◌≡◌};
    ghost use Rattle.ncq_engine.specs.declared.engine.ApplyError.TheVariants.{OutOfMemory};

    ghost from_gives = { λ _ e. e ≡ OutOfMemory };

    fn from(_error: AllocError) -> ApplyError {
        ApplyError::OutOfMemory
    }
}

/// The sources with their elements, and the live subscriptions with the clock and the files of
/// their plans.
pub struct Engine {
    store: Store,
    live_table: LiveTable,
    count: u64,
    creates: u64,
    labels: Vec<(Bytes, Kind)>,
    relations: Vec<(Bytes, Relation)>,
    spans: Spans,
    cache: NoticeCache,
    distinct: DistinctTable,
}

impl Drop for Engine {
    fn drop(self) {
        let Engine {
            store,
            live_table,
            count: _,
            creates: _,
            labels,
            relations,
            spans,
            cache,
            distinct,
        } = self;
        drop(store);
        drop(live_table);
        drop(labels);
        drop(relations);
        drop(spans);
        drop(cache);
        drop(distinct);
    }
}

impl Model for Engine {
    ghost use Rattle.ncq_engine.specs.Engines.{IsEngine};
    ghost use Rattle.ncq_engine.specs.Stands.{EngineState, engine_code};

    ghost Value = { EngineState };

    ghost coded = { engine_code };

    ghost view = { λ e. record {
      store = e.store;
      clock = e.live_table.instant;
      count = e.count;
      creates = e.creates;
      handed = record { labels = e.labels.items; relations = e.relations.items };
      subscriptions = e.live_table.subscriptions;
      table = e.live_table.table;
      spans = e.spans;
      cache = e.cache;
      distinct = e.distinct;
    } };

    ghost invariant = { λ e.
        IsEngine e.store e.count e.creates
        (record { labels = e.labels.items; relations = e.relations.items })
        e.live_table.subscriptions e.live_table.table e.cache e.distinct };
}

impl Engine {
    /// An engine that accepted no command, for handlers of these names and kinds, and predicates of
    /// these names and relations. Its maps place keys by the seed.
    pub fn new(alloc: Global, seed: RandomState, handlers: &Handlers) -> Result<Engine, AllocError>
        ensures stands { IfOk result (λ engine. Stands engine []) }
        ensures count { IfOk result (λ engine. engine.count ≡ 0) }
        ensures no_spans { IfOk result (λ engine. engine.spans ≡ []) }
        ensures no_cache { IfOk result (λ engine. engine.cache ≡ []) }
        ensures no_counts { IfOk result (λ engine. engine.distinct ≡ empty) }
        ensures handed { IfOk result (λ engine. engine.handed
            ≡ (handed_in handlers.now.items.items (λ h. h.name) (λ h. h.kind)
            handlers.now.predicates.items (λ p. p.name) (λ p. p.relation))) }
    {
        let labels = labels_of(alloc, handlers)?;
        let relations = relations_of(alloc, handlers.predicates())?;
        let engine = Engine {
            store: Store::new(alloc, seed),
            live_table: LiveTable::new(alloc, seed),
            count: 0,
            creates: 0,
            labels,
            relations,
            spans: Spans::new(alloc),
            cache: NoticeCache::new(alloc)?,
            distinct: DistinctTable::new(alloc, seed),
        };
        engine.stands();
        Ok(engine)
    }

    /// The instant of the last accepted clock command, or 0.
    pub fn now(&self) -> u64
        ensures { result ≡ self.now.clock }
    {
        self.live_table.book().instant()
    }

    /// How many commands were answered: accepted ones and refused ones.
    pub fn count(&self) -> u64
        ensures { result ≡ self.now.count }
    {
        self.count
    }

    /// How many subscriptions are live.
    pub fn live(&self) -> usize
        ensures { result ≡ length self.now.subscriptions }
    {
        self.live_table.book().len()
    }

    /// How many signed rows the files have in all: those that selections by intervals share count
    /// once. It tells at most 2^64 - 1. It takes no memory, and time in proportion to the files.
    pub fn rows(&self) -> u64
        ensures { CountsRows self.now.table.files result }
    {
        self.live_table.groups().rows()
    }

    /// How many lists of what was told are kept for whoever asks the same. It takes no memory.
    pub fn cached(&self) -> usize
        ensures lists { result ≡ length self.now.cache }
        ensures few { result ≤ 64 }
    {
        self.cache.len()
    }

    /// How often such a list was found and told again, 2^64 - 1 at most. No clause says that one
    /// is: this tells it.
    pub fn served(&self) -> u64 {
        self.cache.served()
    }

    /// Answers a command. Ok appends the answer of an accepted one: the line `<k> ok` with its
    /// number, the notices by instant and then by install number, and a line for each subscription
    /// that expires, or the report. `Refused` comes exactly with the first refusal that the command
    /// meets; then `out` is as before, and the engine stands for what it stood for. Either counts
    /// the command. Each row that is made is at most one step.
    ///
    /// Where memory runs out, the engine stands for what it stood for, `out` is as before, and the
    /// command is not counted: whatever comes next, the same command again too, is answered as if
    /// this one had not come. The steps that it took stay counted.
    ///
    /// The handlers and predicates are those that the engine was made for. The command is one that
    /// a `ScriptReader` gives: the elements that it puts are proper, and its statement is well
    /// formed.
    pub fn apply<L: Ledger>(
        &mut self,
        alloc: Global,
        command: &Command,
        handlers: &Handlers,
        out: &mut Vec<u8>,
        steps: &mut Steps<L>,
    ) -> Result<Applied, ApplyError>
        requires few { self.old.count < 2 ^ 48 }
        requires proper { IsProperCommand command.now }
        requires handlers { self.old.handed
            ≡ (handed_in handlers.now.items.items (λ h. h.name) (λ h. h.kind)
            handlers.now.predicates.items (λ p. p.name) (λ p. p.relation)) }

        // An accepted command meets no refusal and joins the history; its answer is appended.
        ensures accepted { OnOk result (OfEach self.old (λ history.
            first_refusal (language_of self.old.handed) history command.now ≡ None)) }
        ensures joined { OnOk result (OfEach self.old (λ history.
            Stands self.new (command.now ∷ history))) }
        ensures answer { OnOk result (OfEach self.old (λ history. out.new.items
            ≡ out.old.items ++ accepted_text (language_of self.old.handed) history
            (self.old.count + 1) command.now)) }
        ensures notices { IfOk result (WritesNotices self.old command.now out.old.items) }
        ensures spans { OnOk result (OfEach self.old (λ history.
            AreSpans self.old history command.now out.old.items self.new.spans)) }
        ensures no_spans { OnErr result (self.new.spans ≡ []) }

        // A refused one meets this refusal first.
        ensures refused { IfRefused result (λ why. OfEach self.old (λ history.
            first_refusal (language_of self.old.handed) history command.now ≡ Some why)) }

        // Refused or given up for want of memory, it leaves the history and what was written.
        ensures stays { OnErr result (OfEach self.old (Stands self.new)) }
        ensures unwritten { OnErr result (out.new.items ≡ out.old.items) }

        // Before a change is made, each worn file was compacted to the least mark of those who have
        // it: no file keeps for long what went out of it.
        ensures compacted { IfAnswered result
            (IsChange command.now → AreCompacted self.old self.new) }

        // It is counted unless it is given up; whatever is answered, the names, kinds and relations
        // of what it was handed stay.
        ensures counted { IfAnswered result (self.new.count ≡ self.old.count + 1) }
        ensures uncounted { IfGivenUp result (self.new.count ≡ self.old.count) }
        ensures handed { self.new.handed ≡ self.old.handed }

        // Each row that is made is at most one step: whatever is answered, they are within the work
        // of the command.
        ensures work { IsWithinWork self.old command.now steps.old steps.new }
    {
        let before = out.len();
        let result = self.answer(alloc, command, handlers, out, steps);
        self.spans = Spans::new(alloc);
        self.stands();
        match result {
            Ok(answered) => Ok(self.keep(answered)),
            Err(ApplyError::Refused(refusal)) => Err(ApplyError::Refused(refusal)),
            Err(ApplyError::OutOfMemory) => {
                out.truncate(before);
                Err(ApplyError::OutOfMemory)
            }
        }
    }

    /// The files are those of the parts of the plans of the live subscriptions, one each: this call
    /// does nothing.
    pub fn shares(&self)
        ensures { Shares self.now.subscriptions self.now.table }
    {
        self.live_table.shares();
    }

    /// The engine is bounded by each history that it follows, its subscriptions share their files,
    /// what it keeps of what was told serves, and it keeps counts of no others: this call does
    /// nothing.
    fn stands(&self)
        ensures bounded { (history : History) → Follows self.now history
            → IsBounded self.now history }
        ensures shares { Shares self.now.subscriptions self.now.table }
        ensures serve { AllServe self.now.handed.relations self.now.table self.now.cache }
        ensures counts { KeepsCounts self.now.subscriptions self.now.distinct }
    {
        self.live_table.shares();
    }

    /// Where the notices of the last answer stand in the output that it was appended to, in their
    /// order: one span for each notice. After a refusal, and where memory ran out, there is none.
    /// It takes no memory.
    pub fn spans(&self) -> &[Span]
        ensures { result.now ≡ self.now.spans }
    {
        self.spans.as_slice()
    }

    /// Gives back what serves speed alone: what is kept of what was told. The engine stands for
    /// what it stood for. It takes no memory.
    pub fn shed(&mut self)
        ensures shed { self.new ≡ record self.old { cache = [] } }
        ensures stands { OfEach self.old (Stands self.new) }
    {
        self.cache.clear();
    }

    /// Keeps where the notices stand, and tells where they begin and end and how many they are.
    fn keep(&mut self, answered: Answered) -> Applied
        ensures applied { result ≡ record {
          from = answered.from;
          to = answered.to;
          notices = length answered.spans;
        } }
        ensures kept { self.new ≡ record self.old { spans = answered.spans } }
    {
        let notices = answered.spans.len() as u64;
        self.spans = answered.spans;
        Applied {
            from: answered.from,
            to: answered.to,
            notices,
        }
    }

    /// Answers a command.
    fn answer<L: Ledger>(
        &mut self,
        alloc: Global,
        command: &Command,
        handlers: &Handlers,
        out: &mut Vec<u8>,
        steps: &mut Steps<L>,
    ) -> Result<Answered, ApplyError>
        requires few { self.old.count < 2 ^ 48 }
        requires proper { IsProperCommand command.now }
        requires handlers { self.old.handed
            ≡ (handed_in handlers.now.items.items (λ h. h.name) (λ h. h.kind)
            handlers.now.predicates.items (λ p. p.name) (λ p. p.relation)) }
        ensures applies { Applies self.old command.now
            out.old.items result self.new out.new.items }
        ensures handed { self.new.handed ≡ self.old.handed }
        ensures compacted { IfAnswered result
            (IsChange command.now → AreCompacted self.old self.new) }
        ensures cached { KeepsCache self.old self.new }
        ensures work { IsWithinWork self.old command.now steps.old steps.new }
    {
        match command {
            Command::Declare { name, root, key } => self.declare(alloc, name, root, key, out),
            Command::Delta { sections } => self.change(alloc, sections, handlers, out, steps),
            Command::Batch { sections } => self.change(alloc, sections, handlers, out, steps),
            Command::Create { statement } => {
                self.create(alloc, statement.get(), handlers, out, steps)
            }
            Command::Delete { name } => self.delete(alloc, name, out),
            Command::Clock { instant } => self.move_clock(alloc, *instant, handlers, out),
            Command::Report => self.report(alloc, out),
            Command::Malformed { refusal } => self.refuse(*refusal),
        }
    }

    /// Declares a source.
    fn declare(
        &mut self,
        alloc: Global,
        name: &Bytes,
        root: &Bytes,
        key: &Key,
        out: &mut Vec<u8>,
    ) -> Result<Answered, ApplyError>
        requires few { self.old.count < 2 ^ 48 }
        ensures applies { Applies self.old (Command.Declare name.now root.now key.now)
            out.old.items result self.new out.new.items }
        ensures handed { self.new.handed ≡ self.old.handed }
        ensures cached { KeepsCache self.old self.new }
    {
        let before = out.len();
        let answered = write_accepted(alloc, self.count + 1, out)?;
        let its_name = name.copy(alloc)?;
        let its_root = root.copy(alloc)?;
        let its_key = key.copy(alloc)?;
        match self.store.declare(alloc, its_name, its_root, its_key) {
            Ok(_) => {
                self.count += 1;
                Ok(answered)
            }
            Err(DeclareError::Exists) => {
                out.truncate(before);
                self.refuse(Refusal::SourceExists)
            }
            Err(DeclareError::OutOfMemory) => Err(ApplyError::OutOfMemory),
        }
    }

    /// Compacts the files that are worn, changes sources, and tells those that ask one of them.
    fn change<L: Ledger>(
        &mut self,
        alloc: Global,
        sections: &Sections,
        handlers: &Handlers,
        out: &mut Vec<u8>,
        steps: &mut Steps<L>,
    ) -> Result<Answered, ApplyError>
        requires few { self.old.count < 2 ^ 48 }
        requires proper { list_all puts_proper sections.now ≡ true }
        requires handlers { self.old.handed
            ≡ (handed_in handlers.now.items.items (λ h. h.name) (λ h. h.kind)
            handlers.now.predicates.items (λ p. p.name) (λ p. p.relation)) }
        ensures applies { Applies self.old (Command.Delta sections.now)
            out.old.items result self.new out.new.items }
        ensures handed { self.new.handed ≡ self.old.handed }
        ensures compacted { IfAnswered result (AreCompacted self.old self.new) }
        ensures cached { KeepsCache self.old self.new }
        ensures work { IsWithinWork self.old (Command.Delta sections.now) steps.old steps.new }
    {
        self.compact_worn(alloc)?;
        self.stands();
        self.make_change(alloc, sections, handlers, out, steps)
    }

    /// Compacts the files that are worn, and folds the rows that such files share with others,
    /// where that is worth its cost. Where memory runs out, a part of this is done. What is kept of
    /// what was told is given up: only who asks before the next change could be told it.
    fn compact_worn(&mut self, alloc: Global) -> Result<(), AllocError>
        ensures follows { OfFollowed self.old (Follows self.new) }
        ensures same { self.new
            ≡ record self.old { table = self.new.table; cache = self.new.cache } }
        ensures compacted { OnOk result (AreCompacted self.old self.new) }
        ensures cached { (self.new ≡ self.old) ⊎ (self.new.cache ≡ []) }
    {
        let worn = self.live_table.worn(alloc)?;
        if worn.as_slice().is_empty() {
            return Ok(());
        }
        self.cache.clear();
        for number in worn.as_slice() {
            self.compact_file(alloc, *number)?;
        }
        self.fold_worn(alloc, worn.as_slice())
    }

    /// Compacts a file to the least mark of those who have it, where it is due.
    fn compact_file(&mut self, alloc: Global, number: u64) -> Result<(), AllocError>
        requires there { IsThere self.old.table.files number }
        requires nothing { self.old.cache ≡ [] }
        ensures follows { OfFollowed self.old (Follows self.new) }
        ensures same { self.new ≡ record self.old { table = self.new.table } }
        ensures others { (other : ℕ) → other ≢ number
            → get self.new.table.files other ≡ get self.old.table.files other }
        ensures here { AtFile self.old.table.files number (λ file.
            (get self.new.table.files number ≡ Some file)
            ⊎ HasBase self.new.table.files number (least_of self.old number)) }
        ensures compacted { OnOk result (AtFile self.old.table.files number (λ file.
            IsWorn (least_of self.old number) file.content
            → HasBase self.new.table.files number (least_of self.old number))) }
    {
        let least = least_mark(alloc, self.live_table.book(), &self.store, number)?;
        self.live_table.facts();
        let view = self.live_table.groups().file(FileId(number));
        if is_due(&view, least) {
            self.live_table.compact(alloc, number, least)
        } else {
            self.live_table.look_at(alloc, number)
        }
    }

    /// Folds the rows that these files share with others, where that is worth its cost. Where
    /// memory runs out, a part of this is done.
    fn fold_worn(&mut self, alloc: Global, worn: &[u64]) -> Result<(), AllocError>
        requires there { AllByRecursion (IsThere self.old.table.files) worn.now }
        requires nothing { self.old.cache ≡ [] }
        ensures follows { OfFollowed self.old (Follows self.new) }
        ensures same { self.new ≡ record self.old { table = self.new.table } }
        ensures bases { MoveBases self.old self.new }
    {
        for number in worn {
            if self.live_table.groups().is_spent(FileId(*number)) {
                self.fold_group(alloc, *number)?;
            }
        }
        Ok(())
    }

    /// Makes the least marks the bases of the files that share their rows with this one, and folds
    /// these rows. Where memory runs out, a part of this is done.
    fn fold_group(&mut self, alloc: Global, number: u64) -> Result<(), AllocError>
        requires there { IsThere self.old.table.files number }
        requires nothing { self.old.cache ≡ [] }
        ensures follows { OfFollowed self.old (Follows self.new) }
        ensures same { self.new ≡ record self.old { table = self.new.table } }
        ensures bases { MoveBases self.old self.new }
    {
        let siblings = self.live_table.groups().siblings(alloc, FileId(number))?;
        for sibling in siblings.as_slice() {
            self.raise_base(alloc, *sibling)?;
        }
        self.fold(alloc, number)
    }

    /// Makes the least mark of those who have a file its base, where the mark is above the base and
    /// the file shares its rows.
    fn raise_base(&mut self, alloc: Global, number: u64) -> Result<(), AllocError>
        requires there { IsThere self.old.table.files number }
        requires nothing { self.old.cache ≡ [] }
        ensures follows { OfFollowed self.old (Follows self.new) }
        ensures same { self.new ≡ record self.old { table = self.new.table } }
        ensures bases { MoveBases self.old self.new }
    {
        let least = least_mark(alloc, self.live_table.book(), &self.store, number)?;
        self.live_table.facts();
        let base = self.live_table.groups().file(FileId(number)).base();
        if base < least {
            self.live_table.raise_base(number, least);
        }
        Ok(())
    }

    /// Folds the rows that a file shares with others.
    fn fold(&mut self, alloc: Global, number: u64) -> Result<(), AllocError>
        requires there { IsThere self.old.table.files number }
        requires nothing { self.old.cache ≡ [] }
        ensures follows { OfFollowed self.old (Follows self.new) }
        ensures same { self.new ≡ record self.old { table = self.new.table } }
        ensures bases { MoveBases self.old self.new }
    {
        self.live_table.facts();
        self.live_table.fold(alloc, number)
    }

    /// Changes sources, and tells those that ask one of them.
    fn make_change<L: Ledger>(
        &mut self,
        alloc: Global,
        sections: &Sections,
        handlers: &Handlers,
        out: &mut Vec<u8>,
        steps: &mut Steps<L>,
    ) -> Result<Answered, ApplyError>
        requires few { self.old.count < 2 ^ 48 }
        requires proper { list_all puts_proper sections.now ≡ true }
        requires handlers { self.old.handed
            ≡ (handed_in handlers.now.items.items (λ h. h.name) (λ h. h.kind)
            handlers.now.predicates.items (λ p. p.name) (λ p. p.relation)) }
        ensures applies { Applies self.old (Command.Delta sections.now)
            out.old.items result self.new out.new.items }
        ensures handed { self.new.handed ≡ self.old.handed }
        ensures bases { IfAnswered result (KeepBases self.old self.new) }
        ensures cached { KeepsCache self.old self.new }
        ensures work { IsWithinWork self.old (Command.Delta sections.now) steps.old steps.new }
    {
        let change = match self.store.prepare(alloc, sections) {
            Ok(change) => change,
            Err(error) => return self.refuse_change(error),
        };
        self.store.reserve(&change)?;
        self.live_table.facts();
        let mark = self.live_table.mark();
        let fed = self.live_table.feed(alloc, &change, &self.store, steps)?;
        self.live_table.facts();
        match answer_change(
            alloc,
            self.count + 1,
            &self.live_table,
            fed.as_slice(),
            &self.store,
            handlers,
            out,
            &mut self.cache,
            &mut self.distinct,
        ) {
            Ok(answered) => {
                self.store.commit(change);
                self.distinct.settle();
                self.count += 1;
                Ok(answered)
            }
            Err(AllocError) => {
                // The number of the change is given again.
                self.cache.clear();
                self.live_table.roll_back(mark);
                Err(ApplyError::OutOfMemory)
            }
        }
    }

    /// Leaves a query, and tells its owner the answer where it starts now.
    fn create<L: Ledger>(
        &mut self,
        alloc: Global,
        statement: &Statement,
        handlers: &Handlers,
        out: &mut Vec<u8>,
        steps: &mut Steps<L>,
    ) -> Result<Answered, ApplyError>
        requires few { self.old.count < 2 ^ 48 }
        requires whole { StatementIsWellFormed statement.now }
        requires handlers { self.old.handed
            ≡ (handed_in handlers.now.items.items (λ h. h.name) (λ h. h.kind)
            handlers.now.predicates.items (λ p. p.name) (λ p. p.relation)) }
        ensures applies { Applies self.old (Command.Create statement.now)
            out.old.items result self.new out.new.items }
        ensures handed { self.new.handed ≡ self.old.handed }
        ensures cached { KeepsCache self.old self.new }
        ensures work { IsWithinWork self.old (Command.Create statement.now) steps.old steps.new }
    {
        if self.live_table.book().has(&statement.name) {
            return self.refuse(Refusal::NameTaken);
        }
        let query = match bind(alloc, statement, &self.store, handlers.predicates()) {
            Ok(query) => query,
            Err(error) => return self.refuse_query(error),
        };
        let Some(action) = action_of(handlers, statement) else {
            return self.refuse(Refusal::Action);
        };
        let timing = timing_of(statement, self.live_table.book().instant());
        if is_expired(&timing, timing.start) {
            return self.refuse(Refusal::Times);
        }
        let subscription = self.subscription(alloc, statement, query, action, timing)?;
        self.join(alloc, subscription, handlers, out, steps)
    }

    /// Takes in a subscription that nothing refuses, and tells its owner the answer where it starts
    /// now.
    fn join<L: Ledger>(
        &mut self,
        alloc: Global,
        subscription: Subscription,
        handlers: &Handlers,
        out: &mut Vec<u8>,
        steps: &mut Steps<L>,
    ) -> Result<Answered, ApplyError>
        requires few { self.old.count < 2 ^ 48 }
        requires handlers { self.old.handed
            ≡ (handed_in handlers.now.items.items (λ h. h.name) (λ h. h.kind)
            handlers.now.predicates.items (λ p. p.name) (λ p. p.relation)) }
        requires some { (statement : a_statement)
            × (IsSubscriptionOf self.old statement subscription) }
        ensures applies { OfStatement self.old subscription (λ statement.
            Applies self.old (Command.Create statement) out.old.items result self.new
            out.new.items) }
        ensures handed { self.new.handed ≡ self.old.handed }
        ensures cached { KeepsCache self.old self.new }
        ensures work { OfStatement self.old subscription (λ statement.
            IsWithinWork self.old (Command.Create statement) steps.old steps.new) }
    {
        self.live_table.facts();
        let plan = plan_by(alloc, subscription.choice, &subscription.query)?;
        let mark = self.live_table.mark();
        let install = self.creates + 1;
        self.live_table
            .add(alloc, subscription, &plan, &self.store, steps)?;
        self.live_table.facts();
        match answer_create(
            alloc,
            self.count + 1,
            &self.live_table,
            install,
            &self.store,
            handlers,
            out,
            &mut self.cache,
            &mut self.distinct,
        ) {
            Ok((answered, firings)) => {
                let changes = self.store.changes();
                note_all(&mut self.live_table, changes, firings.as_slice());
                self.distinct.settle();
                self.creates = install;
                self.count += 1;
                Ok(answered)
            }
            Err(AllocError) => {
                // The numbers of its files are given again.
                let cache = &mut self.cache;
                cache.clear();
                self.live_table.remove(install);
                self.live_table.roll_back(mark);
                Err(ApplyError::OutOfMemory)
            }
        }
    }

    /// The subscription that a create makes, before its first firing.
    fn subscription(
        &self,
        alloc: Global,
        statement: &Statement,
        mut query: NormalQuery,
        action: usize,
        timing: Timing,
    ) -> Result<Subscription, AllocError>
        requires formed { IsWellFormed query }
        requires few { self.now.creates < 2 ^ 48 }
        ensures { IfOk result (λ m. m ≡ new_subscription statement.now query
            (alike (bare_of query) self.now.subscriptions) timing action self.now.creates m.file) }
    {
        let book = self.live_table.book();
        let bare = Shared::new(alloc, bare(alloc, &query)?)?;
        let (choice, bare) = book.choose(&query, bare)?;
        share_shapes(alloc, &mut query, bare.get())?;
        let sources = asked_by(alloc, statement.query.items.as_slice())?;
        let argument = argument_of(alloc, statement)?;
        Ok(Subscription {
            name: statement.name.copy(alloc)?,
            sources,
            query,
            bare,
            choice,
            distinct: statement.query.distinct,
            file: FileId(0),
            timing,
            action,
            argument,
            install: self.creates + 1,
            noted: None,
        })
    }

    /// Takes a subscription away.
    fn delete(
        &mut self,
        alloc: Global,
        name: &Bytes,
        out: &mut Vec<u8>,
    ) -> Result<Answered, ApplyError>
        requires few { self.old.count < 2 ^ 48 }
        ensures applies { Applies self.old (Command.Delete name.now)
            out.old.items result self.new out.new.items }
        ensures handed { self.new.handed ≡ self.old.handed }
        ensures cached { KeepsCache self.old self.new }
    {
        let Some(install) = self.live_table.book().find(name) else {
            return self.refuse(Refusal::NoName);
        };
        let answered = write_accepted(alloc, self.count + 1, out)?;
        self.live_table.facts();
        take_all(&mut self.live_table, &mut self.distinct, &[install]);
        self.live_table.facts();
        self.count += 1;
        Ok(answered)
    }

    /// Moves the clock, tells those that are due, and takes those away that expire.
    fn move_clock(
        &mut self,
        alloc: Global,
        instant: u64,
        handlers: &Handlers,
        out: &mut Vec<u8>,
    ) -> Result<Answered, ApplyError>
        requires few { self.old.count < 2 ^ 48 }
        requires handlers { self.old.handed
            ≡ (handed_in handlers.now.items.items (λ h. h.name) (λ h. h.kind)
            handlers.now.predicates.items (λ p. p.name) (λ p. p.relation)) }
        ensures applies { Applies self.old (Command.Clock instant)
            out.old.items result self.new out.new.items }
        ensures handed { self.new.handed ≡ self.old.handed }
        ensures cached { KeepsCache self.old self.new }
    {
        if instant < self.live_table.book().instant() {
            return self.refuse(Refusal::Clock);
        }
        let answered = write_accepted(alloc, self.count + 1, out)?;
        let due = self.live_table.book().due(alloc, instant)?;
        let firings = with_news(alloc, self.live_table.book(), &self.store, due.as_slice())?;
        self.live_table.facts();
        let spans = tell(
            alloc,
            &self.live_table,
            firings.as_slice(),
            &self.store,
            handlers,
            out,
            &mut self.cache,
            &mut self.distinct,
        )?;
        let answered = answered.with(spans, out);
        let expired = self.live_table.book().expired(alloc, instant)?;
        write_expired(self.live_table.book(), expired.as_slice(), out)?;
        self.live_table.move_to(alloc, instant)?;
        let changes = self.store.changes();
        note_all(&mut self.live_table, changes, firings.as_slice());
        self.distinct.settle();
        take_all(&mut self.live_table, &mut self.distinct, expired.as_slice());
        self.live_table.facts();
        self.count += 1;
        Ok(answered)
    }

    /// Tells what is shared.
    fn report(&mut self, alloc: Global, out: &mut Vec<u8>) -> Result<Answered, ApplyError>
        requires few { self.old.count < 2 ^ 48 }
        ensures applies { Applies self.old Command.Report
            out.old.items result self.new out.new.items }
        ensures handed { self.new.handed ≡ self.old.handed }
        ensures cached { KeepsCache self.old self.new }
    {
        let answered = write_accepted(alloc, self.count + 1, out)?;
        self.live_table.shares();
        let summary = self.summary(alloc)?;
        write_report(&summary, out)?;
        self.count += 1;
        Ok(answered)
    }

    /// How much there is, and the groups of the files.
    fn summary(&self, alloc: Global) -> Result<Summary, AllocError>
        ensures { IfOk result (IsSummary self.now) }
    {
        Ok(Summary {
            queries: self.live() as u64,
            sources: self.store.count() as u64,
            changes: self.store.changes(),
            files: self.live_table.groups().files() as u64,
            groups: self.live_table.groups().groups(alloc)?,
        })
    }

    /// Counts a command that is refused.
    fn refuse(&mut self, refusal: Refusal) -> Result<Answered, ApplyError>
        requires { self.old.count < 2 ^ 48 }
        ensures refused { result ≡ Err (ApplyError.Refused refusal) }
        ensures counted { self.new
            ≡ record self.old { count = self.old.count + 1 } }
        ensures handed { self.new.handed ≡ self.old.handed }
    {
        self.count += 1;
        Err(ApplyError::Refused(refusal))
    }

    fn refuse_change(&mut self, error: ChangeError) -> Result<Answered, ApplyError>
        requires { self.old.count < 2 ^ 48 }
        ensures refused { result ≡ Err (refused_change error) }
        ensures counted { IfSome (change_refusal error) (λ _.
            self.new ≡ record self.old { count = self.old.count + 1 }) }
        ensures same { IfNone (change_refusal error) (self.new ≡ self.old) }
        ensures handed { self.new.handed ≡ self.old.handed }
    {
        match error {
            ChangeError::NoSource => self.refuse(Refusal::NoSource),
            ChangeError::BadKey { position } => self.refuse(Refusal::Key { position }),
            ChangeError::NoSuchKey { position } => self.refuse(Refusal::NoKey { position }),
            ChangeError::OutOfMemory => Err(ApplyError::OutOfMemory),
        }
    }

    fn refuse_query(&mut self, error: BindError) -> Result<Answered, ApplyError>
        requires { self.old.count < 2 ^ 48 }
        ensures refused { result ≡ Err (refused_query error) }
        ensures counted { IfSome (query_refusal error) (λ _.
            self.new ≡ record self.old { count = self.old.count + 1 }) }
        ensures same { IfNone (query_refusal error) (self.new ≡ self.old) }
        ensures handed { self.new.handed ≡ self.old.handed }
    {
        match error {
            BindError::NoSource => self.refuse(Refusal::NoSource),
            BindError::RootDiffers => self.refuse(Refusal::Root),
            BindError::Unbound => self.refuse(Refusal::Unbound),
            BindError::OutOfMemory => Err(ApplyError::OutOfMemory),
        }
    }
}

/// The place of the handler of a statement's action: none where there is none, or where its kind
/// is at odds with the argument.
fn action_of(handlers: &Handlers, statement: &Statement) -> Option<usize>
    ensures some { IfSome result (λ at.
        (kind_at (labels handlers.now.items.items (λ h. h.name) (λ h. h.kind)) at
        ≡ kind_in statement.now.action
        (labels handlers.now.items.items (λ h. h.name) (λ h. h.kind)))
        × (is_at_odds (kind_at (labels handlers.now.items.items (λ h. h.name) (λ h. h.kind)) at)
        statement.now.argument ≡ false)) }
    ensures named { IfSome result (λ at.
        name_at (labels handlers.now.items.items (λ h. h.name) (λ h. h.kind)) at
        ≡ Some statement.now.action) }
    ensures within { IfSome result
        (λ at. at < length (labels handlers.now.items.items (λ h. h.name) (λ h. h.kind))) }
    ensures none { IfNone result
        (is_at_odds (kind_in statement.now.action
        (labels handlers.now.items.items (λ h. h.name) (λ h. h.kind))) statement.now.argument
        ≡ true) }
{
    let Some(at) = handlers.find(statement.action.as_slice()) else {
        return None;
    };
    let wants = match handlers.kind(at) {
        Kind::Print | Kind::Count => false,
        Kind::MailTo => true,
    };
    if statement.argument.is_some() == wants {
        Some(at)
    } else {
        None
    }
}

/// The timing of a statement that is created now.
fn timing_of(statement: &Statement, now: u64) -> Timing
    ensures { result ≡ record {
      start = start_of statement.now.start now;
      every = statement.now.every;
      expire = statement.now.expire;
    } }
{
    let start = match statement.start {
        Some(start) if start > now => start,
        _ => now,
    };
    Timing {
        start,
        every: statement.every,
        expire: statement.expire,
    }
}

/// What a statement hands to its handler: no bytes where it says nothing of that.
fn argument_of(alloc: Global, statement: &Statement) -> Result<Bytes, AllocError>
    ensures { IfOk result (λ argument. argument ≡ unwrap_or statement.now.argument []) }
{
    match &statement.argument {
        Some(argument) => argument.copy(alloc),
        None => Ok(Bytes::new(alloc)),
    }
}

/// The names of the sources that matches ask, in order.
fn asked_by(alloc: Global, items: &[QueryItem]) -> Result<Sequence<Bytes>, AllocError>
    ensures { IfOk result (λ sources. sources ≡ flat_map source_of items.now) }
{
    let mut sources = Sequence::with_capacity(alloc, items.len())?;
    for item in items {
        if let QueryItem::Match { source, .. } = item {
            sources.push(source.copy(alloc)?)?;
        }
    }
    Ok(sources)
}
