//! The live table: subscriptions, and the files that they use.
ghost use Rattle.std.specs.Prelude.{◌≡◌, ℕ, ◌+◌, ◌-◌, ◌<◌, ◌≤◌, ◌^◌, ◌⊎◌, ◌≢◌, List, []};
ghost use Rattle.std.specs.Prelude.{length, map, filter, min, nat_eq, false, true, not, Some};
ghost use Rattle.std.specs.Prelude.{IfOk, OnOk, OnErr, IfSome, IfNone, IsTrue};
ghost use Rattle.std.specs.FinMap.{empty, get, insert};
ghost use Rattle.std.specs.Option.{option_map};
ghost use Rattle.std.specs.List.{list_any, AllByRecursion};
ghost use Rattle.ncq_plan.specs.declared.expr.Expr.{Expr as an_expr};
ghost use Rattle.ncq_plan.specs.WellFormed.{IsWellFormed};
ghost use Rattle.ncq_change.specs.Stores.{world_in};
ghost use Rattle.ncq_midfile.specs.Content.{IsSoundAt};
ghost use Rattle.ncq_midfile.specs.Files.{AreLeftAt};
ghost use Rattle.ncq_midfile.specs.Shown.{shown};
ghost use Rattle.ncq_midfile.specs.Views.{losses_above};
ghost use Rattle.ncq_midfile.specs.declared.signed.SignedRow.{SignedRow as a_signed_row};
ghost use Rattle.ncq_shelf.specs.Contents.{Fits, IsCompacted, cut_to};
ghost use Rattle.ncq_shelf.specs.Contents.{AreFolded, IsRaised};
ghost use Rattle.ncq_shelf.specs.KeptFiles.{AtFile, EachFile, KeptFile};
ghost use Rattle.ncq_feed.specs.Feeds.{IsPreparedFrom, AreFed, NamesTheFed, world_after, feed_work};
ghost use Rattle.ncq_group.specs.Installs.{NamesTheMissing, rows_of_all};
ghost use Rattle.ncq_group.specs.Releases.{IsReleased};
ghost use Rattle.ncq_group.specs.Tables.{Facts, mark_of};
ghost use Rattle.ncq_shelf.specs.Ranges.{IsRange, ShareRows};
ghost use Rattle.ncq_book.specs.Books.{is_named, is_of, subscription_of, with_note};
ghost use Rattle.ncq_book.specs.Books.{InstallsRise, NamesDiffer};
ghost use Rattle.ncq_live.specs.LiveTables.{IsLiveTable, HasJoined, plan_in};
ghost use Rattle.ncq_live.specs.Shares.{Shares};
ghost use Rattle.ncq_live.specs.Wears.{HasTheWorn, IsToldBefore, LeavesBehind, bound_of};
ghost use Rattle.ncq_live.specs.Wears.{PinsNoMore, is_among, is_pinned, losses_of};
ghost use Rattle.ncq_shelf.specs.Stands.{IsThere};

use crate::wear::{LOSSES, Wear};
use ncq_base::{FileId, Sequence, Steps};
use ncq_book::{Book, Subscription};
use ncq_group::{GroupMark, GroupTable};
use ncq_midfile::View;
use ncq_plan::Expr;
use ncq_source::{Change, Store};
use std::alloc::{AllocError, Global};
use std::collections::BTreeSet;
use std::hash::RandomState;
use std::marker::Model;
use std::sync::ledger::Ledger;

/// Live subscriptions at an instant of the clock, each with the file of its plan, and the table of
/// these files. Contracts see the table, the subscriptions in the order of their creates and the
/// instant.
pub struct LiveTable {
    groups: GroupTable,
    book: Book,
    wear: Wear,
}

impl Drop for LiveTable {
    fn drop(self) {
        let LiveTable { groups, book, wear } = self;
        drop(groups);
        drop(book);
        drop(wear);
    }
}

impl Model for LiveTable {
    ghost use Rattle.ncq_live.specs.LiveTables.{LiveState, live_code};
    ghost use Rattle.ncq_live.specs.Wears.{IsInOrder};

    ghost Value = { LiveState };

    ghost coded = { live_code };

    ghost view = { λ r. record {
      table = r.groups;
      subscriptions = r.book.subscriptions;
      instant = r.book.instant;
    } };

    ghost invariant = { λ r. IsInOrder r.groups r.book.subscriptions r.wear };
}

impl LiveTable {
    /// Nobody and no file, at instant 0 and change 0. Names, constants and rows are placed by the
    /// seed. It takes no memory.
    pub fn new(alloc: Global, seed: RandomState) -> LiveTable
        ensures files { result.table.files ≡ empty }
        ensures next_file { result.table.next_file ≡ 0 }
        ensures number { result.table.number ≡ 0 }
        ensures subscriptions { result.subscriptions ≡ [] }
        ensures instant { result.instant ≡ 0 }
    {
        LiveTable {
            groups: GroupTable::new(alloc, seed),
            book: Book::new(alloc, seed),
            wear: Wear::new(alloc),
        }
    }

    /// The subscriptions, and what finds them.
    pub fn book(&self) -> &Book
        ensures { result.now ≡ record {
          subscriptions = self.now.subscriptions;
          instant =
              self.now.instant;
        } }
    {
        &self.book
    }

    /// The table of the files.
    pub fn groups(&self) -> &GroupTable
        ensures { result.now ≡ self.now.table }
    {
        &self.groups
    }

    /// Every live table meets the facts: this call does nothing.
    pub fn facts(&self)
        ensures live_table { IsLiveTable self.now.table self.now.subscriptions }
        ensures facts { Facts self.now.table }
        ensures shared { ShareRows self.now.table.files }
        ensures rise { InstallsRise self.now.subscriptions }
        ensures names { NamesDiffer self.now.subscriptions }
    {
        self.groups.facts();
        self.book.facts();
    }

    /// The files are those of the parts of the subscriptions' plans, one each, and selections by
    /// intervals share their rows: this call does nothing.
    pub fn shares(&self)
        ensures { Shares self.now.subscriptions self.now.table }
    {
        self.facts();
    }

    /// How far the files are now. It takes no memory.
    pub fn mark(&self) -> GroupMark
        ensures { result ≡ mark_of self.now.table }
    {
        self.groups.mark()
    }

    /// One more subscription, under an install number above all others and a name that is free,
    /// with the file of its plan: the file that it comes with does not count. It takes at most one
    /// step for each row of a new file, whatever it answers. Where memory runs out, all is as
    /// before.
    pub fn add<L: Ledger>(
        &mut self,
        alloc: Global,
        mut subscription: Subscription,
        plan: &Expr,
        store: &Store,
        steps: &mut Steps<L>,
    ) -> Result<(), AllocError>
        requires formed { IsWellFormed subscription.query }
        requires plan { plan.now ≡ plan_in subscription }
        requires above { AllByRecursion (λ m. m.install < subscription.install)
            self.old.subscriptions }
        requires free { list_any (is_named subscription.name) self.old.subscriptions ≡ false }
        requires few { length self.old.subscriptions < 2 ^ 64 - 1 }
        requires number { store.now.changes ≡ self.old.table.number }
        requires fits { Fits self.old.table.number (world_in store.now) self.old.table.files }
        requires room { self.old.table.next_file ≤ 2 ^ 64 - 257 }
        ensures ok { OnOk result (HasJoined plan.now subscription self.old self.new) }
        ensures fits { Fits self.old.table.number (world_in store.now) self.new.table.files }
        ensures number { self.new.table.number ≡ self.old.table.number }
        ensures instant { self.new.instant ≡ self.old.instant }
        ensures err { OnErr result (self.new ≡ self.old) }

        // `missing` is any list that names each part of the plan without a file.
        ensures cost { (missing : List an_expr)
            → NamesTheMissing self.old.table.files plan.now missing
            → steps.new ≤ steps.old + rows_of_all (world_in store.now) missing }
    {
        self.facts();
        let before = self.groups.mark();
        let file = self.groups.install(alloc, plan, store, steps)?;
        self.groups.facts();
        subscription.file = file;
        match self.book.add(alloc, subscription) {
            Ok(()) => Ok(()),
            Err(AllocError) => {
                self.groups.release(file);
                self.groups.roll_back(before);
                Err(AllocError)
            }
        }
    }

    /// Takes the subscription of this install number away, if it is there, and gives up its use of
    /// its file. What no subscription and no other file needs any more is taken away. It takes no
    /// memory.
    pub fn remove(&mut self, install: u64)
        ensures subscriptions { self.new.subscriptions
            ≡ filter (λ m. not (is_of install m)) self.old.subscriptions }
        ensures files { IfSome (subscription_of install self.old.subscriptions) (λ m.
            IsReleased self.old.table.files m.file.0 self.new.table.files) }
        ensures none { IfNone (subscription_of install self.old.subscriptions)
            (self.new.table ≡ self.old.table) }
        ensures next_file { self.new.table.next_file ≡ self.old.table.next_file }
        ensures number { self.new.table.number ≡ self.old.table.number }
        ensures instant { self.new.instant ≡ self.old.instant }
    {
        self.facts();
        if let Some(used) = take_away(&mut self.book, install) {
            self.groups.release(used);
            self.wear.forget(&self.groups);
            self.wear.loosen();
        }
    }

    /// Gives each file the signed rows that the change makes of its expression, under the number of
    /// the change. The answer names each file that got rows. After an error the live table is as it
    /// was. It takes at most one step for each signed row, whatever it answers. The only error is
    /// that memory ran out.
    pub fn feed<L: Ledger>(
        &mut self,
        alloc: Global,
        change: &Change,
        store: &Store,
        steps: &mut Steps<L>,
    ) -> Result<Sequence<u64>, AllocError>
        requires change { IsPreparedFrom store.now change.now }
        requires number { store.now.changes ≡ self.old.table.number }
        requires more { self.old.table.number < 2 ^ 64 - 1 }
        requires fits { Fits self.old.table.number (world_in store.now) self.old.table.files }
        ensures number { OnOk result (self.new.table.number ≡ self.old.table.number + 1) }
        ensures fed { OnOk result
            (AreFed store.now change.now self.old.table.files self.new.table.files) }
        ensures fits { OnOk result (Fits self.new.table.number (world_after store.now change.now)
            self.new.table.files) }
        ensures named { IfOk result (NamesTheFed store.now.changes self.new.table.files) }
        ensures next_file { self.new.table.next_file ≡ self.old.table.next_file }
        ensures subscriptions { self.new.subscriptions ≡ self.old.subscriptions }
        ensures instant { self.new.instant ≡ self.old.instant }
        ensures err { OnErr result (self.new.table ≡ self.old.table) }
        ensures cost { steps.new ≤ steps.old + feed_work store.now change.now self.old.table.files }
    {
        self.groups.facts();
        let before = self.groups.mark();
        let fed = self.groups.feed(alloc, change, store, steps)?;
        match wear_out(&self.groups, &mut self.wear, fed.as_slice(), before.number) {
            Ok(()) => Ok(fed),
            Err(AllocError) => {
                self.groups.roll_back(before);
                Err(AllocError)
            }
        }
    }

    /// The numbers of the files that may be worn, each of a file that is there: those of which 64
    /// rows or more went out above their base, and that no timer pins, are among them. Others are
    /// where a fold is worth its cost, or where fewer went out, but a third of the rows or more:
    /// such files wait until more than 512 rows went out of all that wait. This changes nothing
    /// that is seen.
    pub fn worn(&mut self, alloc: Global) -> Result<Sequence<u64>, AllocError>
        ensures worn { IfOk result (HasTheWorn self.old.table.files self.old.subscriptions) }
        ensures there { IfOk result (AllByRecursion (IsThere self.old.table.files)) }
        ensures same { self.new ≡ self.old }
    {
        self.wear.gather()?;
        those_there(alloc, &self.groups, self.wear.worn())
    }

    /// How worn a file is, and whether a timer pins it, is looked at anew: this changes nothing
    /// that is seen.
    pub fn look_at(&mut self, alloc: Global, number: u64) -> Result<(), AllocError>
        requires { IsThere self.old.table.files number }
        ensures { self.new ≡ self.old }
    {
        if self.recount(number) < LOSSES {
            return Ok(());
        }
        self.groups.facts();
        let last = last_above_base(&self.groups.file(FileId(number)));
        if has_timer_behind(alloc, &self.book, number, last)? {
            self.wear.pin(number)?;
        }
        Ok(())
    }

    /// How many rows of a file went out above its base: it is not known to be more worn than that.
    /// This changes nothing that is seen. It takes no memory.
    fn recount(&mut self, number: u64) -> u64
        requires { IsThere self.old.table.files number }
        ensures { self.new ≡ self.old }
    {
        let losses = self.groups.file(FileId(number)).minus() as u64;
        self.wear.lower(number, losses);
        losses
    }

    /// Makes a change the base of a file: of rows of its own none stays that went out up to it.
    /// After an error the live table is as it was. The only error is that memory ran out.
    pub fn compact(&mut self, alloc: Global, number: u64, change: u64) -> Result<(), AllocError>
        requires there { IsThere self.old.table.files number }
        requires base { AtFile self.old.table.files number (λ kept. kept.content.base ≤ change) }
        requires sound { AtFile self.old.table.files number (λ kept.
            IsSoundAt change kept.content.rows) }
        requires number { change ≤ self.old.table.number }
        ensures ok { OnOk result (AtFile self.old.table.files number (λ kept.
            (next : KeptFile) × (self.new.table.files ≡ insert self.old.table.files number next)
            × IsCompacted change kept next)) }
        ensures rows { OnOk result (AtFile self.old.table.files number (λ kept.
            (IsRange kept.expr → ⊥)
            → AtFile self.new.table.files number (λ next.
            AreLeftAt change kept.content.rows next.content.rows))) }
        ensures next_file { self.new.table.next_file ≡ self.old.table.next_file }
        ensures number { self.new.table.number ≡ self.old.table.number }
        ensures subscriptions { self.new.subscriptions ≡ self.old.subscriptions }
        ensures instant { self.new.instant ≡ self.old.instant }
        ensures err { OnErr result (self.new ≡ self.old) }
    {
        self.groups.compact(alloc, FileId(number), change)?;
        count_anew(&self.groups, &mut self.wear, number);
        Ok(())
    }

    /// Makes a change the base of a file that selects by an interval, which keeps its rows, and
    /// looks anew at how worn it is; another file stays as it is. No want of memory keeps it from
    /// that.
    pub fn raise_base(&mut self, number: u64, change: u64)
        requires there { IsThere self.old.table.files number }
        requires base { AtFile self.old.table.files number (λ kept. kept.content.base ≤ change) }
        requires number { change ≤ self.old.table.number }
        ensures raised { AtFile self.old.table.files number (λ kept.
            (next : KeptFile) × (self.new.table.files ≡ insert self.old.table.files number next)
            × IsRaised change kept next) }
        ensures next_file { self.new.table.next_file ≡ self.old.table.next_file }
        ensures number { self.new.table.number ≡ self.old.table.number }
        ensures subscriptions { self.new.subscriptions ≡ self.old.subscriptions }
        ensures instant { self.new.instant ≡ self.old.instant }
    {
        self.groups.raise_base(FileId(number), change);
        self.recount(number);
    }

    /// Where the file selects by an interval: of the rows that it shares with all that select so by
    /// the slot of the input, pairs of equal ones are struck out, one that came in and one that
    /// went out, both up to the base of each that takes the row. After an error the live table is
    /// as it was. The only error is that memory ran out.
    pub fn fold(&mut self, alloc: Global, number: u64) -> Result<(), AllocError>
        requires { IsThere self.old.table.files number }
        ensures ok { OnOk result (AreFolded self.old.table.files self.new.table.files) }
        ensures next_file { self.new.table.next_file ≡ self.old.table.next_file }
        ensures number { self.new.table.number ≡ self.old.table.number }
        ensures subscriptions { self.new.subscriptions ≡ self.old.subscriptions }
        ensures instant { self.new.instant ≡ self.old.instant }
        ensures err { OnErr result (self.new ≡ self.old) }
    {
        // A timer that was behind rows of its file may be behind none of those that are left.
        self.wear.loosen();
        self.groups.fold(alloc, FileId(number))
    }

    /// Takes the signed rows of later changes than the mark's away from each file. It takes no
    /// memory.
    pub fn roll_back(&mut self, mark: GroupMark)
        requires number { mark.number ≤ self.old.table.number }
        requires next_file { mark.next_file ≤ self.old.table.next_file }
        requires base { (number : ℕ) (file : KeptFile)
            → get self.old.table.files number ≡ Some file → file.content.base ≤ mark.number }
        requires below { (number : ℕ) (file : KeptFile)
            → get self.old.table.files number ≡ Some file → number < mark.next_file }
        ensures number { self.new.table.number ≡ mark.number }
        ensures next_file { self.new.table.next_file ≡ mark.next_file }
        ensures files { (number : ℕ) → get self.new.table.files number
            ≡ option_map (cut_to mark.number) (get self.old.table.files number) }
        ensures subscriptions { self.new.subscriptions ≡ self.old.subscriptions }
        ensures instant { self.new.instant ≡ self.old.instant }
    {
        self.groups.roll_back(mark);
        self.wear.loosen();
    }

    /// Notes this number for the subscription of this install number, if it is there. It takes no
    /// memory.
    pub fn note(&mut self, install: u64, number: u64)
        ensures subscriptions { self.new.subscriptions ≡ map (with_note install number)
            self.old.subscriptions }
        ensures table { self.new.table ≡ self.old.table }
        ensures instant { self.new.instant ≡ self.old.instant }
    {
        self.book.note(install, number);
        self.wear.loosen();
    }

    /// Moves the clock. Where memory runs out, all is as before. It costs in proportion to what is
    /// due.
    pub fn move_to(&mut self, alloc: Global, to: u64) -> Result<(), AllocError>
        requires { self.old.instant ≤ to }
        ensures ok { OnOk result (self.new.instant ≡ to) }
        ensures err { OnErr result (self.new.instant ≡ self.old.instant) }
        ensures table { self.new.table ≡ self.old.table }
        ensures subscriptions { self.new.subscriptions ≡ self.old.subscriptions }
    {
        self.book.move_to(alloc, to)
    }
}

/// Those of the numbers that are of files that are there.
fn those_there(
    alloc: Global,
    groups: &GroupTable,
    numbers: &BTreeSet<u64>,
) -> Result<Sequence<u64>, AllocError>
    ensures has { IfOk result (λ list. (number : ℕ) → IsThere groups.now.files number
        → is_among number numbers.now.keys ≡ true
        → list_any (nat_eq number) list ≡ true) }
    ensures there { IfOk result (AllByRecursion (IsThere groups.now.files)) }
{
    let mut list = Sequence::new(alloc);
    for number in numbers {
        if groups.has(FileId(*number)) {
            list.push(*number)?;
        }
    }
    Ok(list)
}

/// Notes of each of the files the rows that went out after a change. After an error nothing that
/// was known is lost.
fn wear_out(
    groups: &GroupTable,
    wear: &mut Wear,
    fed: &[u64],
    number: u64,
) -> Result<(), AllocError>
    requires based { EachFile groups.now.files (λ other file. file.content.base ≤ number) }
    ensures more { (other : ℕ)
        → bound_of other wear.old.bounds ≤ bound_of other wear.new.bounds }
    ensures fed { OnOk result (EachFile groups.now.files (λ other file.
        list_any (nat_eq other) fed.now ≡ true
        → (bound_of other wear.old.bounds + losses_above number file.content.rows
        ≤ bound_of other wear.new.bounds) ⊎ (64 ≤ bound_of other wear.new.bounds))) }
    ensures pinned { wear.new.pinned ≡ wear.old.pinned }
{
    let mut spent = None;
    for file in fed {
        let is_spent = wear_one(groups, wear, *file, number)?;
        spent = last_spent(spent, *file, is_spent);
    }
    list_spent(wear, spent)?;
    wear.list_waiting(groups)
}

/// Counts anew how many rows of a file went out above its base. It does not count as pinned any
/// more: where it is worn, no file does. It takes no memory.
fn count_anew(groups: &GroupTable, wear: &mut Wear, number: u64)
    requires { IsThere groups.now.files number }
    ensures here { AtFile groups.now.files number (λ file. bound_of number wear.new.bounds
        ≡ min (losses_of file) (bound_of number wear.old.bounds)) }
    ensures others { (other : ℕ) → other ≢ number
        → bound_of other wear.new.bounds ≡ bound_of other wear.old.bounds }
    ensures pinned { PinsNoMore wear.old wear.new }
    ensures free { is_among number wear.new.pinned ≡ false }
{
    let losses = groups.file(FileId(number)).minus() as u64;
    wear.lower(number, losses);
    if losses >= LOSSES {
        // The timer that pinned it may be behind none of the rows that are left.
        wear.loosen();
    }
}

/// The later one of two files whose shared rows are worth a fold: one of a group is enough.
fn last_spent(before: Option<u64>, file: u64, is_spent: bool) -> Option<u64> {
    if is_spent { Some(file) } else { before }
}

/// The file, if there is one, is among the worn until it is looked at.
fn list_spent(wear: &mut Wear, spent: Option<u64>) -> Result<(), AllocError>
    ensures bounds { wear.new.bounds ≡ wear.old.bounds }
    ensures pinned { wear.new.pinned ≡ wear.old.pinned }
{
    match spent {
        Some(file) => wear.list(file),
        None => Ok(()),
    }
}

/// Notes of a file, if it is there, the rows that went out after a change. It tells whether so many
/// rows of its group went out that a fold is worth its cost, at as many intervals as there are
/// files.
fn wear_one(
    groups: &GroupTable,
    wear: &mut Wear,
    number: u64,
    change: u64,
) -> Result<bool, AllocError>
    requires based { EachFile groups.now.files (λ other file. file.content.base ≤ change) }
    ensures more { (other : ℕ)
        → bound_of other wear.old.bounds ≤ bound_of other wear.new.bounds }
    ensures here { OnOk result (AtFile groups.now.files number (λ file.
        (bound_of number wear.old.bounds + losses_above change file.content.rows
        ≤ bound_of number wear.new.bounds) ⊎ (64 ≤ bound_of number wear.new.bounds))) }
    ensures pinned { wear.new.pinned ≡ wear.old.pinned }
{
    let file = FileId(number);
    if !groups.has(file) {
        return Ok(false);
    }
    let view = groups.file(file);
    let losses = view.losses(change) as u64;
    wear.raise(number, losses, own_rows(&view))?;
    Ok(is_spent(&view, groups.files()))
}

/// How many signed rows a file has of its own.
fn own_rows(view: &View<'_>) -> Option<u64> {
    match view {
        View::Whole(_) => Some(view.len() as u64),
        View::Ranged { .. } => None,
    }
}

/// Whether the rows of a view are shared, and so many went out since the last fold that one is
/// worth its cost, where `more` is what it costs besides the rows.
fn is_spent(view: &View<'_>, more: usize) -> bool {
    match view {
        View::Whole(_) => false,
        View::Ranged { file, .. } => file.is_spent(more),
    }
}

/// The greatest number of the rows of a view, if it is above the base, and else 0: whoever was told
/// up to a number below that is behind some of the rows.
fn last_above_base(view: &View<'_>) -> u64
    ensures { LeavesBehind result (shown view.now).rows }
{
    let last = view.last();
    if last > view.base() { last } else { 0 }
}

/// Whether some timer that uses the file was told up to a number below this one. Nobody but the
/// timers of the file is looked at.
fn has_timer_behind(alloc: Global, book: &Book, file: u64, last: u64) -> Result<bool, AllocError>
    ensures { IfOk result (λ found. IsTrue found → (rows : List a_signed_row)
        → LeavesBehind last rows → is_pinned book.now.subscriptions file rows ≡ true) }
{
    book.facts();
    let timers = book.timers(alloc, &[file])?;
    for install in timers.as_slice() {
        if is_told_before(book, *install, last) {
            return Ok(true);
        }
    }
    Ok(false)
}

/// Whether the subscription of this install number was told up to a number below this one. It takes
/// no memory.
fn is_told_before(book: &Book, install: u64, last: u64) -> bool
    ensures { IsTrue result → IsToldBefore last install book.now.subscriptions }
{
    let Some(subscription) = book.get(install) else {
        return false;
    };
    match subscription.noted {
        Some(noted) => noted < last,
        None => false,
    }
}

/// Takes the subscription of this install number away, if it is there, and tells its file. It takes
/// no memory.
fn take_away(book: &mut Book, install: u64) -> Option<FileId>
    ensures subscriptions { book.new ≡ record book.old {
      subscriptions = filter (λ m. not (is_of install m)) book.old.subscriptions;
    } }
    ensures file { result ≡ option_map (λ m. m.file) (subscription_of install
        book.old.subscriptions) }
{
    let subscription = book.take(install)?;
    Some(subscription.file)
}
