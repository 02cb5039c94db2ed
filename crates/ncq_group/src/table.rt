//! The table of shared files.
ghost use Rattle.std.specs.Prelude.{◌≡◌, ℕ, ◌+◌, ◌-◌, ◌<◌, ◌≤◌, ◌^◌, List};
ghost use Rattle.std.specs.Prelude.{◌↔◌, length, IfOk, IfSome, IfNone, IsTrue, OnOk, OnErr};
ghost use Rattle.std.specs.FinMap.{empty, get, insert, len};
ghost use Rattle.std.specs.List.{AllByRecursion};
ghost use Rattle.std.specs.Option.{option_map};
ghost use Rattle.ncq_base.specs.declared.interval.Interval.{Interval as an_interval};
ghost use Rattle.ncq_plan.specs.declared.expr.Expr.{Expr as an_expr};
ghost use Rattle.ncq_plan.specs.Exprs.{expr_width};
ghost use Rattle.ncq_plan.specs.WellFormed.{IsWellFormedExpr};
ghost use Rattle.ncq_midfile.specs.Content.{IsSoundAt};
ghost use Rattle.ncq_midfile.specs.Files.{AreLeftAt};
ghost use Rattle.ncq_midfile.specs.Shown.{shown, rows_below};
ghost use Rattle.ncq_change.specs.Stores.{world_in};
ghost use Rattle.ncq_signature.specs.Groups.{AreGroupLines};
ghost use Rattle.ncq_shelf.specs.KeptFiles.{AtFile, EachFile, KeptFile};
ghost use Rattle.ncq_shelf.specs.Stands.{IsThere};
ghost use Rattle.ncq_shelf.specs.Ranges.{IsRange, IsRangeFile, SelectsRange, ShareRows};
ghost use Rattle.ncq_shelf.specs.RowCounts.{CountsRows};
ghost use Rattle.ncq_shelf.specs.Contents.{AreFolded, Fits, IsCompacted, IsRaised, cut_to};
ghost use Rattle.ncq_feed.specs.Feeds.{IsPreparedFrom, AreFed, NamesTheFed, world_after, feed_work};
ghost use Rattle.ncq_feed.specs.Feeds.{CountsHeld, plain_work, held_work};
ghost use Rattle.ncq_count.specs.FileExprs.{exprs_of};
ghost use Rattle.ncq_group.specs.Installs.{IsInstalled, NamesTheMissing, rows_of_all};
ghost use Rattle.ncq_group.specs.Releases.{HasUse, IsReleased};
ghost use Rattle.ncq_group.specs.Tables.{Facts, mark_of};

use crate::collect::collect;
use crate::filed::Filed;
use crate::mark::GroupMark;
use crate::place::place;
use crate::undo::cut;
use ncq_base::{FileId, Sequence, Steps};
use ncq_count::Groups;
use ncq_midfile::{RangeFile, View};
use ncq_plan::Expr;
use ncq_shelf::Shelf;
use ncq_signature::GroupLines;
use ncq_source::{Change, Store};
use std::alloc::{AllocError, Global};
use std::hash::RandomState;
use std::marker::Model;
use std::sync::ledger::Ledger;

/// The files of all installed expressions and their subexpressions, each once, the number that the
/// next new file gets, and the change up to which the files stand.
pub struct GroupTable {
    seed: RandomState,
    filed: Filed,
    number: u64,
}

impl Drop for GroupTable {
    fn drop(self) {
        let GroupTable {
            seed: _,
            filed,
            number: _,
        } = self;
        drop(filed);
    }
}

impl Model for GroupTable {
    ghost use Rattle.ncq_group.specs.Tables.{TableState, table_code};
    ghost use Rattle.ncq_group.specs.Inside.{IsInOrder, table_of};

    ghost Value = { TableState };

    ghost coded = { table_code };

    ghost view = { λ t. table_of t.filed t.number };

    ghost invariant = { λ t. IsInOrder t.filed t.number };
}

impl GroupTable {
    /// No file; both numbers are 0. What finds files and rows is placed by the seed. It takes no
    /// memory.
    pub fn new(alloc: Global, seed: RandomState) -> GroupTable
        ensures files { result.files ≡ empty }
        ensures next_file { result.next_file ≡ 0 }
        ensures number { result.number ≡ 0 }
    {
        GroupTable {
            seed,
            filed: Filed {
                shelf: Shelf::new(alloc, seed),
                groups: Groups::new(alloc),
                next: 0,
            },
            number: 0,
        }
    }

    /// Every table meets the facts, and its selections by intervals are virtual files over one file
    /// for each slot of an input: this call does nothing.
    pub fn facts(&self)
        ensures facts { Facts self.now }
        ensures shared { ShareRows self.now.files }
    {
        self.filed.shelf.share_rows();
    }

    /// The change up to which the files stand.
    pub fn number(&self) -> u64
        ensures { result ≡ self.now.number }
    {
        self.number
    }

    /// The number that the next new file gets.
    pub fn next_file(&self) -> u64
        ensures { result ≡ self.now.next_file }
    {
        self.filed.next
    }

    /// How many files there are.
    pub fn files(&self) -> usize
        ensures { result ≡ len self.now.files }
    {
        self.filed.shelf.len()
    }

    /// How many signed rows the files have in all: those that selections by intervals share count
    /// once. It tells at most 2^64 - 1. It takes no memory, and time in proportion to the files.
    pub fn rows(&self) -> u64
        ensures { CountsRows self.now.files result }
    {
        self.filed.shelf.rows()
    }

    /// Whether there is a file of this number. It takes no memory.
    pub fn has(&self, file: FileId) -> bool
        ensures { IsTrue result ↔ IsThere self.now.files file.0 }
    {
        self.filed.shelf.has(file.0)
    }

    /// How many uses a file has. It takes no memory.
    pub fn uses(&self, file: FileId) -> u64
        requires { IsThere self.now.files file.0 }
        ensures { AtFile self.now.files file.0 (λ kept. result ≡ kept.uses) }
    {
        self.filed.shelf.uses(file.0)
    }

    /// The rows of a file, which may be a part of others. Each row below it has a value for each
    /// slot of the file's expression. It takes no memory.
    pub fn file(&self, file: FileId) -> View<'_>
        requires { IsThere self.now.files file.0 }
        ensures content { AtFile self.now.files file.0 (λ kept. shown result ≡ kept.content) }
        ensures wide { AtFile self.now.files file.0 (λ kept.
            AllByRecursion (λ r. length r.row ≡ expr_width kept.expr) (rows_below result)) }
    {
        self.filed.shelf.content(file.0)
    }

    /// The rows that the selections by intervals of the slot of a file share. Where it tells none
    /// there is no such selection. It takes no memory.
    pub fn range_file(&self, input: FileId, slot: usize) -> Option<&RangeFile>
        ensures some { IfSome result (λ range.
            IsRangeFile self.now.files input.0 slot range.now) }
        ensures none { IfNone result ((interval : an_interval) (number : ℕ)
            → SelectsRange self.now.files input.0 slot interval number → ⊥) }
    {
        self.filed.shelf.range_file(input.0, slot)
    }

    /// A line for each group of the files' expressions, in the order of a report. The work grows
    /// with the groups, not with their files. The only error is that memory ran out.
    pub fn groups(&self, alloc: Global) -> Result<GroupLines, AllocError>
        ensures { IfOk result (AreGroupLines (exprs_of self.now.files)) }
    {
        self.filed.groups.lines(alloc, &self.filed.shelf)
    }

    /// How far the table is now. It takes no memory.
    pub fn mark(&self) -> GroupMark
        ensures { result ≡ mark_of self.now }
    {
        GroupMark {
            number: self.number,
            next_file: self.filed.next,
        }
    }

    /// One more use of the expression. The answer is the number of its file; those of its parts
    /// that have no file get one, with the rows of now. After an error the table is as it was. It
    /// takes at most one step for each row of a new file, whatever it answers. The only error is
    /// that memory ran out.
    pub fn install<L: Ledger>(
        &mut self,
        alloc: Global,
        expr: &Expr,
        store: &Store,
        steps: &mut Steps<L>,
    ) -> Result<FileId, AllocError>
        requires formed { IsWellFormedExpr expr.now }
        requires number { store.now.changes ≡ self.old.number }
        requires fits { Fits self.old.number (world_in store.now) self.old.files }
        requires uses { EachFile self.old.files (λ number file. file.uses < 2 ^ 64 - 1) }
        requires room { self.old.next_file ≤ 2 ^ 64 - 257 }
        ensures ok { IfOk result (λ file. IsInstalled expr.now self.old self.new file.0) }
        ensures fits { Fits self.old.number (world_in store.now) self.new.files }
        ensures err { OnErr result (self.new ≡ self.old) }

        // `missing` is any list that names each part of the expression without a file.
        ensures cost { (missing : List an_expr)
            → NamesTheMissing self.old.files expr.now missing
            → steps.new ≤ steps.old + rows_of_all (world_in store.now) missing }
    {
        let low = self.filed.next;
        match place(alloc, self.seed, &mut self.filed, expr, store, steps) {
            Ok(number) => {
                let uses = self.filed.shelf.uses(number);
                self.filed.shelf.set_uses(number, uses + 1);
                Ok(FileId(number))
            }
            Err(refused) => {
                cut(&mut self.filed, low);
                Err(refused)
            }
        }
    }

    /// Gives up one use of the file. What no use and no other file needs any more is taken away. It
    /// takes no memory, and time in proportion to what goes.
    pub fn release(&mut self, file: FileId)
        requires { HasUse self.old.files file.0 }
        ensures files { IsReleased self.old.files file.0 self.new.files }
        ensures next_file { self.new.next_file ≡ self.old.next_file }
        ensures number { self.new.number ≡ self.old.number }
    {
        let uses = self.filed.shelf.uses(file.0);
        self.filed.shelf.set_uses(file.0, uses - 1);
        collect(&mut self.filed, file.0);
    }

    /// Gives each file the signed rows that the change makes of its expression, under the number of
    /// the change. The answer names each file that got rows. After an error the table is as it was.
    /// It takes at most one step for each signed row, whatever it answers; and selections by
    /// intervals of one slot of one file take together at most one step for each row that some of
    /// them takes. The only error is that memory ran out.
    pub fn feed<L: Ledger>(
        &mut self,
        alloc: Global,
        change: &Change,
        store: &Store,
        steps: &mut Steps<L>,
    ) -> Result<Sequence<u64>, AllocError>
        requires change { IsPreparedFrom store.now change.now }
        requires number { store.now.changes ≡ self.old.number }
        requires more { self.old.number < 2 ^ 64 - 1 }
        requires fits { Fits self.old.number (world_in store.now) self.old.files }
        ensures number { OnOk result (self.new.number ≡ self.old.number + 1) }
        ensures fed { OnOk result (AreFed store.now change.now self.old.files self.new.files) }
        ensures fits { OnOk result (Fits self.new.number (world_after store.now change.now)
            self.new.files) }
        ensures named { IfOk result (NamesTheFed store.now.changes self.new.files) }
        ensures next_file { self.new.next_file ≡ self.old.next_file }
        ensures err { OnErr result (self.new ≡ self.old) }
        ensures cost { steps.new ≤ steps.old + feed_work store.now change.now self.old.files }
        ensures shared { (held : ℕ → ℕ → ℕ) → CountsHeld store.now change.now self.old.files held
            → steps.new ≤ steps.old + (plain_work store.now change.now self.old.files
            + held_work self.old.files held) }
    {
        let numbers = ncq_feed::feed(alloc, &mut self.filed.shelf, change, store, steps)?;
        self.number += 1;
        Ok(numbers)
    }

    /// Takes the signed rows of the changes after the mark away, and makes both numbers those of
    /// the mark, at which each file of now stood. It takes no memory.
    pub fn roll_back(&mut self, mark: GroupMark)
        requires number { mark.number ≤ self.old.number }
        requires next_file { mark.next_file ≤ self.old.next_file }
        requires base { EachFile self.old.files (λ number file. file.content.base ≤ mark.number) }
        requires below { EachFile self.old.files (λ number file. number < mark.next_file) }
        ensures number { self.new.number ≡ mark.number }
        ensures next_file { self.new.next_file ≡ mark.next_file }
        ensures files { (number : ℕ) → get self.new.files number
            ≡ option_map (cut_to mark.number) (get self.old.files number) }
    {
        self.filed.shelf.roll_back(mark.number);
        self.filed.next = mark.next_file;
        self.number = mark.number;
    }

    /// Makes a change the base of a file. Where it has rows of its own it has then those that are
    /// left there, each as one that is there from the base on, and those of later changes; a
    /// selection by an interval keeps its rows. After an error the table is as it was. The only
    /// error is that memory ran out.
    pub fn compact(&mut self, alloc: Global, file: FileId, change: u64) -> Result<(), AllocError>
        requires there { IsThere self.old.files file.0 }
        requires base { AtFile self.old.files file.0 (λ kept. kept.content.base ≤ change) }
        requires sound { AtFile self.old.files file.0 (λ kept. IsSoundAt change kept.content.rows) }
        requires number { change ≤ self.old.number }
        ensures ok { OnOk result (AtFile self.old.files file.0 (λ kept.
            (next : KeptFile) × (self.new.files ≡ insert self.old.files file.0 next)
            × IsCompacted change kept next)) }
        ensures rows { OnOk result (AtFile self.old.files file.0 (λ kept.
            (IsRange kept.expr → ⊥)
            → AtFile self.new.files file.0 (λ next.
            AreLeftAt change kept.content.rows next.content.rows))) }
        ensures err { OnErr result (self.new ≡ self.old) }
        ensures next_file { self.new.next_file ≡ self.old.next_file }
        ensures number { self.new.number ≡ self.old.number }
    {
        self.filed.shelf.compact(alloc, file.0, change)?;
        Ok(())
    }

    /// Makes a change the base of a file that selects by an interval, which keeps its rows; another
    /// file stays as it is. No want of memory keeps it from that.
    pub fn raise_base(&mut self, file: FileId, change: u64)
        requires there { IsThere self.old.files file.0 }
        requires number { change ≤ self.old.number }
        ensures raised { AtFile self.old.files file.0 (λ kept.
            (next : KeptFile) × (self.new.files ≡ insert self.old.files file.0 next)
            × IsRaised change kept next) }
        ensures next_file { self.new.next_file ≡ self.old.next_file }
        ensures number { self.new.number ≡ self.old.number }
    {
        self.filed.shelf.raise_base(file.0, change);
    }

    /// Where the file selects by an interval: of the rows that it shares with all that select so by
    /// the slot of the input, pairs of equal ones are struck out, one that came in and one that
    /// went out, both up to the base of each that takes the row. After an error the table is as it
    /// was. The only error is that memory ran out.
    pub fn fold(&mut self, alloc: Global, file: FileId) -> Result<(), AllocError>
        requires { IsThere self.old.files file.0 }
        ensures ok { OnOk result (AreFolded self.old.files self.new.files) }
        ensures next_file { self.new.next_file ≡ self.old.next_file }
        ensures number { self.new.number ≡ self.old.number }
        ensures err { OnErr result (self.new ≡ self.old) }
    {
        self.filed.shelf.fold(alloc, file.0)?;
        Ok(())
    }

    /// The files that select by intervals of the slot by which the file does, of the same input:
    /// none where it does not select so. The only error is that memory ran out.
    pub fn siblings(&self, alloc: Global, file: FileId) -> Result<Sequence<u64>, AllocError>
        requires { IsThere self.now.files file.0 }
        ensures { IfOk result (AllByRecursion (IsThere self.now.files)) }
    {
        self.filed.shelf.siblings(alloc, file.0)
    }

    /// Whether the file selects by an interval and a fold is worth its cost. It decides speed
    /// alone: nothing is claimed of it.
    pub fn is_spent(&self, file: FileId) -> bool {
        self.filed.shelf.is_spent(file.0)
    }
}
