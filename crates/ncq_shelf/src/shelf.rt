//! Files by their numbers, and what finds them.
ghost use Rattle.std.specs.Prelude.{◌≡◌, ◌↔◌, ◌+◌, ◌-◌, ◌<◌, ◌≤◌, ◌∷◌, [], ℕ, List, Some, None};
ghost use Rattle.std.specs.Prelude.{nat_eq, length, map, filter, IfOk, OnOk, OnErr, IfSome, IfNone};
ghost use Rattle.std.specs.Prelude.{IsTrue};
ghost use Rattle.std.specs.FinMap.{empty, get, insert, remove, len};
ghost use Rattle.std.specs.List.{All, AllByRecursion, IsDistinct};
ghost use Rattle.std.specs.Option.{option_map};
ghost use Rattle.ncq_base.specs.declared.interval.Interval.{Interval as an_interval};
ghost use Rattle.ncq_plan.specs.Exprs.{World, expr_width, rows_in};
ghost use Rattle.ncq_plan.specs.WellFormed.{IsWellFormedExpr};
ghost use Rattle.ncq_midfile.specs.Content.{since, IsContent, IsSoundAt};
ghost use Rattle.ncq_midfile.specs.Files.{AreLeftAt};
ghost use Rattle.ncq_midfile.specs.Shown.{shown as what_is_shown, rows_below};
ghost use Rattle.ncq_readers.specs.Passed.{size_of};
ghost use Rattle.ncq_readers.specs.declared.ranges.HeldRows.{HeldRows as held_rows};
ghost use Rattle.ncq_shelf.specs.Bounds.{AreBounds, IsBelowAll, IsBelowBase, IsBound};
ghost use Rattle.ncq_shelf.specs.Contents.{AreFormed, AreUpTo, AreWide, Fits, with_more, cut_to};
ghost use Rattle.ncq_shelf.specs.Contents.{IsCompacted, IsNewAt, sum_over};
ghost use Rattle.ncq_shelf.specs.Contents.{AreFolded, IsRaised};
ghost use Rattle.ncq_shelf.specs.Inputs.{AreInputs};
ghost use Rattle.ncq_shelf.specs.KeptFiles.{AtFile, EachFile, KeptFile};
ghost use Rattle.ncq_shelf.specs.Readers.{IsAmong, AreScansOf, AreJoinsMet};
ghost use Rattle.ncq_shelf.specs.Readers.{ArePassedOn, AreBoundBy};
ghost use Rattle.ncq_shelf.specs.RowCounts.{CountsRows};
ghost use Rattle.ncq_shelf.specs.Ranges.{IsRange, IsNoRange, SelectsRange, Takes, TakesValue};
ghost use Rattle.ncq_shelf.specs.Ranges.{IsHeldBy, AppendsHeld, AreHeldOf, IsRangeFile, ShareRows};
ghost use Rattle.ncq_shelf.specs.Ranges.{NoneSelects};
ghost use Rattle.ncq_shelf.specs.Stands.{Finds, IsGrounded, IsIdle, IsThere, Stands, TellsIdle};
ghost use Rattle.ncq_shelf.specs.Stands.{TellsRead};

use crate::admit::{admit, make_room};
use crate::count::{own_count, own_rows, shared_rows};
use crate::cut::{cut_all, cut_groups};
use crate::enroll::strike;
use crate::file::File;
use crate::group::{Group, view_of};
use crate::inputs::Inputs;
use crate::install::{install, missing_at, put_file};
use crate::keys::Keys;
use crate::met::joins_in;
use crate::ranged::{note_takers, release_of};
use crate::rows::{
    Rows, append_own, base_of, compact_rows, index_rows, order_rows, raise_rows, unindex_rows,
    unorder_rows,
};
use crate::scans::strike_scan;
use indexmap::IndexMap;
use ncq_base::{Atom, Bytes, FileId, Sequence, Shared, Steps};
use ncq_consttab::RangeTable;
use ncq_midfile::{MidFile, RangeFile, SignedRow, View};
use ncq_plan::Expr;
use ncq_readers::{HeldRows, Readers};
use ncq_split::Parcels;
use std::alloc::{AllocError, Global};
use std::hash::RandomState;
use std::marker::Model;
use std::sync::ledger::Ledger;

/// So many joins over a file are told without a look at what its rows meet.
const FEW_JOINS: usize = 3;

/// Files by their numbers. What strangers choose (constants, atoms, sources) is found by hashes under
/// a seed.
pub struct Shelf {
    seed: RandomState,
    files: IndexMap<u64, File>,
    groups: IndexMap<Group, RangeFile>,
    numbers: IndexMap<Shared<Expr>, u64, RandomState>,
    scans: IndexMap<Bytes, Readers, RandomState>,
    keys: Keys,
}

impl Drop for Shelf {
    fn drop(self) {
        let Shelf {
            seed: _,
            files,
            groups,
            numbers,
            scans,
            keys,
        } = self;
        drop(files);
        drop(groups);
        drop(numbers);
        drop(scans);
        drop(keys);
    }
}

impl Model for Shelf {
    ghost use Rattle.ncq_shelf.specs.KeptFiles.{Files, files_code};
    ghost use Rattle.ncq_shelf.specs.Shown.{shown};
    ghost use Rattle.ncq_shelf.specs.Keyed.{IsKept};

    ghost Value = { Files };

    ghost coded = { files_code };

    ghost view = { λ m. shown m.groups.entries m.files.entries };

    ghost invariant = { λ m. IsKept m.groups.entries m.files.entries m.numbers.entries
        m.scans.entries m.keys };
}

impl Shelf {
    /// No files. What finds them is placed by the seed, so that nobody who does not know it can
    /// choose queries or rows that fall together.
    pub fn new(alloc: Global, seed: RandomState) -> Shelf
        ensures { result ≡ empty }
    {
        Shelf {
            seed,
            files: IndexMap::new(alloc),
            groups: IndexMap::new(alloc),
            numbers: IndexMap::with_hasher(alloc, seed),
            scans: IndexMap::with_hasher(alloc, seed),
            keys: Keys::new(alloc, seed),
        }
    }

    /// How many files there are.
    pub fn len(&self) -> usize
        ensures { result ≡ len self.now }
    {
        self.files.len()
    }

    /// How many signed rows the files have in all: those that selections by intervals share count
    /// once. It tells at most 2^64 - 1. It takes no memory, and time in proportion to the files.
    pub fn rows(&self) -> u64
        ensures { CountsRows self.now result }
    {
        own_rows(&self.files).saturating_add(shared_rows(&self.groups))
    }

    /// Whether there is a file of this number.
    pub fn has(&self, number: u64) -> bool
        ensures { IsTrue result ↔ IsThere self.now number }
    {
        self.files.contains_key(&number)
    }

    /// The expression of a file.
    pub fn expr(&self, number: u64) -> &Expr
        requires { IsThere self.now number }
        ensures { AtFile self.now number (λ file. result.now ≡ file.expr) }
    {
        match self.files.get(&number) {
            Some(file) => file.expr.get(),
            None => unreachable!(),
        }
    }

    /// The numbers of the files that a file reads.
    pub fn inputs(&self, number: u64) -> Inputs
        requires { IsThere self.now number }
        ensures { AtFile self.now number (λ file. AreInputs self.now file.expr result) }
    {
        match self.files.get(&number) {
            Some(file) => file.inputs,
            None => unreachable!(),
        }
    }

    /// The rows of a file, which may be a part of others. Where all files are wide, each row below
    /// it has a value for each slot of the file's expression.
    pub fn content(&self, number: u64) -> View<'_>
        requires { IsThere self.now number }
        ensures content { AtFile self.now number (λ file. what_is_shown result ≡ file.content) }
        ensures wide { AtFile self.now number (λ file. AreWide self.now
            → AllByRecursion (λ r. length r.row ≡ expr_width file.expr) (rows_below result)) }
    {
        match self.files.get(&number) {
            Some(file) => view_of(&self.groups, file),
            None => unreachable!(),
        }
    }

    /// The rows that the selections by intervals of the slot of a file share. Where it tells none
    /// there is no such selection. It takes no memory.
    pub fn range_file(&self, input: u64, slot: usize) -> Option<&RangeFile>
        ensures some { IfSome result (λ range. IsRangeFile self.now input slot range.now) }
        ensures none { IfNone result ((interval : an_interval) (number : ℕ)
            → SelectsRange self.now input slot interval number → ⊥) }
    {
        self.groups.get(&Group { input, slot })
    }

    /// The selections by intervals of one slot of one file are virtual files over one list of rows,
    /// each of which one of them takes: this call does nothing.
    pub fn share_rows(&self)
        ensures { ShareRows self.now }
    {
        // A look at a field is what gives a proof the invariant.
        let _ = &self.groups;
    }

    /// How many uses a file has.
    pub fn uses(&self, number: u64) -> u64
        requires { IsThere self.now number }
        ensures { AtFile self.now number (λ file. result ≡ file.uses) }
    {
        match self.files.get(&number) {
            Some(file) => file.uses,
            None => unreachable!(),
        }
    }

    /// Gives a file another count of uses.
    pub fn set_uses(&mut self, number: u64, uses: u64)
        requires { IsThere self.old number }
        ensures { AtFile self.old number (λ file.
            self.new ≡ insert self.old number (record file { uses = uses })) }
    {
        let Some(file) = self.files.get_mut(&number) else {
            return;
        };
        file.uses = uses;
    }

    /// The file of an expression, if there is one.
    pub fn find(&self, expr: &Expr) -> Option<u64>
        ensures { Finds self.now expr.now result }
    {
        self.numbers.get(expr).copied()
    }

    /// Whether the file is there, has no use and is read by no file.
    pub fn is_idle(&self, number: u64) -> bool
        ensures { TellsIdle self.now number result }
    {
        let Some(file) = self.files.get(&number) else {
            return false;
        };
        if file.uses != 0 {
            return false;
        }
        file.readers.is_empty()
    }

    /// Whether some file reads the file. It takes no memory.
    pub fn is_read(&self, number: u64) -> bool
        requires { IsThere self.now number }
        ensures { TellsRead self.now number result }
    {
        let Some(file) = self.files.get(&number) else {
            unreachable!()
        };
        !file.readers.is_empty()
    }

    /// Takes an idle file away, and tells what it read. It takes no memory.
    pub fn remove(&mut self, number: u64) -> Inputs
        requires { IsIdle self.old number }
        ensures gone { self.new ≡ remove self.old number }
        ensures inputs { AtFile self.old number (λ file. AreInputs self.old file.expr result) }
    {
        let group = self.group_at(number);
        let sides = self.sides_at(number);
        let inputs = self.take_out(number);
        self.drop_indexes(sides);
        if let Some(group) = group {
            self.drop_order(group);
        }
        inputs
    }

    /// The numbers of the files that a join reads; another file has no sides.
    fn sides_at(&self, number: u64) -> Inputs {
        let Some(file) = self.files.get(&number) else {
            return Inputs::Nothing;
        };
        match file.expr.get() {
            Expr::Join { .. } => file.inputs,
            _ => Inputs::Nothing,
        }
    }

    /// Where a join of these files has gone, those that no join reads any more keep no index for
    /// joins. It takes no memory.
    fn drop_indexes(&mut self, sides: Inputs)
        ensures { self.new ≡ self.old }
    {
        match sides {
            Inputs::Nothing => {}
            Inputs::One(number) => self.drop_unjoined(number),
            Inputs::Two(left, right) => {
                self.drop_unjoined(left);
                self.drop_unjoined(right);
            }
        }
    }

    /// Gives up a file's indexes by atoms, where no join reads it. It takes no memory.
    fn drop_unjoined(&mut self, number: u64)
        ensures { self.new ≡ self.old }
    {
        if self.is_joined(number) {
            return;
        }
        let Some(file) = self.files.get_mut(&number) else {
            return;
        };
        unindex_rows(&mut file.content);
    }

    /// Whether a join reads the file.
    fn is_joined(&self, number: u64) -> bool {
        match self.files.get(&number) {
            Some(file) => !file.readers.joins().is_empty(),
            None => false,
        }
    }

    /// The group of a file that selects by an interval. Its input is there.
    fn group_at(&self, number: u64) -> Option<Group>
        ensures { IfSome result (λ group. IsThere self.now group.input) }
    {
        match self.files.get(&number)?.content {
            Rows::Ranged { group, .. } => Some(group),
            Rows::Whole(_) => None,
        }
    }

    /// Where a group has gone, its input keeps no order of the slot any more. It takes no memory.
    fn drop_order(&mut self, group: Group)
        ensures { self.new ≡ self.old }
    {
        if self.groups.contains_key(&group) {
            return;
        }
        let Some(file) = self.files.get_mut(&group.input) else {
            return;
        };
        unorder_rows(&mut file.content, group.slot);
    }

    /// Takes an idle file away, and tells what it read.
    fn take_out(&mut self, number: u64) -> Inputs
        requires { IsIdle self.old number }
        ensures gone { self.new ≡ remove self.old number }
        ensures inputs { AtFile self.old number (λ file. AreInputs self.old file.expr result) }
    {
        let Some(file) = self.files.swap_remove(&number) else {
            return Inputs::Nothing;
        };
        let _number = self.numbers.swap_remove(&file.expr);
        strike(&mut self.files, file.expr.get(), file.inputs, number);
        strike_scan(&mut self.scans, file.expr.get(), number);
        release_of(&mut self.groups, &self.files, &file);
        self.keys.forget(number);
        file.inputs
    }

    /// A new file without a use, for an expression that has none and is no selection by an
    /// interval. After an error all is as before.
    pub fn add(
        &mut self,
        alloc: Global,
        number: u64,
        expr: &Expr,
        inputs: Inputs,
        content: MidFile,
    ) -> Result<(), AllocError>
        requires absent { get self.old number ≡ None }
        requires new { (other : ℕ) → Stands self.old expr.now other → ⊥ }
        requires inputs { AreInputs self.old expr.now inputs }
        requires own { IsRange expr.now → ⊥ }
        ensures ok { OnOk result (self.new ≡ insert self.old number
            (record { expr = expr.now; uses = 0; content = content })) }
        ensures err { OnErr result (self.new ≡ self.old) }
    {
        let (key, copy) = admit(
            alloc,
            self.seed,
            &mut self.files,
            &self.groups,
            &mut self.numbers,
            &mut self.scans,
            &mut self.keys,
            expr,
            inputs,
            number,
        )?;
        let file = File {
            expr: copy,
            uses: 0,
            content: Rows::Whole(content),
            inputs,
            readers: Readers::new(alloc),
            rows_lost: 0,
        };
        put_file(&mut self.files, &mut self.numbers, number, key, file);
        Ok(())
    }

    /// A new file without a use, for a selection by an interval that has none, with the change as
    /// its base. Of its input's content those rows alone are copied that no file has yet which
    /// selects by an interval of the slot: all of these hold their rows once. It takes at most one
    /// step for each row that the new file has at the change. After an error all is as before.
    pub fn add_ranged<L: Ledger>(
        &mut self,
        alloc: Global,
        number: u64,
        expr: &Expr,
        inputs: Inputs,
        change: u64,
        steps: &mut Steps<L>,
    ) -> Result<(), AllocError>
        requires absent { get self.old number ≡ None }
        requires new { (other : ℕ) → Stands self.old expr.now other → ⊥ }
        requires inputs { AreInputs self.old expr.now inputs }
        requires range { IsRange expr.now }
        requires formed { IsWellFormedExpr expr.now }
        requires grounded { IsGrounded self.old }
        requires wide { AreWide self.old }
        requires up_to { AreUpTo change self.old }
        requires sound { EachFile self.old (λ other file. IsSoundAt change file.content.rows) }
        ensures ok { OnOk result ((kept : KeptFile) × (self.new ≡ insert self.old number kept)
            × IsNewAt change expr.now kept) }

        // `world` is any whose rows the files have at the change.
        ensures fits { OnOk result ((world : World)
            → Fits change world self.old → Fits change world self.new) }
        ensures cost { (world : World) → Fits change world self.old
            → steps.new ≤ steps.old + length (rows_in expr.now world) }
        ensures err { OnErr result (self.new ≡ self.old) }
    {
        let Expr::RangeSel { slot, .. } = expr else {
            unreachable!()
        };
        let Inputs::One(input) = inputs else {
            unreachable!()
        };
        self.ensure_order(alloc, input, *slot)?;
        self.put_ranged(alloc, number, expr, inputs, change, steps)
    }

    /// Makes sure that rows of a file are found by the number in a slot.
    fn ensure_order(&mut self, alloc: Global, number: u64, slot: usize) -> Result<(), AllocError>
        requires there { IsThere self.old number }
        requires wide { AreWide self.old }
        requires slot { AtFile self.old number (λ file. slot < expr_width file.expr) }
        ensures { self.new ≡ self.old }
    {
        let Some(file) = self.files.get_mut(&number) else {
            unreachable!()
        };
        order_rows(alloc, &mut self.groups, &mut file.content, slot)
    }

    /// A new file for a selection by an interval, and the rows that it brings to its group.
    fn put_ranged<L: Ledger>(
        &mut self,
        alloc: Global,
        number: u64,
        expr: &Expr,
        inputs: Inputs,
        change: u64,
        steps: &mut Steps<L>,
    ) -> Result<(), AllocError>
        requires absent { get self.old number ≡ None }
        requires new { (other : ℕ) → Stands self.old expr.now other → ⊥ }
        requires inputs { AreInputs self.old expr.now inputs }
        requires range { IsRange expr.now }
        requires formed { IsWellFormedExpr expr.now }
        requires grounded { IsGrounded self.old }
        requires wide { AreWide self.old }
        requires up_to { AreUpTo change self.old }
        requires sound { EachFile self.old (λ other file. IsSoundAt change file.content.rows) }
        ensures ok { OnOk result ((kept : KeptFile) × (self.new ≡ insert self.old number kept)
            × IsNewAt change expr.now kept) }

        // `world` is any whose rows the files have at the change.
        ensures fits { OnOk result ((world : World)
            → Fits change world self.old → Fits change world self.new) }
        ensures cost { (world : World) → Fits change world self.old
            → steps.new ≤ steps.old + length (rows_in expr.now world) }
        ensures err { OnErr result (self.new ≡ self.old) }
    {
        let Expr::RangeSel { slot, interval, .. } = expr else {
            unreachable!()
        };
        let Inputs::One(input) = inputs else {
            unreachable!()
        };
        let Some(inner) = self.files.get(&input) else {
            unreachable!()
        };
        let group = Group { input, slot: *slot };
        let view = view_of(&self.groups, inner);
        let missing = missing_at(
            alloc,
            self.seed,
            &inner.readers,
            interval,
            *slot,
            &view,
            change,
            steps,
        )?;
        let (key, copy) = make_room(alloc, &mut self.files, &mut self.numbers, expr, inputs)?;
        install(
            alloc,
            self.seed,
            &mut self.groups,
            &mut self.files,
            group,
            expr,
            number,
            missing,
        )?;
        let file = File {
            expr: copy,
            uses: 0,
            content: Rows::Ranged {
                group,
                base: change,
            },
            inputs,
            readers: Readers::new(alloc),
            rows_lost: 0,
        };
        put_file(&mut self.files, &mut self.numbers, number, key, file);
        Ok(())
    }

    /// One more signed row of a file that has its own, with a number above its base and not below
    /// its last row's. After an error all is as before.
    pub fn append(&mut self, number: u64, row: SignedRow) -> Result<(), AllocError>
        requires there { IsThere self.old number }
        requires own { IsNoRange self.old number }
        requires above { AtFile self.old number (λ file. file.content.base < row.number) }
        requires last { AtFile self.old number (λ file.
            AllByRecursion (λ r. r.number ≤ row.number) file.content.rows) }
        ensures ok { OnOk result (AtFile self.old number (λ file.
            self.new ≡ insert self.old number (with_more file (row ∷ [])))) }
        ensures err { OnErr result (self.new ≡ self.old) }
    {
        self.keys.note_row(number, &row.row)?;
        let Some(file) = self.files.get_mut(&number) else {
            unreachable!()
        };
        append_own(&mut file.content, row)
    }

    /// One more signed row of each file that takes it of the input by an interval of the slot, with
    /// a number not below the last row of any that selects so. The row is kept once. The answer
    /// names the files. After an error all is as before.
    pub fn append_held(
        &mut self,
        alloc: Global,
        input: u64,
        slot: usize,
        row: SignedRow,
    ) -> Result<Sequence<FileId>, AllocError>
        requires there { IsThere self.old input }
        requires taken { IsHeldBy self.old input slot row.row }
        requires slot { slot < length row.row }
        requires last { (interval : an_interval) (number : ℕ)
            → SelectsRange self.old input slot interval number → AtFile self.old number (λ file.
            AllByRecursion (λ r. r.number ≤ row.number) file.content.rows) }
        ensures ok { OnOk result (AppendsHeld self.old input slot row self.new) }
        ensures told { IfOk result (λ files. (number : ℕ)
            → IsAmong number (map (λ file. file.0) files)
            ↔ Takes self.old input slot row.row number) }
        ensures err { OnErr result (self.new ≡ self.old) }
    {
        let group = Group { input, slot };
        let takers = self.takers(alloc, input, slot, row.row.atom(slot))?;
        note_takers(&mut self.keys, takers.as_slice(), &row.row)?;
        let Some(held) = self.groups.get_mut(&group) else {
            unreachable!()
        };
        held.add(row)?;
        Ok(takers)
    }

    /// The files that select by an interval of the slot of the input which has the value, by rising
    /// number. The others are not looked at.
    fn takers(
        &self,
        alloc: Global,
        input: u64,
        slot: usize,
        value: &Atom,
    ) -> Result<Sequence<FileId>, AllocError>
        requires { IsThere self.now input }
        ensures { IfOk result (λ files. (number : ℕ)
            → IsAmong number (map (λ file. file.0) files)
            ↔ TakesValue self.now input slot value.now number) }
    {
        let Some(file) = self.files.get(&input) else {
            unreachable!()
        };
        match file.readers.range_table(slot) {
            Some(table) => table.takers(alloc, value),
            None => Ok(Sequence::new(alloc)),
        }
    }

    /// Makes sure that rows of a file are found by the atoms at these slots. It changes no answer.
    pub fn ensure_index(
        &mut self,
        alloc: Global,
        number: u64,
        slots: &[usize],
    ) -> Result<(), AllocError>
        requires there { IsThere self.old number }
        requires wide { AreWide self.old }
        requires slots { AtFile self.old number (λ file.
            AllByRecursion (λ slot. slot < expr_width file.expr) slots.now) }
        ensures { self.new ≡ self.old }
    {
        let Some(file) = self.files.get_mut(&number) else {
            unreachable!()
        };
        file.rows_lost = 0;
        index_rows(alloc, &mut self.groups, &mut file.content, slots)
    }

    /// Makes a change the base of a file. Where it has rows of its own it has then those that are
    /// left there, each as one that is there from the base on, and those of later changes; a
    /// selection by an interval keeps its rows. After an error all is as before.
    pub fn compact(&mut self, alloc: Global, number: u64, change: u64) -> Result<(), AllocError>
        requires there { IsThere self.old number }
        requires base { AtFile self.old number (λ file. file.content.base ≤ change) }
        requires sound { AtFile self.old number (λ file. IsSoundAt change file.content.rows) }
        ensures ok { OnOk result (AtFile self.old number (λ file.
            (kept : KeptFile) × (self.new ≡ insert self.old number kept)
            × IsCompacted change file kept)) }
        ensures rows { OnOk result (AtFile self.old number (λ file. (IsRange file.expr → ⊥)
            → AtFile self.new number (λ kept.
            AreLeftAt change file.content.rows kept.content.rows))) }
        ensures ranged { OnOk result (AtFile self.old number (λ file. IsRange file.expr
            → AtFile self.new number (λ kept. kept.content.rows ≡ file.content.rows))) }
        ensures err { OnErr result (self.new ≡ self.old) }
    {
        let Some(file) = self.files.get_mut(&number) else {
            unreachable!()
        };
        let before = own_count(&file.content);
        compact_rows(alloc, &mut file.content, change)?;
        self.renew_keys(number);
        self.drop_unasked(number, before);
        Ok(())
    }

    /// Gives up a file's indexes by atoms where none was asked for while compactions took out more
    /// rows than it has: else they would be kept up for creates that are long over. A file that a
    /// join reads keeps them. The file had so many rows of its own `before` the last compaction. It
    /// takes no memory.
    fn drop_unasked(&mut self, number: u64, before: u64)
        ensures { self.new ≡ self.old }
    {
        let Some(file) = self.files.get_mut(&number) else {
            return;
        };
        let rows = own_count(&file.content);
        file.rows_lost = file.rows_lost.saturating_add(before.saturating_sub(rows));
        if file.rows_lost <= rows {
            return;
        }
        file.rows_lost = 0;
        self.drop_unjoined(number);
    }

    /// Forgets that a file was noted for joins by atoms that its rows have no more, where many are
    /// such. It changes no answer.
    fn renew_keys(&mut self, number: u64)
        ensures { self.new ≡ self.old }
    {
        let Some(file) = self.files.get(&number) else {
            return;
        };
        let view = view_of(&self.groups, file);

        // Where memory runs out the file stays noted for all of them: a join may then be met that
        // finds nothing, as before. So the error is not the caller's.
        let _ = self.keys.renew(number, &view);
    }

    /// Makes a change the base of a file that selects by an interval, which keeps its rows; another
    /// file stays as it is. No want of memory keeps it from that.
    pub fn raise_base(&mut self, number: u64, change: u64)
        requires there { IsThere self.old number }
        ensures raised { AtFile self.old number (λ file.
            (kept : KeptFile) × (self.new ≡ insert self.old number kept)
            × IsRaised change file kept) }
        ensures ranged { AtFile self.old number (λ file. IsRange file.expr
            → AtFile self.new number (λ kept. kept.content.base ≡ change)) }
    {
        self.set_base(number, change);
        self.renew_keys(number);
    }

    /// Makes a change the base of a file, as `raise_base` says. It takes no memory.
    fn set_base(&mut self, number: u64, change: u64)
        requires there { IsThere self.old number }
        ensures raised { AtFile self.old number (λ file.
            (kept : KeptFile) × (self.new ≡ insert self.old number kept)
            × IsRaised change file kept) }
        ensures ranged { AtFile self.old number (λ file. IsRange file.expr
            → AtFile self.new number (λ kept. kept.content.base ≡ change)) }
    {
        let Some(file) = self.files.get_mut(&number) else {
            unreachable!()
        };
        raise_rows(&mut file.content, change);
    }

    /// Where the file selects by an interval: of the rows that it shares with all that select so by
    /// the slot of the input, pairs of equal ones are struck out, one that came in and one that
    /// went out, both up to the base of each that takes the row. After an error all is as before.
    pub fn fold(&mut self, alloc: Global, number: u64) -> Result<(), AllocError>
        requires { IsThere self.old number }
        ensures ok { OnOk result (AreFolded self.old self.new) }
        ensures err { OnErr result (self.new ≡ self.old) }
    {
        let Some(group) = self.group_at(number) else {
            return Ok(());
        };
        self.fold_group(alloc, group)
    }

    /// Strikes such pairs out of the rows of a group.
    fn fold_group(&mut self, alloc: Global, group: Group) -> Result<(), AllocError>
        requires { IsThere self.old group.input }
        ensures ok { OnOk result (AreFolded self.old self.new) }
        ensures err { OnErr result (self.new ≡ self.old) }
    {
        let Some(range) = self.groups.get(&group) else {
            return Ok(());
        };
        let bounds = self.bounds_of(alloc, group, range.rows())?;
        let Some(held) = self.groups.get_mut(&group) else {
            unreachable!()
        };
        held.fold(alloc, bounds.as_slice())?;
        Ok(())
    }

    /// For each of the rows a bound that is at most the base of each file which takes it of the
    /// group's input by an interval of its slot: the least of these bases, or one that the row's
    /// number is at most.
    fn bounds_of(
        &self,
        alloc: Global,
        group: Group,
        rows: &[SignedRow],
    ) -> Result<Sequence<u64>, AllocError>
        requires there { IsThere self.now group.input }
        requires slot { All (λ r. group.slot < length r.row) rows.now }
        ensures { IfOk result (AreBounds self.now group.input group.slot rows.now) }
    {
        let least = self.least_of(group);
        let mut bounds = Vec::new(alloc);
        for signed in rows {
            bounds.push(self.bound_of(alloc, group, least, signed)?)?;
        }
        Ok(Sequence::from_vec(bounds))
    }

    /// The least base of all files that select by an interval of the group's slot, of its input.
    fn least_of(&self, group: Group) -> u64
        ensures { IsBelowAll self.now group.input group.slot result }
    {
        match self.range_table(group) {
            Some(table) => self.least_base(table.files()),
            None => u64::MAX,
        }
    }

    /// At most the base of each file of the group that takes the row. Where the row's number is at
    /// most the least base of all, as nearly always, that one will do; else the files that take the
    /// row are looked up.
    fn bound_of(
        &self,
        alloc: Global,
        group: Group,
        least: u64,
        signed: &SignedRow,
    ) -> Result<u64, AllocError>
        requires there { IsThere self.now group.input }
        requires slot { group.slot < length signed.now.row }
        requires least { IsBelowAll self.now group.input group.slot least }
        ensures { IfOk result (IsBound self.now group.input group.slot signed.now) }
    {
        if signed.number <= least {
            return Ok(least);
        }
        let value = signed.row.atom(group.slot);
        let takers = self.takers(alloc, group.input, group.slot, value)?;
        Ok(self.least_base(takers.as_slice()))
    }

    /// The least base of the files that are there.
    fn least_base(&self, files: &[FileId]) -> u64
        ensures { AllByRecursion (λ file. IsBelowBase self.now result file.0) files.now }
    {
        let mut least = u64::MAX;
        for file in files {
            least = least.min(self.base_at(file.0));
        }
        least
    }

    /// The change from which on a file tells its content, if it is there.
    fn base_at(&self, number: u64) -> u64
        ensures { IsBelowBase self.now result number }
    {
        match self.files.get(&number) {
            Some(file) => base_of(&file.content),
            None => u64::MAX,
        }
    }

    /// The files that select by intervals of the slot by which the file does, of the same input:
    /// none where it does not select so.
    pub fn siblings(&self, alloc: Global, number: u64) -> Result<Sequence<u64>, AllocError>
        requires { IsThere self.now number }
        ensures { IfOk result (AllByRecursion (IsThere self.now)) }
    {
        let Some(group) = self.group_at(number) else {
            return Ok(Sequence::new(alloc));
        };
        match self.range_table(group) {
            Some(table) => numbers_of(alloc, table.files()),
            None => Ok(Sequence::new(alloc)),
        }
    }

    /// The intervals by which files select at a group, each with its file.
    fn range_table(&self, group: Group) -> Option<&RangeTable>
        ensures there { IfSome result (λ table.
            AllByRecursion (λ entry. IsThere self.now entry.1.0) table.now) }
        ensures all { IfSome result (λ table. (interval : an_interval) (number : ℕ)
            → SelectsRange self.now group.input group.slot interval number
            → IsAmong number (map (λ file. file.0) (map (λ entry. entry.1) table.now))) }
        ensures none { IfNone result (NoneSelects self.now group.input group.slot) }
    {
        let input = self.files.get(&group.input)?;
        input.readers.range_table(group.slot)
    }

    /// Whether the file selects by an interval and a fold is worth its cost. It decides speed
    /// alone: nothing is claimed of it.
    pub fn is_spent(&self, number: u64) -> bool {
        let Some(group) = self.group_at(number) else {
            return false;
        };
        match (self.groups.get(&group), self.range_table(group)) {
            (Some(range), Some(table)) => range.is_spent(table.len()),
            _ => false,
        }
    }

    /// Takes the signed rows of later changes away from each file. It takes no memory.
    pub fn roll_back(&mut self, change: u64)
        requires { EachFile self.old (λ number file. file.content.base ≤ change) }
        ensures { (number : ℕ)
            → get self.new number ≡ option_map (cut_to change) (get self.old number) }
    {
        cut_all(&mut self.files, change);
        cut_groups(&mut self.groups, change);
    }

    /// The numbers of the scans of a source, each once.
    pub fn scans_of(&self, alloc: Global, source: &Bytes) -> Result<Sequence<u64>, AllocError>
        ensures scans { IfOk result (λ numbers. AreScansOf self.now source.now numbers) }
        ensures once { IfOk result (λ numbers. IsDistinct nat_eq numbers) }
    {
        let Some(readers) = self.scans.get(source) else {
            return Ok(Sequence::new(alloc));
        };
        let numbers = copy_of(alloc, readers.joins())?;
        Ok(numbers)
    }

    /// The numbers of joins over a file, each once; those that are left out make nothing of its
    /// rows above a change.
    pub fn joins_met(
        &self,
        alloc: Global,
        input: u64,
        change: u64,
    ) -> Result<Sequence<u64>, AllocError>
        requires there { IsThere self.now input }
        requires base { AtFile self.now input (λ file. file.content.base ≤ change) }
        requires formed { AreFormed self.now }
        requires wide { AreWide self.now }
        ensures met { IfOk result (λ numbers. AreJoinsMet self.now input change numbers) }
        ensures once { IfOk result (λ numbers. IsDistinct nat_eq numbers) }
    {
        let Some(file) = self.files.get(&input) else {
            unreachable!()
        };
        let joins = file.readers.joins();
        if joins.len() <= FEW_JOINS {
            let all = copy_of(alloc, joins)?;
            return Ok(all);
        }
        let view = view_of(&self.groups, file);
        let places = view.since(alloc, change)?;
        let met = joins_in(
            alloc,
            &self.files,
            &self.keys,
            input,
            &view,
            places.as_slice(),
        )?;
        let numbers = copy_of(alloc, met.as_slice())?;
        Ok(numbers)
    }

    /// A parcel of each of a file's rows of a change for each selection by a constant over the file
    /// that takes it. Its rows of the change are those with no lower number. It takes at most one
    /// step for each parcel. The only error is that memory ran out.
    pub fn parcels<L: Ledger>(
        &self,
        alloc: Global,
        input: u64,
        number: u64,
        steps: &mut Steps<L>,
    ) -> Result<Parcels, AllocError>
        requires there { IsThere self.now input }
        requires base { AtFile self.now input (λ file. file.content.base < number) }
        requires grounded { IsGrounded self.now }
        requires formed { AreFormed self.now }
        requires wide { AreWide self.now }
        ensures parcels { IfOk result (λ parcels.
            AtFile self.now input (λ file.
            ArePassedOn self.now input (since (number - 1) file.content.rows) parcels)) }

        // `bound` is any that no selection by a constant over the file exceeds.
        ensures cost { (file : KeptFile) (bound : ℕ → ℕ) → get self.now input ≡ Some file
            → AreBoundBy self.now input (since (number - 1) file.content.rows) bound
            → steps.new ≤ steps.old + sum_over self.now bound }
    {
        let Some(file) = self.files.get(&input) else {
            unreachable!()
        };
        let view = view_of(&self.groups, file);
        file.readers.parcels(alloc, &view, number, steps)
    }

    /// For each slot of a file by whose intervals files select, those of its rows of a change that
    /// one of them takes, each once. Its rows of the change are those with no lower number. It
    /// takes at most one step for each row of an Ok, whatever it answers. The only error is that
    /// memory ran out.
    pub fn held<L: Ledger>(
        &self,
        alloc: Global,
        input: u64,
        number: u64,
        steps: &mut Steps<L>,
    ) -> Result<Sequence<HeldRows>, AllocError>
        requires there { IsThere self.now input }
        requires base { AtFile self.now input (λ file. file.content.base < number) }
        requires grounded { IsGrounded self.now }
        requires formed { AreFormed self.now }
        requires wide { AreWide self.now }
        ensures held { IfOk result (λ held. AtFile self.now input (λ file.
            AreHeldOf self.now input (since (number - 1) file.content.rows) held)) }
        ensures spent { IfOk result (λ held. steps.new ≤ steps.old + size_of held) }
        ensures cost { AtFile self.now input (λ file. (held : List held_rows)
            × AreHeldOf self.now input (since (number - 1) file.content.rows) held
            × (steps.new ≤ steps.old + size_of held)) }
    {
        let Some(file) = self.files.get(&input) else {
            unreachable!()
        };
        let view = view_of(&self.groups, file);
        file.readers.held(alloc, &view, number, steps)
    }
}

/// The numbers of the files.
fn numbers_of(alloc: Global, files: &[FileId]) -> Result<Sequence<u64>, AllocError>
    ensures { IfOk result (λ numbers. numbers ≡ map (λ file. file.0) files.now) }
{
    let mut numbers = Sequence::new(alloc);
    for file in files {
        numbers.push(file.0)?;
    }
    Ok(numbers)
}

/// The same numbers.
fn copy_of(alloc: Global, numbers: &[u64]) -> Result<Sequence<u64>, AllocError>
    ensures { IfOk result (λ copy. copy ≡ numbers.now) }
{
    let mut copy = Vec::new(alloc);
    copy.extend_from_slice(numbers)?;
    Ok(Sequence::from_vec(copy))
}
