//! The file of a range group.
ghost use Rattle.std.specs.Prelude.{◌≡◌, ◌≤◌, ◌++◌, [], ◌∷◌, ℕ, Bool, length, OnOk, OnErr};
ghost use Rattle.std.specs.List.{AllByRecursion};
ghost use Rattle.std.specs.Map.{keys_of};
ghost use Rattle.ncq_row.specs.Embeddings.{Row as a_row};
ghost use Rattle.ncq_midfile.specs.Content.{up_to};
ghost use Rattle.ncq_midfile.specs.Files.{AreNumbered};
ghost use Rattle.ncq_midfile.specs.Finders.{AreFinders};
ghost use Rattle.ncq_midfile.specs.Folds.{AreBoundBy, AreBoundTo, IsFolded, IsLeftOneWay};
ghost use Rattle.ncq_midfile.specs.Matching.{HaveSlots};
ghost use Rattle.ncq_midfile.specs.Ranged.{HaveNumbers};
ghost use Rattle.ncq_midfile.specs.Views.{HasNumber, of_rows, is_held, is_kept};

use crate::content::count_up_to;
use crate::finder::{Finder, cut_all, keep_index, keep_order, lose_index, lose_order};
use crate::fold::{folded, keep_at};
use crate::keep::{count_held, count_kept, keep_held, keep_without};
use crate::signed::SignedRow;
use ncq_base::Interval;
use ncq_consttab::RangeTable;
use std::alloc::{AllocError, Global};
use std::hash::RandomState;
use std::marker::Model;

/// So few rows that went out are not worth a fold.
const FEW_LOST: usize = 64;

/// The signed rows that some interval of a range group holds, each once. Each row has a number in
/// the group's slot. `lost` is how many of the rows added since the last fold went out.
pub struct RangeFile {
    seed: RandomState,
    slot: usize,
    rows: Vec<SignedRow>,
    finders: Vec<Finder>,
    lost: usize,
    alloc: Global,
}

impl Drop for RangeFile {
    fn drop(self) {
        let RangeFile {
            seed: _,
            slot: _,
            rows,
            finders,
            lost: _,
            alloc: _,
        } = self;
        drop(rows);
        drop(finders);
    }
}

impl Model for RangeFile {
    ghost use Rattle.ncq_midfile.specs.Views.{RangeState, range_code};
    ghost use Rattle.ncq_midfile.specs.Ranged.{IsRanged};

    ghost Value = { RangeState };

    ghost coded = { range_code };

    ghost view = { λ f. record { slot = f.slot; rows = f.rows.items } };

    ghost invariant = { λ f. IsRanged f.slot f.rows.items f.finders.items };
}

impl RangeFile {
    /// A file without rows. Its indexes and tables place rows by the seed, so that nobody who does
    /// not know it can choose rows that fall together.
    pub fn new(alloc: Global, seed: RandomState, slot: usize) -> RangeFile
        ensures { result ≡ record { slot = slot; rows = [] } }
    {
        RangeFile {
            seed,
            slot,
            rows: Vec::new(alloc),
            finders: Vec::new(alloc),
            lost: 0,
            alloc,
        }
    }

    /// The slot in which each row has a number. Numbers of changes never fall.
    pub fn slot(&self) -> usize
        ensures slot { result ≡ self.now.slot }
        ensures numbered { AreNumbered 0 self.now.rows }
        ensures numbers { HaveNumbers self.now.slot self.now.rows }
    {
        self.slot
    }

    /// One more signed row, with a number in the slot, of a change not below the last one.
    pub fn add(&mut self, row: SignedRow) -> Result<(), AllocError>
        requires number { HasNumber self.old.slot row.row }
        requires last { AllByRecursion (λ r. r.number ≤ row.number) self.old.rows }
        ensures slot { self.new.slot ≡ self.old.slot }
        ensures ok { OnOk result (self.new.rows ≡ self.old.rows ++ row ∷ []) }
        ensures err { OnErr result (self.new ≡ self.old) }
    {
        let rows = self.rows.as_slice();
        keep_order(self.alloc, self.seed, &mut self.finders, rows, self.slot)?;
        let more = usize::from(!row.plus);
        self.rows.push(row)?;
        self.lost = self.lost.saturating_add(more);
        Ok(())
    }

    /// Takes away the rows that none of the intervals holds. It takes no memory.
    pub fn keep(&mut self, intervals: &[Interval])
        ensures slot { self.new.slot ≡ self.old.slot }
        ensures rows { self.new.rows ≡ of_rows (is_held self.old.slot intervals.now) self.old.rows }
    {
        let front = count_held(self.rows.as_slice(), self.slot, intervals);
        cut_all(&mut self.finders, front);
        keep_held(&mut self.rows, self.slot, intervals);
    }

    /// Takes away the rows that the interval has and none of the table's holds. Only rows of the
    /// interval are looked up. It takes no memory.
    pub fn keep_without(&mut self, gone: &Interval, table: &RangeTable)
        ensures slot { self.new.slot ≡ self.old.slot }
        ensures rows { self.new.rows
            ≡ of_rows (is_kept self.old.slot gone.now (keys_of table.now)) self.old.rows }
    {
        let front = count_kept(self.rows.as_slice(), self.slot, gone, table);
        if front == self.rows.len() {
            return;
        }
        cut_all(&mut self.finders, front);
        keep_without(&mut self.rows, self.slot, gone, table);
    }

    /// Takes away the signed rows with numbers above `n`. It takes no memory.
    pub fn cut(&mut self, n: u64)
        ensures slot { self.new.slot ≡ self.old.slot }
        ensures rows { self.new.rows ≡ up_to n self.old.rows }
    {
        let kept = count_up_to(self.rows.as_slice(), n);
        cut_all(&mut self.finders, kept);
        self.rows.truncate(kept);
    }

    /// Strikes out pairs of equal rows, one that came in and one that went out, each with a number
    /// up to the bound at its place, until no such pair is left. No row is made. After an error the
    /// file is as it was.
    pub fn fold(&mut self, alloc: Global, bounds: &[u64]) -> Result<(), AllocError>
        requires { length bounds.now ≡ length self.old.rows }
        ensures slot { self.new.slot ≡ self.old.slot }
        ensures ok { OnOk result ((test : a_row → Bool) (m : ℕ)
            → AreBoundBy test m self.old.rows bounds.now
            → IsFolded m (of_rows test self.old.rows) (of_rows test self.new.rows)) }
        ensures single { OnOk result ((row : a_row) (m : ℕ)
            → AreBoundTo row m self.old.rows bounds.now → IsLeftOneWay row m self.new.rows) }
        ensures err { OnErr result (self.new ≡ self.old) }
    {
        let places = folded(alloc, self.seed, self.rows.as_slice(), bounds)?;
        cut_all(&mut self.finders, 0);
        keep_at(&mut self.rows, places.as_slice());
        self.lost = 0;
        Ok(())
    }

    /// Whether so many rows went out since the last fold that one is worth its cost, where `more`
    /// is what it costs besides the rows. It decides speed alone: nothing is claimed of it.
    pub fn is_spent(&self, more: usize) -> bool {
        self.lost >= FEW_LOST && self.lost >= self.rows.len() / 3 && self.lost >= more / 4
    }

    /// Makes sure that rows are found by the atoms at these slots. It changes no answer and costs
    /// the rows that came since the last call. After an error, too, the file is as it was.
    pub fn ensure_index(&mut self, alloc: Global, slots: &[usize]) -> Result<(), AllocError>
        requires { HaveSlots slots.now self.old.rows }
        ensures { self.new ≡ self.old }
    {
        keep_index(
            alloc,
            self.seed,
            &mut self.finders,
            self.rows.as_slice(),
            slots,
        )
    }

    /// Gives up what finds rows by the atoms at these slots. It changes no answer and takes no
    /// memory.
    pub fn drop_index(&mut self, slots: &[usize])
        ensures { self.new ≡ self.old }
    {
        lose_index(&mut self.finders, slots);
    }

    /// Makes sure that rows are found by the number in a slot. It changes no answer and costs the
    /// rows that came since the last call. After an error, too, the file is as it was.
    pub fn ensure_order(&mut self, alloc: Global, slot: usize) -> Result<(), AllocError>
        requires { HaveSlots (slot ∷ []) self.old.rows }
        ensures { self.new ≡ self.old }
    {
        keep_order(
            alloc,
            self.seed,
            &mut self.finders,
            self.rows.as_slice(),
            slot,
        )
    }

    /// Gives up what finds rows by the number in a slot. It changes no answer and takes no memory.
    pub fn drop_order(&mut self, slot: usize)
        ensures { self.new ≡ self.old }
    {
        lose_order(&mut self.finders, slot);
    }

    /// The signed rows in order. It takes no memory.
    pub fn rows(&self) -> &[SignedRow]
        ensures rows { result.now ≡ self.now.rows }
        ensures numbered { AreNumbered 0 result.now }
        ensures numbers { HaveNumbers self.now.slot result.now }
    {
        self.rows.as_slice()
    }

    /// What the rows are placed by.
    pub(crate) fn seed(&self) -> RandomState {
        self.seed
    }

    pub(crate) fn finders(&self) -> &[Finder]
        ensures { AreFinders result.now self.now.rows }
    {
        self.finders.as_slice()
    }
}
