//! A file of signed rows.
ghost use Rattle.std.specs.Prelude.{◌≡◌, ◌<◌, ◌≤◌, ◌++◌, [], ◌∷◌, List, map, filter, length};
ghost use Rattle.std.specs.Prelude.{ℕ, slice_get, Some, IfOk, OnOk, OnErr};
ghost use Rattle.std.specs.List.{AllByRecursion, All};
ghost use Rattle.ncq_row.specs.Embeddings.{Row as a_row};
ghost use Rattle.ncq_midfile.specs.Content.{up_to, since, IsContent, IsSoundAt, rows_at};
ghost use Rattle.ncq_midfile.specs.Content.{AreRising, AreGains, signed_at};
ghost use Rattle.ncq_midfile.specs.Files.{AreLeftAt, IsFile};
ghost use Rattle.ncq_midfile.specs.Made.{gained_at};
ghost use Rattle.ncq_midfile.specs.Matching.{HaveSlots, has_key};
ghost use Rattle.ncq_midfile.specs.Views.{IsContentOf, is_within, losses_above};
ghost use Rattle.ncq_base.specs.Counts.{SameCounts};

use crate::compact::left_at;
use crate::content::{content_of, count_up_to, first_places, places_from};
use crate::counts::{count_losses, last_number};
use crate::finder::{Finder, cut_all, forget_all, keep_index, keep_order, lose_index, lose_order};
use crate::fold::keep_at;
use crate::key::{KeyAtom, atoms_of};
use crate::lose::lose_indexes;
use crate::matching::matching_in;
use crate::pairs::pairs;
use crate::signed::{Places, SignedRow};
use crate::strike::{has_few, strike_all};
use crate::taken::take_out;
use crate::whole::{fill_whole, grow_whole, width_of};
use crate::within::interval_in;
use ncq_base::{Atom, Interval};
use ncq_row::{Row, RowKey, Rows};
use std::alloc::{AllocError, Global};
use std::hash::RandomState;
use std::marker::Model;

/// The signed rows of one expression, and what finds the first of them.
pub struct MidFile {
    seed: RandomState,
    base: u64,
    rows: Vec<SignedRow>,
    finders: Vec<Finder>,
    alloc: Global,
}

impl Drop for MidFile {
    fn drop(self) {
        let MidFile {
            seed: _,
            base: _,
            rows,
            finders,
            alloc: _,
        } = self;
        drop(rows);
        drop(finders);
    }
}

impl Model for MidFile {
    ghost use Rattle.ncq_midfile.specs.Files.{FileState, file_code};
    ghost use Rattle.ncq_midfile.specs.Finders.{IsFound};

    ghost Value = { FileState };

    ghost coded = { file_code };

    ghost view = { λ f. record { base = f.base; rows = f.rows.items } };

    ghost invariant = { λ f. IsFound f.base f.rows.items f.finders.items };
}

impl MidFile {
    /// A file whose content at `base` are these rows. Its indexes and tables place rows by the
    /// seed, so that nobody who does not know it can choose rows that fall together.
    pub fn new(
        alloc: Global,
        seed: RandomState,
        base: u64,
        rows: Rows,
    ) -> Result<MidFile, AllocError>
        ensures base { IfOk result (λ file. file.base ≡ base) }
        ensures rows { IfOk result (λ file. file.rows ≡ map (gained_at base) rows) }
    {
        let rows = all_gained(alloc, base, rows)?;
        let mut finders = Vec::new(alloc);
        fill_whole(alloc, seed, &mut finders, rows.as_slice())?;
        Ok(MidFile {
            seed,
            base,
            rows,
            finders,
            alloc,
        })
    }

    /// The change from which on the file tells its content. The rows with numbers up to it stand in
    /// front and came in; behind them numbers never fall.
    pub fn base(&self) -> u64
        ensures base { result ≡ self.now.base }
        ensures file { IsFile self.now.base self.now.rows }
    {
        self.base
    }

    /// One more signed row, with a number above the base and not below the last one.
    pub fn append(&mut self, row: SignedRow) -> Result<(), AllocError>
        requires above { self.old.base < row.number }
        requires last { AllByRecursion (λ r. r.number ≤ row.number) self.old.rows }
        ensures base { self.new.base ≡ self.old.base }
        ensures ok { OnOk result (self.new.rows ≡ self.old.rows ++ row ∷ []) }
        ensures err { OnErr result (self.new ≡ self.old) }
    {
        grow_whole(
            self.alloc,
            self.seed,
            &mut self.finders,
            self.rows.as_slice(),
        )?;
        self.rows.push(row)?;
        Ok(())
    }

    /// The signed rows with numbers above `n`.
    pub fn rows_since(&self, n: u64) -> &[SignedRow]
        requires { self.now.base ≤ n }
        ensures { result.now ≡ since n self.now.rows }
    {
        let rows = self.rows.as_slice();
        &rows[count_up_to(rows, n)..]
    }

    /// How many rows went out above `n`. Only rows above `n` are looked at.
    pub(crate) fn losses(&self, n: u64) -> usize
        requires { self.now.base ≤ n }
        ensures { result ≡ losses_above n self.now.rows }
    {
        count_losses(self.rows.as_slice(), n)
    }

    /// The places of the signed rows with numbers above `n`.
    pub(crate) fn since(&self, alloc: Global, n: u64) -> Result<Places, AllocError>
        requires { self.now.base ≤ n }
        ensures rising { IfOk result (λ places. AreRising 0 places) }
        ensures within { IfOk result (λ places.
            All (λ place. place < length self.now.rows) places) }
        ensures rows { IfOk result (λ places.
            signed_at places self.now.rows ≡ since n self.now.rows) }
    {
        let from = count_up_to(self.rows.as_slice(), n);
        places_from(alloc, from, self.rows.len() - from)
    }

    /// The places of all signed rows.
    pub(crate) fn places(&self, alloc: Global) -> Result<Places, AllocError>
        ensures rising { IfOk result (λ places. AreRising 0 places) }
        ensures within { IfOk result (λ places.
            All (λ place. place < length self.now.rows) places) }
        ensures rows { IfOk result (λ places. signed_at places self.now.rows ≡ self.now.rows) }
    {
        first_places(alloc, self.rows().len())
    }

    /// The signed rows in order.
    pub(crate) fn rows(&self) -> &[SignedRow]
        ensures { result.now ≡ self.now.rows }
    {
        self.rows.as_slice()
    }

    /// The row at a place of the file.
    pub fn row(&self, at: usize) -> &Row
        requires { at < length self.now.rows }
        ensures { slice_get (map (λ r. r.row) self.now.rows) at ≡ Some result.now }
    {
        &self.rows[at].row
    }

    /// The places of the rows that came in up to `n` and are left, after each row that went out up
    /// to `n` has struck out an equal one.
    pub fn content_at(&self, alloc: Global, n: u64) -> Result<Places, AllocError>
        requires base { self.now.base ≤ n }
        requires sound { IsSoundAt n self.now.rows }
        ensures rising { IfOk result (λ places. AreRising 0 places) }
        ensures gains { IfOk result (λ places. AreGains self.now.rows places) }
        ensures within { IfOk result (λ places.
            All (λ place. place < length self.now.rows) places) }
        ensures early { IfOk result (λ places.
            All (λ place. place < length (up_to n self.now.rows)) places) }
        ensures content { IfOk result (λ places.
            IsContent n self.now.rows (rows_at places self.now.rows)) }
    {
        content_of(alloc, self.seed, self.rows.as_slice(), n)
    }

    /// The places of the rows that are left at `n` and have these atoms in the slots.
    pub fn matching(
        &self,
        alloc: Global,
        slots: &[usize],
        key: &RowKey,
        n: u64,
    ) -> Result<Places, AllocError>
        requires base { self.now.base ≤ n }
        requires sound { IsSoundAt n self.now.rows }
        requires slots { HaveSlots slots.now self.now.rows }
        ensures rising { IfOk result (λ places. AreRising 0 places) }
        ensures gains { IfOk result (λ places. AreGains self.now.rows places) }
        ensures within { IfOk result (λ places.
            All (λ place. place < length self.now.rows) places) }
        ensures counts { IfOk result (λ places.
            (list : List a_row) → IsContent n self.now.rows list
            → SameCounts (rows_at places self.now.rows)
            (filter (has_key slots.now key.now) list)) }
    {
        let atoms = atoms_of(alloc, key)?;
        matching_in(
            alloc,
            self.seed,
            self.rows.as_slice(),
            self.finders.as_slice(),
            slots,
            atoms.as_slice(),
            n,
        )
    }

    /// The places of the rows that are left at `n` and have this atom in the slot.
    pub fn matching_atom(
        &self,
        alloc: Global,
        slot: usize,
        atom: &Atom,
        n: u64,
    ) -> Result<Places, AllocError>
        requires base { self.now.base ≤ n }
        requires sound { IsSoundAt n self.now.rows }
        requires slots { HaveSlots (slot ∷ []) self.now.rows }
        ensures rising { IfOk result (λ places. AreRising 0 places) }
        ensures gains { IfOk result (λ places. AreGains self.now.rows places) }
        ensures within { IfOk result (λ places.
            All (λ place. place < length self.now.rows) places) }
        ensures counts { IfOk result (λ places.
            (list : List a_row) → IsContent n self.now.rows list
            → SameCounts (rows_at places self.now.rows)
            (filter (has_key (slot ∷ []) (atom.now ∷ [])) list)) }
    {
        matching_in(
            alloc,
            self.seed,
            self.rows.as_slice(),
            self.finders.as_slice(),
            &[slot],
            &[KeyAtom::new(atom)],
            n,
        )
    }

    /// The places of the rows that are left at `n` and have a number of the interval in the slot.
    pub fn matching_interval(
        &self,
        alloc: Global,
        slot: usize,
        interval: &Interval,
        n: u64,
    ) -> Result<Places, AllocError>
        requires base { self.now.base ≤ n }
        requires sound { IsSoundAt n self.now.rows }
        requires slots { HaveSlots (slot ∷ []) self.now.rows }
        ensures rising { IfOk result (λ places. AreRising 0 places) }
        ensures gains { IfOk result (λ places. AreGains self.now.rows places) }
        ensures within { IfOk result (λ places.
            All (λ place. place < length self.now.rows) places) }
        ensures content { IfOk result (λ places. IsContentOf (is_within slot interval.now) n
            self.now.rows (rows_at places self.now.rows)) }
    {
        interval_in(
            alloc,
            self.seed,
            self.rows.as_slice(),
            self.finders.as_slice(),
            slot,
            interval,
            n,
        )
    }

    /// Makes sure that rows are found by the atoms at these slots. It changes no answer and costs
    /// the rows that came since the last call. After an error, too, the file is as it was.
    pub fn ensure_index(&mut self, alloc: Global, slots: &[usize]) -> Result<(), AllocError>
        requires { HaveSlots slots.now self.old.rows }
        ensures { self.new ≡ self.old }
    {
        keep_index(
            alloc,
            self.seed,
            &mut self.finders,
            self.rows.as_slice(),
            slots,
        )
    }

    /// Gives up what finds rows by the atoms at these slots. It changes no answer and takes no
    /// memory.
    pub fn drop_index(&mut self, slots: &[usize])
        ensures { self.new ≡ self.old }
    {
        lose_index(&mut self.finders, slots);
    }

    /// Gives up what finds rows by atoms, but for what finds whole rows. It changes no answer and
    /// takes no memory.
    pub fn drop_indexes(&mut self)
        ensures { self.new ≡ self.old }
    {
        let width = width_of(self.rows.as_slice());
        lose_indexes(&mut self.finders, width);
    }

    /// Makes sure that rows are found by the number in a slot. It changes no answer and costs the
    /// rows that came since the last call. After an error, too, the file is as it was.
    pub fn ensure_order(&mut self, alloc: Global, slot: usize) -> Result<(), AllocError>
        requires { HaveSlots (slot ∷ []) self.old.rows }
        ensures { self.new ≡ self.old }
    {
        keep_order(
            alloc,
            self.seed,
            &mut self.finders,
            self.rows.as_slice(),
            slot,
        )
    }

    /// Gives up what finds rows by the number in a slot. It changes no answer and takes no memory.
    pub fn drop_order(&mut self, slot: usize)
        ensures { self.new ≡ self.old }
    {
        lose_order(&mut self.finders, slot);
    }

    /// Makes `n` the base: of the rows up to `n` the file has then those that are left there, in
    /// any order, and behind them it has the rows above `n`. All keep their numbers. It costs the
    /// rows since the base where the file is large, all rows are as wide as the first and none is
    /// above `n`, else all rows; where none is above `n`, there are fewer than 256 and few of them
    /// stay, at most all rows for each that went out, and no memory. After an error the file is as
    /// it was.
    pub fn compact(&mut self, alloc: Global, n: u64) -> Result<(), AllocError>
        requires base { self.old.base ≤ n }
        requires sound { IsSoundAt n self.old.rows }
        ensures base { OnOk result (self.new.base ≡ n) }
        ensures left { OnOk result (AreLeftAt n self.old.rows self.new.rows) }
        ensures stays { OnOk result ((at : ℕ) (list : List a_row) → n ≤ at
            → IsContent at self.old.rows list → IsContent at self.new.rows list) }
        ensures err { OnErr result (self.new ≡ self.old) }
    {
        if last_number(self.rows.as_slice(), self.base) > n {
            return self.gather(alloc, n);
        }
        self.compact_all(alloc, n)
    }

    /// Makes `n` the base of a file with no row above `n`.
    fn compact_all(&mut self, alloc: Global, n: u64) -> Result<(), AllocError>
        requires base { self.old.base ≤ n }
        requires last { AllByRecursion (λ r. r.number ≤ n) self.old.rows }
        requires sound { IsSoundAt n self.old.rows }
        ensures base { OnOk result (self.new.base ≡ n) }
        ensures left { OnOk result (AreLeftAt n self.old.rows self.new.rows) }
        ensures err { OnErr result (self.new ≡ self.old) }
    {
        let rows = self.rows.as_slice();
        if has_few(rows) {
            self.strike(n);
            return Ok(());
        }
        let Some(places) = pairs(alloc, self.seed, rows, &mut self.finders, self.base)? else {
            return self.gather(alloc, n);
        };
        forget_all(&mut self.finders, rows, places.as_slice());
        take_out(&mut self.rows, places.as_slice());
        self.base = n;
        Ok(())
    }

    /// Makes `n` the base of a file with no row above `n` by taking out pairs of rows one by one.
    /// No finder is kept. It takes no memory.
    fn strike(&mut self, n: u64)
        requires base { self.old.base ≤ n }
        requires last { AllByRecursion (λ r. r.number ≤ n) self.old.rows }
        requires sound { IsSoundAt n self.old.rows }
        ensures base { self.new.base ≡ n }
        ensures left { AreLeftAt n self.old.rows self.new.rows }
    {
        strike_all(&mut self.rows);
        self.finders.clear();
        self.base = n;
    }

    /// Makes `n` the base by going through all rows. No finder is kept.
    fn gather(&mut self, alloc: Global, n: u64) -> Result<(), AllocError>
        requires base { self.old.base ≤ n }
        requires sound { IsSoundAt n self.old.rows }
        ensures base { OnOk result (self.new.base ≡ n) }
        ensures left { OnOk result (AreLeftAt n self.old.rows self.new.rows) }
        ensures err { OnErr result (self.new ≡ self.old) }
    {
        let places = left_at(alloc, self.seed, self.rows.as_slice(), n)?;
        keep_at(&mut self.rows, places.as_slice());
        self.finders.clear();
        self.base = n;
        Ok(())
    }

    /// Takes away the signed rows with numbers above `n`. It takes no memory.
    pub fn roll_back(&mut self, n: u64)
        requires { self.old.base ≤ n }
        ensures base { self.new.base ≡ self.old.base }
        ensures rows { self.new.rows ≡ up_to n self.old.rows }
    {
        let kept = count_up_to(self.rows.as_slice(), n);
        cut_all(&mut self.finders, kept);
        self.rows.truncate(kept);
    }
}

/// The rows, each as one that came in at the change.
fn all_gained(alloc: Global, number: u64, rows: Rows) -> Result<Vec<SignedRow>, AllocError>
    ensures { IfOk result (λ signed. signed.items ≡ map (gained_at number) rows) }
{
    let mut signed = Vec::with_capacity(alloc, rows.len())?;
    for row in rows.into_vec() {
        signed.push(SignedRow {
            number,
            plus: true,
            row,
        })?;
    }
    Ok(signed)
}
