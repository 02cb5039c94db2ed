//! A file that may be a part of another.
ghost use Rattle.std.specs.Prelude.{◌≡◌, ◌<◌, ◌≤◌, List, filter, length, map, slice_get, Some};
ghost use Rattle.std.specs.Prelude.{IfOk};
ghost use Rattle.std.specs.Prelude.{[], ◌∷◌};
ghost use Rattle.std.specs.List.{All, AllByRecursion};
ghost use Rattle.ncq_base.specs.Counts.{SameCounts};
ghost use Rattle.ncq_row.specs.Embeddings.{Row as a_row};
ghost use Rattle.ncq_midfile.specs.Content.{since, IsContent, IsSoundAt, rows_at, signed_at};
ghost use Rattle.ncq_midfile.specs.Content.{AreRising, AreGains};
ghost use Rattle.ncq_midfile.specs.Files.{AreOrdered};
ghost use Rattle.ncq_midfile.specs.Matching.{HaveSlots, has_key};
ghost use Rattle.ncq_midfile.specs.Shown.{rows_below, shown};
ghost use Rattle.ncq_midfile.specs.Views.{losses_above, is_within, IsContentOf, IsLast};

use crate::both::interval_within;
use crate::counts::{count_losses, count_losses_within, last_number, last_within};
use crate::file::MidFile;
use crate::key::{KeyAtom, atoms_of};
use crate::range::RangeFile;
use crate::signed::{Places, SignedRow};
use crate::within::{all_within, content_within, matching_within, since_within};
use ncq_base::{Atom, Interval};
use ncq_row::{Row, RowKey};
use std::alloc::{AllocError, Global};

/// The signed rows of one expression: a file of their own, or those of a range group's file that
/// have a number of the interval.
#[derive(Clone, Copy)]
pub enum View<'a> {
    Whole(&'a MidFile),
    Ranged {
        file: &'a RangeFile,
        interval: &'a Interval,
        base: u64,
    },
}

impl View<'_> {
    /// The change from which on the view tells its content. The rows with numbers up to it stand in
    /// front; behind them numbers never fall.
    pub fn base(&self) -> u64
        ensures base { result ≡ (shown self.now).base }
        ensures ordered { AreOrdered (shown self.now).base (shown self.now).rows }
    {
        match self {
            View::Whole(file) => file.base(),
            View::Ranged { file, base, .. } => {
                // What holds of every range file is told with its rows.
                let _rows = file.rows();
                *base
            }
        }
    }

    /// The places of all signed rows, also of those before the base.
    pub fn places(&self, alloc: Global) -> Result<Places, AllocError>
        ensures rising { IfOk result (λ places. AreRising 0 places) }
        ensures within { IfOk result (λ places.
            All (λ place. place < length (rows_below self.now)) places) }
        ensures rows { IfOk result (λ places.
            signed_at places (rows_below self.now) ≡ (shown self.now).rows) }
    {
        match self {
            View::Whole(file) => file.places(alloc),
            View::Ranged { file, interval, .. } => all_within(
                alloc,
                file.rows(),
                file.finders(),
                file.slot(),
                interval,
            ),
        }
    }

    /// The places of the signed rows with numbers above `n`. Only such rows are looked at, and of
    /// those of a range group's file by their numbers, where the interval has few.
    pub fn since(&self, alloc: Global, n: u64) -> Result<Places, AllocError>
        requires { (shown self.now).base ≤ n }
        ensures rising { IfOk result (λ places. AreRising 0 places) }
        ensures within { IfOk result (λ places.
            All (λ place. place < length (rows_below self.now)) places) }
        ensures rows { IfOk result (λ places.
            signed_at places (rows_below self.now) ≡ since n (shown self.now).rows) }
    {
        match self {
            View::Whole(file) => file.since(alloc, n),
            View::Ranged { file, interval, .. } => since_within(
                alloc,
                file.rows(),
                file.finders(),
                file.slot(),
                interval,
                n,
            ),
        }
    }

    /// How many signed rows stand below the view. It takes no memory.
    pub fn len(&self) -> usize
        ensures { result ≡ length (rows_below self.now) }
    {
        match self {
            View::Whole(file) => file.rows().len(),
            View::Ranged { file, .. } => file.rows().len(),
        }
    }

    /// The signed row at a place.
    pub fn signed(&self, at: usize) -> &SignedRow
        requires { at < length (rows_below self.now) }
        ensures { slice_get (rows_below self.now) at ≡ Some result.now }
    {
        match self {
            View::Whole(file) => &file.rows()[at],
            View::Ranged { file, .. } => &file.rows()[at],
        }
    }

    /// The row at a place.
    pub fn row(&self, at: usize) -> &Row
        requires { at < length (rows_below self.now) }
        ensures { slice_get (map (λ r. r.row) (rows_below self.now)) at ≡ Some result.now }
    {
        match self {
            View::Whole(file) => file.row(at),
            View::Ranged { file, .. } => &file.rows()[at].row,
        }
    }

    /// The places of the rows that came in up to `n` and are left, after each row that went out up
    /// to `n` has struck out an equal one.
    pub fn content_at(&self, alloc: Global, n: u64) -> Result<Places, AllocError>
        requires base { (shown self.now).base ≤ n }
        requires sound { IsSoundAt n (shown self.now).rows }
        ensures rising { IfOk result (λ places. AreRising 0 places) }
        ensures gains { IfOk result (λ places. AreGains (rows_below self.now) places) }
        ensures within { IfOk result (λ places.
            All (λ place. place < length (rows_below self.now)) places) }
        ensures content { IfOk result (λ places.
            IsContent n (shown self.now).rows (rows_at places (rows_below self.now))) }
    {
        match self {
            View::Whole(file) => file.content_at(alloc, n),
            View::Ranged { file, interval, .. } => content_within(
                alloc,
                file.seed(),
                file.rows(),
                file.finders(),
                file.slot(),
                interval,
                n,
            ),
        }
    }

    /// The places of the rows that are left at `n` and have these atoms in the slots.
    pub fn matching(
        &self,
        alloc: Global,
        slots: &[usize],
        key: &RowKey,
        n: u64,
    ) -> Result<Places, AllocError>
        requires base { (shown self.now).base ≤ n }
        requires sound { IsSoundAt n (shown self.now).rows }
        requires slots { HaveSlots slots.now (rows_below self.now) }
        ensures rising { IfOk result (λ places. AreRising 0 places) }
        ensures gains { IfOk result (λ places. AreGains (rows_below self.now) places) }
        ensures within { IfOk result (λ places.
            All (λ place. place < length (rows_below self.now)) places) }
        ensures counts { IfOk result (λ places. (list : List a_row)
            → IsContent n (shown self.now).rows list
            → SameCounts (rows_at places (rows_below self.now))
            (filter (has_key slots.now key.now) list)) }
    {
        match self {
            View::Whole(file) => file.matching(alloc, slots, key, n),
            View::Ranged { file, interval, .. } => {
                let atoms = atoms_of(alloc, key)?;
                matching_within(
                    alloc,
                    file.seed(),
                    file.rows(),
                    file.finders(),
                    slots,
                    atoms.as_slice(),
                    n,
                    file.slot(),
                    interval,
                )
            }
        }
    }

    /// The places of the rows that are left at `n` and have this atom in the slot.
    pub fn matching_atom(
        &self,
        alloc: Global,
        slot: usize,
        atom: &Atom,
        n: u64,
    ) -> Result<Places, AllocError>
        requires base { (shown self.now).base ≤ n }
        requires sound { IsSoundAt n (shown self.now).rows }
        requires slots { HaveSlots (slot ∷ []) (rows_below self.now) }
        ensures rising { IfOk result (λ places. AreRising 0 places) }
        ensures gains { IfOk result (λ places. AreGains (rows_below self.now) places) }
        ensures within { IfOk result (λ places.
            All (λ place. place < length (rows_below self.now)) places) }
        ensures counts { IfOk result (λ places. (list : List a_row)
            → IsContent n (shown self.now).rows list
            → SameCounts (rows_at places (rows_below self.now))
            (filter (has_key (slot ∷ []) (atom.now ∷ [])) list)) }
    {
        match self {
            View::Whole(file) => file.matching_atom(alloc, slot, atom, n),
            View::Ranged { file, interval, .. } => matching_within(
                alloc,
                file.seed(),
                file.rows(),
                file.finders(),
                &[slot],
                &[KeyAtom::new(atom)],
                n,
                file.slot(),
                interval,
            ),
        }
    }

    /// The places of the rows that are left at `n` and have a number of the interval in the slot.
    pub fn matching_interval(
        &self,
        alloc: Global,
        slot: usize,
        interval: &Interval,
        n: u64,
    ) -> Result<Places, AllocError>
        requires base { (shown self.now).base ≤ n }
        requires sound { IsSoundAt n (shown self.now).rows }
        requires slots { HaveSlots (slot ∷ []) (rows_below self.now) }
        ensures rising { IfOk result (λ places. AreRising 0 places) }
        ensures gains { IfOk result (λ places. AreGains (rows_below self.now) places) }
        ensures within { IfOk result (λ places.
            All (λ place. place < length (rows_below self.now)) places) }
        ensures content { IfOk result (λ places. IsContentOf (is_within slot interval.now) n
            (shown self.now).rows (rows_at places (rows_below self.now))) }
    {
        match self {
            View::Whole(file) => file.matching_interval(alloc, slot, interval, n),
            View::Ranged {
                file,
                interval: outer,
                ..
            } => interval_within(
                alloc,
                file.seed(),
                file.rows(),
                file.finders(),
                slot,
                interval,
                n,
                file.slot(),
                outer,
            ),
        }
    }

    /// How many of the view's rows went out above `n`. Only rows above `n` are looked at. It takes
    /// no memory.
    pub fn losses(&self, n: u64) -> usize
        requires { (shown self.now).base ≤ n }
        ensures { result ≡ losses_above n (shown self.now).rows }
    {
        match self {
            View::Whole(file) => file.losses(n),
            View::Ranged { file, interval, .. } => {
                count_losses_within(file.rows(), n, file.slot(), interval)
            }
        }
    }

    /// How many of the view's rows went out above its base.
    pub fn minus(&self) -> usize
        ensures { result ≡ losses_above (shown self.now).base (shown self.now).rows }
    {
        match self {
            View::Whole(file) => count_losses(file.rows(), file.base()),
            View::Ranged {
                file,
                interval,
                base,
            } => count_losses_within(file.rows(), *base, file.slot(), interval),
        }
    }

    /// The greatest of its base and the numbers of its rows.
    pub fn last(&self) -> u64
        ensures { IsLast (shown self.now) result }
    {
        match self {
            View::Whole(file) => last_number(file.rows(), file.base()),
            View::Ranged {
                file,
                interval,
                base,
            } => last_within(file.rows(), *base, file.slot(), interval),
        }
    }
}
