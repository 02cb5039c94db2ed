//! The readers of one file.
ghost use Rattle.std.specs.Prelude.{◌≡◌, ◌+◌, ◌-◌, ◌<◌, ◌≤◌, ℕ, [], length, nat_eq, IfOk, OnOk};
ghost use Rattle.std.specs.Prelude.{OnErr};
ghost use Rattle.std.specs.List.{IsDistinct};
ghost use Rattle.std.specs.Map.{lookup};
ghost use Rattle.std.specs.Option.{option_map};
ghost use Rattle.ncq_midfile.specs.Content.{since};
ghost use Rattle.ncq_midfile.specs.Shown.{shown, rows_below};
ghost use Rattle.ncq_readers.specs.Passed.{AreTables, HaveSlots, parcels_in, held_in, size_of};
ghost use Rattle.ncq_readers.specs.Readings.Reading.{equal, range, joined};
ghost use Rattle.ncq_readers.specs.ReaderTables.{IsReader, TellsUnread, Gains, Loses};

use crate::equals::{add_constant, add_equal_parcels, remove_constant};
use crate::ranges::{HeldRows, add_held, add_interval, remove_interval};
use indexmap::IndexSet;
use ncq_base::{Atom, FileId, Interval, Sequence, Steps};
use ncq_consttab::{EqTable, RangeTable};
use ncq_midfile::View;
use ncq_split::Parcels;
use std::alloc::{AllocError, Global};
use std::collections::BTreeMap;
use std::hash::RandomState;
use std::marker::Model;
use std::sync::ledger::Ledger;

/// What reads one file: the files of constants by their slot, those of intervals by their slot, and
/// joins. Without readers it takes nothing on the heap.
pub struct Readers {
    equals: BTreeMap<usize, EqTable>,
    ranges: BTreeMap<usize, RangeTable>,
    joins: IndexSet<u64>,
}

impl Drop for Readers {
    fn drop(self) {
        let Readers {
            equals,
            ranges,
            joins,
        } = self;
        drop(equals);
        drop(ranges);
        drop(joins);
    }
}

impl Model for Readers {
    ghost use Rattle.ncq_readers.specs.ReaderTables.{ReaderTables, tables_code};
    ghost use Rattle.ncq_readers.specs.Passed.{AreTables};

    ghost Value = { ReaderTables };

    ghost coded = { tables_code };

    ghost view = { λ m. record {
      equals = m.equals.entries;
      ranges = m.ranges.entries;
      joins = m.joins.keys;
    } };

    ghost invariant = { λ m. AreTables (record {
      equals = m.equals.entries;
      ranges = m.ranges.entries;
      joins = m.joins.keys;
    }) };
}

impl Readers {
    /// Nothing reads.
    pub fn new(alloc: Global) -> Readers
        ensures { result ≡ record { equals = []; ranges = []; joins = [] } }
    {
        Readers {
            equals: BTreeMap::new(alloc),
            ranges: BTreeMap::new(alloc),
            joins: IndexSet::new(alloc),
        }
    }

    /// Whether nothing reads. No slot and no interval of a slot stands twice.
    pub fn is_empty(&self) -> bool
        ensures tells { TellsUnread self.now result }
        ensures tables { AreTables self.now }
    {
        if !self.equals.is_empty() {
            return false;
        }
        if !self.ranges.is_empty() {
            return false;
        }
        self.joins.is_empty()
    }

    /// The file of this number selects the rows whose slot has the constant's atom, where no file
    /// did. The constants of a slot are placed by the seed that the first of them came with. After an
    /// error all is as before.
    pub fn add_equal(
        &mut self,
        alloc: Global,
        seed: RandomState,
        slot: usize,
        constant: Atom,
        number: u64,
    ) -> Result<(), AllocError>
        requires { (n : ℕ) → IsReader self.old (equal slot constant) n → ⊥ }
        ensures ok { OnOk result (Gains self.old (equal slot constant) number self.new) }
        ensures err { OnErr result (self.new ≡ self.old) }
    {
        add_constant(
            alloc,
            seed,
            &mut self.equals,
            slot,
            constant,
            FileId(number),
        )
    }

    /// The file of this number selects those rows no more. It takes no memory.
    pub fn remove_equal(&mut self, slot: usize, constant: &Atom, number: u64)
        requires { IsReader self.old (equal slot constant.now) number }
        ensures { Loses self.old (equal slot constant.now) number self.new }
    {
        remove_constant(&mut self.equals, slot, constant);
    }

    /// The file of this number selects the rows whose slot is a number in the interval, where no
    /// file did. The intervals of a slot are placed by the seed that the first of them came with.
    /// After an error all is as before.
    pub fn add_range(
        &mut self,
        alloc: Global,
        seed: RandomState,
        slot: usize,
        interval: Interval,
        number: u64,
    ) -> Result<(), AllocError>
        requires { (n : ℕ) → IsReader self.old (range slot interval) n → ⊥ }
        ensures ok { OnOk result (Gains self.old (range slot interval) number self.new) }
        ensures err { OnErr result (self.new ≡ self.old) }
    {
        add_interval(
            alloc,
            seed,
            &mut self.ranges,
            slot,
            interval,
            FileId(number),
        )
    }

    /// The file of this number selects those rows no more. It takes no memory.
    pub fn remove_range(&mut self, slot: usize, interval: &Interval, number: u64)
        requires { IsReader self.old (range slot interval.now) number }
        ensures { Loses self.old (range slot interval.now) number self.new }
    {
        remove_interval(&mut self.ranges, slot, interval);
    }

    /// The file of this number joins the rows, also where it did. After an error all is as before.
    pub fn add_join(&mut self, number: u64) -> Result<(), AllocError>
        ensures ok { OnOk result (Gains self.old joined number self.new) }
        ensures err { OnErr result (self.new ≡ self.old) }
    {
        self.joins.insert(number)?;
        Ok(())
    }

    /// The file of this number joins the rows no more. It takes no memory.
    pub fn remove_join(&mut self, number: u64)
        ensures { Loses self.old joined number self.new }
    {
        self.joins.swap_remove(&number);
    }

    /// The numbers of the joins, each once, in no order that counts.
    pub fn joins(&self) -> &[u64]
        ensures joins { result.now ≡ self.now.joins }
        ensures once { IsDistinct nat_eq self.now.joins }
    {
        self.joins.as_slice()
    }

    /// The intervals of a slot, each with its file; none stands twice. It takes no memory.
    pub fn range_table(&self, slot: usize) -> Option<&RangeTable>
        ensures table { option_map (λ t. t.now) result ≡ lookup (nat_eq slot) self.now.ranges }
        ensures tables { AreTables self.now }
    {
        self.ranges.get(&slot)
    }

    /// A parcel of each of the file's rows of the change for each selection by a constant that
    /// takes it. Its rows of the change are those with no lower number. It takes at most one step
    /// for each parcel. The only error is that memory ran out.
    pub fn parcels<L: Ledger>(
        &self,
        alloc: Global,
        input: &View<'_>,
        number: u64,
        steps: &mut Steps<L>,
    ) -> Result<Parcels, AllocError>
        requires base { (shown input.now).base < number }
        requires slots { HaveSlots self.now (rows_below input.now) }
        ensures parcels { IfOk result (λ parcels. parcels
            ≡ parcels_in self.now (since (number - 1) (shown input.now).rows)) }
        ensures cost { steps.new ≤ steps.old
            + length (parcels_in self.now (since (number - 1) (shown input.now).rows)) }
        ensures tables { AreTables self.now }
    {
        let mut parcels = Parcels::new(alloc);
        add_equal_parcels(alloc, &self.equals, input, number, &mut parcels, steps)?;
        Ok(parcels)
    }

    /// For each slot with intervals those of the file's rows of the change that some interval
    /// holds, each once. Each such row is one step. The only error is that memory ran out.
    pub fn held<L: Ledger>(
        &self,
        alloc: Global,
        input: &View<'_>,
        number: u64,
        steps: &mut Steps<L>,
    ) -> Result<Sequence<HeldRows>, AllocError>
        requires base { (shown input.now).base < number }
        requires slots { HaveSlots self.now (rows_below input.now) }
        ensures held { IfOk result (λ held. held
            ≡ held_in self.now (since (number - 1) (shown input.now).rows)) }
        ensures cost { steps.new ≤ steps.old
            + size_of (held_in self.now (since (number - 1) (shown input.now).rows)) }
        ensures tables { AreTables self.now }
    {
        let mut held = Sequence::new(alloc);
        add_held(alloc, &self.ranges, input, number, &mut held, steps)?;
        Ok(held)
    }
}
