//! Rows in, the entries of a notice out.
ghost use Rattle.std.specs.Prelude.{◌≡◌, ◌+◌, ◌<◌, ◌^◌, IfOk, OnOk, OnErr, length, true};
ghost use Rattle.ncq_bag.specs.Bags.{differences, no_counts};
ghost use Rattle.ncq_plan.specs.Relations.{relations};
ghost use Rattle.ncq_plan.specs.Residuals.{passes, checks_are_within};
ghost use Rattle.ncq_callback.specs.Gathered.{answer_of, with_row};

use crate::notice::Entries;
use crate::row_bag::RowBag;
use ncq_construct::passes;
use ncq_plan::{Checks, Predicates, SlotTemplate};
use ncq_row::Row;
use std::alloc::{AllocError, Global};
use std::marker::Model;

/// Counts of what rows answer. Contracts see the counts and how many rows were taken.
#[derive(Drop)]
pub struct Gather {
    bag: RowBag,
    takes: u64,
}

impl Model for Gather {
    ghost use Rattle.std.specs.Prelude.{◌≤◌, ◌^◌};
    ghost use Rattle.ncq_bag.specs.Counted.{Counted, counted_code};

    ghost Value = { Counted };

    ghost coded = { counted_code };

    ghost view = { λ g. record { counts = g.bag.counts; adds = g.takes } };

    ghost invariant = { λ g. (g.bag.adds ≤ g.takes) × (g.takes ≤ 2 ^ 63) };
}

impl Gather {
    /// How many rows a gather can take.
    pub const MOST_TAKES: u64 = 1 << 63;

    pub fn new(alloc: Global) -> Gather
        ensures { result ≡ no_counts }
    {
        Gather {
            bag: RowBag::new(alloc),
            takes: 0,
        }
    }

    pub fn takes(&self) -> u64
        ensures { result ≡ self.now.adds }
    {
        self.takes
    }

    /// Takes a row that comes, or one that goes: where it passes the checks by these predicates,
    /// the canonical bytes of what the template makes of it stand once more, or once less. After
    /// want of memory the gather is as before.
    pub fn take(
        &mut self,
        alloc: Global,
        checks: &Checks,
        predicates: &Predicates,
        template: &SlotTemplate,
        row: &Row,
        gain: bool,
    ) -> Result<(), AllocError>
        requires slots { checks_are_within (length row.now) checks.now ≡ true }
        requires room { self.old.adds < 2 ^ 63 }
        ensures counts { OnOk result (self.new.counts
            ≡ with_row (passes
            (relations predicates.now.items (λ p. p.name) (λ p. p.relation)) checks.now)
            (answer_of template.now) self.old.counts row.now gain) }
        ensures takes { OnOk result (self.new.adds ≡ self.old.adds + 1) }
        ensures err { OnErr result (self.new ≡ self.old) }
    {
        if passes(checks, row, predicates) {
            self.bag.add(alloc, template, row, gain)?;
        }
        self.takes += 1;
        Ok(())
    }

    /// The answers whose count is not 0, rising by bytes, each with its count's size and sign.
    pub fn finish(self, alloc: Global) -> Result<Entries, AllocError>
        ensures { IfOk result (λ entries. entries ≡ differences self.counts) }
    {
        Ok(Entries::from_differences(self.bag.difference(alloc)?))
    }
}
