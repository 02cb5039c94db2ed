//! How many live queries have each bare plan.
ghost use Rattle.std.specs.Prelude.{◌≡◌, ◌+◌, ◌-◌, ◌<◌, ◌≤◌, ◌^◌, [], IfOk, OnOk, OnErr};
ghost use Rattle.ncq_strategy.specs.Choices.{choice_of};
ghost use Rattle.ncq_strategy.specs.Numbers.{live_with, HasNow};

use crate::choice::Choice;
use indexmap::IndexMap;
use ncq_base::Shared;
use ncq_plan::{Expr, NormalQuery};
use std::alloc::{AllocError, Global};
use std::hash::RandomState;
use std::marker::Model;

/// From so many live queries of one bare plan on, the next joins first.
const SHARED: u64 = 3;

/// How many live queries have each bare plan. A bare plan that none has has no entry.
#[derive(Drop)]
pub struct Strategy {
    numbers: IndexMap<Shared<Expr>, u64, RandomState>,
}

impl Model for Strategy {
    ghost use Rattle.std.specs.Prelude.{ℕ};
    ghost use Rattle.std.specs.Coded.{coded×, coded_ℕ, coded_list};
    ghost use Rattle.ncq_plan.specs.contracts.expr.Expr.{the_row};
    ghost use Rattle.ncq_strategy.specs.Numbers.{Numbers, AreSome};

    ghost Value = { Numbers };

    ghost coded = { coded_list (coded× the_row.coded coded_ℕ) };

    ghost view = { λ s. s.numbers.entries };

    ghost invariant = { λ s. AreSome s.numbers.entries };
}

impl Strategy {
    /// No live queries. Bare plans are placed by the seed, so that nobody who does not know it can
    /// choose queries that fall together. It takes no memory.
    pub fn new(alloc: Global, seed: RandomState) -> Strategy
        ensures { result ≡ [] }
    {
        Strategy {
            numbers: IndexMap::with_hasher(alloc, seed),
        }
    }

    /// How many live queries have the bare plan. It takes no memory.
    pub fn live_with(&self, bare: &Shared<Expr>) -> u64
        ensures { result ≡ live_with self.now bare.now }
    {
        self.numbers.get(bare).copied().unwrap_or(0)
    }

    /// Which plan a query that comes now has, given its bare plan: it joins first where it has two
    /// or more arms and at least three live queries have its bare plan. Beside it the bare plan, as
    /// those that have it share it.
    pub fn choose(
        &self,
        query: &NormalQuery,
        bare: Shared<Expr>,
    ) -> Result<(Choice, Shared<Expr>), AllocError>
        ensures choice { IfOk result (λ r. r.0 ≡ choice_of query.now (live_with self.now bare)) }
        ensures bare { IfOk result (λ r. r.1 ≡ bare) }
    {
        let Some((shared, live)) = self.numbers.get_key_value(&bare) else {
            return Ok((Choice::SelectFirst, bare));
        };
        if *live < SHARED || query.arms.len() < 2 {
            return Ok((Choice::SelectFirst, shared.share()?));
        }
        Ok((Choice::JoinFirst, shared.share()?))
    }

    /// One more live query has the bare plan. After an error all is as before.
    pub fn note(&mut self, bare: Shared<Expr>) -> Result<(), AllocError>
        requires { live_with self.old bare < 2 ^ 64 - 1 }
        ensures ok { OnOk result (HasNow self.old bare (live_with self.old bare + 1) self.new) }
        ensures err { OnErr result (self.new ≡ self.old) }
    {
        if let Some(number) = self.numbers.get_mut(&bare) {
            *number += 1;
            return Ok(());
        }
        self.numbers.insert(bare, 1)?;
        Ok(())
    }

    /// One live query less has the bare plan. It takes no memory.
    pub fn forget(&mut self, bare: &Shared<Expr>)
        requires { 1 ≤ live_with self.old bare.now }
        ensures { HasNow self.old bare.now (live_with self.old bare.now - 1) self.new }
    {
        let Some(number) = self.numbers.get_mut(bare) else {
            unreachable!()
        };
        *number -= 1;
        if *number != 0 {
            return;
        }
        self.numbers.swap_remove(bare);
    }
}
