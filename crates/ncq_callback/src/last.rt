//! The answer that came last, with what it was made of: rows that have the same values there need
//! no bytes of their own.
ghost use Rattle.std.specs.Prelude.{◌≡◌, ◌++◌, ◌+◌, ◌≤◌, ◌<◌, ◌^◌, ◌+ℤ◌, ℤ, Some};
ghost use Rattle.std.specs.Prelude.{IsTrue, IsFalse, IfOk, OnOk, OnErr};
ghost use Rattle.std.specs.Ordering.{nat_cmp};
ghost use Rattle.std.specs.Cmp.Lexicographic.{slice_cmp};
ghost use Rattle.ncq_base.specs.Keys.{ByBytes};
ghost use Rattle.ncq_bag.specs.Bags.{added, difference_of, signed};
ghost use Rattle.ncq_callback.specs.Gathered.{answer_of};
ghost use Rattle.ncq_callback.specs.LastAnswers.{with_last};

use crate::sharing::makes_same;
use ncq_bag::{Difference, Differences, SignedBag};
use ncq_base::{Bytes, Copied, Own, Sequence};
use ncq_plan::SlotTemplate;
use ncq_row::{Row, Value};
use std::alloc::{AllocError, Global};
use std::cmp::Ordering;
use std::marker::Model;

/// What an answer was made of: a template, and the values of a row.
#[derive(Drop)]
struct Making {
    template: SlotTemplate,
    values: Sequence<Value>,
}

/// An answer that stands so many times more, or so many times less. What it was made of is kept
/// from the second row on.
#[derive(Drop)]
pub(crate) struct LastAnswer {
    answer: Bytes,
    times: u64,
    gain: bool,
    making: Option<Own<Making>>,
}

impl Model for LastAnswer {
    ghost use Rattle.std.specs.Prelude.{◌≡◌, IfSome};
    ghost use Rattle.ncq_callback.specs.Gathered.{answer_of};
    ghost use Rattle.ncq_callback.specs.LastAnswers.{Last, last_code};

    ghost Value = { Last };

    ghost coded = { last_code };

    ghost view = { λ l. record { answer = l.answer; times = l.times; gain = l.gain } };

    ghost invariant = { λ l. IfSome l.making (λ m. l.answer ≡ answer_of m.template m.values) };
}

impl LastAnswer {
    /// The answer of one row that comes, or of one that goes.
    pub(crate) fn new(answer: Bytes, gain: bool) -> LastAnswer
        ensures { result ≡ record { answer = answer; times = 1; gain = gain } }
    {
        LastAnswer {
            answer,
            times: 1,
            gain,
            making: None,
        }
    }

    /// Counts the row where its answer is seen to be this one, without making it.
    pub(crate) fn goes_on(&mut self, template: &SlotTemplate, row: &Row, gain: bool) -> bool
        requires { self.old.times < 2 ^ 63 }
        ensures counts { IsTrue result → (counts : ByBytes ℤ)
            → with_last counts (Some self.new)
            ≡ added (with_last counts (Some self.old)) (answer_of template.now row.now) 1 gain }
        ensures times { self.new.times ≤ self.old.times + 1 }
        ensures other { IsFalse result → (self.new ≡ self.old) }
    {
        if self.is_made_of(template, row) {
            self.again(gain);
            return true;
        }
        false
    }

    /// Counts the row where its answer is this one, and keeps of what it was made.
    pub(crate) fn repeats(
        &mut self,
        alloc: Global,
        answer: &Bytes,
        template: &SlotTemplate,
        row: &Row,
        gain: bool,
    ) -> Result<bool, AllocError>
        requires answer { answer.now ≡ answer_of template.now row.now }
        requires room { self.old.times < 2 ^ 63 }
        ensures counts { IfOk result (λ repeats. IsTrue repeats → (counts : ByBytes ℤ)
            → with_last counts (Some self.new)
            ≡ added (with_last counts (Some self.old)) answer.now 1 gain) }
        ensures times { self.new.times ≤ self.old.times + 1 }
        ensures other { IfOk result (λ repeats. IsFalse repeats → (self.new ≡ self.old)) }
        ensures err { OnErr result (self.new ≡ self.old) }
    {
        if self.is(answer) {
            self.keep(alloc, template, row)?;
            self.again(gain);
            return Ok(true);
        }
        Ok(false)
    }

    /// Whether it is these bytes.
    fn is(&self, answer: &Bytes) -> bool
        ensures { IsTrue result → (self.now.answer ≡ answer.now) }
    {
        self.answer == *answer
    }

    /// Whether it is seen, without making it, to be what the template makes of the row.
    fn is_made_of(&self, template: &SlotTemplate, row: &Row) -> bool
        ensures { IsTrue result → (self.now.answer ≡ answer_of template.now row.now) }
    {
        match &self.making {
            Some(making) => {
                let making = making.get();
                makes_same(template, row, &making.template, making.values.as_slice())
            }
            None => false,
        }
    }

    /// Keeps what it is made of, for the rows that follow.
    fn keep(&mut self, alloc: Global, template: &SlotTemplate, row: &Row) -> Result<(), AllocError>
        requires { self.old.answer ≡ answer_of template.now row.now }
        ensures { self.new ≡ self.old }
    {
        let template = template.copy(alloc)?;
        let values = values_of(alloc, row)?;
        self.making = Some(Own::new(alloc, Making { template, values })?);
        Ok(())
    }

    /// It stands once more, or once less.
    fn again(&mut self, gain: bool)
        requires { self.old.times < 2 ^ 63 }
        ensures counts { (counts : ByBytes ℤ) → with_last counts (Some self.new)
            ≡ added (with_last counts (Some self.old)) self.old.answer 1 gain }
        ensures times { self.new.times ≤ self.old.times + 1 }
    {
        self.step(gain);
    }

    /// One more on the side of the gains, or of the losses.
    fn step(&mut self, gain: bool)
        requires { self.old.times < 2 ^ 63 }
        ensures answer { self.new.answer ≡ self.old.answer }
        ensures count { signed self.new.gain self.new.times
            ≡ signed self.old.gain self.old.times +ℤ signed gain 1 }
        ensures times { self.new.times ≤ self.old.times + 1 }
    {
        if self.gain == gain {
            self.times += 1;
        } else if self.times == 0 {
            self.times = 1;
            self.gain = gain;
        } else {
            self.times -= 1;
        }
    }

    /// Adds it to the bag. After want of memory the bag is as before.
    pub(crate) fn add_to(&self, alloc: Global, bag: &mut SignedBag) -> Result<(), AllocError>
        requires { bag.old.adds + self.now.times ≤ 2 ^ 63 }
        ensures counts { OnOk result (bag.new.counts
            ≡ added bag.old.counts self.now.answer self.now.times self.now.gain) }
        ensures adds { OnOk result (bag.new.adds ≡ bag.old.adds + self.now.times) }
        ensures err { OnErr result (bag.new ≡ bag.old) }
    {
        bag.add(self.answer.copy(alloc)?, self.times, self.gain)
    }

    /// How its bytes stand to those of the other.
    pub(crate) fn compare(&self, other: &LastAnswer) -> Ordering
        ensures { result ≡ slice_cmp nat_cmp self.now.answer other.now.answer }
    {
        self.answer.cmp(&other.answer)
    }

    /// Appends the difference that it makes.
    pub(crate) fn push_to(self, out: &mut Differences) -> Result<(), AllocError>
        ensures { OnOk result
            (out.new ≡ out.old ++ difference_of (self.answer, signed self.gain self.times)) }
    {
        let LastAnswer {
            answer,
            times,
            gain,
            ..
        } = self;
        if times == 0 {
            return Ok(());
        }
        out.push(Difference {
            gain,
            count: times,
            bytes: answer,
        })
    }
}

/// The values of the row.
fn values_of(alloc: Global, row: &Row) -> Result<Sequence<Value>, AllocError>
    ensures { IfOk result (λ values. values ≡ row.now) }
{
    let mut values = Sequence::with_capacity(alloc, row.len())?;
    for slot in 0..row.len() {
        values.push(row.value(slot).copy(alloc)?)?;
    }
    Ok(values)
}
