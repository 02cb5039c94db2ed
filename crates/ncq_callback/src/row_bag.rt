//! Counts of what rows answer, where rows that answer the same stand one after the other.
ghost use Rattle.std.specs.Prelude.{◌≡◌, ◌++◌, ◌+◌, ◌≤◌, ◌<◌, ◌^◌, Some};
ghost use Rattle.std.specs.Prelude.{IfOk, OnOk, OnErr, IsTrue, IsFalse};
ghost use Rattle.std.specs.FinMap.{empty};
ghost use Rattle.ncq_bag.specs.Bags.{added, difference_of, differences, no_counts, signed};
ghost use Rattle.ncq_callback.specs.Gathered.{answer_of};
ghost use Rattle.ncq_callback.specs.LastAnswers.{adds_of, with_last};

use crate::last::LastAnswer;
use ncq_bag::{Differences, SignedBag};
use ncq_base::Bytes;
use ncq_construct::answer_bytes;
use ncq_plan::SlotTemplate;
use ncq_row::Row;
use std::alloc::{AllocError, Global};
use std::cmp::Ordering;
use std::marker::Model;
use std::mem::replace;

/// A bag of answers, and the last answer and the one before it, which are not in it yet. So the
/// bag is not touched where there are no more than two, as most often. Contracts see the counts
/// with those of the last two.
pub(crate) struct RowBag {
    bag: SignedBag,
    /// That nothing was put into the bag.
    empty: bool,
    before: Option<LastAnswer>,
    last: Option<LastAnswer>,
}

impl Drop for RowBag {
    fn drop(self) {
        let RowBag {
            bag,
            empty: _,
            before,
            last,
        } = self;
        drop(bag);
        drop(before);
        drop(last);
    }
}

impl Model for RowBag {
    ghost use Rattle.std.specs.Prelude.{◌≡◌, ◌≤◌, ◌+◌, ◌^◌, IsTrue};
    ghost use Rattle.ncq_bag.specs.Bags.{no_counts};
    ghost use Rattle.ncq_bag.specs.Counted.{Counted, counted_code};
    ghost use Rattle.ncq_callback.specs.LastAnswers.{adds_of, with_last};

    ghost Value = { Counted };

    ghost coded = { counted_code };

    ghost view = { λ b. record {
      counts = with_last (with_last b.bag.counts b.before) b.last;
      adds = b.bag.adds + adds_of b.before + adds_of b.last;
    } };

    ghost invariant = { λ b. (b.bag.adds + adds_of b.before + adds_of b.last ≤ 2 ^ 63)
        × (IsTrue b.empty → b.bag ≡ no_counts) };
}

impl RowBag {
    pub(crate) fn new(alloc: Global) -> RowBag
        ensures { result ≡ no_counts }
    {
        RowBag {
            bag: SignedBag::new(alloc),
            empty: true,
            before: None,
            last: None,
        }
    }

    /// What the template makes of the row stands once more, or once less. After want of memory
    /// the bag is as before.
    pub(crate) fn add(
        &mut self,
        alloc: Global,
        template: &SlotTemplate,
        row: &Row,
        gain: bool,
    ) -> Result<(), AllocError>
        requires { self.old.adds < 2 ^ 63 }
        ensures counts { OnOk result (self.new.counts
            ≡ added self.old.counts (answer_of template.now row.now) 1 gain) }
        ensures adds { OnOk result (self.new.adds ≤ self.old.adds + 1) }
        ensures err { OnErr result (self.new ≡ self.old) }
    {
        if self.goes_on(template, row, gain) {
            return Ok(());
        }
        let answer = answer_bytes(alloc, template, row)?;
        if self.repeats(alloc, &answer, template, row, gain)? {
            return Ok(());
        }
        self.put(alloc, LastAnswer::new(answer, gain))
    }

    /// Counts the row where its answer is seen to be the last one, without making it.
    fn goes_on(&mut self, template: &SlotTemplate, row: &Row, gain: bool) -> bool
        requires { self.old.adds < 2 ^ 63 }
        ensures counts { IsTrue result → (self.new.counts
            ≡ added self.old.counts (answer_of template.now row.now) 1 gain) }
        ensures adds { self.new.adds ≤ self.old.adds + 1 }
        ensures other { IsFalse result → (self.new ≡ self.old) }
    {
        match &mut self.last {
            Some(last) => last.goes_on(template, row, gain),
            None => false,
        }
    }

    /// Counts the row where its answer is the last one, and keeps of what that was made.
    fn repeats(
        &mut self,
        alloc: Global,
        answer: &Bytes,
        template: &SlotTemplate,
        row: &Row,
        gain: bool,
    ) -> Result<bool, AllocError>
        requires answer { answer.now ≡ answer_of template.now row.now }
        requires room { self.old.adds < 2 ^ 63 }
        ensures counts { IfOk result (λ repeats. IsTrue repeats
            → (self.new.counts ≡ added self.old.counts answer.now 1 gain)) }
        ensures adds { self.new.adds ≤ self.old.adds + 1 }
        ensures other { IfOk result (λ repeats. IsFalse repeats → (self.new ≡ self.old)) }
        ensures err { OnErr result (self.new ≡ self.old) }
    {
        match &mut self.last {
            Some(last) => last.repeats(alloc, answer, template, row, gain),
            None => Ok(false),
        }
    }

    /// Puts another answer in the place of the last, which is added to the bag.
    fn put(&mut self, alloc: Global, next: LastAnswer) -> Result<(), AllocError>
        requires { self.old.adds + next.times ≤ 2 ^ 63 }
        ensures counts { OnOk result (self.new.counts
            ≡ added self.old.counts next.answer next.times next.gain) }
        ensures adds { OnOk result (self.new.adds ≡ self.old.adds + next.times) }
        ensures err { OnErr result (self.new ≡ self.old) }
    {
        if self.before.is_some() {
            add_last(alloc, &mut self.bag, &self.before)?;
            self.empty = false;
        }
        self.before = replace(&mut self.last, Some(next));
        Ok(())
    }

    /// The answers whose count is not 0, rising, each with its count's size and sign.
    pub(crate) fn difference(self, alloc: Global) -> Result<Differences, AllocError>
        ensures { IfOk result (λ d. d ≡ differences self.counts) }
    {
        let RowBag {
            bag,
            empty,
            before,
            last,
        } = self;
        match (before, last) {
            (Some(before), Some(last)) if empty => two_differences(alloc, bag, before, last),
            (None, Some(last)) if empty => one_difference(alloc, last),
            (before, last) => all_differences(alloc, bag, before, last),
        }
    }
}

/// The differences that the last answer makes, where no other was added.
fn one_difference(alloc: Global, last: LastAnswer) -> Result<Differences, AllocError>
    ensures { IfOk result (λ d. d ≡ differences (with_last empty (Some last))) }
{
    let mut out = Differences::with_capacity(alloc, 1)?;
    last.push_to(&mut out)?;
    Ok(out)
}

/// The differences that the last two answers make, where no other was added.
fn two_differences(
    alloc: Global,
    bag: SignedBag,
    before: LastAnswer,
    last: LastAnswer,
) -> Result<Differences, AllocError>
    requires none { bag ≡ no_counts }
    requires room { before.times + last.times ≤ 2 ^ 63 }
    ensures { IfOk result (λ d.
        d ≡ differences (with_last (with_last empty (Some before)) (Some last))) }
{
    match before.compare(&last) {
        Ordering::Less => rising(alloc, before, last),
        Ordering::Equal => all_differences(alloc, bag, Some(before), Some(last)),
        Ordering::Greater => rising(alloc, last, before),
    }
}

/// The differences that two answers make, one after the other.
fn rising(alloc: Global, first: LastAnswer, second: LastAnswer) -> Result<Differences, AllocError>
    ensures { IfOk result (λ d. d ≡ difference_of (first.answer, signed first.gain first.times)
        ++ difference_of (second.answer, signed second.gain second.times)) }
{
    let mut out = Differences::with_capacity(alloc, 2)?;
    first.push_to(&mut out)?;
    second.push_to(&mut out)?;
    Ok(out)
}

/// The differences of a bag with the last two answers.
fn all_differences(
    alloc: Global,
    bag: SignedBag,
    before: Option<LastAnswer>,
    last: Option<LastAnswer>,
) -> Result<Differences, AllocError>
    requires { bag.adds + adds_of before + adds_of last ≤ 2 ^ 63 }
    ensures { IfOk result (λ d.
        d ≡ differences (with_last (with_last bag.counts before) last)) }
{
    differences_with(alloc, bag, &before, &last)
}

/// The differences of a bag with the two answers that are lent.
fn differences_with(
    alloc: Global,
    mut bag: SignedBag,
    before: &Option<LastAnswer>,
    last: &Option<LastAnswer>,
) -> Result<Differences, AllocError>
    requires { bag.adds + adds_of before.now + adds_of last.now ≤ 2 ^ 63 }
    ensures { IfOk result (λ d.
        d ≡ differences (with_last (with_last bag.counts before.now) last.now)) }
{
    add_last(alloc, &mut bag, before)?;
    add_last(alloc, &mut bag, last)?;
    bag.difference(alloc)
}

/// Adds the answer to the bag, if there is one. After want of memory the bag is as before.
fn add_last(alloc: Global, bag: &mut SignedBag, last: &Option<LastAnswer>) -> Result<(), AllocError>
    requires { bag.old.adds + adds_of last.now ≤ 2 ^ 63 }
    ensures counts { OnOk result (bag.new.counts ≡ with_last bag.old.counts last.now) }
    ensures adds { OnOk result (bag.new.adds ≡ bag.old.adds + adds_of last.now) }
    ensures err { OnErr result (bag.new ≡ bag.old) }
{
    match last {
        Some(last) => last.add_to(alloc, bag),
        None => Ok(()),
    }
}
