//! What subscribers are told of small files, worked out by hand.
//!
//! The query has a row of each letter but `x`.
ghost use Rattle.std.specs.Prelude.{◌≡◌, ◌<◌, true, length, IfOk};
ghost use Rattle.std.specs.List.{AllByRecursion, list_all};
ghost use Rattle.ncq_plan.specs.Residuals.{checks_are_within};
ghost use Rattle.ncq_plan.specs.Templates.{template_is_within};
ghost use Rattle.ncq_plan.specs.WellFormed.{arms_width, equals_in, ranges_in, ArmsFit};
ghost use Rattle.ncq_plan.specs.WellFormed.{arm_is_formed, IsWellFormed};
ghost use Rattle.ncq_midfile.specs.Content.{IsSound};
ghost use Rattle.ncq_midfile.specs.Shown.{shown, rows_below};

use super::gathered::are_entries;
use super::histories::file_of;
use super::making::value_shape;
use super::views::{range_of, view_of};
use ncq_base::{End, Interval, Op, Shared, Steps, atom_of, bytes_of};
use ncq_callback::Entries;
use ncq_midfile::{MidFile, RangeFile, View};
use ncq_news::news;
use ncq_plan::{
    Arm, Arms, Check, Checks, EqualTos, NormalQuery, Pairs, Predicates, Side, SlotAttributes,
    SlotTemplate, SlotTemplates, Test, Withins,
};
use std::alloc::{AllocError, Global};
use std::marker::Brand;
use std::sync::ledger::{Blank, Ledger};
use std::test::Fail;

/// `a` stays, `b` comes and goes, `c` comes twice, `x` is not asked for, and `d` goes with the
/// change that it comes with.
const HISTORY: [(u8, u64, u64); 6] = [
    (b'a', 1, 0),
    (b'b', 2, 4),
    (b'c', 5, 0),
    (b'c', 5, 0),
    (b'x', 6, 0),
    (b'd', 7, 7),
];

const A: &str = "(R\n-a\n)R\n";

const B: &str = "(R\n-b\n)R\n";

const C: &str = "(R\n-c\n)R\n";

/// How many rows of the history have come, the mark, the number of changes, and what is told.
type Firing = (
    usize,
    Option<u64>,
    u64,
    &'static [(bool, u64, &'static str)],
);

const FIRINGS: [Firing; 14] = [
    // Nothing came.
    (0, None, 0, &[]),
    (0, Some(0), 3, &[]),
    // A first firing: a row that came and went is not told.
    (1, None, 1, &[(true, 1, A)]),
    (2, None, 4, &[(true, 1, A)]),
    (6, None, 7, &[(true, 1, A), (true, 2, C)]),
    // A mark in the middle.
    (2, Some(2), 4, &[(false, 1, B)]),
    (6, Some(3), 7, &[(false, 1, B), (true, 2, C)]),
    (6, Some(4), 9, &[(true, 2, C)]),
    // A row came and went behind the mark.
    (2, Some(1), 4, &[]),
    (6, Some(0), 7, &[(true, 1, A), (true, 2, C)]),
    // Behind the mark come rows that are not asked for, or go at once.
    (6, Some(5), 7, &[]),
    // A mark at the last number.
    (2, Some(4), 4, &[]),
    (6, Some(7), 7, &[]),
    (6, Some(u64::MAX), u64::MAX, &[]),
];

/// Rows with numbers, as `HISTORY` has letters.
const NUMBERS: [(u8, u64, u64); 6] = [
    (b'2', 1, 0),
    (b'3', 2, 4),
    (b'4', 5, 0),
    (b'4', 5, 0),
    (b'5', 6, 0),
    (b'1', 7, 0),
];

/// The ends of an interval, the mark, and what is told of the rows with a number of the interval at
/// 7 changes.
const PARTS: [(End, End, Option<u64>, &[(bool, u64, &str)]); 6] = [
    (
        End::Included(3_000_000),
        End::Excluded(5_000_000),
        None,
        &[(true, 2, "(R\n-4\n)R\n")],
    ),
    (
        End::Included(3_000_000),
        End::Excluded(5_000_000),
        Some(3),
        &[(false, 1, "(R\n-3\n)R\n"), (true, 2, "(R\n-4\n)R\n")],
    ),
    (
        End::Excluded(3_000_000),
        End::Included(5_000_000),
        Some(2),
        &[(true, 2, "(R\n-4\n)R\n"), (true, 1, "(R\n-5\n)R\n")],
    ),
    (
        End::Unbounded,
        End::Excluded(3_000_000),
        Some(1),
        &[(true, 1, "(R\n-1\n)R\n")],
    ),
    (
        End::Unbounded,
        End::Excluded(3_000_000),
        None,
        &[(true, 1, "(R\n-1\n)R\n"), (true, 1, "(R\n-2\n)R\n")],
    ),
    (End::Excluded(5_000_000), End::Unbounded, Some(0), &[]),
];

/// `<R>$0</>`
fn template(alloc: Global) -> Result<SlotTemplate, AllocError>
    ensures { IfOk result (λ t. template_is_within 1 t ≡ true) }
{
    let mut content = SlotTemplates::new(alloc);
    content.push(SlotTemplate::Slot(0))?;
    Ok(SlotTemplate::Element {
        tag: bytes_of(alloc, b"R")?,
        attributes: SlotAttributes::new(alloc),
        content,
    })
}

/// Each letter but `x`.
fn checks(alloc: Global) -> Result<Checks, AllocError>
    ensures { IfOk result (λ checks. checks_are_within 1 checks ≡ true) }
{
    let mut checks = Checks::new(alloc);
    checks.push(Check::Compare(Test {
        op: Op::Ne,
        left: 0,
        right: Side::Constant(atom_of(alloc, b"x")?),
    }))?;
    Ok(checks)
}

/// One arm, of all letters.
fn arms(alloc: Global) -> Result<Arms, AllocError>
    ensures one { IfOk result (λ arms. length arms ≡ 1) }
    ensures width { IfOk result (λ arms. arms_width arms ≡ 1) }
    ensures equals { IfOk result (λ arms. equals_in arms ≡ 0) }
    ensures ranges { IfOk result (λ arms. ranges_in arms ≡ 0) }
    ensures fit { IfOk result (λ arms. ArmsFit 0 arms) }
    ensures paths { IfOk result (λ arms. list_all arm_is_formed arms ≡ true) }
{
    let mut arms = Arms::new(alloc);
    arms.push(Arm {
        source: bytes_of(alloc, b"s")?,
        shape: Shared::new(alloc, value_shape(alloc, b"E")?)?,
        equals: EqualTos::new(alloc),
        ranges: Withins::new(alloc),
        pairs: Pairs::new(alloc),
    })?;
    Ok(arms)
}

/// The query that asks for each letter but `x`.
fn query(alloc: Global) -> Result<NormalQuery, AllocError>
    ensures formed { IfOk result IsWellFormed }
    ensures width { IfOk result (λ q. arms_width q.arms ≡ 1) }
{
    Ok(NormalQuery {
        arms: arms(alloc)?,
        residual: checks(alloc)?,
        template: template(alloc)?,
    })
}

/// What is told of the view, where no row of it exceeds the number of changes.
fn told(alloc: Global, view: &View<'_>, mark: Option<u64>, now: u64) -> Result<Entries, AllocError>
    requires sound { IsSound (shown view.now).rows }
    requires wide { AllByRecursion (λ r. length r.row ≡ 1) (rows_below view.now) }
{
    let query = query(alloc)?;
    if view.base() != 0 || view.last() > now {
        return Err(AllocError);
    }
    news(alloc, &query, &Predicates::new(alloc), view, mark, now)
}

/// Whether this is told of the view.
fn tells(
    alloc: Global,
    view: &View<'_>,
    mark: Option<u64>,
    now: u64,
    want: &[(bool, u64, &str)],
) -> Result<bool, AllocError>
    requires sound { IsSound (shown view.now).rows }
    requires wide { AllByRecursion (λ r. length r.row ≡ 1) (rows_below view.now) }
{
    let entries = told(alloc, view, mark, now)?;
    Ok(are_entries(&entries, want))
}

/// Whether a firing tells what was worked out.
fn is_right<L: Ledger>(
    alloc: Global,
    firing: &Firing,
    steps: &mut Steps<L>,
) -> Result<bool, AllocError> {
    let (come, mark, now, want) = firing;
    let history = &HISTORY[..(*come).min(HISTORY.len())];
    let file = file_of(alloc, history, HISTORY.len(), steps)?;
    tells(alloc, &View::Whole(&file), *mark, *now, want)
}

/// How many of the firings tell what was worked out, up to the first that does not.
fn firings_told<L: Ledger>(alloc: Global, steps: &mut Steps<L>) -> Result<usize, AllocError> {
    let all = &FIRINGS;
    for at in 0..all.len() {
        if !is_right(alloc, &all[at], steps)? {
            return Ok(at);
        }
    }
    Ok(all.len())
}

/// How many of the firings tell what was worked out, up to the first that does not.
fn right_firings<L: Ledger>(rt: &HostRuntime, blank: Blank) -> Result<usize, AllocError>
    requires name { blank.name ≡ L.name }
    requires parts { blank.parts ≡ L.parts }
    requires some { 0 < L.parts }
{
    let mut steps = Steps::<L>::new(rt, blank);
    firings_told(rt.alloc(), &mut steps)
}

/// How many of the parts tell what was worked out, up to the first that does not.
fn parts_told(alloc: Global, whole: &MidFile, file: &RangeFile) -> Result<usize, AllocError>
    requires whole_sound { IsSound whole.now.rows }
    requires whole_one { AllByRecursion (λ r. length r.row ≡ 1) whole.now.rows }
    requires sound { IsSound file.now.rows }
    requires one { AllByRecursion (λ r. length r.row ≡ 1) file.now.rows }
{
    let all = &PARTS;
    for at in 0..all.len() {
        let (low, high, mark, want) = all[at];
        let part = Some((Interval { low, high }, 0));
        if !tells(alloc, &view_of(whole, file, &part), mark, 7, want)? {
            return Ok(at);
        }
    }
    Ok(all.len())
}

/// How many of the parts of a range file with the numbers tell it.
fn parts_of_numbers<L: Ledger>(
    alloc: Global,
    whole: &MidFile,
    steps: &mut Steps<L>,
) -> Result<usize, AllocError>
    requires sound { IsSound whole.now.rows }
    requires one { AllByRecursion (λ r. length r.row ≡ 1) whole.now.rows }
{
    let file = range_of(alloc, &NUMBERS, steps)?;
    parts_told(alloc, whole, &file)
}

/// How many of the parts tell what was worked out, up to the first that does not.
fn right_parts<L: Ledger>(rt: &HostRuntime, blank: Blank) -> Result<usize, AllocError>
    requires name { blank.name ≡ L.name }
    requires parts { blank.parts ≡ L.parts }
    requires some { 0 < L.parts }
{
    let mut steps = Steps::<L>::new(rt, blank);
    let whole = file_of(rt.alloc(), &[], 0, &mut steps)?;
    parts_of_numbers(rt.alloc(), &whole, &mut steps)
}

#[test]
fn a_firing_tells_of_the_rows_of_an_interval_alone(rt: HostRuntime) -> Result<(), Fail> {
    let right = right_parts::<Brand>(&rt, Blank::new(1))?;
    assert_eq!(rt; right, PARTS.len());
    Ok(())
}

#[test]
fn a_firing_tells_what_came_and_went_since_the_mark(rt: HostRuntime) -> Result<(), Fail> {
    let right = right_firings::<Brand>(&rt, Blank::new(1))?;
    assert_eq!(rt; right, FIRINGS.len());
    Ok(())
}
