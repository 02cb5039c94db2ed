//! Counts that go on from one change to the next, worked out by hand.
ghost use Rattle.std.specs.Prelude.{map, IfOk};
ghost use Rattle.std.specs.Cmp.Lexicographic.{slice_cmp};
ghost use Rattle.std.specs.List.Sorted.{IsStrictlySortedBy};
ghost use Rattle.std.specs.Ordering.{nat_cmp};

use ncq_bag::{Counts, Difference, Differences, SignedBag};
use ncq_base::bytes_of;
use std::alloc::{AllocError, Global};
use std::hash::RandomState;
use std::test::Fail;

/// A byte string, how often it comes or goes, and whether it comes.
type Change = (&'static str, u64, bool);

/// Byte strings that leave 0, or reach it, and whether they leave it.
type Turns = &'static [(&'static str, bool)];

/// Changes, what they turn where they can be made, and whether they are made then.
type Step = (&'static [Change], Option<Turns>, bool);

/// Each step stands on those before that were made; what stands then is written behind them.
const STEPS: &[Step] = &[
    (&[], Some(&[]), true),
    (&[("a", 1, false)], None, true),
    // Several leave 0 at once: a, b and c stand 1, 2 and 3 times.
    (
        &[("c", 3, true), ("a", 1, true), ("b", 2, true)],
        Some(&[("a", true), ("b", true), ("c", true)]),
        true,
    ),
    // From 2 to 1, and from 3 to 4, nothing turns: 1, 1, 4.
    (&[("b", 1, false), ("c", 1, true)], Some(&[]), true),
    // What is not made is told again.
    (&[("a", 1, false)], Some(&[("a", false)]), false),
    (&[("a", 1, false)], Some(&[("a", false)]), false),
    // Some reach 0, and one more leaves it: c and the empty byte string, 3 and 1.
    (
        &[
            ("a", 1, false),
            ("c", 1, false),
            ("", 1, true),
            ("b", 1, false),
        ],
        Some(&[("", true), ("a", false), ("b", false)]),
        true,
    ),
    // No more goes than stands, nor where nothing stands.
    (&[("c", 4, false)], None, true),
    (&[("b", 1, true), ("bc", 1, false)], None, true),
    (&[("a", 1, false)], None, true),
    // All at once: ab stands twice.
    (
        &[("ab", 2, true), ("c", 3, false), ("", 1, false)],
        Some(&[("", false), ("ab", true), ("c", false)]),
        true,
    ),
    // Up to 2^64 - 1, and no further.
    (&[("ab", 9223372036854775808, true)], Some(&[]), true),
    (&[("ab", 9223372036854775806, true)], None, true),
    (&[("ab", 9223372036854775805, true)], Some(&[]), true),
    (&[("ab", 1, true)], None, true),
    // And down again to 0.
    (&[("ab", 9223372036854775808, false)], Some(&[]), true),
    (
        &[("ab", 9223372036854775807, false), ("b", 1, true)],
        Some(&[("ab", false), ("b", true)]),
        true,
    ),
    (&[("ab", 1, true)], Some(&[("ab", true)]), true),
];

/// The changes, as differences that rise.
#[tactic(auto, using(ncq_bag::proofs::CallerLemmas::differences_are_rising))]
fn changes_of(alloc: Global, changes: &[Change]) -> Result<Differences, AllocError>
    ensures { IfOk result
        (λ d. IsStrictlySortedBy (slice_cmp nat_cmp) (map (λ change. change.bytes) d)) }
{
    let mut bag = SignedBag::new(alloc);
    for (text, times, gain) in changes {
        if bag.adds().saturating_add(*times) > SignedBag::MOST_ADDS {
            return Err(AllocError);
        }
        bag.add(bytes_of(alloc, text.as_bytes())?, *times, *gain)?;
    }
    bag.difference(alloc)
}

/// What the changes turn, if they can be made; where they are to be made, they are.
fn turns_of(
    alloc: Global,
    counts: &mut Counts,
    step: &Step,
) -> Result<Option<Differences>, AllocError> {
    let changes = changes_of(alloc, step.0)?;
    if !counts.can_change(changes.as_slice()) {
        return Ok(None);
    }
    let (turns, pending) = counts.prepare(alloc, &changes)?;
    if step.2 {
        counts.commit(pending);
    }
    Ok(Some(turns))
}

/// Whether it turns so, once.
fn is_turn(turn: &Difference, want: &(&str, bool)) -> bool {
    turn.bytes.as_slice() == want.0.as_bytes() && turn.gain == want.1 && turn.count == 1
}

/// Whether these turn, in this order.
fn are_turns(turns: &Differences, want: Turns) -> bool {
    turns.len() == want.len()
        && turns
            .as_slice()
            .iter()
            .zip(want)
            .all(|(turn, want)| is_turn(turn, want))
}

/// Whether the step tells what was worked out.
fn is_right(alloc: Global, counts: &mut Counts, step: &Step) -> Result<bool, AllocError> {
    match (&turns_of(alloc, counts, step)?, step.1) {
        (Some(turns), Some(want)) => Ok(are_turns(turns, want)),
        (None, None) => Ok(true),
        _ => Ok(false),
    }
}

/// How many of the steps tell what was worked out, up to the first that does not.
fn right_steps(alloc: Global, seed: RandomState) -> Result<usize, AllocError> {
    let mut counts = Counts::new(alloc, seed);
    let all = STEPS;
    for at in 0..all.len() {
        if !is_right(alloc, &mut counts, &all[at])? {
            return Ok(at);
        }
    }
    Ok(all.len())
}

#[test]
fn what_leaves_0_or_reaches_it_turns(rt: HostRuntime) -> Result<(), Fail> {
    let seed = RandomState::new(&rt)?;
    assert_eq!(rt; right_steps(rt.alloc(), seed)?, STEPS.len());
    Ok(())
}
