//! What is told of each forest once, over several notices, worked out by hand. The entries are of
//! rows that come and go, and a template that is a text answers that text.
ghost use Rattle.std.specs.Prelude.{IfOk};
ghost use Rattle.ncq_distinct.specs.DistinctTables.{AreRising};

use super::gathered::take_times;
use super::making::{some_row, text_template};
use ncq_bag::Difference;
use ncq_callback::{Entries, Gather};
use ncq_distinct::DistinctTable;
use ncq_row::Row;
use std::alloc::{AllocError, Global};
use std::hash::RandomState;
use std::test::Fail;

/// A text that is answered, by how many rows, and whether these come.
type Entry = (&'static str, u64, bool);

/// Answers that leave 0, or reach it, and whether they leave it.
type Turns = &'static [(&'static str, bool)];

/// What is done with a table.
enum Step {
    /// The entries of a notice to the subscription, and what it is told, if that is possible.
    Prepare(u64, &'static [Entry], Option<Turns>),
    Settle,
    Forget,
    Remove(u64),
}

/// Three notices, with one in between that is given up.
const NOTICES: &[Step] = &[
    Step::Prepare(
        7,
        &[("b", 1, true), ("a", 2, true)],
        Some(&[("-a\n", true), ("-b\n", true)]),
    ),
    Step::Settle,
    // Of a, 1 is left.
    Step::Prepare(
        7,
        &[("a", 1, false), ("b", 1, false)],
        Some(&[("-b\n", false)]),
    ),
    Step::Settle,
    Step::Prepare(
        7,
        &[("a", 1, false), ("c", 3, true)],
        Some(&[("-a\n", false), ("-c\n", true)]),
    ),
    Step::Forget,
    Step::Prepare(7, &[("a", 1, false)], Some(&[("-a\n", false)])),
    Step::Settle,
    // Nothing stands any more.
    Step::Prepare(7, &[("c", 1, false)], None),
    Step::Prepare(7, &[], Some(&[])),
    Step::Settle,
    Step::Prepare(7, &[("c", 1, true)], Some(&[("-c\n", true)])),
];

/// Changes that wait are not made yet, and later ones stand in their place.
const WAITING: &[Step] = &[
    Step::Settle,
    Step::Forget,
    Step::Prepare(7, &[("a", 1, true)], Some(&[("-a\n", true)])),
    Step::Prepare(7, &[("a", 2, true)], Some(&[("-a\n", true)])),
    Step::Prepare(7, &[("b", 1, true)], Some(&[("-b\n", true)])),
    // Those that cannot be made stand in no place.
    Step::Prepare(7, &[("b", 1, false)], None),
    Step::Settle,
    Step::Prepare(
        7,
        &[("a", 1, true), ("b", 1, true)],
        Some(&[("-a\n", true)]),
    ),
    // They are made once.
    Step::Settle,
    Step::Settle,
    Step::Prepare(
        7,
        &[("a", 1, false), ("b", 2, false)],
        Some(&[("-a\n", false), ("-b\n", false)]),
    ),
];

/// The counts of one subscription are not those of another.
const SEVERAL: &[Step] = &[
    Step::Prepare(7, &[("a", 1, true)], Some(&[("-a\n", true)])),
    Step::Prepare(
        9,
        &[("a", 1, true), ("b", 1, true)],
        Some(&[("-a\n", true), ("-b\n", true)]),
    ),
    Step::Settle,
    Step::Prepare(9, &[("a", 1, false)], Some(&[("-a\n", false)])),
    Step::Prepare(
        7,
        &[("a", 1, true), ("b", 1, true)],
        Some(&[("-b\n", true)]),
    ),
    Step::Settle,
    // 7 has a twice and b once, 9 has b once.
    Step::Remove(7),
    Step::Prepare(9, &[("b", 1, false)], Some(&[("-b\n", false)])),
    Step::Prepare(7, &[("a", 1, true)], Some(&[("-a\n", true)])),
    // What waits goes with the counts.
    Step::Remove(9),
    Step::Remove(8),
    Step::Settle,
    Step::Prepare(9, &[("b", 1, true)], Some(&[("-b\n", true)])),
    Step::Prepare(7, &[("a", 1, false)], Some(&[("-a\n", false)])),
];

/// So many rows come or go, each of which answers the text.
fn take(alloc: Global, gather: &mut Gather, row: &Row, entry: &Entry) -> Result<(), AllocError> {
    let (text, times, gain) = entry;
    let template = text_template(alloc, text)?;
    take_times(alloc, gather, &template, row, *times, *gain)
}

/// The entries of a notice.
#[tactic(auto, using(ncq_bag::proofs::CallerLemmas::differences_are_rising))]
fn entries_of(alloc: Global, row: &Row, entries: &[Entry]) -> Result<Entries, AllocError>
    ensures { IfOk result AreRising }
{
    let mut gather = Gather::new(alloc);
    for entry in entries {
        take(alloc, &mut gather, row, entry)?;
    }
    gather.finish(alloc)
}

/// Whether it is told so, once.
fn is_turn(entry: &Difference, want: &(&str, bool)) -> bool {
    entry.bytes.as_slice() == want.0.as_bytes() && entry.gain == want.1 && entry.count == 1
}

/// Whether these are told, in this order.
fn are_turns(told: &Entries, want: Turns) -> bool {
    let told = told.as_slice();
    told.len() == want.len()
        && told
            .iter()
            .zip(want)
            .all(|(entry, want)| is_turn(entry, want))
}

/// Whether the subscription is told this of the entries, or nothing where that is not possible.
fn is_told(
    alloc: Global,
    table: &mut DistinctTable,
    install: u64,
    entries: &Entries,
    want: Option<Turns>,
) -> bool
    requires { AreRising entries.now }
{
    match (&table.prepare(alloc, install, entries), want) {
        (Ok(told), Some(want)) => are_turns(told, want),
        (Err(_), None) => true,
        _ => false,
    }
}

/// Whether the step tells what was worked out.
fn is_right(
    alloc: Global,
    table: &mut DistinctTable,
    row: &Row,
    step: &Step,
) -> Result<bool, AllocError> {
    match step {
        Step::Prepare(install, entries, want) => {
            let entries = entries_of(alloc, row, entries)?;
            return Ok(is_told(alloc, table, *install, &entries, *want));
        }
        Step::Settle => table.settle(),
        Step::Forget => table.forget(),
        Step::Remove(install) => table.remove(*install),
    }
    Ok(true)
}

/// How many of the steps tell what was worked out, up to the first that does not.
fn right_steps(rt: &HostRuntime, steps: &[Step]) -> Result<usize, Fail> {
    let row = some_row(rt)?;
    let seed = RandomState::new(rt)?;
    let mut table = DistinctTable::new(rt.alloc(), seed);
    for at in 0..steps.len() {
        if !is_right(rt.alloc(), &mut table, &row, &steps[at])? {
            return Ok(at);
        }
    }
    Ok(steps.len())
}

#[test]
fn each_answer_is_told_once(rt: HostRuntime) -> Result<(), Fail> {
    assert_eq!(rt; right_steps(&rt, NOTICES)?, NOTICES.len());
    Ok(())
}

#[test]
fn later_changes_stand_in_place_of_those_that_wait(rt: HostRuntime) -> Result<(), Fail> {
    assert_eq!(rt; right_steps(&rt, WAITING)?, WAITING.len());
    Ok(())
}

#[test]
fn each_subscription_has_its_own_counts(rt: HostRuntime) -> Result<(), Fail> {
    assert_eq!(rt; right_steps(&rt, SEVERAL)?, SEVERAL.len());
    Ok(())
}
