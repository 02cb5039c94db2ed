//! The ranges of an arm: one interval for each slot.
ghost use Rattle.std.specs.Prelude.{◌≡◌, OnOk};
ghost use Rattle.ncq_bind.specs.Ranges.{insert_range, one_sided, higher, lower, both, within_both};

use ncq_base::Op;
use ncq_plan::{End, Interval, Within};
use std::alloc::AllocError;
use std::cmp::Ordering;

/// The numbers on one side of a number.
pub(crate) fn one_sided(op: Op, number: i128) -> Interval
    ensures { result ≡ one_sided op number }
{
    match op {
        Op::Lt => Interval {
            low: End::Unbounded,
            high: End::Excluded(number),
        },
        Op::Le => Interval {
            low: End::Unbounded,
            high: End::Included(number),
        },
        Op::Gt => Interval {
            low: End::Excluded(number),
            high: End::Unbounded,
        },
        Op::Ge => Interval {
            low: End::Included(number),
            high: End::Unbounded,
        },
        Op::Eq | Op::Ne => Interval {
            low: End::Unbounded,
            high: End::Unbounded,
        },
    }
}

/// The greater of two low ends; between equal numbers the excluded one.
fn higher(a: End, b: End) -> End
    ensures { result ≡ higher a b }
{
    match (a, b) {
        (End::Unbounded, b) => b,
        (a, End::Unbounded) => a,
        (End::Included(m), End::Included(n)) => End::Included(if m < n { n } else { m }),
        (End::Included(m), End::Excluded(n)) => {
            if n < m {
                End::Included(m)
            } else {
                End::Excluded(n)
            }
        }
        (End::Excluded(m), End::Included(n)) => {
            if m < n {
                End::Included(n)
            } else {
                End::Excluded(m)
            }
        }
        (End::Excluded(m), End::Excluded(n)) => End::Excluded(if m < n { n } else { m }),
    }
}

/// The lesser of two high ends; between equal numbers the excluded one.
fn lower(a: End, b: End) -> End
    ensures { result ≡ lower a b }
{
    match (a, b) {
        (End::Unbounded, b) => b,
        (a, End::Unbounded) => a,
        (End::Included(m), End::Included(n)) => End::Included(if n < m { n } else { m }),
        (End::Included(m), End::Excluded(n)) => {
            if m < n {
                End::Included(m)
            } else {
                End::Excluded(n)
            }
        }
        (End::Excluded(m), End::Included(n)) => {
            if n < m {
                End::Included(n)
            } else {
                End::Excluded(m)
            }
        }
        (End::Excluded(m), End::Excluded(n)) => End::Excluded(if n < m { n } else { m }),
    }
}

/// What lies in both.
fn both(a: Interval, b: Interval) -> Interval
    ensures { result ≡ both a b }
{
    Interval {
        low: higher(a.low, b.low),
        high: lower(a.high, b.high),
    }
}

/// Puts the range in its place by its slot. Where the slot has one already, both are asked.
pub(crate) fn insert_range(range: Within, ranges: &mut Vec<Within>) -> Result<(), AllocError>
    ensures { OnOk result (ranges.new.items ≡ insert_range range ranges.old.items) }
{
    let mut at = 0;
    while at < ranges.len() {
        match range.slot.cmp(&ranges[at].slot) {
            Ordering::Less => break,
            Ordering::Equal => {
                let interval = both(ranges[at].interval, range.interval);
                ranges[at].interval = interval;
                return Ok(());
            }
            Ordering::Greater => at += 1,
        }
    }
    ranges.insert(at, range)?;
    Ok(())
}
