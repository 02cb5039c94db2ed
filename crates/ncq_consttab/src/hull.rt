//! An interval round two.
ghost use Rattle.std.specs.Prelude.{◌≡◌, ℤ, true};
ghost use Rattle.ncq_base.specs.Intervals.{is_above, is_below};
ghost use Rattle.ncq_consttab.specs.Trees.{IsWithin};

use ncq_base::{End, Interval};

/// An interval round two: from the lesser low end to the greater high end.
pub(crate) fn hull(a: Interval, b: Interval) -> Interval
    ensures first { IsWithin a result }
    ensures second { IsWithin b result }
{
    Interval {
        low: lower(a.low, b.low),
        high: higher(a.high, b.high),
    }
}

/// The lesser of two low ends.
fn lower(a: End, b: End) -> End
    ensures first { (n : ℤ) → is_above a n ≡ true → is_above result n ≡ true }
    ensures second { (n : ℤ) → is_above b n ≡ true → is_above result n ≡ true }
{
    match (a, b) {
        (End::Unbounded, _) | (_, End::Unbounded) => End::Unbounded,
        (End::Included(m), End::Included(n)) => End::Included(m.min(n)),
        (End::Excluded(m), End::Excluded(n)) => End::Excluded(m.min(n)),
        (End::Included(m), End::Excluded(n)) | (End::Excluded(n), End::Included(m)) => {
            if n < m {
                End::Excluded(n)
            } else {
                End::Included(m)
            }
        }
    }
}

/// The greater of two high ends.
fn higher(a: End, b: End) -> End
    ensures first { (n : ℤ) → is_below a n ≡ true → is_below result n ≡ true }
    ensures second { (n : ℤ) → is_below b n ≡ true → is_below result n ≡ true }
{
    match (a, b) {
        (End::Unbounded, _) | (_, End::Unbounded) => End::Unbounded,
        (End::Included(m), End::Included(n)) => End::Included(m.max(n)),
        (End::Excluded(m), End::Excluded(n)) => End::Excluded(m.max(n)),
        (End::Included(m), End::Excluded(n)) | (End::Excluded(n), End::Included(m)) => {
            if m < n {
                End::Excluded(n)
            } else {
                End::Included(m)
            }
        }
    }
}
