//! Intervals of numbers.
ghost use Rattle.std.specs.Prelude.{◌≡◌};
ghost use Rattle.ncq_base.specs.Intervals.{in_interval, is_above, is_below};

use crate::atom::Atom;

/// An end of an interval, in millionths.
#[derive(Clone, Copy, Debug, PartialEq, Eq, Hash)]
pub enum End {
    Unbounded,
    Included(i128),
    Excluded(i128),
}

/// The numbers between two ends. It is kept also where there are none.
#[derive(Clone, Copy, Debug, PartialEq, Eq, Hash)]
pub struct Interval {
    pub low: End,
    pub high: End,
}

/// Whether the atom is a number in the interval; a text is in none. It takes no memory.
pub fn in_interval(interval: &Interval, atom: &Atom) -> bool
    ensures { result ≡ in_interval interval.now atom.now }
{
    match atom {
        Atom::Num(n) => is_above(interval.low, *n) && is_below(interval.high, *n),
        Atom::Text(_) => false,
    }
}

fn is_above(low: End, n: i128) -> bool
    ensures { result ≡ is_above low n }
{
    match low {
        End::Unbounded => true,
        End::Included(low) => low <= n,
        End::Excluded(low) => low < n,
    }
}

fn is_below(high: End, n: i128) -> bool
    ensures { result ≡ is_below high n }
{
    match high {
        End::Unbounded => true,
        End::Included(high) => n <= high,
        End::Excluded(high) => n < high,
    }
}
