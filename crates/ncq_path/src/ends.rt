//! The positions behind which a reading of a path may end.
ghost use Rattle.std.specs.Prelude.{◌≡◌, ◌+◌, ◌≤◌, ◌^◌, map};
ghost use Rattle.ncq_path.specs.Expressions.{size};
ghost use Rattle.ncq_path.specs.Paths.{expression, each, any_of};
ghost use Rattle.ncq_path.specs.Links.{ends_of};

use crate::count::names_in;
use crate::path::Path;

/// The positions behind which a reading of the path may end. It begins behind the positions
/// `before`, and the path's names are numbered from `at` + 1.
#[cycle(ends_of)]
#[tactic(auto, using(crate::proofs::PathCases::expressions_are))]
pub(crate) fn ends_of(path: &Path, at: usize, before: u64) -> u64
    requires { at + size (expression path.now) ≤ 32 }
    ensures { result ≡ ends_of (expression path.now) at before }
{
    match path {
        Path::Tag(_) => position(at + 1),
        Path::Seq(items) => ends_of_each(items.as_slice(), at, before),
        Path::Alt(items) => ends_of_any(items.as_slice(), at, before),
        Path::Star(item) => before | ends_of(item.get(), at, 0),
        Path::Plus(item) => ends_of(item.get(), at, before),
    }
}

/// The same for one of each, in order.
#[cycle(ends_of)]
fn ends_of_each(items: &[Path], at: usize, before: u64) -> u64
    requires { at + size (each (map expression items.now)) ≤ 32 }
    ensures { result ≡ ends_of (each (map expression items.now)) at before }
{
    let mut at = at;
    let mut before = before;
    for item in items {
        before = ends_of(item, at, before);
        at += names_in(item);
    }
    before
}

/// The same for any of them.
#[cycle(ends_of)]
fn ends_of_any(items: &[Path], at: usize, before: u64) -> u64
    requires { at + size (any_of (map expression items.now)) ≤ 32 }
    ensures { result ≡ ends_of (any_of (map expression items.now)) at before }
{
    let mut at = at;
    let mut all = 0;
    for item in items {
        all |= ends_of(item, at, before);
        at += names_in(item);
    }
    all
}

/// The set of the one position.
pub(crate) fn position(at: usize) -> u64
    requires { at ≤ 33 }
    ensures { result ≡ 2 ^ at }
{
    1u64 << at
}
