//! Whether a path is well formed.
ghost use Rattle.std.specs.Prelude.{◌≡◌, ◌↔◌, ◌&&◌, map, nat_le, IsTrue};
ghost use Rattle.std.specs.List.{list_all};
ghost use Rattle.ncq_path.specs.Formed.{IsWellFormed, is_joined, names_in, fits_seq, fits_alt};

use crate::count::names_in;
use crate::kind::{is_alt, is_seq};
use crate::path::Path;

/// The most names that a path may have.
const MOST: usize = 32;

/// Whether the path has at most 32 names, and each list in it two items or more, none of the kind
/// of the list.
pub fn is_well_formed(path: &Path) -> bool
    ensures { IsTrue result ↔ IsWellFormed path.now }
{
    has_few(path) && is_joined(path)
}

/// Whether the path has at most 32 names.
fn has_few(path: &Path) -> bool
    ensures { result ≡ nat_le (names_in path.now) 32 }
{
    names_in(path) <= MOST
}

/// Whether the lists in the path are as they should be.
#[cycle(joined)]
#[tactic(auto, using(crate::proofs::FormedLaws::joined_is))]
fn is_joined(path: &Path) -> bool
    ensures { result ≡ is_joined path.now }
{
    match path {
        Path::Tag(_) => true,
        Path::Seq(items) => items.len() >= 2 && fit_seq(items.as_slice()),
        Path::Alt(items) => items.len() >= 2 && fit_alt(items.as_slice()),
        Path::Star(item) | Path::Plus(item) => is_joined(item.get()),
    }
}

/// Whether each of the items may stand in a sequence.
#[cycle(joined)]
fn fit_seq(items: &[Path]) -> bool
    ensures { result ≡ list_all fits_seq (map (λ p. (p, is_joined p)) items.now) }
{
    for item in items {
        if is_seq(item) || !is_joined(item) {
            return false;
        }
    }
    true
}

/// Whether each of the items may stand in an alternative.
#[cycle(joined)]
fn fit_alt(items: &[Path]) -> bool
    ensures { result ≡ list_all fits_alt (map (λ p. (p, is_joined p)) items.now) }
{
    for item in items {
        if is_alt(item) || !is_joined(item) {
            return false;
        }
    }
    true
}
