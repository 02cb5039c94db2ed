//! How many names a path has.
ghost use Rattle.std.specs.Prelude.{◌≡◌, ◌-◌, ◌^◌, min};
ghost use Rattle.std.specs.List.{sum_by};
ghost use Rattle.ncq_path.specs.Formed.{names_in};

use crate::path::Path;

/// How many names the path has, each as often as it stands there. The count stops at the greatest
/// `usize`.
#[cycle(names)]
#[tactic(auto, using(crate::proofs::PathCases::sizes_are))]
pub fn names_in(path: &Path) -> usize
    ensures { result ≡ min (names_in path.now) (2 ^ 64 - 1) }
{
    match path {
        Path::Tag(_) => 1,
        Path::Seq(items) | Path::Alt(items) => names_in_all(items.as_slice()),
        Path::Star(item) | Path::Plus(item) => names_in(item.get()),
    }
}

/// How many names the paths have together.
#[cycle(names)]
fn names_in_all(paths: &[Path]) -> usize
    ensures { result ≡ min (sum_by names_in paths.now) (2 ^ 64 - 1) }
{
    let mut names = 0usize;
    for path in paths {
        names = names.saturating_add(names_in(path));
    }
    names
}
