//! From a path to its machine.
ghost use Rattle.std.specs.Prelude.{◌≡◌, ◌+◌, ◌≤◌, ◌^◌, [], ◌∷◌, ◌++◌, length, map, IfOk, OnOk};
ghost use Rattle.ncq_path.specs.Expressions.{size};
ghost use Rattle.ncq_path.specs.Paths.{expression, each, any_of};
ghost use Rattle.ncq_path.specs.Formed.{IsWellFormed};
ghost use Rattle.ncq_path.specs.Links.{ends_of, links};

use crate::ends::{ends_of, position};
use crate::link::{Link, Links};
use crate::machine::Machine;
use crate::path::Path;
use ncq_base::{Bytes, Copied};
use std::alloc::{AllocError, Global};

/// The machine of a path.
pub fn compile(alloc: Global, path: &Path) -> Result<Machine, AllocError>
    requires { IsWellFormed path.now }
    ensures { IfOk result (λ machine. machine ≡ path.now) }
{
    let mut kept = Links::new(alloc);
    let last = link(alloc, path, 1, &mut kept)?;
    Ok(Machine {
        path: path.copy(alloc)?,
        links: kept,
        last,
    })
}

/// Appends the names of the path, each with the positions behind which it may be read, where a
/// reading begins behind the positions `before`. Gives the positions behind which it may end.
#[cycle(link)]
#[tactic(auto, using(crate::proofs::PathCases::expressions_are))]
fn link(alloc: Global, path: &Path, before: u64, kept: &mut Links) -> Result<u64, AllocError>
    requires { length kept.old + size (expression path.now) ≤ 32 }
    ensures ends { IfOk result (λ ends. ends
        ≡ ends_of (expression path.now) (length kept.old) before) }
    ensures linked { OnOk result (kept.new
        ≡ kept.old ++ links (expression path.now) (length kept.old) before) }
{
    match path {
        Path::Tag(name) => link_name(alloc, name, before, kept),
        Path::Seq(items) => link_each(alloc, items.as_slice(), before, kept),
        Path::Alt(items) => link_any(alloc, items.as_slice(), before, kept),
        Path::Star(item) => {
            let begins = before | ends_of(item.get(), kept.len(), 0);
            link(alloc, item.get(), begins, kept)?;
            Ok(begins)
        }
        Path::Plus(item) => {
            let begins = before | ends_of(item.get(), kept.len(), 0);
            link(alloc, item.get(), begins, kept)
        }
    }
}

/// Appends one name.
fn link_name(alloc: Global, name: &Bytes, before: u64, kept: &mut Links) -> Result<u64, AllocError>
    requires { length kept.old + 1 ≤ 32 }
    ensures ends { IfOk result (λ ends. ends ≡ 2 ^ (length kept.old + 1)) }
    ensures linked { OnOk result (kept.new
        ≡ kept.old ++ record { name = name.now; before = before } ∷ []) }
{
    let at = kept.len() + 1;
    kept.push(Link {
        name: name.copy(alloc)?,
        before,
    })?;
    Ok(position(at))
}

/// Appends the names of one of each, in order.
#[cycle(link)]
fn link_each(
    alloc: Global,
    items: &[Path],
    before: u64,
    kept: &mut Links,
) -> Result<u64, AllocError>
    requires { length kept.old + size (each (map expression items.now)) ≤ 32 }
    ensures ends { IfOk result (λ ends. ends
        ≡ ends_of (each (map expression items.now)) (length kept.old) before) }
    ensures linked { OnOk result (kept.new
        ≡ kept.old ++ links (each (map expression items.now)) (length kept.old) before) }
{
    let mut before = before;
    for item in items {
        before = link(alloc, item, before, kept)?;
    }
    Ok(before)
}

/// Appends the names of any of them.
#[cycle(link)]
fn link_any(alloc: Global, items: &[Path], before: u64, kept: &mut Links) -> Result<u64, AllocError>
    requires { length kept.old + size (any_of (map expression items.now)) ≤ 32 }
    ensures ends { IfOk result (λ ends. ends
        ≡ ends_of (any_of (map expression items.now)) (length kept.old) before) }
    ensures linked { OnOk result (kept.new
        ≡ kept.old ++ links (any_of (map expression items.now)) (length kept.old) before) }
{
    let mut all = 0;
    for item in items {
        all |= link(alloc, item, before, kept)?;
    }
    Ok(all)
}
