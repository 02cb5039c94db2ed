//! Steps and alternatives as one path, their lists joined.
ghost use Rattle.std.specs.Prelude.{◌≡◌, [], ◌∷◌, IfOk};
ghost use Rattle.std.specs.List.{flat_map};
ghost use Rattle.ncq_path.specs.declared.path.Path.TheVariants as path;
ghost use Rattle.ncq_xmlql.specs.PathValues.{seq_items, alt_items, alone_or, seq_of, alt_of};

use ncq_path::{Path, Paths};
use std::alloc::{AllocError, Global};

/// The path of these steps, in order. A sequence among them gives its items.
pub(crate) fn sequence_of(alloc: Global, first: Path, more: Paths) -> Result<Path, AllocError>
    ensures { IfOk result (λ p. p ≡ seq_of (first ∷ more)) }
{
    let mut items = seq_items(alloc, first)?;
    for step in more.into_vec() {
        items.append(seq_items(alloc, step)?)?;
    }
    Ok(alone_or_seq(items))
}

/// The path of any of these. An alternative among them gives its items.
pub(crate) fn alternative_of(alloc: Global, first: Path, more: Paths) -> Result<Path, AllocError>
    ensures { IfOk result (λ p. p ≡ alt_of (first ∷ more)) }
{
    let mut items = alt_items(alloc, first)?;
    for seq in more.into_vec() {
        items.append(alt_items(alloc, seq)?)?;
    }
    Ok(alone_or_alt(items))
}

/// The items of a sequence, or the path alone.
#[tactic(auto, using(crate::proofs::PathValueLaws::seq_items_are))]
fn seq_items(alloc: Global, path: Path) -> Result<Paths, AllocError>
    ensures { IfOk result (λ x. x ≡ seq_items path) }
{
    match path {
        Path::Tag(name) => alone(alloc, Path::Tag(name)),
        Path::Seq(items) => Ok(items),
        Path::Alt(items) => alone(alloc, Path::Alt(items)),
        Path::Star(item) => alone(alloc, Path::Star(item)),
        Path::Plus(item) => alone(alloc, Path::Plus(item)),
    }
}

/// The items of an alternative, or the path alone.
#[tactic(auto, using(crate::proofs::PathValueLaws::alt_items_are))]
fn alt_items(alloc: Global, path: Path) -> Result<Paths, AllocError>
    ensures { IfOk result (λ x. x ≡ alt_items path) }
{
    match path {
        Path::Tag(name) => alone(alloc, Path::Tag(name)),
        Path::Seq(items) => alone(alloc, Path::Seq(items)),
        Path::Alt(items) => Ok(items),
        Path::Star(item) => alone(alloc, Path::Star(item)),
        Path::Plus(item) => alone(alloc, Path::Plus(item)),
    }
}

/// The list of the one path.
fn alone(alloc: Global, path: Path) -> Result<Paths, AllocError>
    ensures { IfOk result (λ x. x ≡ path ∷ []) }
{
    let mut paths = Paths::new(alloc);
    paths.push(path)?;
    Ok(paths)
}

/// The one item, or the sequence of the items.
fn alone_or_seq(items: Paths) -> Path
    ensures { result ≡ alone_or path.Seq items }
{
    if items.len() != 1 {
        return Path::Seq(items);
    }
    let mut list = items.into_vec();
    match list.pop() {
        Some(item) => item,
        None => Path::Seq(Paths::from_vec(list)),
    }
}

/// The one item, or the alternative of the items.
fn alone_or_alt(items: Paths) -> Path
    ensures { result ≡ alone_or path.Alt items }
{
    if items.len() != 1 {
        return Path::Alt(items);
    }
    let mut list = items.into_vec();
    match list.pop() {
        Some(item) => item,
        None => Path::Alt(Paths::from_vec(list)),
    }
}
