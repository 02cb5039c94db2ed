//! Paths over names, which nest by round brackets.
ghost use Rattle.std.specs.Prelude.{◌≡◌, List, IfOk};
ghost use Rattle.ncq_path.specs.declared.path.Path.{Path};
ghost use Rattle.ncq_token.specs.declared.token.Token.{Token};
ghost use Rattle.ncq_xmlql.specs.Reading.{Gives, many};
ghost use Rattle.ncq_xmlql.specs.PathReading.{starts_dot, starts_bar, dotted_at, barred_at};
ghost use Rattle.ncq_xmlql.specs.PathReading.{shut_at, item_of, repeated, step_of, steps_of};
ghost use Rattle.ncq_xmlql.specs.PathReading.{sequence_of, alternatives_of, path_of, path_at};

use crate::joined::{alternative_of, sequence_of};
use crate::mismatch::Mismatch;
use ncq_base::{Copied, Own};
use ncq_path::{Path, Paths};
use ncq_token::Token;
use std::alloc::{AllocError, Global};

/// The path in front, its brackets nested less deep than `depth`, and the tokens behind it.
#[cycle(paths)]
#[tactic(auto, unfolding(crate::specs::PathReading::path_at))]
pub(crate) fn path_at(
    alloc: Global,
    depth: usize,
    tokens: &[Token],
) -> Result<(Path, &[Token]), Mismatch>
    ensures { Gives (λ x. (x.0, x.1.now)) result (path_at depth tokens.now) }
{
    if depth == 0 {
        return Err(Mismatch::NotSpelled);
    }
    any_at(alloc, depth - 1, tokens)
}

/// The same, one level of nesting having been counted.
#[cycle(paths)]
#[tactic(auto, unfolding(crate::specs::PathReading::path_of))]
fn any_at(alloc: Global, depth: usize, tokens: &[Token]) -> Result<(Path, &[Token]), Mismatch>
    ensures { Gives (λ x. (x.0, x.1.now)) result (path_of (path_at depth) tokens.now) }
{
    let (first, rest) = sequence_at(alloc, depth, tokens)?;
    let (more, rest) = alternatives_at(alloc, depth, rest)?;
    Ok((alternative_of(alloc, first, more)?, rest))
}

/// Whether a `|` stands there.
fn starts_bar(tokens: &[Token]) -> bool
    ensures { result ≡ starts_bar tokens.now }
{
    match tokens.split_first() {
        Some((Token::Bar, _)) => true,
        _ => false,
    }
}

/// The sequences in front, each behind a `|`, and the tokens behind them.
#[cycle(paths)]
fn alternatives_at(
    alloc: Global,
    depth: usize,
    tokens: &[Token],
) -> Result<(Paths, &[Token]), Mismatch>
    ensures { Gives (λ x. (x.0, x.1.now)) result (alternatives_of (path_at depth) tokens.now) }
{
    let mut paths = Paths::new(alloc);
    let mut rest = tokens;
    'sequences: while starts_bar(rest) {
        let (path, next) = barred_at(alloc, depth, rest)?;
        paths.push(path)?;
        rest = next;
    }
    Ok((paths, rest))
}

/// The sequence behind the `|` in front, and the tokens behind it.
#[cycle(paths)]
fn barred_at(alloc: Global, depth: usize, tokens: &[Token]) -> Result<(Path, &[Token]), Mismatch>
    ensures { Gives (λ x. (x.0, x.1.now)) result
        (barred_at (sequence_of (path_at depth)) tokens.now) }
{
    match tokens.split_first() {
        Some((Token::Bar, rest)) => sequence_at(alloc, depth, rest),
        _ => Err(Mismatch::NotSpelled),
    }
}

/// The sequence in front, and the tokens behind it.
#[cycle(paths)]
#[tactic(auto, unfolding(crate::specs::PathReading::sequence_of))]
fn sequence_at(alloc: Global, depth: usize, tokens: &[Token]) -> Result<(Path, &[Token]), Mismatch>
    ensures { Gives (λ x. (x.0, x.1.now)) result (sequence_of (path_at depth) tokens.now) }
{
    let (first, rest) = step_at(alloc, depth, tokens)?;
    let (more, rest) = steps_at(alloc, depth, rest)?;
    Ok((sequence_of(alloc, first, more)?, rest))
}

/// Whether a `.` stands there.
fn starts_dot(tokens: &[Token]) -> bool
    ensures { result ≡ starts_dot tokens.now }
{
    match tokens.split_first() {
        Some((Token::Dot, _)) => true,
        _ => false,
    }
}

/// The steps in front, each behind a `.`, and the tokens behind them.
#[cycle(paths)]
fn steps_at(alloc: Global, depth: usize, tokens: &[Token]) -> Result<(Paths, &[Token]), Mismatch>
    ensures { Gives (λ x. (x.0, x.1.now)) result (steps_of (path_at depth) tokens.now) }
{
    let mut paths = Paths::new(alloc);
    let mut rest = tokens;
    'steps: while starts_dot(rest) {
        let (path, next) = dotted_at(alloc, depth, rest)?;
        paths.push(path)?;
        rest = next;
    }
    Ok((paths, rest))
}

/// The step behind the `.` in front, and the tokens behind it.
#[cycle(paths)]
fn dotted_at(alloc: Global, depth: usize, tokens: &[Token]) -> Result<(Path, &[Token]), Mismatch>
    ensures { Gives (λ x. (x.0, x.1.now)) result (dotted_at (step_of (path_at depth)) tokens.now) }
{
    match tokens.split_first() {
        Some((Token::Dot, rest)) => step_at(alloc, depth, rest),
        _ => Err(Mismatch::NotSpelled),
    }
}

/// The step in front, and the tokens behind it.
#[cycle(paths)]
#[tactic(auto, unfolding(crate::specs::PathReading::step_of))]
fn step_at(alloc: Global, depth: usize, tokens: &[Token]) -> Result<(Path, &[Token]), Mismatch>
    ensures { Gives (λ x. (x.0, x.1.now)) result (step_of (path_at depth) tokens.now) }
{
    let (item, rest) = item_at(alloc, depth, tokens)?;
    let (step, rest) = repeated(alloc, item, rest)?;
    Ok((step, rest))
}

/// The path, or the star or plus of it, and what stands behind that.
fn repeated(alloc: Global, path: Path, tokens: &[Token]) -> Result<(Path, &[Token]), AllocError>
    ensures { IfOk result (λ x. let found : Path × List Token = (x.0, x.1.now)
        in found ≡ repeated path tokens.now) }
{
    match tokens.split_first() {
        Some((Token::Star, rest)) => Ok((Path::Star(Own::new(alloc, path)?), rest)),
        Some((Token::Plus, rest)) => Ok((Path::Plus(Own::new(alloc, path)?), rest)),
        _ => Ok((path, tokens)),
    }
}

/// The name in front, or the path between the round brackets there, and the tokens behind it.
#[cycle(paths)]
#[tactic(auto, unfolding(crate::specs::PathReading::item_of))]
fn item_at(alloc: Global, depth: usize, tokens: &[Token]) -> Result<(Path, &[Token]), Mismatch>
    ensures { Gives (λ x. (x.0, x.1.now)) result (item_of (path_at depth) tokens.now) }
{
    match tokens.split_first() {
        Some((Token::Name(name), rest)) => Ok((Path::Tag(name.copy(alloc)?), rest)),
        Some((Token::Open, rest)) => {
            let (path, rest) = path_at(alloc, depth, rest)?;
            let rest = shut_at(rest)?;
            Ok((path, rest))
        }
        _ => Err(Mismatch::NotSpelled),
    }
}

/// The tokens behind the `)` in front.
fn shut_at(tokens: &[Token]) -> Result<&[Token], Mismatch>
    ensures { Gives (λ x. x.now) result (shut_at tokens.now) }
{
    match tokens.split_first() {
        Some((Token::Shut, rest)) => Ok(rest),
        _ => Err(Mismatch::NotSpelled),
    }
}
