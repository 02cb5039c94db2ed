//! Patterns, which nest.
ghost use Rattle.std.specs.Prelude.{◌≡◌, length};
ghost use Rattle.ncq_xmlql.specs.Reading.{Gives, many, starts_tag};
ghost use Rattle.ncq_xmlql.specs.PatternReading.{tag_path_at, pattern_opening_at, is_the_name};
ghost use Rattle.ncq_xmlql.specs.PatternReading.{path_end_at, content_at, body_at, pattern_of};
ghost use Rattle.ncq_xmlql.specs.PatternReading.{pattern_at};

use crate::mismatch::Mismatch;
use crate::model::{Content, Operand, Pattern, PatternAttributes, Patterns};
use crate::parts::{end_close_at, suffix_at, tail_at, words_at};
use crate::path::path_at;
use ncq_base::{Bytes, Copied};
use ncq_path::Path;
use ncq_token::Token;
use std::alloc::Global;

/// The opening tag of a pattern.
#[derive(Drop)]
pub(crate) struct Opening {
    pub path: Path,
    pub attributes: PatternAttributes,
    pub is_empty: bool,
}

/// The path of the tag that begins there, and the tokens behind the path.
fn tag_path_at(alloc: Global, depth: usize, tokens: &[Token]) -> Result<(Path, &[Token]), Mismatch>
    ensures { Gives (λ x. (x.0, x.1.now)) result (tag_path_at depth tokens.now) }
{
    match tokens.split_first() {
        Some((Token::TagStart, rest)) => path_at(alloc, depth, rest),
        _ => Err(Mismatch::NotSpelled),
    }
}

/// The opening tag of a pattern in front, in which no two attributes have one name, and the tokens
/// behind it.
#[tactic(auto, unfolding(crate::specs::PatternReading::pattern_opening_at))]
fn pattern_opening_at(
    alloc: Global,
    depth: usize,
    tokens: &[Token],
) -> Result<(Opening, &[Token]), Mismatch>
    ensures { Gives (λ x. (x.0, x.1.now)) result (pattern_opening_at depth tokens.now) }
{
    let (path, rest) = tag_path_at(alloc, depth, tokens)?;
    let (attributes, is_empty, rest) = tail_at(alloc, rest)?;
    Ok((
        Opening {
            path,
            attributes,
            is_empty,
        },
        rest,
    ))
}

/// Whether the path is the one name.
#[tactic(auto, using(crate::proofs::PathValueLaws::names_are))]
fn is_the_name(name: &Bytes, path: &Path) -> bool
    ensures { result ≡ is_the_name name.now path.now }
{
    match path {
        Path::Tag(tag) => *tag == *name,
        Path::Seq(_) | Path::Alt(_) | Path::Star(_) | Path::Plus(_) => false,
    }
}

/// The tokens behind the end of a tag, which has a name only where the tag's path is that name.
#[tactic(auto, unfolding(crate::specs::PatternReading::path_end_at))]
fn path_end_at<'a>(path: &Path, tokens: &'a [Token]) -> Result<&'a [Token], Mismatch>
    ensures { Gives (λ x. x.now) result (path_end_at path.now tokens.now) }
{
    let Some((Token::TagEnd, rest)) = tokens.split_first() else {
        return Err(Mismatch::NotSpelled);
    };
    match rest.split_first() {
        Some((Token::Name(name), rest)) => {
            if !is_the_name(name, path) {
                return Err(Mismatch::NotSpelled);
            }
            end_close_at(rest)
        }
        _ => end_close_at(rest),
    }
}

/// The pattern in front, nested no deeper than `depth`, and the tokens behind it.
#[cycle(patterns)]
#[tactic(auto, unfolding(crate::specs::PatternReading::pattern_at))]
fn pattern_at(
    alloc: Global,
    depth: usize,
    tokens: &[Token],
) -> Result<(Pattern, &[Token]), Mismatch>
    ensures { Gives (λ x. (x.0, x.1.now)) result (pattern_at depth tokens.now) }
{
    if depth == 0 {
        return Err(Mismatch::NotSpelled);
    }
    pattern_of(alloc, depth - 1, tokens)
}

/// The same, one level of nesting having been counted.
#[cycle(patterns)]
#[tactic(auto, unfolding(crate::specs::PatternReading::pattern_of))]
fn pattern_of(
    alloc: Global,
    depth: usize,
    tokens: &[Token],
) -> Result<(Pattern, &[Token]), Mismatch>
    ensures { Gives (λ x. (x.0, x.1.now)) result (pattern_of depth (pattern_at depth) tokens.now) }
{
    let (opening, rest) = pattern_opening_at(alloc, depth, tokens)?;
    let (content, rest) = body_at(alloc, depth, &opening, rest)?;
    let (suffix, rest) = suffix_at(alloc, rest)?;
    let Opening {
        path,
        attributes,
        is_empty: _,
    } = opening;
    Ok((
        Pattern {
            tag: path,
            attributes,
            content,
            suffix,
        },
        rest,
    ))
}

/// What stands between the tags, and the tokens behind the closing tag.
#[cycle(patterns)]
fn body_at<'a>(
    alloc: Global,
    depth: usize,
    opening: &Opening,
    tokens: &'a [Token],
) -> Result<(Content, &'a [Token]), Mismatch>
    ensures { Gives (λ x. (x.0, x.1.now)) result
        (body_at (pattern_at depth) opening.now tokens.now) }
{
    if opening.is_empty {
        return Ok((Content::Parts(Patterns::new(alloc)), tokens));
    }
    let (content, rest) = content_at(alloc, depth, tokens)?;
    let rest = path_end_at(&opening.path, rest)?;
    Ok((content, rest))
}

/// The content in front, and the tokens behind it.
#[cycle(patterns)]
#[tactic(auto, unfolding(crate::specs::PatternReading::content_at))]
fn content_at(
    alloc: Global,
    depth: usize,
    tokens: &[Token],
) -> Result<(Content, &[Token]), Mismatch>
    ensures { Gives (λ x. (x.0, x.1.now)) result (content_at (pattern_at depth) tokens.now) }
{
    match tokens.split_first() {
        Some((Token::Variable(x), rest)) => Ok((
            Content::Value(Operand::Variable(x.copy(alloc)?)),
            rest,
        )),
        Some((Token::Quoted(text), rest)) => Ok((
            Content::Value(Operand::Literal(text.copy(alloc)?)),
            rest,
        )),
        Some((Token::Word(word), rest)) => {
            let (text, rest) = words_at(alloc, word, rest)?;
            Ok((Content::Value(Operand::Literal(text)), rest))
        }
        _ => {
            let (parts, rest) = patterns_at(alloc, depth, tokens)?;
            Ok((Content::Parts(parts), rest))
        }
    }
}

/// Whether a tag begins there.
pub(crate) fn starts_tag(tokens: &[Token]) -> bool
    ensures { result ≡ starts_tag tokens.now }
{
    match tokens.split_first() {
        Some((Token::TagStart, _)) => true,
        _ => false,
    }
}

/// The patterns in front, as long as a tag begins, and the tokens behind them.
#[cycle(patterns)]
pub(crate) fn patterns_at(
    alloc: Global,
    depth: usize,
    tokens: &[Token],
) -> Result<(Patterns, &[Token]), Mismatch>
    ensures { Gives (λ x. (x.0, x.1.now)) result (many starts_tag (pattern_at depth) tokens.now) }
{
    let mut patterns = Patterns::new(alloc);
    let mut rest = tokens;
    'parts: while starts_tag(rest) {
        let (pattern, next) = pattern_at(alloc, depth, rest)?;
        patterns.push(pattern)?;
        rest = next;
    }
    Ok((patterns, rest))
}
