//! The parts of tags: names, attributes, ends, suffixes and runs of words.
ghost use Rattle.ncq_token.specs.declared.token.Token.{Token};
ghost use Rattle.std.specs.Prelude.{List, ℕ, ◌≡◌, ◌++◌, ◌≤◌, ◌<◌, ◌∷◌, [], length, IfOk, OnOk};
ghost use Rattle.ncq_xmlql.specs.Reading.{Gives, value_at, attributes_at, close_at, name_at};
ghost use Rattle.ncq_xmlql.specs.Reading.{variable_at, tag_at, tail_at, opening_at, end_close_at};
ghost use Rattle.ncq_xmlql.specs.Reading.{end_at, checked, names_differ, suffix_at, words_at};
ghost use Rattle.ncq_xmlql.specs.Reading.{with_text};

use crate::distinct::names_differ;
use crate::keyword::{is_content_as, is_element_as};
use crate::mismatch::Mismatch;
use crate::model::{Operand, PatternAttribute, PatternAttributes, Suffix};
use ncq_base::{Bytes, Copied, Op, bytes_of};
use ncq_token::Token;
use std::alloc::{AllocError, Global};

/// A tag as it opens.
#[derive(Drop)]
pub(crate) struct Tag {
    pub name: Bytes,
    pub attributes: PatternAttributes,
    pub is_empty: bool,
}

/// The value of an attribute behind its name, and the tokens behind it.
fn value_at(alloc: Global, tokens: &[Token]) -> Result<(Operand, &[Token]), Mismatch>
    ensures { Gives (λ x. (x.0, x.1.now)) result (value_at tokens.now) }
{
    let Some((Token::Cmp(Op::Eq), rest)) = tokens.split_first() else {
        return Err(Mismatch::NotSpelled);
    };
    match rest.split_first() {
        Some((Token::Quoted(text), rest)) => Ok((Operand::Literal(text.copy(alloc)?), rest)),
        Some((Token::Variable(x), rest)) => Ok((Operand::Variable(x.copy(alloc)?), rest)),
        _ => Err(Mismatch::NotSpelled),
    }
}

/// The attributes in front, as long as a name stands there, and the tokens behind them.
fn attributes_at(alloc: Global, tokens: &[Token]) -> Result<(PatternAttributes, &[Token]), Mismatch>
    ensures { Gives (λ x. (x.0, x.1.now)) result (attributes_at tokens.now) }
{
    let mut attributes = PatternAttributes::new(alloc);
    let mut rest = tokens;
    while let Some((token, after)) = rest.split_first() {
        let Token::Name(name) = token else {
            return Ok((attributes, rest));
        };
        let name = name.copy(alloc)?;
        let (value, next) = value_at(alloc, after)?;
        attributes.push(PatternAttribute { name, value })?;
        rest = next;
    }
    Ok((attributes, rest))
}

/// The first word and those behind it, joined by spaces.
pub(crate) fn words_at<'a>(
    alloc: Global,
    first: &Bytes,
    tokens: &'a [Token],
) -> Result<(Bytes, &'a [Token]), AllocError>
    ensures { IfOk result (λ x. let found : List ℕ × List Token = (x.0, x.1.now)
        in found ≡ with_text first.now (words_at tokens.now)) }
{
    let mut text = Vec::from_slice(alloc, first.as_slice())?;
    let mut rest = tokens;
    while let Some((Token::Word(word), after)) = rest.split_first() {
        text.push(b' ')?;
        text.extend_from_slice(word.as_slice())?;
        rest = after;
    }
    Ok((bytes_of(alloc, &text)?, rest))
}

/// The opening tag in front, in which no two attributes have one name, and the tokens behind it.
#[tactic(auto, unfolding(crate::specs::Reading::opening_at))]
pub(crate) fn opening_at(alloc: Global, tokens: &[Token]) -> Result<(Tag, &[Token]), Mismatch>
    ensures { Gives (λ x. (x.0, x.1.now)) result (opening_at tokens.now) }
{
    let (name, rest) = tag_at(alloc, tokens)?;
    let (attributes, is_empty, rest) = tail_at(alloc, rest)?;
    Ok((
        Tag {
            name,
            attributes,
            is_empty,
        },
        rest,
    ))
}

/// What stands in a tag behind its name or path: attributes, of which no two have one name, and
/// whether the tag is empty; and the tokens behind it.
#[tactic(auto, unfolding(crate::specs::Reading::tail_at))]
pub(crate) fn tail_at(
    alloc: Global,
    tokens: &[Token],
) -> Result<(PatternAttributes, bool, &[Token]), Mismatch>
    ensures { Gives (λ x. ((x.0, x.1), x.2.now)) result (tail_at tokens.now) }
{
    let (attributes, rest) = attributes_at(alloc, tokens)?;
    let (is_empty, rest) = close_behind(alloc, attributes.as_slice(), rest)?;
    Ok((attributes, is_empty, rest))
}

/// Whether the tag that is closed behind these attributes is empty, where no two of them have one
/// name, and the tokens behind it.
fn close_behind<'a>(
    alloc: Global,
    attributes: &[PatternAttribute],
    tokens: &'a [Token],
) -> Result<(bool, &'a [Token]), Mismatch>
    ensures { Gives (λ x. (x.0, x.1.now)) result
        (checked (names_differ attributes.now) (close_at tokens.now)) }
{
    if !names_differ(alloc, attributes)? {
        return Err(Mismatch::NotSpelled);
    }
    close_at(tokens)
}

/// Whether the tag that is closed there is empty, and the tokens behind it.
fn close_at(tokens: &[Token]) -> Result<(bool, &[Token]), Mismatch>
    ensures { Gives (λ x. (x.0, x.1.now)) result (close_at tokens.now) }
{
    match tokens.split_first() {
        Some((Token::TagClose, rest)) => Ok((false, rest)),
        Some((Token::EmptyClose, rest)) => Ok((true, rest)),
        _ => Err(Mismatch::NotSpelled),
    }
}

/// The name in front, and the tokens behind it.
fn name_at(alloc: Global, tokens: &[Token]) -> Result<(Bytes, &[Token]), Mismatch>
    ensures { Gives (λ x. (x.0, x.1.now)) result (name_at tokens.now) }
{
    match tokens.split_first() {
        Some((Token::Name(name), rest)) => Ok((name.copy(alloc)?, rest)),
        _ => Err(Mismatch::NotSpelled),
    }
}

/// The variable in front, and the tokens behind it.
pub(crate) fn variable_at(alloc: Global, tokens: &[Token]) -> Result<(Bytes, &[Token]), Mismatch>
    ensures { Gives (λ x. (x.0, x.1.now)) result (variable_at tokens.now) }
{
    match tokens.split_first() {
        Some((Token::Variable(name), rest)) => Ok((name.copy(alloc)?, rest)),
        _ => Err(Mismatch::NotSpelled),
    }
}

/// The name of the tag that begins there, and the tokens behind the name.
pub(crate) fn tag_at(alloc: Global, tokens: &[Token]) -> Result<(Bytes, &[Token]), Mismatch>
    ensures { Gives (λ x. (x.0, x.1.now)) result (tag_at tokens.now) }
{
    match tokens.split_first() {
        Some((Token::TagStart, rest)) => name_at(alloc, rest),
        _ => Err(Mismatch::NotSpelled),
    }
}

/// The tokens behind the `>` in front.
pub(crate) fn end_close_at(tokens: &[Token]) -> Result<&[Token], Mismatch>
    ensures { Gives (λ x. x.now) result (end_close_at tokens.now) }
{
    match tokens.split_first() {
        Some((Token::TagClose, rest)) => Ok(rest),
        _ => Err(Mismatch::NotSpelled),
    }
}

/// The tokens behind the end of a tag, which has the tag's name or none.
#[tactic(auto, unfolding(crate::specs::Reading::end_at))]
pub(crate) fn end_at<'a>(tag: &Bytes, tokens: &'a [Token]) -> Result<&'a [Token], Mismatch>
    ensures { Gives (λ x. x.now) result (end_at tag.now tokens.now) }
{
    let Some((Token::TagEnd, rest)) = tokens.split_first() else {
        return Err(Mismatch::NotSpelled);
    };
    match rest.split_first() {
        Some((Token::Name(name), rest)) => {
            if *tag != *name {
                return Err(Mismatch::NotSpelled);
            }
            end_close_at(rest)
        }
        _ => end_close_at(rest),
    }
}

/// The suffix in front, and the tokens behind it.
#[tactic(auto, unfolding(crate::specs::Reading::suffix_at))]
pub(crate) fn suffix_at(alloc: Global, tokens: &[Token]) -> Result<(Suffix, &[Token]), Mismatch>
    ensures { Gives (λ x. (x.0, x.1.now)) result (suffix_at tokens.now) }
{
    let Some((Token::Word(word), rest)) = tokens.split_first() else {
        return Ok((Suffix::Plain, tokens));
    };
    if is_element_as(word) {
        let (x, rest) = variable_at(alloc, rest)?;
        return Ok((Suffix::ElementAs(x), rest));
    }
    if is_content_as(word) {
        let (x, rest) = variable_at(alloc, rest)?;
        return Ok((Suffix::ContentAs(x), rest));
    }
    Ok((Suffix::Plain, tokens))
}
