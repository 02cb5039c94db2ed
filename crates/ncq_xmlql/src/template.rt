//! Templates, which nest.
ghost use Rattle.std.specs.Prelude.{◌≡◌, map, length, IfOk};
ghost use Rattle.ncq_xmlql.specs.Reading.{Gives, many};
ghost use Rattle.ncq_xmlql.specs.TemplateReading.{template_attribute, starts_part, inside_at};
ghost use Rattle.ncq_xmlql.specs.TemplateReading.{element_of, part_of, part_at, top_at};

use crate::mismatch::Mismatch;
use crate::model::{
    PatternAttribute, PatternAttributes, Template, TemplateAttribute, TemplateAttributes, Templates,
};
use crate::parts::{Tag, end_at, opening_at, words_at};
use ncq_base::Copied;
use ncq_token::Token;
use std::alloc::{AllocError, Global};

/// The template of a query in front, whose elements nest no deeper than `depth`, and the tokens
/// behind it.
#[tactic(auto, unfolding(crate::specs::TemplateReading::top_at))]
pub(crate) fn top_at(
    alloc: Global,
    depth: usize,
    tokens: &[Token],
) -> Result<(Template, &[Token]), Mismatch>
    ensures { Gives (λ x. (x.0, x.1.now)) result (top_at depth tokens.now) }
{
    match tokens.split_first() {
        Some((Token::Variable(x), rest)) => Ok((Template::Variable(x.copy(alloc)?), rest)),
        _ => element_of(alloc, depth, tokens),
    }
}

/// Whether something of an element's content begins there.
fn starts_part(tokens: &[Token]) -> bool
    ensures { result ≡ starts_part tokens.now }
{
    match tokens.split_first() {
        Some((Token::TagStart, _)) => true,
        Some((Token::Variable(_), _)) => true,
        Some((Token::Quoted(_), _)) => true,
        Some((Token::Word(_), _)) => true,
        _ => false,
    }
}

/// The same attributes as a template has them.
fn template_attributes(
    alloc: Global,
    attributes: PatternAttributes,
) -> Result<TemplateAttributes, AllocError>
    ensures { IfOk result (λ made. made ≡ map template_attribute attributes) }
{
    let mut made = TemplateAttributes::new(alloc);
    for attribute in attributes.into_vec() {
        let PatternAttribute { name, value } = attribute;
        made.push(TemplateAttribute { name, value })?;
    }
    Ok(made)
}

/// A part of an element's content in front, nested no deeper than `depth`, and the tokens behind
/// it.
#[cycle(templates)]
#[tactic(auto, unfolding(crate::specs::TemplateReading::part_at))]
fn part_at(alloc: Global, depth: usize, tokens: &[Token]) -> Result<(Template, &[Token]), Mismatch>
    ensures { Gives (λ x. (x.0, x.1.now)) result (part_at depth tokens.now) }
{
    if depth == 0 {
        return Err(Mismatch::NotSpelled);
    }
    part_of(alloc, depth - 1, tokens)
}

/// The same, one level of nesting having been counted.
#[cycle(templates)]
#[tactic(auto, unfolding(crate::specs::TemplateReading::part_of))]
fn part_of(alloc: Global, depth: usize, tokens: &[Token]) -> Result<(Template, &[Token]), Mismatch>
    ensures { Gives (λ x. (x.0, x.1.now)) result (part_of (part_at depth) tokens.now) }
{
    match tokens.split_first() {
        Some((Token::Variable(x), rest)) => Ok((Template::Variable(x.copy(alloc)?), rest)),
        Some((Token::Quoted(text), rest)) => Ok((Template::Literal(text.copy(alloc)?), rest)),
        Some((Token::Word(word), rest)) => {
            let (text, rest) = words_at(alloc, word, rest)?;
            Ok((Template::Literal(text), rest))
        }
        _ => element_of(alloc, depth, tokens),
    }
}

/// The element in front, whose content nests no deeper than `depth`, and the tokens behind it.
#[cycle(templates)]
#[tactic(auto, unfolding(crate::specs::TemplateReading::element_of))]
fn element_of(
    alloc: Global,
    depth: usize,
    tokens: &[Token],
) -> Result<(Template, &[Token]), Mismatch>
    ensures { Gives (λ x. (x.0, x.1.now)) result (element_of (part_at depth) tokens.now) }
{
    let (opening, rest) = opening_at(alloc, tokens)?;
    let (content, rest) = inside_at(alloc, depth, &opening, rest)?;
    let Tag {
        name,
        attributes,
        is_empty: _,
    } = opening;
    let attributes = template_attributes(alloc, attributes)?;
    Ok((
        Template::Element {
            tag: name,
            attributes,
            content,
        },
        rest,
    ))
}

/// What stands between the tags of an element, and the tokens behind the closing tag.
#[cycle(templates)]
fn inside_at<'a>(
    alloc: Global,
    depth: usize,
    opening: &Tag,
    tokens: &'a [Token],
) -> Result<(Templates, &'a [Token]), Mismatch>
    ensures { Gives (λ x. (x.0, x.1.now)) result
        (inside_at (part_at depth) opening.now tokens.now) }
{
    if opening.is_empty {
        return Ok((Templates::new(alloc), tokens));
    }
    let (content, rest) = parts_at(alloc, depth, tokens)?;
    let rest = end_at(&opening.name, rest)?;
    Ok((content, rest))
}

/// The parts of an element's content in front, and the tokens behind them.
#[cycle(templates)]
fn parts_at(
    alloc: Global,
    depth: usize,
    tokens: &[Token],
) -> Result<(Templates, &[Token]), Mismatch>
    ensures { Gives (λ x. (x.0, x.1.now)) result (many starts_part (part_at depth) tokens.now) }
{
    let mut content = Templates::new(alloc);
    let mut rest = tokens;
    'parts: while starts_part(rest) {
        let (part, next) = part_at(alloc, depth, rest)?;
        content.push(part)?;
        rest = next;
    }
    Ok((content, rest))
}
