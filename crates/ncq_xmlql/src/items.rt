//! The items of a query: matches and conditions.
ghost use Rattle.std.specs.Prelude.{◌≡◌};
ghost use Rattle.ncq_xmlql.specs.Reading.{Gives, checked, end_at};
ghost use Rattle.ncq_xmlql.specs.ItemReading.{literal_at, source_at, root_at, match_at, operand_at};
ghost use Rattle.ncq_xmlql.specs.ItemReading.{op_at, is_variable, has_arm, condition_at, item_at};
ghost use Rattle.ncq_xmlql.specs.ItemReading.{asks, comparison_at, predicate_at, satisfies_at};
ghost use Rattle.ncq_xmlql.specs.ItemReading.{starts_satisfies, value_behind};
ghost use Rattle.ncq_xmlql.specs.ItemReading.{next_item_at, starts_construct, continues, items_at};

use crate::action::lowered;
use crate::keyword::{is_construct, is_in, is_satisfies};
use crate::mismatch::Mismatch;
use crate::model::{Operand, Pattern, QueryItem, QueryItems};
use crate::parts::{end_at, end_close_at, tag_at, variable_at};
use crate::pattern::{patterns_at, starts_tag};
use ncq_base::{Bytes, Copied, Op};
use ncq_token::Token;
use std::alloc::Global;

/// The quoted text or word in front, and the tokens behind it.
fn literal_at(alloc: Global, tokens: &[Token]) -> Result<(Bytes, &[Token]), Mismatch>
    ensures { Gives (λ x. (x.0, x.1.now)) result (literal_at tokens.now) }
{
    match tokens.split_first() {
        Some((Token::Quoted(text), rest)) => Ok((text.copy(alloc)?, rest)),
        Some((Token::Word(text), rest)) => Ok((text.copy(alloc)?, rest)),
        _ => Err(Mismatch::NotSpelled),
    }
}

/// The source that is named behind `in`, and the tokens behind it.
fn source_at(alloc: Global, tokens: &[Token]) -> Result<(Bytes, &[Token]), Mismatch>
    ensures { Gives (λ x. (x.0, x.1.now)) result (source_at tokens.now) }
{
    let Some((Token::Word(word), rest)) = tokens.split_first() else {
        return Err(Mismatch::NotSpelled);
    };
    if !is_in(word) {
        return Err(Mismatch::NotSpelled);
    }
    literal_at(alloc, rest)
}

/// The name of the root's tag, and the tokens behind the tag.
fn root_at(alloc: Global, tokens: &[Token]) -> Result<(Bytes, &[Token]), Mismatch>
    ensures { Gives (λ x. (x.0, x.1.now)) result (root_at tokens.now) }
{
    let (root, rest) = tag_at(alloc, tokens)?;
    let rest = end_close_at(rest)?;
    Ok((root, rest))
}

/// Whether there is a pattern.
fn has_arm(arms: &[Pattern]) -> bool
    ensures { result ≡ has_arm arms.now }
{
    match arms.split_first() {
        Some(_) => true,
        None => false,
    }
}

/// The tokens behind the end of the root, where there is a pattern under it.
fn arms_end_at<'a>(
    root: &Bytes,
    arms: &[Pattern],
    tokens: &'a [Token],
) -> Result<&'a [Token], Mismatch>
    ensures { Gives (λ x. x.now) result (checked (has_arm arms.now) (end_at root.now tokens.now)) }
{
    if !has_arm(arms) {
        return Err(Mismatch::NotSpelled);
    }
    end_at(root, tokens)
}

/// The match in front, whose patterns nest no deeper than `depth`, and the tokens behind it.
#[tactic(auto, unfolding(crate::specs::ItemReading::match_at))]
fn match_at(
    alloc: Global,
    depth: usize,
    tokens: &[Token],
) -> Result<(QueryItem, &[Token]), Mismatch>
    ensures { Gives (λ x. (x.0, x.1.now)) result (match_at depth tokens.now) }
{
    let (root, rest) = root_at(alloc, tokens)?;
    let (arms, rest) = patterns_at(alloc, depth, rest)?;
    let rest = arms_end_at(&root, arms.as_slice(), rest)?;
    let (source, rest) = source_at(alloc, rest)?;
    Ok((QueryItem::Match { root, arms, source }, rest))
}

/// The operand in front, and the tokens behind it.
fn operand_at(alloc: Global, tokens: &[Token]) -> Result<(Operand, &[Token]), Mismatch>
    ensures { Gives (λ x. (x.0, x.1.now)) result (operand_at tokens.now) }
{
    match tokens.split_first() {
        Some((Token::Variable(x), rest)) => Ok((Operand::Variable(x.copy(alloc)?), rest)),
        Some((Token::Quoted(text), rest)) => Ok((Operand::Literal(text.copy(alloc)?), rest)),
        Some((Token::Word(text), rest)) => Ok((Operand::Literal(text.copy(alloc)?), rest)),
        _ => Err(Mismatch::NotSpelled),
    }
}

/// The comparison in front, and the tokens behind it.
fn op_at(tokens: &[Token]) -> Result<(Op, &[Token]), Mismatch>
    ensures { Gives (λ x. (x.0, x.1.now)) result (op_at tokens.now) }
{
    match tokens.split_first() {
        Some((Token::Cmp(op), rest)) => Ok((*op, rest)),
        _ => Err(Mismatch::NotSpelled),
    }
}

/// Whether the operand is a variable.
fn is_variable(operand: &Operand) -> bool
    ensures { result ≡ is_variable operand.now }
{
    match operand {
        Operand::Variable(_) => true,
        Operand::Literal(_) => false,
    }
}

/// Whether the word `satisfies` stands in front.
fn starts_satisfies(tokens: &[Token]) -> bool
    ensures { result ≡ starts_satisfies tokens.now }
{
    match tokens.split_first() {
        Some((Token::Word(word), _)) => is_satisfies(word),
        _ => false,
    }
}

/// Whether a variable stands in front, and the word `satisfies` behind it.
fn asks(tokens: &[Token]) -> bool
    ensures { result ≡ asks tokens.now }
{
    match tokens.split_first() {
        Some((Token::Variable(_), rest)) => starts_satisfies(rest),
        _ => false,
    }
}

/// The name of a predicate in lower case behind a word, and the tokens behind it.
fn predicate_at(alloc: Global, tokens: &[Token]) -> Result<(Bytes, &[Token]), Mismatch>
    ensures { Gives (λ x. (x.0, x.1.now)) result (predicate_at tokens.now) }
{
    let Some((Token::Word(_), rest)) = tokens.split_first() else {
        return Err(Mismatch::NotSpelled);
    };
    match rest.split_first() {
        Some((Token::Word(name), rest)) => Ok((lowered(alloc, name.as_slice())?, rest)),
        _ => Err(Mismatch::NotSpelled),
    }
}

/// The argument of a predicate, if one stands in front, and the tokens behind it.
fn value_behind(alloc: Global, tokens: &[Token]) -> Result<(Option<Bytes>, &[Token]), Mismatch>
    ensures { Gives (λ x. (x.0, x.1.now)) result (value_behind tokens.now) }
{
    match tokens.split_first() {
        Some((Token::Quoted(text), rest)) => Ok((Some(text.copy(alloc)?), rest)),
        Some((Token::Word(word), rest)) if !is_construct(word) => Ok((
            Some(word.copy(alloc)?),
            rest,
        )),
        _ => Ok((None, tokens)),
    }
}

/// The condition that asks a predicate in front, and the tokens behind it.
#[tactic(auto, unfolding(crate::specs::ItemReading::satisfies_at))]
fn satisfies_at(alloc: Global, tokens: &[Token]) -> Result<(QueryItem, &[Token]), Mismatch>
    ensures { Gives (λ x. (x.0, x.1.now)) result (satisfies_at tokens.now) }
{
    let (variable, rest) = variable_at(alloc, tokens)?;
    let (predicate, rest) = predicate_at(alloc, rest)?;
    let (argument, rest) = value_behind(alloc, rest)?;
    Ok((
        QueryItem::Satisfies {
            variable,
            predicate,
            argument,
        },
        rest,
    ))
}

/// The condition in front, and the tokens behind it.
fn condition_at(alloc: Global, tokens: &[Token]) -> Result<(QueryItem, &[Token]), Mismatch>
    ensures { Gives (λ x. (x.0, x.1.now)) result (condition_at tokens.now) }
{
    if asks(tokens) {
        satisfies_at(alloc, tokens)
    } else {
        comparison_at(alloc, tokens)
    }
}

/// The comparison of two operands in front, and the tokens behind it.
#[tactic(auto, unfolding(crate::specs::ItemReading::comparison_at))]
fn comparison_at(alloc: Global, tokens: &[Token]) -> Result<(QueryItem, &[Token]), Mismatch>
    ensures { Gives (λ x. (x.0, x.1.now)) result (comparison_at tokens.now) }
{
    let (left, rest) = operand_at(alloc, tokens)?;
    let (op, rest) = op_at(rest)?;
    let (right, rest) = operand_at(alloc, rest)?;
    let some = is_variable(&left) || is_variable(&right);
    if !some {
        return Err(Mismatch::NotSpelled);
    }
    Ok((QueryItem::Condition { left, op, right }, rest))
}

/// The match or condition in front, and the tokens behind it.
fn item_at(alloc: Global, depth: usize, tokens: &[Token]) -> Result<(QueryItem, &[Token]), Mismatch>
    ensures { Gives (λ x. (x.0, x.1.now)) result (item_at depth tokens.now) }
{
    if starts_tag(tokens) {
        match_at(alloc, depth, tokens)
    } else {
        condition_at(alloc, tokens)
    }
}

/// The same behind a comma.
fn next_item_at(
    alloc: Global,
    depth: usize,
    tokens: &[Token],
) -> Result<(QueryItem, &[Token]), Mismatch>
    ensures { Gives (λ x. (x.0, x.1.now)) result (next_item_at depth tokens.now) }
{
    match tokens.split_first() {
        Some((Token::Comma, rest)) => item_at(alloc, depth, rest),
        _ => Err(Mismatch::NotSpelled),
    }
}

/// Whether the word `construct` stands in front.
fn starts_construct(tokens: &[Token]) -> bool
    ensures { result ≡ starts_construct tokens.now }
{
    match tokens.split_first() {
        Some((Token::Word(word), _)) => is_construct(word),
        _ => false,
    }
}

/// Whether a comma stands in front that another item follows.
fn continues(tokens: &[Token]) -> bool
    ensures { result ≡ continues tokens.now }
{
    match tokens.split_first() {
        Some((Token::Comma, rest)) => !starts_construct(rest),
        _ => false,
    }
}

/// The items in front, and the tokens behind them.
#[tactic(auto, unfolding(crate::specs::ItemReading::items_at))]
pub(crate) fn items_at(
    alloc: Global,
    depth: usize,
    tokens: &[Token],
) -> Result<(QueryItems, &[Token]), Mismatch>
    ensures { Gives (λ x. (x.0, x.1.now)) result (items_at depth tokens.now) }
{
    let (first, mut rest) = match_at(alloc, depth, tokens)?;
    let mut items = QueryItems::new(alloc);
    items.push(first)?;
    'items: while continues(rest) {
        let (item, next) = next_item_at(alloc, depth, rest)?;
        items.push(item)?;
        rest = next;
    }
    Ok((items, rest))
}
