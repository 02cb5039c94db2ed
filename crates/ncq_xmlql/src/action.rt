//! The name of a statement, its action, and the keywords between its parts.
ghost use Rattle.std.specs.Prelude.{◌≡◌, codes, map, IfOk};
ghost use Rattle.std.specs.Char.{to_ascii_lowercase};
ghost use Rattle.ncq_xmlql.specs.Reading.{Gives, lowered};
ghost use Rattle.ncq_xmlql.specs.StatementReading.{keyword_at, title_at, head_at, construct_at};
ghost use Rattle.ncq_xmlql.specs.StatementReading.{distinct_at, action_word_at, action_at};
ghost use Rattle.ncq_xmlql.specs.StatementReading.{argument_at};

use crate::keyword::{is_distinct, is_word};
use crate::mismatch::Mismatch;
use crate::time::is_time_word;
use ncq_base::{Bytes, Copied, bytes_of, is_name};
use ncq_token::Token;
use std::alloc::{AllocError, Global};

/// The tokens behind the keyword.
fn keyword_at<'a>(keyword: &[u8], tokens: &'a [Token]) -> Result<&'a [Token], Mismatch>
    ensures { Gives (λ x. x.now) result (keyword_at keyword.now tokens.now) }
{
    match tokens.split_first() {
        Some((Token::Word(word), rest)) if is_word(word.as_slice(), keyword) => Ok(rest),
        _ => Err(Mismatch::NotSpelled),
    }
}

/// The name of the statement in front, and the tokens behind it.
fn title_at(alloc: Global, tokens: &[Token]) -> Result<(Bytes, &[Token]), Mismatch>
    ensures { Gives (λ x. (x.0, x.1.now)) result (title_at tokens.now) }
{
    let Some((Token::Word(word), rest)) = tokens.split_first() else {
        return Err(Mismatch::NotSpelled);
    };
    if !is_name(word.as_slice()) {
        return Err(Mismatch::NotSpelled);
    }
    Ok((word.copy(alloc)?, rest))
}

/// The name between `create` and `where`, and the tokens behind.
pub(crate) fn head_at(alloc: Global, tokens: &[Token]) -> Result<(Bytes, &[Token]), Mismatch>
    ensures { Gives (λ x. (x.0, x.1.now)) result (head_at tokens.now) }
{
    let rest = keyword_at(b"create", tokens)?;
    let (title, rest) = title_at(alloc, rest)?;
    let rest = keyword_at(b"where", rest)?;
    Ok((title, rest))
}

/// The tokens behind the word `construct`, which may stand behind a comma.
pub(crate) fn construct_at(tokens: &[Token]) -> Result<&[Token], Mismatch>
    ensures { Gives (λ x. x.now) result (construct_at tokens.now) }
{
    match tokens.split_first() {
        Some((Token::Comma, rest)) => keyword_at(b"construct", rest),
        _ => keyword_at(b"construct", tokens),
    }
}

/// Whether the word `distinct` stands in front, and the tokens behind it.
pub(crate) fn distinct_at(tokens: &[Token]) -> (bool, &[Token])
    ensures { (result.0, result.1.now) ≡ distinct_at tokens.now }
{
    match tokens.split_first() {
        Some((Token::Word(word), rest)) if is_distinct(word) => (true, rest),
        _ => (false, tokens),
    }
}

/// The word in lower case.
pub(crate) fn lowered(alloc: Global, word: &[u8]) -> Result<Bytes, AllocError>
    ensures { IfOk result (λ b. b ≡ lowered word.now) }
{
    let mut lower = Vec::new(alloc);
    for byte in word {
        lower.push(byte.to_ascii_lowercase())?;
    }
    bytes_of(alloc, &lower)
}

/// The word in front in lower case, and the tokens behind it.
fn action_word_at(alloc: Global, tokens: &[Token]) -> Result<(Bytes, &[Token]), Mismatch>
    ensures { Gives (λ x. (x.0, x.1.now)) result (action_word_at tokens.now) }
{
    match tokens.split_first() {
        Some((Token::Word(word), rest)) => Ok((lowered(alloc, word.as_slice())?, rest)),
        _ => Err(Mismatch::NotSpelled),
    }
}

/// The action behind the word `do`, and the tokens behind it.
pub(crate) fn action_at(alloc: Global, tokens: &[Token]) -> Result<(Bytes, &[Token]), Mismatch>
    ensures { Gives (λ x. (x.0, x.1.now)) result (action_at tokens.now) }
{
    let rest = keyword_at(b"do", tokens)?;
    action_word_at(alloc, rest)
}

/// The argument in front, if one stands there, and the tokens behind it.
pub(crate) fn argument_at(
    alloc: Global,
    tokens: &[Token],
) -> Result<(Option<Bytes>, &[Token]), Mismatch>
    ensures { Gives (λ x. (x.0, x.1.now)) result (argument_at tokens.now) }
{
    match tokens.split_first() {
        Some((Token::Quoted(text), rest)) => Ok((Some(text.copy(alloc)?), rest)),
        Some((Token::Word(word), rest)) if !is_time_word(word) => Ok((
            Some(word.copy(alloc)?),
            rest,
        )),
        _ => Ok((None, tokens)),
    }
}
