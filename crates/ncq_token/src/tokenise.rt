//! The token at the front of a text, and the tokens one after the other.
ghost use Rattle.std.specs.Prelude.{◌≡◌, ◌↔◌, ◌||◌, ◌≤◌, ◌<◌, ◌+◌, ℕ, List, false, true, Ok, Err};
ghost use Rattle.std.specs.Prelude.{length, IfOk, IfSome, OnOk};
ghost use Rattle.ncq_token.specs.Bytes.{starts_with};
ghost use Rattle.ncq_token.specs.declared.token.Token.{Token};
ghost use Rattle.ncq_token.specs.Tokens.{Gives, tokens_of, token_at, outside_at, inside_at};
ghost use Rattle.ncq_token.specs.Tokens.{inside_after, less_at, variable_at, text_at, word_at};
ghost use Rattle.ncq_token.specs.Tokens.{name_at, starts_name, IsWithin};

use crate::quoted::quoted_at;
use crate::scan::{front_of, name_len, rest_of, starts_with, variable_len, word_len};
use crate::token::{Token, TokenError, TokenItems};
use ncq_base::{Op, bytes_of, is_space};
use std::alloc::{AllocError, Global};

/// Whether a name begins there.
fn starts_name(bytes: &[u8]) -> bool
    ensures { result ≡ starts_name bytes.now }
{
    name_len(bytes) > 0
}

/// Whether a path begins there: a name or `(`.
fn starts_path(bytes: &[u8]) -> bool
    ensures { result ≡ (starts_name bytes.now || starts_with 40 bytes.now) }
{
    starts_name(bytes) || starts_with(b'(', bytes)
}

/// What stands at a `<`, and how many bytes it takes. The bytes are those behind the `<`.
fn less_at(bytes: &[u8]) -> (Token, usize)
    ensures value { result ≡ less_at bytes.now }
    ensures some { 0 < result.1 }
    ensures within { result.1 ≤ 1 + length bytes.now }
{
    if starts_with(b'/', bytes) {
        (Token::TagEnd, 2)
    } else if starts_with(b'=', bytes) {
        (Token::Cmp(Op::Le), 2)
    } else if starts_path(bytes) {
        (Token::TagStart, 1)
    } else {
        (Token::Cmp(Op::Lt), 1)
    }
}

/// The variable at a `$`. The bytes are those behind the `$`.
fn variable_at(alloc: Global, bytes: &[u8]) -> Result<Option<(Token, usize)>, AllocError>
    ensures value { IfOk result (λ found. found ≡ variable_at bytes.now) }
    ensures within { IfOk result (IsWithin (1 + length bytes.now)) }
{
    let len = variable_len(bytes);
    if len == 0 {
        return Ok(None);
    }
    let name = bytes_of(alloc, front_of(bytes, len))?;
    Ok(Some((Token::Variable(name), 1 + len)))
}

/// The text at a quotation mark. The bytes are those behind the mark.
fn text_at(alloc: Global, bytes: &[u8]) -> Result<Option<(Token, usize)>, AllocError>
    ensures value { IfOk result (λ found. found ≡ text_at bytes.now) }
    ensures within { IfOk result (IsWithin (1 + length bytes.now)) }
{
    match quoted_at(alloc, bytes)? {
        None => Ok(None),
        Some((text, rest)) => Ok(Some((Token::Quoted(text), 1 + (bytes.len() - rest.len())))),
    }
}

/// The word at the front, outside a tag.
fn word_at(alloc: Global, bytes: &[u8]) -> Result<Option<(Token, usize)>, AllocError>
    ensures value { IfOk result (λ found. found ≡ word_at bytes.now) }
    ensures within { IfOk result (IsWithin (length bytes.now)) }
{
    let len = word_len(bytes);
    if len == 0 {
        return Ok(None);
    }
    let word = bytes_of(alloc, front_of(bytes, len))?;
    Ok(Some((Token::Word(word), len)))
}

/// The name at the front, inside a tag.
fn name_at(alloc: Global, bytes: &[u8]) -> Result<Option<(Token, usize)>, AllocError>
    ensures value { IfOk result (λ found. found ≡ name_at bytes.now) }
    ensures within { IfOk result (IsWithin (length bytes.now)) }
{
    let len = name_len(bytes);
    if len == 0 {
        return Ok(None);
    }
    let name = bytes_of(alloc, front_of(bytes, len))?;
    Ok(Some((Token::Name(name), len)))
}

/// The longest token at the front outside a tag, and how many bytes it takes.
#[tactic(auto, unfolding(crate::specs::Tokens::outside_at))]
fn outside_at(alloc: Global, bytes: &[u8]) -> Result<Option<(Token, usize)>, AllocError>
    ensures value { IfOk result (λ found. found ≡ outside_at bytes.now) }
    ensures within { IfOk result (IsWithin (length bytes.now)) }
{
    let Some((first, rest)) = bytes.split_first() else {
        return Ok(None);
    };
    match *first {
        b'<' => Ok(Some(less_at(rest))),
        b'>' if starts_with(b'=', rest) => Ok(Some((Token::Cmp(Op::Ge), 2))),
        b'>' => Ok(Some((Token::Cmp(Op::Gt), 1))),
        b'=' => Ok(Some((Token::Cmp(Op::Eq), 1))),
        b',' => Ok(Some((Token::Comma, 1))),
        b'$' => variable_at(alloc, rest),
        b'"' => text_at(alloc, rest),
        b'!' if starts_with(b'=', rest) => Ok(Some((Token::Cmp(Op::Ne), 2))),
        _ => word_at(alloc, bytes),
    }
}

/// The longest token at the front inside a tag, and how many bytes it takes.
#[tactic(auto, unfolding(crate::specs::Tokens::inside_at))]
fn inside_at(alloc: Global, bytes: &[u8]) -> Result<Option<(Token, usize)>, AllocError>
    ensures value { IfOk result (λ found. found ≡ inside_at bytes.now) }
    ensures within { IfOk result (IsWithin (length bytes.now)) }
{
    let Some((first, rest)) = bytes.split_first() else {
        return Ok(None);
    };
    match *first {
        b'=' => Ok(Some((Token::Cmp(Op::Eq), 1))),
        b'>' => Ok(Some((Token::TagClose, 1))),
        b'/' if starts_with(b'>', rest) => Ok(Some((Token::EmptyClose, 2))),
        b'.' => Ok(Some((Token::Dot, 1))),
        b'|' => Ok(Some((Token::Bar, 1))),
        b'*' => Ok(Some((Token::Star, 1))),
        b'+' => Ok(Some((Token::Plus, 1))),
        b'(' => Ok(Some((Token::Open, 1))),
        b')' => Ok(Some((Token::Shut, 1))),
        b'$' => variable_at(alloc, rest),
        b'"' => text_at(alloc, rest),
        _ => name_at(alloc, bytes),
    }
}

/// The longest token at the front, and how many bytes it takes.
#[tactic(auto, unfolding(crate::specs::Tokens::token_at))]
fn token_at(alloc: Global, inside: bool, bytes: &[u8]) -> Result<Option<(Token, usize)>, AllocError>
    ensures value { IfOk result (λ found. found ≡ token_at inside bytes.now) }
    ensures within { IfOk result (IsWithin (length bytes.now)) }
{
    if inside {
        inside_at(alloc, bytes)
    } else {
        outside_at(alloc, bytes)
    }
}

/// Whether what stands behind the token is inside a tag.
fn inside_after(inside: bool, token: &Token) -> bool
    ensures { result ≡ inside_after inside token.now }
{
    match token {
        Token::TagStart | Token::TagEnd => true,
        Token::TagClose | Token::EmptyClose => false,
        _ => inside,
    }
}

/// The tokens of a statement's text, in their order.
///
/// The text begins outside a tag. White space between tokens is skipped, and the longest token is
/// taken.
/// `BadByte` comes exactly where no token stands at the offset `at`, counted from 0, behind the
/// tokens before it: at a byte that begins none, a `$` without the name of a variable, or a
/// quotation mark that is not closed.
pub fn tokens(alloc: Global, text: &[u8]) -> Result<TokenItems, TokenError>
    ensures exact { Gives result (tokens_of text.now) }
{
    let mut tokens = TokenItems::new(alloc);
    let mut inside = false;
    let mut rest = text;
    while let Some((first, after)) = rest.split_first() {
        if is_space(*first) {
            rest = after;
            continue;
        }
        let Some((token, len)) = token_at(alloc, inside, rest)? else {
            return Err(TokenError::BadByte {
                at: (text.len() - rest.len()) as u64,
            });
        };
        inside = inside_after(inside, &token);
        tokens.push(token)?;
        rest = rest_of(rest, len);
    }
    Ok(tokens)
}
