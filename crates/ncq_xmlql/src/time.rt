//! The times of a statement.
ghost use Rattle.std.specs.Prelude.{◌≡◌, None};
ghost use Rattle.ncq_xmlql.specs.Reading.{Gives};
ghost use Rattle.ncq_xmlql.specs.Times.{times, is_time_word, with_start, with_every, with_expire};
ghost use Rattle.ncq_xmlql.specs.Times.{with_time, number_at, time_at, times_from};

use crate::keyword::{is_every, is_expire, is_start};
use crate::mismatch::Mismatch;
use ncq_base::{Bytes, read_u64};
use ncq_token::Token;

/// The start, the interval and the expiry, where they are written.
#[derive(Clone, Copy)]
pub(crate) struct Times {
    pub start: Option<u64>,
    pub every: Option<u64>,
    pub expire: Option<u64>,
}

/// Whether the word begins one of the times.
pub(crate) fn is_time_word(word: &Bytes) -> bool
    ensures { result ≡ is_time_word word.now }
{
    is_start(word) || is_every(word) || is_expire(word)
}

/// The times with a start, which was not written before.
fn with_start(n: u64, times: Times) -> Result<Times, Mismatch>
    ensures { Gives (λ t. t) result (with_start n times) }
{
    if times.start.is_some() {
        return Err(Mismatch::NotSpelled);
    }
    Ok(Times {
        start: Some(n),
        ..times
    })
}

/// The times with an interval, which was not written before.
fn with_every(n: u64, times: Times) -> Result<Times, Mismatch>
    ensures { Gives (λ t. t) result (with_every n times) }
{
    if times.every.is_some() {
        return Err(Mismatch::NotSpelled);
    }
    Ok(Times {
        every: Some(n),
        ..times
    })
}

/// The times with an expiry, which was not written before.
fn with_expire(n: u64, times: Times) -> Result<Times, Mismatch>
    ensures { Gives (λ t. t) result (with_expire n times) }
{
    if times.expire.is_some() {
        return Err(Mismatch::NotSpelled);
    }
    Ok(Times {
        expire: Some(n),
        ..times
    })
}

/// The times with the one that the word names.
fn with_time(word: &Bytes, n: u64, times: Times) -> Result<Times, Mismatch>
    ensures { Gives (λ t. t) result (with_time word.now n times) }
{
    if is_start(word) {
        with_start(n, times)
    } else if is_every(word) {
        with_every(n, times)
    } else if is_expire(word) {
        with_expire(n, times)
    } else {
        Err(Mismatch::NotSpelled)
    }
}

/// The number in front, and the tokens behind it.
fn number_at(tokens: &[Token]) -> Result<(u64, &[Token]), Mismatch>
    ensures { Gives (λ x. (x.0, x.1.now)) result (number_at tokens.now) }
{
    let Some((Token::Word(digits), rest)) = tokens.split_first() else {
        return Err(Mismatch::NotSpelled);
    };
    match read_u64(digits.as_slice()) {
        Some(n) => Ok((n, rest)),
        None => Err(Mismatch::NotSpelled),
    }
}

/// The times with the one in front, and the tokens behind it.
fn time_at(times: Times, tokens: &[Token]) -> Result<(Times, &[Token]), Mismatch>
    ensures { Gives (λ x. (x.0, x.1.now)) result (time_at times tokens.now) }
{
    let Some((Token::Word(word), rest)) = tokens.split_first() else {
        return Err(Mismatch::NotSpelled);
    };
    let (n, rest) = number_at(rest)?;
    let times = with_time(word, n, times)?;
    Ok((times, rest))
}

/// The times that all of the tokens write, each at most once.
pub(crate) fn times_at(tokens: &[Token]) -> Result<Times, Mismatch>
    ensures { Gives (λ t. t) result (times_from (times None None None) tokens.now) }
{
    let mut written = Times {
        start: None,
        every: None,
        expire: None,
    };
    let mut rest = tokens;
    'times: while !rest.is_empty() {
        let (more, next) = time_at(written, rest)?;
        written = more;
        rest = next;
    }
    Ok(written)
}
