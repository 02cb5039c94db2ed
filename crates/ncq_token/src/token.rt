//! Tokens, and the fault of a text that has none.
use ncq_base::{Bytes, Op, Sequence};
use std::alloc::AllocError;
use thiserror::Error;

/// A token of a statement.
#[derive(Debug, PartialEq, Eq)]
pub enum Token {
    /// `<` directly before the first byte of a name or `(`. A tag begins.
    TagStart,
    /// `</`. The end of a tag begins.
    TagEnd,
    /// `>` inside a tag.
    TagClose,
    /// `/>` inside a tag.
    EmptyClose,
    /// A name inside a tag.
    Name(Bytes),
    /// `$` and the name of a variable. The name is kept without the `$`.
    Variable(Bytes),
    /// A text between quotation marks, without them, where `\"` and `\\` stand for `"` and `\`.
    Quoted(Bytes),
    /// A run of other bytes outside a tag.
    Word(Bytes),
    /// A comparison. Inside a tag it is `=` alone.
    Cmp(Op),
    /// `,` outside a tag.
    Comma,
    /// `.` inside a tag.
    Dot,
    /// `|` inside a tag.
    Bar,
    /// `*` inside a tag.
    Star,
    /// `+` inside a tag.
    Plus,
    /// `(` inside a tag.
    Open,
    /// `)` inside a tag.
    Shut,
}

impl Drop for Token {
    fn drop(self) {
        match self {
            Token::TagStart => {}
            Token::TagEnd => {}
            Token::TagClose => {}
            Token::EmptyClose => {}
            Token::Name(name) => drop(name),
            Token::Variable(variable) => drop(variable),
            Token::Quoted(quoted) => drop(quoted),
            Token::Word(word) => drop(word),
            Token::Cmp(_) => {}
            Token::Comma => {}
            Token::Dot => {}
            Token::Bar => {}
            Token::Star => {}
            Token::Plus => {}
            Token::Open => {}
            Token::Shut => {}
        }
    }
}

/// The tokens of a text, in their order.
pub type TokenItems = Sequence<Token>;

/// Why a text has no tokens.
#[derive(Debug, Drop, Error)]
pub enum TokenError {
    /// No token stands at the offset, counted in bytes from 0, behind the tokens before it.
    #[error("no token at offset {at}")]
    BadByte { at: u64 },
    #[error("out of memory")]
    OutOfMemory,
}

impl From<AllocError> for TokenError {
    ghost use Rattle.std.specs.Prelude.{◌≡◌};
    ghost use Rattle.ncq_token.specs.declared.token.TokenError.TheVariants.{OutOfMemory};

    ghost from_gives = { λ _ e. e ≡ OutOfMemory };

    fn from(_refused: AllocError) -> TokenError {
        TokenError::OutOfMemory
    }
}
