//! The tokens of a statement.
//! A statement's text comes in as bytes. Its tokens go out in their order, or the offset where none
//! stands. At each place the longest token is taken; inside a tag other tokens stand than outside
//! one. No clause says when memory runs out: a body could still answer so at any text.
#![tactic(auto)]

mod laws;
mod quoted;
mod scan;
mod token;
mod tokenise;

pub use laws::{names_are_names, tokens_are};
pub use token::{Token, TokenError, TokenItems};
pub use tokenise::tokens;
