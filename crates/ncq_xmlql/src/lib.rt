//! The statements of continuous queries.
//! A statement's text comes in. Its query, action and times go out as a value, or the reason why
//! there is none. The grammar is a relation between tokens and values, apart from the code; a text
//! spells at most one statement, and exactly those statements are answered that are spelled within
//! the limits. `statement_of` is the answer to a text. No clause says when memory runs out: a body
//! could still answer so at any text.
#![tactic(auto)]

mod action;
mod count;
mod distinct;
mod few;
mod items;
mod joined;
mod keyword;
mod laws;
mod mismatch;
mod model;
mod nest;
mod parts;
mod path;
mod pattern;
mod statement;
mod template;
mod time;

pub use laws::{answers_are_exact, one_answer, one_meaning, spelled_is_well_formed};
pub use model::{
    Content, Operand, Pattern, PatternAttribute, PatternAttributes, Patterns, Query, QueryItem,
    QueryItems, Statement, Suffix, Template, TemplateAttribute, TemplateAttributes, Templates,
};
pub use statement::{StatementError, parse_statement};
