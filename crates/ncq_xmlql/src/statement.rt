//! A statement from its text, within the limits.
ghost use Rattle.std.specs.Prelude.{◌≡◌, List, ℕ, Option, Some, None, Ok, IfOk};
ghost use Rattle.ncq_xmlql.specs.declared.model.Statement.{Statement as ReadStatement};
ghost use Rattle.ncq_xmlql.specs.declared.time.Times.{Times as ReadTimes};
ghost use Rattle.ncq_xmlql.specs.Reading.{Gives, ◌>>=◌ as ◌and_then◌};
ghost use Rattle.ncq_xmlql.specs.StatementReading.{action_at, argument_at, query_at, statement_at};
ghost use Rattle.ncq_xmlql.specs.Times.{times, times_from};
ghost use Rattle.ncq_xmlql.specs.Statements.{Answers};
ghost use Rattle.ncq_xmlql.specs.Answered.{exceeded, answered_tokens, statement_of, GivesStatement};
ghost use Rattle.ncq_xmlql.specs.WellFormed.{IsWellFormed};

use crate::action::{action_at, argument_at, construct_at, distinct_at, head_at};
use crate::count::{arms_of, conditions_of, slots_of};
use crate::few::all_are_few;
use crate::items::items_at;
use crate::mismatch::Mismatch;
use crate::model::{Query, QueryItem, Statement};
use crate::nest::nest;
use crate::template::top_at;
use crate::time::{Times, times_at};
use ncq_base::{Bytes, Limit};
use ncq_token::{Token, TokenError, tokens};
use std::alloc::Global;
use thiserror::Error;

/// How deep the tags of a statement and the brackets in them may nest.
const MAX_NESTING: usize = 32;

/// How many patterns may stand directly under roots.
const MAX_ARMS: usize = 8;

/// How many attributes of patterns, contents that are a literal or a variable, and suffixes there
/// may be.
const MAX_SLOTS: usize = 64;

/// How many conditions there may be.
const MAX_CONDITIONS: usize = 32;

/// Why a text gives no statement.
#[derive(Debug, Drop, Error)]
pub enum StatementError {
    /// The text has no tokens, or they spell no statement.
    #[error("not a statement")]
    NotAStatement,
    /// The statement exceeds a limit: `Pattern`, `Arms`, `Slots`, `Conditions` or `Path`.
    #[error("a limit is exceeded")]
    Limit { which: Limit },
    #[error("out of memory")]
    OutOfMemory,
}

/// The query in front, nested no deeper than `depth`, and the tokens behind it.
#[tactic(auto, unfolding(crate::specs::StatementReading::query_at))]
fn query_at(alloc: Global, depth: usize, tokens: &[Token]) -> Result<(Query, &[Token]), Mismatch>
    ensures { Gives (λ x. (x.0, x.1.now)) result (query_at depth tokens.now) }
{
    let (items, rest) = items_at(alloc, depth, tokens)?;
    let rest = construct_at(rest)?;
    let (distinct, rest) = distinct_at(rest);
    let (template, rest) = top_at(alloc, depth, rest)?;
    Ok((
        Query {
            items,
            distinct,
            template,
        },
        rest,
    ))
}

/// What stands behind the query of a statement.
#[derive(Drop)]
struct Ending {
    action: Bytes,
    argument: Option<Bytes>,
    times: Times,
}

/// The action, the argument and the times that all of the tokens write. Its clause is over what is
/// made of them.
fn ending_at(alloc: Global, tokens: &[Token]) -> Result<Ending, Mismatch>
    ensures { (made : List ℕ → Option (List ℕ) → ReadTimes → ReadStatement)
        → Gives (λ e. made e.action e.argument e.times) result
        (action_at tokens.now and_then λ action. argument_at action.1 and_then λ argument.
        times_from (times None None None) argument.1 and_then λ written.
        Some (made action.0 argument.0 written)) }
{
    let (action, rest) = action_at(alloc, tokens)?;
    let (argument, rest) = argument_at(alloc, rest)?;
    let times = times_at(rest)?;
    Ok(Ending {
        action,
        argument,
        times,
    })
}

/// The statement that all of the tokens write.
#[tactic(auto, unfolding(crate::specs::StatementReading::statement_at))]
fn statement_at(alloc: Global, tokens: &[Token]) -> Result<Statement, Mismatch>
    ensures { Gives (λ s. s) result (statement_at tokens.now) }
{
    let (name, rest) = head_at(alloc, tokens)?;
    let (query, rest) = query_at(alloc, tokens.len(), rest)?;
    let ending = ending_at(alloc, rest)?;
    Ok(Statement {
        name,
        query,
        action: ending.action,
        argument: ending.argument,
        start: ending.times.start,
        every: ending.times.every.unwrap_or(0),
        expire: ending.times.expire,
    })
}

/// The first of these limits that the items exceed.
fn exceeded(items: &[QueryItem]) -> Option<Limit>
    ensures { result ≡ exceeded items.now }
{
    if arms_of(items) > MAX_ARMS {
        return Some(Limit::Arms);
    }
    if slots_of(items) > MAX_SLOTS {
        return Some(Limit::Slots);
    }
    if conditions_of(items) > MAX_CONDITIONS {
        return Some(Limit::Conditions);
    }
    if !all_are_few(items) {
        return Some(Limit::Path);
    }
    None
}

/// The statement that the tokens spell, within the limits.
fn parse_tokens(alloc: Global, tokens: &[Token]) -> Result<Statement, StatementError>
    ensures { GivesStatement result (answered_tokens (Ok tokens.now)) }
{
    if nest(tokens) > MAX_NESTING {
        return Err(StatementError::Limit {
            which: Limit::Pattern,
        });
    }
    let statement = match statement_at(alloc, tokens) {
        Ok(statement) => statement,
        Err(Mismatch::OutOfMemory) => return Err(StatementError::OutOfMemory),
        Err(Mismatch::NotSpelled) => return Err(StatementError::NotAStatement),
    };
    match exceeded(statement.query.items.as_slice()) {
        Some(which) => Err(StatementError::Limit { which }),
        None => Ok(statement),
    }
}

/// The statement that a text is.
///
/// The first of these that holds decides: `NotAStatement` where the text has no tokens; `Limit`
/// with `Pattern` where its tags and the brackets in them nest deeper than 32; `NotAStatement`
/// where its tokens spell no statement; `Limit` with `Arms` over 8, with `Slots` over 64, with
/// `Conditions` over 32, with `Path` where a path has over 32 names. Else the answer is the one
/// statement that the text spells, which is well formed.
#[tactic(auto, using(crate::proofs::Exact::given), unfolding(crate::specs::Answered::statement_of))]
pub fn parse_statement(alloc: Global, text: &[u8]) -> Result<Statement, StatementError>
    ensures exact { Answers text.now result }
    ensures value { GivesStatement result (statement_of text.now) }
    ensures well_formed { IfOk result (λ st. IsWellFormed st) }
{
    match tokens(alloc, text) {
        Ok(tokens) => parse_tokens(alloc, tokens.as_slice()),
        Err(TokenError::OutOfMemory) => Err(StatementError::OutOfMemory),
        Err(TokenError::BadByte { at: _ }) => Err(StatementError::NotAStatement),
    }
}
