//! What the lines of a command say, or the first refusal of reading.
ghost use Rattle.std.specs.Prelude.{◌≡◌, if◌then◌else◌, length, nat_le, None, Some, IfOk};
ghost use Rattle.std.specs.Prelude.{MatchOption, option_map};
ghost use Rattle.std.specs.Option.{option_and_then};
ghost use Rattle.ncq_base.specs.Numbers.{read_u64};
ghost use Rattle.ncq_pyx.specs.Faults.{block_of, max_nesting};
ghost use Rattle.ncq_xmlql.specs.Answered.{statement_of};
ghost use Rattle.ncq_script.specs.Words.{words};
ghost use Rattle.ncq_script.specs.Reads.{rule_of, declare_of, clock_of, if_closed, delta_of};
ghost use Rattle.ncq_script.specs.Reads.{delta_form, create_of, form_of, or_refused, read};
ghost use Rattle.ncq_script.specs.Reads.{batch_form, batch_said};
ghost use Rattle.ncq_script.specs.Batches.{batch_of};
ghost use Rattle.ncq_script.specs.Forms.{one_argument};
ghost use Rattle.ncq_script.specs.Proper.{IsProperCommand};

use crate::batch::sections_of;
use crate::command_lines::CommandLines;
use crate::form::{one_argument, source_form, statement_text};
use crate::refusal::Refusal;
use crate::word::{Keyword, next_word};
use ncq_base::{Bytes, Limit, Lines, Own, bytes_of, is_pyx_name, read_u64};
use ncq_flat::read_flat_block;
use ncq_pyx::PyxError;
use ncq_source::{Key, Section, Sections};
use ncq_xmlql::{Statement, StatementError, parse_statement};
use std::alloc::{AllocError, Global};

/// What a command says.
pub enum Command {
    /// Declares a source.
    Declare {
        /// What it is called.
        name: Bytes,
        /// The tag of its root.
        root: Bytes,
        /// Where the keys of its elements stand.
        key: Key,
    },
    /// Changes a source.
    Delta {
        /// The one section of that source. Each element that it puts is proper.
        sections: Sections,
    },
    /// Changes several sources at once.
    Batch {
        /// What is put and removed, source by source, in order. Each element is proper.
        sections: Sections,
    },
    /// Leaves a query.
    Create {
        /// What is asked, what is made of each answer, and what is done with it. It is well formed.
        /// It lies in a block of its own, so that commands are small where they are handed on.
        statement: Own<Statement>,
    },
    /// Takes a subscription away.
    Delete {
        /// What it is called.
        name: Bytes,
    },
    /// Moves the clock.
    Clock {
        /// To this instant.
        instant: u64,
    },
    /// Asks for a report.
    Report,
    /// Is refused already when it is read.
    Malformed {
        /// Why.
        refusal: Refusal,
    },
}

impl Drop for Command {
    fn drop(self) {
        match self {
            Command::Declare { name, root, key } => {
                drop(name);
                drop(root);
                drop(key);
            }
            Command::Delta { sections } => {
                drop(sections);
            }
            Command::Batch { sections } => {
                drop(sections);
            }
            Command::Create { statement } => {
                drop(statement);
            }
            Command::Delete { name } => {
                drop(name);
            }
            Command::Clock { instant: _ } => {}
            Command::Report => {}
            Command::Malformed { refusal: _ } => {}
        }
    }
}

/// What the lines of a command say, or the first refusal of reading: 15 `line` where a line is
/// long; else 1 where the line has not its form; else 16 where the block has no end; for a delta
/// then 5 or 15 `nesting` at the first faulty line, and for a create 10 or 15 with the limit that
/// its text exceeds. The error is want of memory.
pub(crate) fn read(alloc: Global, lines: &CommandLines) -> Result<Command, AllocError>
    ensures said { IfOk result (λ command. command ≡ read lines.now) }
    ensures proper { IfOk result (λ command. IsProperCommand command) }
{
    if lines.long {
        return Ok(refused(Refusal::Limit { which: Limit::Line }));
    }
    let head = lines.head.as_slice();
    match lines.keyword {
        Keyword::Source => Ok(declare_of(alloc, head)?.unwrap_or(refused(Refusal::Command))),
        Keyword::Delta => delta_form(alloc, head, lines),
        Keyword::Batch => batch_form(alloc, head, lines),
        Keyword::Create => create_form(alloc, lines),
        Keyword::Delete => delete_form(alloc, head),
        Keyword::Clock => Ok(clock_form(head)),
        Keyword::Report => Ok(report_form(head)),
        Keyword::Unknown => Ok(refused(Refusal::Command)),
    }
}

fn refused(refusal: Refusal) -> Command
    ensures { result ≡ Command.Malformed refusal }
{
    Command::Malformed { refusal }
}

fn declare_of(alloc: Global, head: &[u8]) -> Result<Option<Command>, AllocError>
    ensures { IfOk result (λ command. command ≡ declare_of (words head.now)) }
{
    let Some(form) = source_form(head) else {
        return Ok(None);
    };
    let Some(key) = rule_of(alloc, form.rule)? else {
        return Ok(None);
    };
    Ok(Some(Command::Declare {
        name: bytes_of(alloc, form.name)?,
        root: bytes_of(alloc, form.root)?,
        key,
    }))
}

/// The key rule that a word writes.
fn rule_of(alloc: Global, text: &[u8]) -> Result<Option<Key>, AllocError>
    ensures { IfOk result (λ key. key ≡ rule_of text.now) }
{
    match text {
        [b'@', name @ ..] => {
            if is_pyx_name(name) {
                Ok(Some(Key::Attribute(bytes_of(alloc, name)?)))
            } else {
                Ok(None)
            }
        }
        _ => {
            if is_pyx_name(text) {
                Ok(Some(Key::Child(bytes_of(alloc, text)?)))
            } else {
                Ok(None)
            }
        }
    }
}

fn delta_form(alloc: Global, head: &[u8], lines: &CommandLines) -> Result<Command, AllocError>
    ensures said { IfOk result (λ command.
        command ≡ delta_form (one_argument (words head.now)) lines.now) }
    ensures proper { IfOk result (λ command. IsProperCommand command) }
{
    let Some(source) = one_argument(head) else {
        return Ok(refused(Refusal::Command));
    };
    if !lines.closed {
        return Ok(refused(Refusal::Unfinished));
    }
    delta_of(alloc, source, &lines.block)
}

/// The delta that a block says.
fn delta_of(alloc: Global, source: &[u8], block: &Lines) -> Result<Command, AllocError>
    ensures said { IfOk result (λ command.
        command ≡ delta_of source.now (block_of max_nesting block.now)) }
    ensures proper { IfOk result (λ command. IsProperCommand command) }
{
    match read_flat_block(alloc, block) {
        Ok(items) => {
            let mut sections = Sections::new(alloc);
            sections.push(Section {
                source: bytes_of(alloc, source)?,
                items,
            })?;
            Ok(Command::Delta { sections })
        }
        Err(PyxError::BadLine { line }) => Ok(refused(Refusal::Pyx { line })),
        Err(PyxError::TooDeep { .. }) => Ok(refused(Refusal::Limit {
            which: Limit::Nesting,
        })),
        Err(PyxError::OutOfMemory) => Err(AllocError),
    }
}

fn batch_form(alloc: Global, head: &[u8], lines: &CommandLines) -> Result<Command, AllocError>
    requires { head.now ≡ lines.now.head }
    ensures said { IfOk result (λ command. command ≡ batch_form lines.now) }
    ensures proper { IfOk result (λ command. IsProperCommand command) }
{
    if !has_one_word(head) {
        return Ok(refused(Refusal::Command));
    }
    if !lines.closed {
        return Ok(refused(Refusal::Unfinished));
    }
    batch_said(alloc, &lines.block)
}

/// The batch that a block says.
fn batch_said(alloc: Global, block: &Lines) -> Result<Command, AllocError>
    ensures said { IfOk result (λ command.
        command ≡ batch_said (batch_of max_nesting block.now)) }
    ensures proper { IfOk result (λ command. IsProperCommand command) }
{
    match sections_of(alloc, block) {
        Ok(sections) => Ok(Command::Batch { sections }),
        Err(PyxError::BadLine { line }) => Ok(refused(Refusal::Pyx { line })),
        Err(PyxError::TooDeep { .. }) => Ok(refused(Refusal::Limit {
            which: Limit::Nesting,
        })),
        Err(PyxError::OutOfMemory) => Err(AllocError),
    }
}

fn create_form(alloc: Global, lines: &CommandLines) -> Result<Command, AllocError>
    ensures said { IfOk result (λ command. command ≡ form_of Keyword.Create lines.now) }
    ensures proper { IfOk result (λ command. IsProperCommand command) }
{
    if !lines.closed {
        return Ok(refused(Refusal::Unfinished));
    }
    let text = statement_text(alloc, lines)?;
    create_of(alloc, &text)
}

/// The create that a text says.
fn create_of(alloc: Global, text: &[u8]) -> Result<Command, AllocError>
    ensures said { IfOk result (λ command. command ≡ create_of (statement_of text.now)) }
    ensures proper { IfOk result (λ command. IsProperCommand command) }
{
    match parse_statement(alloc, text) {
        Ok(statement) => Ok(Command::Create {
            statement: Own::new(alloc, statement)?,
        }),
        Err(StatementError::NotAStatement) => Ok(refused(Refusal::Query)),
        Err(StatementError::Limit { which }) => Ok(refused(Refusal::Limit { which })),
        Err(StatementError::OutOfMemory) => Err(AllocError),
    }
}

fn delete_form(alloc: Global, head: &[u8]) -> Result<Command, AllocError>
    ensures { IfOk result (λ command.
        command ≡ or_refused (option_map Command.Delete (one_argument (words head.now)))) }
{
    match one_argument(head) {
        Some(name) => Ok(Command::Delete {
            name: bytes_of(alloc, name)?,
        }),
        None => Ok(refused(Refusal::Command)),
    }
}

fn clock_form(head: &[u8]) -> Command
    ensures { result ≡ or_refused (clock_of (words head.now)) }
{
    match clock_of(head) {
        Some(instant) => Command::Clock { instant },
        None => refused(Refusal::Command),
    }
}

fn clock_of(head: &[u8]) -> Option<u64>
    ensures { result ≡ option_and_then read_u64 (one_argument (words head.now)) }
{
    read_u64(one_argument(head)?)
}

fn report_form(head: &[u8]) -> Command
    ensures { result ≡ (if nat_le (length (words head.now)) 1 then Command.Report
        else Command.Malformed Refusal.Command) }
{
    if has_one_word(head) {
        Command::Report
    } else {
        refused(Refusal::Command)
    }
}

fn has_one_word(head: &[u8]) -> bool
    ensures { result ≡ nat_le (length (words head.now)) 1 }
{
    match next_word(head) {
        Some((_, rest)) => next_word(rest).is_none(),
        None => true,
    }
}
