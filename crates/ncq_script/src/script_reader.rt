//! The commands of a script that comes in pieces, each as what it says.
ghost use Rattle.std.specs.Prelude.{◌≡◌, ◌<◌, ◌^◌, ◌++◌, ℕ, List, [], None, Some, true, false};
ghost use Rattle.std.specs.Prelude.{IfOk, OnOk, OnErr};
ghost use Rattle.ncq_script.specs.NextOfCommands.{IsNext, LeavesLittle};
ghost use Rattle.ncq_script.specs.Reading.{Follows};
ghost use Rattle.ncq_script.specs.Proper.{GivesProper};
ghost use Rattle.ncq_script.specs.Reads.{read};
ghost use Rattle.ncq_script.specs.ScriptReading.{ScriptState, FollowsScript, FollowsWith, limit_of};
ghost use Rattle.ncq_script.specs.ScriptReading.{is_finished};
ghost use Rattle.ncq_script.specs.NextOfScript.{IsNextCommand, KeepsLittle, ScriptFalls};
ghost use Rattle.ncq_script.specs.NextOfScript.{LinesTaken};

use crate::command::{Command, read};
use crate::command_lines::CommandLines;
use crate::command_reader::{CommandReader, NextCommand};
use std::alloc::{AllocError, Global};
use std::marker::Model;

/// What a reader of a script has next.
#[derive(Drop)]
pub enum Next {
    /// What the next command says, or its first refusal of reading.
    Command(Command),
    /// No further command is whole, and the end is not marked.
    Wanting,
    /// The end is marked, and all commands were given.
    End,
}

/// The commands of a script whose bytes are pushed piece by piece.
///
/// Where `next` is called up to `Wanting` after each `push`, nothing is kept but the lines of a
/// command whose block is open and the front of a line that is not whole; pieces pushed without it
/// are kept until then.
pub struct ScriptReader {
    alloc: Global,
    reader: CommandReader,
    // The lines of the next command, where they were taken and memory ran out when they were read.
    waiting: Option<CommandLines>,
}

impl Drop for ScriptReader {
    fn drop(self) {
        let ScriptReader {
            alloc: _,
            reader,
            waiting,
        } = self;
        drop(reader);
        drop(waiting);
    }
}

impl Model for ScriptReader {
    ghost Value = { ScriptState };

    ghost view = { λ r. record { reader = r.reader; waiting = r.waiting } };
}

impl ScriptReader {
    /// A reader that was pushed nothing, for lines of at most `limit` bytes.
    pub fn new(alloc: Global, limit: usize) -> ScriptReader
        requires { limit < 2 ^ 62 }
        ensures follows { FollowsScript result [] 0 }
        ensures limit { limit_of result ≡ limit }
        ensures open { is_finished result ≡ false }
    {
        ScriptReader {
            alloc,
            reader: CommandReader::new(alloc, limit),
            waiting: None,
        }
    }

    /// Takes the next piece. Where memory runs out, the reader is as before.
    pub fn push(&mut self, piece: &[u8]) -> Result<(), AllocError>
        requires { is_finished self.old ≡ false }
        ensures ok { OnOk result ((pushed : List ℕ) (count : ℕ)
            → FollowsScript self.old pushed count
            → FollowsScript self.new (pushed ++ piece.now) count) }
        ensures err { OnErr result (self.new ≡ self.old) }
        ensures limit { limit_of self.new ≡ limit_of self.old }
        ensures open { is_finished self.new ≡ false }
    {
        self.reader.push(piece)
    }

    /// Marks the end.
    pub fn finish(&mut self)
        ensures follows { (pushed : List ℕ) (count : ℕ) → FollowsScript self.old pushed count
            → FollowsScript self.new pushed count }
        ensures limit { limit_of self.new ≡ limit_of self.old }
        ensures closed { is_finished self.new ≡ true }
    {
        self.reader.finish();
    }

    /// The next command of the bytes that were pushed: of those that are whole, and of all of them
    /// once the end is marked. Where memory runs out no command is lost: a later call gives it.
    pub fn next(&mut self) -> Result<Next, AllocError>
        ensures next { IfOk result (λ next. (pushed : List ℕ) (count : ℕ)
            → FollowsScript self.old pushed count
            → IsNextCommand self.old self.new pushed count next) }
        ensures proper { IfOk result GivesProper }
        ensures err { OnErr result ((pushed : List ℕ) (count : ℕ)
            → FollowsScript self.old pushed count → FollowsScript self.new pushed count) }
        ensures falls { IfOk result (λ next. ScriptFalls self.old self.new next) }
        ensures little { IfOk result (λ next. KeepsLittle self.new next) }
        ensures limit { limit_of self.new ≡ limit_of self.old }
        ensures finished { is_finished self.new ≡ is_finished self.old }
    {
        next_read(self.alloc, &mut self.reader, &mut self.waiting)
    }
}

/// The next command, read.
fn next_read(
    alloc: Global,
    reader: &mut CommandReader,
    waiting: &mut Option<CommandLines>,
) -> Result<Next, AllocError>
    ensures next { IfOk result (λ next. (pushed : List ℕ) (count : ℕ)
        → FollowsScript (record { reader = reader.old; waiting = waiting.old }) pushed count →
        IsNextCommand (record { reader = reader.old; waiting = waiting.old })
        (record { reader = reader.new; waiting = waiting.new }) pushed count next) }
    ensures err { OnErr result ((pushed : List ℕ) (count : ℕ)
        → FollowsScript (record { reader = reader.old; waiting = waiting.old }) pushed count →
        FollowsScript (record { reader = reader.new; waiting = waiting.new }) pushed count) }
    ensures proper { IfOk result GivesProper }
    ensures little { IfOk result (λ next. KeepsLittle
        (record { reader = reader.new; waiting = waiting.new }) next) }
    ensures falls { IfOk result (λ next. ScriptFalls
        (record { reader = reader.old; waiting = waiting.old })
        (record { reader = reader.new; waiting = waiting.new }) next) }
    ensures limit { reader.new.lines.limit ≡ reader.old.lines.limit }
    ensures finished { reader.new.lines.finished ≡ reader.old.lines.finished }
{
    match next_lines(reader, waiting)? {
        NextCommand::Lines(lines) => read_or_wait(alloc, lines, waiting),
        NextCommand::Wanting => Ok(Next::Wanting),
        NextCommand::End => Ok(Next::End),
    }
}

/// The lines of the next command: those that wait, where there are some.
fn next_lines(
    reader: &mut CommandReader,
    waiting: &mut Option<CommandLines>,
) -> Result<NextCommand, AllocError>
    ensures next { IfOk result (λ next. (pushed : List ℕ) (count : ℕ)
        → FollowsWith reader.old waiting.old pushed count
        → IsNext reader.old reader.new pushed count next) }
    ensures err { OnErr result ((pushed : List ℕ) (count : ℕ)
        → FollowsWith reader.old waiting.old pushed count → Follows reader.new pushed count) }
    ensures falls { IfOk result (λ next. LinesTaken reader.old waiting.old reader.new next) }
    ensures little { IfOk result (λ next. LeavesLittle reader.new next) }
    ensures none { waiting.new ≡ None }
    ensures limit { reader.new.lines.limit ≡ reader.old.lines.limit }
    ensures finished { reader.new.lines.finished ≡ reader.old.lines.finished }
{
    match waiting.take() {
        Some(lines) => Ok(NextCommand::Lines(lines)),
        None => reader.next(),
    }
}

/// The command that the lines say. They wait where memory runs out.
fn read_or_wait(
    alloc: Global,
    lines: CommandLines,
    waiting: &mut Option<CommandLines>,
) -> Result<Next, AllocError>
    ensures read { IfOk result (λ next. next ≡ Next.Command (read lines)) }
    ensures proper { IfOk result GivesProper }
    ensures stays { OnOk result (waiting.new ≡ waiting.old) }
    ensures waits { OnErr result (waiting.new ≡ Some lines) }
{
    match read(alloc, &lines) {
        Ok(command) => Ok(Next::Command(command)),
        Err(AllocError) => {
            *waiting = Some(lines);
            Err(AllocError)
        }
    }
}
