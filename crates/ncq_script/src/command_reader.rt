//! The commands of a script that comes in pieces.
ghost use Rattle.std.specs.Prelude.{◌≡◌, ◌<◌, ◌^◌, ◌++◌, ℕ, List, [], true, false, IfOk, OnOk};
ghost use Rattle.std.specs.Prelude.{OnErr};
ghost use Rattle.ncq_script.specs.OpenCommands.{opened};
ghost use Rattle.ncq_script.specs.Reading.{CommandState, Follows};
ghost use Rattle.ncq_script.specs.NextOfCommands.{IsNext, Falls, LeavesLittle};

use crate::command_lines::{CommandLines, OpenCommand, give_open, take_line};
use crate::line::{Found, LineReader};
use std::alloc::{AllocError, Global};
use std::marker::Model;

/// What a reader of commands has next.
#[derive(Drop)]
pub(crate) enum NextCommand {
    /// The lines of the next command.
    Lines(CommandLines),
    /// No further command is whole, and the end is not marked.
    Wanting,
    /// The end is marked, and all commands were given.
    End,
}

/// The commands of bytes that are pushed piece by piece.
///
/// Where `next` is called up to `Wanting` after each `push`, nothing is kept but the lines of a
/// command whose block is open and the front of a line that is not whole; pieces pushed without it
/// are kept until then.
pub(crate) struct CommandReader {
    alloc: Global,
    lines: LineReader,
    current: Option<OpenCommand>,
}

impl Drop for CommandReader {
    fn drop(self) {
        let CommandReader {
            alloc: _,
            lines,
            current,
        } = self;
        drop(lines);
        drop(current);
    }
}

impl Model for CommandReader {
    ghost Value = { CommandState };

    ghost view = { λ r. record { lines = r.lines; current = opened r.current } };
}

impl CommandReader {
    /// A reader that was pushed nothing, for lines of at most `limit` bytes.
    pub fn new(alloc: Global, limit: usize) -> CommandReader
        requires { limit < 2 ^ 62 }
        ensures follows { Follows result [] 0 }
        ensures limit { result.lines.limit ≡ limit }
        ensures open { result.lines.finished ≡ false }
    {
        CommandReader {
            alloc,
            lines: LineReader::new(alloc, limit),
            current: None,
        }
    }

    /// Takes the next piece. Where memory runs out, the reader is as before.
    pub fn push(&mut self, piece: &[u8]) -> Result<(), AllocError>
        requires { self.old.lines.finished ≡ false }
        ensures ok { OnOk result ((pushed : List ℕ) (count : ℕ) → Follows self.old pushed count
            → Follows self.new (pushed ++ piece.now) count) }
        ensures err { OnErr result (self.new ≡ self.old) }
        ensures limit { self.new.lines.limit ≡ self.old.lines.limit }
        ensures open { self.new.lines.finished ≡ false }
    {
        self.lines.push(piece)
    }

    /// Marks the end.
    pub fn finish(&mut self)
        ensures follows { (pushed : List ℕ) (count : ℕ) → Follows self.old pushed count
            → Follows self.new pushed count }
        ensures limit { self.new.lines.limit ≡ self.old.lines.limit }
        ensures closed { self.new.lines.finished ≡ true }
    {
        self.lines.finish();
    }

    /// The next command of the bytes that were pushed. Where memory runs out no command is lost: a
    /// later call gives it.
    pub fn next(&mut self) -> Result<NextCommand, AllocError>
        ensures next { IfOk result (λ next. (pushed : List ℕ) (count : ℕ)
            → Follows self.old pushed count → IsNext self.old self.new pushed count next) }
        ensures err { OnErr result ((pushed : List ℕ) (count : ℕ) → Follows self.old pushed count
            → Follows self.new pushed count) }
        ensures falls { IfOk result (λ next. Falls self.old self.new next) }
        ensures little { IfOk result (λ next. LeavesLittle self.new next) }
        ensures limit { self.new.lines.limit ≡ self.old.lines.limit }
        ensures finished { self.new.lines.finished ≡ self.old.lines.finished }
    {
        next_command(self.alloc, &mut self.lines, &mut self.current)
    }
}

// The next command of the lines.
fn next_command(
    alloc: Global,
    lines: &mut LineReader,
    current: &mut Option<OpenCommand>,
) -> Result<NextCommand, AllocError>
    ensures next { IfOk result (λ next. (pushed : List ℕ) (count : ℕ)
        → Follows (record { lines = lines.old; current = opened current.old }) pushed count →
        IsNext (record { lines = lines.old; current = opened current.old })
        (record { lines = lines.new; current = opened current.new }) pushed count next) }
    ensures err { OnErr result ((pushed : List ℕ) (count : ℕ)
        → Follows (record { lines = lines.old; current = opened current.old }) pushed count →
        Follows (record { lines = lines.new; current = opened current.new }) pushed count) }
    ensures falls { IfOk result (λ next. Falls
        (record { lines = lines.old; current = opened current.old })
        (record { lines = lines.new; current = opened current.new }) next) }
    ensures little { IfOk result (λ next. LeavesLittle
        (record { lines = lines.new; current = opened current.new }) next) }
    ensures limit { lines.new.limit ≡ lines.old.limit }
    ensures finished { lines.new.finished ≡ lines.old.finished }
{
    'lines: loop {
        match lines.find()? {
            Found::Line(len) => {
                let (bytes, long) = lines.line(len);
                let command = take_line(alloc, current, bytes, long)?;
                lines.pass(len);
                match command {
                    Some(command) => return Ok(NextCommand::Lines(command)),
                    None => {}
                }
            }
            Found::Wanting => return Ok(NextCommand::Wanting),
            Found::End => match give_open(current, false) {
                Some(command) => return Ok(NextCommand::Lines(command)),
                None => return Ok(NextCommand::End),
            },
        }
    }
}
