//! The lines of a script, cut into commands with their blocks.
ghost use Rattle.std.specs.Prelude.{◌≡◌, ◌++◌, ◌∷◌, List, None, Some, true, IfOk, OnOk, OnErr};
ghost use Rattle.std.specs.Prelude.{IfSome, option_map};
ghost use Rattle.std.specs.Option.{option_to_list};
ghost use Rattle.ncq_base.specs.Lines.{IsClean};
ghost use Rattle.ncq_script.specs.Lines.{LineText};
ghost use Rattle.ncq_script.specs.Commands.{is_end, opens_block};
ghost use Rattle.ncq_script.specs.OpenCommands.{Ends, commands_behind, ended, joined, opened};

use crate::word::{Keyword, begins};
use ncq_base::{Bytes, Lines, bytes_of};
use std::alloc::{AllocError, Global};

/// The lines of a command: the one that begins it, and those of its block.
pub(crate) struct CommandLines {
    /// What the command is called.
    pub keyword: Keyword,
    /// The line that begins it.
    pub head: Bytes,
    /// The lines of its block, without the `.` that ends it.
    pub block: Lines,
    /// Whether one of its lines was longer than the limit.
    pub long: bool,
    /// Whether its block has an end. True of a command without a block.
    pub closed: bool,
}

impl Drop for CommandLines {
    fn drop(self) {
        let CommandLines {
            keyword: _,
            head,
            block,
            long: _,
            closed: _,
        } = self;
        drop(head);
        drop(block);
    }
}

// A command whose block is open.
#[derive(Drop)]
pub(crate) struct OpenCommand {
    keyword: Keyword,
    head: Bytes,
    block: Lines,
    long: bool,
}

// Whether the line ends a block.
fn is_end(bytes: &[u8], long: bool) -> bool
    ensures { result ≡ is_end (record { bytes = bytes.now; long = long }) }
{
    matches!(bytes, [b'.']) && !long
}

// Takes a line, and gives the command that it ends. Where memory runs out nothing was taken.
pub(crate) fn take_line(
    alloc: Global,
    current: &mut Option<OpenCommand>,
    bytes: &[u8],
    long: bool,
) -> Result<Option<CommandLines>, AllocError>
    requires { IsClean bytes.now }
    ensures ends { IfOk result (λ command. Ends (opened current.old)
        (record { bytes = bytes.now; long = long }) command (opened current.new)) }
    ensures err { OnErr result (opened current.new ≡ opened current.old) }
{
    if current.is_none() {
        return begin_command(alloc, current, bytes, long);
    }
    if is_end(bytes, long) {
        return Ok(give_open(current, true));
    }
    join_line(current, bytes, long)?;
    Ok(None)
}

// Takes a line outside a block.
fn begin_command(
    alloc: Global,
    current: &mut Option<OpenCommand>,
    bytes: &[u8],
    long: bool,
) -> Result<Option<CommandLines>, AllocError>
    requires { opened current.old ≡ None }
    ensures ends { IfOk result (λ command. Ends None
        (record { bytes = bytes.now; long = long }) command (opened current.new)) }
    ensures err { OnErr result (opened current.new ≡ None) }
{
    let Some(keyword) = begins(bytes) else {
        return Ok(None);
    };
    let head = bytes_of(alloc, bytes)?;
    let block = Lines::new(alloc);
    if !opens_block(keyword) {
        return Ok(Some(CommandLines {
            keyword,
            head,
            block,
            long,
            closed: true,
        }));
    }
    *current = Some(OpenCommand {
        keyword,
        head,
        block,
        long,
    });
    Ok(None)
}

fn opens_block(keyword: Keyword) -> bool
    ensures { result ≡ opens_block keyword }
{
    matches!(keyword, Keyword::Delta | Keyword::Batch | Keyword::Create)
}

// Adds a line to the block that is open.
fn join_line(current: &mut Option<OpenCommand>, bytes: &[u8], long: bool) -> Result<(), AllocError>
    requires { IsClean bytes.now }
    ensures ok { OnOk result (opened current.new
        ≡ option_map (joined (record { bytes = bytes.now; long = long })) (opened current.old)) }
    ensures err { OnErr result (opened current.new ≡ opened current.old) }
{
    if let Some(command) = current {
        command.block.push(bytes)?;
        command.long = command.long || long;
    }
    Ok(())
}

// The command whose block is open, where one is: it ends here, or no line ended it.
pub(crate) fn give_open(current: &mut Option<OpenCommand>, closed: bool) -> Option<CommandLines>
    ensures given { result ≡ option_map (ended closed) (opened current.old) }
    ensures none { opened current.new ≡ None }
{
    let OpenCommand {
        keyword,
        head,
        block,
        long,
    } = current.take()?;
    Some(CommandLines {
        keyword,
        head,
        block,
        long,
        closed,
    })
}
