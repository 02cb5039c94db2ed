//! Lines that are kept as one text.
ghost use Rattle.std.specs.Prelude.{◌≡◌, ◌++◌, ◌∷◌, ◌↔◌, [], IfOk, IsTrue, OnOk, OnErr};
ghost use Rattle.std.specs.Prelude.{MatchOption};
ghost use Rattle.ncq_base.specs.Lines.{IsClean, ended, lines_in, text_of};

use std::alloc::{AllocError, Global};
use std::marker::Model;

/// The room that is taken at first: most texts are no longer.
const SHORT: usize = 128;

/// Lines over one text in which a line feed ends each, so that a line takes its bytes and one more.
/// Contracts see the list of the lines.
#[derive(Debug, Drop)]
pub struct Lines {
    text: Vec<u8>,
}

impl Model for Lines {
    ghost use Rattle.std.specs.Prelude.{◌≡◌, List, ℕ};
    ghost use Rattle.ncq_base.specs.Lines.{lines_in, text_of};

    ghost Value = { List (List ℕ) };

    ghost view = { λ l. lines_in l.text.items };

    ghost invariant = { λ l. l.text.items ≡ text_of (lines_in l.text.items) };
}

impl Lines {
    /// No lines.
    pub fn new(alloc: Global) -> Lines
        ensures { result ≡ [] }
    {
        Lines {
            text: Vec::new(alloc),
        }
    }

    /// One line more, which has no line feed.
    pub fn push(&mut self, line: &[u8]) -> Result<(), AllocError>
        requires { IsClean line.now }
        ensures ok { OnOk result (self.new ≡ self.old ++ line.now ∷ []) }
        ensures err { OnErr result (self.new ≡ self.old) }
    {
        append_ended(&mut self.text, line)
    }

    /// The lines, each ended by a line feed.
    pub fn text(&self) -> &[u8]
        ensures bytes { result.now ≡ text_of self.now }
        ensures lines { lines_in result.now ≡ self.now }
    {
        self.text.as_slice()
    }
}

// Appends the line and a line feed. After want of memory `text` is as before.
fn append_ended(text: &mut Vec<u8>, line: &[u8]) -> Result<(), AllocError>
    ensures ok { OnOk result (text.new.items ≡ text.old.items ++ ended line.now) }
    ensures err { OnErr result (text.new.items ≡ text.old.items) }
{
    if text.is_empty() {
        text.reserve(SHORT)?;
    }
    let before = text.len();
    text.extend_from_slice(line)?;
    if text.push(b'\n').is_err() {
        text.truncate(before);
        return Err(AllocError);
    }
    Ok(())
}

/// Whether the text has no line feed.
pub fn is_line(text: &[u8]) -> bool
    ensures { IsTrue result ↔ IsClean text.now }
{
    text.iter().all(|b| *b != b'\n')
}

/// What stands before the first line feed of a text, and what stands behind it.
pub fn first_line(text: &[u8]) -> Option<(&[u8], &[u8])>
    ensures { MatchOption result (IsClean text.now)
        (λ parts. IsClean parts.0.now × (text.now ≡ parts.0.now ++ 10 ∷ parts.1.now)) }
{
    let end = text.iter().position(|b| *b == b'\n')?;
    Some((&text[..end], &text[end + 1..]))
}
