//! What the lines of a command say by their form.
ghost use Rattle.std.specs.Prelude.{◌≡◌, None, Some, IfOk, MatchOption};
ghost use Rattle.std.specs.List.{list_all};
ghost use Rattle.ncq_script.specs.Words.{words};
ghost use Rattle.ncq_script.specs.Forms.{is_source_byte, is_source_name, one_argument, source_form};
ghost use Rattle.ncq_script.specs.Forms.{statement_text};

use crate::command_lines::CommandLines;
use crate::word::{next_word, same_word};
use ncq_base::is_pyx_name;
use std::alloc::{AllocError, Global};

/// Whether a source may be called so: 1 to 255 bytes, none of them a quotation mark, backslash,
/// comma or parenthesis.
pub(crate) fn is_source_name(text: &[u8]) -> bool
    ensures { result ≡ is_source_name text.now }
{
    !text.is_empty() && text.len() <= 255 && are_source_bytes(text)
}

fn are_source_bytes(text: &[u8]) -> bool
    ensures { result ≡ list_all is_source_byte text.now }
{
    text.iter().all(|b| is_source_byte(*b))
}

fn is_source_byte(b: u8) -> bool
    ensures { result ≡ is_source_byte b }
{
    !(b == b'"' || b == b'\\' || b == b',' || b == b'(' || b == b')')
}

/// The one word behind the first, as in `delta <word>`; none where there are fewer words or more.
pub(crate) fn one_argument(head: &[u8]) -> Option<&[u8]>
    ensures { MatchOption result (one_argument (words head.now) ≡ None)
        (λ word. one_argument (words head.now) ≡ Some word.now) }
{
    let (_, rest) = next_word(head)?;
    let (word, rest) = next_word(rest)?;
    if next_word(rest).is_some() {
        return None;
    }
    Some(word)
}

/// What a line `source <name> root <root> key <rule>` says.
#[derive(Clone, Copy)]
pub(crate) struct SourceForm<'a> {
    /// What the source is called.
    pub name: &'a [u8],
    /// The tag of its root.
    pub root: &'a [u8],
    /// Where the keys of its elements stand, as it is written.
    pub rule: &'a [u8],
}

/// What a line `source <name> root <root> key <rule>` says; none where it has another form.
/// It has exactly six words, `root` and `key` in any case of letters; the name is one of a source,
/// and the root a name of elements. The rule is any word.
pub(crate) fn source_form(head: &[u8]) -> Option<SourceForm<'_>>
    ensures { MatchOption result (source_form (words head.now) ≡ None)
        (λ form. source_form (words head.now)
        ≡ Some (record { name = form.name.now; root = form.root.now; rule = form.rule.now })) }
{
    let (_, rest) = next_word(head)?;
    let (name, rest) = next_word(rest)?;
    let (root_word, rest) = next_word(rest)?;
    let (root, rest) = next_word(rest)?;
    let (key_word, rest) = next_word(rest)?;
    let (rule, behind) = next_word(rest)?;
    if next_word(behind).is_some() {
        return None;
    }
    if same_word(root_word, b"root")
        && same_word(key_word, b"key")
        && is_source_name(name)
        && is_pyx_name(root)
    {
        Some(SourceForm { name, root, rule })
    } else {
        None
    }
}

/// The text of a statement: its first line and the lines of its block, joined by line feeds.
pub(crate) fn statement_text(alloc: Global, command: &CommandLines) -> Result<Vec<u8>, AllocError>
    ensures { IfOk result (λ text. text.items ≡ statement_text command.now) }
{
    let mut text = Vec::from_slice(alloc, command.head.as_slice())?;
    text.push(b'\n')?;
    text.extend_from_slice(command.block.text())?;
    text.pop();
    Ok(text)
}
