//! The string value of an element, read from its lines.
ghost use Rattle.std.specs.Prelude.{◌≡◌, ◌++◌, ◌∷◌, [], ◌+◌, ◌<◌, ◌≤◌, ◌^◌, List, ℕ, IfOk, IfSome};
ghost use Rattle.std.specs.Prelude.{OnOk};
ghost use Rattle.std.specs.Prelude.{IsTrue, ◌↔◌};
ghost use Rattle.ncq_base.specs.Escapes.{unescaped};
ghost use Rattle.ncq_base.specs.Lines.{lines_in};
ghost use Rattle.ncq_tree.specs.declared.model.Element.{Element};
ghost use Rattle.ncq_tree.specs.declared.model.Node.TheVariants.{Text as text_node};
ghost use Rattle.ncq_tree.specs.Texts.{following, has_text, joined};
ghost use Rattle.ncq_flat.specs.Insides.{inside_of};
ghost use Rattle.ncq_flat.specs.Said.{said_in, string_value_in, texts_in};

use crate::skip::{has_mark, open_behind};
use ncq_base::{Bytes, first_line, unescape};
use std::alloc::{AllocError, Global};

/// The room that is taken at first: most string values are no longer.
const SHORT: usize = 32;

/// The string value of the element inside which the text begins. The only error is want of memory.
pub fn string_value(alloc: Global, text: &[u8]) -> Result<Bytes, AllocError>
    ensures { IfOk result (λ b. b ≡ string_value_in (lines_in text.now)) }
{
    if let Some(escaped) = lone_text(text) {
        return unescape(alloc, escaped);
    }
    let mut out = Vec::with_capacity(alloc, SHORT)?;
    append_texts(alloc, text, &mut out)?;
    Ok(Bytes::from_vec(out))
}

/// What stands behind the first byte of the first line, where that is the only text of the element
/// inside which the text begins. An element has then no attributes, and that text for its children.
pub fn lone_text(text: &[u8]) -> Option<&[u8]>
    ensures value { IfSome result (λ word.
        string_value_in (lines_in text.now) ≡ unescaped word.now) }
    ensures children { (e : Element) (more : List (List ℕ)) → lines_in text.now ≡ inside_of e more
        → IfSome result (λ word. e.children ≡ text_node (unescaped word.now) ∷ []) }
{
    let (line, more) = first_line(text)?;
    let (closing, _) = first_line(more)?;
    let (mark, word) = line.split_first()?;
    let (last, _) = closing.split_first()?;
    if *mark == b'-' && *last == b')' {
        return Some(word);
    }
    None
}

/// Whether the element inside which the text begins has neither attributes nor children.
pub fn is_bare(text: &[u8]) -> bool
    ensures { (e : Element) (more : List (List ℕ)) → lines_in text.now ≡ inside_of e more
        → IsTrue result ↔ ((e.attributes ≡ []) × (e.children ≡ [])) }
{
    match first_line(text) {
        Some((line, _)) => has_mark(b')', line),
        None => false,
    }
}

/// Appends the texts of the element inside which the text begins, joined by one space.
fn append_texts(alloc: Global, text: &[u8], out: &mut Vec<u8>) -> Result<(), AllocError>
    ensures { OnOk result (out.new.items ≡ out.old.items ++ string_value_in (lines_in text.now)) }
{
    let mut rest = text;
    let mut depth = 0usize;
    let mut behind = false;
    while let Some((line, more)) = first_line(rest) {
        behind = append_said(alloc, line, behind, out)?;
        match open_behind(depth, line) {
            Some(next) => depth = next,
            None => return Ok(()),
        }
        rest = more;
    }
    Ok(())
}

/// Appends the text of the line, if it is one, behind other texts or not, and tells whether any
/// text stands there now.
fn append_said(
    alloc: Global,
    line: &[u8],
    behind: bool,
    out: &mut Vec<u8>,
) -> Result<bool, AllocError>
    ensures bytes { IfOk result (λ r. out.new.items ≡ out.old.items
        ++ following behind (said_in line.now)) }
    ensures behind { IfOk result (λ r. r ≡ has_text behind (said_in line.now)) }
{
    match line {
        [b'-', word @ ..] => {
            let said = unescape(alloc, word)?;
            append_text(said.as_slice(), behind, out)?;
            Ok(true)
        }
        _ => Ok(behind),
    }
}

/// Appends the text, with a space in front where it stands behind another.
fn append_text(text: &[u8], behind: bool, out: &mut Vec<u8>) -> Result<(), AllocError>
    ensures { IfOk result (λ _. out.new.items ≡ out.old.items ++ following behind (text.now ∷ [])) }
{
    if behind {
        out.push(b' ')?;
    }
    out.extend_from_slice(text)
}
