//! The texts of paths.
ghost use Rattle.std.specs.Prelude.{◌≡◌, ◌++◌, [], ◌∷◌, length, take, map, OnOk, OnErr, not, ◌&&◌};
ghost use Rattle.std.specs.List.{join_with_byte};
ghost use Rattle.ncq_path.specs.Kinds.{is_alt, is_tag};
ghost use Rattle.ncq_path.specs.Texts.{path_text, item_text, bracketed};

use crate::kind::{is_alt, is_tag};
use crate::path::Path;
use std::alloc::AllocError;

/// Appends the text of the path: names as they are, a sequence joined by `.`, an alternative by
/// `|`, a star and a plus behind their item; an alternative in a sequence, and every item of a star
/// or plus but a name, in round brackets. After want of memory `out` is as before.
pub fn write_path(path: &Path, out: &mut Vec<u8>) -> Result<(), AllocError>
    ensures ok { OnOk result (out.new.items ≡ out.old.items ++ path_text path.now) }
    ensures err { OnErr result (out.new.items ≡ out.old.items) }
{
    let before = out.len();
    let written = push_path(path, out);
    if written.is_err() {
        out.truncate(before);
    }
    written
}

/// Appends the text of the path; what was there stays in front.
#[cycle(text)]
#[tactic(auto, using(crate::proofs::TextCases::texts_are))]
fn push_path(path: &Path, out: &mut Vec<u8>) -> Result<(), AllocError>
    ensures ok { OnOk result (out.new.items ≡ out.old.items ++ path_text path.now) }
    ensures front { take (length out.old.items) out.new.items ≡ out.old.items }
{
    match path {
        Path::Tag(name) => out.extend_from_slice(name.as_slice()),
        Path::Seq(items) => push_joined(items.as_slice(), b'.', true, out),
        Path::Alt(items) => push_joined(items.as_slice(), b'|', false, out),
        Path::Star(item) => push_repeated(item.get(), b'*', out),
        Path::Plus(item) => push_repeated(item.get(), b'+', out),
    }
}

/// Appends the texts of the paths with the mark between each two, alternatives in round brackets
/// where these are wanted; what was there stays in front.
#[cycle(text)]
fn push_joined(
    items: &[Path],
    mark: u8,
    brackets: bool,
    out: &mut Vec<u8>,
) -> Result<(), AllocError>
    ensures ok { OnOk result (out.new.items
        ≡ out.old.items ++ join_with_byte mark (map (item_text brackets) items.now)) }
    ensures front { take (length out.old.items) out.new.items ≡ out.old.items }
{
    if items.is_empty() {
        return Ok(());
    }
    push_item(brackets, &items[0], out)?;
    for i in 1..items.len() {
        push_marked(mark, brackets, &items[i], out)?;
    }
    Ok(())
}

/// Appends the text of the path, in round brackets where these are wanted and it is an alternative;
/// what was there stays in front.
#[cycle(text)]
fn push_item(brackets: bool, path: &Path, out: &mut Vec<u8>) -> Result<(), AllocError>
    ensures ok { OnOk result (out.new.items ≡ out.old.items ++ item_text brackets path.now) }
    ensures front { take (length out.old.items) out.new.items ≡ out.old.items }
{
    let needed = are_needed(brackets, path);
    push_bracketed(needed, path, out)
}

/// Appends the mark and then the same; what was there stays in front.
#[cycle(text)]
fn push_marked(mark: u8, brackets: bool, path: &Path, out: &mut Vec<u8>) -> Result<(), AllocError>
    ensures ok { OnOk result (out.new.items ≡ out.old.items ++ mark ∷ item_text brackets path.now) }
    ensures front { take (length out.old.items) out.new.items ≡ out.old.items }
{
    out.push(mark)?;
    push_item(brackets, path, out)
}

/// Appends the item of a star or plus, and the mark; what was there stays in front.
#[cycle(text)]
fn push_repeated(item: &Path, mark: u8, out: &mut Vec<u8>) -> Result<(), AllocError>
    ensures ok { OnOk result (out.new.items ≡ out.old.items
        ++ (bracketed (not (is_tag item.now)) (path_text item.now) ++ mark ∷ [])) }
    ensures front { take (length out.old.items) out.new.items ≡ out.old.items }
{
    push_bracketed(!is_tag(item), item, out)?;
    out.push(mark)?;
    Ok(())
}

/// Appends the text of the path, in round brackets where they are needed; what was there stays in
/// front.
#[cycle(text)]
fn push_bracketed(needed: bool, path: &Path, out: &mut Vec<u8>) -> Result<(), AllocError>
    ensures ok { OnOk result (out.new.items
        ≡ out.old.items ++ bracketed needed (path_text path.now)) }
    ensures front { take (length out.old.items) out.new.items ≡ out.old.items }
{
    if !needed {
        return push_path(path, out);
    }
    out.push(b'(')?;
    push_path(path, out)?;
    out.push(b')')?;
    Ok(())
}

/// Whether the path stands in round brackets where these are wanted.
fn are_needed(wanted: bool, path: &Path) -> bool
    ensures { result ≡ (wanted && is_alt path.now) }
{
    wanted && is_alt(path)
}
