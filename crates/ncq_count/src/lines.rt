//! The lines of groups.
ghost use Rattle.std.specs.Prelude.{◌≡◌, List, map, IfOk, if◌then◌else◌};
ghost use Rattle.ncq_signature.specs.declared.signature.Signature.{Signature as a_signature};
ghost use Rattle.ncq_signature.specs.SignatureTexts.{signature_text};
ghost use Rattle.ncq_signature.specs.Groups.{AreSignaturesOf, line_of};
ghost use Rattle.ncq_shelf.specs.KeptFiles.{AtFile};
ghost use Rattle.ncq_shelf.specs.Stands.{IsGrounded, IsThere};
ghost use Rattle.ncq_count.specs.Counted.{AreCounted};
ghost use Rattle.ncq_count.specs.FileExprs.{exprs_of};
ghost use Rattle.ncq_count.specs.Keys.{file_of, selects, told_by};

use crate::key::GroupKey;
use indexmap::IndexMap;
use ncq_base::{Bytes, Copied};
use ncq_shelf::Shelf;
use ncq_signature::{GroupLine, Signature, signature_of, write_signature};
use std::alloc::{AllocError, Global};

/// The lines of the groups, in no order that counts.
pub(crate) fn lines_of(
    alloc: Global,
    shelf: &Shelf,
    counts: &IndexMap<GroupKey, u64>,
) -> Result<Vec<GroupLine>, AllocError>
    requires grounded { IsGrounded shelf.now }
    requires counted { AreCounted shelf.now counts.now.entries }
    ensures { IfOk result (λ lines. (signatures : List a_signature)
        × AreSignaturesOf (exprs_of shelf.now) signatures
        × (lines.items ≡ map (line_of (exprs_of shelf.now)) signatures)) }
{
    let mut lines = Vec::new(alloc);
    for (key, count) in counts {
        lines.push(line(alloc, shelf, *key, *count)?)?;
    }
    Ok(lines)
}

/// The line of a group.
fn line(alloc: Global, shelf: &Shelf, key: GroupKey, count: u64) -> Result<GroupLine, AllocError>
    requires { IsThere shelf.now (file_of key) }
    ensures { IfOk result (λ line. AtFile shelf.now (file_of key) (λ file. line ≡ record {
      text = signature_text (told_by key file.expr);
      constants = if selects key then count else 0;
    })) }
{
    Ok(GroupLine {
        text: text(alloc, shelf, key)?,
        constants: constants(key, count),
    })
}

/// The text of the signature of a group.
fn text(alloc: Global, shelf: &Shelf, key: GroupKey) -> Result<Bytes, AllocError>
    requires { IsThere shelf.now (file_of key) }
    ensures { IfOk result (λ text. AtFile shelf.now (file_of key) (λ file.
        text ≡ signature_text (told_by key file.expr))) }
{
    let signature = signature(alloc, shelf, key)?;
    let text = text_of(alloc, &signature);
    let_go(signature);
    text
}

/// The text of a signature.
fn text_of(alloc: Global, signature: &Signature) -> Result<Bytes, AllocError>
    ensures { IfOk result (λ text. text ≡ signature_text signature.now) }
{
    let mut text = Vec::new(alloc);
    write_signature(signature, &mut text)?;
    Ok(Bytes::from_vec(text))
}

/// A signature is let go in a function of its own, so that what lets go of one is proved once.
fn let_go(_signature: Signature) {}

/// The signature of a group.
fn signature(alloc: Global, shelf: &Shelf, key: GroupKey) -> Result<Signature, AllocError>
    requires { IsThere shelf.now (file_of key) }
    ensures { IfOk result (λ signature. AtFile shelf.now (file_of key) (λ file.
        signature ≡ told_by key file.expr)) }
{
    match key {
        GroupKey::Alone { file } => signature_of(alloc, shelf.expr(file)),
        GroupKey::Equals { input, slot } => Ok(Signature::EqOn {
            input: shelf.expr(input).copy(alloc)?,
            slot,
        }),
        GroupKey::Ranges { input, slot } => Ok(Signature::RangeOn {
            input: shelf.expr(input).copy(alloc)?,
            slot,
        }),
    }
}

/// How many constants a group of so many files has.
fn constants(key: GroupKey, count: u64) -> u64
    ensures { result ≡ (if selects key then count else 0) }
{
    match key {
        GroupKey::Alone { .. } => 0,
        GroupKey::Equals { .. } | GroupKey::Ranges { .. } => count,
    }
}
