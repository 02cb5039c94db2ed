//! How far the lines of one element go, where they are canonical as they stand.
ghost use Rattle.std.specs.Prelude.{◌≡◌, ◌+◌, ◌<◌, ◌≤◌, ◌∷◌, List, ℕ, IfOk, IfSome, None, length};
ghost use Rattle.std.specs.List.{list_all, prefix_len};
ghost use Rattle.std.specs.Option.{option_copied};
ghost use Rattle.ncq_base.specs.Escapes.{is_plain};
ghost use Rattle.ncq_tree.specs.Normal.{is_before, is_trim};
ghost use Rattle.ncq_pyx.specs.LineKinds.{is_no_blank};
ghost use Rattle.ncq_flat.specs.Checked.{IsParted, Place as a_place, Takes, place_of};
ghost use Rattle.ncq_flat.specs.Checked.{are_checked, is_checked, open_names};
ghost use Rattle.ncq_flat.specs.Checked.Place.{Tag};
ghost use Rattle.ncq_flat.specs.Items.{LeadsWhere};

use ncq_base::{first_line, is_pyx_name, is_space};
use std::alloc::{AllocError, Global};

/// The room that is taken at first for the names of the open elements: most are nested no deeper.
const FEW_NAMES: usize = 8;

fn is_trim(text: &[u8]) -> bool
    ensures { result ≡ is_trim text.now }
{
    !text.is_empty() && !is_space(text[0]) && !is_space(text[text.len() - 1])
}

fn is_plain(byte: u8) -> bool
    ensures { result ≡ is_plain byte }
{
    !(byte == b'\n') && !(byte == b'\t') && !(byte == b'\r') && !(byte == b'\\')
}

fn are_plain(text: &[u8]) -> bool
    ensures { result ≡ list_all is_plain text.now }
{
    text.iter().all(|b| is_plain(*b))
}

/// What stands in front of a line in the innermost open element.
#[derive(Clone, Copy)]
pub(crate) enum Place<'a> {
    /// Its opening line and attributes, the last of this name, if there is one.
    Tag(Option<&'a [u8]>),
    /// A child.
    Child,
    /// A text.
    Text,
}

/// Takes a line, by its first byte and what is behind it, where elements of these names are open,
/// and that stands in front: none where it is not canonical there, else what stands in front then.
fn take_line<'a>(
    names: &mut Vec<&'a [u8]>,
    place: Place<'a>,
    mark: u8,
    word: &'a [u8],
) -> Result<Option<Place<'a>>, AllocError>
    requires { 0 < length names.old.items }
    ensures { IfOk result (λ next. IfSome next (λ behind.
        Takes (open_names names.old.items) (place_of place.entry) (mark ∷ word.now)
        (open_names names.new.items) (place_of behind))) }
{
    match mark {
        b'(' => take_opening(names, word),
        b')' => Ok(take_closing(names, word)),
        b'-' => Ok(take_text(place, word)),
        b'A' => Ok(take_attribute(place, word)),
        _ => Ok(None),
    }
}

/// Takes the opening line of an element of this name: none where that is no PYX name.
fn take_opening<'a>(
    names: &mut Vec<&'a [u8]>,
    word: &'a [u8],
) -> Result<Option<Place<'a>>, AllocError>
    requires { 0 < length names.old.items }
    ensures { IfOk result (λ next. IfSome next (λ behind. (place : a_place)
        → Takes (open_names names.old.items) place (40 ∷ word.now)
        (open_names names.new.items) (place_of behind))) }
{
    if !is_pyx_name(word) {
        return Ok(None);
    }
    names.push(word)?;
    Ok(Some(Place::Tag(None)))
}

/// Takes the closing line of an element of this name: none where another is the innermost.
fn take_closing<'a>(names: &mut Vec<&'a [u8]>, word: &[u8]) -> Option<Place<'a>>
    requires { 0 < length names.old.items }
    ensures { IfSome result (λ behind. (place : a_place)
        → Takes (open_names names.old.items) place (41 ∷ word.now)
        (open_names names.new.items) (place_of behind)) }
{
    match names.pop() {
        Some(name) if word == name => Some(Place::Child),
        _ => None,
    }
}

/// Takes the line of a text: none behind a text, or where it is not trimmed or has escapes.
fn take_text<'a>(place: Place<'a>, word: &[u8]) -> Option<Place<'a>>
    ensures { IfSome result (λ behind. (names : List (List ℕ)) → 0 < length names
        → Takes names (place_of place.entry) (45 ∷ word.now) names (place_of behind)) }
{
    match place {
        Place::Text => None,
        _ if are_plain(word) && is_trim(word) => Some(Place::Text),
        _ => None,
    }
}

/// Takes the line of an attribute: none behind children and texts, or where its name is no PYX name
/// or does not stand behind the last one, or its value has escapes.
fn take_attribute<'a>(place: Place<'a>, word: &'a [u8]) -> Option<Place<'a>>
    ensures { IfSome result (λ behind. (names : List (List ℕ)) → 0 < length names
        → Takes names (place_of place.entry) (65 ∷ word.now) names (place_of behind)) }
{
    let Place::Tag(last) = place else {
        return None;
    };
    let (name, value) = name_and_value(word)?;
    if is_pyx_name(name) && is_before(last, name) && are_plain(value) {
        return Some(Place::Tag(Some(name)));
    }
    None
}

/// The name and the value of an attribute, parted by the first space.
fn name_and_value(text: &[u8]) -> Option<(&[u8], &[u8])>
    ensures { IfSome result (λ parts. IsParted text.now parts.0.now parts.1.now) }
{
    let end = name_len(text);
    if end == text.len() {
        return None;
    }
    Some((&text[..end], &text[end + 1..]))
}

/// How many bytes stand in front of the first space.
fn name_len(text: &[u8]) -> usize
    ensures value { result ≡ prefix_len is_no_blank text.now }
    ensures within { result ≤ length text.now }
{
    text.iter().take_while(|b| **b != b' ').count()
}

/// Whether the last name, if there is one, stands before this one.
fn is_before(last: Option<&[u8]>, name: &[u8]) -> bool
    ensures { result ≡ is_before (option_copied last.entry) name.now }
{
    match last {
        Some(last) => last.cmp(name).is_lt(),
        None => true,
    }
}

/// How many lines in front of the text are the canonical lines of one proper element, as they
/// stand, and what is behind them: none where another line comes first, or one with escapes. The
/// only error is want of memory.
pub(crate) fn canonical_front<'a>(
    alloc: Global,
    text: &'a [u8],
) -> Result<Option<(usize, &'a [u8])>, AllocError>
    ensures checked { IfOk result (λ found. IfSome found (λ f.
        LeadsWhere is_checked text.now f.1.now f.0)) }
    ensures bound { IfOk result (λ found. IfSome found (λ f.
        f.0 + length f.1.now ≤ length text.now)) }
    ensures fewer { IfOk result (λ found. IfSome found (λ f. length f.1.now < length text.now)) }
{
    let Some((line, more)) = first_line(text) else {
        return Ok(None);
    };
    let Some((mark, word)) = line.split_first() else {
        return Ok(None);
    };
    if *mark != b'(' || !is_pyx_name(word) {
        return Ok(None);
    }
    let mut names = Vec::with_capacity(alloc, FEW_NAMES)?;
    names.push(word)?;
    match closed_front(names, more)? {
        Some((count, rest)) => Ok(Some((count + 1, rest))),
        None => Ok(None),
    }
}

/// How many lines in front of the text close all elements of these names, the last first, each
/// canonical, and what is behind them.
fn closed_front<'a>(
    names: Vec<&'a [u8]>,
    text: &'a [u8],
) -> Result<Option<(usize, &'a [u8])>, AllocError>
    ensures checked { IfOk result (λ found. IfSome found (λ f.
        LeadsWhere (are_checked (open_names names.entry.items) (Tag None)) text.now f.1.now f.0)) }
    ensures bound { IfOk result (λ found. IfSome found (λ f.
        f.0 + length f.1.now ≤ length text.now)) }
{
    let mut names = names;
    let mut rest = text;
    let mut count = 0usize;
    let mut place = Place::Tag(None);
    while !names.is_empty() {
        let Some((line, more)) = first_line(rest) else {
            return Ok(None);
        };
        let Some((mark, word)) = line.split_first() else {
            return Ok(None);
        };
        match take_line(&mut names, place, *mark, word)? {
            Some(behind) => place = behind,
            None => return Ok(None),
        }
        count += 1;
        rest = more;
    }
    Ok(Some((count, rest)))
}
