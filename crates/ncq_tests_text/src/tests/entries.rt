//! What the entries and the portions of a change are, and its sections.

use super::declared::sources;
use super::{Pair, expect, sections_of};
use ncq_base::{Bytes, Shared, bytes_of};
use ncq_flat::Written;
use ncq_source::{Change, Entry, Portion, Sections, SourceId};
use std::alloc::{AllocError, Global};
use std::hash::RandomState;
use std::process::Abort;
use std::test::Fail;

/// Three items of one key, and the string values that it has before and after each; a bar where it
/// holds nothing.
const SEEN: (&str, &[Pair]) = (
    "(Q/(Symbol/-A/)Symbol/)Q/(Q/(Symbol/-A/)Symbol/-2/)Q/!A",
    &[("|", "A"), ("A", "A 2"), ("A 2", "|")],
);

/// The string value of an element, or a bar where there is none.
fn value_of(alloc: Global, element: Option<&Shared<Written>>) -> Result<Bytes, AllocError> {
    match element {
        Some(element) => element.get().string_value(alloc),
        None => bytes_of(alloc, b"|"),
    }
}

/// Whether this is the string value of an element, or a bar where there is none.
fn has_value(
    alloc: Global,
    element: Option<&Shared<Written>>,
    want: &str,
) -> Result<bool, AllocError> {
    let value = value_of(alloc, element)?;
    Ok(value.as_slice() == want.as_bytes())
}

/// Compares the elements that the entry has of its key, before and after its item.
fn expect_entry(
    rt: &impl Abort,
    alloc: Global,
    entry: &Entry,
    before: &str,
    after: &str,
) -> Result<(), AllocError> {
    expect(rt, has_value(alloc, entry.before.as_ref(), before)?, after);
    expect(rt, has_value(alloc, entry.after.as_ref(), after)?, before);
    Ok(())
}

/// Compares the elements that each entry has of its key, before and after its item.
fn expect_entries(
    rt: &impl Abort,
    alloc: Global,
    entries: &[Entry],
    wanted: &[Pair],
) -> Result<(), AllocError> {
    assert!(rt; entries.len() == wanted.len());
    for (entry, (before, after)) in entries.iter().zip(wanted) {
        expect_entry(rt, alloc, entry, before, after)?;
    }
    Ok(())
}

/// The change of the sections.
fn change_of(alloc: Global, seed: RandomState, sections: &[Pair]) -> Result<Change, AllocError> {
    let store = sources(alloc, seed)?;
    let sections = sections_of(alloc, sections)?;
    match store.prepare(alloc, &sections) {
        Ok(change) => Ok(change),
        Err(_) => Err(AllocError),
    }
}

/// The place of a source, and the string values that each key has before and after each item.
type Wanted = (usize, &'static [Pair]);

/// Compares the source of the portion, and the elements that each of its entries has of its key.
fn expect_portion(
    rt: &impl Abort,
    alloc: Global,
    portion: &Portion,
    source: usize,
    wanted: &[Pair],
) -> Result<(), AllocError> {
    assert!(rt; portion.source == SourceId(source));
    expect_entries(rt, alloc, portion.entries.as_slice(), wanted)
}

/// Compares the portions of a change.
fn expect_portions(
    rt: &impl Abort,
    alloc: Global,
    portions: &[Portion],
    wanted: &[Wanted],
) -> Result<(), AllocError> {
    assert!(rt; portions.len() == wanted.len());
    for (portion, (source, entries)) in portions.iter().zip(wanted) {
        expect_portion(rt, alloc, portion, *source, entries)?;
    }
    Ok(())
}

/// Compares the portions of the change of the sections.
fn expect_change(
    rt: &impl Abort,
    alloc: Global,
    seed: RandomState,
    sections: &[Pair],
    wanted: &[Wanted],
) -> Result<(), AllocError> {
    let change = change_of(alloc, seed, sections)?;
    expect_portions(rt, alloc, change.portions(), wanted)
}

#[test]
fn an_entry_sees_the_items_before_it(rt: HostRuntime) -> Result<(), Fail> {
    let (text, wanted) = SEEN;
    let seed = RandomState::new(&rt)?;
    expect_change(&rt, rt.alloc(), seed, &[("quotes", text)], &[(0, wanted)])?;
    Ok(())
}

/// Sections, and the portions of their change.
const PORTIONS: &[(&[Pair], &[Wanted])] = &[
    (&[], &[]),
    (&[("companies", "")], &[(1, &[])]),
    (
        &[
            ("c", "(C/Aid 7/-a/)C"),
            ("quotes", "(Q/(Symbol/-A/)Symbol/)Q"),
            ("c", "!7/(C/Aid 7/-b/)C"),
        ],
        &[
            (0, &[("|", "A")]),
            (2, &[("|", "a"), ("a", "|"), ("|", "b")]),
        ],
    ),
];

#[test]
fn the_portions_of_a_change_rise_by_source(rt: HostRuntime) -> Result<(), Fail> {
    let seed = RandomState::new(&rt)?;
    for (sections, wanted) in PORTIONS {
        expect_change(&rt, rt.alloc(), seed, sections, wanted)?;
    }
    Ok(())
}

/// Whether the section at this place is of the source of this name.
fn is_of(sections: &Sections, at: usize, name: &str) -> bool {
    match sections.get(at) {
        Some(section) => section.source.as_slice() == name.as_bytes(),
        None => false,
    }
}

/// The sections are counted, and shown by their places.
fn expect_shown(rt: &impl Abort, sections: &Sections, wanted: &[Pair]) {
    assert!(rt; sections.len() == wanted.len());
    for (at, (name, _)) in wanted.iter().enumerate() {
        expect(rt, is_of(sections, at, name), name);
    }
    assert!(rt; sections.get(wanted.len()).is_none());
}

fn expect_sections(rt: &impl Abort, alloc: Global, wanted: &[Pair]) -> Result<(), AllocError> {
    let sections = sections_of(alloc, wanted)?;
    expect_shown(rt, &sections, wanted);
    Ok(())
}

#[test]
fn sections_are_a_list(rt: HostRuntime) -> Result<(), Fail> {
    for (sections, _) in PORTIONS {
        expect_sections(&rt, rt.alloc(), sections)?;
    }
    Ok(())
}
