//! Deltas and batches in turn, and what their sources then show.

ghost use Rattle.std.specs.Prelude.{◌<◌, ◌^◌, ◌-◌};
ghost use Rattle.ncq_source.specs.StoreStates.{AreDeclared, IsDeclared};

use super::declared::{declare_by_attribute, sources};
use super::{Pair, expect, expect_bytes, sections_of};
use ncq_base::Bytes;
use ncq_pyx::write_element;
use ncq_source::{Change, ChangeError, SourceId, Store};
use std::alloc::{AllocError, Global};
use std::hash::RandomState;
use std::process::Abort;
use std::test::Fail;

/// Gives the change room and commits it: its number.
fn commit(alloc: Global, store: &mut Store, change: Change) -> Result<String, AllocError>
    requires declared { AreDeclared store.old change }
    requires more { store.old.changes < 2 ^ 64 - 1 }
{
    store.reserve(&change)?;
    store.commit(change);
    format!(in alloc; "ok {}", store.changes())
}

/// Why there is no change.
fn reason(alloc: Global, error: ChangeError) -> Result<String, AllocError> {
    match error {
        ChangeError::NoSource => format!(in alloc; "no source"),
        ChangeError::BadKey { position } => format!(in alloc; "key {position}"),
        ChangeError::NoSuchKey { position } => format!(in alloc; "no key {position}"),
        ChangeError::OutOfMemory => Err(AllocError),
    }
}

/// The change that the sections ask for, each with a source and lines: prepared, given room and
/// committed. Its number, or why there is none.
fn deliver(alloc: Global, store: &mut Store, sections: &[Pair]) -> Result<String, AllocError> {
    if store.changes() == u64::MAX {
        return Err(AllocError);
    }
    let sections = sections_of(alloc, sections)?;
    match store.prepare(alloc, &sections) {
        Ok(change) => commit(alloc, store, change),
        Err(error) => reason(alloc, error),
    }
}

/// Whether the sections get this answer.
fn is_answered(
    alloc: Global,
    store: &mut Store,
    sections: &[Pair],
    want: &str,
) -> Result<bool, AllocError> {
    let answer = deliver(alloc, store, sections)?;
    Ok(answer.as_str() == want)
}

/// The string values of the elements that the source shows.
fn values_of(alloc: Global, store: &Store, name: &str) -> Result<Vec<Bytes>, AllocError> {
    let mut values = Vec::new(alloc);
    if let Some(id) = store.find(name.as_bytes()) {
        for at in 0..store.size(id) {
            values.push(store.written(id, at).get().string_value(alloc)?)?;
        }
    }
    Ok(values)
}

/// The values, each ended by a bar.
fn barred(alloc: Global, values: &[Bytes]) -> Result<Vec<u8>, AllocError> {
    let mut text = Vec::new(alloc);
    for value in values {
        text.extend_from_slice(value.as_slice())?;
        text.push(b'|')?;
    }
    Ok(text)
}

/// The string values of the elements that the source shows, rising, each ended by a bar.
fn shown(alloc: Global, store: &Store, name: &str) -> Result<Vec<u8>, AllocError> {
    let mut values = values_of(alloc, store, name)?;
    values.sort()?;
    barred(alloc, values.as_slice())
}

/// Whether the source shows this.
fn shows(alloc: Global, store: &Store, name: &str, want: &str) -> Result<bool, AllocError> {
    let text = shown(alloc, store, name)?;
    Ok(text.as_slice() == want.as_bytes())
}

/// A source, lines, the answer, and what the source then shows.
type Delta = (&'static str, &'static str, &'static str, &'static str);

/// Deltas in turn.
const IN_TURN: &[&[Delta]] = &[
    // an element stands under its attribute
    &[
        ("c", "(C/Aid 7/-a/- b/?x/-\\n/)C", "ok 1", "a b|"),
        ("c", "!7.0", "no key 1", "a b|"),
        ("c", "!7", "ok 2", ""),
    ],
    // deltas follow one another
    &[
        ("quotes", "", "ok 1", ""),
        (
            "quotes",
            "(Quote/(Symbol/-INTC/)Symbol/(Price/-1/)Price/)Quote",
            "ok 2",
            "INTC 1|",
        ),
        (
            "quotes",
            "(Quote/(Symbol/-INTC/)Symbol/(Price/-1/)Price/)Quote",
            "ok 3",
            "INTC 1|",
        ),
        (
            "quotes",
            "(Quote/(Symbol/-INTC/)Symbol/(Price/-2/)Price/)Quote",
            "ok 4",
            "INTC 2|",
        ),
        (
            "quotes",
            "(Quote/(Symbol/-MSFT/)Symbol/(Price/-3/)Price/)Quote",
            "ok 5",
            "INTC 2|MSFT 3|",
        ),
        ("quotes", "!INTC", "ok 6", "MSFT 3|"),
        ("quotes", "!INTC", "no key 1", "MSFT 3|"),
        ("quotes", "!MSFT", "ok 7", ""),
        ("quotes", "!", "no key 1", ""),
    ],
    // a delta is taken whole or not at all
    &[
        ("quotes", "(Q/(Symbol/-A/)Symbol/-1/)Q/(Q/)Q", "key 2", ""),
        ("quotes", "!A", "no key 1", ""),
        ("quotes", "!A/(Q/(Symbol/-A/)Symbol/-1/)Q", "no key 1", ""),
        ("quotes", "(Q/(Symbol/-A/)Symbol/-1/)Q/!A", "ok 1", ""),
        (
            "quotes",
            "(Q/(Symbol/-A/)Symbol/-1/)Q/!A/!A",
            "no key 3",
            "",
        ),
        (
            "quotes",
            "(Q/(Symbol/-A/)Symbol/-1/)Q/(Q/(Symbol/-A/)Symbol/-2/)Q",
            "ok 2",
            "A 2|",
        ),
        (
            "quotes",
            "(Q/(Symbol/-A/)Symbol/-1/)Q/(Q/)Q",
            "key 2",
            "A 2|",
        ),
        ("quotes", "!A/(Q/(Symbol/-A/)Symbol/-1/)Q", "ok 3", "A 1|"),
        (
            "quotes",
            "(Q/(Symbol/-A/)Symbol/-1/)Q/!A/(Q/(Symbol/-A/)Symbol/-2/)Q",
            "ok 4",
            "A 2|",
        ),
    ],
    // sources stand beside one another
    &[
        (
            "quotes",
            "(Quote/(Symbol/-INTC/)Symbol/)Quote",
            "ok 1",
            "INTC|",
        ),
        (
            "companies",
            "(C/(Symbol/-INTC/)Symbol/(Area/-Chips/)Area/)C",
            "ok 2",
            "INTC Chips|",
        ),
        ("quote", "(C/(Symbol/-INTC/)Symbol/)C", "no source", ""),
        ("Quotes", "(C/(Symbol/-INTC/)Symbol/)C", "no source", ""),
        ("", "", "no source", ""),
        ("companies", "", "ok 3", "INTC Chips|"),
        ("quotes", "!MSFT", "no key 1", "INTC|"),
    ],
];

/// Delivers a delta, and compares.
fn expect_delta(
    rt: &impl Abort,
    alloc: Global,
    store: &mut Store,
    delta: &Delta,
) -> Result<(), AllocError> {
    let (name, text, answer, elements) = *delta;
    expect(
        rt,
        is_answered(alloc, store, &[(name, text)], answer)?,
        text,
    );
    expect(rt, shows(alloc, store, name, elements)?, text);
    Ok(())
}

/// Delivers the deltas to a new store, and compares.
fn expect_deltas(
    rt: &impl Abort,
    alloc: Global,
    seed: RandomState,
    deltas: &[Delta],
) -> Result<(), AllocError> {
    let mut store = sources(alloc, seed)?;
    for delta in deltas {
        expect_delta(rt, alloc, &mut store, delta)?;
    }
    Ok(())
}

#[test]
fn deltas_are_answered_in_turn(rt: HostRuntime) -> Result<(), Fail> {
    let seed = RandomState::new(&rt)?;
    for deltas in IN_TURN {
        expect_deltas(&rt, rt.alloc(), seed, deltas)?;
    }
    Ok(())
}

/// The sections, each with a source and lines; the answer; and what `quotes` and `companies` then
/// show.
type Batch = (&'static [Pair], &'static str, &'static str, &'static str);

/// Batches in turn.
const BATCHES: &[&[Batch]] = &[
    // a section of a source sees the sections before it
    &[
        (
            &[("quotes", "(Q/(Symbol/-A/)Symbol/)Q"), ("quotes", "!A")],
            "ok 1",
            "",
            "",
        ),
        (
            &[("quotes", "!A"), ("quotes", "(Q/(Symbol/-A/)Symbol/)Q")],
            "no key 1",
            "",
            "",
        ),
        (
            &[
                ("quotes", "(Q/(Symbol/-A/)Symbol/-1/)Q"),
                ("companies", ""),
                ("quotes", "(Q/(Symbol/-B/)Symbol/)Q"),
                ("companies", "(C/(Symbol/-A/)Symbol/)C"),
                ("quotes", "!A/(Q/(Symbol/-A/)Symbol/-2/)Q"),
            ],
            "ok 2",
            "A 2|B|",
            "A|",
        ),
    ],
    // a source does not see the sections of another
    &[
        (
            &[("quotes", "(Q/(Symbol/-A/)Symbol/)Q"), ("companies", "!A")],
            "no key 2",
            "",
            "",
        ),
        (
            &[
                ("companies", "(C/(Symbol/-A/)Symbol/)C"),
                ("quotes", "(Q/(Symbol/-A/)Symbol/-1/)Q"),
            ],
            "ok 1",
            "A 1|",
            "A|",
        ),
        (&[("companies", "!A"), ("quotes", "!A")], "ok 2", "", ""),
    ],
    // positions count the items of all sections
    &[
        (
            &[
                (
                    "quotes",
                    "(Q/(Symbol/-A/)Symbol/)Q/(Q/(Symbol/-B/)Symbol/)Q",
                ),
                ("companies", ""),
                ("companies", "(C/(Symbol/-A/)Symbol/)C/!B"),
            ],
            "no key 4",
            "",
            "",
        ),
        (
            &[("quotes", "(Q/(Symbol/-A/)Symbol/)Q"), ("quotes", "(Q/)Q")],
            "key 2",
            "",
            "",
        ),
        (&[("companies", "(C/)C"), ("quotes", "!A")], "key 1", "", ""),
    ],
    // a source that is not declared comes before each item
    &[
        (&[("quotes", "(Q/)Q"), ("nowhere", "")], "no source", "", ""),
        (
            &[("nowhere", "(Q/)Q"), ("quotes", "!A")],
            "no source",
            "",
            "",
        ),
        (
            &[("quotes", "(Q/(Symbol/-A/)Symbol/)Q"), ("Companies", "")],
            "no source",
            "",
            "",
        ),
    ],
    // a batch may have no section
    &[
        (&[], "ok 1", "", ""),
        (&[("quotes", ""), ("quotes", "")], "ok 2", "", ""),
        (&[], "ok 3", "", ""),
    ],
];

fn expect_answer(rt: &impl Abort, got: &str, want: &str) {
    assert!(rt; got == want, "{got} in place of {want}");
}

/// Delivers the sections, and compares the answer.
fn expect_delivered(
    rt: &impl Abort,
    alloc: Global,
    store: &mut Store,
    sections: &[Pair],
    want: &str,
) -> Result<(), AllocError> {
    let got = deliver(alloc, store, sections)?;
    expect_answer(rt, got.as_str(), want);
    Ok(())
}

/// Delivers a batch, and compares.
fn expect_batch(
    rt: &impl Abort,
    alloc: Global,
    store: &mut Store,
    batch: &Batch,
) -> Result<(), AllocError> {
    let (sections, answer, quotes, companies) = *batch;
    expect_delivered(rt, alloc, store, sections, answer)?;
    expect(rt, shows(alloc, store, "quotes", quotes)?, answer);
    expect(rt, shows(alloc, store, "companies", companies)?, answer);
    Ok(())
}

/// Delivers the batches to a new store, and compares.
fn expect_batches(
    rt: &impl Abort,
    alloc: Global,
    seed: RandomState,
    batches: &[Batch],
) -> Result<(), AllocError> {
    let mut store = sources(alloc, seed)?;
    for batch in batches {
        expect_batch(rt, alloc, &mut store, batch)?;
    }
    Ok(())
}

#[test]
fn batches_are_answered_in_turn(rt: HostRuntime) -> Result<(), Fail> {
    let seed = RandomState::new(&rt)?;
    for batches in BATCHES {
        expect_batches(&rt, rt.alloc(), seed, batches)?;
    }
    Ok(())
}

/// Sources by name: the root, and the last change.
const TOLD: &[(&str, &str, u64)] = &[
    ("quotes", "Quotes", 4),
    ("companies", "Companies", 3),
    ("c", "Cs", 4),
];

/// Compares what the store says of a source.
fn expect_said(rt: &impl Abort, store: &Store, id: SourceId, name: &str, root: &str, last: u64)
    requires { IsDeclared store.now id }
{
    expect_bytes(rt, store.name_of(id).as_slice(), name.as_bytes(), name);
    expect_bytes(rt, store.root_of(id).as_slice(), root.as_bytes(), name);
    expect(rt, store.last_change(id) == last, name);
}

/// Compares what the store says of the source of this name.
fn expect_source(rt: &impl Abort, store: &Store, name: &str, root: &str, last: u64) {
    let found = store.find(name.as_bytes());
    expect(rt, found.is_some(), name);
    if let Some(id) = found {
        expect_said(rt, store, id, name, root, last);
    }
}

/// Compares what the store says of each source.
fn expect_sources(rt: &impl Abort, store: &Store) {
    for (name, root, last) in TOLD {
        expect_source(rt, store, name, root, *last);
    }
}

/// Delivers deltas without items.
fn deliver_nothing(
    alloc: Global,
    store: &mut Store,
    names: &[&'static str],
) -> Result<(), AllocError> {
    for name in names {
        deliver(alloc, store, &[(*name, "")])?;
    }
    Ok(())
}

/// A name that is declared is not declared again.
fn expect_declared_once(
    rt: &impl Abort,
    alloc: Global,
    store: &mut Store,
) -> Result<(), AllocError> {
    assert!(rt; !declare_by_attribute(alloc, store, "quotes", "Q", "id")?);
    assert!(rt; store.count() == 3);
    Ok(())
}

fn expect_told(rt: &impl Abort, alloc: Global, store: &mut Store) -> Result<(), AllocError> {
    deliver_nothing(alloc, store, &["quotes", "companies", "companies"])?;
    deliver(alloc, store, &[("c", ""), ("quotes", "")])?;
    expect_sources(rt, store);
    Ok(())
}

#[test]
fn sources_have_a_name_a_root_and_a_last_change(rt: HostRuntime) -> Result<(), Fail> {
    let mut store = sources(rt.alloc(), RandomState::new(&rt)?)?;
    expect_declared_once(&rt, rt.alloc(), &mut store)?;
    expect_told(&rt, rt.alloc(), &mut store)?;
    Ok(())
}

/// The canonical lines of the elements of the source, written anew.
fn new_lines_of(alloc: Global, store: &Store, name: &str) -> Result<Vec<u8>, AllocError> {
    let mut out = Vec::new(alloc);
    if let Some(id) = store.find(name.as_bytes()) {
        for at in 0..store.size(id) {
            let tree = store.written(id, at).get().element(alloc)?;
            write_element(&tree, &mut out)?;
        }
    }
    Ok(out)
}

/// The canonical lines that the elements of the source were written as.
fn kept_lines_of(alloc: Global, store: &Store, name: &str) -> Result<Vec<u8>, AllocError> {
    let mut out = Vec::new(alloc);
    if let Some(id) = store.find(name.as_bytes()) {
        for at in 0..store.size(id) {
            out.extend_from_slice(store.written(id, at).get().lines())?;
        }
    }
    Ok(out)
}

/// Whether the elements of the source have these canonical lines, kept and written anew.
fn has_lines(alloc: Global, store: &Store, name: &str, want: &str) -> Result<bool, AllocError> {
    let lines = new_lines_of(alloc, store, name)?;
    let kept = kept_lines_of(alloc, store, name)?;
    Ok(lines.as_slice() == want.as_bytes() && kept.as_slice() == want.as_bytes())
}

fn expect_put(rt: &impl Abort, alloc: Global, store: &mut Store) -> Result<(), AllocError> {
    let text = "(C/Aid 7/-a/- b/?x/-\\n/)C";
    assert!(rt; is_answered(alloc, store, &[("c", text)], "ok 1")?);
    assert!(rt; has_lines(alloc, store, "c", "(C\nAid 7\n-a b\n)C\n")?);
    Ok(())
}

#[test]
fn an_element_is_shown_as_it_was_put(rt: HostRuntime) -> Result<(), Fail> {
    let mut store = sources(rt.alloc(), RandomState::new(&rt)?)?;
    expect_put(&rt, rt.alloc(), &mut store)?;
    Ok(())
}
