//! What a cache keeps of what was told, worked out by hand. The entries are of one row that comes,
//! and a template that is a text answers that text.

use super::making::{some_row, text_template};
use ncq_base::{FileId, Op, atom_of};
use ncq_cache::{NoticeCache, NoticeKey};
use ncq_callback::{Entries, Gather};
use ncq_plan::{Check, Checks, Predicates, Side, Test};
use ncq_row::Row;
use std::alloc::{AllocError, Global};
use std::ops::Range;
use std::test::Fail;

/// The file, what the first slot may not be, the template's text, the mark, and the change.
type Key = (u64, &'static [&'static str], &'static str, Option<u64>, u64);

const KEY: Key = (7, &["x"], "a", Some(0), 3);

const OTHER: Key = (7, &["x"], "a", Some(0), 4);

/// Keys that differ from the first in one part.
const OTHERS: [Key; 9] = [
    (3, &["x"], "a", Some(0), 3),
    (7, &[], "a", Some(0), 3),
    (7, &["y"], "a", Some(0), 3),
    (7, &["x", "x"], "a", Some(0), 3),
    (7, &["x"], "b", Some(0), 3),
    (7, &["x"], "", Some(0), 3),
    (7, &["x"], "a", None, 3),
    (7, &["x"], "a", Some(3), 3),
    OTHER,
];

/// What is done with a cache.
enum Step {
    /// Puts the answer of the text under the key.
    Put(Key, &'static str),
    /// Takes by the key, and finds the answer or nothing.
    Take(Key, Option<&'static str>),
    Clear,
}

/// What is done in turn, and how many pairs there are then.
const STEPS: &[(Step, usize)] = &[
    (Step::Take(KEY, None), 0),
    // What was put is taken once.
    (Step::Put(KEY, "a"), 1),
    (Step::Take(KEY, Some("-a\n")), 0),
    (Step::Take(KEY, None), 0),
    // It goes in again, beside another.
    (Step::Put(KEY, "a"), 1),
    (Step::Put(OTHER, "b"), 2),
    (Step::Take(OTHER, Some("-b\n")), 1),
    (Step::Take(OTHER, None), 1),
    // Later entries of a key stand in place of the earlier ones.
    (Step::Put(OTHER, "b"), 2),
    (Step::Put(KEY, "c"), 2),
    (Step::Take(KEY, Some("-c\n")), 1),
    (Step::Put(KEY, "d"), 2),
    // Nothing stays, and the next pair goes in.
    (Step::Clear, 0),
    (Step::Take(KEY, None), 0),
    (Step::Take(OTHER, None), 0),
    (Step::Clear, 0),
    (Step::Put(KEY, "a"), 1),
    (Step::Take(KEY, Some("-a\n")), 0),
];

/// The checks that the first slot is none of the texts.
fn checks(alloc: Global, texts: &[&str]) -> Result<Checks, AllocError> {
    let mut checks = Checks::new(alloc);
    for text in texts {
        checks.push(Check::Compare(Test {
            op: Op::Ne,
            left: 0,
            right: Side::Constant(atom_of(alloc, text.as_bytes())?),
        }))?;
    }
    Ok(checks)
}

/// The key of these parts, made anew.
fn key_of(alloc: Global, key: &Key) -> Result<NoticeKey, AllocError> {
    let (file, texts, text, mark, change) = *key;
    Ok(NoticeKey {
        file: FileId(file),
        residual: checks(alloc, texts)?,
        template: text_template(alloc, text)?,
        mark,
        change,
    })
}

/// The entries of a row that comes, whose answer is the text.
fn entries_of(alloc: Global, row: &Row, text: &str) -> Result<Entries, AllocError> {
    let template = text_template(alloc, text)?;
    let mut gather = Gather::new(alloc);
    gather.take(
        alloc,
        &Checks::new(alloc),
        &Predicates::new(alloc),
        &template,
        row,
        true,
    )?;
    gather.finish(alloc)
}

/// Whether there is one entry, which comes once and has these bytes.
fn is_entry(entries: &Entries, want: &str) -> bool {
    let got = entries.as_slice();
    if got.len() != 1 {
        return false;
    }
    got[0].gain && got[0].count == 1 && got[0].bytes.as_slice() == want.as_bytes()
}

fn put(
    alloc: Global,
    cache: &mut NoticeCache,
    row: &Row,
    key: &Key,
    text: &str,
) -> Result<(), AllocError> {
    let entries = entries_of(alloc, row, text)?;
    cache.put(key_of(alloc, key)?, entries);
    Ok(())
}

/// Whether what is taken by the key is the answer, or nothing where none is wanted.
fn finds(
    alloc: Global,
    cache: &mut NoticeCache,
    key: &Key,
    want: Option<&str>,
) -> Result<bool, AllocError> {
    let key = key_of(alloc, key)?;
    match (&cache.take(&key), want) {
        (Some(entries), Some(want)) => Ok(is_entry(entries, want)),
        (None, None) => Ok(true),
        _ => Ok(false),
    }
}

/// Whether the step finds what was worked out.
fn is_right(
    alloc: Global,
    cache: &mut NoticeCache,
    row: &Row,
    step: &Step,
) -> Result<bool, AllocError> {
    match step {
        Step::Put(key, text) => put(alloc, cache, row, key, text)?,
        Step::Take(key, want) => return finds(alloc, cache, key, *want),
        Step::Clear => cache.clear(),
    }
    Ok(true)
}

/// How many of the steps find what was worked out, up to the first that does not.
fn right_steps(alloc: Global, row: &Row) -> Result<usize, AllocError> {
    let mut cache = NoticeCache::new(alloc)?;
    let all = STEPS;
    for at in 0..all.len() {
        let (step, count) = &all[at];
        if !is_right(alloc, &mut cache, row, step)? || cache.len() != *count {
            return Ok(at);
        }
    }
    Ok(all.len())
}

/// How many of the other keys find nothing of the first, up to one that finds it.
fn keys_apart(alloc: Global, cache: &mut NoticeCache) -> Result<usize, AllocError> {
    let all = &OTHERS;
    for at in 0..all.len() {
        if !finds(alloc, cache, &all[at], None)? {
            return Ok(at);
        }
    }
    Ok(all.len())
}

/// The key of a first firing at the change.
fn key_at(change: u64) -> Key {
    (7, &[], "a", None, change)
}

/// Puts entries under the keys of these changes, in their order.
fn put_at(
    alloc: Global,
    cache: &mut NoticeCache,
    row: &Row,
    changes: Range<u64>,
) -> Result<(), AllocError> {
    for change in changes {
        put(alloc, cache, row, &key_at(change), "a")?;
    }
    Ok(())
}

/// The changes below 65 whose keys find nothing.
fn changes_missed(alloc: Global, cache: &mut NoticeCache) -> Result<Vec<u64>, AllocError> {
    let mut missed = Vec::new(alloc);
    for change in 0..65 {
        if finds(alloc, cache, &key_at(change), None)? {
            missed.push(change)?;
        }
    }
    Ok(missed)
}

#[test]
fn an_equal_key_takes_what_was_put_once(rt: HostRuntime) -> Result<(), Fail> {
    let row = some_row(&rt)?;
    assert_eq!(rt; right_steps(rt.alloc(), &row)?, STEPS.len());
    Ok(())
}

#[test]
fn a_key_that_differs_in_one_part_finds_nothing(rt: HostRuntime) -> Result<(), Fail> {
    let row = some_row(&rt)?;
    let mut cache = NoticeCache::new(rt.alloc())?;
    put(rt.alloc(), &mut cache, &row, &KEY, "a")?;
    assert_eq!(rt; keys_apart(rt.alloc(), &mut cache)?, OTHERS.len());
    assert!(rt; finds(rt.alloc(), &mut cache, &KEY, Some("-a\n"))?);
    Ok(())
}

#[test]
fn of_too_many_pairs_the_first_goes(rt: HostRuntime) -> Result<(), Fail> {
    let row = some_row(&rt)?;
    let mut cache = NoticeCache::new(rt.alloc())?;
    put_at(rt.alloc(), &mut cache, &row, 0..65)?;
    assert_eq!(rt; cache.len(), 64);
    let missed = changes_missed(rt.alloc(), &mut cache)?;
    assert!(rt; missed.as_slice() == [0].as_slice());
    Ok(())
}

#[test]
fn a_pair_that_was_put_again_outlasts_the_next(rt: HostRuntime) -> Result<(), Fail> {
    let row = some_row(&rt)?;
    let mut cache = NoticeCache::new(rt.alloc())?;
    put_at(rt.alloc(), &mut cache, &row, 0..64)?;
    assert!(rt; finds(rt.alloc(), &mut cache, &key_at(0), Some("-a\n"))?);
    put_at(rt.alloc(), &mut cache, &row, 0..1)?;
    put_at(rt.alloc(), &mut cache, &row, 64..65)?;
    assert_eq!(rt; cache.len(), 64);
    let missed = changes_missed(rt.alloc(), &mut cache)?;
    assert!(rt; missed.as_slice() == [1].as_slice());
    Ok(())
}
