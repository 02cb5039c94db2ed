//! What the calls of several crates are given, and what they are compared by.

use ncq_base::{Lines, Shared, bytes_of, is_line};
use ncq_flat::{Asked, Item, Items, Written, read_flat_block};
use ncq_source::{Section, Sections};
use std::alloc::{AllocError, Global};
use std::process::Abort;

mod atoms;
mod blocks;
mod declared;
mod entries;
mod flats;
mod instants;
mod keys;
mod lists;
mod outside;
mod path_statements;
mod paths;
mod reports;
mod sources;
mod statements;
mod stores;
mod texts;
mod tokens;
mod trees;
mod words;

/// Two texts of a row.
type Pair = (&'static str, &'static str);

/// The texts, one behind the other.
fn joined(alloc: Global, parts: &[&str]) -> Result<Vec<u8>, AllocError> {
    let mut all = Vec::new(alloc);
    for part in parts {
        all.extend_from_slice(part.as_bytes())?;
    }
    Ok(all)
}

/// Tells of which row it is that this does not hold.
fn expect(rt: &impl Abort, holds: bool, row: &str) {
    assert!(rt; holds, "at {row}");
}

fn expect_text(rt: &impl Abort, got: &str, want: &str, row: &str) {
    assert_eq!(rt; got, want, "at {row}");
}

fn expect_bytes(rt: &impl Abort, got: &[u8], want: &[u8], why: &str) {
    assert_eq!(rt; got, want, "{why}");
}

/// The lines that are parted by slashes.
fn lines_of(alloc: Global, text: &[u8]) -> Result<Lines, AllocError> {
    let mut lines = Lines::new(alloc);
    for line in text.split(|b| *b == b'/') {
        push_line(&mut lines, line)?;
    }
    Ok(lines)
}

fn push_line(lines: &mut Lines, line: &[u8]) -> Result<(), AllocError> {
    if !is_line(line) {
        return Err(AllocError);
    }
    lines.push(line)
}

/// The items that the lines, parted by slashes, spell.
fn items_of(alloc: Global, text: &str) -> Result<Items, AllocError> {
    let lines = lines_of(alloc, text.as_bytes())?;
    read_flat_block(alloc, &lines).map_err(|_| AllocError)
}

/// The element that the item puts.
fn put_by(item: Option<&Item>) -> Option<&Shared<Written>> {
    match item?.asked() {
        Asked::Put(element) => Some(element),
        Asked::Remove(_) => None,
    }
}

/// The sections of a batch: each the name of a source, and lines that are parted by slashes.
fn sections_of(alloc: Global, sections: &[Pair]) -> Result<Sections, AllocError> {
    let mut all = Sections::new(alloc);
    for (name, text) in sections {
        all.push(Section {
            source: bytes_of(alloc, name.as_bytes())?,
            items: items_of(alloc, text)?,
        })?;
    }
    Ok(all)
}
