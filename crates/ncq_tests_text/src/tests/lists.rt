//! Lists, owners and byte strings.

use super::expect_bytes;
use ncq_base::{Bytes, Copied, Own, Sequence, Shared, bytes_of};
use std::alloc::{AllocError, Global};
use std::process::Abort;
use std::test::Fail;

fn lines_of(alloc: Global, texts: &[&str]) -> Result<Sequence<Bytes>, AllocError> {
    let mut lines = Sequence::with_capacity(alloc, 1)?;
    for text in texts {
        lines.push(bytes_of(alloc, text.as_bytes())?)?;
    }
    Ok(lines)
}

const LINES: &[&str] = &["a", "", "b\0"];

/// The list has this line at this place.
fn expect_line(rt: &impl Abort, kept: &Sequence<Bytes>, at: usize, line: &str) -> Result<(), Fail> {
    let there = kept.get(at).ok_or("a line is missing")?;
    expect_bytes(rt, there.as_slice(), line.as_bytes(), "");
    Ok(())
}

/// The list has just these lines.
fn expect_lines(rt: &impl Abort, kept: &Sequence<Bytes>, want: &[&str]) -> Result<(), Fail> {
    assert!(rt; kept.len() == want.len() && kept.as_slice().len() == want.len());
    assert!(rt; kept.get(want.len()).is_none());
    for (at, line) in want.iter().enumerate() {
        expect_line(rt, kept, at, line)?;
    }
    Ok(())
}

/// Whether the list that is made of the lines anew is equal to the copy.
fn is_made_anew(lines: Sequence<Bytes>, copy: &Sequence<Bytes>) -> bool {
    let taken = Sequence::from_vec(lines.into_vec());
    taken == *copy
}

#[test]
fn a_list_and_its_copy_have_the_same_lines(rt: HostRuntime) -> Result<(), Fail> {
    let lines = lines_of(rt.alloc(), LINES)?;
    let copy = lines.copy(rt.alloc())?;
    expect_lines(&rt, &lines, LINES)?;
    expect_lines(&rt, &copy, LINES)?;
    assert!(rt; is_made_anew(lines, &copy));
    Ok(())
}

/// A list with another behind it.
fn appended(alloc: Global) -> Result<Sequence<Bytes>, AllocError> {
    let mut lines = lines_of(alloc, &["a"])?;
    lines.append(lines_of(alloc, &["", "b\0"])?)?;
    Ok(lines)
}

#[test]
fn a_list_behind_another_comes_last(rt: HostRuntime) -> Result<(), Fail> {
    let lines = appended(rt.alloc())?;
    expect_lines(&rt, &lines, LINES)?;
    Ok(())
}

/// Byte strings of no byte, of the most that take no block of memory, and of one byte more.
const STRINGS: &[&str] = &["", "0123456789abcdef", "0123456789abcdefg"];

#[test]
fn bytes_are_those_of_the_vector(rt: HostRuntime) -> Result<(), Fail> {
    let alloc = rt.alloc();
    for text in STRINGS {
        let bytes = Bytes::from_vec(Vec::from_slice(alloc, text.as_bytes())?);
        expect_bytes(&rt, bytes.as_slice(), text.as_bytes(), "");
        assert!(rt; bytes == bytes_of(alloc, text.as_bytes())?);
    }
    let mut grown = Bytes::new(alloc);
    assert!(rt; grown.as_slice().is_empty());
    for text in STRINGS {
        grown.append(text.as_bytes())?;
    }
    expect_bytes(
        &rt,
        grown.as_slice(),
        b"0123456789abcdef0123456789abcdefg",
        "",
    );
    Ok(())
}

#[test]
fn an_owner_and_its_copy_have_the_same_value(rt: HostRuntime) -> Result<(), Fail> {
    let own = Own::new(rt.alloc(), bytes_of(rt.alloc(), b"own")?)?;
    let other = own.copy(rt.alloc())?;
    expect_bytes(&rt, own.get().as_slice(), b"own", "");
    assert!(rt; other.into_inner() == own.into_inner());
    Ok(())
}

#[test]
fn all_who_share_see_one_value(rt: HostRuntime) -> Result<(), Fail> {
    let shared = Shared::new(rt.alloc(), bytes_of(rt.alloc(), b"shared")?)?;
    let sharing = shared.share()?;
    expect_bytes(&rt, shared.get().as_slice(), b"shared", "");
    expect_bytes(&rt, sharing.get().as_slice(), b"shared", "");
    Ok(())
}
