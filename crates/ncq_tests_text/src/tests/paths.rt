//! Paths: the names along them, their form, their texts and how many names they have.

use super::{Pair, expect, expect_bytes, joined};
use ncq_base::{Copied, Own, bytes_of};
use ncq_path::{
    Machine, Path, Paths, State, accepts, compile, is_well_formed, names_in, same_path, start,
    step, write_path,
};
use std::alloc::{AllocError, Global};
use std::process::Abort;
use std::test::Fail;

/// The path that was made last, or the name `?` where there is none.
fn last(alloc: Global, ready: &mut Vec<Path>) -> Result<Path, AllocError> {
    match ready.pop() {
        Some(path) => Ok(path),
        None => Ok(Path::Tag(bytes_of(alloc, b"?")?)),
    }
}

fn last_owned(alloc: Global, ready: &mut Vec<Path>) -> Result<Own<Path>, AllocError> {
    let path = last(alloc, ready)?;
    Own::new(alloc, path)
}

/// The last two.
fn last_two(alloc: Global, ready: &mut Vec<Path>) -> Result<Paths, AllocError> {
    let mut items = Paths::new(alloc);
    items.push(last(alloc, ready)?)?;
    items.push(last(alloc, ready)?)?;
    Ok(items)
}

/// The path that the sign makes of those that were made last.
fn made_by(alloc: Global, sign: u8, ready: &mut Vec<Path>) -> Result<Path, AllocError> {
    match sign {
        b'.' => Ok(Path::Seq(last_two(alloc, ready)?)),
        b'|' => Ok(Path::Alt(last_two(alloc, ready)?)),
        b'*' => Ok(Path::Star(last_owned(alloc, ready)?)),
        b'+' => Ok(Path::Plus(last_owned(alloc, ready)?)),
        _ => Ok(Path::Tag(bytes_of(alloc, &[sign])?)),
    }
}

/// A path in Polish form: a letter is a name, `.` and `|` stand before two paths, `*` and `+`
/// before one.
fn path_of(alloc: Global, polish: &[u8]) -> Result<Path, AllocError> {
    let mut ready = Vec::new(alloc);
    for i in 0..polish.len() {
        let path = made_by(alloc, polish[polish.len() - 1 - i], &mut ready)?;
        ready.push(path)?;
    }
    last(alloc, &mut ready)
}

/// A path, the lists of names in it that are tried, and those outside; a name is a letter.
type Along = (
    &'static str,
    &'static [&'static str],
    &'static [&'static str],
);

const ALONG: &[Along] = &[
    ("a", &["a"], &["", "b", "aa"]),
    ("*a", &["", "a", "aaa"], &["b", "aab"]),
    ("+a", &["a", "aa"], &["", "ab", "ba"]),
    (".ab", &["ab"], &["", "a", "b", "ba", "abb"]),
    ("|ab", &["a", "b"], &["", "ab", "c"]),
    (".*|pan", &["n", "pn", "apan"], &["", "p", "nn", "pnp"]),
    ("+|aa", &["a", "aaaa"], &["", "aba"]),
    (
        ".*.ab*c",
        &["", "ab", "abc", "ababcc", "c"],
        &["a", "abca", "ba"],
    ),
    ("+*a", &["", "a", "aa"], &["b"]),
];

/// The machine of a path that is well formed.
fn machine_of(alloc: Global, polish: &str) -> Result<Option<Machine>, AllocError> {
    let path = path_of(alloc, polish.as_bytes())?;
    if !is_well_formed(&path) {
        return Ok(None);
    }
    compile(alloc, &path).map(Some)
}

/// The state behind the names.
fn state_behind(machine: &Machine, names: &str) -> State {
    let mut state = start(machine);
    for name in names.as_bytes() {
        state = step(machine, state, &[*name]);
    }
    state
}

/// Of each list of names it is told so whether it is in the path.
fn expect_along(rt: &impl Abort, machine: &Machine, lists: &[&str], want: bool, row: &str) {
    for names in lists {
        let told = accepts(machine, state_behind(machine, names));
        assert!(rt; told == want, "at {row}: {names}");
    }
}

#[test]
fn names_along_paths(rt: HostRuntime) -> Result<(), Fail> {
    for (polish, inside, outside) in ALONG {
        let machine = machine_of(rt.alloc(), polish)?.ok_or("a path is not well formed")?;
        expect_along(&rt, &machine, inside, true, polish);
        expect_along(&rt, &machine, outside, false, polish);
    }
    Ok(())
}

/// A path, names, and whether no position is behind them.
const LOST: &[(&str, &str, bool)] = &[
    ("a", "", false),
    ("a", "a", false),
    ("a", "aa", true),
    ("a", "b", true),
    (".ab", "ac", true),
    (".ab", "ca", true),
    ("*|ab", "abba", false),
    ("*|ab", "abc", true),
];

#[test]
fn names_that_lead_nowhere(rt: HostRuntime) -> Result<(), Fail> {
    for (polish, names, want) in LOST {
        let machine = machine_of(rt.alloc(), polish)?.ok_or("a path is not well formed")?;
        expect(
            &rt,
            state_behind(&machine, names).is_empty() == *want,
            polish,
        );
    }
    Ok(())
}

/// A path, and whether it is well formed.
const FORMED: &[(&str, bool)] = &[
    ("a", true),
    (".ab", true),
    (".|abc", true),
    ("|.abc", true),
    ("+|a*b", true),
    ("..abc", false),
    ("||abc", false),
    ("*.a.bc", false),
];

#[test]
fn paths_that_are_well_formed(rt: HostRuntime) -> Result<(), Fail> {
    for (polish, want) in FORMED {
        let path = path_of(rt.alloc(), polish.as_bytes())?;
        expect(&rt, is_well_formed(&path) == *want, polish);
    }
    Ok(())
}

/// A path of so many names, sequences and alternatives in turn.
fn path_of_names(alloc: Global, names: usize) -> Result<Path, AllocError> {
    let mut polish = Vec::new(alloc);
    for i in 1..names {
        polish.extend_from_slice(if i % 2 == 0 { b"|a" } else { b".a" })?;
    }
    polish.push(b'a')?;
    path_of(alloc, polish.as_slice())
}

#[test]
fn a_path_has_at_most_thirty_two_names(rt: HostRuntime) -> Result<(), Fail> {
    for (names, want) in [(1, true), (32, true), (33, false)] {
        let path = path_of_names(rt.alloc(), names)?;
        assert!(rt; names_in(&path) == names);
        assert!(rt; is_well_formed(&path) == want);
    }
    Ok(())
}

/// A path and its text.
const TEXTS: &[Pair] = &[
    ("a", "a"),
    (".a|bc", "a.(b|c)"),
    ("|a.bc", "a|b.c"),
    ("*.ab", "(a.b)*"),
    ("+|ab", "(a|b)+"),
    (".+a*b", "a+.b*"),
    ("*+a", "(a+)*"),
];

#[test]
fn texts_of_paths(rt: HostRuntime) -> Result<(), Fail> {
    for (polish, want) in TEXTS {
        let mut out = Vec::from_slice(rt.alloc(), b"<")?;
        write_path(&path_of(rt.alloc(), polish.as_bytes())?, &mut out)?;
        expect_bytes(
            &rt,
            out.as_slice(),
            joined(rt.alloc(), &["<", want])?.as_slice(),
            polish,
        );
    }
    Ok(())
}

/// Paths of which no two are one.
const APART: &[&str] = &["a", "b", ".ab", ".ba", "|ab", "*a", "+a", "*.ab"];

#[test]
fn a_path_is_its_copy_and_no_other(rt: HostRuntime) -> Result<(), Fail> {
    let alloc = rt.alloc();
    for (at, polish) in APART.iter().enumerate() {
        let copy = path_of(alloc, polish.as_bytes())?.copy(alloc)?;
        expect_found(&rt, alloc, &copy, at)?;
    }
    Ok(())
}

/// The path is this one of those, and none of the others.
fn expect_found(rt: &impl Abort, alloc: Global, path: &Path, at: usize) -> Result<(), AllocError> {
    for (other, polish) in APART.iter().enumerate() {
        let told = same_path(path, &path_of(alloc, polish.as_bytes())?);
        expect(rt, told == (other == at), polish);
    }
    Ok(())
}
