//! The words of lines.
use crate::form::{is_source_name, one_argument, source_form};
use std::alloc::{AllocError, Global};
use std::test::Fail;

// Lines, and whether they have the form of a source.
const SOURCES: &[(&[u8], bool)] = &[
    (b"source q root Quotes key @id", true),
    (b"SOURCE q Root Quotes KEY symbol\r", true),
    (b"source a/b root @x key @", true),
    (b"source q root Quotes key", false),
    (b"source q root Quotes key @id more", false),
    (b"source q root Quotes keys @id", false),
    (b"source q roots Quotes key @id", false),
    (b"source q\"r root Quotes key @id", false),
    (b"source q,r root Quotes key @id", false),
    (b"source (q root Quotes key @id", false),
    (b"source q) root Quotes key @id", false),
    (b"source q\\r root Quotes key @id", false),
    (b"source q root Quo\\tes key @id", false),
];

#[test]
fn a_source_line_has_six_words(rt: HostRuntime) -> Result<(), Fail> {
    for (head, want) in SOURCES {
        assert!(rt; source_form(head).is_some() == *want, "{head:?}");
    }
    Ok(())
}

#[test]
fn a_source_line_has_a_name_a_root_and_a_rule(rt: HostRuntime) -> Result<(), Fail> {
    let form = source_form(b"source q root Quotes key @id").unwrap();
    assert!(rt; form.name == b"q".as_slice());
    assert!(rt; form.root == b"Quotes".as_slice());
    assert!(rt; form.rule == b"@id".as_slice());
    Ok(())
}

// Whether a name of this many bytes is one of a source.
fn is_name_of(alloc: Global, length: usize) -> Result<bool, AllocError> {
    let name = vec![in alloc; b'q'; length]?;
    Ok(is_source_name(&name))
}

#[test]
fn a_source_name_has_1_to_255_bytes(rt: HostRuntime) -> Result<(), Fail> {
    for (length, want) in &[(0, false), (1, true), (255, true), (256, false)] {
        assert!(rt; is_name_of(rt.alloc(), *length)? == *want, "at {length}");
    }
    Ok(())
}

#[test]
fn an_argument_is_one_word(rt: HostRuntime) -> Result<(), Fail> {
    assert!(rt; one_argument(b" delta\tq\r") == Some(b"q".as_slice()));
    assert!(rt; one_argument(b"delta").is_none());
    assert!(rt; one_argument(b"delta q r").is_none());
    Ok(())
}
