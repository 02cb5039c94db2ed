//! Names, whole numbers and escapes.

use super::{expect_bytes, joined};
use ncq_base::{is_name, is_pyx_name, read_u64, unescape, write_decimal, write_escaped};
use std::alloc::Global;
use std::process::Abort;
use std::test::Fail;

/// Texts, and whether each is a name in a statement and in PYX.
const NAMES: &[(&str, bool, bool)] = &[
    ("a", true, true),
    ("Z9", true, true),
    ("_", true, true),
    ("a-b:c_1", true, true),
    ("é", true, true),
    ("aé", true, true),
    ("", false, false),
    ("1", false, true),
    ("-a", false, true),
    (":a", false, true),
    ("a.b", false, true),
    ("@a", false, true),
    ("a\0", false, true),
    ("a\x0c", false, true),
    ("a b", false, false),
    ("a\t", false, false),
    ("\na", false, false),
    ("a\r", false, false),
    ("a\\b", false, false),
];

#[test]
fn names_have_their_bytes(rt: HostRuntime) {
    for (text, name, pyx_name) in NAMES {
        assert!(rt; is_name(text.as_bytes()) == *name, "{text}");
        assert!(rt; is_pyx_name(text.as_bytes()) == *pyx_name, "{text}");
    }
}

const DIGITS: &[(&str, Option<u64>)] = &[
    ("0", Some(0)),
    ("00", Some(0)),
    ("42", Some(42)),
    ("18446744073709551615", Some(18_446_744_073_709_551_615)),
    ("18446744073709551616", None),
    ("99999999999999999999", None),
    ("00000000000000000001", Some(1)),
    ("000000000000000000001", None),
    ("", None),
    ("+1", None),
    ("-1", None),
    ("1 ", None),
    ("1.0", None),
    ("0x1", None),
    ("\u{661}", None),
];

#[test]
fn whole_numbers_are_read(rt: HostRuntime) {
    for (text, want) in DIGITS {
        assert_eq!(rt; read_u64(text.as_bytes()), *want, "{text}");
    }
}

const DECIMALS: &[(u64, &str)] = &[
    (0, "n 0"),
    (10, "n 10"),
    (907, "n 907"),
    (18_446_744_073_709_551_615, "n 18446744073709551615"),
];

#[test]
fn whole_numbers_are_written(rt: HostRuntime) -> Result<(), Fail> {
    for (n, want) in DECIMALS {
        let mut out = Vec::from_slice(rt.alloc(), b"n ")?;
        write_decimal(*n, &mut out)?;
        expect_bytes(&rt, &out, want.as_bytes(), "");
    }
    Ok(())
}

/// Bytes, and how they are written.
const ESCAPED: &[(&str, &str)] = &[
    ("", ""),
    ("a\nb\tc\rd\\e", "a\\nb\\tc\\rd\\\\e"),
    ("\\n", "\\\\n"),
    ("\0 \"\u{ff}'", "\0 \"\u{ff}'"),
];

/// A backslash before any other byte stands for itself, also at the end.
const UNESCAPED: &[(&str, &str)] = &[
    ("\\x\\N\\", "\\x\\N\\"),
    ("\\\\\\", "\\\\"),
    ("\\\\n", "\\n"),
];

fn expect_unescaped(rt: &impl Abort, alloc: Global, text: &str, want: &str) -> Result<(), Fail> {
    let read = unescape(alloc, text.as_bytes())?;
    expect_bytes(rt, read.as_slice(), want.as_bytes(), text);
    Ok(())
}

#[test]
fn four_bytes_are_escaped(rt: HostRuntime) -> Result<(), Fail> {
    let alloc = rt.alloc();
    for (plain, written) in ESCAPED {
        let mut out = Vec::from_slice(alloc, b"- ")?;
        write_escaped(plain.as_bytes(), &mut out)?;
        let want = joined(alloc, &["- ", *written])?;
        expect_bytes(&rt, &out, &want, plain);
        expect_unescaped(&rt, alloc, written, plain)?;
    }
    for (text, want) in UNESCAPED {
        expect_unescaped(&rt, alloc, text, want)?;
    }
    Ok(())
}
