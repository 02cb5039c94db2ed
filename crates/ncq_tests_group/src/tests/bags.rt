//! What differs between bags, and how it is told.

use super::expect_bytes;
use ncq_bag::{Difference, SignedBag};
use ncq_base::bytes_of;
use std::alloc::{AllocError, Global};
use std::process::Abort;
use std::test::Fail;

/// Strings that come in, or go out, and how often.
const ADDED: &[(&str, u64, bool)] = &[
    ("b", 1, true),
    ("c", 3, true),
    ("a", 1, false),
    ("c", 2, false),
    ("d", 0, true),
    ("b", 1, true),
    ("c", 1, false),
    ("ab", 2, false),
];

/// What differs then, rising by the bytes.
const DIFFERS: &[(&str, bool, u64)] = &[("a", false, 1), ("ab", false, 2), ("b", true, 2)];

/// So many that they are not all compared whole at once. All begin alike; some end soon, and some
/// are alike for eight bytes more.
const MANY_ADDED: &[(&str, u64, bool)] = &[
    ("-A12345678z", 1, true),
    ("-A9", 1, true),
    ("-A12345678a", 1, true),
    ("-A", 2, false),
    ("-A12345678", 1, true),
    ("-A\u{e9}", 1, false),
    ("-Ab", 1, true),
    ("-A1", 1, true),
    ("-A12345678m", 3, true),
    ("-A0", 1, false),
    ("-A12345678z", 1, true),
    ("-AB", 1, true),
    ("-A9", 1, false),
    ("-A123456789", 1, false),
    ("-A12345678a", 2, false),
    ("-Ab", 1, true),
    ("-A1234", 1, true),
    ("-A", 1, true),
];

/// What differs then.
const MANY_DIFFER: &[(&str, bool, u64)] = &[
    ("-A", false, 1),
    ("-A0", false, 1),
    ("-A1", true, 1),
    ("-A1234", true, 1),
    ("-A12345678", true, 1),
    ("-A123456789", false, 1),
    ("-A12345678a", false, 1),
    ("-A12345678m", true, 3),
    ("-A12345678z", true, 2),
    ("-AB", true, 1),
    ("-Ab", true, 2),
    ("-A\u{e9}", false, 1),
];

fn expect_difference(rt: &impl Abort, told: &Difference, want: &(&str, bool, u64)) {
    expect_bytes(rt, told.bytes.as_slice(), want.0.as_bytes(), "");
    assert!(rt; told.gain == want.1 && told.count == want.2);
}

fn expect_differences(
    rt: &impl Abort,
    alloc: Global,
    adds: &[(&str, u64, bool)],
    differ: &[(&str, bool, u64)],
) -> Result<(), AllocError> {
    let mut bag = SignedBag::new(alloc);
    for (key, times, gain) in adds {
        assert!(rt; bag.adds() <= 100 && *times <= 3);
        bag.add(bytes_of(alloc, key.as_bytes())?, *times, *gain)?;
    }
    let told = bag.difference(alloc)?;
    assert_eq!(rt; told.len(), differ.len());
    for (difference, want) in told.as_slice().iter().zip(differ) {
        expect_difference(rt, difference, want);
    }
    Ok(())
}

#[test]
fn a_bag_tells_what_differs(rt: HostRuntime) -> Result<(), Fail> {
    expect_differences(&rt, rt.alloc(), ADDED, DIFFERS)?;
    expect_differences(&rt, rt.alloc(), MANY_ADDED, MANY_DIFFER)?;
    Ok(())
}

#[test]
fn an_empty_bag_tells_nothing(rt: HostRuntime) -> Result<(), Fail> {
    let told = SignedBag::new(rt.alloc()).difference(rt.alloc())?;
    assert_eq!(rt; told.len(), 0);
    Ok(())
}
