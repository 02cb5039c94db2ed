//! Reports, tallies and the commands of a load, worked out by hand, each behind a byte that was
//! there before.

use super::expect_bytes;
use ncq_base::bytes_of;
use ncq_report::{Summary, Tally, generate, write_report, write_tally};
use ncq_signature::{GroupLine, GroupLines};
use std::alloc::{AllocError, Global};
use std::process::Abort;
use std::test::Fail;

/// Groups of so many constants, with these signatures.
fn groups(alloc: Global, lines: &[(u64, &str)]) -> Result<GroupLines, AllocError> {
    let mut groups = GroupLines::new(alloc);
    for (constants, text) in lines {
        groups.push(GroupLine {
            text: bytes_of(alloc, text.as_bytes())?,
            constants: *constants,
        })?;
    }
    Ok(groups)
}

/// The report behind a dot.
fn report(alloc: Global, summary: &Summary) -> Result<Vec<u8>, AllocError> {
    let mut out = vec![in alloc; b'.']?;
    write_report(summary, &mut out)?;
    Ok(out)
}

/// The report of two groups.
fn report_of_groups(alloc: Global) -> Result<Vec<u8>, AllocError> {
    let lines = [
        (2, "eq(scan(quotes,Quote(Symbol=)!e),0)"),
        (0, "scan(quotes,Quote(Symbol=)!e)"),
    ];
    let summary = Summary {
        queries: 2,
        sources: 1,
        changes: 0,
        files: 3,
        groups: groups(alloc, &lines)?,
    };
    report(alloc, &summary)
}

#[test]
fn a_report_has_a_line_for_each_group(rt: HostRuntime) -> Result<(), Fail> {
    let out = report_of_groups(rt.alloc())?;
    let want = ".queries 2\nsources 1\nchanges 0\nfiles 3\ngroups 2\n\
        group 2 eq(scan(quotes,Quote(Symbol=)!e),0)\ngroup 0 scan(quotes,Quote(Symbol=)!e)\nend\n";
    expect_bytes(&rt, &out, want.as_bytes(), "");
    Ok(())
}

fn report_of_nothing(alloc: Global) -> Result<Vec<u8>, AllocError> {
    let summary = Summary {
        queries: 0,
        sources: 0,
        changes: 0,
        files: 0,
        groups: groups(alloc, &[])?,
    };
    report(alloc, &summary)
}

#[test]
fn a_report_of_nothing_has_its_counts(rt: HostRuntime) -> Result<(), Fail> {
    let out = report_of_nothing(rt.alloc())?;
    let want = ".queries 0\nsources 0\nchanges 0\nfiles 0\ngroups 0\nend\n";
    expect_bytes(&rt, &out, want.as_bytes(), "");
    Ok(())
}

/// The tally behind a dot.
fn tally_lines(alloc: Global, tally: &Tally) -> Result<Vec<u8>, AllocError> {
    let mut out = vec![in alloc; b'.']?;
    write_tally(tally, &mut out)?;
    Ok(out)
}

#[test]
fn a_tally_has_four_lines(rt: HostRuntime) -> Result<(), Fail> {
    let tally = Tally {
        commands: 4004,
        refused: 18_446_744_073_709_551_615,
        notices: 70,
        bytes: 36_893_488_147_419_103_232,
    };
    let out = tally_lines(rt.alloc(), &tally)?;
    let want = ".commands 4004\nrefused 18446744073709551615\nnotices 70\n\
        bytes 36893488147419103232\n";
    expect_bytes(&rt, &out, want.as_bytes(), "");
    Ok(())
}

/// A part of a load behind a dot, and nothing where the load has no such part.
fn part(alloc: Global, n: u64, part: u64) -> Result<Vec<u8>, AllocError> {
    if n == 0 || n > 2000 || part >= 2 * n + 4 {
        return Ok(Vec::new(alloc));
    }
    let mut out = vec![in alloc; b'.']?;
    generate(n, part, &mut out)?;
    Ok(out)
}

/// The subscribers, the part and its text: all parts of a load of four but the companies, and some
/// of the largest load.
const PARTS: &[(u64, u64, &str)] = &[
    (4, 0, ".source quotes root Quotes key Symbol\n"),
    (4, 1, ".source companies root Companies key Symbol\n"),
    (
        4,
        2,
        ".create q0 WHERE <Quotes><Quote><Symbol>S0</></> ELEMENT_AS $g</> IN \"quotes\" \
            CONSTRUCT $g DO count\n.\n",
    ),
    (
        4,
        3,
        ".create q1 WHERE <Quotes><Quote><Price>$p</></> ELEMENT_AS $g</> IN \"quotes\", \
            $p > 37 CONSTRUCT $g DO count\n.\n",
    ),
    (
        4,
        4,
        ".create q2 WHERE <Quotes><Quote><Symbol>$s</></> ELEMENT_AS $g</> IN \"quotes\", \
            <Companies><Company><Symbol>$s</><Area>A2</></></> IN \"companies\" \
            CONSTRUCT <hit>$g</> DO count\n.\n",
    ),
    (
        4,
        5,
        ".create q3 WHERE <Quotes><Quote><Symbol>S3</></> ELEMENT_AS $g</> IN \"quotes\" \
            CONSTRUCT $g DO count\n.\n",
    ),
    (
        4,
        7,
        ".delta quotes\n(Quote\n(Symbol\n-S0\n)Symbol\n(Price\n-0\n)Price\n)Quote\n.\n",
    ),
    (
        4,
        8,
        ".delta quotes\n(Quote\n(Symbol\n-S1\n)Symbol\n(Price\n-53\n)Price\n)Quote\n.\n",
    ),
    (
        4,
        9,
        ".delta quotes\n(Quote\n(Symbol\n-S2\n)Symbol\n(Price\n-106\n)Price\n)Quote\n.\n",
    ),
    (
        4,
        10,
        ".delta quotes\n(Quote\n(Symbol\n-S3\n)Symbol\n(Price\n-159\n)Price\n)Quote\n.\n",
    ),
    (4, 11, ".report\n"),
    (4, 12, ""),
    (
        2000,
        1999,
        ".create q1997 WHERE <Quotes><Quote><Symbol>$s</></> ELEMENT_AS $g</> IN \"quotes\", \
            <Companies><Company><Symbol>$s</><Area>A7</></></> IN \"companies\" \
            CONSTRUCT <hit>$g</> DO count\n.\n",
    ),
    (
        2000,
        2000,
        ".create q1998 WHERE <Quotes><Quote><Symbol>S98</></> ELEMENT_AS $g</> IN \"quotes\" \
            CONSTRUCT $g DO count\n.\n",
    ),
    (
        2000,
        2001,
        ".create q1999 WHERE <Quotes><Quote><Price>$p</></> ELEMENT_AS $g</> IN \"quotes\", \
            $p > 963 CONSTRUCT $g DO count\n.\n",
    ),
    (
        2000,
        4002,
        ".delta quotes\n(Quote\n(Symbol\n-S99\n)Symbol\n(Price\n-947\n)Price\n)Quote\n.\n",
    ),
    (2000, 4003, ".report\n"),
];

fn expect_same(rt: &impl Abort, got: &[u8], want: &[u8], n: u64, at: u64) {
    assert_eq!(rt; got, want, "{n} {at}");
}

/// Compares a part of a load.
fn expect_part(
    rt: &impl Abort,
    alloc: Global,
    n: u64,
    at: u64,
    want: &str,
) -> Result<(), AllocError> {
    let out = part(alloc, n, at)?;
    expect_same(rt, &out, want.as_bytes(), n, at);
    Ok(())
}

#[test]
fn a_load_has_its_parts_in_order(rt: HostRuntime) -> Result<(), Fail> {
    for (n, at, want) in PARTS {
        expect_part(&rt, rt.alloc(), *n, *at, want)?;
    }
    Ok(())
}

const FIRST_COMPANIES: &str = ".delta companies\n\
    (Company\n(Symbol\n-S0\n)Symbol\n(Area\n-A0\n)Area\n)Company\n\
    (Company\n(Symbol\n-S1\n)Symbol\n(Area\n-A1\n)Area\n)Company\n";

const LAST_COMPANIES: &str = "(Company\n(Symbol\n-S98\n)Symbol\n(Area\n-A8\n)Area\n)Company\n\
    (Company\n(Symbol\n-S99\n)Symbol\n(Area\n-A9\n)Area\n)Company\n.\n";

fn expect_companies(rt: &impl Abort, out: &[u8]) {
    assert!(rt; out.starts_with(FIRST_COMPANIES.as_bytes()));
    assert!(rt; out.ends_with(LAST_COMPANIES.as_bytes()));
    // the byte that was there, the first and the last line, and the eight lines of each company
    assert_eq!(rt; out.len(), 1 + 16 + 2 + 10 * 54 + 90 * 55);
}

#[test]
fn a_load_has_a_hundred_companies(rt: HostRuntime) -> Result<(), Fail> {
    let out = part(rt.alloc(), 4, 6)?;
    expect_companies(&rt, &out);
    Ok(())
}
