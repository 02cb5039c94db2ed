//! What a query is told that is created over data, and of the first change behind it, worked out by
//! hand.
//!
//! Each element of the source has a letter and a value. What is told names the letters: `+1a;` is
//! the gain of one `a`.

use super::{expect_output, joined, push_notice, put};
use std::alloc::{AllocError, Global};
use std::test::Fail;

/// A source with elements of two tags, and a source without an element.
const DATA: &str = "source s root Es key @id\nsource t root Es key @id\ndelta s\n\
    (E\nAid a\nAv 1\n)E\n(E\nAid b\nAv ab\n)E\n(E\nAid c\nAv 1.0\n)E\n(E\nAid d\nAv 3\n)E\n\
    (E\nAid e\nAv +01.000\n)E\n(E\nAid f\nAv 10\n)E\n(E\nAid g\nAv ab \n)E\n(E\nAid h\nAv\n)E\n\
    (F\nAid z\nAv 1\n)F\n.\n";

/// One element gets another value, one goes, and one comes.
const CHANGE: &str = "delta s\n(E\nAid a\nAv 10\n)E\n!c\n(E\nAid i\nAv 1\n)E\n.\n";

/// A name, what is asked, and what is told at the create, at the change, and at a first firing
/// behind the change.
type Row = (
    &'static str,
    &'static str,
    &'static str,
    &'static str,
    &'static str,
);

const ROWS: &[Row] = &[
    // A number is met however it is spelled, a text by its very bytes alone.
    (
        "one",
        "<Es><E id=$i v=\"1\"/></> IN s",
        "+1a;+1c;+1e;",
        "-1a;-1c;+1i;",
        "+1e;+1i;",
    ),
    (
        "text",
        "<Es><E id=$i v=\"ab\"/></> IN s",
        "+1b;",
        "",
        "+1b;",
    ),
    (
        "ten",
        "<Es><E id=$i v=\"10.0\"/></> IN s",
        "+1f;",
        "+1a;",
        "+1a;+1f;",
    ),
    ("empty", "<Es><E id=$i v=\"\"/></> IN s", "+1h;", "", "+1h;"),
    ("two", "<Es><E id=$i v=\"2\"/></> IN s", "", "", ""),
    // No text is in an interval.
    (
        "within",
        "<Es><E id=$i v=$v/></> IN s, $v >= 1, $v < 10",
        "+1a;+1c;+1d;+1e;",
        "-1a;-1c;+1i;",
        "+1d;+1e;+1i;",
    ),
    (
        "above",
        "<Es><E id=$i v=$v/></> IN s, $v > 1",
        "+1d;+1f;",
        "+1a;",
        "+1a;+1d;+1f;",
    ),
    (
        "below",
        "<Es><E id=$i v=$v/></> IN s, $v <= 1",
        "+1a;+1c;+1e;",
        "-1a;-1c;+1i;",
        "+1e;+1i;",
    ),
    ("none", "<Es><E id=$i v=$v/></> IN s, $v < 0", "", "", ""),
    // A scan has a row for each element of its tag in its source.
    (
        "all",
        "<Es><E id=$i v=$v/></> IN s",
        "+1a;+1b;+1c;+1d;+1e;+1f;+1g;+1h;",
        "-1c;+1i;",
        "+1a;+1b;+1d;+1e;+1f;+1g;+1h;+1i;",
    ),
    ("others", "<Es><F id=$i v=$v/></> IN s", "+1z;", "", "+1z;"),
    ("nothing", "<Es><E id=$i v=$v/></> IN t", "", "", ""),
    // A join finds the rows of both sides.
    (
        "joined",
        "<Es><F id=$j v=$v/><E id=$i v=$v/></> IN s",
        "+1a;+1c;+1e;",
        "-1a;-1c;+1i;",
        "+1e;+1i;",
    ),
];

/// The create of a row, with its times.
fn push_create(
    alloc: Global,
    row: &Row,
    times: &'static str,
    out: &mut Vec<u8>,
) -> Result<(), AllocError> {
    let parts = [
        "create ",
        row.0,
        " WHERE ",
        row.1,
        " CONSTRUCT <p>$i</> DO print ",
        times,
        "\n.\n",
    ];
    out.extend_from_slice(&joined(alloc, &parts)?)
}

/// The notice of a row at this instant, where something is told.
fn push_told(
    alloc: Global,
    row: &Row,
    instant: &'static str,
    told: &str,
    out: &mut Vec<u8>,
) -> Result<(), AllocError> {
    let head = joined(alloc, &["notice ", row.0, " ", instant, "\n"])?;
    push_notice(&head, told, out)
}

/// Each is alone: all its files are new.
#[test]
fn a_create_tells_what_is_there(rt: HostRuntime) -> Result<(), Fail> {
    let alloc = rt.alloc();
    for row in ROWS {
        let mut script = joined(alloc, &[DATA])?;
        push_create(alloc, row, "", &mut script)?;
        let mut want = joined(alloc, &["1 ok\n2 ok\n3 ok\n4 ok\n"])?;
        push_told(alloc, row, "0", row.2, &mut want)?;
        expect_output(&rt, &rt, &script, &want, row.0)?;
    }
    Ok(())
}

/// Each comes behind those above it: the scan and its index are there, and other constants and
/// intervals of its group. Then each is told the change.
#[test]
fn a_create_behind_others_tells_what_is_there(rt: HostRuntime) -> Result<(), Fail> {
    let alloc = rt.alloc();
    let mut script = joined(alloc, &[DATA])?;
    let mut want = joined(alloc, &["1 ok\n2 ok\n3 ok\n"])?;
    let mut changes = Vec::new(alloc);
    let mut number = 4u64;
    for row in ROWS {
        push_create(alloc, row, "", &mut script)?;
        put("", number, " ok\n", &mut want)?;
        push_told(alloc, row, "0", row.2, &mut want)?;
        push_told(alloc, row, "0", row.3, &mut changes)?;
        number = number.saturating_add(1);
    }
    script.extend_from_slice(CHANGE.as_bytes())?;
    want.extend_from_slice(b"17 ok\n")?;
    want.extend_from_slice(&changes)?;
    expect_output(&rt, &rt, &script, &want, "")
}

/// The answers of all commands where who starts later is told nothing at its create.
const ACCEPTED: &str = "1 ok\n2 ok\n3 ok\n4 ok\n5 ok\n6 ok\n7 ok\n8 ok\n9 ok\n10 ok\n11 ok\n12 ok\n\
    13 ok\n14 ok\n15 ok\n16 ok\n17 ok\n18 ok\n";

/// Who starts behind the change is told the whole content then.
#[test]
fn a_first_firing_tells_what_is_there_by_then(rt: HostRuntime) -> Result<(), Fail> {
    let alloc = rt.alloc();
    let mut script = joined(alloc, &[DATA])?;
    let mut want = joined(alloc, &[ACCEPTED])?;
    for row in ROWS {
        push_create(alloc, row, "START 5", &mut script)?;
        push_told(alloc, row, "5", row.4, &mut want)?;
    }
    script.extend_from_slice(CHANGE.as_bytes())?;
    script.extend_from_slice(b"clock 5\n")?;
    expect_output(&rt, &rt, &script, &want, "")
}
