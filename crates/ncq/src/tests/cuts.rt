//! The same script in pieces of every size, and scripts that end in the middle of a command.

use super::{
    DELETE, LOST_95, PUT_95, PUT_96, SOURCE, TOLD_95, TOLD_96, WATCH, expect_end, in_pieces, joined,
};
use ncq_run::Status;
use std::alloc::Global;
use std::process::Abort;
use std::test::Fail;

/// So lines, words and ends of lines are cut at each of their bytes.
#[test]
fn pieces_of_any_size_make_one_output(rt: HostRuntime) -> Result<(), Fail> {
    let alloc = rt.alloc();
    let script = joined(alloc, &[SOURCE, WATCH, PUT_95, PUT_96])?;
    let want = joined(alloc, &["1 ok\n2 ok\n3 ok\n", TOLD_95, "4 ok\n", TOLD_96])?;
    for piece in 1..65 {
        expect_end(&rt, &rt, &script, in_pieces(piece), Status::Done, &want, "")?;
    }
    Ok(())
}

/// Five commands of 37, 102, 71, 21 and 21 bytes.
const SCRIPT: &[&str] = &[SOURCE, WATCH, PUT_95, DELETE, DELETE];

/// The lengths of a front of the script, from the first to the last, and the whole output of such a
/// front.
type Front<'a> = (usize, usize, &'a [&'a str]);

const FRONTS: &[Front<'_>] = &[
    // A script without a byte has no command.
    (0, 0, &[]),
    // A cut word is another word, and without its sixth word the line has not the form of `source`.
    (1, 30, &["1 refused 1 command\n"]),
    // From its first byte on the sixth word is a tag. The line feed is not needed.
    (31, 37, &["1 ok\n"]),
    // `creat` is no command, but `create` opens a block.
    (38, 42, &["1 ok\n2 refused 1 command\n"]),
    (43, 137, &["1 ok\n2 refused 16 unfinished\n"]),
    // The dot ends the block, with and without its line feed.
    (138, 139, &["1 ok\n2 ok\n"]),
    // `delta` alone, also with a blank behind it, has no name; from the first byte of a name on the
    // block is open.
    (140, 145, &["1 ok\n2 ok\n3 refused 1 command\n"]),
    (146, 208, &["1 ok\n2 ok\n3 refused 16 unfinished\n"]),
    (209, 210, &["1 ok\n2 ok\n3 ok\n", TOLD_95]),
    (
        211,
        216,
        &["1 ok\n2 ok\n3 ok\n", TOLD_95, "4 refused 1 command\n"],
    ),
    (
        217,
        229,
        &["1 ok\n2 ok\n3 ok\n", TOLD_95, "4 refused 16 unfinished\n"],
    ),
    (
        230,
        231,
        &["1 ok\n2 ok\n3 ok\n", TOLD_95, "4 ok\n", LOST_95],
    ),
    (
        232,
        237,
        &[
            "1 ok\n2 ok\n3 ok\n",
            TOLD_95,
            "4 ok\n",
            LOST_95,
            "5 refused 1 command\n",
        ],
    ),
    (
        238,
        250,
        &[
            "1 ok\n2 ok\n3 ok\n",
            TOLD_95,
            "4 ok\n",
            LOST_95,
            "5 refused 16 unfinished\n",
        ],
    ),
    (
        251,
        252,
        &[
            "1 ok\n2 ok\n3 ok\n",
            TOLD_95,
            "4 ok\n",
            LOST_95,
            "5 refused 7 no-key 1\n",
        ],
    ),
];

/// The script that ends behind this byte has this output, in pieces of two sizes.
fn expect_front(
    rt: &impl Abort,
    host: &HostRuntime,
    script: &[u8],
    end: usize,
    want: &[u8],
) -> Result<(), Fail> {
    let front = &script[..end.min(script.len())];
    expect_end(rt, host, front, in_pieces(1), Status::Done, want, "")?;
    expect_end(rt, host, front, in_pieces(64), Status::Done, want, "")
}

/// The fronts of one row.
fn expect_fronts(
    rt: &impl Abort,
    host: &HostRuntime,
    script: &[u8],
    row: &Front<'_>,
) -> Result<(), Fail> {
    let alloc = host.alloc();
    let want = joined(alloc, row.2)?;
    for end in row.0..row.1.saturating_add(1) {
        expect_front(rt, host, script, end, &want)?;
    }
    Ok(())
}

#[test]
fn a_cut_script_is_read_up_to_its_end(rt: HostRuntime) -> Result<(), Fail> {
    let alloc = rt.alloc();
    let script = joined(alloc, SCRIPT)?;
    let mut next = 0;
    for row in FRONTS {
        assert_eq!(rt; row.0, next);
        expect_fronts(&rt, &rt, &script, row)?;
        next = row.1.saturating_add(1);
    }
    assert_eq!(rt; next, script.len().saturating_add(1));
    Ok(())
}
