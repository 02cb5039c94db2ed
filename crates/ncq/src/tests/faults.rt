//! Reads and writes that fail, and room that runs out.

use super::{
    Outside, PUT_95, PUT_96, SOURCE, TOLD_95, TOLD_96, WATCH, calls_of, expect_end, in_pieces,
    joined,
};
use ncq_run::{Status, exit_code};
use std::alloc::{AllocError, Global};
use std::process::Abort;
use std::test::Fail;

const SCRIPT: [&str; 4] = [SOURCE, WATCH, PUT_95, PUT_96];

/// What is written of the answers, where so many of the four commands are answered.
fn answers(alloc: Global, count: usize) -> Result<Vec<u8>, AllocError> {
    let all = ["1 ok\n", "2 ok\n", "3 ok\n", TOLD_95, "4 ok\n", TOLD_96];
    match count {
        0 => joined(alloc, &[]),
        1 => joined(alloc, &all[..1]),
        2 => joined(alloc, &all[..2]),
        3 => joined(alloc, &all[..4]),
        _ => joined(alloc, &all),
    }
}

/// The session on the four commands ends so, with this written.
fn expect_session(
    rt: &impl Abort,
    host: &HostRuntime,
    outside: Outside<'_>,
    status: Status,
    written: &[u8],
) -> Result<(), Fail> {
    let alloc = host.alloc();
    let script = joined(alloc, &SCRIPT)?;
    expect_end(rt, host, &script, outside, status, written, "")
}

/// Where the read at a number fails, the commands that were whole by then are answered.
/// Each read gives one byte, so the read behind a command's last byte is the first that leaves it
/// answered.
#[test]
fn a_read_that_fails_leaves_the_answers_so_far(rt: HostRuntime) -> Result<(), Fail> {
    let alloc = rt.alloc();
    let mut read = 0u64;
    for (count, command) in SCRIPT.iter().enumerate() {
        let written = answers(alloc, count)?;
        for _ in command.as_bytes() {
            read = read.saturating_add(1);
            let outside = Outside {
                read_faults: &[read],
                ..in_pieces(1)
            };
            expect_session(&rt, &rt, outside, Status::ReadFault, &written)?;
        }
    }
    Ok(())
}

/// The last read finds the end of the script. Where it fails, all is answered, but the script is
/// not known to be whole.
#[test]
fn the_read_of_the_end_may_fail(rt: HostRuntime) -> Result<(), Fail> {
    let alloc = rt.alloc();
    let all = answers(alloc, 4)?;
    let length = joined(alloc, &SCRIPT)?.len();
    for (read, status) in [
        (length.saturating_add(1), Status::ReadFault),
        (length.saturating_add(2), Status::Done),
    ] {
        let outside = Outside {
            read_faults: &[read as u64],
            ..in_pieces(1)
        };
        expect_session(&rt, &rt, outside, status, &all)?;
    }
    // The first read of all, and the second of two.
    for (read, count) in [(1, 0), (2, 4)] {
        let outside = Outside {
            read_faults: &[read],
            ..in_pieces(4096)
        };
        let written = answers(alloc, count)?;
        expect_session(&rt, &rt, outside, Status::ReadFault, &written)?;
    }
    Ok(())
}

/// Each answer is offered whole in one write, so the write at a number is that of the command of
/// this number.
#[test]
fn a_write_that_fails_leaves_the_answers_before_it(rt: HostRuntime) -> Result<(), Fail> {
    let alloc = rt.alloc();
    for (write, status, count) in [
        (1, Status::WriteFault, 0),
        (2, Status::WriteFault, 1),
        (3, Status::WriteFault, 2),
        (4, Status::WriteFault, 3),
        (5, Status::Done, 4),
    ] {
        let outside = Outside {
            write_faults: &[write],
            ..in_pieces(7)
        };
        let written = answers(alloc, count)?;
        expect_session(&rt, &rt, outside, status, &written)?;
    }
    Ok(())
}

#[test]
fn room_that_runs_out_holds_a_front_of_the_output(rt: HostRuntime) -> Result<(), Fail> {
    let alloc = rt.alloc();
    let all = answers(alloc, 4)?;
    for (room, _) in all.iter().enumerate() {
        let outside = Outside {
            room,
            ..in_pieces(64)
        };
        expect_session(&rt, &rt, outside, Status::WriteFault, &all[..room])?;
    }
    let outside = Outside {
        room: all.len(),
        ..in_pieces(64)
    };
    expect_session(&rt, &rt, outside, Status::Done, &all)
}

#[test]
fn each_status_has_its_exit_code(rt: HostRuntime) {
    for (status, code) in [
        (Status::Done, 0),
        (Status::Usage, 2),
        (Status::ReadFault, 3),
        (Status::WriteFault, 4),
        (Status::NoMemory, 5),
        (Status::ScriptTooLong, 6),
    ] {
        assert_eq!(rt; exit_code(status), code);
    }
}
