//! The forms of the command line: which words fit one, one subscriber alone, and a load.

use super::{
    DELETE, Outcome, Outside, PUT_95, PUT_96, SOURCE, TOLD_95, TOLD_96, WATCH, calls_of,
    expect_bytes, in_pieces, joined, run_program,
};
use ncq_base::bytes_of;
use ncq_outside::{Sink, Source, memory_sink, memory_source};
use ncq_run::Status;
use std::alloc::{AllocError, Global};
use std::process::Abort;
use std::test::Fail;

/// Words that fit no form.
const OTHER_WORDS: &[&[&str]] = &[
    &[],
    &["alone"],
    &["alone", ""],
    &["alone", "-w"],
    &["alone", "w", "x"],
    &["load"],
    &["load", "0"],
    &["load", "2001"],
    &["load", "0000001"],
    &["load", "x"],
    &["load", "1", "2"],
    &["--help"],
    &["-h"],
    &["help"],
    &["version"],
    &["run", "x"],
    &["run", ""],
    &["", "run"],
    &["Run"],
    &["run "],
    &["ru"],
    &[""],
    &["-"],
];

fn refuse_words<I: Source, O: Sink>(
    rt: &impl Abort,
    host: &HostRuntime,
    input: &mut I,
    output: &mut O,
) {
    for words in OTHER_WORDS {
        let status = run_program(host, words, input, output);
        assert!(rt; status == Status::Usage);
    }
}

/// Such words read and write nothing: the same source then gives its whole script.
#[test]
fn other_words_read_and_write_nothing(rt: HostRuntime) -> Result<(), Fail> {
    let alloc = rt.alloc();
    let none = calls_of(alloc, &[])?;
    let mut input = memory_source(bytes_of(alloc, b"clock 0\n")?, 64, none);
    let mut output = memory_sink(alloc, 64, calls_of(alloc, &[])?)?;
    refuse_words(&rt, &rt, &mut input, &mut output);
    assert!(rt; output.held().is_empty());
    let status = run_program(&rt, &["run"], &mut input, &mut output);
    assert!(rt; status == Status::Done);
    expect_bytes(&rt, output.held(), b"1 ok\n", "");
    Ok(())
}

/// The outcome of the program with these words on this script.
fn outcome_with(
    host: &HostRuntime,
    words: &[&str],
    script: &[u8],
    outside: Outside<'_>,
) -> Result<Outcome, AllocError> {
    let alloc = host.alloc();
    let read_faults = calls_of(alloc, outside.read_faults)?;
    let write_faults = calls_of(alloc, outside.write_faults)?;
    let script = bytes_of(alloc, script)?;
    let mut input = memory_source(script, outside.piece.max(1), read_faults);
    let mut output = memory_sink(alloc, outside.room, write_faults)?;
    let status = run_program(host, words, &mut input, &mut output);
    Ok(Outcome {
        status,
        written: Vec::from_slice(alloc, output.held())?,
    })
}

/// The program with these words on this script ends so, with this written.
fn expect_with(
    rt: &impl Abort,
    host: &HostRuntime,
    words: &[&str],
    script: &[u8],
    outside: Outside<'_>,
    want: (Status, &[u8]),
) -> Result<(), Fail> {
    let outcome = outcome_with(host, words, script, outside)?;
    assert_eq!(rt; outcome.status, want.0);
    expect_bytes(rt, &outcome.written, want.1, "");
    Ok(())
}

/// Another subscriber of the same quotes, whose name begins with that of `w`.
const OTHER: &str =
    "create w2 WHERE <Quotes><Quote><Symbol>INTC</></> ELEMENT_AS $g</> IN \"quotes\" CONSTRUCT $g \
     DO count\n.\n";

/// A script that tells `w` twice and `w2` three times: the delete ends `w`, and `w` is then created
/// again, which is refused while it is live.
const TOLD_BOTH: [&str; 7] = [
    SOURCE,
    WATCH,
    OTHER,
    PUT_95,
    WATCH,
    PUT_96,
    "delete w\ndelta quotes\n!INTC\n.\nreport\n",
];

/// Each subscriber gets its own notices as they stand in the whole output, and nothing else.
#[test]
fn one_subscriber_gets_its_own_notices(rt: HostRuntime) -> Result<(), Fail> {
    let alloc = rt.alloc();
    let script = joined(alloc, &TOLD_BOTH)?;
    let own = joined(alloc, &[TOLD_95, TOLD_96])?;
    let counts = b"count w2 0 gain 1 lose 0\ncount w2 0 gain 1 lose 1\ncount w2 0 gain 0 lose 1\n";
    for (name, want) in [
        ("w", own.as_slice()),
        ("w2", counts.as_slice()),
        ("W", b"".as_slice()),
        ("w22", b"".as_slice()),
        ("quotes", b"".as_slice()),
    ] {
        for piece in [1, 7, 4096] {
            let words = ["alone", name];
            let end = (Status::Done, want);
            expect_with(&rt, &rt, &words, &script, in_pieces(piece), end)?;
        }
    }
    Ok(())
}

/// No call writes where nothing is told: the first write is that of the first notice.
#[test]
fn nothing_told_is_nothing_written(rt: HostRuntime) -> Result<(), Fail> {
    let alloc = rt.alloc();
    let script = joined(alloc, &[SOURCE, OTHER, WATCH, PUT_95, DELETE])?;
    for (write, status, want) in [
        (1, Status::WriteFault, ""),
        (2, Status::WriteFault, TOLD_95),
        (3, Status::Done, ""),
    ] {
        let outside = Outside {
            write_faults: &[write],
            ..in_pieces(4096)
        };
        let outcome = outcome_with(&rt, &["alone", "w"], &script, outside)?;
        assert_eq!(rt; outcome.status, status);
        if status == Status::WriteFault {
            expect_bytes(&rt, &outcome.written, want.as_bytes(), "");
        }
    }
    Ok(())
}

/// A load of one subscriber, by hand: six commands, one notice, and 188 bytes.
const LOAD_OF_ONE: &[u8] = b"commands 6\nrefused 0\nnotices 1\nbytes 188\n";

/// A load reads nothing: the source that fails at once is never asked.
#[test]
fn a_load_writes_its_tally_and_reads_nothing(rt: HostRuntime) -> Result<(), Fail> {
    let outside = Outside {
        read_faults: &[1],
        ..in_pieces(64)
    };
    let end = (Status::Done, LOAD_OF_ONE);
    expect_with(&rt, &rt, &["load", "1"], b"clock 0\n", outside, end)?;
    let end = (Status::Done, LOAD_OF_ONE);
    expect_with(&rt, &rt, &["load", "000001"], b"", in_pieces(64), end)
}

/// A sink without room for the tally fails, and holds the front of it that it had room for.
#[test]
fn a_tally_may_fail_to_be_written(rt: HostRuntime) -> Result<(), Fail> {
    let outside = Outside {
        room: 11,
        ..in_pieces(64)
    };
    let end = (Status::WriteFault, b"commands 6\n".as_slice());
    expect_with(&rt, &rt, &["load", "1"], b"", outside, end)
}

/// Six hundred subscribers make 1,204 commands, none is refused, and a second time all is the same.
#[test]
fn a_load_is_the_same_each_time(rt: HostRuntime) -> Result<(), Fail> {
    let first = outcome_with(&rt, &["load", "600"], b"", in_pieces(64))?;
    let second = outcome_with(&rt, &["load", "600"], b"", in_pieces(64))?;
    assert!(rt; first.status == Status::Done && second.status == Status::Done);
    expect_bytes(&rt, &first.written, &second.written, "");
    let front = b"commands 1204\nrefused 0\nnotices ";
    assert!(rt; first.written.as_slice().starts_with(front));
    Ok(())
}

/// Two thousand subscribers make 4,004 commands, and none is refused.
#[test]
fn a_load_of_two_thousand_ends(rt: HostRuntime) -> Result<(), Fail> {
    let outcome = outcome_with(&rt, &["load", "2000"], b"", in_pieces(64))?;
    assert!(rt; outcome.status == Status::Done);
    let front = b"commands 4004\nrefused 0\nnotices ";
    assert!(rt; outcome.written.as_slice().starts_with(front));
    Ok(())
}
