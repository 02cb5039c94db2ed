//! Whole sessions over memory: a script comes in, and the status and the written bytes are compared
//! with values that were worked by hand.

ghost use Rattle.std.specs.Prelude.{◌≡◌, ◌<◌};

use crate::session;
use ncq_base::{Steps, bytes_of, write_decimal};
use ncq_callback::Handlers;
use ncq_engine::Engine;
use ncq_outside::{Calls, Sink, Source, memory_sink, memory_source};
use ncq_run::{Status, run};
use std::alloc::{AllocError, Global};
use std::hash::RandomState;
use std::io;
use std::marker::Brand;
use std::mem::forget;
use std::process::Abort;
use std::random::RandomSource;
use std::sync::ledger::{Blank, Ledger};
use std::test::Fail;

mod actions;
mod answers;
mod batches;
mod blocks;
mod cuts;
mod declarations;
mod distinct;
mod early_and_late;
mod embedded;
mod faults;
mod forms;
mod held;
mod installs;
mod join_first;
mod joins;
mod limits;
mod lines;
mod many;
mod notices;
mod paths;
mod predicates;
mod ranges;
mod refused;
mod reports;
mod shared;
mod sides;
mod statements;
mod times;
mod told;
mod turns;
mod values;

/// Declares the source `quotes`. The key of its elements is their child `Symbol`.
const SOURCE: &str = "source quotes root Quotes key Symbol\n";

/// Installs the query `w`: the quotes whose symbol is INTC.
const WATCH: &str =
    "create w WHERE <Quotes><Quote><Symbol>INTC</></> ELEMENT_AS $g</> IN \"quotes\" CONSTRUCT $g \
     DO print\n.\n";

/// Puts the quote INTC at 95.5, and the same quote at 96.
const PUT_95: &str =
    "delta quotes\n(Quote\n(Symbol\n-INTC\n)Symbol\n(Price\n-95.5\n)Price\n)Quote\n.\n";

const PUT_96: &str =
    "delta quotes\n(Quote\n(Symbol\n-INTC\n)Symbol\n(Price\n-96\n)Price\n)Quote\n.\n";

/// What `w` is told of the first put, and of the second behind the first.
const TOLD_95: &str =
    "notice w 0\ngain 1\n(Quote\n(Symbol\n-INTC\n)Symbol\n(Price\n-95.5\n)Price\n)Quote\nend\n";

const TOLD_96: &str =
    "notice w 0\nlose 1\n(Quote\n(Symbol\n-INTC\n)Symbol\n(Price\n-95.5\n)Price\n)Quote\ngain 1\n\
     (Quote\n(Symbol\n-INTC\n)Symbol\n(Price\n-96\n)Price\n)Quote\nend\n";

/// Deletes the quote INTC.
const DELETE: &str = "delta quotes\n!INTC\n.\n";

/// What `w` is told where the quote of `PUT_95` is deleted.
const LOST_95: &str =
    "notice w 0\nlose 1\n(Quote\n(Symbol\n-INTC\n)Symbol\n(Price\n-95.5\n)Price\n)Quote\nend\n";

/// A script beside its whole output.
type Case<'a> = (&'a str, &'a str);

/// The parts of a script beside the parts of its whole output.
type Parts<'a> = (&'a [&'a str], &'a [&'a str]);

/// The numbers of the reads and writes that fail, the most bytes of a read, and the room for what
/// is written.
#[derive(Clone, Copy)]
struct Outside<'a> {
    piece: usize,
    read_faults: &'a [u64],
    room: usize,
    write_faults: &'a [u64],
}

/// Reads of at most so many bytes, and nothing fails.
fn in_pieces(piece: usize) -> Outside<'static> {
    Outside {
        piece,
        read_faults: &[],
        room: 4096,
        write_faults: &[],
    }
}

/// A source of random bytes that are always the same.
struct OneSeed;

impl RandomSource for OneSeed {
    fn fill_bytes(&self, _bytes: &mut [u8]) -> io::Result<()> {
        Ok(())
    }
}

/// How a session ended, and what it wrote.
#[derive(Drop)]
struct Outcome {
    status: Status,
    written: Vec<u8>,
}

/// The texts, one behind the other.
fn joined(alloc: Global, parts: &[&str]) -> Result<Vec<u8>, AllocError> {
    let mut all = Vec::new(alloc);
    for part in parts {
        all.extend_from_slice(part.as_bytes())?;
    }
    Ok(all)
}

/// A text, a number, and a text.
fn put(front: &str, number: u64, rest: &str, out: &mut Vec<u8>) -> Result<(), AllocError> {
    out.extend_from_slice(front.as_bytes())?;
    write_decimal(number, out)?;
    out.extend_from_slice(rest.as_bytes())
}

/// A byte of what is told, as `push_notice` has it.
fn push_told_byte(byte: u8, out: &mut Vec<u8>) -> Result<(), AllocError> {
    match byte {
        b'+' => out.extend_from_slice(b"gain "),
        b'-' => out.extend_from_slice(b"lose "),
        b'0'..=b'9' => {
            out.push(byte)?;
            out.extend_from_slice(b"\n(p\n-")
        }
        b';' => out.extend_from_slice(b"\n)p\n"),
        _ => Ok(out.push(byte)?),
    }
}

/// A notice with this first line, or nothing where nothing is told. Each difference is told by its
/// sign, its count of one digit, and the text of an element `p`: `+1ab;` is the gain of one `ab`.
fn push_notice(head: &[u8], told: &str, out: &mut Vec<u8>) -> Result<(), AllocError> {
    if told.is_empty() {
        return Ok(());
    }
    out.extend_from_slice(head)?;
    for byte in told.as_bytes() {
        push_told_byte(*byte, out)?;
    }
    out.extend_from_slice(b"end\n")
}

fn calls_of(alloc: Global, numbers: &[u64]) -> Result<Calls, AllocError> {
    let mut all = Calls::new(alloc);
    for number in numbers {
        all.push(*number)?;
    }
    Ok(all)
}

/// A run of a new engine over these handlers, whose steps are counted in this ledger. The engine is
/// forgotten at the end, as the program forgets its own.
fn counted_run<I: Source, O: Sink, L: Ledger>(
    host: &HostRuntime,
    words: &[&str],
    input: &mut I,
    output: &mut O,
    handlers: &Handlers,
    blank: Blank,
) -> Status
where
    requires name { blank.name ≡ L.name }
    requires parts { blank.parts ≡ L.parts }
    requires some { 0 < L.parts }
{
    let alloc = host.alloc();
    let mut steps = Steps::<L>::new(host, blank);
    let Ok(seed) = RandomState::new(&OneSeed) else {
        return Status::NoMemory;
    };
    let Ok(mut engine) = Engine::new(alloc, seed, handlers) else {
        return Status::NoMemory;
    };
    let status = run(
        alloc,
        words,
        input,
        output,
        handlers,
        &mut engine,
        &mut steps,
    );
    forget(engine);
    status
}

/// A run over these handlers, with a counter of its own.
fn run_on<I: Source, O: Sink>(
    host: &HostRuntime,
    words: &[&str],
    input: &mut I,
    output: &mut O,
    handlers: &Handlers,
) -> Status {
    counted_run::<_, _, Brand>(host, words, input, output, handlers, Blank::new(1))
}

/// A session of the program.
fn run_program<I: Source, O: Sink>(
    host: &HostRuntime,
    words: &[&str],
    input: &mut I,
    output: &mut O,
) -> Status {
    let Ok(seed) = RandomState::new(&OneSeed) else {
        return Status::NoMemory;
    };
    session::<_, _, Brand>(host, seed, words, input, output, Blank::new(1)).unwrap_or(
        Status::NoMemory,
    )
}

/// The outcome of `ncq run` on this script.
fn outcome_of(
    host: &HostRuntime,
    script: &[u8],
    outside: Outside<'_>,
) -> Result<Outcome, AllocError> {
    let alloc = host.alloc();
    let read_faults = calls_of(alloc, outside.read_faults)?;
    let write_faults = calls_of(alloc, outside.write_faults)?;
    let script = bytes_of(alloc, script)?;
    let mut input = memory_source(script, outside.piece.max(1), read_faults);
    let mut output = memory_sink(alloc, outside.room, write_faults)?;
    let status = run_program(host, &["run"], &mut input, &mut output);
    Ok(Outcome {
        status,
        written: Vec::from_slice(alloc, output.held())?,
    })
}

fn expect_bytes(rt: &impl Abort, got: &[u8], want: &[u8], why: &str) {
    assert_eq!(rt; got, want, "{why}");
}

/// The session on this script ends so, with this written.
fn expect_end(
    rt: &impl Abort,
    host: &HostRuntime,
    script: &[u8],
    outside: Outside<'_>,
    status: Status,
    written: &[u8],
    why: &str,
) -> Result<(), Fail> {
    let outcome = outcome_of(host, script, outside)?;
    assert_eq!(rt; outcome.status, status, "{why}");
    expect_bytes(rt, &outcome.written, written, why);
    Ok(())
}

/// The script is answered with this output, however it is cut into pieces.
fn expect_output(
    rt: &impl Abort,
    host: &HostRuntime,
    script: &[u8],
    want: &[u8],
    why: &str,
) -> Result<(), Fail> {
    for piece in [1, 7, 65536] {
        expect_end(rt, host, script, in_pieces(piece), Status::Done, want, why)?;
    }
    Ok(())
}

/// Each script, behind the front, is answered with its output behind that of the front.
fn expect_each(
    rt: &impl Abort,
    host: &HostRuntime,
    front: Case<'_>,
    cases: &[Case<'_>],
) -> Result<(), Fail> {
    let alloc = host.alloc();
    for (script, want) in cases {
        let all = joined(alloc, &[front.0, *script])?;
        let want = joined(alloc, &[front.1, *want])?;
        expect_output(rt, host, &all, &want, script)?;
    }
    Ok(())
}

/// Each script that is joined of its parts is answered with its parts of output.
fn expect_parts(rt: &impl Abort, host: &HostRuntime, cases: &[Parts<'_>]) -> Result<(), Fail> {
    let alloc = host.alloc();
    for (script, want) in cases {
        let script = joined(alloc, script)?;
        let want = joined(alloc, want)?;
        expect_output(rt, host, &script, &want, "")?;
    }
    Ok(())
}
