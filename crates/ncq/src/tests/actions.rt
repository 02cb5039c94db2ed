//! What is done with a notice: the texts of `print`, `count` and `mailto`.

ghost use Rattle.std.specs.Prelude.{◌≡◌};
ghost use Rattle.ncq_callback.specs.Facts.{Writes};
ghost use Rattle.ncq_callback.specs.Texts.{render};

use super::{
    DELETE, PUT_95, PUT_96, Parts, SOURCE, TOLD_95, TOLD_96, WATCH, calls_of, expect_bytes,
    expect_parts, joined, run_on,
};
use crate::{add_handler, print};
use ncq_base::bytes_of;
use ncq_callback::{Call, Handlers, Kind, Notice, print_notice};
use ncq_outside::{memory_sink, memory_source};
use ncq_run::Status;
use std::alloc::{AllocError, Global};
use std::cell::Cell;
use std::process::Abort;
use std::test::Fail;

/// The query of `WATCH` up to its action, and the end of its block.
const WATCH_DO: &str =
    "create w WHERE <Quotes><Quote><Symbol>INTC</></> ELEMENT_AS $g</> IN \"quotes\" CONSTRUCT $g \
     DO ";

const DOT: &str = "\n.\n";

const PUT_1: &str =
    "delta quotes\n(Quote\n(Symbol\n-INTC\n)Symbol\n(Price\n-1\n)Price\n)Quote\n.\n";

const GAIN_1: &str = "gain 1\n(Quote\n(Symbol\n-INTC\n)Symbol\n(Price\n-1\n)Price\n)Quote\nend\n";

const TEXTS: &[Parts<'_>] = &[
    (
        &[SOURCE, WATCH_DO, "MailTo \"ops desk\"", DOT, PUT_1],
        &["1 ok\n2 ok\n3 ok\nmail w 0 ops desk\n", GAIN_1],
    ),
    (
        &[SOURCE, WATCH_DO, "count", DOT, PUT_1],
        &["1 ok\n2 ok\n3 ok\ncount w 0 gain 1 lose 0\n"],
    ),
    (
        &[SOURCE, WATCH_DO, "PRINT", DOT, PUT_1],
        &["1 ok\n2 ok\n3 ok\nnotice w 0\n", GAIN_1],
    ),
    // The argument is kept as written and escaped, and an empty one leaves the space before it.
    (
        &[
            SOURCE,
            WATCH_DO,
            "mailto \"Ops\tDesk\n\\\"a\\b\\\"\"",
            DOT,
            PUT_1,
        ],
        &[
            "1 ok\n2 ok\n3 ok\nmail w 0 Ops\\tDesk\\n\"a\\\\b\"\n",
            GAIN_1,
        ],
    ),
    (
        &[
            SOURCE,
            WATCH_DO,
            "mailto \"\" START 3",
            DOT,
            PUT_1,
            "clock 8\n",
        ],
        &["1 ok\n2 ok\n3 ok\n4 ok\nmail w 3 \n", GAIN_1],
    ),
    // Losses are counted too, and what is no difference is not told.
    (
        &[
            SOURCE, WATCH_DO, "count", DOT, PUT_95, PUT_95, PUT_96, DELETE,
        ],
        &[
            "1 ok\n2 ok\n3 ok\ncount w 0 gain 1 lose 0\n4 ok\n5 ok\ncount w 0 gain 1 lose 1\n",
            "6 ok\ncount w 0 gain 0 lose 1\n",
        ],
    ),
    // No action of the name, an argument too much, and one too few.
    (
        &[
            SOURCE, WATCH_DO, "fax", DOT, WATCH_DO, "print x", DOT, WATCH_DO, "mailto", DOT, PUT_1,
        ],
        &["1 ok\n2 refused 13 action\n3 refused 13 action\n4 refused 13 action\n5 ok\n"],
    ),
];

#[test]
fn each_action_has_its_text(rt: HostRuntime) -> Result<(), Fail> {
    expect_parts(&rt, &rt, TEXTS)
}

/// The lines of the quote that `PUT_95` puts.
const QUOTE_95: &str = "(Quote\n(Symbol\n-INTC\n)Symbol\n(Price\n-95.5\n)Price\n)Quote\n";

/// Whether the notice has one entry, the gain of the quote at 95.5.
fn is_gain_of_95(notice: &Notice) -> bool {
    match notice.entries.as_slice() {
        [entry] => {
            entry.gain && entry.count == 1 && entry.bytes.as_slice() == QUOTE_95.as_bytes()
        }
        _ => false,
    }
}

/// The session on this script over these handlers ends so, with this written.
fn expect_run(
    rt: &impl Abort,
    host: &HostRuntime,
    script: &[&str],
    handlers: &Handlers,
    status: Status,
    written: &[&str],
) -> Result<(), Fail> {
    let alloc = host.alloc();
    let script = bytes_of(alloc, &joined(alloc, script)?)?;
    let mut input = memory_source(script, 64, calls_of(alloc, &[])?);
    let mut output = memory_sink(alloc, 4096, calls_of(alloc, &[])?)?;
    let got = run_on(host, &["run"], &mut input, &mut output, handlers);
    assert_eq!(rt; got, status);
    expect_bytes(rt, output.held(), &joined(alloc, written)?, "");
    Ok(())
}

/// Three handlers of one kind: `print` finds no memory for any notice, `tell` writes each, and
/// `picky` writes one and finds no memory for any other. So a notice that another of them is given
/// shows.
fn three_handlers(alloc: Global) -> Result<Handlers, Fail> {
    let wanting: Call = Box::new(
        alloc,
        |argument: &[u8], notice: &Notice, out: &mut Vec<u8>| -> Result<(), AllocError>
            ensures { Writes
                (render Kind.Print argument.now
                notice.now.name notice.now.instant notice.now.entries)
                out.old.items out.new.items result }
        { Err(AllocError) },
    )?;
    let tell: Call = Box::new(alloc, print)?;
    let picky: Call = Box::new(
        alloc,
        |argument: &[u8], notice: &Notice, out: &mut Vec<u8>| -> Result<(), AllocError>
            ensures { Writes
                (render Kind.Print argument.now
                notice.now.name notice.now.instant notice.now.entries)
                out.old.items out.new.items result }
        {
            if is_gain_of_95(notice) {
                print_notice(argument, notice, out)
            } else {
                Err(AllocError)
            }
        },
    )?;
    let mut handlers = Handlers::new(alloc);
    add_handler(alloc, &mut handlers, b"print", Kind::Print, wanting)?;
    add_handler(alloc, &mut handlers, b"tell", Kind::Print, tell)?;
    add_handler(alloc, &mut handlers, b"picky", Kind::Print, picky)?;
    Ok(handlers)
}

/// The session on this script over the three handlers ends so, with this written.
fn expect_told(
    rt: &impl Abort,
    host: &HostRuntime,
    script: &[&str],
    status: Status,
    written: &[&str],
) -> Result<(), Fail> {
    let handlers = three_handlers(host.alloc())?;
    expect_run(rt, host, script, &handlers, status, written)
}

/// What is written where the quote is put at 95.5, and where no memory is found for its notice.
const ONCE: &[&str] = &["1 ok\n2 ok\n3 ok\n", TOLD_95];

const NEVER: &[&str] = &["1 ok\n2 ok\n"];

/// A handler writes what its closure appends, and where it finds no memory, its command's answer is
/// not written.
#[test]
fn a_notice_goes_to_the_handler_of_its_action(rt: HostRuntime) -> Result<(), Fail> {
    let print = [SOURCE, WATCH_DO, "print", DOT, PUT_95];
    expect_told(&rt, &rt, &print, Status::NoMemory, NEVER)?;
    let tell = [SOURCE, WATCH_DO, "tell", DOT, PUT_95];
    expect_told(&rt, &rt, &tell, Status::Done, ONCE)?;
    let picky = [SOURCE, WATCH_DO, "picky", DOT, PUT_95];
    expect_told(&rt, &rt, &picky, Status::Done, ONCE)?;
    let picky = [SOURCE, WATCH_DO, "picky", DOT, PUT_95, PUT_96];
    expect_told(&rt, &rt, &picky, Status::NoMemory, ONCE)
}

/// Handlers with one of the name `print`, which finds no memory at the calls of these two numbers
/// and writes the notice at each other. The first call has number 1.
fn failing_handlers(alloc: Global, failing: [u64; 2]) -> Result<Handlers, AllocError> {
    let calls = Cell::new(0u64);
    let call: Call = Box::new(
        alloc,
        move |argument: &[u8], notice: &Notice, out: &mut Vec<u8>| -> Result<(), AllocError>
            ensures { Writes
                (render Kind.Print argument.now
                notice.now.name notice.now.instant notice.now.entries)
                out.old.items out.new.items result }
        {
            let number = calls.get().saturating_add(1);
            calls.set(number);
            if failing.contains(&number) {
                Err(AllocError)
            } else {
                print_notice(argument, notice, out)
            }
        },
    )?;
    let mut handlers = Handlers::new(alloc);
    add_handler(alloc, &mut handlers, b"print", Kind::Print, call)?;
    Ok(handlers)
}

/// The numbers of the calls that find no memory, the status, and what is written.
type Failing<'a> = ([u64; 2], Status, &'a [&'a str]);

/// The quote is put at 95.5 and then at 96, and each time there is one notice: a command whose
/// notice finds no memory is tried once more, and a second time there is no third.
const FAILING: &[Failing<'_>] = &[
    ([0, 0], Status::Done, TWICE),
    ([1, 0], Status::Done, TWICE),
    ([2, 0], Status::Done, TWICE),
    ([1, 3], Status::Done, TWICE),
    ([1, 2], Status::NoMemory, NEVER),
    ([2, 3], Status::NoMemory, ONCE),
];

const TWICE: &[&str] = &["1 ok\n2 ok\n3 ok\n", TOLD_95, "4 ok\n", TOLD_96];

/// The session on the four commands ends so, with this written.
fn expect_failing(rt: &impl Abort, host: &HostRuntime, row: &Failing<'_>) -> Result<(), Fail> {
    let handlers = failing_handlers(host.alloc(), row.0)?;
    let script = [SOURCE, WATCH, PUT_95, PUT_96];
    expect_run(rt, host, &script, &handlers, row.1, row.2)
}

/// No clause says that there is a second try: a body that gives up at once has the same contract.
#[test]
fn a_command_that_finds_no_memory_is_tried_once_more(rt: HostRuntime) -> Result<(), Fail> {
    for row in FAILING {
        expect_failing(&rt, &rt, row)?;
    }
    Ok(())
}
