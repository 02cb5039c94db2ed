//! How many signed rows the files have while quotes change again and again.

ghost use Rattle.std.specs.Prelude.{◌≡◌, ◌<◌, IfOk};
ghost use Rattle.ncq_callback.specs.Labels.{handed_in};
ghost use Rattle.ncq_script.specs.Proper.{IsProperCommand};

use super::{OneSeed, SOURCE, WATCH};
use crate::{add_handler, print};
use ncq_base::{Steps, write_decimal};
use ncq_callback::{Call, Handlers, Kind};
use ncq_engine::Engine;
use ncq_script::{Command, Next, ScriptReader};
use std::alloc::{AllocError, Global};
use std::hash::RandomState;
use std::marker::Brand;
use std::process::Abort;
use std::sync::ledger::{Blank, Ledger};
use std::test::Fail;

/// The quote of INTC at 1, and at 2.
const PUT_1: &[u8] =
    b"delta quotes\n(Quote\n(Symbol\n-INTC\n)Symbol\n(Price\n-1\n)Price\n)Quote\n.\n";

const PUT_2: &[u8] =
    b"delta quotes\n(Quote\n(Symbol\n-INTC\n)Symbol\n(Price\n-2\n)Price\n)Quote\n.\n";

/// The longest line of a text, in bytes.
const MAX_LINE: usize = 4096;

/// The most commands of a session.
const MAX_COMMANDS: u64 = 3000;

/// The most signed rows that the files of one query over one quote have behind a command.
const MAX_ROWS: u64 = 258;

/// So many quotes change in turn, and so often, each less often than makes its files worn.
const QUOTES: u64 = 40;

const ROUNDS: u64 = 60;

/// The most signed rows that the files of as many queries have, of one of these quotes each: 40 of
/// the quotes as they stand in the file of all and 128 of 64 that went out of it; 40 in the files
/// of the queries, and two of each of 512 that went out of these and of one more.
const MAX_ROWS_OF_MANY: u64 = 40 + 128 + 40 + 2 * 513;

/// Handlers with one of the name `print`, which writes each notice.
pub(super) fn printing(alloc: Global) -> Result<Handlers, AllocError> {
    let call: Call = Box::new(alloc, print)?;
    let mut handlers = Handlers::new(alloc);
    add_handler(alloc, &mut handlers, b"print", Kind::Print, call)?;
    Ok(handlers)
}

/// The command is accepted, and behind it the files have so many rows at most.
fn answer<L: Ledger>(
    rt: &impl Abort,
    alloc: Global,
    engine: &mut Engine,
    command: &Command,
    handlers: &Handlers,
    steps: &mut Steps<L>,
    most: u64,
)
    requires proper { IsProperCommand command.now }
    requires handlers { engine.old.handed
        ≡ (handed_in handlers.now.items.items (λ h. h.name) (λ h. h.kind)
        handlers.now.predicates.items (λ p. p.name) (λ p. p.relation)) }
    ensures handed { engine.new.handed ≡ engine.old.handed }
{
    assert!(rt; engine.count() < MAX_COMMANDS);
    let mut text = Vec::new(alloc);
    let answered = engine.apply(alloc, command, handlers, &mut text, steps);
    assert!(rt; answered.is_ok());
    assert!(rt; engine.rows() <= most);
}

/// The command that the text is.
pub(super) fn command_of(rt: &impl Abort, alloc: Global, text: &[u8]) -> Result<Command, AllocError>
    ensures { IfOk result IsProperCommand }
{
    let mut reader = ScriptReader::new(alloc, MAX_LINE);
    reader.push(text)?;
    reader.finish();
    match reader.next()? {
        Next::Command(command) => Ok(command),
        _ => panic!(rt; "no command"),
    }
}

/// The command that the text is, as `answer` has it.
fn give<L: Ledger>(
    rt: &impl Abort,
    alloc: Global,
    engine: &mut Engine,
    text: &[u8],
    handlers: &Handlers,
    steps: &mut Steps<L>,
    most: u64,
) -> Result<(), AllocError>
    requires { engine.old.handed
        ≡ (handed_in handlers.now.items.items (λ h. h.name) (λ h. h.kind)
        handlers.now.predicates.items (λ p. p.name) (λ p. p.relation)) }
    ensures { engine.new.handed ≡ engine.old.handed }
{
    let command = command_of(rt, alloc, text)?;
    answer(rt, alloc, engine, &command, handlers, steps, most);
    Ok(())
}

/// The quote is at 1 and at 2, so often.
fn turns<L: Ledger>(
    rt: &impl Abort,
    alloc: Global,
    engine: &mut Engine,
    count: u64,
    handlers: &Handlers,
    steps: &mut Steps<L>,
) -> Result<(), AllocError>
    requires { engine.old.handed
        ≡ (handed_in handlers.now.items.items (λ h. h.name) (λ h. h.kind)
        handlers.now.predicates.items (λ p. p.name) (λ p. p.relation)) }
    ensures { engine.new.handed ≡ engine.old.handed }
{
    for _ in 0..count {
        give(rt, alloc, engine, PUT_1, handlers, steps, MAX_ROWS)?;
        give(rt, alloc, engine, PUT_2, handlers, steps, MAX_ROWS)?;
    }
    Ok(())
}

/// The query comes in, and then the quote changes, on a new engine whose steps are counted in this
/// ledger.
fn counted_turns<L: Ledger>(rt: &impl Abort, host: &HostRuntime, blank: Blank) -> Result<(), Fail>
where
    requires name { blank.name ≡ L.name }
    requires parts { blank.parts ≡ L.parts }
    requires some { 0 < L.parts }
{
    let alloc = host.alloc();
    let mut steps = Steps::<L>::new(host, blank);
    let handlers = printing(alloc)?;
    let mut engine = Engine::new(alloc, RandomState::new(&OneSeed)?, &handlers)?;
    give(
        rt,
        alloc,
        &mut engine,
        SOURCE.as_bytes(),
        &handlers,
        &mut steps,
        MAX_ROWS,
    )?;
    give(
        rt,
        alloc,
        &mut engine,
        WATCH.as_bytes(),
        &handlers,
        &mut steps,
        MAX_ROWS,
    )?;
    turns(rt, alloc, &mut engine, 100, &handlers, &mut steps)?;
    Ok(())
}

#[test]
fn a_quote_that_changes_two_hundred_times_leaves_few_rows(rt: HostRuntime) -> Result<(), Fail> {
    counted_turns::<Brand>(&rt, &rt, Blank::new(1))
}

/// Two queries that ask the same at different instants.
const BY_TURNS: [&str; 2] = [
    "create a WHERE <Quotes><Quote><Symbol>INTC</></> ELEMENT_AS $g</> IN \"quotes\" CONSTRUCT $g \
     DO print START 10 EVERY 20\n.\n",
    "create b WHERE <Quotes><Quote><Symbol>INTC</></> ELEMENT_AS $g</> IN \"quotes\" CONSTRUCT $g \
     DO print START 20 EVERY 20\n.\n",
];

/// The clock moves to the instant.
fn clock(alloc: Global, instant: u64) -> Result<Vec<u8>, AllocError> {
    let mut text = Vec::new(alloc);
    text.extend_from_slice(b"clock ")?;
    write_decimal(instant, &mut text)?;
    text.push(b'\n')?;
    Ok(text)
}

/// The quote changes eight times before each of forty instants, at which the one query or the other
/// is told.
fn periods<L: Ledger>(
    rt: &impl Abort,
    alloc: Global,
    engine: &mut Engine,
    handlers: &Handlers,
    steps: &mut Steps<L>,
) -> Result<(), AllocError>
    requires { engine.old.handed
        ≡ (handed_in handlers.now.items.items (λ h. h.name) (λ h. h.kind)
        handlers.now.predicates.items (λ p. p.name) (λ p. p.relation)) }
{
    for period in 1..41u64 {
        turns(rt, alloc, engine, 4, handlers, steps)?;
        let text = clock(alloc, 10 * period)?;
        give(
            rt,
            alloc,
            engine,
            text.as_slice(),
            handlers,
            steps,
            MAX_ROWS,
        )?;
    }
    Ok(())
}

/// The two queries come in, and then the quote changes between their instants, on a new engine
/// whose steps are counted in this ledger.
fn counted_periods<L: Ledger>(rt: &impl Abort, host: &HostRuntime, blank: Blank) -> Result<(), Fail>
where
    requires name { blank.name ≡ L.name }
    requires parts { blank.parts ≡ L.parts }
    requires some { 0 < L.parts }
{
    let alloc = host.alloc();
    let mut steps = Steps::<L>::new(host, blank);
    let handlers = printing(alloc)?;
    let mut engine = Engine::new(alloc, RandomState::new(&OneSeed)?, &handlers)?;
    for text in [SOURCE, BY_TURNS[0], BY_TURNS[1]] {
        give(
            rt,
            alloc,
            &mut engine,
            text.as_bytes(),
            &handlers,
            &mut steps,
            MAX_ROWS,
        )?;
    }
    periods(rt, alloc, &mut engine, &handlers, &mut steps)?;
    Ok(())
}

/// At each change at most 64 rows of the file of both went out above its base, also while the one
/// query was told and the other not yet.
#[test]
fn a_quote_that_changes_between_two_timers_leaves_few_rows(rt: HostRuntime) -> Result<(), Fail> {
    counted_periods::<Brand>(&rt, &rt, Blank::new(1))
}

/// A query that watches the quote of this number.
fn watch(alloc: Global, quote: u64) -> Result<Vec<u8>, AllocError> {
    let mut text = Vec::new(alloc);
    text.extend_from_slice(b"create w")?;
    write_decimal(quote, &mut text)?;
    text.extend_from_slice(b" WHERE <Quotes><Quote><Symbol>S")?;
    write_decimal(quote, &mut text)?;
    text.extend_from_slice(b"</></> ELEMENT_AS $g</> IN \"quotes\" CONSTRUCT $g DO print\n.\n")?;
    Ok(text)
}

/// The quote of this number at this price.
fn put(alloc: Global, quote: u64, price: u64) -> Result<Vec<u8>, AllocError> {
    let mut text = Vec::new(alloc);
    text.extend_from_slice(b"delta quotes\n(Quote\n(Symbol\n-S")?;
    write_decimal(quote, &mut text)?;
    text.extend_from_slice(b"\n)Symbol\n(Price\n-")?;
    write_decimal(price, &mut text)?;
    text.extend_from_slice(b"\n)Price\n)Quote\n.\n")?;
    Ok(text)
}

/// A query for each quote.
fn watch_all<L: Ledger>(
    rt: &impl Abort,
    alloc: Global,
    engine: &mut Engine,
    handlers: &Handlers,
    steps: &mut Steps<L>,
) -> Result<(), AllocError>
    requires { engine.old.handed
        ≡ (handed_in handlers.now.items.items (λ h. h.name) (λ h. h.kind)
        handlers.now.predicates.items (λ p. p.name) (λ p. p.relation)) }
    ensures { engine.new.handed ≡ engine.old.handed }
{
    for quote in 0..QUOTES {
        let text = watch(alloc, quote)?;
        give(
            rt,
            alloc,
            engine,
            text.as_slice(),
            handlers,
            steps,
            MAX_ROWS_OF_MANY,
        )?;
    }
    Ok(())
}

/// Each quote is put once more, at this price.
fn put_all<L: Ledger>(
    rt: &impl Abort,
    alloc: Global,
    engine: &mut Engine,
    price: u64,
    handlers: &Handlers,
    steps: &mut Steps<L>,
) -> Result<(), AllocError>
    requires { engine.old.handed
        ≡ (handed_in handlers.now.items.items (λ h. h.name) (λ h. h.kind)
        handlers.now.predicates.items (λ p. p.name) (λ p. p.relation)) }
    ensures { engine.new.handed ≡ engine.old.handed }
{
    for quote in 0..QUOTES {
        let text = put(alloc, quote, price)?;
        give(
            rt,
            alloc,
            engine,
            text.as_slice(),
            handlers,
            steps,
            MAX_ROWS_OF_MANY,
        )?;
    }
    Ok(())
}

/// Each quote changes in turn, as often as there are rounds.
fn rounds<L: Ledger>(
    rt: &impl Abort,
    alloc: Global,
    engine: &mut Engine,
    handlers: &Handlers,
    steps: &mut Steps<L>,
) -> Result<(), AllocError>
    requires { engine.old.handed
        ≡ (handed_in handlers.now.items.items (λ h. h.name) (λ h. h.kind)
        handlers.now.predicates.items (λ p. p.name) (λ p. p.relation)) }
{
    for round in 0..ROUNDS {
        put_all(rt, alloc, engine, round, handlers, steps)?;
    }
    Ok(())
}

/// The queries come in, and then the quotes change, on a new engine whose steps are counted in this
/// ledger.
fn counted_rounds<L: Ledger>(rt: &impl Abort, host: &HostRuntime, blank: Blank) -> Result<(), Fail>
where
    requires name { blank.name ≡ L.name }
    requires parts { blank.parts ≡ L.parts }
    requires some { 0 < L.parts }
{
    let alloc = host.alloc();
    let mut steps = Steps::<L>::new(host, blank);
    let handlers = printing(alloc)?;
    let mut engine = Engine::new(alloc, RandomState::new(&OneSeed)?, &handlers)?;
    give(
        rt,
        alloc,
        &mut engine,
        SOURCE.as_bytes(),
        &handlers,
        &mut steps,
        MAX_ROWS_OF_MANY,
    )?;
    watch_all(rt, alloc, &mut engine, &handlers, &mut steps)?;
    rounds(rt, alloc, &mut engine, &handlers, &mut steps)?;
    Ok(())
}

#[test]
fn quotes_that_change_less_often_than_makes_files_worn_leave_few_rows(
    rt: HostRuntime,
) -> Result<(), Fail> {
    counted_rounds::<Brand>(&rt, &rt, Blank::new(1))
}
