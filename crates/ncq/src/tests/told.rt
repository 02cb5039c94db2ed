//! What the engine keeps of what it told, and who is told it again.

ghost use Rattle.std.specs.Prelude.{◌≡◌, ◌<◌};
ghost use Rattle.ncq_callback.specs.Labels.{handed_in};
ghost use Rattle.ncq_script.specs.Proper.{IsProperCommand};

use super::held::{command_of, printing};
use super::{OneSeed, PUT_95, SOURCE, expect_bytes};
use ncq_base::Steps;
use ncq_callback::Handlers;
use ncq_engine::Engine;
use ncq_script::Command;
use std::alloc::{AllocError, Global};
use std::hash::RandomState;
use std::marker::Brand;
use std::process::Abort;
use std::sync::ledger::{Blank, Ledger};
use std::test::Fail;

/// The most commands of a session.
const MAX_COMMANDS: u64 = 3000;

/// A command beside its answer and how many lists are kept behind it.
type Turn<'a> = (&'a str, &'a str, usize);

/// Four queries that ask the same, and one that asks it in another form.
const A: &str =
    "create a WHERE <Quotes><Quote><Symbol>INTC</></> ELEMENT_AS $g</> IN \"quotes\" CONSTRUCT $g \
     DO print\n.\n";

const B: &str =
    "create b WHERE <Quotes><Quote><Symbol>INTC</></> ELEMENT_AS $g</> IN \"quotes\" CONSTRUCT $g \
     DO print\n.\n";

const C: &str =
    "create c WHERE <Quotes><Quote><Symbol>INTC</></> ELEMENT_AS $g</> IN \"quotes\" CONSTRUCT $g \
     DO print\n.\n";

const D: &str =
    "create d WHERE <Quotes><Quote><Symbol>INTC</></> ELEMENT_AS $g</> IN \"quotes\" CONSTRUCT $g \
     DO print\n.\n";

const E: &str = "create e WHERE <Quotes><Quote><Symbol>INTC</></> ELEMENT_AS $g</> IN \"quotes\" \
     CONSTRUCT <hit>$g</> DO print\n.\n";

/// Nothing is kept of what the first was told, since nobody else has its file. What the second was
/// told is kept, and beside it what both are told of the change, and what the third is told then;
/// the fourth is told that again. Another form is a list of its own.
const TURNS: [Turn<'static>; 7] = [
    (SOURCE, "1 ok\n", 0),
    (A, "2 ok\n", 0),
    (B, "3 ok\n", 1),
    (
        PUT_95,
        "4 ok\nnotice a 0\ngain 1\n(Quote\n(Symbol\n-INTC\n)Symbol\n(Price\n-95.5\n)Price\n)Quote\n\
         end\nnotice b 0\ngain 1\n(Quote\n(Symbol\n-INTC\n)Symbol\n(Price\n-95.5\n)Price\n)Quote\n\
         end\n",
        2,
    ),
    (
        C,
        "5 ok\nnotice c 0\ngain 1\n(Quote\n(Symbol\n-INTC\n)Symbol\n(Price\n-95.5\n)Price\n)Quote\n\
         end\n",
        3,
    ),
    (
        D,
        "6 ok\nnotice d 0\ngain 1\n(Quote\n(Symbol\n-INTC\n)Symbol\n(Price\n-95.5\n)Price\n)Quote\n\
         end\n",
        3,
    ),
    (
        E,
        "7 ok\nnotice e 0\ngain 1\n(hit\n(Quote\n(Symbol\n-INTC\n)Symbol\n(Price\n-95.5\n)Price\n\
         )Quote\n)hit\nend\n",
        4,
    ),
];

/// The command is accepted; this is its answer.
fn answer<L: Ledger>(
    rt: &impl Abort,
    alloc: Global,
    engine: &mut Engine,
    command: &Command,
    handlers: &Handlers,
    steps: &mut Steps<L>,
) -> Vec<u8>
    requires proper { IsProperCommand command.now }
    requires handlers { engine.old.handed
        ≡ (handed_in handlers.now.items.items (λ h. h.name) (λ h. h.kind)
        handlers.now.predicates.items (λ p. p.name) (λ p. p.relation)) }
    ensures handed { engine.new.handed ≡ engine.old.handed }
{
    assert!(rt; engine.count() < MAX_COMMANDS);
    let mut text = Vec::new(alloc);
    let answered = engine.apply(alloc, command, handlers, &mut text, steps);
    assert!(rt; answered.is_ok());
    text
}

/// The command that the text is has this answer, and so many lists are kept behind it.
fn give<L: Ledger>(
    rt: &impl Abort,
    alloc: Global,
    engine: &mut Engine,
    turn: &Turn<'_>,
    handlers: &Handlers,
    steps: &mut Steps<L>,
) -> Result<(), AllocError>
    requires { engine.old.handed
        ≡ (handed_in handlers.now.items.items (λ h. h.name) (λ h. h.kind)
        handlers.now.predicates.items (λ p. p.name) (λ p. p.relation)) }
    ensures { engine.new.handed ≡ engine.old.handed }
{
    let (text, wanted, kept) = *turn;
    let command = command_of(rt, alloc, text.as_bytes())?;
    let written = answer(rt, alloc, engine, &command, handlers, steps);
    expect_bytes(rt, written.as_slice(), wanted.as_bytes(), text);
    assert!(rt; engine.cached() == kept);
    Ok(())
}

/// The turns on a new engine whose steps are counted in this ledger. What is kept is asked once,
/// and nothing of it stays where it is shed.
fn counted_turns<L: Ledger>(rt: &impl Abort, host: &HostRuntime, blank: Blank) -> Result<(), Fail>
where
    requires name { blank.name ≡ L.name }
    requires parts { blank.parts ≡ L.parts }
    requires some { 0 < L.parts }
{
    let alloc = host.alloc();
    let mut steps = Steps::<L>::new(host, blank);
    let handlers = printing(alloc)?;
    let mut engine = Engine::new(alloc, RandomState::new(&OneSeed)?, &handlers)?;
    for turn in &TURNS {
        give(rt, alloc, &mut engine, turn, &handlers, &mut steps)?;
    }
    assert!(rt; engine.served() == 1);
    engine.shed();
    assert!(rt; engine.cached() == 0);
    Ok(())
}

#[test]
fn those_that_ask_the_same_are_told_what_is_kept(rt: HostRuntime) -> Result<(), Fail> {
    counted_turns::<Brand>(&rt, &rt, Blank::new(1))
}
