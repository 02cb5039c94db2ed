//! An engine of one's own: what a program does that has handlers and a predicate of its own. The
//! predicate keeps a list, and asks whether a value is in it.

ghost use Rattle.std.specs.Prelude.{◌≡◌};
ghost use Rattle.std.specs.List.{list_any};
ghost use Rattle.ncq_base.specs.Atoms.{same_atom};
ghost use Rattle.ncq_plan.specs.Relations.{relates};
ghost use Rattle.ncq_plan.specs.declared.relation.Relation.TheVariants.{Member};

use super::{Parts, SOURCE, calls_of, expect_bytes, joined, run_on};
use crate::{add_handler, add_predicate, begins, count, divides, mail, print};
use ncq_base::{Atom, Copied, Op, atom_of, bytes_of, holds};
use ncq_callback::{Call, Handlers, Kind};
use ncq_outside::{memory_sink, memory_source};
use ncq_plan::{AtomTest, Atoms, Relation};
use ncq_run::Status;
use std::alloc::{AllocError, Global};
use std::process::Abort;
use std::test::Fail;

/// Whether the value is one of the atoms.
fn is_member(atoms: &[Atom], value: &Atom) -> bool
    ensures { result ≡ list_any (same_atom value.now) atoms.now }
{
    for atom in atoms {
        if holds(Op::Eq, value, atom) {
            return true;
        }
    }
    false
}

/// The atoms of these texts.
fn atoms_of(alloc: Global, texts: &[&str]) -> Result<Atoms, AllocError> {
    let mut atoms = Atoms::new(alloc);
    for text in texts {
        atoms.push(atom_of(alloc, text.as_bytes())?)?;
    }
    Ok(atoms)
}

/// The query `z` of the quotes that meet a condition, up to the condition, from there to the
/// action, and behind the action; and a query `y` with a condition.
const WHERE: &str = "create z WHERE <Quotes><Quote><Symbol>$s</><Price>$p</></></> IN \"quotes\", ";

const DO: &str = " CONSTRUCT <r>$s</> DO ";

const END: &str = "\n.\n";

const ALSO_WHERE_MAJOR: &str = "create y WHERE <Quotes><Quote><Symbol>$s</></></> IN \"quotes\", \
     $s satisfies major CONSTRUCT <r>$s</> DO ";

/// The condition that the symbol is in the list.
const MAJOR: &str = "$s satisfies major";

/// Puts three quotes; one of them again at another price; and takes one away.
const PUTS: &str = "delta quotes\n\
    (Quote\n(Symbol\n-INTC\n)Symbol\n(Price\n-95\n)Price\n)Quote\n\
    (Quote\n(Symbol\n-IBM\n)Symbol\n(Price\n-95\n)Price\n)Quote\n\
    (Quote\n(Symbol\n-INX\n)Symbol\n(Price\n-96\n)Price\n)Quote\n\
    .\n";

const INTC_AT_96: &str =
    "delta quotes\n(Quote\n(Symbol\n-INTC\n)Symbol\n(Price\n-96\n)Price\n)Quote\n.\n";

const NO_IBM: &str = "delta quotes\n!IBM\n.\n";

/// The first answers, and what is told of one quote and of two.
const OK_3: &str = "1 ok\n2 ok\n3 ok\n";

const GAIN_INTC: &str = "gain 1\n(r\n-INTC\n)r\nend\n";

const LOSE_IBM: &str = "lose 1\n(r\n-IBM\n)r\nend\n";

const GAIN_BOTH: &str = "gain 1\n(r\n-IBM\n)r\ngain 1\n(r\n-INTC\n)r\nend\n";

/// Scripts over an engine that has the handler `tell` and the predicate `major` alone, and what is
/// written.
const SESSIONS: &[Parts<'_>] = &[
    (
        &[SOURCE, WHERE, MAJOR, DO, "tell", END, PUTS],
        &[OK_3, "notice z 0\n", GAIN_BOTH],
    ),
    // A list takes no argument, and what was not handed in is not there.
    (
        &[
            SOURCE,
            WHERE,
            "$s satisfies major \"\"",
            DO,
            "tell",
            END,
            WHERE,
            "$s satisfies starts IN",
            DO,
            "tell",
            END,
        ],
        &["1 ok\n2 refused 11 unbound\n3 refused 11 unbound\n"],
    ),
];

/// Scripts over an engine that has the program's three actions and its two predicates, the handlers
/// `tell` of the kind of `print` and `sum` of the kind of `count`, and `major`; and what is
/// written.
const LARGER_SESSIONS: &[Parts<'_>] = &[
    // Each handler does what its kind does.
    (
        &[SOURCE, WHERE, MAJOR, DO, "tell", END, PUTS],
        &[OK_3, "notice z 0\n", GAIN_BOTH],
    ),
    (
        &[SOURCE, WHERE, MAJOR, DO, "print", END, PUTS],
        &[OK_3, "notice z 0\n", GAIN_BOTH],
    ),
    (
        &[SOURCE, WHERE, MAJOR, DO, "sum", END, PUTS],
        &[OK_3, "count z 0 gain 2 lose 0\n"],
    ),
    (
        &[SOURCE, WHERE, MAJOR, DO, "count", END, PUTS],
        &[OK_3, "count z 0 gain 2 lose 0\n"],
    ),
    (
        &[SOURCE, WHERE, MAJOR, DO, "mailto desk", END, PUTS],
        &[OK_3, "mail z 0 desk\n", GAIN_BOTH],
    ),
    // Names of handlers and predicates are read in small letters.
    (
        &[SOURCE, WHERE, "$s SATISFIES Major", DO, "TELL", END, PUTS],
        &[OK_3, "notice z 0\n", GAIN_BOTH],
    ),
    // A handler takes an argument as its kind does, and what was not handed in is not there.
    (
        &[SOURCE, WHERE, MAJOR, DO, "tell x", END, PUTS],
        &["1 ok\n2 refused 13 action\n3 ok\n"],
    ),
    (
        &[SOURCE, WHERE, MAJOR, DO, "sum x", END, PUTS],
        &["1 ok\n2 refused 13 action\n3 ok\n"],
    ),
    (
        &[SOURCE, WHERE, MAJOR, DO, "mailto", END, PUTS],
        &["1 ok\n2 refused 13 action\n3 ok\n"],
    ),
    (
        &[SOURCE, WHERE, MAJOR, DO, "fax", END, PUTS],
        &["1 ok\n2 refused 13 action\n3 ok\n"],
    ),
    (
        &[SOURCE, WHERE, "$s satisfies minor", DO, "tell", END, PUTS],
        &["1 ok\n2 refused 11 unbound\n3 ok\n"],
    ),
    // No number is in a list of texts.
    (
        &[SOURCE, WHERE, "$p satisfies major", DO, "tell", END, PUTS],
        &[OK_3],
    ),
    // A predicate of one's own stands beside those of the program and beside a comparison.
    (
        &[
            SOURCE,
            WHERE,
            "$s satisfies major, $s satisfies starts IN",
            DO,
            "tell",
            END,
            PUTS,
        ],
        &[OK_3, "notice z 0\n", GAIN_INTC],
    ),
    (
        &[
            SOURCE,
            WHERE,
            "$p satisfies multiple 2, $s satisfies major",
            DO,
            "tell",
            END,
            PUTS,
            INTC_AT_96,
        ],
        &[OK_3, "4 ok\nnotice z 0\n", GAIN_INTC],
    ),
    (
        &[
            SOURCE,
            WHERE,
            "$s satisfies major, $p > 95",
            DO,
            "sum",
            END,
            PUTS,
            INTC_AT_96,
        ],
        &[OK_3, "4 ok\ncount z 0 gain 1 lose 0\n"],
    ),
    // A quote that goes is lost, and one that changes where nobody looks is not told.
    (
        &[SOURCE, WHERE, MAJOR, DO, "tell", END, PUTS, NO_IBM],
        &[
            OK_3,
            "notice z 0\n",
            GAIN_BOTH,
            "4 ok\nnotice z 0\n",
            LOSE_IBM,
        ],
    ),
    (
        &[SOURCE, WHERE, MAJOR, DO, "tell", END, PUTS, INTC_AT_96],
        &[OK_3, "notice z 0\n", GAIN_BOTH, "4 ok\n"],
    ),
    // Two ask the same list, and each is told by its own handler; who is deleted is told nothing.
    (
        &[
            SOURCE,
            WHERE,
            MAJOR,
            DO,
            "sum",
            END,
            ALSO_WHERE_MAJOR,
            "tell",
            END,
            PUTS,
        ],
        &[
            OK_3,
            "4 ok\ncount z 0 gain 2 lose 0\nnotice y 0\n",
            GAIN_BOTH,
        ],
    ),
    (
        &[
            SOURCE,
            WHERE,
            MAJOR,
            DO,
            "sum",
            END,
            ALSO_WHERE_MAJOR,
            "tell",
            END,
            "delete z\n",
            PUTS,
        ],
        &[OK_3, "4 ok\n5 ok\nnotice y 0\n", GAIN_BOTH],
    ),
    // It is told at its instants.
    (
        &[
            SOURCE,
            WHERE,
            MAJOR,
            DO,
            "tell START 3 EVERY 5",
            END,
            PUTS,
            "clock 7\n",
            NO_IBM,
            "clock 8\n",
        ],
        &[
            OK_3,
            "4 ok\nnotice z 3\n",
            GAIN_BOTH,
            "5 ok\n6 ok\nnotice z 8\n",
            LOSE_IBM,
        ],
    ),
];

/// The session on this script over these handlers writes this.
fn expect_session(
    rt: &impl Abort,
    host: &HostRuntime,
    handlers: &Handlers,
    session: &Parts<'_>,
) -> Result<(), Fail> {
    let alloc = host.alloc();
    let (script, want) = *session;
    let script = bytes_of(alloc, &joined(alloc, script)?)?;
    let want = joined(alloc, want)?;
    let mut input = memory_source(script, 64, calls_of(alloc, &[])?);
    let mut output = memory_sink(alloc, 4096, calls_of(alloc, &[])?)?;
    let status = run_on(host, &["run"], &mut input, &mut output, handlers);
    assert_eq!(rt; status, Status::Done);
    expect_bytes(rt, output.held(), &want, "");
    Ok(())
}

/// The list of two symbols is handed in as `major`.
fn add_major(alloc: Global, handlers: &mut Handlers) -> Result<(), AllocError> {
    let atoms = atoms_of(alloc, &["INTC", "IBM"])?;
    let list = Relation::Member(atoms.copy(alloc)?);
    let test: AtomTest = Box::new(
        alloc,
        move |value: &Atom, argument: &Atom| -> bool
            ensures { result ≡ relates (Member atoms) value.now argument.now }
        { is_member(atoms.as_slice(), value) },
    )?;
    add_predicate(alloc, handlers, b"major", list, test)
}

/// Five handlers and three predicates.
fn larger(alloc: Global) -> Result<Handlers, AllocError> {
    let mut handlers = Handlers::new(alloc);
    let call: Call = Box::new(alloc, print)?;
    add_handler(alloc, &mut handlers, b"print", Kind::Print, call)?;
    let call: Call = Box::new(alloc, count)?;
    add_handler(alloc, &mut handlers, b"count", Kind::Count, call)?;
    let call: Call = Box::new(alloc, mail)?;
    add_handler(alloc, &mut handlers, b"mailto", Kind::MailTo, call)?;
    let call: Call = Box::new(alloc, print)?;
    add_handler(alloc, &mut handlers, b"tell", Kind::Print, call)?;
    let call: Call = Box::new(alloc, count)?;
    add_handler(alloc, &mut handlers, b"sum", Kind::Count, call)?;
    let test: AtomTest = Box::new(alloc, begins)?;
    add_predicate(alloc, &mut handlers, b"starts", Relation::Prefix, test)?;
    let test: AtomTest = Box::new(alloc, divides)?;
    add_predicate(alloc, &mut handlers, b"multiple", Relation::Multiple, test)?;
    add_major(alloc, &mut handlers)?;
    Ok(handlers)
}

#[test]
fn an_engine_has_what_it_is_handed(rt: HostRuntime) -> Result<(), Fail> {
    let alloc = rt.alloc();
    let mut handlers = Handlers::new(alloc);
    let call: Call = Box::new(alloc, print)?;
    add_handler(alloc, &mut handlers, b"tell", Kind::Print, call)?;
    add_major(alloc, &mut handlers)?;
    for session in SESSIONS {
        expect_session(&rt, &rt, &handlers, session)?;
    }
    Ok(())
}

#[test]
fn handlers_and_predicates_of_ones_own_stand_beside_those_of_the_program(
    rt: HostRuntime,
) -> Result<(), Fail> {
    let handlers = larger(rt.alloc())?;
    for session in LARGER_SESSIONS {
        expect_session(&rt, &rt, &handlers, session)?;
    }
    Ok(())
}
