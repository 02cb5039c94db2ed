//! Handlers and predicates, each found by its name, and what handlers write.
ghost use Rattle.std.specs.Prelude.{◌≡◌};
ghost use Rattle.ncq_plan.specs.Relations.{relates};
ghost use Rattle.ncq_callback.specs.Facts.{Writes};
ghost use Rattle.ncq_callback.specs.Texts.{render};

use super::making::some_row;
use super::notices::expect_texts;
use ncq_base::{Atom, bytes_of};
use ncq_callback::{
    AddError, Call, Handler, Handlers, Kind, Notice, count_notice, mail_notice, print_notice,
};
use ncq_plan::{AtomTest, Predicate, Relation, multiple, starts};
use std::alloc::{AllocError, Global};
use std::process::Abort;
use std::test::Fail;

/// Names, and the kind of the handler of the name.
const KINDS: &[(&str, Option<Kind>)] = &[
    ("print", Some(Kind::Print)),
    ("count", Some(Kind::Count)),
    ("mailto", Some(Kind::MailTo)),
    ("fax", None),
    ("mail", None),
    ("", None),
];

fn kind_of(handlers: &Handlers, name: &str) -> Option<Kind> {
    let at = handlers.find(name.as_bytes())?;
    Some(handlers.kind(at))
}

fn expect_kinds(rt: &impl Abort, handlers: &Handlers) {
    for (name, kind) in KINDS {
        assert!(rt; kind_of(handlers, name) == *kind, "{name}");
    }
}

/// What the handler of a kind is called.
fn name_of(kind: Kind) -> &'static str {
    match kind {
        Kind::Print => "print",
        Kind::Count => "count",
        Kind::MailTo => "mailto",
    }
}

/// One more handler, called after its kind.
fn put(alloc: Global, handlers: &mut Handlers, kind: Kind, call: Call) -> Result<(), AddError>
    requires callable { Call.IsAlwaysCallable call }
    requires writes { (argument : _) (notice : _) (out : _) (result : _) (after : _)
        → Call.post call argument notice out result after
        → Writes
        (render kind argument.now notice.now.name notice.now.instant notice.now.entries)
        out.now.items after.now.items result }
{
    match bytes_of(alloc, name_of(kind).as_bytes()) {
        Ok(name) => handlers.add(Handler::new(name, kind, call)),
        Err(_) => Err(AddError::OutOfMemory),
    }
}

#[test]
fn handlers_write_the_text_of_their_kind(rt: HostRuntime) -> Result<(), Fail> {
    let alloc = rt.alloc();
    let mut handlers = Handlers::new(alloc);
    let print: Call = Box::new(
        alloc,
        |argument: &[u8], notice: &Notice, out: &mut Vec<u8>| -> Result<(), AllocError>
            ensures { Writes
                (render Kind.Print argument.now
                notice.now.name notice.now.instant notice.now.entries)
                out.old.items out.new.items result }
        { print_notice(argument, notice, out) },
    )?;
    put(alloc, &mut handlers, Kind::Print, print)?;
    let count: Call = Box::new(
        alloc,
        |argument: &[u8], notice: &Notice, out: &mut Vec<u8>| -> Result<(), AllocError>
            ensures { Writes
                (render Kind.Count argument.now
                notice.now.name notice.now.instant notice.now.entries)
                out.old.items out.new.items result }
        { count_notice(argument, notice, out) },
    )?;
    put(alloc, &mut handlers, Kind::Count, count)?;
    let mail: Call = Box::new(
        alloc,
        |argument: &[u8], notice: &Notice, out: &mut Vec<u8>| -> Result<(), AllocError>
            ensures { Writes
                (render Kind.MailTo argument.now
                notice.now.name notice.now.instant notice.now.entries)
                out.old.items out.new.items result }
        { mail_notice(argument, notice, out) },
    )?;
    put(alloc, &mut handlers, Kind::MailTo, mail)?;
    let again: Call = Box::new(
        alloc,
        |argument: &[u8], notice: &Notice, out: &mut Vec<u8>| -> Result<(), AllocError>
            ensures { Writes
                (render Kind.Print argument.now
                notice.now.name notice.now.instant notice.now.entries)
                out.old.items out.new.items result }
        { print_notice(argument, notice, out) },
    )?;
    let second = put(alloc, &mut handlers, Kind::Print, again);
    assert!(rt; second == Err(AddError::NameTaken));
    expect_kinds(&rt, &handlers);
    expect_texts(&rt, alloc, &handlers, &some_row(&rt)?)?;
    Ok(())
}

/// Names, and the place of the predicate of the name.
const PLACES: &[(&str, Option<usize>)] = &[
    ("starts", Some(0)),
    ("multiple", Some(1)),
    ("print", None),
    ("start", None),
    ("", None),
];

/// Two predicates are there, and each name leads to its own.
fn expect_two_predicates(rt: &impl Abort, handlers: &Handlers) {
    assert!(rt; handlers.predicates().len() == 2);
    for (name, place) in PLACES {
        assert!(rt;
            handlers.find_predicate(name.as_bytes()) == *place,
            "{name}"
        );
    }
}

/// One more predicate of this name.
fn put_predicate(
    alloc: Global,
    handlers: &mut Handlers,
    name: &str,
    relation: Relation,
    test: AtomTest,
) -> Result<(), AddError>
    requires callable { AtomTest.IsAlwaysCallable test }
    requires tells { (value : _) (argument : _) (result : _)
        → AtomTest.post test value argument result
        → result ≡ relates relation value.now argument.now }
{
    match bytes_of(alloc, name.as_bytes()) {
        Ok(name) => handlers.add_predicate(Predicate::new(name, relation, test)),
        Err(_) => Err(AddError::OutOfMemory),
    }
}

#[test]
fn a_predicate_has_a_name_of_its_own(rt: HostRuntime) -> Result<(), Fail> {
    let alloc = rt.alloc();
    let mut handlers = Handlers::new(alloc);
    let begins: AtomTest = Box::new(
        alloc,
        |value: &Atom, argument: &Atom| -> bool
            ensures { result ≡ relates Relation.Prefix value.now argument.now }
        { starts(value, argument) },
    )?;
    put_predicate(alloc, &mut handlers, "starts", Relation::Prefix, begins)?;
    let divides: AtomTest = Box::new(
        alloc,
        |value: &Atom, argument: &Atom| -> bool
            ensures { result ≡ relates Relation.Multiple value.now argument.now }
        { multiple(value, argument) },
    )?;
    put_predicate(
        alloc,
        &mut handlers,
        "multiple",
        Relation::Multiple,
        divides,
    )?;
    let again: AtomTest = Box::new(
        alloc,
        |value: &Atom, argument: &Atom| -> bool
            ensures { result ≡ relates Relation.Multiple value.now argument.now }
        { multiple(value, argument) },
    )?;
    let third = put_predicate(alloc, &mut handlers, "starts", Relation::Multiple, again);
    assert!(rt; third == Err(AddError::NameTaken));
    expect_two_predicates(&rt, &handlers);
    Ok(())
}

#[test]
fn a_handler_and_a_predicate_have_one_name(rt: HostRuntime) -> Result<(), Fail> {
    let alloc = rt.alloc();
    let mut handlers = Handlers::new(alloc);
    let print: Call = Box::new(
        alloc,
        |argument: &[u8], notice: &Notice, out: &mut Vec<u8>| -> Result<(), AllocError>
            ensures { Writes
                (render Kind.Print argument.now
                notice.now.name notice.now.instant notice.now.entries)
                out.old.items out.new.items result }
        { print_notice(argument, notice, out) },
    )?;
    put(alloc, &mut handlers, Kind::Print, print)?;
    let begins: AtomTest = Box::new(
        alloc,
        |value: &Atom, argument: &Atom| -> bool
            ensures { result ≡ relates Relation.Prefix value.now argument.now }
        { starts(value, argument) },
    )?;
    put_predicate(alloc, &mut handlers, "print", Relation::Prefix, begins)?;
    assert!(rt; handlers.find(b"print") == Some(0));
    assert!(rt; handlers.find_predicate(b"print") == Some(0));
    assert!(rt; handlers.len() == 1);
    assert!(rt; handlers.predicates().len() == 1);
    Ok(())
}
