//! The program `ncq`: a script comes from standard input, and the answer to each of its commands,
//! or what one subscriber is told, goes to standard output; or the tally of a load does.
//! The words after the program's name say what to do; the exit code says how it ended, and nothing
//! else is printed. What is written is what `ncq_run::run` promises. No clause can say what the
//! terminal gives or gets: which words are taken and which code a status ends with is proved, and
//! the stored run and the tests show the rest.
#![tactic(auto)]

ghost use Rattle.std.specs.Prelude.{◌≡◌, ◌<◌, ◌⊎◌, ◌++◌, ◌∷◌, [], None, IfOk, IfNone, MatchResult};
ghost use Rattle.std.specs.Prelude.{OnOk};
ghost use Rattle.ncq_callback.specs.Facts.{Writes};
ghost use Rattle.ncq_callback.specs.Labels.{labels};
ghost use Rattle.ncq_callback.specs.Texts.{render};
ghost use Rattle.ncq_plan.specs.Relations.{relates, relations};
ghost use Rattle.ncq_run.specs.Status.{exit_code_of};
ghost use Rattle.ncq_words.specs.Forms.{form_of, texts_of};

use ncq_base::{Atom, Steps, bytes_of};
use ncq_callback::{
    Call, Handler, Handlers, Kind, Notice, count_notice, mail_notice, print_notice,
};
use ncq_engine::Engine;
use ncq_outside::{Sink, Source, StdSink, StdSource};
use ncq_plan::{AtomTest, Predicate, Relation, multiple, starts};
use ncq_run::{Status, exit_code, run};
use std::alloc::{AllocError, Global};
use std::hash::RandomState;
use std::io::ErrorKind;
use std::marker::Brand;
use std::mem::forget;
use std::process::ExitCode;
use std::sync::ledger::{Blank, Ledger};
use std::{env, io};

#[cfg(test)]
mod tests;

/// The words after the program's name. Where one of them is not UTF-8, there is one word and it is
/// empty.
fn words_of(rt: &HostRuntime) -> Result<Vec<String>, AllocError> {
    let mut words = Vec::new(rt.alloc());
    match env::args(rt) {
        Ok(args) => {
            for word in args.skip(1) {
                words.push(word)?;
            }
        }
        Err(error) if error.kind() == ErrorKind::OutOfMemory => return Err(AllocError),
        Err(_) => words.push(String::new(rt.alloc()))?,
    }
    Ok(words)
}

/// What the action `print` does.
fn print(argument: &[u8], notice: &Notice, out: &mut Vec<u8>) -> Result<(), AllocError>
    ensures { Writes
        (render Kind.Print argument.now
        notice.now.name notice.now.instant notice.now.entries)
        out.old.items out.new.items result }
{
    print_notice(argument, notice, out)
}

/// What the action `count` does.
fn count(argument: &[u8], notice: &Notice, out: &mut Vec<u8>) -> Result<(), AllocError>
    ensures { Writes
        (render Kind.Count argument.now
        notice.now.name notice.now.instant notice.now.entries)
        out.old.items out.new.items result }
{
    count_notice(argument, notice, out)
}

/// What the action `mailto` does.
fn mail(argument: &[u8], notice: &Notice, out: &mut Vec<u8>) -> Result<(), AllocError>
    ensures { Writes
        (render Kind.MailTo argument.now
        notice.now.name notice.now.instant notice.now.entries)
        out.old.items out.new.items result }
{
    mail_notice(argument, notice, out)
}

/// What the predicate `starts` asks.
fn begins(value: &Atom, argument: &Atom) -> bool
    ensures { result ≡ relates Relation.Prefix value.now argument.now }
{
    starts(value, argument)
}

/// What the predicate `multiple` asks.
fn divides(value: &Atom, argument: &Atom) -> bool
    ensures { result ≡ relates Relation.Multiple value.now argument.now }
{
    multiple(value, argument)
}

/// Adds a handler behind the others. Each name is added once, so memory alone can be wanting.
fn add_handler(
    alloc: Global,
    handlers: &mut Handlers,
    name: &[u8],
    kind: Kind,
    call: Call,
) -> Result<(), AllocError>
    requires callable { Call.IsAlwaysCallable call }
    requires writes { (argument : _) (notice : _) (out : _) (result : _) (after : _)
        → Call.post call argument notice out result after
        → Writes
        (render kind argument.now notice.now.name notice.now.instant notice.now.entries)
        out.now.items after.now.items result }
    ensures added { OnOk result (labels handlers.new.items.items (λ h. h.name) (λ h. h.kind)
        ≡ labels handlers.old.items.items (λ h. h.name) (λ h. h.kind)
        ++ (name.now, kind) ∷ []) }
{
    match handlers.add(Handler::new(bytes_of(alloc, name)?, kind, call)) {
        Ok(()) => Ok(()),
        Err(_) => Err(AllocError),
    }
}

/// Adds a predicate behind the others. Each name is added once, so memory alone can be wanting.
fn add_predicate(
    alloc: Global,
    handlers: &mut Handlers,
    name: &[u8],
    relation: Relation,
    test: AtomTest,
) -> Result<(), AllocError>
    requires callable { AtomTest.IsAlwaysCallable test }
    requires tells { (value : _) (argument : _) (result : _)
        → AtomTest.post test value argument result
        → result ≡ relates relation value.now argument.now }
    ensures added { OnOk result
        (relations handlers.new.predicates.items (λ p. p.name) (λ p. p.relation)
        ≡ relations handlers.old.predicates.items (λ p. p.name) (λ p. p.relation)
        ++ (name.now, relation) ∷ []) }
{
    match handlers.add_predicate(Predicate::new(bytes_of(alloc, name)?, relation, test)) {
        Ok(()) => Ok(()),
        Err(_) => Err(AllocError),
    }
}

/// A session over this source and this sink, of a new engine with the actions `print`, `count` and
/// `mailto` and the predicates `starts` and `multiple`, whose steps are counted in a ledger of its
/// own.
/// It ends with `Usage` only where the words fit no form, and then with `Usage` or want of memory.
fn session<I: Source, O: Sink, L: Ledger>(
    rt: &HostRuntime,
    seed: RandomState,
    words: &[&str],
    input: &mut I,
    output: &mut O,
    blank: Blank,
) -> Result<Status, AllocError>
where
    requires name { blank.name ≡ L.name }
    requires parts { blank.parts ≡ L.parts }
    requires some { 0 < L.parts }
    ensures usage { IfOk result (λ status.
        status ≡ Status.Usage → form_of (texts_of words.now) ≡ None) }
    ensures no_form { IfOk result (λ status. IfNone (form_of (texts_of words.now))
        ((status ≡ Status.Usage) ⊎ (status ≡ Status.NoMemory))) }
{
    let alloc = rt.alloc();
    let mut handlers = Handlers::new(alloc);
    let call: Call = Box::new(alloc, print)?;
    add_handler(alloc, &mut handlers, b"print", Kind::Print, call)?;
    let call: Call = Box::new(alloc, count)?;
    add_handler(alloc, &mut handlers, b"count", Kind::Count, call)?;
    let call: Call = Box::new(alloc, mail)?;
    add_handler(alloc, &mut handlers, b"mailto", Kind::MailTo, call)?;
    let test: AtomTest = Box::new(alloc, begins)?;
    add_predicate(alloc, &mut handlers, b"starts", Relation::Prefix, test)?;
    let test: AtomTest = Box::new(alloc, divides)?;
    add_predicate(alloc, &mut handlers, b"multiple", Relation::Multiple, test)?;
    let mut engine = Engine::new(alloc, seed, &handlers)?;
    let mut steps = Steps::<L>::new(rt, blank);
    let status = run(
        alloc,
        words,
        input,
        output,
        &handlers,
        &mut engine,
        &mut steps,
    );
    // The process ends here, and its memory with it: to give back each row would only take time.
    forget(engine);
    Ok(status)
}

/// What the words of the command line ask for, from standard input to standard output. Where the
/// system gives no random bytes for the seed, there is no means to begin, as without memory, and
/// nothing is read or written.
fn answer(rt: &HostRuntime) -> Result<Status, AllocError> {
    let Ok(seed) = RandomState::new(rt) else {
        return Ok(Status::NoMemory);
    };
    let owned = words_of(rt)?;
    let mut words = Vec::new(rt.alloc());
    for word in &owned {
        words.push(word.as_str())?;
    }
    let mut input = StdSource::new(rt.reader());
    let mut output = StdSink::new(io::writer(rt));
    session::<_, _, Brand>(rt, seed, &words, &mut input, &mut output, Blank::new(1))
}

/// The exit code of an answer: that of its status, and 5 where memory ran out before there was one.
fn code_of(answer: Result<Status, AllocError>) -> u8
    ensures { MatchResult answer (λ status. result ≡ exit_code_of status) (λ _. result ≡ 5) }
{
    exit_code(answer.unwrap_or(Status::NoMemory))
}

fn main(rt: HostRuntime) -> ExitCode {
    ExitCode::from(code_of(answer(&rt)))
}
