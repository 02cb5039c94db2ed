//! Answering the commands of a script, each as soon as it is whole.
ghost use Rattle.std.specs.Prelude.{◌≡◌, ◌+◌, ◌<◌, ◌≤◌, ◌^◌, ℕ, List, Option, IfOk, OnOk, OnErr};
ghost use Rattle.std.specs.Prelude.{length, drop};
ghost use Rattle.std.specs.Io.KnownBytes.{Appends};
ghost use Rattle.std.specs.List.{filter, flat_map, AllByRecursion};
ghost use Rattle.std.specs.Option.{is_none, option_copied};
ghost use Rattle.ncq_callback.specs.Labels.{handed_in};
ghost use Rattle.ncq_outside.specs.Causes.{HasCause, IsFull};
ghost use Rattle.ncq_script.specs.Proper.{IsProperCommand};
ghost use Rattle.ncq_engine.specs.History.{History};
ghost use Rattle.ncq_engine.specs.Languages.{language_of};
ghost use Rattle.ncq_engine.specs.Output.{output as answer_to, first_refusal};
ghost use Rattle.ncq_engine.specs.Stands.{Stands};
ghost use Rattle.ncq_run.specs.Output.{shown};
ghost use Rattle.ncq_run.specs.Session.{Advances, Asks, IsAnswered, IsUpTo, LeavesSink, Writes};
ghost use Rattle.ncq_run.specs.Session.{commands_in};
ghost use Rattle.ncq_run.specs.Shown.{answer_spans, shown_answer};
ghost use Rattle.ncq_run.specs.Shown.{IsWithin, has_name, piece_of};
ghost use Rattle.ncq_run.specs.Status.{AppendsProperPrefix};

use crate::twice::apply_twice;
use ncq_base::Steps;
use ncq_callback::Handlers;
use ncq_engine::{ApplyError, Engine, Span};
use ncq_outside::{Failed, Sink};
use ncq_script::{Command, Next, ScriptReader, write_refused};
use std::alloc::{AllocError, Global};
use std::sync::ledger::Ledger;

/// What stays the same while a script is answered: whose notices are shown, where it is one
/// subscriber's alone, and what the actions do.
#[derive(Clone, Copy)]
pub(crate) struct Task<'a> {
    pub(crate) alloc: Global,
    pub(crate) whose: Option<&'a [u8]>,
    pub(crate) handlers: &'a Handlers,
}

/// Why a session stopped before the end of its script.
#[derive(Clone, Copy, Debug, PartialEq, Eq)]
pub(crate) enum Stop {
    NoMemory,
    WriteFault,
}

/// Writes all of the bytes: each write offers those that are not yet taken.
pub(crate) fn write_all<O: Sink>(output: &mut O, bytes: &[u8]) -> Result<(), Failed>
    ensures ok { OnOk result (Appends (O.held output.old) (O.held output.new) bytes.now) }
    ensures err { OnErr result
        (AppendsProperPrefix (O.held output.old) (O.held output.new) bytes.now) }
    ensures cause { HasCause (O.faults output.old) (O.faults output.new) result }
    ensures full { OnErr result (IsFull (O.sure output.old) (O.held output.new)) }
    ensures sure { O.sure output.new ≡ O.sure output.old }
{
    let mut rest = bytes;
    while !rest.is_empty() {
        let count = output.write(rest)?;
        rest = rest_of(rest, count);
    }
    Ok(())
}

/// The bytes from a place on.
fn rest_of(bytes: &[u8], at: usize) -> &[u8]
    requires { at ≤ length bytes.now }
    ensures { result.now ≡ drop at bytes.now }
{
    &bytes[at..]
}

/// Makes the answer to the next command in `text`, in place of what stood there, and tells whether
/// the command was accepted.
pub(crate) fn make_answer<L: Ledger>(
    task: &Task<'_>,
    engine: &mut Engine,
    command: &Command,
    text: &mut Vec<u8>,
    steps: &mut Steps<L>,
) -> Result<bool, AllocError>
    requires few { engine.old.count < 2 ^ 48 }
    requires proper { IsProperCommand command.now }
    requires handlers { engine.old.handed
        ≡ (handed_in task.now.handlers.now.items.items (λ h. h.name) (λ h. h.kind)
        task.now.handlers.now.predicates.items (λ p. p.name) (λ p. p.relation)) }
    ensures made { OnOk result ((history : History) → Stands engine.old history →
        text.new.items ≡ answer_to (language_of engine.old.handed) history
        (engine.old.count + 1) command.now) }
    ensures spans { OnOk result ((history : History) → Stands engine.old history →
        engine.new.spans ≡ answer_spans (language_of engine.old.handed) history
        (engine.old.count + 1) command.now) }
    ensures accepted { IfOk result (λ accepted. (history : History) → Stands engine.old history →
        accepted ≡ is_none (first_refusal (language_of engine.old.handed) history command.now)) }
    ensures asks { Asks engine.old command.now steps.old engine.new steps.new result }
{
    text.clear();
    match apply_twice(task, engine, command, text, steps) {
        Ok(_) => Ok(true),
        Err(ApplyError::Refused(refusal)) => {
            write_refused(engine.count(), &refusal, text)?;
            Ok(false)
        }
        Err(ApplyError::OutOfMemory) => Err(AllocError),
    }
}

/// Makes what is shown of the answer to the next command in `text`: all of it, or the notices of
/// the one name alone.
fn make_shown<L: Ledger>(
    task: &Task<'_>,
    engine: &mut Engine,
    command: &Command,
    text: &mut Vec<u8>,
    steps: &mut Steps<L>,
) -> Result<(), AllocError>
    requires few { engine.old.count < 2 ^ 48 }
    requires proper { IsProperCommand command.now }
    requires stands { (history : History) × Stands engine.old history }
    requires handlers { engine.old.handed
        ≡ (handed_in task.now.handlers.now.items.items (λ h. h.name) (λ h. h.kind)
        task.now.handlers.now.predicates.items (λ p. p.name) (λ p. p.relation)) }
    ensures made { OnOk result ((history : History) → Stands engine.old history →
        text.new.items ≡ shown_answer (language_of engine.old.handed)
        (option_copied task.now.whose) history (engine.old.count + 1) command.now) }
    ensures asks { Asks engine.old command.now steps.old engine.new steps.new result }
{
    make_answer(task, engine, command, text, steps)?;
    match task.whose {
        Some(name) => keep_own(task.alloc, name, engine.spans(), text),
        None => Ok(()),
    }
}

/// Leaves of the text what stands at the places of this name.
fn keep_own(
    alloc: Global,
    name: &[u8],
    spans: &[Span],
    text: &mut Vec<u8>,
) -> Result<(), AllocError>
    requires within { AllByRecursion (IsWithin text.old.items) spans.now }
    ensures { OnOk result (text.new.items
        ≡ flat_map (piece_of text.old.items) (filter (has_name name.now) spans.now)) }
{
    let mut own = Vec::new(alloc);
    for span in spans {
        if is_named(span, name) {
            own.extend_from_slice(piece(text.as_slice(), span))?;
        }
    }
    *text = own;
    Ok(())
}

/// Whether it is the place of a notice of this name.
fn is_named(span: &Span, name: &[u8]) -> bool
    ensures { result ≡ has_name name.now span.now }
{
    name == span.name.as_slice()
}

/// What stands at this place of the text.
fn piece<'a>(text: &'a [u8], span: &Span) -> &'a [u8]
    requires { IsWithin text.now span.now }
    ensures { result.now ≡ piece_of text.now span.now }
{
    &text[span.from..span.to]
}

/// Gives back the memory of a command whose answer is made. It is a function of its own since each
/// way out of a larger one that drops a command takes long to prove.
pub(crate) fn let_go(_command: Command) {}

/// Writes what is shown of the answer to the next command. Its text is made in `text`.
fn answer_one<O: Sink, L: Ledger>(
    task: &Task<'_>,
    engine: &mut Engine,
    command: Command,
    text: &mut Vec<u8>,
    output: &mut O,
    steps: &mut Steps<L>,
) -> Result<(), Stop>
    requires few { engine.old.count < 2 ^ 48 }
    requires proper { IsProperCommand command }
    requires stands { (history : History) × Stands engine.old history }
    requires handlers { engine.old.handed
        ≡ (handed_in task.now.handlers.now.items.items (λ h. h.name) (λ h. h.kind)
        task.now.handlers.now.predicates.items (λ p. p.name) (λ p. p.relation)) }
    ensures asks { Asks engine.old command steps.old engine.new steps.new result }
    ensures written { (history : History) → Stands engine.old history →
        Writes (O.held output.old) (O.held output.new) (shown_answer (language_of engine.old.handed)
        (option_copied task.now.whose) history (engine.old.count + 1) command) result }
    ensures sink { LeavesSink (O.faults output.old) (O.faults output.new)
        (O.sure output.old) (O.sure output.new) (O.held output.new) result }
{
    let shown = make_shown(task, engine, &command, text, steps);
    let_go(command);
    let Ok(()) = shown else {
        return Err(Stop::NoMemory);
    };
    match write_all(output, text.as_slice()) {
        Ok(()) => Ok(()),
        Err(Failed) => Err(Stop::WriteFault),
    }
}

/// Answers each command that can be told and that has no answer yet.
pub(crate) fn answer_commands<O: Sink, L: Ledger>(
    task: &Task<'_>,
    reader: &mut ScriptReader,
    engine: &mut Engine,
    output: &mut O,
    steps: &mut Steps<L>,
) -> Result<(), Stop>
    requires so_far { (bytes : List ℕ) × (begun : ℕ) × (length bytes < 2 ^ 48)
        × IsUpTo bytes reader.old engine.old begun steps.old }
    requires handlers { engine.old.handed
        ≡ (handed_in task.now.handlers.now.items.items (λ h. h.name) (λ h. h.kind)
        task.now.handlers.now.predicates.items (λ p. p.name) (λ p. p.relation)) }
    ensures advances { Advances reader.old engine.old steps.old
        reader.new engine.new steps.new result }
    ensures written { (bytes : List ℕ) (before : Option (List ℕ)) (begun : ℕ)
        → IsAnswered (option_copied task.now.whose) bytes reader.old engine.old
        before (O.held output.old) begun steps.old
        → Writes before (O.held output.new) (shown (language_of engine.new.handed)
        (option_copied task.now.whose) (commands_in reader.new bytes)) result }
    ensures sink { LeavesSink (O.faults output.old) (O.faults output.new)
        (O.sure output.old) (O.sure output.new) (O.held output.new) result }
{
    let mut text = Vec::new(task.alloc);
    'commands: loop {
        match reader.next() {
            Ok(Next::Command(command)) => {
                answer_one(task, engine, command, &mut text, output, steps)?;
            }
            // The next command is not whole yet.
            Ok(Next::Wanting) => return Ok(()),
            // There is none.
            Ok(Next::End) => return Ok(()),
            Err(AllocError) => return Err(Stop::NoMemory),
        }
    }
}
