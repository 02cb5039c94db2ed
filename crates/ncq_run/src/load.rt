//! A load: commands that are made here are answered, and their tally is written.
ghost use Rattle.std.specs.Prelude.{◌≡◌, ◌+◌, ◌*◌, ◌<◌, ◌≤◌, ◌^◌, ◌++◌, ℕ, List, [], OnOk, IfOk};
ghost use Rattle.std.specs.Prelude.{Option, false, if◌then◌else◌, length, true};
ghost use Rattle.ncq_callback.specs.Labels.{handed_in};
ghost use Rattle.ncq_outside.specs.Causes.{IsFull};
ghost use Rattle.ncq_report.specs.Loads.{load_text};
ghost use Rattle.ncq_script.specs.Proper.{IsProperCommand};
ghost use Rattle.ncq_script.specs.Script.{script};
ghost use Rattle.ncq_script.specs.ScriptReading.{FollowsScript, limit_of, is_finished};
ghost use Rattle.ncq_engine.specs.History.{History};
ghost use Rattle.ncq_engine.specs.Languages.{language_of};
ghost use Rattle.ncq_engine.specs.Stands.{Stands};
ghost use Rattle.ncq_run.specs.Output.{AreWithinTries};
ghost use Rattle.ncq_run.specs.Session.{Advances, Asks, IsSmall, IsTallied, IsThrough, IsUpTo};
ghost use Rattle.ncq_run.specs.Status.{Loaded, StandsForThe, outside};
ghost use Rattle.ncq_run.specs.Tallies.{no_tally, tally_of, with_command};

use crate::answer::{Task, let_go, make_answer, write_all};
use crate::session::Status;
use ncq_base::Steps;
use ncq_engine::Engine;
use ncq_outside::{Failed, Sink};
use ncq_report::{Tally, generate, loads_are_short, write_tally};
use ncq_script::{Command, Next, ScriptReader};
use std::alloc::AllocError;
use std::sync::ledger::Ledger;

/// Answers the next command, and counts it. The text of the answer is made in `text`.
fn tally_one<L: Ledger>(
    task: &Task<'_>,
    engine: &mut Engine,
    command: Command,
    text: &mut Vec<u8>,
    tally: &mut Tally,
    steps: &mut Steps<L>,
) -> Result<(), AllocError>
    requires few { engine.old.count < 2 ^ 48 }
    requires proper { IsProperCommand command }
    requires handlers { engine.old.handed
        ≡ (handed_in task.now.handlers.now.items.items (λ h. h.name) (λ h. h.kind)
        task.now.handlers.now.predicates.items (λ p. p.name) (λ p. p.relation)) }
    requires small { IsSmall tally.old engine.old.count }
    ensures tallied { OnOk result ((history : History) → Stands engine.old history →
        tally.new ≡ with_command (language_of engine.old.handed) tally.old history
        (engine.old.count + 1) command) }
    ensures small { OnOk result (IsSmall tally.new engine.new.count) }
    ensures asks { Asks engine.old command steps.old engine.new steps.new result }
{
    let answered = make_answer(task, engine, &command, text, steps);
    let_go(command);
    let accepted = answered?;
    count_one(tally, accepted, engine.spans().len(), text.len());
    Ok(())
}

/// Counts a command whose answer has so many notices and bytes.
fn count_one(tally: &mut Tally, accepted: bool, notices: usize, bytes: usize)
    requires few { tally.old.commands < 2 ^ 48 }
    requires small { IsSmall tally.old tally.old.commands }
    ensures { tally.new ≡ record {
      commands = tally.old.commands + 1;
      refused = tally.old.refused + (if accepted then 0 else 1);
      notices = tally.old.notices + notices;
      bytes = tally.old.bytes + bytes;
    } }
{
    tally.commands += 1;
    tally.refused += u64::from(!accepted);
    tally.notices += notices as u128;
    tally.bytes += bytes as u128;
}

/// Answers and counts each command that can be told and that has no answer yet.
fn tally_commands<L: Ledger>(
    task: &Task<'_>,
    reader: &mut ScriptReader,
    engine: &mut Engine,
    tally: &mut Tally,
    steps: &mut Steps<L>,
) -> Result<(), AllocError>
    requires so_far { (bytes : List ℕ) × (begun : ℕ) × (length bytes < 2 ^ 48)
        × IsTallied bytes reader.old engine.old tally.old begun steps.old }
    requires handlers { engine.old.handed
        ≡ (handed_in task.now.handlers.now.items.items (λ h. h.name) (λ h. h.kind)
        task.now.handlers.now.predicates.items (λ p. p.name) (λ p. p.relation)) }
    ensures advances { Advances reader.old engine.old steps.old
        reader.new engine.new steps.new result }
    ensures tallied { OnOk result ((bytes : List ℕ) (begun : ℕ)
        → IsTallied bytes reader.old engine.old tally.old begun steps.old
        → IsTallied bytes reader.new engine.new tally.new begun steps.new) }
{
    let mut text = Vec::new(task.alloc);
    'commands: loop {
        match reader.next() {
            Ok(Next::Command(command)) => {
                tally_one(task, engine, command, &mut text, tally, steps)?;
            }
            // The next command is not whole yet.
            Ok(Next::Wanting) => return Ok(()),
            // There is none.
            Ok(Next::End) => return Ok(()),
            Err(AllocError) => return Err(AllocError),
        }
    }
}

/// Pushes a command of the load, and answers and counts it.
fn tally_part<L: Ledger>(
    task: &Task<'_>,
    reader: &mut ScriptReader,
    engine: &mut Engine,
    part: &[u8],
    tally: &mut Tally,
    steps: &mut Steps<L>,
) -> Result<(), AllocError>
    requires so_far { (bytes : List ℕ) × (begun : ℕ) × (length bytes + length part.now < 2 ^ 48)
        × IsTallied bytes reader.old engine.old tally.old begun steps.old }
    requires is_open { is_finished reader.old ≡ false }
    requires handlers { engine.old.handed
        ≡ (handed_in task.now.handlers.now.items.items (λ h. h.name) (λ h. h.kind)
        task.now.handlers.now.predicates.items (λ p. p.name) (λ p. p.relation)) }
    ensures through { (bytes : List ℕ) (begun : ℕ)
        → IsUpTo bytes reader.old engine.old begun steps.old
        → IsThrough (bytes ++ part.now) reader.new engine.new begun steps.new result }
    ensures tallied { OnOk result ((bytes : List ℕ) (begun : ℕ)
        → IsTallied bytes reader.old engine.old tally.old begun steps.old
        → IsTallied (bytes ++ part.now) reader.new engine.new tally.new begun steps.new) }
    ensures limit { limit_of reader.new ≡ limit_of reader.old }
    ensures is_open { is_finished reader.new ≡ false }
    ensures handed { engine.new.handed ≡ engine.old.handed }
{
    reader.push(part)?;
    tally_commands(task, reader, engine, tally, steps)
}

/// Marks the end of the load, and answers and counts what is left.
fn tally_rest<L: Ledger>(
    task: &Task<'_>,
    reader: &mut ScriptReader,
    engine: &mut Engine,
    tally: &mut Tally,
    steps: &mut Steps<L>,
) -> Result<(), AllocError>
    requires so_far { (bytes : List ℕ) × (begun : ℕ) × (length bytes < 2 ^ 48)
        × IsTallied bytes reader.old engine.old tally.old begun steps.old }
    requires is_open { is_finished reader.old ≡ false }
    requires handlers { engine.old.handed
        ≡ (handed_in task.now.handlers.now.items.items (λ h. h.name) (λ h. h.kind)
        task.now.handlers.now.predicates.items (λ p. p.name) (λ p. p.relation)) }
    ensures through { (bytes : List ℕ) (begun : ℕ)
        → IsUpTo bytes reader.old engine.old begun steps.old
        → IsThrough bytes reader.new engine.new begun steps.new result }
    ensures tallied { OnOk result ((bytes : List ℕ) (begun : ℕ)
        → IsTallied bytes reader.old engine.old tally.old begun steps.old
        → IsTallied bytes reader.new engine.new tally.new begun steps.new) }
    ensures limit { limit_of reader.new ≡ limit_of reader.old }
    ensures closed { is_finished reader.new ≡ true }
    ensures handed { engine.new.handed ≡ engine.old.handed }
{
    reader.finish();
    tally_commands(task, reader, engine, tally, steps)
}

/// Nothing is counted yet.
fn empty_tally() -> Tally
    ensures { result ≡ no_tally }
{
    Tally {
        commands: 0,
        refused: 0,
        notices: 0,
        bytes: 0,
    }
}

/// Answers the commands of a load of `n` subscribers one by one, and counts them. The reader was
/// pushed nothing yet.
fn tally_parts<L: Ledger>(
    task: &Task<'_>,
    n: u64,
    reader: &mut ScriptReader,
    engine: &mut Engine,
    steps: &mut Steps<L>,
) -> Result<Tally, AllocError>
    requires some { 1 ≤ n }
    requires few { n ≤ 2000 }
    requires follows { FollowsScript reader.old [] 0 }
    requires is_open { is_finished reader.old ≡ false }
    requires fresh { StandsForThe (language_of engine.old.handed) [] engine.old }
    requires handlers { engine.old.handed
        ≡ (handed_in task.now.handlers.now.items.items (λ h. h.name) (λ h. h.kind)
        task.now.handlers.now.predicates.items (λ p. p.name) (λ p. p.relation)) }
    ensures tallied { IfOk result (λ tally. (tally ≡ tally_of (language_of engine.old.handed)
        (script (limit_of reader.old) (load_text n)))
        × StandsForThe (language_of engine.old.handed)
        (script (limit_of reader.old) (load_text n)) engine.new) }
    ensures work { AreWithinTries (language_of engine.old.handed)
        (script (limit_of reader.old) (load_text n)) steps.old steps.new }
    ensures handed { engine.new.handed ≡ engine.old.handed }
{
    loads_are_short();
    let mut tally = empty_tally();
    let mut part = Vec::new(task.alloc);
    for number in 0..2 * n + 4 {
        part.clear();
        generate(n, number, &mut part)?;
        tally_part(task, reader, engine, part.as_slice(), &mut tally, steps)?;
    }
    tally_rest(task, reader, engine, &mut tally, steps)?;
    Ok(tally)
}

/// Answers and counts the commands of a load of `n` subscribers, by a reader of their own.
fn tally_load<L: Ledger>(
    task: &Task<'_>,
    n: u64,
    limit: usize,
    engine: &mut Engine,
    steps: &mut Steps<L>,
) -> Result<Tally, AllocError>
    requires some { 1 ≤ n }
    requires few { n ≤ 2000 }
    requires limit { limit < 2 ^ 59 }
    requires fresh { StandsForThe (language_of engine.old.handed) [] engine.old }
    requires handlers { engine.old.handed
        ≡ (handed_in task.now.handlers.now.items.items (λ h. h.name) (λ h. h.kind)
        task.now.handlers.now.predicates.items (λ p. p.name) (λ p. p.relation)) }
    ensures tallied { IfOk result (λ tally. (tally ≡ tally_of (language_of engine.old.handed)
        (script limit (load_text n)))
        × StandsForThe (language_of engine.old.handed) (script limit (load_text n)) engine.new) }
    ensures work { AreWithinTries (language_of engine.old.handed) (script limit (load_text n))
        steps.old steps.new }
    ensures handed { engine.new.handed ≡ engine.old.handed }
{
    let mut reader = ScriptReader::new(task.alloc, limit);
    tally_parts(task, n, &mut reader, engine, steps)
}

/// Answers the commands of a load of `n` subscribers, and writes their tally.
pub(crate) fn load<O: Sink, L: Ledger>(
    task: &Task<'_>,
    n: u64,
    limit: usize,
    output: &mut O,
    engine: &mut Engine,
    steps: &mut Steps<L>,
) -> Status
    requires some { 1 ≤ n }
    requires few { n ≤ 2000 }
    requires limit { limit < 2 ^ 59 }
    requires fresh { StandsForThe (language_of engine.old.handed) [] engine.old }
    requires handlers { engine.old.handed
        ≡ (handed_in task.now.handlers.now.items.items (λ h. h.name) (λ h. h.kind)
        task.now.handlers.now.predicates.items (λ p. p.name) (λ p. p.relation)) }
    ensures ended { (left left' : Option (List ℕ)) (given given' faults faults' : ℕ)
        → Loaded (language_of engine.old.handed) limit n
        (outside left (O.held output.old) given faults (O.faults output.old))
        (outside left' (O.held output.new) given' faults' (O.faults output.new)) result }
    ensures stands { result ≡ Status.Done
        → StandsForThe (language_of engine.old.handed) (script limit (load_text n)) engine.new }
    ensures work { AreWithinTries (language_of engine.old.handed) (script limit (load_text n))
        steps.old steps.new }
    ensures sure_sink { result ≡ Status.WriteFault
        → IsFull (O.sure output.old) (O.held output.new) }
    ensures handed { engine.new.handed ≡ engine.old.handed }
{
    let Ok(tally) = tally_load(task, n, limit, engine, steps) else {
        return Status::NoMemory;
    };
    let mut text = Vec::new(task.alloc);
    let Ok(()) = write_tally(&tally, &mut text) else {
        return Status::NoMemory;
    };
    match write_all(output, text.as_slice()) {
        Ok(()) => Status::Done,
        Err(Failed) => Status::WriteFault,
    }
}
