//! The top call: a session over a source and a sink.
ghost use Rattle.std.specs.Prelude.{◌≡◌, ◌+◌, ◌-◌, ◌<◌, ◌≤◌, ◌^◌, ◌++◌, ℕ, List, [], Option};
ghost use Rattle.std.specs.Prelude.{OnErr, IfOk, IfSome, IfNone, IsOk, Some, None};
ghost use Rattle.std.specs.Prelude.{◌⊎◌, true, false, length, take};
ghost use Rattle.std.specs.Io.KnownBytes.{Consumes, Keeps, IsAtEnd};
ghost use Rattle.std.specs.Option.{option_copied};
ghost use Rattle.ncq_callback.specs.Labels.{handed_in};
ghost use Rattle.ncq_outside.specs.Causes.{HasCause, IsFull, RoseBy};
ghost use Rattle.ncq_script.specs.ScriptReading.{limit_of, is_finished};
ghost use Rattle.ncq_engine.specs.Languages.{language_of};
ghost use Rattle.ncq_engine.specs.Stands.{Stands};
ghost use Rattle.ncq_run.specs.Limits.{longest_line, longest_script};
ghost use Rattle.ncq_run.specs.Output.{shown};
ghost use Rattle.ncq_run.specs.Session.{IsAnswered, IsOver, IsReady, IsThrough, IsUpTo, SoFar};
ghost use Rattle.ncq_run.specs.Session.{LeavesSink, Turns, Writes, commands_in, status_of};
ghost use Rattle.ncq_run.specs.Status.{EndedAs, Outside, StandsAs, StandsForThe, WorksAs};
ghost use Rattle.ncq_run.specs.Status.{exit_code_of, is_load, outside};
ghost use Rattle.ncq_words.specs.Forms.{form_of, texts_of};

use crate::answer::{Stop, Task, answer_commands};
use crate::load::load;
use ncq_base::Steps;
use ncq_callback::Handlers;
use ncq_engine::Engine;
use ncq_outside::{Failed, Sink, Source};
use ncq_script::ScriptReader;
use ncq_words::{Form, WordsError, read_words};
use std::alloc::{AllocError, Global};
use std::sync::ledger::Ledger;

/// The longest script, in bytes.
const MAX_SCRIPT: usize = 268_435_456;

/// The longest line that is looked at whole, in bytes, without its LF and one CR at its end.
const MAX_LINE: usize = 1_048_576;

/// The most bytes that a read asks for.
const PIECE: usize = 65536;

/// How a session ended.
#[derive(Clone, Copy, Debug, PartialEq, Eq)]
pub enum Status {
    /// The script was read to its end, and its whole output was written.
    Done,
    /// The words fit no form; nothing was read or written.
    Usage,
    /// A read failed.
    ReadFault,
    /// A write failed.
    WriteFault,
    /// Memory ran out: at both tries of a command, or outside of them.
    NoMemory,
    /// The script has more than 268,435,456 bytes.
    ScriptTooLong,
}

/// Reads at most `most` bytes to the front of the buffer.
fn fill<I: Source>(input: &mut I, buffer: &mut [u8], most: usize) -> Result<usize, Failed>
    requires some { 0 < most }
    requires room { most ≤ length buffer.old }
    ensures small { IfOk result (λ n. n ≤ most) }
    ensures bytes { IfOk result (λ n.
        Consumes (I.left input.old) (I.left input.new) (take n buffer.new)) }
    ensures end { IfOk result (λ n. n ≡ 0 → IsAtEnd (I.left input.new)) }
    ensures given { IfOk result (λ n. RoseBy (I.given input.old) n (I.given input.new)) }
    ensures stays { OnErr result (Keeps (I.left input.old) (I.left input.new)
        × (I.given input.new ≡ I.given input.old)) }
    ensures cause { HasCause (I.faults input.old) (I.faults input.new) result }
    ensures sure { I.is_sure input.old ≡ true → IsOk result }
    ensures keeps { I.is_sure input.new ≡ I.is_sure input.old }
{
    input.read(&mut buffer[..most])
}

/// Pushes a piece, and answers the commands that are whole now.
fn answer_piece<O: Sink, L: Ledger>(
    task: &Task<'_>,
    reader: &mut ScriptReader,
    engine: &mut Engine,
    piece: &[u8],
    output: &mut O,
    steps: &mut Steps<L>,
) -> Result<(), Stop>
    requires so_far { (bytes : List ℕ) × (begun : ℕ) × (length bytes + length piece.now < 2 ^ 48)
        × IsUpTo bytes reader.old engine.old begun steps.old }
    requires is_open { is_finished reader.old ≡ false }
    requires handlers { engine.old.handed
        ≡ (handed_in task.now.handlers.now.items.items (λ h. h.name) (λ h. h.kind)
        task.now.handlers.now.predicates.items (λ p. p.name) (λ p. p.relation)) }
    ensures through { (bytes : List ℕ) (begun : ℕ)
        → IsUpTo bytes reader.old engine.old begun steps.old
        → IsThrough (bytes ++ piece.now) reader.new engine.new begun steps.new result }
    ensures written { (bytes : List ℕ) (before : Option (List ℕ)) (begun : ℕ)
        → IsAnswered (option_copied task.now.whose) bytes reader.old engine.old
        before (O.held output.old) begun steps.old
        → Writes before (O.held output.new) (shown (language_of engine.new.handed)
        (option_copied task.now.whose) (commands_in reader.new (bytes ++ piece.now))) result }
    ensures sink { LeavesSink (O.faults output.old) (O.faults output.new)
        (O.sure output.old) (O.sure output.new) (O.held output.new) result }
    ensures limit { limit_of reader.new ≡ limit_of reader.old }
    ensures is_open { is_finished reader.new ≡ false }
    ensures handed { engine.new.handed ≡ engine.old.handed }
{
    match reader.push(piece) {
        Ok(()) => answer_commands(task, reader, engine, output, steps),
        Err(AllocError) => Err(Stop::NoMemory),
    }
}

/// Marks the end, and answers the last command.
fn answer_rest<O: Sink, L: Ledger>(
    task: &Task<'_>,
    reader: &mut ScriptReader,
    engine: &mut Engine,
    output: &mut O,
    steps: &mut Steps<L>,
) -> Result<(), Stop>
    requires so_far { (bytes : List ℕ) × (begun : ℕ) × (length bytes < 2 ^ 48)
        × IsUpTo bytes reader.old engine.old begun steps.old }
    requires is_open { is_finished reader.old ≡ false }
    requires handlers { engine.old.handed
        ≡ (handed_in task.now.handlers.now.items.items (λ h. h.name) (λ h. h.kind)
        task.now.handlers.now.predicates.items (λ p. p.name) (λ p. p.relation)) }
    ensures through { (bytes : List ℕ) (begun : ℕ)
        → IsUpTo bytes reader.old engine.old begun steps.old
        → IsThrough bytes reader.new engine.new begun steps.new result }
    ensures written { (bytes : List ℕ) (before : Option (List ℕ)) (begun : ℕ)
        → IsAnswered (option_copied task.now.whose) bytes reader.old engine.old
        before (O.held output.old) begun steps.old
        → Writes before (O.held output.new) (shown (language_of engine.new.handed)
        (option_copied task.now.whose) (commands_in reader.new bytes)) result }
    ensures sink { LeavesSink (O.faults output.old) (O.faults output.new)
        (O.sure output.old) (O.sure output.new) (O.held output.new) result }
    ensures limit { limit_of reader.new ≡ limit_of reader.old }
    ensures closed { is_finished reader.new ≡ true }
    ensures handed { engine.new.handed ≡ engine.old.handed }
{
    reader.finish();
    answer_commands(task, reader, engine, output, steps)
}

/// The bytes up to a place.
fn front_of(bytes: &[u8], end: usize) -> &[u8]
    requires { end ≤ length bytes.now }
    ensures { result.now ≡ take end bytes.now }
{
    &bytes[..end]
}

/// How a session ends that stopped.
fn status_of(stop: Stop) -> Status
    ensures { result ≡ status_of stop }
{
    match stop {
        Stop::NoMemory => Status::NoMemory,
        Stop::WriteFault => Status::WriteFault,
    }
}

/// How far a session has come, and its limit.
struct Session {
    reader: ScriptReader,
    buffer: Vec<u8>,
    taken: usize,
    most: usize,
}

impl Drop for Session {
    fn drop(self) {
        let Session {
            reader,
            buffer,
            taken: _,
            most: _,
        } = self;
        drop(reader);
        drop(buffer);
    }
}

/// Reads a piece and answers what is whole now. It tells how the session ends, where it does.
fn turn<I: Source, O: Sink, L: Ledger>(
    task: &Task<'_>,
    session: &mut Session,
    input: &mut I,
    output: &mut O,
    engine: &mut Engine,
    steps: &mut Steps<L>,
) -> Option<Status>
    requires ready { IsReady session.old.reader engine.old session.old.taken session.old.most
        (length session.old.buffer.items) steps.old }
    requires handlers { engine.old.handed
        ≡ (handed_in task.now.handlers.now.items.items (λ h. h.name) (λ h. h.kind)
        task.now.handlers.now.predicates.items (λ p. p.name) (λ p. p.relation)) }
    ensures ready { IfNone result (IsReady session.new.reader engine.new session.new.taken
        session.old.most (length session.new.buffer.items) steps.new) }
    ensures falls { IfNone result (session.old.taken < session.new.taken) }
    ensures turns { (start : Outside) (begun : ℕ)
        → SoFar (option_copied task.now.whose) session.old.reader engine.old session.old.taken start
        (outside (I.left input.old) (O.held output.old) (I.given input.old) (I.faults input.old)
        (O.faults output.old)) begun steps.old
        → Turns (language_of engine.old.handed) (option_copied task.now.whose)
        (limit_of session.old.reader) session.old.most start
        (outside (I.left input.new) (O.held output.new) (I.given input.new) (I.faults input.new)
        (O.faults output.new)) session.new.reader engine.new session.new.taken begun steps.new
        result }
    ensures within { I.given input.new
        ≤ I.given input.old + (session.old.most - session.old.taken + 1) }
    ensures limits { (session.new.most ≡ session.old.most)
        × (limit_of session.new.reader ≡ limit_of session.old.reader) }
    ensures sure_source { result ≡ Some Status.ReadFault → I.is_sure input.old ≡ true → ⊥ }
    ensures sure_sink { result ≡ Some Status.WriteFault
        → IsFull (O.sure output.old) (O.held output.new) }
    ensures stays { (I.is_sure input.new ≡ I.is_sure input.old)
        × (O.sure output.new ≡ O.sure output.old) }
    ensures handed { engine.new.handed ≡ engine.old.handed }
{
    let room = session.most - session.taken;
    let Ok(got) = fill(input, &mut session.buffer, PIECE.min(room + 1)) else {
        return Some(Status::ReadFault);
    };
    if got == 0 {
        return match answer_rest(task, &mut session.reader, engine, output, steps) {
            Ok(()) => Some(Status::Done),
            Err(stop) => Some(status_of(stop)),
        };
    }
    let inside = got.min(room);
    let piece = front_of(&session.buffer, inside);
    match answer_piece(task, &mut session.reader, engine, piece, output, steps) {
        Ok(()) if got > room => Some(Status::ScriptTooLong),
        Ok(()) => {
            session.taken += got;
            None
        }
        Err(stop) => Some(status_of(stop)),
    }
}

/// A session on a script of at most `most` bytes, with lines of at most `limit` bytes.
fn serve<I: Source, O: Sink, L: Ledger>(
    task: &Task<'_>,
    most: usize,
    limit: usize,
    input: &mut I,
    output: &mut O,
    engine: &mut Engine,
    steps: &mut Steps<L>,
) -> Status
    requires most { most < 2 ^ 48 }
    requires limit { limit < 2 ^ 59 }
    requires fresh { StandsForThe (language_of engine.old.handed) [] engine.old }
    requires handlers { engine.old.handed
        ≡ (handed_in task.now.handlers.now.items.items (λ h. h.name) (λ h. h.kind)
        task.now.handlers.now.predicates.items (λ p. p.name) (λ p. p.relation)) }
    ensures over { IsOver (language_of engine.old.handed) (option_copied task.now.whose) limit most
        (outside (I.left input.old) (O.held output.old) (I.given input.old) (I.faults input.old)
        (O.faults output.old)) (outside (I.left input.new) (O.held output.new) (I.given input.new)
        (I.faults input.new) (O.faults output.new)) engine.new steps.old steps.new result }
    ensures within { I.given input.new ≤ I.given input.old + (most + 1) }
    ensures sure_source { result ≡ Status.ReadFault → I.is_sure input.old ≡ true → ⊥ }
    ensures sure_sink { result ≡ Status.WriteFault
        → IsFull (O.sure output.old) (O.held output.new) }
    ensures handed { engine.new.handed ≡ engine.old.handed }
{
    let Ok(buffer) = vec![in task.alloc; 0u8; PIECE] else {
        return Status::NoMemory;
    };
    let mut session = Session {
        reader: ScriptReader::new(task.alloc, limit),
        buffer,
        taken: 0,
        most,
    };
    'turns: loop {
        if let Some(status) = turn(task, &mut session, input, output, engine, steps) {
            return status;
        }
    }
}

/// Does what the words ask for: `run` reads a script from `input` and writes the answer to each of
/// its commands to `output`; `alone <name>` reads it and writes the notices of the subscriptions of
/// that name alone; `load <n>` makes commands of its own, answers them and writes their tally.
///
/// `Usage` comes only where the words fit none of these forms; then, and where memory ran out
/// before that was found, nothing is read or written, no step is counted, and the engine stays.
/// `Done` means that the script was read to its end and that `output` was extended by the whole
/// defined output. `ReadFault` and `WriteFault` come only where a read or a write failed in this
/// call, `ScriptTooLong` only where the source gave more than 268,435,456 bytes in this call. After
/// each of them, and after `NoMemory`, `output` was extended by a front of the defined output. No
/// more than one byte past 268,435,456 is read, and none in a load. A source that is sure never
/// gives a `ReadFault`, and a sink gives a `WriteFault` only where it holds all that it was sure to
/// hold.
/// The engine is a new one, for these handlers. After `Done` it stands for the whole script, after
/// `ReadFault` for the commands that are whole in the bytes that were read, and after
/// `ScriptTooLong` for those that are whole in the first 268,435,456 bytes; and it counted them.
/// Whatever the status, its handlers have the names and kinds that they had.
/// A command that finds no memory is tried once more, from an engine that stands as it stood; a
/// second time it ends the session. That there is a second try is tested, and no clause says it:
/// a session that gives up at once has the same contract. Where memory runs out between the
/// commands, there is no second try.
/// It takes at most one step for each row that is made, at each try: where the source tells its
/// bytes, the steps are within twice the work of the commands of the script, whatever the status.
pub fn run<I: Source, O: Sink, L: Ledger>(
    alloc: Global,
    words: &[&str],
    input: &mut I,
    output: &mut O,
    handlers: &Handlers,
    engine: &mut Engine,
    steps: &mut Steps<L>,
) -> Status
    requires stands { Stands engine.old [] }
    requires fresh { engine.old.count ≡ 0 }
    requires handlers { engine.old.handed
        ≡ (handed_in handlers.now.items.items (λ h. h.name) (λ h. h.kind)
        handlers.now.predicates.items (λ p. p.name) (λ p. p.relation)) }
    ensures usage { result ≡ Status.Usage → form_of (texts_of words.now) ≡ None }
    ensures no_form { IfNone (form_of (texts_of words.now))
        ((result ≡ Status.Usage) ⊎ (result ≡ Status.NoMemory)) }
    ensures untouched { IfNone (form_of (texts_of words.now))
        ((input.new ≡ input.old) × (output.new ≡ output.old) × (engine.new ≡ engine.old)) }
    ensures ended { IfSome (form_of (texts_of words.now)) (λ form.
        EndedAs form (language_of engine.old.handed) longest_line longest_script
        (outside (I.left input.old) (O.held output.old) (I.given input.old)
        (I.faults input.old) (O.faults output.old))
        (outside (I.left input.new) (O.held output.new) (I.given input.new)
        (I.faults input.new) (O.faults output.new)) result) }
    ensures unread { IfSome (form_of (texts_of words.now)) (λ form.
        is_load form ≡ true → input.new ≡ input.old) }
    ensures stands { IfSome (form_of (texts_of words.now)) (λ form.
        StandsAs form (language_of engine.old.handed) longest_line longest_script
        (I.left input.old) (I.left input.new) engine.new result) }
    ensures work { IfSome (form_of (texts_of words.now)) (λ form.
        WorksAs form (language_of engine.old.handed) longest_line (I.left input.old)
        steps.old steps.new) }
    ensures within { I.given input.new ≤ I.given input.old + (longest_script + 1) }
    ensures sure_source { result ≡ Status.ReadFault → I.is_sure input.old ≡ true → ⊥ }
    ensures sure_sink { result ≡ Status.WriteFault
        → IsFull (O.sure output.old) (O.held output.new) }
    ensures no_steps { IfNone (form_of (texts_of words.now)) (steps.new ≡ steps.old) }
    ensures handed { engine.new.handed ≡ engine.old.handed }
{
    let task = Task {
        alloc,
        whose: None,
        handlers,
    };
    match read_words(alloc, words) {
        Ok(Form::Run) => serve(&task, MAX_SCRIPT, MAX_LINE, input, output, engine, steps),
        Ok(Form::Alone(name)) => {
            let alone = Task {
                whose: Some(name.as_bytes()),
                ..task
            };
            serve(&alone, MAX_SCRIPT, MAX_LINE, input, output, engine, steps)
        }
        Ok(Form::Load(n)) => load(&task, n, MAX_LINE, output, engine, steps),
        Err(WordsError::Usage) => Status::Usage,
        Err(WordsError::OutOfMemory) => Status::NoMemory,
    }
}

/// The exit code of a status: 0, 2, 3, 4, 5, 6 in the order of the statuses.
pub fn exit_code(status: Status) -> u8
    ensures { result ≡ exit_code_of status }
{
    match status {
        Status::Done => 0,
        Status::Usage => 2,
        Status::ReadFault => 3,
        Status::WriteFault => 4,
        Status::NoMemory => 5,
        Status::ScriptTooLong => 6,
    }
}
