//! Laws of sessions: how they end, and their clock. The functions do nothing: each is its contract.
ghost use Rattle.std.specs.Prelude.{◌≡◌, ◌⊎◌, ℕ, List, []};
ghost use Rattle.ncq_outside.specs.Causes.{IsFull, Rose};
ghost use Rattle.ncq_script.specs.declared.command.Command.{Command};
ghost use Rattle.ncq_engine.specs.Marks.{IsRising};
ghost use Rattle.ncq_engine.specs.Notices.{Language};
ghost use Rattle.ncq_engine.specs.Output.{history_of};
ghost use Rattle.ncq_run.specs.declared.session.Status.{Status};
ghost use Rattle.ncq_run.specs.declared.session.Status.TheVariants.{Done, NoMemory, WriteFault};
ghost use Rattle.ncq_run.specs.Status.{EndedAs, HoldsAllOf, IsShort, Outside};
ghost use Rattle.ncq_words.specs.Forms.{Form};

/// Where no count of faults rose and the script is within the limit, a session is done, or memory
/// ran out.
pub fn nothing_but_memory_ends_it()
    ensures { (form : Form) (language : Language) (limit most : ℕ) (old new : Outside)
        (status : Status) → EndedAs form language limit most old new status
        → ¬ Rose old.read_faults new.read_faults → ¬ Rose old.write_faults new.write_faults
        → IsShort most old new → (status ≡ Done) ⊎ (status ≡ NoMemory) }
{}

/// A sink that is sure to hold the whole output behind what it holds gives no write fault: then it
/// would be full, and a write fault leaves some of the output unwritten.
pub fn a_sure_sink_is_enough()
    ensures { (form : Form) (language : Language) (limit most sure : ℕ) (old new : Outside)
        → HoldsAllOf form language limit sure old
        → IsFull sure new.held → ¬ EndedAs form language limit most old new WriteFault }
{}

/// The clock of what a script's commands leave behind never falls: a lower instant is refused.
pub fn clocks_never_fall()
    ensures { (language : Language) (commands : List Command)
        → IsRising (history_of language [] commands) }
{}
