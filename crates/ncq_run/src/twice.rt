//! A command that is tried once more where memory runs out.
ghost use Rattle.std.specs.Prelude.{◌≡◌, ◌+◌, ◌<◌, ◌^◌, ◌++◌, ◌∷◌, [], None, Some, OnOk, OnErr};
ghost use Rattle.ncq_callback.specs.Labels.{handed_in};
ghost use Rattle.ncq_script.specs.Proper.{IsProperCommand};
ghost use Rattle.ncq_engine.specs.Applies.{AreSpans, IfAnswered, IfRefused, OfEach};
ghost use Rattle.ncq_engine.specs.Languages.{language_of};
ghost use Rattle.ncq_engine.specs.Output.{accepted_text, first_refusal};
ghost use Rattle.ncq_engine.specs.Stands.{Stands};
ghost use Rattle.ncq_run.specs.Session.{IsWithinTries};

use crate::answer::Task;
use ncq_base::Steps;
use ncq_engine::{Applied, ApplyError, Engine};
use ncq_script::Command;
use std::sync::ledger::Ledger;

/// Answers a command, and appends the answer of an accepted one. Where memory runs out, the engine
/// gives back what serves speed alone and is asked once more: it stands as it stood, so a second
/// answer is that of the first try.
pub(crate) fn apply_twice<L: Ledger>(
    task: &Task<'_>,
    engine: &mut Engine,
    command: &Command,
    out: &mut Vec<u8>,
    steps: &mut Steps<L>,
) -> Result<Applied, ApplyError>
    requires few { engine.old.count < 2 ^ 48 }
    requires proper { IsProperCommand command.now }
    requires handlers { engine.old.handed
        ≡ (handed_in task.now.handlers.now.items.items (λ h. h.name) (λ h. h.kind)
        task.now.handlers.now.predicates.items (λ p. p.name) (λ p. p.relation)) }
    ensures accepted { OnOk result (OfEach engine.old (λ history.
        first_refusal (language_of engine.old.handed) history command.now ≡ None)) }
    ensures joined { OnOk result (OfEach engine.old (λ history.
        Stands engine.new (command.now ∷ history))) }
    ensures answer { OnOk result (OfEach engine.old (λ history. out.new.items
        ≡ out.old.items ++ accepted_text (language_of engine.old.handed) history
        (engine.old.count + 1) command.now)) }
    ensures spans { OnOk result (OfEach engine.old (λ history.
        AreSpans engine.old history command.now out.old.items engine.new.spans)) }
    ensures no_spans { OnErr result (engine.new.spans ≡ []) }
    ensures refused { IfRefused result (λ why. OfEach engine.old (λ history.
        first_refusal (language_of engine.old.handed) history command.now ≡ Some why)) }
    ensures stays { OnErr result (OfEach engine.old (Stands engine.new)) }
    ensures unwritten { OnErr result (out.new.items ≡ out.old.items) }
    ensures counted { IfAnswered result (engine.new.count ≡ engine.old.count + 1) }
    ensures handed { engine.new.handed ≡ engine.old.handed }
    ensures work { IsWithinTries engine.old command.now steps.old steps.new }
{
    match engine.apply(task.alloc, command, task.handlers, out, steps) {
        Err(ApplyError::OutOfMemory) => engine.shed(),
        answered => return answered,
    }
    engine.apply(task.alloc, command, task.handlers, out, steps)
}
