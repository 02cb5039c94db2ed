//! What tells a group.
ghost use Rattle.ncq_signature.specs.Signatures.{signature_of};
ghost use Rattle.ncq_shelf.specs.KeptFiles.{AtFile};
ghost use Rattle.ncq_shelf.specs.Stands.{Files, IsThere, Stands};
ghost use Rattle.ncq_shelf.specs.Inputs.{AreInputs};
ghost use Rattle.ncq_count.specs.Keys.{Tells};

use ncq_plan::Expr;
use ncq_shelf::{Inputs, Shelf};

/// What tells a group, by the number of a file.
#[derive(Clone, Copy, Debug, PartialEq, Eq, Hash)]
pub(crate) enum GroupKey {
    /// The scan or the join that has the file.
    Alone { file: u64 },
    /// The equalities over the input at the slot.
    Equals { input: u64, slot: usize },
    /// The ranges over the input at the slot.
    Ranges { input: u64, slot: usize },
}

/// The key of the group of a file.
pub(crate) fn key_at(shelf: &Shelf, number: u64) -> GroupKey
    requires { IsThere shelf.now number }
    ensures { AtFile shelf.now number (λ file. Tells shelf.now result (signature_of file.expr)) }
{
    key_of(shelf.expr(number), shelf.inputs(number), number)
}

/// The key of the group of a file, by its expression, its inputs and its number.
fn key_of(expr: &Expr, inputs: Inputs, number: u64) -> GroupKey
    ensures { (files : Files) → Stands files expr.now number → AreInputs files expr.now inputs
        → Tells files result (signature_of expr.now) }
{
    match (expr, inputs) {
        (Expr::EqSel { slot, .. }, Inputs::One(input)) => GroupKey::Equals { input, slot: *slot },
        (Expr::RangeSel { slot, .. }, Inputs::One(input)) => GroupKey::Ranges {
            input,
            slot: *slot,
        },
        _ => GroupKey::Alone { file: number },
    }
}
