//! Taking away what nothing needs.
ghost use Rattle.std.specs.Prelude.{◌≡◌};
ghost use Rattle.ncq_shelf.specs.Stands.{IsGrounded};
ghost use Rattle.ncq_count.specs.Counted.{AreCounted};
ghost use Rattle.ncq_group.specs.Collected.{IsCollected};

use crate::filed::{Filed, take_out};
use ncq_shelf::Inputs;

/// Takes the file away if nothing needs it, and then what it alone needed. It takes no memory.
pub(crate) fn collect(filed: &mut Filed, number: u64)
    requires grounded { IsGrounded filed.old.shelf }
    requires counted { AreCounted filed.old.shelf filed.old.groups }
    ensures grounded { IsGrounded filed.new.shelf }
    ensures counted { AreCounted filed.new.shelf filed.new.groups }
    ensures collected { IsCollected filed.old.shelf number filed.new.shelf }
    ensures next { filed.new.next ≡ filed.old.next }
{
    if filed.shelf.is_idle(number) {
        match take_out(filed, number) {
            Inputs::Nothing => {}
            Inputs::One(input) => collect(filed, input),
            Inputs::Two(left, right) => {
                collect(filed, left);
                collect(filed, right);
            }
        }
    }
}
