//! Files, their groups and their numbers.
ghost use Rattle.std.specs.Prelude.{◌≡◌};
ghost use Rattle.std.specs.FinMap.{remove};
ghost use Rattle.ncq_shelf.specs.Inputs.{AreInputs};
ghost use Rattle.ncq_shelf.specs.KeptFiles.{AtFile};
ghost use Rattle.ncq_shelf.specs.Stands.{IsGrounded, IsIdle};
ghost use Rattle.ncq_count.specs.Counted.{AreCounted};

use ncq_count::Groups;
use ncq_shelf::{Inputs, Shelf};

/// The files, how many of them each group has, and the number that the next new file gets.
pub(crate) struct Filed {
    pub(crate) shelf: Shelf,
    pub(crate) groups: Groups,
    pub(crate) next: u64,
}

impl Drop for Filed {
    fn drop(self) {
        let Filed {
            shelf,
            groups,
            next: _,
        } = self;
        drop(shelf);
        drop(groups);
    }
}

/// Takes an idle file out, and tells what it read. It takes no memory.
pub(crate) fn take_out(filed: &mut Filed, number: u64) -> Inputs
    requires grounded { IsGrounded filed.old.shelf }
    requires counted { AreCounted filed.old.shelf filed.old.groups }
    requires idle { IsIdle filed.old.shelf number }
    ensures gone { filed.new.shelf ≡ remove filed.old.shelf number }
    ensures counted { AreCounted filed.new.shelf filed.new.groups }
    ensures next { filed.new.next ≡ filed.old.next }
    ensures inputs { AtFile filed.old.shelf number (λ file.
        AreInputs filed.old.shelf file.expr result) }
{
    filed.groups.count_out(&filed.shelf, number);
    filed.shelf.remove(number)
}
