//! Giving up new files.
ghost use Rattle.std.specs.Prelude.{◌≡◌, ◌<◌, ◌≤◌};
ghost use Rattle.ncq_shelf.specs.KeptFiles.{EachFile};
ghost use Rattle.ncq_shelf.specs.Stands.{IsGrounded};
ghost use Rattle.ncq_count.specs.Counted.{AreCounted};
ghost use Rattle.ncq_group.specs.Grown.{IsCut, IsDropped};

use crate::filed::{Filed, take_out};

/// Takes away the files from this number on, none of which has a use; it is the next again. It
/// takes no memory.
pub(crate) fn cut(filed: &mut Filed, low: u64)
    requires grounded { IsGrounded filed.old.shelf }
    requires counted { AreCounted filed.old.shelf filed.old.groups }
    requires below { EachFile filed.old.shelf (λ number file. number < filed.old.next) }
    requires unused { EachFile filed.old.shelf (λ number file. low ≤ number → file.uses ≡ 0) }
    requires order { low ≤ filed.old.next }
    ensures cut { IsCut filed.old.shelf low filed.new.shelf }
    ensures counted { AreCounted filed.new.shelf filed.new.groups }
    ensures next { filed.new.next ≡ low }
{
    while low < filed.next {
        let last = filed.next - 1;
        drop_idle(filed, last);
        filed.next = last;
    }
}

/// Takes the file away if it is idle.
fn drop_idle(filed: &mut Filed, number: u64)
    requires grounded { IsGrounded filed.old.shelf }
    requires counted { AreCounted filed.old.shelf filed.old.groups }
    ensures dropped { IsDropped filed.old.shelf number filed.new.shelf }
    ensures counted { AreCounted filed.new.shelf filed.new.groups }
    ensures next { filed.new.next ≡ filed.old.next }
{
    if !filed.shelf.is_idle(number) {
        return;
    }
    let _inputs = take_out(filed, number);
}
