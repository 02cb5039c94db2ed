//! Rows that are taken away, with the last ones put in their places.
ghost use Rattle.std.specs.Prelude.{◌≡◌, ◌<◌, length};
ghost use Rattle.std.specs.List.{All};
ghost use Rattle.ncq_midfile.specs.Content.{AreRising};
ghost use Rattle.ncq_midfile.specs.Pairs.{taken_out};

use crate::signed::SignedRow;

/// Takes the rows at the places away. It takes no memory, and costs the places.
pub(crate) fn take_out(rows: &mut Vec<SignedRow>, places: &[usize])
    requires rising { AreRising 0 places.now }
    requires within { All (λ place. place < length rows.old.items) places.now }
    ensures { rows.new.items ≡ taken_out places.now rows.old.items }
{
    let mut left = places.len();
    while left > 0 {
        left -= 1;
        rows.swap_remove(places[left]);
    }
}
