//! Finders that a file gives up.
ghost use Rattle.std.specs.Prelude.{List};
ghost use Rattle.ncq_midfile.specs.Finders.{AreFinders};
ghost use Rattle.ncq_midfile.specs.declared.signed.SignedRow.{SignedRow as a_signed_row};

use crate::finder::Finder;
use crate::whole::is_whole;

/// Gives up each index but that of whole rows of the width; orders stay. It takes no memory.
pub(crate) fn lose_indexes(finders: &mut Vec<Finder>, width: usize)
    ensures { (rows : List a_signed_row)
        → AreFinders finders.old.items rows → AreFinders finders.new.items rows }
{
    finders.retain(|finder| outlasts_joins(finder, width));
}

/// Whether the finder is an order, or the index of rows of the width.
fn outlasts_joins(finder: &Finder, width: usize) -> bool {
    match finder {
        Finder::Index(index) => is_whole(index, width),
        Finder::Order(_) => true,
    }
}
