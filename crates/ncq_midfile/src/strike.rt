//! Rows that went out of a file of few rows, each taken away with an equal row that came in.
ghost use Rattle.std.specs.Prelude.{◌≡◌, ℕ, ◌+◌, ◌<◌, ◌≤◌, ◌++◌, true, false, length, slice_get};
ghost use Rattle.std.specs.Prelude.{Some, IfSome, IfNone};
ghost use Rattle.std.specs.List.{AllByRecursion};
ghost use Rattle.ncq_base.specs.Counts.{SameCounts};
ghost use Rattle.ncq_midfile.specs.Content.{IsBalanced, gains, losses};
ghost use Rattle.ncq_midfile.specs.declared.signed.SignedRow.{SignedRow as a_signed_row};

use crate::pairs::is_partner;
use crate::signed::SignedRow;
use crate::taken::take_out;
use ncq_row::Row;

/// In a file of fewer rows than this they may be struck out one by one: each may cost all rows.
const MANY_ROWS: usize = 256;

/// So many rows that stay are few.
const FEW_ROWS: usize = 8;

/// Whether there are few rows, and few of them stay once the others were struck out.
pub(crate) fn has_few(rows: &[SignedRow]) -> bool {
    if rows.len() >= MANY_ROWS {
        return false;
    }
    let lost = rows.iter().filter(|signed| !signed.plus).count();
    rows.len() <= 2 * lost + FEW_ROWS
}

/// Takes each row that went out away, with an equal row that came in. It takes no memory.
pub(crate) fn strike_all(rows: &mut Vec<SignedRow>)
    requires { IsBalanced rows.old.items }
    ensures came { AllByRecursion (λ r. r.plus ≡ true) rows.new.items }
    ensures counts { SameCounts (gains rows.new.items ++ losses rows.old.items)
        (gains rows.old.items) }
    ensures numbers { (n : ℕ) → AllByRecursion (λ r. r.number ≤ n) rows.old.items
        → AllByRecursion (λ r. r.number ≤ n) rows.new.items }
{
    while let Some(at) = last_lost(rows.as_slice()) {
        strike(rows, at);
    }
}

/// Takes the row at the place, which went out, and an equal one that came in away.
fn strike(rows: &mut Vec<SignedRow>, at: usize)
    requires went { (r : a_signed_row) × (slice_get rows.old.items at ≡ Some r) × (r.plus ≡ false) }
    requires balanced { IsBalanced rows.old.items }
    ensures balanced { IsBalanced rows.new.items }
    ensures counts { SameCounts (gains rows.new.items ++ losses rows.old.items)
        (gains rows.old.items ++ losses rows.new.items) }
    ensures numbers { (n : ℕ) → AllByRecursion (λ r. r.number ≤ n) rows.old.items
        → AllByRecursion (λ r. r.number ≤ n) rows.new.items }
    ensures fewer { length rows.new.items + 2 ≡ length rows.old.items }
{
    match partner_of(rows.as_slice(), at) {
        Some(partner) => take_out(rows, &[partner.min(at), partner.max(at)]),
        None => unreachable!(),
    }
}

/// The last place of a row that went out.
fn last_lost(rows: &[SignedRow]) -> Option<usize>
    ensures some { IfSome result (λ at. (r : a_signed_row)
        × (slice_get rows.now at ≡ Some r) × (r.plus ≡ false)) }
    ensures none { IfNone result (AllByRecursion (λ r. r.plus ≡ true) rows.now) }
{
    let mut behind = rows.len();
    while behind > 0 {
        behind -= 1;
        if !rows[behind].plus {
            return Some(behind);
        }
    }
    None
}

/// The place of a row that came in and equals the one at the place: the last one before it, if
/// there is one there.
fn partner_of(rows: &[SignedRow], at: usize) -> Option<usize>
    requires { at < length rows.now }
    ensures some { IfSome result (λ place. (r q : a_signed_row)
        × (slice_get rows.now place ≡ Some r) × (slice_get rows.now at ≡ Some q)
        × (r.plus ≡ true) × (r.row ≡ q.row)) }
    ensures none { IfNone result ((q : a_signed_row) → slice_get rows.now at ≡ Some q
        → AllByRecursion (λ r. r.plus ≡ true → r.row ≡ q.row → ⊥) rows.now) }
{
    let row = &rows[at].row;
    match last_gained(&rows[..at], row) {
        Some(place) => Some(place),
        None => last_gained(rows, row),
    }
}

/// The last place at which the row came in.
fn last_gained(rows: &[SignedRow], row: &Row) -> Option<usize>
    ensures some { IfSome result (λ place. (r : a_signed_row)
        × (slice_get rows.now place ≡ Some r) × (r.plus ≡ true) × (r.row ≡ row.now)) }
    ensures none { IfNone result
        (AllByRecursion (λ r. r.plus ≡ true → r.row ≡ row.now → ⊥) rows.now) }
{
    let mut behind = rows.len();
    while behind > 0 {
        behind -= 1;
        if is_partner(&rows[behind], row) {
            return Some(behind);
        }
    }
    None
}
