//! The rows that intervals hold.
ghost use Rattle.std.specs.Prelude.{◌≡◌, ◌≤◌, length, take};
ghost use Rattle.std.specs.Map.{keys_of};
ghost use Rattle.ncq_midfile.specs.Views.{is_held, is_kept, of_rows};

use crate::signed::SignedRow;
use crate::within::is_within;
use ncq_base::Interval;
use ncq_consttab::RangeTable;
use ncq_row::Row;

/// Keeps the rows that some of the intervals holds, in their order. It takes no memory.
pub(crate) fn keep_held(rows: &mut Vec<SignedRow>, slot: usize, intervals: &[Interval])
    ensures { rows.new.items ≡ of_rows (is_held slot intervals.now) rows.old.items }
{
    rows.retain(|signed| is_held(&signed.row, slot, intervals));
}

/// How many rows in front some of the intervals holds.
pub(crate) fn count_held(rows: &[SignedRow], slot: usize, intervals: &[Interval]) -> usize
    ensures within { result ≤ length rows.now }
    ensures held { of_rows (is_held slot intervals.now) (take result rows.now)
        ≡ take result rows.now }
{
    let mut front = 0;
    for signed in rows {
        if !is_held(&signed.row, slot, intervals) {
            return front;
        }
        front += 1;
    }
    front
}

/// Whether some of the intervals holds the row.
fn is_held(row: &Row, slot: usize, intervals: &[Interval]) -> bool
    ensures { result ≡ is_held slot intervals.now row.now }
{
    for interval in intervals {
        if is_within(row, slot, interval) {
            return true;
        }
    }
    false
}

/// Keeps the rows that the interval has not, or some interval of the table holds, in their order.
/// It takes no memory.
pub(crate) fn keep_without(
    rows: &mut Vec<SignedRow>,
    slot: usize,
    gone: &Interval,
    table: &RangeTable,
)
    ensures { rows.new.items
        ≡ of_rows (is_kept slot gone.now (keys_of table.now)) rows.old.items }
{
    rows.retain(|signed| is_kept(&signed.row, slot, gone, table));
}

/// How many rows in front stay.
pub(crate) fn count_kept(
    rows: &[SignedRow],
    slot: usize,
    gone: &Interval,
    table: &RangeTable,
) -> usize
    ensures within { result ≤ length rows.now }
    ensures kept { of_rows (is_kept slot gone.now (keys_of table.now)) (take result rows.now)
        ≡ take result rows.now }
{
    let mut front = 0;
    for signed in rows {
        if !is_kept(&signed.row, slot, gone, table) {
            return front;
        }
        front += 1;
    }
    front
}

/// Whether the interval has not the row, or some interval of the table holds it.
fn is_kept(row: &Row, slot: usize, gone: &Interval, table: &RangeTable) -> bool
    ensures { result ≡ is_kept slot gone.now (keys_of table.now) row.now }
{
    if !is_within(row, slot, gone) {
        return true;
    }
    slot < row.len() && table.holds(row.atom(slot))
}
