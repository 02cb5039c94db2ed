//! Lists that rise, each item once.
ghost use Rattle.std.specs.Prelude.{◌≡◌, OnOk};
ghost use Rattle.ncq_bind.specs.Sorted.{insert_once};

use std::alloc::AllocError;
use std::cmp::Ordering;

/// Puts the item in its place among items that rise; not a second time.
pub(crate) fn insert_once<T: Ord + Drop>(item: T, items: &mut Vec<T>) -> Result<(), AllocError>
    ensures { OnOk result (items.new.items ≡ insert_once T.cmp item items.old.items) }
{
    let mut at = 0;
    while at < items.len() {
        match item.cmp(&items[at]) {
            Ordering::Less => break,
            Ordering::Equal => return Ok(()),
            Ordering::Greater => at += 1,
        }
    }
    items.insert(at, item)?;
    Ok(())
}
