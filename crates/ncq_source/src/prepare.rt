//! The entries of items.
ghost use Rattle.std.specs.Prelude.{◌≡◌, ◌+◌, ◌<◌, ◌^◌, Ok, IfOk, IsTrue, IsFalse, OnOk, Some};
ghost use Rattle.std.specs.Prelude.{length};
ghost use Rattle.ncq_source.specs.Changes.{Tells, entry_of, put_entry, gone_entry, prepared};
ghost use Rattle.ncq_source.specs.Changes.{store_after};
ghost use Rattle.ncq_source.specs.Held.{with_at};
ghost use Rattle.ncq_source.specs.Keys.{key_of};
ghost use Rattle.std.specs.Option.{option_copied};
ghost use Rattle.std.specs.FinMap.{get};

use crate::ahead::Ahead;
use crate::change::{ChangeError, Entries, Entry};
use crate::key::{Key, key_of};
use ncq_base::{Bytes, Copied, Shared};
use ncq_flat::{Asked, Item, Written};
use std::alloc::{AllocError, Global};

/// One entry for each item, in order, or the first item that cannot be applied, seen through the
/// items before it. So many items came before. No element of the source is looked at but those
/// under the keys of the items. Behind the last section nobody looks at the elements.
pub(crate) fn prepare(
    alloc: Global,
    rule: &Key,
    ahead: &mut Ahead<'_>,
    items: &[Item],
    before: u64,
    last: bool,
) -> Result<Entries, ChangeError>
    requires { before + length items.now < 2 ^ 64 }
    ensures tells { Tells result (prepared rule.now (before + 1) ahead.old items.now) }
    ensures ahead { OnOk result (IsFalse last
        → ahead.new ≡ store_after rule.now ahead.old items.now) }
{
    let count = items.len();
    let mut entries = Entries::with_capacity(alloc, count)?;
    for item in items {
        let position = before + entries.len() as u64 + 1;
        let entry = entry_of(alloc, rule, ahead, item, position)?;
        let seen = is_seen(last, entries.len(), count);
        note(alloc, ahead, &entry, seen)?;
        entries.push(entry)?;
    }
    Ok(entries)
}

/// Whether somebody looks at the elements behind the item at this place: another section may
/// follow, or another item.
fn is_seen(last: bool, at: usize, count: usize) -> bool
    requires { at < count }
    ensures section { IsFalse last → IsTrue result }
    ensures item { at + 1 < count → IsTrue result }
{
    !last || at + 1 < count
}

/// The entry of one item.
fn entry_of(
    alloc: Global,
    rule: &Key,
    ahead: &Ahead<'_>,
    item: &Item,
    position: u64,
) -> Result<Entry, ChangeError>
    ensures { Tells result (entry_of rule.now position ahead.now item.now) }
{
    match item.asked() {
        Asked::Put(element) => {
            let key = key_of(alloc, rule, element.get())?;
            put_entry(ahead, key, element, position)
        }
        Asked::Remove(key) => gone_entry(ahead, key.copy(alloc)?, position),
    }
}

/// The entry of a put under this key.
fn put_entry(
    ahead: &Ahead<'_>,
    key: Option<Bytes>,
    element: &Shared<Written>,
    position: u64,
) -> Result<Entry, ChangeError>
    ensures { Tells result (put_entry position ahead.now key element.now) }
{
    let Some(key) = key else {
        return Err(ChangeError::BadKey { position });
    };
    let before = shared(ahead.get(&key))?;
    let after = element.share()?;
    Ok(Entry {
        key,
        before,
        after: Some(after),
    })
}

/// The entry of a removal of this key.
fn gone_entry(ahead: &Ahead<'_>, key: Bytes, position: u64) -> Result<Entry, ChangeError>
    ensures { Tells result (gone_entry position key (get ahead.now key)) }
{
    let Some(before) = ahead.get(&key) else {
        return Err(ChangeError::NoSuchKey { position });
    };
    let before = before.share()?;
    Ok(Entry {
        key,
        before: Some(before),
        after: None,
    })
}

/// Lets the items that follow see the entry, where some follow: behind the last item nobody looks.
fn note(
    alloc: Global,
    ahead: &mut Ahead<'_>,
    entry: &Entry,
    some_follow: bool,
) -> Result<(), AllocError>
    ensures { OnOk result (IsTrue some_follow
        → ahead.new ≡ with_at ahead.old entry.now.key entry.now.after) }
{
    if !some_follow {
        return Ok(());
    }
    let key = entry.key.copy(alloc)?;
    let after = shared(entry.after.as_ref())?;
    ahead.set(alloc, key, after)
}

/// One more owner of the element, where there is one.
fn shared(element: Option<&Shared<Written>>) -> Result<Option<Shared<Written>>, AllocError>
    ensures { IfOk result (λ s. s ≡ option_copied element.entry) }
{
    match element {
        Some(element) => Ok(Some(element.share()?)),
        None => Ok(None),
    }
}
