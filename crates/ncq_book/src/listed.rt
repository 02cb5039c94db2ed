//! Subscriptions as a list gives them.
ghost use Rattle.std.specs.Prelude.{◌≡◌, map, IfOk};
ghost use Rattle.std.specs.Map.{lookup};
ghost use Rattle.std.specs.BTreeMap.{is_at};
ghost use Rattle.std.specs.Option.{option_copied};
ghost use Rattle.std.specs.Ordering.{nat_cmp};
ghost use Rattle.ncq_book.specs.Questions.{asked_by, standing_at, StandEach};

use crate::held::Held;
use crate::subscription::Subscription;
use std::alloc::{AllocError, Global};
use std::collections::BTreeMap;
use std::collections::btree_map::Range;

/// A subscription as a list gives it, and the number of its question: those of a list that have one
/// question ask alike.
#[derive(Clone, Copy)]
pub struct Listed<'a> {
    pub subscription: &'a Subscription,
    pub question: u64,
}

/// What stands under these install numbers, in that order.
pub(crate) fn list_of<'a>(
    alloc: Global,
    subscriptions: &'a BTreeMap<u64, Held>,
    installs: &[u64],
) -> Result<Vec<Listed<'a>>, AllocError>
    ensures { IfOk result (λ list. map asked_by list.items
        ≡ standing_at subscriptions.now.entries installs.now) }
{
    let Some(first) = installs.first() else {
        return Ok(Vec::new(alloc));
    };
    let mut list = Vec::with_capacity(alloc, installs.len())?;
    let mut ahead = subscriptions.range(*first..);
    for install in installs {
        if let Some(held) = walk_to(subscriptions, &mut ahead, *install) {
            list.push(Listed {
                subscription: held.get(),
                question: held.question(),
            })?;
        }
    }
    Ok(list)
}

/// What stands under the install number, if it is there. Where that is the next of those ahead,
/// nothing is looked up, and else those behind it are ahead from then on.
fn walk_to<'a>(
    subscriptions: &'a BTreeMap<u64, Held>,
    ahead: &mut Range<'a, u64, Held>,
    install: u64,
) -> Option<&'a Held>
    requires { StandEach subscriptions.now.entries ahead.old }
    ensures found { option_copied result
        ≡ lookup (is_at (nat_cmp install)) subscriptions.now.entries }
    ensures ahead { StandEach subscriptions.now.entries ahead.new }
{
    if let Some((next, held)) = ahead.next() {
        if *next == install {
            return Some(held);
        }
    }
    *ahead = subscriptions.range(install..);
    let (next, held) = ahead.next()?;
    if *next == install { Some(held) } else { None }
}
