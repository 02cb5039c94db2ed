//! Sorting byte strings, with few comparisons of whole ones.
ghost use Rattle.std.specs.Prelude.{◌≤◌, length, OnOk};
ghost use Rattle.std.specs.List.Sorted.{IsPermutation};
ghost use Rattle.ncq_bag.specs.Added.{IsRising};

use crate::bag::Difference;
use std::alloc::AllocError;

/// Up to so many are compared whole at once.
const FEW: usize = 16;

/// Sorts by the bytes. Many are first brought near that order by numbers of eight bytes each, which
/// are quick to compare. The second sort makes sure, whatever those numbers are, and compares each
/// with the next once where they are in order.
pub(crate) fn sort_by_bytes(list: &mut Vec<Difference>) -> Result<(), AllocError>
    ensures permutation { IsPermutation list.old.items list.new.items }
    ensures rising { OnOk result (IsRising list.new.items) }
{
    if list.len() > FEW {
        let shared = shared_by(list.as_slice());
        list.sort_by_cached_key(|item| number_at(item.bytes.as_slice(), shared))?;
    }
    list.sort_unstable_by(|a, b| a.bytes.cmp(&b.bytes));
    Ok(())
}

/// How many first bytes all of them have alike. No clause says so, since it only saves time.
fn shared_by(list: &[Difference]) -> usize {
    let Some(first) = list.first() else {
        return 0;
    };
    let first = first.bytes.as_slice();
    let mut shared = first.len();
    for item in list {
        let bytes = item.bytes.as_slice();
        if !bytes.starts_with(&first[..shared]) {
            shared = shared_bytes(first, bytes);
        }
    }
    shared
}

/// How many first bytes the two have alike.
fn shared_bytes(a: &[u8], b: &[u8]) -> usize
    ensures { result ≤ length a.now }
{
    for (at, byte) in a.iter().enumerate() {
        if b.get(at) != Some(byte) {
            return at;
        }
    }
    a.len()
}

/// The eight bytes from a place on as one number, which grows as they do. Missing bytes count as 0.
/// No clause says so, since it only saves time.
fn number_at(bytes: &[u8], from: usize) -> u64 {
    let Some(rest) = bytes.get(from..) else {
        return 0;
    };
    if let Some(eight) = rest.first_chunk() {
        return u64::from_be_bytes(*eight);
    }
    let mut eight = [0; 8];
    eight[..rest.len()].copy_from_slice(rest);
    u64::from_be_bytes(eight)
}
