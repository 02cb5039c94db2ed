//! How many signed rows the files have.
ghost use Rattle.std.specs.Prelude.{◌≡◌, ◌-◌, ◌^◌, length, min, nat_eq};
ghost use Rattle.std.specs.List.{IsDistinct};
ghost use Rattle.std.specs.Map.{keys_of};
ghost use Rattle.ncq_base.specs.Counts.{total_by};
ghost use Rattle.ncq_shelf.specs.Groups.{is_group};
ghost use Rattle.ncq_shelf.specs.Shown.{count_of};

use crate::file::File;
use crate::group::Group;
use crate::rows::Rows;
use indexmap::IndexMap;
use ncq_midfile::{RangeFile, View};

/// How many signed rows the files have of their own, at most 2^64 - 1. It takes no memory.
pub(crate) fn own_rows(files: &IndexMap<u64, File>) -> u64
    ensures once { IsDistinct nat_eq (keys_of files.now.entries) }
    ensures count { result ≡ min (2 ^ 64 - 1)
        (total_by (λ entry. count_of entry.1.content) files.now.entries) }
{
    let mut count: u64 = 0;
    for (_, file) in files {
        count = count.saturating_add(own_count(&file.content));
    }
    count
}

/// How many signed rows a file has of its own.
pub(crate) fn own_count(rows: &Rows) -> u64
    ensures { result ≡ count_of rows.now }
{
    match rows {
        Rows::Whole(content) => View::Whole(content).len() as u64,
        Rows::Ranged { .. } => 0,
    }
}

/// How many signed rows the files of the groups have, at most 2^64 - 1. It takes no memory.
pub(crate) fn shared_rows(groups: &IndexMap<Group, RangeFile>) -> u64
    ensures once { IsDistinct is_group (keys_of groups.now.entries) }
    ensures count { result ≡ min (2 ^ 64 - 1)
        (total_by (λ entry. length entry.1.rows) groups.now.entries) }
{
    let mut count: u64 = 0;
    for (_, held) in groups {
        count = count.saturating_add(held.rows().len() as u64);
    }
    count
}
