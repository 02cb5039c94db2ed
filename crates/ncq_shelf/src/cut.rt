//! Files without the rows of later changes.
ghost use Rattle.std.specs.Prelude.{◌≡◌, ◌<◌, ℕ, map, length, slice_get, nat_eq, Some};
ghost use Rattle.std.specs.Map.{lookup};
ghost use Rattle.indexmap.specs.IndexMap.{with_value_at};
ghost use Rattle.ncq_shelf.specs.Shown.{cut_entry, cut_file, cut_group, cut_held, IsBelow};
ghost use Rattle.ncq_midfile.specs.Views.{RangeState};
ghost use Rattle.ncq_shelf.specs.declared.group.Group.{Group as a_group};
ghost use Rattle.ncq_shelf.specs.declared.file.File.{File as a_file};

use crate::file::File;
use crate::group::Group;
use crate::rows::Rows;
use indexmap::IndexMap;
use ncq_midfile::RangeFile;

/// Takes the signed rows of later changes away from each file that has its own. It takes no memory.
pub(crate) fn cut_all(files: &mut IndexMap<u64, File>, change: u64)
    requires { (number : ℕ) (file : a_file) → lookup (nat_eq number) files.old.entries ≡ Some file
        → IsBelow change file.content }
    ensures { files.new.entries ≡ map (cut_entry change) files.old.entries }
{
    for at in 0..files.len() {
        cut_at(files, at, change);
    }
}

/// Takes them away from the file at this place.
fn cut_at(files: &mut IndexMap<u64, File>, at: usize, change: u64)
    requires within { at < length files.old.entries }
    requires base { (number : ℕ) (file : a_file)
        → slice_get files.old.entries at ≡ Some (number, file) → IsBelow change file.content }
    ensures { (number : ℕ) (file : a_file)
        → slice_get files.old.entries at ≡ Some (number, file)
        → files.new ≡ with_value_at files.old at (cut_file change file) }
{
    let (_, file) = files.pair_mut(at);
    if let Rows::Whole(content) = &mut file.content {
        content.roll_back(change);
    }
}

/// Takes the signed rows of later changes away from the file of each group. It takes no memory.
pub(crate) fn cut_groups(groups: &mut IndexMap<Group, RangeFile>, change: u64)
    ensures { groups.new.entries ≡ map (cut_group change) groups.old.entries }
{
    for at in 0..groups.len() {
        cut_group_at(groups, at, change);
    }
}

/// Takes them away from the file of the group at this place.
fn cut_group_at(groups: &mut IndexMap<Group, RangeFile>, at: usize, change: u64)
    requires { at < length groups.old.entries }
    ensures { (group : a_group) (held : RangeState)
        → slice_get groups.old.entries at ≡ Some (group, held)
        → groups.new ≡ with_value_at groups.old at (cut_held change held) }
{
    let (_, held) = groups.pair_mut(at);
    held.cut(change);
}
