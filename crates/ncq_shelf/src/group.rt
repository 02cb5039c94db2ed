//! The files of range groups.
ghost use Rattle.std.specs.Prelude.{◌≡◌, ℕ, None, Some};
ghost use Rattle.ncq_base.specs.declared.interval.Interval.{Interval as an_interval};
ghost use Rattle.ncq_plan.specs.declared.expr.Expr.{Expr as an_expr};
ghost use Rattle.ncq_plan.specs.declared.expr.Expr.TheVariants.{RangeSel};
ghost use Rattle.ncq_midfile.specs.Shown.{shown, rows_below};
ghost use Rattle.ncq_shelf.specs.Groups.{IsRight, content_of, group_of, rows_of_group};
ghost use Rattle.ncq_shelf.specs.declared.group.Group.{Group as a_group};
ghost use Rattle.ncq_shelf.specs.Ranges.{IsRange};

use crate::file::File;
use crate::rows::Rows;
use indexmap::IndexMap;
use ncq_base::Interval;
use ncq_midfile::{RangeFile, View};
use ncq_plan::Expr;

/// The selections by intervals of one slot of one file.
#[derive(Clone, Copy, Debug, PartialEq, Eq, Hash)]
pub(crate) struct Group {
    pub(crate) input: u64,
    pub(crate) slot: usize,
}

/// The rows of a file.
pub(crate) fn view_of<'a>(groups: &'a IndexMap<Group, RangeFile>, file: &'a File) -> View<'a>
    requires { IsRight groups.now.entries file.now.expr file.now.content }
    ensures shown { shown result ≡ content_of groups.now.entries file.now.expr file.now.content }
    ensures own { group_of file.now.content ≡ None → rows_below result ≡ (shown result).rows }
    ensures below { (group : a_group) → group_of file.now.content ≡ Some group
        → rows_below result ≡ rows_of_group groups.now.entries group }
{
    match &file.content {
        Rows::Whole(content) => View::Whole(content),
        Rows::Ranged { group, base } => {
            let Some(held) = groups.get(group) else {
                unreachable!()
            };
            View::Ranged {
                file: held,
                interval: interval_of(file.expr.get()),
                base: *base,
            }
        }
    }
}

/// The interval of a selection by one.
pub(crate) fn interval_of(expr: &Expr) -> &Interval
    requires { IsRange expr.now }
    ensures { (inner : an_expr) (slot : ℕ) (interval : an_interval)
        → expr.now ≡ RangeSel inner slot interval → result.now ≡ interval }
{
    match expr {
        Expr::RangeSel { interval, .. } => interval,
        _ => unreachable!(),
    }
}
