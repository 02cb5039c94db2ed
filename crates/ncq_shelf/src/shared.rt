//! The expression of a new file: its inputs are those that the files have which it reads.
ghost use Rattle.std.specs.Prelude.{◌≡◌, [], nat_eq, Some, IfOk};
ghost use Rattle.std.specs.Map.{lookup};
ghost use Rattle.ncq_shelf.specs.Enrolled.{HasFile, OneEach};
ghost use Rattle.ncq_shelf.specs.Inputs.{AreInputs};
ghost use Rattle.ncq_shelf.specs.Shown.{shown};
ghost use Rattle.ncq_shelf.specs.declared.file.File.{File as a_file};

use crate::enroll::{one_of, sides_of};
use crate::file::File;
use crate::inputs::Inputs;
use indexmap::IndexMap;
use ncq_base::{Copied, Shared};
use ncq_plan::Expr;
use std::alloc::{AllocError, Global};

/// The expression in a block of its own, its inputs those of the files that it reads.
pub(crate) fn share_inputs(
    alloc: Global,
    files: &IndexMap<u64, File>,
    expr: &Expr,
    inputs: Inputs,
) -> Result<Shared<Expr>, AllocError>
    requires inputs { AreInputs (shown [] files.now.entries) expr.now inputs }
    requires one { OneEach files.now.entries }
    ensures { IfOk result (λ e. e ≡ expr.now) }
{
    Shared::new(alloc, over_files(alloc, files, expr, inputs)?)
}

/// The expression, its inputs those of the files that it reads.
fn over_files(
    alloc: Global,
    files: &IndexMap<u64, File>,
    expr: &Expr,
    inputs: Inputs,
) -> Result<Expr, AllocError>
    requires inputs { AreInputs (shown [] files.now.entries) expr.now inputs }
    requires one { OneEach files.now.entries }
    ensures { IfOk result (λ e. e ≡ expr.now) }
{
    match expr {
        Expr::Scan { .. } => expr.copy(alloc),
        Expr::EqSel { slot, constant, .. } => Ok(Expr::EqSel {
            input: expr_of(files, one_of(inputs))?,
            slot: *slot,
            constant: constant.copy(alloc)?,
        }),
        Expr::RangeSel { slot, interval, .. } => Ok(Expr::RangeSel {
            input: expr_of(files, one_of(inputs))?,
            slot: *slot,
            interval: *interval,
        }),
        Expr::Join { pairs, .. } => {
            let (left, right) = sides_of(inputs);
            Ok(Expr::Join {
                left: expr_of(files, left)?,
                right: expr_of(files, right)?,
                pairs: pairs.copy(alloc)?,
            })
        }
    }
}

/// One more owner of the expression of a file.
fn expr_of(files: &IndexMap<u64, File>, number: u64) -> Result<Shared<Expr>, AllocError>
    requires there { HasFile files.now.entries number }
    ensures { IfOk result (λ e. (file : a_file)
        → lookup (nat_eq number) files.now.entries ≡ Some file → e ≡ file.expr) }
{
    let Some(file) = files.get(&number) else {
        unreachable!()
    };
    file.expr.share()
}
