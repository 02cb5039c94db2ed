//! The law of tables: the function's contract is the law, and it does nothing.
ghost use Rattle.ncq_group.specs.Closure.{KeepsTheLive};

/// The files of a table are those of the parts of the expressions that are used, one each.
pub fn files_are_the_live()
    ensures { KeepsTheLive }
{}
