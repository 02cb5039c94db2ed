//! Laws of the lines of a report and of the commands of a load: these calls do nothing.
ghost use Rattle.std.specs.Prelude.{◌≡◌, ◌≤◌, ◌*◌, ℕ, List, length};
ghost use Rattle.ncq_plan.specs.declared.expr.Expr.{Expr as an_expr};
ghost use Rattle.ncq_signature.specs.Groups.{AreGroupLines};
ghost use Rattle.ncq_signature.specs.declared.group.GroupLine.{GroupLine as a_line};
ghost use Rattle.ncq_report.specs.Lines.{AreTheSame, group_lines};
ghost use Rattle.ncq_report.specs.Loads.{parts_text};

/// The lines of the groups of expressions are one list: those of any list that has the same
/// expressions, each once.
pub fn lines_are_one()
    ensures { (exprs others : List an_expr) (lines : List a_line) → AreTheSame exprs others
        → AreGroupLines exprs lines → lines ≡ group_lines others }
{}

/// The first commands of a load of at most 2,000 subscribers have at most 300,000 bytes each.
pub fn loads_are_short()
    ensures { (n parts : ℕ) → n ≤ 2000 → length (parts_text n parts) ≤ parts * 300000 }
{}
