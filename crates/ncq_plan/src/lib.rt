//! Queries in normal form, and the expressions that plan them.
//! A query has an arm for each of its patterns: what it asks of the arm's rows, and of those of the
//! arms before. Its plan is an expression of scans, selections and joins, whose rows that pass the
//! residual checks are the rows of the query. A check compares, or asks a predicate: a closure with
//! a name, which tells whether a value stands in a relation. A template makes a forest of such a
//! row. The laws say that, and how the rows of any expression change with the elements of the
//! sources.
//! Hashing an expression walks each of its operators once, and copies nothing.
#![tactic(auto)]

mod alike;
mod copy;
mod expr;
mod late;
mod laws;
mod planning;
mod predicate;
mod predicates;
mod query;
mod relation;
mod residual;
mod same;
mod sharing;
mod slots;
mod template;

pub use alike::{same_checks, same_template};
pub use expr::Expr;
pub use late::{bare, plan_late};
pub use laws::{
    deltas_count, deltas_lead, late_plans_give_the_rows, plans_give_the_rows, rows_have_the_width,
};
pub use ncq_base::{End, Interval, in_interval};
pub use ncq_row::{Pair, Pairs};
pub use planning::plan;
pub use predicate::{AtomTest, Predicate};
pub use predicates::{Predicates, find_predicate, relation_of, satisfies};
pub use query::{Arm, Arms, EqualTo, EqualTos, NormalQuery, Within, Withins};
pub use relation::{Atoms, Relation, multiple, starts};
pub use residual::{Check, Checks, Side, Test};
pub use same::{same_expr, same_pairs};
pub use sharing::share_shapes;
pub use slots::width;
pub use template::{SlotAttribute, SlotAttributes, SlotTemplate, SlotTemplates, SlotText};
