//! A live subscription.
use ncq_base::{Bytes, FileId, Sequence, Shared};
use ncq_event::Timing;
use ncq_plan::{Expr, NormalQuery};
use ncq_strategy::Choice;

/// A live subscription: what it asks, where the rows of that stand, and when it fires.
pub struct Subscription {
    /// What it is called.
    pub name: Bytes,
    /// The names of the sources that it asks.
    pub sources: Sequence<Bytes>,
    /// Its query in normal form.
    pub query: NormalQuery,
    /// The plan of its query without equalities and ranges.
    pub bare: Shared<Expr>,
    /// What stands below in the plan that it has.
    pub choice: Choice,
    /// Whether its answer has each forest once.
    pub distinct: bool,
    /// The file of its plan: a change that feeds it concerns the subscription.
    pub file: FileId,
    /// When it fires and when it ends.
    pub timing: Timing,
    /// The place of its handler.
    pub action: usize,
    /// What its handler is given, empty where the statement has no argument.
    pub argument: Bytes,
    /// Its number among the accepted creates, from 1.
    pub install: u64,
    /// What is written down of when it fired: of one that fires at changes the number of changes at
    /// its first firing, of a timer that at its latest; none before the first.
    pub noted: Option<u64>,
}

impl Drop for Subscription {
    fn drop(self) {
        let Subscription {
            name,
            sources,
            query,
            bare,
            choice: _,
            distinct: _,
            file: _,
            timing: _,
            action: _,
            argument,
            install: _,
            noted: _,
        } = self;
        drop(name);
        drop(sources);
        drop(query);
        drop(bare);
        drop(argument);
    }
}
