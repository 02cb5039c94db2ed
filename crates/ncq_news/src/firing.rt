//! The entries of a notice, from the signed rows of a file.
ghost use Rattle.std.specs.Prelude.{◌≡◌, ◌≤◌, length, IfOk, OnOk, IfSome};
ghost use Rattle.std.specs.List.{AllByRecursion};
ghost use Rattle.ncq_plan.specs.Relations.{relations};
ghost use Rattle.ncq_plan.specs.Residuals.{passes};
ghost use Rattle.ncq_plan.specs.WellFormed.{arms_width, IsWellFormed};
ghost use Rattle.ncq_midfile.specs.Content.{since, IsSoundAt};
ghost use Rattle.ncq_midfile.specs.Shown.{shown, rows_below};
ghost use Rattle.ncq_callback.specs.Gathered.{answer_of, with_row};
ghost use Rattle.ncq_news.specs.News.{entries_of, since_mark};

use ncq_callback::{Entries, Gather};
use ncq_midfile::View;
use ncq_plan::{NormalQuery, Predicates};
use ncq_row::Row;
use std::alloc::{AllocError, Global};

/// What a subscriber is told: what the answer of its query gained and lost by the rows of its file
/// since its mark, the number of changes at its latest firing. Where it has none, that is what the
/// answer of the content now has. The predicates are those that the query may name. `now` is the
/// number of changes, which no row exceeds. The only error is that memory ran out.
pub fn news(
    alloc: Global,
    query: &NormalQuery,
    predicates: &Predicates,
    file: &View<'_>,
    mark: Option<u64>,
    now: u64,
) -> Result<Entries, AllocError>
    requires formed { IsWellFormed query.now }
    requires wide { AllByRecursion (λ r. length r.row ≡ arms_width query.now.arms)
        (rows_below file.now) }
    requires last { AllByRecursion (λ r. r.number ≤ now) (shown file.now).rows }
    requires base { (shown file.now).base ≤ now }
    requires sound { IsSoundAt now (shown file.now).rows }
    requires mark { IfSome mark (λ n. (shown file.now).base ≤ n) }
    ensures { IfOk result (λ entries. entries ≡ entries_of
        (relations predicates.now.items (λ p. p.name) (λ p. p.relation))
        query.now (since_mark mark (shown file.now).rows)) }
{
    match mark {
        Some(number) => entries_since(alloc, query, predicates, file, number),
        None => entries_at(alloc, query, predicates, file, now),
    }
}

/// What the answer of the query gains and loses by the rows above a mark.
fn entries_since(
    alloc: Global,
    query: &NormalQuery,
    predicates: &Predicates,
    file: &View<'_>,
    mark: u64,
) -> Result<Entries, AllocError>
    requires formed { IsWellFormed query.now }
    requires wide { AllByRecursion (λ r. length r.row ≡ arms_width query.now.arms)
        (rows_below file.now) }
    requires base { (shown file.now).base ≤ mark }
    ensures { IfOk result (λ entries. entries ≡ entries_of
        (relations predicates.now.items (λ p. p.name) (λ p. p.relation))
        query.now (since mark (shown file.now).rows)) }
{
    let places = file.since(alloc, mark)?;
    let mut gather = Gather::new(alloc);
    for place in places.as_slice() {
        let signed = file.signed(*place);
        take(
            alloc,
            query,
            predicates,
            &signed.row,
            signed.plus,
            &mut gather,
        )?;
    }
    gather.finish(alloc)
}

/// What the answer of the query gains by the rows that are left at `now`: as much as it gains and
/// loses by all signed rows of the file, and rows that went are not looked at.
fn entries_at(
    alloc: Global,
    query: &NormalQuery,
    predicates: &Predicates,
    file: &View<'_>,
    now: u64,
) -> Result<Entries, AllocError>
    requires formed { IsWellFormed query.now }
    requires wide { AllByRecursion (λ r. length r.row ≡ arms_width query.now.arms)
        (rows_below file.now) }
    requires last { AllByRecursion (λ r. r.number ≤ now) (shown file.now).rows }
    requires base { (shown file.now).base ≤ now }
    requires sound { IsSoundAt now (shown file.now).rows }
    ensures { IfOk result (λ entries. entries ≡ entries_of
        (relations predicates.now.items (λ p. p.name) (λ p. p.relation))
        query.now (shown file.now).rows) }
{
    let places = file.content_at(alloc, now)?;
    let mut gather = Gather::new(alloc);
    for place in places.as_slice() {
        take(
            alloc,
            query,
            predicates,
            file.row(*place),
            true,
            &mut gather,
        )?;
    }
    gather.finish(alloc)
}

/// Takes a row that comes, or one that goes. More rows than a gather can take do not fit the
/// memory.
fn take(
    alloc: Global,
    query: &NormalQuery,
    predicates: &Predicates,
    row: &Row,
    gain: bool,
    gather: &mut Gather,
) -> Result<(), AllocError>
    requires formed { IsWellFormed query.now }
    requires wide { length row.now ≡ arms_width query.now.arms }
    ensures { OnOk result (gather.new.counts
        ≡ with_row (passes
        (relations predicates.now.items (λ p. p.name) (λ p. p.relation))
        query.now.residual) (answer_of query.now.template) gather.old.counts row.now gain) }
{
    if gather.takes() >= Gather::MOST_TAKES {
        return Err(AllocError);
    }
    gather.take(
        alloc,
        &query.residual,
        predicates,
        &query.template,
        row,
        gain,
    )
}
