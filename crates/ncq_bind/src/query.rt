//! Queries in normal form, whatever the sources are.
ghost use Rattle.std.specs.Prelude.{◌≡◌, ◌&&◌, if◌then◌else◌, IfOk, Some, None};
ghost use Rattle.std.specs.List.{list_all};
ghost use Rattle.ncq_bind.specs.NormalQueries.{query_over, normal_query};
ghost use Rattle.ncq_bind.specs.Bound.{item_is_bound, query_is_bound, template_is_bound};

use crate::arm::normal_arms;
use crate::bound::query_is_bound;
use crate::constraint::constraints_of;
use crate::gather::{Gathered, gather};
use crate::names::Names;
use crate::open_arm::OpenArms;
use crate::residual::residual_of;
use crate::template::slot_template;
use ncq_plan::NormalQuery;
use ncq_xmlql::{Operand, Query};
use std::alloc::{AllocError, Global};

/// The normal query, where all variables that are used have places.
pub(crate) fn normal_query(alloc: Global, query: &Query) -> Result<Option<NormalQuery>, AllocError>
    ensures { IfOk result (λ n. n
        ≡ (if query_is_bound query.now then Some (normal_query query.now) else None)) }
{
    let items = query.items.as_slice();
    let Gathered { arms, places } = gather(alloc, items)?;
    bound_query(alloc, places.as_slice(), arms, query)
}

/// The query with these places and arms, where all variables that are used are at these places.
fn bound_query(
    alloc: Global,
    places: &[Operand],
    arms: OpenArms,
    query: &Query,
) -> Result<Option<NormalQuery>, AllocError>
    ensures { IfOk result (λ n. n
        ≡ (if list_all (item_is_bound places.now) query.now.items
        && template_is_bound places.now query.now.template
        then Some (query_over places.now arms query.now) else None)) }
{
    let names = Names::new(alloc, places)?;
    if !query_is_bound(&names, query) {
        return Ok(None);
    }
    Ok(Some(query_over(alloc, &names, arms, query)?))
}

/// The query with these places and arms.
fn query_over(
    alloc: Global,
    names: &Names,
    arms: OpenArms,
    query: &Query,
) -> Result<NormalQuery, AllocError>
    ensures { IfOk result (λ n. n ≡ query_over names.now arms query.now) }
{
    let constraints = constraints_of(alloc, names, query.items.as_slice())?;
    let residual = residual_of(alloc, arms.as_slice(), constraints.as_slice())?;
    let template = slot_template(alloc, names, &query.template)?;
    let arms = normal_arms(alloc, arms, constraints.as_slice())?;
    Ok(NormalQuery {
        arms,
        residual,
        template,
    })
}
