//! Whether the variables that are used have places.
ghost use Rattle.std.specs.Prelude.{◌≡◌, ◌&&◌};
ghost use Rattle.std.specs.List.{list_all};
ghost use Rattle.ncq_bind.specs.Bound.{item_is_bound, operand_is_bound, template_is_bound};

use crate::names::Names;
use ncq_xmlql::{Operand, Query, QueryItem, Template, TemplateAttribute};

/// Whether the variables of the conditions and of the template have places.
pub(crate) fn query_is_bound(names: &Names, query: &Query) -> bool
    ensures { result
        ≡ (list_all (item_is_bound names.now) query.now.items
        && template_is_bound names.now query.now.template) }
{
    items_are_bound(names, query.items.as_slice()) && template_is_bound(names, &query.template)
}

/// Whether the variables of conditions have places.
fn items_are_bound(names: &Names, items: &[QueryItem]) -> bool
    ensures { result ≡ list_all (item_is_bound names.now) items.now }
{
    items.iter().all(|item| item_is_bound(names, item))
}

/// Whether the variables of a condition have places.
fn item_is_bound(names: &Names, item: &QueryItem) -> bool
    ensures { result ≡ item_is_bound names.now item.now }
{
    match item {
        QueryItem::Match { .. } => true,
        QueryItem::Condition { left, right, .. } => {
            operand_is_bound(names, left) && operand_is_bound(names, right)
        }
        QueryItem::Satisfies { variable, .. } => names.is_bound(variable),
    }
}

/// Whether an operand is a literal or has a place.
fn operand_is_bound(names: &Names, operand: &Operand) -> bool
    ensures { result ≡ operand_is_bound names.now operand.now }
{
    match operand {
        Operand::Variable(x) => names.is_bound(x),
        Operand::Literal(_) => true,
    }
}

/// Whether the variables of a template have places.
#[cycle(bound)]
#[tactic(auto, using(crate::proofs::TemplateLaws::bound_are))]
fn template_is_bound(names: &Names, template: &Template) -> bool
    ensures { result ≡ template_is_bound names.now template.now }
{
    match template {
        Template::Variable(x) => names.is_bound(x),
        Template::Literal(_) => true,
        Template::Element {
            tag: _,
            attributes,
            content,
        } => {
            attributes_are_bound(names, attributes.as_slice())
                && templates_are_bound(names, content.as_slice())
        }
    }
}

/// Whether the variables of all of the templates have places.
#[cycle(bound)]
fn templates_are_bound(names: &Names, templates: &[Template]) -> bool
    ensures { result ≡ list_all (template_is_bound names.now) templates.now }
{
    for template in templates {
        if !template_is_bound(names, template) {
            return false;
        }
    }
    true
}

/// Whether the variables of attributes have places.
fn attributes_are_bound(names: &Names, attributes: &[TemplateAttribute]) -> bool
    ensures { result ≡ list_all (λ a. operand_is_bound names.now a.value) attributes.now }
{
    attributes.iter().all(|a| operand_is_bound(names, &a.value))
}
