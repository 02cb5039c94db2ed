//! The arms, slots and conditions of a query. Each count stops at the greatest `usize`.
ghost use Rattle.std.specs.Prelude.{◌≡◌, ◌-◌, ◌^◌, min, if◌then◌else◌};
ghost use Rattle.std.specs.List.{sum_by};
ghost use Rattle.ncq_xmlql.specs.Counts.{arms, slots, conditions, item_conditions, suffix_slots};
ghost use Rattle.ncq_xmlql.specs.Counts.{content_slots};
ghost use Rattle.ncq_xmlql.specs.Counts.{pattern_slots};

use crate::model::{Content, Pattern, QueryItem, Suffix};

/// The patterns directly under a root.
pub(crate) fn arms_of(items: &[QueryItem]) -> usize
    ensures { result ≡ min (arms items.now) (2 ^ 64 - 1) }
{
    let mut arms = 0usize;
    for item in items {
        if let QueryItem::Match {
            root: _,
            arms: patterns,
            source: _,
        } = item
        {
            arms = arms.saturating_add(patterns.len());
        }
    }
    arms
}

/// The attributes of patterns, the contents that are a literal or a variable, and the suffixes.
pub(crate) fn slots_of(items: &[QueryItem]) -> usize
    ensures { result ≡ min (slots items.now) (2 ^ 64 - 1) }
{
    let mut slots = 0usize;
    for item in items {
        if let QueryItem::Match {
            root: _,
            arms,
            source: _,
        } = item
        {
            slots = slots.saturating_add(slots_of_patterns(arms.as_slice()));
        }
    }
    slots
}

/// The conditions, as they are written.
pub(crate) fn conditions_of(items: &[QueryItem]) -> usize
    ensures { result ≡ min (conditions items.now) (2 ^ 64 - 1) }
{
    let mut conditions = 0usize;
    for item in items {
        if is_condition(item) {
            conditions = conditions.saturating_add(1);
        }
    }
    conditions
}

/// Whether the item is a condition.
fn is_condition(item: &QueryItem) -> bool
    ensures { item_conditions item.now ≡ (if result then 1 else 0) }
{
    match item {
        QueryItem::Condition { .. } | QueryItem::Satisfies { .. } => true,
        QueryItem::Match { .. } => false,
    }
}

/// The slots of all of the patterns.
#[cycle(slots)]
fn slots_of_patterns(patterns: &[Pattern]) -> usize
    ensures { result ≡ min (sum_by pattern_slots patterns.now) (2 ^ 64 - 1) }
{
    let mut slots = 0usize;
    for pattern in patterns {
        slots = slots.saturating_add(slots_of_pattern(pattern));
    }
    slots
}

/// The slots of a pattern and of those in it.
#[cycle(slots)]
#[tactic(auto, using(crate::proofs::Slots::slots_are))]
fn slots_of_pattern(pattern: &Pattern) -> usize
    ensures { result ≡ min (pattern_slots pattern.now) (2 ^ 64 - 1) }
{
    let content = slots_of_content(&pattern.content);
    let attributes = pattern.attributes.len();
    attributes
        .saturating_add(content)
        .saturating_add(slots_of_suffix(&pattern.suffix))
}

/// The slots of a content.
#[cycle(slots)]
#[tactic(auto, using(crate::proofs::Slots::slots_are))]
fn slots_of_content(content: &Content) -> usize
    ensures { result ≡ min (content_slots content.now) (2 ^ 64 - 1) }
{
    match content {
        Content::Parts(parts) => slots_of_patterns(parts.as_slice()),
        Content::Value(_) => 1,
    }
}

/// The slots of a suffix.
fn slots_of_suffix(suffix: &Suffix) -> usize
    ensures { result ≡ suffix_slots suffix.now }
{
    match suffix {
        Suffix::Plain => 0,
        Suffix::ElementAs(_) | Suffix::ContentAs(_) => 1,
    }
}
