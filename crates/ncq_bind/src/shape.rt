//! The shape of a pattern.
ghost use Rattle.std.specs.Prelude.{◌≡◌, IfOk, map};
ghost use Rattle.ncq_bind.specs.Places.{shape_of, content_shape, suffix_shape};

use ncq_base::Copied;
use ncq_row::{Names, Shape, ShapeContent, ShapeSuffix, Shapes};
use ncq_xmlql::{Content, Pattern, PatternAttribute, Suffix};
use std::alloc::{AllocError, Global};

/// The pattern with a slot at each of its places.
#[cycle(shapes)]
#[tactic(auto, using(crate::proofs::Patterns::shapes_are))]
pub(crate) fn shape_of(alloc: Global, pattern: &Pattern) -> Result<Shape, AllocError>
    ensures { IfOk result (λ s. s ≡ shape_of pattern.now) }
{
    Ok(Shape {
        tag: pattern.tag.copy(alloc)?,
        attributes: attribute_names(alloc, pattern.attributes.as_slice())?,
        content: content_shape(alloc, &pattern.content)?,
        suffix: suffix_shape(&pattern.suffix),
    })
}

/// The shapes of parts, or one slot.
#[cycle(shapes)]
#[tactic(auto, using(crate::proofs::Patterns::shapes_are))]
fn content_shape(alloc: Global, content: &Content) -> Result<ShapeContent, AllocError>
    ensures { IfOk result (λ c. c ≡ content_shape content.now) }
{
    match content {
        Content::Parts(parts) => Ok(ShapeContent::Parts(shapes_of(alloc, parts.as_slice())?)),
        Content::Value(_) => Ok(ShapeContent::Value),
    }
}

/// The shapes of patterns, in order.
#[cycle(shapes)]
fn shapes_of(alloc: Global, patterns: &[Pattern]) -> Result<Shapes, AllocError>
    ensures { IfOk result (λ s. s ≡ map shape_of patterns.now) }
{
    let mut shapes = Shapes::with_capacity(alloc, patterns.len())?;
    for pattern in patterns {
        shapes.push(shape_of(alloc, pattern)?)?;
    }
    Ok(shapes)
}

/// The names of attributes, in order.
fn attribute_names(alloc: Global, attributes: &[PatternAttribute]) -> Result<Names, AllocError>
    ensures { IfOk result (λ n. n ≡ map (λ a. a.name) attributes.now) }
{
    let mut names = Names::with_capacity(alloc, attributes.len())?;
    for attribute in attributes {
        names.push(attribute.name.copy(alloc)?)?;
    }
    Ok(names)
}

/// What a suffix binds, without its variable.
fn suffix_shape(suffix: &Suffix) -> ShapeSuffix
    ensures { result ≡ suffix_shape suffix.now }
{
    match suffix {
        Suffix::Plain => ShapeSuffix::Plain,
        Suffix::ElementAs(_) => ShapeSuffix::Element,
        Suffix::ContentAs(_) => ShapeSuffix::Content,
    }
}
