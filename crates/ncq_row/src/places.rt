//! How many places a shape has.
ghost use Rattle.std.specs.Prelude.{◌≡◌, ◌≤◌, ◌-◌, ◌^◌, min};
ghost use Rattle.std.specs.List.{sum_by};
ghost use Rattle.ncq_row.specs.Widths.{width, content_width, suffix_width};

use crate::shape::{Shape, ShapeContent, ShapeSuffix};

/// How many places the shape has.
pub fn width(shape: &Shape) -> usize
    requires { width shape.now ≤ 2 ^ 63 - 1 }
    ensures { result ≡ width shape.now }
{
    width_of(shape)
}

/// The places of a shape. Each count stops at the greatest `usize`.
#[cycle(width)]
#[tactic(auto, using(crate::proofs::ShapeLaws::width_is))]
pub(crate) fn width_of(shape: &Shape) -> usize
    ensures { result ≡ min (width shape.now) (2 ^ 64 - 1) }
{
    let content = width_of_content(&shape.content);
    let attributes = shape.attributes.len();
    attributes
        .saturating_add(content)
        .saturating_add(width_of_suffix(shape.suffix))
}

#[cycle(width)]
#[tactic(auto, using(crate::proofs::ShapeLaws::width_is))]
fn width_of_content(content: &ShapeContent) -> usize
    ensures { result ≡ min (content_width content.now) (2 ^ 64 - 1) }
{
    match content {
        ShapeContent::Parts(parts) => width_of_shapes(parts.as_slice()),
        ShapeContent::Value => 1,
    }
}

#[cycle(width)]
fn width_of_shapes(shapes: &[Shape]) -> usize
    ensures { result ≡ min (sum_by width shapes.now) (2 ^ 64 - 1) }
{
    let mut places = 0usize;
    for shape in shapes {
        places = places.saturating_add(width_of(shape));
    }
    places
}

fn width_of_suffix(suffix: ShapeSuffix) -> usize
    ensures { result ≡ suffix_width suffix }
{
    match suffix {
        ShapeSuffix::Plain => 0,
        ShapeSuffix::Element | ShapeSuffix::Content => 1,
    }
}
