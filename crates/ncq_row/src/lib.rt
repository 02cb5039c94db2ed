//! Shapes of elements, and rows of the values that an element has at the places of a shape.
//! A shape and an element come in; a row for each embedding of the shape in the element goes out.
//! Only `match_shape`, `match_written`, `Row::join` and `Row::copy` give rows, and each counts one
//! step for each. A value keeps its atom, which was made with it, and a row of a shared element
//! that takes the whole element shares it.
#![tactic(auto)]

mod attributes;
mod by_names;
mod key;
mod lookahead;
mod matching;
mod nodes;
mod pair;
mod places;
mod product;
mod reach;
mod row;
mod shape;
mod slot;
mod subject;
mod value;

pub use key::{RowKey, SlotAtom};
pub use matching::{match_shape, match_written};
pub use nodes::{Nodes, Shown};
pub use pair::{Pair, Pairs};
pub use places::width;
pub use row::{Row, Rows};
pub use shape::{Names, Shape, ShapeContent, ShapeSuffix, Shapes, same_shape};
pub use value::{Value, is_same_value};
