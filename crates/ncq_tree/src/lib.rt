//! Documents as trees: texts and elements with attributes, their normal form and their string
//! value. What comes in are forests of any kind, as a block of lines spells them; what goes out are
//! their normal forms, copies, the joined texts, and how two of them are ordered.
//! Two forests are equal exactly where contracts see the same nodes, and a normal forest is its own
//! normal form.
//! `is_same` may as well be asked the other way round: equality is symmetric.
#![tactic(auto)]

mod checks;
mod copy;
mod laws;
mod model;
mod normalize;
mod ordering;
mod text;

pub use checks::{are_rising, is_normal};
pub use copy::copy_forest;
pub use laws::{normal_is_made, normal_stays, order_is_total};
pub use model::{Attribute, Attributes, Element, Forest, Node};
pub use normalize::{normal, normal_element, sort_attributes, trim};
pub use ordering::{is_same, order};
pub use text::string_value;
