//! Signed rows on their way to the files of a group's constants.
//! Signed rows come in with a table of constants and a slot; parcels go out, each a row for the
//! file of a constant that it meets there. A row keeps its number and its sign, and the parcels
//! have the rows' order.
#![tactic(auto)]

mod equal;
mod laws;
mod missing;
mod parcel;
mod range;

pub use equal::split_equal;
pub use laws::files_get_what_they_select;
pub use missing::missing_rows;
pub use parcel::{Parcel, Parcels};
pub use range::split_range;
