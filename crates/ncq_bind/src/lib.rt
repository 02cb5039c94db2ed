//! What a query means, and its normal form.
//! A statement comes in. Its normal query goes out, in which variables are slots, or the reason why
//! it has none. The meaning follows the query as it is written, over whole sources: each choice of
//! elements and embeddings, all occurrences of a variable alike, every condition; with `DISTINCT`
//! each forest that comes of it once. Laws say that the rows of the normal query, and those of its
//! plan, make all that the query answers.
#![tactic(auto)]

mod arm;
mod binding;
mod bound;
mod constraint;
mod gather;
mod laws;
mod names;
mod open_arm;
mod places;
mod query;
mod range;
mod residual;
mod served;
mod shape;
mod sorted;
mod template;

pub use binding::{BindError, bind};
pub use constraint::Constraint;
pub use laws::{
    answers_are_proper, embeddings_are_rows, forests_are_the_answer, one_answer,
    plans_give_the_answer, rows_are_open_embeddings, shapes_are_formed,
};
pub use open_arm::{OpenArm, OpenArms};
