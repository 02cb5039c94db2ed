//! Laws of what a query means. The functions do nothing: each is its contract.
ghost use Rattle.ncq_bind.specs.Laws.{ArmLaw, FormedLaw, JoiningLaw, OneAnswer, OpenLaw};
ghost use Rattle.ncq_bind.specs.Laws.{PlanLaw, ProperLaw};

/// The embeddings of a pattern are those rows of its shape that have each literal's atom at the
/// literal's place, in the same order.
pub fn embeddings_are_rows()
    ensures { ArmLaw }
{}

/// The embeddings of a pattern without literals are the rows of its shape.
pub fn rows_are_open_embeddings()
    ensures { OpenLaw }
{}

/// The shape of a pattern is well formed exactly where each path of the pattern is.
pub fn shapes_are_formed()
    ensures { FormedLaw }
{}

/// The forests that the normal query makes of its rows are all that the query answers, in the same
/// order.
pub fn forests_are_the_answer()
    ensures { JoiningLaw }
{}

/// For every statement that binds and every world, the forests that are made of those rows of the
/// plan that pass the residual are all that the query answers, in the same order.
pub fn plans_give_the_answer()
    ensures { PlanLaw }
{}

/// Where each element of each source is proper, so is each forest of all that the query answers,
/// and each of the answer.
pub fn answers_are_proper()
    ensures { ProperLaw }
{}

/// No two answers of `bind` are right for one query, but that memory ran out.
pub fn one_answer()
    ensures { OneAnswer }
{}
