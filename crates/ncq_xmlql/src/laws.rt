//! What holds of the answers to all texts.
ghost use Rattle.std.specs.Prelude.{◌≡◌, ℕ, List, Result};
ghost use Rattle.ncq_xmlql.specs.declared.model.Statement.{Statement};
ghost use Rattle.ncq_xmlql.specs.declared.statement.StatementError.{StatementError};
ghost use Rattle.ncq_xmlql.specs.Statements.{IsStatement, AreWithin, Answers};
ghost use Rattle.ncq_xmlql.specs.Answered.{statement_of, GivesStatement};
ghost use Rattle.ncq_xmlql.specs.WellFormed.{IsWellFormed};

/// A text is at most one statement.
pub fn one_meaning()
    ensures { (text : List ℕ) (p q : Statement) → IsStatement text p → IsStatement text q → p ≡ q }
{}

/// The answer that `statement_of` gives to a text is right.
pub fn answers_are_exact()
    ensures { (text : List ℕ) → Answers text (statement_of text) }
{}

/// No other answer to a text is right, but that memory ran out.
pub fn one_answer()
    ensures { (text : List ℕ) (answer : Result Statement StatementError) → Answers text answer
        → GivesStatement answer (statement_of text) }
{}

/// Every statement that is spelled within the limits is well formed.
pub fn spelled_is_well_formed()
    ensures { (text : List ℕ) (st : Statement) → IsStatement text st → AreWithin st.query.items
        → IsWellFormed st }
{}
