//! Laws of what tokens a text has. The functions do nothing: each is its contract.
ghost use Rattle.std.specs.Prelude.{◌≡◌, ◌↔◌, ℕ, List, false, true, Ok, Err};
ghost use Rattle.std.specs.List.{list_all};
ghost use Rattle.ncq_token.specs.TokenNames.{is_well_named};
ghost use Rattle.ncq_token.specs.Law.{AreTokens, StopsAt};
ghost use Rattle.ncq_token.specs.Tokens.{tokens_of};
ghost use Rattle.ncq_token.specs.declared.token.Token.{Token};
/// What `tokens` reads is what the rules of tokens say: its tokens, and the offset where none
/// stands. So a text has the tokens of at most one list, and no text has both.
pub fn tokens_are()
    ensures read { (text : List ℕ) (ts : List Token)
        → (tokens_of text ≡ Ok ts) ↔ AreTokens false text ts }
    ensures refused { (text : List ℕ) (at : ℕ) → (tokens_of text ≡ Err at) ↔ StopsAt false text at }
{}

/// Each token of a text that is a name is one that elements and attributes may have.
pub fn names_are_names()
    ensures { (text : List ℕ) (ts : List Token) → tokens_of text ≡ Ok ts
        → list_all is_well_named ts ≡ true }
{}
