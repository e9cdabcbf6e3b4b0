ghost use Rattle.std.specs.Prelude.{◌≡◌, ◌↔◌, ℕ, List, Ok};
ghost use Rattle.ql_lex.specs.Lexed.{Lexeme, lexed};
ghost use Rattle.ql_lex.specs.Tokens.{IsLexed};

/// The tokens of a text by the grammar are those by the counters of bytes. So a text has one list of tokens at most.
pub fn tokens_are_counted()
    ensures { (text : List ℕ) (ls : List Lexeme) → (lexed text ≡ Ok ls) ↔ IsLexed text ls }
{}
