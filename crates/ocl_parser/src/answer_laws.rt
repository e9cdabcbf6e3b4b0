ghost use Rattle.std.specs.Prelude.{◌≡◌, ◌≤◌, ◌↔◌, ℕ, Result, length};
ghost use Rattle.ql_lex.specs.Lexed.{LexedText};
ghost use Rattle.qv_syntax.specs.declared.expr.Expr.{Expr};
ghost use Rattle.ocl_parser.specs.Runs.{answer};
ghost use Rattle.ocl_parser.specs.Answers.{Answers, Tells};
ghost use Rattle.ocl_parser.specs.declared.error.ParseError.{ParseError};

/// What the automaton answers is exactly what stands: so of all results but want of memory one alone may be given.
pub fn answers_tell()
    ensures { (text : LexedText) (levels from : ℕ) (result : Result (Expr × ℕ) ParseError) → from ≤ length text.lexemes → Answers text (answer text.lexemes levels from) result ↔ Tells text from levels result }
{}
