ghost use Rattle.std.specs.Prelude.{◌≡◌, ◌≤◌, ◌↔◌, ℕ, List, Result};
ghost use Rattle.ocl_parser.specs.declared.limits.TheConstants.{MAX_NESTING};
ghost use Rattle.ql_lex.specs.Lexed.{Lexeme, LexedText};
ghost use Rattle.qv_syntax.specs.declared.script.Script.{Script};
ghost use Rattle.ocl_parser.specs.declared.error.ParseError.{ParseError};
ghost use Rattle.qvtr_parser.specs.Answers.{Answers, Tells};
ghost use Rattle.qvtr_parser.specs.Beginnings.{BeginsWithin};
ghost use Rattle.qvtr_parser.specs.Grammar.{IsScriptWithin};
ghost use Rattle.qvtr_parser.specs.ScriptReadings.{script_read};

/// Tokens are one script at most, whatever its nesting, and one that nests within some levels nests within more.
pub fn tokens_are_one_script()
    ensures one { (ts : List Lexeme) (n m : ℕ) (s t : Script) → IsScriptWithin ts n s → IsScriptWithin ts m t → s ≡ t }
    ensures wider { (ts : List Lexeme) (n m : ℕ) (s : Script) → IsScriptWithin ts n s → n ≤ m → IsScriptWithin ts m s }
{}

/// Tokens that begin a script still do so without the last of them: so where some script begins with the tokens before one, none of
/// those is the first with which no script goes on.
pub fn beginnings_begin()
    ensures { (ts : List Lexeme) (levels j k : ℕ) → j ≤ k → BeginsWithin ts levels k → BeginsWithin ts levels j }
{}

/// What reading a script answers is exactly what is so: of all results but want of memory one alone may be given.
pub fn answers_tell()
    ensures { (text : LexedText) (result : Result Script ParseError) → Answers text (script_read text.lexemes MAX_NESTING) result ↔ Tells text MAX_NESTING result }
{}
