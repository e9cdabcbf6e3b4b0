ghost use Rattle.std.specs.Prelude.{◌≡◌, ◌<◌, ◌≤◌, ℕ, List, length, take, true, false, Some};
ghost use Rattle.ql_lex.specs.Lexed.{Lexeme};
ghost use Rattle.qv_syntax.specs.declared.expr.Expr.{Expr};
ghost use Rattle.ql_lex.specs.Lexemes.{stands};
ghost use Rattle.ocl_parser.specs.Followers.{follows, may_go_on};
ghost use Rattle.ocl_parser.specs.Grammar.{spelled};
ghost use Rattle.ocl_parser.specs.Runs.{Tree, answer};

/// What spells an expression is told by its own tokens: it has one, and those behind its end do not matter.
pub fn own_tokens_spell()
    ensures end { (ts : List Lexeme) (levels : ℕ) (e : Expr) (from end : ℕ) → spelled ts levels e from ≡ Some end → (from < end) × (end ≤ length ts) }
    ensures cut { (ts : List Lexeme) (levels : ℕ) (e : Expr) (from end k : ℕ) → spelled ts levels e from ≡ Some end → end ≤ k → spelled (take k ts) levels e from ≡ Some end }
{}

/// From one token up to another, tokens spell one tree at most.
pub fn one_tree_between()
    ensures { (ts : List Lexeme) (n m : ℕ) (d e : Expr) (from end : ℕ) → spelled ts n d from ≡ Some end → spelled ts m e from ≡ Some end → d ≡ e }
{}

/// Where a sign follows with which no expression goes on, what tokens spell is answered for them; and where no other token
/// follows, what is answered is told by the tokens before its end.
pub fn expressions_end()
    ensures before { (ts : List Lexeme) (levels n from k : ℕ) (e : Expr) → n ≤ levels → spelled ts n e from ≡ Some k → stands follows ts k ≡ true → answer ts levels from ≡ Tree e k }
    ensures alike { (ts us : List Lexeme) (levels from k : ℕ) (e : Expr) → from ≤ length ts → answer ts levels from ≡ Tree e k → take k us ≡ take k ts → stands may_go_on us k ≡ false → answer us levels from ≡ Tree e k }
{}
