ghost use Rattle.std.specs.Prelude.{◌≡◌, ◌≤◌, ◌↔◌, ℕ, true, ◌+◌, List, ◌++◌, length, take};
ghost use Rattle.ql_lex.specs.Lexed.{Lexeme};
ghost use Rattle.qv_syntax.specs.declared.expr.Expr.{Expr};
ghost use Rattle.ocl_parser.specs.Runs.{Tree, Stuck, Deep, answer};
ghost use Rattle.ocl_parser.specs.Beginnings.{BeginsWithin, IsTree, IsStuck, IsDeep};
ghost use Rattle.ocl_parser.specs.Completion.{Ends, Reaches, Reading, completion, is_open, needed_levels, opening_levels};
ghost use Rattle.ocl_parser.specs.declared.frame.Frame.{Frame};
ghost use Rattle.ocl_parser.specs.declared.state.State.{State};

/// What is open in a state can be ended, and takes only the levels that are open there, and one where none is open yet
/// of what began.
pub fn open_constructs_end()
    ensures { (levels : ℕ) (stack : List Frame) (state : State) (at : ℕ) → is_open stack state ≡ true → needed_levels stack state ≤ levels → Ends levels (completion stack state) stack state at }
{}

/// The tokens that are read, and those that end what they leave open, are read as an expression.
pub fn readings_end()
    ensures { (ts : List Lexeme) (levels from k : ℕ) (r : Reading) → from ≤ k → k ≤ length ts → Reaches ts levels from k r → (wider : ℕ) → levels + opening_levels r.state ≤ wider
        → (tree : Expr) × (answer (take k ts ++ completion r.stack r.state) wider from ≡ Tree tree (length (take k ts ++ completion r.stack r.state))) }
{}

/// Tokens that are read begin an expression, with the levels in which they are read, or one more where they end in what
/// begins a level and has not opened it yet.
pub fn readings_begin()
    ensures { (ts : List Lexeme) (levels from k : ℕ) (r : Reading) → from ≤ k → k ≤ length ts → Reaches ts levels from k r → BeginsWithin ts from (levels + opening_levels r.state) k }
{}

/// Each answer is exactly what it stands for: the longest list of tokens with which an expression begins is one, or is
/// none, or a token opens a level past the last.
pub fn answers_are_exact()
    ensures tree { (ts : List Lexeme) (levels from : ℕ) (e : Expr) (end : ℕ) → from ≤ length ts → (answer ts levels from ≡ Tree e end) ↔ IsTree ts from levels e end }
    ensures stuck { (ts : List Lexeme) (levels from k : ℕ) → from ≤ length ts → (answer ts levels from ≡ Stuck k) ↔ IsStuck ts from levels k }
    ensures deep { (ts : List Lexeme) (levels from k : ℕ) → from ≤ length ts → (answer ts levels from ≡ Deep k) ↔ IsDeep ts from levels k }
{}
