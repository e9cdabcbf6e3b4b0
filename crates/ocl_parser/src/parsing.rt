ghost use Rattle.std.specs.Prelude.{◌≡◌, ◌≤◌, ◌<◌, ◌+◌, ℕ, nat_lt, [], drop, length, slice_get, Ok, Err, IfOk};
ghost use Rattle.qv_syntax.specs.declared.expr.Expr.{Expr as AnyExpr};
ghost use Rattle.ocl_parser.specs.declared.state.Action.TheVariants.{Read};
ghost use Rattle.ocl_parser.specs.Beginnings.{IsDeep, IsStuck, IsTree};
ghost use Rattle.ocl_parser.specs.Moves.{move as next_move, open_levels, state_levels as levels_of};
ghost use Rattle.ocl_parser.specs.Runs.{answer, ended_by, run};
ghost use Rattle.ocl_parser.specs.Answers.{Answers, IsAnswered, Tells, Passed, made, step_answer};
ghost use Rattle.ocl_parser.specs.Places.{place_of};
ghost use Rattle.ocl_parser.specs.Readings.{Gives, expr_read, halted_at, read_by};
ghost use Rattle.ql_lex.specs.Symbols.{terminal_of};

use crate::error::ParseError;
use crate::halt::{Halt, Stop};
use crate::limits::MAX_NESTING;
use crate::moves::move_on;
use crate::stack::Stack;
use crate::state::{Action, State};
use mof_metamodel::NoMemory;
use ql_lex::{Tokens, peek, symbol_at};
use qv_syntax::Expr;
use std::alloc::Global;

/// What was read so far: the constructs that are open, and what may come next.
#[derive(Drop)]
struct Reading {
    stack: Stack,
    state: State,
}

/// How many levels are open and in no frame yet.
fn state_levels(state: &State) -> usize
    ensures { result ≡ levels_of state.now }
{
    match state {
        State::LetName { .. }
        | State::LetColon { .. }
        | State::ArrowFirst { .. }
        | State::ArrowSecond { .. }
        | State::ClassName { .. }
        | State::ClassPath { .. }
        | State::ClassNext { .. } => 1,
        _ => 0,
    }
}

/// Whether more levels are open than may be.
fn is_deep(stack: &Stack, state: &State, levels: usize) -> bool
    ensures { result ≡ nat_lt levels (open_levels stack.now + levels_of state.now) }
{
    let open = stack.levels();
    open > levels || state_levels(state) > levels - open
}

/// What comes of the symbol of this number.
fn next(
    alloc: Global,
    tokens: &Tokens<'_>,
    at: usize,
    reading: &mut Reading,
) -> Result<Action, NoMemory>
    ensures { IfOk result (λ o. made reading.new.stack o ≡ next_move reading.old.stack reading.old.state (terminal_of (slice_get tokens.now.lexemes at)).symbol (terminal_of (slice_get tokens.now.lexemes at)).span) }
{
    let terminal = symbol_at(alloc, tokens, at)?;
    let state = std::mem::replace(&mut reading.state, State::Operand);
    move_on(alloc, &mut reading.stack, state, terminal)
}

/// Goes on behind a token that was read, if no more levels are open than may be.
fn go_on(
    _tokens: &Tokens<'_>,
    at: usize,
    reading: &mut Reading,
    state: State,
    levels: usize,
) -> Option<Result<(Expr, usize), Halt>>
    ensures { Passed _tokens.now levels (at + 1) reading.new.stack reading.new.state (step_answer levels (drop (at + 1) _tokens.now.lexemes) at (made reading.old.stack (Read state))) result }
{
    let deep = is_deep(&reading.stack, &state, levels);
    drop(std::mem::replace(&mut reading.state, state));
    if deep {
        Some(Err(Halt::Stop(Stop::Deep { at })))
    } else {
        None
    }
}

/// Goes on behind a token that was read, or answers.
fn judge(
    _tokens: &Tokens<'_>,
    at: usize,
    reading: &mut Reading,
    action: Action,
    levels: usize,
) -> Option<Result<(Expr, usize), Halt>>
    ensures { Passed _tokens.now levels (at + 1) reading.new.stack reading.new.state (step_answer levels (drop (at + 1) _tokens.now.lexemes) at (made reading.old.stack action)) result }
{
    match action {
        Action::Read(state) => go_on(_tokens, at, reading, state, levels),
        Action::Whole(tree) => Some(Ok((tree, at))),
        Action::Refused => Some(Err(Halt::Stop(Stop::Stuck { at }))),
    }
}

/// Reads one more token, or answers.
fn pass(
    alloc: Global,
    tokens: &Tokens<'_>,
    at: usize,
    reading: &mut Reading,
    levels: usize,
) -> Option<Result<(Expr, usize), Halt>>
    requires { at < length tokens.now.lexemes }
    ensures { Passed tokens.now levels (at + 1) reading.new.stack reading.new.state (run levels (drop at tokens.now.lexemes) reading.old.stack reading.old.state at) result }
{
    match next(alloc, tokens, at, reading) {
        Ok(action) => judge(tokens, at, reading, action, levels),
        Err(_) => Some(Err(Halt::NoMemory)),
    }
}

/// The answer by what comes of the end of the text.
fn judge_end(at: usize, action: Action) -> Result<(Expr, usize), Halt>
    ensures { Gives result (read_by (ended_by action at)) }
{
    match action {
        Action::Whole(tree) => Ok((tree, at)),
        other => {
            drop(other);
            Err(Halt::Stop(Stop::Stuck { at }))
        }
    }
}

/// The answer behind the last token.
fn end(
    alloc: Global,
    tokens: &Tokens<'_>,
    reading: &mut Reading,
    _levels: usize,
) -> Result<(Expr, usize), Halt>
    ensures { Gives result (read_by (run _levels [] reading.old.stack reading.old.state (length tokens.now.lexemes))) }
{
    let at = tokens.len();
    match next(alloc, tokens, at, reading) {
        Ok(action) => judge_end(at, action),
        Err(_) => Err(Halt::NoMemory),
    }
}

/// Reads on from the token of this number.
fn read(
    alloc: Global,
    tokens: &Tokens<'_>,
    from: usize,
    reading: &mut Reading,
    levels: usize,
) -> Result<(Expr, usize), Halt>
    requires { from ≤ length tokens.now.lexemes }
    ensures { Gives result (read_by (run levels (drop from tokens.now.lexemes) reading.old.stack reading.old.state from)) }
{
    for at in from..tokens.len() {
        if let Some(answer) = pass(alloc, tokens, at, reading, levels) {
            return answer;
        }
    }
    end(alloc, tokens, reading, levels)
}

/// Reads an expression where so many levels of nesting are left: the tree of the longest list of tokens from the one of
/// number `from` on with which some expression begins, and the number of the token behind the list.
///
/// # Errors
///
/// A `Stop` as `answers_are_exact` says, and `NoMemory`.
#[tactic(auto, unfolding(crate::specs::Runs::answer, crate::specs::Readings::expr_read))]
pub fn read_expr(
    alloc: Global,
    tokens: &Tokens<'_>,
    from: usize,
    levels: usize,
) -> Result<(Expr, usize), Halt>
    requires { from ≤ length tokens.now.lexemes }
    ensures { Gives result (expr_read tokens.now.lexemes levels from) }
{
    let mut reading = Reading {
        stack: Stack::new(alloc),
        state: State::Operand,
    };
    let found = read(alloc, tokens, from, &mut reading, levels);
    drop(reading);
    found
}

/// Where the token of this number begins, or the text ends.
fn place_at(tokens: &Tokens<'_>, at: usize) -> usize
    ensures { result ≡ place_of tokens.now at }
{
    match peek(tokens, at) {
        Some((token, _)) => token.span.start,
        None => tokens.end(),
    }
}

/// What is told of a reading that ended without a tree.
pub fn error_of(tokens: &Tokens<'_>, halt: Halt) -> ParseError
    ensures { result ≡ halted_at tokens.now halt }
{
    match halt {
        Halt::Stop(Stop::Stuck { at }) => ParseError::Parse {
            at: place_at(tokens, at),
        },
        Halt::Stop(Stop::Deep { at }) => ParseError::Limit {
            at: place_at(tokens, at),
        },
        Halt::NoMemory => ParseError::NoMemory,
    }
}

/// What the automaton answers from the token of this number on.
fn answer_from(
    alloc: Global,
    tokens: &Tokens<'_>,
    from: usize,
    levels: usize,
) -> Result<(Expr, usize), ParseError>
    requires { from ≤ length tokens.now.lexemes }
    ensures { Answers tokens.now (answer tokens.now.lexemes levels from) result }
{
    match read_expr(alloc, tokens, from, levels) {
        Ok(found) => Ok(found),
        Err(halt) => Err(error_of(tokens, halt)),
    }
}

/// Reads an expression from the token of number `from` on (OCL 2.4, chapter 9): the tree of the longest list of tokens
/// with which some expression begins, and the number of the token behind the list.
///
/// # Errors
///
/// `Parse` where that list is no expression and nests no deeper than it may, at the start of the token behind it, in
/// bytes, or at the end of the text; `Limit` where a token of it opens a level past `MAX_NESTING`, at the start of the
/// first such token; and `NoMemory`.
#[tactic(auto, using(crate::proofs::AnswerLaws::told))]
pub fn parse_expr(
    alloc: Global,
    tokens: &Tokens<'_>,
    from: usize,
) -> Result<(Expr, usize), ParseError>
    requires { from ≤ length tokens.now.lexemes }
    // What is answered is so.
    ensures tells { Tells tokens.now from MAX_NESTING result }
    // What is so is answered, unless memory could not be had.
    ensures tree { (e : AnyExpr) (end : ℕ) → IsTree tokens.now.lexemes from MAX_NESTING e end → IsAnswered (Ok (e, end)) result }
    ensures stuck { (k : ℕ) → IsStuck tokens.now.lexemes from MAX_NESTING k → IsAnswered (Err (ParseError.Parse (place_of tokens.now k))) result }
    ensures deep { (k : ℕ) → IsDeep tokens.now.lexemes from MAX_NESTING k → IsAnswered (Err (ParseError.Limit (place_of tokens.now k))) result }
{
    answer_from(alloc, tokens, from, MAX_NESTING)
}
