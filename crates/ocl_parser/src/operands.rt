ghost use Rattle.std.specs.Prelude.{◌≡◌, ◌∷◌, List, IfOk};
ghost use Rattle.ocl_parser.specs.Moves.{begins_expression, let_on, none_in_braces, none_in_parentheses, operand as operand_move};
ghost use Rattle.ocl_parser.specs.Answers.{made};
ghost use Rattle.ocl_parser.specs.declared.frame.Frame.{Frame as AnyFrame};
ghost use Rattle.ql_lex.specs.declared.symbol.Symbol.TheVariants as symbols;

use crate::frame::Frame;
use crate::parts::{behind_base, behind_call, path_of};
use crate::shifting::{open, refuse};
use crate::stack::Stack;
use crate::state::{Action, State};
use mof_metamodel::{NoMemory, Span};
use ql_lex::{Symbol, Terminal};
use qv_syntax::{Args, Expr, Operator};
use std::alloc::Global;

/// Whether a `let` may begin: no operator, `not` or `-` stands before.
fn begins(stack: &Stack) -> bool
    ensures { result ≡ begins_expression stack.now }
{
    match stack.top() {
        Some(frame) => begins_in(frame),
        None => true,
    }
}

/// Whether it may begin inside of this construct.
fn begins_in(frame: &Frame) -> bool
    ensures { (rest : List AnyFrame) → result ≡ begins_expression (frame.now ∷ rest) }
{
    match frame {
        Frame::Row { .. } | Frame::Not { .. } | Frame::Negated { .. } => false,
        _ => true,
    }
}

/// `let`
fn begin_let(stack: &Stack, start: usize) -> Action
    ensures { made stack.now result ≡ let_on (begins_expression stack.now) stack.now start }
{
    if begins(stack) {
        Action::Read(State::LetName { start })
    } else {
        Action::Refused
    }
}

/// An operator in front of an operand.
fn sign(stack: &mut Stack, operator: Operator, span: Span) -> Result<Action, NoMemory>
    ensures { IfOk result (λ o. made stack.new o ≡ operand_move stack.old (symbols.Operator operator) span) }
{
    match operator {
        Operator::Minus => open(stack, Frame::Negated { start: span.start }),
        _ => Ok(Action::Refused),
    }
}

/// `)` behind the `(` of a call.
fn no_argument(
    alloc: Global,
    stack: &mut Stack,
    frame: Frame,
    end: usize,
) -> Result<Action, NoMemory>
    ensures { IfOk result (λ o. made stack.new o ≡ none_in_parentheses (frame ∷ stack.old) end) }
{
    match frame {
        Frame::Arguments { called, values } => {
            if values.is_empty() {
                behind_call(alloc, called, Args::Values { values }, end)
            } else {
                refuse(stack, Frame::Arguments { called, values })
            }
        }
        other => refuse(stack, other),
    }
}

/// `)` where an operand may begin.
fn end_parentheses(alloc: Global, stack: &mut Stack, end: usize) -> Result<Action, NoMemory>
    ensures { IfOk result (λ o. made stack.new o ≡ none_in_parentheses stack.old end) }
{
    match stack.pop() {
        Some(frame) => no_argument(alloc, stack, frame, end),
        None => Ok(Action::Refused),
    }
}

/// `}` behind the `{` of a collection.
fn no_element(
    alloc: Global,
    stack: &mut Stack,
    frame: Frame,
    end: usize,
) -> Result<Action, NoMemory>
    ensures { IfOk result (λ o. made stack.new o ≡ none_in_braces (frame ∷ stack.old) end) }
{
    match frame {
        Frame::Elements {
            start,
            kind,
            elements,
        } => {
            if elements.is_empty() {
                let span = Span { start, end };
                let tree = Expr::Coll {
                    kind,
                    elements,
                    span,
                };
                behind_base(alloc, tree, span)
            } else {
                refuse(
                    stack,
                    Frame::Elements {
                        start,
                        kind,
                        elements,
                    },
                )
            }
        }
        other => refuse(stack, other),
    }
}

/// `}` where an operand may begin.
fn end_braces(alloc: Global, stack: &mut Stack, end: usize) -> Result<Action, NoMemory>
    ensures { IfOk result (λ o. made stack.new o ≡ none_in_braces stack.old end) }
{
    match stack.pop() {
        Some(frame) => no_element(alloc, stack, frame, end),
        None => Ok(Action::Refused),
    }
}

/// A symbol where an operand may begin.
pub(crate) fn operand(
    alloc: Global,
    stack: &mut Stack,
    terminal: Terminal,
) -> Result<Action, NoMemory>
    ensures { IfOk result (λ o. made stack.new o ≡ operand_move stack.old terminal.symbol terminal.span) }
{
    let Terminal { symbol, span } = terminal;
    let start = span.start;
    match symbol {
        Symbol::Let => Ok(begin_let(stack, start)),
        Symbol::If => open(stack, Frame::If { start }),
        Symbol::Not => open(stack, Frame::Not { start }),
        Symbol::Operator(operator) => sign(stack, operator, span),
        Symbol::OpenParenthesis => open(stack, Frame::Parens { start }),
        Symbol::Null => behind_base(alloc, Expr::Null { span }, span),
        Symbol::Invalid => behind_base(alloc, Expr::Invalid { span }, span),
        Symbol::Bool(value) => behind_base(alloc, Expr::Bool { value, span }, span),
        Symbol::Number(value) => behind_base(alloc, Expr::Number { value, span }, span),
        Symbol::Str(value) => behind_base(alloc, Expr::Str { value, span }, span),
        Symbol::Name(name) => {
            let path = path_of(alloc, name)?;
            Ok(Action::Read(State::Path { path }))
        }
        Symbol::Kind(kind) => Ok(Action::Read(State::Brace { start, kind })),
        Symbol::CloseParenthesis => end_parentheses(alloc, stack, span.end),
        Symbol::CloseBrace => end_braces(alloc, stack, span.end),
        _ => Ok(Action::Refused),
    }
}
