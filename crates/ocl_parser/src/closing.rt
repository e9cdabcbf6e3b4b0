ghost use Rattle.std.specs.Prelude.{◌≡◌, [], ◌∷◌, IfOk};
ghost use Rattle.ocl_parser.specs.Moves.{after as after_move, ended_by as ended_move, close_by, operator_on, to};
ghost use Rattle.ocl_parser.specs.Answers.{made};
ghost use Rattle.ocl_parser.specs.declared.frame.Frame.TheVariants as frames;
ghost use Rattle.ocl_parser.specs.declared.state.State.TheVariants as states;
ghost use Rattle.ql_lex.specs.declared.symbol.Symbol.TheVariants as symbols;

use crate::frame::{Base, Frame, Row, Subtree};
use crate::parts::{behind_base, behind_body, behind_call, infixed, subtree_of};
use crate::reducing::reduce;
use crate::shifting::{open, refuse};
use crate::stack::Stack;
use crate::state::{Action, State};
use mof_metamodel::{NoMemory, Seq, Span, or_drop};
use ql_lex::{Symbol, Terminal};
use qv_syntax::{Args, Expr, Infix, Operator};
use std::alloc::Global;

/// A row whose first part stands before the operator.
fn begin_row(
    alloc: Global,
    stack: &mut Stack,
    operator: Operator,
    subtree: Subtree,
) -> Result<Action, NoMemory>
    ensures { IfOk result (λ o. made stack.new o ≡ to (frames.Row subtree [] operator ∷ stack.old) states.Operand) }
{
    let rest = Seq::new(alloc);
    open(
        stack,
        Frame::Row {
            first: subtree,
            rest,
            operator,
        },
    )
}

/// An operator behind a part of this row, or of one of another level.
fn operator_in_row(
    alloc: Global,
    operator: Operator,
    stack: &mut Stack,
    row: Row,
    subtree: Subtree,
) -> Result<Action, NoMemory>
    ensures { IfOk result (λ o. made stack.new o ≡ operator_on operator (frames.Row row.first row.rest row.operator ∷ stack.old) subtree) }
{
    let Row {
        first,
        rest,
        operator: waiting,
    } = row;
    if waiting.level() == operator.level() {
        let mut rest = rest;
        or_drop!(rest.push(infixed(waiting, subtree)); first, rest);
        open(
            stack,
            Frame::Row {
                first,
                rest,
                operator,
            },
        )
    } else {
        let row = Frame::Row {
            first,
            rest,
            operator: waiting,
        };
        or_drop!(stack.push(row); subtree);
        begin_row(alloc, stack, operator, subtree)
    }
}

/// An operator behind a part of this construct.
fn operator_in(
    alloc: Global,
    operator: Operator,
    stack: &mut Stack,
    frame: Frame,
    subtree: Subtree,
) -> Result<Action, NoMemory>
    ensures { IfOk result (λ o. made stack.new o ≡ operator_on operator (frame ∷ stack.old) subtree) }
{
    match frame {
        Frame::Row {
            first,
            rest,
            operator: waiting,
        } => {
            let row = Row {
                first,
                rest,
                operator: waiting,
            };
            operator_in_row(alloc, operator, stack, row, subtree)
        }
        other => {
            stack.push(other)?;
            begin_row(alloc, stack, operator, subtree)
        }
    }
}

/// An operator goes on with the row of its level, if that is open, or begins one.
fn operator_behind(
    alloc: Global,
    operator: Operator,
    stack: &mut Stack,
    subtree: Subtree,
) -> Result<Action, NoMemory>
    ensures { IfOk result (λ o. made stack.new o ≡ operator_on operator stack.old subtree) }
{
    match stack.pop() {
        Some(frame) => operator_in(alloc, operator, stack, frame, subtree),
        None => begin_row(alloc, stack, operator, subtree),
    }
}

/// `)` behind an expression.
fn close_parenthesis(
    alloc: Global,
    stack: &mut Stack,
    frame: Frame,
    subtree: Subtree,
    span: Span,
) -> Result<Action, NoMemory>
    ensures { IfOk result (λ o. made stack.new o ≡ close_by (frame ∷ stack.old) subtree symbols.CloseParenthesis span) }
{
    let end = span.end;
    match frame {
        Frame::Parens { start } => {
            let span = Span { start, end };
            let inner = subtree.tree;
            behind_base(alloc, Expr::Parens { inner, span }, span)
        }
        Frame::Arguments { called, values } => {
            let mut values = values;
            or_drop!(values.push(subtree.tree.into_inner()); called, values);
            behind_call(alloc, called, Args::Values { values }, end)
        }
        Frame::Body { iterated, ty } => behind_body(iterated, ty, subtree.tree, end),
        other => {
            drop(subtree);
            refuse(stack, other)
        }
    }
}

/// `}` behind an expression.
fn close_brace(
    alloc: Global,
    stack: &mut Stack,
    frame: Frame,
    subtree: Subtree,
    span: Span,
) -> Result<Action, NoMemory>
    ensures { IfOk result (λ o. made stack.new o ≡ close_by (frame ∷ stack.old) subtree symbols.CloseBrace span) }
{
    match frame {
        Frame::Elements {
            start,
            kind,
            elements,
        } => {
            let mut elements = elements;
            elements.push(subtree.tree.into_inner())?;
            let span = Span {
                start,
                end: span.end,
            };
            let tree = Expr::Coll {
                kind,
                elements,
                span,
            };
            behind_base(alloc, tree, span)
        }
        other => refuse(stack, other),
    }
}

/// `,` behind an expression.
fn comma(stack: &mut Stack, frame: Frame, subtree: Subtree, _span: Span) -> Result<Action, NoMemory>
    ensures { IfOk result (λ o. made stack.new o ≡ close_by (frame ∷ stack.old) subtree symbols.Comma _span) }
{
    match frame {
        Frame::Arguments { called, values } => {
            let mut values = values;
            or_drop!(values.push(subtree.tree.into_inner()); called, values);
            open(stack, Frame::Arguments { called, values })
        }
        Frame::Elements {
            start,
            kind,
            elements,
        } => {
            let mut elements = elements;
            or_drop!(elements.push(subtree.tree.into_inner()); elements);
            open(
                stack,
                Frame::Elements {
                    start,
                    kind,
                    elements,
                },
            )
        }
        other => {
            drop(subtree);
            refuse(stack, other)
        }
    }
}

/// `then` behind an expression.
fn then(stack: &mut Stack, frame: Frame, subtree: Subtree, _span: Span) -> Result<Action, NoMemory>
    ensures { IfOk result (λ o. made stack.new o ≡ close_by (frame ∷ stack.old) subtree symbols.Then _span) }
{
    match frame {
        Frame::If { start } => {
            let condition = subtree.tree;
            open(stack, Frame::Then { start, condition })
        }
        other => refuse(stack, other),
    }
}

/// `else` behind an expression.
fn otherwise(
    stack: &mut Stack,
    frame: Frame,
    subtree: Subtree,
    _span: Span,
) -> Result<Action, NoMemory>
    ensures { IfOk result (λ o. made stack.new o ≡ close_by (frame ∷ stack.old) subtree symbols.Else _span) }
{
    match frame {
        Frame::Then { start, condition } => open(
            stack,
            Frame::Else {
                start,
                condition,
                one: subtree.tree,
            },
        ),
        other => refuse(stack, other),
    }
}

/// `endif` behind an expression.
fn endif(
    alloc: Global,
    stack: &mut Stack,
    frame: Frame,
    subtree: Subtree,
    span: Span,
) -> Result<Action, NoMemory>
    ensures { IfOk result (λ o. made stack.new o ≡ close_by (frame ∷ stack.old) subtree symbols.Endif span) }
{
    match frame {
        Frame::Else {
            start,
            condition,
            one,
        } => {
            let span = Span {
                start,
                end: span.end,
            };
            let tree = Expr::If {
                condition,
                one,
                other: subtree.tree,
                span,
            };
            behind_base(alloc, tree, span)
        }
        other => refuse(stack, other),
    }
}

/// `in` behind an expression.
fn begin_body(
    stack: &mut Stack,
    frame: Frame,
    subtree: Subtree,
    _span: Span,
) -> Result<Action, NoMemory>
    ensures { IfOk result (λ o. made stack.new o ≡ close_by (frame ∷ stack.old) subtree symbols.In _span) }
{
    match frame {
        Frame::Let { start, name, ty } => open(
            stack,
            Frame::In {
                start,
                name,
                ty,
                value: subtree.tree,
            },
        ),
        other => refuse(stack, other),
    }
}

/// A symbol behind an expression in this construct.
fn close_in(
    alloc: Global,
    stack: &mut Stack,
    frame: Frame,
    subtree: Subtree,
    terminal: Terminal,
) -> Result<Action, NoMemory>
    ensures { IfOk result (λ o. made stack.new o ≡ close_by (frame ∷ stack.old) subtree terminal.symbol terminal.span) }
{
    let Terminal { symbol, span } = terminal;
    match symbol {
        Symbol::CloseParenthesis => close_parenthesis(alloc, stack, frame, subtree, span),
        Symbol::CloseBrace => close_brace(alloc, stack, frame, subtree, span),
        Symbol::Comma => comma(stack, frame, subtree, span),
        Symbol::Then => then(stack, frame, subtree, span),
        Symbol::Else => otherwise(stack, frame, subtree, span),
        Symbol::Endif => endif(alloc, stack, frame, subtree, span),
        Symbol::In => begin_body(stack, frame, subtree, span),
        _ => refuse(stack, frame),
    }
}

/// A symbol behind an expression, which fits the innermost open construct or ends the whole.
fn close(
    alloc: Global,
    stack: &mut Stack,
    subtree: Subtree,
    terminal: Terminal,
) -> Result<Action, NoMemory>
    ensures { IfOk result (λ o. made stack.new o ≡ close_by stack.old subtree terminal.symbol terminal.span) }
{
    match stack.pop() {
        Some(frame) => close_in(alloc, stack, frame, subtree, terminal),
        None => Ok(Action::Whole(subtree.tree.into_inner())),
    }
}

/// A symbol behind an operand, which ends.
fn ended_by(
    alloc: Global,
    stack: &mut Stack,
    subtree: Subtree,
    terminal: Terminal,
) -> Result<Action, NoMemory>
    ensures { IfOk result (λ o. made stack.new o ≡ ended_move stack.old subtree terminal.symbol terminal.span) }
{
    let Terminal { symbol, span } = terminal;
    match symbol {
        Symbol::Operator(operator) => {
            let subtree = reduce(alloc, operator.level() + 1, stack, subtree)?;
            operator_behind(alloc, operator, stack, subtree)
        }
        other => {
            let subtree = reduce(alloc, 0, stack, subtree)?;
            let terminal = Terminal {
                symbol: other,
                span,
            };
            close(alloc, stack, subtree, terminal)
        }
    }
}

/// A symbol behind a part that binds tightest, or a call on it.
pub(crate) fn after(
    alloc: Global,
    stack: &mut Stack,
    base: Base,
    terminal: Terminal,
) -> Result<Action, NoMemory>
    ensures { IfOk result (λ o. made stack.new o ≡ after_move stack.old base terminal.symbol terminal.span) }
{
    let Terminal { symbol, span } = terminal;
    let start = span.start;
    match symbol {
        Symbol::Dot => Ok(Action::Read(State::DotName { base, start })),
        Symbol::Arrow => Ok(Action::Read(State::ArrowName { base, start })),
        other => {
            let subtree = subtree_of(alloc, base)?;
            let terminal = Terminal {
                symbol: other,
                span,
            };
            ended_by(alloc, stack, subtree, terminal)
        }
    }
}
