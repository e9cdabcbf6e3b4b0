ghost use Rattle.std.specs.Prelude.{◌≡◌, ◌∷◌, List, IfOk};
ghost use Rattle.ocl_parser.specs.Moves.{plain_type as plain_meant, type_begin as begin_move, type_end as end_move, type_path as path_move};
ghost use Rattle.ocl_parser.specs.Answers.{made};
ghost use Rattle.qv_syntax.specs.declared.operator.Operator.TheVariants as operators;
ghost use Rattle.ocl_parser.specs.declared.frame.Frame.{Frame as AnyFrame};
ghost use Rattle.ql_lex.specs.declared.symbol.Symbol.TheVariants as symbols;

use crate::frame::Frame;
use crate::names::CLASS_NAMES;
use crate::parts::path_of;
use crate::shifting::{open, refuse};
use crate::stack::Stack;
use crate::state::{Action, State};
use mof_metamodel::{Boxed, NoMemory, Span};
use ql_lex::{PlainType, Symbol, Terminal};
use qv_syntax::{Operator, Path, TypeTree};
use std::alloc::Global;

/// A type of one word.
pub(crate) fn plain_type(ty: PlainType, span: Span) -> TypeTree
    ensures { result ≡ plain_meant ty span }
{
    match ty {
        PlainType::Str => TypeTree::Str { span },
        PlainType::Int => TypeTree::Int { span },
        PlainType::Bool => TypeTree::Bool { span },
    }
}

/// A symbol where a type may begin.
pub(crate) fn type_begin(alloc: Global, terminal: Terminal) -> Result<Action, NoMemory>
    ensures { IfOk result (λ o. (stack : List AnyFrame) → made stack o ≡ begin_move stack terminal.symbol terminal.span) }
{
    let Terminal { symbol, span } = terminal;
    match symbol {
        Symbol::Plain(ty) => Ok(Action::Read(State::TypeEnd {
            ty: plain_type(ty, span),
        })),
        Symbol::Kind(kind) => Ok(Action::Read(State::TypeParenthesis {
            start: span.start,
            kind,
        })),
        Symbol::Name(name) => {
            let path = path_of(alloc, name)?;
            Ok(Action::Read(State::TypePath { path }))
        }
        _ => Ok(Action::Refused),
    }
}

/// `)` behind a type.
fn end_of_kind(
    alloc: Global,
    stack: &mut Stack,
    frame: Frame,
    ty: TypeTree,
    span: Span,
) -> Result<Action, NoMemory>
    ensures { IfOk result (λ o. made stack.new o ≡ end_move (frame ∷ stack.old) ty symbols.CloseParenthesis span) }
{
    match frame {
        Frame::OfKind { start, kind } => {
            let of = Boxed::new(alloc, ty)?;
            let span = Span {
                start,
                end: span.end,
            };
            let ty = TypeTree::Coll { kind, of, span };
            Ok(Action::Read(State::TypeEnd { ty }))
        }
        other => refuse(stack, other),
    }
}

/// `=` behind a type.
fn begin_value(
    stack: &mut Stack,
    frame: Frame,
    ty: TypeTree,
    _span: Span,
) -> Result<Action, NoMemory>
    ensures { IfOk result (λ o. made stack.new o ≡ end_move (frame ∷ stack.old) ty (symbols.Operator operators.Equal) _span) }
{
    match frame {
        Frame::LetType { start, name } => open(stack, Frame::Let { start, name, ty }),
        other => refuse(stack, other),
    }
}

/// An operator behind a type.
fn operator_behind(
    stack: &mut Stack,
    frame: Frame,
    ty: TypeTree,
    operator: Operator,
    span: Span,
) -> Result<Action, NoMemory>
    ensures { IfOk result (λ o. made stack.new o ≡ end_move (frame ∷ stack.old) ty (symbols.Operator operator) span) }
{
    match operator {
        Operator::Equal => begin_value(stack, frame, ty, span),
        _ => refuse(stack, frame),
    }
}

/// `|` behind a type.
fn begin_body(
    stack: &mut Stack,
    frame: Frame,
    ty: TypeTree,
    _span: Span,
) -> Result<Action, NoMemory>
    ensures { IfOk result (λ o. made stack.new o ≡ end_move (frame ∷ stack.old) ty symbols.Bar _span) }
{
    match frame {
        Frame::VariableType { iterated } => open(
            stack,
            Frame::Body {
                iterated,
                ty: Some(ty),
            },
        ),
        other => refuse(stack, other),
    }
}

/// A symbol behind a type in this construct.
fn end_in(
    alloc: Global,
    stack: &mut Stack,
    frame: Frame,
    ty: TypeTree,
    terminal: Terminal,
) -> Result<Action, NoMemory>
    ensures { IfOk result (λ o. made stack.new o ≡ end_move (frame ∷ stack.old) ty terminal.symbol terminal.span) }
{
    let Terminal { symbol, span } = terminal;
    match symbol {
        Symbol::CloseParenthesis => end_of_kind(alloc, stack, frame, ty, span),
        Symbol::Operator(operator) => operator_behind(stack, frame, ty, operator, span),
        Symbol::Bar => begin_body(stack, frame, ty, span),
        other => {
            drop(other);
            drop(ty);
            refuse(stack, frame)
        }
    }
}

/// A symbol behind a type.
pub(crate) fn type_end(
    alloc: Global,
    stack: &mut Stack,
    ty: TypeTree,
    terminal: Terminal,
) -> Result<Action, NoMemory>
    ensures { IfOk result (λ o. made stack.new o ≡ end_move stack.old ty terminal.symbol terminal.span) }
{
    match stack.pop() {
        Some(frame) => end_in(alloc, stack, frame, ty, terminal),
        None => Ok(Action::Refused),
    }
}

/// A symbol behind a name of a class in a type.
pub(crate) fn type_path(
    alloc: Global,
    stack: &mut Stack,
    path: Path,
    terminal: Terminal,
) -> Result<Action, NoMemory>
    ensures { IfOk result (λ o. made stack.new o ≡ path_move stack.old path terminal.symbol terminal.span) }
{
    let Terminal { symbol, span } = terminal;
    match symbol {
        Symbol::DoubleColon => {
            if path.names.len() < CLASS_NAMES {
                Ok(Action::Read(State::TypeName { path }))
            } else {
                let symbol = Symbol::DoubleColon;
                type_end(
                    alloc,
                    stack,
                    TypeTree::Named { path },
                    Terminal { symbol, span },
                )
            }
        }
        other => {
            let terminal = Terminal {
                symbol: other,
                span,
            };
            type_end(alloc, stack, TypeTree::Named { path }, terminal)
        }
    }
}
