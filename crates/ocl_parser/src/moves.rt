ghost use Rattle.std.specs.Prelude.{◌≡◌, List, IfOk};
ghost use Rattle.ocl_parser.specs.Moves.{extended as longer, move as next_move, on_arrow_parenthesis, on_brace, on_colon, on_name, on_type_parenthesis, path_of as first_path};
ghost use Rattle.ocl_parser.specs.Answers.{made};
ghost use Rattle.ocl_parser.specs.declared.frame.Frame.{Frame as AnyFrame};
ghost use Rattle.ocl_parser.specs.declared.state.State.TheVariants as states;

use crate::closing::after;
use crate::frame::{Base, CallHead, Frame, PostfixHead};
use crate::operands::operand;
use crate::parts::{extended, path_of};
use crate::paths::{arrow_first, arrow_second, class_path, dotted, on_path};
use crate::shifting::{open, open_type};
use crate::stack::Stack;
use crate::state::{Action, State};
use crate::types::{type_begin, type_end, type_path};
use mof_metamodel::{NoMemory, Seq, or_drop};
use ql_lex::{Symbol, Terminal};
use qv_syntax::{Kind, Name, Path};
use std::alloc::Global;

/// A symbol behind `::` in a path.
fn path_name(path: Path, symbol: Symbol) -> Result<Action, NoMemory>
    ensures { IfOk result (λ o. (stack : List AnyFrame) → made stack o ≡ on_name stack (λ n. states.Path (longer path n)) symbol) }
{
    match symbol {
        Symbol::Name(name) => {
            let path = extended(path, name)?;
            Ok(Action::Read(State::Path { path }))
        }
        _ => Ok(Action::Refused),
    }
}

/// A symbol behind `let`.
fn let_name(start: usize, symbol: Symbol) -> Action
    ensures { (stack : List AnyFrame) → made stack result ≡ on_name stack (λ n. states.LetColon start n) symbol }
{
    match symbol {
        Symbol::Name(name) => Action::Read(State::LetColon { start, name }),
        _ => Action::Refused,
    }
}

/// A symbol behind `let name`.
fn let_colon(
    stack: &mut Stack,
    start: usize,
    name: Name,
    symbol: Symbol,
) -> Result<Action, NoMemory>
    ensures { IfOk result (λ o. made stack.new o ≡ on_colon stack.old start name symbol) }
{
    match symbol {
        Symbol::Colon => open_type(stack, Frame::LetType { start, name }),
        _ => Ok(Action::Refused),
    }
}

/// A symbol behind the kind of a collection type.
fn type_parenthesis(
    stack: &mut Stack,
    start: usize,
    kind: Kind,
    symbol: Symbol,
) -> Result<Action, NoMemory>
    ensures { IfOk result (λ o. made stack.new o ≡ on_type_parenthesis stack.old start kind symbol) }
{
    match symbol {
        Symbol::OpenParenthesis => open_type(stack, Frame::OfKind { start, kind }),
        _ => Ok(Action::Refused),
    }
}

/// A symbol behind `::` in a type.
fn type_name(path: Path, symbol: Symbol) -> Result<Action, NoMemory>
    ensures { IfOk result (λ o. (stack : List AnyFrame) → made stack o ≡ on_name stack (λ n. states.TypePath (longer path n)) symbol) }
{
    match symbol {
        Symbol::Name(name) => {
            let path = extended(path, name)?;
            Ok(Action::Read(State::TypePath { path }))
        }
        _ => Ok(Action::Refused),
    }
}

/// A symbol behind the kind of a collection.
fn brace(
    alloc: Global,
    stack: &mut Stack,
    start: usize,
    kind: Kind,
    symbol: Symbol,
) -> Result<Action, NoMemory>
    ensures { IfOk result (λ o. made stack.new o ≡ on_brace stack.old start kind symbol) }
{
    match symbol {
        Symbol::OpenBrace => {
            let elements = Seq::new(alloc);
            open(
                stack,
                Frame::Elements {
                    start,
                    kind,
                    elements,
                },
            )
        }
        _ => Ok(Action::Refused),
    }
}

/// A symbol behind `.`.
fn dot_name(base: Base, start: usize, symbol: Symbol) -> Action
    ensures { (stack : List AnyFrame) → made stack result ≡ on_name stack (λ n. states.Dotted base start n) symbol }
{
    match symbol {
        Symbol::Name(name) => Action::Read(State::Dotted { base, start, name }),
        _ => Action::Refused,
    }
}

/// A symbol behind `->`.
fn arrow_name(base: Base, start: usize, symbol: Symbol) -> Action
    ensures { (stack : List AnyFrame) → made stack result ≡ on_name stack (λ n. states.ArrowParenthesis base start n) symbol }
{
    match symbol {
        Symbol::Name(name) => Action::Read(State::ArrowParenthesis { base, start, name }),
        _ => Action::Refused,
    }
}

/// A symbol behind `->name`.
fn arrow_parenthesis(base: Base, start: usize, name: Name, symbol: Symbol) -> Action
    ensures { (stack : List AnyFrame) → made stack result ≡ on_arrow_parenthesis stack base start name symbol }
{
    match symbol {
        Symbol::OpenParenthesis => Action::Read(State::ArrowFirst { base, start, name }),
        _ => Action::Refused,
    }
}

/// A symbol behind the `(` of a call whose argument is a class.
fn class_name(alloc: Global, called: CallHead, symbol: Symbol) -> Result<Action, NoMemory>
    ensures { IfOk result (λ o. (stack : List AnyFrame) → made stack o ≡ on_name stack (λ n. states.ClassPath called (first_path n)) symbol) }
{
    match symbol {
        Symbol::Name(name) => {
            let path = or_drop!(path_of(alloc, name); called);
            Ok(Action::Read(State::ClassPath { called, path }))
        }
        other => {
            drop(other);
            drop(called);
            Ok(Action::Refused)
        }
    }
}

/// A symbol behind `::` in that class.
fn class_next(called: CallHead, path: Path, symbol: Symbol) -> Result<Action, NoMemory>
    ensures { IfOk result (λ o. (stack : List AnyFrame) → made stack o ≡ on_name stack (λ n. states.ClassPath called (longer path n)) symbol) }
{
    match symbol {
        Symbol::Name(name) => {
            let path = or_drop!(extended(path, name); called);
            Ok(Action::Read(State::ClassPath { called, path }))
        }
        other => {
            drop(other);
            drop(called);
            drop(path);
            Ok(Action::Refused)
        }
    }
}

/// What comes of one more symbol.
pub(crate) fn move_on(
    alloc: Global,
    stack: &mut Stack,
    state: State,
    terminal: Terminal,
) -> Result<Action, NoMemory>
    ensures { IfOk result (λ o. made stack.new o ≡ next_move stack.old state terminal.symbol terminal.span) }
{
    match state {
        State::Operand => operand(alloc, stack, terminal),
        State::After { base } => after(alloc, stack, base, terminal),
        State::Path { path } => on_path(alloc, stack, path, terminal),
        State::PathName { path } => path_name(path, terminal.symbol),
        State::LetName { start } => Ok(let_name(start, terminal.symbol)),
        State::LetColon { start, name } => let_colon(stack, start, name, terminal.symbol),
        State::Type => type_begin(alloc, terminal),
        State::TypeParenthesis { start, kind } => type_parenthesis(
            stack,
            start,
            kind,
            terminal.symbol,
        ),
        State::TypePath { path } => type_path(alloc, stack, path, terminal),
        State::TypeName { path } => type_name(path, terminal.symbol),
        State::TypeEnd { ty } => type_end(alloc, stack, ty, terminal),
        State::Brace { start, kind } => brace(alloc, stack, start, kind, terminal.symbol),
        State::DotName { base, start } => Ok(dot_name(base, start, terminal.symbol)),
        State::Dotted { base, start, name } => {
            let head = PostfixHead { base, start, name };
            dotted(alloc, stack, head, terminal)
        }
        State::ArrowName { base, start } => Ok(arrow_name(base, start, terminal.symbol)),
        State::ArrowParenthesis { base, start, name } => {
            Ok(arrow_parenthesis(base, start, name, terminal.symbol))
        }
        State::ArrowFirst { base, start, name } => {
            let head = PostfixHead { base, start, name };
            arrow_first(alloc, stack, head, terminal)
        }
        State::ArrowSecond { iterated } => arrow_second(alloc, stack, iterated, terminal),
        State::ClassName { called } => class_name(alloc, called, terminal.symbol),
        State::ClassPath { called, path } => class_path(alloc, called, path, terminal),
        State::ClassNext { called, path } => class_next(called, path, terminal.symbol),
    }
}
