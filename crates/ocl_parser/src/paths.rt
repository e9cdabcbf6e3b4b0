ghost use Rattle.std.specs.Prelude.{◌≡◌, [], ◌∷◌, List, if◌then◌else◌, IfOk};
ghost use Rattle.ocl_parser.specs.Grammar.{takes_class as class_taken};
ghost use Rattle.ocl_parser.specs.Moves.{after_path as after_path_move, arguments as arguments_move, arrow_first as first_move, arrow_second as second_move, class_path as class_move, dotted as dotted_move, on_path as path_move, operand as operand_move, refused};
ghost use Rattle.ocl_parser.specs.Answers.{made};
ghost use Rattle.ocl_parser.specs.declared.frame.Frame.{Frame as AnyFrame};
ghost use Rattle.ocl_parser.specs.declared.frame.Frame.TheVariants as frames;
ghost use Rattle.ql_lex.specs.declared.symbol.Symbol.TheVariants as symbols;

use crate::closing::after;
use crate::frame::{Base, Before, CallHead, Frame, Iterated, PostfixHead};
use crate::names::CLASS_NAMES;
use crate::operands::operand;
use crate::parts::{base_of, behind_call, only_name, path_of, with_postfix};
use crate::shifting::{open, open_type};
use crate::stack::Stack;
use crate::state::{Action, State};
use mof_metamodel::{NoMemory, Seq, Span, Text, or_drop};
use ql_lex::{Symbol, Terminal};
use qv_syntax::{Args, Expr, Name, Path, Postfix};
use std::alloc::Global;

/// The greatest number of names of a variable, a class or a literal.
const PATH_NAMES: usize = 3;

/// Whether the argument of what is called so is a class.
#[tactic(auto, unfolding(crate::specs::Grammar::takes_class))]
fn takes_class(name: &Text) -> bool
    ensures { result ≡ class_taken name.now }
{
    let text = name.as_str();
    text == "oclIsKindOf" || text == "oclIsTypeOf" || text == "oclAsType"
}

/// The `(` of a call.
fn arguments(alloc: Global, stack: &mut Stack, called: CallHead) -> Result<Action, NoMemory>
    ensures { IfOk result (λ o. made stack.new o ≡ arguments_move stack.old called) }
{
    if takes_class(&called.name.text) {
        Ok(Action::Read(State::ClassName { called }))
    } else {
        let values = Seq::new(alloc);
        open(stack, Frame::Arguments { called, values })
    }
}

/// A symbol behind a whole path.
fn after_path(
    alloc: Global,
    stack: &mut Stack,
    path: Path,
    terminal: Terminal,
) -> Result<Action, NoMemory>
    ensures { IfOk result (λ o. made stack.new o ≡ after_path_move stack.old path terminal.symbol terminal.span) }
{
    let whole = path.span;
    let base = base_of(alloc, Expr::Named { path }, whole)?;
    after(alloc, stack, base, terminal)
}

/// `(` behind a path: one name is a call.
#[tactic(auto, using(crate::proofs::PathLaws::more_names))]
fn call_path(alloc: Global, stack: &mut Stack, path: Path, span: Span) -> Result<Action, NoMemory>
    ensures { IfOk result (λ o. made stack.new o ≡ path_move stack.old path symbols.OpenParenthesis span) }
{
    let whole = path.span;
    match only_name(path.names) {
        Ok(name) => arguments(
            alloc,
            stack,
            CallHead {
                before: Before::Nothing,
                name,
            },
        ),
        Err(names) => {
            let path = Path { names, span: whole };
            let symbol = Symbol::OpenParenthesis;
            after_path(alloc, stack, path, Terminal { symbol, span })
        }
    }
}

/// A symbol behind a name of a path.
#[tactic(auto, using(crate::proofs::PathLaws::next_name, crate::proofs::PathLaws::path_ends))]
pub(crate) fn on_path(
    alloc: Global,
    stack: &mut Stack,
    path: Path,
    terminal: Terminal,
) -> Result<Action, NoMemory>
    ensures { IfOk result (λ o. made stack.new o ≡ path_move stack.old path terminal.symbol terminal.span) }
{
    let Terminal { symbol, span } = terminal;
    match symbol {
        Symbol::OpenParenthesis => call_path(alloc, stack, path, span),
        Symbol::DoubleColon => {
            if path.names.len() < PATH_NAMES {
                Ok(Action::Read(State::PathName { path }))
            } else {
                let symbol = Symbol::DoubleColon;
                after_path(alloc, stack, path, Terminal { symbol, span })
            }
        }
        other => after_path(
            alloc,
            stack,
            path,
            Terminal {
                symbol: other,
                span,
            },
        ),
    }
}

/// A symbol behind `.name`.
pub(crate) fn dotted(
    alloc: Global,
    stack: &mut Stack,
    head: PostfixHead,
    terminal: Terminal,
) -> Result<Action, NoMemory>
    ensures { IfOk result (λ o. made stack.new o ≡ dotted_move stack.old head.base head.start head.name terminal.symbol terminal.span) }
{
    let Terminal { symbol, span } = terminal;
    let PostfixHead { base, start, name } = head;
    match symbol {
        Symbol::OpenParenthesis => {
            let before = Before::Dot { base, start };
            arguments(alloc, stack, CallHead { before, name })
        }
        other => {
            let end = name.span.end;
            let base = with_postfix(base, Postfix::Property { name }, end)?;
            after(
                alloc,
                stack,
                base,
                Terminal {
                    symbol: other,
                    span,
                },
            )
        }
    }
}

/// A symbol behind a name of the class of a call.
pub(crate) fn class_path(
    alloc: Global,
    called: CallHead,
    path: Path,
    terminal: Terminal,
) -> Result<Action, NoMemory>
    ensures { IfOk result (λ o. (stack : List AnyFrame) → made stack o ≡ class_move stack called path terminal.symbol terminal.span) }
{
    let Terminal { symbol, span } = terminal;
    let action = match &symbol {
        Symbol::DoubleColon if path.names.len() < CLASS_NAMES => {
            Ok(Action::Read(State::ClassNext { called, path }))
        }
        Symbol::CloseParenthesis => behind_call(alloc, called, Args::Class { path }, span.end),
        _ => {
            drop(called);
            drop(path);
            Ok(Action::Refused)
        }
    };
    drop(symbol);
    action
}

/// A symbol behind `->name(`: a name may be a variable.
pub(crate) fn arrow_first(
    alloc: Global,
    stack: &mut Stack,
    head: PostfixHead,
    terminal: Terminal,
) -> Result<Action, NoMemory>
    ensures { IfOk result (λ o. made stack.new o ≡ first_move stack.old head.base head.start head.name terminal.symbol terminal.span) }
{
    let Terminal { symbol, span } = terminal;
    let PostfixHead { base, start, name } = head;
    match symbol {
        Symbol::Name(variable) => {
            let iterated = Iterated {
                base,
                start,
                name,
                variable,
            };
            Ok(Action::Read(State::ArrowSecond { iterated }))
        }
        other => {
            let called = CallHead {
                before: Before::Arrow { base, start },
                name,
            };
            first_argument(
                alloc,
                stack,
                called,
                Terminal {
                    symbol: other,
                    span,
                },
            )
        }
    }
}

/// The first symbol of arguments.
fn first_argument(
    alloc: Global,
    stack: &mut Stack,
    called: CallHead,
    terminal: Terminal,
) -> Result<Action, NoMemory>
    ensures { IfOk result (λ o. made stack.new o ≡ (if class_taken called.name.text then refused stack.old else operand_move (frames.Arguments called [] ∷ stack.old) terminal.symbol terminal.span)) }
{
    if takes_class(&called.name.text) {
        drop(called);
        drop(terminal);
        Ok(Action::Refused)
    } else {
        let values = Seq::new(alloc);
        or_drop!(stack.push(Frame::Arguments { called, values }); terminal);
        operand(alloc, stack, terminal)
    }
}

/// A symbol behind the first name of arguments.
fn first_path(
    alloc: Global,
    stack: &mut Stack,
    called: CallHead,
    path: Path,
    terminal: Terminal,
) -> Result<Action, NoMemory>
    ensures { IfOk result (λ o. made stack.new o ≡ (if class_taken called.name.text then class_move stack.old called path terminal.symbol terminal.span else path_move (frames.Arguments called [] ∷ stack.old) path terminal.symbol terminal.span)) }
{
    if takes_class(&called.name.text) {
        class_path(alloc, called, path, terminal)
    } else {
        let values = Seq::new(alloc);
        or_drop!(stack.push(Frame::Arguments { called, values }); path, terminal);
        on_path(alloc, stack, path, terminal)
    }
}

/// A symbol behind `->name(variable`: it is one where `:` or `|` follows.
pub(crate) fn arrow_second(
    alloc: Global,
    stack: &mut Stack,
    iterated: Iterated,
    terminal: Terminal,
) -> Result<Action, NoMemory>
    ensures { IfOk result (λ o. made stack.new o ≡ second_move stack.old iterated terminal.symbol terminal.span) }
{
    let Terminal { symbol, span } = terminal;
    match symbol {
        Symbol::Colon => open_type(stack, Frame::VariableType { iterated }),
        Symbol::Bar => open(stack, Frame::Body { iterated, ty: None }),
        other => {
            let Iterated {
                base,
                start,
                name,
                variable,
            } = iterated;
            let called = CallHead {
                before: Before::Arrow { base, start },
                name,
            };
            let path = or_drop!(path_of(alloc, variable); called, other);
            first_path(
                alloc,
                stack,
                called,
                path,
                Terminal {
                    symbol: other,
                    span,
                },
            )
        }
    }
}
