ghost use Rattle.std.specs.Prelude.{◌≡◌, [], ◌∷◌, length, IfOk, MatchResult};
ghost use Rattle.ocl_parser.specs.declared.state.Action.TheVariants as actions;
ghost use Rattle.ocl_parser.specs.declared.state.State.TheVariants as states;
ghost use Rattle.ocl_parser.specs.Moves.{base_of as base_meant, called_by as called_meant, chained as chain_meant, extended as path_meant, infixed as infix_meant, subtree_of as subtree_meant, path_of as first_path, with_args as args_meant, with_body as body_meant, with_postfix as postfix_meant};

use crate::frame::{Base, Before, CallHead, Iterated, Subtree};
use crate::state::{Action, State};
use mof_metamodel::{Boxed, NoMemory, Seq, Span};
use qv_syntax::{Args, Expr, Infix, Name, Operator, Path, Postfix, TypeTree};
use std::alloc::Global;

/// A part that binds tightest, with no calls on it yet.
pub(crate) fn base_of(alloc: Global, of: Expr, span: Span) -> Result<Base, NoMemory>
    ensures { IfOk result (λ b. b ≡ base_meant of span) }
{
    Ok(Base {
        of: Boxed::new(alloc, of)?,
        steps: Seq::new(alloc),
        span,
    })
}

/// Goes on behind a part that binds tightest.
pub(crate) fn behind_base(alloc: Global, of: Expr, span: Span) -> Result<Action, NoMemory>
    ensures { IfOk result (λ o. o ≡ actions.Read (states.After (base_meant of span))) }
{
    let base = base_of(alloc, of, span)?;
    Ok(Action::Read(State::After { base }))
}

/// The part with one more call, which ends at this place.
pub(crate) fn with_postfix(base: Base, step: Postfix, end: usize) -> Result<Base, NoMemory>
    ensures { IfOk result (λ b. b ≡ postfix_meant base step end) }
{
    let Base {
        of,
        mut steps,
        span,
    } = base;
    steps.push(step)?;
    Ok(Base {
        of,
        steps,
        span: Span {
            start: span.start,
            end,
        },
    })
}

/// The part with its calls.
#[tactic(auto, using(crate::proofs::PartLaws::called_subtree))]
pub(crate) fn subtree_of(alloc: Global, base: Base) -> Result<Subtree, NoMemory>
    ensures { IfOk result (λ p. p ≡ subtree_meant base) }
{
    let Base { of, steps, span } = base;
    if steps.is_empty() {
        return Ok(Subtree { tree: of, span });
    }
    let tree = Boxed::new(
        alloc,
        Expr::Calls {
            of,
            calls: steps,
            span,
        },
    )?;
    Ok(Subtree { tree, span })
}

/// A path of one name.
pub(crate) fn path_of(alloc: Global, name: Name) -> Result<Path, NoMemory>
    ensures { IfOk result (λ p. p ≡ first_path name) }
{
    let span = name.span;
    let mut names = Seq::new(alloc);
    names.push(name)?;
    Ok(Path { names, span })
}

/// The path with one more name.
pub(crate) fn extended(path: Path, name: Name) -> Result<Path, NoMemory>
    ensures { IfOk result (λ p. p ≡ path_meant path name) }
{
    let Path { mut names, span } = path;
    let span = Span {
        start: span.start,
        end: name.span.end,
    };
    names.push(name)?;
    Ok(Path { names, span })
}

/// The only name, or else the names.
pub(crate) fn only_name(names: Seq<Name>) -> Result<Name, Seq<Name>>
    ensures { MatchResult result (λ name. names ≡ name ∷ []) (λ back. (back ≡ names) × (length names ≡ 1 → ⊥)) }
{
    let mut names = names;
    if names.len() == 1
        && let Some(name) = names.pop()
    {
        return Ok(name);
    }
    Err(names)
}

/// A call with its arguments, which ends at this place.
fn called_by(
    alloc: Global,
    before: Before,
    name: Name,
    args: Args,
    end: usize,
) -> Result<Base, NoMemory>
    ensures { IfOk result (λ b. b ≡ called_meant before name args end) }
{
    match before {
        Before::Nothing => {
            let span = Span {
                start: name.span.start,
                end,
            };
            base_of(alloc, Expr::Call { name, args, span }, span)
        }
        Before::Dot { base, start } => {
            let span = Span { start, end };
            with_postfix(base, Postfix::Dot { name, args, span }, end)
        }
        Before::Arrow { base, start } => {
            let span = Span { start, end };
            with_postfix(base, Postfix::Arrow { name, args, span }, end)
        }
    }
}

/// Goes on behind a call with its arguments.
pub(crate) fn behind_call(
    alloc: Global,
    called: CallHead,
    args: Args,
    end: usize,
) -> Result<Action, NoMemory>
    ensures { IfOk result (λ o. o ≡ actions.Read (states.After (args_meant called args end))) }
{
    let CallHead { before, name } = called;
    let base = called_by(alloc, before, name, args, end)?;
    Ok(Action::Read(State::After { base }))
}

/// Goes on behind an iterator with its body.
pub(crate) fn behind_body(
    iterated: Iterated,
    ty: Option<TypeTree>,
    body: Boxed<Expr>,
    end: usize,
) -> Result<Action, NoMemory>
    ensures { IfOk result (λ o. o ≡ actions.Read (states.After (body_meant iterated ty body end))) }
{
    let Iterated {
        base,
        start,
        name,
        variable,
    } = iterated;
    let step = Postfix::Iterator {
        name,
        variable,
        ty,
        body,
        span: Span { start, end },
    };
    let base = with_postfix(base, step, end)?;
    Ok(Action::Read(State::After { base }))
}

/// An operator and the part behind it.
pub(crate) fn infixed(operator: Operator, right: Subtree) -> Infix
    ensures { result ≡ infix_meant operator right.tree }
{
    Infix {
        operator,
        right: right.tree.into_inner(),
    }
}

/// A row with its last part.
pub(crate) fn chained(
    alloc: Global,
    first: Subtree,
    rest: Seq<Infix>,
    operator: Operator,
    right: Subtree,
) -> Result<Subtree, NoMemory>
    ensures { IfOk result (λ p. p ≡ chain_meant first rest operator right) }
{
    let mut rest = rest;
    let span = Span {
        start: first.span.start,
        end: right.span.end,
    };
    rest.push(infixed(operator, right))?;
    let first = first.tree;
    let tree = Boxed::new(alloc, Expr::Chain { first, rest, span })?;
    Ok(Subtree { tree, span })
}
