ghost use Rattle.std.specs.Prelude.{◌≡◌, ◌∷◌, List, true, IfOk, MatchOption};
ghost use Rattle.ocl_parser.specs.Moves.{reduced};
ghost use Rattle.ocl_parser.specs.Answers.{ends as ends_by, left, wrapped as wrapped_by};
ghost use Rattle.ocl_parser.specs.declared.frame.Subtree.{Subtree as AnySubtree};
ghost use Rattle.ocl_parser.specs.declared.frame.Frame.TheVariants as frames;

use crate::frame::{Frame, Subtree};
use crate::parts::chained;
use crate::stack::Stack;
use mof_metamodel::{Boxed, NoMemory, Span};
use qv_syntax::{Expr, Name, TypeTree};
use std::alloc::Global;

/// Whether a construct ends before an operator of the level below this one.
fn ends(level: u8, frame: &Frame) -> bool
    ensures { result ≡ ends_by level frame.now }
{
    match frame {
        Frame::Not { .. } | Frame::Negated { .. } => true,
        Frame::Row { operator, .. } => level <= operator.level(),
        Frame::In { .. } => level == 0,
        _ => false,
    }
}

/// Takes the innermost construct off, if it ends.
fn pop_ended(level: u8, stack: &mut Stack) -> Option<Frame>
    ensures { MatchOption result ((subtree : AnySubtree) → reduced level stack.old subtree ≡ left stack.new subtree) (λ frame. (stack.old ≡ frame ∷ stack.new) × (ends_by level frame ≡ true)) }
{
    match stack.top() {
        Some(frame) => {
            if ends(level, frame) {
                stack.pop()
            } else {
                None
            }
        }
        None => None,
    }
}

/// `not` with its operand.
fn negation(alloc: Global, start: usize, subtree: Subtree) -> Result<Subtree, NoMemory>
    ensures { IfOk result (λ p. p ≡ wrapped_by (frames.Not start) subtree) }
{
    let span = Span {
        start,
        end: subtree.span.end,
    };
    let operand = subtree.tree;
    let tree = Boxed::new(alloc, Expr::Not { operand, span })?;
    Ok(Subtree { tree, span })
}

/// `-` with its operand.
fn negative(alloc: Global, start: usize, subtree: Subtree) -> Result<Subtree, NoMemory>
    ensures { IfOk result (λ p. p ≡ wrapped_by (frames.Negated start) subtree) }
{
    let span = Span {
        start,
        end: subtree.span.end,
    };
    let operand = subtree.tree;
    let tree = Boxed::new(alloc, Expr::Negated { operand, span })?;
    Ok(Subtree { tree, span })
}

/// `let` with its body.
fn binding(
    alloc: Global,
    start: usize,
    name: Name,
    ty: TypeTree,
    value: Boxed<Expr>,
    subtree: Subtree,
) -> Result<Subtree, NoMemory>
    ensures { IfOk result (λ p. p ≡ wrapped_by (frames.In start name ty value) subtree) }
{
    let span = Span {
        start,
        end: subtree.span.end,
    };
    let tree = Expr::Let {
        name,
        ty,
        value,
        body: subtree.tree,
        span,
    };
    let tree = Boxed::new(alloc, tree)?;
    Ok(Subtree { tree, span })
}

/// The construct with its last part.
fn wrapped(alloc: Global, frame: Frame, subtree: Subtree) -> Result<Subtree, NoMemory>
    ensures { IfOk result (λ p. p ≡ wrapped_by frame subtree) }
{
    match frame {
        Frame::Not { start } => negation(alloc, start, subtree),
        Frame::Negated { start } => negative(alloc, start, subtree),
        Frame::Row {
            first,
            rest,
            operator,
        } => chained(alloc, first, rest, operator, subtree),
        Frame::In {
            start,
            name,
            ty,
            value,
        } => binding(alloc, start, name, ty, value, subtree),
        other => {
            drop(other);
            Ok(subtree)
        }
    }
}

/// The part with all that ends before an operator of the level below this one, and at level 0 before all else.
pub(crate) fn reduce(
    alloc: Global,
    level: u8,
    stack: &mut Stack,
    subtree: Subtree,
) -> Result<Subtree, NoMemory>
    ensures { IfOk result (λ p. left stack.new p ≡ reduced level stack.old subtree) }
{
    let mut subtree = subtree;
    while let Some(frame) = pop_ended(level, stack) {
        subtree = wrapped(alloc, frame, subtree)?;
    }
    Ok(subtree)
}
