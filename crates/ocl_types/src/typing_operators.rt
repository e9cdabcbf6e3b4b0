ghost use Rattle.std.specs.Prelude.{◌≡◌, IfOk};
ghost use Rattle.ocl_types.specs.TypingOperators.{both as both_of, compared as compared_by, added as added_by, operated as operated_by, unchained as started, and_linked as linked, link_rule as linked_by, chain_part as chained, not_rule as not_of, negated_rule as negated_of, if_branches as branches_of_if, if_rule as if_of};
ghost use Rattle.qv_syntax.specs.declared.typed.Node.TheVariants as nodes;
ghost use Rattle.ocl_environments.specs.Parts.{tree_of};
ghost use Rattle.mof_metamodel.specs.Giving.{Gives};
ghost use Rattle.ocl_environments.specs.Written.{fault_in};

use crate::trees::boxed_tree;
use mof_metamodel::{MetaModel, NoMemory, Seq, or_drop};
use ocl_environments::{
    Chained, TypeError, TypedPart, are_comparable, branches, exactly, joined_models, model_for,
    one_model, same_type, wrong_type,
};
use qv_syntax::{Node, Operator, Ty, Typed, TypedInfix};
use std::alloc::Global;

/// Whether both types are the wanted one, and what comes then.
fn both(
    alloc: Global,
    metas: &[MetaModel],
    wanted: &Ty,
    left: &Ty,
    right: &Ty,
    gives: Ty,
) -> Result<Ty, TypeError>
    ensures { Gives fault_in (λ x. x) result (both_of metas.now wanted.now left.now right.now gives) }
{
    exactly(alloc, metas, wanted, left)?;
    exactly(alloc, metas, wanted, right)?;
    Ok(gives)
}

/// The type of `=` and `<>` between two types.
fn compared(alloc: Global, metas: &[MetaModel], a: &Ty, b: &Ty) -> Result<Ty, TypeError>
    ensures { Gives fault_in (λ x. x) result (compared_by metas.now a.now b.now) }
{
    if are_comparable(metas, a, b) {
        return Ok(Ty::Bool);
    }
    Err(TypeError::Fault(wrong_type(alloc, metas, a, b)?))
}

/// The type of `+` between two types: Strings or Integers, as the first one is.
fn added(alloc: Global, metas: &[MetaModel], a: &Ty, b: &Ty) -> Result<Ty, TypeError>
    ensures { Gives fault_in (λ x. x) result (added_by metas.now a.now b.now) }
{
    if same_type(a, &Ty::Str) {
        both(alloc, metas, &Ty::Str, a, b, Ty::Str)
    } else {
        both(alloc, metas, &Ty::Int, a, b, Ty::Int)
    }
}

/// The type of an operator between two types.
fn operated(
    alloc: Global,
    metas: &[MetaModel],
    operator: Operator,
    a: &Ty,
    b: &Ty,
) -> Result<Ty, TypeError>
    ensures { Gives fault_in (λ x. x) result (operated_by metas.now operator a.now b.now) }
{
    match operator {
        Operator::Implies | Operator::Xor | Operator::Or | Operator::And => both(
            alloc,
            metas,
            &Ty::Bool,
            a,
            b,
            Ty::Bool,
        ),
        Operator::Equal | Operator::NotEqual => compared(alloc, metas, a, b),
        Operator::Less | Operator::Greater | Operator::AtMost | Operator::AtLeast => both(
            alloc,
            metas,
            &Ty::Int,
            a,
            b,
            Ty::Bool,
        ),
        Operator::Plus => added(alloc, metas, a, b),
        Operator::Minus | Operator::Times => both(alloc, metas, &Ty::Int, a, b, Ty::Int),
    }
}

/// Nothing is joined to the first part yet.
pub(crate) fn unchained(alloc: Global, first: &TypedPart) -> Result<Chained, NoMemory>
    ensures { IfOk result (λ c. c ≡ started first.now) }
{
    let ty = first.ty.duplicate(alloc)?;
    Ok(Chained {
        links: Seq::new(alloc),
        ty,
    })
}

/// A chain with one more operator and the part behind it.
fn and_linked(
    alloc: Global,
    chain: Chained,
    operator: Operator,
    right: TypedPart,
    ty: Ty,
) -> Result<Chained, NoMemory>
    ensures { IfOk result (λ c. c ≡ linked chain operator right ty) }
{
    let reached = or_drop!(ty.duplicate(alloc); chain, right, ty);
    let Chained {
        mut links,
        ty: before,
    } = chain;
    drop(before);
    let TypedPart {
        ty: of_right,
        node,
        ..
    } = right;
    let right = Typed { ty: of_right, node };
    links.push(TypedInfix {
        operator,
        right,
        ty: reached,
    })?;
    Ok(Chained { links, ty })
}

/// A chain with one more operator and the part behind it, if these go together.
#[tactic(auto, unfolding(crate::specs::TypingOperators::link_rule))]
pub(crate) fn link_rule(
    alloc: Global,
    metas: &[MetaModel],
    chain: Chained,
    operator: Operator,
    right: TypedPart,
) -> Result<Chained, TypeError>
    ensures { Gives fault_in (λ x. x) result (linked_by metas.now chain operator right) }
{
    let ty = or_drop!(operated(alloc, metas, operator, &chain.ty, &right.ty); chain, right);
    Ok(and_linked(alloc, chain, operator, right, ty)?)
}

/// The whole chain.
#[tactic(auto, unfolding(crate::specs::TypingOperators::chain_part))]
pub(crate) fn chain_part(
    alloc: Global,
    first: TypedPart,
    chain: Chained,
) -> Result<TypedPart, NoMemory>
    ensures { IfOk result (λ p. p ≡ chained first chain) }
{
    let Chained { links, ty } = chain;
    let model = model_for(&ty, first.model);
    let first = boxed_tree(alloc, first)?;
    Ok(TypedPart {
        ty,
        model,
        node: Node::Chain { first, rest: links },
    })
}

/// `not` of a part.
#[tactic(auto, unfolding(crate::specs::TypingOperators::not_rule))]
pub(crate) fn not_rule(
    alloc: Global,
    metas: &[MetaModel],
    operand: TypedPart,
) -> Result<TypedPart, TypeError>
    ensures { Gives fault_in (λ x. x) result (not_of metas.now operand) }
{
    or_drop!(exactly(alloc, metas, &Ty::Bool, &operand.ty); operand);
    let operand = boxed_tree(alloc, operand)?;
    Ok(TypedPart {
        ty: Ty::Bool,
        model: None,
        node: Node::Not { operand },
    })
}

/// `-` before a part.
#[tactic(auto, unfolding(crate::specs::TypingOperators::negated_rule))]
pub(crate) fn negated_rule(
    alloc: Global,
    metas: &[MetaModel],
    operand: TypedPart,
) -> Result<TypedPart, TypeError>
    ensures { Gives fault_in (λ x. x) result (negated_of metas.now operand) }
{
    or_drop!(exactly(alloc, metas, &Ty::Int, &operand.ty); operand);
    let operand = boxed_tree(alloc, operand)?;
    Ok(TypedPart {
        ty: Ty::Int,
        model: None,
        node: Node::Negated { operand },
    })
}

/// An `if` of this type and model.
fn if_part(
    alloc: Global,
    condition: TypedPart,
    one: TypedPart,
    other: TypedPart,
    ty: Ty,
    model: Option<u32>,
) -> Result<TypedPart, NoMemory>
    ensures { IfOk result (λ p. p ≡ record { ty = ty; model = model; node = nodes.If (tree_of condition) (tree_of one) (tree_of other) }) }
{
    let condition = or_drop!(boxed_tree(alloc, condition); one, other, ty);
    let one = or_drop!(boxed_tree(alloc, one); condition, other, ty);
    let other = or_drop!(boxed_tree(alloc, other); condition, one, ty);
    Ok(TypedPart {
        ty,
        model,
        node: Node::If {
            condition,
            one,
            other,
        },
    })
}

/// The type and the model of the branches of an `if`, if its parts go together.
#[tactic(auto, using(crate::proofs::CharacterLaws::if_characters))]
fn if_branches(
    alloc: Global,
    metas: &[MetaModel],
    condition: &Ty,
    one: &TypedPart,
    other: &TypedPart,
) -> Result<(Ty, Option<u32>), TypeError>
    ensures { Gives fault_in (λ x. x) result (branches_of_if metas.now condition.now one.now other.now) }
{
    exactly(alloc, metas, &Ty::Bool, condition)?;
    let ty = branches(alloc, metas, &one.ty, &other.ty)?;
    let model = one_model(alloc, "if", joined_models(one.model, other.model))?;
    Ok((ty, model))
}

/// The whole `if`.
#[tactic(auto, unfolding(crate::specs::TypingOperators::if_rule))]
pub(crate) fn if_rule(
    alloc: Global,
    metas: &[MetaModel],
    condition: TypedPart,
    one: TypedPart,
    other: TypedPart,
) -> Result<TypedPart, TypeError>
    ensures { Gives fault_in (λ x. x) result (if_of metas.now condition one other) }
{
    let (ty, model) =
        or_drop!(if_branches(alloc, metas, &condition.ty, &one, &other); condition, one, other);
    Ok(if_part(alloc, condition, one, other, ty, model)?)
}
