ghost use Rattle.std.specs.Prelude.{◌≡◌, fold};
ghost use Rattle.ocl_environments.specs.Agreement.{higher as higher_of, all_fit as all_fitting};
ghost use Rattle.ocl_environments.specs.Parts.{types_of};
ghost use Rattle.ocl_types.specs.TypingOperators.{literal_type as type_of_literal, literal_rule as literal_of};
ghost use Rattle.mof_metamodel.specs.Giving.{Gives};
ghost use Rattle.ocl_environments.specs.Written.{fault_in};

use crate::typing_scopes::element;
use mof_metamodel::{Boxed, MetaModel, Seq};
use ocl_environments::{
    TypeError, TypedPart, fits, higher, kind_name, one_model, trees_of, with_models, wrong_type,
};
use qv_syntax::{Kind, Node, Ty};
use std::alloc::Global;

/// The highest of the types of parts: the one to which all conform, if there is one.
fn highest<'p>(metas: &[MetaModel], first: &'p Ty, rest: &'p [TypedPart]) -> &'p Ty
    ensures { result.now ≡ fold (higher_of metas.now) first.now (types_of rest.now) }
{
    let mut top = first;
    for part in rest {
        top = higher(metas, top, &part.ty);
    }
    top
}

/// Whether the type of each part conforms to the one.
fn all_fit(
    alloc: Global,
    metas: &[MetaModel],
    top: &Ty,
    parts: &[TypedPart],
) -> Result<Ty, TypeError>
    ensures { Gives fault_in (λ x. x) result (all_fitting metas.now top.now (types_of parts.now)) }
{
    for part in parts {
        if !fits(metas, &part.ty, top) {
            return Err(TypeError::Fault(wrong_type(alloc, metas, top, &part.ty)?));
        }
    }
    Ok(top.duplicate(alloc)?)
}

/// The type of the elements of a collection literal: that of null, where there are none.
fn literal_type(alloc: Global, metas: &[MetaModel], parts: &[TypedPart]) -> Result<Ty, TypeError>
    ensures { Gives fault_in (λ x. x) result (type_of_literal metas.now (types_of parts.now)) }
{
    match parts {
        [] => Ok(Ty::Null),
        [first, rest @ ..] => {
            let top = highest(metas, &first.ty, rest);
            let ty = all_fit(alloc, metas, top, parts)?;
            element(alloc, metas, &ty)
        }
    }
}

/// The whole collection literal.
#[tactic(auto, unfolding(crate::specs::TypingOperators::literal_rule))]
pub(crate) fn literal_rule(
    alloc: Global,
    metas: &[MetaModel],
    kind: Kind,
    elements: Seq<TypedPart>,
) -> Result<TypedPart, TypeError>
    ensures { Gives fault_in (λ x. x) result (literal_of metas.now kind elements) }
{
    let of = literal_type(alloc, metas, elements.as_slice())?;
    let joined = with_models(None, elements.as_slice());
    let model = one_model(alloc, kind_name(kind), joined)?;
    let elements = trees_of(alloc, elements)?;
    let of = Boxed::new(alloc, of)?;
    Ok(TypedPart {
        ty: Ty::Coll(kind, of),
        model,
        node: Node::Coll { kind, elements },
    })
}
