ghost use Rattle.std.specs.Prelude.{◌≡◌, chars, IfOk};
ghost use Rattle.mof_metamodel.specs.Giving.{Gives};
ghost use Rattle.ocl_environments.specs.Written.{fault_in};
ghost use Rattle.ocl_environments.specs.Parts.{tree_of, trees_of as all_trees, with_models as joined_with, one_model as model_alone, and_called as stepped};

use crate::agreement::joined_models;
use crate::fault::TypeError;
use crate::outcomes::model_mix;
use crate::part::{CallsSoFar, TypedPart};
use mof_metamodel::{NoMemory, Seq, or_drop};
use qv_syntax::{Call, Ty, Typed, TypedPostfix};
use std::alloc::Global;

impl TypedPart {
    /// The tree.
    pub fn into_tree(self) -> Typed
        ensures { result ≡ tree_of self }
    {
        Typed {
            ty: self.ty,
            node: self.node,
        }
    }
}

/// The trees of parts.
pub fn trees_of(alloc: Global, parts: Seq<TypedPart>) -> Result<Seq<Typed>, NoMemory>
    ensures { IfOk result (λ trees. trees ≡ all_trees parts) }
{
    let mut trees = Seq::new(alloc);
    for part in parts.into_vec() {
        trees.push(part.into_tree())?;
    }
    Ok(trees)
}

/// The model of objects from these places as well, if there are not two.
pub fn with_models(model: Option<u32>, parts: &[TypedPart]) -> Option<Option<u32>>
    ensures { result ≡ joined_with model parts.now }
{
    let mut joined = model;
    for part in parts {
        joined = joined_models(joined, part.model)?;
    }
    Some(joined)
}

/// The model, or the fault that there are two.
pub fn one_model(
    alloc: Global,
    name: &str,
    joined: Option<Option<u32>>,
) -> Result<Option<u32>, TypeError>
    ensures { Gives fault_in (λ x. x) result (model_alone (chars name.now) joined) }
{
    match joined {
        Some(model) => Ok(model),
        None => Err(TypeError::Fault(model_mix(alloc, name)?)),
    }
}

impl CallsSoFar {
    /// What was called on a part, with one more call.
    pub fn and_called(
        self,
        alloc: Global,
        call: Call,
        ty: Ty,
        model: Option<u32>,
    ) -> Result<CallsSoFar, NoMemory>
        ensures { IfOk result (λ c. c ≡ stepped self call ty model) }
    {
        let CallsSoFar {
            mut calls,
            ty: before,
            model: _,
        } = self;
        drop(before);
        let reached = or_drop!(ty.duplicate(alloc); calls, call, ty);
        or_drop!(calls.push(TypedPostfix { call, ty }); reached, calls);
        Ok(CallsSoFar {
            calls,
            ty: reached,
            model,
        })
    }
}
