//! The models of the transformation.
ghost use Rattle.std.specs.Prelude.{◌≡◌, [], ◌∷◌, ◌++◌, IsTrue, IfOk, OnOk};
ghost use Rattle.example_models.specs.Descriptions.{is_ascii};
ghost use Rattle.example_program.specs.MainProgram.{main_models};

use crate::variables::ascii;
use mof_metamodel::{NoMemory, Seq, or_drop};
use qv_syntax::ModelSlot;
use std::alloc::Global;

/// The number of the source, and of its metamodel.
pub(crate) const SOURCE: u32 = 0;

/// The number of the target, and of its metamodel.
pub(crate) const TARGET: u32 = 1;

/// Puts a model behind others.
fn push_model(
    alloc: Global,
    models: &mut Seq<ModelSlot>,
    name: &str,
    meta: u32,
) -> Result<(), NoMemory>
    requires { IsTrue (is_ascii name.now) }
    ensures { OnOk result (models.new ≡ models.old ++ record { name = name.now; meta = meta } ∷ []) }
{
    let name = ascii(alloc, name)?;
    models.push(ModelSlot { name, meta })
}

/// The models of the transformation.
pub(crate) fn main_models(alloc: Global) -> Result<Seq<ModelSlot>, NoMemory>
    ensures { IfOk result (λ models. models ≡ main_models) }
{
    let mut models = Seq::new(alloc);
    or_drop!(push_model(alloc, &mut models, "uml", SOURCE); models);
    or_drop!(push_model(alloc, &mut models, "rdb", TARGET); models);
    Ok(models)
}
