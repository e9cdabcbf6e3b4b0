//! Names and variables.
ghost use Rattle.std.specs.Prelude.{◌≡◌, [], ◌∷◌, ◌++◌, IsTrue, IfOk, OnOk};
ghost use Rattle.example_models.specs.Descriptions.{is_ascii};
ghost use Rattle.example_program.specs.Words.{text_variable, class_of, object_variable};

use mof_metamodel::{ClassId, NoMemory, Seq, Text};
use qv_syntax::{Ty, Var};
use std::alloc::Global;

/// A text of ASCII characters.
#[tactic(auto, using(crate::proofs::AsciiLaws::its_characters))]
pub(crate) fn ascii(alloc: Global, text: &str) -> Result<Text, NoMemory>
    requires { IsTrue (is_ascii text.now) }
    ensures { IfOk result (λ t. t ≡ text.now) }
{
    Text::new(alloc, text)
}

/// The type of the objects of a class of a model's metamodel.
pub(crate) fn class_of(model: u32, class: u32) -> Ty
    ensures { result ≡ class_of model class }
{
    Ty::Class(model, ClassId(class))
}

/// Puts a variable of texts behind others.
pub(crate) fn push_text(alloc: Global, variables: &mut Seq<Var>, name: &str) -> Result<(), NoMemory>
    requires { IsTrue (is_ascii name.now) }
    ensures { OnOk result (variables.new ≡ variables.old ++ text_variable name.now ∷ []) }
{
    let name = ascii(alloc, name)?;
    variables.push(Var {
        name,
        ty: Ty::Str,
        model: None,
    })
}

/// Puts one of objects of a class of a model behind others.
pub(crate) fn push_object(
    alloc: Global,
    variables: &mut Seq<Var>,
    name: &str,
    model: u32,
    class: u32,
) -> Result<(), NoMemory>
    requires { IsTrue (is_ascii name.now) }
    ensures { OnOk result (variables.new ≡ variables.old ++ object_variable name.now model class ∷ []) }
{
    let name = ascii(alloc, name)?;
    variables.push(Var {
        name,
        ty: class_of(model, class),
        model: Some(model),
    })
}
