ghost use Rattle.std.specs.Prelude.{◌≡◌, true, false, is_some, map, All, IfOk, Some};
ghost use Rattle.std.specs.List.{AllZip};
ghost use Rattle.std.specs.Option.{option_map};
ghost use Rattle.mof_metamodel.specs.NameTables.{value_of};
ghost use Rattle.ocl_environments.specs.Written.{IfFault};
ghost use Rattle.script_scopes.specs.Environments.{place_of as place};
ghost use Rattle.script_variables.specs.Variables.{IsVarOf, LacksModel, IsModelFault};

use mof_metamodel::{NameTable, NoMemory, Seq, Text};
use ocl_environments::{TypeError, TypeFault};
use qv_syntax::{Ty, Var};
use script_scopes::{ModelNames, is_class, place_of, printed};
use std::alloc::Global;

/// The number of an object variable's model, if it has one.
fn model_number(
    models: &NameTable<Text>,
    names: &ModelNames,
    name: &Text,
) -> Result<Option<u32>, NoMemory>
    ensures { IfOk result (λ number. number ≡ option_map (λ m. place m (map (λ e. e.0) names.now.models)) (value_of models.now name.now)) }
{
    match models.get(name.as_str()) {
        Some(model) => Ok(Some(place_of(&names.models, model)?)),
        None => Ok(None),
    }
}

/// A variable of this type, with the number of its model, if it is one of objects.
fn with_type(
    alloc: Global,
    types: &NameTable<Ty>,
    models: &NameTable<Text>,
    names: &ModelNames,
    name: &Text,
    ty: &Ty,
) -> Result<Var, TypeError>
    requires { value_of types.now name.now ≡ Some ty.now }
    ensures var { IfOk result (IsVarOf types.now models.now (map (λ e. e.0) names.now.models) name.now) }
    ensures fault { IfFault result (LacksModel types.now models.now name.now) }
{
    let text = printed(alloc, name)?;
    if !is_class(ty) {
        return Ok(Var {
            name: text,
            ty: ty.duplicate(alloc)?,
            model: None,
        });
    }
    match model_number(models, names, name)? {
        Some(number) => Ok(Var {
            name: text,
            ty: ty.duplicate(alloc)?,
            model: Some(number),
        }),
        None => Err(TypeError::Fault(TypeFault::Unbound(text))),
    }
}

/// A variable with its type, and the number of its model, if it is one of objects.
fn variable(
    alloc: Global,
    types: &NameTable<Ty>,
    models: &NameTable<Text>,
    names: &ModelNames,
    name: &Text,
) -> Result<Var, TypeError>
    requires { is_some (value_of types.now name.now) ≡ true }
    ensures var { IfOk result (IsVarOf types.now models.now (map (λ e. e.0) names.now.models) name.now) }
    ensures fault { IfFault result (LacksModel types.now models.now name.now) }
{
    match types.get(name.as_str()) {
        Some(ty) => with_type(alloc, types, models, names, name, ty),
        None => unreachable!(),
    }
}

/// Variables with their types and models, in the order of their names.
pub(crate) fn variables(
    alloc: Global,
    types: &NameTable<Ty>,
    models: &NameTable<Text>,
    names: &ModelNames,
    listed: &[Text],
) -> Result<Seq<Var>, TypeError>
    requires { All (λ name. is_some (value_of types.now name) ≡ true) listed.now }
    ensures vars { IfOk result (AllZip (IsVarOf types.now models.now (map (λ e. e.0) names.now.models)) listed.now) }
    ensures fault { IfFault result (IsModelFault types.now models.now listed.now) }
{
    let mut out = Seq::new(alloc);
    for name in listed {
        let var = variable(alloc, types, models, names, name)?;
        out.push(var)?;
    }
    Ok(out)
}
