ghost use Rattle.std.specs.Prelude.{◌≡◌, false, IfOk, OnOk};
ghost use Rattle.ocl_environments.specs.Environments.{is_bound as bound};
ghost use Rattle.ocl_environments.specs.Scopes.{in_reach};
ghost use Rattle.ocl_environments.specs.Naming.{names_of};
ghost use Rattle.ocl_environments.specs.Classifiers.{named_literal};
ghost use Rattle.ocl_types.specs.TypingScopes.{variable_part as variable_of, literal_by, path_part as path_of, element as element_of, flat as flat_of, declared_type as declared_by, let_type as type_of_let, let_part as part_of_let};
ghost use Rattle.mof_metamodel.specs.Giving.{Gives};
ghost use Rattle.ocl_environments.specs.Written.{fault_in};

use crate::trees::boxed_tree;
use mof_metamodel::{MetaModel, NoMemory, Text, or_drop};
use ocl_environments::{
    Env, Scope, TypeError, TypedPart, Variable, collection_parts, free_name, unknown_name,
    unknown_path, written_type, wrong_type,
};
use qv_syntax::{Node, Path, Ty, TypeTree};
use std::alloc::Global;

/// A variable that is in reach.
fn variable_part(alloc: Global, scope: &Scope<'_>, name: &Text) -> Result<TypedPart, TypeError>
    ensures { Gives fault_in (λ x. x) result (variable_of (in_reach scope.now) name.now) }
{
    match scope.variable(name) {
        Some((number, variable)) => {
            let ty = variable.ty.duplicate(alloc)?;
            Ok(TypedPart {
                ty,
                model: variable.model,
                node: Node::Variable { number },
            })
        }
        None => Err(TypeError::Fault(unknown_name(alloc, name.as_str())?)),
    }
}

/// A literal of an enumeration.
fn literal_part(alloc: Global, env: &Env<'_>, path: &Path) -> Result<TypedPart, TypeError>
    ensures { Gives fault_in (λ x. x) result (literal_by (names_of path.now) (named_literal env.now (names_of path.now))) }
{
    match env.named_literal(path) {
        Some((meta, enumeration, literal)) => Ok(TypedPart {
            ty: Ty::Enum(meta, enumeration),
            model: None,
            node: Node::EnumLiteral {
                meta,
                enumeration,
                literal,
            },
        }),
        None => Err(TypeError::Fault(unknown_path(alloc, path)?)),
    }
}

/// What a path is: a name alone is a variable, and a longer one is a literal of an enumeration.
#[tactic(auto, unfolding(crate::specs::TypingScopes::path_part))]
pub(crate) fn path_part(
    alloc: Global,
    scope: &Scope<'_>,
    path: &Path,
) -> Result<TypedPart, TypeError>
    ensures { Gives fault_in (λ x. x) result (path_of (in_reach scope.now) path.now) }
{
    match path.names.as_slice() {
        [] => literal_part(alloc, scope.env(), path),
        [name] => variable_part(alloc, scope, &name.text),
        [_, _, ..] => literal_part(alloc, scope.env(), path),
    }
}

/// The type of an element: no collection.
pub(crate) fn element(alloc: Global, metas: &[MetaModel], ty: &Ty) -> Result<Ty, TypeError>
    ensures { Gives fault_in (λ x. x) result (element_of metas.now ty.now) }
{
    match collection_parts(ty) {
        None => Ok(ty.duplicate(alloc)?),
        Some((_, inner)) => Err(TypeError::Fault(wrong_type(alloc, metas, inner, ty)?)),
    }
}

/// A type that isn't a collection of collections.
fn flat(alloc: Global, metas: &[MetaModel], ty: &Ty) -> Result<Ty, TypeError>
    ensures { Gives fault_in (λ x. x) result (flat_of metas.now ty.now) }
{
    match collection_parts(ty) {
        None => Ok(ty.duplicate(alloc)?),
        Some((_, inner)) => {
            element(alloc, metas, inner)?;
            Ok(ty.duplicate(alloc)?)
        }
    }
}

/// The type that is written for a variable.
pub(crate) fn declared_type(alloc: Global, env: &Env<'_>, tree: &TypeTree) -> Result<Ty, TypeError>
    ensures { Gives fault_in (λ x. x) result (declared_by env.now tree.now) }
{
    let ty = written_type(alloc, env, tree)?;
    flat(alloc, env.metas(), &ty)
}

/// The type of the variable of a `let`, before its value is typed.
pub(crate) fn let_type(
    alloc: Global,
    scope: &Scope<'_>,
    name: &Text,
    tree: &TypeTree,
) -> Result<Ty, TypeError>
    ensures given { Gives fault_in (λ x. x) result (type_of_let (in_reach scope.now) name.now tree.now) }
    ensures unbound { OnOk result (bound (in_reach scope.now) name.now ≡ false) }
{
    free_name(alloc, scope, name)?;
    declared_type(alloc, scope.env(), tree)
}

/// The whole `let`, of the number of its variable.
#[tactic(auto, unfolding(crate::specs::TypingScopes::let_part))]
pub(crate) fn let_part(
    alloc: Global,
    number: u32,
    value: TypedPart,
    body: TypedPart,
) -> Result<TypedPart, NoMemory>
    ensures { IfOk result (λ p. p ≡ part_of_let number value body) }
{
    let ty = or_drop!(body.ty.duplicate(alloc); value, body);
    let model = body.model;
    let value = or_drop!(boxed_tree(alloc, value); ty, body);
    let body = or_drop!(boxed_tree(alloc, body); ty, value);
    Ok(TypedPart {
        ty,
        model,
        node: Node::Let {
            variable: number,
            value,
            body,
        },
    })
}
