ghost use Rattle.std.specs.Prelude.{◌≡◌, Some, IsTrue, IfOk, OnOk};
ghost use Rattle.ocl_environments.specs.Environments.{is_over};
ghost use Rattle.ocl_environments.specs.Written.{IfFault};
ghost use Rattle.script_scopes.specs.BorrowedPieces.{shown_property};
ghost use Rattle.script_scopes.specs.ResolvedTemplates.{class_named as class_of_path};
ghost use Rattle.qvtr_types.specs.TemplatePieces.{IsItemProperty, LacksProperty, IsUnknownClass, IsValueOf, HasValue, StandsInValue, IsNested, StandsInNested};

use crate::domain_scope::DomainScope;
use crate::expressions::{WantedValue, refuse_unrelated, type_given};
use mof_metamodel::{ClassId, PropId, Text};
use ocl_environments::{TypeError, TypeFault, path_text};
use ocl_types::type_whole;
use qv_syntax::{Expr, ItemValue, Path, Ty};
use script_scopes::{BorrowedProperty, is_null};
use std::alloc::Global;

/// The property of an item, of a template of this class, and the type of its values.
pub(crate) fn item_property(
    alloc: Global,
    scope: &DomainScope<'_>,
    class: ClassId,
    at: BorrowedProperty<'_>,
) -> Result<(PropId, Ty), TypeError>
    requires { class_of_path scope.now at.class.now ≡ Some class }
    ensures is { IfOk result (λ p. IsItemProperty scope.now (shown_property at.entry) class p.0 p.1) }
    ensures fault { IfFault result (LacksProperty scope.now (shown_property at.entry)) }
{
    match scope.property(class, at.name) {
        Some(found) => Ok(found),
        None => {
            let text = at.name.duplicate(alloc)?;
            Err(TypeError::Fault(TypeFault::UnknownName(text)))
        }
    }
}

/// What an item asks for at a property of this type and name, where it is an expression.
pub(crate) fn item_value(
    alloc: Global,
    scope: &DomainScope<'_>,
    of: &Ty,
    name: &Text,
    e: &Expr,
) -> Result<ItemValue, TypeError>
    requires { IsTrue (is_over scope.now.env.metas of.now) }
    ensures is { IfOk result (HasValue scope.now e.now) }
    ensures meant { OnOk result (IsValueOf scope.now of.now e.now) }
    ensures fault { IfFault result (StandsInValue scope.now of.now name.now e.now) }
{
    let env = scope.env();
    if is_null(e) {
        let typed = type_whole(alloc, env, e)?;
        drop(typed);
        return Ok(ItemValue::Null);
    }
    let wanted = WantedValue {
        ty: of,
        model: Some(scope.model()),
        name,
    };
    let value = type_given(alloc, env, &wanted, e)?;
    Ok(ItemValue::Expr { value })
}

/// The class of a template.
pub(crate) fn template_class_of(
    alloc: Global,
    scope: &DomainScope<'_>,
    path: &Path,
) -> Result<ClassId, TypeError>
    ensures class { IfOk result (λ class. class_of_path scope.now path.now ≡ Some class) }
    ensures fault { IfFault result (IsUnknownClass scope.now path.now) }
{
    match scope.class_named(path) {
        Some(class) => Ok(class),
        None => {
            let text = path_text(alloc, path)?;
            Err(TypeError::Fault(TypeFault::UnknownName(text)))
        }
    }
}

/// The class of a template that is the value at a property of this type.
pub(crate) fn nested_class(
    alloc: Global,
    scope: &DomainScope<'_>,
    of: &Ty,
    path: &Path,
) -> Result<ClassId, TypeError>
    requires { IsTrue (is_over scope.now.env.metas of.now) }
    ensures class { IfOk result (λ class. class_of_path scope.now path.now ≡ Some class) }
    ensures is { IfOk result (IsNested scope.now of.now path.now) }
    ensures fault { IfFault result (StandsInNested scope.now of.now path.now) }
{
    let class = template_class_of(alloc, scope, path)?;
    let found = Ty::Class(scope.meta(), class);
    refuse_unrelated(alloc, scope.env().metas(), of, &found)?;
    Ok(class)
}
