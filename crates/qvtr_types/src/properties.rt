ghost use Rattle.std.specs.Prelude.{◌≡◌, ◌<◌, Some, IfSome};
ghost use Rattle.std.specs.Option.{option_map};
ghost use Rattle.mof_metamodel.specs.Metamodels.{prop_number, prop_count, type_of};
ghost use Rattle.ocl_environments.specs.Environments.{meta_at};
ghost use Rattle.ocl_environments.specs.Navigation.{value_type};
ghost use Rattle.qvtr_types.specs.ClassPlaces.{IsClassAt};

use mof_metamodel::{ClassId, MetaModel, PropId, Text};
use ocl_environments::prop_type;
use qv_syntax::Ty;

/// The property of this name of a class, inherited ones included.
pub(crate) fn prop_named(metas: &[MetaModel], class: (u32, ClassId), name: &Text) -> Option<PropId>
    requires { IsClassAt metas.now class }
    ensures number { option_map (λ p. p.0) result ≡ prop_number (meta_at metas.now class.0) class.1.0 name.now }
    ensures within { IfSome result (λ p. p.0 < prop_count (meta_at metas.now class.0)) }
{
    metas[class.0 as usize].prop_of(class.1, name.as_str())
}

/// The same with the type of its values.
pub(crate) fn typed_prop(
    metas: &[MetaModel],
    class: (u32, ClassId),
    name: &Text,
) -> Option<(PropId, Ty)>
    requires { IsClassAt metas.now class }
    ensures number { option_map (λ p. p.0.0) result ≡ prop_number (meta_at metas.now class.0) class.1.0 name.now }
    ensures typed { IfSome result (λ p. option_map (value_type class.0) (type_of (meta_at metas.now class.0) p.0.0) ≡ Some p.1) }
{
    let prop = prop_named(metas, class, name)?;
    let ty = prop_type(class.0, &metas[class.0 as usize], prop);
    Some((prop, ty))
}
