ghost use Rattle.std.specs.Prelude.{◌≡◌, ◌<◌, Some, IfOk};
ghost use Rattle.std.specs.Option.{option_map};
ghost use Rattle.mof_metamodel.specs.Metamodels.{prop_count, prop_at, type_of};
ghost use Rattle.ocl_environments.specs.Navigation.{value_type as type_of_value, is_single as single, values_of, navigated as navigated_type};

use mof_metamodel::{Boxed, MetaModel, NoMemory, PropId, PropType};
use qv_syntax::{Kind, Ty, Values};
use std::alloc::Global;

/// The type of a value, in the metamodel of number `m`.
fn value_type(m: u32, ty: PropType) -> Ty
    ensures { result ≡ type_of_value m ty }
{
    match ty {
        PropType::Str => Ty::Str,
        PropType::Int => Ty::Int,
        PropType::Bool => Ty::Bool,
        PropType::Enum(e) => Ty::Enum(m, e),
        PropType::Class(c) => Ty::Class(m, c),
    }
}

/// Whether a bound is at most one.
fn is_single(upper: Option<u32>) -> bool
    ensures { result ≡ single upper }
{
    match upper {
        Some(n) => n <= 1,
        None => false,
    }
}

/// What navigation to a property gives: one value, or a collection.
pub fn values(meta: &MetaModel, p: PropId) -> Values
    requires { p.0 < prop_count meta.now }
    ensures { result ≡ values_of (prop_at meta.now p.0) }
{
    let prop = meta.prop(p);
    if is_single(prop.upper) {
        Values::Single
    } else if prop.ordered {
        Values::OrderedSet
    } else {
        Values::Set
    }
}

/// The type of what navigation gives, of the type of one value.
pub fn navigated(alloc: Global, values: Values, ty: Ty) -> Result<Ty, NoMemory>
    ensures { IfOk result (λ t. t ≡ navigated_type values ty) }
{
    match values {
        Values::Single => Ok(ty),
        Values::Set => Ok(Ty::Coll(Kind::Set, Boxed::new(alloc, ty)?)),
        Values::OrderedSet => Ok(Ty::Coll(Kind::OrderedSet, Boxed::new(alloc, ty)?)),
    }
}

/// The type of one value of a property of the metamodel of number `m`.
pub fn prop_type(m: u32, meta: &MetaModel, p: PropId) -> Ty
    requires { p.0 < prop_count meta.now }
    ensures { option_map (type_of_value m) (type_of meta.now p.0) ≡ Some result }
{
    value_type(m, meta.prop(p).ty)
}
