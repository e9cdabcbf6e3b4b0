ghost use Rattle.std.specs.Prelude.{◌≡◌};
ghost use Rattle.ocl_environments.specs.Environments.{is_over as over, is_single_value as single, is_flat as flat, class_of as class, is_type as typed, are_types as all_typed};

use mof_metamodel::{ClassId, MetaModel};
use qv_syntax::Ty;

/// Whether each class and each enumeration of the type is one of these metamodels.
pub(crate) fn is_over(metas: &[MetaModel], ty: &Ty) -> bool
    ensures { result ≡ over metas.now ty.now }
{
    match ty {
        Ty::Enum(m, e) => {
            let m = *m as usize;
            m < metas.len() && e.0 < metas[m].enum_count()
        }
        Ty::Class(m, c) => {
            let m = *m as usize;
            m < metas.len() && c.0 < metas[m].class_count()
        }
        Ty::Coll(_, of) => is_over(metas, of.get()),
        _ => true,
    }
}

/// Whether values of the type are single ones: no collections, and not null alone.
pub(crate) fn is_single_value(ty: &Ty) -> bool
    ensures { result ≡ single ty.now }
{
    match ty {
        Ty::Coll(_, _) | Ty::Null => false,
        _ => true,
    }
}

/// Whether values of the type are single ones or collections of these.
pub(crate) fn is_flat(ty: &Ty) -> bool
    ensures { result ≡ flat ty.now }
{
    match ty {
        Ty::Coll(_, of) => is_single_value(of.get()),
        Ty::Null => false,
        _ => true,
    }
}

/// Whether a variable may have the type.
pub(crate) fn is_type(metas: &[MetaModel], ty: &Ty) -> bool
    ensures { result ≡ typed metas.now ty.now }
{
    is_over(metas, ty) && is_flat(ty)
}

/// The number of the metamodel and the class of a class type.
pub fn class_of(ty: &Ty) -> Option<(u32, ClassId)>
    ensures { result ≡ class ty.now }
{
    match ty {
        Ty::Class(m, c) => Some((*m, *c)),
        _ => None,
    }
}

/// Whether a variable may have each of the types.
pub(crate) fn are_types(metas: &[MetaModel], types: &[Ty]) -> bool
    ensures { result ≡ all_typed metas.now types.now }
{
    types.iter().all(|ty| is_type(metas, ty))
}
