ghost use Rattle.std.specs.Prelude.{◌≡◌, ◌↔◌, IsTrue, IfOk};

use crate::type_tree::Kind;
use mof_metamodel::{Boxed, ClassId, EnumId, NoMemory};
use std::alloc::Global;

/// A type (OCL 2.4, section 11). Enumerations and classes go by the number of their metamodel and their own.
#[derive(Drop)]
pub enum Ty {
    /// `String`
    Str,
    /// `Integer`
    Int,
    /// `Boolean`
    Bool,
    /// An enumeration of a metamodel.
    Enum(u32, EnumId),
    /// A class of a metamodel.
    Class(u32, ClassId),
    /// A collection.
    Coll(Kind, Boxed<Ty>),
    /// The type of `null` and of `invalid`.
    Null,
}

/// Whether two kinds are one.
fn is_kind(a: &Kind, b: &Kind) -> bool
    ensures { IsTrue result ↔ (a.now ≡ b.now) }
{
    *a == *b
}

/// Whether two enumerations are one.
fn is_enumeration(a: (u32, EnumId), b: (u32, EnumId)) -> bool
    ensures { IsTrue result ↔ (a ≡ b) }
{
    a == b
}

/// Whether two classes are one.
fn is_class(a: (u32, ClassId), b: (u32, ClassId)) -> bool
    ensures { IsTrue result ↔ (a ≡ b) }
{
    a == b
}

impl Ty {
    /// Another of the same type.
    pub fn duplicate(&self, alloc: Global) -> Result<Ty, NoMemory>
        ensures { IfOk result (λ t. t ≡ self.now) }
    {
        match self {
            Ty::Str => Ok(Ty::Str),
            Ty::Int => Ok(Ty::Int),
            Ty::Bool => Ok(Ty::Bool),
            Ty::Enum(meta, id) => Ok(Ty::Enum(*meta, *id)),
            Ty::Class(meta, id) => Ok(Ty::Class(*meta, *id)),
            Ty::Coll(kind, of) => {
                let of = of.get().duplicate(alloc)?;
                Ok(Ty::Coll(*kind, Boxed::new(alloc, of)?))
            }
            Ty::Null => Ok(Ty::Null),
        }
    }

    /// Whether two types are one.
    pub fn same(&self, other: &Ty) -> bool
        ensures { IsTrue result ↔ (self.now ≡ other.now) }
    {
        match (self, other) {
            (Ty::Str, Ty::Str) => true,
            (Ty::Int, Ty::Int) => true,
            (Ty::Bool, Ty::Bool) => true,
            (Ty::Enum(m, e), Ty::Enum(n, f)) => is_enumeration((*m, *e), (*n, *f)),
            (Ty::Class(m, c), Ty::Class(n, d)) => is_class((*m, *c), (*n, *d)),
            (Ty::Coll(k, a), Ty::Coll(l, b)) => is_kind(k, l) && a.get().same(b.get()),
            (Ty::Null, Ty::Null) => true,
            _ => false,
        }
    }
}
