ghost use Rattle.std.specs.Prelude.{◌≡◌, ◌<◌};
ghost use Rattle.mof_metamodel.specs.Metamodels.{class_count};
ghost use Rattle.qvtr_semantics.specs.Objects.{is_kind_of};

use mof_metamodel::{ClassId, MetaModel};

/// Whether a class is another or inherits from it (OCL 2.4, section 11.3.1).
pub fn is_kind_of(meta: &MetaModel, class: ClassId, other: ClassId) -> bool
    requires { class.0 < class_count meta.now }
    ensures { result ≡ is_kind_of meta.now class.0 other.0 }
{
    let _count = meta.class_count();
    meta.conforms(class, other)
}
