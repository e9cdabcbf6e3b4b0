ghost use Rattle.std.specs.Prelude.{◌≡◌, ◌<◌, ◌≤◌, ◌^◌, suc, length, Some};
ghost use Rattle.mof_metamodel.specs.Metamodels.{class_count, prop_count, props_of};
ghost use Rattle.object_tables.specs.Models.{index_of};
ghost use Rattle.object_tables.specs.Tied.{near, far, nameless, far_among};

use mof_metamodel::{ClassId, MetaModel, PropId};

/// The place of a property in the class order of a class, or the number of the class's properties.
fn index_of(meta: &MetaModel, class: ClassId, p: PropId) -> usize
    requires { class.0 < class_count meta.now }
    ensures value { result ≡ index_of (props_of meta.now class.0) p.0 }
    ensures within { result ≤ length (props_of meta.now class.0) }
{
    match meta.place_of(class, p) {
        Some(i) => i,
        None => meta.props(class).len(),
    }
}

/// The place of a property of an object of the class.
pub(crate) fn near_place(meta: &MetaModel, class: ClassId, p: PropId) -> u32
    requires class { class.0 < class_count meta.now }
    requires small { suc (suc (length (props_of meta.now class.0))) < 2 ^ 32 }
    ensures { result ≡ near meta.now class.0 p.0 }
{
    index_of(meta, class, p) as u32 + 2
}

/// The far end of a reference without an opposite.
fn nameless_place(meta: &MetaModel, p: PropId) -> u32
    requires { p.0 < prop_count meta.now }
    ensures { result ≡ nameless meta.now p.0 }
{
    if meta.prop(p).composite { 0 } else { 1 }
}

/// The place of an object of the class that a link of the property joins.
pub(crate) fn far_place(meta: &MetaModel, class: ClassId, p: PropId) -> u32
    requires class { class.0 < class_count meta.now }
    requires prop { p.0 < prop_count meta.now }
    requires small { suc (suc (length (props_of meta.now class.0))) < 2 ^ 32 }
    ensures { result ≡ far meta.now class.0 p.0 }
{
    let otherwise = nameless_place(meta, p);
    match meta.opposite(p) {
        Some(q) => far_among(meta, class, q, otherwise),
        None => otherwise,
    }
}

/// The place of the opposite among the properties of a class.
fn far_among(meta: &MetaModel, class: ClassId, q: PropId, otherwise: u32) -> u32
    requires class { class.0 < class_count meta.now }
    requires small { suc (suc (length (props_of meta.now class.0))) < 2 ^ 32 }
    ensures { result ≡ far_among (props_of meta.now class.0) (Some q.0) otherwise }
{
    match meta.place_of(class, q) {
        Some(i) => i as u32 + 2,
        None => otherwise,
    }
}

/// How many places an object of the class has: the two nameless ones and one for each property.
pub(crate) fn place_count(meta: &MetaModel, class: ClassId) -> u32
    requires class { class.0 < class_count meta.now }
    requires small { suc (suc (length (props_of meta.now class.0))) < 2 ^ 32 }
    ensures { result ≡ suc (suc (length (props_of meta.now class.0))) }
{
    meta.props(class).len() as u32 + 2
}
