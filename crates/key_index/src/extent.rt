ghost use Rattle.std.specs.Prelude.{◌≡◌, ◌∷◌, [], filter, IfSome, IfNone};
ghost use Rattle.std.specs.List.Sorted.{IsNonDecreasingBy};
ghost use Rattle.key_index.specs.Instances.{is_later, class_number, objects_of, AreOrdered};

use crate::instance::Instance;
use crate::kind::is_kind_of;
use mof_metamodel::{ClassId, MetaModel};
use object_tables::ObjId;
use std::marker::Model;

/// The objects of a class and of those that inherit from it, one class after another. Contracts see it as the list of
/// those that are left.
#[derive(Drop)]
pub struct Extent<'i> {
    meta: &'i MetaModel,
    class: ClassId,
    left: &'i [Instance],
}

impl<'i> Model for Extent<'i> {
    ghost use Rattle.std.specs.Prelude.{List};
    ghost use Rattle.object_tables.specs.declared.value.ObjId.{ObjId};

    ghost Value = { List ObjId };

    ghost use Rattle.key_index.specs.Instances.{objects_of, AreOrdered};

    ghost view = { λ e. objects_of e.meta.now e.class.0 e.left.now };

    ghost invariant = { λ e. AreOrdered e.meta.now e.left.now };
}

impl<'i> Extent<'i> {
    /// Those of the class among these instances.
    pub(crate) fn new(meta: &'i MetaModel, class: ClassId, instances: &'i [Instance]) -> Extent<'i>
        requires { AreOrdered meta.now instances.now }
        ensures { result ≡ objects_of meta.now class.0 instances.now }
    {
        Extent {
            meta,
            class,
            left: instances,
        }
    }
}

/// The instances of later classes.
fn behind<'i>(instances: &'i [Instance], class: ClassId) -> &'i [Instance]
    requires { IsNonDecreasingBy class_number instances.now }
    ensures { result.now ≡ filter (is_later class.0) instances.now }
{
    let count = instances.partition_point(|instance| instance.class.0 <= class.0);
    &instances[count..]
}

/// The first of these instances that is of the class, and those behind it. Each class that has nothing to do with it
/// is passed over in one step.
fn first_of<'i>(
    meta: &MetaModel,
    class: ClassId,
    instances: &'i [Instance],
) -> Option<(&'i Instance, &'i [Instance])>
    requires { AreOrdered meta.now instances.now }
    ensures none { IfNone result (objects_of meta.now class.0 instances.now ≡ []) }
    ensures some { IfSome result (λ found. (objects_of meta.now class.0 instances.now ≡ found.0.now.object ∷ objects_of meta.now class.0 found.1.now) × AreOrdered meta.now found.1.now) }
{
    let mut left = instances;
    while let Some((first, rest)) = left.split_first() {
        if is_kind_of(meta, first.class, class) {
            return Some((first, rest));
        }
        left = behind(left, first.class);
    }
    None
}

impl<'i> Iterator for Extent<'i> {
    type Item = ObjId;

    ghost use Rattle.std.specs.Iterator.{YieldsFirst, item_count};

    ghost next_gives = { YieldsFirst (λ i. i) };

    ghost remaining = { item_count (λ i. i) };

    fn next(&mut self) -> Option<ObjId> {
        match first_of(self.meta, self.class, self.left) {
            Some((first, rest)) => {
                self.left = rest;
                Some(first.object)
            }
            None => None,
        }
    }
}
