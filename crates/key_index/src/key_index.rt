ghost use Rattle.std.specs.Prelude.{◌≡◌, map, filter, IfOk};
ghost use Rattle.std.specs.List.Sorted.{IsStrictlySortedBy};
ghost use Rattle.object_tables.specs.Models.{ModelData};
ghost use Rattle.key_index.specs.HolderOrder.{holder_order, is_at};
ghost use Rattle.key_index.specs.Holders.{AreHolders};
ghost use Rattle.key_index.specs.Indexes.{IsIndexOf, IsExtentOf};

use crate::building::{ordered_instances, sorted_entries};
use crate::extent::Extent;
use crate::holder::Holder;
use crate::instance::Instance;
use crate::order::key_order;
use mof_metamodel::{ClassId, NoMemory, PropId};
use object_tables::{Model, Value};
use std::alloc::Global;

/// An index over a model: the objects that hold a value at an attribute, and those of a class. Contracts see it as its entries.
#[derive(Drop)]
pub struct KeyIndex {
    holders: Vec<Holder>,
    instances: Vec<Instance>,
}

impl std::marker::Model for KeyIndex {
    ghost use Rattle.key_index.specs.Indexes.{IndexData};

    ghost Value = { IndexData };

    ghost view = { λ i. record { holders = i.holders.items; instances = i.instances.items } };

    ghost use Rattle.std.specs.List.Sorted.{IsNonDecreasingBy, IsStrictlySortedBy};
    ghost use Rattle.key_index.specs.HolderOrder.{holder_order};
    ghost use Rattle.key_index.specs.Instances.{class_number};

    ghost invariant = { λ i. IsStrictlySortedBy holder_order i.holders.items × IsNonDecreasingBy class_number i.instances.items };
}

/// The holders of a value at an attribute, among some that stand in their order.
fn holders_at<'h>(holders: &'h [Holder], prop: PropId, value: &Value) -> &'h [Holder]
    requires { IsStrictlySortedBy holder_order holders.now }
    ensures { result.now ≡ filter (is_at prop.0 value.now) holders.now }
{
    let first = holders.partition_point(|holder| key_order(holder, prop, value).is_lt());
    let rest = &holders[first..];
    let count = rest.partition_point(|holder| key_order(holder, prop, value).is_le());
    &rest[..count]
}

impl KeyIndex {
    /// The index of a model as it is now. It takes memory for each value of an attribute, and for each object.
    pub fn build(alloc: Global, model: &Model<'_>) -> Result<KeyIndex, NoMemory>
        ensures { IfOk result (IsIndexOf model.now) }
    {
        let holders = sorted_entries(alloc, model)?;
        let instances = ordered_instances(alloc, model)?;
        Ok(KeyIndex { holders, instances })
    }

    /// The objects that hold a value at an attribute in the model of which this is the index: by number, each once.
    pub fn with_value(&self, prop: PropId, value: &Value) -> &[Holder]
        ensures { (m : ModelData) → IsIndexOf m self.now → AreHolders m prop.0 value.now (map (λ h. h.object.0) result.now) }
    {
        holders_at(self.holders.as_slice(), prop, value)
    }

    /// The live objects whose class is the class or inherits from it (OCL 2.4, section 7.5.10) in the model of which this
    /// is the index, one class after another. It takes no memory.
    pub fn extent<'i>(&'i self, model: &Model<'i>, class: ClassId) -> Extent<'i>
        requires { IsIndexOf model.now self.now }
        ensures { IsExtentOf model.now class.0 result }
    {
        // What every model keeps is known here.
        let _ = model.end();
        Extent::new(model.meta(), class, self.instances.as_slice())
    }
}
