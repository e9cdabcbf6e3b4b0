ghost use Rattle.std.specs.Prelude.{◌≡◌, ◌<◌, ℕ, [], length, map, true, IfOk, OnOk};
ghost use Rattle.mof_metamodel.specs.Metamodels.{united};
ghost use Rattle.model_assembly.specs.AssemblyOrders as orders;
ghost use Rattle.model_assembly.specs.Source.{is_at};

use super::met::Met;
use super::naming::{Naming, key_of};
use mof_metamodel::{NoMemory, PropId};
use object_tables::{HashKey, Model, ObjId};
use std::alloc::Global;

/// Whether a naming stands at a reference of an object.
fn is_at(naming: Naming, object: u32, property: u32) -> bool
    ensures { result ≡ is_at object property naming.object naming.property }
{
    naming.object == object && naming.property == property
}

/// The objects that are named at a reference with which a list begins, each once and at its first place.
fn distinct_targets(
    alloc: Global,
    after: HashKey,
    object: u32,
    property: u32,
    namings: &[Naming],
) -> Result<Vec<ObjId>, NoMemory>
    ensures { IfOk result (λ v. map (λ b. b.0) v.items ≡ united [] (orders.targets_run object property namings.now)) }
{
    let mut met = Met::new(alloc, after);
    let mut targets = Vec::new(alloc);
    for naming in namings {
        if !is_at(*naming, object, property) {
            return Ok(targets);
        }
        if met.meet(naming.target)? {
            targets.push(ObjId(naming.target))?;
        }
    }
    Ok(targets)
}

/// Whether a naming is the first of those at its reference that stand together.
fn is_first(namings: &[Naming], i: usize) -> bool
    requires { i < length namings.now }
    ensures { result ≡ orders.is_first namings.now i }
{
    if i == 0 {
        return true;
    }
    let before = namings[i - 1];
    !is_at(namings[i], before.object, before.property)
}

/// Puts the partners at the reference of a naming into the order in which they are named.
fn order_at(
    alloc: Global,
    after: HashKey,
    model: &mut Model<'_>,
    namings: &[Naming],
    i: usize,
) -> Result<(), NoMemory>
    requires within { i < length namings.now }
    requires may { orders.is_first namings.now i ≡ true → orders.MayBeOrdered model.old namings.now i }
    ensures { OnOk result (model.new ≡ orders.ordered_at model.old namings.now i) }
{
    if is_first(namings, i) {
        let naming = namings[i];
        let order = distinct_targets(alloc, after, naming.object, naming.property, &namings[i..])?;
        model.set_order(
            PropId(naming.property),
            ObjId(naming.object),
            order.as_slice(),
        );
    }
    Ok(())
}

/// Puts the partners of each object that names some into the order in which it names them.
pub(super) fn order_all(
    alloc: Global,
    model: &mut Model<'_>,
    namings: &[Naming],
) -> Result<(), NoMemory>
    requires { (i : ℕ) → i < length namings.now → orders.is_first namings.now i ≡ true → orders.MayBeOrdered (orders.ordered model.old namings.now i) namings.now i }
    ensures { OnOk result (model.new ≡ orders.ordered model.old namings.now (length namings.now)) }
{
    let after = key_of(namings);
    for i in 0..namings.len() {
        order_at(alloc, after, model, namings, i)?;
    }
    Ok(())
}
