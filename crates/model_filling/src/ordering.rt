ghost use Rattle.std.specs.Prelude.{◌≡◌, ℕ, OnOk};
ghost use Rattle.object_tables.specs.Models.{IsReferenceOf};
ghost use Rattle.model_filling.specs.Filling.{IsFilled, IsOrderedAt, Orders};

use crate::contents::Contents;
use mof_metamodel::{NoMemory, PropId};
use object_tables::{Model, ObjId};

/// Puts the partners of all objects in their order, where the model is filled.
pub(crate) fn order_all<C: Contents>(model: &mut Model<'_>, contents: &C) -> Result<(), NoMemory>
    requires { IsFilled (C.held contents.now) model.old }
    ensures { OnOk result (model.new ≡ C.held contents.now) }
{
    for o in 0..model.end() {
        order_object(model, contents, ObjId(o))?;
    }
    Ok(())
}

/// Puts the partners of an object in their order, if there is an object.
fn order_object<C: Contents>(model: &mut Model<'_>, contents: &C, o: ObjId) -> Result<(), NoMemory>
    requires { IsFilled (C.held contents.now) model.old }
    ensures orders { OnOk result (Orders (C.held contents.now) model.old model.new) }
    ensures ordered { OnOk result ((p : ℕ) → IsReferenceOf (C.held contents.now) o.0 p → IsOrderedAt (C.held contents.now) model.new o.0 p) }
{
    if !model.is_live(o) {
        return Ok(());
    }
    for p in model.meta().props(model.class_of(o)) {
        order_property(model, contents, o, *p)?;
    }
    Ok(())
}

/// Puts the partners of an object at a property in their order, if it is a reference.
fn order_property<C: Contents>(
    model: &mut Model<'_>,
    contents: &C,
    o: ObjId,
    p: PropId,
) -> Result<(), NoMemory>
    requires { IsFilled (C.held contents.now) model.old }
    ensures orders { OnOk result (Orders (C.held contents.now) model.old model.new) }
    ensures ordered { OnOk result (IsReferenceOf (C.held contents.now) o.0 p.0 → IsOrderedAt (C.held contents.now) model.new o.0 p.0) }
{
    if !model.has_reference(o, p) {
        return Ok(());
    }
    let partners = contents.partners(o, p)?;
    model.set_order(p, o, partners.as_slice());
    Ok(())
}
