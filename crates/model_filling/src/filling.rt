ghost use Rattle.std.specs.Prelude.{◌≡◌, ℕ, OnOk};
ghost use Rattle.object_tables.specs.Kept.{Kept};
ghost use Rattle.object_tables.specs.Models.{IsReferenceOf, IsPartnerFor, IsLinked, IsFree};
ghost use Rattle.object_tables.specs.Validity.{IsPropertyOf};
ghost use Rattle.model_filling.specs.Unlinked.{HasNoLinks};
ghost use Rattle.model_filling.specs.Counterparts.{HasObjectsOf};
ghost use Rattle.model_filling.specs.Filling.{IsPartOf, IsFilledAt, Fills, IsFilled, IsLinkedOnce};

use crate::contents::Contents;
use crate::ordering::order_all;
use mof_metamodel::{NoMemory, PropId};
use object_tables::{Model, ObjId};

/// Gives each object of a model the values and partners that it has in another model, which has the same objects (MOF 2.5.1, Reflection).
/// After `NoMemory` some of them are there.
pub fn fill<C: Contents>(model: &mut Model<'_>, contents: &C) -> Result<(), NoMemory>
    requires kept { Kept (C.held contents.now) }
    requires same { HasObjectsOf model.old (C.held contents.now) }
    requires no_links { HasNoLinks model.old }
    ensures { OnOk result (model.new ≡ C.held contents.now) }
{
    // What every model keeps is known here.
    let _ = model.end();
    fill_all(model, contents)?;
    order_all(model, contents)
}

/// Gives all objects their values and partners, these in any order.
fn fill_all<C: Contents>(model: &mut Model<'_>, contents: &C) -> Result<(), NoMemory>
    requires { IsPartOf (C.held contents.now) model.old }
    ensures { OnOk result (IsFilled (C.held contents.now) model.new) }
{
    for o in 0..model.end() {
        fill_object(model, contents, ObjId(o))?;
    }
    Ok(())
}

/// Gives an object its values and partners, if there is an object.
fn fill_object<C: Contents>(model: &mut Model<'_>, contents: &C, o: ObjId) -> Result<(), NoMemory>
    requires { IsPartOf (C.held contents.now) model.old }
    ensures fills { OnOk result (Fills (C.held contents.now) model.old model.new) }
    ensures filled { OnOk result ((p : ℕ) → IsPropertyOf (C.held contents.now) o.0 p → IsFilledAt (C.held contents.now) model.new o.0 p) }
{
    if !model.is_live(o) {
        return Ok(());
    }
    for p in model.meta().props(model.class_of(o)) {
        fill_property(model, contents, o, *p)?;
    }
    Ok(())
}

/// Gives an object its values at an attribute, or its partners at a reference.
fn fill_property<C: Contents>(
    model: &mut Model<'_>,
    contents: &C,
    o: ObjId,
    p: PropId,
) -> Result<(), NoMemory>
    requires part { IsPartOf (C.held contents.now) model.old }
    requires property { IsPropertyOf model.old o.0 p.0 }
    ensures fills { OnOk result (Fills (C.held contents.now) model.old model.new) }
    ensures filled { OnOk result (IsFilledAt (C.held contents.now) model.new o.0 p.0) }
{
    if !model.has_attribute(o, p) {
        return link_partners(model, contents, o, p);
    }
    let values = contents.values(o, p)?;
    model.set_attr(o, p, values);
    Ok(())
}

/// Gives an object its partners at a reference.
fn link_partners<C: Contents>(
    model: &mut Model<'_>,
    contents: &C,
    o: ObjId,
    p: PropId,
) -> Result<(), NoMemory>
    requires part { IsPartOf (C.held contents.now) model.old }
    requires reference { IsReferenceOf model.old o.0 p.0 }
    ensures fills { OnOk result (Fills (C.held contents.now) model.old model.new) }
    ensures filled { OnOk result (IsFilledAt (C.held contents.now) model.new o.0 p.0) }
{
    let partners = contents.partners(o, p)?;
    for b in partners.as_slice() {
        link_once(model, p, o, *b)?;
    }
    Ok(())
}

/// Makes two objects a pair, where they aren't one.
fn link_once(model: &mut Model<'_>, p: PropId, a: ObjId, b: ObjId) -> Result<(), NoMemory>
    requires reference { IsReferenceOf model.old a.0 p.0 }
    requires partner { IsPartnerFor model.old p.0 b.0 }
    requires free { ¬ IsLinked model.old p.0 a.0 b.0 → IsFree model.old p.0 a.0 b.0 }
    ensures { OnOk result (IsLinkedOnce model.old p.0 a.0 b.0 model.new) }
{
    if model.linked(p, a, b) {
        return Ok(());
    }
    model.link(p, a, b)
}
