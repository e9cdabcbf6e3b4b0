//! What stands in the slots of objects, by the names of properties.
ghost use Rattle.std.specs.Prelude.{◌≡◌, ◌<◌, chars, IsTrue, IfOk, IfSome, Some};
ghost use Rattle.std.specs.Option.{option_map};
ghost use Rattle.mof_metamodel.specs.Metamodels.{prop_count, type_of};
ghost use Rattle.object_tables.specs.Ids.{object_ids};
ghost use Rattle.object_tables.specs.Models.{IsLive, is_class_type};
ghost use Rattle.object_tables.specs.Validity.{IsPropertyOf};
ghost use Rattle.model_assembly.specs.Profile.{class_text};
ghost use Rattle.model_files.specs.Ascii.{is_ascii};
ghost use Rattle.model_files.specs.Reflection.{is_of_class as of_class, prop_in, values_in, partners_in, values_named, partners_named, first_of, partner_named};

use crate::names::{empty_text, is_named};
use mof_metamodel::{MetaModel, NoMemory, PropId, PropType, Seq};
use object_tables::{Model, ObjId, Value};
use std::alloc::Global;

/// The name of an object's class, or an empty text where the object is gone.
fn class_text<'a>(model: &'a Model<'_>, o: ObjId) -> &'a str
    ensures { chars result.now ≡ class_text model.now o.0 }
{
    if model.is_live(o) {
        model.meta().class_name(model.class_of(o))
    } else {
        empty_text()
    }
}

/// Whether an object is of the class of this name, and not only of one that conforms to it.
pub(crate) fn is_of_class(model: &Model<'_>, name: &str, o: ObjId) -> bool
    requires { IsTrue (is_ascii name.now) }
    ensures { result ≡ of_class model.now name.now o.0 }
{
    is_named(class_text(model, o), name)
}

/// The property of this name of an object's class.
#[tactic(auto, using(crate::proofs::AsciiLaws::ascii_characters))]
fn prop_in(model: &Model<'_>, o: ObjId, name: &str) -> Option<PropId>
    requires { IsTrue (is_ascii name.now) }
    ensures number { option_map (λ p. p.0) result ≡ prop_in model.now o.0 name.now }
    ensures property { IfSome result (λ p. IsPropertyOf model.now o.0 p.0) }
    ensures within { IfSome result (λ p. p.0 < prop_count model.now.meta) }
{
    if !model.is_live(o) {
        return None;
    }
    model.meta().prop_of(model.class_of(o), name)
}

/// Whether a property is a reference.
fn is_reference(meta: &MetaModel, p: PropId) -> bool
    requires { p.0 < prop_count meta.now }
    ensures { result ≡ is_class_type (type_of meta.now p.0) }
{
    match meta.prop(p).ty {
        PropType::Class(_) => true,
        _ => false,
    }
}

/// The values of an object at a property, if it is an attribute.
fn values_in<'a>(model: &'a Model<'_>, o: ObjId, p: PropId) -> &'a [Value]
    requires property { IsPropertyOf model.now o.0 p.0 }
    requires within { p.0 < prop_count model.now.meta }
    ensures { result.now ≡ values_in model.now o.0 (Some p.0) }
{
    if is_reference(model.meta(), p) {
        &[]
    } else {
        model.attr(o, p)
    }
}

/// The values of an object at the property of this name, if it is an attribute.
pub(crate) fn values_named<'a>(model: &'a Model<'_>, o: ObjId, name: &str) -> &'a [Value]
    requires { IsTrue (is_ascii name.now) }
    ensures { result.now ≡ values_named model.now o.0 name.now }
{
    match prop_in(model, o, name) {
        Some(p) => values_in(model, o, p),
        None => &[],
    }
}

/// The partners of an object at a property, if it is a reference.
fn partners_in(
    alloc: Global,
    model: &Model<'_>,
    o: ObjId,
    p: PropId,
) -> Result<Seq<ObjId>, NoMemory>
    requires property { IsPropertyOf model.now o.0 p.0 }
    requires within { p.0 < prop_count model.now.meta }
    ensures { IfOk result (λ bs. bs ≡ object_ids (partners_in model.now o.0 (Some p.0))) }
{
    let mut partners = Seq::new(alloc);
    if is_reference(model.meta(), p) {
        model.partners(o, p).collect_into(&mut partners)?;
    }
    Ok(partners)
}

/// The partners of an object at the property of this name, if it is a reference.
pub(crate) fn partners_named(
    alloc: Global,
    model: &Model<'_>,
    o: ObjId,
    name: &str,
) -> Result<Seq<ObjId>, NoMemory>
    requires { IsTrue (is_ascii name.now) }
    ensures { IfOk result (λ bs. bs ≡ object_ids (partners_named model.now o.0 name.now)) }
{
    match prop_in(model, o, name) {
        Some(p) => partners_in(alloc, model, o, p),
        None => Ok(Seq::new(alloc)),
    }
}

/// The first partner of an object at a property, if it is a reference.
fn partner_in(model: &Model<'_>, o: ObjId, p: PropId) -> Option<ObjId>
    requires property { IsPropertyOf model.now o.0 p.0 }
    requires within { p.0 < prop_count model.now.meta }
    ensures { option_map (λ b. b.0) result ≡ first_of (partners_in model.now o.0 (Some p.0)) }
{
    if is_reference(model.meta(), p) {
        model.partners(o, p).next()
    } else {
        None
    }
}

/// The first partner of an object at the property of this name, if it is a reference.
pub(crate) fn partner_named(model: &Model<'_>, o: ObjId, name: &str) -> Option<ObjId>
    requires { IsTrue (is_ascii name.now) }
    ensures { option_map (λ b. b.0) result ≡ partner_named model.now o.0 name.now }
{
    match prop_in(model, o, name) {
        Some(p) => partner_in(model, o, p),
        None => None,
    }
}
