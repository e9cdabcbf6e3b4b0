//! The description of the metamodel that a Package of EMOF is.
ghost use Rattle.std.specs.Prelude.{◌≡◌, ◌++◌, ℕ, map, filter, codes, IsTrue, IfOk, OnOk, chars};
ghost use Rattle.std.specs.Option.{option_map};
ghost use Rattle.mof_metamodel.specs.MetaFaults.{is_number};
ghost use Rattle.object_tables.specs.Ids.{object_ids};
ghost use Rattle.model_files.specs.Ascii.{is_ascii};
ghost use Rattle.model_files.specs.Reflection.{is_of_class, partner_named, partners_named};
ghost use Rattle.model_files.specs.Described.{text_of, is_marked, name_of, bounds_of, is_owned, owned_name, classifier_name, type_name, owner_name, opposite_of, prop_of, class_of, enum_of, owned_of_class, description_of};

use crate::bounds::{Bounds, bounds_from};
use crate::names::{empty_text, is_primitive};
use crate::reflection::{is_of_class, partner_named, partners_named, values_named};
use mof_metamodel::{
    ClassDesc, EnumDesc, MetaDesc, NoMemory, OppDesc, PropDesc, Seq, Text, or_drop,
};
use object_tables::{Model, ObjId, Value};
use std::alloc::Global;

/// The text that values say.
fn text_of(held: &[Value]) -> &str
    ensures { chars result.now ≡ text_of held.now }
{
    match held.first() {
        Some(Value::Str(text)) => text.as_str(),
        _ => empty_text(),
    }
}

/// The mark that values say. One that isn't written is false.
fn is_marked(held: &[Value]) -> bool
    ensures { result ≡ is_marked held.now }
{
    match held.first() {
        Some(Value::Bool(bool)) => *bool,
        _ => false,
    }
}

/// The name of an object.
fn name_of<'a>(model: &'a Model<'_>, o: ObjId) -> &'a str
    ensures { chars result.now ≡ name_of model.now o.0 }
{
    text_of(values_named(model, o, "name"))
}

/// A copy of the name of an object.
fn copied_name(alloc: Global, model: &Model<'_>, o: ObjId) -> Result<Text, NoMemory>
    ensures { IfOk result (λ t. t ≡ name_of model.now o.0) }
{
    Text::new(alloc, name_of(model, o))
}

/// The bounds of a property.
fn bounds_of(model: &Model<'_>, p: ObjId) -> Bounds
    ensures { result ≡ bounds_of model.now p.0 }
{
    bounds_from(
        values_named(model, p, "lower"),
        values_named(model, p, "upper"),
    )
}

/// Whether the Package owns a classifier.
fn is_owned(model: &Model<'_>, root: ObjId, c: ObjId) -> bool
    ensures { result ≡ is_owned model.now root.0 c.0 }
{
    match partner_named(model, c, "package") {
        Some(owner) => owner.0 == root.0,
        None => false,
    }
}

/// The name of a classifier, if the Package owns it.
fn owned_name<'a>(model: &'a Model<'_>, root: ObjId, c: ObjId) -> &'a str
    ensures { chars result.now ≡ owned_name model.now root.0 c.0 }
{
    if is_owned(model, root, c) {
        name_of(model, c)
    } else {
        empty_text()
    }
}

/// The name by which a type is meant.
fn classifier_name<'a>(model: &'a Model<'_>, root: ObjId, t: ObjId) -> &'a str
    ensures { chars result.now ≡ classifier_name model.now root.0 t.0 }
{
    if !is_of_class(model, "PrimitiveType", t) {
        return owned_name(model, root, t);
    }
    let name = name_of(model, t);
    if is_primitive(name) {
        name
    } else {
        empty_text()
    }
}

/// The name by which the type of a property is meant.
fn type_name<'a>(model: &'a Model<'_>, root: ObjId, p: ObjId) -> &'a str
    ensures { chars result.now ≡ type_name model.now root.0 (partner_named model.now p.0 (codes "type")) }
{
    match partner_named(model, p, "type") {
        Some(t) => classifier_name(model, root, t),
        None => empty_text(),
    }
}

/// The name by which the class that owns a property is meant.
fn owner_name<'a>(model: &'a Model<'_>, root: ObjId, p: ObjId) -> &'a str
    ensures { chars result.now ≡ owner_name model.now root.0 (partner_named model.now p.0 (codes "class")) }
{
    match partner_named(model, p, "class") {
        Some(c) => owned_name(model, root, c),
        None => empty_text(),
    }
}

/// An opposite, by the class that owns it.
fn opposite_of(alloc: Global, model: &Model<'_>, root: ObjId, q: ObjId) -> Result<OppDesc, NoMemory>
    ensures { IfOk result (λ o. o ≡ opposite_of model.now root.0 q.0) }
{
    Ok(OppDesc {
        class: Text::new(alloc, owner_name(model, root, q))?,
        prop: copied_name(alloc, model, q)?,
    })
}

/// The opposite that a property writes.
fn written_opposite(
    alloc: Global,
    model: &Model<'_>,
    root: ObjId,
    p: ObjId,
) -> Result<Option<OppDesc>, NoMemory>
    ensures { IfOk result (λ o. o ≡ option_map (opposite_of model.now root.0) (partner_named model.now p.0 (codes "opposite"))) }
{
    match partner_named(model, p, "opposite") {
        Some(q) => Ok(Some(opposite_of(alloc, model, root, q)?)),
        None => Ok(None),
    }
}

/// A property.
fn prop_of(alloc: Global, model: &Model<'_>, root: ObjId, p: ObjId) -> Result<PropDesc, NoMemory>
    ensures { IfOk result (λ d. d ≡ prop_of model.now root.0 p.0) }
{
    let bounds = bounds_of(model, p);
    let name = copied_name(alloc, model, p)?;
    let type_name = or_drop!(Text::new(alloc, type_name(model, root, p)); name);
    let opposite = or_drop!(written_opposite(alloc, model, root, p); name, type_name);
    Ok(PropDesc {
        name,
        type_name,
        lower: bounds.lower,
        upper: bounds.upper,
        composite: is_marked(values_named(model, p, "isComposite")),
        ordered: is_marked(values_named(model, p, "isOrdered")),
        opposite,
    })
}

/// Properties in their order.
fn props_of(
    alloc: Global,
    model: &Model<'_>,
    root: ObjId,
    props: &[ObjId],
) -> Result<Seq<PropDesc>, NoMemory>
    ensures { IfOk result (λ ds. ds ≡ map (λ p. prop_of model.now root.0 p.0) props.now) }
{
    let mut descs = Seq::new(alloc);
    for p in props {
        descs.push(prop_of(alloc, model, root, *p)?)?;
    }
    Ok(descs)
}

/// The names by which superclasses are meant.
fn super_names(
    alloc: Global,
    model: &Model<'_>,
    root: ObjId,
    classes: &[ObjId],
) -> Result<Seq<Text>, NoMemory>
    ensures { IfOk result (λ ns. ns ≡ map (λ c. owned_name model.now root.0 c.0) classes.now) }
{
    let mut names = Seq::new(alloc);
    for c in classes {
        names.push(Text::new(alloc, owned_name(model, root, *c))?)?;
    }
    Ok(names)
}

/// The names by which the superclasses of a class are meant.
fn supers_of(alloc: Global, model: &Model<'_>, root: ObjId, c: ObjId) -> Result<Seq<Text>, NoMemory>
    ensures { IfOk result (λ ns. ns ≡ map (owned_name model.now root.0) (partners_named model.now c.0 (codes "superClass"))) }
{
    let classes = partners_named(alloc, model, c, "superClass")?;
    super_names(alloc, model, root, classes.as_slice())
}

/// The properties that a class owns.
fn attributes_of(
    alloc: Global,
    model: &Model<'_>,
    root: ObjId,
    c: ObjId,
) -> Result<Seq<PropDesc>, NoMemory>
    ensures { IfOk result (λ ds. ds ≡ map (prop_of model.now root.0) (partners_named model.now c.0 (codes "ownedAttribute"))) }
{
    let props = partners_named(alloc, model, c, "ownedAttribute")?;
    props_of(alloc, model, root, props.as_slice())
}

/// A class.
fn class_of(alloc: Global, model: &Model<'_>, root: ObjId, c: ObjId) -> Result<ClassDesc, NoMemory>
    ensures { IfOk result (λ d. d ≡ class_of model.now root.0 c.0) }
{
    Ok(ClassDesc {
        name: copied_name(alloc, model, c)?,
        is_abstract: is_marked(values_named(model, c, "isAbstract")),
        supers: supers_of(alloc, model, root, c)?,
        props: attributes_of(alloc, model, root, c)?,
    })
}

/// Classes in their order.
fn classes_of(
    alloc: Global,
    model: &Model<'_>,
    root: ObjId,
    classes: &[ObjId],
) -> Result<Seq<ClassDesc>, NoMemory>
    ensures { IfOk result (λ ds. ds ≡ map (λ c. class_of model.now root.0 c.0) classes.now) }
{
    let mut descs = Seq::new(alloc);
    for c in classes {
        descs.push(class_of(alloc, model, root, *c)?)?;
    }
    Ok(descs)
}

/// The names of objects in their order.
fn names_of(alloc: Global, model: &Model<'_>, objects: &[ObjId]) -> Result<Seq<Text>, NoMemory>
    ensures { IfOk result (λ ns. ns ≡ map (λ o. name_of model.now o.0) objects.now) }
{
    let mut names = Seq::new(alloc);
    for o in objects {
        names.push(copied_name(alloc, model, *o)?)?;
    }
    Ok(names)
}

/// The literals that an enumeration owns.
fn literals_of(alloc: Global, model: &Model<'_>, e: ObjId) -> Result<Seq<Text>, NoMemory>
    ensures { IfOk result (λ ns. ns ≡ map (name_of model.now) (partners_named model.now e.0 (codes "ownedLiteral"))) }
{
    let literals = partners_named(alloc, model, e, "ownedLiteral")?;
    names_of(alloc, model, literals.as_slice())
}

/// An enumeration.
fn enum_of(alloc: Global, model: &Model<'_>, e: ObjId) -> Result<EnumDesc, NoMemory>
    ensures { IfOk result (λ d. d ≡ enum_of model.now e.0) }
{
    Ok(EnumDesc {
        name: copied_name(alloc, model, e)?,
        literals: literals_of(alloc, model, e)?,
    })
}

/// Enumerations in their order.
fn enums_of(alloc: Global, model: &Model<'_>, enums: &[ObjId]) -> Result<Seq<EnumDesc>, NoMemory>
    ensures { IfOk result (λ ds. ds ≡ map (λ e. enum_of model.now e.0) enums.now) }
{
    let mut descs = Seq::new(alloc);
    for e in enums {
        descs.push(enum_of(alloc, model, *e)?)?;
    }
    Ok(descs)
}

/// Those of some objects that are of the class of this name.
fn of_class(
    alloc: Global,
    model: &Model<'_>,
    name: &str,
    objects: &[ObjId],
) -> Result<Seq<ObjId>, NoMemory>
    requires { IsTrue (is_ascii name.now) }
    ensures { IfOk result (λ os. os ≡ filter (λ o. is_of_class model.now name.now o.0) objects.now) }
{
    let mut kept = Seq::new(alloc);
    for o in objects {
        if is_of_class(model, name, *o) {
            kept.push(*o)?;
        }
    }
    Ok(kept)
}

/// What the Package owns, of the class of this name.
fn owned_of_class(
    alloc: Global,
    model: &Model<'_>,
    root: ObjId,
    name: &str,
) -> Result<Seq<ObjId>, NoMemory>
    requires { IsTrue (is_ascii name.now) }
    ensures { IfOk result (λ os. os ≡ object_ids (owned_of_class model.now root.0 name.now)) }
{
    let owned = partners_named(alloc, model, root, "ownedType")?;
    of_class(alloc, model, name, owned.as_slice())
}

/// The classes that the Package owns.
fn owned_classes(alloc: Global, model: &Model<'_>, root: ObjId) -> Result<Seq<ClassDesc>, NoMemory>
    ensures { IfOk result (λ ds. ds ≡ map (class_of model.now root.0) (owned_of_class model.now root.0 (codes "Class"))) }
{
    let classes = owned_of_class(alloc, model, root, "Class")?;
    classes_of(alloc, model, root, classes.as_slice())
}

/// The enumerations that the Package owns.
fn owned_enums(alloc: Global, model: &Model<'_>, root: ObjId) -> Result<Seq<EnumDesc>, NoMemory>
    ensures { IfOk result (λ ds. ds ≡ map (enum_of model.now) (owned_of_class model.now root.0 (codes "Enumeration"))) }
{
    let enums = owned_of_class(alloc, model, root, "Enumeration")?;
    enums_of(alloc, model, enums.as_slice())
}

/// The description of a Package.
pub(crate) fn description_of(
    alloc: Global,
    model: &Model<'_>,
    root: ObjId,
) -> Result<MetaDesc, NoMemory>
    ensures { IfOk result (λ d. d ≡ description_of model.now root.0) }
{
    Ok(MetaDesc {
        name: copied_name(alloc, model, root)?,
        classes: owned_classes(alloc, model, root)?,
        enums: owned_enums(alloc, model, root)?,
    })
}
