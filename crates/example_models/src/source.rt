//! Source models of the example, of any number of classes.
ghost use Rattle.std.specs.Prelude.{◌≡◌, ◌≤◌, ◌<◌, ◌+◌, ◌*◌, ◌/◌, ◌%◌, IfOk, OnOk};
ghost use Rattle.object_tables.specs.Models.{live_count};
ghost use Rattle.object_tables.specs.Validity.{Valid};
ghost use Rattle.example_models.specs.declared.limits.TheConstants.{MAX_SOURCE_CLASSES, SEEDS};
ghost use Rattle.example_models.specs.ClsTable.{cls_desc};
ghost use Rattle.example_models.specs.Source.{package_count, classes_in, attribute_count, package_number, class_number, attribute_prim, packages_objects, source_data, source_count};
ghost use Rattle.example_models.specs.Growing.{IsSize, model_of, up_to_class, up_to_attribute, class_part, attribute_part};

use crate::descriptions::ascii;
use crate::names::{attribute_id, class_id, numbered};
use crate::parts::{Part, add_object, add_part, set_text};
use mof_metamodel::{ClassId, MetaModel, NoMemory, PropId};
use object_tables::{Model, ObjId};
use std::alloc::Global;

/// What a source is made after: how many classes it has, and the seed that says how many attributes a class has
/// and of which type.
#[derive(Clone, Copy)]
pub(crate) struct Shape {
    pub(crate) classes: u32,
    pub(crate) seed: u32,
}

/// The name of the type of an attribute.
fn attribute_prim(seed: u32, class: u32, attribute: u32) -> &'static str
    requires seed { seed < SEEDS }
    requires class { class < MAX_SOURCE_CLASSES }
    requires attribute { attribute < 4 }
    ensures { result.now ≡ attribute_prim seed class attribute }
{
    if (class + attribute + seed) % 2 == 0 {
        "Integer"
    } else {
        "String"
    }
}

/// An attribute of a class, with the object that is the class.
fn attribute_part(
    alloc: Global,
    seed: u32,
    class: u32,
    attribute: u32,
    owner: ObjId,
) -> Result<Part, NoMemory>
    requires seed { seed < SEEDS }
    requires class { class < MAX_SOURCE_CLASSES }
    requires attribute { attribute < 4 }
    ensures { IfOk result (λ p. p ≡ attribute_part seed class attribute owner) }
{
    let name = numbered(alloc, "a", attribute)?;
    let id = attribute_id(alloc, class, attribute)?;
    let prim = attribute_prim(seed, class, attribute);
    let text = ascii(alloc, prim)?;
    Ok(Part {
        class: ClassId(3),
        id,
        name,
        attribute: PropId(9),
        text,
        reference: PropId(8),
        container: owner,
    })
}

/// A class, with the object that is its package.
fn class_part(alloc: Global, class: u32, owner: ObjId) -> Result<Part, NoMemory>
    ensures { IfOk result (λ p. p ≡ class_part class owner) }
{
    let name = numbered(alloc, "C", class)?;
    let id = class_id(alloc, class)?;
    let text = ascii(alloc, "persistent")?;
    Ok(Part {
        class: ClassId(2),
        id,
        name,
        attribute: PropId(3),
        text,
        reference: PropId(2),
        container: owner,
    })
}

/// Adds an attribute behind those that its class has.
fn add_attribute(
    alloc: Global,
    model: &mut Model<'_>,
    shape: Shape,
    class: u32,
    attribute: u32,
    owner: ObjId,
) -> Result<(), NoMemory>
    requires sizes { IsSize shape.classes shape.seed }
    requires class { class < shape.classes }
    requires attribute { attribute < attribute_count shape.seed class }
    requires owner { owner.0 ≡ class_number shape.seed class }
    requires before { model.old ≡ model_of (up_to_attribute shape.classes shape.seed class attribute) }
    ensures { OnOk result (model.new ≡ model_of (up_to_attribute shape.classes shape.seed class (attribute + 1))) }
{
    let part = attribute_part(alloc, shape.seed, class, attribute, owner)?;
    add_part(alloc, model, part)?;
    Ok(())
}

/// Adds a class with its attributes behind the classes that its package has.
fn add_class(
    alloc: Global,
    model: &mut Model<'_>,
    shape: Shape,
    class: u32,
    package_object: ObjId,
) -> Result<(), NoMemory>
    requires sizes { IsSize shape.classes shape.seed }
    requires class { class < shape.classes }
    requires whole { package_object.0 ≡ package_number shape.seed (class / 100) }
    requires before { model.old ≡ model_of (up_to_class shape.classes shape.seed (class / 100) (class % 100)) }
    ensures { OnOk result (model.new ≡ model_of (up_to_class shape.classes shape.seed (class / 100) (class % 100 + 1))) }
{
    let part = class_part(alloc, class, package_object)?;
    let owner = add_part(alloc, model, part)?;
    for attribute in 0..(class + shape.seed) % 4 {
        add_attribute(alloc, model, shape, class, attribute, owner)?;
    }
    Ok(())
}

/// How many classes a package has.
fn classes_in(classes: u32, number: u32) -> u32
    requires { 100 * number ≤ classes }
    ensures { result ≡ classes_in classes number }
{
    let left = classes - 100 * number;
    if left < 100 { left } else { 100 }
}

/// Adds a package with a name, and without classes.
fn add_empty_package(
    alloc: Global,
    model: &mut Model<'_>,
    shape: Shape,
    number: u32,
) -> Result<ObjId, NoMemory>
    requires sizes { IsSize shape.classes shape.seed }
    requires number { number < package_count shape.classes }
    requires before { model.old ≡ model_of (packages_objects shape.classes shape.seed number) }
    ensures object { IfOk result (λ o. o.0 ≡ package_number shape.seed number) }
    ensures model { OnOk result (model.new ≡ model_of (up_to_class shape.classes shape.seed number 0)) }
{
    let name = numbered(alloc, "p", number)?;
    let id = numbered(alloc, "p", number)?;
    let object = add_object(model, ClassId(1), id)?;
    set_text(alloc, model, object, PropId(0), name)?;
    Ok(object)
}

/// Adds a package with its classes behind the others.
fn add_package(
    alloc: Global,
    model: &mut Model<'_>,
    shape: Shape,
    number: u32,
) -> Result<(), NoMemory>
    requires sizes { IsSize shape.classes shape.seed }
    requires number { number < package_count shape.classes }
    requires before { model.old ≡ model_of (packages_objects shape.classes shape.seed number) }
    ensures { OnOk result (model.new ≡ model_of (packages_objects shape.classes shape.seed (number + 1))) }
{
    let object = add_empty_package(alloc, model, shape, number)?;
    for place in 0..classes_in(shape.classes, number) {
        add_class(alloc, model, shape, 100 * number + place, object)?;
    }
    Ok(())
}

/// The source of so many classes. Package `p0` has the first hundred, `p1` the next, and so on. Class i is named
/// `C` i, is persistent and has (i + seed) mod 4 attributes; attribute j is named `a` j, and its type is `Integer`
/// where i + j + seed is even, else `String`. An identifier is a name behind those of its containers, with full
/// stops between. Objects are numbered as they stand in a file.
pub fn gen_source<'m>(
    alloc: Global,
    cls: &'m MetaModel,
    n: u32,
    seed: u32,
) -> Result<Model<'m>, NoMemory>
    requires cls { cls.now ≡ cls_desc }
    requires some { 1 ≤ n }
    requires classes { n ≤ MAX_SOURCE_CLASSES }
    requires seed { seed < SEEDS }
    ensures source { IfOk result (λ m. m ≡ source_data n seed) }
    ensures valid { IfOk result Valid }
    ensures count { IfOk result (λ m. live_count m ≡ source_count n seed) }
{
    let shape = Shape { classes: n, seed };
    let mut model = Model::new(alloc, cls);
    for number in 0..(n + 99) / 100 {
        add_package(alloc, &mut model, shape, number)?;
    }
    // What every model keeps is known here.
    let _ = model.end();
    Ok(model)
}
