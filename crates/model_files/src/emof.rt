ghost use Rattle.std.specs.Prelude.{◌≡◌, [], ◌∷◌, ◌++◌, IsTrue, IfOk, OnOk};
ghost use Rattle.model_files.specs.Ascii.{is_ascii};
ghost use Rattle.model_files.specs.Emof.{optional, required, sequence, parts, opposed, class_under, named_class, type_class, package_class, class_class, primitive_type_class, enumeration_class, literal_class, ends, bounds, marks, others, property_class, emof_classes, emof};

use crate::names::ascii;
use mof_metamodel::{
    ClassDesc, MetaDesc, MetaError, MetaModel, NoMemory, OppDesc, PropDesc, Seq, Text, or_drop,
};
use std::alloc::Global;

/// A property of at most one value or partner.
fn optional(alloc: Global, name: &str, type_name: &str) -> Result<PropDesc, NoMemory>
    requires name { IsTrue (is_ascii name.now) }
    requires type_name { IsTrue (is_ascii type_name.now) }
    ensures { IfOk result (λ p. p ≡ optional name.now type_name.now) }
{
    Ok(PropDesc {
        name: ascii(alloc, name)?,
        type_name: ascii(alloc, type_name)?,
        lower: 0,
        upper: Some(1),
        composite: false,
        ordered: false,
        opposite: None,
    })
}

/// Puts such a property behind others.
fn push_optional(
    alloc: Global,
    props: &mut Seq<PropDesc>,
    name: &str,
    type_name: &str,
) -> Result<(), NoMemory>
    requires name { IsTrue (is_ascii name.now) }
    requires type_name { IsTrue (is_ascii type_name.now) }
    ensures { OnOk result (props.new ≡ props.old ++ optional name.now type_name.now ∷ []) }
{
    props.push(optional(alloc, name, type_name)?)
}

/// One that has to have a value.
fn required(alloc: Global, name: &str, type_name: &str) -> Result<PropDesc, NoMemory>
    requires name { IsTrue (is_ascii name.now) }
    requires type_name { IsTrue (is_ascii type_name.now) }
    ensures { IfOk result (λ p. p ≡ required name.now type_name.now) }
{
    let mut prop = optional(alloc, name, type_name)?;
    prop.lower = 1;
    Ok(prop)
}

/// One of any number of partners, in an order.
fn sequence(alloc: Global, name: &str, type_name: &str) -> Result<PropDesc, NoMemory>
    requires name { IsTrue (is_ascii name.now) }
    requires type_name { IsTrue (is_ascii type_name.now) }
    ensures { IfOk result (λ p. p ≡ sequence name.now type_name.now) }
{
    let mut prop = optional(alloc, name, type_name)?;
    prop.upper = None;
    prop.ordered = true;
    Ok(prop)
}

/// The same, of which each partner is a part.
fn parts(alloc: Global, name: &str, type_name: &str) -> Result<PropDesc, NoMemory>
    requires name { IsTrue (is_ascii name.now) }
    requires type_name { IsTrue (is_ascii type_name.now) }
    ensures { IfOk result (λ p. p ≡ parts name.now type_name.now) }
{
    let mut prop = sequence(alloc, name, type_name)?;
    prop.composite = true;
    Ok(prop)
}

/// The property with an opposite.
fn opposed(alloc: Global, prop: PropDesc, class: &str, name: &str) -> Result<PropDesc, NoMemory>
    requires class { IsTrue (is_ascii class.now) }
    requires name { IsTrue (is_ascii name.now) }
    ensures { IfOk result (λ p. p ≡ opposed prop class.now name.now) }
{
    let class = or_drop!(ascii(alloc, class); prop);
    let name = or_drop!(ascii(alloc, name); prop, class);
    let opposite = Some(OppDesc { class, prop: name });
    let mut prop = prop;
    drop(std::mem::replace(&mut prop.opposite, opposite));
    Ok(prop)
}

/// A class with one superclass.
fn class_under(
    alloc: Global,
    name: &str,
    is_abstract: bool,
    above: &str,
    props: Seq<PropDesc>,
) -> Result<ClassDesc, NoMemory>
    requires name { IsTrue (is_ascii name.now) }
    requires above { IsTrue (is_ascii above.now) }
    ensures { IfOk result (λ c. c ≡ class_under name.now is_abstract above.now props) }
{
    let mut supers = Seq::new(alloc);
    let above = or_drop!(ascii(alloc, above); supers, props);
    or_drop!(supers.push(above); supers, props);
    let name = or_drop!(ascii(alloc, name); supers, props);
    Ok(ClassDesc {
        name,
        is_abstract,
        supers,
        props,
    })
}

fn named_class(alloc: Global) -> Result<ClassDesc, NoMemory>
    ensures { IfOk result (λ c. c ≡ named_class) }
{
    let mut props = Seq::new(alloc);
    let prop = or_drop!(required(alloc, "name", "String"); props);
    or_drop!(props.push(prop); props);
    let name = or_drop!(ascii(alloc, "Named"); props);
    Ok(ClassDesc {
        name,
        is_abstract: true,
        supers: Seq::new(alloc),
        props,
    })
}

fn type_class(alloc: Global) -> Result<ClassDesc, NoMemory>
    ensures { IfOk result (λ c. c ≡ type_class) }
{
    let package = optional(alloc, "package", "Package")?;
    let mut props = Seq::new(alloc);
    let package = or_drop!(opposed(alloc, package, "Package", "ownedType"); props);
    or_drop!(props.push(package); props);
    let class = class_under(alloc, "Type", true, "Named", props)?;
    Ok(class)
}

fn package_class(alloc: Global) -> Result<ClassDesc, NoMemory>
    ensures { IfOk result (λ c. c ≡ package_class) }
{
    let owned = parts(alloc, "ownedType", "Type")?;
    let mut props = Seq::new(alloc);
    let uri = or_drop!(optional(alloc, "uri", "String"); owned, props);
    or_drop!(props.push(uri); owned, props);
    let owned = or_drop!(opposed(alloc, owned, "Type", "package"); props);
    or_drop!(props.push(owned); props);
    let class = class_under(alloc, "Package", false, "Named", props)?;
    Ok(class)
}

fn class_class(alloc: Global) -> Result<ClassDesc, NoMemory>
    ensures { IfOk result (λ c. c ≡ class_class) }
{
    let owned = parts(alloc, "ownedAttribute", "Property")?;
    let mut props = Seq::new(alloc);
    let is_abstract = or_drop!(optional(alloc, "isAbstract", "Boolean"); owned, props);
    or_drop!(props.push(is_abstract); owned, props);
    let supers = or_drop!(sequence(alloc, "superClass", "Class"); owned, props);
    or_drop!(props.push(supers); owned, props);
    let owned = or_drop!(opposed(alloc, owned, "Property", "class"); props);
    or_drop!(props.push(owned); props);
    let class = class_under(alloc, "Class", false, "Type", props)?;
    Ok(class)
}

fn primitive_type_class(alloc: Global) -> Result<ClassDesc, NoMemory>
    ensures { IfOk result (λ c. c ≡ primitive_type_class) }
{
    let class = class_under(alloc, "PrimitiveType", false, "Type", Seq::new(alloc))?;
    Ok(class)
}

fn enumeration_class(alloc: Global) -> Result<ClassDesc, NoMemory>
    ensures { IfOk result (λ c. c ≡ enumeration_class) }
{
    let mut props = Seq::new(alloc);
    let owned = or_drop!(parts(alloc, "ownedLiteral", "EnumerationLiteral"); props);
    or_drop!(props.push(owned); props);
    let class = class_under(alloc, "Enumeration", false, "Type", props)?;
    Ok(class)
}

fn literal_class(alloc: Global) -> Result<ClassDesc, NoMemory>
    ensures { IfOk result (λ c. c ≡ literal_class) }
{
    let class = class_under(alloc, "EnumerationLiteral", false, "Named", Seq::new(alloc))?;
    Ok(class)
}

/// The properties of a property that say what it is of.
fn ends(alloc: Global) -> Result<Seq<PropDesc>, NoMemory>
    ensures { IfOk result (λ props. props ≡ ends) }
{
    let class = optional(alloc, "class", "Class")?;
    let mut props = Seq::new(alloc);
    let class = or_drop!(opposed(alloc, class, "Class", "ownedAttribute"); props);
    or_drop!(props.push(class); props);
    or_drop!(push_optional(alloc, &mut props, "type", "Type"); props);
    Ok(props)
}

/// Puts its bounds behind others, and the text of its default.
fn push_bounds(alloc: Global, props: &mut Seq<PropDesc>) -> Result<(), NoMemory>
    ensures { OnOk result (props.new ≡ props.old ++ bounds) }
{
    push_optional(alloc, props, "lower", "Integer")?;
    push_optional(alloc, props, "upper", "String")?;
    push_optional(alloc, props, "default", "String")?;
    Ok(())
}

/// Puts its marks behind others.
fn push_marks(alloc: Global, props: &mut Seq<PropDesc>) -> Result<(), NoMemory>
    ensures { OnOk result (props.new ≡ props.old ++ marks) }
{
    push_optional(alloc, props, "isComposite", "Boolean")?;
    push_optional(alloc, props, "isOrdered", "Boolean")?;
    push_optional(alloc, props, "isUnique", "Boolean")?;
    Ok(())
}

/// Puts those marks that a metamodel has no need of behind others, and the opposite.
fn push_others(alloc: Global, props: &mut Seq<PropDesc>) -> Result<(), NoMemory>
    ensures { OnOk result (props.new ≡ props.old ++ others) }
{
    push_optional(alloc, props, "isReadOnly", "Boolean")?;
    push_optional(alloc, props, "isDerived", "Boolean")?;
    push_optional(alloc, props, "isID", "Boolean")?;
    push_optional(alloc, props, "opposite", "Property")?;
    Ok(())
}

fn property_class(alloc: Global) -> Result<ClassDesc, NoMemory>
    ensures { IfOk result (λ c. c ≡ property_class) }
{
    let mut props = ends(alloc)?;
    or_drop!(push_bounds(alloc, &mut props); props);
    or_drop!(push_marks(alloc, &mut props); props);
    or_drop!(push_others(alloc, &mut props); props);
    let class = class_under(alloc, "Property", false, "Named", props)?;
    Ok(class)
}

fn classes(alloc: Global) -> Result<Seq<ClassDesc>, NoMemory>
    ensures { IfOk result (λ classes. classes ≡ emof_classes) }
{
    let mut classes = Seq::new(alloc);
    classes.push(named_class(alloc)?)?;
    classes.push(type_class(alloc)?)?;
    classes.push(package_class(alloc)?)?;
    classes.push(class_class(alloc)?)?;
    classes.push(primitive_type_class(alloc)?)?;
    classes.push(enumeration_class(alloc)?)?;
    classes.push(literal_class(alloc)?)?;
    classes.push(property_class(alloc)?)?;
    Ok(classes)
}

fn description(alloc: Global) -> Result<MetaDesc, NoMemory>
    ensures { IfOk result (λ desc. desc ≡ emof) }
{
    Ok(MetaDesc {
        name: ascii(alloc, "EMOF")?,
        classes: classes(alloc)?,
        enums: Seq::new(alloc),
    })
}

/// The metamodel EMOF, of which a file that holds a metamodel is a model (after the class part of EMOF: MOF 2.5.1, 12.4).
pub fn emof_metamodel(alloc: Global) -> Result<MetaModel, NoMemory>
    ensures { IfOk result (λ meta. meta ≡ emof) }
{
    match MetaModel::new(alloc, description(alloc)?) {
        Ok(meta) => Ok(meta),
        Err(MetaError::NoMemory) => Err(NoMemory),
        Err(MetaError::Fault(_)) => unreachable!(),
    }
}
