//! Descriptions of classes and properties, from their names.
ghost use Rattle.std.specs.Prelude.{◌≡◌, [], ◌∷◌, ◌++◌, IsTrue, IfOk, OnOk};
ghost use Rattle.mof_metamodel.specs.WellMeta.{WellMeta};
ghost use Rattle.example_models.specs.Descriptions.{is_ascii, optional, required, one, many, parts, class_with, class_under, named_class};

use mof_metamodel::{
    ClassDesc, MetaDesc, MetaError, MetaModel, NoMemory, OppDesc, PropDesc, Seq, Text, or_drop,
};
use std::alloc::Global;

/// A text of ASCII characters.
#[tactic(auto, using(crate::proofs::AsciiLaws::ascii_characters))]
pub(crate) fn ascii(alloc: Global, text: &str) -> Result<Text, NoMemory>
    requires { IsTrue (is_ascii text.now) }
    ensures { IfOk result (λ t. t ≡ text.now) }
{
    Text::new(alloc, text)
}

/// A property of at most one value or partner.
fn optional(alloc: Global, name: &str, type_name: &str) -> Result<PropDesc, NoMemory>
    requires name { IsTrue (is_ascii name.now) }
    requires type_name { IsTrue (is_ascii type_name.now) }
    ensures { IfOk result (λ p. p ≡ optional name.now type_name.now) }
{
    Ok(PropDesc {
        name: ascii(alloc, name)?,
        type_name: ascii(alloc, type_name)?,
        lower: 0,
        upper: Some(1),
        composite: false,
        ordered: false,
        opposite: None,
    })
}

/// One that has to have a value.
fn required(alloc: Global, name: &str, type_name: &str) -> Result<PropDesc, NoMemory>
    requires name { IsTrue (is_ascii name.now) }
    requires type_name { IsTrue (is_ascii type_name.now) }
    ensures { IfOk result (λ p. p ≡ required name.now type_name.now) }
{
    let mut prop = optional(alloc, name, type_name)?;
    prop.lower = 1;
    Ok(prop)
}

/// A reference to at most one partner, with the opposite of this name.
fn one(alloc: Global, name: &str, class: &str, opposite: &str) -> Result<PropDesc, NoMemory>
    requires name { IsTrue (is_ascii name.now) }
    requires class { IsTrue (is_ascii class.now) }
    requires opposite { IsTrue (is_ascii opposite.now) }
    ensures { IfOk result (λ p. p ≡ one name.now class.now opposite.now) }
{
    let mut prop = optional(alloc, name, class)?;
    let class = or_drop!(ascii(alloc, class); prop);
    let other = or_drop!(ascii(alloc, opposite); prop, class);
    let opposite = Some(OppDesc { class, prop: other });
    drop(std::mem::replace(&mut prop.opposite, opposite));
    Ok(prop)
}

/// One to any number of partners.
fn many(alloc: Global, name: &str, class: &str, opposite: &str) -> Result<PropDesc, NoMemory>
    requires name { IsTrue (is_ascii name.now) }
    requires class { IsTrue (is_ascii class.now) }
    requires opposite { IsTrue (is_ascii opposite.now) }
    ensures { IfOk result (λ p. p ≡ many name.now class.now opposite.now) }
{
    let mut prop = one(alloc, name, class, opposite)?;
    prop.upper = None;
    Ok(prop)
}

/// The same, of which each partner is a part.
fn parts(alloc: Global, name: &str, class: &str, opposite: &str) -> Result<PropDesc, NoMemory>
    requires name { IsTrue (is_ascii name.now) }
    requires class { IsTrue (is_ascii class.now) }
    requires opposite { IsTrue (is_ascii opposite.now) }
    ensures { IfOk result (λ p. p ≡ parts name.now class.now opposite.now) }
{
    let mut prop = many(alloc, name, class, opposite)?;
    prop.composite = true;
    Ok(prop)
}

/// Puts a property of at most one value or partner behind others.
pub(crate) fn push_optional(
    alloc: Global,
    props: &mut Seq<PropDesc>,
    name: &str,
    type_name: &str,
) -> Result<(), NoMemory>
    requires name { IsTrue (is_ascii name.now) }
    requires type_name { IsTrue (is_ascii type_name.now) }
    ensures { OnOk result (props.new ≡ props.old ++ optional name.now type_name.now ∷ []) }
{
    props.push(optional(alloc, name, type_name)?)
}

/// Puts one that has to have a value behind others.
pub(crate) fn push_required(
    alloc: Global,
    props: &mut Seq<PropDesc>,
    name: &str,
    type_name: &str,
) -> Result<(), NoMemory>
    requires name { IsTrue (is_ascii name.now) }
    requires type_name { IsTrue (is_ascii type_name.now) }
    ensures { OnOk result (props.new ≡ props.old ++ required name.now type_name.now ∷ []) }
{
    props.push(required(alloc, name, type_name)?)
}

/// Puts a reference to at most one partner behind others.
pub(crate) fn push_one(
    alloc: Global,
    props: &mut Seq<PropDesc>,
    name: &str,
    class: &str,
    opposite: &str,
) -> Result<(), NoMemory>
    requires name { IsTrue (is_ascii name.now) }
    requires class { IsTrue (is_ascii class.now) }
    requires opposite { IsTrue (is_ascii opposite.now) }
    ensures { OnOk result (props.new ≡ props.old ++ one name.now class.now opposite.now ∷ []) }
{
    props.push(one(alloc, name, class, opposite)?)
}

/// Puts a reference to any number of partners behind others.
pub(crate) fn push_many(
    alloc: Global,
    props: &mut Seq<PropDesc>,
    name: &str,
    class: &str,
    opposite: &str,
) -> Result<(), NoMemory>
    requires name { IsTrue (is_ascii name.now) }
    requires class { IsTrue (is_ascii class.now) }
    requires opposite { IsTrue (is_ascii opposite.now) }
    ensures { OnOk result (props.new ≡ props.old ++ many name.now class.now opposite.now ∷ []) }
{
    props.push(many(alloc, name, class, opposite)?)
}

/// Puts a reference to any number of parts behind others.
pub(crate) fn push_parts(
    alloc: Global,
    props: &mut Seq<PropDesc>,
    name: &str,
    class: &str,
    opposite: &str,
) -> Result<(), NoMemory>
    requires name { IsTrue (is_ascii name.now) }
    requires class { IsTrue (is_ascii class.now) }
    requires opposite { IsTrue (is_ascii opposite.now) }
    ensures { OnOk result (props.new ≡ props.old ++ parts name.now class.now opposite.now ∷ []) }
{
    props.push(parts(alloc, name, class, opposite)?)
}

/// A class without superclasses.
pub(crate) fn class_with(
    alloc: Global,
    name: &str,
    is_abstract: bool,
    props: Seq<PropDesc>,
) -> Result<ClassDesc, NoMemory>
    requires { IsTrue (is_ascii name.now) }
    ensures { IfOk result (λ c. c ≡ class_with name.now is_abstract props) }
{
    let name = or_drop!(ascii(alloc, name); props);
    Ok(ClassDesc {
        name,
        is_abstract,
        supers: Seq::new(alloc),
        props,
    })
}

/// A concrete class with one superclass.
pub(crate) fn class_under(
    alloc: Global,
    name: &str,
    above: &str,
    props: Seq<PropDesc>,
) -> Result<ClassDesc, NoMemory>
    requires name { IsTrue (is_ascii name.now) }
    requires above { IsTrue (is_ascii above.now) }
    ensures { IfOk result (λ c. c ≡ class_under name.now above.now props) }
{
    let mut supers = Seq::new(alloc);
    let above = or_drop!(ascii(alloc, above); supers, props);
    or_drop!(supers.push(above); supers, props);
    let name = or_drop!(ascii(alloc, name); supers, props);
    Ok(ClassDesc {
        name,
        is_abstract: false,
        supers,
        props,
    })
}

/// The abstract class of what has a name.
pub(crate) fn named_class(alloc: Global) -> Result<ClassDesc, NoMemory>
    ensures { IfOk result (λ c. c ≡ named_class) }
{
    let mut props = Seq::new(alloc);
    or_drop!(push_required(alloc, &mut props, "name", "String"); props);
    let class = class_with(alloc, "Named", true, props)?;
    Ok(class)
}

/// The metamodel of a description that has no fault.
pub(crate) fn metamodel(alloc: Global, desc: MetaDesc) -> Result<MetaModel, NoMemory>
    requires { WellMeta desc }
    ensures { IfOk result (λ meta. meta ≡ desc) }
{
    match MetaModel::new(alloc, desc) {
        Ok(meta) => Ok(meta),
        Err(MetaError::NoMemory) => Err(NoMemory),
        Err(MetaError::Fault(_)) => unreachable!(),
    }
}
