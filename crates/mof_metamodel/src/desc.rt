use crate::seq::Seq;
use crate::text::Text;

/// The number of a class: its place in the description, from 0.
#[derive(Clone, Copy, Debug, PartialEq, Eq)]
pub struct ClassId(pub u32);

/// The number of a property: its place among the properties of all classes, class by class in the order of the description, from 0.
#[derive(Clone, Copy, Debug, PartialEq, Eq)]
pub struct PropId(pub u32);

/// The number of an enumeration: its place in the description, from 0.
#[derive(Clone, Copy, Debug, PartialEq, Eq, Hash)]
pub struct EnumId(pub u32);

/// A metamodel as it is described: EMOF's Package of classes and enumerations (MOF 2.5.1, 12.4).
#[derive(Drop)]
pub struct MetaDesc {
    pub name: Text,
    pub classes: Seq<ClassDesc>,
    pub enums: Seq<EnumDesc>,
}

/// A class: its superclasses by name, and the properties that it owns (EMOF's Class).
#[derive(Drop)]
pub struct ClassDesc {
    pub name: Text,
    pub is_abstract: bool,
    pub supers: Seq<Text>,
    pub props: Seq<PropDesc>,
}

/// A property (EMOF's Property). Its type is `String`, `Integer`, `Boolean`, an enumeration or a class, by name.
/// An upper bound of `None` is unbounded.
#[derive(Drop)]
pub struct PropDesc {
    pub name: Text,
    pub type_name: Text,
    pub lower: u32,
    pub upper: Option<u32>,
    pub composite: bool,
    pub ordered: bool,
    pub opposite: Option<OppDesc>,
}

/// The opposite of a property: a property that the class of this name owns.
#[derive(Drop)]
pub struct OppDesc {
    pub class: Text,
    pub prop: Text,
}

/// An enumeration with its literals in order (EMOF's Enumeration).
#[derive(Drop)]
pub struct EnumDesc {
    pub name: Text,
    pub literals: Seq<Text>,
}

/// The type of a property, its name resolved.
#[derive(Clone, Copy, Debug, PartialEq, Eq)]
pub enum PropType {
    Str,
    Int,
    Bool,
    Enum(EnumId),
    Class(ClassId),
}

/// A property with its names resolved.
#[derive(Drop)]
pub struct Prop {
    pub name: Text,
    pub owner: ClassId,
    pub ty: PropType,
    pub lower: u32,
    pub upper: Option<u32>,
    pub composite: bool,
    pub ordered: bool,
    pub opposite: Option<PropId>,
}
