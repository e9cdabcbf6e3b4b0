use mof_metamodel::{ClassId, PropId, Seq, Text};
use object_tables::Value;

/// What a file writes, by objects and properties, whatever its form: enough to make the model of it, or to tell which of its
/// references is amiss (XMI 2.5.1, 7.10). Objects go by their numbers, from 0.
#[derive(Drop)]
pub struct Filed {
    /// The identifiers of the objects, by number.
    pub ids: Seq<Text>,
    /// Their classes, none of which is abstract.
    pub classes: Seq<ClassId>,
    /// The values of attributes; those of one object at one attribute in the order in which they are written.
    pub values: Seq<WrittenValue>,
    /// What stands at references; that of one object at one reference in the order in which it is written.
    pub references: Seq<WrittenReference>,
    /// Where an object writes a reference as an attribute, which may name nothing.
    pub mentions: Seq<Mention>,
}

/// A value of an attribute as a file writes it.
#[derive(Drop)]
pub struct WrittenValue {
    pub object: u32,
    pub property: PropId,
    pub value: Value,
}

/// What a file writes at a reference: the object that is named, if there is one, and how it is printed.
#[derive(Drop)]
pub struct WrittenReference {
    pub object: u32,
    pub property: PropId,
    pub target: Option<u32>,
    pub text: Text,
}

/// An object that writes a reference as an attribute.
#[derive(Clone, Copy, Drop)]
pub struct Mention {
    pub object: u32,
    pub property: PropId,
}
