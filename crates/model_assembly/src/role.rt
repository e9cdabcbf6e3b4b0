use crate::target::Target;
use mof_metamodel::Text;

/// An object's element: its number, the name of its class and the class, if one has the name and isn't abstract, and the
/// object that contains it with the property.
#[derive(Drop)]
pub struct ObjectRole {
    pub number: u64,
    pub named: Text,
    pub class: Option<u32>,
    pub within: Option<(u64, u32)>,
}

/// What an element is in the profile (XMI 2.5.1, clauses 7 and 9). Objects and properties go by their numbers.
#[derive(Drop)]
pub enum Role {
    /// The document, which has top objects.
    Document,
    /// What is passed over with all that it contains.
    Skipped,
    AnObject(ObjectRole),
    /// Of an object, at a property: a value, a reference, or neither a reference nor a contained object.
    AValue(u64, u32),
    AReference(u64, u32, Target),
    Neither(u64, u32),
    /// Of XMI's namespace, and not of the profile.
    Alien,
    /// In an object, of which it names no property.
    Stranger(u64),
    /// In the element of a value or of a reference.
    Misplaced(u64, u32),
}
