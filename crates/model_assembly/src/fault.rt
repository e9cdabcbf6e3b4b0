ghost use Rattle.std.specs.Prelude.{◌≡◌};
ghost use Rattle.model_assembly.specs.Words.{fault_word};

use mof_metamodel::Text;
use object_tables::{Breach, LimitKind};

/// What a reference to something outside the file may name.
#[derive(Clone, Copy)]
pub enum Externs {
    /// Nothing.
    None,
    /// The primitive types `String`, `Integer` and `Boolean`, each an object of the class `PrimitiveType`.
    Primitives,
}

/// Why a tree of elements is no model. `id` is the identifier of the object in whose element the fault stands.
#[derive(Drop)]
pub enum ModelFault {
    /// No concrete class has this name, or an element of XMI's namespace isn't of the profile.
    UnknownClass {
        name: Text,
    },
    /// The class of the object has no such property, or an attribute has no meaning where it stands.
    UnknownProperty {
        id: Text,
        prop: Text,
    },
    /// A text is no value of the property's type, or an identifier is none, or something stands where it may not.
    WrongValue {
        id: Text,
        prop: Option<Text>,
    },
    /// An earlier object has the identifier.
    DuplicateId {
        id: Text,
    },
    /// What a reference names is no object of the property's type.
    Dangling {
        id: Text,
        prop: Text,
        reference: Text,
    },
    /// The object is contained twice.
    TwoContainers {
        id: Text,
    },
    /// An object names another one, which at the opposite names others.
    Mismatch {
        id: Text,
        prop: Text,
        other: Text,
        other_prop: Text,
    },
    /// The model isn't valid. The text is the identifier of the breach's object.
    Invalid(Breach, Text),
    /// The model has too many objects, or nests them too deeply.
    Limit(LimitKind),
}

impl ModelFault {
    /// The word that is printed of the kind of fault.
    pub fn word(&self) -> &'static str
        ensures { result.now ≡ fault_word self.now }
    {
        match self {
            ModelFault::UnknownClass { .. } => "UnknownClass",
            ModelFault::UnknownProperty { .. } => "UnknownProperty",
            ModelFault::WrongValue { .. } => "WrongValue",
            ModelFault::DuplicateId { .. } => "DuplicateId",
            ModelFault::Dangling { .. } => "Dangling",
            ModelFault::TwoContainers { .. } => "TwoContainers",
            ModelFault::Mismatch { .. } => "Mismatch",
            ModelFault::Invalid(_, _) => "Invalid",
            ModelFault::Limit(_) => "Limit",
        }
    }
}
