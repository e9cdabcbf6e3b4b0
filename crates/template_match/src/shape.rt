use mof_metamodel::{ClassId, PropId};

/// What a template asks of an object without a look at values of variables.
#[derive(Clone, Copy)]
pub(crate) enum Feature {
    /// It is one of the class.
    Class(ClassId),
    /// Nothing stands at the property.
    Empty(PropId),
}

/// That of the object of a variable (QVT 1.3, section 7.11.2).
#[derive(Clone, Copy)]
pub(crate) struct Shape {
    /// The variable of the object.
    pub(crate) holder: u32,
    pub(crate) feature: Feature,
}
