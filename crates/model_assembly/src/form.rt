/// How a property is written in an object's element (XMI 2.5.1, clause 9).
#[derive(Clone, Copy)]
pub enum Form {
    /// One value, as an attribute.
    Attribute,
    /// Values, each as a child element's text.
    Elements,
    /// Partners, as an attribute of identifiers.
    Identifiers,
    /// Contained objects, each as a child element.
    Parts,
    /// A reference to the container, which the nesting of elements tells.
    Nesting,
}
