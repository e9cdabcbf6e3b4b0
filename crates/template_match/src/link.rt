use mof_metamodel::PropId;

/// That the value of a variable stands in a slot of the object of another (QVT 1.3, section 7.11.2.3).
#[derive(Clone, Copy)]
pub struct Link {
    /// The variable of the object.
    pub holder: u32,
    /// The property whose slot it is.
    pub prop: PropId,
    /// The variable whose value stands there.
    pub variable: u32,
}
