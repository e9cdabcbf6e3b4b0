use mof_metamodel::PropId;
use qv_syntax::Typed;

/// What asks that its value stands in a slot.
#[derive(Clone, Copy)]
pub(crate) enum AskedBy<'a> {
    /// An item of a template, with its expression (QVT 1.3, section 7.11.2.3). Null and invalid stand in no
    /// slot.
    Item(&'a Typed),
    /// A condition `x.p = e`, with e (section 7.11.1.4). Where that is null an empty slot is asked for.
    Condition(&'a Typed),
    /// An equation `v = x.p`, with the variable.
    Equation(u32),
}

/// What is asked of a slot of the object of a variable.
#[derive(Clone, Copy)]
pub(crate) struct Asked<'a> {
    /// The variable of the object.
    pub(crate) holder: u32,
    /// The property whose slot it is.
    pub(crate) prop: PropId,
    /// What asks it.
    pub(crate) by: AskedBy<'a>,
}
