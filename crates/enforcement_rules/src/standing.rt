use mof_metamodel::PropId;
use qv_syntax::Tmpl;

/// Where a template stands in another (QVT 1.3, section 7.11.2): at a property of the template of this variable.
#[derive(Clone, Copy)]
pub struct Place {
    pub parent: u32,
    pub prop: PropId,
}

/// A template with its place; that of a domain has none.
#[derive(Clone, Copy)]
pub(crate) struct Standing<'a> {
    pub(crate) template: &'a Tmpl,
    pub(crate) at: Option<Place>,
}
