use mof_metamodel::ClassId;
use object_tables::{Model, ObjId};

/// A target that is repaired, with the classes of which enforcement makes objects, and the images of the demanded terms.
#[derive(Clone, Copy)]
pub(crate) struct Repair<'a, 'm> {
    pub(crate) target: &'a Model<'m>,
    pub(crate) classes: &'a [ClassId],
    pub(crate) images: &'a [ObjId],
}
