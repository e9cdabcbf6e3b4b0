use object_tables::Model;
use qv_syntax::Program;
use std::alloc::Global;

/// The target of a program, in which images are looked for.
#[derive(Clone, Copy)]
pub(crate) struct Target<'a, 'm> {
    pub(crate) alloc: Global,
    pub(crate) program: &'a Program,
    pub(crate) model: &'a Model<'m>,
}
