use ocl_eval::Models;
use qv_syntax::Program;
use std::alloc::Global;

/// What an entry is computed in: a program and its models.
#[derive(Clone, Copy)]
pub(crate) struct World<'a, 'm> {
    pub(crate) alloc: Global,
    pub(crate) program: &'a Program,
    pub(crate) models: &'a Models<'m>,
}
