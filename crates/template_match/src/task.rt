use crate::join::Join;
use crate::link::Link;
use crate::side::Side;
use ocl_eval::Models;
use qv_syntax::{Program, Rel};
use std::alloc::Global;

/// What is looked for: the bindings of a side of a relation, with the links of the side's templates, the
/// variables that get values, and the joins in whose rows they stand.
#[derive(Clone, Copy)]
pub(crate) struct Task<'a, 'm> {
    pub(crate) alloc: Global,
    pub(crate) side: Side,
    pub(crate) program: &'a Program,
    pub(crate) models: &'a Models<'m>,
    pub(crate) rel: &'a Rel,
    pub(crate) links: &'a [Link],
    pub(crate) variables: &'a [u32],
    pub(crate) joins: &'a [Join<'a>],
}
