use crate::class_key::ClassKey;
use ocl_environments::Metas;
use qv_syntax::{Program, Rel};
use std::alloc::Global;

/// A relation of a program whose rules are asked, with what is found once for the program.
#[derive(Clone, Copy)]
pub(crate) struct Task<'a> {
    pub(crate) alloc: Global,
    pub(crate) program: &'a Program,
    pub(crate) metas: &'a Metas,
    pub(crate) rel: &'a Rel,
    /// The number of the target's metamodel.
    pub(crate) meta: u32,
    /// For each query whether it reads objects of the target.
    pub(crate) readers: &'a [bool],
    /// The key of each class of the target's metamodel.
    pub(crate) keys: &'a [Option<ClassKey>],
}
