use crate::models::Models;
use qv_syntax::Program;
use std::alloc::Global;

/// What an expression is evaluated in: a program, its models, and how many calls of queries may still be made within one another.
#[derive(Clone, Copy)]
pub(crate) struct World<'a, 'm> {
    pub(crate) alloc: Global,
    pub(crate) program: &'a Program,
    pub(crate) models: &'a Models<'m>,
    pub(crate) calls: usize,
}
