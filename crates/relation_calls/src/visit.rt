use crate::name::CallName;
use ocl_eval::Models;
use qv_syntax::{Program, Rel};
use std::alloc::Global;
use template_match::Plan;

/// A visit to a relation by a call. `upto` is the chain of calls in where clauses that ends with this call; it is empty where a match is
/// asked for, or where a check begins with the relation.
#[derive(Clone, Copy)]
pub(crate) struct Visit<'a, 'm> {
    pub(crate) alloc: Global,
    pub(crate) program: &'a Program,
    pub(crate) models: &'a Models<'m>,
    pub(crate) rel: &'a Rel,
    pub(crate) plan: &'a Plan,
    pub(crate) upto: &'a [CallName],
}
