use ocl_environments::Metas;
use ocl_eval::Models;
use qv_syntax::Program;

/// What a check asks: do the relations of a program hold between models. Metamodels and models go by their numbers.
#[derive(Clone, Copy)]
pub struct Asked<'a, 'm> {
    pub metas: &'a Metas,
    pub program: &'a Program,
    pub models: &'a Models<'m>,
}
