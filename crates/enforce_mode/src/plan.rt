use demand_set::NumberedDemands;
use made_objects::TermNumbers;
use object_tables::Model;
use qv_syntax::Program;

/// What is planned for a target: what is demanded of it, and which objects the demanded terms are.
#[derive(Drop)]
pub(crate) struct Plan<'r, 'm> {
    pub(crate) program: &'r Program,
    pub(crate) target: &'r Model<'m>,
    pub(crate) numbered: NumberedDemands<'r>,
    pub(crate) numbers: &'r TermNumbers,
}
