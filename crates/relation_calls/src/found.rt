use crate::outcome::Outcome;
use mof_metamodel::Seq;
use qvtr_semantics::Binding;

/// The bindings that meet the source of a relation, in order, and what comes of each.
#[derive(Drop)]
pub(crate) struct Found {
    pub(crate) bindings: Seq<Binding>,
    pub(crate) outcomes: Seq<Outcome>,
}
