use crate::datum::Datum;
use mof_metamodel::Seq;

/// Values of variables: one place for each variable of a relation, with its value or nothing.
#[derive(Drop)]
pub struct Binding {
    pub values: Seq<Option<Datum>>,
}
