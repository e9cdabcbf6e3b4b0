use mof_metamodel::Seq;
use ocl_eval::Scope;
use term_table::NumberedValue;

/// All that is known in an entry: the values of its variables, those that it makes among them, and the same data as values of
/// expressions, which may be null or invalid too.
#[derive(Drop)]
pub struct NumberedKnown {
    pub values: Seq<Option<NumberedValue>>,
    pub scope: Scope,
}
