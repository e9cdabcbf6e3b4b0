use mof_metamodel::Text;

/// A name that an expression uses (OCL 2.4, section 9.4).
#[derive(Drop)]
pub enum Usage {
    /// A variable that the expression itself doesn't bring in.
    Variable(Text),
    /// What is called by its name alone, as in `name(args)`: a query, or a relation.
    Call(Text),
}
