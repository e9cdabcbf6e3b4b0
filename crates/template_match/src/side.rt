/// A side of a relation (QVT 1.3, section 7.10.1).
#[derive(Clone, Copy)]
pub enum Side {
    /// Universal variables, the when clause, and the domains of models that aren't the target.
    Source,
    /// Existential variables, the where clause, and the domain of the target.
    Target,
}
