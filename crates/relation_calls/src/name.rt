use qvtr_semantics::Binding;

/// A call of a relation: its number, and the values of the roots of its domains (QVT 1.3, section 7.10.2).
#[derive(Drop)]
pub struct CallName {
    pub rel: u32,
    pub roots: Binding,
}
