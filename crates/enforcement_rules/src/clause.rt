/// A clause of a relation (QVT 1.3, section 7.11.1.4).
#[derive(Clone, Copy)]
pub(crate) enum Clause {
    When,
    Where,
}
