use qvtr_semantics::Binding;

/// What a check comes to.
#[derive(Drop)]
pub enum Verdict {
    /// The relations are satisfied.
    Yes,
    /// They aren't. The first relation of the text that fails, by its number, with its least failing binding.
    No { relation: u32, binding: Binding },
}
