/// The key of a class, by its number among the keys of the program.
#[derive(Clone, Copy)]
pub(crate) struct ClassKey {
    pub(crate) key: usize,
    /// Whether one of its properties may have several values.
    pub(crate) is_many: bool,
}
