/// What an expression names (OCL 2.4, section 8.3).
#[derive(Clone, Copy)]
pub(crate) enum Mention {
    /// A variable, by its number.
    Variable(u32),
    /// A query that it calls, by its number.
    Query(u32),
    /// The extent of a class in the model of this number.
    Extent(u32),
}
