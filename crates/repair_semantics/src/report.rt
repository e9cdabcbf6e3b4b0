/// What a repair changes in the target: how many objects it makes, changes and deletes.
#[derive(Clone, Copy)]
pub struct Report {
    pub created: u32,
    pub updated: u32,
    pub deleted: u32,
    /// Whether the target stays as it is.
    pub unchanged: bool,
}
