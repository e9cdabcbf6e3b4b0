/// What comes of an example.
#[derive(Clone, Copy, Debug)]
pub struct Summary {
    /// How many classes its source has.
    pub classes: u32,
    /// How many attributes these have.
    pub attributes: u32,
    /// How many objects the first enforcement made.
    pub created: u32,
    /// Whether the relations held then.
    pub holds: bool,
    /// Whether the second enforcement changed nothing.
    pub unchanged: bool,
}
