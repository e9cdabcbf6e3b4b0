/// What becomes of an object of the target, as far as it is known.
#[derive(Clone, Copy)]
pub(crate) enum Fate {
    /// The same as of its container, if it has one; else it stays.
    Open,
    Stays,
    Goes,
}
