/// What the enforcements and the check of an example come to.
#[derive(Clone, Copy)]
pub(crate) struct Outcome {
    pub(crate) created: u32,
    pub(crate) holds: bool,
    pub(crate) unchanged: bool,
}
