/// A relation by its number, with its stratum.
#[derive(Clone, Copy)]
pub(crate) struct Ranked {
    pub(crate) stratum: u32,
    pub(crate) number: u32,
}
