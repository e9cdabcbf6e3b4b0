use entry_finding::World;
use entry_tops::Tops;

/// On what a walk goes: the program over its models, and the entries of top relations.
#[derive(Clone, Copy)]
pub(crate) struct Ground<'a, 'p, 'm> {
    pub(crate) world: World<'a, 'p, 'm>,
    pub(crate) tops: &'a Tops,
}
