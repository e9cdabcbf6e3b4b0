use crate::asked::Asked;
use crate::shape::Shape;
use crate::task::Task;

/// A task, for each variable whether it is sought, and what the side asks of slots, and of objects alone.
#[derive(Clone, Copy)]
pub(crate) struct Prepared<'s, 'a, 'm> {
    pub(crate) task: &'s Task<'a, 'm>,
    pub(crate) sought: &'s [bool],
    pub(crate) asked: &'s [Asked<'a>],
    pub(crate) shapes: &'s [Shape],
}
