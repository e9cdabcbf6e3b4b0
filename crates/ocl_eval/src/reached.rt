use crate::growing::Growing;
use crate::running::Running;

/// A value on which something is called: one that stands for itself, that of a variable, which isn't copied
/// before it has to be, or a collection to which more may be brought.
#[derive(Drop)]
pub(crate) enum Reached {
    Own(Running),
    Variable(u32),
    Growing(Growing),
}
