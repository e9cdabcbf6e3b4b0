use mof_metamodel::{Seq, Text};

/// A file of a vault in memory.
#[derive(Drop)]
pub struct NamedFile {
    pub name: Text,
    pub bytes: Seq<u8>,
}
