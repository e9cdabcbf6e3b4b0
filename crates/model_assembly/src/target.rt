use mof_metamodel::Text;

/// What a word of an attribute, `xmi:idref`, `href` or a contained object names (XMI 2.5.1, 7.10).
#[derive(Drop)]
pub enum Target {
    /// An identifier.
    Named(Text),
    /// A primitive type outside the file, which is added where the file has no such identifier.
    Extern(Text),
    /// The object of this number, which is written in place.
    Contained(u64),
    /// Nothing, by this text.
    Nowhere(Text),
}
