use mof_metamodel::{Seq, Span, Text};

/// A name at a place of a script. A quoted name, `_'..'`, is there as the text that it stands for.
#[derive(Drop)]
pub struct Name {
    pub text: Text,
    pub span: Span,
}

/// Names with `::` between them: `C`, `M::C`, `E::literal` or `M::E::literal`.
#[derive(Drop)]
pub struct Path {
    pub names: Seq<Name>,
    pub span: Span,
}
