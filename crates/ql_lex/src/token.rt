use mof_metamodel::Span;

/// What kind of token it is. Which word or sign, the token's text says.
#[derive(Clone, Copy, Debug)]
pub enum TokenKind {
    /// A name that is not reserved.
    Name,
    /// A name in quotes, `_'..'`, which stands for the text inside, reserved or not.
    Quoted,
    /// A reserved word.
    Reserved,
    /// Decimal digits.
    Number,
    /// A string, `'..'`.
    Str,
    /// A sign of one or two characters.
    Sign,
}

/// A token, and the bytes of the script at which it stands.
#[derive(Clone, Copy)]
pub struct Token {
    pub kind: TokenKind,
    pub span: Span,
}
