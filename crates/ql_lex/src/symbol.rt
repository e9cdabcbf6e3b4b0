use mof_metamodel::Span;
use qv_syntax::{Kind, Literal, Name, Operator};

/// A token as the grammar sees it.
#[derive(Drop)]
pub enum Symbol {
    Let,
    In,
    If,
    Then,
    Else,
    Endif,
    Not,
    Null,
    Invalid,
    Bool(bool),
    Number(i64),
    Str(Literal),
    Name(Name),
    Kind(Kind),
    Plain(PlainType),
    Operator(Operator),
    OpenParenthesis,
    CloseParenthesis,
    OpenBrace,
    CloseBrace,
    Comma,
    Colon,
    DoubleColon,
    Dot,
    Arrow,
    Bar,
    /// A token that no expression has, or the end of the text.
    Other,
}

/// `String`, `Integer` and `Boolean`.
#[derive(Clone, Copy)]
pub enum PlainType {
    Str,
    Int,
    Bool,
}

/// A symbol and where it stands.
#[derive(Drop)]
pub struct Terminal {
    pub symbol: Symbol,
    pub span: Span,
}
