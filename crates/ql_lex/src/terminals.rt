ghost use Rattle.std.specs.Prelude.{◌≡◌, slice_get, IfOk};
ghost use Rattle.std.specs.Str.{chars};
ghost use Rattle.ql_lex.specs.Lexemes.{integer_of, name_text as text_of_name};
ghost use Rattle.ql_lex.specs.Unquoting.{unquoted};
ghost use Rattle.ql_lex.specs.Symbols.{name_symbol as name_meant, number_symbol as number_meant, signs, string_symbol as string_meant, symbol_among, symbol_by, terminal_of, words};

use crate::look::peek;
use crate::symbol::{PlainType, Symbol, Terminal};
use crate::token::{Token, TokenKind};
use crate::tokens::Tokens;
use crate::unquoting::{integer_value, name_text, unquote};
use mof_metamodel::{NoMemory, Span};
use qv_syntax::{Kind, Literal, Name, Operator};
use std::alloc::Global;

/// The symbol of a reserved word.
fn word_symbol(word: &str) -> Symbol
    ensures { result ≡ symbol_among word.now words }
{
    match word {
        "let" => Symbol::Let,
        "in" => Symbol::In,
        "if" => Symbol::If,
        "then" => Symbol::Then,
        "else" => Symbol::Else,
        "endif" => Symbol::Endif,
        "not" => Symbol::Not,
        "null" => Symbol::Null,
        "invalid" => Symbol::Invalid,
        "true" => Symbol::Bool(true),
        "false" => Symbol::Bool(false),
        "Set" => Symbol::Kind(Kind::Set),
        "Bag" => Symbol::Kind(Kind::Bag),
        "Sequence" => Symbol::Kind(Kind::Sequence),
        "OrderedSet" => Symbol::Kind(Kind::OrderedSet),
        "String" => Symbol::Plain(PlainType::Str),
        "Integer" => Symbol::Plain(PlainType::Int),
        "Boolean" => Symbol::Plain(PlainType::Bool),
        "implies" => Symbol::Operator(Operator::Implies),
        "xor" => Symbol::Operator(Operator::Xor),
        "or" => Symbol::Operator(Operator::Or),
        "and" => Symbol::Operator(Operator::And),
        _ => Symbol::Other,
    }
}

/// The symbol of a sign.
fn sign_symbol(sign: &str) -> Symbol
    ensures { result ≡ symbol_among sign.now signs }
{
    match sign {
        "(" => Symbol::OpenParenthesis,
        ")" => Symbol::CloseParenthesis,
        "{" => Symbol::OpenBrace,
        "}" => Symbol::CloseBrace,
        "," => Symbol::Comma,
        ":" => Symbol::Colon,
        "::" => Symbol::DoubleColon,
        "." => Symbol::Dot,
        "->" => Symbol::Arrow,
        "|" => Symbol::Bar,
        "=" => Symbol::Operator(Operator::Equal),
        "<>" => Symbol::Operator(Operator::NotEqual),
        "<" => Symbol::Operator(Operator::Less),
        ">" => Symbol::Operator(Operator::Greater),
        "<=" => Symbol::Operator(Operator::AtMost),
        ">=" => Symbol::Operator(Operator::AtLeast),
        "+" => Symbol::Operator(Operator::Plus),
        "-" => Symbol::Operator(Operator::Minus),
        "*" => Symbol::Operator(Operator::Times),
        _ => Symbol::Other,
    }
}

/// The symbol of a number, if it is an Integer.
fn number_symbol(digits: &str) -> Symbol
    ensures { result ≡ number_meant (integer_of digits.now) }
{
    match integer_value(digits) {
        Some(value) => Symbol::Number(value),
        None => Symbol::Other,
    }
}

/// The symbol of a string, if its characters are storable.
fn string_symbol(alloc: Global, text: &str) -> Result<Symbol, NoMemory>
    ensures { IfOk result (λ s. s ≡ string_meant (unquoted (chars text.now))) }
{
    match Literal::new(unquote(alloc, text)?) {
        Some(value) => Ok(Symbol::Str(value)),
        None => Ok(Symbol::Other),
    }
}

/// The symbol of a name.
fn name_symbol(alloc: Global, kind: TokenKind, text: &str, span: Span) -> Result<Symbol, NoMemory>
    ensures { IfOk result (λ s. s ≡ name_meant (text_of_name kind text.now) span) }
{
    match name_text(alloc, kind, text)? {
        Some(text) => Ok(Symbol::Name(Name { text, span })),
        None => Ok(Symbol::Other),
    }
}

/// The symbol of a token.
fn token_symbol(alloc: Global, token: Token, text: &str) -> Result<Symbol, NoMemory>
    ensures { IfOk result (λ s. s ≡ symbol_by token.kind text.now token.span) }
{
    match token.kind {
        TokenKind::Name => name_symbol(alloc, TokenKind::Name, text, token.span),
        TokenKind::Quoted => name_symbol(alloc, TokenKind::Quoted, text, token.span),
        TokenKind::Reserved => Ok(word_symbol(text)),
        TokenKind::Number => Ok(number_symbol(text)),
        TokenKind::Str => string_symbol(alloc, text),
        TokenKind::Sign => Ok(sign_symbol(text)),
    }
}

/// The symbol of the token of this number, and where it stands. Behind the last token nothing stands.
pub fn symbol_at(alloc: Global, tokens: &Tokens<'_>, at: usize) -> Result<Terminal, NoMemory>
    ensures { IfOk result (λ t. t ≡ terminal_of (slice_get tokens.now.lexemes at)) }
{
    match peek(tokens, at) {
        Some((token, text)) => {
            let symbol = token_symbol(alloc, token, text)?;
            Ok(Terminal {
                symbol,
                span: token.span,
            })
        }
        None => Ok(Terminal {
            symbol: Symbol::Other,
            span: Span { start: 0, end: 0 },
        }),
    }
}
