//! The tokens of a script in QVT Relations (QVT 1.3, section 7.13, the concrete syntax) and of the OCL expressions
//! in it (OCL 2.4, chapter 9). `specs/Tokens.antt` is the grammar of tokens and says which are those of a text. Below it
//! `specs/Forms.antt` counts the bytes of each form of a token, and `specs/Lexed.antt` says the tokens of a text by these
//! counts, or its first fault. `specs/Lexemes.antt` says which word, sign, name, string or number a token is, and
//! `specs/Symbols.antt` makes the symbols of the expressions' grammar of them.
#![tactic(auto)]

mod cuts;
mod fault;
mod forms;
mod limits;
mod look;
mod names;
mod piece;
mod reading;
mod symbol;
mod terminals;
mod texts;
mod token;
mod token_laws;
mod tokens;
mod unquoting;
mod word;

pub use fault::{LexError, LexFault, LexKind};
pub use limits::{MAX_INTEGER, MAX_SCRIPT};
pub use look::peek;
pub use reading::lex;
pub use symbol::{PlainType, Symbol, Terminal};
pub use terminals::symbol_at;
pub use token::{Token, TokenKind};
pub use token_laws::tokens_are_counted;
pub use tokens::Tokens;
pub use unquoting::name_text;
