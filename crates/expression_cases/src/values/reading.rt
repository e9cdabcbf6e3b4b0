//! Expressions by their text.
use case_texts::expanded;
use mof_metamodel::NoMemory;
use ocl_environments::{Env, TypeError};
use ocl_parser::{ParseError, parse_expr};
use ocl_types::type_expr;
use ql_lex::{LexError, Tokens, lex};
use qv_syntax::{Expr, Typed};
use std::alloc::Global;

/// Why a text is no expression.
#[derive(Clone, Copy)]
pub(crate) struct Fault(pub(crate) &'static str);

impl From<NoMemory> for Fault {
    fn from(_error: NoMemory) -> Fault {
        Fault("no memory")
    }
}

impl From<LexError> for Fault {
    fn from(error: LexError) -> Fault {
        match error {
            LexError::Fault(fault) => Fault(fault.kind.word()),
            LexError::NoMemory => Fault("no memory"),
        }
    }
}

impl From<ParseError> for Fault {
    fn from(error: ParseError) -> Fault {
        let word = error.word();
        drop(error);
        Fault(word)
    }
}

impl From<TypeError> for Fault {
    fn from(error: TypeError) -> Fault {
        match error {
            TypeError::Fault(fault) => {
                let word = fault.word();
                drop(fault);
                Fault(word)
            }
            TypeError::NoMemory => Fault("no memory"),
        }
    }
}

/// The expression that bytes are.
fn read_bytes(alloc: Global, bytes: &[u8]) -> Result<Expr, Fault> {
    let tokens = lex(alloc, bytes)?;
    let expr = read(alloc, &tokens);
    drop(tokens);
    expr
}

/// The expression of a text.
fn parsed(alloc: Global, text: &str) -> Result<Expr, Fault> {
    let bytes = expanded(alloc, text)?;
    let expr = read_bytes(alloc, bytes.as_slice());
    drop(bytes);
    expr
}

/// The same with its types.
pub(crate) fn typed(alloc: Global, env: &Env<'_>, text: &str) -> Result<Typed, Fault> {
    let expr = parsed(alloc, text)?;
    let typed = type_expr(alloc, env, &expr);
    drop(expr);
    Ok(typed?)
}

/// The expression that the tokens are, with nothing behind it.
fn read(alloc: Global, tokens: &Tokens<'_>) -> Result<Expr, Fault> {
    let (expr, end) = parse_expr(alloc, tokens, 0)?;
    if end == tokens.len() {
        Ok(expr)
    } else {
        drop(expr);
        Err(Fault("Parse"))
    }
}
