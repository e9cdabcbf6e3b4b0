use crate::types::faults::{put_lex_fault, put_parse_fault};
use case_texts::Pen;
use ocl_parser::parse_expr;
use ql_lex::{Tokens, lex};
use qv_syntax::Expr;
use std::alloc::Global;

/// An expression with which a text begins.
#[derive(Drop)]
pub(crate) struct Reading {
    pub(crate) expr: Expr,
    /// The number of the token behind it.
    pub(crate) end: usize,
    /// How many tokens the text has.
    pub(crate) count: usize,
}

/// The expression with which a text begins. Where there is none, the fault is written.
pub(crate) fn read(alloc: Global, pen: &mut Pen, bytes: &[u8]) -> Option<Reading> {
    match lex(alloc, bytes) {
        Ok(tokens) => {
            let reading = read_tokens(alloc, pen, &tokens);
            drop(tokens);
            reading
        }
        Err(error) => {
            put_lex_fault(alloc, pen, &error);
            None
        }
    }
}

fn read_tokens(alloc: Global, pen: &mut Pen, tokens: &Tokens<'_>) -> Option<Reading> {
    match parse_expr(alloc, tokens, 0) {
        Ok((expr, end)) => Some(Reading {
            expr,
            end,
            count: tokens.len(),
        }),
        Err(error) => {
            put_parse_fault(alloc, pen, &error);
            None
        }
    }
}
