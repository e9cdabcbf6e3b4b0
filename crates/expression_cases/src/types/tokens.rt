use crate::types::faults::put_lex_fault;
use case_texts::Pen;
use ql_lex::{Tokens, lex};
use std::alloc::Global;

/// The tokens of a text: the kind, the text and the bytes of each.
pub(crate) fn put_tokens(alloc: Global, pen: &mut Pen, bytes: &[u8]) {
    let tokens = lex(alloc, bytes);
    match &tokens {
        Ok(tokens) => put_each(alloc, pen, tokens),
        Err(error) => put_lex_fault(alloc, pen, error),
    }
    drop(tokens);
}

fn put_each(alloc: Global, pen: &mut Pen, tokens: &Tokens<'_>) {
    for i in 0..tokens.len() {
        let token = tokens.token(i);
        let text = tokens.text(i);
        let kind = token.kind;
        let start = token.span.start;
        let end = token.span.end;
        if i > 0 {
            pen.put(", ");
        }
        pen.put_string(format!(in alloc; "{kind:?} {text} {start}..{end}"));
    }
}

/// How many tokens a text has.
pub(crate) fn put_count(alloc: Global, pen: &mut Pen, bytes: &[u8]) {
    let tokens = lex(alloc, bytes);
    match &tokens {
        Ok(tokens) => {
            let count = tokens.len();
            pen.put_string(format!(in alloc; "{count}"));
        }
        Err(error) => put_lex_fault(alloc, pen, error),
    }
    drop(tokens);
}
