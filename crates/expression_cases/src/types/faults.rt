use case_texts::Pen;
use ocl_parser::ParseError;
use ql_lex::LexError;
use std::alloc::Global;

fn put_placed(alloc: Global, pen: &mut Pen, word: &str, at: usize) {
    pen.put_string(format!(in alloc; "{word} {at}"));
}

/// A fault of tokens: its kind and its place.
pub(crate) fn put_lex_fault(alloc: Global, pen: &mut Pen, error: &LexError) {
    match error {
        LexError::Fault(fault) => put_placed(alloc, pen, fault.kind.word(), fault.at),
        LexError::NoMemory => pen.put("no memory"),
    }
}

/// A fault of the grammar: its kind and its place.
pub(crate) fn put_parse_fault(alloc: Global, pen: &mut Pen, error: &ParseError) {
    match error {
        ParseError::Parse { at } | ParseError::Limit { at } => {
            put_placed(alloc, pen, error.word(), *at);
        }
        ParseError::NoMemory => pen.put("no memory"),
    }
}
