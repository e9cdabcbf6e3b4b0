//! The markup of model files: a profile of XML 1.0 (Fifth Edition) in UTF-8, without document types, read in
//! any pieces and written.
//!
//! The profile is narrower than XML: a document type (2.8) is a fault, entities are the five of 4.6, a name begins with an
//! ASCII letter, `_` or any character from U+0080 on and has one `:` at most (2.3), and elements nest `MAX_XMI_NESTING`
//! deep. It is wider in what it lets pass: `--` in comments (2.5), `]]>` in character data (2.4), in names each
//! character from U+0080 on (2.3), and an XML declaration (2.8) as any other instruction, wherever it stands and whatever
//! version and encoding it declares (4.3.3): the bytes are read as UTF-8. Prefixes need no declaration.
#![tactic(auto)]

mod attributes;
mod automaton;
mod byte_class;
mod document_laws;
mod error;
mod fault_laws;
mod first_fault_laws;
mod fixed_laws;
mod laws;
mod limits;
mod mark;
mod names;
mod reader;
mod reference;
mod state;
mod steps;
mod utf_eight;
mod writer;

pub use document_laws::{
    first_bytes_are_read, marks_have_places, marks_tell_documents, one_document_tree,
};
pub use error::{TextError, TextFault, TextKind};
pub use fault_laws::{faults_stand, marks_stop};
pub use first_fault_laws::{documents_have_no_fault, no_fault_is_missed, told_fault_is_first};
pub use fixed_laws::{given_answers_are_fixed, not_yet_is_open};
pub use laws::{
    completions_end, documents_are_read, documents_begin, faultless_bytes_are_documents,
    faults_have_places, faults_stay, marks_stay, one_tree, trees_are_documents,
};
pub use limits::MAX_XMI_NESTING;
pub use mark::{Attr, Mark, Step};
pub use names::is_name;
pub use reader::Reader;
pub use writer::Writer;
