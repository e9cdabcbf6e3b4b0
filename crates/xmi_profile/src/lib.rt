//! Models as files of XMI (XMI 2.5.1): a profile whose text is a tree of elements, each of them an object, a value or a reference.
#![tactic(auto)]

mod answer_laws;
mod attributes;
mod element;
mod fault;
mod fault_laws;
mod filed_objects;
mod filing;
mod judging;
mod lexical;
mod listing;
mod listing_laws;
mod met;
mod model_reader;
mod model_reading;
mod names;
mod numbering;
mod objects;
mod reading;
mod roles;
mod targets;
mod words;
mod writing;
mod writing_laws;

pub use answer_laws::{files_are_answered, one_fault};
pub use fault::XmiError;
pub use model_reader::ModelReader;
pub use model_reading::read_model;
pub use writing::write_model;
pub use writing_laws::{
    documents_are_written, identifiers_are_read_back, models_are_read_back, names_are_read_back,
    objects_are_written_once, one_model, texts_tell_models, values_are_read_back,
    written_models_are_accepted, written_models_are_read,
};
