//! The top call of the engine.
#![tactic(auto)]

mod check_request;
mod check_words;
mod command;
mod command_name;
mod concluding;
mod convert_words;
mod converting;
mod executing;
mod gen_words;
mod generating;
mod input_names;
mod judging;
mod last_steps;
mod limits;
mod mended;
mod mode;
mod numbering_inputs;
mod outcome;
mod paths;
mod putting;
mod reading_files;
mod reading_inputs;
mod rendering;
mod reporting;
mod script_input;
mod status;
mod text_set;
mod top;

pub use limits::MAX_FILE;
pub use mended::{enforced_files_are_mended, satisfied_files_are_kept};
pub use status::Status;
pub use top::{one_answer, run};
