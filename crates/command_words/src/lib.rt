//! The arguments in the words behind a command's name, read by `clap`. Time and memory in proportion to
//! the words.
#![tactic(auto)]

mod command;
mod laws;
mod reading;
mod synopsis;

pub use laws::{arguments_are_read, one_list_of_arguments};
pub use reading::{WordsError, read_arguments};
pub use synopsis::Synopsis;
