//! The lines that are printed of faults: words with one space between, of which the first says what is so, and the second or third is the
//! path of the file. Time and memory in proportion to the line.
#![tactic(auto)]

mod lines;

pub use lines::line;
