//! The string literals of a program hold storable characters. Each literal keeps it by its type, which a contract on trees doesn't see; a walk over the
//! program learns it of each, in time linear in the program, and changes nothing.
#![tactic(auto)]

mod expressions;
mod programs;

pub use programs::texts_are_storable;
