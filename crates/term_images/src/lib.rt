//! The images of terms in the target model (QVT 1.3, section 7.10.2: a key tells the objects of a class apart): of each term of a table
//! the object of least number that conforms to its class and holds its key values, terms in them read by their own images. For each class
//! of which the table has a term, one pass over its objects makes an ordered table of the first with each list of key values, and a term
//! takes one look-up. Where an object of the class has several values or partners at a property of the key, which valid models of
//! enforceable scripts haven't, each term of that class takes a pass over the objects of the class.
#![tactic(auto)]

mod class_index;
mod extent;
mod finding;
mod held;
mod keys;
mod passing;
mod target;

pub use finding::images;
