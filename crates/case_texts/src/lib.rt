//! What programs of cases read and write with: the bytes that the text of a case stands for, and a text that is written piece
//! by piece.
#![tactic(auto)]

mod expansion;
mod pen;

pub use expansion::expanded;
pub use pen::Pen;
