//! Indexes over models: which objects hold a value at an attribute, and which are of a class.
//!
//! An index is made of a model in one pass and speaks of it as it was then; it doesn't follow later edits. It is two sorted tables:
//! one with an entry for each value in a slot of an attribute, and one with each object and its class. So building it takes n log n
//! time in the number n of these values and objects, and the memory of the values once more; a look-up takes the logarithm of n, and
//! no memory. Values are ordered, not hashed: their texts are chosen by strangers, and no choice of them makes a look-up slow.
#![tactic(auto)]

mod building;
mod extent;
mod holder;
mod instance;
mod key_index;
mod kind;
mod order;

pub use extent::Extent;
pub use holder::Holder;
pub use key_index::KeyIndex;
pub use kind::is_kind_of;
pub use order::value_order;
