//! Which objects of the target stay when it is repaired (QVT 1.3, sections 7.2 and 7.10.2; which objects these are is this engine's
//! own): an object of a class of which enforcement makes objects goes where no demand asks for it, and takes along what it contains.
//!
//! For each class of the metamodel it is found once whether its objects are of a managed class. Then each object gets its fate from the
//! first object on the way up its containers of which that is known, and so do those on the way. So the time is linear in the objects and
//! their properties, but for cycles of containers, which no valid model has: each is walked once, in as many steps as there are objects.
#![tactic(auto)]

mod classes;
mod climbing;
mod fate;
mod fates;
mod kinds;
mod marks;
mod nested;
mod repair;
mod settling;

pub use classes::managed_classes;
pub use settling::staying;
