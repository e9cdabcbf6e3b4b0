//! What an entry of a relation makes (QVT 1.3, sections 7.2.3, 7.10.1 and 7.10.2), by numbers: the values that equations give to its
//! variables, the terms that keys give, the place at which it is unmet, the calls of its clauses and the demands of its items.
//!
//! What doesn't depend on the entry is found once for a relation, as its `Recipe`: the items of the target template in a list, equations and
//! variables with keys in an order in which each stands behind what it waits for, and where the values of key properties come from. An
//! entry is then computed in one pass, in the time that its expressions take.
#![tactic(auto)]

mod calls;
mod content;
mod demands;
mod equations;
mod item_demand;
mod items;
mod keyed;
mod keys;
mod known;
mod numbered_call;
mod numbered_known;
mod order;
mod origin;
mod ranked;
mod recipe;
mod scopes;
mod unmet;
mod values;
mod world;

pub use calls::calls_made;
pub use content::{Content, OwnedItem};
pub use demands::demands_made;
pub use item_demand::ItemDemand;
pub use known::{bound_known, known_in};
pub use numbered_call::NumberedCall;
pub use numbered_known::NumberedKnown;
pub use origin::Origin;
pub use recipe::{Recipe, recipe_of};
pub use unmet::unmet_place;
