//! A plain account of the model that a repair makes of the target (QVT 1.3, section 7.2 on enforcement; which model it makes is this engine's
//! own): the definitions of images, of objects that go, of claims and of slots, done one after another by trying all, without an index. It
//! is slow, and for small models. Nothing of it is proved but that it is safe and ends.
#![tactic(auto)]

mod against;
mod claims;
mod contents;
mod data;
mod facts;
mod images;
mod models;
mod objects;
mod outcome;
mod repaired;
mod slots;
mod told;

pub use data::put_datum;
pub use models::put_model;
pub use outcome::{Outcome, put_breach, put_limit, put_report};
pub use repaired::{account_repair, put_repaired};
pub use told::Told;
