//! Models: objects of a metamodel's classes with their attribute values and links (MOF 2.5.1, Reflection and the
//! semantics of properties and associations).
//!
//! Contracts see a model as its metamodel's description and, for each number, the object that has it or nothing: its class,
//! its identifier and a slot for each property of its class, in class order, with the values of an attribute and the
//! partners of a reference. Each edit is one equation between two such data.
//!
//! What an edit asks of its caller is told by a test, exactly: `has_property`, `has_reference`, `has_attribute`, `may_hold`,
//! `may_be_partner`, `is_free`, `linked` and `is_order`.
//!
//! Costs: `class_of`, `id_of`, `by_id`, `is_live`, `len`, `end`, `partner_count` and the tests of properties are constant; `attr`, `set_attr`
//! and `partners` take what is given or returned, `incoming` the links that it gives, `collect_into` the partners that are left, and `may_hold` the square of the number of values; `linked`, `link` and
//! `unlink` the smaller of the numbers of partners of the two ends; `set_order` the number of partners, and `is_order` sorts
//! them; `add`, `container`, `is_top` and `is_free` the number of properties of the objects' classes; `delete` that and the
//! links of the object; `depth` what `container` takes for each container above; `duplicate` the places, values and links of
//! all objects. `first_breach`, `find_cycle` and `greatest_depth` are linear in the objects and their properties, and take
//! four bytes for each object while they run. `validity` and `least_on_cycle` take no memory: they are linear where
//! containers come before what they contain, and at worst the square of the number of objects. What takes memory is
//! amortised. Identifiers are hashed by SipHash, and kept once.
//! An object takes one place for each property of its class and two more. A place that holds nothing takes
//! eight bytes, one with values 24 more besides the values, one that is or was joined to others 40 more, and
//! each link 48. A deleted object keeps its places, and what its identifier was found by.
#![tactic(auto)]

mod breach;
mod fault;
mod identifiers;
mod incoming;
mod keys;
mod limit;
mod model;
mod partners;
mod places;
mod sameness;
mod tables;
mod value;

pub use breach::{Breach, BreachKind};
pub use fault::AddFault;
pub use incoming::Incoming;
pub use keys::HashKey;
pub use limit::{LimitKind, MAX_ADDED, MAX_DEPTH, MAX_OBJECTS};
pub use model::Model;
pub use partners::Partners;
pub use sameness::{models_equal, same_back, same_through};
pub use value::{ObjId, Value};
