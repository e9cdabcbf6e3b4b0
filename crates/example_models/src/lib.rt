//! The example of classes and tables: its two metamodels, and source models of any size.
#![tactic(auto)]

mod cls;
mod descriptions;
mod limits;
mod names;
mod parts;
mod rdb;
mod source;

pub use cls::cls_metamodel;
pub use limits::{MAX_SOURCE_CLASSES, SEEDS};
pub use rdb::rdb_metamodel;
pub use source::gen_source;
