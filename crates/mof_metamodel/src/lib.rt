//! Metamodels: the class part of MOF (EMOF's `Class`, `Property` and `Enumeration`), and the small types in which
//! every crate above keeps texts, lists and boxed values.
#![tactic(auto)]

mod boxed;
mod checks;
mod circles;
mod desc;
mod duplicates;
mod entries;
mod fault;
mod heirs;
mod hierarchy;
mod laws;
mod limits;
mod lineages;
mod memory;
mod meta;
mod name_index;
mod name_table;
mod named;
mod names;
mod numbering;
mod ordered;
mod prop_names;
mod reached;
mod ready;
mod resolved;
mod seq;
mod span;
mod subclasses;
mod text;

pub use boxed::Boxed;
pub use desc::{
    ClassDesc, ClassId, EnumDesc, EnumId, MetaDesc, OppDesc, Prop, PropDesc, PropId, PropType,
};
pub use fault::{MetaError, MetaFault, MetaKind};
pub use laws::{first_fault_stands, well_where_no_fault};
pub use limits::{MAX_CLASSES, MAX_ENUMS, MAX_LITERALS, MAX_PROPS};
pub use memory::NoMemory;
pub use meta::MetaModel;
pub use name_table::NameTable;
pub use names::{is_blank, is_blank_character, is_identifier, is_storable};
pub use seq::Seq;
pub use span::Span;
pub use text::Text;
