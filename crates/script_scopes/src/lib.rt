//! What names in scripts stand for (QVT 1.3, section 7.11): what a script declares, where a name is used, and which relation a call reaches.
//!
//! The code decides three kinds of faults of a whole script, those of names (`refuse_names`), of calls (`refuse_calls`) and of cycles with a
//! call in a when clause (`relation_strata`, which else gives the strata). Beside these it has the parts from which a resolver is made:
//! what a script declares (`relations_of`, `keys_of`, `queries_of`), its models with the numbers of their metamodels (`slots_of`), the
//! names that an expression uses (`add_usages`), the pieces of templates in the order of the text (`add_pieces`), each with its model
//! (`located_pieces`), the conjuncts of clauses (`clause_conjuncts`), the variables of a relation with their numbers (`variables_of`), and
//! which of them are universal (`division_of`).
//!
//! What a script resolves to, and which faults stand in it, is defined in `specs/Resolutions` and `specs/Faults`, by names and as sets.
//!
//! `names_match` takes no memory: for each name that a script writes it looks at the names that are given, of which there are few.
//! The others take time and memory in proportion to the text, but that each let and each iterator around a name moves it once more.
#![tactic(auto)]

mod calls;
mod conjuncts;
mod declared;
mod distinct;
mod divisions;
mod first_names;
mod located;
mod name_fault;
mod name_faults;
mod names;
mod object_models;
mod occurrences;
mod piece;
mod pieces;
mod relation_names;
mod repeats;
mod script_names;
mod strata;
mod template_classes;
mod usage;
mod usages;
mod written;

pub use calls::refuse_calls;
pub use conjuncts::{add_conjuncts, call_of, clause_conjuncts, equation_of, is_null, name_alone};
pub use declared::{keys_of, queries_of, relations_of};
pub use distinct::{add_new, each_once, each_once_listed};
pub use divisions::{Division, division_of, is_in_direction, is_sought, universal_names};
pub use first_names::put_first;
pub use located::{LocatedPiece, located_pieces};
pub use name_fault::NameFault;
pub use name_faults::{printed, refuse_names};
pub use names::{is_given, is_name, model_place, names_match};
pub use object_models::{is_class, named_relations, variable_models};
pub use occurrences::{add_variables, root_name, variable_text, variables_listed, variables_of};
pub use piece::{BorrowedPiece, BorrowedProperty, VariableName};
pub use pieces::{add_pieces, next_number, variable_of};
pub use relation_names::{domain_models, template_variables, typed_names};
pub use repeats::first_repeat;
pub use script_names::{
    metamodel_names, names_of_relations, names_of_script, numbered, place_of, slots_of,
};
pub use strata::{relation_strata, relation_table};
pub use template_classes::{ModelNames, model_names, template_class, template_types};
pub use usage::Usage;
pub use usages::add_usages;
pub use written::{WrittenType, written_types};
