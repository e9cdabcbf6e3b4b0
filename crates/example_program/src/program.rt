ghost use Rattle.std.specs.Prelude.{◌≡◌, [], ◌∷◌, ◌++◌, IfOk, OnOk};
ghost use Rattle.example_program.specs.MainProgram.{package_to_schema, class_to_table, attr_to_column, prim_to_column, nested_to_column, super_to_column, main_relations, main_program_data};

use crate::columns::{attr_to_column, nested_to_column, prim_to_column, super_to_column};
use crate::keys::main_keys;
use crate::models::{TARGET, main_models};
use crate::tables::{class_to_table, package_to_schema};
use crate::variables::ascii;
use mof_metamodel::{NoMemory, Seq, or_drop};
use qv_syntax::{Program, Rel};
use std::alloc::Global;

/// Puts the top relations behind others.
fn push_tables(alloc: Global, rels: &mut Seq<Rel>) -> Result<(), NoMemory>
    ensures { OnOk result (rels.new ≡ rels.old ++ package_to_schema ∷ class_to_table ∷ []) }
{
    rels.push(package_to_schema(alloc)?)?;
    rels.push(class_to_table(alloc)?)
}

/// Puts the relation of attributes, and that of primitive ones, behind others.
fn push_columns(alloc: Global, rels: &mut Seq<Rel>) -> Result<(), NoMemory>
    ensures { OnOk result (rels.new ≡ rels.old ++ attr_to_column ∷ prim_to_column ∷ []) }
{
    rels.push(attr_to_column(alloc)?)?;
    rels.push(prim_to_column(alloc)?)
}

/// Puts those of attributes of other classes behind others.
fn push_further_columns(alloc: Global, rels: &mut Seq<Rel>) -> Result<(), NoMemory>
    ensures { OnOk result (rels.new ≡ rels.old ++ nested_to_column ∷ super_to_column ∷ []) }
{
    rels.push(nested_to_column(alloc)?)?;
    rels.push(super_to_column(alloc)?)
}

fn main_relations(alloc: Global) -> Result<Seq<Rel>, NoMemory>
    ensures { IfOk result (λ rels. rels ≡ main_relations) }
{
    let mut rels = Seq::new(alloc);
    or_drop!(push_tables(alloc, &mut rels); rels);
    or_drop!(push_columns(alloc, &mut rels); rels);
    or_drop!(push_further_columns(alloc, &mut rels); rels);
    Ok(rels)
}

/// The example's transformation from classes to tables, towards the tables, over the metamodels Cls and Rdb.
pub fn main_program(alloc: Global) -> Result<Program, NoMemory>
    ensures { IfOk result (λ p. p ≡ main_program_data) }
{
    let models = main_models(alloc)?;
    let keys = or_drop!(main_keys(alloc); models);
    let rels = or_drop!(main_relations(alloc); models, keys);
    let name = or_drop!(ascii(alloc, "Cls2Rdb"); models, keys, rels);
    Ok(Program {
        name,
        models,
        target: TARGET,
        keys,
        rels,
        queries: Seq::new(alloc),
    })
}
