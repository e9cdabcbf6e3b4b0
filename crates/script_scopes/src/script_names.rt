ghost use Rattle.std.specs.Prelude.{◌≡◌, ◌<◌, ◌++◌, ℕ, List, map, chars, Contains, IfOk, OnOk, OnErr};
ghost use Rattle.ocl_environments.specs.Written.{IfFault};
ghost use Rattle.ocl_environments.specs.declared.limits.TheConstants.{MAX_NUMBERED};
ghost use Rattle.ocl_environments.specs.declared.fault.TypeFault.TheVariants as faults;
ghost use Rattle.script_scopes.specs.ScriptNames.{model_names, meta_names, script_names as names_of};
ghost use Rattle.script_scopes.specs.Environments.{metamodel_names as metamodels, place_of as place, slots_of as slots};
ghost use Rattle.script_scopes.specs.Declarations.{relation_names, global_names as globals, IsRepeated};
ghost use Rattle.script_scopes.specs.Refusals.{IsRepeatFault};

use crate::declared::{queries_of, relations_of};
use crate::distinct::{each_once, each_once_listed};
use crate::names::is_model;
use crate::repeats::refuse_repeat;
use mof_metamodel::{NameTable, NoMemory, Seq, Text};
use ocl_environments::{MAX_NUMBERED, TypeError, TypeFault};
use qv_syntax::{ModelSlot, ModelTree, QueryTree, RelationTree, Script};
use std::alloc::Global;

/// The names of models one behind the other.
pub(crate) fn add_model_names(
    alloc: Global,
    models: &[ModelTree],
    out: &mut Seq<Text>,
) -> Result<(), NoMemory>
    ensures { OnOk result (out.new ≡ out.old ++ model_names models.now) }
{
    for model in models {
        out.push(model.name.text.duplicate(alloc)?)?;
    }
    Ok(())
}

/// The names of the metamodels of models one behind the other.
fn add_meta_names(alloc: Global, models: &[ModelTree], out: &mut Seq<Text>) -> Result<(), NoMemory>
    ensures { OnOk result (out.new ≡ out.old ++ meta_names models.now) }
{
    for model in models {
        out.push(model.meta.text.duplicate(alloc)?)?;
    }
    Ok(())
}

/// The names of relations one behind the other.
fn add_relation_names(
    alloc: Global,
    relations: &[&RelationTree],
    out: &mut Seq<Text>,
) -> Result<(), NoMemory>
    ensures { OnOk result (out.new ≡ out.old ++ map (λ r. r.name.text) (map (λ r. r.now) relations.now)) }
{
    for relation in relations {
        out.push(relation.name.text.duplicate(alloc)?)?;
    }
    Ok(())
}

/// The names of queries one behind the other.
fn add_query_names(
    alloc: Global,
    queries: &[&QueryTree],
    out: &mut Seq<Text>,
) -> Result<(), NoMemory>
    ensures { OnOk result (out.new ≡ out.old ++ map (λ q. q.name.text) (map (λ q. q.now) queries.now)) }
{
    for query in queries {
        out.push(query.name.text.duplicate(alloc)?)?;
    }
    Ok(())
}

/// Names one behind the other.
pub(crate) fn add_texts(alloc: Global, names: &[Text], out: &mut Seq<Text>) -> Result<(), NoMemory>
    ensures { OnOk result (out.new ≡ out.old ++ names.now) }
{
    for name in names {
        out.push(name.duplicate(alloc)?)?;
    }
    Ok(())
}

/// The names of the metamodels of a script, by their numbers: in the order of their first use.
pub fn metamodel_names(alloc: Global, script: &Script) -> Result<Seq<Text>, NoMemory>
    ensures { IfOk result (λ names. names ≡ metamodels script.now) }
{
    let mut written = Seq::new(alloc);
    add_meta_names(alloc, script.models.as_slice(), &mut written)?;
    each_once_listed(alloc, written.as_slice())
}

/// The same as a table, in which the number of a name is found.
fn metamodel_table(alloc: Global, script: &Script) -> Result<NameTable<u32>, NoMemory>
    ensures { IfOk result (λ names. map (λ e. e.0) names ≡ metamodels script.now) }
{
    let mut written = Seq::new(alloc);
    add_meta_names(alloc, script.models.as_slice(), &mut written)?;
    each_once(alloc, written)
}

/// The names that a script needs files for: those of its models and then of their metamodels, in the order of the text, each once.
pub fn names_of_script(alloc: Global, script: &Script) -> Result<Seq<Text>, NoMemory>
    ensures { IfOk result (λ names. names ≡ names_of script.now.models) }
{
    let mut written = Seq::new(alloc);
    add_model_names(alloc, script.models.as_slice(), &mut written)?;
    add_meta_names(alloc, script.models.as_slice(), &mut written)?;
    each_once_listed(alloc, written.as_slice())
}

/// The names of the relations of a script, in the order of the text.
pub fn names_of_relations(alloc: Global, script: &Script) -> Result<Seq<Text>, NoMemory>
    ensures { IfOk result (λ names. names ≡ relation_names script.now) }
{
    let relations = relations_of(alloc, script)?;
    let mut out = Seq::new(alloc);
    add_relation_names(alloc, relations.as_slice(), &mut out)?;
    Ok(out)
}

/// The names that have to be distinct: of models, metamodels, relations and queries.
fn global_names(alloc: Global, script: &Script) -> Result<Seq<Text>, NoMemory>
    ensures { IfOk result (λ names. names ≡ globals script.now) }
{
    let metas = metamodel_names(alloc, script)?;
    let relations = relations_of(alloc, script)?;
    let queries = queries_of(alloc, script)?;
    let mut out = Seq::new(alloc);
    add_model_names(alloc, script.models.as_slice(), &mut out)?;
    add_texts(alloc, metas.as_slice(), &mut out)?;
    add_relation_names(alloc, relations.as_slice(), &mut out)?;
    add_query_names(alloc, queries.as_slice(), &mut out)?;
    Ok(out)
}

/// A place as a number of 32 bits.
///
/// # Errors
///
/// `NoMemory` where the place passes `MAX_NUMBERED`.
pub fn numbered(place: usize) -> Result<u32, NoMemory>
    ensures number { IfOk result (λ number. number ≡ place) }
    ensures full { OnErr result (MAX_NUMBERED < place) }
{
    if place > MAX_NUMBERED {
        return Err(NoMemory);
    }
    Ok(place as u32)
}

/// The place of a name among others, from 0.
///
/// # Errors
///
/// `NoMemory` where the place passes `MAX_NUMBERED`.
pub fn place_of(names: &NameTable<u32>, name: &Text) -> Result<u32, NoMemory>
    ensures number { IfOk result (λ number. number ≡ place name.now (map (λ e. e.0) names.now)) }
    ensures full { OnErr result (MAX_NUMBERED < place name.now (map (λ e. e.0) names.now)) }
{
    match names.find(name) {
        Some((number, _)) => numbered(number),
        None => Ok(0),
    }
}

/// A model, with the number of its metamodel among these.
fn slot_of(alloc: Global, metas: &NameTable<u32>, model: &ModelTree) -> Result<ModelSlot, NoMemory>
    ensures { IfOk result (λ s. s ≡ record { name = model.now.name.text; meta = place model.now.meta.text (map (λ e. e.0) metas.now) }) }
{
    let name = model.name.text.duplicate(alloc)?;
    let meta = place_of(metas, &model.meta.text)?;
    Ok(ModelSlot { name, meta })
}

/// Models, with the numbers of their metamodels.
fn slots_over(
    alloc: Global,
    metas: &NameTable<u32>,
    models: &[ModelTree],
) -> Result<Seq<ModelSlot>, NoMemory>
    ensures { IfOk result (λ found. found ≡ map (λ m. record { name = m.name.text; meta = place m.meta.text (map (λ e. e.0) metas.now) }) models.now) }
{
    let mut out = Seq::new(alloc);
    for model in models {
        out.push(slot_of(alloc, metas, model)?)?;
    }
    Ok(out)
}

/// The models of a script, with the numbers of their metamodels (QVT 1.3, section 7.11.1.2).
pub fn slots_of(alloc: Global, script: &Script) -> Result<Seq<ModelSlot>, NoMemory>
    ensures { IfOk result (λ found. found ≡ slots script.now) }
{
    let metas = metamodel_table(alloc, script)?;
    slots_over(alloc, &metas, script.models.as_slice())
}

/// Refuses a target that is no model of the script.
pub(crate) fn refuse_target(alloc: Global, script: &Script, target: &str) -> Result<(), TypeError>
    ensures aimed { OnOk result (Contains (model_names script.now.models) (chars target.now)) }
    ensures fault { IfFault result (λ f. (f ≡ faults.UnknownModel (chars target.now)) × ¬ Contains (model_names script.now.models) (chars target.now)) }
{
    if is_model(script.models.as_slice(), target) {
        return Ok(());
    }
    let text = Text::new(alloc, target)?;
    Err(TypeError::Fault(TypeFault::UnknownModel(text)))
}

/// Refuses a name that two of the script's models, metamodels, relations and queries have.
pub(crate) fn refuse_global_repeat(alloc: Global, script: &Script) -> Result<(), TypeError>
    ensures none { OnOk result ((name : List ℕ) → ¬ IsRepeated (globals script.now) name) }
    ensures fault { IfFault result (IsRepeatFault (globals script.now)) }
{
    let names = global_names(alloc, script)?;
    refuse_repeat(alloc, names.as_slice())
}
