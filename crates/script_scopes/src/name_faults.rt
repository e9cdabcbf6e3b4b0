ghost use Rattle.std.specs.Prelude.{◌≡◌, ◌++◌, [], ℕ, List, map, chars, Contains, All, IfOk, OnOk};
ghost use Rattle.ocl_environments.specs.Written.{IfFault};
ghost use Rattle.script_scopes.specs.ScriptNames.{model_names, each_once as distinct};
ghost use Rattle.script_scopes.specs.Occurrences.{variables_of as variables, template_variables as templates, printed_name};
ghost use Rattle.script_scopes.specs.PrintedNames.{printed_after};
ghost use Rattle.script_scopes.specs.Declarations.{IsRepeated};
ghost use Rattle.script_scopes.specs.Environments.{Setting};
ghost use Rattle.script_scopes.specs.Faults.{domain_models as models_named, typed_names as typed, StandsInScript};
ghost use Rattle.script_scopes.specs.Refusals.{IsRepeatFault, IsPrintedRepeat, IsUnknownFault, HasNamesInOrder, StandsInNames, StandsInOne, AreInOrder};

use crate::declared::relations_of;
use crate::distinct::each_once;
use crate::occurrences::variables_listed;
use crate::relation_names::{domain_models, template_variables, typed_names};
use crate::repeats::{first_repeat, refuse_repeat};
use crate::script_names::{add_model_names, add_texts, refuse_global_repeat, refuse_target};
use mof_metamodel::{NameTable, NoMemory, Seq, Text};
use ocl_environments::{TypeError, TypeFault};
use qv_syntax::{RelationTree, Script};
use std::alloc::Global;

/// Refuses names of which one isn't known.
fn refuse_unknown(alloc: Global, known: &NameTable<u32>, names: &[Text]) -> Result<(), TypeError>
    ensures known { OnOk result (All (Contains (map (λ e. e.0) known.now)) names.now) }
    ensures fault { IfFault result (IsUnknownFault (map (λ e. e.0) known.now) names.now) }
{
    for name in names {
        if !known.contains(name) {
            let text = name.duplicate(alloc)?;
            return Err(TypeError::Fault(TypeFault::UnknownName(text)));
        }
    }
    Ok(())
}

/// Puts a character of a variable's name behind what is printed: U+0000, with which the name of a template without a name begins, as `_`.
fn push_printed(c: char, out: &mut Text) -> Result<(), NoMemory>
    ensures { OnOk result (out.new ≡ printed_after out.old c) }
{
    if out.is_empty() && c == '\0' {
        return out.push('_');
    }
    out.push(c)
}

/// A variable's name as it is printed.
#[tactic(auto, using(crate::proofs::PrintedLemmas::no_characters))]
pub fn printed(alloc: Global, name: &Text) -> Result<Text, NoMemory>
    ensures { IfOk result (λ text. text ≡ printed_name name.now) }
{
    let mut out = Text::new(alloc, "")?;
    print_name(name.as_str(), &mut out)?;
    Ok(out)
}

/// Puts a variable's name as it is printed into a text without characters.
fn print_name(name: &str, out: &mut Text) -> Result<(), NoMemory>
    requires { out.old ≡ [] }
    ensures { OnOk result (out.new ≡ printed_name (chars name.now)) }
{
    for c in name.chars() {
        push_printed(c, out)?;
    }
    Ok(())
}

/// Refuses domains of which one has no model of the script, or two have one.
fn refuse_domains(alloc: Global, models: &NameTable<u32>, r: &RelationTree) -> Result<(), TypeError>
    ensures known { OnOk result (All (Contains (map (λ e. e.0) models.now)) (models_named r.now)) }
    ensures one_domain { OnOk result ((model : List ℕ) → ¬ IsRepeated (models_named r.now) model) }
    ensures fault { IfFault result (StandsInNames (map (λ e. e.0) models.now) r.now) }
{
    let names = domain_models(alloc, r)?;
    let listed = names.as_slice();
    refuse_unknown(alloc, models, listed)?;
    refuse_repeat(alloc, listed)
}

/// Refuses a variable that is declared twice.
fn refuse_typed_twice(alloc: Global, r: &RelationTree) -> Result<(), TypeError>
    ensures none { OnOk result ((v : List ℕ) → ¬ IsRepeated (typed r.now) v) }
    ensures fault { IfFault result (IsRepeatFault (typed r.now)) }
{
    let names = typed_names(alloc, r)?;
    refuse_repeat(alloc, names.as_slice())
}

/// Refuses a variable that has two templates.
fn refuse_two_templates(alloc: Global, r: &RelationTree) -> Result<(), TypeError>
    ensures none { OnOk result ((v : List ℕ) → ¬ IsRepeated (templates r.now) v) }
    ensures fault { IfFault result (IsPrintedRepeat (templates r.now)) }
{
    let names = template_variables(alloc, r)?;
    match first_repeat(alloc, names.as_slice())? {
        Some(name) => {
            let text = printed(alloc, &name)?;
            Err(TypeError::Fault(TypeFault::DuplicateName(text)))
        }
        None => Ok(()),
    }
}

/// The names that are declared with a type, and the variables of templates, each once.
fn declared_table(alloc: Global, r: &RelationTree) -> Result<NameTable<u32>, NoMemory>
    ensures { IfOk result (λ names. map (λ e. e.0) names ≡ distinct (typed r.now ++ templates r.now)) }
{
    let mut names = typed_names(alloc, r)?;
    let more = template_variables(alloc, r)?;
    add_texts(alloc, more.as_slice(), &mut names)?;
    each_once(alloc, names)
}

/// Refuses a variable that nothing declares.
fn refuse_undeclared(alloc: Global, r: &RelationTree) -> Result<(), TypeError>
    ensures none { OnOk result (All (Contains (distinct (typed r.now ++ templates r.now))) (variables r.now)) }
    ensures fault { IfFault result (IsUnknownFault (distinct (typed r.now ++ templates r.now)) (variables r.now)) }
{
    let known = declared_table(alloc, r)?;
    let names = variables_listed(alloc, r)?;
    refuse_unknown(alloc, &known, names.as_slice())
}

/// Refuses a relation whose names aren't in order, over models of these names.
fn refuse_relation(
    alloc: Global,
    models: &NameTable<u32>,
    r: &RelationTree,
) -> Result<(), TypeError>
    ensures in_order { OnOk result (HasNamesInOrder (map (λ e. e.0) models.now) r.now) }
    ensures fault { IfFault result (StandsInNames (map (λ e. e.0) models.now) r.now) }
{
    refuse_domains(alloc, models, r)?;
    refuse_typed_twice(alloc, r)?;
    refuse_two_templates(alloc, r)?;
    refuse_undeclared(alloc, r)
}

/// Refuses relations of which one's names aren't in order.
fn refuse_each(
    alloc: Global,
    models: &NameTable<u32>,
    relations: &[&RelationTree],
) -> Result<(), TypeError>
    ensures in_order { OnOk result (All (HasNamesInOrder (map (λ e. e.0) models.now)) (map (λ r. r.now) relations.now)) }
    ensures fault { IfFault result (StandsInOne (map (λ e. e.0) models.now) (map (λ r. r.now) relations.now)) }
{
    for relation in relations {
        refuse_relation(alloc, models, relation)?;
    }
    Ok(())
}

/// The names of the models of a script, each once.
fn model_table(alloc: Global, script: &Script) -> Result<NameTable<u32>, NoMemory>
    ensures { IfOk result (λ names. map (λ e. e.0) names ≡ distinct (model_names script.now.models)) }
{
    let mut names = Seq::new(alloc);
    add_model_names(alloc, script.models.as_slice(), &mut names)?;
    each_once(alloc, names)
}

/// Refuses a script whose names aren't in order (QVT 1.3, sections 7.10.2 and 7.11): the target is one of its models, the names of models,
/// metamodels, relations and queries are distinct, a relation's domains have models of which none stands twice, and each of its
/// variables is declared once.
///
/// # Errors
///
/// A fault that stands in the script, any one where several do, and `NoMemory`.
pub fn refuse_names(alloc: Global, script: &Script, target: &str) -> Result<(), TypeError>
    ensures in_order { OnOk result (AreInOrder script.now (chars target.now)) }
    ensures fault { IfFault result (λ f. (s : Setting) → s.script ≡ script.now → s.target ≡ chars target.now → StandsInScript s f) }
{
    refuse_target(alloc, script, target)?;
    refuse_global_repeat(alloc, script)?;
    let models = model_table(alloc, script)?;
    let relations = relations_of(alloc, script)?;
    refuse_each(alloc, &models, relations.as_slice())
}
