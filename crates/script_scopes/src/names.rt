ghost use Rattle.std.specs.Prelude.{◌≡◌, ◌<◌, ◌≤◌, false, true, length, filter, take, position, chars, All, MatchOption, slice_get, option_copied};
ghost use Rattle.std.specs.Set.{is_member};
ghost use Rattle.mof_metamodel.specs.Characters.{same_name};
ghost use Rattle.script_scopes.specs.ScriptNames.{model_names, meta_names, written_names, each_once, AreNamesOf, IsNameFault};
ghost use Rattle.script_scopes.specs.NameSearches.{IsFirstOther, counted_at};

use crate::name_fault::NameFault;
use mof_metamodel::Text;
use qv_syntax::{ModelTree, Script};

/// Whether a text is this name.
pub fn is_name(text: &Text, name: &str) -> bool
    ensures { result ≡ same_name (chars name.now) text.now }
{
    text.is(name)
}

/// Whether a model has this name.
pub(crate) fn is_model(models: &[ModelTree], name: &str) -> bool
    ensures { result ≡ is_member same_name (model_names models.now) (chars name.now) }
{
    for model in models {
        if is_name(&model.name.text, name) {
            return true;
        }
    }
    false
}

/// Where the first model of this name stands among these.
fn position_of(models: &[ModelTree], name: &str) -> Option<usize>
    ensures { result ≡ position (λ model. same_name (chars name.now) model.name.text) models.now }
{
    models
        .iter()
        .position(|declared| is_name(&declared.name.text, name))
}

/// The place of the first model of this name (QVT 1.3, section 7.11.1.2).
#[tactic(auto, using(crate::proofs::NameLemmas::position_mapped))]
pub fn model_place(script: &Script, name: &str) -> Option<usize>
    ensures { result ≡ position (same_name (chars name.now)) (model_names script.now.models) }
{
    position_of(script.models.as_slice(), name)
}

/// Whether a metamodel has this name.
fn is_meta(models: &[ModelTree], name: &str) -> bool
    ensures { result ≡ is_member same_name (meta_names models.now) (chars name.now) }
{
    for model in models {
        if is_name(&model.meta.text, name) {
            return true;
        }
    }
    false
}

/// Whether a name is among those that are given.
pub fn is_given(names: &[Text], name: &Text) -> bool
    ensures { result ≡ is_member same_name names.now name.now }
{
    for given in names {
        if name == given {
            return true;
        }
    }
    false
}

/// Whether a model or a metamodel has this name.
fn is_written(models: &[ModelTree], name: &Text) -> bool
    ensures { result ≡ is_member same_name (written_names models.now) name.now }
{
    is_model(models, name.as_str()) || is_meta(models, name.as_str())
}

/// The name at a place: those of the models stand before those of the metamodels.
fn written(models: &[ModelTree], place: usize) -> Option<&Text>
    ensures { option_copied result ≡ slice_get (written_names models.now) place }
{
    if place < models.len() {
        return Some(&models[place].name.text);
    }
    match models.get(place - models.len()) {
        Some(model) => Some(&model.meta.text),
        None => None,
    }
}

/// The place of the first of the given names that the script lacks.
fn first_extra(models: &[ModelTree], names: &[Text]) -> Option<usize>
    ensures { MatchOption result (All (λ n. is_member same_name (written_names models.now) n ≡ true) names.now) (IsFirstOther (is_member same_name (written_names models.now)) names.now) }
{
    for (i, name) in names.iter().enumerate() {
        if !is_written(models, name) {
            return Some(i);
        }
    }
    None
}

/// The place, among the names that are written, of the first that isn't given.
fn first_missing(models: &[ModelTree], names: &[Text]) -> Option<usize>
    ensures { MatchOption result (All (λ n. is_member same_name names.now n ≡ true) (written_names models.now)) (IsFirstOther (is_member same_name names.now) (written_names models.now)) }
{
    for place in 0..2 * models.len() {
        match written(models, place) {
            Some(name) => {
                if !is_given(names, name) {
                    return Some(place);
                }
            }
            None => return None,
        }
    }
    None
}

/// Whether a name is among so many of those that are written.
fn is_before(models: &[ModelTree], place: usize, name: &Text) -> bool
    ensures { result ≡ is_member same_name (take place (written_names models.now)) name.now }
{
    for k in 0..place {
        match written(models, k) {
            Some(other) => {
                if name == other {
                    return true;
                }
            }
            None => return false,
        }
    }
    false
}

/// One for a given name that is among so many of those that are written, where it was not given before; else nothing.
fn counted(models: &[ModelTree], place: usize, names: &[Text], i: usize) -> usize
    requires { i < length names.now }
    ensures count { result ≡ counted_at (is_member same_name (take place (written_names models.now))) names.now i }
    ensures few { result ≤ 1 }
{
    let name = &names[i];
    if is_before(models, place, name) && !is_given(&names[..i], name) {
        1
    } else {
        0
    }
}

/// How many of the given names, each counted once, are among so many of those that are written.
fn count_before(models: &[ModelTree], place: usize, names: &[Text]) -> usize
    ensures { result ≡ length (filter (is_member same_name (take place (written_names models.now))) (each_once names.now)) }
{
    let mut count = 0;
    for i in 0..names.len() {
        count += counted(models, place, names, i);
    }
    count
}

/// Whether names that are given, of files say, are those of a script, each of its models and metamodels, and a target is one of its
/// models. Else the first thing that is wrong: the target, a name that the script lacks, or a name of the script that isn't given.
///
/// The names of a script are those of its models and then those of their metamodels, in the order of the text, each once.
pub fn names_match(script: &Script, target: &str, names: &[Text]) -> Option<NameFault>
    ensures { MatchOption result (AreNamesOf script.now.models (chars target.now) names.now) (IsNameFault script.now.models (chars target.now) names.now) }
{
    let models = script.models.as_slice();
    if !is_model(models, target) {
        return Some(NameFault::Target);
    }
    if let Some(i) = first_extra(models, names) {
        return Some(NameFault::Extra(i));
    }
    match first_missing(models, names) {
        Some(place) => Some(NameFault::Missing(count_before(models, place, names))),
        None => None,
    }
}
