//! The third step of `check`: the names of its words are those of the script, and the target is one of its models.
ghost use Rattle.std.specs.Prelude.{◌≡◌, ◌<◌, [], length, slice_index_or, IfOk, IfErr, OnOk};
ghost use Rattle.script_scopes.specs.ScriptNames.{script_names};
ghost use Rattle.qvtr_engine.specs.CheckedNames as names;
ghost use Rattle.qvtr_engine.specs.RequestView.{request_view};
ghost use Rattle.qvtr_engine.specs.Stops.{OnStop};

use crate::check_request::CheckRequest;
use crate::judging::refusal;
use crate::outcome::Stop;
use mof_metamodel::{NoMemory, Seq, Text};
use ocl_environments::TypeFault;
use qv_syntax::Script;
use script_scopes::{NameFault, names_match, names_of_script};
use std::alloc::Global;

/// The names that have files, as characters.
fn given_names(alloc: Global, request: &CheckRequest<'_>) -> Result<Seq<Text>, NoMemory>
    ensures { IfOk result (λ given. given ≡ names.given_names (request_view request.now)) }
{
    let mut given = Seq::new(alloc);
    for i in 0..request.count() {
        given.push(Text::new(alloc, request.file(i).name)?)?;
    }
    Ok(given)
}

/// The name at a place among those that a script needs files for.
fn script_name(alloc: Global, script: &Script, place: usize) -> Result<Text, NoMemory>
    requires { place < length (script_names script.now.models) }
    ensures { IfOk result (λ name. name ≡ slice_index_or (script_names script.now.models) place []) }
{
    let wanted = names_of_script(alloc, script)?;
    wanted.as_slice()[place].duplicate(alloc)
}

/// The name that a fault is about.
fn faulty_name(
    alloc: Global,
    request: &CheckRequest<'_>,
    script: &Script,
    fault: NameFault,
) -> Result<Text, NoMemory>
    requires { names.IsMisnamed (request_view request.now) script.now fault }
    ensures { IfOk result (λ name. name ≡ names.faulty_name (request_view request.now) script.now fault) }
{
    match fault {
        NameFault::Target => Text::new(alloc, request.target),
        NameFault::Extra(place) => Text::new(alloc, request.file(place).name),
        NameFault::Missing(place) => script_name(alloc, script, place),
    }
}

/// What stops the work where the names don't fit.
fn misnamed<'w>(
    alloc: Global,
    request: &CheckRequest<'w>,
    script: &Script,
    fault: NameFault,
) -> Stop<'w>
    requires { names.IsMisnamed (request_view request.now) script.now fault }
    ensures { OnStop result (names.NamesStop (request_view request.now) script.now) }
{
    match faulty_name(alloc, request, script, fault) {
        Ok(name) => refusal(alloc, request.script, &TypeFault::UnknownModel(name)),
        Err(NoMemory) => Stop::NoMemory,
    }
}

/// Whether the names of the words are those of the script, and the target is one of its models; or what stops the work.
pub(crate) fn fit_names<'w>(
    alloc: Global,
    request: &CheckRequest<'w>,
    script: &Script,
) -> Result<(), Stop<'w>>
    ensures ok { OnOk result (names.NamesFit (request_view request.now) script.now) }
    ensures err { IfErr result (λ stop. OnStop stop (names.NamesStop (request_view request.now) script.now)) }
{
    let given = given_names(alloc, request)?;
    match names_match(script, request.target, given.as_slice()) {
        None => Ok(()),
        Some(fault) => Err(misnamed(alloc, request, script, fault)),
    }
}
