//! The fourth and the fifth step of `check`: the metamodels and the models are read, in the order of the words.
ghost use Rattle.std.specs.Prelude.{◌≡◌, ◌<◌, ◌≤◌, if◌then◌else◌, Some, slice_get, not, length, map, filter, chars, All, Contains, IfOk, IfErr, IfSome};
ghost use Rattle.std.specs.List.{AllZip};
ghost use Rattle.std.specs.Option.{unwrap_or};
ghost use Rattle.std.specs.Set.{is_member};
ghost use Rattle.vault_io.specs.Counts.{Rose};
ghost use Rattle.mof_metamodel.specs.Characters.{same_name};
ghost use Rattle.mof_metamodel.specs.NameTables.{value_of};
ghost use Rattle.script_scopes.specs.Environments.{metamodel_names as metamodels};
ghost use Rattle.script_scopes.specs.ScriptNames.{model_names};
ghost use Rattle.script_scopes.specs.VariableTypes.{metamodel_numbers};
ghost use Rattle.qvtr_engine.specs.CheckView.{bound_view};
ghost use Rattle.qvtr_engine.specs.CheckWords.{check_paths};
ghost use Rattle.qvtr_engine.specs.CheckedNames.{name_of, NamesFit};
ghost use Rattle.qvtr_engine.specs.CheckedMetamodels as metas;
ghost use Rattle.qvtr_engine.specs.CheckedModels as models;
ghost use Rattle.qvtr_engine.specs.FirstStops.{FirstStop};
ghost use Rattle.qvtr_engine.specs.FoundFiles.{items_of, names_of};
ghost use Rattle.qvtr_engine.specs.NumberedInputs.{HasMetas};
ghost use Rattle.qvtr_engine.specs.ReadModels.{AreRead};
ghost use Rattle.qvtr_engine.specs.RequestView.{request_view};
ghost use Rattle.qvtr_engine.specs.Stops.{StoppedBy};
ghost use Rattle.qvtr_engine.specs.Target.{IsFormAmong, target_path};

use crate::check_request::CheckRequest;
use crate::check_words::Bound;
use crate::numbering_inputs::{Found, number_metas};
use crate::outcome::Stop;
use crate::reading_files::{metamodel_at, model_at};
use model_files::Form;
use mof_metamodel::{MetaModel, NoMemory, Text};
use object_tables::Model;
use ocl_environments::Metas;
use qv_syntax::{ModelSlot, Script};
use script_scopes::{is_name, metamodel_names, slots_of};
use std::alloc::Global;
use vault_io::Vault;

/// Whether a name is one of these.
fn is_listed(names: &[Text], name: &str) -> bool
    ensures { result ≡ is_member same_name names.now (chars name.now) }
{
    for listed in names {
        if is_name(listed, name) {
            return true;
        }
    }
    false
}

/// The files of the words whose names are among those of metamodels.
fn metamodel_files<'w>(
    alloc: Global,
    request: &CheckRequest<'w>,
    names: &[Text],
) -> Result<Vec<Bound<'w>>, NoMemory>
    ensures { IfOk result (λ files. map bound_view files.items ≡ filter (λ b. is_member same_name names.now (name_of b)) (request_view request.now).files) }
{
    let mut files = Vec::new(alloc);
    for i in 0..request.count() {
        let file = request.file(i);
        if is_listed(names, file.name) {
            files.push(file)?;
        }
    }
    Ok(files)
}

/// The other files of the words.
fn model_files<'w>(
    alloc: Global,
    request: &CheckRequest<'w>,
    names: &[Text],
) -> Result<Vec<Bound<'w>>, NoMemory>
    ensures { IfOk result (λ files. map bound_view files.items ≡ filter (λ b. not (is_member same_name names.now (name_of b))) (request_view request.now).files) }
{
    let mut files = Vec::new(alloc);
    for i in 0..request.count() {
        let file = request.file(i);
        if !is_listed(names, file.name) {
            files.push(file)?;
        }
    }
    Ok(files)
}

/// The file at a place.
fn file_at<'w>(files: &[Bound<'w>], place: usize) -> Bound<'w>
    requires { place < length files.now }
    ensures { slice_get (map bound_view files.now) place ≡ Some (bound_view result) }
{
    files[place]
}

/// The metamodels that files are, or what the first stops at that is none.
fn metamodels_at<'w, F: Vault>(
    alloc: Global,
    vault: &mut F,
    files: &[Bound<'w>],
) -> Result<Vec<Found<'w, MetaModel>>, Stop<'w>>
    ensures ok { IfOk result (λ found. IfSome (F.files vault.old) (λ told. AllZip (metas.IsMeta told) (map bound_view files.now) (items_of found.items))) }
    ensures names { IfOk result (λ found. names_of found.items ≡ map name_of (map bound_view files.now)) }
    ensures err { IfErr result (λ stop. StoppedBy stop (F.files vault.old) (λ told. FirstStop (metas.IsReadMeta told) (metas.MetaStops told) (map bound_view files.now))
        (Rose (F.faults vault.old) (F.faults vault.new)) (map (λ b. b.path) (map bound_view files.now))) }
    ensures files { F.files vault.new ≡ F.files vault.old }
    ensures faults { F.faults vault.old ≤ F.faults vault.new }
{
    let mut found = Vec::new(alloc);
    for i in 0..files.len() {
        let file = file_at(files, i);
        let item = metamodel_at(alloc, vault, file.path)?;
        found.push(Found {
            name: file.name,
            item,
        })?;
    }
    Ok(found)
}

/// The metamodels of the script by their numbers, read in the order of the words.
pub(crate) fn read_metamodels<'w, F: Vault>(
    alloc: Global,
    vault: &mut F,
    request: &CheckRequest<'w>,
    script: &Script,
) -> Result<Metas, Stop<'w>>
    requires { NamesFit (request_view request.now) script.now }
    ensures ok { IfOk result (λ numbered. IfSome (F.files vault.old) (λ told. HasMetas told (request_view request.now) script.now numbered)) }
    ensures count { IfOk result (λ numbered. length numbered ≡ length (metamodels script.now)) }
    ensures err { IfErr result (λ stop. StoppedBy stop (F.files vault.old) (λ told. metas.MetamodelsStop told (request_view request.now) script.now)
        (Rose (F.faults vault.old) (F.faults vault.new)) (check_paths (request_view request.now))) }
    ensures files { F.files vault.new ≡ F.files vault.old }
    ensures faults { F.faults vault.old ≤ F.faults vault.new }
{
    let names = metamodel_names(alloc, script)?;
    let listed = names.as_slice();
    let files = metamodel_files(alloc, request, listed)?;
    let found = metamodels_at(alloc, vault, files.as_slice())?;
    Ok(number_metas(alloc, listed, found)?)
}

/// The number of the metamodel of the first model of a name, or 0.
fn meta_number(slots: &[ModelSlot], name: &str) -> u32
    ensures { result ≡ unwrap_or (value_of (metamodel_numbers slots.now) (chars name.now)) 0 }
{
    for slot in slots {
        if is_name(&slot.name, name) {
            return slot.meta;
        }
    }
    0
}

/// The models that are read, and the form of the target's file.
#[derive(Drop)]
pub(crate) struct ReadModels<'w, 'm> {
    pub found: Vec<Found<'w, Model<'m>>>,
    pub form: Form,
}

/// The form of the target's file: that which was read at its path, or else what is known so far.
fn form_after(known: Form, target: &str, path: &str, read: Form) -> Form
    ensures { result ≡ (if same_name path.now target.now then read else known) }
{
    if path == target { read } else { known }
}

/// The models that files are, each by the metamodel of its name, or what the first stops at that is none.
fn models_at<'w, 'm, F: Vault>(
    alloc: Global,
    vault: &mut F,
    files: &[Bound<'w>],
    script: &Script,
    numbered: &'m Metas,
    target: &str,
) -> Result<ReadModels<'w, 'm>, Stop<'w>>
    requires models { All (λ b. Contains (model_names script.now.models) (name_of b)) (map bound_view files.now) }
    requires count { length numbered.now ≡ length (metamodels script.now) }
    ensures ok { IfOk result (λ read. IfSome (F.files vault.old) (λ told. AllZip (models.IsModel told script.now numbered.now) (map bound_view files.now) (items_of read.found.items))) }
    ensures names { IfOk result (λ read. names_of read.found.items ≡ map name_of (map bound_view files.now)) }
    ensures form { IfOk result (λ read. IfSome (F.files vault.old) (λ told. IsFormAmong told (map bound_view files.now) target.now read.form)) }
    ensures read { IfOk result (λ read. AreRead script.now numbered.now read.found.items) }
    ensures err { IfErr result (λ stop. StoppedBy stop (F.files vault.old) (λ told. FirstStop (models.IsReadModel told script.now numbered.now) (models.ModelStops told script.now numbered.now) (map bound_view files.now))
        (Rose (F.faults vault.old) (F.faults vault.new)) (map (λ b. b.path) (map bound_view files.now))) }
    ensures files { F.files vault.new ≡ F.files vault.old }
    ensures faults { F.faults vault.old ≤ F.faults vault.new }
{
    let slots = slots_of(alloc, script)?;
    let mut found = Vec::new(alloc);
    let mut form = Form::Xmi;
    for i in 0..files.len() {
        let file = file_at(files, i);
        let meta = numbered.get(meta_number(slots.as_slice(), file.name));
        let read = model_at(alloc, vault, meta, file.path)?;
        form = form_after(form, target, file.path, read.form);
        found.push(Found {
            name: file.name,
            item: read.model,
        })?;
    }
    Ok(ReadModels { found, form })
}

/// The models of the script with their names, read in the order of the words, each by its metamodel; and the form of the target's file.
pub(crate) fn read_models<'w, 'm, F: Vault>(
    alloc: Global,
    vault: &mut F,
    request: &CheckRequest<'w>,
    script: &Script,
    numbered: &'m Metas,
) -> Result<ReadModels<'w, 'm>, Stop<'w>>
    requires fits { NamesFit (request_view request.now) script.now }
    requires count { length numbered.now ≡ length (metamodels script.now) }
    ensures ok { IfOk result (λ read. IfSome (F.files vault.old) (λ told. models.AreModels told (request_view request.now) script.now numbered.now (items_of read.found.items))) }
    ensures names { IfOk result (λ read. names_of read.found.items ≡ map name_of (models.model_files (request_view request.now) script.now)) }
    ensures form { IfOk result (λ read. IfSome (F.files vault.old) (λ told. IsFormAmong told (models.model_files (request_view request.now) script.now) (target_path (request_view request.now)) read.form)) }
    ensures read { IfOk result (λ read. AreRead script.now numbered.now read.found.items) }
    ensures err { IfErr result (λ stop. StoppedBy stop (F.files vault.old) (λ told. models.ModelsStop told (request_view request.now) script.now numbered.now)
        (Rose (F.faults vault.old) (F.faults vault.new)) (check_paths (request_view request.now))) }
    ensures files { F.files vault.new ≡ F.files vault.old }
    ensures faults { F.faults vault.old ≤ F.faults vault.new }
{
    let names = metamodel_names(alloc, script)?;
    let files = model_files(alloc, request, names.as_slice())?;
    models_at(
        alloc,
        vault,
        files.as_slice(),
        script,
        numbered,
        request.target_path(),
    )
}
