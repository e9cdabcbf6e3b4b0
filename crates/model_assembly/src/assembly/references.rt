ghost use Rattle.std.specs.Prelude.{◌≡◌, ◌<◌, ℕ, false, length, None, Some, IfOk, IfErr, IsSome, MatchResult};
ghost use Rattle.mof_metamodel.specs.Metamodels.{opposite_of, prop_count};
ghost use Rattle.mof_metamodel.specs.WellMeta.{WellMeta};
ghost use Rattle.model_assembly.specs.AssemblyEntries.{written_text};
ghost use Rattle.model_assembly.specs.declared.assembly.first.Part.{Part};
ghost use Rattle.model_assembly.specs.declared.fault.ModelFault.TheVariants as faults;
ghost use Rattle.model_assembly.specs.AssemblyFirsts.{is_unanswered};
ghost use Rattle.model_assembly.specs.AssemblyNamings.{IsSecondWhole, at, part_of, sayings_of};
ghost use Rattle.model_assembly.specs.AssemblyReferences as told;
ghost use Rattle.model_assembly.specs.Profile.{prop_name};

use super::check::AssemblyError;
use super::entry::{Entry, entries, sort};
use super::first::{Part, first_dangling, first_second_whole, first_unanswered, part_of};
use super::naming::{Naming, namings_of, sayings_of};
use crate::fault::ModelFault;
use crate::filed::{Filed, WrittenReference};
use crate::texts::empty_text;
use mof_metamodel::{MetaModel, NoMemory, PropId, Text};
use std::alloc::Global;

/// The identifier of an object.
fn id_text(alloc: Global, ids: &[Text], o: u32) -> Result<Text, NoMemory>
    ensures { IfOk result (λ t. t ≡ told.listed_id ids.now o) }
{
    match ids.get(o as usize) {
        Some(id) => id.duplicate(alloc),
        None => Ok(empty_text(alloc)),
    }
}

/// The name of a property.
fn prop_text(alloc: Global, meta: &MetaModel, p: u32) -> Result<Text, NoMemory>
    requires { p < prop_count meta.now }
    ensures { IfOk result (λ t. t ≡ prop_name meta.now p) }
{
    meta.prop(PropId(p)).name.duplicate(alloc)
}

/// How what is written is printed.
fn reference_text(
    alloc: Global,
    references: &[WrittenReference],
    n: usize,
) -> Result<Text, NoMemory>
    ensures { IfOk result (λ t. t ≡ written_text references.now n) }
{
    match references.get(n) {
        Some(reference) => reference.text.duplicate(alloc),
        None => Ok(empty_text(alloc)),
    }
}

/// The fault of an entry that names no object of the reference's type.
fn dangling_of(
    alloc: Global,
    meta: &MetaModel,
    filed: &Filed,
    entry: Entry,
) -> Result<ModelFault, NoMemory>
    requires { entry.property.0 < prop_count meta.now }
    ensures { IfOk result (λ f. f ≡ told.dangling_of meta.now filed.now entry) }
{
    Ok(ModelFault::Dangling {
        id: id_text(alloc, filed.ids.as_slice(), entry.object)?,
        prop: prop_text(alloc, meta, entry.property.0)?,
        reference: reference_text(alloc, filed.references.as_slice(), entry.written)?,
    })
}

/// The fault of a naming that is unanswered at the opposite.
fn mismatch_of(
    alloc: Global,
    meta: &MetaModel,
    filed: &Filed,
    naming: Naming,
    q: PropId,
) -> Result<ModelFault, NoMemory>
    requires near { naming.property < prop_count meta.now }
    requires far { q.0 < prop_count meta.now }
    ensures { IfOk result (λ f. f ≡ told.mismatch_of meta.now filed.now naming q.0) }
{
    Ok(ModelFault::Mismatch {
        id: id_text(alloc, filed.ids.as_slice(), naming.object)?,
        prop: prop_text(alloc, meta, naming.property)?,
        other: id_text(alloc, filed.ids.as_slice(), naming.target)?,
        other_prop: prop_text(alloc, meta, q.0)?,
    })
}

/// The entries of a file in order.
fn sorted_entries(alloc: Global, meta: &MetaModel, filed: &Filed) -> Result<Vec<Entry>, NoMemory>
    requires { told.MayBeAssembled meta.now filed.now }
    ensures { IfOk result (λ es. told.AreSorted meta.now filed.now es.items) }
{
    let mut entries = entries(
        alloc,
        meta,
        filed.classes.as_slice(),
        filed.references.as_slice(),
    )?;
    sort(&mut entries)?;
    Ok(entries)
}

/// The first dangling reference.
fn dangling(
    alloc: Global,
    meta: &MetaModel,
    filed: &Filed,
    entries: &[Entry],
) -> Result<Option<ModelFault>, NoMemory>
    requires sound { told.MayBeAssembled meta.now filed.now }
    requires order { told.AreSorted meta.now filed.now entries.now }
    ensures { IfOk result (told.IsFoundOr (told.NoneDangles meta.now filed.now entries.now) meta.now filed.now) }
{
    match first_dangling(meta, filed.classes.as_slice(), entries) {
        Some(i) => Ok(Some(dangling_of(alloc, meta, filed, entries[i])?)),
        None => Ok(None),
    }
}

/// The fault of a naming that makes an object a part a second time.
fn second_of(
    alloc: Global,
    meta: &MetaModel,
    filed: &Filed,
    naming: Naming,
) -> Result<ModelFault, NoMemory>
    requires within { naming.property < prop_count meta.now }
    requires part { IsSome (part_of meta.now naming) }
    ensures { IfOk result (λ f. (x : Part) → part_of meta.now naming ≡ Some x → f ≡ faults.TwoContainers (told.listed_id filed.now.ids x.part)) }
{
    match part_of(meta, naming) {
        Some(part) => Ok(ModelFault::TwoContainers {
            id: id_text(alloc, filed.ids.as_slice(), part.part)?,
        }),
        None => unreachable!(),
    }
}

/// The first object that is contained twice.
fn contained_twice(
    alloc: Global,
    meta: &MetaModel,
    filed: &Filed,
    namings: &[Naming],
) -> Result<Option<ModelFault>, NoMemory>
    requires well { WellMeta meta.now }
    requires sound { told.MayBeAssembled meta.now filed.now }
    requires named { told.AreNamed meta.now filed.now namings.now }
    ensures { IfOk result (told.IsFoundOr ((j : ℕ) → j < length namings.now → ¬ IsSecondWhole meta.now namings.now j) meta.now filed.now) }
{
    match first_second_whole(alloc, meta, filed.ids.len(), namings)? {
        Some(i) => Ok(Some(second_of(alloc, meta, filed, namings[i])?)),
        None => Ok(None),
    }
}

/// The fault of a naming that is unanswered.
fn unanswered_of(
    alloc: Global,
    meta: &MetaModel,
    filed: &Filed,
    naming: Naming,
) -> Result<ModelFault, NoMemory>
    requires within { naming.property < prop_count meta.now }
    requires opposite { IsSome (opposite_of meta.now naming.property) }
    ensures { IfOk result (λ f. (q : ℕ) → opposite_of meta.now naming.property ≡ Some q → f ≡ told.mismatch_of meta.now filed.now naming q) }
{
    match meta.opposite(PropId(naming.property)) {
        Some(q) => mismatch_of(alloc, meta, filed, naming, q),
        None => unreachable!(),
    }
}

/// The first mismatch of ends.
fn mismatch(
    alloc: Global,
    meta: &MetaModel,
    filed: &Filed,
    namings: &[Naming],
) -> Result<Option<ModelFault>, NoMemory>
    requires well { WellMeta meta.now }
    requires sound { told.MayBeAssembled meta.now filed.now }
    requires named { told.AreNamed meta.now filed.now namings.now }
    requires single { (j : ℕ) → j < length namings.now → ¬ IsSecondWhole meta.now namings.now j }
    ensures { IfOk result (told.IsFoundOr ((j : ℕ) → j < length namings.now → is_unanswered meta.now namings.now (sayings_of namings.now filed.now.mentions) (at namings.now j) ≡ false) meta.now filed.now) }
{
    let sayings = sayings_of(alloc, namings, filed.mentions.as_slice())?;
    match first_unanswered(alloc, meta, namings, sayings.as_slice())? {
        Some(i) => Ok(Some(unanswered_of(alloc, meta, filed, namings[i])?)),
        None => Ok(None),
    }
}

/// Refuses a file for a fault, if there is one.
fn refuse(fault: Option<ModelFault>) -> Result<(), AssemblyError>
    ensures { MatchResult result (λ _. fault ≡ None) (told.IsContentOf fault) }
{
    match fault {
        Some(fault) => Err(AssemblyError::Content(fault)),
        None => Ok(()),
    }
}

/// What objects name at references, or the first fault of references.
pub(super) fn named(
    alloc: Global,
    meta: &MetaModel,
    filed: &Filed,
) -> Result<Vec<Naming>, AssemblyError>
    requires well { WellMeta meta.now }
    requires sound { told.MayBeAssembled meta.now filed.now }
    ensures ok { IfOk result (λ xs. told.AreAnswered meta.now filed.now xs.items) }
    ensures fault { IfErr result (told.IsRefusal meta.now filed.now) }
{
    let entries = sorted_entries(alloc, meta, filed)?;
    refuse(dangling(alloc, meta, filed, entries.as_slice())?)?;
    let namings = namings_of(alloc, entries.as_slice())?;
    refuse(contained_twice(alloc, meta, filed, namings.as_slice())?)?;
    refuse(mismatch(alloc, meta, filed, namings.as_slice())?)?;
    Ok(namings)
}
