//! What is printed of the model that is made, and its text as a file.
ghost use Rattle.std.specs.Prelude.{◌≡◌, ◌<◌, ◌≤◌, ℕ, [], ◌∷◌, codes, IfOk};
ghost use Rattle.mof_metamodel.specs.Metamodels.{prop_count};
ghost use Rattle.object_tables.specs.Containment.{IsDepth};
ghost use Rattle.object_tables.specs.Models.{IsLive};
ghost use Rattle.object_tables.specs.Validity.{Valid};
ghost use Rattle.object_tables.specs.declared.limit.TheConstants.{MAX_DEPTH};
ghost use Rattle.fault_lines.specs.Lines as lines;
ghost use Rattle.model_files.specs.FaultTexts.{IsKnownProp, shown_name};
ghost use Rattle.enforce_steps.specs.StepTexts as spec;

use fault_lines::line;
use model_files::{Form, write_json};
use mof_metamodel::{MetaModel, NoMemory, PropId, Seq, Text};
use object_tables::{Breach, LimitKind, Model};
use repair_semantics::Report;
use std::alloc::Global;
use xmi_profile::write_model;

/// The bytes of a model as a file of this form.
pub fn model_text(alloc: Global, model: &Model<'_>, form: Form) -> Result<Seq<u8>, NoMemory>
    requires valid { Valid model.now }
    requires depth { (o depth : ℕ) → IsLive model.now o → IsDepth model.now o depth → depth ≤ MAX_DEPTH }
    ensures { IfOk result (λ text. text ≡ spec.text_in form model.now) }
{
    match form {
        Form::Xmi => write_model(alloc, model),
        Form::Json => write_json(alloc, model),
    }
}

/// The bytes of a text.
fn shown(text: &Text) -> &[u8]
    ensures { result.now ≡ lines.shown text.now }
{
    text.as_str().as_bytes()
}

/// The name of a property.
fn prop_name(meta: &MetaModel, p: PropId) -> &[u8]
    requires { p.0 < prop_count meta.now }
    ensures { result.now ≡ shown_name meta.now p }
{
    shown(&meta.prop(p).name)
}

/// That a bound is broken.
fn bound_line<'a>(
    alloc: Global,
    word: &'a [u8],
    id: &'a [u8],
    prop: &'a [u8],
) -> Result<Seq<u8>, NoMemory>
    ensures { IfOk result (λ text. text ≡ lines.line (codes "invalid" ∷ word.now ∷ id.now ∷ prop.now ∷ [])) }
{
    line(alloc, b"invalid", &[word, id, prop])
}

/// That containers are on a cycle.
fn cycle_line<'a>(alloc: Global, word: &'a [u8], id: &'a [u8]) -> Result<Seq<u8>, NoMemory>
    ensures { IfOk result (λ text. text ≡ lines.line (codes "invalid" ∷ word.now ∷ id.now ∷ [])) }
{
    line(alloc, b"invalid", &[word, id])
}

/// What is printed of a model that breaks a rule, at the object with this identifier.
pub(crate) fn invalid_text(
    alloc: Global,
    meta: &MetaModel,
    breach: Breach,
    id: &Text,
) -> Result<Seq<u8>, NoMemory>
    requires { IsKnownProp meta.now breach.prop }
    ensures { IfOk result (λ text. text ≡ spec.invalid_text meta.now breach id.now) }
{
    let word = breach.kind.word().as_bytes();
    match breach.prop {
        Some(p) => bound_line(alloc, word, shown(id), prop_name(meta, p)),
        None => cycle_line(alloc, word, shown(id)),
    }
}

/// What is printed of a model with too many objects, or that is too deep.
pub(crate) fn limit_text(alloc: Global, path: &str, kind: LimitKind) -> Result<Seq<u8>, NoMemory>
    ensures { IfOk result (λ text. text ≡ spec.limit_text path.now kind) }
{
    match kind {
        LimitKind::Objects => line(alloc, b"limit", &[b"objects", path.as_bytes()]),
        LimitKind::Depth => line(alloc, b"limit", &[b"depth", path.as_bytes()]),
    }
}

/// What is printed of a model whose text is too long.
pub(crate) fn long_text(alloc: Global, path: &str) -> Result<Seq<u8>, NoMemory>
    ensures { IfOk result (λ text. text ≡ spec.long_text path.now) }
{
    line(alloc, b"limit", &[b"bytes", path.as_bytes()])
}

/// What is printed of a target that is put: how many objects are made, changed and deleted.
pub fn report_text(alloc: Global, report: &Report) -> Result<Seq<u8>, NoMemory>
    ensures { IfOk result (λ text. text ≡ spec.report_text report.now) }
{
    let created = report.created;
    let updated = report.updated;
    let deleted = report.deleted;
    let created = format!(in alloc; "{created}")?;
    let updated = format!(in alloc; "{updated}")?;
    let deleted = format!(in alloc; "{deleted}")?;
    line(
        alloc,
        b"done",
        &[
            b"created",
            created.as_bytes(),
            b"updated",
            updated.as_bytes(),
            b"deleted",
            deleted.as_bytes(),
        ],
    )
}
