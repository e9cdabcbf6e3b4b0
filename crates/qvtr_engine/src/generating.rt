//! `gen`: the example is run in memory, and told in a line.
ghost use Rattle.std.specs.Prelude.{◌≡◌, ◌≤◌, IfOk};
ghost use Rattle.vault_io.specs.Counts.{Rose};
ghost use Rattle.qvtr_engine.specs.GenAnswer.{GenerationEnds, IsGenerated};
ghost use Rattle.qvtr_engine.specs.GenWords.{IsInRange};
ghost use Rattle.qvtr_engine.specs.Summaries as spec;

use crate::gen_words::GenRequest;
use crate::rendering::NO_MEMORY;
use crate::reporting::finish;
use crate::status::Status;
use example_run::{Summary, run_example};
use fault_lines::line;
use mof_metamodel::{NoMemory, Seq};
use std::alloc::Global;
use vault_io::Sink;

/// What a check of the example came to.
fn verdict_word(holds: bool) -> &'static [u8]
    ensures { result.now ≡ spec.verdict_word holds }
{
    if holds { b"yes" } else { b"no" }
}

/// What the second enforcement came to.
fn second_word(unchanged: bool) -> &'static [u8]
    ensures { result.now ≡ spec.second_word unchanged }
{
    if unchanged { b"unchanged" } else { b"changed" }
}

/// What is printed of the example.
fn summary_text(alloc: Global, summary: Summary) -> Result<Seq<u8>, NoMemory>
    ensures { IfOk result (λ text. text ≡ spec.summary_text summary) }
{
    let Summary {
        classes,
        attributes,
        created,
        holds,
        unchanged,
    } = summary;
    let classes = format!(in alloc; "{classes}")?;
    let attributes = format!(in alloc; "{attributes}")?;
    let created = format!(in alloc; "{created}")?;
    line(
        alloc,
        b"classes",
        &[
            classes.as_bytes(),
            b"attributes",
            attributes.as_bytes(),
            b"created",
            created.as_bytes(),
            b"check",
            verdict_word(holds),
            b"second",
            second_word(unchanged),
        ],
    )
}

/// The line of an example that is run.
fn generated_text(alloc: Global, request: GenRequest) -> Result<Seq<u8>, NoMemory>
    requires { IsInRange request }
    ensures { IfOk result (IsGenerated request) }
{
    let summary = run_example(alloc, request.classes, request.seed)?;
    summary_text(alloc, summary)
}

/// Runs the example, and prints what came of it. No file is read or put.
pub(crate) fn generate<K: Sink>(alloc: Global, out: &mut K, request: GenRequest) -> Status
    requires { IsInRange request }
    ensures ends { GenerationEnds request (K.told out.old) (K.told out.new) (Rose (K.faults out.old) (K.faults out.new)) result }
    ensures faults { K.faults out.old ≤ K.faults out.new }
{
    match generated_text(alloc, request) {
        Ok(text) => finish(out, Status::Done, text.as_slice()),
        Err(NoMemory) => finish(out, Status::NoMemory, NO_MEMORY),
    }
}
