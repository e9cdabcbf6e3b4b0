//! What is read of a value is what the value is, and what is written of a trace is this trace.
ghost use Rattle.std.specs.Prelude.{◌≡◌, ◌↔◌, ℕ, List, Ok};
ghost use Rattle.serde_json.specs.Data.{Data};
ghost use Rattle.trace_log.specs.declared.trace.Trace.{Trace};
ghost use Rattle.trace_log.specs.declared.trace.TraceError.{TraceError};
ghost use Rattle.trace_log.specs.declared.trace.TraceError.TheVariants as errors;
ghost use Rattle.trace_log.specs.TraceData.{trace_data};
ghost use Rattle.trace_log.specs.TraceEntries.{trace_of};
ghost use Rattle.trace_log.specs.TraceForms.{IsTrace};
ghost use Rattle.trace_log.specs.TraceHeld.{IsHeld};
ghost use Rattle.trace_log.specs.TraceTexts.{SpellsTrace, IsWhy};

/// A trace is read of a value of JSON exactly where the value is this trace.
pub fn read_values_are_traces()
    ensures { (d : Data) → (t : Trace) → (trace_of d ≡ Ok t) ↔ IsTrace d t }
{}

/// What is written of a trace has the form of a trace, and is this trace.
pub fn written_traces_have_their_form()
    ensures { (t : Trace) → IsHeld t → IsTrace (trace_data t) t }
{}

/// Bytes are one trace at most, and where they are one, no error is told of them but want of memory.
pub fn bytes_are_one_trace()
    ensures one { (bytes : List ℕ) → (t u : Trace) → SpellsTrace bytes t → SpellsTrace bytes u → t ≡ u }
    ensures read { (bytes : List ℕ) → (t : Trace) → (e : TraceError) → SpellsTrace bytes t → IsWhy bytes e → e ≡ errors.NoMemory }
{}
