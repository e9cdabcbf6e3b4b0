//! The trace of an enforcement (QVT 1.3, section 7.10.1): which relations held, with the values of their variables, what they made and
//! what they demanded of the target, as one line of compact JSON (RFC 8259).
//!
//! Costs: reading and writing take time and memory by the length of the text.
#![tactic(auto)]

mod trace;
mod trace_entries;
mod trace_laws;
mod trace_members;
mod trace_pairs;
mod trace_reading;
mod trace_values;
mod trace_writing;

pub use trace::{
    MAX_HEIGHT, Trace, TraceDemand, TraceEntry, TraceError, TracePair, TraceTerm, TraceValue,
};
pub use trace_laws::{bytes_are_one_trace, read_values_are_traces, written_traces_have_their_form};
pub use trace_reading::read_trace;
pub use trace_writing::trace_text;
