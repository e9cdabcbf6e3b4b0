use mof_metamodel::{NoMemory, Seq, Text};

/// The greatest height of a term in a trace whose text is read back: a term is one higher than the highest among the values of its key.
pub const MAX_HEIGHT: usize = 30;

/// The trace of an enforcement: a transformation in the direction of its target, and its entries in their order.
#[derive(Drop)]
pub struct Trace {
    pub transformation: Text,
    pub target: Text,
    pub entries: Seq<TraceEntry>,
}

/// An entry: a relation held with these values of its variables.
#[derive(Drop)]
pub struct TraceEntry {
    pub relation: Text,
    /// Whether it was called by another entry.
    pub called: bool,
    /// The values of its variables.
    pub values: Seq<TracePair>,
    /// The values that it made.
    pub made: Seq<TracePair>,
    pub demands: Seq<TraceDemand>,
}

/// What an entry demanded of the target: a value at a property of an object.
#[derive(Drop)]
pub struct TraceDemand {
    /// The property.
    pub item: Text,
    /// The object.
    pub place: TraceTerm,
    pub value: TraceValue,
}

/// The value of a variable or of a property that has this name.
#[derive(Drop)]
#[cycle(value)]
pub struct TracePair {
    pub name: Text,
    pub value: TraceValue,
}

/// An object of the target, by its class and the values of its key.
#[derive(Drop)]
#[cycle(value)]
pub struct TraceTerm {
    pub class: Text,
    pub keys: Seq<TracePair>,
}

/// A value.
#[derive(Drop)]
#[cycle(value)]
pub enum TraceValue {
    Str(Text),
    Int(i64),
    Bool(bool),
    /// A literal, by the names of its enumeration and its own.
    Lit(Text),
    /// An object of a source model, by the name of the model and its identifier.
    Obj(Text, Text),
    Term(TraceTerm),
}

/// Why bytes are no trace.
#[derive(Drop)]
pub enum TraceError {
    /// They are no value of JSON.
    Syntax,
    /// The value first differs at this path from the form of a trace.
    Shape(Text),
    NoMemory,
}

impl From<NoMemory> for TraceError {
    ghost use Rattle.std.specs.Prelude.{◌≡◌};
    ghost use Rattle.trace_log.specs.declared.trace.TraceError.TheVariants as errors;

    ghost from_gives = { λ _ e. e ≡ errors.NoMemory };

    fn from(_error: NoMemory) -> TraceError {
        TraceError::NoMemory
    }
}
