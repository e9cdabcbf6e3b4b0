ghost use Rattle.std.specs.Prelude.{◌≡◌, length, IfOk};
ghost use Rattle.qvtr_semantics.specs.Outs.{string_of, and_then, value_of_datum, string_in};
ghost use Rattle.qvtr_semantics.specs.Strings.{concatenated};
ghost use Rattle.qvtr_semantics.specs.Expressions.{added, on_strings, result as result_of};
ghost use Rattle.ocl_eval.specs.Counted.{IsCounted};

use crate::integers::plus;
use crate::outs::{integer_of, string_of};
use crate::strings::character_count;
use mof_metamodel::{NoMemory, Text};
use object_tables::Value;
use qvtr_semantics::{Datum, MAX_RESULT, Out};

/// A value to which `+` or `concat` may add more. It knows how many characters it has, if it is a String, so that a chain of them counts
/// none twice. Contracts see it as the value.
#[derive(Drop)]
pub struct Running {
    out: Out,
    count: usize,
}

impl std::marker::Model for Running {
    ghost use Rattle.qvtr_semantics.specs.declared.out.Out.{Out};
    ghost use Rattle.ocl_eval.specs.Counted.{IsCounted};

    ghost Value = { Out };

    ghost view = { λ r. r.out };

    ghost invariant = { λ r. IsCounted r.out r.count };
}

// the characters of a String, else any number
fn characters_in(out: &Out) -> usize
    ensures { IsCounted out.now result }
{
    match string_of(out) {
        Some(text) => character_count(text),
        None => 0,
    }
}

// the String, if the value is one
fn into_text(out: Out) -> Option<Text>
    ensures { result ≡ string_of out }
{
    match out {
        Out::One(datum) => text_of_datum(datum),
        _ => None,
    }
}

fn text_of_datum(datum: Datum) -> Option<Text>
    ensures { result ≡ and_then (value_of_datum datum) string_in }
{
    match datum {
        Datum::Val(_, value) => text_of_value(value),
        Datum::Obj(..) => None,
    }
}

fn text_of_value(value: Value) -> Option<Text>
    ensures { result ≡ string_in value }
{
    match value {
        Value::Str(text) => Some(text),
        _ => None,
    }
}

// the text and behind it another, of which the first has so many characters
#[tactic(auto, using(crate::proofs::StringLaws::together, crate::proofs::StringLaws::first_alone))]
fn longer(first: Text, count: usize, second: &Text) -> Result<Running, NoMemory>
    requires { count ≡ length first }
    ensures { IfOk result (λ sum. sum ≡ concatenated first second.now) }
{
    if count > MAX_RESULT {
        return Ok(Running::new(Out::Invalid));
    }
    let more = character_count(second);
    if more > MAX_RESULT - count {
        return Ok(Running::new(Out::Invalid));
    }
    let mut joined = first;
    joined.push_str(second.as_str())?;
    Ok(Running {
        out: Out::One(Datum::Val(0, Value::Str(joined))),
        count: count + more,
    })
}

impl Running {
    /// A value, of which a String is counted.
    pub fn new(out: Out) -> Running
        ensures { result ≡ out }
    {
        let count = characters_in(&out);
        Running { out, count }
    }

    /// The value.
    pub fn into_out(self) -> Out
        ensures { result ≡ self }
    {
        let Running { out, count: _ } = self;
        out
    }

    /// The value with another String behind it (OCL 2.4, section 11.5.3). It takes the characters of the other alone.
    pub fn concatenated(self, other: &Out) -> Result<Running, NoMemory>
        ensures { IfOk result (λ sum. sum ≡ result_of (on_strings concatenated self other.now)) }
    {
        let Running { out, count } = self;
        match (into_text(out), string_of(other)) {
            (Some(first), Some(second)) => longer(first, count, second),
            _ => Ok(Running::new(Out::Invalid)),
        }
    }

    /// The value `+` another (OCL 2.4, sections 11.5.2 and 11.5.3). It takes the characters of the other alone.
    pub fn plus(self, other: &Out) -> Result<Running, NoMemory>
        ensures { IfOk result (λ sum. sum ≡ added self other.now) }
    {
        if let (Some(i), Some(j)) = (integer_of(&self.out), integer_of(other)) {
            return Ok(Running::new(plus(i, j)));
        }
        self.concatenated(other)
    }
}
