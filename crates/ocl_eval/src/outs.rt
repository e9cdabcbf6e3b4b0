ghost use Rattle.std.specs.Prelude.{◌≡◌};
ghost use Rattle.std.specs.Option.{option_copied, option_map};
ghost use Rattle.qvtr_semantics.specs.Outs.{datum_of, integer_of_datum, integer_of, string_of, boolean_of, boolean, collection_of, truth};

use mof_metamodel::{Seq, Text};
use object_tables::Value;
use qv_syntax::Kind;
use qvtr_semantics::{Datum, Out};

/// The datum, if the value is one.
pub fn datum_of(out: &Out) -> Option<&Datum>
    ensures { option_copied result ≡ datum_of out.now }
{
    match out {
        Out::One(datum) => Some(datum),
        _ => None,
    }
}

/// The Integer, if the datum is one.
pub fn integer_of_datum(datum: &Datum) -> Option<i64>
    ensures { result ≡ integer_of_datum datum.now }
{
    match datum {
        Datum::Val(_, Value::Int(number)) => Some(*number),
        _ => None,
    }
}

/// The Integer, if the value is one.
pub fn integer_of(out: &Out) -> Option<i64>
    ensures { result ≡ integer_of out.now }
{
    match out {
        Out::One(datum) => integer_of_datum(datum),
        _ => None,
    }
}

/// The String, if the value is one.
pub fn string_of(out: &Out) -> Option<&Text>
    ensures { option_copied result ≡ string_of out.now }
{
    match out {
        Out::One(Datum::Val(_, Value::Str(text))) => Some(text),
        _ => None,
    }
}

/// The Boolean, if the value is one. `null` counts as invalid where a Boolean is asked for.
pub fn boolean_of(out: &Out) -> Option<bool>
    ensures { result ≡ boolean_of out.now }
{
    match out {
        Out::One(Datum::Val(_, Value::Bool(boolean))) => Some(*boolean),
        _ => None,
    }
}

/// The kind and the elements, if the value is a collection.
pub fn collection_of(out: &Out) -> Option<(Kind, &Seq<Datum>)>
    ensures { option_map (λ found. record { kind = found.0; elements = found.1.now }) result ≡ collection_of out.now }
{
    match out {
        Out::Many(kind, elements) => Some((*kind, elements)),
        _ => None,
    }
}

/// A Boolean as the value of an expression.
pub fn boolean(b: bool) -> Out
    ensures { result ≡ boolean b }
{
    Out::One(Datum::Val(0, Value::Bool(b)))
}

/// A Boolean or `invalid` as the value of an expression.
pub fn truth(b: Option<bool>) -> Out
    ensures { result ≡ truth b }
{
    match b {
        Some(b) => boolean(b),
        None => Out::Invalid,
    }
}
