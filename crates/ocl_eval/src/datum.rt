ghost use Rattle.std.specs.Prelude.{◌≡◌, IfOk};
ghost use Rattle.qvtr_semantics.specs.Data.{same_datum, same_value};

use mof_metamodel::{NoMemory, Seq};
use object_tables::Value;
use qvtr_semantics::{Datum, Out};
use std::alloc::Global;

/// Whether two values of data types are one.
pub fn same_value(v: &Value, w: &Value) -> bool
    ensures { result ≡ same_value v.now w.now }
{
    match (v, w) {
        (Value::Str(s), Value::Str(t)) => s == t,
        (Value::Int(i), Value::Int(j)) => i == j,
        (Value::Bool(b), Value::Bool(c)) => b == c,
        (Value::Lit(e, n), Value::Lit(f, k)) => e.0 == f.0 && n == k,
        _ => false,
    }
}

/// Whether two data are one: one object, or one value with one metamodel.
pub fn same_datum(d: &Datum, e: &Datum) -> bool
    ensures { result ≡ same_datum d.now e.now }
{
    match (d, e) {
        (Datum::Obj(m, o), Datum::Obj(n, p)) => m == n && o.0 == p.0,
        (Datum::Val(m, v), Datum::Val(n, w)) => m == n && same_value(v, w),
        _ => false,
    }
}

/// Another datum that is the same.
pub fn duplicate_datum(alloc: Global, d: &Datum) -> Result<Datum, NoMemory>
    ensures { IfOk result (λ copy. copy ≡ d.now) }
{
    match d {
        Datum::Obj(model, object) => Ok(Datum::Obj(*model, *object)),
        Datum::Val(of, value) => Ok(Datum::Val(*of, value.duplicate(alloc)?)),
    }
}

/// Others of the same data.
pub fn duplicate_data(alloc: Global, elements: &[Datum]) -> Result<Seq<Datum>, NoMemory>
    ensures { IfOk result (λ copies. copies ≡ elements.now) }
{
    let mut copies = Seq::new(alloc);
    for datum in elements {
        copies.push(duplicate_datum(alloc, datum)?)?;
    }
    Ok(copies)
}

/// Another value of an expression that is the same.
pub fn duplicate_out(alloc: Global, out: &Out) -> Result<Out, NoMemory>
    ensures { IfOk result (λ copy. copy ≡ out.now) }
{
    match out {
        Out::One(datum) => Ok(Out::One(duplicate_datum(alloc, datum)?)),
        Out::Many(kind, elements) => {
            Ok(Out::Many(*kind, duplicate_data(alloc, elements.as_slice())?))
        }
        Out::Null => Ok(Out::Null),
        Out::Invalid => Ok(Out::Invalid),
    }
}
