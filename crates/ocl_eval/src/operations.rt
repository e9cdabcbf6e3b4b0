ghost use Rattle.std.specs.Prelude.{◌≡◌, ◌≢◌, ℕ, List, IfOk};
ghost use Rattle.qv_syntax.specs.declared.operation.Operation.TheVariants.{Concatenate, AsSingletonSet};
ghost use Rattle.std.specs.Option.{option_map};
ghost use Rattle.qvtr_semantics.specs.Outs.{integer_of, string_of, boolean_of, given};
ghost use Rattle.qvtr_semantics.specs.Integers as integers;
ghost use Rattle.qvtr_semantics.specs.Strings as strings;
ghost use Rattle.qvtr_semantics.specs.Expressions.{argument, on_integers, on_strings, operation, is_undefined, is_invalid, singleton, substring, to_string, result as result_of};

use crate::integers::{absolute, maximum, minimum, quotient, remainder};
use crate::outs::{boolean, boolean_of, integer_of, string_of};
use crate::running::Running;
use crate::spelling::to_integer;
use crate::strings::{boolean_text, integer_text, size, substring as part_of};
use mof_metamodel::{NoMemory, Seq};
use qv_syntax::{Kind, Operation};
use qvtr_semantics::Out;
use std::alloc::Global;

/// The Integer that is an argument, if it is one.
fn integer_argument(args: &[Out], place: usize) -> Option<i64>
    ensures { result ≡ integer_of (argument args.now place) }
{
    match args.get(place) {
        Some(value) => integer_of(value),
        None => None,
    }
}

/// `x.div(i)`
fn divided(x: &Out, args: &[Out]) -> Out
    ensures { result ≡ result_of (on_integers integers.quotient x.now (argument args.now 0)) }
{
    match integer_of(x) {
        Some(i) => match integer_argument(args, 0) {
            Some(j) => quotient(i, j),
            None => Out::Invalid,
        },
        None => Out::Invalid,
    }
}

/// `x.mod(i)`
fn modulo(x: &Out, args: &[Out]) -> Out
    ensures { result ≡ result_of (on_integers integers.remainder x.now (argument args.now 0)) }
{
    match integer_of(x) {
        Some(i) => match integer_argument(args, 0) {
            Some(j) => remainder(i, j),
            None => Out::Invalid,
        },
        None => Out::Invalid,
    }
}

/// `x.max(i)`
fn greater(x: &Out, args: &[Out]) -> Out
    ensures { result ≡ result_of (on_integers integers.maximum x.now (argument args.now 0)) }
{
    match integer_of(x) {
        Some(i) => match integer_argument(args, 0) {
            Some(j) => maximum(i, j),
            None => Out::Invalid,
        },
        None => Out::Invalid,
    }
}

/// `x.min(i)`
fn lesser(x: &Out, args: &[Out]) -> Out
    ensures { result ≡ result_of (on_integers integers.minimum x.now (argument args.now 0)) }
{
    match integer_of(x) {
        Some(i) => match integer_argument(args, 0) {
            Some(j) => minimum(i, j),
            None => Out::Invalid,
        },
        None => Out::Invalid,
    }
}

/// `x.abs()`
fn magnitude(x: &Out) -> Out
    ensures { result ≡ given (integer_of x.now) integers.absolute }
{
    match integer_of(x) {
        Some(i) => absolute(i),
        None => Out::Invalid,
    }
}

/// `x.toString()`, of an Integer or a Boolean.
fn to_string(alloc: Global, x: &Out) -> Result<Out, NoMemory>
    ensures { IfOk result (λ out. out ≡ to_string x.now) }
{
    match integer_of(x) {
        Some(i) => integer_text(alloc, i),
        None => match boolean_of(x) {
            Some(b) => boolean_text(alloc, b),
            None => Ok(Out::Invalid),
        },
    }
}

/// `x.size()`, of a String.
fn length(x: &Out) -> Out
    ensures { result ≡ given (string_of x.now) strings.size }
{
    match string_of(x) {
        Some(text) => size(text),
        None => Out::Invalid,
    }
}

/// `x.toInteger()`
fn integer_in(x: &Out) -> Out
    ensures { result ≡ given (string_of x.now) strings.to_integer }
{
    match string_of(x) {
        Some(text) => to_integer(text),
        None => Out::Invalid,
    }
}

/// `x.concat(s)`
fn concatenated(x: Running, args: &[Out]) -> Result<Running, NoMemory>
    ensures { IfOk result (λ out. out ≡ result_of (on_strings strings.concatenated x (argument args.now 0))) }
{
    match args.get(0) {
        Some(second) => x.concatenated(second),
        None => Ok(Running::new(Out::Invalid)),
    }
}

/// `x.substring(lower, upper)`
fn substring(alloc: Global, x: &Out, args: &[Out]) -> Result<Out, NoMemory>
    ensures { IfOk result (λ out. out ≡ substring x.now (argument args.now 0) (argument args.now 1)) }
{
    match string_of(x) {
        Some(text) => match integer_argument(args, 0) {
            Some(lower) => match integer_argument(args, 1) {
                Some(upper) => part_of(alloc, text, lower, upper),
                None => Ok(Out::Invalid),
            },
            None => Ok(Out::Invalid),
        },
        None => Ok(Out::Invalid),
    }
}

/// `x.oclIsUndefined()`
fn is_undefined(x: &Out) -> Out
    ensures { result ≡ is_undefined x.now }
{
    match x {
        Out::Null => boolean(true),
        Out::Invalid => boolean(true),
        Out::One(_) => boolean(false),
        Out::Many(..) => boolean(false),
    }
}

/// `x.oclIsInvalid()`
fn is_invalid(x: &Out) -> Out
    ensures { result ≡ is_invalid x.now }
{
    match x {
        Out::Invalid => boolean(true),
        Out::Null => boolean(false),
        Out::One(_) => boolean(false),
        Out::Many(..) => boolean(false),
    }
}

/// What `->` takes of a single value: the Set of it, of null the empty one.
fn singleton(alloc: Global, x: Out) -> Result<Out, NoMemory>
    ensures { IfOk result (λ out. out ≡ singleton x) }
{
    match x {
        Out::One(datum) => {
            let mut elements = Seq::new(alloc);
            elements.push(datum)?;
            Ok(Out::Many(Kind::Set, elements))
        }
        Out::Null => Ok(Out::Many(Kind::Set, Seq::new(alloc))),
        Out::Many(..) => Ok(Out::Invalid),
        Out::Invalid => Ok(Out::Invalid),
    }
}

/// An operation other than `concat` and `->` on a single value (OCL 2.4, sections 11.3.1 and 11.5).
fn of_value(alloc: Global, named: Operation, x: &Out, args: &[Out]) -> Result<Out, NoMemory>
    requires counted { named ≢ Concatenate }
    requires single { named ≢ AsSingletonSet }
    ensures { IfOk result (λ out. out ≡ operation named x.now args.now) }
{
    match named {
        Operation::Absolute => Ok(magnitude(x)),
        Operation::Divide => Ok(divided(x, args)),
        Operation::Modulo => Ok(modulo(x, args)),
        Operation::Maximum => Ok(greater(x, args)),
        Operation::Minimum => Ok(lesser(x, args)),
        Operation::ToString => to_string(alloc, x),
        Operation::Length => Ok(length(x)),
        Operation::Concatenate => unreachable!(),
        Operation::ToInteger => Ok(integer_in(x)),
        Operation::Substring => substring(alloc, x, args),
        Operation::IsUndefined => Ok(is_undefined(x)),
        Operation::IsInvalid => Ok(is_invalid(x)),
        Operation::AsSingletonSet => unreachable!(),
    }
}

/// An operation other than `concat` on a single value.
fn uncounted(alloc: Global, named: Operation, x: Out, args: &[Out]) -> Result<Out, NoMemory>
    requires { named ≢ Concatenate }
    ensures { IfOk result (λ out. out ≡ operation named x args.now) }
{
    match named {
        Operation::AsSingletonSet => singleton(alloc, x),
        other => {
            let out = of_value(alloc, other, &x, args);
            drop(x);
            out
        }
    }
}

/// An operation on a single value. A chain of `concat` counts the characters of each part once.
pub(crate) fn operation(
    alloc: Global,
    named: Operation,
    x: Running,
    args: &[Out],
) -> Result<Running, NoMemory>
    ensures { IfOk result (λ out. out ≡ operation named x args.now) }
{
    match named {
        Operation::Concatenate => concatenated(x, args),
        other => Ok(Running::new(uncounted(alloc, other, x.into_out(), args)?)),
    }
}
