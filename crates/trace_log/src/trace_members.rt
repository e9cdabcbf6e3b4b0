//! Members of objects and items of lists, with the paths of those that are amiss.
ghost use Rattle.std.specs.Prelude.{◌≡◌, ◌∷◌, ◌++◌, [], chars, Err, IfOk, option_map, string_bytes};
ghost use Rattle.std.specs.Fmt.{decimal};
ghost use Rattle.serde_json.specs.View.{view, members_view};
ghost use Rattle.trace_log.specs.Readings.{Reading, Gives, GivesBefore, GivesMember, GivesMembers, at, amiss_at, taken, no_more, members_of, sole_of, two_of, text_of, flag_of, member_by};

use crate::trace::TraceError;
use mof_metamodel::{NoMemory, Text};
use serde_json::Value;
use std::alloc::Global;
use std::cmp::Ordering;
use std::collections::btree_map::Iter;

/// The members of an object that are left, in the order of their names.
pub(crate) type Members<'a> = Iter<'a, String, Value>;

/// The path of the value itself.
#[tactic(auto, using(crate::proofs::StepLaws::no_characters))]
fn empty_path(alloc: Global) -> Result<Text, NoMemory>
    ensures { IfOk result (λ p. p ≡ []) }
{
    Text::new(alloc, "")
}

/// The value itself is amiss.
pub(crate) fn amiss_here<X>(alloc: Global) -> Result<X, TraceError>
    ensures { Gives result (Err []) }
{
    let path = empty_path(alloc)?;
    Err(TraceError::Shape(path))
}

/// The path that goes one step.
fn step_path(alloc: Global, step: &str) -> Result<Text, NoMemory>
    ensures { IfOk result (λ p. p ≡ 47 ∷ chars step.now) }
{
    let mut path = empty_path(alloc)?;
    path.push('/')?;
    path.push_str(step)?;
    Ok(path)
}

/// A member of this name is amiss.
fn amiss_at<X>(alloc: Global, name: &str) -> Result<X, TraceError>
    ensures { Gives result (amiss_at name.now) }
{
    let path = step_path(alloc, name)?;
    Err(TraceError::Shape(path))
}

/// A path behind a step.
fn path_under(alloc: Global, step: &str, rest: &Text) -> Result<Text, NoMemory>
    ensures { IfOk result (λ p. p ≡ 47 ∷ chars step.now ++ rest.now) }
{
    let mut path = step_path(alloc, step)?;
    path.push_str(rest.as_str())?;
    Ok(path)
}

/// What was read one step further.
pub(crate) fn at<X>(
    alloc: Global,
    step: &str,
    reading: Result<X, TraceError>,
) -> Result<X, TraceError>
    ensures { (meaning : Reading X) → Gives reading meaning → Gives result (at (chars step.now) meaning) }
{
    match reading {
        Ok(x) => Ok(x),
        Err(TraceError::Shape(rest)) => Err(TraceError::Shape(path_under(alloc, step, &rest)?)),
        Err(error) => Err(error),
    }
}

/// The step to the item of this number.
#[tactic(auto, using(crate::proofs::StepLaws::decimal_characters))]
fn item_step(alloc: Global, number: usize) -> Result<String, NoMemory>
    ensures { IfOk result (λ s. chars (string_bytes s) ≡ decimal number) }
{
    Ok(format!(in alloc; "{number}")?)
}

/// What was read of the item of this number.
pub(crate) fn at_item<X>(
    alloc: Global,
    number: usize,
    reading: Result<X, TraceError>,
) -> Result<X, TraceError>
    ensures { (meaning : Reading X) → Gives reading meaning → Gives result (at (decimal number) meaning) }
{
    match reading {
        Ok(x) => Ok(x),
        Err(error) => {
            let step = item_step(alloc, number)?;
            at(alloc, step.as_str(), Err(error))
        }
    }
}

/// The members of an object.
pub(crate) fn members_of(alloc: Global, value: &Value) -> Result<Members<'_>, TraceError>
    ensures { GivesMembers result (members_of (view value.now)) }
{
    match value {
        Value::Object(members) => Ok(members.iter()),
        _ => amiss_here(alloc),
    }
}

/// The value of the member of this name, which has to come first.
pub(crate) fn take_member<'a>(
    alloc: Global,
    name: &str,
    members: &mut Members<'a>,
) -> Result<&'a Value, TraceError>
    ensures { GivesMember members.new result (taken name.now (members_view members.old)) }
{
    let Some((found, value)) = members.next() else {
        return amiss_at(alloc, name);
    };
    match found.as_str().cmp(name) {
        Ordering::Less => amiss_at(alloc, found.as_str()),
        Ordering::Equal => Ok(value),
        Ordering::Greater => amiss_at(alloc, name),
    }
}

/// No member is left.
pub(crate) fn no_more(alloc: Global, members: &mut Members<'_>) -> Result<(), TraceError>
    ensures { Gives result (no_more (members_view members.old)) }
{
    match members.next() {
        Some((found, _)) => amiss_at(alloc, found.as_str()),
        None => Ok(()),
    }
}

/// The member of an object that has one, by its name and its value.
pub(crate) fn sole_of(value: &Value) -> Option<(&str, &Value)>
    ensures { option_map (λ m. (m.0.now, view m.1.now)) result ≡ sole_of (view value.now) }
{
    let Value::Object(members) = value else {
        return None;
    };
    let mut left = members.iter();
    let (name, content) = left.next()?;
    match left.next() {
        Some(_) => None,
        None => Some((name.as_str(), content)),
    }
}

/// The items of a list of two.
pub(crate) fn two_of(value: &Value) -> Option<(&Value, &Value)>
    ensures { option_map (λ m. (view m.0.now, view m.1.now)) result ≡ two_of (view value.now) }
{
    let Value::Array(values) = value else {
        return None;
    };
    let mut left = values.iter();
    let first = left.next()?;
    let second = left.next()?;
    match left.next() {
        Some(_) => None,
        None => Some((first, second)),
    }
}

/// A text.
pub(crate) fn text_of(alloc: Global, value: &Value) -> Result<Text, TraceError>
    ensures { Gives result (text_of (view value.now)) }
{
    match value {
        Value::String(text) => Ok(Text::new(alloc, text.as_str())?),
        _ => amiss_here(alloc),
    }
}

/// A Boolean.
pub(crate) fn flag_of(alloc: Global, value: &Value) -> Result<bool, TraceError>
    ensures { Gives result (flag_of (view value.now)) }
{
    match value {
        Value::Bool(flag) => Ok(*flag),
        _ => amiss_here(alloc),
    }
}

/// The text that is the member of this name.
pub(crate) fn take_text(
    alloc: Global,
    name: &str,
    members: &mut Members<'_>,
) -> Result<Text, TraceError>
    ensures { GivesBefore members.new result (member_by text_of name.now (members_view members.old)) }
{
    let value = take_member(alloc, name, members)?;
    at(alloc, name, text_of(alloc, value))
}

/// The Boolean that is the member of this name.
pub(crate) fn take_flag(
    alloc: Global,
    name: &str,
    members: &mut Members<'_>,
) -> Result<bool, TraceError>
    ensures { GivesBefore members.new result (member_by flag_of name.now (members_view members.old)) }
{
    let value = take_member(alloc, name, members)?;
    at(alloc, name, flag_of(alloc, value))
}
