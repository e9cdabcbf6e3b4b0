//! Where candidates for open variables stand, and how many there are: in the slot of an object that has been
//! chosen, among the partners of one at the opposite of a property, among the objects that hold a value, or
//! in rows of joins.
ghost use Rattle.std.specs.Prelude.{◌≡◌, ◌⊎◌, ◌<◌, ◌≤◌, ℕ, true, false, None, Some, length, slice_get, Contains, IfSome, IfNone, IfOk};
ghost use Rattle.std.specs.Option.{option_copied};
ghost use Rattle.object_tables.specs.Models.{IsReferenceOf};
ghost use Rattle.mof_metamodel.specs.Metamodels.{opposite_of};
ghost use Rattle.qvtr_semantics.specs.declared.datum.Datum.{Datum};
ghost use Rattle.qvtr_semantics.specs.declared.datum.Datum.TheVariants.{Obj, Val};
ghost use Rattle.qvtr_semantics.specs.Expressions.{setting};
ghost use Rattle.qvtr_semantics.specs.Objects.{Setting, held_by, held_at};
ghost use Rattle.qvtr_semantics.specs.Templates.{has};
ghost use Rattle.template_match.specs.declared.link.Link.{Link};
ghost use Rattle.template_match.specs.Asked.{Asker, asker_of, asked_value};
ghost use Rattle.template_match.specs.Branches.{IsChoice, TellsHolders};
ghost use Rattle.template_match.specs.Prepared.{problem_in, IsPrepared};
ghost use Rattle.template_match.specs.Search.{some_data, data_in, usable_link};
ghost use Rattle.template_match.specs.Settled.{IsTold};
ghost use Rattle.template_match.specs.Tasks.{problem_of};

use crate::asked::{Asked, AskedBy};
use crate::candidates::Candidates;
use crate::choice::Choice;
use crate::join_choosing::best_bound;
use crate::link::Link;
use crate::opening::{extent_for, is_open};
use crate::prepared::Prepared;
use crate::readiness::is_ready;
use crate::task::Task;
use crate::values::value_at;
use mof_metamodel::{ClassId, MetaModel, NoMemory, PropId};
use object_tables::{Model, ObjId, Value};
use ocl_eval::{datum_of, eval};
use qv_syntax::Typed;
use qvtr_semantics::{Binding, Datum};

// ---- how many there are

/// How many data stand in a slot of an object of a model.
#[tactic(auto, using(crate::proofs::HolderLaws::partners_len, crate::proofs::HolderLaws::values_len, crate::proofs::HolderLaws::nothing_len))]
fn slot_len(model: &Model<'_>, object: ObjId, prop: PropId) -> usize
    ensures { (s : Setting) (m : ℕ) → slice_get s.models m ≡ Some model.now → result ≡ length (some_data (held_by s m object.0 prop.0)) }
{
    if model.has_reference(object, prop) {
        model.partner_count(object, prop)
    } else if model.has_attribute(object, prop) {
        model.attr(object, prop).len()
    } else {
        0
    }
}

/// The same of the model of this number.
fn slot_len_in(task: &Task<'_, '_>, number: u32, object: ObjId, prop: PropId) -> usize
    ensures { result ≡ length (some_data (held_by (setting task.now.program.now task.now.models.now) number object.0 prop.0)) }
{
    match task.models.get(number as usize) {
        Some(model) => slot_len(model, object, prop),
        None => 0,
    }
}

/// How many candidates there are at most: in a column of rows some may be the same.
#[tactic(auto, using(crate::proofs::CellLaws::few_cells))]
fn candidate_count(task: &Task<'_, '_>, candidates: &Candidates<'_>) -> usize
    ensures { length (data_in (setting task.now.program.now task.now.models.now) candidates.now) ≤ result }
{
    match candidates {
        Candidates::Nowhere => 0,
        Candidates::Slot {
            model,
            object,
            prop,
        } => slot_len_in(task, *model, *object, *prop),
        Candidates::Holders { holders, .. } => holders.len(),
        Candidates::Rows { numbers, .. } => numbers.len(),
    }
}

/// These candidates for a variable.
pub(crate) fn choice<'a>(
    task: &Task<'_, '_>,
    variable: u32,
    candidates: Candidates<'a>,
) -> Choice<'a>
    ensures variable { result.variable ≡ variable }
    ensures candidates { result.candidates ≡ candidates.entry }
    ensures size { length (data_in (setting task.now.program.now task.now.models.now) result.candidates) ≤ result.count }
{
    let count = candidate_count(task, &candidates);
    Choice {
        variable,
        count,
        candidates,
    }
}

/// Of two choices one with fewer candidates.
pub(crate) fn fewer<'a>(one: Option<Choice<'a>>, other: Option<Choice<'a>>) -> Option<Choice<'a>>
    ensures either { (result ≡ one.entry) ⊎ (result ≡ other.entry) }
    ensures none { IfNone result ((one.entry ≡ None) × (other.entry ≡ None)) }
{
    match one {
        Some(a) => match other {
            Some(b) => { if b.count < a.count { Some(b) } else { Some(a) } }
            None => Some(a),
        },
        None => other,
    }
}

// ---- in the slot of an object

/// The slot of a datum at a property.
fn slot_of<'a>(datum: &Datum, prop: PropId) -> Candidates<'a>
    ensures { (s : Setting) → data_in s result ≡ some_data (held_at s datum.now prop.0) }
{
    match datum {
        Datum::Obj(model, object) => Candidates::Slot {
            model: *model,
            object: *object,
            prop,
        },
        Datum::Val(..) => Candidates::Nowhere,
    }
}

/// What the slot of a link's object gives the link's variable, if that is open and the object chosen.
fn slot_choice<'a>(
    prepared: &Prepared<'_, 'a, '_>,
    binding: &Binding,
    link: &Link,
) -> Option<Choice<'a>>
    requires prepared { IsPrepared prepared.now binding.now.values }
    requires link { Contains prepared.now.task.now.links.now link.now }
    ensures some { IfSome result (IsChoice (problem_in prepared.now) binding.now.values) }
    ensures none { IfNone result (usable_link (problem_in prepared.now) binding.now.values link.now ≡ false) }
{
    if !is_open(prepared, binding, link.variable) {
        return None;
    }
    match value_at(binding, link.holder) {
        Some(holder) => Some(choice(prepared.task, link.variable, slot_of(holder, link.prop))),
        None => None,
    }
}

// ---- at whose property a datum stands

/// The opposite of a property, if the class has the property.
#[tactic(auto, using(crate::proofs::HolderLaws::opposite_told))]
fn opposite_in(meta: &MetaModel, class: ClassId, prop: PropId) -> Option<PropId>
    ensures { IfSome result (λ q. opposite_of meta.now prop.0 ≡ Some q.0) }
{
    if class.0 >= meta.class_count() {
        return None;
    }
    match meta.place_of(class, prop) {
        Some(_place) => meta.opposite(prop),
        None => None,
    }
}

/// The same, if the opposite is a reference of the object.
fn opposite_at(model: &Model<'_>, object: ObjId, class: ClassId, prop: PropId) -> Option<PropId>
    ensures reference { IfSome result (λ q. IsReferenceOf model.now object.0 q.0) }
    ensures opposite { IfSome result (λ q. opposite_of model.now.meta prop.0 ≡ Some q.0) }
{
    match opposite_in(model.meta(), class, prop) {
        Some(opposite) => {
            if model.has_reference(object, opposite) {
                Some(opposite)
            } else {
                None
            }
        }
        None => None,
    }
}

/// A reference of an object of the model of this number, at which all stand at whose property of the class the
/// object stands.
fn back_reference(
    task: &Task<'_, '_>,
    class: ClassId,
    number: u32,
    object: ObjId,
    prop: PropId,
) -> Option<PropId>
    ensures { IfSome result (λ q. (d : Datum) → has (held_at (setting task.now.program.now task.now.models.now) d prop.0) (Some (Obj number object)) ≡ true
        → Contains (some_data (held_by (setting task.now.program.now task.now.models.now) number object.0 q.0)) d) }
{
    match task.models.get(number as usize) {
        Some(model) => {
            let _end = model.end();
            opposite_at(model, object, class, prop)
        }
        None => None,
    }
}

/// The objects at whose property an object stands, if the property has an opposite.
fn object_holders<'a>(
    task: &Task<'a, '_>,
    variable: u32,
    prop: PropId,
    number: u32,
    object: ObjId,
) -> Option<Candidates<'a>>
    ensures { IfSome result (TellsHolders (problem_of task.now) variable prop.0 (Some (Obj number object))) }
{
    match extent_for(task.rel, variable) {
        Some((_, class)) => match back_reference(task, class, number, object, prop) {
            Some(back) => Some(Candidates::Slot {
                model: number,
                object,
                prop: back,
            }),
            None => None,
        },
        None => None,
    }
}

/// The objects that hold a value at a property, of the model of the variable, if that has an index.
fn value_holders<'a>(
    task: &Task<'a, '_>,
    variable: u32,
    prop: PropId,
    value: &Value,
) -> Option<Candidates<'a>>
    ensures { IfSome result (λ c. (k : ℕ) → TellsHolders (problem_of task.now) variable prop.0 (Some (Val k value.now)) c) }
{
    match extent_for(task.rel, variable) {
        Some((model, _)) => match task.models.index_of(model) {
            Some(index) => Some(Candidates::Holders {
                model,
                holders: index.with_value(prop, value),
            }),
            None => None,
        },
        None => None,
    }
}

/// The objects at whose property a datum stands, if they can be told.
fn datum_holders<'a>(
    task: &Task<'a, '_>,
    variable: u32,
    prop: PropId,
    datum: &Datum,
) -> Option<Candidates<'a>>
    ensures { IfSome result (TellsHolders (problem_of task.now) variable prop.0 (Some datum.now)) }
{
    match datum {
        Datum::Obj(number, object) => object_holders(task, variable, prop, *number, *object),
        Datum::Val(_, value) => value_holders(task, variable, prop, value),
    }
}

/// The same of a datum that may be missing: then there is no such object.
fn holders<'a>(
    task: &Task<'a, '_>,
    variable: u32,
    prop: PropId,
    datum: Option<&Datum>,
) -> Option<Candidates<'a>>
    ensures { IfSome result (TellsHolders (problem_of task.now) variable prop.0 (option_copied datum.entry)) }
{
    match datum {
        Some(datum) => datum_holders(task, variable, prop, datum),
        None => Some(Candidates::Nowhere),
    }
}

/// What a link gives the variable of its object, if that is open and the link's variable has a value.
fn partner_choice<'a>(
    prepared: &Prepared<'_, 'a, '_>,
    binding: &Binding,
    link: &Link,
) -> Option<Choice<'a>>
    requires prepared { IsPrepared prepared.now binding.now.values }
    requires link { Contains prepared.now.task.now.links.now link.now }
    ensures { IfSome result (IsChoice (problem_in prepared.now) binding.now.values) }
{
    if !is_open(prepared, binding, link.holder) {
        return None;
    }
    match value_at(binding, link.variable) {
        Some(datum) => match datum_holders(prepared.task, link.holder, link.prop, datum) {
            Some(candidates) => Some(choice(prepared.task, link.holder, candidates)),
            None => None,
        },
        None => None,
    }
}

// ---- at whose property stands what is asked for

/// The objects at whose property the value of an item's expression stands, if it is settled and they can be
/// told.
#[tactic(auto, using(crate::proofs::SettledLaws::item_told))]
fn item_holders<'a>(
    task: &Task<'a, '_>,
    binding: &Binding,
    asked: &Asked<'_>,
    e: &Typed,
) -> Result<Option<Candidates<'a>>, NoMemory>
    requires asker { asker_of asked.now.by ≡ Asker.item e.now }
    ensures { IfOk result (λ o. IfSome o (IsTold (problem_of task.now) binding.now.values (asked_value asked.now))) }
{
    if !is_ready(binding, e) {
        return Ok(None);
    }
    let out = eval(task.alloc, task.program, e, task.models, binding)?;
    Ok(holders(task, asked.holder, asked.prop, datum_of(&out)))
}

/// The same of the other side of a condition. Where its value isn't a single one nothing is told.
#[tactic(auto, using(crate::proofs::SettledLaws::condition_told))]
fn compared_holders<'a>(
    task: &Task<'a, '_>,
    binding: &Binding,
    asked: &Asked<'_>,
    e: &Typed,
) -> Result<Option<Candidates<'a>>, NoMemory>
    requires asker { asker_of asked.now.by ≡ Asker.condition e.now }
    ensures { IfOk result (λ o. IfSome o (IsTold (problem_of task.now) binding.now.values (asked_value asked.now))) }
{
    if !is_ready(binding, e) {
        return Ok(None);
    }
    let out = eval(task.alloc, task.program, e, task.models, binding)?;
    match datum_of(&out) {
        Some(datum) => Ok(datum_holders(task, asked.holder, asked.prop, datum)),
        None => Ok(None),
    }
}

/// The same of the variable of an equation.
#[tactic(auto, using(crate::proofs::SettledLaws::equation_told))]
fn variable_holders<'a>(
    task: &Task<'a, '_>,
    binding: &Binding,
    asked: &Asked<'_>,
    variable: u32,
) -> Option<Candidates<'a>>
    requires asker { asker_of asked.now.by ≡ Asker.equation variable }
    ensures { IfSome result (IsTold (problem_of task.now) binding.now.values (asked_value asked.now)) }
{
    match value_at(binding, variable) {
        Some(datum) => datum_holders(task, asked.holder, asked.prop, datum),
        None => None,
    }
}

/// The objects in whose slot stands what is asked for, if that is settled and they can be told.
fn asked_holders<'a>(
    task: &Task<'a, '_>,
    binding: &Binding,
    asked: &Asked<'_>,
) -> Result<Option<Candidates<'a>>, NoMemory>
    ensures { IfOk result (λ o. IfSome o (IsTold (problem_of task.now) binding.now.values (asked_value asked.now))) }
{
    match asked.by {
        AskedBy::Item(e) => item_holders(task, binding, asked, e),
        AskedBy::Condition(e) => compared_holders(task, binding, asked, e),
        AskedBy::Equation(variable) => Ok(variable_holders(task, binding, asked, variable)),
    }
}

/// What is asked of a slot gives the variable of its object, if that is open.
pub(crate) fn asked_choice<'a>(
    prepared: &Prepared<'_, 'a, '_>,
    binding: &Binding,
    asked: &Asked<'a>,
) -> Result<Option<Choice<'a>>, NoMemory>
    requires prepared { IsPrepared prepared.now binding.now.values }
    requires asked { Contains prepared.now.asked.now asked.now }
    ensures { IfOk result (λ o. IfSome o (IsChoice (problem_in prepared.now) binding.now.values)) }
{
    if !is_open(prepared, binding, asked.holder) {
        return Ok(None);
    }
    let told = asked_holders(prepared.task, binding, asked)?;
    match told {
        Some(candidates) => Ok(Some(choice(prepared.task, asked.holder, candidates))),
        None => Ok(None),
    }
}

// ---- the fewest

/// What a link gives one of its two variables.
#[tactic(auto, using(crate::proofs::ChoiceLaws::either_choice, crate::proofs::ChoiceLaws::none_of_two))]
pub(crate) fn link_choice<'a>(
    prepared: &Prepared<'_, 'a, '_>,
    binding: &Binding,
    link: &Link,
) -> Option<Choice<'a>>
    requires prepared { IsPrepared prepared.now binding.now.values }
    requires link { Contains prepared.now.task.now.links.now link.now }
    ensures some { IfSome result (IsChoice (problem_in prepared.now) binding.now.values) }
    ensures none { IfNone result (usable_link (problem_in prepared.now) binding.now.values link.now ≡ false) }
{
    let slot = slot_choice(prepared, binding, link);
    let partners = partner_choice(prepared, binding, link);
    fewer(slot, partners)
}

/// The fewest candidates that a link gives.
fn best_link<'a>(prepared: &Prepared<'_, 'a, '_>, binding: &Binding) -> Option<Choice<'a>>
    requires prepared { IsPrepared prepared.now binding.now.values }
    ensures some { IfSome result (IsChoice (problem_in prepared.now) binding.now.values) }
    ensures none { IfNone result ((l : Link) → Contains prepared.now.task.now.links.now l → usable_link (problem_in prepared.now) binding.now.values l ≡ false) }
{
    let mut best = None;
    for link in prepared.task.links {
        best = fewer(best, link_choice(prepared, binding, link));
    }
    best
}

/// The fewest candidates that what is asked of a slot gives.
#[tactic(auto, using(crate::proofs::ChoiceLaws::either_choice))]
fn best_asked<'a>(
    prepared: &Prepared<'_, 'a, '_>,
    binding: &Binding,
) -> Result<Option<Choice<'a>>, NoMemory>
    requires prepared { IsPrepared prepared.now binding.now.values }
    ensures { IfOk result (λ o. IfSome o (IsChoice (problem_in prepared.now) binding.now.values)) }
{
    let mut best = None;
    for asked in prepared.asked {
        best = fewer(best, asked_choice(prepared, binding, asked)?);
    }
    Ok(best)
}

/// The fewest candidates that a link, an item, a condition, an equation or a join with values of the binding
/// gives.
#[tactic(auto, using(crate::proofs::ChoiceLaws::either_choice, crate::proofs::ChoiceLaws::none_of_two))]
pub(crate) fn best_choice<'a>(
    prepared: &Prepared<'_, 'a, '_>,
    binding: &Binding,
) -> Result<Option<Choice<'a>>, NoMemory>
    requires prepared { IsPrepared prepared.now binding.now.values }
    ensures some { IfOk result (λ o. IfSome o (IsChoice (problem_in prepared.now) binding.now.values)) }
    ensures none { IfOk result (λ o. IfNone o ((l : Link) → Contains prepared.now.task.now.links.now l → usable_link (problem_in prepared.now) binding.now.values l ≡ false)) }
{
    let asked = best_asked(prepared, binding)?;
    let others = fewer(asked, best_bound(prepared, binding));
    Ok(fewer(best_link(prepared, binding), others))
}
