//! Seeds, with which a search for the bindings of a relation begins: one for each object that the root of a
//! domain of the source may be.
ghost use Rattle.std.specs.Prelude.{◌≡◌, ◌∷◌, [], map, Some, slice_get, slice_set, IfOk};
ghost use Rattle.std.specs.List.{list_any};
ghost use Rattle.qv_syntax.specs.declared.program.Dom.{Dom};
ghost use Rattle.qvtr_semantics.specs.declared.datum.Datum.{Datum};
ghost use Rattle.qvtr_semantics.specs.Calls.{free};
ghost use Rattle.template_match.specs.Search.{values_of, extent_by, extent_for, objects_in};
ghost use Rattle.relation_calls.specs.Visits.{IsVisit};
ghost use Rattle.relation_calls.specs.Seeds.{is_without_model, has_primitive, is_call, is_of_source, first_root, AreSeeds};

use crate::making::{free, put};
use crate::visit::Visit;
use mof_metamodel::{ClassId, NoMemory, Seq};
use ocl_eval::{duplicate_datum, extent_of};
use qv_syntax::{Conj, Dom, Program, Rel, Ty};
use qvtr_semantics::{Binding, Datum};
use std::alloc::Global;

// ---- domains and clauses

/// Whether no model is named.
fn is_without_model(model: Option<u32>) -> bool
    ensures { result ≡ is_without_model model }
{
    match model {
        Some(_) => false,
        None => true,
    }
}

/// Whether a relation has a primitive domain.
pub(crate) fn has_primitive(rel: &Rel) -> bool
    ensures { result ≡ has_primitive rel.now }
{
    for dom in rel.domains.as_slice() {
        if is_without_model(dom.model) {
            return true;
        }
    }
    false
}

/// Whether the conjunct is a call.
fn is_call(conjunct: &Conj) -> bool
    ensures { result ≡ is_call conjunct.now }
{
    matches!(conjunct, Conj::Call(..))
}

/// Whether a clause has a call.
fn has_call(clause: &[Conj]) -> bool
    ensures { result ≡ list_any is_call clause.now }
{
    for conjunct in clause {
        if is_call(conjunct) {
            return true;
        }
    }
    false
}

/// Whether a model is named, and it isn't the target.
fn is_of_source(program: &Program, model: Option<u32>) -> bool
    ensures { result ≡ is_of_source program.now model }
{
    match model {
        Some(model) => !(model == program.target),
        None => false,
    }
}

/// The root of the first domain of another model than the target.
fn first_root(program: &Program, domains: &[Dom]) -> Option<u32>
    ensures { result ≡ first_root program.now domains.now }
{
    for dom in domains {
        if is_of_source(program, dom.model) {
            return Some(dom.root);
        }
    }
    None
}

// ---- the objects that it may be

/// The model and the class of a type for objects.
fn extent_by(ty: &Ty, model: Option<u32>) -> Option<(u32, ClassId)>
    ensures { result ≡ extent_by ty.now model }
{
    match ty {
        Ty::Class(_, class) => match model {
            Some(model) => Some((model, *class)),
            None => None,
        },
        _ => None,
    }
}

/// The model and the class of a variable for objects.
fn extent_for(rel: &Rel, variable: u32) -> Option<(u32, ClassId)>
    ensures { result ≡ extent_for (slice_get rel.now.vars variable) }
{
    match rel.vars.as_slice().get(variable as usize) {
        Some(var) => extent_by(&var.ty, var.model),
        None => None,
    }
}

/// The objects of the class in the model of this number.
fn objects_in(visit: &Visit<'_, '_>, model: u32, class: ClassId) -> Result<Seq<Datum>, NoMemory>
    ensures { IfOk result (λ ds. ds ≡ objects_in model class (slice_get visit.now.models.now model)) }
{
    match visit.models.get(model as usize) {
        Some(found) => extent_of(visit.alloc, model, found, class),
        None => Ok(Seq::new(visit.alloc)),
    }
}

// ---- seeds

/// The seed with this value of a variable.
fn seed_with(alloc: Global, rel: &Rel, variable: u32, datum: &Datum) -> Result<Binding, NoMemory>
    ensures { IfOk result (λ b. b.values ≡ slice_set (free rel.now) variable (Some datum.now)) }
{
    let none = free(alloc, rel)?;
    let mut values = none.values.into_vec();
    put(&mut values, variable, duplicate_datum(alloc, datum)?);
    Ok(Binding {
        values: Seq::from_vec(values),
    })
}

/// A seed for each of these values of a variable.
fn seeds_with(
    alloc: Global,
    rel: &Rel,
    variable: u32,
    objects: &[Datum],
) -> Result<Seq<Binding>, NoMemory>
    ensures { IfOk result (λ seeds. values_of seeds ≡ map (λ (d : Datum). slice_set (free rel.now) variable (Some d)) objects.now) }
{
    let mut seeds = Seq::new(alloc);
    for datum in objects {
        seeds.push(seed_with(alloc, rel, variable, datum)?)?;
    }
    Ok(seeds)
}

/// A seed for each object that a variable may be.
fn object_seeds(
    visit: &Visit<'_, '_>,
    variable: u32,
    model: u32,
    class: ClassId,
) -> Result<Seq<Binding>, NoMemory>
    ensures { IfOk result (λ seeds. values_of seeds
        ≡ map (λ (d : Datum). slice_set (free visit.now.rel.now) variable (Some d)) (objects_in model class (slice_get visit.now.models.now model))) }
{
    let objects = objects_in(visit, model, class)?;
    seeds_with(visit.alloc, visit.rel, variable, objects.as_slice())
}

/// No values as the only seed.
fn free_seed(alloc: Global, rel: &Rel) -> Result<Seq<Binding>, NoMemory>
    ensures { IfOk result (λ seeds. values_of seeds ≡ free rel.now ∷ []) }
{
    let mut seeds = Seq::new(alloc);
    seeds.push(free(alloc, rel)?)?;
    Ok(seeds)
}

/// The same, as the seeds of a relation.
fn free_seeds(visit: &Visit<'_, '_>) -> Result<Seq<Binding>, NoMemory>
    ensures { IfOk result (λ seeds. AreSeeds visit.now.program.now visit.now.models.now visit.now.rel.now (values_of seeds)) }
{
    free_seed(visit.alloc, visit.rel)
}

/// A seed for each object that the root of the first domain of the source may be; if there is no such domain,
/// no values as the only one.
pub(crate) fn root_seeds(visit: &Visit<'_, '_>) -> Result<Seq<Binding>, NoMemory>
    requires visit { IsVisit visit.now }
    ensures { IfOk result (λ seeds. AreSeeds visit.now.program.now visit.now.models.now visit.now.rel.now (values_of seeds)) }
{
    match first_root(visit.program, visit.rel.domains.as_slice()) {
        Some(root) => match extent_for(visit.rel, root) {
            Some((model, class)) => object_seeds(visit, root, model, class),
            None => free_seeds(visit),
        },
        None => free_seeds(visit),
    }
}

/// The seeds with which the bindings of a relation are looked for: where its when clause calls relations,
/// one object of the source after another, so that what is found for one is let go before the next.
pub(crate) fn seeds_for(visit: &Visit<'_, '_>) -> Result<Seq<Binding>, NoMemory>
    requires visit { IsVisit visit.now }
    ensures { IfOk result (λ seeds. AreSeeds visit.now.program.now visit.now.models.now visit.now.rel.now (values_of seeds)) }
{
    if has_call(visit.rel.whens.as_slice()) {
        root_seeds(visit)
    } else {
        free_seeds(visit)
    }
}
