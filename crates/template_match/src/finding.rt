ghost use Rattle.std.specs.Prelude.{◌≡◌, ◌↔◌, [], length, Contains, AllPairs, IfOk};
ghost use Rattle.qv_syntax.specs.declared.program.Rel.{Rel};
ghost use Rattle.qv_syntax.specs.Directions.{AreMeant};
ghost use Rattle.qvtr_semantics.specs.Templates.{Values};
ghost use Rattle.qvtr_semantics.specs.Bindings.{Source, Target};
ghost use Rattle.qvtr_semantics.specs.Satisfaction.{IsLess};
ghost use Rattle.template_match.specs.Plans.{IsPlanOf};
ghost use Rattle.template_match.specs.Posed.{HasPrimitives, HasUniversals, IsPosed, IsSought};
ghost use Rattle.template_match.specs.Asked.{asked_values, side_asked};
ghost use Rattle.template_match.specs.Branches.{IsFound};
ghost use Rattle.template_match.specs.Prepared.{problem_in, IsPrepared};
ghost use Rattle.template_match.specs.Search.{values_of, sought, tested};
ghost use Rattle.template_match.specs.Shapes.{side_shapes};
ghost use Rattle.template_match.specs.Sources.{source_variables, NamesNoTarget, SourceWithoutTarget};
ghost use Rattle.template_match.specs.Tasks.{problem_of};
ghost use Rattle.template_match.specs.Joins.{AreJoined};

use crate::asked::Asked;
use crate::asking::side_asked;
use crate::join::Join;
use crate::listing::first_agenda;
use crate::marks::variable_marks;
use crate::opening::is_any_vacant;
use crate::order::each_once;
use crate::plan::Plan;
use crate::prepared::Prepared;
use crate::search::{add_tested, search_from};
use crate::shape::Shape;
use crate::shaping::side_shapes;
use crate::side::Side;
use crate::task::Task;
use crate::without_target::source_variables;
use mof_metamodel::{NoMemory, Seq};
use ocl_eval::Models;
use qv_syntax::Program;
use qvtr_semantics::Binding;
use std::alloc::Global;

/// All that the search finds from the roots on.
fn found_from(prepared: &Prepared<'_, '_, '_>, roots: &Binding) -> Result<Seq<Binding>, NoMemory>
    requires prepared { IsPrepared prepared.now roots.now.values }
    ensures { IfOk result (λ bs. IsFound (problem_in prepared.now) roots.now.values [] (values_of bs)) }
{
    let mut agenda = first_agenda(prepared, roots)?;
    let mut found = Seq::new(prepared.task.alloc);
    search_from(prepared, roots, &mut agenda, &mut found)?;
    Ok(found)
}

/// The same, where all is made ready but the marks of the variables that are sought.
fn found_with(
    task: &Task<'_, '_>,
    asked: &[Asked<'_>],
    shapes: &[Shape],
    roots: &Binding,
) -> Result<Seq<Binding>, NoMemory>
    requires posed { IsPosed (problem_of task.now) roots.now.values }
    requires places { length roots.now.values ≡ length task.now.rel.now.vars }
    requires asked { asked_values asked.now ≡ side_asked task.now.side task.now.program.now task.now.rel.now }
    requires shapes { shapes.now ≡ side_shapes task.now.side task.now.program.now task.now.rel.now }
    ensures { IfOk result (λ bs. IsFound (problem_of task.now) roots.now.values [] (values_of bs)) }
{
    let sought = variable_marks(task.alloc, task.rel.vars.len(), task.variables)?;
    let prepared = Prepared {
        task,
        sought: sought.as_slice(),
        asked,
        shapes,
    };
    found_from(&prepared, roots)
}

/// The same, where nothing is made ready.
fn searched(task: &Task<'_, '_>, roots: &Binding) -> Result<Seq<Binding>, NoMemory>
    requires posed { IsPosed (problem_of task.now) roots.now.values }
    requires places { length roots.now.values ≡ length task.now.rel.now.vars }
    ensures { IfOk result (λ bs. IsFound (problem_of task.now) roots.now.values [] (values_of bs)) }
{
    let asked = side_asked(task.alloc, task.side, task.program, task.rel)?;
    let shapes = side_shapes(task.alloc, task.side, task.program, task.rel)?;
    found_with(task, asked.as_slice(), shapes.as_slice(), roots)
}

/// The roots alone, if they are a binding that is looked for.
fn tested_roots(task: &Task<'_, '_>, roots: &Binding) -> Result<Seq<Binding>, NoMemory>
    ensures { IfOk result (λ bs. values_of bs ≡ tested (problem_of task.now) roots.now.values) }
{
    let mut found = Seq::new(task.alloc);
    add_tested(task, roots, &mut found)?;
    Ok(found)
}

/// All that is found from the roots on: themselves, where each variable that is sought has a value.
fn found(task: &Task<'_, '_>, roots: &Binding) -> Result<Seq<Binding>, NoMemory>
    requires posed { IsPosed (problem_of task.now) roots.now.values }
    requires places { length roots.now.values ≡ length task.now.rel.now.vars }
    ensures { IfOk result (λ bs. IsFound (problem_of task.now) roots.now.values [] (values_of bs)) }
{
    if is_any_vacant(roots, task.variables) {
        searched(task, roots)
    } else {
        tested_roots(task, roots)
    }
}

/// The bindings of a side, in order, each once.
fn all_found(task: &Task<'_, '_>, roots: &Binding) -> Result<Seq<Binding>, NoMemory>
    requires posed { IsPosed (problem_of task.now) roots.now.values }
    requires places { length roots.now.values ≡ length task.now.rel.now.vars }
    ensures exact { IfOk result (λ bs. (b : Values) → Contains (values_of bs) b ↔ IsSought (problem_of task.now) roots.now.values b) }
    ensures sorted { IfOk result (λ bs. AllPairs (IsLess (sought (problem_of task.now))) (values_of bs)) }
{
    let found = found(task, roots)?;
    Ok(each_once(task.variables, found))
}

/// The bindings of the universal variables of a relation that extend `fixed` and meet the source, in the order of the values of these
/// variables, each once (QVT 1.3, sections 7.10.1 and 7.11.1.4). What calls in the when clause ask is told apart.
pub fn bindings(
    alloc: Global,
    program: &Program,
    plan: &Plan,
    models: &Models<'_>,
    fixed: &Binding,
) -> Result<Seq<Binding>, NoMemory>
    requires meant { AreMeant program.now }
    requires planned { (rel : Rel) × IsPlanOf program.now plan.now.rel rel plan.now × (length fixed.now.values ≡ length rel.vars) × HasPrimitives rel fixed.now.values }
    ensures exact { IfOk result (λ bs. (rel : Rel) → IsPlanOf program.now plan.now.rel rel plan.now → (b : Values)
        → Contains (values_of bs) b ↔ Source program.now models.now rel fixed.now.values b) }
    ensures sorted { IfOk result (λ bs. (rel : Rel) → IsPlanOf program.now plan.now.rel rel plan.now → AllPairs (IsLess rel.universal) (values_of bs)) }
{
    joined_bindings(alloc, program, plan, models, fixed, &[])
}

/// The same of these bindings alone that stand in a row of each join (QVT 1.3, section 7.10.2). The search takes
/// values of open variables from the rows in which the values stand that others have.
pub fn joined_bindings(
    alloc: Global,
    program: &Program,
    plan: &Plan,
    models: &Models<'_>,
    fixed: &Binding,
    joins: &[Join<'_>],
) -> Result<Seq<Binding>, NoMemory>
    requires meant { AreMeant program.now }
    requires planned { (rel : Rel) × IsPlanOf program.now plan.now.rel rel plan.now × (length fixed.now.values ≡ length rel.vars) × HasPrimitives rel fixed.now.values }
    ensures exact { IfOk result (λ bs. (rel : Rel) → IsPlanOf program.now plan.now.rel rel plan.now → (b : Values)
        → Contains (values_of bs) b ↔ (Source program.now models.now rel fixed.now.values b × AreJoined joins.now b)) }
    ensures sorted { IfOk result (λ bs. (rel : Rel) → IsPlanOf program.now plan.now.rel rel plan.now → AllPairs (IsLess rel.universal) (values_of bs)) }
{
    let rel = &program.rels.as_slice()[plan.rel as usize];
    let task = Task {
        alloc,
        side: Side::Source,
        program,
        models,
        rel,
        links: plan.source.as_slice(),
        variables: rel.universal.as_slice(),
        joins,
    };
    all_found(&task, fixed)
}

/// The bindings of the universal variables of a relation but for those for objects of the target model, that extend `fixed` and meet the
/// source, in the order of the values of these variables, each once (QVT 1.3, sections 7.10.1 and 7.11.1.4). What calls in the when clause
/// ask is told apart; nothing else there names such an object.
pub fn source_bindings(
    alloc: Global,
    program: &Program,
    plan: &Plan,
    models: &Models<'_>,
    fixed: &Binding,
) -> Result<Seq<Binding>, NoMemory>
    requires meant { AreMeant program.now }
    requires planned { (rel : Rel) × IsPlanOf program.now plan.now.rel rel plan.now × (length fixed.now.values ≡ length rel.vars) × HasPrimitives rel fixed.now.values × NamesNoTarget program.now rel }
    ensures exact { IfOk result (λ bs. (rel : Rel) → IsPlanOf program.now plan.now.rel rel plan.now → (b : Values)
        → Contains (values_of bs) b ↔ SourceWithoutTarget program.now models.now rel fixed.now.values b) }
    ensures sorted { IfOk result (λ bs. (rel : Rel) → IsPlanOf program.now plan.now.rel rel plan.now → AllPairs (IsLess (source_variables program.now rel)) (values_of bs)) }
{
    let rel = &program.rels.as_slice()[plan.rel as usize];
    let variables = source_variables(alloc, program, rel)?;
    let task = Task {
        alloc,
        side: Side::Source,
        program,
        models,
        rel,
        links: plan.source.as_slice(),
        variables: variables.as_slice(),
        joins: &[],
    };
    all_found(&task, fixed)
}

/// The bindings that extend `b`, a binding of the universal variables, by the existential variables and meet the target, in the order of
/// the values of these variables, each once (QVT 1.3, sections 7.10.1 and 7.11.1.4). What calls in the where clause ask is told apart.
pub fn target_bindings(
    alloc: Global,
    program: &Program,
    plan: &Plan,
    models: &Models<'_>,
    b: &Binding,
) -> Result<Seq<Binding>, NoMemory>
    requires meant { AreMeant program.now }
    requires planned { (rel : Rel) × IsPlanOf program.now plan.now.rel rel plan.now × (length b.now.values ≡ length rel.vars) × HasUniversals rel b.now.values }
    ensures exact { IfOk result (λ gs. (rel : Rel) → IsPlanOf program.now plan.now.rel rel plan.now → (g : Values)
        → Contains (values_of gs) g ↔ Target program.now models.now rel b.now.values g) }
    ensures sorted { IfOk result (λ gs. (rel : Rel) → IsPlanOf program.now plan.now.rel rel plan.now → AllPairs (IsLess rel.existential) (values_of gs)) }
{
    let rel = &program.rels.as_slice()[plan.rel as usize];
    let task = Task {
        alloc,
        side: Side::Target,
        program,
        models,
        rel,
        links: plan.target.as_slice(),
        variables: rel.existential.as_slice(),
        joins: &[],
    };
    all_found(&task, b)
}
