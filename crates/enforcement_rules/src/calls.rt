//! E9 and E10: what calls between relations hand on of the target (QVT 1.3, sections 7.10.2 and 7.11.1.4).
ghost use Rattle.std.specs.Prelude.{◌≡◌, ◌++◌, ◌∷◌, [], ◌&&◌, ◌||◌, ℕ, nat_eq, map, min, slice_get, IfOk, OnOk, IsTrue, ◌↔◌, if◌then◌else◌};
ghost use Rattle.std.specs.List.{list_any, list_all, flat_map};
ghost use Rattle.std.specs.Option.{option_map};
ghost use Rattle.enforcement_rules.specs.declared.clause.Clause.TheVariants as clauses;
ghost use Rattle.enforcement_rules.specs.Calls.{HasUnmatchedCall, HasWrongArgument};
ghost use Rattle.enforcement_rules.specs.NumberSets.{has};
ghost use Rattle.enforcement_rules.specs.Tasks.{IsRelationOf};
ghost use Rattle.enforcement_rules.specs.CallTests.{shown_pair, argument_pairs, given_pairs, root_pairs, is_right_call, taken_by_pair, taken_by_call, taken_by_conjunct, taken_by_clause, is_untaken, has_untaken, has_unmatched, type_at, target_type, fits_in, is_passed, is_right_pair, are_right_pairs, passes_conjunct};

use crate::clause::Clause;
use crate::expressions::variable_alone;
use crate::number_set::NumberSet;
use crate::target::is_target_variable;
use crate::task::Task;
use mof_metamodel::{NoMemory, Seq};
use ocl_environments::{Metas, fits, same_type};
use qv_syntax::{Conj, Dom, Program, Rel, Ty, Typed};
use std::alloc::Global;

/// The lesser of two numbers.
fn lesser(a: usize, b: usize) -> usize
    ensures { result ≡ min a b }
{
    if a < b { a } else { b }
}

/// Each argument of a call with the domain of the called relation whose root it gives.
fn argument_pairs<'a>(
    alloc: Global,
    doms: &'a [Dom],
    args: &'a [Typed],
) -> Result<Seq<(&'a Dom, &'a Typed)>, NoMemory>
    ensures { IfOk result (λ pairs. map shown_pair pairs ≡ argument_pairs doms.now args.now) }
{
    let mut pairs = Seq::new(alloc);
    let count = lesser(doms.len(), args.len());
    for i in 0..count {
        pairs.push((&doms[i], &args[i]))?;
    }
    Ok(pairs)
}

/// Adds an argument, unless its root has got one.
fn put_given<'a>(
    met: &mut NumberSet,
    dom: &'a Dom,
    e: &'a Typed,
    out: &mut Seq<(&'a Dom, &'a Typed)>,
) -> Result<(), NoMemory>
    ensures pairs { OnOk result (map shown_pair out.new ≡ (if has met.old dom.now.root then map shown_pair out.old else map shown_pair out.old ++ (dom.now, e.now) ∷ [])) }
    ensures met { OnOk result ((q : ℕ) → has met.new q ≡ (nat_eq q dom.now.root || has met.old q)) }
{
    if !met.contains(dom.root) {
        out.push((dom, e))?;
    }
    met.put(dom.root)
}

/// The arguments that roots get, the last one first: of two for one root it is the later one.
fn given_pairs<'a>(
    alloc: Global,
    pairs: &[(&'a Dom, &'a Typed)],
) -> Result<Seq<(&'a Dom, &'a Typed)>, NoMemory>
    ensures { IfOk result (λ given. map shown_pair given ≡ given_pairs (map shown_pair pairs.now)) }
{
    let mut met = NumberSet::new(alloc);
    let mut given = Seq::new(alloc);
    for k in 0..pairs.len() {
        let pair = pairs[pairs.len() - 1 - k];
        put_given(&mut met, pair.0, pair.1, &mut given)?;
    }
    Ok(given)
}

/// The arguments of a call that roots of the called relation get.
fn root_pairs<'a>(
    alloc: Global,
    called: &'a Rel,
    args: &'a [Typed],
) -> Result<Seq<(&'a Dom, &'a Typed)>, NoMemory>
    ensures { IfOk result (λ pairs. map shown_pair pairs ≡ root_pairs called.now args.now) }
{
    let pairs = argument_pairs(alloc, called.domains.as_slice(), args)?;
    given_pairs(alloc, pairs.as_slice())
}

// ---- E9

/// Whether a relation that a conjunct of when calls is top and part of the direction.
fn is_right_call(program: &Program, conjunct: &Conj) -> bool
    ensures { result ≡ is_right_call program.now conjunct.now }
{
    match conjunct {
        Conj::Call(number, _) => match program.rels.as_slice().get(*number as usize) {
            Some(called) => called.top && called.in_direction,
            None => true,
        },
        Conj::Cond(_) | Conj::Equation(_, _) => true,
    }
}

/// Whether each is.
fn are_right_calls(program: &Program, conjuncts: &[Conj]) -> bool
    ensures { result ≡ list_all (is_right_call program.now) conjuncts.now }
{
    for conjunct in conjuncts {
        if !is_right_call(program, conjunct) {
            return false;
        }
    }
    true
}

/// The variable that stands alone as an argument for the target.
fn put_pair(
    program: &Program,
    called: &Rel,
    dom: &Dom,
    e: &Typed,
    out: &mut Seq<u32>,
) -> Result<(), NoMemory>
    ensures { OnOk result (out.new ≡ out.old ++ taken_by_pair program.now called.now (dom.now, e.now)) }
{
    if !is_target_variable(program, called, dom.root) {
        return Ok(());
    }
    match variable_alone(e) {
        Some(v) => out.push(v),
        None => Ok(()),
    }
}

/// The same of all arguments.
fn put_pairs(
    program: &Program,
    called: &Rel,
    pairs: &[(&Dom, &Typed)],
    out: &mut Seq<u32>,
) -> Result<(), NoMemory>
    ensures { OnOk result (out.new ≡ out.old ++ flat_map (taken_by_pair program.now called.now) (map shown_pair pairs.now)) }
{
    for pair in pairs {
        put_pair(program, called, pair.0, pair.1, out)?;
    }
    Ok(())
}

/// The same of a call of the relation of this number.
fn put_call(
    alloc: Global,
    program: &Program,
    number: u32,
    args: &[Typed],
    out: &mut Seq<u32>,
) -> Result<(), NoMemory>
    ensures { OnOk result (out.new ≡ out.old ++ taken_by_call program.now number args.now) }
{
    match program.rels.as_slice().get(number as usize) {
        Some(called) => {
            let pairs = root_pairs(alloc, called, args)?;
            put_pairs(program, called, pairs.as_slice(), out)
        }
        None => Ok(()),
    }
}

/// The same of a conjunct, if it is a call.
fn put_conjunct(
    alloc: Global,
    program: &Program,
    conjunct: &Conj,
    out: &mut Seq<u32>,
) -> Result<(), NoMemory>
    ensures { OnOk result (out.new ≡ out.old ++ taken_by_conjunct program.now conjunct.now) }
{
    match conjunct {
        Conj::Call(number, args) => put_call(alloc, program, *number, args.as_slice(), out),
        Conj::Cond(_) | Conj::Equation(_, _) => Ok(()),
    }
}

/// The same of a clause.
fn put_clause(
    alloc: Global,
    program: &Program,
    clause: &[Conj],
    out: &mut Seq<u32>,
) -> Result<(), NoMemory>
    ensures { OnOk result (out.new ≡ out.old ++ taken_by_clause program.now clause.now) }
{
    for conjunct in clause {
        put_conjunct(alloc, program, conjunct, out)?;
    }
    Ok(())
}

/// Whether a variable is for objects of the target and isn't one of these.
fn is_untaken(task: &Task<'_>, taken: &NumberSet, v: u32) -> bool
    ensures { result ≡ is_untaken task.now.program.now task.now.rel.now (has taken.now) v }
{
    is_target_variable(task.program, task.rel, v) && !taken.contains(v)
}

/// Whether one of the universal variables is.
fn any_untaken(task: &Task<'_>, taken: &NumberSet) -> bool
    ensures { result ≡ list_any (is_untaken task.now.program.now task.now.rel.now (has taken.now)) task.now.rel.now.universal }
{
    for v in task.rel.universal.as_slice() {
        if is_untaken(task, taken, *v) {
            return true;
        }
    }
    false
}

/// The same of a list.
fn has_untaken(task: &Task<'_>, taken: &[u32]) -> Result<bool, NoMemory>
    ensures { IfOk result (λ b. b ≡ has_untaken task.now.program.now task.now.rel.now taken.now) }
{
    let taken = NumberSet::of(task.alloc, taken)?;
    Ok(any_untaken(task, &taken))
}

/// The variables that stand alone as arguments for the target in a clause.
fn taken_in(alloc: Global, program: &Program, clause: &[Conj]) -> Result<Seq<u32>, NoMemory>
    ensures { IfOk result (λ out. out ≡ taken_by_clause program.now clause.now) }
{
    let mut out = Seq::new(alloc);
    put_clause(alloc, program, clause, &mut out)?;
    Ok(out)
}

/// Whether a universal target variable isn't an argument of a call in when.
fn is_any_untaken(task: &Task<'_>) -> Result<bool, NoMemory>
    ensures { IfOk result (λ b. b ≡ has_untaken task.now.program.now task.now.rel.now (taken_by_clause task.now.program.now task.now.rel.now.whens)) }
{
    let taken = taken_in(task.alloc, task.program, task.rel.whens.as_slice())?;
    has_untaken(task, taken.as_slice())
}

/// Whether a relation called in when isn't top, or a universal target variable isn't an argument of such a call.
fn is_any_unmatched(task: &Task<'_>) -> Result<bool, NoMemory>
    ensures { IfOk result (λ b. b ≡ has_unmatched task.now.program.now task.now.rel.now) }
{
    if !are_right_calls(task.program, task.rel.whens.as_slice()) {
        return Ok(true);
    }
    is_any_untaken(task)
}

/// E9, broken: whether a relation called in when isn't top, or a universal target variable isn't an argument of such a call.
pub(crate) fn has_unmatched(task: &Task<'_>) -> Result<bool, NoMemory>
    requires { IsRelationOf task.now.metas.now task.now.program.now task.now.rel.now }
    ensures { IfOk result (λ b. IsTrue b ↔ HasUnmatchedCall task.now.program.now task.now.rel.now) }
{
    is_any_unmatched(task)
}

// ---- E10

/// The type of a variable.
fn type_at(rel: &Rel, v: u32) -> Option<&Ty>
    ensures { option_map (λ ty. ty.now) result ≡ type_at rel.now v }
{
    match rel.vars.as_slice().get(v as usize) {
        Some(var) => Some(&var.ty),
        None => None,
    }
}

/// The type of the target object variable that an argument is.
fn target_type<'a>(task: &Task<'a>, e: &Typed) -> Option<&'a Ty>
    ensures { option_map (λ ty. ty.now) result ≡ target_type task.now.program.now task.now.rel.now e.now }
{
    match variable_alone(e) {
        Some(v) => {
            if is_target_variable(task.program, task.rel, v) {
                return type_at(task.rel, v);
            }
            None
        }
        None => None,
    }
}

/// Whether the type of an argument goes with that of the root, in this clause.
fn fits_in(metas: &Metas, clause: Clause, own: &Ty, asked: &Ty) -> bool
    ensures { result ≡ fits_in metas.now clause own.now asked.now }
{
    match clause {
        Clause::When => same_type(own, asked),
        Clause::Where => fits(metas.as_slice(), own, asked),
    }
}

/// Whether an argument for the target is handed on as it has to be.
fn is_passed(task: &Task<'_>, clause: Clause, called: &Rel, dom: &Dom, e: &Typed) -> bool
    ensures { result ≡ is_passed task.now.metas.now task.now.program.now task.now.rel.now clause called.now (dom.now, e.now) }
{
    match (target_type(task, e), type_at(called, dom.root)) {
        (Some(own), Some(asked)) => fits_in(task.metas, clause, own, asked),
        (_, _) => false,
    }
}

/// Whether each argument for the target is.
fn are_passed(task: &Task<'_>, clause: Clause, called: &Rel, pairs: &[(&Dom, &Typed)]) -> bool
    ensures { result ≡ list_all (is_right_pair task.now.metas.now task.now.program.now task.now.rel.now clause called.now) (map shown_pair pairs.now) }
{
    for pair in pairs {
        if is_target_variable(task.program, called, pair.0.root)
            && !is_passed(task, clause, called, pair.0, pair.1)
        {
            return false;
        }
    }
    true
}

/// Whether the arguments of a call of the relation of this number are.
fn passes_call(
    task: &Task<'_>,
    clause: Clause,
    number: u32,
    args: &[Typed],
) -> Result<bool, NoMemory>
    ensures { IfOk result (λ b. b ≡ are_right_pairs task.now.metas.now task.now.program.now task.now.rel.now clause (slice_get task.now.program.now.rels number) args.now) }
{
    match task.program.rels.as_slice().get(number as usize) {
        Some(called) => {
            let pairs = root_pairs(task.alloc, called, args)?;
            Ok(are_passed(task, clause, called, pairs.as_slice()))
        }
        None => Ok(true),
    }
}

/// Whether those of a conjunct, if it is a call, are.
fn passes_conjunct(task: &Task<'_>, clause: Clause, conjunct: &Conj) -> Result<bool, NoMemory>
    ensures { IfOk result (λ b. b ≡ passes_conjunct task.now.metas.now task.now.program.now task.now.rel.now clause conjunct.now) }
{
    match conjunct {
        Conj::Call(number, args) => passes_call(task, clause, *number, args.as_slice()),
        Conj::Cond(_) | Conj::Equation(_, _) => Ok(true),
    }
}

/// Whether those of a clause are.
fn passes_clause(task: &Task<'_>, clause: Clause, conjuncts: &[Conj]) -> Result<bool, NoMemory>
    ensures { IfOk result (λ b. b ≡ list_all (passes_conjunct task.now.metas.now task.now.program.now task.now.rel.now clause) conjuncts.now) }
{
    for conjunct in conjuncts {
        if !passes_conjunct(task, clause, conjunct)? {
            return Ok(false);
        }
    }
    Ok(true)
}

/// Whether each argument for the target is handed on as it has to be.
fn passes(task: &Task<'_>) -> Result<bool, NoMemory>
    ensures { IfOk result (λ b. b ≡ (list_all (passes_conjunct task.now.metas.now task.now.program.now task.now.rel.now clauses.When) task.now.rel.now.whens
        && list_all (passes_conjunct task.now.metas.now task.now.program.now task.now.rel.now clauses.Where) task.now.rel.now.wheres)) }
{
    if !passes_clause(task, Clause::When, task.rel.whens.as_slice())? {
        return Ok(false);
    }
    passes_clause(task, Clause::Where, task.rel.wheres.as_slice())
}

/// E10, broken: whether an argument for the target isn't handed on as it has to be.
pub(crate) fn has_wrong_argument(task: &Task<'_>) -> Result<bool, NoMemory>
    ensures { IfOk result (λ b. IsTrue b ↔ HasWrongArgument task.now.metas.now task.now.program.now task.now.rel.now) }
{
    // No fault stands in the metamodels.
    let _count = task.metas.len();
    let passed = passes(task)?;
    Ok(!passed)
}
