//! Which variables of a relation are known before its target is made (QVT 1.3, sections 7.10.2 and 7.11.1.4), and E11.
ghost use Rattle.std.specs.Prelude.{◌≡◌, ◌++◌, ◌∷◌, ◌↔◌, [], map, IfOk, OnOk, IsTrue};
ghost use Rattle.std.specs.List.{flat_map};
ghost use Rattle.enforcement_rules.specs.KnownTests.{IsKnownTable, universal_rule, equation_rules, known_rules, is_marked, has_undetermined};
ghost use Rattle.enforcement_rules.specs.KnownVariables.{HasUndeterminedData};
ghost use Rattle.enforcement_rules.specs.Mentions.{variables_of};
ghost use Rattle.enforcement_rules.specs.Tasks.{IsRelationOf};

use crate::derivations::derived;
use crate::target::is_data_variable;
use crate::task::Task;
use crate::variables::variables_of;
use mof_metamodel::{NoMemory, Seq};
use qv_syntax::{Conj, Rel, Typed};
use std::alloc::Global;

/// Universal variables are known.
fn put_universal(
    alloc: Global,
    universal: &[u32],
    rules: &mut Seq<(u32, Seq<u32>)>,
) -> Result<(), NoMemory>
    ensures { OnOk result (rules.new ≡ rules.old ++ map universal_rule universal.now) }
{
    for v in universal {
        rules.push((*v, Seq::new(alloc)))?;
    }
    Ok(())
}

/// A variable is known by its equation where those are that the expression names.
fn put_rule(
    alloc: Global,
    count: usize,
    v: u32,
    e: &Typed,
    rules: &mut Seq<(u32, Seq<u32>)>,
) -> Result<(), NoMemory>
    ensures { OnOk result (rules.new ≡ rules.old ++ (v, variables_of count e.now) ∷ []) }
{
    let asked = variables_of(alloc, count, e)?;
    rules.push((v, asked))
}

/// The same of a conjunct, if it is an equation.
fn put_equation(
    alloc: Global,
    count: usize,
    conjunct: &Conj,
    rules: &mut Seq<(u32, Seq<u32>)>,
) -> Result<(), NoMemory>
    ensures { OnOk result (rules.new ≡ rules.old ++ equation_rules count conjunct.now) }
{
    match conjunct {
        Conj::Equation(v, e) => put_rule(alloc, count, *v, e, rules),
        Conj::Cond(_) | Conj::Call(_, _) => Ok(()),
    }
}

/// The same of conjuncts.
fn put_equations(
    alloc: Global,
    count: usize,
    conjuncts: &[Conj],
    rules: &mut Seq<(u32, Seq<u32>)>,
) -> Result<(), NoMemory>
    ensures { OnOk result (rules.new ≡ rules.old ++ flat_map (equation_rules count) conjuncts.now) }
{
    for conjunct in conjuncts {
        put_equation(alloc, count, conjunct, rules)?;
    }
    Ok(())
}

/// By which variables of a relation a variable is known.
fn known_rules(alloc: Global, rel: &Rel) -> Result<Seq<(u32, Seq<u32>)>, NoMemory>
    ensures { IfOk result (λ rules. rules ≡ known_rules rel.now) }
{
    let mut rules = Seq::new(alloc);
    put_universal(alloc, rel.universal.as_slice(), &mut rules)?;
    put_equations(alloc, rel.vars.len(), rel.wheres.as_slice(), &mut rules)?;
    Ok(rules)
}

/// For each variable of a relation whether it is known.
pub(crate) fn known(task: &Task<'_>) -> Result<Vec<bool>, NoMemory>
    requires { IsRelationOf task.now.metas.now task.now.program.now task.now.rel.now }
    ensures { IfOk result (λ known. IsKnownTable task.now.program.now task.now.rel.now known.items) }
{
    let rules = known_rules(task.alloc, task.rel)?;
    derived(task.alloc, task.rel.vars.len(), rules)
}

/// Whether the number is marked.
pub(crate) fn is_marked(marks: &[bool], n: u32) -> bool
    ensures { result ≡ is_marked marks.now n }
{
    match marks.get(n as usize) {
        Some(mark) => *mark,
        None => false,
    }
}

/// Whether one of the existential data variables isn't marked.
fn any_undetermined(rel: &Rel, known: &[bool]) -> bool
    ensures { result ≡ has_undetermined rel.now known.now }
{
    for v in rel.existential.as_slice() {
        if is_data_variable(rel, *v) && !is_marked(known, *v) {
            return true;
        }
    }
    false
}

/// E11, broken: whether one of the existential data variables isn't known.
pub(crate) fn has_undetermined(task: &Task<'_>, known: &[bool]) -> bool
    requires relation { IsRelationOf task.now.metas.now task.now.program.now task.now.rel.now }
    requires known { IsKnownTable task.now.program.now task.now.rel.now known.now }
    ensures { IsTrue result ↔ HasUndeterminedData task.now.program.now task.now.rel.now }
{
    any_undetermined(task.rel, known)
}
