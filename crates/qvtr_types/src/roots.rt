//! The variables of the roots of the domains of relations (QVT 1.3, section 7.11.1.6).
ghost use Rattle.std.specs.Prelude.{◌≡◌, map, length, true, is_some, All, IfOk};
ghost use Rattle.std.specs.List.{AllZip};
ghost use Rattle.mof_metamodel.specs.NameTables.{value_of};
ghost use Rattle.script_scopes.specs.Occurrences.{root_of, variables_of as variables};
ghost use Rattle.qvtr_types.specs.RootVariables.{IsNamed, HasRoots, AreRootsOf};

use mof_metamodel::{NameTable, NoMemory, Seq, Text};
use qv_syntax::{DomainTree, RelationTree, Var};
use script_scopes::{root_name, variables_of};
use std::alloc::Global;

/// The variable of a name.
fn variable_named<'v>(numbers: &NameTable<u32>, vars: &'v [Var], name: &Text) -> &'v Var
    requires known { is_some (value_of numbers.now name.now) ≡ true }
    requires count { length vars.now ≡ length numbers.now }
    ensures { IsNamed (map (λ e. e.0) numbers.now) vars.now name.now result.now }
{
    match numbers.find(name) {
        Some((place, _)) => &vars[place],
        None => unreachable!(),
    }
}

/// The variables of the roots of domains.
fn domain_roots<'v>(
    alloc: Global,
    numbers: &NameTable<u32>,
    vars: &'v [Var],
    domains: &[DomainTree],
) -> Result<Seq<&'v Var>, NoMemory>
    requires known { All (λ d. is_some (value_of numbers.now (root_of d)) ≡ true) domains.now }
    requires count { length vars.now ≡ length numbers.now }
    ensures { IfOk result (λ roots. AllZip (λ d root. IsNamed (map (λ e. e.0) numbers.now) vars.now (root_of d) root) domains.now (map (λ r. r.now) roots)) }
{
    let mut out = Seq::new(alloc);
    for domain in domains {
        out.push(variable_named(numbers, vars, root_name(domain)))?;
    }
    Ok(out)
}

/// The variables of the roots of a relation's domains.
fn roots_of<'v>(alloc: Global, r: &RelationTree, vars: &'v [Var]) -> Result<Seq<&'v Var>, NoMemory>
    requires { length vars.now ≡ length (variables r.now) }
    ensures { IfOk result (λ roots. HasRoots r.now vars.now (map (λ r. r.now) roots)) }
{
    let numbers = variables_of(alloc, r)?;
    domain_roots(alloc, &numbers, vars, r.domains.as_slice())
}

/// The same of relations one behind the other, each with its variables. It takes time in proportion to their text.
pub(crate) fn all_roots<'v>(
    alloc: Global,
    relations: &[&RelationTree],
    vars: &'v [Seq<Var>],
) -> Result<Seq<Seq<&'v Var>>, NoMemory>
    requires count { length vars.now ≡ length relations.now }
    requires each { AllZip (λ r vs. length (variables r) ≡ length vs) (map (λ r. r.now) relations.now) vars.now }
    ensures { IfOk result (λ roots. AreRootsOf (map (λ r. r.now) relations.now) vars.now (map (map (λ r. r.now)) roots)) }
{
    let mut out = Seq::new(alloc);
    for (place, relation) in relations.iter().enumerate() {
        let roots = roots_of(alloc, relation, vars[place].as_slice())?;
        out.push(roots)?;
    }
    Ok(out)
}
