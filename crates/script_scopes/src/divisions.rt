ghost use Rattle.std.specs.Prelude.{◌≡◌, ◌+◌, ◌++◌, ◌∷◌, [], map, chars, IsTrue, ◌↔◌, IfOk, OnOk, if◌then◌else◌};
ghost use Rattle.script_scopes.specs.Occurrences.{template_count, domain_variables};
ghost use Rattle.script_scopes.specs.UniversalNames.{is_of_model as of_model, has_domain_of as domain_of, names_outside as outside, universal_names as universals, is_among, numbers_from};
ghost use Rattle.script_scopes.specs.Divisions.{IsUniversal};
ghost use Rattle.script_scopes.specs.Directions.{IsInDirection};
ghost use Rattle.script_scopes.specs.Occurrences.{variables_of as variables};
ghost use Rattle.script_scopes.specs.Resolutions.{AreThose};

use crate::distinct::each_once;
use crate::names::is_name;
use crate::occurrences::{add_clause, add_domain, variables_listed};
use crate::pieces::{add_pieces, next_number};
use mof_metamodel::{NameTable, NoMemory, Seq, Text};
use qv_syntax::{DomainTree, RelationTree};
use std::alloc::Global;

/// Whether a domain is one of the model of this name.
fn is_of_model(target: &str, domain: &DomainTree) -> bool
    ensures { result ≡ of_model (chars target.now) domain.now }
{
    match domain {
        DomainTree::Pattern { model, .. } => is_name(&model.text, target),
        DomainTree::Primitive { .. } => false,
    }
}

/// Whether one of the domains is.
pub(crate) fn has_domain_of(target: &str, domains: &[DomainTree]) -> bool
    ensures { result ≡ domain_of (chars target.now) domains.now }
{
    for domain in domains {
        if is_of_model(target, domain) {
            return true;
        }
    }
    false
}

/// Whether a relation is part of the direction towards the model of this name: it has a domain of it (QVT 1.3, section 7.2).
pub fn is_in_direction(target: &str, r: &RelationTree) -> bool
    ensures { IsTrue result ↔ IsInDirection (chars target.now) r.now }
{
    has_domain_of(target, r.domains.as_slice())
}

/// The number behind that of a domain's last template.
fn behind_templates(alloc: Global, k: u32, domain: &DomainTree) -> Result<u32, NoMemory>
    ensures { IfOk result (λ n. n ≡ k + template_count domain.now) }
{
    let mut pieces = Seq::new(alloc);
    add_pieces(k, domain, &mut pieces)
}

/// The variables of a domain, unless it is one of the target. The number behind that of its last template.
fn add_outside(
    alloc: Global,
    target: &str,
    k: u32,
    domain: &DomainTree,
    out: &mut Seq<Text>,
) -> Result<u32, NoMemory>
    ensures names { OnOk result (out.new ≡ out.old ++ (if of_model (chars target.now) domain.now then [] else domain_variables k domain.now)) }
    ensures next { IfOk result (λ n. n ≡ k + template_count domain.now) }
{
    if is_of_model(target, domain) {
        return behind_templates(alloc, k, domain);
    }
    add_domain(alloc, k, domain, out)
}

/// The variables of those domains that aren't ones of the target.
fn add_all_outside(
    alloc: Global,
    target: &str,
    domains: &[DomainTree],
    out: &mut Seq<Text>,
) -> Result<(), NoMemory>
    ensures { OnOk result (out.new ≡ out.old ++ outside (chars target.now) 1 domains.now) }
{
    let mut k = 1;
    for domain in domains {
        k = add_outside(alloc, target, k, domain, out)?;
    }
    Ok(())
}

/// The universal variables of a relation in the direction towards the target.
pub fn universal_names(alloc: Global, target: &str, r: &RelationTree) -> Result<Seq<Text>, NoMemory>
    ensures { IfOk result (λ names. names ≡ universals (chars target.now) r.now) }
{
    let mut out = Seq::new(alloc);
    add_all_outside(alloc, target, r.domains.as_slice(), &mut out)?;
    add_clause(alloc, &r.when, &mut out)?;
    Ok(out)
}

/// Whether a name is among others, or else whether it isn't.
pub fn is_sought(names: &NameTable<u32>, wanted: bool, name: &Text) -> bool
    ensures { result ≡ is_among (map (λ e. e.0) names.now) wanted name.now }
{
    if wanted {
        names.contains(name)
    } else {
        !names.contains(name)
    }
}

/// Puts a number behind others, if it is sought.
fn push_number(k: u32, sought: bool, out: &mut Seq<u32>) -> Result<(), NoMemory>
    ensures { OnOk result (out.new ≡ out.old ++ (if sought then k ∷ [] else [])) }
{
    if sought {
        return out.push(k);
    }
    Ok(())
}

/// The numbers of those variables that are among names, or else of those that aren't.
fn numbers_where(
    alloc: Global,
    variables: &[Text],
    names: &NameTable<u32>,
    wanted: bool,
) -> Result<Seq<u32>, NoMemory>
    ensures { IfOk result (λ found. found ≡ numbers_from (is_among (map (λ e. e.0) names.now) wanted) 0 variables.now) }
{
    let mut out = Seq::new(alloc);
    let mut k = 0;
    for variable in variables {
        push_number(k, is_sought(names, wanted, variable), &mut out)?;
        k = next_number(k)?;
    }
    Ok(out)
}

/// The variables of a relation that are universal in a direction, and the others, by their numbers.
#[derive(Drop)]
pub struct Division {
    pub universal: Seq<u32>,
    pub existential: Seq<u32>,
}

/// The universal and the existential variables of a relation in the direction towards the model of this name (QVT 1.3, section
/// 7.11.1.4), by their numbers in ascending order.
///
/// # Errors
///
/// As those of `variables_of`.
pub fn division_of(alloc: Global, target: &str, r: &RelationTree) -> Result<Division, NoMemory>
    ensures universal { IfOk result (λ d. AreThose r.now (IsUniversal (chars target.now) r.now) d.universal) }
    ensures existential { IfOk result (λ d. AreThose r.now (λ v. ¬ IsUniversal (chars target.now) r.now v) d.existential) }
{
    let listed = variables_listed(alloc, r)?;
    let variables = listed.as_slice();
    let universals = universal_names(alloc, target, r)?;
    let names = each_once(alloc, universals)?;
    let universal = numbers_where(alloc, variables, &names, true)?;
    let existential = numbers_where(alloc, variables, &names, false)?;
    Ok(Division {
        universal,
        existential,
    })
}
