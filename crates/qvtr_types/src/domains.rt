ghost use Rattle.std.specs.Prelude.{◌≡◌, ◌+◌, true, is_some, List, ℕ, All, None, Some, IfOk, OnOk};
ghost use Rattle.qv_syntax.specs.declared.program.Var.{Var};
ghost use Rattle.mof_metamodel.specs.NameTables.{value_of};
ghost use Rattle.ocl_environments.specs.declared.fault.TypeFault.{TypeFault as Fault};
ghost use Rattle.ocl_environments.specs.Written.{IfFault};
ghost use Rattle.qv_syntax.specs.declared.name.Name.{Name as NameTree};
ghost use Rattle.script_scopes.specs.Environments.{place_of as place};
ghost use Rattle.script_scopes.specs.Occurrences.{template_body, template_count, begun};
ghost use Rattle.script_scopes.specs.ResolvedTemplates.{IsTemplate};
ghost use Rattle.qvtr_types.specs.TemplatePieces.{IsMeant, IsPieceFault};
ghost use Rattle.script_scopes.specs.LocatedPieces.{located_in, located_from};
ghost use Rattle.script_scopes.specs.Resolutions.{marker_of as marker, AreDomains};
ghost use Rattle.script_scopes.specs.Environments.{Setting};
ghost use Rattle.qvtr_types.specs.PlacedFaults.{StandsInItems};
ghost use Rattle.qvtr_types.specs.RelationSettings.{IsReachOf};
ghost use Rattle.qvtr_types.specs.ResolvedDomains.{shown_scope, domain_in, HasKnownModel, IsDomainIn, AreDomainsFrom, IsMeantIn, IsLocatedFault};

use crate::domain_scope::DomainScope;
use crate::items::template_class_of;
use crate::templates::resolve_template;
use mof_metamodel::{NameTable, NoMemory, Seq, Text};
use ocl_environments::{Env, TypeError};
use ocl_types::{one_type_is_had, typing_is_told};
use qv_syntax::{Dom, DomainMark, DomainTree, Marker, RelationTree, TemplateTree, Tmpl};
use script_scopes::{ModelNames, place_of};
use std::alloc::Global;

/// What is in reach in a relation (QVT 1.3, section 7.11.1.4): what its expressions may name, the models and metamodels of the script,
/// and its variables by their numbers.
#[derive(Clone, Copy)]
pub struct RelationScope<'a> {
    pub env: &'a Env<'a>,
    pub names: &'a ModelNames,
    pub variables: &'a NameTable<u32>,
}

/// The mark of a domain; one without is `checkonly`.
fn marker_of(mark: &Option<DomainMark>) -> Marker
    ensures { result ≡ marker mark.now }
{
    match mark {
        Some(DomainMark::Enforce) => Marker::Enforce,
        Some(DomainMark::Checkonly) | None => Marker::Checkonly,
    }
}

/// The number of the metamodel of a model.
fn metamodel_of(names: &ModelNames, model: &Text) -> u32
    requires { is_some (value_of names.now.models model.now) ≡ true }
    ensures { value_of names.now.models model.now ≡ Some result }
{
    match names.models.get(model.as_str()) {
        Some(meta) => *meta,
        None => unreachable!(),
    }
}

/// What is in reach in the templates of a domain of this model.
fn domain_scope<'a>(scope: &RelationScope<'a>, model: &Text) -> Result<DomainScope<'a>, NoMemory>
    requires named { scope.now.names.now.metas ≡ scope.now.env.now.names }
    requires known { is_some (value_of scope.now.names.now.models model.now) ≡ true }
    ensures { IfOk result (λ d. d ≡ domain_in (shown_scope scope.now) model.now) }
{
    let number = place_of(&scope.names.models, model)?;
    let meta = metamodel_of(scope.names, model);
    let metas = scope.names.metas.as_slice();
    Ok(DomainScope::new(scope.env, metas, scope.variables, number, meta))
}

/// The template of a domain, whose root has this number.
fn outer_template(
    alloc: Global,
    scope: &DomainScope<'_>,
    k: u32,
    root: u32,
    tree: &TemplateTree,
) -> Result<(Tmpl, u32), TypeError>
    ensures is { IfOk result (λ r. (v : NameTree) → root ≡ place v.text scope.now.variables → IsTemplate scope.now k (Some v) tree.now r.0 r.1) }
    ensures next { IfOk result (λ r. r.1 ≡ k + (1 + (template_body tree.now).items.count)) }
    ensures meant { OnOk result ((v : List ℕ) → All (IsMeant scope.now) (begun None v (template_body tree.now) k)) }
    ensures fault { IfFault result (λ f. (v : List ℕ) → IsPieceFault scope.now (begun None v (template_body tree.now) k) f) }
{
    let class = template_class_of(alloc, scope, &tree.class)?;
    resolve_template(alloc, scope, k, (root, class), tree)
}

/// A domain, whose first template has this number, and the number of the next one.
fn resolve_domain(
    alloc: Global,
    scope: &RelationScope<'_>,
    k: u32,
    domain: &DomainTree,
) -> Result<(Dom, u32), TypeError>
    requires named { scope.now.names.now.metas ≡ scope.now.env.now.names }
    requires known { HasKnownModel (shown_scope scope.now) domain.now }
    ensures is { IfOk result (λ d. IsDomainIn (shown_scope scope.now) k domain.now d.0) }
    ensures next { IfOk result (λ d. d.1 ≡ k + template_count domain.now) }
    ensures meant { OnOk result (All (IsMeantIn (shown_scope scope.now)) (located_in k domain.now)) }
    ensures fault { IfFault result (IsLocatedFault (shown_scope scope.now) (located_in k domain.now)) }
{
    match domain {
        DomainTree::Pattern {
            mark,
            model,
            root,
            template,
            ..
        } => {
            let within = domain_scope(scope, &model.text)?;
            let root = place_of(scope.variables, &root.text)?;
            let (template, next) = outer_template(alloc, &within, k, root, template)?;
            let dom = Dom {
                model: Some(within.model()),
                marker: marker_of(mark),
                root,
                template: Some(template),
            };
            Ok((dom, next))
        }
        DomainTree::Primitive { root, .. } => {
            let dom = Dom {
                model: None,
                marker: Marker::Primitive,
                root: place_of(scope.variables, &root.text)?,
                template: None,
            };
            Ok((dom, k))
        }
    }
}

/// Domains one behind the other.
fn resolve_all(
    alloc: Global,
    scope: &RelationScope<'_>,
    domains: &[DomainTree],
) -> Result<Seq<Dom>, TypeError>
    requires named { scope.now.names.now.metas ≡ scope.now.env.now.names }
    requires known { All (HasKnownModel (shown_scope scope.now)) domains.now }
    ensures are { IfOk result (AreDomainsFrom (shown_scope scope.now) 1 domains.now) }
    ensures meant { OnOk result (All (IsMeantIn (shown_scope scope.now)) (located_from 1 domains.now)) }
    ensures fault { IfFault result (IsLocatedFault (shown_scope scope.now) (located_from 1 domains.now)) }
{
    let mut doms = Seq::new(alloc);
    let mut k = 1;
    for domain in domains {
        let (dom, next) = resolve_domain(alloc, scope, k, domain)?;
        doms.push(dom)?;
        k = next;
    }
    Ok(doms)
}

/// The domains of a relation with their templates, resolved (QVT 1.3, sections 7.11.1.6 and 7.11.2): a domain's model, its root and the
/// variables of its templates by number, their classes and properties, and the typed trees of expressions. It takes time in proportion to
/// the relation's text.
///
/// # Errors
///
/// A fault that stands in an item of a template, any one where several do, and `NoMemory`.
pub fn resolve_domains(
    alloc: Global,
    scope: &RelationScope<'_>,
    r: &RelationTree,
) -> Result<Seq<Dom>, TypeError>
    requires { (s : Setting) × (vars : List Var) × IsReachOf s r.now vars scope.now }
    ensures domains { IfOk result (λ doms. (s : Setting) (vars : List Var) → IsReachOf s r.now vars scope.now → AreDomains s r.now vars doms) }
    ensures none { OnOk result ((s : Setting) (vars : List Var) (f : Fault) → IsReachOf s r.now vars scope.now → ¬ StandsInItems s r.now vars f) }
    ensures fault { IfFault result (λ f. (s : Setting) (vars : List Var) → IsReachOf s r.now vars scope.now → StandsInItems s r.now vars f) }
{
    one_type_is_had(scope.env);
    typing_is_told(scope.env);
    resolve_all(alloc, scope, r.domains.as_slice())
}
