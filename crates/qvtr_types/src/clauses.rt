//! The when and where clauses of a relation, resolved (QVT 1.3, section 7.11.1.4).
ghost use Rattle.std.specs.Prelude.{◌≡◌, IfOk, OnOk};
ghost use Rattle.ocl_environments.specs.declared.fault.TypeFault.{TypeFault as Fault};
ghost use Rattle.ocl_environments.specs.Written.{IfFault};
ghost use Rattle.script_scopes.specs.Conjuncts.{clause_conjuncts};
ghost use Rattle.script_scopes.specs.Divisions.{IsWhenEquation, IsWhereEquation};
ghost use Rattle.script_scopes.specs.Environments.{Setting};
ghost use Rattle.script_scopes.specs.Resolutions.{IsData, AreConjuncts};
ghost use Rattle.qvtr_types.specs.PlacedFaults.{StandsInClauses};
ghost use Rattle.qvtr_types.specs.ClauseSettings.{vars_of, IsClauseScopeOf};

use crate::laws::places_are_told;
use crate::resolved_conjuncts::{ClauseScope, resolve_conjuncts};
use mof_metamodel::Seq;
use ocl_environments::TypeError;
use qv_syntax::{Conj, RelationTree};
use std::alloc::Global;

/// The conjuncts of both clauses of a relation.
#[derive(Drop)]
pub(crate) struct Clauses {
    pub whens: Seq<Conj>,
    pub wheres: Seq<Conj>,
}

/// Both clauses of a relation, resolved. It takes time in proportion to their text.
///
/// # Errors
///
/// A fault that stands in a conjunct, any one where several do, and `NoMemory`.
pub(crate) fn resolve_clauses(
    alloc: Global,
    scope: &ClauseScope<'_>,
    r: &RelationTree,
) -> Result<Clauses, TypeError>
    requires { (s : Setting) × IsClauseScopeOf s r.now scope.now }
    ensures whens { IfOk result (λ c. (s : Setting) → IsClauseScopeOf s r.now scope.now → AreConjuncts s r.now (vars_of scope.now) (IsWhenEquation (IsData s r.now) s.target r.now) (clause_conjuncts r.now.when) c.whens) }
    ensures wheres { IfOk result (λ c. (s : Setting) → IsClauseScopeOf s r.now scope.now → AreConjuncts s r.now (vars_of scope.now) (IsWhereEquation (IsData s r.now) s.target r.now) (clause_conjuncts r.now.wheres) c.wheres) }
    ensures none { OnOk result ((s : Setting) (f : Fault) → IsClauseScopeOf s r.now scope.now → ¬ StandsInClauses s r.now (vars_of scope.now) f) }
    ensures fault { IfFault result (λ f. (s : Setting) → IsClauseScopeOf s r.now scope.now → StandsInClauses s r.now (vars_of scope.now) f) }
{
    places_are_told(scope.env);
    let whens = resolve_conjuncts(alloc, scope, true, &r.when)?;
    let wheres = resolve_conjuncts(alloc, scope, false, &r.wheres)?;
    Ok(Clauses { whens, wheres })
}
