//! The variables of the relations of a script (QVT 1.3, sections 7.11.1 and 7.11.2).
ghost use Rattle.std.specs.Prelude.{map, chars, IfOk};
ghost use Rattle.std.specs.List.{AllZip};
ghost use Rattle.ocl_environments.specs.Written.{IfFault};
ghost use Rattle.script_scopes.specs.Environments.{Setting};
ghost use Rattle.script_variables.specs.ScriptSettings.{AreOfScript, StandsInOneOf};
ghost use Rattle.qvtr_types.specs.ScriptScopes.{IsDeclared};

use mof_metamodel::Seq;
use ocl_environments::{Env, TypeError};
use qv_syntax::{RelationTree, Var};
use script_variables::{ScriptTables, relation_variables};
use std::alloc::Global;

/// The variables of relations one behind the other, with their types and models. It takes time in proportion to their text.
///
/// # Errors
///
/// A fault that stands in the declarations of one of the relations, any one where several do, and `NoMemory`.
pub(crate) fn all_variables(
    alloc: Global,
    env: &Env<'_>,
    tables: &ScriptTables<'_>,
    target: &str,
    relations: &[&RelationTree],
) -> Result<Seq<Seq<Var>>, TypeError>
    requires { (s : Setting) × AreOfScript s env.now tables.now (chars target.now) (map (λ r. r.now) relations.now) }
    ensures declared { IfOk result (λ vars. (s : Setting) → AreOfScript s env.now tables.now (chars target.now) (map (λ r. r.now) relations.now) → AllZip (IsDeclared s) (map (λ r. r.now) relations.now) vars) }
    ensures fault { IfFault result (λ f. (s : Setting) → AreOfScript s env.now tables.now (chars target.now) (map (λ r. r.now) relations.now) → StandsInOneOf s (map (λ r. r.now) relations.now) f) }
{
    let mut out = Seq::new(alloc);
    for relation in relations {
        let vars = relation_variables(alloc, env, tables, target, relation)?;
        out.push(vars)?;
    }
    Ok(out)
}
