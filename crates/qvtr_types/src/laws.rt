ghost use Rattle.std.specs.Prelude.{◌≡◌, ℕ, List};
ghost use Rattle.qv_syntax.specs.declared.expr.Expr.{Expr};
ghost use Rattle.qv_syntax.specs.declared.typed.Typed.{Typed};
ghost use Rattle.qv_syntax.specs.declared.program.Var.{Var};
ghost use Rattle.qv_syntax.specs.TypedTrees.{Typing};
ghost use Rattle.ocl_environments.specs.declared.fault.TypeFault.{TypeFault};
ghost use Rattle.ocl_types.specs.HasType.{HasTree};
ghost use Rattle.qv_syntax.specs.declared.script.RelationTree.{RelationTree};
ghost use Rattle.script_scopes.specs.Directions.{IsMisplaced};
ghost use Rattle.script_scopes.specs.Environments.{Setting, in_relation};
ghost use Rattle.script_scopes.specs.Faults.{StandsInExpressions};
ghost use Rattle.qvtr_types.specs.PlacedFaults.{AreAloneRelated, StandsInClauses, StandsInItems};
ghost use Rattle.qvtr_types.specs.VariableLists.{HaveOneList};
ghost use Rattle.qvtr_types.specs.Expressions.{IsCondition, StandsInCondition, IsGiven, StandsInGiven, AreArguments, StandsInArguments};
ghost use Rattle.script_scopes.specs.Usages.{variables_in};
ghost use Rattle.qvtr_types.specs.TypedUsages.{NamesThose};
ghost use Rattle.qv_syntax.specs.declared.script.ModelTree.{ModelTree};
ghost use Rattle.script_scopes.specs.declared.name_fault.NameFault.{NameFault};
ghost use Rattle.script_scopes.specs.ScriptNames.{AreNamesOf, IsNameFault};

use ocl_environments::Env;
use ocl_types::{one_type_is_had, trees_are_typed, typing_is_told};

/// Names, with a target, have one fault at most, and none where they are those of the script: so `names_match` has one answer.
pub fn one_name_fault()
    ensures one { (models : List ModelTree) (target : List ℕ) (names : List (List ℕ)) (a b : NameFault) → IsNameFault models target names a → IsNameFault models target names b → a ≡ b }
    ensures none { (models : List ModelTree) (target : List ℕ) (names : List (List ℕ)) (a : NameFault) → AreNamesOf models target names → ¬ IsNameFault models target names a }
{}

/// The variables in reach that an expression names are those that its typed tree names by their numbers (OCL 2.4, section 9.4).
pub fn variables_are_told(env: &Env<'_>)
    ensures { (e : Expr) (t : Typed) → HasTree env.now e t → NamesThose env.now (variables_in e) t }
{
    let _ = env;
}

/// Where an expression stands as a relation asks for it, no fault stands in it there: in a condition, where a value is given, and in the
/// arguments of a call (QVT 1.3, section 7.11.1.4).
pub fn places_are_told(env: &Env<'_>)
    ensures condition { (e : Expr) (tree : Typed) → IsCondition env.now e tree → (f : TypeFault) → ¬ StandsInCondition env.now e f }
    ensures given { (wanted : Typing) (name : List ℕ) (e : Expr) (tree : Typed) → IsGiven env.now wanted e tree → (f : TypeFault) → ¬ StandsInGiven env.now wanted name e f }
    ensures arguments { (called : List ℕ) (roots : List Var) (args : List Expr) (trees : List Typed) → AreArguments env.now roots args trees → (f : TypeFault) → ¬ StandsInArguments env.now called roots args f }
{
    typing_is_told(env);
    one_type_is_had(env);
}

/// A fault that stands in a conjunct of a relation or in an item stands among those of its expressions, where no relation's name is called in
/// a wrong place. Where none stands in conjuncts or in items, none stands in expressions, if each relation has one list of variables, and
/// variables that stand alone as arguments are related to the roots in whose places they stand (QVT 1.3, section 7.11.1.4).
pub fn expression_faults_are_told(env: &Env<'_>)
    ensures stands { (s : Setting) (r : RelationTree) (vars : List Var) → ((name : List ℕ) → ¬ IsMisplaced s.script r name) → (f : TypeFault) → StandsInClauses s r vars f → StandsInExpressions s r vars f }
    ensures items { (s : Setting) (r : RelationTree) (vars : List Var) → ((name : List ℕ) → ¬ IsMisplaced s.script r name) → (f : TypeFault) → StandsInItems s r vars f → StandsInExpressions s r vars f }
    ensures none { (s : Setting) (r : RelationTree) (vars : List Var) → in_relation s r vars ≡ env.now → HaveOneList s → ((f : TypeFault) → ¬ StandsInClauses s r vars f)
        → ((f : TypeFault) → ¬ StandsInItems s r vars f) → AreAloneRelated s r vars → (f : TypeFault) → ¬ StandsInExpressions s r vars f }
{
    trees_are_typed(env);
}
