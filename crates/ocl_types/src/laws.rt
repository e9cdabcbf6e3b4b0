ghost use Rattle.std.specs.Prelude.{◌≡◌, ◌≢◌, ◌↔◌, ℕ, IsTrue, Contains, List, ◌∷◌, length, Option, Ok, Err};
ghost use Rattle.qv_syntax.specs.declared.expr.Expr.{Expr};
ghost use Rattle.qv_syntax.specs.declared.typed.Typed.{Typed};
ghost use Rattle.ocl_environments.specs.declared.fault.TypeFault.{TypeFault};
ghost use Rattle.ocl_environments.specs.declared.part.TypedPart.{TypedPart};
ghost use Rattle.ocl_types.specs.Typing.{typed};
ghost use Rattle.ocl_types.specs.HasType.{HasType, HasTree, Stands};
ghost use Rattle.qv_syntax.specs.declared.ty.Ty.{Ty};
ghost use Rattle.ocl_environments.specs.Agreement.{same_type, fits, agreed, IsTop, branches};
ghost use Rattle.ocl_environments.specs.Conformance.{TypeConforms};
ghost use Rattle.ocl_environments.specs.Environments.{Environment, is_over};
ghost use Rattle.ocl_types.specs.TypedContext.{GivesTypedTree, IsTypedQuery, AreOver};
ghost use Rattle.qv_syntax.specs.declared.type_tree.Kind.{Kind};
ghost use Rattle.qv_syntax.specs.declared.type_tree.TypeTree.{TypeTree};
ghost use Rattle.call_graph.specs.Graphs.{IsOnCycle};
ghost use Rattle.qv_syntax.specs.declared.query.Query.{Query};
ghost use Rattle.qv_syntax.specs.declared.query.QueryTree.{QueryTree};
ghost use Rattle.qv_syntax.specs.QueryCalls.{AreAcyclic};
ghost use Rattle.ocl_types.specs.Queries.{AreQueries, StandInQueries};
ghost use Rattle.ocl_types.specs.QueryTyping.{queries_typed};
ghost use Rattle.ocl_environments.specs.QueryCalls.{called_by, rows_of};
ghost use Rattle.qv_syntax.specs.Parts.{CallsQuery};
ghost use Rattle.qv_syntax.specs.Types.{IsWrittenType, IsOneModel};
ghost use Rattle.qv_syntax.specs.TypeRules.{Branches, Elements, OperationGives, CollectionGives, IteratorGives};
ghost use Rattle.qv_syntax.specs.declared.operation.Operation.{Operation};
ghost use Rattle.qv_syntax.specs.declared.operation.Operation.TheVariants.{AsSingletonSet};
ghost use Rattle.qv_syntax.specs.declared.operation.CollectionOperation.{CollectionOperation};
ghost use Rattle.qv_syntax.specs.declared.operation.IteratorKind.{IteratorKind};
ghost use Rattle.ocl_types.specs.OperationRows.{RowGives, CollectionRowGives, IteratorRowGives};
ghost use Rattle.ocl_types.specs.declared.collection_operations.Argument.{Argument};
ghost use Rattle.ocl_types.specs.Signatures.{argument_count};
ghost use Rattle.ocl_environments.specs.Parts.{types_of, with_models, one_model};
ghost use Rattle.ocl_types.specs.TypingOperators.{literal_type};
ghost use Rattle.ocl_types.specs.TypingCollections.{given_types};
ghost use Rattle.ocl_types.specs.TypingScopes.{declared_type};
ghost use Rattle.ocl_environments.specs.Written.{written};
ghost use Rattle.ocl_types.specs.TypeRules.{GivenConforms, part_models};

use ocl_environments::{Env, Metas};

/// Two types are one exactly where the test says so.
pub fn types_are_told_apart()
    ensures { (a b : Ty) → IsTrue (same_type a b) ↔ (a ≡ b) }
{}

/// A type conforms to another exactly where the test says so.
pub fn conformance_is_told(metas: &Metas)
    ensures { (a b : Ty) → IsTrue (fits metas.now a b) ↔ TypeConforms metas.now a b }
{
    let _count = metas.len();
}

/// What several types agree on is one of them to which all conform, and where there is such a one, they agree.
pub fn types_agree_on_a_top(metas: &Metas)
    ensures found { (ty : Ty) (types : List Ty) (top : Ty) → agreed metas.now ty types ≡ Ok top → IsTop metas.now (ty ∷ types) top }
    ensures known { (ty : Ty) (types : List Ty) (top : Ty) → IsTop metas.now (ty ∷ types) top → (found : Ty) × (agreed metas.now ty types ≡ Ok found) }
{
    let _count = metas.len();
}

/// Typing answers a tree exactly where that is the tree of the expression, and a fault only where it stands. Where one
/// stands, a fault is answered.
pub fn typing_is_told(env: &Env<'_>)
    ensures told { (e : Expr) (t : Typed) → typed env.now e ≡ Ok t → HasTree env.now e t }
    ensures only { (e : Expr) (t : Typed) → HasTree env.now e t → typed env.now e ≡ Ok t }
    ensures fault { (e : Expr) (f : TypeFault) → typed env.now e ≡ Err f → Stands env.now e f }
    ensures known { (e : Expr) (f : TypeFault) → Stands env.now e f → (g : TypeFault) × (typed env.now e ≡ Err g) }
{
    env.in_order();
}

/// An expression has one type, one model and one tree.
pub fn one_type_is_had(env: &Env<'_>)
    ensures { (e : Expr) (p q : TypedPart) → HasType env.now e p → HasType env.now e q → p ≡ q }
{
    env.in_order();
}

/// In the tree of an expression each node has the type that it should have, and each number names what is there: a
/// variable, a model, a query, a property, a literal, or a class or an enumeration of the metamodels.
pub fn trees_are_typed(env: &Env<'_>)
    ensures typed { (e : Expr) (p : TypedPart) → GivesTypedTree env.now e p }
    ensures within { (e : Expr) (p : TypedPart) → HasType env.now e p → IsTrue (is_over env.now.metas p.ty) }
{
    env.in_order();
}

/// The types that are computed of branches, of the elements of a literal and of what an operation on a collection is given
/// are those that the relations say, where types are of the metamodels. So is the one model of several places.
pub fn rules_are_told(metas: &Metas)
    ensures branches { (a b t : Ty) → IsTrue (is_over metas.now a) → IsTrue (is_over metas.now b) → (branches metas.now a b ≡ Ok t) ↔ Branches metas.now a b t }
    ensures elements { (tys : List Ty) (t : Ty) → AreOver metas.now tys → (literal_type metas.now tys ≡ Ok t) ↔ Elements metas.now tys t }
    ensures given { (argument : Argument) (kind : Kind) (of : Ty) (args : List TypedPart) (t : Ty) → IsTrue (is_over metas.now of) → AreOver metas.now (types_of args)
        → length args ≡ argument_count argument → (given_types metas.now argument kind of args ≡ Ok t) ↔ GivenConforms metas.now argument kind of (types_of args) t }
    ensures model { (name : List ℕ) (model : Option ℕ) (parts : List TypedPart) (m : Option ℕ)
        → (one_model name (with_models model parts) ≡ Ok m) ↔ IsOneModel (model ∷ part_models parts) m }
{
    let _count = metas.len();
}

/// The type that a declaration gives is the one that is written there, where that is no collection of collections.
pub fn declared_types_are_told(env: &Env<'_>)
    ensures { (tree : TypeTree) (ty : Ty) → (declared_type env.now tree ≡ Ok ty) ↔ ((written env.now tree ≡ Ok ty) × IsWrittenType env.now.metas ty) }
{
    let _metas = env.metas();
}

/// Typing queries one after the other answers queries exactly where these are they, and a fault only where it stands. Where
/// one stands, a fault is answered.
pub fn query_typing_is_told(env: &Env<'_>)
    ensures told { (qs : List QueryTree) (bound : Environment) (all : List Query) → queries_typed env.now qs ≡ Ok (bound, all) → AreQueries env.now qs bound all }
    ensures only { (qs : List QueryTree) (bound : Environment) (all : List Query) → AreQueries env.now qs bound all → queries_typed env.now qs ≡ Ok (bound, all) }
    ensures fault { (qs : List QueryTree) (f : TypeFault) → queries_typed env.now qs ≡ Err f → StandInQueries env.now qs f }
    ensures known { (qs : List QueryTree) (f : TypeFault) → StandInQueries env.now qs f → (g : TypeFault) × (queries_typed env.now qs ≡ Err g) }
{
    env.in_order();
}

/// Queries that are typed are as typed trees ask: types of parameters and results are written types, and in the body, with
/// the parameters alone as variables, each node has its type, and each number names what is there.
pub fn queries_are_typed(env: &Env<'_>)
    ensures { (qs : List QueryTree) (bound : Environment) (all : List Query) → AreQueries env.now qs bound all → (q : Query) → Contains all q → IsTypedQuery bound q }
{
    env.in_order();
}

/// The rows of calls have the queries that the bodies call, and no others; queries call each other without a cycle exactly
/// where none stands on a cycle of the rows.
pub fn calls_are_told()
    ensures rows { (e : Typed) (q : ℕ) → Contains (called_by e) q ↔ CallsQuery e q }
    ensures cycles { (queries : List Query) → ((u : ℕ) → IsOnCycle (rows_of 0 queries) u → ⊥) ↔ AreAcyclic queries }
{}

/// The rows of the table of operations say of each operation what the rules say of it.
pub fn operations_are_told(metas: &Metas)
    ensures single { (operation : Operation) (x : Ty) (args : List Ty) (t : Ty) → operation ≢ AsSingletonSet → OperationGives operation x args t ↔ RowGives operation x args t }
    ensures collection { (operation : CollectionOperation) (kind : Kind) (of : Ty) (args : List Ty) (t : Ty)
        → CollectionGives metas.now operation kind of args t ↔ CollectionRowGives metas.now operation kind of args t }
    ensures iterator { (iterator : IteratorKind) (kind : Kind) (of body t : Ty) → IteratorGives iterator kind of body t ↔ IteratorRowGives iterator kind of body t }
{
    let _count = metas.len();
}
