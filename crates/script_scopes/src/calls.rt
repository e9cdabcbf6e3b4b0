ghost use Rattle.std.specs.Prelude.{◌≡◌, ◌++◌, ◌∷◌, [], ℕ, List, map, chars, Contains, All, IfOk, OnOk, if◌then◌else◌};
ghost use Rattle.std.specs.List.{flat_map, filter_map};
ghost use Rattle.std.specs.Set.{is_member};
ghost use Rattle.mof_metamodel.specs.Characters.{same_name};
ghost use Rattle.qv_syntax.specs.declared.script.RelationTree.{RelationTree as Relation};
ghost use Rattle.ocl_environments.specs.Written.{IfFault};
ghost use Rattle.script_scopes.specs.ScriptNames.{each_once as distinct};
ghost use Rattle.script_scopes.specs.Usages.{call_in, calls_in};
ghost use Rattle.script_scopes.specs.Conjuncts.{clause_conjuncts as all_conjuncts};
ghost use Rattle.script_scopes.specs.Occurrences.{relations_of as all_relations};
ghost use Rattle.script_scopes.specs.BorrowedPieces.{shown_piece};
ghost use Rattle.script_scopes.specs.Declarations.{relation_names};
ghost use Rattle.script_scopes.specs.Directions.{IsMisplaced, LeavesDirection};
ghost use Rattle.script_scopes.specs.Environments.{Setting};
ghost use Rattle.script_scopes.specs.Faults.{IsCalledInQuery, StandsInScript};
ghost use Rattle.script_scopes.specs.CallNames.{all_pieces, piece_calls, called_within, relation_calls as calls_of_relation, script_calls as calls_of_script, conjunct_call, clause_calls as calls_of_clause, inside_calls as calls_inside, outside_name, outside_names as names_outside, IsCallFault};

use crate::conjuncts::{call_of, clause_conjuncts};
use crate::declared::{queries_of, relations_of};
use crate::distinct::each_once;
use crate::divisions::has_domain_of;
use crate::piece::BorrowedPiece;
use crate::pieces::add_pieces;
use crate::script_names::names_of_relations;
use crate::usage::Usage;
use crate::usages::add_usages;
use mof_metamodel::{NameTable, NoMemory, Seq, Text};
use ocl_environments::{TypeError, TypeFault};
use qv_syntax::{BlockTree, DomainTree, Expr, QueryTree, RelationTree, Script};
use std::alloc::Global;

/// Puts what is called, if a usage is a call, behind names.
fn push_call(usage: Usage, out: &mut Seq<Text>) -> Result<(), NoMemory>
    ensures { OnOk result (out.new ≡ out.old ++ filter_map call_in (usage ∷ [])) }
{
    match usage {
        Usage::Variable(_) => Ok(()),
        Usage::Call(name) => out.push(name),
    }
}

/// Puts what is called among usages behind names.
fn append_calls(usages: Seq<Usage>, out: &mut Seq<Text>) -> Result<(), NoMemory>
    ensures { OnOk result (out.new ≡ out.old ++ filter_map call_in usages) }
{
    for usage in usages.into_vec() {
        push_call(usage, out)?;
    }
    Ok(())
}

/// What an expression calls.
fn add_calls(alloc: Global, e: &Expr, out: &mut Seq<Text>) -> Result<(), NoMemory>
    ensures { OnOk result (out.new ≡ out.old ++ calls_in e.now) }
{
    let mut used = Seq::new(alloc);
    add_usages(alloc, e, &mut used)?;
    append_calls(used, out)
}

/// What expressions call.
fn add_all_calls(alloc: Global, exprs: &[Expr], out: &mut Seq<Text>) -> Result<(), NoMemory>
    ensures { OnOk result (out.new ≡ out.old ++ flat_map calls_in exprs.now) }
{
    for e in exprs {
        add_calls(alloc, e, out)?;
    }
    Ok(())
}

/// What is called within a conjunct that calls a name itself.
fn add_within_call(
    alloc: Global,
    relations: &NameTable<u32>,
    conjunct: &Expr,
    call: (&Text, &[Expr]),
    out: &mut Seq<Text>,
) -> Result<(), NoMemory>
    ensures { OnOk result (out.new ≡ out.old ++ (if is_member same_name (map (λ e. e.0) relations.now) call.entry.0.now then flat_map calls_in call.entry.1.now else calls_in conjunct.now)) }
{
    let (name, args) = call;
    if relations.contains(name) {
        return add_all_calls(alloc, args, out);
    }
    add_calls(alloc, conjunct, out)
}

/// What is called within a conjunct: in its arguments where it calls a relation, else in the whole.
fn add_within(
    alloc: Global,
    relations: &NameTable<u32>,
    conjunct: &Expr,
    out: &mut Seq<Text>,
) -> Result<(), NoMemory>
    ensures { OnOk result (out.new ≡ out.old ++ called_within (map (λ e. e.0) relations.now) conjunct.now) }
{
    match call_of(conjunct) {
        Some(call) => add_within_call(alloc, relations, conjunct, call, out),
        None => add_calls(alloc, conjunct, out),
    }
}

/// What is called within conjuncts.
fn add_all_within(
    alloc: Global,
    relations: &NameTable<u32>,
    conjuncts: &[&Expr],
    out: &mut Seq<Text>,
) -> Result<(), NoMemory>
    ensures { OnOk result (out.new ≡ out.old ++ flat_map (called_within (map (λ e. e.0) relations.now)) (map (λ r. r.now) conjuncts.now)) }
{
    for conjunct in conjuncts {
        add_within(alloc, relations, conjunct, out)?;
    }
    Ok(())
}

/// What is called within the conjuncts of a clause.
fn add_within_clause(
    alloc: Global,
    relations: &NameTable<u32>,
    clause: &Option<BlockTree>,
    out: &mut Seq<Text>,
) -> Result<(), NoMemory>
    ensures { OnOk result (out.new ≡ out.old ++ flat_map (called_within (map (λ e. e.0) relations.now)) (all_conjuncts clause.now)) }
{
    let conjuncts = clause_conjuncts(alloc, clause)?;
    add_all_within(alloc, relations, conjuncts.as_slice(), out)
}

/// The pieces of domains one behind the other.
fn add_all_pieces<'a>(
    domains: &'a [DomainTree],
    out: &mut Seq<BorrowedPiece<'a>>,
) -> Result<(), NoMemory>
    ensures { OnOk result (map shown_piece out.new ≡ map shown_piece out.old ++ all_pieces 1 domains.now) }
{
    let mut k = 1;
    for domain in domains {
        k = add_pieces(k, domain, out)?;
    }
    Ok(())
}

/// What a piece calls.
fn add_piece_calls(
    alloc: Global,
    piece: &BorrowedPiece<'_>,
    out: &mut Seq<Text>,
) -> Result<(), NoMemory>
    ensures { OnOk result (out.new ≡ out.old ++ piece_calls (shown_piece piece.now)) }
{
    match piece {
        BorrowedPiece::Begins { .. } => Ok(()),
        BorrowedPiece::Asks { value, .. } => add_calls(alloc, value, out),
    }
}

/// What pieces call.
fn add_pieces_calls(
    alloc: Global,
    pieces: &[BorrowedPiece<'_>],
    out: &mut Seq<Text>,
) -> Result<(), NoMemory>
    ensures { OnOk result (out.new ≡ out.old ++ flat_map piece_calls (map shown_piece pieces.now)) }
{
    for piece in pieces {
        add_piece_calls(alloc, piece, out)?;
    }
    Ok(())
}

/// What the items of domains call.
fn add_items_calls(
    alloc: Global,
    domains: &[DomainTree],
    out: &mut Seq<Text>,
) -> Result<(), NoMemory>
    ensures { OnOk result (out.new ≡ out.old ++ flat_map piece_calls (all_pieces 1 domains.now)) }
{
    let mut pieces = Seq::new(alloc);
    add_all_pieces(domains, &mut pieces)?;
    add_pieces_calls(alloc, pieces.as_slice(), out)
}

/// What a relation calls where no relation may be called.
fn add_relation_calls(
    alloc: Global,
    relations: &NameTable<u32>,
    r: &RelationTree,
    out: &mut Seq<Text>,
) -> Result<(), NoMemory>
    ensures { OnOk result (out.new ≡ out.old ++ calls_of_relation (map (λ e. e.0) relations.now) r.now) }
{
    add_items_calls(alloc, r.domains.as_slice(), out)?;
    add_within_clause(alloc, relations, &r.when, out)?;
    add_within_clause(alloc, relations, &r.wheres, out)
}

/// The same of relations one behind the other.
fn add_each_calls(
    alloc: Global,
    names: &NameTable<u32>,
    relations: &[&RelationTree],
    out: &mut Seq<Text>,
) -> Result<(), NoMemory>
    ensures { OnOk result (out.new ≡ out.old ++ flat_map (calls_of_relation (map (λ e. e.0) names.now)) (map (λ r. r.now) relations.now)) }
{
    for relation in relations {
        add_relation_calls(alloc, names, relation, out)?;
    }
    Ok(())
}

/// What the bodies of queries call.
fn add_query_calls(
    alloc: Global,
    queries: &[&QueryTree],
    out: &mut Seq<Text>,
) -> Result<(), NoMemory>
    ensures { OnOk result (out.new ≡ out.old ++ flat_map (λ q. calls_in q.body) (map (λ q. q.now) queries.now)) }
{
    for query in queries {
        add_calls(alloc, &query.body, out)?;
    }
    Ok(())
}

/// What a script calls where no relation may be called.
fn script_calls(
    alloc: Global,
    names: &NameTable<u32>,
    script: &Script,
) -> Result<Seq<Text>, NoMemory>
    ensures { IfOk result (λ calls. calls ≡ calls_of_script (map (λ e. e.0) names.now) script.now) }
{
    let relations = relations_of(alloc, script)?;
    let queries = queries_of(alloc, script)?;
    let mut out = Seq::new(alloc);
    add_each_calls(alloc, names, relations.as_slice(), &mut out)?;
    add_query_calls(alloc, queries.as_slice(), &mut out)?;
    Ok(out)
}

/// Puts what a conjunct calls behind names.
fn push_conjunct_call(alloc: Global, conjunct: &Expr, out: &mut Seq<Text>) -> Result<(), NoMemory>
    ensures { OnOk result (out.new ≡ out.old ++ conjunct_call conjunct.now) }
{
    match call_of(conjunct) {
        Some((name, _)) => out.push(name.duplicate(alloc)?),
        None => Ok(()),
    }
}

/// What conjuncts call.
fn add_conjunct_calls(
    alloc: Global,
    conjuncts: &[&Expr],
    out: &mut Seq<Text>,
) -> Result<(), NoMemory>
    ensures { OnOk result (out.new ≡ out.old ++ flat_map conjunct_call (map (λ r. r.now) conjuncts.now)) }
{
    for conjunct in conjuncts {
        push_conjunct_call(alloc, conjunct, out)?;
    }
    Ok(())
}

/// What the conjuncts of a clause call.
fn add_clause_calls(
    alloc: Global,
    clause: &Option<BlockTree>,
    out: &mut Seq<Text>,
) -> Result<(), NoMemory>
    ensures { OnOk result (out.new ≡ out.old ++ calls_of_clause clause.now) }
{
    let conjuncts = clause_conjuncts(alloc, clause)?;
    add_conjunct_calls(alloc, conjuncts.as_slice(), out)
}

/// What a relation calls, if it is part of the direction.
fn add_inside_calls(
    alloc: Global,
    target: &str,
    r: &RelationTree,
    out: &mut Seq<Text>,
) -> Result<(), NoMemory>
    ensures { OnOk result (out.new ≡ out.old ++ calls_inside (chars target.now) r.now) }
{
    if !has_domain_of(target, r.domains.as_slice()) {
        return Ok(());
    }
    add_clause_calls(alloc, &r.when, out)?;
    add_clause_calls(alloc, &r.wheres, out)
}

/// What those of the relations call that are part of the direction.
fn inside_calls(
    alloc: Global,
    target: &str,
    relations: &[&RelationTree],
) -> Result<Seq<Text>, NoMemory>
    ensures { IfOk result (λ calls. calls ≡ flat_map (calls_inside (chars target.now)) (map (λ r. r.now) relations.now)) }
{
    let mut out = Seq::new(alloc);
    for relation in relations {
        add_inside_calls(alloc, target, relation, &mut out)?;
    }
    Ok(out)
}

/// Puts the name of a relation, if it is no part of the direction, behind others.
fn push_outside(
    alloc: Global,
    target: &str,
    r: &RelationTree,
    out: &mut Seq<Text>,
) -> Result<(), NoMemory>
    ensures { OnOk result (out.new ≡ out.old ++ outside_name (chars target.now) r.now) }
{
    if has_domain_of(target, r.domains.as_slice()) {
        return Ok(());
    }
    out.push(r.name.text.duplicate(alloc)?)
}

/// The names of those of the relations that are no part of the direction.
fn outside_names(
    alloc: Global,
    target: &str,
    relations: &[&RelationTree],
) -> Result<Seq<Text>, NoMemory>
    ensures { IfOk result (λ names. names ≡ names_outside (chars target.now) (map (λ r. r.now) relations.now)) }
{
    let mut out = Seq::new(alloc);
    for relation in relations {
        push_outside(alloc, target, relation, &mut out)?;
    }
    Ok(out)
}

/// Refuses names of which one is among others.
fn refuse_call(alloc: Global, others: &NameTable<u32>, names: &[Text]) -> Result<(), TypeError>
    ensures none { OnOk result (All (λ name. ¬ Contains (map (λ e. e.0) others.now) name) names.now) }
    ensures fault { IfFault result (IsCallFault (map (λ e. e.0) others.now) names.now) }
{
    for name in names {
        if others.contains(name) {
            let text = name.duplicate(alloc)?;
            return Err(TypeError::Fault(TypeFault::CallShape(text)));
        }
    }
    Ok(())
}

/// Refuses a call of a relation's name in a wrong place: in an item, within a conjunct or in a query.
fn refuse_places(alloc: Global, script: &Script) -> Result<(), TypeError>
    ensures none { OnOk result (All (λ name. ¬ Contains (distinct (relation_names script.now)) name) (calls_of_script (distinct (relation_names script.now)) script.now)) }
    ensures fault { IfFault result (IsCallFault (distinct (relation_names script.now)) (calls_of_script (distinct (relation_names script.now)) script.now)) }
{
    let named = names_of_relations(alloc, script)?;
    let names = each_once(alloc, named)?;
    let calls = script_calls(alloc, &names, script)?;
    refuse_call(alloc, &names, calls.as_slice())
}

/// Refuses a call from the direction out of it.
fn refuse_outside(alloc: Global, script: &Script, target: &str) -> Result<(), TypeError>
    ensures none { OnOk result (All (λ name. ¬ Contains (distinct (names_outside (chars target.now) (all_relations script.now))) name) (flat_map (calls_inside (chars target.now)) (all_relations script.now))) }
    ensures fault { IfFault result (IsCallFault (distinct (names_outside (chars target.now) (all_relations script.now))) (flat_map (calls_inside (chars target.now)) (all_relations script.now))) }
{
    let relations = relations_of(alloc, script)?;
    let listed = relations.as_slice();
    let named = outside_names(alloc, target, listed)?;
    let outside = each_once(alloc, named)?;
    let calls = inside_calls(alloc, target, listed)?;
    refuse_call(alloc, &outside, calls.as_slice())
}

/// Refuses a script that calls a relation in a wrong place (QVT 1.3, sections 7.2 and 7.11.1.4): a relation is called by a conjunct of a
/// when or a where clause, and from the direction towards the target in the direction.
///
/// # Errors
///
/// A fault that stands in the script, any one where several do, and `NoMemory`.
pub fn refuse_calls(alloc: Global, script: &Script, target: &str) -> Result<(), TypeError>
    ensures placed { OnOk result ((r : Relation) (name : List ℕ) → Contains (all_relations script.now) r → ¬ IsMisplaced script.now r name) }
    ensures in_queries { OnOk result ((s : Setting) (name : List ℕ) → s.script ≡ script.now → ¬ IsCalledInQuery s name) }
    ensures inside { OnOk result ((r called : Relation) → Contains (all_relations script.now) r → ¬ LeavesDirection script.now (chars target.now) r called) }
    ensures fault { IfFault result (λ f. (s : Setting) → s.script ≡ script.now → s.target ≡ chars target.now → StandsInScript s f) }
{
    refuse_places(alloc, script)?;
    refuse_outside(alloc, script, target)
}
