ghost use Rattle.std.specs.Prelude.{◌≡◌, ◌↔◌, ◌++◌, Some, map, is_some, IsTrue, IfOk, OnOk, All};
ghost use Rattle.std.specs.List.{flat_map};
ghost use Rattle.std.specs.Option.{option_map};
ghost use Rattle.mof_metamodel.specs.NameTables.{value_of};
ghost use Rattle.ocl_environments.specs.Environments.{class_of};
ghost use Rattle.ocl_environments.specs.Written.{IfFault};
ghost use Rattle.script_scopes.specs.Divisions.{model_of as domain_model};
ghost use Rattle.script_scopes.specs.LocatedPieces.{shown_located};
ghost use Rattle.script_scopes.specs.FirstEntries.{first_entries};
ghost use Rattle.script_scopes.specs.ModelLists.{template_model, argument_model, argument_models, called_models, conjunct_models, clause_models, object_models as all_models, is_object as of_objects, HasItsModel, IsOtherModel, IsMixFault};

use crate::conjuncts::{call_of, clause_conjuncts, name_alone};
use crate::first_names::put_first;
use crate::located::{LocatedPiece, located_pieces};
use crate::name_faults::printed;
use crate::occurrences::variable_text;
use crate::piece::BorrowedPiece;
use mof_metamodel::{NameTable, NoMemory, Seq, Text};
use ocl_environments::{TypeError, TypeFault};
use qv_syntax::{BlockTree, DomainTree, Expr, RelationTree, Ty};
use std::alloc::Global;

/// Relations by their names: the first of each name.
pub fn named_relations<'a>(
    alloc: Global,
    relations: &[&'a RelationTree],
) -> Result<NameTable<&'a RelationTree>, NoMemory>
    ensures { IfOk result (λ table. table ≡ first_entries (map (λ r. (r.now.name.text, r)) relations.now)) }
{
    let mut table = NameTable::new(alloc);
    for relation in relations {
        let name = relation.name.text.duplicate(alloc)?;
        put_first(&mut table, name, *relation)?;
    }
    Ok(table)
}

/// The variable of a piece, where a template begins, with the domain's model.
fn push_template_model(
    alloc: Global,
    located: &LocatedPiece<'_>,
    out: &mut Seq<(Text, Text)>,
) -> Result<(), NoMemory>
    ensures { OnOk result (out.new ≡ out.old ++ template_model (shown_located located.now)) }
{
    match &located.piece {
        BorrowedPiece::Begins { variable, .. } => {
            let name = variable_text(alloc, variable)?;
            let model = located.model.duplicate(alloc)?;
            out.push((name, model))
        }
        BorrowedPiece::Asks { .. } => Ok(()),
    }
}

/// The same of pieces one behind the other.
fn add_template_models(
    alloc: Global,
    pieces: &[LocatedPiece<'_>],
    out: &mut Seq<(Text, Text)>,
) -> Result<(), NoMemory>
    ensures { OnOk result (out.new ≡ out.old ++ flat_map template_model (map shown_located pieces.now)) }
{
    for piece in pieces {
        push_template_model(alloc, piece, out)?;
    }
    Ok(())
}

/// The model of a domain; a primitive one has none.
fn model_of(domain: &DomainTree) -> Option<&Text>
    ensures { option_map (λ m. m.now) result ≡ domain_model domain.now }
{
    match domain {
        DomainTree::Pattern { model, .. } => Some(&model.text),
        DomainTree::Primitive { .. } => None,
    }
}

/// A variable that stands alone in the place of a domain, with the domain's model, where both are there.
fn push_pair(
    alloc: Global,
    variable: Option<&Text>,
    model: Option<&Text>,
    out: &mut Seq<(Text, Text)>,
) -> Result<(), NoMemory>
    ensures { OnOk result (out.new ≡ out.old ++ argument_model (option_map (λ n. n.now) variable.entry) (option_map (λ m. m.now) model.entry)) }
{
    match (variable, model) {
        (Some(variable), Some(model)) => {
            let name = variable.duplicate(alloc)?;
            let model = model.duplicate(alloc)?;
            out.push((name, model))
        }
        _ => Ok(()),
    }
}

/// The variables that stand alone as arguments in the places of domains, with the domains' models.
fn add_argument_models(
    alloc: Global,
    args: &[Expr],
    domains: &[DomainTree],
    out: &mut Seq<(Text, Text)>,
) -> Result<(), NoMemory>
    ensures { OnOk result (out.new ≡ out.old ++ argument_models args.now domains.now) }
{
    for (i, arg) in args.iter().enumerate() {
        if i >= domains.len() {
            return Ok(());
        }
        push_pair(alloc, name_alone(arg), model_of(&domains[i]), out)?;
    }
    Ok(())
}

/// The same of a call of a relation, if there is one of that name.
fn add_called_models(
    alloc: Global,
    called: Option<&&RelationTree>,
    args: &[Expr],
    out: &mut Seq<(Text, Text)>,
) -> Result<(), NoMemory>
    ensures { OnOk result (out.new ≡ out.old ++ called_models (option_map (λ r. r.now.now) called.entry) args.now) }
{
    match called {
        Some(called) => add_argument_models(alloc, args, called.domains.as_slice(), out),
        None => Ok(()),
    }
}

/// The same of a conjunct.
fn add_conjunct_models(
    alloc: Global,
    relations: &NameTable<&RelationTree>,
    conjunct: &Expr,
    out: &mut Seq<(Text, Text)>,
) -> Result<(), NoMemory>
    ensures { OnOk result (out.new ≡ out.old ++ conjunct_models (map (λ e. (e.0, e.1.now)) relations.now) conjunct.now) }
{
    match call_of(conjunct) {
        Some((name, args)) => { add_called_models(alloc, relations.get(name.as_str()), args, out) }
        None => Ok(()),
    }
}

/// The same of conjuncts one behind the other.
fn add_conjuncts_models(
    alloc: Global,
    relations: &NameTable<&RelationTree>,
    conjuncts: &[&Expr],
    out: &mut Seq<(Text, Text)>,
) -> Result<(), NoMemory>
    ensures { OnOk result (out.new ≡ out.old ++ flat_map (conjunct_models (map (λ e. (e.0, e.1.now)) relations.now)) (map (λ e. e.now) conjuncts.now)) }
{
    for conjunct in conjuncts {
        add_conjunct_models(alloc, relations, conjunct, out)?;
    }
    Ok(())
}

/// The same of a clause.
fn add_clause_models(
    alloc: Global,
    relations: &NameTable<&RelationTree>,
    clause: &Option<BlockTree>,
    out: &mut Seq<(Text, Text)>,
) -> Result<(), NoMemory>
    ensures { OnOk result (out.new ≡ out.old ++ clause_models (map (λ e. (e.0, e.1.now)) relations.now) clause.now) }
{
    let conjuncts = clause_conjuncts(alloc, clause)?;
    add_conjuncts_models(alloc, relations, conjuncts.as_slice(), out)
}

/// The models of a relation's object variables, with each place that gives one: a template, or an argument that stands alone in the place
/// of a domain (QVT 1.3, sections 7.11.1 and 7.11.2).
fn object_models(
    alloc: Global,
    relations: &NameTable<&RelationTree>,
    r: &RelationTree,
) -> Result<Seq<(Text, Text)>, NoMemory>
    ensures { IfOk result (λ found. found ≡ all_models (map (λ e. (e.0, e.1.now)) relations.now) r.now) }
{
    let pieces = located_pieces(alloc, r)?;
    let mut out = Seq::new(alloc);
    add_template_models(alloc, pieces.as_slice(), &mut out)?;
    add_clause_models(alloc, relations, &r.when, &mut out)?;
    add_clause_models(alloc, relations, &r.wheres, &mut out)?;
    Ok(out)
}

/// The first model of each variable.
fn first_models(alloc: Global, models: &[(Text, Text)]) -> Result<NameTable<Text>, NoMemory>
    ensures { IfOk result (λ table. table ≡ first_entries models.now) }
{
    let mut table = NameTable::new(alloc);
    for model in models {
        let name = model.0.duplicate(alloc)?;
        let text = model.1.duplicate(alloc)?;
        put_first(&mut table, name, text)?;
    }
    Ok(table)
}

/// Whether a type is a class.
pub fn is_class(ty: &Ty) -> bool
    ensures { result ≡ is_some (class_of ty.now) }
{
    match ty {
        Ty::Class(_, _) => true,
        _ => false,
    }
}

/// Whether a variable is one of objects.
fn is_object(types: &NameTable<Ty>, name: &Text) -> bool
    ensures { result ≡ of_objects types.now name.now }
{
    match types.get(name.as_str()) {
        Some(ty) => is_class(ty),
        None => false,
    }
}

/// Whether a variable has this model first.
fn is_first(models: &NameTable<Text>, name: &Text, model: &Text) -> bool
    ensures { IsTrue result ↔ (value_of models.now name.now ≡ Some model.now) }
{
    match models.get(name.as_str()) {
        Some(first) => first.is(model.as_str()),
        None => false,
    }
}

/// Refuses an object variable that has another model first.
fn refuse_model(
    alloc: Global,
    types: &NameTable<Ty>,
    models: &NameTable<Text>,
    name: &Text,
    model: &Text,
) -> Result<(), TypeError>
    ensures own { OnOk result (HasItsModel types.now models.now (name.now, model.now)) }
    ensures fault { IfFault result (IsOtherModel types.now models.now (name.now, model.now)) }
{
    if !is_object(types, name) || is_first(models, name, model) {
        return Ok(());
    }
    let text = printed(alloc, name)?;
    Err(TypeError::Fault(TypeFault::ModelMix(text)))
}

/// Refuses object variables of which one has two models.
fn refuse_mix(
    alloc: Global,
    types: &NameTable<Ty>,
    models: &NameTable<Text>,
    given: &[(Text, Text)],
) -> Result<(), TypeError>
    ensures own { OnOk result (All (HasItsModel types.now models.now) given.now) }
    ensures fault { IfFault result (IsMixFault types.now models.now given.now) }
{
    for model in given {
        refuse_model(alloc, types, models, &model.0, &model.1)?;
    }
    Ok(())
}

/// The model of each object variable of a relation. Variables of data may be among them.
pub fn variable_models(
    alloc: Global,
    relations: &NameTable<&RelationTree>,
    types: &NameTable<Ty>,
    r: &RelationTree,
) -> Result<NameTable<Text>, TypeError>
    ensures models { IfOk result (λ models. models ≡ first_entries (all_models (map (λ e. (e.0, e.1.now)) relations.now) r.now)) }
    ensures own { IfOk result (λ models. All (HasItsModel types.now models) (all_models (map (λ e. (e.0, e.1.now)) relations.now) r.now)) }
    ensures fault { IfFault result (IsMixFault types.now (first_entries (all_models (map (λ e. (e.0, e.1.now)) relations.now) r.now)) (all_models (map (λ e. (e.0, e.1.now)) relations.now) r.now)) }
{
    let given = object_models(alloc, relations, r)?;
    let models = first_models(alloc, given.as_slice())?;
    refuse_mix(alloc, types, &models, given.as_slice())?;
    Ok(models)
}
