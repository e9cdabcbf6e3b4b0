//! Which data variables of a relation are bound (QVT 1.3, sections 7.2 and 7.11.1): by items that ask for them alone, by primitive
//! domains, and by equations whose variables are bound.
ghost use Rattle.std.specs.Prelude.{◌≡◌, ◌++◌, ◌∷◌, [], chars, map, not, true, false, if◌then◌else◌, slice_index_or, IfOk, OnOk, All};
ghost use Rattle.std.specs.List.{flat_map};
ghost use Rattle.std.specs.Option.{option_map, option_to_list};
ghost use Rattle.mof_metamodel.specs.Characters.{same_name};
ghost use Rattle.ocl_environments.specs.Written.{IfFault};
ghost use Rattle.script_scopes.specs.Usages.{variables_in};
ghost use Rattle.script_scopes.specs.LocatedPieces.{shown_located};
ghost use Rattle.script_variables.specs.Bindings.{bound_if, alone_rules, item_rules, conjunct_rules, primitive_rules, data_number as number_of_data, numbered, clause_rules, binding_rules as all_rules, IsBoundData, IsUnboundData, IsUnboundFault};

use mof_metamodel::{NameTable, NoMemory, Seq, Text};
use ocl_environments::{TypeError, TypeFault};
use qv_syntax::{BlockTree, DomainTree, Expr, RelationTree, Ty};
use script_scopes::{
    BorrowedPiece, LocatedPiece, add_variables, clause_conjuncts, equation_of, is_class, is_name,
    is_sought, located_pieces, name_alone, numbered, printed,
};
use std::alloc::Global;

/// The number of a variable, if it is one of data.
fn data_number(types: &NameTable<Ty>, name: &Text) -> Result<Option<u32>, NoMemory>
    ensures { IfOk result (λ n. option_to_list n ≡ number_of_data types.now name.now) }
{
    match types.find(name) {
        Some((place, ty)) => {
            if is_class(ty) {
                return Ok(None);
            }
            Ok(Some(numbered(place)?))
        }
        None => Ok(None),
    }
}

/// Puts the number of a variable, if it is one of data, behind others.
fn push_number(types: &NameTable<Ty>, name: &Text, out: &mut Seq<u32>) -> Result<(), NoMemory>
    ensures { OnOk result (out.new ≡ out.old ++ number_of_data types.now name.now) }
{
    match data_number(types, name)? {
        Some(n) => out.push(n),
        None => Ok(()),
    }
}

/// The same of names one behind the other.
fn add_numbers(types: &NameTable<Ty>, names: &[Text], out: &mut Seq<u32>) -> Result<(), NoMemory>
    ensures { OnOk result (out.new ≡ out.old ++ flat_map (number_of_data types.now) names.now) }
{
    for name in names {
        push_number(types, name, out)?;
    }
    Ok(())
}

/// The numbers of those of names that are ones of data variables.
fn data_numbers(alloc: Global, types: &NameTable<Ty>, names: &[Text]) -> Result<Seq<u32>, NoMemory>
    ensures { IfOk result (λ found. found ≡ flat_map (number_of_data types.now) names.now) }
{
    let mut out = Seq::new(alloc);
    add_numbers(types, names, &mut out)?;
    Ok(out)
}

/// Puts the rule by which a variable, if it is one of data, is bound where others are, behind other rules.
fn push_rule(
    alloc: Global,
    types: &NameTable<Ty>,
    name: &Text,
    names: &[Text],
    out: &mut Seq<(u32, Seq<u32>)>,
) -> Result<(), NoMemory>
    ensures { OnOk result (out.new ≡ out.old ++ numbered types.now ((name.now, names.now) ∷ [])) }
{
    match data_number(types, name)? {
        Some(n) => {
            let asked = data_numbers(alloc, types, names)?;
            out.push((n, asked))
        }
        None => Ok(()),
    }
}

/// The same of a variable that is bound as such, if it may be.
fn push_bound(
    alloc: Global,
    types: &NameTable<Ty>,
    allowed: bool,
    name: &Text,
    out: &mut Seq<(u32, Seq<u32>)>,
) -> Result<(), NoMemory>
    ensures { OnOk result (out.new ≡ out.old ++ numbered types.now (bound_if allowed name.now)) }
{
    if allowed {
        return push_rule(alloc, types, name, &[], out);
    }
    Ok(())
}

/// Whether a model is another than the target.
fn is_other(target: &str, model: &Text) -> bool
    ensures { result ≡ not (same_name (chars target.now) model.now) }
{
    !is_name(model, target)
}

/// What an item binds that asks for this variable alone, if it asks for one alone.
fn push_alone(
    alloc: Global,
    types: &NameTable<Ty>,
    universal: &NameTable<u32>,
    other: bool,
    name: Option<&Text>,
    out: &mut Seq<(u32, Seq<u32>)>,
) -> Result<(), NoMemory>
    ensures { OnOk result (out.new ≡ out.old ++ numbered types.now (alone_rules (map (λ e. e.0) universal.now) other (option_map (λ n. n.now) name.entry))) }
{
    match name {
        Some(name) => push_bound(alloc, types, is_sought(universal, other, name), name, out),
        None => Ok(()),
    }
}

/// What a piece binds.
fn push_item(
    alloc: Global,
    target: &str,
    types: &NameTable<Ty>,
    universal: &NameTable<u32>,
    located: &LocatedPiece<'_>,
    out: &mut Seq<(u32, Seq<u32>)>,
) -> Result<(), NoMemory>
    ensures { OnOk result (out.new ≡ out.old ++ numbered types.now (item_rules (map (λ e. e.0) universal.now) (chars target.now) (shown_located located.now))) }
{
    match &located.piece {
        BorrowedPiece::Begins { .. } => Ok(()),
        BorrowedPiece::Asks { value, .. } => {
            let other = is_other(target, located.model);
            push_alone(alloc, types, universal, other, name_alone(value), out)
        }
    }
}

/// The same of pieces one behind the other.
fn add_items(
    alloc: Global,
    target: &str,
    types: &NameTable<Ty>,
    universal: &NameTable<u32>,
    pieces: &[LocatedPiece<'_>],
    out: &mut Seq<(u32, Seq<u32>)>,
) -> Result<(), NoMemory>
    ensures { OnOk result (out.new ≡ out.old ++ flat_map (λ p. numbered types.now (item_rules (map (λ e. e.0) universal.now) (chars target.now) p)) (map shown_located pieces.now)) }
{
    for piece in pieces {
        push_item(alloc, target, types, universal, piece, out)?;
    }
    Ok(())
}

/// What an equation binds, if its variable is sought.
fn push_equation(
    alloc: Global,
    types: &NameTable<Ty>,
    name: &Text,
    value: &Expr,
    sought: bool,
    out: &mut Seq<(u32, Seq<u32>)>,
) -> Result<(), NoMemory>
    ensures { OnOk result (out.new ≡ out.old ++ numbered types.now (if sought then (name.now, variables_in value.now) ∷ [] else [])) }
{
    if !sought {
        return Ok(());
    }
    let mut names = Seq::new(alloc);
    add_variables(alloc, value, &mut names)?;
    push_rule(alloc, types, name, names.as_slice(), out)
}

/// What a conjunct binds.
fn push_conjunct(
    alloc: Global,
    types: &NameTable<Ty>,
    universal: &NameTable<u32>,
    wanted: bool,
    conjunct: &Expr,
    out: &mut Seq<(u32, Seq<u32>)>,
) -> Result<(), NoMemory>
    ensures { OnOk result (out.new ≡ out.old ++ numbered types.now (conjunct_rules (map (λ e. e.0) universal.now) wanted conjunct.now)) }
{
    match equation_of(conjunct) {
        Some((name, value)) => {
            let sought = is_sought(universal, wanted, name);
            push_equation(alloc, types, name, value, sought, out)
        }
        None => Ok(()),
    }
}

/// The same of conjuncts one behind the other.
fn add_conjuncts(
    alloc: Global,
    types: &NameTable<Ty>,
    universal: &NameTable<u32>,
    wanted: bool,
    conjuncts: &[&Expr],
    out: &mut Seq<(u32, Seq<u32>)>,
) -> Result<(), NoMemory>
    ensures { OnOk result (out.new ≡ out.old ++ flat_map (λ e. numbered types.now (conjunct_rules (map (λ e. e.0) universal.now) wanted e)) (map (λ e. e.now) conjuncts.now)) }
{
    for conjunct in conjuncts {
        push_conjunct(alloc, types, universal, wanted, conjunct, out)?;
    }
    Ok(())
}

/// What the conjuncts of a clause bind.
fn add_clause(
    alloc: Global,
    types: &NameTable<Ty>,
    universal: &NameTable<u32>,
    wanted: bool,
    clause: &Option<BlockTree>,
    out: &mut Seq<(u32, Seq<u32>)>,
) -> Result<(), NoMemory>
    ensures { OnOk result (out.new ≡ out.old ++ clause_rules types.now (map (λ e. e.0) universal.now) wanted clause.now) }
{
    let conjuncts = clause_conjuncts(alloc, clause)?;
    add_conjuncts(alloc, types, universal, wanted, conjuncts.as_slice(), out)
}

/// What a domain binds, if it is a primitive one.
fn push_primitive(
    alloc: Global,
    types: &NameTable<Ty>,
    top: bool,
    domain: &DomainTree,
    out: &mut Seq<(u32, Seq<u32>)>,
) -> Result<(), NoMemory>
    ensures { OnOk result (out.new ≡ out.old ++ numbered types.now (primitive_rules top domain.now)) }
{
    match domain {
        DomainTree::Pattern { .. } => Ok(()),
        DomainTree::Primitive { root, .. } => push_bound(alloc, types, !top, &root.text, out),
    }
}

/// The same of domains one behind the other.
fn add_primitives(
    alloc: Global,
    types: &NameTable<Ty>,
    top: bool,
    domains: &[DomainTree],
    out: &mut Seq<(u32, Seq<u32>)>,
) -> Result<(), NoMemory>
    ensures { OnOk result (out.new ≡ out.old ++ flat_map (λ d. numbered types.now (primitive_rules top d)) domains.now) }
{
    for domain in domains {
        push_primitive(alloc, types, top, domain, out)?;
    }
    Ok(())
}

/// What both clauses of a relation bind.
fn add_clauses(
    alloc: Global,
    types: &NameTable<Ty>,
    universal: &NameTable<u32>,
    r: &RelationTree,
    out: &mut Seq<(u32, Seq<u32>)>,
) -> Result<(), NoMemory>
    ensures { OnOk result (out.new ≡ out.old ++ clause_rules types.now (map (λ e. e.0) universal.now) true r.now.when ++ clause_rules types.now (map (λ e. e.0) universal.now) false r.now.wheres) }
{
    add_clause(alloc, types, universal, true, &r.when, out)?;
    add_clause(alloc, types, universal, false, &r.wheres, out)
}

/// What binds the data variables of a relation.
pub(crate) fn binding_rules(
    alloc: Global,
    target: &str,
    types: &NameTable<Ty>,
    universal: &NameTable<u32>,
    r: &RelationTree,
) -> Result<Seq<(u32, Seq<u32>)>, NoMemory>
    ensures { IfOk result (λ rules. rules ≡ all_rules types.now (map (λ e. e.0) universal.now) (chars target.now) r.now) }
{
    let pieces = located_pieces(alloc, r)?;
    let mut out = Seq::new(alloc);
    add_items(alloc, target, types, universal, pieces.as_slice(), &mut out)?;
    add_clauses(alloc, types, universal, r, &mut out)?;
    add_primitives(alloc, types, r.top, r.domains.as_slice(), &mut out)?;
    Ok(out)
}

/// Whether the number of a data variable is one that is bound.
fn is_bound(bound: &[bool], n: u32) -> bool
    ensures { result ≡ slice_index_or bound.now n false }
{
    let i = n as usize;
    if i < bound.len() { bound[i] } else { false }
}

/// Refuses a data variable that isn't bound.
fn refuse_one(
    alloc: Global,
    types: &NameTable<Ty>,
    bound: &[bool],
    name: &Text,
) -> Result<(), TypeError>
    ensures bound { OnOk result (IsBoundData types.now bound.now name.now) }
    ensures fault { IfFault result (IsUnboundData types.now bound.now name.now) }
{
    match data_number(types, name)? {
        Some(n) => {
            if is_bound(bound, n) {
                return Ok(());
            }
            let text = printed(alloc, name)?;
            Err(TypeError::Fault(TypeFault::Unbound(text)))
        }
        None => Ok(()),
    }
}

/// Refuses data variables of which one isn't bound.
pub(crate) fn refuse_unbound(
    alloc: Global,
    types: &NameTable<Ty>,
    bound: &[bool],
    names: &[Text],
) -> Result<(), TypeError>
    ensures bound { OnOk result (All (IsBoundData types.now bound.now) names.now) }
    ensures fault { IfFault result (IsUnboundFault types.now bound.now names.now) }
{
    for name in names {
        refuse_one(alloc, types, bound, name)?;
    }
    Ok(())
}
