ghost use Rattle.std.specs.Prelude.{◌≡◌, ◌+◌, ◌++◌, ◌∷◌, [], map, IfOk, OnOk};
ghost use Rattle.std.specs.List.{flat_map, filter_map};
ghost use Rattle.script_scopes.specs.Usages.{variable_in, variables_in};
ghost use Rattle.script_scopes.specs.Occurrences.{nameless, item_variables, piece_variables, root_of, template_count, domain_variables, domains_variables, clause_variables, declared_names, occurrences as all_occurrences, variables_of as variables};
ghost use Rattle.script_scopes.specs.BorrowedPieces.{shown_variable, shown_piece};

use crate::conjuncts::is_null;
use crate::distinct::{each_once, each_once_listed};
use crate::piece::{BorrowedPiece, VariableName};
use crate::pieces::add_pieces;
use crate::usage::Usage;
use crate::usages::add_usages;
use mof_metamodel::{NameTable, NoMemory, Seq, Text};
use qv_syntax::{BlockTree, DomainTree, Expr, Name, RelationTree, VarsTree};
use std::alloc::Global;

/// The text by which the variable of a template without a name is known: no script can write it.
fn nameless_text(alloc: Global, k: u32) -> Result<Text, NoMemory>
    ensures { IfOk result (λ t. t ≡ nameless k) }
{
    let text = format!(in alloc; "\0{k}")?;
    Ok(Text::from_string(text))
}

/// The text by which a variable is known.
pub fn variable_text(alloc: Global, variable: &VariableName<'_>) -> Result<Text, NoMemory>
    ensures { IfOk result (λ t. t ≡ shown_variable variable.now) }
{
    match variable {
        VariableName::Named(name) => name.duplicate(alloc),
        VariableName::Nameless(k) => nameless_text(alloc, *k),
    }
}

/// Puts the variable of a usage, if it is one, behind names.
fn push_variable(usage: Usage, out: &mut Seq<Text>) -> Result<(), NoMemory>
    ensures { OnOk result (out.new ≡ out.old ++ filter_map variable_in (usage ∷ [])) }
{
    match usage {
        Usage::Variable(name) => out.push(name),
        Usage::Call(_) => Ok(()),
    }
}

/// Puts the variables among usages behind names.
fn append_variables(usages: Seq<Usage>, out: &mut Seq<Text>) -> Result<(), NoMemory>
    ensures { OnOk result (out.new ≡ out.old ++ filter_map variable_in usages) }
{
    for usage in usages.into_vec() {
        push_variable(usage, out)?;
    }
    Ok(())
}

/// The variables that an expression names.
pub fn add_variables(alloc: Global, e: &Expr, out: &mut Seq<Text>) -> Result<(), NoMemory>
    ensures { OnOk result (out.new ≡ out.old ++ variables_in e.now) }
{
    let mut used = Seq::new(alloc);
    add_usages(alloc, e, &mut used)?;
    append_variables(used, out)
}

/// The variables of expressions one behind the other.
fn add_exprs(alloc: Global, exprs: &[Expr], out: &mut Seq<Text>) -> Result<(), NoMemory>
    ensures { OnOk result (out.new ≡ out.old ++ flat_map variables_in exprs.now) }
{
    for e in exprs {
        add_variables(alloc, e, out)?;
    }
    Ok(())
}

/// The variables of the value of an item; `null` asks for an empty slot, and names nothing.
fn add_item(alloc: Global, value: &Expr, out: &mut Seq<Text>) -> Result<(), NoMemory>
    ensures { OnOk result (out.new ≡ out.old ++ item_variables value.now) }
{
    if is_null(value) {
        Ok(())
    } else {
        add_variables(alloc, value, out)
    }
}

/// The variables of a piece of a template.
fn add_piece(alloc: Global, piece: &BorrowedPiece<'_>, out: &mut Seq<Text>) -> Result<(), NoMemory>
    ensures { OnOk result (out.new ≡ out.old ++ piece_variables (shown_piece piece.now)) }
{
    match piece {
        BorrowedPiece::Begins { variable, .. } => out.push(variable_text(alloc, variable)?),
        BorrowedPiece::Asks { value, .. } => add_item(alloc, value, out),
    }
}

/// The variables of pieces one behind the other.
fn add_each(
    alloc: Global,
    pieces: &[BorrowedPiece<'_>],
    out: &mut Seq<Text>,
) -> Result<(), NoMemory>
    ensures { OnOk result (out.new ≡ out.old ++ flat_map piece_variables (map shown_piece pieces.now)) }
{
    for piece in pieces {
        add_piece(alloc, piece, out)?;
    }
    Ok(())
}

/// The name of a domain's root.
pub fn root_name(domain: &DomainTree) -> &Text
    ensures { result.now ≡ root_of domain.now }
{
    match domain {
        DomainTree::Pattern { root, .. } => &root.text,
        DomainTree::Primitive { root, .. } => &root.text,
    }
}

/// The variables of a domain, whose first template has this number. The number behind its last one.
pub(crate) fn add_domain(
    alloc: Global,
    k: u32,
    domain: &DomainTree,
    out: &mut Seq<Text>,
) -> Result<u32, NoMemory>
    ensures names { OnOk result (out.new ≡ out.old ++ domain_variables k domain.now) }
    ensures next { IfOk result (λ n. n ≡ k + template_count domain.now) }
{
    out.push(root_name(domain).duplicate(alloc)?)?;
    let mut pieces = Seq::new(alloc);
    let next = add_pieces(k, domain, &mut pieces)?;
    add_each(alloc, pieces.as_slice(), out)?;
    Ok(next)
}

/// The variables of domains one behind the other.
fn add_domains(alloc: Global, domains: &[DomainTree], out: &mut Seq<Text>) -> Result<(), NoMemory>
    ensures { OnOk result (out.new ≡ out.old ++ domains_variables 1 domains.now) }
{
    let mut k = 1;
    for domain in domains {
        k = add_domain(alloc, k, domain, out)?;
    }
    Ok(())
}

/// The variables of a clause.
pub(crate) fn add_clause(
    alloc: Global,
    block: &Option<BlockTree>,
    out: &mut Seq<Text>,
) -> Result<(), NoMemory>
    ensures { OnOk result (out.new ≡ out.old ++ clause_variables block.now) }
{
    match block {
        Some(block) => add_exprs(alloc, block.exprs.as_slice(), out),
        None => Ok(()),
    }
}

/// Names one behind the other.
fn add_names(alloc: Global, names: &[Name], out: &mut Seq<Text>) -> Result<(), NoMemory>
    ensures { OnOk result (out.new ≡ out.old ++ map (λ n. n.text) names.now) }
{
    for name in names {
        out.push(name.text.duplicate(alloc)?)?;
    }
    Ok(())
}

/// The variables of declarations one behind the other.
pub(crate) fn add_declared(
    alloc: Global,
    vars: &[VarsTree],
    out: &mut Seq<Text>,
) -> Result<(), NoMemory>
    ensures { OnOk result (out.new ≡ out.old ++ flat_map declared_names vars.now) }
{
    for declared in vars {
        add_names(alloc, declared.names.as_slice(), out)?;
    }
    Ok(())
}

/// Each occurrence of a variable in a relation, in the order of the text.
fn occurrences(alloc: Global, r: &RelationTree) -> Result<Seq<Text>, NoMemory>
    ensures { IfOk result (λ names. names ≡ all_occurrences r.now) }
{
    let mut out = Seq::new(alloc);
    add_declared(alloc, r.vars.as_slice(), &mut out)?;
    add_domains(alloc, r.domains.as_slice(), &mut out)?;
    add_clause(alloc, &r.when, &mut out)?;
    add_clause(alloc, &r.wheres, &mut out)?;
    Ok(out)
}

/// The variables of a relation, in the order of their first occurrence in its text, which is that of their numbers (QVT 1.3, section
/// 7.11.1). The variable of template `k` without a name, counted from 1, is there as U+0000 and `k`, which no script can write.
///
/// # Errors
///
/// `NoMemory` where memory runs out, or where the relation has more than 4,294,967,294 templates.
pub fn variables_of(alloc: Global, r: &RelationTree) -> Result<NameTable<u32>, NoMemory>
    ensures { IfOk result (λ names. map (λ e. e.0) names ≡ variables r.now) }
{
    each_once(alloc, occurrences(alloc, r)?)
}

/// The same variables as a list.
///
/// # Errors
///
/// As those of `variables_of`.
pub fn variables_listed(alloc: Global, r: &RelationTree) -> Result<Seq<Text>, NoMemory>
    ensures { IfOk result (λ names. names ≡ variables r.now) }
{
    let all = occurrences(alloc, r)?;
    each_once_listed(alloc, all.as_slice())
}
