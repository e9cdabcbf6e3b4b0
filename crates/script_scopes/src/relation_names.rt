ghost use Rattle.std.specs.Prelude.{◌≡◌, ◌+◌, ◌++◌, map, IfOk, OnOk};
ghost use Rattle.std.specs.List.{flat_map, filter_map};
ghost use Rattle.std.specs.Option.{option_to_list};
ghost use Rattle.script_scopes.specs.Occurrences.{root_of, template_count, pieces_of, piece_template, templates_from, template_variables as templates};
ghost use Rattle.script_scopes.specs.Divisions.{model_of};
ghost use Rattle.script_scopes.specs.Faults.{root_where, typed_names as typed, domain_models as models};
ghost use Rattle.script_scopes.specs.BorrowedPieces.{shown_piece};

use crate::occurrences::{add_declared, variable_text};
use crate::piece::BorrowedPiece;
use crate::pieces::add_pieces;
use mof_metamodel::{NoMemory, Seq, Text};
use qv_syntax::{DomainTree, RelationTree};
use std::alloc::Global;

/// Puts the name of a domain's model, if it has one, behind others.
fn push_model(alloc: Global, domain: &DomainTree, out: &mut Seq<Text>) -> Result<(), NoMemory>
    ensures { OnOk result (out.new ≡ out.old ++ option_to_list (model_of domain.now)) }
{
    match domain {
        DomainTree::Pattern { model, .. } => out.push(model.text.duplicate(alloc)?),
        DomainTree::Primitive { .. } => Ok(()),
    }
}

/// Puts the root of a domain, if it is a primitive one, behind others.
fn push_root(alloc: Global, domain: &DomainTree, out: &mut Seq<Text>) -> Result<(), NoMemory>
    ensures { OnOk result (out.new ≡ out.old ++ option_to_list (root_where (model_of domain.now) (root_of domain.now))) }
{
    match domain {
        DomainTree::Pattern { .. } => Ok(()),
        DomainTree::Primitive { root, .. } => out.push(root.text.duplicate(alloc)?),
    }
}

/// The names of the models of domains one behind the other.
fn add_models(alloc: Global, domains: &[DomainTree], out: &mut Seq<Text>) -> Result<(), NoMemory>
    ensures { OnOk result (out.new ≡ out.old ++ filter_map model_of domains.now) }
{
    for domain in domains {
        push_model(alloc, domain, out)?;
    }
    Ok(())
}

/// The roots of the primitive ones among domains.
fn add_roots(alloc: Global, domains: &[DomainTree], out: &mut Seq<Text>) -> Result<(), NoMemory>
    ensures { OnOk result (out.new ≡ out.old ++ filter_map (λ d. root_where (model_of d) (root_of d)) domains.now) }
{
    for domain in domains {
        push_root(alloc, domain, out)?;
    }
    Ok(())
}

/// The variable of a piece, where a template begins.
fn push_template(
    alloc: Global,
    piece: &BorrowedPiece<'_>,
    out: &mut Seq<Text>,
) -> Result<(), NoMemory>
    ensures { OnOk result (out.new ≡ out.old ++ piece_template (shown_piece piece.now)) }
{
    match piece {
        BorrowedPiece::Begins { variable, .. } => out.push(variable_text(alloc, variable)?),
        BorrowedPiece::Asks { .. } => Ok(()),
    }
}

/// The variables of the templates that begin among pieces.
fn add_each_template(
    alloc: Global,
    pieces: &[BorrowedPiece<'_>],
    out: &mut Seq<Text>,
) -> Result<(), NoMemory>
    ensures { OnOk result (out.new ≡ out.old ++ flat_map piece_template (map shown_piece pieces.now)) }
{
    for piece in pieces {
        push_template(alloc, piece, out)?;
    }
    Ok(())
}

/// The variables of the templates of a domain, whose first one has this number. The number behind its last one.
fn add_templates(
    alloc: Global,
    k: u32,
    domain: &DomainTree,
    out: &mut Seq<Text>,
) -> Result<u32, NoMemory>
    ensures names { OnOk result (out.new ≡ out.old ++ flat_map piece_template (pieces_of k domain.now)) }
    ensures next { IfOk result (λ n. n ≡ k + template_count domain.now) }
{
    let mut pieces = Seq::new(alloc);
    let next = add_pieces(k, domain, &mut pieces)?;
    add_each_template(alloc, pieces.as_slice(), out)?;
    Ok(next)
}

/// The variables of the templates of domains one behind the other.
fn add_all_templates(
    alloc: Global,
    domains: &[DomainTree],
    out: &mut Seq<Text>,
) -> Result<(), NoMemory>
    ensures { OnOk result (out.new ≡ out.old ++ templates_from 1 domains.now) }
{
    let mut k = 1;
    for domain in domains {
        k = add_templates(alloc, k, domain, out)?;
    }
    Ok(())
}

/// The names of the models of a relation's domains, in the order of the text.
pub fn domain_models(alloc: Global, r: &RelationTree) -> Result<Seq<Text>, NoMemory>
    ensures { IfOk result (λ names. names ≡ models r.now) }
{
    let mut out = Seq::new(alloc);
    add_models(alloc, r.domains.as_slice(), &mut out)?;
    Ok(out)
}

/// The names that a relation declares with a type: in declarations of variables, and by primitive domains (QVT 1.3, section 7.11.1.4).
pub fn typed_names(alloc: Global, r: &RelationTree) -> Result<Seq<Text>, NoMemory>
    ensures { IfOk result (λ names. names ≡ typed r.now) }
{
    let mut out = Seq::new(alloc);
    add_declared(alloc, r.vars.as_slice(), &mut out)?;
    add_roots(alloc, r.domains.as_slice(), &mut out)?;
    Ok(out)
}

/// The variables of a relation's templates, one for each template, in the order of the text (QVT 1.3, section 7.11.2).
///
/// # Errors
///
/// As those of `variables_of`.
pub fn template_variables(alloc: Global, r: &RelationTree) -> Result<Seq<Text>, NoMemory>
    ensures { IfOk result (λ names. names ≡ templates r.now) }
{
    let mut out = Seq::new(alloc);
    add_all_templates(alloc, r.domains.as_slice(), &mut out)?;
    Ok(out)
}
