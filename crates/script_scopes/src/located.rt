ghost use Rattle.std.specs.Prelude.{◌≡◌, ◌+◌, ◌++◌, map, IfOk, OnOk};
ghost use Rattle.script_scopes.specs.Occurrences.{template_count};
ghost use Rattle.script_scopes.specs.BorrowedPieces.{shown_piece};
ghost use Rattle.script_scopes.specs.LocatedPieces.{in_model, located_in, located_from, located, shown_located};

use crate::piece::BorrowedPiece;
use crate::pieces::add_pieces;
use mof_metamodel::{NoMemory, Seq, Text};
use qv_syntax::{DomainTree, RelationTree};
use std::alloc::Global;

/// A piece of a template with the model of its domain (QVT 1.3, section 7.11.1.6).
#[derive(Clone, Copy)]
pub struct LocatedPiece<'a> {
    pub model: &'a Text,
    pub piece: BorrowedPiece<'a>,
}

/// Pieces in a domain of this model.
fn add_in_model<'a>(
    model: &'a Text,
    pieces: &[BorrowedPiece<'a>],
    out: &mut Seq<LocatedPiece<'a>>,
) -> Result<(), NoMemory>
    ensures { OnOk result (map shown_located out.new ≡ map shown_located out.old ++ in_model model.now (map shown_piece pieces.now)) }
{
    for piece in pieces {
        out.push(LocatedPiece {
            model,
            piece: *piece,
        })?;
    }
    Ok(())
}

/// The pieces of a domain, whose first template has this number. The number behind that of its last one.
fn add_located<'a>(
    alloc: Global,
    k: u32,
    domain: &'a DomainTree,
    out: &mut Seq<LocatedPiece<'a>>,
) -> Result<u32, NoMemory>
    ensures pieces { OnOk result (map shown_located out.new ≡ map shown_located out.old ++ located_in k domain.now) }
    ensures next { IfOk result (λ n. n ≡ k + template_count domain.now) }
{
    match domain {
        DomainTree::Pattern { model, .. } => {
            let mut pieces = Seq::new(alloc);
            let next = add_pieces(k, domain, &mut pieces)?;
            add_in_model(&model.text, pieces.as_slice(), out)?;
            Ok(next)
        }
        DomainTree::Primitive { .. } => Ok(k),
    }
}

/// The pieces of domains one behind the other.
fn add_all_located<'a>(
    alloc: Global,
    domains: &'a [DomainTree],
    out: &mut Seq<LocatedPiece<'a>>,
) -> Result<(), NoMemory>
    ensures { OnOk result (map shown_located out.new ≡ map shown_located out.old ++ located_from 1 domains.now) }
{
    let mut k = 1;
    for domain in domains {
        k = add_located(alloc, k, domain, out)?;
    }
    Ok(())
}

/// The pieces of a relation's templates in the order of the text, each with the model of its domain (QVT 1.3, section 7.11.2).
///
/// # Errors
///
/// As those of `add_pieces`.
pub fn located_pieces<'a>(
    alloc: Global,
    r: &'a RelationTree,
) -> Result<Seq<LocatedPiece<'a>>, NoMemory>
    ensures { IfOk result (λ pieces. map shown_located pieces ≡ located r.now) }
{
    let mut out = Seq::new(alloc);
    add_all_located(alloc, r.domains.as_slice(), &mut out)?;
    Ok(out)
}
