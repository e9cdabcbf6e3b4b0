ghost use Rattle.std.specs.Prelude.{◌≡◌, ◌<◌, ◌+◌, ◌++◌, map, IfOk, OnOk, OnErr};
ghost use Rattle.std.specs.Option.{option_map};
ghost use Rattle.script_scopes.specs.Occurrences.{begun, in_turn, template_body, item_pieces, value_pieces, variable_text, template_count, pieces_of};
ghost use Rattle.script_scopes.specs.BorrowedPieces.{shown_property, shown_variable, shown_piece};

use crate::piece::{BorrowedPiece, BorrowedProperty, VariableName};
use mof_metamodel::{NoMemory, Seq};
use qv_syntax::{DomainTree, ItemTree, ItemValueTree, Name, Path, TemplateTree};

/// The variable of a template: its name, or else the template's number.
pub fn variable_of(variable: &Option<Name>, k: u32) -> VariableName<'_>
    ensures { shown_variable result ≡ variable_text k variable.now }
{
    match variable {
        Some(name) => VariableName::Named(&name.text),
        None => VariableName::Nameless(k),
    }
}

/// The number behind this one.
///
/// # Errors
///
/// `NoMemory` where it passes 4,294,967,295.
pub fn next_number(k: u32) -> Result<u32, NoMemory>
    ensures next { IfOk result (λ n. n ≡ k + 1) }
    ensures full { OnErr result (u32.MAX < k + 1) }
{
    match k.checked_add(1) {
        Some(n) => Ok(n),
        None => Err(NoMemory),
    }
}

/// A template, which has this number, as the value at a property, and what stands within it. The number behind its last one.
#[cycle(pieces)]
fn add_template<'a>(
    k: u32,
    at: Option<BorrowedProperty<'a>>,
    variable: VariableName<'a>,
    template: &'a TemplateTree,
    out: &mut Seq<BorrowedPiece<'a>>,
) -> Result<u32, NoMemory>
    ensures pieces { OnOk result (map shown_piece out.new ≡ map shown_piece out.old ++ begun (option_map shown_property at.entry) (shown_variable variable.entry) (template_body template.now) k) }
    ensures next { IfOk result (λ n. n ≡ k + (1 + (template_body template.now).items.count)) }
{
    out.push(BorrowedPiece::Begins {
        at,
        variable,
        class: &template.class,
    })?;
    add_items(
        next_number(k)?,
        &template.class,
        template.items.as_slice(),
        out,
    )
}

/// Items of a template one behind the other.
#[cycle(pieces)]
fn add_items<'a>(
    first: u32,
    class: &'a Path,
    items: &'a [ItemTree],
    out: &mut Seq<BorrowedPiece<'a>>,
) -> Result<u32, NoMemory>
    ensures pieces { OnOk result (map shown_piece out.new ≡ map shown_piece out.old ++ (in_turn (map item_pieces items.now)).from first class.now) }
    ensures next { IfOk result (λ n. n ≡ first + (in_turn (map item_pieces items.now)).count) }
{
    let mut k = first;
    for item in items {
        let at = BorrowedProperty {
            class,
            name: &item.prop.text,
        };
        k = add_value(k, Some(at), &item.value, out)?;
    }
    Ok(k)
}

/// The value of an item.
#[cycle(pieces)]
fn add_value<'a>(
    k: u32,
    at: Option<BorrowedProperty<'a>>,
    value: &'a ItemValueTree,
    out: &mut Seq<BorrowedPiece<'a>>,
) -> Result<u32, NoMemory>
    ensures pieces { OnOk result (map shown_piece out.new ≡ map shown_piece out.old ++ (value_pieces value.now).from k (option_map shown_property at.entry)) }
    ensures next { IfOk result (λ n. n ≡ k + (value_pieces value.now).count) }
{
    match value {
        ItemValueTree::Expr { value } => {
            out.push(BorrowedPiece::Asks { at, value })?;
            Ok(k)
        }
        ItemValueTree::Nested { variable, template } => {
            add_template(k, at, variable_of(variable, k), template, out)
        }
    }
}

/// Puts the pieces of a domain's template, in the order of the text, behind others. Templates have numbers from `k` on; the next
/// number is returned.
///
/// # Errors
///
/// `NoMemory` where memory runs out, or where the numbers of templates pass 4,294,967,295.
pub fn add_pieces<'a>(
    k: u32,
    domain: &'a DomainTree,
    out: &mut Seq<BorrowedPiece<'a>>,
) -> Result<u32, NoMemory>
    ensures pieces { OnOk result (map shown_piece out.new ≡ map shown_piece out.old ++ pieces_of k domain.now) }
    ensures next { IfOk result (λ n. n ≡ k + template_count domain.now) }
{
    match domain {
        DomainTree::Pattern { root, template, .. } => {
            add_template(k, None, VariableName::Named(&root.text), template, out)
        }
        DomainTree::Primitive { .. } => Ok(k),
    }
}
