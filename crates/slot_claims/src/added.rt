ghost use Rattle.std.specs.Prelude.{◌≡◌, ◌++◌, map, IfOk, OnOk};
ghost use Rattle.std.specs.List.{list_any, filter_map};
ghost use Rattle.std.specs.Option.{option_to_list};
ghost use Rattle.std.specs.List.Sorted.{IsPermutation, IsSorted};
ghost use Rattle.repair_semantics.specs.Claims.{same_held};
ghost use Rattle.repair_semantics.specs.Images.{same_number};
ghost use Rattle.repair_semantics.specs.Candidates.{others_than};
ghost use Rattle.slot_claims.specs.HeldValues.{held_by, element_by};
ghost use Rattle.slot_claims.specs.ObjectClaims.{said_by, claim_by, element_in, elements_in};
ghost use Rattle.slot_claims.specs.ClaimOrder.{element_order};

use crate::claim::{ObjectClaim, ObjectSaid};
use crate::held_value::{Element, HeldValue, kept, lent};
use crate::ordering::element_order;
use mof_metamodel::{NoMemory, Seq};
use std::alloc::Global;

/// The elements, lent.
fn all_lent<'k>(alloc: Global, elements: &'k [HeldValue]) -> Result<Vec<Element<'k>>, NoMemory>
    ensures { IfOk result (λ found. map element_by found.items ≡ map held_by elements.now) }
{
    let mut found = Vec::new(alloc);
    for element in elements {
        found.push(lent(element))?;
    }
    Ok(found)
}

/// The elements in their order.
fn in_order(elements: Vec<Element<'_>>) -> Vec<Element<'_>>
    ensures same { IsPermutation elements.entry.items result.items }
    ensures sorted { IsSorted element_order result.items }
{
    let mut elements = elements;
    elements.sort_unstable_by(|one, other| element_order(*one, *other));
    elements
}

/// Whether an element is among some that stand in their order.
fn is_among(sorted: &[Element<'_>], element: Element<'_>) -> bool
    requires { IsSorted element_order sorted.now }
    ensures { result ≡ list_any (same_held same_number (element_by element.entry)) (map element_by sorted.now) }
{
    sorted
        .binary_search_by(|other| element_order(*other, element))
        .is_ok()
}

/// Puts the element that is claimed of a slot behind the others, unless it is among those that the slot keeps, which stand in their order.
fn add_other(
    alloc: Global,
    sorted: &[Element<'_>],
    said: ObjectSaid<'_>,
    found: &mut Seq<HeldValue>,
) -> Result<(), NoMemory>
    requires { IsSorted element_order sorted.now }
    ensures { OnOk result (map held_by found.new ≡ map held_by found.old ++ others_than (map element_by sorted.now) (option_to_list (element_in (said_by said.entry)))) }
{
    match said {
        ObjectSaid::Element(element) => {
            if !is_among(sorted, element) {
                found.push(kept(alloc, element)?)?;
            }
            Ok(())
        }
        ObjectSaid::Within(..) => Ok(()),
    }
}

/// The elements that claims put into a slot, without those that it keeps, which stand in their order.
fn others(
    alloc: Global,
    sorted: &[Element<'_>],
    claims: &[ObjectClaim<'_>],
) -> Result<Seq<HeldValue>, NoMemory>
    requires { IsSorted element_order sorted.now }
    ensures { IfOk result (λ found. map held_by found ≡ others_than (map element_by sorted.now) (elements_in (map claim_by claims.now))) }
{
    let mut found = Seq::new(alloc);
    for claim in claims {
        add_other(alloc, sorted, claim.said, &mut found)?;
    }
    Ok(found)
}

/// The elements that claims put into a slot besides those that it keeps.
pub(crate) fn added(
    alloc: Global,
    kept: &[HeldValue],
    claims: &[ObjectClaim<'_>],
) -> Result<Seq<HeldValue>, NoMemory>
    ensures { IfOk result (λ found. map held_by found ≡ others_than (map held_by kept.now) (elements_in (map claim_by claims.now))) }
{
    let sorted = in_order(all_lent(alloc, kept)?);
    others(alloc, sorted.as_slice(), claims)
}
