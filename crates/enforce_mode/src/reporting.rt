ghost use Rattle.std.specs.Prelude.{◌≡◌, ◌↔◌, ℕ, map, nat_eq, Contains, IsTrue};
ghost use Rattle.std.specs.List.{list_all};
ghost use Rattle.std.specs.Cmp.Lexicographic.{pointwise};
ghost use Rattle.mof_metamodel.specs.Tables.{prop_numbers};
ghost use Rattle.object_tables.specs.Validity.{IsPropertyOf};
ghost use Rattle.qvtr_semantics.specs.Data.{same_value};
ghost use Rattle.repair_semantics.specs.Reports.{same_slot, is_updated, is_removed};
ghost use Rattle.enforce_mode.specs.Reports.{HasClassesOf, updated_count, deleted_count};

use mof_metamodel::PropId;
use object_tables::{Model, ObjId, Partners, Value};
use ocl_eval::same_value;
use repair_semantics::Report;

/// Whether the lists have the same values in one order.
fn are_same_values(one: &[Value], other: &[Value]) -> bool
    ensures { result ≡ pointwise same_value one.now other.now }
{
    for (i, value) in one.iter().enumerate() {
        match other.get(i) {
            Some(another) if same_value(value, another) => {}
            _ => return false,
        }
    }
    one.len() == other.len()
}

/// Whether the lists have the same partners in one order.
fn are_same_partners(one: Partners<'_>, other: Partners<'_>) -> bool
    ensures { result ≡ pointwise nat_eq (map (λ o. o.0) one.entry) (map (λ o. o.0) other.entry) }
{
    let mut others = other;
    for partner in one {
        match others.next() {
            Some(another) if partner.0 == another.0 => {}
            _ => return false,
        }
    }
    others.next().is_none()
}

/// Whether an object has the same values, or the same partners in their order, at a property in two models.
fn is_same_slot(target: &Model<'_>, made: &Model<'_>, o: ObjId, p: PropId) -> bool
    requires target { IsPropertyOf target.now o.0 p.0 }
    requires made { IsPropertyOf made.now o.0 p.0 }
    requires meta { made.now.meta ≡ target.now.meta }
    ensures { result ≡ same_slot target.now made.now o.0 p.0 }
{
    // What every model keeps is known here.
    let _ = (target.end(), made.end());
    if target.has_attribute(o, p) {
        are_same_values(target.attr(o, p), made.attr(o, p))
    } else {
        are_same_partners(target.partners(o, p), made.partners(o, p))
    }
}

/// Whether an object has the same at each of these properties in two models.
fn are_same_slots(target: &Model<'_>, made: &Model<'_>, o: ObjId, props: &[PropId]) -> bool
    requires target { (p : ℕ) → Contains (prop_numbers props.now) p → IsPropertyOf target.now o.0 p }
    requires made { (p : ℕ) → Contains (prop_numbers props.now) p → IsPropertyOf made.now o.0 p }
    requires meta { made.now.meta ≡ target.now.meta }
    ensures { result ≡ list_all (same_slot target.now made.now o.0) (prop_numbers props.now) }
{
    for p in props {
        if !is_same_slot(target, made, o, *p) {
            return false;
        }
    }
    true
}

/// Whether an object that is in both models differs in a slot.
fn is_updated(target: &Model<'_>, made: &Model<'_>, o: ObjId) -> bool
    requires { HasClassesOf target.now made.now }
    ensures { result ≡ is_updated target.now made.now o.0 }
{
    if !target.is_live(o) || !made.is_live(o) {
        return false;
    }
    !are_same_slots(target, made, o, target.meta().props(target.class_of(o)))
}

/// Whether an object is in the first model alone.
fn is_removed(target: &Model<'_>, made: &Model<'_>, o: ObjId) -> bool
    ensures { result ≡ is_removed target.now made.now o.0 }
{
    target.is_live(o) && !made.is_live(o)
}

/// How many objects that are in both models differ in a slot.
fn updated_count(target: &Model<'_>, made: &Model<'_>) -> u32
    requires { HasClassesOf target.now made.now }
    ensures { result ≡ updated_count target.now made.now }
{
    let mut count = 0;
    for o in 0..target.end() {
        if is_updated(target, made, ObjId(o)) {
            count += 1;
        }
    }
    count
}

/// How many objects are in the first model alone.
fn deleted_count(target: &Model<'_>, made: &Model<'_>) -> u32
    ensures { result ≡ deleted_count target.now made.now }
{
    let mut count = 0;
    for o in 0..target.end() {
        if is_removed(target, made, ObjId(o)) {
            count += 1;
        }
    }
    count
}

/// What it changes that a model takes the target's place, which has so many fresh objects (this engine's own). In time linear in the
/// target's objects and what they hold.
pub(crate) fn report(target: &Model<'_>, made: &Model<'_>, created: u32) -> Report
    requires { HasClassesOf target.now made.now }
    ensures created { result.created ≡ created }
    ensures updated { result.updated ≡ updated_count target.now made.now }
    ensures deleted { result.deleted ≡ deleted_count target.now made.now }
    ensures unchanged { IsTrue result.unchanged ↔ ((result.created ≡ 0) × (result.updated ≡ 0) × (result.deleted ≡ 0)) }
{
    let updated = updated_count(target, made);
    let deleted = deleted_count(target, made);
    let unchanged = created == 0 && updated == 0 && deleted == 0;
    Report {
        created,
        updated,
        deleted,
        unchanged,
    }
}
