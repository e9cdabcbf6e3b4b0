ghost use Rattle.std.specs.Prelude.{◌≡◌, ◌≢◌, ◌<◌, ◌≤◌, ◌+◌, ℕ, map, length, All, AllPairs, IfOk, IfSome, IfNone};
ghost use Rattle.object_tables.specs.declared.limit.TheConstants.{MAX_OBJECTS};
ghost use Rattle.repair_semantics.specs.Deletions.{images_of};
ghost use Rattle.repair_semantics.specs.CandidateObjects.{fresh_terms, term_number};
ghost use Rattle.term_table.specs.TermTables.{term_at};
ghost use Rattle.made_objects.specs.Making.{terms_at};
ghost use Rattle.made_objects.specs.Numbers.{number_at, object_in, known_in, unknown_in, numbered_at};

use mof_metamodel::{NoMemory, Seq};
use object_tables::{MAX_OBJECTS, Model, ObjId};
use qv_syntax::Program;
use std::alloc::Global;
use term_images::images;
use term_table::TermTable;

/// Which objects terms are in the model that is made, by the terms' numbers in a table.
#[derive(Drop)]
pub struct TermNumbers {
    /// The object of each term: its image, or a fresh one where it is demanded; none for others.
    pub objects: Vec<Option<ObjId>>,
    /// The images of the demanded terms, in their order.
    pub images: Seq<ObjId>,
    /// The demanded terms that have no image, in their order.
    pub fresh: Seq<usize>,
}

/// Which objects terms are, where these terms of the table are demanded: their images in the target, or fresh ones behind its objects
/// (QVT 1.3, section 7.10.2 on keys; the numbers are this engine's own). None where there would be more fresh objects than a model may have.
pub fn term_numbers(
    alloc: Global,
    program: &Program,
    target: &Model<'_>,
    table: &TermTable,
    terms: &[usize],
) -> Result<Option<TermNumbers>, NoMemory>
    requires within { All (λ n. n < length table.now) terms.now }
    requires once { AllPairs (λ a b. a ≢ b) terms.now }
    requires room { length target.now.objects ≤ 3_999_000_000 }
    ensures objects { IfOk result (λ r. IfSome r (λ n. (k : ℕ) → k < length table.now → number_at n.objects.items k ≡ term_number program.now target.now (terms_at table.now terms.now) (term_at table.now k))) }
    ensures images { IfOk result (λ r. IfSome r (λ n. map (λ o. o.0) n.images ≡ images_of program.now target.now (terms_at table.now terms.now))) }
    ensures fresh { IfOk result (λ r. IfSome r (λ n. terms_at table.now n.fresh ≡ fresh_terms program.now target.now (terms_at table.now terms.now))) }
    ensures fresh_within { IfOk result (λ r. IfSome r (λ n. All (λ k. k < length table.now) n.fresh)) }
    ensures few { IfOk result (λ r. IfSome r (λ n. length n.fresh ≤ MAX_OBJECTS)) }
    ensures many { IfOk result (λ r. IfNone r (MAX_OBJECTS < length (fresh_terms program.now target.now (terms_at table.now terms.now)))) }
{
    // That no two numbers have one term is known here.
    let _ = table.len();
    let found = images(alloc, program, target, table)?;
    let fresh = unknown_in(alloc, found.as_slice(), terms)?;
    if fresh.len() > MAX_OBJECTS as usize {
        return Ok(None);
    }
    let images = known_in(alloc, found.as_slice(), terms)?;
    let objects = objects_with_fresh(found, target.end(), fresh.as_slice());
    Ok(Some(TermNumbers {
        objects,
        images,
        fresh,
    }))
}

/// What a list has at a number, none outside.
fn object_in(objects: &[Option<ObjId>], term: usize) -> Option<ObjId>
    ensures { result ≡ object_in objects.now term }
{
    match objects.get(term) {
        Some(object) => *object,
        None => None,
    }
}

/// The objects of those of the terms that have one.
fn known_in(
    alloc: Global,
    objects: &[Option<ObjId>],
    terms: &[usize],
) -> Result<Seq<ObjId>, NoMemory>
    ensures { IfOk result (λ known. known ≡ known_in objects.now terms.now) }
{
    let mut known = Seq::new(alloc);
    for term in terms {
        if let Some(object) = object_in(objects, *term) {
            known.push(object)?;
        }
    }
    Ok(known)
}

/// Those of the terms that have no object.
fn unknown_in(
    alloc: Global,
    objects: &[Option<ObjId>],
    terms: &[usize],
) -> Result<Seq<usize>, NoMemory>
    ensures { IfOk result (λ unknown. unknown ≡ unknown_in objects.now terms.now) }
{
    let mut unknown = Seq::new(alloc);
    for term in terms {
        if object_in(objects, *term).is_none() {
            unknown.push(*term)?;
        }
    }
    Ok(unknown)
}

/// The objects found, and one for each of the fresh terms, with the numbers from the end on.
fn objects_with_fresh(found: Seq<Option<ObjId>>, end: u32, fresh: &[usize]) -> Vec<Option<ObjId>>
    requires within { All (λ k. k < length found) fresh.now }
    requires once { AllPairs (λ a b. a ≢ b) fresh.now }
    requires few { length fresh.now ≤ MAX_OBJECTS }
    requires room { end ≤ 3_999_000_000 }
    ensures { (k : ℕ) → object_in result.items k ≡ numbered_at found end fresh.now k }
{
    let mut objects = found.into_vec();
    number_fresh(objects.as_mut_slice(), end, fresh);
    objects
}

/// Gives each of the fresh terms an object, with the numbers from the end on.
fn number_fresh(objects: &mut [Option<ObjId>], end: u32, fresh: &[usize])
    requires within { All (λ k. k < length objects.old) fresh.now }
    requires once { AllPairs (λ a b. a ≢ b) fresh.now }
    requires few { length fresh.now ≤ MAX_OBJECTS }
    requires room { end ≤ 3_999_000_000 }
    ensures length { length objects.new ≡ length objects.old }
    ensures numbered { (k : ℕ) → object_in objects.new k ≡ numbered_at objects.old end fresh.now k }
{
    for (place, term) in fresh.iter().enumerate() {
        objects[*term] = Some(ObjId(end + place as u32));
    }
}
