ghost use Rattle.std.specs.Prelude.{◌≡◌, ℕ, ◌+◌, ◌<◌, ◌≤◌, ◌⊎◌, Some, None, IfOk, IfSome, IfNone, length, replicate, slice_index};
ghost use Rattle.object_tables.specs.Models.{IsLive};
ghost use Rattle.object_tables.specs.Climbs.{IsMarked, IsPassedNow, IsSearched, LeadsTo};
ghost use Rattle.object_tables.specs.Containment.{IsAcyclic, IsOnCycle};
ghost use Rattle.object_tables.specs.Validity.{IsFirstBreach, IsLeastOnCycle, Valid};

use crate::breach::{Breach, BreachKind};
use crate::model::Model;
use crate::value::ObjId;
use mof_metamodel::NoMemory;
use std::alloc::{AllocError, Global};

impl<'m> Model<'m> {
    /// What `validity` answers, in time linear in the objects and their properties. It takes four bytes for each number of
    /// an object, and gives them back.
    pub fn first_breach(&self, alloc: Global) -> Result<Option<Breach>, NoMemory>
        ensures breach { IfOk result (λ r. IfSome r (λ b. IsFirstBreach self.now b)) }
        ensures valid { IfOk result (λ r. IfNone r (Valid self.now)) }
    {
        match self.broken_bound() {
            Some(breach) => Ok(Some(breach)),
            None => {
                // What every model keeps is known here.
                let _ = self.end();
                let object = self.find_cycle(alloc)?;
                Ok(object.map(cycle_at))
            }
        }
    }

    /// The least object on a cycle of containers, or none where containment has no cycle, as `least_on_cycle` answers it,
    /// in time linear in the objects and their properties. It takes four bytes for each number of an object, and gives
    /// them back.
    pub fn find_cycle(&self, alloc: Global) -> Result<Option<ObjId>, NoMemory>
        ensures least { IfOk result (λ r. IfSome r (λ o. IsLeastOnCycle self.now o.0)) }
        ensures none { IfOk result (λ r. IfNone r (IsAcyclic self.now)) }
    {
        let mut marks = zeros(alloc, self.end())?;
        let mut least = None;
        for o in 0..self.end() {
            least = self.search_from(marks.as_mut_slice(), least, ObjId(o));
        }
        Ok(least)
    }

    /// Searches on from an object, which no walk may have passed yet.
    fn search_from(&self, marks: &mut [u32], least: Option<ObjId>, o: ObjId) -> Option<ObjId>
        requires { IsSearched self.now marks.old least o.0 }
        ensures { IsSearched self.now marks.new result (o.0 + 1) }
    {
        if !self.is_live(o) || marks[o.0 as usize] != 0 {
            return least;
        }
        match self.mark_way(marks, o) {
            Some(on_cycle) => Some(lesser(least, self.least_around(on_cycle))),
            None => least,
        }
    }

    /// Walks up from an object, and marks what it passes with the object's number and one, until it comes to what is
    /// marked. Where that is of the walk itself, the way ends in a cycle, of which an object is answered.
    fn mark_way(&self, marks: &mut [u32], o: ObjId) -> Option<ObjId>
        requires live { IsLive self.now o.0 }
        requires new { slice_index marks.old o.0 ≡ 0 }
        requires marked { IsMarked self.now marks.old o.0 }
        ensures marked { IsMarked self.now marks.new (o.0 + 1) }
        ensures more { (x : ℕ) → 0 < slice_index marks.old x → 0 < slice_index marks.new x }
        ensures here { 0 < slice_index marks.new o.0 }
        ensures cycle { IfSome result (λ r. IsOnCycle self.now r.0) }
        ensures around { IfSome result (λ r. (x : ℕ) → IsPassedNow marks.old marks.new x → IsOnCycle self.now x → LeadsTo self.now r.0 x) }
        ensures none { IfNone result ((x : ℕ) → IsPassedNow marks.old marks.new x → ¬ IsOnCycle self.now x) }
    {
        // What every model keeps is known here.
        let _ = self.end();
        let stamp = o.0 + 1;
        marks[o.0 as usize] = stamp;
        let mut at = o;
        while let Some((container, _)) = self.container(at) {
            let mark = marks[container.0 as usize];
            if mark == stamp {
                return Some(container);
            }
            if mark != 0 {
                return None;
            }
            marks[container.0 as usize] = stamp;
            at = container;
        }
        None
    }

    /// The least object on the cycle on which an object lies.
    fn least_around(&self, o: ObjId) -> ObjId
        requires { IsOnCycle self.now o.0 }
        ensures cycle { IsOnCycle self.now result.0 }
        ensures least { (x : ℕ) → LeadsTo self.now o.0 x → result.0 ≤ x }
    {
        let mut least = o;
        let mut at = o;
        for _step in 0..self.end() {
            match self.container(at) {
                Some((container, _)) => {
                    if container.0 == o.0 {
                        return least;
                    }
                    least = lesser(Some(least), container);
                    at = container;
                }
                None => return least,
            }
        }
        least
    }
}

/// The breach of an object on a cycle.
fn cycle_at(object: ObjId) -> Breach
    ensures { result ≡ record { kind = BreachKind.ContainmentCycle; object = object; prop = None } }
{
    Breach {
        kind: BreachKind::ContainmentCycle,
        object,
        prop: None,
    }
}

/// The lesser of two objects, of which the first may lack.
fn lesser(first: Option<ObjId>, second: ObjId) -> ObjId
    ensures second { result.0 ≤ second.0 }
    ensures first { IfSome first (λ o. result.0 ≤ o.0) }
    ensures one { (result ≡ second) ⊎ (Some result ≡ first) }
{
    match first {
        Some(o) if o.0 < second.0 => o,
        _ => second,
    }
}

/// So many numbers, each of which is 0.
pub(super) fn zeros(alloc: Global, count: u32) -> Result<Vec<u32>, AllocError>
    ensures { IfOk result (λ v. v.items ≡ replicate count 0) }
{
    Vec::from_elem(alloc, 0, count as usize)
}
