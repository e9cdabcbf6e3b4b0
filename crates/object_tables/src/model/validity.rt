ghost use Rattle.std.specs.Prelude.{◌≡◌, ℕ, ◌<◌, ◌↔◌, IsTrue, IfSome, IfNone};
ghost use Rattle.object_tables.specs.Models.{IsLive};
ghost use Rattle.object_tables.specs.Containment.{IsOnCycle, IsAcyclic};
ghost use Rattle.object_tables.specs.Places.{IsPlaceOf};
ghost use Rattle.object_tables.specs.Validity.{count_at, KeepsBounds, IsBrokenAt, IsLeastOnCycle, IsFirstBreach, Valid};

use crate::breach::{Breach, BreachKind};
use crate::model::Model;
use crate::value::ObjId;
use mof_metamodel::{PropId, PropType};

impl<'m> Model<'m> {
    /// The first breach of a rule, or none where the model is valid. A bound comes before a cycle, and bounds by objects, in an
    /// object by its properties in class order, the lower one before the upper one; of the objects that lie on a cycle of
    /// containers the least is answered.
    ///
    /// It takes no memory. The bounds take constant time for each property of each object. For cycles it walks from each object
    /// up its containers, as long as their numbers are greater than its own: one step for each object where containers come
    /// before what they contain, at worst the square of the number of objects. A step takes what `container` takes.
    pub fn validity(&self) -> Option<Breach>
        ensures breach { IfSome result (λ b. IsFirstBreach self.now b) }
        ensures valid { IfNone result (Valid self.now) }
    {
        match self.broken_bound() {
            Some(breach) => Some(breach),
            None => {
                // What every model keeps is known here.
                let _ = self.end();
                let object = self.least_on_cycle()?;
                Some(Breach {
                    kind: BreachKind::ContainmentCycle,
                    object,
                    prop: None,
                })
            }
        }
    }

    /// The first bound that is broken.
    pub(super) fn broken_bound(&self) -> Option<Breach>
        ensures breach { IfSome result (λ b. IsFirstBreach self.now b) }
        ensures none { IfNone result ((o p : ℕ) → KeepsBounds self.now o p) }
    {
        for o in 0..self.end() {
            let o = ObjId(o);
            if self.is_live(o) {
                if let Some(breach) = self.broken_bound_of(o) {
                    return Some(breach);
                }
            }
        }
        None
    }

    /// The first bound that is broken at an object, where none is at those before it.
    fn broken_bound_of(&self, o: ObjId) -> Option<Breach>
        requires live { IsLive self.now o.0 }
        requires before { (a p : ℕ) → a < o.0 → KeepsBounds self.now a p }
        ensures breach { IfSome result (λ b. IsFirstBreach self.now b) }
        ensures none { IfNone result ((p : ℕ) → KeepsBounds self.now o.0 p) }
    {
        for (i, p) in self.meta.props(self.class_of(o)).iter().enumerate() {
            if let Some(kind) = self.broken_bound_at(o, *p, i as u32 + 2) {
                return Some(Breach {
                    kind,
                    object: o,
                    prop: Some(*p),
                });
            }
        }
        None
    }

    /// Which bound is broken at a property of an object, which has this place: the lower one before the upper one.
    fn broken_bound_at(&self, o: ObjId, p: PropId, place: u32) -> Option<BreachKind>
        requires { IsPlaceOf self.now o.0 p.0 place }
        ensures broken { IfSome result (λ kind. IsBrokenAt self.now kind o.0 p.0) }
        ensures none { IfNone result (KeepsBounds self.now o.0 p.0) }
    {
        let count = self.count_at(o, p, place);
        let (lower, upper) = self.meta.bounds(p);
        if count < lower as usize {
            return Some(BreachKind::Lower);
        }
        match upper {
            Some(upper) if count > upper as usize => Some(BreachKind::Upper),
            _ => None,
        }
    }

    /// How many partners an object has at a reference, or values at an attribute, which has this place.
    fn count_at(&self, o: ObjId, p: PropId, place: u32) -> usize
        requires { IsPlaceOf self.now o.0 p.0 place }
        ensures { result ≡ count_at self.now o.0 p.0 }
    {
        match self.meta.prop(p).ty {
            PropType::Class(_) => self.tables.degree(o.0, place),
            _ => self.tables.values(o.0, place).len(),
        }
    }

    /// The least object on a cycle of containers.
    pub fn least_on_cycle(&self) -> Option<ObjId>
        ensures least { IfSome result (λ o. IsLeastOnCycle self.now o.0) }
        ensures none { IfNone result (IsAcyclic self.now) }
    {
        for o in 0..self.end() {
            let o = ObjId(o);
            if self.is_live(o) && self.is_on_cycle(o) {
                return Some(o);
            }
        }
        None
    }

    /// Whether an object lies on a cycle of containers, where none before it does. So the walk up ends at a container before it.
    fn is_on_cycle(&self, o: ObjId) -> bool
        requires live { IsLive self.now o.0 }
        requires before { (a : ℕ) → a < o.0 → ¬ IsOnCycle self.now a }
        ensures { IsTrue result ↔ IsOnCycle self.now o.0 }
    {
        let mut at = o;
        for _step in 0..self.end() {
            match self.container(at) {
                Some((container, _)) => {
                    if container.0 == o.0 {
                        return true;
                    }
                    if container.0 < o.0 {
                        return false;
                    }
                    at = container;
                }
                None => return false,
            }
        }
        false
    }
}
