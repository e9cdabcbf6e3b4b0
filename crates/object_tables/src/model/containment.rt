ghost use Rattle.std.specs.Prelude.{◌≡◌, ℕ, IfSome, IfNone, Some, None};
ghost use Rattle.mof_metamodel.specs.Metamodels.{opposite_of};
ghost use Rattle.object_tables.specs.Models.{IsLive, IsTop, IsContainedIn, IsReferenceOf};
ghost use Rattle.object_tables.specs.Places.{IsPlaceOf};

use crate::model::Model;
use crate::value::ObjId;
use mof_metamodel::PropId;

impl<'m> Model<'m> {
    /// The object that contains an object, and the property by which. None for a top object. In the number of properties of
    /// the object's class.
    pub fn container(&self, o: ObjId) -> Option<(ObjId, PropId)>
        requires { IsLive self.now o.0 }
        ensures contained { IfSome result (λ r. IsContainedIn self.now o.0 r.0.0 r.1.0) }
        ensures reference { IfSome result (λ r. IsReferenceOf self.now r.0.0 r.1.0) }
        ensures live { IfSome result (λ r. IsLive self.now r.0.0) }
        ensures top { IfNone result (IsTop self.now o.0) }
    {
        let _ = self.end();
        match self.nameless_container(o) {
            Some(found) => Some(found),
            None => self.named_container(o),
        }
    }

    /// The container by a reference without an opposite.
    fn nameless_container(&self, o: ObjId) -> Option<(ObjId, PropId)>
        requires { IsLive self.now o.0 }
        ensures contained { IfSome result (λ r. IsContainedIn self.now o.0 r.0.0 r.1.0) }
        ensures none { IfNone result ((a p : ℕ) → opposite_of self.now.meta p ≡ None → IsContainedIn self.now o.0 a p → ⊥) }
    {
        self.tables.look();
        match self.tables.joined(o.0, 0).next() {
            Some((object, place)) => {
                let object = ObjId(object);
                let props = self.meta.props(self.class_of(object));
                Some((object, props[place as usize - 2]))
            }
            None => None,
        }
    }

    /// The container by a reference whose opposite the object has.
    fn named_container(&self, o: ObjId) -> Option<(ObjId, PropId)>
        requires { IsLive self.now o.0 }
        ensures contained { IfSome result (λ r. IsContainedIn self.now o.0 r.0.0 r.1.0) }
        ensures none { IfNone result ((a p q : ℕ) → opposite_of self.now.meta p ≡ Some q → IsContainedIn self.now o.0 a p → ⊥) }
    {
        for (i, q) in self.meta.props(self.class_of(o)).iter().enumerate() {
            if let Some(found) = self.container_at(o, *q, i as u32 + 2) {
                return Some(found);
            }
        }
        None
    }

    /// The container by the opposite of a property of the object, which has this place.
    fn container_at(&self, o: ObjId, q: PropId, place: u32) -> Option<(ObjId, PropId)>
        requires { IsPlaceOf self.now o.0 q.0 place }
        ensures contained { IfSome result (λ r. IsContainedIn self.now o.0 r.0.0 r.1.0) }
        ensures none { IfNone result ((a p : ℕ) → opposite_of self.now.meta p ≡ Some q.0 → IsContainedIn self.now o.0 a p → ⊥) }
    {
        let p = self.meta.opposite(q)?;
        if !self.meta.prop(p).composite {
            return None;
        }
        let (object, _) = self.tables.joined(o.0, place).next()?;
        Some((ObjId(object), p))
    }
}
