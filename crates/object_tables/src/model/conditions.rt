ghost use Rattle.std.specs.Prelude.{◌≡◌, ◌↔◌, IsTrue, Some, true};
ghost use Rattle.mof_metamodel.specs.Metamodels.{type_of, prop_at, IsTypeOf};
ghost use Rattle.object_tables.specs.Models.{is_class_type, IsLive, IsReferenceOf, IsAttributeOf, IsPartnerFor, IsTop, IsFree};
ghost use Rattle.object_tables.specs.Places.{IsOfClass, IsOpposedByWhole};
ghost use Rattle.object_tables.specs.Validity.{IsPropertyOf};

use crate::model::Model;
use crate::value::ObjId;
use mof_metamodel::{ClassId, PropId, PropType};

/// The tests of what the edits ask of their caller.
impl<'m> Model<'m> {
    /// Whether a number has an object, and a property is one of its class, inherited ones included.
    pub fn has_property(&self, o: ObjId, p: PropId) -> bool
        ensures { IsTrue result ↔ IsPropertyOf self.now o.0 p.0 }
    {
        if !self.is_live(o) {
            return false;
        }
        self.meta().place_of(self.class_of(o), p).is_some()
    }

    /// The same, and whether the property is a reference.
    pub fn has_reference(&self, o: ObjId, p: PropId) -> bool
        ensures { IsTrue result ↔ IsReferenceOf self.now o.0 p.0 }
    {
        if !self.has_property(o, p) {
            return false;
        }
        is_class(self.type_at(o, p))
    }

    /// The same, and whether the property is an attribute.
    pub fn has_attribute(&self, o: ObjId, p: PropId) -> bool
        ensures { IsTrue result ↔ IsAttributeOf self.now o.0 p.0 }
    {
        if !self.has_property(o, p) {
            return false;
        }
        !is_class(self.type_at(o, p))
    }

    /// Whether `b` may be a partner of `a` at a reference: whether it has an object, of a class that conforms to the
    /// reference's type.
    pub fn may_be_partner(&self, p: PropId, a: ObjId, b: ObjId) -> bool
        requires { IsReferenceOf self.now a.0 p.0 }
        ensures { IsTrue result ↔ IsPartnerFor self.now p.0 b.0 }
    {
        match self.type_at(a, p) {
            PropType::Class(class) => self.is_of_class(b, class),
            _ => unreachable!(),
        }
    }

    /// Whether nothing contains an object. In the number of properties of its class.
    pub fn is_top(&self, o: ObjId) -> bool
        requires { IsLive self.now o.0 }
        ensures { IsTrue result ↔ IsTop self.now o.0 }
    {
        match self.container(o) {
            Some(_) => false,
            None => true,
        }
    }

    /// Whether a link of `a` and `b` would give no object a second container. In the number of properties of their classes.
    pub fn is_free(&self, p: PropId, a: ObjId, b: ObjId) -> bool
        requires reference { IsReferenceOf self.now a.0 p.0 }
        requires live { IsLive self.now b.0 }
        ensures { IsTrue result ↔ IsFree self.now p.0 a.0 b.0 }
    {
        if !self.may_be_part(self.is_composite_at(a, p), b) {
            return false;
        }
        self.may_be_part(self.is_part_at(a, p), a)
    }

    /// Whether an object may become a part, if it would.
    fn may_be_part(&self, would: bool, o: ObjId) -> bool
        requires { IsLive self.now o.0 }
        ensures { IsTrue result ↔ (would ≡ true → IsTop self.now o.0) }
    {
        if !would {
            return true;
        }
        self.is_top(o)
    }

    /// Whether a number has an object of a class that conforms to this one.
    fn is_of_class(&self, o: ObjId, class: ClassId) -> bool
        ensures { IsTrue result ↔ IsOfClass self.now o.0 class.0 }
    {
        if !self.is_live(o) {
            return false;
        }
        self.meta().conforms(self.class_of(o), class)
    }

    /// The type of a property of an object.
    pub(super) fn type_at(&self, o: ObjId, p: PropId) -> PropType
        requires { IsPropertyOf self.now o.0 p.0 }
        ensures type_is { type_of self.now.meta p.0 ≡ Some result }
        ensures within { IsTypeOf self.now.meta result }
    {
        self.meta().prop(p).ty
    }

    /// Whether a property of an object is composite.
    fn is_composite_at(&self, o: ObjId, p: PropId) -> bool
        requires { IsPropertyOf self.now o.0 p.0 }
        ensures { result ≡ (prop_at self.now.meta p.0).composite }
    {
        self.meta().prop(p).composite
    }

    /// Whether the opposite of a property of an object is composite.
    fn is_part_at(&self, o: ObjId, p: PropId) -> bool
        requires { IsPropertyOf self.now o.0 p.0 }
        ensures { IsTrue result ↔ IsOpposedByWhole self.now.meta p.0 }
    {
        match self.meta().opposite(p) {
            Some(q) => self.meta().prop(q).composite,
            None => false,
        }
    }
}

/// Whether a property of this type is a reference.
fn is_class(ty: PropType) -> bool
    ensures { result ≡ is_class_type (Some ty) }
{
    match ty {
        PropType::Class(_) => true,
        _ => false,
    }
}
