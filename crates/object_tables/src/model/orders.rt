ghost use Rattle.std.specs.Prelude.{◌≡◌, map, IsPermutation};
ghost use Rattle.object_tables.specs.Models.{IsReferenceOf, partners_at, with_order};

use crate::model::Model;
use crate::places::near_place;
use crate::value::ObjId;
use mof_metamodel::PropId;

impl<'m> Model<'m> {
    /// Puts the partners of an object at a reference in another order. The order at the other end stays. It takes no memory.
    pub fn set_order(&mut self, p: PropId, a: ObjId, order: &[ObjId])
        requires reference { IsReferenceOf self.old a.0 p.0 }
        requires partners { IsPermutation (map (λ b. b.0) order.now) (partners_at self.old a.0 p.0) }
        ensures { self.new ≡ with_order self.old a.0 p.0 (map (λ b. b.0) order.now) }
    {
        let place = near_place(self.meta, self.class_of(a), p);
        self.tables.set_order(a.0, place, order);
    }
}
