ghost use Rattle.std.specs.Prelude.{◌≡◌, ℕ, IsTrue, ◌↔◌, OnOk, OnErr, Some, Contains};
ghost use Rattle.object_tables.specs.Models.{IsLive, class_at, IsLinked, IsReferenceOf, IsPartnerFor, IsFree, linked, unlinked};
ghost use Rattle.object_tables.specs.Tied.{near, far};

use crate::model::Model;
use crate::places::{far_place, near_place};
use crate::value::ObjId;
use mof_metamodel::{NoMemory, PropId};

impl<'m> Model<'m> {
    /// The places that a link of the property joins.
    fn ends(&self, p: PropId, a: ObjId, b: ObjId) -> (u32, u32)
        requires reference { IsReferenceOf self.now a.0 p.0 }
        requires live { IsLive self.now b.0 }
        ensures near { (c : ℕ) → class_at self.now a.0 ≡ Some c → result.0 ≡ near self.now.meta c p.0 }
        ensures far { (c : ℕ) → class_at self.now b.0 ≡ Some c → result.1 ≡ far self.now.meta c p.0 }
    {
        let near = near_place(self.meta, self.class_of(a), p);
        let far = far_place(self.meta, self.class_of(b), p);
        (near, far)
    }

    /// Whether an object is a partner of another at a reference. In the smaller of their numbers of partners there.
    pub fn linked(&self, p: PropId, a: ObjId, b: ObjId) -> bool
        requires reference { IsReferenceOf self.now a.0 p.0 }
        requires live { IsLive self.now b.0 }
        ensures { IsTrue result ↔ IsLinked self.now p.0 a.0 b.0 }
    {
        let (near, far) = self.ends(p, a, b);
        self.tables.is_joined(a.0, near, b.0, far)
    }

    /// Makes two objects a pair of the association of a reference: each stands last at the other. Without memory the model
    /// stays as it was.
    pub fn link(&mut self, p: PropId, a: ObjId, b: ObjId) -> Result<(), NoMemory>
        requires reference { IsReferenceOf self.old a.0 p.0 }
        requires partner { IsPartnerFor self.old p.0 b.0 }
        requires new { ¬ IsLinked self.old p.0 a.0 b.0 }
        requires free { IsFree self.old p.0 a.0 b.0 }
        ensures ok { OnOk result (self.new ≡ linked self.old p.0 a.0 b.0) }
        ensures err { OnErr result (self.new ≡ self.old) }
    {
        let (near, far) = self.ends(p, a, b);
        self.tables.join(a.0, near, b.0, far)?;
        Ok(())
    }

    /// Takes a pair out of the association of a reference. It takes no memory.
    pub fn unlink(&mut self, p: PropId, a: ObjId, b: ObjId)
        requires reference { IsReferenceOf self.old a.0 p.0 }
        requires live { IsLive self.old b.0 }
        requires pair { IsLinked self.old p.0 a.0 b.0 }
        ensures { self.new ≡ unlinked self.old p.0 a.0 b.0 }
    {
        let (near, far) = self.ends(p, a, b);
        self.tables.part(a.0, near, b.0, far);
    }
}
