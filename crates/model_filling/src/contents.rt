ghost use Rattle.std.specs.Prelude.{◌≡◌, IfOk, map};
ghost use Rattle.object_tables.specs.Models.{ModelData, IsAttributeOf, IsReferenceOf, values_at, partners_at};

use mof_metamodel::{NoMemory, PropId, Seq};
use object_tables::{ObjId, Value};

/// What the objects of a model hold (MOF 2.5.1, Reflection), told slot by slot.
pub trait Contents {
    /// The model whose contents these are.
    ghost held: { Self → ModelData };

    /// The values of an object at an attribute.
    fn values(&self, o: ObjId, p: PropId) -> Result<Seq<Value>, NoMemory>
        requires { IsAttributeOf (held self.now) o.0 p.0 }
        ensures { IfOk result (λ values. values ≡ values_at (held self.now) o.0 p.0) };

    /// The partners of an object at a reference, in their order.
    fn partners(&self, o: ObjId, p: PropId) -> Result<Seq<ObjId>, NoMemory>
        requires { IsReferenceOf (held self.now) o.0 p.0 }
        ensures { IfOk result (λ partners. map (λ b. b.0) partners ≡ partners_at (held self.now) o.0 p.0) };
}
