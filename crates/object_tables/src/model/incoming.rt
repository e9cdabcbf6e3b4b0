ghost use Rattle.std.specs.Prelude.{ℕ, ◌≢◌, All, AllPairs, Contains};
ghost use Rattle.object_tables.specs.Models.{IsLive};
ghost use Rattle.object_tables.specs.Incoming.{IsIncoming};

use crate::incoming::Incoming;
use crate::model::Model;
use crate::value::ObjId;

impl<'m> Model<'m> {
    /// The links to an object by references without an opposite, each once, those of composite references first. In time
    /// linear in their number.
    pub fn incoming(&self, o: ObjId) -> Incoming<'_>
        requires { IsLive self.now o.0 }
        ensures only { All (λ l. IsIncoming self.now o.0 l.0.0 l.1.0) result }
        ensures all { (a p : ℕ) → IsIncoming self.now o.0 a p → Contains result (record { 0 = a }, record { 0 = p }) }
        ensures once { AllPairs (λ k l. k ≢ l) result }
    {
        self.tables.look();
        Incoming::new(
            self.meta,
            &self.tables,
            self.tables.joined(o.0, 0),
            self.tables.joined(o.0, 1),
        )
    }
}
