ghost use Rattle.std.specs.Prelude.{◌≡◌, IfOk};
ghost use Rattle.object_tables.specs.Sameness.{IsSame};

use crate::model::Model;
use mof_metamodel::{NoMemory, or_drop};
use std::alloc::Global;

impl<'m> Model<'m> {
    /// Another model of the same metamodel, whose objects have the same numbers. In time linear in the objects, their places,
    /// values and links.
    pub fn duplicate(&self, alloc: Global) -> Result<Model<'m>, NoMemory>
        ensures equal { IfOk result (λ copy. copy ≡ self.now) }
        ensures same { IfOk result (λ copy. IsSame self.now copy) }
    {
        let tables = self.tables.duplicate(alloc)?;
        let identifiers = or_drop!(self.identifiers.duplicate(alloc); tables);
        Ok(Model {
            meta: self.meta,
            tables,
            identifiers,
            live: self.live,
            alloc,
        })
    }
}
