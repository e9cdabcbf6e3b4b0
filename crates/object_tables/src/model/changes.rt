ghost use Rattle.std.specs.Prelude.{◌≡◌, ◌<◌, suc, length, IsTrue, IfOk, IfErr, OnErr};
ghost use Rattle.mof_metamodel.specs.Characters.{is_identifier_text};
ghost use Rattle.mof_metamodel.specs.Metamodels.{class_count, props_of};
ghost use Rattle.object_tables.specs.Models.{IsAttributeOf, IsSlotOf, IsLive, with_values, added, deleted, IsAddable};
ghost use Rattle.object_tables.specs.AddFaults.{IsAddFault};

use crate::fault::AddFault;
use crate::limit::{MAX_ADDED, MAX_OBJECTS};
use crate::model::Model;
use crate::places::{near_place, place_count};
use crate::tables::Named;
use crate::value::{ObjId, Value};
use mof_metamodel::{ClassId, PropId, Seq, Text};

impl<'m> Model<'m> {
    /// Adds an object of a class, with no values and no partners. After a refusal, and without memory, the model stays as it was.
    pub fn add(&mut self, class: ClassId, id: Text) -> Result<ObjId, AddFault>
        requires class { class.0 < class_count self.old.meta }
        requires identifier { IsTrue (is_identifier_text id) }
        ensures ok { IfOk result (λ o. (o.0 ≡ length self.old.objects) × (self.new ≡ added self.old class.0 id)) }
        ensures causes_ok { IfOk result (λ _. IsAddable self.old class.0 id) }
        ensures causes { IfErr result (IsAddFault self.old class.0 id) }
        ensures err { OnErr result (self.new ≡ self.old) }
    {
        if self.live >= MAX_OBJECTS || self.tables.len() >= MAX_ADDED {
            return Err(AddFault::Limit);
        }
        if self.meta.is_abstract(class) {
            return Err(AddFault::Abstract);
        }
        if self.by_id(id.as_str()).is_some() {
            return Err(AddFault::DuplicateId);
        }
        let count = place_count(self.meta, class);
        self.enter(class, id, count)
    }

    /// Replaces the values of an object at an attribute. It takes no memory.
    pub fn set_attr(&mut self, o: ObjId, p: PropId, values: Seq<Value>)
        requires attribute { IsAttributeOf self.old o.0 p.0 }
        requires slot { IsSlotOf self.old.meta p.0 values }
        ensures { self.new ≡ with_values self.old o.0 p.0 values }
    {
        let place = near_place(self.meta, self.class_of(o), p);
        self.tables.set_values(o.0, place, values);
    }

    /// Removes an object, after all pairs that it stands in. What it contained becomes top. It takes no memory.
    pub fn delete(&mut self, o: ObjId)
        requires { IsLive self.old o.0 }
        ensures { self.new ≡ deleted self.old o.0 }
    {
        self.tables.clear(o.0);
        self.tables.forget(o.0);
        self.live -= 1;
    }

    /// Enters an object and its identifier.
    fn enter(&mut self, class: ClassId, id: Text, count: u32) -> Result<ObjId, AddFault>
        requires class { class.0 < class_count self.old.meta }
        requires identifier { IsTrue (is_identifier_text id) }
        requires addable { IsAddable self.old class.0 id }
        requires count { count ≡ suc (suc (length (props_of self.old.meta class.0))) }
        ensures ok { IfOk result (λ o. (o.0 ≡ length self.old.objects) × (self.new ≡ added self.old class.0 id)) }
        ensures memory { IfErr result (λ e. e ≡ AddFault.NoMemory) }
        ensures err { OnErr result (self.new ≡ self.old) }
    {
        let number = self.tables.len() as u32;
        let Ok(()) = self.identifiers.enter(&self.tables, id.as_str(), number) else {
            return Err(AddFault::NoMemory);
        };
        let class = class.0;
        match self.tables.add(Named { class, id }, count) {
            Ok(()) => {
                self.live += 1;
                Ok(ObjId(number))
            }
            Err(_) => Err(AddFault::NoMemory),
        }
    }
}
