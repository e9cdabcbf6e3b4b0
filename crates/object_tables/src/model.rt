ghost use Rattle.std.specs.Prelude.{false, ◌≡◌, ◌≢◌, ℕ, ◌+◌, ◌<◌, ◌≤◌, ◌^◌, List, [], ◌∷◌, ◌++◌, length, map, ◌↔◌, IsTrue, IsSome, IfOk, OnOk, OnErr, IfSome, IfNone, Contains, Option, Some, None, chars, count_by, is_some, All};
ghost use Rattle.mof_metamodel.specs.Metamodels.{class_count, class_at as meta_class};
ghost use Rattle.object_tables.specs.Ids.{object_ids};
ghost use Rattle.object_tables.specs.declared.limit.TheConstants.{MAX_OBJECTS};
ghost use Rattle.object_tables.specs.Kept.{Kept};
ghost use Rattle.object_tables.specs.Models.{object_at, IsLive, class_at, id_at, values_at, partners_at, IsLinked, IsReferenceOf, IsAttributeOf, live_count};

mod changes;
mod conditions;
mod containment;
mod contents;
mod copies;
mod cycles;
mod depths;
mod incoming;
mod links;
mod orders;
mod validity;

use crate::identifiers::Identifiers;
use crate::keys::HashKey;
use crate::partners::Partners;
use crate::places::{far_place, near_place};
use crate::tables::Tables;
use crate::value::{ObjId, Value};
use mof_metamodel::{ClassId, MetaModel, NoMemory, PropId, Seq, Text};
use std::alloc::{AllocError, Global};

/// Objects of a metamodel's classes, their attribute values and their links (MOF 2.5.1, Reflection).
#[derive(Drop)]
pub struct Model<'m> {
    meta: &'m MetaModel,
    tables: Tables,
    identifiers: Identifiers,
    live: u32,
    alloc: Global,
}

impl<'m> std::marker::Model for Model<'m> {
    ghost use Rattle.std.specs.Prelude.{map};
    ghost use Rattle.object_tables.specs.Identifiers.{Finds};
    ghost use Rattle.object_tables.specs.Models.{ModelData};
    ghost use Rattle.object_tables.specs.Objects.{object_of};
    ghost use Rattle.object_tables.specs.Whole.{IsWhole};

    ghost Value = { ModelData };

    ghost view = { λ m. record { meta = m.meta.now; objects = map object_of m.tables } };

    ghost invariant = { λ m. IsWhole m.meta.now m.tables (Finds m.identifiers) m.live };
}

impl<'m> Model<'m> {
    /// A model without an object, whose identifiers come from no stranger. It takes no memory.
    pub fn new(alloc: Global, meta: &'m MetaModel) -> Model<'m>
        ensures { result ≡ record { meta = meta.now; objects = [] } }
    {
        Model::keyed(alloc, meta, HashKey::none())
    }

    /// A model without an object, whose identifiers are hashed after a key. It takes no memory.
    pub fn keyed(alloc: Global, meta: &'m MetaModel, key: HashKey) -> Model<'m>
        ensures { result ≡ record { meta = meta.now; objects = [] } }
    {
        let _ = meta.class_count();
        Model {
            meta,
            tables: Tables::new(alloc),
            identifiers: Identifiers::new(alloc, key),
            live: 0,
            alloc,
        }
    }

    /// The metamodel.
    pub fn meta(&self) -> &'m MetaModel
        ensures { result.now ≡ self.now.meta }
    {
        self.meta
    }

    /// How many objects are live.
    pub fn len(&self) -> u32
        ensures { result ≡ live_count self.now }
    {
        self.live
    }

    /// The number that the next object gets. A caller also learns here what every model keeps, and that no more objects are
    /// live than a model may have.
    pub fn end(&self) -> u32
        ensures number { result ≡ length self.now.objects }
        ensures kept { Kept self.now }
        ensures few { live_count self.now ≤ MAX_OBJECTS }
    {
        self.tables.len() as u32
    }

    /// Whether the number has an object.
    pub fn is_live(&self, o: ObjId) -> bool
        ensures { IsTrue result ↔ IsLive self.now o.0 }
    {
        self.tables.named(o.0).is_some()
    }

    /// The class of an object.
    pub fn class_of(&self, o: ObjId) -> ClassId
        requires { IsLive self.now o.0 }
        ensures class { class_at self.now o.0 ≡ Some result.0 }
        ensures within { result.0 < class_count self.now.meta }
        ensures concrete { (meta_class self.now.meta result.0).is_abstract ≡ false }
    {
        match self.tables.named(o.0) {
            Some(named) => ClassId(named.class),
            None => unreachable!(),
        }
    }

    /// The identifier of an object.
    pub fn id_of(&self, o: ObjId) -> &str
        requires { IsLive self.now o.0 }
        ensures { id_at self.now o.0 ≡ Some (chars result.now) }
    {
        match self.tables.named(o.0) {
            Some(named) => named.id.as_str(),
            None => unreachable!(),
        }
    }

    /// The object that has the identifier.
    pub fn by_id(&self, id: &str) -> Option<ObjId>
        ensures found { IfSome result (λ o. id_at self.now o.0 ≡ Some (chars id.now)) }
        ensures live { IfSome result (λ o. IsLive self.now o.0) }
        ensures none { IfNone result ((o : ℕ) → id_at self.now o ≢ Some (chars id.now)) }
    {
        match self.identifiers.find(&self.tables, id) {
            Some(o) => Some(ObjId(o)),
            None => None,
        }
    }

    /// The values of an object at an attribute.
    pub fn attr(&self, o: ObjId, p: PropId) -> &[Value]
        requires { IsAttributeOf self.now o.0 p.0 }
        ensures { result.now ≡ values_at self.now o.0 p.0 }
    {
        let place = near_place(self.meta, self.class_of(o), p);
        self.tables.values(o.0, place)
    }

    /// The partners of an object at a reference, in their order.
    pub fn partners(&self, o: ObjId, p: PropId) -> Partners<'_>
        requires { IsReferenceOf self.now o.0 p.0 }
        ensures list { result ≡ object_ids (partners_at self.now o.0 p.0) }
        ensures live { All (IsLive self.now) (partners_at self.now o.0 p.0) }
    {
        let place = near_place(self.meta, self.class_of(o), p);
        Partners::new(self.tables.joined(o.0, place))
    }

    /// How many partners an object has at a reference.
    pub fn partner_count(&self, o: ObjId, p: PropId) -> usize
        requires { IsReferenceOf self.now o.0 p.0 }
        ensures { result ≡ length (partners_at self.now o.0 p.0) }
    {
        let place = near_place(self.meta, self.class_of(o), p);
        self.tables.degree(o.0, place)
    }
}
