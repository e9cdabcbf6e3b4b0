ghost use Rattle.std.specs.Prelude.{◌≡◌, All, ◌++◌, map};
ghost use Rattle.object_tables.specs.Tied.{class_in};
ghost use Rattle.object_tables.specs.Incoming.{IsOfProperty, prop_in, link_of};

use crate::tables::{Joined, Tables};
use crate::value::ObjId;
use mof_metamodel::{ClassId, MetaModel, PropId};
use std::marker::Model;

/// The links to an object by references without an opposite: the objects that have it as a partner, each with the reference
/// where it is one. Contracts see it as the list of those that are left.
#[derive(Drop)]
pub struct Incoming<'a> {
    meta: &'a MetaModel,
    tables: &'a Tables,
    /// Those of composite references.
    wholes: Joined<'a>,
    /// Those of others.
    others: Joined<'a>,
}

impl<'a> Model for Incoming<'a> {
    ghost use Rattle.std.specs.Prelude.{List, All, ◌++◌, map};
    ghost use Rattle.mof_metamodel.specs.declared.desc.PropId.{PropId};
    ghost use Rattle.object_tables.specs.declared.value.ObjId.{ObjId};

    ghost Value = { List (ObjId × PropId) };

    ghost use Rattle.object_tables.specs.Incoming.{IsOfProperty, link_of};

    ghost view = { λ i. map (link_of i.meta.now i.tables.now) (i.wholes ++ i.others) };

    ghost invariant = { λ i. All (IsOfProperty i.meta.now i.tables.now) (i.wholes ++ i.others) };
}

impl<'a> Incoming<'a> {
    /// The links of which these are the near ends, first those of composite references.
    pub(crate) fn new(
        meta: &'a MetaModel,
        tables: &'a Tables,
        wholes: Joined<'a>,
        others: Joined<'a>,
    ) -> Incoming<'a>
        requires { All (IsOfProperty meta.now tables.now) (wholes ++ others) }
        ensures { result ≡ map (link_of meta.now tables.now) (wholes.entry ++ others.entry) }
    {
        Incoming {
            meta,
            tables,
            wholes,
            others,
        }
    }
}

/// The property whose place it is.
fn property_at(meta: &MetaModel, tables: &Tables, place: (u32, u32)) -> PropId
    requires { IsOfProperty meta.now tables.now place }
    ensures { result.0 ≡ prop_in meta.now (class_in tables.now place.0) place.1 }
{
    match tables.named(place.0) {
        Some(named) => meta.props(ClassId(named.class))[place.1 as usize - 2],
        None => unreachable!(),
    }
}

impl<'a> Iterator for Incoming<'a> {
    type Item = (ObjId, PropId);

    ghost use Rattle.std.specs.Iterator.{YieldsFirst, item_count};

    ghost next_gives = { YieldsFirst (λ i. i) };

    ghost remaining = { item_count (λ i. i) };

    fn next(&mut self) -> Option<(ObjId, PropId)> {
        let place = match self.wholes.next() {
            Some(place) => place,
            None => match self.others.next() {
                Some(place) => place,
                None => return None,
            },
        };
        Some((ObjId(place.0), property_at(self.meta, self.tables, place)))
    }
}
