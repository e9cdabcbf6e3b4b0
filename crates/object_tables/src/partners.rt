ghost use Rattle.std.specs.Prelude.{◌≡◌, ◌≤◌, length, take};

use crate::tables::Joined;
use crate::value::ObjId;
use mof_metamodel::{NoMemory, Seq};
use std::marker::Model;

/// The partners of an object at a reference, each once and in their order. Contracts see it as the list of those that are left.
#[derive(Drop)]
pub struct Partners<'a> {
    joined: Joined<'a>,
}

impl<'a> Model for Partners<'a> {
    ghost use Rattle.std.specs.Prelude.{List, map};
    ghost use Rattle.object_tables.specs.declared.value.ObjId.{ObjId};
    ghost use Rattle.object_tables.specs.Ids.{object_ids};

    ghost Value = { List ObjId };

    ghost view = { λ p. object_ids (map (λ e. e.0) p.joined) };
}

impl<'a> Partners<'a> {
    ghost use Rattle.std.specs.Prelude.{◌≡◌, ◌++◌, map, take, OnOk, OnErr};
    ghost use Rattle.object_tables.specs.Ids.{object_ids};

    /// The objects of the places that a place is joined to.
    pub(crate) fn new(joined: Joined<'a>) -> Partners<'a>
        ensures { result ≡ object_ids (map (λ e. e.0) joined.entry) }
    {
        Partners { joined }
    }

    /// Puts the partners that are left behind the others of `out`, in their order. After `NoMemory` `out` is as it was.
    pub fn collect_into(self, out: &mut Seq<ObjId>) -> Result<(), NoMemory>
        ensures ok { OnOk result (out.new ≡ out.old ++ self.entry) }
        ensures err { OnErr result (out.new ≡ out.old) }
    {
        let count = out.len();
        let mut left = self;
        while let Some(partner) = left.next() {
            if out.push(partner).is_err() {
                shorten(out, count);
                return Err(NoMemory);
            }
        }
        Ok(())
    }
}

impl<'a> Iterator for Partners<'a> {
    type Item = ObjId;

    ghost use Rattle.std.specs.Iterator.{YieldsFirst, item_count};

    ghost next_gives = { YieldsFirst (λ p. p) };

    ghost remaining = { item_count (λ p. p) };

    fn next(&mut self) -> Option<ObjId> {
        match self.joined.next() {
            Some((object, _)) => Some(ObjId(object)),
            None => None,
        }
    }
}

// leaves the first of them
fn shorten(objects: &mut Seq<ObjId>, count: usize)
    requires { count ≤ length objects.old }
    ensures { objects.new ≡ take count objects.old }
{
    while objects.len() > count {
        let _ = objects.pop();
    }
}
