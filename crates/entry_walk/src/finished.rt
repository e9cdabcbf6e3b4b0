ghost use Rattle.std.specs.Prelude.{◌≡◌, ◌<◌, ◌++◌, ◌∷◌, [], length, Some, slice_get, MatchOption, IfOk, OnOk, OnErr};
ghost use Rattle.std.specs.BTreeMap.{IsUnchanged, Updates};
ghost use Rattle.entry_walk.specs.CallOrder.{key_order};
ghost use Rattle.entry_walk.specs.FinishedTables.{IsFinishedAt, IsUnfinished};

use crate::call_key::CallKey;
use crate::copying::duplicate_call;
use entry_finding::NumberedEntry;
use entry_making::NumberedCall;
use mof_metamodel::{NoMemory, Seq};
use std::alloc::Global;
use std::collections::BTreeMap;
use std::marker::Model;

/// A call that has been walked, with all that is behind it.
#[derive(Drop)]
pub(crate) struct Finished {
    pub(crate) call: NumberedCall,
    /// Its entries.
    pub(crate) entries: Seq<NumberedEntry>,
    /// How many calls a chain has behind it at most.
    pub(crate) height: usize,
    /// The place of a call that one of its entries makes with the greatest height, if they make any.
    pub(crate) behind: Option<usize>,
}

/// Calls that have been walked. Contracts see it as their list. They are looked up in an order, so that no choice of roots makes that
/// slow.
#[derive(Drop)]
pub(crate) struct FinishedTable {
    items: Vec<Finished>,
    places: BTreeMap<CallKey, usize>,
}

impl Model for FinishedTable {
    ghost use Rattle.std.specs.Prelude.{List};
    ghost use Rattle.entry_walk.specs.declared.finished.Finished.{Finished};
    ghost use Rattle.entry_walk.specs.FinishedTables.{IsIndexed};

    ghost Value = { List Finished };

    ghost view = { λ t. t.items.items };

    ghost invariant = { λ t. IsIndexed t.items.items t.places.entries };
}

impl FinishedTable {
    /// Without calls. It takes no memory.
    pub(crate) fn new(alloc: Global) -> FinishedTable
        ensures { result ≡ [] }
    {
        FinishedTable {
            items: Vec::new(alloc),
            places: BTreeMap::new(alloc),
        }
    }

    /// The place of a call, if it is here.
    pub(crate) fn place_of(
        &self,
        alloc: Global,
        call: &NumberedCall,
    ) -> Result<Option<usize>, NoMemory>
        ensures { IfOk result (λ place. MatchOption place (IsUnfinished self.now call.now) (λ n. IsFinishedAt self.now n call.now)) }
    {
        let call = duplicate_call(alloc, call)?;
        Ok(self.places.get(&CallKey { call }).copied())
    }

    /// The call at a place.
    pub(crate) fn at(&self, place: usize) -> &Finished
        requires { place < length self.now }
        ensures { slice_get self.now place ≡ Some result.now }
    {
        &self.items[place]
    }

    /// Puts a call behind the others that isn't among them, and answers its place.
    pub(crate) fn add(&mut self, alloc: Global, one: Finished) -> Result<usize, NoMemory>
        requires { IsUnfinished self.old one.call }
        ensures place { IfOk result (λ n. n ≡ length self.old) }
        ensures added { OnOk result (self.new ≡ self.old ++ one ∷ []) }
    {
        let call = duplicate_call(alloc, &one.call)?;
        keep(&mut self.items, &mut self.places, one, CallKey { call })
    }

    /// The calls in the order in which they were put there.
    pub(crate) fn into_items(self) -> Vec<Finished>
        ensures { result.items ≡ self }
    {
        let FinishedTable { items, places } = self;
        drop(places);
        items
    }
}

/// Puts a call behind the others, with its place. After `NoMemory` both are as they were.
fn keep(
    items: &mut Vec<Finished>,
    places: &mut BTreeMap<CallKey, usize>,
    one: Finished,
    key: CallKey,
) -> Result<usize, NoMemory>
    ensures place { IfOk result (λ n. n ≡ length items.old.items) }
    ensures items { OnOk result (items.new.items ≡ items.old.items ++ one ∷ []) }
    ensures places { OnOk result (Updates key_order places.old places.new key (Some (length items.old.items))) }
    ensures same_items { OnErr result (items.new.items ≡ items.old.items) }
    ensures same_places { OnErr result (IsUnchanged places.old places.new) }
{
    let place = items.len();
    items.push(one)?;
    match places.insert(key, place) {
        Ok(_) => Ok(place),
        Err(_) => {
            items.pop();
            Err(NoMemory)
        }
    }
}
