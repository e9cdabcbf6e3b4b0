ghost use Rattle.std.specs.Prelude.{◌≡◌, ◌≢◌, ℕ, ◌+◌, ◌<◌, ◌≤◌, ◌^◌, List, [], ◌∷◌, ◌++◌, length, replicate, slice_index, slice_index_or, slice_set, OnOk, OnErr, IfOk};
ghost use Rattle.std.specs.Vec.{vec_len, vec_capacity};

use crate::value::Value;
use mof_metamodel::{NoMemory, Seq, or_drop};
use std::alloc::{AllocError, Global};
use std::marker::Model;

/// The values of places, by the numbers of the places. A place without values costs four bytes, and the room that is kept
/// for its values isn't touched before they come.
#[derive(Drop)]
pub(crate) struct Stored {
    /// For each place the number of its values, or 0.
    index: Vec<u32>,
    /// The first are none.
    lists: Vec<Seq<Value>>,
    alloc: Global,
}

impl Model for Stored {
    ghost use Rattle.object_tables.specs.Stored.{Lists};

    ghost Value = { Lists };

    ghost use Rattle.std.specs.Vec.{vec_capacity};
    ghost use Rattle.object_tables.specs.Stored.{stored, IsStored};

    ghost view = { λ s. stored s.index.items s.lists.items };

    ghost invariant = { λ s. IsStored s.index.items s.lists.items (vec_capacity s.lists) };
}

impl Stored {
    /// The values of no place. They take no memory.
    pub(crate) fn new(alloc: Global) -> Stored
        ensures { result ≡ [] }
    {
        Stored {
            index: Vec::new(alloc),
            lists: Vec::new(alloc),
            alloc,
        }
    }

    /// The values of a place.
    pub(crate) fn at(&self, n: u32) -> &[Value]
        requires { n < length self.now }
        ensures { result.now ≡ slice_index_or self.now n [] }
    {
        list_at(&self.lists, self.index[n as usize])
    }

    /// Puts values at a place, in the stead of those that were there. It takes no memory.
    pub(crate) fn put(&mut self, n: u32, values: Seq<Value>)
        requires { n < length self.old }
        ensures { self.new ≡ slice_set self.old n values }
    {
        let number = self.index[n as usize];
        if number == 0 {
            write_number(&mut self.index, n, self.lists.len() as u32);
            self.lists.push_reserved(values);
        } else {
            write_list(&mut self.lists, number, values);
        }
    }

    /// Adds places without values. Without memory all stays as it was.
    pub(crate) fn add(&mut self, count: u32) -> Result<(), AllocError>
        requires { length self.old + count < 2 ^ 32 }
        ensures ok { OnOk result (self.new ≡ self.old ++ replicate count []) }
        ensures err { OnErr result (self.new ≡ self.old) }
    {
        self.index.reserve(count as usize)?;
        let wanted = self.index.len() + count as usize + 1 - self.lists.len();
        self.lists.reserve(wanted)?;
        begin_lists(&mut self.lists, self.alloc);
        push_zeros(&mut self.index, count);
        Ok(())
    }

    /// A copy. In time linear in the places and their values.
    pub(crate) fn duplicate(&self, alloc: Global) -> Result<Stored, NoMemory>
        ensures { IfOk result (λ copy. copy ≡ self.now) }
    {
        let index = Vec::from_slice(alloc, self.index.as_slice())?;
        let lists = or_drop!(copy_lists(alloc, &self.lists, self.lists.capacity()); index);
        Ok(Stored {
            index,
            lists,
            alloc,
        })
    }
}

/// Sees to it that the first list is there, which is that of no values.
fn begin_lists(lists: &mut Vec<Seq<Value>>, alloc: Global)
    requires { 0 < vec_capacity lists.old }
    ensures first { length lists.old.items ≡ 0 → lists.new.items ≡ [] ∷ [] }
    ensures later { length lists.old.items ≢ 0 → lists.new.items ≡ lists.old.items }
    ensures capacity { vec_capacity lists.new ≡ vec_capacity lists.old }
{
    if lists.len() == 0 {
        lists.push_reserved(Seq::new(alloc));
    }
}

/// The values of a number.
fn list_at(lists: &[Seq<Value>], number: u32) -> &[Value]
    requires { number < length lists.now }
    ensures { result.now ≡ slice_index_or lists.now number [] }
{
    lists[number as usize].as_slice()
}

/// Writes the number of a place.
pub(super) fn write_number(index: &mut Vec<u32>, n: u32, number: u32)
    requires { n < length index.old.items }
    ensures { index.new.items ≡ slice_set index.old.items n number }
{
    index[n as usize] = number;
}

/// Writes the values of a number.
fn write_list(lists: &mut Vec<Seq<Value>>, number: u32, values: Seq<Value>)
    requires { number < length lists.old.items }
    ensures items { lists.new.items ≡ slice_set lists.old.items number values }
    ensures capacity { vec_capacity lists.new ≡ vec_capacity lists.old }
{
    lists[number as usize] = values;
}

/// Adds zeros, for which there is room.
pub(super) fn push_zeros(index: &mut Vec<u32>, count: u32)
    requires { vec_len index.old + count ≤ vec_capacity index.old }
    ensures { index.new.items ≡ index.old.items ++ replicate count 0 }
{
    for _ in 0..count {
        index.push_reserved(0);
    }
}

/// Copies of values.
fn copy_values(alloc: Global, values: &[Value]) -> Result<Seq<Value>, NoMemory>
    ensures { IfOk result (λ copies. copies ≡ values.now) }
{
    let mut copies = Seq::new(alloc);
    for value in values {
        copies.push(value.duplicate(alloc)?)?;
    }
    Ok(copies)
}

/// Copies of lists of values, with room for as many lists as given.
fn copy_lists(
    alloc: Global,
    lists: &[Seq<Value>],
    capacity: usize,
) -> Result<Vec<Seq<Value>>, NoMemory>
    requires { length lists.now ≤ capacity }
    ensures items { IfOk result (λ copies. copies.items ≡ lists.now) }
    ensures capacity { IfOk result (λ copies. capacity ≤ vec_capacity copies) }
{
    let mut copies = Vec::with_capacity(alloc, capacity)?;
    for list in lists {
        copies.push_reserved(copy_values(alloc, list.as_slice())?);
    }
    Ok(copies)
}
