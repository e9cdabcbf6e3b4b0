ghost use Rattle.std.specs.Prelude.{◌≡◌, ◌≢◌, ℕ, ◌+◌, ◌-◌, ◌<◌, ◌≤◌, ◌^◌, List, [], ◌∷◌, ◌++◌, length, replicate, ◌↔◌, IsTrue, IfOk, IfErr, OnOk, OnErr, Contains, Option, Some, None};
ghost use Rattle.std.specs.Option.{option_copied};
ghost use Rattle.std.specs.Vec.{vec_len, vec_capacity};
ghost use Rattle.object_tables.specs.Flat.{number_at, end_at, entry_at, home_at, address};
ghost use Rattle.object_tables.specs.Lists.{update_at};
ghost use Rattle.object_tables.specs.Rows.{row_at, place_at, joined_at, with_place, with_joined, with_last, without_address, without_join, with_values, fresh_row, cleared_place, cleared_upto, unnamed, IsRanged, IsMutual, IsSingle};

mod copies;
mod ends;
mod orders;
mod stored;

use crate::tables::ends::{need_ends, need_no_end};
use crate::tables::orders::need_marks;
use crate::tables::stored::{Stored, push_zeros};
use crate::value::Value;
use link_arena::{Arena, Others};
use mof_metamodel::{Seq, Text};
use std::alloc::{AllocError, Global};
use std::marker::Model;

/// What an object is: its class and its identifier.
#[derive(Drop)]
pub struct Named {
    pub class: u32,
    pub id: Text,
}

/// An object's part of the table of places: from `first` on, `count` places.
#[derive(Drop)]
pub(crate) struct Entry {
    named: Option<Named>,
    first: u32,
    count: u32,
}

/// A place that is an end: whose it is, and which of its places it is.
#[derive(Clone, Copy)]
pub(crate) struct Home {
    object: u32,
    place: u32,
}

/// Objects with places that hold values and are joined to each other, in flat tables: an object's places stand one after
/// another, and each that has been joined to another is an end of one arena of links. A place that holds nothing costs
/// eight bytes.
#[derive(Drop)]
pub(crate) struct Tables {
    entries: Vec<Entry>,
    values: Stored,
    /// For each place the end that it is, or 0, an end that is joined to nothing.
    index: Vec<u32>,
    homes: Vec<Home>,
    arena: Arena,
    /// For each object room for an end.
    marks: Vec<u32>,
    /// Room for as many ends as there are objects.
    order: Vec<u32>,
    alloc: Global,
}

impl Model for Tables {
    ghost use Rattle.std.specs.Prelude.{List};
    ghost use Rattle.object_tables.specs.Rows.{Row};

    ghost Value = { List Row };

    ghost use Rattle.std.specs.Prelude.{length, ◌≡◌, ◌≤◌};
    ghost use Rattle.std.specs.Vec.{vec_capacity};
    ghost use Rattle.object_tables.specs.Flat.{rows_of, IsFlat};

    ghost view = { λ t. rows_of t.entries.items t.values t.index.items t.homes.items t.arena.links };

    ghost invariant = { λ t. IsFlat t.entries.items t.index.items t.homes.items t.arena.links × (length t.values ≡ length t.index.items) × (length t.entries.items ≤ length t.marks.items) × (length t.entries.items ≤ vec_capacity t.order) };
}

impl Tables {
    /// Tables without an object. They take no memory.
    pub(crate) fn new(alloc: Global) -> Tables
        ensures { result ≡ [] }
    {
        Tables {
            entries: Vec::new(alloc),
            values: Stored::new(alloc),
            index: Vec::new(alloc),
            homes: Vec::new(alloc),
            arena: Arena::new(alloc),
            marks: Vec::new(alloc),
            order: Vec::new(alloc),
            alloc,
        }
    }

    /// How many numbers have been given out.
    pub(crate) fn len(&self) -> usize
        ensures { result ≡ length self.now }
    {
        self.entries.len()
    }

    /// What the object is, or nothing where the number has no object.
    pub(crate) fn named(&self, o: u32) -> Option<&Named>
        ensures { option_copied result ≡ (row_at self.now o).named }
    {
        match self.entries.get(o as usize) {
            Some(entry) => entry.named.as_ref(),
            None => None,
        }
    }

    /// The values at a place.
    pub(crate) fn values(&self, o: u32, k: u32) -> &[Value]
        requires object { o < length self.now }
        requires place { k < length (row_at self.now o).places }
        ensures { result.now ≡ (place_at self.now o k).values }
    {
        let n = number_of(&self.entries, o, k);
        self.values.at(n)
    }
}

impl Tables {
    /// Joins two places: each stands last at the other. Without memory the tables stay as they were.
    pub(crate) fn join(&mut self, o: u32, k: u32, other: u32, place: u32) -> Result<(), AllocError>
        requires first_object { o < length self.old }
        requires first_place { k < length (row_at self.old o).places }
        requires second_object { other < length self.old }
        requires second_place { place < length (row_at self.old other).places }
        requires apart { o ≡ other → k ≢ place }
        requires unjoined { ¬ Contains (joined_at self.old o k) (other, place) }
        ensures ok { OnOk result (self.new ≡ with_last (with_last self.old o k (other, place)) other place (o, k)) }
        ensures err { OnErr result (self.new ≡ self.old) }
    {
        let (first, second) = need_ends(
            &self.entries,
            &mut self.index,
            &mut self.homes,
            &mut self.arena,
            (o, k),
            (other, place),
        )?;
        self.arena.join(first, second)
    }

    /// Parts two places that are joined. It takes no memory.
    pub(crate) fn part(&mut self, o: u32, k: u32, other: u32, place: u32)
        requires first_object { o < length self.old }
        requires first_place { k < length (row_at self.old o).places }
        requires second_object { other < length self.old }
        requires second_place { place < length (row_at self.old other).places }
        requires joined { Contains (joined_at self.old o k) (other, place) }
        ensures { self.new ≡ without_join (without_join self.old o k (other, place)) other place (o, k) }
    {
        let first = end_of(&self.entries, &self.index, o, k);
        let second = end_of(&self.entries, &self.index, other, place);
        let _ = self.arena.end_count();
        self.arena.part(first, second);
    }

    /// Adds an object with places that hold and are joined to nothing. Without memory it is given back, and the tables stay
    /// as they were; that the numbers of places have run out counts as that.
    pub(crate) fn add(&mut self, named: Named, count: u32) -> Result<(), Named>
        requires { length self.old + 1 < 2 ^ 32 }
        ensures ok { OnOk result (self.new ≡ self.old ++ fresh_row named count ∷ []) }
        ensures err { IfErr result (λ back. (self.new ≡ self.old) × (back ≡ named)) }
    {
        let first = self.index.len() as u32;
        if count >= u32::MAX - first {
            return Err(named);
        }
        if self.entries.reserve(1).is_err() {
            return Err(named);
        }
        if self.index.reserve(count as usize).is_err() {
            return Err(named);
        }
        let objects = self.entries.len() + 1;
        let Ok(()) = need_marks(&mut self.marks, &mut self.order, objects) else {
            return Err(named);
        };
        let Ok(()) = need_no_end(&self.entries, &self.index, &mut self.homes, &mut self.arena)
        else {
            return Err(named);
        };
        match self.values.add(count) {
            Ok(()) => {
                push_zeros(&mut self.index, count);
                self.entries.push_reserved(Entry {
                    named: Some(named),
                    first,
                    count,
                });
                Ok(())
            }
            Err(_) => Err(named),
        }
    }

    /// Parts a place from all others, and drops its values. It takes no memory.
    pub(crate) fn clear_place(&mut self, o: u32, k: u32)
        requires object { o < length self.old }
        requires place { k < length (row_at self.old o).places }
        ensures { self.new ≡ cleared_place self.old o k }
    {
        let end = end_of(&self.entries, &self.index, o, k);
        let _ = self.arena.end_count();
        self.arena.part_all(end);
        let n = number_of(&self.entries, o, k);
        self.values.put(n, Seq::new(self.alloc));
    }

    /// How many places an object has.
    fn place_count(&self, o: u32) -> u32
        requires { o < length self.now }
        ensures { result ≡ length (row_at self.now o).places }
    {
        count_of(&self.entries, o)
    }

    /// How many places a place is joined to. In constant time.
    pub(crate) fn degree(&self, o: u32, k: u32) -> usize
        requires object { o < length self.now }
        requires place { k < length (row_at self.now o).places }
        ensures { result ≡ length (joined_at self.now o k) }
    {
        let end = end_of(&self.entries, &self.index, o, k);
        self.arena.degree(end)
    }

    /// Parts all places of an object from all others, and drops their values. It takes no memory. What a place was joined to
    /// was a place.
    pub(crate) fn clear(&mut self, o: u32)
        requires { o < length self.old }
        ensures cleared { self.new ≡ cleared_upto self.old o (length (row_at self.old o).places) }
        ensures ranged { IsRanged self.old }
    {
        self.look();
        for k in 0..self.place_count(o) {
            self.clear_place(o, k);
        }
    }

    /// What a place is joined to is a place, once, and is joined to it. It does nothing.
    pub(crate) fn look(&self)
        ensures ranged { IsRanged self.now }
        ensures both { IsMutual self.now }
        ensures once { IsSingle self.now }
    {
        let _ = &self.entries;
        let _ = self.arena.end_count();
    }

    /// Takes an object from its number.
    pub(crate) fn forget(&mut self, o: u32)
        requires { o < length self.old }
        ensures { self.new ≡ unnamed self.old o }
    {
        forget_at(&mut self.entries, o);
    }

    /// The places that a place is joined to, in their order.
    pub(crate) fn joined(&self, o: u32, k: u32) -> Joined<'_>
        requires object { o < length self.now }
        requires place { k < length (row_at self.now o).places }
        ensures { result ≡ joined_at self.now o k }
    {
        let end = end_of(&self.entries, &self.index, o, k);
        Joined {
            others: self.arena.others(end),
            homes: self.homes.as_slice(),
        }
    }

    /// Whether two places are joined.
    pub(crate) fn is_joined(&self, o: u32, k: u32, other: u32, place: u32) -> bool
        requires first_object { o < length self.now }
        requires first_place { k < length (row_at self.now o).places }
        requires second_object { other < length self.now }
        requires second_place { place < length (row_at self.now other).places }
        ensures { IsTrue result ↔ Contains (joined_at self.now o k) (other, place) }
    {
        let first = end_of(&self.entries, &self.index, o, k);
        let second = end_of(&self.entries, &self.index, other, place);
        let _ = self.arena.end_count();
        self.arena.is_joined(first, second)
    }

    /// Puts values at a place, in the stead of those that were there.
    pub(crate) fn set_values(&mut self, o: u32, k: u32, values: Seq<Value>)
        requires object { o < length self.old }
        requires place { k < length (row_at self.old o).places }
        ensures { self.new ≡ with_values self.old o k values }
    {
        let n = number_of(&self.entries, o, k);
        self.values.put(n, values);
    }
}

/// The places that a place is joined to, each as the number of its object and its own, in their order. Contracts see it as
/// the list of those that are left.
#[derive(Drop)]
pub(crate) struct Joined<'a> {
    others: Others<'a>,
    homes: &'a [Home],
}

impl<'a> Model for Joined<'a> {
    ghost use Rattle.std.specs.Prelude.{List, ℕ, map, All, ◌<◌, length};
    ghost use Rattle.object_tables.specs.Flat.{address};

    ghost Value = { List (ℕ × ℕ) };

    ghost view = { λ j. map (address j.homes.now) j.others };

    ghost invariant = { λ j. All (λ e. e < length j.homes.now) j.others };
}

impl<'a> Iterator for Joined<'a> {
    type Item = (u32, u32);

    ghost use Rattle.std.specs.Iterator.{YieldsFirst, item_count};

    ghost next_gives = { YieldsFirst (λ j. j) };

    ghost remaining = { item_count (λ j. j) };

    fn next(&mut self) -> Option<(u32, u32)> {
        match self.others.next() {
            Some(end) => Some(address_of(self.homes, end)),
            None => None,
        }
    }
}

/// Whose place an end is, and which of them.
fn address_of(homes: &[Home], end: u32) -> (u32, u32)
    requires { end < length homes.now }
    ensures { result ≡ address homes.now end }
{
    let home = &homes[end as usize];
    (home.object, home.place)
}

/// The number of a place.
fn number_of(entries: &[Entry], o: u32, k: u32) -> u32
    requires object { o < length entries.now }
    requires small { number_at entries.now o k < 2 ^ 32 }
    ensures { result ≡ number_at entries.now o k }
{
    entries[o as usize].first + k
}

/// The end that a place is, or 0.
fn end_of(entries: &[Entry], index: &[u32], o: u32, k: u32) -> u32
    requires object { o < length entries.now }
    requires small { number_at entries.now o k < 2 ^ 32 }
    requires within { number_at entries.now o k < length index.now }
    ensures { result ≡ end_at entries.now index.now o k }
{
    index[number_of(entries, o, k) as usize]
}

/// How many places an object has.
fn count_of(entries: &[Entry], o: u32) -> u32
    requires { o < length entries.now }
    ensures { result ≡ (entry_at entries.now o).count }
{
    entries[o as usize].count
}

/// Takes an object from its number.
fn forget_at(entries: &mut Vec<Entry>, o: u32)
    requires { o < length entries.old.items }
    ensures { entries.new.items ≡ update_at entries.old.items o (λ e. record e { named = None }) }
{
    entries[o as usize].named = None;
}
