ghost use Rattle.std.specs.Prelude.{◌≡◌, ◌≢◌, ℕ, ◌+◌, ◌<◌, ◌^◌, List, [], length, ◌↔◌, IsTrue, IsOk, IfOk, OnOk, OnErr, Contains, IsPermutation, slice_set, ◌≤◌};
ghost use Rattle.std.specs.Vec.{vec_len, vec_capacity};
ghost use Rattle.link_arena.specs.Links.{others_of, IsSimple, parted, all_parted, with_links, with_ends, with_join, with_room};
ghost use Rattle.link_arena.specs.Twins.{with_free_head};

use crate::joins::Joins;
use crate::others::Others;
use std::alloc::{AllocError, Global};
use std::marker::Model;

/// Ends, numbered from 0, and joins between them. A join stands at two different ends, and two ends are joined at
/// most once. Contracts see an arena as a list, at each end the ends that it is joined to, in its order, and as two numbers:
/// for how many ends and joins more there is room. An addition that finds room takes no memory.
#[derive(Drop)]
pub struct Arena {
    joins: Joins,
    marks: Vec<usize>,
    /// For how many ends more there is room, at least.
    spare_ends: u32,
    /// For how many joins more there is room, at least.
    spare_joins: usize,
}

impl Model for Arena {
    ghost use Rattle.std.specs.Prelude.{length};
    ghost use Rattle.std.specs.Vec.{vec_capacity};
    ghost use Rattle.link_arena.specs.Links.{Linkage};
    ghost use Rattle.link_arena.specs.Twins.{links, IsRoomy};

    ghost Value = { Linkage };

    ghost view = { λ arena. record { links = links arena.joins.heads arena.joins.halves; spare_ends = arena.spare_ends; spare_joins = arena.spare_joins } };

    ghost invariant = { λ arena. IsRoomy arena.joins (length arena.marks.items) (vec_capacity arena.marks) arena.spare_ends arena.spare_joins };
}

impl Arena {
    /// An arena with no end. It takes no memory.
    pub fn new(alloc: Global) -> Arena
        ensures { result ≡ record { links = []; spare_ends = 0; spare_joins = 0 } }
    {
        Arena {
            joins: Joins::new(alloc),
            marks: Vec::new(alloc),
            spare_ends: 0,
            spare_joins: 0,
        }
    }

    /// How many ends there are. The joins are simple: each stands at both its ends, at each of them once, and at two different ones.
    pub fn end_count(&self) -> u32
        ensures count { result ≡ length self.now.links }
        ensures simple { IsSimple self.now.links }
    {
        self.joins.list_count().saturating_sub(1) as u32
    }

    /// Makes room for so many ends and joins more. Without memory for all the room shown is as it was. In time linear in both.
    pub fn reserve(&mut self, ends: u32, joins: usize) -> Result<(), AllocError>
        ensures ok { OnOk result (self.new ≡ with_room self.old ends joins) }
        ensures err { OnErr result (self.new ≡ self.old) }
    {
        need_free_list(&mut self.joins, &mut self.marks)?;
        self.marks.reserve(ends as usize)?;
        self.joins.reserve_lists(ends)?;
        self.joins.reserve_rows(joins)?;
        self.spare_ends = self.spare_ends.max(ends);
        self.spare_joins = self.spare_joins.max(joins);
        Ok(())
    }

    /// Adds ends with no join. Without memory for them the arena stays as it was; none is asked for where there is room. In
    /// time linear in the count.
    pub fn add_ends(&mut self, count: u32) -> Result<(), AllocError>
        requires { length self.old.links + count < 2 ^ 32 }
        ensures ok { OnOk result (self.new ≡ with_ends self.old count) }
        ensures err { OnErr result (self.new ≡ self.old) }
        ensures room { 0 < count → count ≤ self.old.spare_ends → IsOk result }
    {
        need_free_list(&mut self.joins, &mut self.marks)?;
        self.marks.reserve(count as usize)?;
        self.joins.reserve_lists(count)?;
        push_marks(&mut self.marks, count);
        self.joins.push_lists(count);
        self.spare_ends = self.spare_ends.saturating_sub(count);
        Ok(())
    }

    /// The ends that an end is joined to, in its order. In time linear in their number.
    pub fn others(&self, end: u32) -> Others<'_>
        requires { end < length self.now.links }
        ensures list { result ≡ others_of self.now.links end }
        ensures simple { IsSimple self.now.links }
    {
        Others::new(&self.joins, self.joins.head(end as usize + 1))
    }

    /// How many ends an end is joined to. In constant time.
    pub fn degree(&self, end: u32) -> usize
        requires { end < length self.now.links }
        ensures { result ≡ length (others_of self.now.links end) }
    {
        self.joins.head(end as usize + 1).len
    }

    /// Whether two ends are joined. In time linear in the smaller of their degrees.
    pub fn is_joined(&self, first: u32, second: u32) -> bool
        requires first_within { first < length self.now.links }
        requires second_within { second < length self.now.links }
        ensures { IsTrue result ↔ Contains (others_of self.now.links first) second }
    {
        self.joins.are_joined(first, second)
    }

    /// Joins two ends: each stands last at the other. Without memory the arena stays as it was; none is asked for where there
    /// is room. In constant time, amortised.
    pub fn join(&mut self, first: u32, second: u32) -> Result<(), AllocError>
        requires apart { first ≢ second }
        requires first_within { first < length self.old.links }
        requires second_within { second < length self.old.links }
        requires unjoined { ¬ Contains (others_of self.old.links first) second }
        ensures ok { OnOk result (self.new ≡ with_join self.old first second) }
        ensures err { OnErr result (self.new ≡ self.old) }
        ensures room { 0 < self.old.spare_joins → IsOk result }
    {
        self.joins.join_at(first, second)?;
        self.spare_joins = self.spare_joins.saturating_sub(1);
        Ok(())
    }

    /// Parts two ends that are joined. It takes no memory. In time linear in the smaller of their degrees, amortised.
    pub fn part(&mut self, first: u32, second: u32)
        requires { Contains (others_of self.old.links first) second }
        ensures { self.new ≡ with_links self.old (parted self.old.links first second) }
    {
        self.joins.part_pair(first, second);
    }

    /// Parts an end from all that it is joined to. It takes no memory. In time linear in its degree, amortised.
    pub fn part_all(&mut self, end: u32)
        requires { end < length self.old.links }
        ensures { self.new ≡ with_links self.old (all_parted self.old.links end) }
    {
        self.joins.part_each(end);
    }

    /// Puts the ends that an end is joined to in another order. It takes no memory. In time linear in their number.
    pub fn set_order(&mut self, end: u32, order: &[u32])
        requires within { end < length self.old.links }
        requires same { IsPermutation order.now (others_of self.old.links end) }
        ensures { self.new ≡ with_links self.old (slice_set self.old.links end order.now) }
    {
        self.joins.reorder(self.marks.as_mut_slice(), end, order);
    }

    /// A copy of an arena, with no room to spare. In time linear in the number of its ends and joins.
    pub fn duplicate(&self, alloc: Global) -> Result<Arena, AllocError>
        ensures { IfOk result (λ copy. copy ≡ record { links = self.now.links; spare_ends = 0; spare_joins = 0 }) }
    {
        let joins = self.joins.duplicate(alloc)?;
        let marks = Vec::from_slice(alloc, self.marks.as_slice())?;
        Ok(Arena {
            joins,
            marks,
            spare_ends: 0,
            spare_joins: 0,
        })
    }
}

/// Sees to it that there is the list of the free halves, and a mark for it.
fn need_free_list(joins: &mut Joins, marks: &mut Vec<usize>) -> Result<(), AllocError>
    requires { length joins.old.heads ≤ length marks.old.items }
    ensures ok { OnOk result (joins.new.heads ≡ with_free_head joins.old.heads) }
    ensures err { OnErr result (joins.new.heads ≡ joins.old.heads) }
    ensures halves { joins.new.halves ≡ joins.old.halves }
    ensures marks { length joins.new.heads ≤ length marks.new.items }
    ensures same { 0 < length joins.old.heads → joins.new ≡ joins.old }
    ensures same_marks { 0 < length joins.old.heads → marks.new ≡ marks.old }
    ensures room { 0 < length joins.old.heads → IsOk result }
{
    if joins.list_count() == 0 {
        joins.reserve_lists(1)?;
        marks.push(0)?;
        joins.push_lists(1);
    }
    Ok(())
}

/// Adds numbers at the end, for which there is room.
fn push_marks(marks: &mut Vec<usize>, count: u32)
    requires room { vec_len marks.old + count ≤ vec_capacity marks.old }
    ensures count { length marks.new.items ≡ length marks.old.items + count }
    ensures capacity { vec_capacity marks.new ≡ vec_capacity marks.old }
{
    for _ in 0..count {
        marks.push_reserved(0);
    }
}
