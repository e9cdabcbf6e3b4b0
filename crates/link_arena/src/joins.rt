ghost use Rattle.std.specs.Prelude.{◌≡◌, ℕ, ◌+◌, ◌≤◌, ◌++◌, ◌∷◌, [], ◌<◌, length, slice_index, slice_set, replicate, IfOk, IsOk, OnOk, OnErr, Contains};
ghost use Rattle.std.specs.Vec.{vec_len, vec_capacity};
ghost use Rattle.link_arena.specs.Links.{without};
ghost use Rattle.link_arena.specs.Lists.{nexts, owners, owner_at, head_at, lists, list_at, moved_to, IsSameSize, IsThreaded, IsAfter, IsFiled};
ghost use Rattle.link_arena.specs.Twins.{free_row, no_head};

use crate::half::{Half, Head, put_in, take_out};
use std::alloc::{AllocError, Global};
use std::marker::Model;

/// The joins of an arena: the halves of all rows, and the lists that they stand in. Contracts see two tables, that of the
/// lists' heads and that of the halves, and for how many heads there is memory.
#[derive(Drop)]
pub struct Joins {
    heads: Vec<Head>,
    halves: Vec<Half>,
}

impl Model for Joins {
    ghost use Rattle.std.specs.Vec.{vec_capacity};
    ghost use Rattle.link_arena.specs.Lists.{JoinTables};

    ghost Value = { JoinTables };

    ghost view = { λ joins. record { heads = joins.heads.items; halves = joins.halves.items; capacity = vec_capacity joins.heads } };
}

impl Joins {
    /// No list and no half. It takes no memory.
    pub(crate) fn new(alloc: Global) -> Joins
        ensures heads { result.heads ≡ [] }
        ensures halves { result.halves ≡ [] }
    {
        Joins {
            heads: Vec::new(alloc),
            halves: Vec::new(alloc),
        }
    }

    /// How many lists there are.
    pub(crate) fn list_count(&self) -> usize
        ensures { result ≡ length self.now.heads }
    {
        self.heads.len()
    }

    /// How many halves there are.
    pub(crate) fn half_count(&self) -> usize
        ensures { result ≡ length self.now.halves }
    {
        self.halves.len()
    }

    /// The head of a list.
    pub(crate) fn head(&self, id: usize) -> Head
        requires { id < length self.now.heads }
        ensures { result ≡ head_at self.now.heads id }
    {
        self.heads[id]
    }

    /// The list that a half stands in.
    pub(crate) fn owner_of(&self, at: usize) -> usize
        requires { at < length self.now.halves }
        ensures { result ≡ owner_at self.now.halves at }
    {
        self.halves[at].owner
    }

    /// The half after one of a list.
    pub(crate) fn next_of(&self, at: usize) -> usize
        requires { at < length self.now.halves }
        ensures { result ≡ slice_index (nexts self.now.halves) at }
    {
        self.halves[at].next
    }

    /// Takes a half out of a list that it stands in.
    fn unlink(&mut self, id: usize, at: usize)
        requires threaded { IsThreaded self.old.heads self.old.halves }
        requires within { id < length self.old.heads }
        requires there { Contains (list_at self.old.heads self.old.halves id) at }
        ensures after { IsAfter self.old.heads self.old.halves self.new.heads self.new.halves id (without at (list_at self.old.heads self.old.halves id)) }
        ensures owners { owners self.new.halves ≡ owners self.old.halves }
        ensures same { IsSameSize self.old self.new }
        ensures half_count { length self.new.halves ≡ length self.old.halves }
    {
        self.heads[id] = take_out(self.halves.as_mut_slice(), self.heads[id], at);
    }

    /// Puts a half that stands in no list last in one.
    pub(crate) fn link(&mut self, id: usize, at: usize)
        requires threaded { IsThreaded self.old.heads self.old.halves }
        requires within { id < length self.old.heads }
        requires half_within { at < length self.old.halves }
        requires out { (other : ℕ) → ¬ Contains (list_at self.old.heads self.old.halves other) at }
        ensures after { IsAfter self.old.heads self.old.halves self.new.heads self.new.halves id (list_at self.old.heads self.old.halves id ++ at ∷ []) }
        ensures owners { owners self.new.halves ≡ slice_set (owners self.old.halves) at id }
        ensures same { IsSameSize self.old self.new }
        ensures half_count { length self.new.halves ≡ length self.old.halves }
    {
        self.heads[id] = put_in(self.halves.as_mut_slice(), self.heads[id], id, at);
    }

    /// Moves a half from the list that it stands in to the end of one.
    fn move_from(&mut self, from: usize, to: usize, at: usize)
        requires filed { IsFiled self.old.heads self.old.halves }
        requires within { to < length self.old.heads }
        requires half_within { at < length self.old.halves }
        requires from { from ≡ owner_at self.old.halves at }
        ensures filed { IsFiled self.new.heads self.new.halves }
        ensures lists { lists self.new.heads self.new.halves ≡ moved_to (lists self.old.heads self.old.halves) from to at }
        ensures owners { owners self.new.halves ≡ slice_set (owners self.old.halves) at to }
        ensures same { IsSameSize self.old self.new }
        ensures half_count { length self.new.halves ≡ length self.old.halves }
    {
        self.unlink(from, at);
        self.link(to, at);
    }

    /// Moves a half from the list that it stands in to the end of one.
    pub(crate) fn move_to(&mut self, to: usize, at: usize)
        requires filed { IsFiled self.old.heads self.old.halves }
        requires within { to < length self.old.heads }
        requires half_within { at < length self.old.halves }
        ensures filed { IsFiled self.new.heads self.new.halves }
        ensures lists { lists self.new.heads self.new.halves ≡ moved_to (lists self.old.heads self.old.halves) (owner_at self.old.halves at) to at }
        ensures owners { owners self.new.halves ≡ slice_set (owners self.old.halves) at to }
        ensures same { IsSameSize self.old self.new }
        ensures half_count { length self.new.halves ≡ length self.old.halves }
    {
        let from = self.owner_of(at);
        self.move_from(from, to, at);
    }

    /// Adds a row, both of whose halves are free, in no list yet.
    pub(crate) fn push_row(&mut self) -> Result<(), AllocError>
        ensures heads { self.new.heads ≡ self.old.heads }
        ensures capacity { self.new.capacity ≡ self.old.capacity }
        ensures ok { OnOk result (self.new.halves ≡ self.old.halves ++ free_row) }
        ensures err { OnErr result (self.new.halves ≡ self.old.halves) }
    {
        let free = Half {
            owner: 0,
            next: 0,
            previous: 0,
        };
        self.halves.extend_from_slice(&[free, free])
    }

    /// Makes room for more lists.
    pub(crate) fn reserve_lists(&mut self, count: u32) -> Result<(), AllocError>
        ensures heads { self.new.heads ≡ self.old.heads }
        ensures halves { self.new.halves ≡ self.old.halves }
        ensures capacity { self.old.capacity ≤ self.new.capacity }
        ensures ok { OnOk result (length self.old.heads + count ≤ self.new.capacity) }
        ensures room { length self.old.heads + count ≤ self.old.capacity → IsOk result }
    {
        self.heads.reserve(count as usize)
    }

    /// Adds lists that have no half, for which there is room.
    pub(crate) fn push_lists(&mut self, count: u32)
        requires room { length self.old.heads + count ≤ self.old.capacity }
        ensures heads { self.new.heads ≡ self.old.heads ++ replicate count no_head }
        ensures halves { self.new.halves ≡ self.old.halves }
        ensures capacity { self.new.capacity ≡ self.old.capacity }
    {
        push_heads(&mut self.heads, count);
    }

    /// A copy of all lists.
    pub(crate) fn duplicate(&self, alloc: Global) -> Result<Joins, AllocError>
        ensures heads { IfOk result (λ copy. copy.heads ≡ self.now.heads) }
        ensures halves { IfOk result (λ copy. copy.halves ≡ self.now.halves) }
    {
        let heads = Vec::from_slice(alloc, self.heads.as_slice())?;
        let halves = Vec::from_slice(alloc, self.halves.as_slice())?;
        Ok(Joins { heads, halves })
    }
}

/// The head of a list that has no half.
fn no_head() -> Head
    ensures { result ≡ no_head }
{
    Head {
        first: 0,
        last: 0,
        len: 0,
    }
}

/// Adds heads of lists that have no half, for which there is room.
fn push_heads(heads: &mut Vec<Head>, count: u32)
    requires room { vec_len heads.old + count ≤ vec_capacity heads.old }
    ensures items { heads.new.items ≡ heads.old.items ++ replicate count no_head }
    ensures capacity { vec_capacity heads.new ≡ vec_capacity heads.old }
{
    for _ in 0..count {
        heads.push_reserved(no_head());
    }
}
