ghost use Rattle.std.specs.Prelude.{◌≡◌, ℕ, ◌+◌, ◌<◌, ◌≤◌, length, map, All, Contains, IsPermutation, OnOk, slice_index, slice_set};
ghost use Rattle.std.specs.Vec.{vec_capacity};
ghost use Rattle.object_tables.specs.Flat.{home_at};
ghost use Rattle.object_tables.specs.Orders.{AreOfObjects, IsMarkedFor, IsReordered};
ghost use Rattle.object_tables.specs.Rows.{row_at, joined_at};

use crate::tables::{Home, Tables, end_of};
use crate::value::ObjId;
use link_arena::Others;
use std::alloc::AllocError;

impl Tables {
    /// Puts what a place is joined to in the order of a list of their objects. It takes no memory. In time linear in their number.
    pub(crate) fn set_order(&mut self, o: u32, k: u32, order: &[ObjId])
        requires object { o < length self.old }
        requires place { k < length (row_at self.old o).places }
        requires apart { AreOfObjects (joined_at self.old o k) }
        requires same { IsPermutation (map (λ b. b.0) order.now) (map (λ e. e.0) (joined_at self.old o k)) }
        ensures { IsReordered self.old o k (map (λ b. b.0) order.now) self.new }
    {
        let end = end_of(&self.entries, &self.index, o, k);
        mark_ends(
            &self.homes,
            self.arena.others(end),
            self.marks.as_mut_slice(),
        );
        list_ends(self.marks.as_slice(), order, &mut self.order);
        self.arena.set_order(end, self.order.as_slice());
    }
}

/// Marks the object of an end with the end.
fn mark_end(homes: &[Home], marks: &mut [u32], end: u32)
    requires within { end < length homes.now }
    requires room { (home_at homes.now end).object < length marks.old }
    ensures { marks.new ≡ slice_set marks.old (home_at homes.now end).object end }
{
    marks[homes[end as usize].object as usize] = end;
}

/// Marks the objects of ends with the ends.
fn mark_ends(homes: &[Home], ends: Others<'_>, marks: &mut [u32])
    requires within { All (λ e. e < length homes.now) ends }
    requires room { All (λ e. (home_at homes.now e).object < length marks.old) ends }
    requires apart { (d e : ℕ) → Contains ends d → Contains ends e → (home_at homes.now d).object ≡ (home_at homes.now e).object → d ≡ e }
    ensures { IsMarkedFor homes.now marks.new ends.entry }
{
    for end in ends {
        mark_end(homes, marks, end);
    }
}

/// Lists the marks of objects.
fn list_ends(marks: &[u32], order: &[ObjId], ends: &mut Vec<u32>)
    requires within { All (λ b. b.0 < length marks.now) order.now }
    requires room { length order.now ≤ vec_capacity ends.old }
    ensures items { ends.new.items ≡ map (λ b. slice_index marks.now b.0) order.now }
    ensures capacity { vec_capacity ends.new ≡ vec_capacity ends.old }
{
    ends.clear();
    for object in order {
        ends.push_reserved(marks[object.0 as usize]);
    }
}

/// Sees to it that so many objects can be marked and listed.
pub(super) fn need_marks(
    marks: &mut Vec<u32>,
    order: &mut Vec<u32>,
    objects: usize,
) -> Result<(), AllocError>
    requires { objects ≤ length marks.old.items + 1 }
    ensures marks { OnOk result (objects ≤ length marks.new.items) }
    ensures more_marks { length marks.old.items ≤ length marks.new.items }
    ensures order { OnOk result (objects ≤ vec_capacity order.new) }
    ensures more_order { vec_capacity order.old ≤ vec_capacity order.new }
{
    order.clear();
    order.reserve(objects)?;
    if marks.len() < objects {
        marks.push(0)?;
    }
    Ok(())
}
