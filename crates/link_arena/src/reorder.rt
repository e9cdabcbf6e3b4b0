ghost use Rattle.std.specs.Prelude.{◌≡◌, ℕ, ◌+◌, ◌<◌, ◌≤◌, Contains, IsPermutation, length, slice_index, slice_set};
ghost use Rattle.link_arena.specs.Links.{others_of};
ghost use Rattle.link_arena.specs.Lists.{list_at, list_of, owner_at, free_count, IsSameSize};
ghost use Rattle.link_arena.specs.Twins.{twin, IsListed, IsMarkedFor, IsRequeued, links, IsArena};

use crate::half::Head;
use crate::joins::Joins;
use crate::sides::twin_of;

impl Joins {
    /// Marks the list that each half of a list leads to with the half.
    fn mark(&self, head: Head, marks: &mut [usize])
        requires listed { IsListed self.now.halves (list_of self.now.halves head) }
        requires room { (s : ℕ) → Contains (list_of self.now.halves head) s → owner_at self.now.halves (twin s) < length marks.old }
        requires single { (s u : ℕ) → Contains (list_of self.now.halves head) s → Contains (list_of self.now.halves head) u → owner_at self.now.halves (twin s) ≡ owner_at self.now.halves (twin u) → s ≡ u }
        ensures { IsMarkedFor self.now.halves marks.new (list_of self.now.halves head) }
    {
        let mut at = head.first;
        let mut left = head.len;
        while left > 0 {
            self.mark_one(marks, at);
            at = self.next_of(at);
            left -= 1;
        }
    }

    /// Marks the list that a half leads to with the half.
    fn mark_one(&self, marks: &mut [usize], at: usize)
        requires within { at < length self.now.halves }
        requires twin_within { twin at < length self.now.halves }
        requires room { owner_at self.now.halves (twin at) < length marks.old }
        ensures { marks.new ≡ slice_set marks.old (owner_at self.now.halves (twin at)) at }
    {
        marks[self.owner_of(twin_of(at))] = at;
    }

    /// Moves the half of an end that leads to another to the end of its list, by the marks.
    fn put_last_at(&mut self, marks: &[usize], end: u32, other: u32)
        requires arena { IsArena self.old.heads self.old.halves }
        requires within { end + 1 < length self.old.heads }
        requires room { other + 1 < length marks.now }
        requires marked { IsMarkedFor self.old.halves marks.now (list_at self.old.heads self.old.halves (end + 1)) }
        requires there { Contains (others_of (links self.old.heads self.old.halves) end) other }
        ensures requeued { IsRequeued self.old.heads self.old.halves self.new.heads self.new.halves marks.now end (end + 1) other }
        ensures same { IsSameSize self.old self.new }
        ensures free { free_count self.new ≡ free_count self.old }
    {
        let at = marks[other as usize + 1];
        self.move_to(end as usize + 1, at);
    }

    /// Puts the ends that an end is joined to in another order, by the marks.
    fn put_in_order(&mut self, marks: &[usize], end: u32, order: &[u32])
        requires arena { IsArena self.old.heads self.old.halves }
        requires within { end + 1 < length self.old.heads }
        requires room { length self.old.heads ≤ length marks.now }
        requires marked { IsMarkedFor self.old.halves marks.now (list_at self.old.heads self.old.halves (end + 1)) }
        requires same { IsPermutation order.now (others_of (links self.old.heads self.old.halves) end) }
        ensures arena { IsArena self.new.heads self.new.halves }
        ensures same { IsSameSize self.old self.new }
        ensures free { free_count self.new ≡ free_count self.old }
        ensures view { links self.new.heads self.new.halves ≡ slice_set (links self.old.heads self.old.halves) end order.now }
    {
        for other in order {
            self.put_last_at(marks, end, *other);
        }
    }

    /// Puts the ends that an end is joined to in another order.
    pub(crate) fn reorder(&mut self, marks: &mut [usize], end: u32, order: &[u32])
        requires arena { IsArena self.old.heads self.old.halves }
        requires within { end + 1 < length self.old.heads }
        requires room { length self.old.heads ≤ length marks.old }
        requires same { IsPermutation order.now (others_of (links self.old.heads self.old.halves) end) }
        ensures arena { IsArena self.new.heads self.new.halves }
        ensures same { IsSameSize self.old self.new }
        ensures free { free_count self.new ≡ free_count self.old }
        ensures view { links self.new.heads self.new.halves ≡ slice_set (links self.old.heads self.old.halves) end order.now }
    {
        self.mark(self.head(end as usize + 1), marks);
        self.put_in_order(marks, end, order);
    }
}
