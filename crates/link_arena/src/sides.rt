ghost use Rattle.std.specs.Prelude.{◌≡◌, ◌↔◌, IsTrue, ◌≢◌, ℕ, ◌+◌, ◌-◌, ◌<◌, ◌≤◌, ◌^◌, [], length, IfSome, IfNone, Contains, slice_index};
ghost use Rattle.std.specs.Bool.{OnTrue, OnFalse};
ghost use Rattle.link_arena.specs.Links.{others_of, joined_ends, parted, all_parted, IsPartedSomewhere};
ghost use Rattle.link_arena.specs.Lists.{list_of, list_at, nexts, owner_at, free_count, IsSameSize};
ghost use Rattle.link_arena.specs.Twins.{twin, links, IsArena};

use crate::half::Head;
use crate::joins::Joins;

/// The other half of a half's row.
pub(crate) fn twin_of(at: usize) -> usize
    ensures { result ≡ twin at }
{
    if at % 2 == 0 { at + 1 } else { at - 1 }
}

impl Joins {
    /// Joins two ends by a free half and its twin.
    fn join_by(&mut self, at: usize, first: u32, second: u32)
        requires arena { IsArena self.old.heads self.old.halves }
        requires half_within { at < length self.old.halves }
        requires free { owner_at self.old.halves at ≡ 0 }
        requires first_within { first + 1 < length self.old.heads }
        requires second_within { second + 1 < length self.old.heads }
        requires apart { first ≢ second }
        requires unjoined { ¬ Contains (others_of (links self.old.heads self.old.halves) first) second }
        ensures arena { IsArena self.new.heads self.new.halves }
        ensures same { IsSameSize self.old self.new }
        ensures free { free_count self.old ≤ free_count self.new + 2 }
        ensures view { links self.new.heads self.new.halves ≡ joined_ends (links self.old.heads self.old.halves) first second }
    {
        let twin = twin_of(at);
        self.move_to(first as usize + 1, at);
        self.move_to(second as usize + 1, twin);
    }

    /// Parts the two ends that a half and its twin join.
    pub(crate) fn part_by(&mut self, at: usize)
        requires arena { IsArena self.old.heads self.old.halves }
        requires half_within { at < length self.old.halves }
        requires used { owner_at self.old.halves at ≢ 0 }
        ensures arena { IsArena self.new.heads self.new.halves }
        ensures same { IsSameSize self.old self.new }
        ensures free { free_count self.old ≤ free_count self.new }
        ensures view { links self.new.heads self.new.halves ≡ parted (links self.old.heads self.old.halves) (owner_at self.old.halves at - 1) (owner_at self.old.halves (twin at) - 1) }
    {
        let twin = twin_of(at);
        self.move_to(0, at);
        self.move_to(0, twin);
    }

    /// The half of a list that leads to an end, which has the list of the given number.
    pub(crate) fn find(&self, head: Head, id: usize) -> Option<usize>
        requires within { (s : ℕ) → Contains (list_of self.now.halves head) s → (s < length self.now.halves) × (twin s < length self.now.halves) }
        ensures found { IfSome result (λ s. Contains (list_of self.now.halves head) s × (owner_at self.now.halves (twin s) ≡ id)) }
        ensures none { IfNone result ((s : ℕ) → Contains (list_of self.now.halves head) s → owner_at self.now.halves (twin s) ≢ id) }
    {
        let mut at = head.first;
        let mut left = head.len;
        while left > 0 {
            if self.owner_of(twin_of(at)) == id {
                return Some(at);
            }
            at = self.next_of(at);
            left -= 1;
        }
        None
    }

    /// The half of an end's list that leads to another end.
    fn find_at(&self, end: u32, other: u32) -> Option<usize>
        requires arena { IsArena self.now.heads self.now.halves }
        requires within { end + 1 < length self.now.heads }
        ensures found { IfSome result (λ s. (owner_at self.now.halves s ≡ end + 1) × (owner_at self.now.halves (twin s) ≡ other + 1)) }
        ensures joined { IfSome result (λ s. Contains (others_of (links self.now.heads self.now.halves) end) other) }
        ensures none { IfNone result (¬ Contains (others_of (links self.now.heads self.now.halves) end) other) }
    {
        self.find(self.head(end as usize + 1), other as usize + 1)
    }

    /// Parts two ends, found by the list of the first.
    fn part_at(&mut self, end: u32, other: u32)
        requires arena { IsArena self.old.heads self.old.halves }
        requires within { end + 1 < length self.old.heads }
        requires named { Contains (others_of (links self.old.heads self.old.halves) end) other }
        ensures arena { IsArena self.new.heads self.new.halves }
        ensures same { IsSameSize self.old self.new }
        ensures free { free_count self.old ≤ free_count self.new }
        ensures view { links self.new.heads self.new.halves ≡ parted (links self.old.heads self.old.halves) end other }
    {
        if let Some(at) = self.find_at(end, other) {
            self.part_by(at);
        }
    }

    /// Whether an end's list leads to another end.
    fn leads_to(&self, end: u32, other: u32) -> bool
        requires arena { IsArena self.now.heads self.now.halves }
        requires within { end + 1 < length self.now.heads }
        ensures { IsTrue result ↔ Contains (others_of (links self.now.heads self.now.halves) end) other }
    {
        match self.find_at(end, other) {
            Some(_hit) => true,
            None => false,
        }
    }

    /// Whether two ends are joined, by the shorter of their lists.
    pub(crate) fn are_joined(&self, first: u32, second: u32) -> bool
        requires arena { IsArena self.now.heads self.now.halves }
        requires first_within { first + 1 < length self.now.heads }
        requires second_within { second + 1 < length self.now.heads }
        ensures { IsTrue result ↔ Contains (others_of (links self.now.heads self.now.halves) first) second }
    {
        if self.head(first as usize + 1).len <= self.head(second as usize + 1).len {
            self.leads_to(first, second)
        } else {
            self.leads_to(second, first)
        }
    }

    /// Parts two ends, by the shorter of their lists.
    pub(crate) fn part_pair(&mut self, first: u32, second: u32)
        requires arena { IsArena self.old.heads self.old.halves }
        requires first_within { first + 1 < length self.old.heads }
        requires second_within { second + 1 < length self.old.heads }
        requires named { Contains (others_of (links self.old.heads self.old.halves) first) second }
        ensures arena { IsArena self.new.heads self.new.halves }
        ensures same { IsSameSize self.old self.new }
        ensures free { free_count self.old ≤ free_count self.new }
        ensures view { links self.new.heads self.new.halves ≡ parted (links self.old.heads self.old.halves) first second }
    {
        if self.head(first as usize + 1).len <= self.head(second as usize + 1).len {
            self.part_at(first, second);
        } else {
            self.part_at(second, first);
        }
    }

    /// The first half of a list.
    fn first_of(&self, id: usize) -> Option<usize>
        requires arena { IsArena self.now.heads self.now.halves }
        requires within { id < length self.now.heads }
        ensures some { IfSome result (λ s. (s < length self.now.halves) × (owner_at self.now.halves s ≡ id)) }
        ensures none { IfNone result (list_at self.now.heads self.now.halves id ≡ []) }
    {
        let head = self.head(id);
        if head.len == 0 {
            None
        } else {
            Some(head.first)
        }
    }

    /// Parts an end from the first that it is joined to, if there is one.
    fn part_first(&mut self, end: u32) -> bool
        requires arena { IsArena self.old.heads self.old.halves }
        requires within { end + 1 < length self.old.heads }
        ensures arena { IsArena self.new.heads self.new.halves }
        ensures same { IsSameSize self.old self.new }
        ensures free { free_count self.old ≤ free_count self.new }
        ensures none { OnFalse result ((others_of (links self.old.heads self.old.halves) end ≡ []) × (links self.new.heads self.new.halves ≡ links self.old.heads self.old.halves)) }
        ensures parted { OnTrue result (IsPartedSomewhere (links self.old.heads self.old.halves) end (links self.new.heads self.new.halves)) }
    {
        match self.first_of(end as usize + 1) {
            None => false,
            Some(at) => {
                self.part_by(at);
                true
            }
        }
    }

    /// Parts an end from all that it is joined to.
    pub(crate) fn part_each(&mut self, end: u32)
        requires arena { IsArena self.old.heads self.old.halves }
        requires within { end + 1 < length self.old.heads }
        ensures arena { IsArena self.new.heads self.new.halves }
        ensures same { IsSameSize self.old self.new }
        ensures free { free_count self.old ≤ free_count self.new }
        ensures view { links self.new.heads self.new.halves ≡ all_parted (links self.old.heads self.old.halves) end }
    {
        while self.part_first(end) {}
    }

    /// Joins two ends by the first free half and its twin.
    pub(crate) fn join_first(&mut self, first: u32, second: u32)
        requires arena { IsArena self.old.heads self.old.halves }
        requires first_within { first + 1 < length self.old.heads }
        requires second_within { second + 1 < length self.old.heads }
        requires apart { first ≢ second }
        requires unjoined { ¬ Contains (others_of (links self.old.heads self.old.halves) first) second }
        requires room { 0 < free_count self.old }
        ensures arena { IsArena self.new.heads self.new.halves }
        ensures same { IsSameSize self.old self.new }
        ensures free { free_count self.old ≤ free_count self.new + 2 }
        ensures view { links self.new.heads self.new.halves ≡ joined_ends (links self.old.heads self.old.halves) first second }
    {
        if let Some(at) = self.first_of(0) {
            self.join_by(at, first, second);
        }
    }
}
