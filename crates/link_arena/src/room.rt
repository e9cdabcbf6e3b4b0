ghost use Rattle.std.specs.Prelude.{◌≡◌, ◌≢◌, ◌+◌, ◌*◌, ◌<◌, ◌≤◌, length, take, IsOk, OnOk, OnErr, Contains};
ghost use Rattle.link_arena.specs.Links.{others_of, joined_ends};
ghost use Rattle.link_arena.specs.Lists.{list_at, free_count, IsSameSize};
ghost use Rattle.link_arena.specs.Twins.{links, IsArena, IsGrown};

use crate::joins::Joins;
use std::alloc::AllocError;

impl Joins {
    /// Puts the halves of a new row, from a place on, in the list of the free ones.
    fn thread_row(&mut self, at: usize)
        requires { IsGrown self.old.heads (take at self.old.halves) self.old.halves at }
        ensures arena { IsArena self.new.heads self.new.halves }
        ensures same { IsSameSize self.old self.new }
        ensures view { links self.new.heads self.new.halves ≡ links self.old.heads (take at self.old.halves) }
        ensures room { free_count self.new ≡ length (list_at self.old.heads (take at self.old.halves) 0) + 2 }
    {
        self.link(0, at);
        self.link(0, at + 1);
    }

    /// Adds a free row.
    fn add_row(&mut self) -> Result<(), AllocError>
        requires arena { IsArena self.old.heads self.old.halves }
        requires within { 0 < length self.old.heads }
        ensures arena { IsArena self.new.heads self.new.halves }
        ensures same { IsSameSize self.old self.new }
        ensures view { links self.new.heads self.new.halves ≡ links self.old.heads self.old.halves }
        ensures free { free_count self.old ≤ free_count self.new }
        ensures room { OnOk result (free_count self.new ≡ free_count self.old + 2) }
    {
        let at = self.half_count();
        self.push_row()?;
        self.thread_row(at);
        Ok(())
    }

    /// Sees to it that a row is free.
    fn need_row(&mut self) -> Result<(), AllocError>
        requires arena { IsArena self.old.heads self.old.halves }
        requires within { 0 < length self.old.heads }
        ensures arena { IsArena self.new.heads self.new.halves }
        ensures same { IsSameSize self.old self.new }
        ensures view { links self.new.heads self.new.halves ≡ links self.old.heads self.old.halves }
        ensures free { free_count self.old ≤ free_count self.new }
        ensures some { OnOk result (0 < free_count self.new) }
        ensures room { 0 < free_count self.old → IsOk result }
    {
        if self.head(0).len == 0 {
            return self.add_row();
        }
        Ok(())
    }

    /// Sees to it that so many rows are free. Those that were added without memory for all stay free.
    pub(crate) fn reserve_rows(&mut self, count: usize) -> Result<(), AllocError>
        requires arena { IsArena self.old.heads self.old.halves }
        requires within { 0 < length self.old.heads }
        ensures arena { IsArena self.new.heads self.new.halves }
        ensures same { IsSameSize self.old self.new }
        ensures view { links self.new.heads self.new.halves ≡ links self.old.heads self.old.halves }
        ensures free { free_count self.old ≤ free_count self.new }
        ensures room { OnOk result (2 * count ≤ free_count self.new) }
    {
        while self.head(0).len / 2 < count {
            self.add_row()?;
        }
        Ok(())
    }

    /// Joins two ends, last at each.
    pub(crate) fn join_at(&mut self, first: u32, second: u32) -> Result<(), AllocError>
        requires arena { IsArena self.old.heads self.old.halves }
        requires first_within { first + 1 < length self.old.heads }
        requires second_within { second + 1 < length self.old.heads }
        requires apart { first ≢ second }
        requires unjoined { ¬ Contains (others_of (links self.old.heads self.old.halves) first) second }
        ensures arena { IsArena self.new.heads self.new.halves }
        ensures same { IsSameSize self.old self.new }
        ensures free { OnOk result (free_count self.old ≤ free_count self.new + 2) }
        ensures free_stay { OnErr result (free_count self.old ≤ free_count self.new) }
        ensures room { 0 < free_count self.old → IsOk result }
        ensures ok { OnOk result (links self.new.heads self.new.halves ≡ joined_ends (links self.old.heads self.old.halves) first second) }
        ensures err { OnErr result (links self.new.heads self.new.halves ≡ links self.old.heads self.old.halves) }
    {
        self.need_row()?;
        self.join_first(first, second);
        Ok(())
    }
}
