ghost use Rattle.std.specs.Prelude.{◌≡◌, ℕ, ◌<◌, ◌≤◌, ◌^◌, map, ◌∷◌, []};
ghost use Rattle.std.specs.Iterator.{YieldsFirst, item_count};
ghost use Rattle.link_arena.specs.Threads.{walk};
ghost use Rattle.link_arena.specs.Lists.{nexts, owners, list_of};
ghost use Rattle.link_arena.specs.Twins.{other, IsListed};

use crate::half::Head;
use crate::joins::Joins;
use crate::sides::twin_of;
use std::marker::Model;

/// The ends that an end is joined to, in its order. Contracts see it as the list of those that are left.
#[derive(Drop)]
pub struct Others<'a> {
    joins: &'a Joins,
    at: usize,
    left: usize,
}

impl<'a> Model for Others<'a> {
    ghost use Rattle.std.specs.Prelude.{List, ℕ, map};
    ghost use Rattle.link_arena.specs.Threads.{walk};
    ghost use Rattle.link_arena.specs.Lists.{nexts, owners};
    ghost use Rattle.link_arena.specs.Twins.{other, IsListed};

    ghost Value = { List ℕ };

    ghost view = { λ others. map (other (owners others.joins.now.halves)) (walk (nexts others.joins.now.halves) others.left others.at) };

    ghost invariant = { λ others. IsListed others.joins.now.halves (walk (nexts others.joins.now.halves) others.left others.at) };
}

impl<'a> Others<'a> {
    /// The ends that a list's halves lead to.
    pub(crate) fn new(joins: &'a Joins, head: Head) -> Others<'a>
        requires { IsListed joins.now.halves (list_of joins.now.halves head) }
        ensures { result ≡ map (other (owners joins.now.halves)) (list_of joins.now.halves head) }
    {
        Others {
            joins,
            at: head.first,
            left: head.len,
        }
    }
}

/// The end that a half leads to.
fn end_of(joins: &Joins, at: usize) -> u32
    requires { IsListed joins.now.halves (at ∷ []) }
    ensures { result ≡ other (owners joins.now.halves) at }
{
    (joins.owner_of(twin_of(at)) - 1) as u32
}

impl<'a> Iterator for Others<'a> {
    type Item = u32;

    ghost next_gives = { YieldsFirst (λ others. others) };

    ghost remaining = { item_count (λ others. others) };

    fn next(&mut self) -> Option<u32> {
        if self.left == 0 {
            return None;
        }
        let at = self.at;
        self.at = self.joins.next_of(at);
        self.left -= 1;
        Some(end_of(self.joins, at))
    }
}
