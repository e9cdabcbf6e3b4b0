ghost use Rattle.std.specs.Prelude.{◌≡◌, ◌<◌, length, IfOk};
ghost use Rattle.link_arena.specs.Links.{others_of};

use link_arena::Arena;
use std::alloc::{AllocError, Global};

/// An arena with so many ends.
pub(crate) fn with_ends(alloc: Global, count: u32) -> Result<Arena, AllocError> {
    let mut arena = Arena::new(alloc);
    if count < u32::MAX {
        arena.add_ends(count)?;
    }
    Ok(arena)
}

/// Joins two ends that may be joined.
pub(crate) fn join(arena: &mut Arena, first: u32, second: u32) -> Result<(), AllocError> {
    let count = arena.end_count();
    if first == second || first >= count || second >= count {
        return Ok(());
    }
    if arena.is_joined(first, second) {
        return Ok(());
    }
    arena.join(first, second)
}

/// Parts two ends that are joined.
pub(crate) fn part(arena: &mut Arena, first: u32, second: u32) {
    let count = arena.end_count();
    if first < count && second < count && arena.is_joined(first, second) {
        arena.part(first, second);
    }
}

/// Parts an end that is there from all.
pub(crate) fn part_all(arena: &mut Arena, end: u32) {
    if end < arena.end_count() {
        arena.part_all(end);
    }
}

/// The ends that an end is joined to.
fn listed(alloc: Global, arena: &Arena, end: u32) -> Result<Vec<u32>, AllocError>
    requires { end < length arena.now.links }
    ensures { IfOk result (λ order. order.items ≡ others_of arena.now.links end) }
{
    arena.others(end).collect(alloc)
}

/// Turns the order of an end that is there.
pub(crate) fn reverse(alloc: Global, arena: &mut Arena, end: u32) -> Result<(), AllocError> {
    if end >= arena.end_count() {
        return Ok(());
    }
    let mut order = listed(alloc, arena, end)?;
    order.reverse();
    arena.set_order(end, order.as_slice());
    Ok(())
}

/// Joins the ends of an arena that has so many in a ring: each to the next one and to the seventh.
pub(crate) fn join_ring(arena: &mut Arena, count: u32) -> Result<(), AllocError> {
    for end in 0..count {
        let next = (u64::from(end) + 1) % u64::from(count);
        let seventh = (u64::from(end) + 7) % u64::from(count);
        join(arena, end, next as u32)?;
        join(arena, end, seventh as u32)?;
    }
    Ok(())
}

/// Joins end 0 of an arena that has so many ends to each other one.
pub(crate) fn join_star(arena: &mut Arena, count: u32) -> Result<(), AllocError> {
    for end in 1..count {
        join(arena, 0, end)?;
    }
    Ok(())
}
