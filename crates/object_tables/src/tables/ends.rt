ghost use Rattle.std.specs.Prelude.{◌≡◌, ◌≢◌, ℕ, ◌+◌, ◌<◌, ◌^◌, [], ◌∷◌, ◌++◌, length, IfOk, OnOk, OnErr};
ghost use Rattle.link_arena.specs.Links.{IsSimple, with_ends};
ghost use Rattle.object_tables.specs.Flat.{number_at, end_at, IsSpot, IsFlat, IsGrown};

use crate::tables::stored::write_number;
use crate::tables::{Entry, Home, number_of};
use link_arena::Arena;
use std::alloc::AllocError;

/// Adds an end that is joined to nothing, and gives its number.
fn add_end(homes: &mut Vec<Home>, arena: &mut Arena, home: Home) -> Result<u32, AllocError>
    requires same { length arena.old.links ≡ length homes.old.items }
    requires room { length arena.old.links + 1 < 2 ^ 32 }
    ensures simple { IsSimple arena.old.links }
    ensures number { IfOk result (λ e. e ≡ length homes.old.items) }
    ensures homes { OnOk result (homes.new.items ≡ homes.old.items ++ home ∷ []) }
    ensures arena { OnOk result (arena.new ≡ with_ends arena.old 1) }
    ensures homes_stay { OnErr result (homes.new.items ≡ homes.old.items) }
    ensures arena_stays { OnErr result (arena.new ≡ arena.old) }
{
    let count = arena.end_count();
    homes.reserve(1)?;
    arena.add_ends(1)?;
    homes.push_reserved(home);
    Ok(count)
}

/// Sees to it that there is the end 0.
pub(super) fn need_no_end(
    entries: &[Entry],
    index: &[u32],
    homes: &mut Vec<Home>,
    arena: &mut Arena,
) -> Result<(), AllocError>
    requires { IsFlat entries.now index.now homes.old.items arena.old.links }
    ensures grown { IsGrown entries.now index.now homes.old.items arena.old.links index.now homes.new.items arena.new.links }
    ensures some { OnOk result (0 < length homes.new.items) }
{
    let _ = entries;
    let _ = index;
    if homes.len() != 0 {
        return Ok(());
    }
    let home = Home {
        object: 0,
        place: 0,
    };
    add_end(homes, arena, home)?;
    Ok(())
}

/// Sees to it that a place is an end, and gives it.
fn need_end(
    entries: &[Entry],
    index: &mut Vec<u32>,
    homes: &mut Vec<Home>,
    arena: &mut Arena,
    at: (u32, u32),
) -> Result<u32, AllocError>
    requires flat { IsFlat entries.now index.old.items homes.old.items arena.old.links }
    requires spot { IsSpot entries.now at.0 at.1 }
    ensures grown { IsGrown entries.now index.old.items homes.old.items arena.old.links index.new.items homes.new.items arena.new.links }
    ensures end { IfOk result (λ e. e ≡ end_at entries.now index.new.items at.0 at.1) }
    ensures some { IfOk result (λ e. e ≢ 0) }
{
    let n = number_of(entries, at.0, at.1);
    let end = index[n as usize];
    if end != 0 {
        return Ok(end);
    }
    let home = Home {
        object: at.0,
        place: at.1,
    };
    let end = add_end(homes, arena, home)?;
    write_number(index, n, end);
    Ok(end)
}

/// Sees to it that two places are ends, and gives them.
pub(super) fn need_ends(
    entries: &[Entry],
    index: &mut Vec<u32>,
    homes: &mut Vec<Home>,
    arena: &mut Arena,
    at: (u32, u32),
    other: (u32, u32),
) -> Result<(u32, u32), AllocError>
    requires flat { IsFlat entries.now index.old.items homes.old.items arena.old.links }
    requires spot { IsSpot entries.now at.0 at.1 }
    requires other_spot { IsSpot entries.now other.0 other.1 }
    ensures grown { IsGrown entries.now index.old.items homes.old.items arena.old.links index.new.items homes.new.items arena.new.links }
    ensures first { IfOk result (λ e. e.0 ≡ end_at entries.now index.new.items at.0 at.1) }
    ensures first_some { IfOk result (λ e. e.0 ≢ 0) }
    ensures second { IfOk result (λ e. e.1 ≡ end_at entries.now index.new.items other.0 other.1) }
    ensures second_some { IfOk result (λ e. e.1 ≢ 0) }
{
    let first = need_end(entries, index, homes, arena, at)?;
    let second = need_end(entries, index, homes, arena, other)?;
    Ok((first, second))
}
