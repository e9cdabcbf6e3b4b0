use crate::links::editing::{join, join_ring, join_star, part, part_all, reverse, with_ends};
use case_texts::Pen;
use link_arena::Arena;
use mof_metamodel::{NoMemory, Text};
use std::alloc::{AllocError, Global};

/// What stands before a case: an arena, and a copy of one.
#[derive(Drop)]
pub(crate) struct Arenas {
    alloc: Global,
    arena: Arena,
    copy: Arena,
}

/// The first word of a text, and what stands behind the space after it.
fn split_word(text: &str) -> (&str, &str) {
    text.split_once(' ').unwrap_or((text, ""))
}

/// A number of a case. What is no number is 0.
fn number(word: &str) -> u32 {
    word.parse::<u32>().unwrap_or(0)
}

/// Whether a line asks for something: `ends?`, `others` and `others_in_copy`. The other lines edit the arena.
pub(crate) fn is_question(line: &str) -> bool {
    let (verb, _) = split_word(line);
    matches!(verb, "ends?" | "others" | "others_in_copy")
}

/// Writes how many ends an end is joined to, and which.
fn put_others(alloc: Global, pen: &mut Pen, arena: &Arena, end: u32) {
    if end >= arena.end_count() {
        pen.put("no such end");
        return;
    }
    let degree = arena.degree(end);
    pen.put_string(format!(in alloc; "{degree}:"));
    for other in arena.others(end) {
        pen.put_string(format!(in alloc; " {other}"));
    }
}

/// Puts another arena in place of one, which is let go here alone.
fn put(place: &mut Arena, arena: Arena) {
    *place = arena;
}

impl Arenas {
    /// Two arenas without ends.
    pub(crate) fn new(alloc: Global) -> Arenas {
        Arenas {
            alloc,
            arena: Arena::new(alloc),
            copy: Arena::new(alloc),
        }
    }

    /// The answer to a line that asks for something:
    ///
    /// - `ends?`: how many ends there are,
    /// - `others A`, `others_in_copy A`: how many ends an end is joined to, and which.
    pub(crate) fn answer(&self, line: &str) -> Result<Text, NoMemory> {
        let mut pen = Pen::new(self.alloc)?;
        let (verb, end) = split_word(line);
        match verb {
            "others" => put_others(self.alloc, &mut pen, &self.arena, number(end)),
            "others_in_copy" => put_others(self.alloc, &mut pen, &self.copy, number(end)),
            _ => {
                let count = self.arena.end_count();
                pen.put_string(format!(in self.alloc; "{count}"));
            }
        }
        pen.written()
    }

    /// Begins an arena with so many ends.
    fn begin(&mut self, count: u32) -> Result<(), AllocError> {
        put(&mut self.arena, with_ends(self.alloc, count)?);
        Ok(())
    }

    fn begin_ring(&mut self, count: u32) -> Result<(), AllocError> {
        self.begin(count)?;
        join_ring(&mut self.arena, count)
    }

    fn begin_star(&mut self, count: u32) -> Result<(), AllocError> {
        self.begin(count)?;
        join_star(&mut self.arena, count)
    }

    fn keep_copy(&mut self) -> Result<(), AllocError> {
        put(&mut self.copy, self.arena.duplicate(self.alloc)?);
        Ok(())
    }

    /// Does what a line says that asks for nothing. Where its ends aren't there, or are joined where they may
    /// not be, it does nothing.
    ///
    /// - `ends COUNT` begins an arena with so many ends, `ring COUNT` the same with each end joined to the
    ///   next one and to the seventh, `star COUNT` with end 0 joined to each other one,
    /// - `reserve ENDS JOINS` makes room for so many more,
    /// - `join A B`, `part A B`, `part_all A` edit the arena, `part_evens` parts each even end from all,
    ///   `part_from A B` end A from B and all ends above, `reverse A` turns the order of an end,
    /// - `copy` keeps a copy of the arena.
    pub(crate) fn edit(&mut self, line: &str) -> Result<(), AllocError> {
        let (verb, rest) = split_word(line);
        let (first, second) = split_word(rest);
        let (first, second) = (number(first), number(second));
        match verb {
            "ends" => self.begin(first),
            "ring" => self.begin_ring(first),
            "star" => self.begin_star(first),
            "reserve" => self.arena.reserve(first, second as usize),
            "join" => join(&mut self.arena, first, second),
            "reverse" => reverse(self.alloc, &mut self.arena, first),
            "copy" => self.keep_copy(),
            _ => {
                self.take_apart(verb, first, second);
                Ok(())
            }
        }
    }

    fn take_apart(&mut self, verb: &str, first: u32, second: u32) {
        match verb {
            "part" => part(&mut self.arena, first, second),
            "part_all" => part_all(&mut self.arena, first),
            "part_evens" => self.part_evens(),
            "part_from" => self.part_from(first, second),
            _ => {}
        }
    }

    fn part_evens(&mut self) {
        for half in 0..self.arena.end_count() / 2 {
            part_all(&mut self.arena, 2 * half);
        }
    }

    fn part_from(&mut self, end: u32, least: u32) {
        for other in least..self.arena.end_count() {
            part(&mut self.arena, end, other);
        }
    }
}
