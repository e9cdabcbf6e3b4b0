//! What a search has to look at. Nothing that it finds depends on it: it is told which parts of what is asked may
//! tell something new, and each of them is looked at for itself.
use crate::mentions::Mentions;
use crate::opening::is_vacant;
use crate::part::Part;
use mof_metamodel::{NoMemory, Seq};
use qvtr_semantics::Binding;
use std::alloc::Global;

/// Of how many parts that tell more than one candidate the fewest are taken. Behind them others aren't looked at,
/// so that a level of the search doesn't take the time of all that a relation asks.
pub(crate) const COMPARED_PARTS: usize = 16;

/// A part of what a search asks, and how many of the variables that it names have no value.
#[derive(Clone, Copy)]
struct Listed {
    part: Part,
    missing: usize,
}

/// A part that is to be looked at, by its number, and where the next one stands.
#[derive(Clone, Copy)]
struct Cell {
    part: usize,
    next: Option<usize>,
}

/// Where a level of the search began.
#[derive(Clone, Copy)]
struct Mark {
    first: Option<usize>,
    place: usize,
    join: usize,
}

/// The parts of what a search asks, and which of them are to be looked at for the next variable: those that tell
/// candidates once all but one of the variables that they name have values. They stand in a list, of which the
/// lists of the levels before are the ends: so a level that is left costs nothing.
#[derive(Drop)]
pub(crate) struct Agenda {
    parts: Vec<Listed>,
    /// How many variables that are sought have no value where the search begins.
    open: usize,
    mentions: Mentions,
    cells: Vec<Cell>,
    first: Option<usize>,
    /// Parts that have been looked at and tell candidates still.
    kept: Seq<usize>,
    /// No variable before this place among those that are sought is open and one for objects.
    place: usize,
    /// No join before this one has an open column.
    join: usize,
    marks: Seq<Mark>,
}

impl Listed {
    /// How many values it waits for, before it says something: a join for none.
    fn missing_values(self) -> usize {
        match self.part {
            Part::Join(_) => 0,
            _ => self.missing,
        }
    }

    /// Whether it may tell candidates: not where it asks something of one object alone.
    fn is_telling(self) -> bool {
        match self.part {
            Part::Shape(_) => false,
            _ => self.missing_values() <= 1,
        }
    }
}

impl Agenda {
    /// That of no part yet, with room for so many, over so many variables, of which some are open.
    pub(crate) fn new(
        alloc: Global,
        parts: usize,
        variables: usize,
        open: usize,
    ) -> Result<Agenda, NoMemory> {
        let mentions = Mentions::new(alloc, parts, variables)?;
        Ok(Agenda {
            parts: Vec::with_capacity(alloc, parts)?,
            open,
            mentions,
            cells: Vec::with_capacity(alloc, parts)?,
            first: None,
            kept: Seq::new(alloc),
            place: 0,
            join: 0,
            marks: Seq::new(alloc),
        })
    }

    // ---- the parts, and what they name

    /// One part more, which names no variable yet.
    pub(crate) fn add_part(&mut self, part: Part) -> Result<(), NoMemory> {
        self.parts.push(Listed { part, missing: 0 })?;
        Ok(())
    }

    /// The last part names the variable. Nothing is to be done where that has a value from the beginning.
    pub(crate) fn name(&mut self, roots: &Binding, variable: u32) -> Result<(), NoMemory> {
        if !is_vacant(roots, variable) {
            return Ok(());
        }
        let part = self.parts.len().saturating_sub(1);
        if self.mentions.add(variable, part)? {
            self.count_up(part);
        }
        Ok(())
    }

    /// A part that is listed, by its number.
    fn listed(&self, number: usize) -> Option<Listed> {
        self.parts.as_slice().get(number).copied()
    }

    /// The part of a number.
    pub(crate) fn part(&self, number: usize) -> Option<Part> {
        match self.listed(number) {
            Some(listed) => Some(listed.part),
            None => None,
        }
    }

    /// How many parts there are.
    pub(crate) fn part_count(&self) -> usize {
        self.parts.len()
    }

    /// One variable more that a part names has no value.
    fn count_up(&mut self, number: usize) {
        if number < self.parts.len() {
            self.parts[number].missing = self.parts[number].missing.saturating_add(1);
        }
    }

    /// One fewer.
    fn count_down(&mut self, number: usize) {
        if number < self.parts.len() {
            self.parts[number].missing = self.parts[number].missing.saturating_sub(1);
        }
    }

    /// The part of a number, if it says something of the values that are there: a join always does.
    pub(crate) fn settled_part(&self, number: usize) -> Option<Part> {
        match self.listed(number) {
            Some(listed) => {
                if listed.missing_values() == 0 {
                    Some(listed.part)
                } else {
                    None
                }
            }
            None => None,
        }
    }

    // ---- what is to be looked at

    /// A part is to be looked at first.
    fn put(&mut self, part: usize) -> Result<(), NoMemory> {
        let here = self.cells.len();
        let next = self.first;
        self.cells.push(Cell { part, next })?;
        self.first = Some(here);
        Ok(())
    }

    /// Whether a part may tell candidates.
    fn is_telling(&self, number: usize) -> bool {
        match self.listed(number) {
            Some(listed) => listed.is_telling(),
            None => false,
        }
    }

    /// A part is to be looked at, if it may tell candidates.
    fn put_telling(&mut self, part: usize) -> Result<(), NoMemory> {
        if self.is_telling(part) {
            self.put(part)
        } else {
            Ok(())
        }
    }

    /// All parts are to be looked at that may tell candidates, in their order.
    pub(crate) fn put_all(&mut self) -> Result<(), NoMemory> {
        for part in (0..self.parts.len()).rev() {
            self.put_telling(part)?;
        }
        Ok(())
    }

    /// How many steps the list has at most.
    pub(crate) fn len(&self) -> usize {
        self.cells.len()
    }

    /// Takes the first part from the list.
    pub(crate) fn take(&mut self) -> Option<usize> {
        match self.first {
            Some(first) => match self.cells.as_slice().get(first) {
                Some(cell) => {
                    let Cell { part, next } = *cell;
                    self.first = next;
                    Some(part)
                }
                None => None,
            },
            None => None,
        }
    }

    /// Keeps a part that has been taken.
    pub(crate) fn keep(&mut self, part: usize) -> Result<(), NoMemory> {
        self.kept.push(part)
    }

    /// How many parts are kept.
    pub(crate) fn kept_count(&self) -> usize {
        self.kept.len()
    }

    /// Puts what has been kept back into the list.
    pub(crate) fn put_back(&mut self) -> Result<(), NoMemory> {
        for _ in 0..self.kept.len() {
            match self.kept.pop() {
                Some(part) => self.put(part)?,
                None => return Ok(()),
            }
        }
        Ok(())
    }

    // ---- levels

    /// Whether each variable that is sought has a value.
    pub(crate) fn is_full(&self) -> bool {
        self.marks.len() >= self.open
    }

    /// Whether there are so few parts that all are tested in about the time of those that name one variable.
    pub(crate) fn is_small(&self) -> bool {
        self.parts.len() <= COMPARED_PARTS
    }

    /// A level begins that gives the variable values.
    pub(crate) fn open_level(&mut self, variable: u32) -> Result<(), NoMemory> {
        let mut at = self.mentions.first(variable);
        for _ in 0..self.mentions.len() {
            match self.mentions.at(at) {
                Some(mention) => {
                    self.count_down(mention.part);
                    self.put_telling(mention.part)?;
                    at = self.mentions.behind(mention);
                }
                None => break,
            }
        }
        self.marks.push(Mark {
            first: self.first,
            place: self.place,
            join: self.join,
        })
    }

    /// The variable of the last level gets another value.
    pub(crate) fn restart(&mut self) {
        if let Some(mark) = self.marks.as_slice().last() {
            let Mark { first, place, join } = *mark;
            self.first = first;
            self.place = place;
            self.join = join;
            self.cells.truncate(end_of(first));
        }
    }

    /// The last level ends, which gave the variable values.
    pub(crate) fn close_level(&mut self, variable: u32) {
        self.marks.pop();
        let mut at = self.mentions.first(variable);
        for _ in 0..self.mentions.len() {
            match self.mentions.at(at) {
                Some(mention) => {
                    self.count_up(mention.part);
                    at = self.mentions.behind(mention);
                }
                None => return,
            }
        }
    }

    /// The parts that name a variable: how many there are at most, where the first stands, and the one at a place.
    pub(crate) fn mentions(&self) -> &Mentions {
        &self.mentions
    }

    /// The first place where a variable for objects may be open.
    pub(crate) fn place(&self) -> usize {
        self.place
    }

    /// None is before this place.
    pub(crate) fn set_place(&mut self, place: usize) {
        self.place = place;
    }

    /// The number of the first join that may have an open column.
    pub(crate) fn join(&self) -> usize {
        self.join
    }

    /// None is before this one.
    pub(crate) fn set_join(&mut self, join: usize) {
        self.join = join;
    }
}

/// How many cells a list needs that begins there: each stands behind its next.
fn end_of(first: Option<usize>) -> usize {
    match first {
        Some(first) => first.saturating_add(1),
        None => 0,
    }
}
