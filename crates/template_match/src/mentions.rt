use mof_metamodel::NoMemory;
use std::alloc::Global;

/// A part that names a variable, by its number, and where the next one stands that does.
#[derive(Clone, Copy)]
pub(crate) struct Mention {
    pub(crate) part: usize,
    next: Option<usize>,
}

/// Which parts of what a search asks name a variable: for each variable its parts, one behind another.
#[derive(Drop)]
pub(crate) struct Mentions {
    firsts: Vec<Option<usize>>,
    mentions: Vec<Mention>,
}

impl Mentions {
    /// None yet, with room for some, of so many variables.
    pub(crate) fn new(alloc: Global, room: usize, variables: usize) -> Result<Mentions, NoMemory> {
        let firsts = Vec::from_elem(alloc, None, variables)?;
        let mentions = Vec::with_capacity(alloc, room)?;
        Ok(Mentions { firsts, mentions })
    }

    /// How many there are.
    pub(crate) fn len(&self) -> usize {
        self.mentions.len()
    }

    /// Where the first part stands that names the variable.
    pub(crate) fn first(&self, variable: u32) -> Option<usize> {
        match self.firsts.get(variable as usize) {
            Some(first) => *first,
            None => None,
        }
    }

    /// The part that stands there, if one does.
    pub(crate) fn at(&self, place: Option<usize>) -> Option<Mention> {
        match place {
            Some(place) => self.mentions.as_slice().get(place).copied(),
            None => None,
        }
    }

    /// The place behind one.
    pub(crate) fn behind(&self, mention: Mention) -> Option<usize> {
        mention.next
    }

    /// Whether the part is the first one that names the variable.
    fn is_first(&self, variable: u32, part: usize) -> bool {
        match self.at(self.first(variable)) {
            Some(mention) => mention.part == part,
            None => false,
        }
    }

    /// Puts a part first that names the variable, unless it is. Answers whether it has been put there.
    pub(crate) fn add(&mut self, variable: u32, part: usize) -> Result<bool, NoMemory> {
        let place = variable as usize;
        if place >= self.firsts.len() || self.is_first(variable, part) {
            return Ok(false);
        }
        let here = self.mentions.len();
        let next = self.first(variable);
        self.mentions.push(Mention { part, next })?;
        self.firsts[place] = Some(here);
        Ok(true)
    }
}
