//! What the account asks of properties, by their numbers.
use mof_metamodel::{ClassId, MetaModel, NoMemory, Prop, PropId};
use std::alloc::Global;

/// What is asked of a property.
#[derive(Clone, Copy)]
pub struct PropFacts {
    pub lower: u32,
    pub upper: Option<u32>,
    pub composite: bool,
    pub opposite: Option<PropId>,
}

fn facts_of(prop: &Prop) -> PropFacts {
    PropFacts {
        lower: prop.lower,
        upper: prop.upper,
        composite: prop.composite,
        opposite: prop.opposite,
    }
}

/// Facts of properties by their numbers; nothing of one that no class has.
#[derive(Drop)]
pub struct FactTable {
    facts: Vec<Option<PropFacts>>,
}

impl FactTable {
    /// The facts of a metamodel.
    pub fn new(alloc: Global, meta: &MetaModel) -> Result<FactTable, NoMemory> {
        let mut table = FactTable {
            facts: Vec::new(alloc),
        };
        for class in 0..meta.class_count() {
            for prop in meta.props(ClassId(class)) {
                table.put(*prop, facts_of(meta.prop(*prop)))?;
            }
        }
        Ok(table)
    }

    fn put(&mut self, prop: PropId, facts: PropFacts) -> Result<(), NoMemory> {
        let place = prop.0 as usize;
        if place >= self.facts.len() {
            self.facts.resize(place + 1, None)?;
        }
        if let Some(slot) = self.facts.get_mut(place) {
            *slot = Some(facts);
        }
        Ok(())
    }

    /// The facts of a property.
    pub fn get(&self, prop: PropId) -> Option<PropFacts> {
        match self.facts.get(prop.0 as usize) {
            Some(facts) => *facts,
            None => None,
        }
    }

    /// Whether it is a composite property.
    pub fn is_composite(&self, prop: PropId) -> bool {
        self.get(prop).is_some_and(|facts| facts.composite)
    }

    /// Whether its upper bound is 1.
    pub fn is_single(&self, prop: PropId) -> bool {
        self.get(prop).is_some_and(|facts| facts.upper == Some(1))
    }
}
