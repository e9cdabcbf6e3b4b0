//! Calls between relations, and whether relations are satisfied (QVT 1.3, sections 7.3 and 7.10.2), by trying
//! all: a call in a when clause asks for a match, one in a where clause that each binding of the called
//! relation has a partner. For scripts whose calls don't come back to their relation.
use crate::plain_error::PlainError;
use crate::plain_reading::Reading;
use crate::plain_search::plain_bindings;
use mof_metamodel::{NoMemory, Seq};
use ocl_eval::{Models, datum_of, duplicate_datum, eval};
use qv_syntax::{Conj, Program, Rel, Typed};
use qvtr_semantics::{Binding, Datum};
use std::alloc::Global;
use template_match::Side;

/// How many calls are made within one another, at most.
const DEPTH: u32 = 8;

/// A program over models, with all values that its variables may have.
#[derive(Clone, Copy)]
pub struct Account<'a, 'm> {
    pub alloc: Global,
    pub program: &'a Program,
    pub models: &'a Models<'m>,
    pub all: &'a [Datum],
}

/// The first relation that isn't satisfied, with its first binding without a partner.
#[derive(Drop)]
pub struct Failing {
    pub relation: u32,
    pub binding: Binding,
}

/// No values for the variables of a relation.
pub fn no_values(alloc: Global, rel: &Rel) -> Result<Binding, NoMemory> {
    let mut values = Seq::new(alloc);
    for _var in rel.vars.as_slice() {
        values.push(None)?;
    }
    Ok(Binding { values })
}

/// Gives a variable a value.
pub fn with_value(binding: Binding, variable: u32, datum: Datum) -> Binding {
    let mut values = binding.values.into_vec();
    match values.get_mut(variable as usize) {
        Some(place) => *place = Some(datum),
        None => drop(datum),
    }
    Binding {
        values: Seq::from_vec(values),
    }
}

impl<'a, 'm> Account<'a, 'm> {
    /// A relation to be read.
    pub fn reading(&self, rel: &'a Rel) -> Reading<'a, 'm> {
        Reading {
            alloc: self.alloc,
            program: self.program,
            models: self.models,
            rel,
        }
    }

    /// The datum that an expression gives, if it gives one.
    fn given(&self, value: &Typed, binding: &Binding) -> Result<Option<Datum>, NoMemory> {
        let out = eval(self.alloc, self.program, value, self.models, binding)?;
        match datum_of(&out) {
            Some(datum) => Ok(Some(duplicate_datum(self.alloc, datum)?)),
            None => Ok(None),
        }
    }

    /// The roots that arguments give, if each gives one.
    fn roots(
        &self,
        rel: &Rel,
        arguments: &[Typed],
        binding: &Binding,
    ) -> Result<Option<Binding>, NoMemory> {
        let mut roots = no_values(self.alloc, rel)?;
        for (argument, dom) in arguments.iter().zip(rel.domains.as_slice()) {
            match self.given(argument, binding)? {
                Some(datum) => roots = with_value(roots, dom.root, datum),
                None => return Ok(None),
            }
        }
        Ok(Some(roots))
    }
}

/// Whether the calls in a side's clause match or hold.
#[cycle(plain_calls)]
fn calls_hold<'a>(
    of: &Account<'a, '_>,
    rel: &'a Rel,
    side: Side,
    binding: &Binding,
    depth: u32,
) -> Result<bool, PlainError> {
    for conjunct in of.reading(rel).clause(side) {
        if let Conj::Call(number, arguments) = conjunct {
            if !call_holds(of, side, *number, arguments.as_slice(), binding, depth)? {
                return Ok(false);
            }
        }
    }
    Ok(true)
}

#[cycle(plain_calls)]
fn call_holds(
    of: &Account<'_, '_>,
    side: Side,
    number: u32,
    arguments: &[Typed],
    binding: &Binding,
    depth: u32,
) -> Result<bool, PlainError> {
    if depth == 0 {
        return Ok(false);
    }
    let Some(rel) = of.program.rels.as_slice().get(number as usize) else {
        return Ok(false);
    };
    match of.roots(rel, arguments, binding)? {
        Some(roots) => match side {
            Side::Source => has_match(of, rel, &roots, depth - 1),
            Side::Target => Ok(failing_with(of, rel, &roots, depth - 1)?.is_none()),
        },
        None => Ok(false),
    }
}

/// Whether some binding with these roots has a partner.
#[cycle(plain_calls)]
fn has_match<'a>(
    of: &Account<'a, '_>,
    rel: &'a Rel,
    roots: &Binding,
    depth: u32,
) -> Result<bool, PlainError> {
    for binding in plain_bindings(&of.reading(rel), of.all, Side::Source, roots)? {
        if calls_hold(of, rel, Side::Source, &binding, depth)?
            && has_partner(of, rel, &binding, depth)?
        {
            return Ok(true);
        }
    }
    Ok(false)
}

/// The first binding with these roots without a partner.
#[cycle(plain_calls)]
fn failing_with<'a>(
    of: &Account<'a, '_>,
    rel: &'a Rel,
    roots: &Binding,
    depth: u32,
) -> Result<Option<Binding>, PlainError> {
    for binding in plain_bindings(&of.reading(rel), of.all, Side::Source, roots)? {
        if calls_hold(of, rel, Side::Source, &binding, depth)?
            && !has_partner(of, rel, &binding, depth)?
        {
            return Ok(Some(binding));
        }
    }
    Ok(None)
}

/// Whether a binding of the source has a partner.
#[cycle(plain_calls)]
fn has_partner<'a>(
    of: &Account<'a, '_>,
    rel: &'a Rel,
    binding: &Binding,
    depth: u32,
) -> Result<bool, PlainError> {
    for partner in plain_bindings(&of.reading(rel), of.all, Side::Target, binding)? {
        if calls_hold(of, rel, Side::Target, &partner, depth)? {
            return Ok(true);
        }
    }
    Ok(false)
}

/// The first binding of a relation without a partner, if it is a top relation of the direction.
fn failing_of<'a>(of: &Account<'a, '_>, rel: &'a Rel) -> Result<Option<Binding>, PlainError> {
    if !rel.top || !rel.in_direction {
        return Ok(None);
    }
    let roots = no_values(of.alloc, rel)?;
    failing_with(of, rel, &roots, DEPTH)
}

/// The first relation that isn't satisfied, if there is one.
pub fn first_failing(of: &Account<'_, '_>) -> Result<Option<Failing>, PlainError> {
    let mut relation = 0u32;
    for rel in of.program.rels.as_slice() {
        if let Some(binding) = failing_of(of, rel)? {
            return Ok(Some(Failing { relation, binding }));
        }
        relation = relation.saturating_add(1);
    }
    Ok(None)
}
