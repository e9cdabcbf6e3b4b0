ghost use Rattle.std.specs.Prelude.{◌≡◌, ◌≢◌, ◌↔◌, ◌⊎◌, [], map, length, Contains, AllPairs, IfOk, OnOk, OnErr};
ghost use Rattle.entry_bindings.specs.Joins.{agrees, agree, is_match, matching};
ghost use Rattle.entry_bindings.specs.MatchKeys.{root_of, is_open, key_of, first_side, last_side};
ghost use Rattle.entry_bindings.specs.declared.matching.Match.{Match};
ghost use Rattle.std.specs.List.{list_any};

use crate::argument::Argument;
use crate::match_key::{MatchKey, Side};
use crate::matching::{Match, duplicate_match};
use crate::starts::is_term;
use mof_metamodel::{NoMemory, Seq};
use std::alloc::Global;
use std::collections::BTreeSet;
use std::marker::Model;
use term_table::{NumberedValue, duplicate_numbered};

/// What calls in when clauses look for: the names of the entries of top relations that were found so far. Those that may be meant by a
/// call are found by the data among its roots, in the logarithm of the number of all and the number of those with the same data.
#[derive(Drop)]
pub struct MatchTable {
    keys: BTreeSet<MatchKey>,
}

impl Model for MatchTable {
    ghost use Rattle.std.specs.Prelude.{List};
    ghost use Rattle.entry_bindings.specs.declared.matching.Match.{Match};
    ghost use Rattle.entry_bindings.specs.MatchKeys.{matches_of, AreThemselves};

    ghost Value = { List Match };

    ghost view = { λ t. matches_of t.keys.keys };

    ghost invariant = { λ t. AreThemselves t.keys.keys };
}

/// Whether a match may have this value at the root of an argument.
fn agrees(argument: &Argument, root: &NumberedValue) -> bool
    ensures { result ≡ agrees argument.now root.now }
{
    match argument {
        Argument::Given(value) => value == root,
        Argument::Open(_) => is_term(root),
    }
}

/// Whether a match may have these roots.
#[tactic(auto, using(crate::proofs::StepLaws::agree_not, crate::proofs::StepLaws::agree_ended))]
fn agree(given: &[Argument], roots: &[NumberedValue]) -> bool
    ensures { result ≡ agree given.now roots.now }
{
    if given.len() != roots.len() {
        return false;
    }
    for i in 0..given.len() {
        if !agrees(&given[i], &roots[i]) {
            return false;
        }
    }
    true
}

/// Whether the match is of the relation and agrees with what its roots get.
fn is_match(number: u32, given: &[Argument], found: &Match) -> bool
    ensures { result ≡ is_match number given.now found.now }
{
    found.rel == number && agree(given, found.roots.as_slice())
}

/// What stands for an argument in a key.
fn root_of(alloc: Global, argument: &Argument) -> Result<NumberedValue, NoMemory>
    ensures { IfOk result (λ root. root ≡ root_of argument.now) }
{
    match argument {
        Argument::Given(value) => duplicate_numbered(alloc, value),
        Argument::Open(_) => Ok(NumberedValue::Term(0)),
    }
}

/// What stands for arguments in a key.
fn roots_of(alloc: Global, given: &[Argument]) -> Result<Seq<NumberedValue>, NoMemory>
    ensures { IfOk result (λ roots. roots ≡ map root_of given.now) }
{
    let mut roots = Seq::new(alloc);
    for argument in given {
        roots.push(root_of(alloc, argument)?)?;
    }
    Ok(roots)
}

/// The key of a call at a side.
fn key_of(alloc: Global, rel: u32, given: &[Argument], side: Side) -> Result<MatchKey, NoMemory>
    ensures { IfOk result (λ key. key ≡ key_of rel given.now side) }
{
    let roots = roots_of(alloc, given)?;
    Ok(MatchKey {
        found: Match { rel, roots },
        side,
    })
}

/// Whether an argument is open.
fn is_open(argument: &Argument) -> bool
    ensures { result ≡ is_open argument.now }
{
    match argument {
        Argument::Given(_) => false,
        Argument::Open(_) => true,
    }
}

/// Whether one of the arguments is open.
fn is_any_open(given: &[Argument]) -> bool
    ensures { result ≡ list_any is_open given.now }
{
    for argument in given {
        if is_open(argument) {
            return true;
        }
    }
    false
}

/// Where the matches of a call begin.
fn first_side(given: &[Argument]) -> Side
    ensures { result ≡ first_side given.now }
{
    if is_any_open(given) {
        Side::Before
    } else {
        Side::Itself
    }
}

/// Where they end.
fn last_side(given: &[Argument]) -> Side
    ensures { result ≡ last_side given.now }
{
    if is_any_open(given) {
        Side::Behind
    } else {
        Side::Itself
    }
}

impl MatchTable {
    /// Without matches. It takes no memory.
    pub fn new(alloc: Global) -> MatchTable
        ensures { result ≡ [] }
    {
        MatchTable {
            keys: BTreeSet::new(alloc),
        }
    }

    /// With one more match, if it isn't there.
    pub fn add(&mut self, found: Match) -> Result<(), NoMemory>
        ensures added { OnOk result ((m : Match) → Contains self.new m ↔ (Contains self.old m ⊎ (found ≡ m))) }
        ensures unchanged { OnErr result (self.new ≡ self.old) }
    {
        self.keys.insert(MatchKey {
            found,
            side: Side::Itself,
        })?;
        Ok(())
    }

    /// How many matches there are.
    pub fn len(&self) -> usize
        ensures len { result ≡ length self.now }
        ensures distinct { AllPairs (λ m n. m ≢ n) self.now }
    {
        self.keys.len()
    }

    /// The matches of a call.
    pub(crate) fn matching(
        &self,
        alloc: Global,
        number: u32,
        given: &[Argument],
    ) -> Result<Seq<Match>, NoMemory>
        ensures { IfOk result (λ found. found ≡ matching self.now number given.now) }
    {
        let first = key_of(alloc, number, given, first_side(given))?;
        let last = key_of(alloc, number, given, last_side(given))?;
        let mut found = Seq::new(alloc);
        for key in self.keys.range(first..=last) {
            if is_match(number, given, &key.found) {
                found.push(duplicate_match(alloc, &key.found)?)?;
            }
        }
        Ok(found)
    }
}
