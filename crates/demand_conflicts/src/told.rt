ghost use Rattle.std.specs.Prelude.{[], map, IfOk};
ghost use Rattle.mof_metamodel.specs.Tables.{IsPropOf};
ghost use Rattle.demand_conflicts.specs.NumberedClaims.{claim_by, single_claims};
ghost use Rattle.demand_conflicts.specs.Heard.{IsHeard, Hears, HearsAll};

use crate::claiming::add_claims;
use crate::claims::{NumberedClaim, NumberedSaid, NumberedSpot, is_same_said};
use crate::demand::NumberedDemand;
use mof_metamodel::{MetaModel, NoMemory};
use std::alloc::Global;
use std::collections::BTreeMap;

/// What was claimed first of a place, and by which demand of a list.
#[derive(Clone, Copy)]
pub(crate) struct FirstClaim<'a> {
    pub(crate) said: NumberedSaid<'a>,
    pub(crate) demand: usize,
}

/// A place of which a demand claims something else than an earlier one, which goes by its place in the list.
#[derive(Clone, Copy)]
pub(crate) struct Opposed {
    pub(crate) spot: NumberedSpot,
    pub(crate) first: usize,
}

/// What was claimed first of each single place.
#[derive(Drop)]
pub(crate) struct Told<'a> {
    firsts: BTreeMap<NumberedSpot, FirstClaim<'a>>,
}

impl<'a> Told<'a> {
    /// Nothing.
    pub(crate) fn new(alloc: Global) -> Told<'a>
        ensures { IsHeard ⟦<NumberedSpot as Ord>⟧.cmp [] result.firsts }
    {
        Told {
            firsts: BTreeMap::new(alloc),
        }
    }

    /// Hears a claim: the demand that claimed something else of its place, if one did.
    fn hear(&mut self, claim: NumberedClaim<'a>, demand: usize) -> Result<Option<usize>, NoMemory>
        ensures { IfOk result (Hears ⟦<NumberedSpot as Ord>⟧.cmp demand (claim_by claim.entry) self.old.firsts self.new.firsts) }
    {
        match self.firsts.get(&claim.spot).copied() {
            Some(first) => if is_same_said(first.said, claim.said) {
                Ok(None)
            } else {
                Ok(Some(first.demand))
            },
            None => {
                let said = claim.said;
                self.firsts.insert(claim.spot, FirstClaim { said, demand })?;
                Ok(None)
            }
        }
    }

    /// Hears the claims of a demand, up to one of a place of which something else was claimed.
    fn hear_all(
        &mut self,
        claims: &[NumberedClaim<'a>],
        demand: usize,
    ) -> Result<Option<Opposed>, NoMemory>
        ensures { IfOk result (HearsAll ⟦<NumberedSpot as Ord>⟧.cmp demand (map claim_by claims.now) self.old.firsts self.new.firsts) }
    {
        for claim in claims {
            if let Some(first) = self.hear(*claim, demand)? {
                let spot = claim.spot;
                return Ok(Some(Opposed { spot, first }));
            }
        }
        Ok(None)
    }

    /// Hears a demand.
    pub(crate) fn hear_demand(
        &mut self,
        alloc: Global,
        meta: &MetaModel,
        demand: &'a NumberedDemand,
        place: usize,
    ) -> Result<Option<Opposed>, NoMemory>
        requires { IsPropOf meta.now demand.now.prop }
        ensures { IfOk result (HearsAll ⟦<NumberedSpot as Ord>⟧.cmp place (single_claims meta.now demand.now) self.old.firsts self.new.firsts) }
    {
        let mut claims = Vec::new(alloc);
        add_claims(&mut claims, meta, demand)?;
        self.hear_all(claims.as_slice(), place)
    }
}
