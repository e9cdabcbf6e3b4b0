//! How many trials ended in which way.
use crate::comparing::Comparison;
use case_texts::Pen;
use demand_set::DemandError;
use mof_metamodel::NoMemory;
use std::alloc::Global;

/// How a trial ended: by a repair and its account, by a refusal of what is demanded, or for want of a valid target.
#[derive(Drop)]
pub enum Trial {
    Compared(Comparison),
    Conflict,
    Unmet,
    Chain,
    NoTarget,
}

impl Trial {
    /// The trial of a repair, if there was one.
    pub fn of(compared: Option<Comparison>) -> Trial {
        match compared {
            Some(comparison) => Trial::Compared(comparison),
            None => Trial::NoTarget,
        }
    }

    /// The trial of a refusal of what is demanded.
    pub fn refused(error: &DemandError) -> Result<Trial, NoMemory> {
        match error {
            DemandError::Cycle(_) | DemandError::Deep(_) => Ok(Trial::Chain),
            DemandError::Unmet { .. } => Ok(Trial::Unmet),
            DemandError::Conflict(_) => Ok(Trial::Conflict),
            DemandError::NoMemory => Err(NoMemory),
        }
    }
}

/// How many trials ended in which way.
#[derive(Clone, Copy)]
pub struct Tally {
    same: u32,
    other: u32,
    unchanged: u32,
    changed: u32,
    invalid: u32,
    conflict: u32,
    unmet: u32,
    chain: u32,
    no_target: u32,
    first_other: Option<u64>,
}

fn one_more(count: &mut u32) {
    *count = count.saturating_add(1);
}

impl Tally {
    /// Of no trial.
    pub fn new() -> Tally {
        Tally {
            same: 0,
            other: 0,
            unchanged: 0,
            changed: 0,
            invalid: 0,
            conflict: 0,
            unmet: 0,
            chain: 0,
            no_target: 0,
            first_other: None,
        }
    }

    /// Counts the trial of a seed.
    pub fn count(&mut self, trial: Trial, seed: u64) {
        match trial {
            Trial::Compared(comparison) => self.count_compared(&comparison, seed),
            Trial::Conflict => one_more(&mut self.conflict),
            Trial::Unmet => one_more(&mut self.unmet),
            Trial::Chain => one_more(&mut self.chain),
            Trial::NoTarget => one_more(&mut self.no_target),
        }
    }

    fn count_compared(&mut self, comparison: &Comparison, seed: u64) {
        match comparison.enforced.report {
            Some(report) if report.unchanged => one_more(&mut self.unchanged),
            Some(_) => one_more(&mut self.changed),
            None => one_more(&mut self.invalid),
        }
        if comparison.is_same() {
            one_more(&mut self.same);
        } else {
            one_more(&mut self.other);
            if self.first_other.is_none() {
                self.first_other = Some(seed);
            }
        }
    }

    /// The seed of the first trial that the account ends in another way.
    pub fn first_other(&self) -> Option<u64> {
        self.first_other
    }

    /// What was counted.
    pub fn put(&self, pen: &mut Pen, alloc: Global) {
        let (same, other) = (self.same, self.other);
        let (unchanged, changed, invalid) = (self.unchanged, self.changed, self.invalid);
        let (conflict, unmet, chain) = (self.conflict, self.unmet, self.chain);
        let no_target = self.no_target;
        pen.put_string(format!(in alloc;
            " {same} the same, {other} other: {unchanged} unchanged, {changed} changed, {invalid} invalid"
        ));
        pen.put_string(format!(in alloc;
            "; {conflict} conflict, {unmet} unmet, {chain} chain, {no_target} without a valid target"
        ));
    }
}
