ghost use Rattle.std.specs.Prelude.{◌≡◌, ◌≤◌, IsTrue};
ghost use Rattle.vault_io.specs.Counts.{Rose};

use mof_metamodel::Seq;

/// The calls of a vault or a sink in memory. Each count stands still at `u64::MAX`.
#[derive(Drop)]
pub struct Tally {
    /// The numbers of the calls that are to fail, counted from 0.
    pub failing: Seq<u64>,
    /// The number of the call that comes.
    pub calls: u64,
    /// How many calls failed, but for reads of a name that isn't there.
    pub faults: u64,
    /// How many calls wanted memory.
    pub starved: u64,
}

impl Tally {
    ghost use Rattle.vault_io.specs.Tallies.{is_listed, called, faulted, starved, answered};

    /// No call yet.
    pub fn new(failing: Seq<u64>) -> Tally
        ensures { result ≡ record { failing = failing; calls = 0; faults = 0; starved = 0 } }
    {
        Tally {
            failing,
            calls: 0,
            faults: 0,
            starved: 0,
        }
    }

    /// Counts a call, and answers whether it is to fail, which counts as a fault.
    pub fn next_fails(&mut self) -> bool
        ensures listed { result ≡ is_listed self.old }
        ensures counted { self.new ≡ answered self.old }
        ensures risen { IsTrue result → Rose self.old.faults self.new.faults }
        ensures faults { self.old.faults ≤ self.new.faults }
    {
        let listed = self.failing.as_slice().contains(&self.calls);
        self.calls = self.calls.saturating_add(1);
        if listed {
            self.count_fault();
        }
        listed
    }

    /// Counts a call that wanted memory.
    pub fn count_starved(&mut self)
        ensures counted { self.new ≡ starved self.old }
        ensures risen { Rose self.old.faults self.new.faults }
        ensures faults { self.old.faults ≤ self.new.faults }
    {
        self.count_fault();
        self.starved = self.starved.saturating_add(1);
    }

    /// Counts a fault.
    fn count_fault(&mut self)
        ensures counted { self.new ≡ faulted self.old }
        ensures risen { Rose self.old.faults self.new.faults }
        ensures faults { self.old.faults ≤ self.new.faults }
    {
        self.faults = self.faults.saturating_add(1);
    }
}
