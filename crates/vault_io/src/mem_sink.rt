ghost use Rattle.std.specs.Prelude.{◌≡◌, ◌≤◌, [], ◌++◌, ◌⊎◌, length, IsTrue, IsErr, IfOk, OnOk, OnErr};
ghost use Rattle.vault_io.specs.Counts.{Rose};
ghost use Rattle.vault_io.specs.Sinks.{Takes};
ghost use Rattle.vault_io.specs.Tallies.{is_listed, called, faulted, starved};

use crate::outside::{Failed, Sink};
use crate::tally::Tally;
use mof_metamodel::Seq;
use std::alloc::Global;
use std::marker::Model;

/// A sink in memory, for tests. The calls whose numbers are listed fail.
#[derive(Drop)]
pub struct MemSink {
    bytes: Vec<u8>,
    tally: Tally,
}

impl Model for MemSink {
    ghost use Rattle.vault_io.specs.Stores.{SinkState, sink_code};

    ghost Value = { SinkState };

    ghost coded = { sink_code };

    ghost view = { λ s. record { bytes = s.bytes.items; tally = s.tally } };
}

impl MemSink {
    /// A sink that holds nothing. The calls whose numbers stand in `failing`, counted from 0, are to fail.
    pub fn new(alloc: Global, failing: Seq<u64>) -> MemSink
        ensures bytes { result.bytes ≡ [] }
        ensures tally { result.tally ≡ record { failing = failing; calls = 0; faults = 0; starved = 0 } }
    {
        MemSink {
            bytes: Vec::new(alloc),
            tally: Tally::new(failing),
        }
    }

    /// The bytes that it took.
    pub fn bytes(&self) -> &[u8]
        ensures { result.now ≡ self.now.bytes }
    {
        self.bytes.as_slice()
    }

    /// How many calls failed. The count stays at `u64::MAX`.
    pub fn fault_count(&self) -> u64
        ensures { result ≡ self.now.tally.faults }
    {
        self.tally.faults
    }

    /// How many calls failed since they wanted memory. The count stays at `u64::MAX`.
    pub fn starved_count(&self) -> u64
        ensures { result ≡ self.now.tally.starved }
    {
        self.tally.starved
    }
}

impl Sink for MemSink {
    ghost use Rattle.std.specs.Prelude.{Some};

    ghost told = { λ s. Some s.bytes };

    ghost faults = { λ s. s.tally.faults };

    /// Appends the whole piece.
    ///
    /// # Errors
    /// `Failed` comes where the call's number is listed, and else only for want of memory. Each counts as a fault, and
    /// the second as starved besides.
    fn write(&mut self, piece: &[u8]) -> Result<usize, Failed>
        ensures whole { IfOk result (λ n. (n ≡ length piece.now) × (self.new.bytes ≡ self.old.bytes ++ piece.now)) }
        ensures ok { OnOk result (self.new.tally ≡ called self.old.tally) }
        ensures listed { IsTrue (is_listed self.old.tally) →
            IsErr result × (self.new.tally ≡ faulted (called self.old.tally)) }
        ensures starved { OnErr result
            (IsTrue (is_listed self.old.tally) ⊎ (self.new.tally ≡ starved (called self.old.tally))) }
        // The trait's clauses.
        ensures bytes { IfOk result (λ n. Takes piece.now n (Some self.old.bytes) (Some self.new.bytes)) }
        ensures kept { OnErr result (Some self.new.bytes ≡ Some self.old.bytes) }
        ensures failed { OnErr result (Rose self.old.tally.faults self.new.tally.faults) }
        ensures faults { self.old.tally.faults ≤ self.new.tally.faults }
    {
        if self.tally.next_fails() {
            return Err(Failed);
        }
        if self.bytes.extend_from_slice(piece).is_err() {
            self.tally.count_starved();
            return Err(Failed);
        }
        Ok(piece.len())
    }
}
