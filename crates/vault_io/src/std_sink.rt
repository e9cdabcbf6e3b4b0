ghost use Rattle.std.specs.Prelude.{◌≡◌, ◌≤◌, IfOk, OnOk, OnErr, None};
ghost use Rattle.vault_io.specs.Counts.{Rose, next_count};
ghost use Rattle.vault_io.specs.Sinks.{Takes};

use crate::outside::{Failed, Sink};
use std::marker::Model;

/// The standard output, not buffered. It tells nothing of what it holds: no contract can.
#[derive(Drop)]
pub struct StdSink<'a, R> {
    rt: &'a R,
    faults: u64,
}

/// Seen as how many calls have failed.
impl<'a, R> Model for StdSink<'a, R> {
    ghost use Rattle.std.specs.Prelude.{ℕ};

    ghost Value = { ℕ };

    ghost view = { λ s. s.faults };
}

impl<R: Print> StdSink<'_, R> {
    /// The output that `rt` prints to. No call has failed yet.
    pub fn new(rt: &R) -> StdSink<'_, R>
        ensures { result ≡ 0 }
    {
        StdSink { rt, faults: 0 }
    }
}

impl<R: Print> Sink for StdSink<'_, R> {
    ghost told = { λ _. None };

    ghost faults = { λ s. s };

    /// Writes some of the piece.
    ///
    /// # Errors
    /// `Failed` where the system refuses the write, or takes nothing of a piece that has something. It counts as a fault.
    fn write(&mut self, piece: &[u8]) -> Result<usize, Failed>
        ensures ok { OnOk result (self.new ≡ self.old) }
        ensures err { OnErr result (self.new ≡ next_count self.old) }
        // The trait's clauses, where nothing is told.
        ensures bytes { IfOk result (λ n. Takes piece.now n None None) }
        ensures failed { OnErr result (Rose self.old self.new) }
        ensures faults { self.old ≤ self.new }
    {
        match self.rt.write_some(piece) {
            Ok(count) if count > 0 || piece.is_empty() => Ok(count),
            _ => {
                self.faults = self.faults.saturating_add(1);
                Err(Failed)
            }
        }
    }
}
