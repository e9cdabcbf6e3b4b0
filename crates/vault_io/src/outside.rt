ghost use Rattle.std.specs.Prelude.{◌≡◌, ℕ, ◌≤◌, ◌⊎◌, List, length, Option, IfOk, OnOk, OnErr};
ghost use Rattle.vault_io.specs.Counts.{Rose};
ghost use Rattle.vault_io.specs.Files.{Files, OfFile, Reads, MayFail, bound};
ghost use Rattle.vault_io.specs.Sinks.{Takes};

/// The outside failed. The call's contract says what stands after it.
#[derive(Clone, Copy)]
pub struct Failed;

/// Files that are read and put by name.
pub trait Vault {
    /// The files by the bytes of their names, where they are told.
    ghost files: { Self → Option Files };

    /// How often the outside has failed. It doesn't fall.
    ghost faults: { Self → ℕ };

    /// Reads bytes of the file `name` from the place `at` on, counted from 0, into the front of `into`, and answers how
    /// many. None is read exactly at or past the end, or where `into` is empty. What stands behind them in `into` is free.
    ///
    /// # Errors
    /// `Failed` comes only where the count of faults rose in the call or stands at its last value, or where the files
    /// are told and none has this name. There it always comes.
    fn read_at(&mut self, name: &str, at: u64, into: &mut [u8]) -> Result<usize, Failed>
        ensures count { IfOk result (λ n. n ≤ length into.old) }
        ensures bytes { IfOk result (λ n. OfFile (files self.old) name.now (λ file. Reads file at n into.new)) }
        ensures failed { OnErr result (MayFail (files self.old) name.now (faults self.old) (faults self.new)) }
        ensures files { files self.new ≡ files self.old }
        ensures faults { faults self.old ≤ faults self.new };

    /// Binds the name to these bytes, whether there was a file of this name or not. All other files are as they were.
    ///
    /// # Errors
    /// `Failed` comes only where the count of faults rose in the call or stands at its last value. The file of this name
    /// is then as it was, or has these bytes. All other files are as they were.
    fn put(&mut self, name: &str, bytes: &[u8]) -> Result<(), Failed>
        ensures ok { OnOk result (files self.new ≡ bound (files self.old) name.now bytes.now) }
        ensures err { OnErr result ((files self.new ≡ files self.old) ⊎ (files self.new ≡ bound (files self.old) name.now bytes.now)) }
        ensures failed { OnErr result (Rose (faults self.old) (faults self.new)) }
        ensures faults { faults self.old ≤ faults self.new };
}

/// A place where bytes are printed.
pub trait Sink {
    /// The bytes that it holds, where they are told.
    ghost told: { Self → Option (List ℕ) };

    /// How often the outside has failed. It doesn't fall.
    ghost faults: { Self → ℕ };

    /// Appends the first bytes of `piece`, and answers how many: at least one, unless `piece` is empty.
    ///
    /// # Errors
    /// `Failed` comes only where the count of faults rose in the call or stands at its last value. Nothing was appended.
    fn write(&mut self, piece: &[u8]) -> Result<usize, Failed>
        ensures bytes { IfOk result (λ n. Takes piece.now n (told self.old) (told self.new)) }
        ensures kept { OnErr result (told self.new ≡ told self.old) }
        ensures failed { OnErr result (Rose (faults self.old) (faults self.new)) }
        ensures faults { faults self.old ≤ faults self.new };
}
