ghost use Rattle.std.specs.Prelude.{◌≡◌, ◌≤◌, length, IfOk, OnOk, OnErr, None};
ghost use Rattle.vault_io.specs.Counts.{Rose, next_count};
ghost use Rattle.vault_io.specs.Files.{MayFail};

use crate::outside::{Failed, Vault};
use std::fs;
use std::io::{self, Read, Seek, SeekFrom};
use std::marker::Model;
use std::rt::Files;

/// The files of the system, by their paths. It tells nothing of their content: no contract can.
#[derive(Drop)]
pub struct FileVault<'a, R> {
    rt: &'a R,
    faults: u64,
}

/// Seen as how many calls have failed.
impl<'a, R> Model for FileVault<'a, R> {
    ghost use Rattle.std.specs.Prelude.{ℕ};

    ghost Value = { ℕ };

    ghost view = { λ v. v.faults };
}

impl<R: Files + AllocGlobal> FileVault<'_, R> {
    /// The files that `rt` reaches. No call has failed yet.
    pub fn new(rt: &R) -> FileVault<'_, R>
        ensures { result ≡ 0 }
    {
        FileVault { rt, faults: 0 }
    }
}

impl<R: Files + AllocGlobal> Vault for FileVault<'_, R> {
    ghost files = { λ _. None };

    ghost faults = { λ v. v };

    /// Opens the file, goes to the place and reads once.
    ///
    /// # Errors
    /// `Failed` where the system refuses one of these, want of memory included, which counts as a fault.
    fn read_at(&mut self, name: &str, at: u64, into: &mut [u8]) -> Result<usize, Failed>
        ensures ok { OnOk result (self.new ≡ self.old) }
        ensures err { OnErr result (self.new ≡ next_count self.old) }
        // The trait's clauses, where nothing is told.
        ensures count { IfOk result (λ n. n ≤ length into.old) }
        ensures failed { OnErr result (MayFail None name.now self.old self.new) }
        ensures faults { self.old ≤ self.new }
    {
        match read_once(self.rt, name, at, into) {
            Ok(count) => Ok(count),
            Err(_) => {
                self.faults = self.faults.saturating_add(1);
                Err(Failed)
            }
        }
    }

    /// Writes a new file `PATH.new` and renames it to `PATH`, so that nobody finds a part of the bytes there.
    ///
    /// # Errors
    /// `Failed` where the system refuses one of these, want of memory included, which counts as a fault. A new file that
    /// was begun stays where it is.
    fn put(&mut self, name: &str, bytes: &[u8]) -> Result<(), Failed>
        ensures ok { OnOk result (self.new ≡ self.old) }
        ensures err { OnErr result (self.new ≡ next_count self.old) }
        // The trait's clauses, where nothing is told.
        ensures failed { OnErr result (Rose self.old self.new) }
        ensures faults { self.old ≤ self.new }
    {
        match replace(self.rt, name, bytes) {
            Ok(()) => Ok(()),
            Err(_) => {
                self.faults = self.faults.saturating_add(1);
                Err(Failed)
            }
        }
    }
}

/// Opens a file, goes to a place in it, and reads once.
fn read_once<R: Files>(rt: &R, name: &str, at: u64, into: &mut [u8]) -> io::Result<usize>
    ensures { IfOk result (λ n. n ≤ length into.old) }
{
    let mut file = fs::open(rt, name)?;
    file.seek(SeekFrom::Start(at))?;
    file.read(into)
}

/// Writes a new file beside the one of a path, and renames it to that.
fn replace<R: Files + AllocGlobal>(rt: &R, path: &str, bytes: &[u8]) -> io::Result<()> {
    let mut new = String::from_str(rt.alloc(), path)?;
    new.push_str(".new")?;
    fs::write(rt, new.as_str(), bytes)?;
    fs::rename(rt, new.as_str(), path)
}
