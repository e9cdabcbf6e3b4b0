ghost use Rattle.std.specs.Prelude.{◌≡◌, ◌↔◌, ◌-◌, ◌≤◌, ◌⊎◌, min, length, IsTrue, IsErr, IsNone, IfOk, IfNone, IfSome, IsSomeAnd, OnOk, OnErr};
ghost use Rattle.std.specs.FinMap as map;
ghost use Rattle.vault_io.specs.Counts.{Rose};
ghost use Rattle.vault_io.specs.Files.{OfFile, Reads, MayFail, bound};
ghost use Rattle.vault_io.specs.Tallies.{is_listed, called, faulted, starved, answered};
ghost use Rattle.vault_io.specs.Stores.{files_of, first_files};

use crate::named_file::NamedFile;
use crate::outside::{Failed, Vault};
use crate::tally::Tally;
use mof_metamodel::{NoMemory, Seq, Text};
use std::alloc::Global;
use std::marker::Model;

/// Files in memory, for tests. The calls whose numbers are listed fail.
#[derive(Drop)]
pub struct MemVault {
    /// The last file first.
    files: Vec<NamedFile>,
    tally: Tally,
}

impl Model for MemVault {
    ghost use Rattle.vault_io.specs.Stores.{VaultState, vault_code, first_files};

    ghost Value = { VaultState };

    ghost coded = { vault_code };

    ghost view = { λ v. record { files = first_files v.files.items; tally = v.tally } };
}

impl MemVault {
    /// A vault of these files. Of two of one name the later counts. The calls whose numbers stand in `failing`, counted
    /// from 0, are to fail.
    pub fn new(
        _alloc: Global,
        files: Seq<NamedFile>,
        failing: Seq<u64>,
    ) -> Result<MemVault, NoMemory>
        ensures files { IfOk result (λ v. v.files ≡ files_of files) }
        ensures tally { IfOk result (λ v. v.tally ≡ record { failing = failing; calls = 0; faults = 0; starved = 0 }) }
    {
        let mut files = files.into_vec();
        files.reverse();
        Ok(MemVault {
            files,
            tally: Tally::new(failing),
        })
    }

    /// The bytes of the file of this name, if there is one.
    pub fn file(&self, name: &str) -> Option<&[u8]>
        ensures none { IfNone result (map.get self.now.files name.now ≡ None) }
        ensures some { IfSome result (λ bytes. map.get self.now.files name.now ≡ Some bytes.now) }
    {
        first_named(&self.files, name)
    }

    /// How many calls failed, but for reads of a name that isn't there. The count stays at `u64::MAX`.
    pub fn fault_count(&self) -> u64
        ensures { result ≡ self.now.tally.faults }
    {
        self.tally.faults
    }

    /// How many calls failed since they wanted memory. The count stays at `u64::MAX`.
    pub fn starved_count(&self) -> u64
        ensures { result ≡ self.now.tally.starved }
    {
        self.tally.starved
    }
}

impl Vault for MemVault {
    ghost use Rattle.std.specs.Prelude.{Some};

    ghost files = { λ v. Some v.files };

    ghost faults = { λ v. v.tally.faults };

    /// Reads as many bytes as there are and fit. It takes no memory.
    ///
    /// # Errors
    /// `Failed` comes exactly where the call's number is listed, which counts as a fault, or there is no such file.
    fn read_at(&mut self, name: &str, at: u64, into: &mut [u8]) -> Result<usize, Failed>
        ensures exact { IsErr result ↔ (IsTrue (is_listed self.old.tally) ⊎ IsNone (map.get self.old.files name.now)) }
        ensures full { IfOk result (λ n. IsSomeAnd (map.get self.old.files name.now)
            (λ file. n ≡ min (length into.old) (length file - at))) }
        ensures tally { self.new.tally ≡ answered self.old.tally }
        // The trait's clauses.
        ensures count { IfOk result (λ n. n ≤ length into.old) }
        ensures bytes { IfOk result (λ n. OfFile (Some self.old.files) name.now (λ file. Reads file at n into.new)) }
        ensures failed { OnErr result (MayFail (Some self.old.files) name.now self.old.tally.faults self.new.tally.faults) }
        ensures files { Some self.new.files ≡ Some self.old.files }
        ensures faults { self.old.tally.faults ≤ self.new.tally.faults }
    {
        if self.tally.next_fails() {
            return Err(Failed);
        }
        let Some(bytes) = self.file(name) else {
            return Err(Failed);
        };
        Ok(copy_from(bytes, at, into))
    }

    /// Puts the file.
    ///
    /// # Errors
    /// `Failed` comes where the call's number is listed, and else only for want of memory. Each counts as a fault, and
    /// the second as starved besides. The files are then as they were.
    fn put(&mut self, name: &str, bytes: &[u8]) -> Result<(), Failed>
        ensures whole { OnOk result (self.new.files ≡ map.insert self.old.files name.now bytes.now) }
        ensures called { OnOk result (self.new.tally ≡ called self.old.tally) }
        ensures listed { IsTrue (is_listed self.old.tally) →
            IsErr result × (self.new.tally ≡ faulted (called self.old.tally)) }
        ensures starved { OnErr result
            (IsTrue (is_listed self.old.tally) ⊎ (self.new.tally ≡ starved (called self.old.tally))) }
        ensures kept { OnErr result (self.new.files ≡ self.old.files) }
        // The trait's clauses.
        ensures ok { OnOk result (Some self.new.files ≡ bound (Some self.old.files) name.now bytes.now) }
        ensures err { OnErr result ((Some self.new.files ≡ Some self.old.files) ⊎ (Some self.new.files ≡ bound (Some self.old.files) name.now bytes.now)) }
        ensures failed { OnErr result (Rose self.old.tally.faults self.new.tally.faults) }
        ensures faults { self.old.tally.faults ≤ self.new.tally.faults }
    {
        if self.tally.next_fails() {
            return Err(Failed);
        }
        if put_first(&mut self.files, name, bytes).is_err() {
            self.tally.count_starved();
            return Err(Failed);
        }
        Ok(())
    }
}

/// Puts a file before all others, so that it counts.
fn put_first(files: &mut Vec<NamedFile>, name: &str, bytes: &[u8]) -> Result<(), NoMemory>
    ensures ok { OnOk result (first_files files.new.items ≡ map.insert (first_files files.old.items) name.now bytes.now) }
    ensures err { OnErr result (files.new.items ≡ files.old.items) }
{
    let alloc = *files.allocator();
    let file = NamedFile {
        name: Text::new(alloc, name)?,
        bytes: Seq::from_slice(alloc, bytes)?,
    };
    files.insert(0, file)?;
    Ok(())
}

/// The bytes of the first file of this name, if there is one.
fn first_named<'a>(files: &'a [NamedFile], name: &str) -> Option<&'a [u8]>
    ensures none { IfNone result (map.get (first_files files.now) name.now ≡ None) }
    ensures some { IfSome result (λ bytes. map.get (first_files files.now) name.now ≡ Some bytes.now) }
{
    for file in files {
        if name == file.name.as_str() {
            return Some(file.bytes.as_slice());
        }
    }
    None
}

/// Copies what there is from a place on, as far as it fits, and answers how many bytes.
fn copy_from(bytes: &[u8], at: u64, into: &mut [u8]) -> usize
    ensures count { result ≡ min (length into.old) (length bytes.now - at) }
    ensures reads { Reads bytes.now at result into.new }
{
    let start = (at as usize).min(bytes.len());
    let rest = &bytes[start..];
    let count = rest.len().min(into.len());
    into[..count].copy_from_slice(&rest[..count]);
    count
}
