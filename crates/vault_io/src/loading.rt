ghost use Rattle.std.specs.Prelude.{◌≡◌, ◌<◌, ◌≤◌, ◌⊎◌, length, IfOk, IfSome, IsErrOf};
ghost use Rattle.std.specs.FinMap as map;
ghost use Rattle.vault_io.specs.Files.{OfFile, MayFail};

use crate::outside::{Failed, Vault};
use mof_metamodel::Seq;
use std::alloc::{AllocError, Global};
use thiserror::Error;

/// Why a file wasn't loaded.
#[derive(Clone, Copy, Debug, Error)]
pub enum LoadError {
    /// A read failed.
    #[error("the file could not be read")]
    Failed,
    /// The file has more bytes than the limit.
    #[error("the file is too long")]
    TooLong,
    /// Memory could not be had.
    #[error("no memory")]
    NoMemory,
}

impl From<Failed> for LoadError {
    ghost use Rattle.std.specs.Prelude.{◌≡◌};
    ghost use Rattle.vault_io.specs.declared.loading.LoadError.TheVariants as of;

    ghost from_gives = { λ _ e. e ≡ of.Failed };

    fn from(_error: Failed) -> LoadError {
        LoadError::Failed
    }
}

impl From<AllocError> for LoadError {
    ghost use Rattle.std.specs.Prelude.{◌≡◌};
    ghost use Rattle.vault_io.specs.declared.loading.LoadError.TheVariants as of;

    ghost from_gives = { λ _ e. e ≡ of.NoMemory };

    fn from(_error: AllocError) -> LoadError {
        LoadError::NoMemory
    }
}

/// How many bytes are read at a time.
const BLOCK: usize = 16_384;

/// Reads a whole file of at most `limit` bytes. The files are as they were, whatever it answers.
///
/// # Errors
/// `Failed` where a read fails, `TooLong` where the file has more than `limit` bytes.
pub fn load<F: Vault>(
    alloc: Global,
    vault: &mut F,
    name: &str,
    limit: usize,
) -> Result<Seq<u8>, LoadError>
    ensures bytes { IfOk result (λ bytes. IfSome (F.files vault.old) (λ files. map.get files name.now ≡ Some bytes)) }
    ensures limit { IfOk result (λ bytes. length bytes ≤ limit) }
    ensures too_long { IsErrOf result LoadError.TooLong →
        OfFile (F.files vault.old) name.now (λ file. limit < length file) }
    ensures failed { IsErrOf result LoadError.Failed →
        MayFail (F.files vault.old) name.now (F.faults vault.old) (F.faults vault.new) }
    ensures files { F.files vault.new ≡ F.files vault.old }
    ensures faults { F.faults vault.old ≤ F.faults vault.new }
{
    let mut block = [0u8; BLOCK];
    let mut bytes = Vec::new(alloc);
    loop {
        let count = vault.read_at(name, bytes.len() as u64, &mut block)?;
        if count == 0 {
            return Ok(Seq::from_vec(bytes));
        }
        if count > limit - bytes.len() {
            return Err(LoadError::TooLong);
        }
        bytes.extend_from_slice(&block[..count])?;
    }
}
