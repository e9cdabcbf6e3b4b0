//! A file that is put, and what is printed of it.
ghost use Rattle.std.specs.Prelude.{◌≡◌, ◌≤◌};
ghost use Rattle.vault_io.specs.Counts.{Rose};
ghost use Rattle.qvtr_engine.specs.Putting.{PutEnds};

use crate::reporting::finish;
use crate::status::Status;
use vault_io::{Failed, Sink, Vault};

/// Puts a file, and prints the one text where that is done and the other where it failed. It takes no memory.
pub(crate) fn put<F: Vault, K: Sink>(
    vault: &mut F,
    out: &mut K,
    path: &str,
    bytes: &[u8],
    success: &[u8],
    failure: &[u8],
) -> Status
    ensures ends { PutEnds (F.files vault.old) path.now bytes.now success.now failure.now (Rose (F.faults vault.old) (F.faults vault.new))
        (Rose (K.faults out.old) (K.faults out.new)) (K.told out.old) (K.told out.new) (F.files vault.new) result }
    ensures vault_faults { F.faults vault.old ≤ F.faults vault.new }
    ensures sink_faults { K.faults out.old ≤ K.faults out.new }
{
    match vault.put(path, bytes) {
        Ok(()) => finish(out, Status::Done, success),
        Err(Failed) => finish(out, Status::Fault, failure),
    }
}
