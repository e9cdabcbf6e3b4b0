ghost use Rattle.std.specs.Prelude.{◌≡◌, ◌≤◌, OnOk, OnErr};
ghost use Rattle.vault_io.specs.Counts.{Rose};
ghost use Rattle.vault_io.specs.Sinks.{appended, AppendsPrefix};

use crate::outside::{Failed, Sink};

/// Prints all bytes. It takes no memory.
///
/// # Errors
/// `Failed` where a write fails: the sink took a prefix of the bytes.
pub fn print_all<K: Sink>(out: &mut K, bytes: &[u8]) -> Result<(), Failed>
    ensures ok { OnOk result (K.told out.new ≡ appended (K.told out.old) bytes.now) }
    ensures prefix { OnErr result (AppendsPrefix bytes.now (K.told out.old) (K.told out.new)) }
    ensures failed { OnErr result (Rose (K.faults out.old) (K.faults out.new)) }
    ensures faults { K.faults out.old ≤ K.faults out.new }
{
    let mut done = 0;
    while done < bytes.len() {
        done += out.write(&bytes[done..])?;
    }
    Ok(())
}
