ghost use Rattle.std.specs.Prelude.{◌≡◌, OnOk, OnErr};
ghost use Rattle.script_scopes.specs.FirstEntries.{with_first};

use mof_metamodel::{NameTable, NoMemory, Text};

/// Puts a name with what it stands for behind the others, unless it is there: the first of each name stays. After `NoMemory` the names are
/// as they were.
pub fn put_first<V: Drop>(table: &mut NameTable<V>, name: Text, value: V) -> Result<(), NoMemory>
    ensures ok { OnOk result (table.new ≡ with_first table.old name value) }
    ensures err { OnErr result (table.new ≡ table.old) }
{
    if table.contains(&name) {
        return Ok(());
    }
    table.put(name, value)
}
