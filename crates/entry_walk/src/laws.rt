ghost use Rattle.std.specs.Prelude.{◌↔◌, List};
ghost use Rattle.mof_metamodel.specs.declared.desc.MetaDesc.{MetaDesc};
ghost use Rattle.object_tables.specs.Models.{ModelData};
ghost use Rattle.qv_syntax.specs.declared.program.Program.{Program};
ghost use Rattle.qv_syntax.specs.WellFormed.{IsWellFormed};
ghost use Rattle.repair_semantics.specs.declared.entry.Entry.{Entry};
ghost use Rattle.repair_semantics.specs.declared.entry.EntryName.{EntryName};
ghost use Rattle.repair_semantics.specs.Entries.{IsEntry};
ghost use Rattle.repair_semantics.specs.EntryChains.{CyclicEntries, DeepEntries, IsUnmet};
ghost use Rattle.entry_walk.specs.Walks.{Walked, IsWalk, IsAmong};

/// A walk that has come to its end has all entries of a well-formed program and no others; no chain of calls between them comes back to
/// one of its calls or is too long, and none of them is unmet.
pub fn walks_find_all_entries()
    ensures entries { (metas : List MetaDesc) (program : Program) (models : List ModelData) (tops : List Entry) (walked : List Walked) → IsWellFormed metas program
        → IsWalk program models tops walked → (e : Entry) → IsEntry program models e ↔ IsAmong tops walked e }
    ensures cycles { (metas : List MetaDesc) (program : Program) (models : List ModelData) (tops : List Entry) (walked : List Walked) → IsWellFormed metas program
        → IsWalk program models tops walked → (chain : List EntryName) → ¬ CyclicEntries program models chain }
    ensures deep { (metas : List MetaDesc) (program : Program) (models : List ModelData) (tops : List Entry) (walked : List Walked) → IsWellFormed metas program
        → IsWalk program models tops walked → (chain : List EntryName) → ¬ DeepEntries program models chain }
    ensures met { (metas : List MetaDesc) (program : Program) (models : List ModelData) (tops : List Entry) (walked : List Walked) → IsWellFormed metas program
        → IsWalk program models tops walked → (e : Entry) → ¬ IsUnmet program models e }
{}
