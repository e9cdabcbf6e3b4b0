ghost use Rattle.std.specs.Prelude.{◌≡◌, ◌↔◌, List};
ghost use Rattle.mof_metamodel.specs.declared.desc.MetaDesc.{MetaDesc};
ghost use Rattle.object_tables.specs.Models.{ModelData};
ghost use Rattle.qv_syntax.specs.declared.program.Program.{Program};
ghost use Rattle.evaluation_laws.specs.Evaluable.{IsEvaluable};
ghost use Rattle.enforcement_rules.specs.Rules.{IsEnforceable};
ghost use Rattle.source_laws.specs.Agreement.{AgreeBut};
ghost use Rattle.repair_semantics.specs.declared.entry.Entry.{Entry};
ghost use Rattle.repair_semantics.specs.declared.entry.EntryName.{EntryName};
ghost use Rattle.repair_semantics.specs.TargetItems.{target_metamodel};
ghost use Rattle.repair_semantics.specs.Entries.{IsEntry};
ghost use Rattle.repair_semantics.specs.EntryChains.{CyclicEntries, DeepEntries, IsUnmet};
ghost use Rattle.repair_semantics.specs.EntryOrder.{AreEntries};
ghost use Rattle.repair_semantics.specs.Demands.{demands_of};

/// Over models that agree but for the target, whose target models have one metamodel, a program that can be enforced has the same entries, the
/// same chains of calls that come back to a call or are too long, and the same entries are unmet. Only one of the two lists of models need be
/// known to be of the program.
pub fn entries_are_of_sources()
    ensures entries { (metas : List MetaDesc) (program : Program) (ms ns : List ModelData) → IsEvaluable metas program ms → IsEnforceable metas program
        → AgreeBut program.target ms ns → target_metamodel program ms ≡ target_metamodel program ns → (e : Entry) → IsEntry program ms e ↔ IsEntry program ns e }
    ensures cycles { (metas : List MetaDesc) (program : Program) (ms ns : List ModelData) → IsEvaluable metas program ms → IsEnforceable metas program
        → AgreeBut program.target ms ns → target_metamodel program ms ≡ target_metamodel program ns → (chain : List EntryName) → CyclicEntries program ms chain ↔ CyclicEntries program ns chain }
    ensures deep { (metas : List MetaDesc) (program : Program) (ms ns : List ModelData) → IsEvaluable metas program ms → IsEnforceable metas program
        → AgreeBut program.target ms ns → target_metamodel program ms ≡ target_metamodel program ns → (chain : List EntryName) → DeepEntries program ms chain ↔ DeepEntries program ns chain }
    ensures unmet { (metas : List MetaDesc) (program : Program) (ms ns : List ModelData) → IsEvaluable metas program ms → IsEnforceable metas program
        → AgreeBut program.target ms ns → target_metamodel program ms ≡ target_metamodel program ns → (e : Entry) → IsUnmet program ms e ↔ IsUnmet program ns e }
{}

/// So the list of all entries in order is one, and what they demand.
pub fn demands_are_of_sources()
    ensures entries { (metas : List MetaDesc) (program : Program) (ms ns : List ModelData) → IsEvaluable metas program ms → IsEnforceable metas program
        → AgreeBut program.target ms ns → target_metamodel program ms ≡ target_metamodel program ns → (entries : List Entry) → AreEntries program ms entries ↔ AreEntries program ns entries }
    ensures demands { (metas : List MetaDesc) (program : Program) (ms ns : List ModelData) → IsEvaluable metas program ms → IsEnforceable metas program
        → AgreeBut program.target ms ns → target_metamodel program ms ≡ target_metamodel program ns → (entries : List Entry) → AreEntries program ms entries
        → demands_of program ms entries ≡ demands_of program ns entries }
{}
