ghost use Rattle.std.specs.Prelude.{List, Contains};
ghost use Rattle.mof_metamodel.specs.declared.desc.MetaDesc.{MetaDesc};
ghost use Rattle.object_tables.specs.Models.{ModelData};
ghost use Rattle.qv_syntax.specs.declared.program.Program.{Program};
ghost use Rattle.repair_semantics.specs.declared.term.Term.{Term};
ghost use Rattle.repair_semantics.specs.declared.entry.Entry.{Entry};
ghost use Rattle.repair_semantics.specs.declared.demand.Demand.{Demand};
ghost use Rattle.repair_semantics.specs.Demands.{demands_of, demanded_terms};
ghost use Rattle.repair_laws.specs.Enforced.{AreEnforced};
ghost use Rattle.demand_types.specs.TypedDemands.{IsTypedDemand, IsConcreteTerm};

/// What is demanded may stand at its property: a datum is a value of the property's type, and
/// an object is of a class that conforms to it (QVT 1.3, section 7.10.2).
pub fn demands_are_typed()
    ensures { (metas : List MetaDesc) (program : Program) (sources : List ModelData) (m : ModelData) (entries : List Entry)
        → AreEnforced metas program sources m entries
        → (d : Demand) → Contains (demands_of program sources entries) d → IsTypedDemand program m d }
{}

/// Each demanded term is of a class of the target's metamodel that isn't abstract.
pub fn demanded_terms_are_concrete()
    ensures { (metas : List MetaDesc) (program : Program) (sources : List ModelData) (m : ModelData) (entries : List Entry)
        → AreEnforced metas program sources m entries
        → (t : Term) → Contains (demanded_terms (demands_of program sources entries)) t → IsConcreteTerm m t }
{}
