ghost use Rattle.std.specs.Prelude.{◌≡◌, ◌≤◌, ◌+◌, ◌^◌, List, length, Contains};
ghost use Rattle.mof_metamodel.specs.declared.desc.MetaDesc.{MetaDesc};
ghost use Rattle.object_tables.specs.Models.{ModelData};
ghost use Rattle.object_tables.specs.Validity.{Valid};
ghost use Rattle.qv_syntax.specs.declared.program.Program.{Program};
ghost use Rattle.repair_semantics.specs.declared.term.Term.{Term};
ghost use Rattle.repair_semantics.specs.declared.demand.Demand.{Demand};
ghost use Rattle.repair_semantics.specs.declared.entry.Entry.{Entry};
ghost use Rattle.repair_semantics.specs.Demands.{demands_of, demanded_terms};
ghost use Rattle.repair_semantics.specs.CandidateObjects.{fresh_terms, term_number};
ghost use Rattle.repair_semantics.specs.Candidates.{candidate};
ghost use Rattle.reading_laws.specs.Keyed.{TellsByKeys};
ghost use Rattle.reading_laws.specs.Readings.{IsReading, HaveObjects, AllStand};
ghost use Rattle.repair_laws.specs.DemandedKeys.{IsDemandedByKey};
ghost use Rattle.repair_laws.specs.Going.{GoesInto};
ghost use Rattle.repair_laws.specs.Enforced.{AreEnforced};

/// Where the key values of demanded terms are demanded, and what is demanded goes into its slot, the model that enforcement makes, if it is
/// valid, is one in which these terms have objects, two of them two, and each object of a class of which enforcement makes objects is one of
/// these; and all demands stand in it.
pub fn candidates_are_readings()
    ensures reads { (program : Program) (m : ModelData) (demands : List Demand) → Valid m → Valid (candidate program m demands)
        → length (fresh_terms program m (demanded_terms demands)) + length m.objects ≤ 2 ^ 64 → TellsByKeys program m
        → ((t : Term) → Contains (demanded_terms demands) t → IsDemandedByKey program m.meta demands t) → ((d : Demand) → Contains demands d → GoesInto program m d)
        → IsReading program (candidate program m demands) (demanded_terms demands) (term_number program m (demanded_terms demands)) }
    ensures objects { (program : Program) (m : ModelData) (demands : List Demand) → HaveObjects (demanded_terms demands) (term_number program m (demanded_terms demands)) }
    ensures stand { (program : Program) (m : ModelData) (demands : List Demand) → Valid m → Valid (candidate program m demands)
        → length (fresh_terms program m (demanded_terms demands)) + length m.objects ≤ 2 ^ 64 → TellsByKeys program m
        → ((t : Term) → Contains (demanded_terms demands) t → IsDemandedByKey program m.meta demands t) → ((d : Demand) → Contains demands d → GoesInto program m d)
        → AllStand program (candidate program m demands) (term_number program m (demanded_terms demands)) demands }
{}

/// So it is of the entries of a program that can be enforced: the model that enforcement makes of a valid target, if it is valid, is one in which
/// the demanded terms have objects, and all demands stand.
pub fn enforced_models_are_readings()
    ensures reads { (metas : List MetaDesc) (program : Program) (sources : List ModelData) (m : ModelData) (entries : List Entry) → AreEnforced metas program sources m entries
        → Valid m → Valid (candidate program m (demands_of program sources entries))
        → length (fresh_terms program m (demanded_terms (demands_of program sources entries))) + length m.objects ≤ 2 ^ 64
        → IsReading program (candidate program m (demands_of program sources entries)) (demanded_terms (demands_of program sources entries))
        (term_number program m (demanded_terms (demands_of program sources entries))) }
    ensures stand { (metas : List MetaDesc) (program : Program) (sources : List ModelData) (m : ModelData) (entries : List Entry) → AreEnforced metas program sources m entries
        → Valid m → Valid (candidate program m (demands_of program sources entries))
        → length (fresh_terms program m (demanded_terms (demands_of program sources entries))) + length m.objects ≤ 2 ^ 64
        → AllStand program (candidate program m (demands_of program sources entries)) (term_number program m (demanded_terms (demands_of program sources entries)))
        (demands_of program sources entries) }
{}
