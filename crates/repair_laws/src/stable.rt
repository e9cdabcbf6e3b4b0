ghost use Rattle.std.specs.Prelude.{◌≡◌, ℕ, List, false, Some, slice_get, Contains};
ghost use Rattle.mof_metamodel.specs.declared.desc.MetaDesc.{MetaDesc};
ghost use Rattle.object_tables.specs.Models.{ModelData};
ghost use Rattle.object_tables.specs.Sameness.{IsSame};
ghost use Rattle.object_tables.specs.Validity.{Valid};
ghost use Rattle.qv_syntax.specs.declared.program.Program.{Program};
ghost use Rattle.qv_syntax.specs.WellFormed.{IsWellFormed};
ghost use Rattle.enforcement_rules.specs.Rules.{IsEnforceable};
ghost use Rattle.qvtr_semantics.specs.Satisfaction.{Satisfied};
ghost use Rattle.repair_semantics.specs.declared.term.Term.{Term, out-Term};
ghost use Rattle.repair_semantics.specs.declared.term.TermValue.{TermValue};
ghost use Rattle.repair_semantics.specs.declared.demand.Demand.{Demand};
ghost use Rattle.repair_semantics.specs.Terms.{term_in};
ghost use Rattle.repair_semantics.specs.declared.entry.Entry.{Entry};
ghost use Rattle.repair_semantics.specs.Entries.{IsEntry};
ghost use Rattle.repair_semantics.specs.Demands.{demands_of, demanded_terms};
ghost use Rattle.repair_semantics.specs.Images.{image};
ghost use Rattle.repair_semantics.specs.Deletions.{managed_classes, images_of, is_unneeded};
ghost use Rattle.repair_semantics.specs.Candidates.{candidate};
ghost use Rattle.repair_laws.specs.EntryReadings.{AreEntriesRead};
ghost use Rattle.reading_laws.specs.Keyed.{TellsByKeys};
ghost use Rattle.reading_laws.specs.Readings.{Numbering, IsReading, HaveObjects, AllStand};

/// A target of which no object is unneeded is a reading by the images of terms, where these tell the terms apart and those within keys are
/// among them.
pub fn images_are_a_reading()
    ensures { (program : Program) (m : ModelData) (terms : List Term)
        → ((o : ℕ) → is_unneeded m (managed_classes program) (images_of program m terms) o ≡ false)
        → ((t u : Term) (n : ℕ) → Contains terms t → Contains terms u → image program m t ≡ Some n → image program m u ≡ Some n → t ≡ u)
        → ((t : Term) (x : TermValue) (u : Term) → Contains terms t → Contains (out-Term t).keys x → term_in x ≡ Some u → Contains terms u)
        → IsReading program m terms (image program m) }
{}

/// Where all demands stand in a valid target and none of its objects is unneeded, the model that enforcement makes is the target.
pub fn standing_demands_change_nothing()
    ensures { (program : Program) (m : ModelData) (demands : List Demand) → Valid m
        → ((o : ℕ) → is_unneeded m (managed_classes program) (images_of program m (demanded_terms demands)) o ≡ false)
        → HaveObjects (demanded_terms demands) (image program m) → AllStand program m (image program m) demands
        → candidate program m demands ≡ m }
{}

/// Where all demands stand in a valid reading, each demanded term has an object there.
pub fn standing_demands_have_objects()
    ensures { (program : Program) (m : ModelData) (number : Numbering) (demands : List Demand) → AllStand program m number demands
        → HaveObjects (demanded_terms demands) number }
{}

/// Of a model that is the same as a reading of the demanded terms in which all demands stand, as the model is that enforcement makes,
/// enforcement makes that model again.
pub fn the_second_time_nothing_changes()
    ensures { (program : Program) (m n : ModelData) (demands : List Demand) (number : Numbering) → IsSame m n → Valid m → Valid n → TellsByKeys program m
        → IsReading program m (demanded_terms demands) number
        → ((t : Term) → Contains (demanded_terms demands) t → Contains (managed_classes program) (out-Term t).class.0)
        → AllStand program m number demands → candidate program n demands ≡ n }
{}

/// Over a target where the relations are satisfied all demands of entries stand, and each demanded term has an object.
pub fn satisfied_targets_have_all_demands()
    ensures demands { (metas : List MetaDesc) (program : Program) (models : List ModelData) (m : ModelData) (number : Numbering) (entries : List Entry)
        → slice_get models program.target ≡ Some m → IsWellFormed metas program → IsEnforceable metas program → Satisfied program models → AreEntriesRead program models number
        → ((e : Entry) → Contains entries e → IsEntry program models e) → AllStand program m number (demands_of program models entries) }
    ensures terms { (metas : List MetaDesc) (program : Program) (models : List ModelData) (m : ModelData) (number : Numbering) (entries : List Entry)
        → slice_get models program.target ≡ Some m → IsWellFormed metas program → IsEnforceable metas program → Satisfied program models → AreEntriesRead program models number
        → ((e : Entry) → Contains entries e → IsEntry program models e) → HaveObjects (demanded_terms (demands_of program models entries)) number }
{}

/// Over a valid target where the relations are satisfied and no object is unneeded, enforcement changes nothing.
pub fn satisfied_targets_are_settled()
    ensures { (metas : List MetaDesc) (program : Program) (models : List ModelData) (m : ModelData) (entries : List Entry)
        → slice_get models program.target ≡ Some m → Valid m → IsWellFormed metas program → IsEnforceable metas program → Satisfied program models → AreEntriesRead program models (image program m)
        → ((e : Entry) → Contains entries e → IsEntry program models e)
        → ((o : ℕ) → is_unneeded m (managed_classes program) (images_of program m (demanded_terms (demands_of program models entries))) o ≡ false)
        → candidate program m (demands_of program models entries) ≡ m }
{}
