ghost use Rattle.std.specs.Prelude.{◌≡◌, ℕ, List};
ghost use Rattle.object_tables.specs.Models.{ModelData};
ghost use Rattle.qv_syntax.specs.declared.program.Program.{Program};
ghost use Rattle.qv_syntax.specs.declared.program.Rel.{Rel};
ghost use Rattle.qvtr_semantics.specs.Expressions.{variable, scope_of};
ghost use Rattle.repair_semantics.specs.EntryValues.{TermValues, Known, data_in};
ghost use Rattle.repair_semantics.specs.TargetItems.{target_metamodel};
ghost use Rattle.repair_semantics.specs.Making.{entry_known, made_values};
ghost use Rattle.repair_semantics.specs.Unmet.{is_unmet};
ghost use Rattle.source_laws.specs.Agreement.{AgreeBut};
ghost use Rattle.source_laws.specs.SourceValues.{HasNoTarget};
ghost use Rattle.source_laws.specs.TargetRule.{HandsTargetOn};

/// What an entry of a relation that hands objects of the target only on makes, all that is known in it, and whether it is unmet, are the same
/// over models that agree but for the target, whose target models have one metamodel; where its values have no objects of the target as data.
pub fn made_values_are_of_sources()
    ensures known { (program : Program) (ms ns : List ModelData) (rel : Rel) (b : TermValues) → AgreeBut program.target ms ns → target_metamodel program ms ≡ target_metamodel program ns
        → HandsTargetOn program rel → ((v : ℕ) → HasNoTarget program.target (variable (scope_of (data_in b)) v)) → entry_known program ms rel b ≡ entry_known program ns rel b }
    ensures made { (program : Program) (ms ns : List ModelData) (rel : Rel) (b : TermValues) → AgreeBut program.target ms ns → target_metamodel program ms ≡ target_metamodel program ns
        → HandsTargetOn program rel → ((v : ℕ) → HasNoTarget program.target (variable (scope_of (data_in b)) v)) → made_values program ms rel b ≡ made_values program ns rel b }
    ensures unmet { (program : Program) (ms ns : List ModelData) (rel : Rel) (k : Known) → AgreeBut program.target ms ns → HandsTargetOn program rel
        → ((v : ℕ) → HasNoTarget program.target (variable k.scope v)) → is_unmet program ms rel k ≡ is_unmet program ns rel k }
{}
