ghost use Rattle.std.specs.Prelude.{◌≡◌, ℕ, List, Some, true, slice_get};
ghost use Rattle.mof_metamodel.specs.declared.desc.MetaDesc.{MetaDesc};
ghost use Rattle.qv_syntax.specs.declared.program.Program.{Program};
ghost use Rattle.qv_syntax.specs.declared.program.Rel.{Rel};
ghost use Rattle.qv_syntax.specs.WellFormed.{IsWellFormed};
ghost use Rattle.enforcement_rules.specs.Expressions.{TouchesTarget};
ghost use Rattle.enforcement_rules.specs.Rules.{IsEnforceable};
ghost use Rattle.source_laws.specs.TargetRule.{HandsTargetOn};

/// In a well-formed program a relation whose expressions don't touch the target hands its objects only on; so does each relation of the
/// direction of an enforceable program.
pub fn enforceable_relations_hand_target_on()
    ensures rule { (metas : List MetaDesc) (program : Program) (rel : Rel) → IsWellFormed metas program → ¬ TouchesTarget program rel → HandsTargetOn program rel }
    ensures enforceable { (metas : List MetaDesc) (program : Program) (number : ℕ) (rel : Rel) → IsWellFormed metas program → IsEnforceable metas program
        → slice_get program.rels number ≡ Some rel → rel.in_direction ≡ true → HandsTargetOn program rel }
{}
