ghost use Rattle.std.specs.Prelude.{◌≡◌, ℕ, List, Some, true, slice_get};
ghost use Rattle.mof_metamodel.specs.declared.desc.MetaDesc.{MetaDesc};
ghost use Rattle.qv_syntax.specs.declared.program.Program.{Program};
ghost use Rattle.qv_syntax.specs.declared.program.Rel.{Rel};
ghost use Rattle.enforcement_rules.specs.Rules.{Breaks, Broken, IsEnforceable};

/// At most one relation with one rule is answered.
pub fn one_broken()
    ensures { (metas : List MetaDesc) (program : Program) (number rule other least : ℕ) → Broken metas program number rule → Broken metas program other least
        → (number ≡ other) × (rule ≡ least) }
{}

/// Where one is answered, the program can't be enforced.
pub fn broken_is_refused()
    ensures { (metas : List MetaDesc) (program : Program) (number rule : ℕ) → Broken metas program number rule → ¬ IsEnforceable metas program }
{}

/// Where none is, each relation of the direction keeps each rule.
pub fn rules_are_kept()
    ensures { (metas : List MetaDesc) (program : Program) (number rule : ℕ) (rel : Rel) → IsEnforceable metas program → slice_get program.rels number ≡ Some rel
        → rel.in_direction ≡ true → ¬ Breaks metas program rel rule }
{}
