//! What holds of the program: all that an enforcement asks of one.
ghost use Rattle.std.specs.Prelude.{◌<◌, ◌≤◌, ◌^◌, [], ◌∷◌, length, All, Contains};
ghost use Rattle.qv_syntax.specs.declared.program.Rel.{Rel};
ghost use Rattle.qv_syntax.specs.WellFormed.{IsWellFormed};
ghost use Rattle.enforcement_rules.specs.Rules.{IsEnforceable};
ghost use Rattle.evaluation_laws.specs.Literals.{HasStorableTexts};
ghost use Rattle.example_models.specs.ClsTable.{cls_desc};
ghost use Rattle.example_models.specs.RdbTable.{rdb_desc};
ghost use Rattle.example_program.specs.MainProgram.{main_program_data};

/// The program is well formed over its metamodels Cls and Rdb.
pub fn main_program_is_well_formed()
    ensures { IsWellFormed (cls_desc ∷ rdb_desc ∷ []) main_program_data }
{}

/// It can be enforced: no relation of it breaks one of the rules E1 to E11.
pub fn main_program_is_enforceable()
    ensures { IsEnforceable (cls_desc ∷ rdb_desc ∷ []) main_program_data }
{}

/// Its texts are storable, and numbers of 32 bits count the variables and conjuncts of its relations.
pub fn main_program_is_small()
    ensures texts { HasStorableTexts main_program_data }
    ensures vars { (rel : Rel) → Contains main_program_data.rels rel → length rel.vars ≤ 2 ^ 32 }
    ensures wheres { All (λ (rel : Rel). length rel.wheres < 2 ^ 32) main_program_data.rels }
{}
