ghost use Rattle.std.specs.Prelude.{◌≡◌, ◌≢◌, ℕ, Err, List, Result};
ghost use Rattle.mof_metamodel.specs.declared.desc.MetaDesc.{MetaDesc};
ghost use Rattle.mof_metamodel.specs.WellMeta.{WellMeta};
ghost use Rattle.object_tables.specs.Models.{ModelData};
ghost use Rattle.model_assembly.specs.declared.fault.Externs.{Externs};
ghost use Rattle.model_assembly.specs.declared.fault.ModelFault.{ModelFault};
ghost use Rattle.xmi_profile.specs.declared.fault.XmiError.{XmiError};
ghost use Rattle.xmi_profile.specs.declared.fault.XmiError.TheVariants as errors;
ghost use Rattle.model_assembly.specs.FirstFault.{IsFirstAt, IsFirstBy};
ghost use Rattle.xmi_profile.specs.Reads.{Reads};
ghost use Rattle.model_assembly.specs.Source.{Source};

/// Of two faults that are told of a tree by their places both are one, and so are two that are told of its references.
pub fn one_fault()
    ensures places { (s : Source) (f g : ModelFault) → WellMeta s.meta → IsFirstAt s f → IsFirstAt s g → f ≡ g }
    ensures references { (s : Source) (f g : ModelFault) → WellMeta s.meta → IsFirstBy s f → IsFirstBy s g → f ≡ g }
{}

/// A file is a model, or a fault is told of it: there is an answer other than that memory ran out.
pub fn files_are_answered()
    ensures { (meta : MetaDesc) (outside : Externs) (bytes : List ℕ) → WellMeta meta → (answer : Result ModelData XmiError) × Reads meta outside bytes answer × (answer ≢ Err errors.NoMemory) }
{}
