ghost use Rattle.std.specs.Prelude.{◌≡◌, ◌≤◌, ℕ, List};
ghost use Rattle.mof_metamodel.specs.declared.desc.MetaDesc.{MetaDesc};
ghost use Rattle.repair_semantics.specs.declared.entry.Entry.{Entry};
ghost use Rattle.repair_semantics.specs.Entries.{IsEntry};
ghost use Rattle.repair_semantics.specs.Candidates.{candidate};
ghost use Rattle.entry_finding.specs.Premises.{CanBeEnforced};
ghost use Rattle.demand_set.specs.declared.demand_error.DemandError.{DemandError};
ghost use Rattle.demand_set.specs.declared.demand_error.DemandError.TheVariants as errors;
ghost use Rattle.demand_set.specs.DemandSets.{DemandData, IsDemandSet, IsRefusal};
ghost use Rattle.enforce_mode.specs.Made.{IsSound};
ghost use Rattle.example_models.specs.declared.limits.TheConstants.{MAX_SOURCE_CLASSES};
ghost use Rattle.example_program.specs.MainProgram.{main_program_data};
ghost use Rattle.example_laws.specs.ExampleModels.{empty_target, first_models};
ghost use Rattle.example_laws.specs.ExampleEntries.{IsExampleEntry};

/// Each entry over the models of an example is that of a package, of a class, of the columns of a class or of an
/// attribute of the source.
pub fn entries_are_of_the_source()
    ensures { (classes seed : ℕ) (e : Entry) → IsEntry main_program_data (first_models classes seed) e → IsExampleEntry classes seed e }
{}

/// Over the models of an example no demands are refused but for want of memory: no chain of entries comes back to
/// a call or is too long, no entry is unmet, and no two demands are in conflict.
pub fn demands_are_not_refused()
    ensures { (classes seed : ℕ) (e : DemandError) → classes ≤ MAX_SOURCE_CLASSES → IsRefusal main_program_data (first_models classes seed) e → e ≡ errors.NoMemory }
{}

/// What is demanded over them makes a sound model of the empty target: it has few objects, is valid, and is no
/// deeper than a model may be.
pub fn made_targets_are_sound()
    ensures { (metas : List MetaDesc) (classes seed : ℕ) (d : DemandData) → classes ≤ MAX_SOURCE_CLASSES
        → CanBeEnforced metas main_program_data (first_models classes seed) → IsDemandSet main_program_data (first_models classes seed) d
        → IsSound (candidate main_program_data empty_target d.list) }
{}
