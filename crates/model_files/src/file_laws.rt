//! Laws on what files are and what is told of them, each the contract of a function that does nothing.
ghost use Rattle.std.specs.Prelude.{◌≡◌, ◌⊎◌, ◌≤◌, ℕ, List};
ghost use Rattle.mof_metamodel.specs.declared.desc.MetaDesc.{MetaDesc};
ghost use Rattle.object_tables.specs.declared.limit.TheConstants.{MAX_DEPTH, MAX_OBJECTS};
ghost use Rattle.mof_metamodel.specs.WellMeta.{WellMeta};
ghost use Rattle.object_tables.specs.Containment.{IsDepth};
ghost use Rattle.object_tables.specs.Models.{ModelData, IsLive, live_count};
ghost use Rattle.object_tables.specs.Sameness.{IsSame};
ghost use Rattle.object_tables.specs.Validity.{Valid};
ghost use Rattle.model_assembly.specs.declared.fault.Externs.{Externs};
ghost use Rattle.model_assembly.specs.declared.fault.Externs.TheVariants as externs;
ghost use Rattle.model_assembly.specs.Held.{MayBeWritten};
ghost use Rattle.model_files.specs.declared.fault.FileError.{FileError};
ghost use Rattle.model_files.specs.CanonJson.{canon_json};
ghost use Rattle.model_files.specs.FaultTexts.{is_limit};
ghost use Rattle.model_files.specs.Files.{FileSpells, IsFileError, IsTold, MetaSpells, IsMetaFileError};

use model_assembly::models_are_held;
use object_tables::Model;

/// A file is one model, with its numbers, and describes one metamodel.
pub fn files_are_one_model()
    ensures model { (meta : MetaDesc) (outside : Externs) (bytes : List ℕ) (a b : ModelData) → FileSpells meta outside bytes a → FileSpells meta outside bytes b → a ≡ b }
    ensures metamodel { (bytes : List ℕ) (a b : MetaDesc) → MetaSpells bytes a → MetaSpells bytes b → a ≡ b }
{}

/// Of a file that is a model, or describes a metamodel, no error is told.
pub fn models_have_no_faults()
    ensures model { (meta : MetaDesc) (outside : Externs) (bytes : List ℕ) (m : ModelData) (e : FileError) → FileSpells meta outside bytes m → IsFileError meta outside bytes e → ¬ IsTold e }
    ensures metamodel { (bytes : List ℕ) (desc : MetaDesc) (e : FileError) → MetaSpells bytes desc → IsMetaFileError bytes e → ¬ IsTold e }
{}

/// Of two errors that are told of a file both are limits, or none is.
pub fn errors_agree_on_limits()
    ensures model { (meta : MetaDesc) (outside : Externs) (bytes : List ℕ) (e f : FileError) → IsTold e → IsTold f → IsFileError meta outside bytes e → IsFileError meta outside bytes f → is_limit e ≡ is_limit f }
    ensures metamodel { (bytes : List ℕ) (e f : FileError) → IsTold e → IsTold f → IsMetaFileError bytes e → IsMetaFileError bytes f → is_limit e ≡ is_limit f }
{}

/// One error is told of a file.
pub fn one_error_is_told()
    ensures model { (meta : MetaDesc) (outside : Externs) (bytes : List ℕ) (e f : FileError) → WellMeta meta → IsTold e → IsTold f → IsFileError meta outside bytes e → IsFileError meta outside bytes f → e ≡ f }
    ensures metamodel { (bytes : List ℕ) (e f : FileError) → IsTold e → IsTold f → IsMetaFileError bytes e → IsMetaFileError bytes f → e ≡ f }
{}

/// A file is a model, or an error is told of it; it describes a metamodel, or an error is told of it.
pub fn files_are_answered()
    ensures model { (meta : MetaDesc) (outside : Externs) (bytes : List ℕ) → WellMeta meta
        → ((m : ModelData) × FileSpells meta outside bytes m) ⊎ ((e : FileError) × IsTold e × IsFileError meta outside bytes e) }
    ensures metamodel { (bytes : List ℕ) → ((desc : MetaDesc) × MetaSpells bytes desc) ⊎ ((e : FileError) × IsTold e × IsMetaFileError bytes e) }
{}

/// What is written of a model as JSON is read as the same model, and as no other (RFC 8259; XMI 2.5.1, clause 9).
pub fn written_json_is_read()
    ensures read { (m : ModelData) → MayBeWritten m → (k : ModelData) × FileSpells m.meta externs.None (canon_json m) k × IsSame m k }
    ensures only { (m k : ModelData) → MayBeWritten m → FileSpells m.meta externs.None (canon_json m) k → IsSame m k }
{}

/// The same of a model of code: each is held. No error is told of its text.
pub fn json_is_read_back(model: &Model<'_>)
    requires valid { Valid model.now }
    requires depth { (o depth : ℕ) → IsLive model.now o → IsDepth model.now o depth → depth ≤ MAX_DEPTH }
    requires objects { live_count model.now ≤ MAX_OBJECTS }
    ensures read { (k : ModelData) × FileSpells model.now.meta externs.None (canon_json model.now) k × IsSame model.now k }
    ensures only { (k : ModelData) → FileSpells model.now.meta externs.None (canon_json model.now) k → IsSame model.now k }
    ensures accepted { (e : FileError) → IsTold e → ¬ IsFileError model.now.meta externs.None (canon_json model.now) e }
{
    models_are_held(model);
}

/// Models of one metamodel that aren't the same have different texts as JSON.
pub fn json_tells_models()
    ensures { (m k : ModelData) → MayBeWritten m → MayBeWritten k → k.meta ≡ m.meta → canon_json m ≡ canon_json k → IsSame m k }
{}
