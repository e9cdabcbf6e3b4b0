//! Laws on what texts are and what is told of them, each the contract of a function that does nothing.
ghost use Rattle.std.specs.Prelude.{◌≡◌, ◌⊎◌, ℕ, List};
ghost use Rattle.qv_syntax.specs.declared.script.Script.{Script};
ghost use Rattle.script_files.specs.declared.error.ScriptError.{ScriptError};
ghost use Rattle.script_files.specs.Scripts.{SpellsScript, IsScriptError, IsTold};

/// A text spells one script at most.
pub fn texts_are_one_script()
    ensures { (bytes : List ℕ) (a b : Script) → SpellsScript bytes a → SpellsScript bytes b → a ≡ b }
{}

/// Of a text that spells a script no error is told.
pub fn scripts_have_no_faults()
    ensures { (bytes : List ℕ) (s : Script) (e : ScriptError) → SpellsScript bytes s → IsScriptError bytes e → ¬ IsTold e }
{}

/// One error is told of a text.
pub fn one_error_is_told()
    ensures { (bytes : List ℕ) (e f : ScriptError) → IsTold e → IsTold f → IsScriptError bytes e → IsScriptError bytes f → e ≡ f }
{}

/// Each text spells a script, or an error is told of it.
pub fn each_text_is_told()
    ensures { (bytes : List ℕ) → ((s : Script) × SpellsScript bytes s) ⊎ ((e : ScriptError) × IsTold e × IsScriptError bytes e) }
{}
