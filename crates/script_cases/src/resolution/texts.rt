//! The texts of scripts, as cases write them.
use case_texts::expanded;
use mof_metamodel::NoMemory;
use std::alloc::Global;

/// The models that a setting writes, if it does.
fn models_of(setting: &str) -> Option<&str> {
    for line in setting.lines() {
        if let Some(models) = line.strip_prefix("models ") {
            return Some(models);
        }
    }
    None
}

/// Whether a text is that of a whole script.
fn is_whole(text: &str) -> bool {
    text.trim_start().starts_with("transformation")
}

/// The bytes of a script: of a whole one, or of a transformation over the models of the setting that declares
/// what the text says.
pub(crate) fn script_text(alloc: Global, setting: &str, text: &str) -> Result<Vec<u8>, NoMemory> {
    match models_of(setting) {
        Some(models) if !is_whole(text) => {
            let whole = format!(in alloc; "transformation T ({models}) {{ {text} }}")?;
            expanded(alloc, whole.as_str())
        }
        _ => expanded(alloc, text),
    }
}
