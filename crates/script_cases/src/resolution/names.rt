//! Names that are given of files, against those of a script.
use crate::reading::script_of;
use crate::resolution::asked::Case;
use case_texts::{Pen, expanded};
use mof_metamodel::{NoMemory, Seq, Text, or_drop};
use qv_syntax::Script;
use script_scopes::{NameFault, names_match};
use std::alloc::Global;

/// The names that blanks part.
fn names_of(alloc: Global, text: &str) -> Result<Seq<Text>, NoMemory> {
    let mut names = Seq::new(alloc);
    for name in text.split_whitespace() {
        names.push(Text::new(alloc, name)?)?;
    }
    Ok(names)
}

/// Whether the names before the first `: ` of the case's text are those of the script behind it.
pub(crate) fn put_names(alloc: Global, pen: &mut Pen, case: &Case<'_>) -> Result<(), NoMemory> {
    let (given, text) = case.text.split_once(": ").unwrap_or(("", case.text));
    let names = names_of(alloc, given)?;
    let bytes = or_drop!(expanded(alloc, text); names);
    let script = script_of(alloc, pen, bytes.as_slice());
    drop(bytes);
    if let Some(script) = script {
        put_match(alloc, pen, &script, case.target, names.as_slice());
        drop(script);
    }
    drop(names);
    Ok(())
}

fn put_match(alloc: Global, pen: &mut Pen, script: &Script, target: &str, names: &[Text]) {
    match names_match(script, target, names) {
        None => pen.put(" all"),
        Some(NameFault::Target) => pen.put(" target"),
        Some(NameFault::Extra(place)) => pen.put_string(format!(in alloc; " extra {place}")),
        Some(NameFault::Missing(place)) => pen.put_string(format!(in alloc; " missing {place}")),
    }
}
