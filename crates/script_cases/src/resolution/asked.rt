//! What a case asks.

/// What is to be told of a script.
#[derive(Clone, Copy, PartialEq, Eq)]
pub(crate) enum Asked {
    /// Whether it resolves.
    Verdict,
    /// The whole program.
    Program,
    /// The relations alone.
    Relations,
    /// Their variables.
    Variables,
    /// Their domains.
    Domains,
    /// Their clauses.
    Clauses,
    /// Whether names are those of the script.
    Names,
    /// Whether it can be enforced.
    Rules,
    /// The program of the example, as code makes it.
    Example,
}

impl Asked {
    /// Whether the variables of relations are told.
    pub(crate) fn has_variables(self) -> bool {
        matches!(self, Asked::Program | Asked::Variables)
    }

    /// Whether their domains are.
    pub(crate) fn has_domains(self) -> bool {
        matches!(self, Asked::Program | Asked::Domains)
    }

    /// Whether their clauses are.
    pub(crate) fn has_clauses(self) -> bool {
        matches!(self, Asked::Program | Asked::Clauses)
    }
}

/// A case: what is asked, the name of the target, and the text.
#[derive(Clone, Copy)]
pub(crate) struct Case<'c> {
    pub(crate) asked: Asked,
    pub(crate) target: &'c str,
    pub(crate) text: &'c str,
}

fn asked_by(word: &str) -> Option<Asked> {
    match word {
        "resolves" => Some(Asked::Verdict),
        "program" => Some(Asked::Program),
        "relations" => Some(Asked::Relations),
        "variables" => Some(Asked::Variables),
        "domains" => Some(Asked::Domains),
        "clauses" => Some(Asked::Clauses),
        "names" => Some(Asked::Names),
        "enforceable" => Some(Asked::Rules),
        "example" => Some(Asked::Example),
        _ => None,
    }
}

/// The case that lines write, if they write one.
pub(crate) fn case_of(lines: &str) -> Option<Case<'_>> {
    let (word, rest) = lines.split_once(' ')?;
    let asked = asked_by(word)?;
    let (target, text) = rest.split_once(' ').unwrap_or((rest, ""));
    Some(Case {
        asked,
        target: target.trim_end(),
        text,
    })
}
