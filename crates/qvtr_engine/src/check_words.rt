//! A word of `check` that binds a name to a path.
ghost use Rattle.std.specs.Prelude.{◌≡◌};
ghost use Rattle.qvtr_engine.specs.CheckView.{bound_view};
ghost use Rattle.qvtr_engine.specs.Reading.{name_part, path_part};
ghost use Rattle.qvtr_engine.specs.RequestWords.{has_parts};

/// A word `NAME=PATH`.
#[derive(Clone, Copy)]
pub(crate) struct Bound<'w> {
    pub name: &'w str,
    pub path: &'w str,
}

impl Bound<'_> {
    /// Whether neither the name nor the path is empty.
    pub(crate) fn has_parts(&self) -> bool
        ensures { result ≡ has_parts (bound_view self.now) }
    {
        !self.name.is_empty() && !self.path.is_empty()
    }
}

/// What stands before the first `=` of a word, and what behind it. A word without `=` is all before it.
pub(crate) fn split_at_equals(word: &str) -> (&str, &str)
    ensures { (result.0.now ≡ name_part word.now) × (result.1.now ≡ path_part word.now) }
{
    match word.split_once('=') {
        Some(parts) => parts,
        None => (word, ""),
    }
}
