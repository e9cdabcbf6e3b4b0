//! Texts that are found by search, whatever they are.
ghost use Rattle.std.specs.Prelude.{◌≡◌, ◌||◌, not, ℕ, List, false, map, is_some, IfOk, OnOk, IfSome};
ghost use Rattle.mof_metamodel.specs.Metamodels.{same_name};
ghost use Rattle.qvtr_engine.specs.Names as spec;
ghost use Rattle.qvtr_engine.specs.TextSets.{has, IsSetOf};

use mof_metamodel::NoMemory;
use std::alloc::Global;
use std::collections::BTreeSet;

/// Texts in the order of their bytes. Adding one and finding one take the logarithm of their number.
#[derive(Drop)]
pub(crate) struct TextSet<'w> {
    texts: BTreeSet<&'w [u8]>,
}

impl<'w> TextSet<'w> {
    /// None.
    pub(crate) fn new(alloc: Global) -> TextSet<'w>
        ensures { (text : List ℕ) → has result text ≡ false }
    {
        TextSet {
            texts: BTreeSet::new(alloc),
        }
    }

    /// Whether a text is one of them.
    pub(crate) fn contains(&self, text: &[u8]) -> bool
        ensures { result ≡ has self.now text.now }
    {
        self.texts.contains(text)
    }

    /// Adds a text, and answers whether it wasn't one of them.
    pub(crate) fn put(&mut self, text: &'w [u8]) -> Result<bool, NoMemory>
        ensures is_new { IfOk result (λ is_new. is_new ≡ not (has self.old text.now)) }
        ensures added { OnOk result ((other : List ℕ) → has self.new other ≡ (same_name other text.now || has self.old other)) }
    {
        Ok(self.texts.insert(text)?)
    }
}

/// The set of these texts, unless one of them stands twice.
pub(crate) fn distinct_set<'w>(
    alloc: Global,
    texts: &[&'w [u8]],
) -> Result<Option<TextSet<'w>>, NoMemory>
    ensures distinct { IfOk result (λ found. is_some found ≡ spec.are_distinct (map (λ t. t.now) texts.now)) }
    ensures set { IfOk result (λ found. IfSome found (IsSetOf (map (λ t. t.now) texts.now))) }
{
    let mut met = TextSet::new(alloc);
    for text in texts {
        if !met.put(text)? {
            return Ok(None);
        }
    }
    Ok(Some(met))
}

/// Whether no name stands twice.
pub(crate) fn are_distinct(alloc: Global, names: &[&[u8]]) -> Result<bool, NoMemory>
    ensures { IfOk result (λ distinct. distinct ≡ spec.are_distinct (map (λ t. t.now) names.now)) }
{
    Ok(distinct_set(alloc, names)?.is_some())
}
