//! Paths of the words, and which of them may stand beside each other.
ghost use Rattle.std.specs.Prelude.{◌≡◌, ℕ, List, map, not, IfOk};
ghost use Rattle.std.specs.List.{list_any, list_all};
ghost use Rattle.qvtr_engine.specs.Paths as spec;
ghost use Rattle.qvtr_engine.specs.TextSets.{IsSetOf};

use crate::text_set::{TextSet, distinct_set};
use mof_metamodel::NoMemory;
use std::alloc::Global;

/// What a file's path has behind it while the file is being put.
const NEW: &[u8] = b".new";

/// Whether a path is one of the others followed by `.new`.
fn is_new_of_one(path: &[u8], others: &TextSet<'_>) -> bool
    ensures { (of : List (List ℕ)) → IsSetOf of others.now → result ≡ list_any (spec.is_new_of path.now) of }
{
    match path.strip_suffix(NEW) {
        Some(other) => others.contains(other),
        None => false,
    }
}

/// Whether none of the paths is another one followed by `.new`. The set is that of the paths.
fn is_none_new(paths: &[&[u8]], set: &TextSet<'_>) -> bool
    requires { IsSetOf (map (λ p. p.now) paths.now) set.now }
    ensures { result ≡ list_all (λ path. not (list_any (spec.is_new_of path) (map (λ p. p.now) paths.now))) (map (λ p. p.now) paths.now) }
{
    for path in paths {
        if is_new_of_one(path, set) {
            return false;
        }
    }
    true
}

/// Whether the paths are apart from each other: none is another one, or another one followed by `.new`. It takes n log n time.
pub(crate) fn are_all_apart(alloc: Global, paths: &[&[u8]]) -> Result<bool, NoMemory>
    ensures { IfOk result (λ apart. apart ≡ spec.are_all_apart (map (λ p. p.now) paths.now)) }
{
    match distinct_set(alloc, paths)? {
        Some(set) => {
            let apart = is_none_new(paths, &set);
            drop(set);
            Ok(apart)
        }
        None => Ok(false),
    }
}
