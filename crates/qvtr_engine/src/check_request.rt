//! The words of a command over a script and models: a script, a target, and a file for each name.
ghost use Rattle.std.specs.Prelude.{◌≡◌, ◌<◌, ◌≤◌, Some, None, chars, length, map, slice_get, string_bytes, IfOk, IfErr};
ghost use Rattle.std.specs.List.{list_all};
ghost use Rattle.command_words.specs.declared.reading.WordsError.TheVariants as errors;
ghost use Rattle.qvtr_engine.specs.CheckView.{bound_view};
ghost use Rattle.qvtr_engine.specs.CheckWords.{check_paths};
ghost use Rattle.qvtr_engine.specs.Reading.{nth};
ghost use Rattle.mof_metamodel.specs.Characters.{same_name};
ghost use Rattle.qvtr_engine.specs.Names as names;
ghost use Rattle.qvtr_engine.specs.Paths as paths;
ghost use Rattle.qvtr_engine.specs.RequestView.{request_view};
ghost use Rattle.qvtr_engine.specs.RequestWords as spec;
ghost use Rattle.qvtr_engine.specs.RequestWords.{has_parts, file_names, check_in, request_of};
ghost use Rattle.qvtr_engine.specs.Target.{target_path};

use crate::check_words::{Bound, split_at_equals};
use crate::paths::are_all_apart;
use crate::text_set::are_distinct;
use command_words::{Synopsis, WordsError, read_arguments};
use mof_metamodel::NoMemory;
use std::alloc::Global;

/// The words `SCRIPT TARGET NAME=PATH..` behind a command's name, with one name or more. A name and its path are read where they stand.
#[derive(Drop)]
pub(crate) struct CheckRequest<'w> {
    pub script: &'w str,
    pub target: &'w str,
    /// All arguments: the words that bind names to paths stand behind the first two.
    pub arguments: Vec<&'w str>,
}

/// The argument at a place.
#[tactic(auto, using(crate::proofs::RequestLaws::nth_argument))]
pub(crate) fn argument_at<'w>(arguments: &[&'w str], place: usize) -> &'w str
    requires { place < length arguments.now }
    ensures { result.now ≡ nth (map (λ s. s.now) arguments.now) place }
{
    arguments[place]
}

/// Whether two names have the same characters.
fn is_same_name(name: &str, other: &str) -> bool
    ensures { result ≡ same_name (chars name.now) (chars other.now) }
{
    name == other
}

impl<'w> CheckRequest<'w> {
    /// How many names have files.
    #[tactic(auto, using(crate::proofs::RequestLaws::file_count))]
    pub(crate) fn count(&self) -> usize
        ensures { result ≡ length (request_view self.now).files }
    {
        let arguments = self.arguments.len();
        if arguments < 2 { 0 } else { arguments - 2 }
    }

    /// The name at a place, with its path.
    #[tactic(auto, using(crate::proofs::RequestLaws::file_count))]
    pub(crate) fn file(&self, place: usize) -> Bound<'w>
        requires { place < length (request_view self.now).files }
        ensures { slice_get (request_view self.now).files place ≡ Some (bound_view result) }
    {
        // The place of the word is less than this, so it is no sum that wraps.
        let _arguments = self.arguments.len();
        let (name, path) = split_at_equals(argument_at(self.arguments.as_slice(), place + 2));
        Bound { name, path }
    }

    /// The path of the target's file, or an empty one where the target has none.
    pub(crate) fn target_path(&self) -> &'w str
        ensures { result.now ≡ target_path (request_view self.now) }
    {
        for i in 0..self.count() {
            let file = self.file(i);
            if is_same_name(self.target, file.name) {
                return file.path;
            }
        }
        ""
    }

    /// Whether each word has a name and a path.
    fn has_parts(&self) -> bool
        ensures { result ≡ list_all has_parts (request_view self.now).files }
    {
        for i in 0..self.count() {
            if !self.file(i).has_parts() {
                return false;
            }
        }
        true
    }

    /// The names that have files.
    fn names(&self, alloc: Global) -> Result<Vec<&'w [u8]>, NoMemory>
        ensures { IfOk result (λ names. map (λ t. t.now) names.items ≡ file_names (request_view self.now)) }
    {
        let mut names = Vec::new(alloc);
        for i in 0..self.count() {
            names.push(self.file(i).name.as_bytes())?;
        }
        Ok(names)
    }

    /// The paths of all files.
    fn paths(&self, alloc: Global) -> Result<Vec<&'w [u8]>, NoMemory>
        ensures { IfOk result (λ paths. map (λ t. t.now) paths.items ≡ check_paths (request_view self.now)) }
    {
        let mut paths = Vec::new(alloc);
        paths.push(self.script.as_bytes())?;
        for i in 0..self.count() {
            paths.push(self.file(i).path.as_bytes())?;
        }
        Ok(paths)
    }

    /// Whether no name stands twice.
    fn has_distinct_names(&self, alloc: Global) -> Result<bool, NoMemory>
        ensures { IfOk result (λ distinct. distinct ≡ names.are_distinct (file_names (request_view self.now))) }
    {
        let names = self.names(alloc)?;
        are_distinct(alloc, names.as_slice())
    }

    /// Whether all paths are apart from each other.
    fn has_paths_apart(&self, alloc: Global) -> Result<bool, NoMemory>
        ensures { IfOk result (λ apart. apart ≡ paths.are_all_apart (check_paths (request_view self.now))) }
    {
        let paths = self.paths(alloc)?;
        are_all_apart(alloc, paths.as_slice())
    }

    /// Whether each word has a name and a path, no name stands twice, and the paths are apart and not empty.
    fn is_good(&self, alloc: Global) -> Result<bool, NoMemory>
        ensures { IfOk result (λ good. good ≡ spec.is_good (request_view self.now)) }
    {
        if !self.has_parts() || self.script.is_empty() {
            return Ok(false);
        }
        Ok(self.has_distinct_names(alloc)? && self.has_paths_apart(alloc)?)
    }

    /// What two arguments or more ask for.
    fn of_arguments(arguments: Vec<&'w str>) -> CheckRequest<'w>
        requires { 2 ≤ length arguments.items }
        ensures { request_view result ≡ check_in (map (λ s. s.now) arguments.entry.items) }
    {
        CheckRequest {
            script: argument_at(arguments.as_slice(), 0),
            target: argument_at(arguments.as_slice(), 1),
            arguments,
        }
    }

    /// What the words behind a command's name ask for: `SCRIPT TARGET` and one word `NAME=PATH` or more, with distinct names and with paths that
    /// are apart and not empty. A first `--` among them is left out, and no word before it stands for an option.
    ///
    /// # Errors
    /// `Usage` where the words are others, and `NoMemory`.
    pub(crate) fn read(alloc: Global, further: &'w [String]) -> Result<CheckRequest<'w>, WordsError>
        ensures ok { IfOk result (λ request. request_of (map string_bytes further.now) ≡ Some (request_view request)) }
        ensures usage { IfErr result (λ e. e ≡ errors.Usage → request_of (map string_bytes further.now) ≡ None) }
    {
        let arguments = read_arguments(alloc, further, Synopsis::Models)?;
        let request = CheckRequest::of_arguments(arguments);
        match request.is_good(alloc) {
            Ok(true) => Ok(request),
            Ok(false) => Err(WordsError::Usage),
            Err(NoMemory) => Err(WordsError::NoMemory),
        }
    }
}
