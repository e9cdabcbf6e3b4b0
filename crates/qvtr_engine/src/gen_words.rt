//! The words of `gen`: how many classes the source of the example has, and its seed.
ghost use Rattle.std.specs.Prelude.{◌≡◌, Some, None, length, map, string_bytes, option_map, IfOk, IfErr};
ghost use Rattle.std.specs.Str.{all_ascii_digits};
ghost use Rattle.command_words.specs.declared.reading.WordsError.TheVariants as errors;
ghost use Rattle.qvtr_engine.specs.GenWords as spec;

use crate::check_request::argument_at;
use command_words::{Synopsis, WordsError, read_arguments};
use example_models::MAX_SOURCE_CLASSES;
use std::alloc::Global;

/// The most digits of a number.
const MAX_DIGITS: usize = 9;

/// The words `gen N SEED`, as numbers.
#[derive(Clone, Copy, Drop)]
pub(crate) struct GenRequest {
    /// How many classes the source has.
    pub classes: u32,
    pub seed: u32,
}

/// Whether a word has decimal digits alone.
fn has_digits_alone(word: &str) -> bool
    ensures { result ≡ all_ascii_digits word.now }
{
    for byte in word.as_bytes() {
        if !byte.is_ascii_digit() {
            return false;
        }
    }
    true
}

/// The number that one to nine decimal digits are.
fn number_of(word: &str) -> Option<u32>
    ensures { result ≡ spec.number_of word.now }
{
    if word.is_empty() || word.len() > MAX_DIGITS || !has_digits_alone(word) {
        return None;
    }
    word.parse::<u32>().ok()
}

impl GenRequest {
    /// What two arguments ask for.
    #[tactic(auto, unfolding(crate::specs::GenWords::gen_from))]
    fn of_arguments(arguments: &[&str]) -> Option<GenRequest>
        requires { length arguments.now ≡ 2 }
        ensures { result ≡ spec.gen_from (map (λ s. s.now) arguments.now) }
    {
        let classes = number_of(argument_at(arguments, 0))?;
        let seed = number_of(argument_at(arguments, 1))?;
        if classes == 0 || classes > MAX_SOURCE_CLASSES {
            return None;
        }
        Some(GenRequest { classes, seed })
    }

    /// What the words behind the command's name ask for, if they are `N SEED`, of one to nine decimal digits each, and N is from 1 to
    /// `MAX_SOURCE_CLASSES`. A first `--` among them is left out, and no word before it stands for an option.
    ///
    /// # Errors
    /// `Usage` where the words are others, and `NoMemory`.
    pub(crate) fn read(alloc: Global, further: &[String]) -> Result<GenRequest, WordsError>
        ensures ok { IfOk result (λ request. spec.gen_of (map string_bytes further.now) ≡ Some request) }
        ensures usage { IfErr result (λ e. e ≡ errors.Usage → spec.gen_of (map string_bytes further.now) ≡ None) }
    {
        let arguments = read_arguments(alloc, further, Synopsis::Generation)?;
        match GenRequest::of_arguments(arguments.as_slice()) {
            Some(request) => Ok(request),
            None => Err(WordsError::Usage),
        }
    }
}
