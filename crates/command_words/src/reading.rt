//! The words behind a command's name, read as its arguments.
ghost use Rattle.std.specs.Prelude.{◌≡◌, ◌++◌, ℕ, List, IfOk, IfErr, OnOk, map, string_bytes};
ghost use Rattle.clap.specs.Matches.{found_of};
ghost use Rattle.clap.specs.Walk.{rows_of};
ghost use Rattle.command_words.specs.Commands.{values_at, values_in};
ghost use Rattle.command_words.specs.Synopses.{HasArguments};

use crate::command::command_of;
use crate::synopsis::Synopsis;
use clap::error::ErrorKind;
use clap::{ArgMatches, Error};
use std::alloc::{AllocError, Global};

/// Why words aren't read.
#[derive(Clone, Copy, Drop)]
pub enum WordsError {
    /// They aren't of the command's form.
    Usage,
    /// Memory could not be had.
    NoMemory,
}

impl From<AllocError> for WordsError {
    ghost use Rattle.std.specs.Prelude.{◌≡◌};
    ghost use Rattle.command_words.specs.declared.reading.WordsError.TheVariants as of;

    ghost from_gives = { λ _ e. e ≡ of.NoMemory };

    fn from(_error: AllocError) -> WordsError {
        WordsError::NoMemory
    }
}

impl From<Error> for WordsError {
    ghost use Rattle.std.specs.Prelude.{◌≡◌};
    ghost use Rattle.clap.specs.Values.{kind_of};
    ghost use Rattle.command_words.specs.Causes.{cause_of};

    ghost from_gives = { λ error e. e ≡ cause_of (kind_of error) };

    fn from(error: Error) -> WordsError {
        match error.kind() {
            ErrorKind::OutOfMemory => WordsError::NoMemory,
            _ => WordsError::Usage,
        }
    }
}

/// Adds the values of the argument with a name.
fn add_values<'w>(
    values: &mut Vec<&'w str>,
    matches: &ArgMatches<'w>,
    name: &str,
) -> Result<(), AllocError>
    ensures { OnOk result (map (λ s. s.now) values.new.items
        ≡ map (λ s. s.now) values.old.items ++ values_at (rows_of (found_of matches.now)) name.now) }
{
    values.extend_from_slice(matches.get_raw(name).unwrap_or(&[]))
}

/// The values of the arguments with these names, in their order.
fn values_of<'w>(
    alloc: Global,
    matches: &ArgMatches<'w>,
    names: &[&str],
) -> Result<Vec<&'w str>, AllocError>
    ensures { IfOk result (λ values. map (λ s. s.now) values.items
        ≡ values_in (rows_of (found_of matches.now)) (map (λ s. s.now) names.now)) }
{
    let mut values = Vec::new(alloc);
    for name in names {
        add_values(&mut values, matches, name)?;
    }
    Ok(values)
}

/// The arguments in the words behind a command's name, in their order. A first `--` among the words is
/// left out. No word before it stands for an option: a word that begins with `-` and has more than that
/// sign. Time and memory in proportion to the words.
///
/// # Errors
/// `Usage` where the words have no such arguments, or not as many as the command has.
pub fn read_arguments<'w>(
    alloc: Global,
    words: &'w [String],
    synopsis: Synopsis,
) -> Result<Vec<&'w str>, WordsError>
    ensures ok { IfOk result (λ arguments. HasArguments synopsis (map string_bytes words.now) (map (λ s. s.now) arguments.items)) }
    ensures usage { IfErr result (λ e. e ≡ WordsError.Usage
        → (arguments : List (List ℕ)) → HasArguments synopsis (map string_bytes words.now) arguments → ⊥) }
{
    let matches = command_of(alloc, synopsis)?.try_get_matches_from(words)?;
    Ok(values_of(alloc, &matches, synopsis.names())?)
}
