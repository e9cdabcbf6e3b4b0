//! The words of `convert`.
ghost use Rattle.std.specs.Prelude.{◌≡◌, Some, None, length, map, string_bytes, option_map, true, false, IfOk, OnOk, IfErr};
ghost use Rattle.command_words.specs.declared.reading.WordsError.TheVariants as errors;
ghost use Rattle.qvtr_engine.specs.ConvertView.{convert_view};
ghost use Rattle.qvtr_engine.specs.ConvertWords as spec;

use crate::check_request::argument_at;
use crate::paths::are_all_apart;
use command_words::{Synopsis, WordsError, read_arguments};
use model_files::Form;
use mof_metamodel::NoMemory;
use std::alloc::Global;

/// The words `convert FORM META IN OUT`.
#[derive(Drop)]
pub(crate) struct ConvertRequest<'w> {
    /// The form of the file that is put.
    pub form: Form,
    pub metamodel: &'w str,
    pub model: &'w str,
    pub output: &'w str,
}

/// The form of this name.
fn form_named(word: &str) -> Option<Form>
    ensures { result ≡ spec.form_named word.now }
{
    match word {
        "xmi" => Some(Form::Xmi),
        "json" => Some(Form::Json),
        _ => None,
    }
}

impl<'w> ConvertRequest<'w> {
    /// Whether the paths are apart from each other and not empty.
    fn has_good_paths(&self, alloc: Global) -> Result<bool, NoMemory>
        ensures { IfOk result (λ good. good ≡ spec.has_good_paths (convert_view self.now)) }
    {
        if self.metamodel.is_empty() || self.model.is_empty() || self.output.is_empty() {
            return Ok(false);
        }
        are_all_apart(
            alloc,
            &[
                self.metamodel.as_bytes(),
                self.model.as_bytes(),
                self.output.as_bytes(),
            ],
        )
    }

    /// The request, if its paths are apart from each other and not empty.
    fn when_good(self, alloc: Global) -> Result<ConvertRequest<'w>, WordsError>
        ensures same { IfOk result (λ request. convert_view request ≡ convert_view self.entry) }
        ensures ok { OnOk result (spec.has_good_paths (convert_view self.entry) ≡ true) }
        ensures usage { IfErr result (λ e. e ≡ errors.Usage → spec.has_good_paths (convert_view self.entry) ≡ false) }
    {
        match self.has_good_paths(alloc) {
            Ok(true) => Ok(self),
            Ok(false) => Err(WordsError::Usage),
            Err(NoMemory) => Err(WordsError::NoMemory),
        }
    }

    /// The form and the paths that four arguments name, if the first one is a form.
    fn of_arguments(arguments: &[&'w str]) -> Option<ConvertRequest<'w>>
        requires { length arguments.now ≡ 4 }
        ensures { option_map convert_view result ≡ spec.convert_in (map (λ s. s.now) arguments.now) }
    {
        Some(ConvertRequest {
            form: form_named(argument_at(arguments, 0))?,
            metamodel: argument_at(arguments, 1),
            model: argument_at(arguments, 2),
            output: argument_at(arguments, 3),
        })
    }

    /// The same with paths that are apart and not empty.
    fn of_good_arguments(
        alloc: Global,
        arguments: &[&'w str],
    ) -> Result<ConvertRequest<'w>, WordsError>
        requires { length arguments.now ≡ 4 }
        ensures ok { IfOk result (λ request. spec.convert_from (map (λ s. s.now) arguments.now) ≡ Some (convert_view request)) }
        ensures usage { IfErr result (λ e. e ≡ errors.Usage → spec.convert_from (map (λ s. s.now) arguments.now) ≡ None) }
    {
        match ConvertRequest::of_arguments(arguments) {
            Some(request) => request.when_good(alloc),
            None => Err(WordsError::Usage),
        }
    }

    /// What the words behind the command's name ask for, if they are `FORM META IN OUT` with a known form, and with paths that are apart and not
    /// empty. A first `--` among them is left out, and no word before it stands for an option.
    ///
    /// # Errors
    /// `Usage` where the words are others, and `NoMemory`.
    pub(crate) fn read(
        alloc: Global,
        further: &'w [String],
    ) -> Result<ConvertRequest<'w>, WordsError>
        ensures ok { IfOk result (λ request. spec.convert_of (map string_bytes further.now) ≡ Some (convert_view request)) }
        ensures usage { IfErr result (λ e. e ≡ errors.Usage → spec.convert_of (map string_bytes further.now) ≡ None) }
    {
        let arguments = read_arguments(alloc, further, Synopsis::Conversion)?;
        ConvertRequest::of_good_arguments(alloc, arguments.as_slice())
    }
}
