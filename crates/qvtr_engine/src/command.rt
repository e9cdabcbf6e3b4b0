//! What the words of the command line ask for.
ghost use Rattle.std.specs.Prelude.{◌≡◌, Some, None, IfOk, IfErr, map, string_bytes};
ghost use Rattle.command_words.specs.declared.reading.WordsError.TheVariants as errors;
ghost use Rattle.qvtr_engine.specs.Command as spec;
ghost use Rattle.qvtr_engine.specs.CommandNames.{NamesCommand};
ghost use Rattle.qvtr_engine.specs.CommandView.{command_view};

use crate::check_request::CheckRequest;
use crate::command_name::CommandName;
use crate::convert_words::ConvertRequest;
use crate::gen_words::GenRequest;
use crate::mode::Mode;
use command_words::WordsError;
use std::alloc::Global;

/// A command.
#[derive(Drop)]
pub(crate) enum Command<'w> {
    /// A script is executed over models.
    Execute {
        mode: Mode,
        request: CheckRequest<'w>,
    },
    /// A model is converted to a file of another form.
    Convert(ConvertRequest<'w>),
    /// The example of any size is run.
    Generate(GenRequest),
}

impl<'w> Command<'w> {
    /// The command of a name, with its further words.
    fn of_name(
        alloc: Global,
        name: CommandName,
        further: &'w [String],
    ) -> Result<Command<'w>, WordsError>
        ensures ok { IfOk result (λ command. spec.command_in name (map string_bytes further.now) ≡ Some (command_view command)) }
        ensures usage { IfErr result (λ e. e ≡ errors.Usage → spec.command_in name (map string_bytes further.now) ≡ None) }
    {
        match name {
            CommandName::Execute(mode) => {
                let request = CheckRequest::read(alloc, further)?;
                Ok(Command::Execute { mode, request })
            }
            CommandName::Convert => {
                let request = ConvertRequest::read(alloc, further)?;
                Ok(Command::Convert(request))
            }
            CommandName::Generate => {
                let request = GenRequest::read(alloc, further)?;
                Ok(Command::Generate(request))
            }
        }
    }

    /// The command in the words. Where the first one is no command's name, it takes no memory.
    ///
    /// # Errors
    /// `Usage` where there is none, and `NoMemory`.
    pub(crate) fn read(alloc: Global, words: &'w [String]) -> Result<Command<'w>, WordsError>
        ensures ok { IfOk result (λ command. spec.command_of (map string_bytes words.now) ≡ Some (command_view command)) }
        ensures usage { IfErr result (λ e. e ≡ errors.Usage → spec.command_of (map string_bytes words.now) ≡ None) }
        ensures memory { IfErr result (λ e. e ≡ errors.NoMemory → NamesCommand (map string_bytes words.now)) }
    {
        let Some((first, further)) = words.split_first() else {
            return Err(WordsError::Usage);
        };
        match CommandName::named(first.as_str()) {
            Some(name) => Command::of_name(alloc, name, further),
            None => Err(WordsError::Usage),
        }
    }
}
