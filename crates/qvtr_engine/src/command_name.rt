//! The names of the commands.
ghost use Rattle.std.specs.Prelude.{◌≡◌};
ghost use Rattle.qvtr_engine.specs.CommandNames.{command_named};

use crate::mode::Mode;

/// What the first word asks for.
#[derive(Clone, Copy)]
pub(crate) enum CommandName {
    /// A script is executed over models.
    Execute(Mode),
    /// A model is converted to a file of another form.
    Convert,
    /// The example of any size is run.
    Generate,
}

impl CommandName {
    /// The command of a name.
    pub(crate) fn named(word: &str) -> Option<CommandName>
        ensures { result ≡ command_named word.now }
    {
        match word {
            "convert" => Some(CommandName::Convert),
            "gen" => Some(CommandName::Generate),
            _ => Mode::named(word).map(CommandName::Execute),
        }
    }
}
