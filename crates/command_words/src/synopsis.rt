//! Which arguments a command has.
ghost use Rattle.std.specs.Prelude.{◌≡◌, map};
ghost use Rattle.command_words.specs.Synopses as spec;

/// The arguments of a command. Each has to be there.
#[derive(Clone, Copy)]
pub enum Synopsis {
    /// `SCRIPT TARGET NAME=PATH..`, the last once or more often.
    Models,
    /// `FORM META IN OUT`
    Conversion,
    /// `N SEED`
    Generation,
}

static MODELS: [&str; 3] = ["SCRIPT", "TARGET", "NAME=PATH"];

static CONVERSION: [&str; 4] = ["FORM", "META", "IN", "OUT"];

static GENERATION: [&str; 2] = ["N", "SEED"];

impl Synopsis {
    /// The names of the arguments, in their order.
    pub fn names(self) -> &'static [&'static str]
        ensures { map (λ s. s.now) result.now ≡ spec.names_of self }
    {
        match self {
            Synopsis::Models => MODELS.as_slice(),
            Synopsis::Conversion => CONVERSION.as_slice(),
            Synopsis::Generation => GENERATION.as_slice(),
        }
    }
}
