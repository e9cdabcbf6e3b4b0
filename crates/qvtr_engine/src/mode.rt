//! How a script is executed.
ghost use Rattle.std.specs.Prelude.{◌≡◌};
ghost use Rattle.qvtr_engine.specs.Modes.{mode_named};

/// How the relations of a script are executed in the direction towards a target (QVT 1.3, section 7.2).
#[derive(Clone, Copy)]
pub(crate) enum Mode {
    /// Whether they hold is told.
    Check,
    /// The target's file is changed until they hold.
    Enforce,
    /// What would be enforced is told.
    Trace,
}

impl Mode {
    /// The mode of a command's name.
    pub(crate) fn named(name: &str) -> Option<Mode>
        ensures { result ≡ mode_named name.now }
    {
        match name {
            "check" => Some(Mode::Check),
            "enforce" => Some(Mode::Enforce),
            "trace" => Some(Mode::Trace),
            _ => None,
        }
    }
}
