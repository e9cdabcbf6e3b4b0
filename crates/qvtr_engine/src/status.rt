ghost use Rattle.std.specs.Prelude.{◌≡◌};
ghost use Rattle.qvtr_engine.specs.Status.{code_of};

/// How a run ended.
#[derive(Clone, Copy)]
pub enum Status {
    /// The work is done; of a check, that the relations hold.
    Done,
    /// The relations don't hold.
    No,
    /// The words are no command.
    Usage,
    /// A file couldn't be read or put, or the text not printed.
    Fault,
    /// A file isn't of its form.
    Refused,
    /// Two demands of the relations contradict each other.
    Conflict,
    /// A demand of the relations can't be met.
    Unmet,
    /// The calls of the relations form a cycle, or go too deep.
    Chain,
    /// The repaired model would not be valid.
    Invalid,
    /// A limit is passed.
    Limit,
    /// Memory could not be had.
    NoMemory,
    /// The script can't be enforced.
    NotEnforceable,
}

impl Status {
    /// The exit status of the program.
    pub fn code(self) -> u8
        ensures { result ≡ code_of self }
    {
        self as u8
    }
}
