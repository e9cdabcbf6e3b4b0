ghost use Rattle.std.specs.Prelude.{◌≡◌};

use mof_metamodel::NoMemory;

/// A relation of the direction that breaks a rule, by its number in the program, with the least number, from 1 to 11, of a rule that it
/// breaks.
#[derive(Clone, Copy, Debug, PartialEq, Eq)]
pub struct NotEnforceable {
    pub relation: u32,
    pub rule: u8,
}

/// Why it isn't said that a program can be enforced.
#[derive(Debug, Drop)]
pub enum RuleError {
    /// It can't.
    Broken(NotEnforceable),
    /// Memory ran out.
    NoMemory,
}

impl From<NoMemory> for RuleError {
    ghost use Rattle.enforcement_rules.specs.declared.fault.RuleError.TheVariants as errors;

    ghost from_gives = { λ _ e. e ≡ errors.NoMemory };

    fn from(_error: NoMemory) -> RuleError {
        RuleError::NoMemory
    }
}
