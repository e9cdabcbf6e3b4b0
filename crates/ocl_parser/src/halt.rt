ghost use Rattle.std.specs.Prelude.{◌≡◌};

use mof_metamodel::NoMemory as OutOfMemory;

/// The token at which a reading ends without a tree, by its number. Behind the last token the number is the count of tokens.
#[derive(Clone, Copy)]
pub enum Stop {
    /// With the tokens before it what is read begins, with it no more.
    Stuck { at: usize },
    /// It opens a level past the last.
    Deep { at: usize },
}

/// Why a reading gave no tree.
#[derive(Drop)]
pub enum Halt {
    /// By the grammar.
    Stop(Stop),
    NoMemory,
}

impl From<OutOfMemory> for Halt {
    ghost use Rattle.ocl_parser.specs.declared.halt.Halt.TheVariants.{NoMemory};

    ghost from_gives = { λ _ h. h ≡ NoMemory };

    fn from(_error: OutOfMemory) -> Halt {
        Halt::NoMemory
    }
}
