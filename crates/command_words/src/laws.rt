//! Laws about the arguments in words.
ghost use Rattle.std.specs.Prelude.{◌≡◌, ℕ, List, Some};
ghost use Rattle.command_words.specs.Arguments.{AreArguments, arguments_of};

/// Words have one list of arguments at most.
pub fn one_list_of_arguments()
    ensures { (words a b : List (List ℕ)) → AreArguments words a → AreArguments words b → a ≡ b }
{}

/// The arguments that stand in words are those that are read from the front.
pub fn arguments_are_read()
    ensures found { (words arguments : List (List ℕ)) → arguments_of words ≡ Some arguments → AreArguments words arguments }
    ensures again { (words arguments : List (List ℕ)) → AreArguments words arguments → arguments_of words ≡ Some arguments }
{}
