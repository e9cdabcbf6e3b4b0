ghost use Rattle.std.specs.Prelude.{◌≡◌, ◌↔◌, ℕ, List, Ok, Result};
ghost use Rattle.xmi_text.specs.Fixing.{Fixes, LeavesOpen, answer_so_far};
ghost use Rattle.xmi_text.specs.declared.error.TextError.{TextError};
ghost use Rattle.xmi_text.specs.declared.mark.Step.{Step};
ghost use Rattle.xmi_text.specs.declared.mark.Step.TheVariants.{NotYet};

/// `NotYet` is answered exactly where the bytes so far leave the next answer open.
pub fn not_yet_is_open()
    ensures { (bytes : List ℕ) (given : ℕ) → (answer_so_far bytes given ≡ Ok NotYet) ↔ LeavesOpen bytes given }
{}

/// Any other answer is the one that the bytes so far fix, and where they fix one, it is given.
pub fn given_answers_are_fixed()
    ensures { (bytes : List ℕ) (given : ℕ) (result : Result Step TextError) → ((answer_so_far bytes given ≡ result) × (¬ (result ≡ Ok NotYet))) ↔ Fixes bytes given result }
{}
