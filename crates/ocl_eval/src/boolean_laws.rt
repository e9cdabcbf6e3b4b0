//! The laws of De Morgan, which hold with an invalid part too. The functions do nothing.
ghost use Rattle.std.specs.Prelude.{◌≡◌, Bool, Option};
ghost use Rattle.qvtr_semantics.specs.Truth.{and, or, negation};

/// `not (p and q)` is `not p or not q`.
#[tactic(auto, using(crate::proofs::MemberLaws::negated_and))]
pub fn not_and()
    ensures { (p q : Option Bool) → negation (and p q) ≡ or (negation p) (negation q) }
{}

/// `not (p or q)` is `not p and not q`.
#[tactic(auto, using(crate::proofs::MemberLaws::negated_or))]
pub fn not_or()
    ensures { (p q : Option Bool) → negation (or p q) ≡ and (negation p) (negation q) }
{}
