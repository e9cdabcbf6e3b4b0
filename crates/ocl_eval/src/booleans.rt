ghost use Rattle.std.specs.Prelude.{◌≡◌};
ghost use Rattle.qvtr_semantics.specs.Truth.{and, or, negation, implies, xor};

/// `p and q` (OCL 2.4, annex A.2.1.3); `None` is invalid. False where a part is, whatever the other is.
pub fn and(p: Option<bool>, q: Option<bool>) -> Option<bool>
    ensures { result ≡ and p q }
{
    match (p, q) {
        (Some(false), _) => Some(false),
        (Some(true), q) => q,
        (None, Some(false)) => Some(false),
        (None, _) => None,
    }
}

/// `p or q`: true where a part is, whatever the other is.
pub fn or(p: Option<bool>, q: Option<bool>) -> Option<bool>
    ensures { result ≡ or p q }
{
    match (p, q) {
        (Some(true), _) => Some(true),
        (Some(false), q) => q,
        (None, Some(true)) => Some(true),
        (None, _) => None,
    }
}

/// `not p`.
pub fn negation(p: Option<bool>) -> Option<bool>
    ensures { result ≡ negation p }
{
    match p {
        Some(b) => Some(!b),
        None => None,
    }
}

/// `p implies q`.
pub fn implies(p: Option<bool>, q: Option<bool>) -> Option<bool>
    ensures { result ≡ implies p q }
{
    or(negation(p), q)
}

/// `p xor q`: invalid where a part is.
pub fn xor(p: Option<bool>, q: Option<bool>) -> Option<bool>
    ensures { result ≡ xor p q }
{
    match p {
        Some(true) => negation(q),
        Some(false) => q,
        None => None,
    }
}
