ghost use Rattle.std.specs.Prelude.{◌≡◌};
ghost use Rattle.qv_syntax.specs.Operators.{level_of};

/// An operator between two parts of an expression (OCL 2.4, section 7.4.7).
#[derive(Clone, Copy)]
pub enum Operator {
    /// `implies`
    Implies,
    /// `xor`
    Xor,
    /// `or`
    Or,
    /// `and`
    And,
    /// `=`
    Equal,
    /// `<>`
    NotEqual,
    /// `<`
    Less,
    /// `>`
    Greater,
    /// `<=`
    AtMost,
    /// `>=`
    AtLeast,
    /// `+`
    Plus,
    /// `-`
    Minus,
    /// `*`
    Times,
}

impl Operator {
    /// How tightly it binds, from 0 for `implies` to 7 for `*`.
    pub fn level(self) -> u8
        ensures { result ≡ level_of self }
    {
        match self {
            Operator::Implies => 0,
            Operator::Xor => 1,
            Operator::Or => 2,
            Operator::And => 3,
            Operator::Equal | Operator::NotEqual => 4,
            Operator::Less | Operator::Greater | Operator::AtMost | Operator::AtLeast => 5,
            Operator::Plus | Operator::Minus => 6,
            Operator::Times => 7,
        }
    }
}
