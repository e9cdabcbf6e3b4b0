use qv_syntax::{Kind, Operator};

/// A kind of collection as it is written.
pub fn kind_word(kind: Kind) -> &'static str {
    match kind {
        Kind::Set => "Set",
        Kind::Bag => "Bag",
        Kind::Sequence => "Sequence",
        Kind::OrderedSet => "OrderedSet",
    }
}

/// The kind of collection of a word.
pub(crate) fn kind_named(word: &str) -> Option<Kind> {
    match word {
        "Set" => Some(Kind::Set),
        "Bag" => Some(Kind::Bag),
        "Sequence" => Some(Kind::Sequence),
        "OrderedSet" => Some(Kind::OrderedSet),
        _ => None,
    }
}

/// A Boolean as it is written.
pub fn bool_word(value: bool) -> &'static str {
    if value { "true" } else { "false" }
}

/// An operator as it is written.
pub fn operator_word(operator: Operator) -> &'static str {
    match operator {
        Operator::Implies => "implies",
        Operator::Xor => "xor",
        Operator::Or => "or",
        Operator::And => "and",
        Operator::Equal => "=",
        Operator::NotEqual => "<>",
        Operator::Less => "<",
        Operator::Greater => ">",
        Operator::AtMost => "<=",
        Operator::AtLeast => ">=",
        Operator::Plus => "+",
        Operator::Minus => "-",
        Operator::Times => "*",
    }
}
