ghost use Rattle.std.specs.Prelude.{◌≡◌};

use crate::value::ObjId;
use mof_metamodel::PropId;

/// Which rule is broken: a property's lower bound or its upper bound (UML 2.5.1, 7.5.3), or that containment has no cycle.
#[derive(Clone, Copy, PartialEq, Eq)]
pub enum BreachKind {
    Lower,
    Upper,
    ContainmentCycle,
}

impl BreachKind {
    ghost use Rattle.object_tables.specs.Words.{breach_word};

    /// The word that is printed.
    pub fn word(self) -> &'static str
        ensures { result.now ≡ breach_word self }
    {
        match self {
            BreachKind::Lower => "Lower",
            BreachKind::Upper => "Upper",
            BreachKind::ContainmentCycle => "ContainmentCycle",
        }
    }
}

/// Where a model breaks a rule. The property is that of the bound; a cycle has none.
#[derive(Clone, Copy, PartialEq, Eq)]
pub struct Breach {
    pub kind: BreachKind,
    pub object: ObjId,
    pub prop: Option<PropId>,
}
