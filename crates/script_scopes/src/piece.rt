use mof_metamodel::Text;
use qv_syntax::{Expr, Path};

/// A property as it is written in a template: its name, and the path of the template's class.
#[derive(Clone, Copy)]
pub struct BorrowedProperty<'a> {
    pub class: &'a Path,
    pub name: &'a Text,
}

/// A variable of a relation: by its name, or by the number of its template, from 1.
#[derive(Clone, Copy)]
pub enum VariableName<'a> {
    Named(&'a Text),
    Nameless(u32),
}

/// A piece of a template, in the order of the text (QVT 1.3, section 7.11.2).
#[derive(Clone, Copy)]
pub enum BorrowedPiece<'a> {
    /// A template begins: the property whose value it is (none at a domain), its variable and its class.
    Begins {
        at: Option<BorrowedProperty<'a>>,
        variable: VariableName<'a>,
        class: &'a Path,
    },
    /// An item asks for the value of an expression at its property.
    Asks {
        at: Option<BorrowedProperty<'a>>,
        value: &'a Expr,
    },
}
