ghost use Rattle.std.specs.Prelude.{Contains, IfSome};

/// A part of what a search asks, by its number among those of its kind.
#[derive(Clone, Copy)]
pub(crate) enum Part {
    /// What a template asks of its object alone.
    Shape(usize),
    /// A link of a template.
    Link(usize),
    /// What an item or a conjunct asks of a slot.
    Asked(usize),
    /// A conjunct of the clause of the side.
    Conjunct(usize),
    /// A join, in a row of which the binding is to stand.
    Join(usize),
}

/// The one of a number.
pub(crate) fn numbered<T>(all: &[T], number: usize) -> Option<&T>
    ensures { IfSome result (λ one. Contains all.now one.now) }
{
    match all.get(number) {
        Some(one) => Some(one),
        None => None,
    }
}
