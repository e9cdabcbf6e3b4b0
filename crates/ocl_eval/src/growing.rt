ghost use Rattle.std.specs.Prelude.{◌≡◌, [], ◌∷◌, ◌++◌, IfOk};
ghost use Rattle.qvtr_semantics.specs.declared.out.Out.TheVariants.{Invalid};
ghost use Rattle.qvtr_semantics.specs.Outs.{Collection};
ghost use Rattle.qvtr_semantics.specs.Collections.{collection};
ghost use Rattle.qvtr_semantics.specs.Expressions.{with_collection};
ghost use Rattle.ocl_eval.specs.Growing.{fits, grown};

use crate::equality::same_kind;
use crate::kinds::{collection, joined};
use mof_metamodel::{NoMemory, Seq};
use qv_syntax::Kind;
use qvtr_semantics::{Datum, Out};
use std::alloc::Global;

/// A collection to which elements are brought one after another, by `including` or `union`. What its kind
/// keeps of them is looked at where that is asked for, and where there would be twice as many as when it was
/// last looked at. So a chain takes the time of its elements, with a logarithm, and holds at most twice what is
/// kept. Contracts see it as the value.
#[derive(Drop)]
pub(crate) struct Growing {
    /// None: the value is invalid.
    kind: Option<Kind>,
    elements: Seq<Datum>,
    room: usize,
}

impl std::marker::Model for Growing {
    ghost use Rattle.qvtr_semantics.specs.declared.out.Out.{Out};
    ghost use Rattle.qvtr_semantics.specs.Outs.{given};
    ghost use Rattle.qvtr_semantics.specs.Collections.{collection};

    ghost Value = { Out };

    ghost view = { λ g. given g.kind (λ k. collection k g.elements) };
}

/// Whether elements that come from a collection of one kind alone, if that is told, may come into another.
fn fits(only: Option<Kind>, kind: Kind) -> bool
    ensures { result ≡ fits only kind }
{
    match only {
        None => true,
        Some(other) => same_kind(kind, other),
    }
}

/// One element.
pub(crate) fn single(alloc: Global, datum: Datum) -> Result<Seq<Datum>, NoMemory>
    ensures { IfOk result (λ ds. ds ≡ datum ∷ []) }
{
    let mut elements = Seq::new(alloc);
    elements.push(datum)?;
    Ok(elements)
}

impl Growing {
    /// An invalid value.
    pub(crate) fn invalid(alloc: Global) -> Growing
        ensures { result ≡ Invalid }
    {
        Growing {
            kind: None,
            elements: Seq::new(alloc),
            room: 0,
        }
    }

    /// The collection of these elements, with room for so many before it is looked which of them are kept.
    fn with_room(kind: Kind, elements: Seq<Datum>, room: usize) -> Growing
        ensures { result ≡ collection kind elements }
    {
        Growing {
            kind: Some(kind),
            elements,
            room,
        }
    }

    /// The collection of elements and of others.
    fn of(kind: Kind, elements: Seq<Datum>, more: Seq<Datum>) -> Result<Growing, NoMemory>
        ensures { IfOk result (λ g. g ≡ collection kind (elements ++ more)) }
    {
        let all = joined(elements, more)?;
        let room = all.len().saturating_mul(2);
        Ok(Growing::with_room(kind, all, room))
    }

    /// A collection with more elements.
    pub(crate) fn begun(
        alloc: Global,
        x: Out,
        only: Option<Kind>,
        more: Seq<Datum>,
    ) -> Result<Growing, NoMemory>
        ensures { IfOk result (λ g. g ≡ with_collection x (grown only more)) }
    {
        match x {
            Out::Many(kind, elements) => Growing::of_fitting(alloc, kind, elements, only, more),
            _ => Ok(Growing::invalid(alloc)),
        }
    }

    /// The collection of elements and of others, if these may come there.
    fn of_fitting(
        alloc: Global,
        kind: Kind,
        elements: Seq<Datum>,
        only: Option<Kind>,
        more: Seq<Datum>,
    ) -> Result<Growing, NoMemory>
        ensures { IfOk result (λ g. g ≡ grown only more (record { kind = kind; elements = elements })) }
    {
        if fits(only, kind) {
            Growing::of(kind, elements, more)
        } else {
            Ok(Growing::invalid(alloc))
        }
    }

    /// Whether so many more can wait.
    fn has_room(&self, more: usize) -> bool {
        self.elements.len() <= self.room && more <= self.room - self.elements.len()
    }

    /// The value.
    #[tactic(auto, using(crate::proofs::GrowingLaws::settled_is, crate::proofs::GrowingLaws::none_settled))]
    pub(crate) fn settled(self, alloc: Global) -> Result<Out, NoMemory>
        ensures { IfOk result (λ out. out ≡ self) }
    {
        let Growing {
            kind,
            elements,
            room: _,
        } = self;
        match kind {
            Some(kind) => collection(alloc, kind, elements),
            None => Ok(Out::Invalid),
        }
    }

    /// With more elements that wait.
    #[tactic(auto, using(crate::proofs::GrowingLaws::never_fits, crate::proofs::GrowingLaws::none_grown))]
    fn waiting(
        self,
        alloc: Global,
        only: Option<Kind>,
        more: Seq<Datum>,
    ) -> Result<Growing, NoMemory>
        ensures { IfOk result (λ g. g ≡ with_collection self (grown only more)) }
    {
        let Growing {
            kind,
            elements,
            room,
        } = self;
        match kind {
            Some(kind) => {
                if fits(only, kind) {
                    let all = joined(elements, more)?;
                    Ok(Growing::with_room(kind, all, room))
                } else {
                    Ok(Growing::invalid(alloc))
                }
            }
            None => Ok(Growing::invalid(alloc)),
        }
    }

    /// With more elements.
    pub(crate) fn grown(
        self,
        alloc: Global,
        only: Option<Kind>,
        more: Seq<Datum>,
    ) -> Result<Growing, NoMemory>
        ensures { IfOk result (λ g. g ≡ with_collection self (grown only more)) }
    {
        if self.has_room(more.len()) {
            self.waiting(alloc, only, more)
        } else {
            Growing::begun(alloc, self.settled(alloc)?, only, more)
        }
    }
}
