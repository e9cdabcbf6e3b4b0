ghost use Rattle.std.specs.Prelude.{◌≡◌, ◌++◌, ◌∷◌, [], map, reverse, MatchOption};
ghost use Rattle.qvtr_semantics.specs.declared.datum.Datum.TheVariants.{Obj};
ghost use Rattle.template_match.specs.Untried.{objects_left};

use key_index::Extent;
use mof_metamodel::Seq;
use qvtr_semantics::Datum;
use std::alloc::Global;
use std::marker::Model;

/// The objects of a class in the model of this number that are left.
#[derive(Drop)]
pub(crate) struct Objects<'a> {
    model: u32,
    extent: Extent<'a>,
}

/// The candidates for a variable that are yet to be tried. The objects of a class aren't listed: each is looked up
/// when its turn comes. Contracts see it as the list of the candidates, the next one last.
#[derive(Drop)]
pub(crate) struct Untried<'a> {
    objects: Option<Objects<'a>>,
    /// Those that come before them.
    listed: Seq<Datum>,
}

impl<'a> Model for Untried<'a> {
    ghost use Rattle.std.specs.Prelude.{List, ◌++◌};
    ghost use Rattle.qvtr_semantics.specs.declared.datum.Datum.{Datum};

    ghost Value = { List Datum };

    ghost use Rattle.template_match.specs.Untried.{objects_left};

    ghost view = { λ u. objects_left u.objects ++ u.listed };
}

/// Takes the first of the objects that are left.
fn next_object(objects: &mut Option<Objects<'_>>) -> Option<Datum>
    ensures { MatchOption result ((objects_left objects.old ≡ []) × (objects_left objects.new ≡ [])) (λ last. objects_left objects.old ≡ objects_left objects.new ++ last ∷ []) }
{
    match objects {
        Some(left) => match left.extent.next() {
            Some(object) => Some(Datum::Obj(left.model, object)),
            None => None,
        },
        None => None,
    }
}

impl<'a> Untried<'a> {
    /// Data that are listed.
    pub(crate) fn listed(listed: Seq<Datum>) -> Untried<'a>
        ensures { result ≡ listed }
    {
        Untried {
            objects: None,
            listed,
        }
    }

    /// The objects of a class in the model of this number.
    pub(crate) fn objects(alloc: Global, model: u32, extent: Extent<'a>) -> Untried<'a>
        ensures { result ≡ reverse (map (λ o. Obj model o) extent.entry) }
    {
        Untried {
            objects: Some(Objects { model, extent }),
            listed: Seq::new(alloc),
        }
    }

    /// Takes the next one.
    pub(crate) fn pop(&mut self) -> Option<Datum>
        ensures { MatchOption result ((self.old ≡ []) × (self.new ≡ [])) (λ last. self.old ≡ self.new ++ last ∷ []) }
    {
        match self.listed.pop() {
            Some(datum) => Some(datum),
            None => next_object(&mut self.objects),
        }
    }
}
