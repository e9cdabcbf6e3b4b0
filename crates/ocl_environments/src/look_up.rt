ghost use Rattle.std.specs.Prelude.{◌≡◌};
ghost use Rattle.ocl_environments.specs.Naming.{texts_of};
ghost use Rattle.ocl_environments.specs.Classifiers.{classifier_type, class_alone as class_of_classifier};
ghost use Rattle.ocl_environments.specs.ClassifierIndexes.{path_found, IsIndex};
ghost use Rattle.ocl_environments.specs.Finding.{one_of};

use crate::classifier::{Classifier, Found, Wanted};
use crate::classifier_index::ClassifierIndex;
use mof_metamodel::ClassId;
use qv_syntax::{Name, Ty};

impl Found {
    /// The classifier that is found alone.
    pub(crate) fn one(self) -> Option<Classifier>
        ensures { result ≡ one_of self }
    {
        match self {
            Found::One(c) => Some(c),
            _ => None,
        }
    }
}

/// What is asked for and named by a path: `C` in all metamodels, `M::C` in those of the name `M`.
#[tactic(auto, unfolding(crate::specs::ClassifierIndexes::path_found))]
pub(crate) fn find_path(index: &ClassifierIndex, wanted: Wanted, path: &[Name]) -> Found
    requires { IsIndex index.now }
    ensures { result ≡ path_found index.now wanted (texts_of path.now) }
{
    match path {
        [c] => index.find(wanted, None, &c.text),
        [m, c] => index.find(wanted, Some(&m.text), &c.text),
        _ => Found::Nothing,
    }
}

/// The type that a classifier is.
pub(crate) fn type_of(classifier: Classifier) -> Ty
    ensures { result ≡ classifier_type classifier }
{
    match classifier {
        Classifier::Class(m, c) => Ty::Class(m, c),
        Classifier::Enum(m, e) => Ty::Enum(m, e),
    }
}

/// The class that a classifier is, with the number of its metamodel.
pub(crate) fn class_alone(classifier: Classifier) -> Option<(u32, ClassId)>
    ensures { result ≡ class_of_classifier classifier }
{
    match classifier {
        Classifier::Class(m, c) => Some((m, c)),
        Classifier::Enum(_, _) => None,
    }
}
