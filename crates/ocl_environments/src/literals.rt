ghost use Rattle.std.specs.Prelude.{◌≡◌};
ghost use Rattle.std.specs.Option.{option_and_then};
ghost use Rattle.ocl_environments.specs.Classifiers.{literal_in as literal_meant};
ghost use Rattle.ocl_environments.specs.ClassifierIndexes.{path_literal_found, IsIndex};
ghost use Rattle.ocl_environments.specs.Naming.{texts_of};

use crate::classifier::{Classifier, Wanted};
use crate::classifier_index::ClassifierIndex;
use mof_metamodel::{EnumId, MetaModel, Text};
use qv_syntax::Name;

/// The literal of this name, if this is an enumeration that has it.
fn literal_in(
    metas: &[MetaModel],
    classifier: Option<Classifier>,
    literal: &Text,
) -> Option<(u32, EnumId, u32)>
    ensures { result ≡ option_and_then (literal_meant metas.now literal.now) classifier }
{
    match classifier {
        Some(Classifier::Enum(m, e)) => {
            let i = m as usize;
            if i >= metas.len() || e.0 >= metas[i].enum_count() {
                return None;
            }
            match metas[i].literal_named(e, literal.as_str()) {
                Some(number) => Some((m, e, number)),
                None => None,
            }
        }
        Some(Classifier::Class(_, _)) => None,
        None => None,
    }
}

/// The literal that a path names: `E::literal` or `M::E::literal`.
#[tactic(auto, unfolding(crate::specs::ClassifierIndexes::path_literal_found))]
pub(crate) fn find_literal(
    index: &ClassifierIndex,
    metas: &[MetaModel],
    path: &[Name],
) -> Option<(u32, EnumId, u32)>
    requires { IsIndex index.now }
    ensures { result ≡ path_literal_found index.now metas.now (texts_of path.now) }
{
    match path {
        [e, literal] => {
            let found = index.find(Wanted::Enums, None, &e.text);
            literal_in(metas, found.one(), &literal.text)
        }
        [m, e, literal] => {
            let found = index.find(Wanted::Enums, Some(&m.text), &e.text);
            literal_in(metas, found.one(), &literal.text)
        }
        _ => None,
    }
}
