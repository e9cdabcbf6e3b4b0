//! Names of what goes by number.
ghost use Rattle.std.specs.Prelude.{◌≡◌, Some, slice_get};
ghost use Rattle.std.specs.Option.{option_copied};
ghost use Rattle.fault_lines.specs.Lines.{shown};
ghost use Rattle.answer_texts.specs.AskedView.{asked_view};
ghost use Rattle.entry_texts.specs.EntryTexts as spec;
ghost use Rattle.entry_texts.specs.Naming.{question, props_at, FindsNames, ArePlaces};

use crate::target::{class_name, prop_count, prop_name, target_meta};
use answer_texts::Asked;
use mof_metamodel::{ClassId, MetaModel, PropId};
use qv_syntax::Rel;
use std::alloc::Global;
use std::collections::BTreeMap;

/// The metamodel of the target, and how many properties it has.
#[derive(Clone, Copy)]
pub(crate) struct Target<'a> {
    pub(crate) meta: &'a MetaModel,
    pub(crate) props: usize,
}

/// Where names are found: what is asked, the metamodel of the target, and for each class of it the place of its key in the program.
#[derive(Clone, Copy)]
pub(crate) struct Names<'a, 'm> {
    pub(crate) alloc: Global,
    pub(crate) asked: &'a Asked<'a, 'm>,
    pub(crate) target: Option<Target<'a>>,
    pub(crate) places: &'a BTreeMap<u32, usize>,
}

impl<'a, 'm> Names<'a, 'm> {
    /// The names in what is asked, with the places of keys.
    pub(crate) fn over(
        alloc: Global,
        asked: &'a Asked<'a, 'm>,
        places: &'a BTreeMap<u32, usize>,
    ) -> Names<'a, 'm>
        requires { ArePlaces asked.now.program.now asked.now.program.now.keys places.now }
        ensures question { question result ≡ asked_view asked.now }
        ensures names { FindsNames result }
    {
        let target = match target_meta(asked.program, asked.models) {
            Some(meta) => Some(Target {
                meta,
                props: prop_count(meta),
            }),
            None => None,
        };
        Names {
            alloc,
            asked,
            target,
            places,
        }
    }

    /// The name of a class of the target.
    pub(crate) fn class_name(&self, class: ClassId) -> &'a str
        requires { FindsNames self.now }
        ensures { result.now ≡ shown (spec.class_name (question self.now) class) }
    {
        match self.target {
            Some(target) => class_name(target.meta, class),
            None => "",
        }
    }

    /// The name of a property of the target.
    pub(crate) fn prop_name(&self, prop: PropId) -> &'a str
        requires { FindsNames self.now }
        ensures { result.now ≡ shown (spec.prop_name (question self.now) prop) }
    {
        match self.target {
            Some(target) => prop_name(target.meta, target.props, prop),
            None => "",
        }
    }

    /// The properties of the key at a place among the keys of the program.
    fn props_at(&self, place: usize) -> &'a [PropId]
        ensures { result.now ≡ props_at (question self.now).program (Some place) }
    {
        match self.asked.program.keys.as_slice().get(place) {
            Some(key) => key.props.as_slice(),
            None => &[],
        }
    }

    /// The properties of the key of a class of the target, none where it has no key.
    pub(crate) fn key_props(&self, class: ClassId) -> &'a [PropId]
        requires { FindsNames self.now }
        ensures { result.now ≡ spec.key_props (question self.now) class }
    {
        match self.places.get(&class.0) {
            Some(place) => self.props_at(*place),
            None => &[],
        }
    }

    /// The relation of this number.
    pub(crate) fn relation(&self, number: u32) -> Option<&'a Rel>
        ensures { option_copied result ≡ slice_get (question self.now).program.rels number }
    {
        self.asked.program.rels.as_slice().get(number as usize)
    }
}
