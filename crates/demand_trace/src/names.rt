//! Names of what goes by number.
ghost use Rattle.std.specs.Prelude.{◌≡◌, ◌<◌, All, chars, slice_get};
ghost use Rattle.std.specs.Option.{option_copied};
ghost use Rattle.mof_metamodel.specs.Metamodels.{enum_count, enum_at, literal_at};
ghost use Rattle.mof_metamodel.specs.Tables.{IsPropOf};
ghost use Rattle.demand_trace.specs.Traces as spec;
ghost use Rattle.demand_trace.specs.Naming.{world, place_at, props_at, FindsNames};

use mof_metamodel::{ClassId, EnumId, MetaModel, PropId};
use object_tables::{Model, ObjId};
use ocl_environments::Metas;
use ocl_eval::Models;
use qv_syntax::{ModelSlot, Program, Rel, Var};

/// Where names are found: a program in the direction of its target, its metamodels and models, the metamodel of the target, and for each class of
/// that the place of its key in the program.
#[derive(Clone, Copy)]
pub(crate) struct Names<'a, 'm> {
    pub(crate) program: &'a Program,
    pub(crate) metas: &'a Metas,
    pub(crate) models: &'a Models<'m>,
    pub(crate) target: &'a MetaModel,
    pub(crate) keys: &'a [Option<usize>],
}

/// The name of an enumeration, nothing where there is none of this number.
#[tactic(auto, using(crate::proofs::NameLaws::no_characters, crate::proofs::NameLaws::no_enumeration))]
pub(crate) fn enum_name(meta: &MetaModel, of: EnumId) -> &str
    ensures { chars result.now ≡ (enum_at meta.now of.0).name }
{
    if of.0 < meta.enum_count() {
        meta.enum_name(of)
    } else {
        ""
    }
}

/// The name of a literal of an enumeration, nothing where there is none of this place.
#[tactic(auto, using(crate::proofs::NameLaws::no_characters))]
fn literal_at(meta: &MetaModel, of: EnumId, place: u32) -> &str
    requires { of.0 < enum_count meta.now }
    ensures { chars result.now ≡ literal_at meta.now of.0 place }
{
    match meta.literals(of).get(place as usize) {
        Some(literal) => literal.as_str(),
        None => "",
    }
}

/// The name of a literal, nothing where there is none of this place or no enumeration of this number.
#[tactic(auto, using(crate::proofs::NameLaws::no_characters, crate::proofs::NameLaws::no_literal))]
pub(crate) fn literal_name(meta: &MetaModel, of: EnumId, place: u32) -> &str
    ensures { chars result.now ≡ literal_at meta.now of.0 place }
{
    if of.0 < meta.enum_count() {
        literal_at(meta, of, place)
    } else {
        ""
    }
}

/// The identifier of an object, nothing where it isn't live.
#[tactic(auto, using(crate::proofs::NameLaws::no_characters))]
fn identifier<'a>(model: &'a Model<'_>, object: ObjId) -> &'a str
    ensures { chars result.now ≡ spec.identifier_of model.now object.0 }
{
    if model.is_live(object) {
        model.id_of(object)
    } else {
        ""
    }
}

impl<'a> Names<'a, '_> {
    /// The model of this number, as the program names it.
    fn slot(&self, model: u32) -> Option<&'a ModelSlot>
        ensures { option_copied result ≡ slice_get self.now.program.now.models model }
    {
        self.program.models.as_slice().get(model as usize)
    }

    /// The name of a model.
    pub(crate) fn model_name(&self, model: u32) -> &'a str
        ensures { chars result.now ≡ spec.model_name (world self.now) model }
    {
        match self.slot(model) {
            Some(slot) => slot.name.as_str(),
            None => "",
        }
    }

    /// The identifier of an object of a model.
    pub(crate) fn identifier(&self, model: u32, object: ObjId) -> &'a str
        ensures { chars result.now ≡ spec.identifier_in (slice_get (world self.now).models model) object.0 }
    {
        match self.models.get(model as usize) {
            Some(model) => identifier(model, object),
            None => "",
        }
    }

    /// The name of a class of the target.
    #[tactic(auto, using(crate::proofs::NameLaws::no_characters, crate::proofs::NameLaws::no_class_name))]
    pub(crate) fn class_name(&self, class: ClassId) -> &'a str
        requires { FindsNames self.now }
        ensures { chars result.now ≡ spec.class_name (world self.now) class }
    {
        if class.0 < self.target.class_count() {
            self.target.class_name(class)
        } else {
            ""
        }
    }

    /// The name of a property of the target.
    pub(crate) fn prop_name(&self, prop: PropId) -> &'a str
        requires names { FindsNames self.now }
        requires prop { IsPropOf self.now.target.now prop }
        ensures { chars result.now ≡ spec.prop_name (world self.now) prop }
    {
        self.target.prop(prop).name.as_str()
    }

    /// The place of the key of a class of the target, if it has one.
    fn key_place(&self, class: ClassId) -> Option<usize>
        ensures { result ≡ place_at self.now.keys.now class.0 }
    {
        match self.keys.get(class.0 as usize) {
            Some(place) => *place,
            None => None,
        }
    }

    /// The properties of the key at a place.
    fn props_at(&self, place: usize) -> Option<&'a [PropId]>
        ensures { option_copied result ≡ props_at self.now.program.now (Some place) }
    {
        match self.program.keys.as_slice().get(place) {
            Some(key) => Some(key.props.as_slice()),
            None => None,
        }
    }

    /// The properties of the key of a class of the target, none where it has no key.
    pub(crate) fn key_props(&self, class: ClassId) -> &'a [PropId]
        requires { FindsNames self.now }
        ensures props { result.now ≡ spec.key_props (world self.now) class }
        ensures within { All (IsPropOf self.now.target.now) result.now }
    {
        match self.key_place(class) {
            Some(place) => match self.props_at(place) {
                Some(props) => props,
                None => &[],
            },
            None => &[],
        }
    }

    /// The relation of this number.
    fn relation(&self, number: u32) -> Option<&'a Rel>
        ensures { option_copied result ≡ slice_get self.now.program.now.rels number }
    {
        self.program.rels.as_slice().get(number as usize)
    }

    /// The name of a relation.
    pub(crate) fn relation_name(&self, number: u32) -> &'a str
        ensures { chars result.now ≡ spec.relation_name (slice_get self.now.program.now.rels number) }
    {
        match self.relation(number) {
            Some(rel) => rel.name.as_str(),
            None => "",
        }
    }

    /// The variables of a relation.
    pub(crate) fn variables(&self, number: u32) -> &'a [Var]
        ensures { result.now ≡ spec.variables_of (slice_get self.now.program.now.rels number) }
    {
        match self.relation(number) {
            Some(rel) => rel.vars.as_slice(),
            None => &[],
        }
    }
}
