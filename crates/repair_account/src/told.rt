//! What is told of, and its names.
use mof_metamodel::{ClassId, MetaModel, PropId};
use object_tables::ObjId;
use ocl_environments::Metas;
use ocl_eval::Models;
use qv_syntax::{Program, Rel};
use std::alloc::Global;

/// A program with its metamodels and models.
#[derive(Clone, Copy)]
pub struct Told<'a, 'm> {
    pub alloc: Global,
    pub program: &'a Program,
    pub metas: &'a Metas,
    pub models: &'a Models<'m>,
}

/// The name of a property of a class.
fn prop_name(meta: &MetaModel, class: ClassId, prop: PropId) -> &str {
    if class.0 >= meta.class_count() {
        return "";
    }
    for own in meta.props(class) {
        if own.0 == prop.0 {
            return meta.prop(*own).name.as_str();
        }
    }
    ""
}

/// The name of a property of the metamodel, by the first class that has it.
fn first_prop_name(meta: &MetaModel, prop: PropId) -> &str {
    for class in 0..meta.class_count() {
        let name = prop_name(meta, ClassId(class), prop);
        if !name.is_empty() {
            return name;
        }
    }
    ""
}

impl<'a> Told<'a, '_> {
    /// The metamodel of this number.
    pub fn meta(&self, number: u32) -> Option<&'a MetaModel> {
        if number < self.metas.len() {
            Some(self.metas.get(number))
        } else {
            None
        }
    }

    /// The number of the target's metamodel.
    pub fn target_meta(&self) -> u32 {
        match self
            .program
            .models
            .as_slice()
            .get(self.program.target as usize)
        {
            Some(slot) => slot.meta,
            None => u32::MAX,
        }
    }

    /// The name of a class of the target.
    pub fn class_name(&self, class: ClassId) -> &'a str {
        match self.meta(self.target_meta()) {
            Some(meta) if class.0 < meta.class_count() => meta.class_name(class),
            _ => "",
        }
    }

    /// The name of a property of a class of the target.
    pub fn prop_name(&self, class: ClassId, prop: PropId) -> &'a str {
        match self.meta(self.target_meta()) {
            Some(meta) => prop_name(meta, class, prop),
            None => "",
        }
    }

    /// The name of a property of the target, by the first class that has it.
    pub fn any_prop_name(&self, prop: PropId) -> &'a str {
        match self.meta(self.target_meta()) {
            Some(meta) => first_prop_name(meta, prop),
            None => "",
        }
    }

    /// The key of a class of the target.
    pub fn key(&self, class: ClassId) -> &'a [PropId] {
        let meta = self.target_meta();
        for key in self.program.keys.as_slice() {
            if key.meta == meta && key.class.0 == class.0 {
                return key.props.as_slice();
            }
        }
        &[]
    }

    /// The name of a model.
    pub fn model_name(&self, model: u32) -> &'a str {
        match self.program.models.as_slice().get(model as usize) {
            Some(slot) => slot.name.as_str(),
            None => "",
        }
    }

    /// The identifier of an object.
    pub fn identifier(&self, model: u32, object: ObjId) -> &'a str {
        match self.models.get(model as usize) {
            Some(model) if model.is_live(object) => model.id_of(object),
            _ => "",
        }
    }

    /// The relation of this number.
    pub fn relation(&self, number: u32) -> Option<&'a Rel> {
        self.program.rels.as_slice().get(number as usize)
    }

    /// The name of a variable of a relation.
    pub fn variable_name(&self, rel: u32, variable: usize) -> &'a str {
        match self.relation(rel) {
            Some(rel) => match rel.vars.as_slice().get(variable) {
                Some(var) => var.name.as_str(),
                None => "",
            },
            None => "",
        }
    }
}
