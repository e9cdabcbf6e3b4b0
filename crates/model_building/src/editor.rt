use crate::refusal::Refusal;
use mof_metamodel::{ClassId, MetaModel, PropId, Seq, Text, is_identifier};
use object_tables::{Model, ObjId, Value};
use std::alloc::Global;

/// A model whose edits test by the reading calls what they ask of their caller, and are refused where it doesn't hold.
#[derive(Drop)]
pub struct Editor<'m> {
    model: Model<'m>,
}

impl<'m> Editor<'m> {
    pub fn new(alloc: Global, meta: &'m MetaModel) -> Editor<'m> {
        Editor::of(Model::new(alloc, meta))
    }

    /// An editor of a model.
    pub fn of(model: Model<'m>) -> Editor<'m> {
        Editor { model }
    }

    pub fn model(&self) -> &Model<'m> {
        &self.model
    }

    pub fn add(&mut self, class: ClassId, id: Text) -> Result<ObjId, Refusal> {
        if class.0 >= self.model.meta().class_count() {
            drop(id);
            return Err(Refusal::NoClass);
        }
        if !is_identifier(id.as_str()) {
            drop(id);
            return Err(Refusal::BadIdentifier);
        }
        match self.model.add(class, id) {
            Ok(o) => Ok(o),
            Err(fault) => Err(Refusal::Fault(fault)),
        }
    }

    pub fn set(&mut self, o: ObjId, p: PropId, values: Seq<Value>) -> Result<(), Refusal> {
        if !self.model.has_attribute(o, p) {
            drop(values);
            return Err(Refusal::NoProperty);
        }
        if !self.model.may_hold(o, p, values.as_slice()) {
            drop(values);
            return Err(Refusal::WrongValues);
        }
        self.model.set_attr(o, p, values);
        Ok(())
    }

    pub fn link(&mut self, p: PropId, a: ObjId, b: ObjId) -> Result<(), Refusal> {
        if !self.model.has_reference(a, p) {
            return Err(Refusal::NoProperty);
        }
        if !self.model.is_live(b) {
            return Err(Refusal::NoObject);
        }
        if !self.model.may_be_partner(p, a, b) {
            return Err(Refusal::WrongType);
        }
        if self.model.linked(p, a, b) {
            return Err(Refusal::Linked);
        }
        if !self.model.is_free(p, a, b) {
            return Err(Refusal::Contained);
        }
        self.model.link(p, a, b)?;
        Ok(())
    }

    pub fn unlink(&mut self, p: PropId, a: ObjId, b: ObjId) -> Result<(), Refusal> {
        if !self.model.has_reference(a, p) {
            return Err(Refusal::NoProperty);
        }
        if !self.model.is_live(b) {
            return Err(Refusal::NoObject);
        }
        if !self.model.linked(p, a, b) {
            return Err(Refusal::NotLinked);
        }
        self.model.unlink(p, a, b);
        Ok(())
    }

    pub fn order(&mut self, p: PropId, a: ObjId, order: &[ObjId]) -> Result<(), Refusal> {
        if !self.model.has_reference(a, p) {
            return Err(Refusal::NoProperty);
        }
        if !self.model.is_order(p, a, order)? {
            return Err(Refusal::WrongOrder);
        }
        self.model.set_order(p, a, order);
        Ok(())
    }

    pub fn delete(&mut self, o: ObjId) -> Result<(), Refusal> {
        if !self.model.is_live(o) {
            return Err(Refusal::NoObject);
        }
        self.model.delete(o);
        Ok(())
    }
}
