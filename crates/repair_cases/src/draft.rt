//! A relation that is being written: its text, and the variables that it has so far.
ghost use Rattle.std.specs.Prelude.{IfSome};
ghost use Rattle.mof_metamodel.specs.Tables.{IsPropOf};

use crate::dice::Dice;
use case_texts::Pen;
use mof_metamodel::{ClassId, MetaModel, NoMemory, PropId, PropType};
use std::alloc::Global;

/// A variable, called `v` and its number. One for an object has a class of the metamodel of its model.
#[derive(Clone, Copy)]
pub struct Named {
    pub number: u32,
    pub model: u32,
    pub ty: PropType,
}

impl Named {
    /// The class of a variable for an object.
    pub fn class(self) -> Option<ClassId> {
        match self.ty {
            PropType::Class(class) => Some(class),
            _ => None,
        }
    }

    /// Whether it is one for data of this type. An enumeration is one of a model's metamodel.
    fn is_of(self, model: u32, ty: PropType) -> bool {
        match ty {
            PropType::Enum(_) => self.model == model && self.ty == ty,
            PropType::Class(_) => false,
            _ => self.ty == ty,
        }
    }
}

/// The metamodels of the two models of a script.
#[derive(Clone, Copy)]
pub struct Pair<'a> {
    pub left: &'a MetaModel,
    pub right: &'a MetaModel,
}

impl<'a> Pair<'a> {
    /// That of a model.
    pub fn meta(self, model: u32) -> &'a MetaModel {
        if model == 0 { self.left } else { self.right }
    }
}

/// Whether a class conforms to another one.
pub fn is_kind_of(meta: &MetaModel, class: ClassId, other: ClassId) -> bool {
    class.0 < meta.class_count() && meta.conforms(class, other)
}

/// The name of a class.
pub fn class_name(meta: &MetaModel, class: ClassId) -> &str {
    if class.0 < meta.class_count() {
        meta.class_name(class)
    } else {
        ""
    }
}

/// A property of a class.
pub fn random_prop(dice: &mut Dice, meta: &MetaModel, class: ClassId) -> Option<PropId>
    ensures { IfSome result (IsPropOf meta.now) }
{
    if class.0 >= meta.class_count() {
        return None;
    }
    let props = meta.props(class);
    let count = props.len().min(64);
    if count == 0 {
        return None;
    }
    let place = dice.below(count as u32) as usize;
    Some(props[place])
}

/// A relation that is being written.
#[derive(Drop)]
pub struct Draft<'a> {
    pub alloc: Global,
    pub metas: Pair<'a>,
    pub dice: Dice,
    pub text: Pen,
    /// Whether it makes strings of others.
    pub has_suffixes: bool,
    declarations: Pen,
    variables: Vec<Named>,
    next: u32,
}

impl<'a> Draft<'a> {
    /// Of nothing yet.
    pub fn new(alloc: Global, metas: Pair<'a>, dice: Dice) -> Result<Draft<'a>, NoMemory> {
        Ok(Draft {
            alloc,
            metas,
            dice,
            text: Pen::new(alloc)?,
            has_suffixes: false,
            declarations: Pen::new(alloc)?,
            variables: Vec::new(alloc),
            next: 0,
        })
    }

    /// Writes a piece.
    pub fn put(&mut self, piece: &str) {
        self.text.put(piece);
    }

    /// Writes the name of a variable.
    pub fn put_name(&mut self, named: Named) {
        let number = named.number;
        self.text.put_string(format!(in self.alloc; "v{number}"));
    }

    /// One more variable.
    pub fn fresh(&mut self, model: u32, ty: PropType) -> Result<Named, NoMemory> {
        let named = Named {
            number: self.next,
            model,
            ty,
        };
        self.next = self.next.saturating_add(1);
        self.variables.push(named)?;
        Ok(named)
    }

    /// One more variable for data, with its declaration.
    pub fn fresh_data(&mut self, model: u32, ty: PropType) -> Result<Named, NoMemory> {
        let named = self.fresh(model, ty)?;
        self.declare(named);
        Ok(named)
    }

    /// Writes the declaration of a variable for data.
    pub fn declare(&mut self, named: Named) {
        let number = named.number;
        self.declarations
            .put_string(format!(in self.alloc; "    v{number} : "));
        let metamodel = if named.model == 0 { "Left" } else { "Right" };
        match named.ty {
            PropType::Str => self.declarations.put("String"),
            PropType::Int => self.declarations.put("Integer"),
            PropType::Bool => self.declarations.put("Boolean"),
            PropType::Enum(of) => {
                let meta = self.metas.meta(named.model);
                self.declarations.put(metamodel);
                self.declarations.put("::");
                if of.0 < meta.enum_count() {
                    self.declarations.put(meta.enum_name(of));
                }
            }
            PropType::Class(_) => self.declarations.put("Boolean"),
        }
        self.declarations.put(";\n");
    }

    /// A variable for data of this type.
    pub fn any_data(&mut self, model: u32, ty: PropType) -> Option<Named> {
        let mut found = None;
        for named in &self.variables {
            if named.is_of(model, ty) && (found.is_none() || self.dice.is_heads()) {
                found = Some(*named);
            }
        }
        found
    }

    /// A variable for objects of a model.
    pub fn any_object(&mut self, model: u32) -> Option<Named> {
        let mut found = None;
        for named in &self.variables {
            let is_one = named.class().is_some() && named.model == model;
            if is_one && (found.is_none() || self.dice.is_heads()) {
                found = Some(*named);
            }
        }
        found
    }

    /// A variable for objects of a model whose class conforms to this one.
    pub fn any_of_class(&mut self, model: u32, class: ClassId) -> Option<Named> {
        let mut found = None;
        let meta = self.metas.meta(model);
        for named in &self.variables {
            let is_one = match named.class() {
                Some(own) => named.model == model && is_kind_of(meta, own, class),
                None => false,
            };
            if is_one && (found.is_none() || self.dice.is_heads()) {
                found = Some(*named);
            }
        }
        found
    }

    /// Puts the declarations and the text behind others.
    pub fn finish(self, script: &mut Pen) -> Dice {
        let dice = self.dice;
        let Draft {
            text,
            declarations,
            ..
        } = self;
        script.put_text(declarations.written());
        script.put_text(text.written());
        dice
    }
}
