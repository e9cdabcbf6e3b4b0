//! Random expressions and conditions over the variables of a relation that is being written.
ghost use Rattle.std.specs.Prelude.{IfSome};
ghost use Rattle.mof_metamodel.specs.Tables.{IsPropOf};

use crate::draft::{Draft, Named, random_prop};
use mof_metamodel::{ClassId, NoMemory, PropType};

/// How many properties are tried for one of a type.
const TRIES: u32 = 6;

/// The words of random strings.
const STRINGS: [&str; 4] = ["'a'", "'b'", "'c'", "'d'"];

/// A property of an object, as a path.
#[derive(Clone, Copy)]
pub struct Path<'a> {
    pub object: Named,
    pub prop: &'a str,
}

impl<'a> Draft<'a> {
    /// Writes a path.
    pub fn put_path(&mut self, path: Path<'_>) {
        self.put_name(path.object);
        self.put(".");
        self.put(path.prop);
    }

    /// A type of data.
    pub fn random_type(&mut self) -> PropType {
        match self.dice.below(8) {
            0..=4 => PropType::Str,
            5..=6 => PropType::Int,
            _ => PropType::Bool,
        }
    }

    /// A single property of data of this type of an object, if a few tries find one.
    fn data_path(&mut self, object: Named, ty: PropType) -> Option<Path<'a>> {
        let class = object.class()?;
        let meta = self.metas.meta(object.model);
        for _try in 0..TRIES {
            if let Some(number) = random_prop(&mut self.dice, meta, class) {
                let prop = meta.prop(number);
                if prop.ty == ty && prop.upper == Some(1) {
                    return Some(Path {
                        object,
                        prop: prop.name.as_str(),
                    });
                }
            }
        }
        None
    }

    /// The same of some object of a model.
    pub fn any_path(&mut self, model: u32, ty: PropType) -> Option<Path<'a>> {
        let object = self.any_object(model)?;
        self.data_path(object, ty)
    }

    /// A reference of an object to objects of the class, single or not, if a few tries find one.
    fn reference_path(&mut self, object: Named, is_single: bool) -> Option<(Path<'a>, ClassId)> {
        let class = object.class()?;
        let meta = self.metas.meta(object.model);
        for _try in 0..TRIES {
            if let Some(number) = random_prop(&mut self.dice, meta, class) {
                let prop = meta.prop(number);
                if let PropType::Class(of) = prop.ty {
                    if (prop.upper == Some(1)) == is_single {
                        let prop = prop.name.as_str();
                        return Some((Path { object, prop }, of));
                    }
                }
            }
        }
        None
    }

    /// Writes a literal of the type.
    pub fn put_literal(&mut self, ty: PropType) {
        let place = self.dice.below(4);
        match ty {
            PropType::Str => self.put(STRINGS[place as usize]),
            PropType::Int => self.text.put_string(format!(in self.alloc; "{place}")),
            PropType::Bool => self.put(if place < 2 { "false" } else { "true" }),
            _ => self.put("null"),
        }
    }

    /// Writes an expression of the type: a path, a variable or a literal.
    pub fn put_expression(&mut self, model: u32, ty: PropType) {
        if self.dice.below(4) > 0 {
            if let Some(path) = self.any_path(model, ty) {
                self.put_path(path);
                return;
            }
        }
        match self.any_data(model, ty) {
            Some(named) if self.dice.below(3) > 0 => self.put_name(named),
            _ => self.put_literal(ty),
        }
    }

    /// Writes a path or a variable of the type, perhaps with more behind it, if there is one.
    fn put_known(&mut self, model: u32, ty: PropType) -> bool {
        match self.any_path(model, ty) {
            Some(path) => self.put_path(path),
            None => match self.any_data(model, ty) {
                Some(named) => self.put_name(named),
                None => return false,
            },
        }
        if self.dice.below(4) == 0 {
            match ty {
                PropType::Str => self.put(" + 'x'"),
                PropType::Int => self.put(" + 1"),
                _ => {}
            }
        }
        true
    }

    /// Writes an equation for a variable, old or new: that it is what a path leads to, perhaps with a suffix.
    fn put_equation(&mut self, model: u32) -> Result<(), NoMemory> {
        let ty = self.random_type();
        let Some(path) = self.any_path(model, ty) else {
            self.put("true");
            return Ok(());
        };
        let named = match self.any_data(model, ty) {
            Some(named) if self.dice.is_heads() => named,
            _ => self.fresh_data(model, ty)?,
        };
        self.put_name(named);
        self.put(" = ");
        self.put_path(path);
        if ty == PropType::Str && self.dice.below(4) == 0 {
            self.put(" + 'x'");
            self.has_suffixes = true;
        }
        Ok(())
    }

    /// Writes a condition that two values stand in a relation.
    fn put_comparison(&mut self, model: u32) {
        let other = self.dice.below(2);
        let ty = self.random_type();
        if !self.put_known(model, ty) {
            self.put("true");
            return;
        }
        let sign = match self.dice.below(6) {
            0 => " <> ",
            1 if ty == PropType::Int => " < ",
            2 if ty == PropType::Int => " >= ",
            _ => " = ",
        };
        self.put(sign);
        self.put_expression(other, ty);
    }

    /// Writes a condition on an object and its partners.
    fn put_linked(&mut self, model: u32) {
        let is_single = self.dice.is_heads();
        let found = match self.any_object(model) {
            Some(object) => self.reference_path(object, is_single),
            None => None,
        };
        let Some((path, class)) = found else {
            self.put("true");
            return;
        };
        self.put_path(path);
        match self.any_of_class(model, class) {
            Some(partner) if self.dice.below(4) > 0 => {
                self.put(if is_single { " = " } else { "->includes(" });
                self.put_name(partner);
                self.put(if is_single { "" } else { ")" });
            }
            _ => self.put(if is_single {
                " <> null"
            } else {
                "->size() > 1"
            }),
        }
    }

    /// Writes a simple condition, or an equation.
    pub fn put_condition(&mut self, model: u32) -> Result<(), NoMemory> {
        match self.dice.below(8) {
            0..=2 => self.put_equation(model),
            3..=4 => {
                self.put_comparison(model);
                Ok(())
            }
            5..=6 => {
                self.put_linked(model);
                Ok(())
            }
            _ => {
                self.put_choice(model);
                Ok(())
            }
        }
    }

    /// Writes a condition of two conditions, or of one that is not to hold.
    fn put_choice(&mut self, model: u32) {
        if self.dice.is_heads() {
            self.put("not (");
            self.put_comparison(model);
            self.put(")");
        } else {
            self.put("(");
            self.put_linked(model);
            self.put(") or (");
            self.put_comparison(model);
            self.put(")");
        }
    }
}
