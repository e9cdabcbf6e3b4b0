//! Random scripts over two metamodels: relations with nested templates, items of all kinds, conditions,
//! equations and calls.
use crate::dice::Dice;
use crate::draft::{Draft, Pair, class_name, is_kind_of, random_prop};
use case_texts::Pen;
use mof_metamodel::{ClassId, MetaModel, NoMemory, Prop, PropType, Text};
use std::alloc::Global;

/// How deep templates stand in others.
const DEPTH: u32 = 2;

/// A script, and whether it makes strings of others.
#[derive(Drop)]
pub struct RandomScript {
    pub text: Text,
    pub has_suffixes: bool,
}

/// A relation that others call: its name, the classes of its roots, and whether it is handed a string.
#[derive(Clone, Copy)]
struct Called {
    name: &'static str,
    left: ClassId,
    right: ClassId,
    takes_string: bool,
}

/// A relation that is written: its head, and what it may call.
#[derive(Clone, Copy)]
struct Head {
    own: Called,
    is_top: bool,
    calls: Option<Called>,
}

/// The class itself, or another one that conforms to it.
fn random_subclass(dice: &mut Dice, meta: &MetaModel, class: ClassId) -> ClassId {
    let count = meta.class_count();
    if count > 0 {
        let other = ClassId(dice.below(count));
        if is_kind_of(meta, other, class) {
            return other;
        }
    }
    class
}

fn random_class(dice: &mut Dice, meta: &MetaModel) -> ClassId {
    let count = meta.class_count();
    if count == 0 {
        return ClassId(0);
    }
    ClassId(dice.below(count))
}

impl<'a> Draft<'a> {
    /// Writes a template of a class.
    #[cycle(drafts)]
    fn put_template(&mut self, model: u32, class: ClassId, depth: u32) -> Result<(), NoMemory> {
        let named = self.fresh(model, PropType::Class(class))?;
        self.put_name(named);
        self.put(" : ");
        let meta = self.metas.meta(model);
        self.put(class_name(meta, class));
        self.put(" {");
        self.put_items(model, class, depth)?;
        self.put("}");
        Ok(())
    }

    #[cycle(drafts)]
    fn put_items(&mut self, model: u32, class: ClassId, depth: u32) -> Result<(), NoMemory> {
        let meta = self.metas.meta(model);
        for place in 0..self.dice.below(4) {
            if let Some(number) = random_prop(&mut self.dice, meta, class) {
                self.put(if place > 0 { ", " } else { "" });
                self.put_item(model, meta.prop(number), depth)?;
            }
        }
        Ok(())
    }

    #[cycle(drafts)]
    fn put_item(&mut self, model: u32, prop: &Prop, depth: u32) -> Result<(), NoMemory> {
        self.put(prop.name.as_str());
        self.put(" = ");
        match prop.ty {
            PropType::Class(class) => self.put_partner(model, class, depth),
            ty => self.put_value(model, ty),
        }
    }

    /// Writes what an item asks of a reference: nothing, an object that is named, or one that matches a
    /// template.
    #[cycle(drafts)]
    fn put_partner(&mut self, model: u32, class: ClassId, depth: u32) -> Result<(), NoMemory> {
        let kind = self.dice.below(12);
        if kind == 0 {
            self.put("null");
            return Ok(());
        }
        match self.any_of_class(model, class) {
            Some(named) if kind < 3 || depth == 0 => {
                self.put_name(named);
                Ok(())
            }
            _ if depth > 0 => {
                let meta = self.metas.meta(model);
                let class = random_subclass(&mut self.dice, meta, class);
                self.put_template(model, class, depth - 1)
            }
            _ => {
                self.put("null");
                Ok(())
            }
        }
    }

    /// Writes what an item asks of an attribute.
    fn put_value(&mut self, model: u32, ty: PropType) -> Result<(), NoMemory> {
        match self.dice.below(12) {
            0 => self.put("null"),
            1 => self.put_literal(ty),
            2 => self.put_expression(model, ty),
            kind => match self.any_data(model, ty) {
                Some(named) if kind < 6 => self.put_name(named),
                _ => {
                    let named = self.fresh_data(model, ty)?;
                    self.put_name(named);
                }
            },
        }
        Ok(())
    }
}

impl<'a> Draft<'a> {
    /// Writes a call with objects of the right classes, if there are some, or a condition that is true.
    fn put_call(&mut self, called: Called) {
        let left = self.any_of_class(0, called.left);
        let right = self.any_of_class(1, called.right);
        let (Some(left), Some(right)) = (left, right) else {
            self.put("true");
            return;
        };
        self.put(called.name);
        self.put("(");
        self.put_name(left);
        self.put(", ");
        self.put_name(right);
        if called.takes_string {
            self.put(", ");
            self.put_expression(0, PropType::Str);
        }
        self.put(")");
    }

    /// Writes the conjuncts of a clause.
    fn put_conjuncts(&mut self, count: u32, calls: Option<Called>) -> Result<(), NoMemory> {
        for _conjunct in 0..count {
            match calls {
                Some(called) if self.dice.below(3) == 0 => self.put_call(called),
                _ => {
                    let model = self.dice.below(2);
                    self.put_condition(model)?;
                }
            }
            self.put("; ");
        }
        Ok(())
    }

    /// Writes a clause, or none.
    fn put_clause(&mut self, word: &str, calls: Option<Called>) -> Result<(), NoMemory> {
        let count = self.dice.below(5).saturating_sub(1).min(2);
        if count > 0 {
            self.put("    ");
            self.put(word);
            self.put(" { ");
            self.put_conjuncts(count, calls)?;
            self.put("}\n");
        }
        Ok(())
    }

    /// Writes a domain of a model.
    fn put_domain(&mut self, model: u32, class: ClassId) -> Result<(), NoMemory> {
        self.put(if model == 0 {
            "    domain left "
        } else {
            "    domain right "
        });
        let depth = self.dice.below(DEPTH + 1);
        self.put_template(model, class, depth)?;
        self.put(";\n");
        Ok(())
    }

    /// Writes the domains and clauses of a relation.
    fn put_body(&mut self, head: Head) -> Result<(), NoMemory> {
        self.put_domain(0, head.own.left)?;
        self.put_domain(1, head.own.right)?;
        if head.own.takes_string {
            let handed = self.fresh(0, PropType::Str)?;
            self.put("    primitive domain ");
            self.put_name(handed);
            self.put(" : String;\n");
        }
        self.put_clause("when", head.calls)?;
        self.put_clause("where", head.calls)
    }
}

/// Writes a relation, and tells whether it makes strings of others.
fn put_relation(
    alloc: Global,
    metas: Pair<'_>,
    dice: &mut Dice,
    head: Head,
    script: &mut Pen,
) -> Result<bool, NoMemory> {
    let mut draft = Draft::new(alloc, metas, *dice)?;
    draft.put_body(head)?;
    script.put(if head.is_top {
        "  top relation "
    } else {
        "  relation "
    });
    script.put(head.own.name);
    script.put(" {\n");
    let has_suffixes = draft.has_suffixes;
    *dice = draft.finish(script);
    script.put("  }\n");
    Ok(has_suffixes)
}

/// A relation that may be called, of random classes.
fn random_called(metas: Pair<'_>, dice: &mut Dice, name: &'static str, is_called: bool) -> Called {
    Called {
        name,
        left: random_class(dice, metas.left),
        right: random_class(dice, metas.right),
        takes_string: is_called && dice.below(3) == 0,
    }
}

/// A random script: two top relations, and one that they call.
pub fn random_script(
    alloc: Global,
    metas: Pair<'_>,
    dice: &mut Dice,
) -> Result<RandomScript, NoMemory> {
    let first = random_called(metas, dice, "First", false);
    let second = random_called(metas, dice, "Second", false);
    let called = random_called(metas, dice, "Called", true);
    let heads = [
        Head {
            own: first,
            is_top: true,
            calls: Some(second),
        },
        Head {
            own: second,
            is_top: true,
            calls: Some(called),
        },
        Head {
            own: called,
            is_top: false,
            calls: None,
        },
    ];
    let mut script = Pen::new(alloc)?;
    script.put("transformation Random (left : Left, right : Right) {\n");
    let mut has_suffixes = false;
    for head in heads {
        has_suffixes |= put_relation(alloc, metas, dice, head, &mut script)?;
    }
    script.put("}\n");
    Ok(RandomScript {
        text: script.written()?,
        has_suffixes,
    })
}
