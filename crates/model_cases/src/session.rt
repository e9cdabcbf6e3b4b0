ghost use Rattle.std.specs.Prelude.{IfSome};
ghost use Rattle.mof_metamodel.specs.Tables.{IsPropOf};

use crate::breaches::{print_cycle, print_depth, print_first_breach, print_greatest_depth};
use crate::objects::{print_incoming, print_object, print_objects};
use crate::printing::{print_bounds, print_metamodel};
use crate::script::{Command, edited, words};
use case_texts::Pen;
use model_building::Editor;
use mof_metamodel::{MetaModel, NoMemory, PropId, Text, or_drop};
use object_tables::Model;
use std::alloc::Global;
use std::mem;

/// A model that commands are given to, and another one that is put aside.
#[derive(Drop)]
pub(crate) struct Session<'m> {
    meta: &'m MetaModel,
    editor: Editor<'m>,
    other: Editor<'m>,
}

impl<'m> Session<'m> {
    pub(crate) fn new(alloc: Global, meta: &'m MetaModel) -> Session<'m> {
        Session {
            meta,
            editor: Editor::new(alloc, meta),
            other: Editor::new(alloc, meta),
        }
    }

    /// What is answered to a command:
    ///
    /// - `add Class c`, `set c name 'x,'y`, `link c uses d`, `unlink c uses d`, `order c uses e,d` and
    ///   `delete c` are edits, and so are `row`, `chain` and `ring` (of many objects). Their answer is `ok`,
    ///   or why the edit is not made. After each the links of a small model are compared at both ends.
    /// - `show c` prints an object, `objects` all of them, `incoming c` the links to it that have no name
    ///   there, `number c` its number, `depth c` its depth, `greatest` the greatest depth, `validity` the
    ///   first breach, `cycle` the least object on a cycle, `count` how many are live of how many that were
    ///   added.
    /// - `new` begins with an empty model, `copy` puts the model aside and goes on with a copy, `other`
    ///   changes to the one that was put aside.
    /// - `metamodel` prints the metamodel, `named x` the class and the enumeration of a name, `property C x`
    ///   a property of a class with its bounds and its opposite.
    pub(crate) fn answer(&mut self, alloc: Global, line: &str) -> Result<Text, NoMemory> {
        let mut pen = Pen::new(alloc)?;
        or_drop!(self.print_answer(alloc, &mut pen, &words(line)); pen);
        pen.written()
    }

    fn print_answer(
        &mut self,
        alloc: Global,
        pen: &mut Pen,
        c: &Command<'_>,
    ) -> Result<(), NoMemory> {
        let model = self.editor.model();
        match c.verb {
            "copy" => self.go_on_with_copy(alloc, pen),
            "depth" => print_depth_of(alloc, pen, model, c.object),
            "greatest" => print_greatest_depth(alloc, pen, model),
            "validity" => print_first_breach(alloc, pen, model),
            "cycle" => print_cycle(alloc, pen, model),
            _ => {
                self.print_plain_answer(alloc, pen, c);
                Ok(())
            }
        }
    }

    /// Prints the answer to a command for which memory reaches, but for its text.
    fn print_plain_answer(&mut self, alloc: Global, pen: &mut Pen, c: &Command<'_>) {
        match c.verb {
            "new" => self.change(Editor::new(alloc, self.meta), pen),
            "other" => self.change_back(pen),
            "metamodel" => print_metamodel(alloc, pen, self.meta),
            "named" => print_named(alloc, pen, self.meta, c.object),
            "property" => print_property(alloc, pen, self.meta, c),
            "show" => print_known(alloc, pen, self.editor.model(), c.object),
            "objects" => print_objects(alloc, pen, self.editor.model()),
            "incoming" => print_incoming(pen, self.editor.model(), c.object),
            "number" => print_number(alloc, pen, self.editor.model(), c.object),
            "count" => print_count(alloc, pen, self.editor.model()),
            _ => pen.put(edited(alloc, &mut self.editor, c)),
        }
    }

    fn go_on_with_copy(&mut self, alloc: Global, pen: &mut Pen) -> Result<(), NoMemory> {
        let copy = Editor::of(self.editor.model().duplicate(alloc)?);
        self.change(copy, pen);
        Ok(())
    }

    fn change_back(&mut self, pen: &mut Pen) {
        mem::swap(&mut self.editor, &mut self.other);
        pen.put("ok");
    }

    /// Puts the model aside, and goes on with another one.
    fn change(&mut self, editor: Editor<'m>, pen: &mut Pen) {
        self.other = mem::replace(&mut self.editor, editor);
        pen.put("ok");
    }
}

/// Prints what an object is, or `gone`.
fn print_known(alloc: Global, pen: &mut Pen, model: &Model<'_>, id: &str) {
    match model.by_id(id) {
        Some(o) => print_object(alloc, pen, model, o),
        None => pen.put("gone"),
    }
}

fn print_depth_of(
    alloc: Global,
    pen: &mut Pen,
    model: &Model<'_>,
    id: &str,
) -> Result<(), NoMemory> {
    match model.by_id(id) {
        Some(o) => print_depth(alloc, pen, model, o),
        None => {
            pen.put("gone");
            Ok(())
        }
    }
}

fn print_number(alloc: Global, pen: &mut Pen, model: &Model<'_>, id: &str) {
    match model.by_id(id) {
        Some(o) => pen.put_string(format!(in alloc; "{}", o.0)),
        None => pen.put("none"),
    }
}

fn print_count(alloc: Global, pen: &mut Pen, model: &Model<'_>) {
    let count = model.len();
    let end = model.end();
    pen.put_string(format!(in alloc; "{count} of {end}"));
}

/// Prints the number of the class or the enumeration of a name.
fn print_named(alloc: Global, pen: &mut Pen, meta: &MetaModel, name: &str) {
    match meta.class_named(name) {
        Some(c) => pen.put_string(format!(in alloc; "class {}", c.0)),
        None => match meta.enum_named(name) {
            Some(e) => pen.put_string(format!(in alloc; "enum {}", e.0)),
            None => pen.put("none"),
        },
    }
}

/// Prints the property of a name that a class has: its number, its bounds and its opposite.
fn print_property(alloc: Global, pen: &mut Pen, meta: &MetaModel, c: &Command<'_>) {
    match prop_named(meta, c.object, c.prop) {
        Some(p) => {
            let (lower, upper) = meta.bounds(p);
            pen.put_string(format!(in alloc; "{} ", p.0));
            print_bounds(alloc, pen, lower, upper);
            if let Some(q) = meta.opposite(p) {
                pen.put_string(format!(in alloc; " opposite {}", q.0));
            }
        }
        None => pen.put("none"),
    }
}

fn prop_named(meta: &MetaModel, class: &str, name: &str) -> Option<PropId>
    ensures { IfSome result (IsPropOf meta.now) }
{
    meta.prop_of(meta.class_named(class)?, name)
}
