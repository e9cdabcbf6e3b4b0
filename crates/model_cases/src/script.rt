use crate::breaches::FEW;
use crate::filling::{add_row, link_ring, link_row};
use crate::mirrored::is_mirrored;
use model_building::{Editor, Refusal};
use mof_metamodel::{ClassId, MetaModel, PropId, Seq, Text};
use object_tables::{Model, ObjId, Value};
use std::alloc::Global;

/// The words of a command: what is done, with which object, at which property, and the rest.
#[derive(Drop)]
pub(crate) struct Command<'t> {
    pub(crate) verb: &'t str,
    pub(crate) object: &'t str,
    pub(crate) prop: &'t str,
    pub(crate) rest: &'t str,
}

pub(crate) fn words(line: &str) -> Command<'_> {
    let (verb, more) = line.split_once(' ').unwrap_or((line, ""));
    let (object, more) = more.split_once(' ').unwrap_or((more, ""));
    let (prop, rest) = more.split_once(' ').unwrap_or((more, ""));
    Command {
        verb,
        object,
        prop,
        rest,
    }
}

fn class_named(model: &Model<'_>, name: &str) -> Result<ClassId, Refusal> {
    model.meta().class_named(name).ok_or(Refusal::NoClass)
}

fn object_named(model: &Model<'_>, id: &str) -> Result<ObjId, Refusal> {
    model.by_id(id).ok_or(Refusal::NoObject)
}

/// A live object and a property of its class, by their names.
fn place_named(model: &Model<'_>, id: &str, prop: &str) -> Result<(ObjId, PropId), Refusal> {
    let o = object_named(model, id)?;
    if !model.is_live(o) {
        return Err(Refusal::NoObject);
    }
    match model.meta().prop_of(model.class_of(o), prop) {
        Some(p) => Ok((o, p)),
        None => Err(Refusal::NoProperty),
    }
}

/// The value that a word writes: `'text`, an integer, `true`, `false` or `Enumeration.literal`.
fn value(alloc: Global, meta: &MetaModel, word: &str) -> Result<Value, Refusal> {
    if let Some(text) = word.strip_prefix('\'') {
        return Ok(Value::Str(Text::new(alloc, text)?));
    }
    if let Some((e, literal)) = word.split_once('.') {
        return literal_named(meta, e, literal).ok_or(Refusal::WrongValues);
    }
    match word {
        "true" => Ok(Value::Bool(true)),
        "false" => Ok(Value::Bool(false)),
        _ => match word.parse() {
            Ok(i) => Ok(Value::Int(i)),
            Err(_) => Err(Refusal::WrongValues),
        },
    }
}

fn literal_named(meta: &MetaModel, e: &str, name: &str) -> Option<Value> {
    let e = meta.enum_named(e)?;
    let n = meta.literal_named(e, name)?;
    Some(Value::Lit(e, n))
}

/// The values that words parted by commas write.
fn values(alloc: Global, meta: &MetaModel, list: &str) -> Result<Seq<Value>, Refusal> {
    let mut values = Seq::new(alloc);
    if list.is_empty() {
        return Ok(values);
    }
    for word in list.split(',') {
        values.push(value(alloc, meta, word)?)?;
    }
    Ok(values)
}

fn add(alloc: Global, editor: &mut Editor<'_>, c: &Command<'_>) -> Result<(), Refusal> {
    let class = class_named(editor.model(), c.object)?;
    editor.add(class, Text::new(alloc, c.prop)?)?;
    Ok(())
}

fn set(alloc: Global, editor: &mut Editor<'_>, c: &Command<'_>) -> Result<(), Refusal> {
    let (o, p) = place_named(editor.model(), c.object, c.prop)?;
    let values = values(alloc, editor.model().meta(), c.rest)?;
    editor.set(o, p, values)
}

fn link(editor: &mut Editor<'_>, c: &Command<'_>) -> Result<(), Refusal> {
    let (a, p) = place_named(editor.model(), c.object, c.prop)?;
    let b = object_named(editor.model(), c.rest)?;
    editor.link(p, a, b)
}

fn unlink(editor: &mut Editor<'_>, c: &Command<'_>) -> Result<(), Refusal> {
    let (a, p) = place_named(editor.model(), c.object, c.prop)?;
    let b = object_named(editor.model(), c.rest)?;
    editor.unlink(p, a, b)
}

/// The objects of identifiers that are parted by commas.
fn objects_named(alloc: Global, model: &Model<'_>, list: &str) -> Result<Vec<ObjId>, Refusal> {
    let mut objects = Vec::new(alloc);
    for id in list.split(',') {
        objects.push(object_named(model, id)?)?;
    }
    Ok(objects)
}

fn order(alloc: Global, editor: &mut Editor<'_>, c: &Command<'_>) -> Result<(), Refusal> {
    let (a, p) = place_named(editor.model(), c.object, c.prop)?;
    let order = objects_named(alloc, editor.model(), c.rest)?;
    editor.order(p, a, order.as_slice())
}

fn delete(editor: &mut Editor<'_>, c: &Command<'_>) -> Result<(), Refusal> {
    let o = object_named(editor.model(), c.object)?;
    editor.delete(o)
}

/// A count, and whatever else is a number.
fn number(word: &str) -> Result<u32, Refusal> {
    word.parse().ok().ok_or(Refusal::NoCommand)
}

/// `row Node n 200000`: adds so many objects, with identifiers of a word and a number of eight digits from 0
/// on.
fn row(alloc: Global, editor: &mut Editor<'_>, c: &Command<'_>) -> Result<(), Refusal> {
    let class = class_named(editor.model(), c.object)?;
    add_row(alloc, editor, class, c.prop, number(c.rest)?)
}

/// A property of the class of the first object, and two numbers: `next 7 200000`.
fn property_of_row(editor: &Editor<'_>, c: &Command<'_>) -> Result<(PropId, u32, u32), Refusal> {
    let model = editor.model();
    if !model.is_live(ObjId(0)) {
        return Err(Refusal::NoObject);
    }
    let p = model.meta().prop_of(model.class_of(ObjId(0)), c.object);
    match p {
        Some(p) => Ok((p, number(c.prop)?, number(c.rest)?)),
        None => Err(Refusal::NoProperty),
    }
}

/// `chain next 7 200000`: links each of the first objects to the one so many numbers further on.
fn chain(editor: &mut Editor<'_>, c: &Command<'_>) -> Result<(), Refusal> {
    let (p, step, count) = property_of_row(editor, c)?;
    link_row(editor, p, step, count)
}

/// The same in a circle.
fn ring(editor: &mut Editor<'_>, c: &Command<'_>) -> Result<(), Refusal> {
    let (p, step, count) = property_of_row(editor, c)?;
    link_ring(editor, p, step, count)
}

fn edit(alloc: Global, editor: &mut Editor<'_>, c: &Command<'_>) -> Result<(), Refusal> {
    match c.verb {
        "add" => add(alloc, editor, c),
        "set" => set(alloc, editor, c),
        "link" => link(editor, c),
        "unlink" => unlink(editor, c),
        "order" => order(alloc, editor, c),
        "delete" => delete(editor, c),
        "row" => row(alloc, editor, c),
        "chain" => chain(editor, c),
        "ring" => ring(editor, c),
        _ => Err(Refusal::NoCommand),
    }
}

/// Makes an edit. In a small model the links are then compared at both ends.
pub(crate) fn edited(alloc: Global, editor: &mut Editor<'_>, c: &Command<'_>) -> &'static str {
    match edit(alloc, editor, c) {
        Ok(()) => {
            if editor.model().end() > FEW / 10 || is_mirrored(editor.model()) {
                "ok"
            } else {
                "one-sided"
            }
        }
        Err(refusal) => refusal.word(),
    }
}
