//! Models of EMOF from a short text.
use model_building::{Editor, Refusal};
use mof_metamodel::{MetaModel, PropId, PropType, Seq, Text};
use object_tables::{Model, ObjId, Value};
use std::alloc::Global;

/// What stands before a blank, and behind it.
fn first_word(text: &str) -> (&str, &str) {
    text.split_once(' ').unwrap_or((text, ""))
}

/// Adds the object of a part.
fn add_object(alloc: Global, editor: &mut Editor<'_>, part: &str) -> Result<(), Refusal> {
    let (class, rest) = first_word(part);
    let (id, _) = first_word(rest);
    let class = editor
        .model()
        .meta()
        .class_named(class)
        .ok_or(Refusal::NoClass)?;
    editor.add(class, Text::new(alloc, id)?)?;
    Ok(())
}

/// A property of an object, by its name, and whether it is a reference.
fn property(model: &Model<'_>, o: ObjId, name: &str) -> Result<(PropId, PropType), Refusal> {
    if !model.is_live(o) {
        return Err(Refusal::NoObject);
    }
    match model.meta().prop_of(model.class_of(o), name) {
        Some(p) => Ok((p, model.meta().prop(p).ty)),
        None => Err(Refusal::NoProperty),
    }
}

/// The value of a type that a word writes.
fn value(alloc: Global, ty: PropType, word: &str) -> Result<Value, Refusal> {
    match ty {
        PropType::Str => Ok(Value::Str(Text::new(alloc, word)?)),
        PropType::Bool => Ok(Value::Bool(word == "true")),
        _ => match word.parse() {
            Ok(number) => Ok(Value::Int(number)),
            Err(_) => Err(Refusal::WrongValues),
        },
    }
}

/// Sets the one value of an attribute.
fn set(
    alloc: Global,
    editor: &mut Editor<'_>,
    o: ObjId,
    p: PropId,
    ty: PropType,
    word: &str,
) -> Result<(), Refusal> {
    let mut values = Seq::new(alloc);
    values.push(value(alloc, ty, word)?)?;
    editor.set(o, p, values)
}

/// Links an object with the one of an identifier, unless it is linked.
fn link(editor: &mut Editor<'_>, o: ObjId, p: PropId, id: &str) -> Result<(), Refusal> {
    let partner = editor.model().by_id(id).ok_or(Refusal::NoObject)?;
    match editor.link(p, o, partner) {
        Err(Refusal::Linked) => Ok(()),
        done => done,
    }
}

/// Links an object with those of several identifiers.
fn link_all(editor: &mut Editor<'_>, o: ObjId, p: PropId, ids: &str) -> Result<(), Refusal> {
    for id in ids.split(',') {
        link(editor, o, p, id)?;
    }
    Ok(())
}

/// Fills one slot.
fn fill_slot(alloc: Global, editor: &mut Editor<'_>, o: ObjId, word: &str) -> Result<(), Refusal> {
    let (name, values) = word.split_once('=').unwrap_or((word, ""));
    let (p, ty) = property(editor.model(), o, name)?;
    match ty {
        PropType::Class(_) => link_all(editor, o, p, values),
        _ => set(alloc, editor, o, p, ty, values),
    }
}

/// Fills the slots of the object of a part.
fn fill_object(alloc: Global, editor: &mut Editor<'_>, part: &str) -> Result<(), Refusal> {
    let (_, rest) = first_word(part);
    let (id, slots) = first_word(rest);
    let o = editor.model().by_id(id).ok_or(Refusal::NoObject)?;
    if slots.is_empty() {
        return Ok(());
    }
    for word in slots.split(' ') {
        fill_slot(alloc, editor, o, word)?;
    }
    Ok(())
}

/// Adds the objects of all parts.
fn add_objects(alloc: Global, editor: &mut Editor<'_>, line: &str) -> Result<(), Refusal> {
    for part in line.split("; ") {
        add_object(alloc, editor, part)?;
    }
    Ok(())
}

/// Fills their slots.
fn fill_objects(alloc: Global, editor: &mut Editor<'_>, line: &str) -> Result<(), Refusal> {
    for part in line.split("; ") {
        fill_object(alloc, editor, part)?;
    }
    Ok(())
}

/// The model that a line writes.
pub(crate) fn built<'m>(
    alloc: Global,
    emof: &'m MetaModel,
    line: &str,
) -> Result<Editor<'m>, Refusal> {
    let mut editor = Editor::new(alloc, emof);
    add_objects(alloc, &mut editor, line)?;
    fill_objects(alloc, &mut editor, line)?;
    Ok(editor)
}
