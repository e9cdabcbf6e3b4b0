//! Edits of a model.
use expression_settings::Refused;
use model_building::Editor;
use mof_metamodel::{ClassId, MetaModel, PropId, Seq, Text, or_drop};
use object_tables::{Model, ObjId, Value};
use std::alloc::Global;

/// Makes the edit of a line.
pub(crate) fn edited(alloc: Global, editor: &mut Editor<'_>, line: &str) -> Result<(), Refused> {
    let (verb, more) = line.split_once(' ').unwrap_or((line, ""));
    let (first, more) = more.split_once(' ').unwrap_or((more, ""));
    let (second, rest) = more.split_once(' ').unwrap_or((more, ""));
    match verb {
        "add" => add(alloc, editor, first, second),
        "row" => add_row(alloc, editor, first, second, rest),
        "set" => set(alloc, editor, (first, second), rest),
        "link" => link(editor, (first, second), rest),
        _ => Err(Refused),
    }
}

fn class_named(model: &Model<'_>, name: &str) -> Result<ClassId, Refused> {
    model.meta().class_named(name).ok_or(Refused)
}

/// The object of an identifier.
pub(crate) fn object_named(model: &Model<'_>, id: &str) -> Result<ObjId, Refused> {
    model.by_id(id).ok_or(Refused)
}

/// A live object and a property of its class, by their names.
fn place_named(model: &Model<'_>, names: (&str, &str)) -> Result<(ObjId, PropId), Refused> {
    let object = object_named(model, names.0)?;
    if !model.is_live(object) {
        return Err(Refused);
    }
    match model.meta().prop_of(model.class_of(object), names.1) {
        Some(prop) => Ok((object, prop)),
        None => Err(Refused),
    }
}

fn add(alloc: Global, editor: &mut Editor<'_>, class: &str, id: &str) -> Result<(), Refused> {
    let class = class_named(editor.model(), class)?;
    let id = Text::new(alloc, id)?;
    editor.add(class, id)?;
    Ok(())
}

fn add_numbered(
    alloc: Global,
    editor: &mut Editor<'_>,
    class: ClassId,
    word: &str,
    number: u32,
) -> Result<(), Refused> {
    match format!(in alloc; "{word}{number}") {
        Ok(id) => {
            editor.add(class, Text::from_string(id))?;
            Ok(())
        }
        Err(_) => Err(Refused),
    }
}

/// Adds so many objects of a class, with a number behind the word.
fn add_row(
    alloc: Global,
    editor: &mut Editor<'_>,
    class: &str,
    word: &str,
    count: &str,
) -> Result<(), Refused> {
    let class = class_named(editor.model(), class)?;
    for number in 0..count.parse().unwrap_or(0) {
        add_numbered(alloc, editor, class, word, number)?;
    }
    Ok(())
}

fn set(
    alloc: Global,
    editor: &mut Editor<'_>,
    place: (&str, &str),
    words: &str,
) -> Result<(), Refused> {
    let (object, prop) = place_named(editor.model(), place)?;
    let values = values(alloc, editor.model().meta(), words)?;
    editor.set(object, prop, values)?;
    Ok(())
}

fn link(editor: &mut Editor<'_>, place: (&str, &str), other: &str) -> Result<(), Refused> {
    let (object, prop) = place_named(editor.model(), place)?;
    let other = object_named(editor.model(), other)?;
    editor.link(prop, object, other)?;
    Ok(())
}

/// The values that words write, with a comma between them.
fn values(alloc: Global, meta: &MetaModel, words: &str) -> Result<Seq<Value>, Refused> {
    let mut values = Seq::new(alloc);
    for word in words.split(',') {
        let value = or_drop!(value(alloc, meta, word); values);
        or_drop!(values.push(value); values);
    }
    Ok(values)
}

/// The value that a word writes: `'text`, an integer, `true`, `false` or `Enumeration.literal`.
fn value(alloc: Global, meta: &MetaModel, word: &str) -> Result<Value, Refused> {
    match word.strip_prefix('\'') {
        Some(text) => Ok(Value::Str(Text::new(alloc, text)?)),
        None => plain_value(meta, word).ok_or(Refused),
    }
}

fn plain_value(meta: &MetaModel, word: &str) -> Option<Value> {
    match word {
        "true" => Some(Value::Bool(true)),
        "false" => Some(Value::Bool(false)),
        _ => match word.split_once('.') {
            Some((e, literal)) => literal_named(meta, e, literal),
            None => integer(word),
        },
    }
}

fn integer(word: &str) -> Option<Value> {
    match word.parse() {
        Ok(i) => Some(Value::Int(i)),
        Err(_) => None,
    }
}

fn literal_named(meta: &MetaModel, e: &str, literal: &str) -> Option<Value> {
    let e = meta.enum_named(e)?;
    let place = meta.literal_named(e, literal)?;
    Some(Value::Lit(e, place))
}
