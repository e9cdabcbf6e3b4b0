use model_building::{Editor, Refusal};
use mof_metamodel::{ClassId, NoMemory, PropId, Text};
use object_tables::ObjId;
use std::alloc::Global;

/// The identifier of an object of a row: a word with a number of eight digits.
fn numbered(alloc: Global, word: &str, number: u32) -> Result<Text, NoMemory> {
    Ok(Text::from_string(format!(in alloc; "{word}{number:08}")?))
}

/// Adds a row of objects of a class, from number 0 on.
pub(crate) fn add_row(
    alloc: Global,
    editor: &mut Editor<'_>,
    class: ClassId,
    word: &str,
    count: u32,
) -> Result<(), Refusal> {
    for number in 0..count {
        editor.add(class, numbered(alloc, word, number)?)?;
    }
    Ok(())
}

/// Links the first objects of a model each to the one that is so many numbers further on, if it is one of
/// them.
pub(crate) fn link_row(
    editor: &mut Editor<'_>,
    p: PropId,
    step: u32,
    count: u32,
) -> Result<(), Refusal> {
    for number in 0..count {
        let other = u64::from(number) + u64::from(step);
        if other < u64::from(count) {
            editor.link(p, ObjId(number), ObjId(other as u32))?;
        }
    }
    Ok(())
}

/// The same in a circle: behind the last one comes the first one.
pub(crate) fn link_ring(
    editor: &mut Editor<'_>,
    p: PropId,
    step: u32,
    count: u32,
) -> Result<(), Refusal> {
    for number in 0..count {
        let other = (u64::from(number) + u64::from(step)) % u64::from(count);
        editor.link(p, ObjId(number), ObjId(other as u32))?;
    }
    Ok(())
}
