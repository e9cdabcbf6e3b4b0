use mof_metamodel::{
    ClassDesc, EnumDesc, MetaDesc, NoMemory, OppDesc, PropDesc, Seq, Text, or_drop,
};
use std::alloc::Global;

/// The description that a text writes. Its items are parted by `; `. The first is the name of the metamodel, and the others are
///
/// - `class Package < Named` or `abstract Named`: a class, and its superclasses parted by blanks;
/// - `classes : Class 0..* composite ordered Class.owner`: a property of the last class, with its type, its bounds (0..1 where
///   none are written), its marks and its opposite;
/// - `enum Colour = red green`: an enumeration.
pub fn described(alloc: Global, text: &str) -> Result<MetaDesc, NoMemory> {
    let (name, items) = text.split_once("; ").unwrap_or((text, ""));
    let name = Text::new(alloc, name)?;
    let mut desc = MetaDesc {
        name,
        classes: Seq::new(alloc),
        enums: Seq::new(alloc),
    };
    or_drop!(add_items(alloc, &mut desc, items); desc);
    Ok(desc)
}

fn add_items(alloc: Global, desc: &mut MetaDesc, items: &str) -> Result<(), NoMemory> {
    if items.is_empty() {
        return Ok(());
    }
    for item in items.split("; ") {
        add_item(alloc, desc, item)?;
    }
    Ok(())
}

fn add_item(alloc: Global, desc: &mut MetaDesc, item: &str) -> Result<(), NoMemory> {
    match item.split_once(" : ") {
        Some((name, words)) => add_property(&mut desc.classes, property(alloc, name, words)?),
        None => add_classifier(alloc, desc, item),
    }
}

fn add_classifier(alloc: Global, desc: &mut MetaDesc, item: &str) -> Result<(), NoMemory> {
    match item.split_once(' ') {
        Some(("enum", rest)) => desc.enums.push(enumeration(alloc, rest)?),
        Some((word, rest)) => add_class(alloc, &mut desc.classes, rest, word == "abstract"),
        None => add_class(alloc, &mut desc.classes, item, false),
    }
}

/// Puts a property into the last class.
fn add_property(classes: &mut Seq<ClassDesc>, prop: PropDesc) -> Result<(), NoMemory> {
    match classes.pop() {
        Some(mut last) => {
            or_drop!(last.props.push(prop); last);
            classes.push(last)
        }
        None => {
            drop(prop);
            Ok(())
        }
    }
}

fn add_class(
    alloc: Global,
    classes: &mut Seq<ClassDesc>,
    rest: &str,
    is_abstract: bool,
) -> Result<(), NoMemory> {
    let (name, supers) = rest.split_once(" < ").unwrap_or((rest, ""));
    let name = Text::new(alloc, name)?;
    let supers = or_drop!(texts(alloc, supers); name);
    classes.push(ClassDesc {
        name,
        is_abstract,
        supers,
        props: Seq::new(alloc),
    })
}

fn enumeration(alloc: Global, rest: &str) -> Result<EnumDesc, NoMemory> {
    let (name, literals) = rest.split_once(" = ").unwrap_or((rest, ""));
    let name = Text::new(alloc, name)?;
    let literals = or_drop!(texts(alloc, literals); name);
    Ok(EnumDesc { name, literals })
}

/// The texts that a text holds, parted by blanks.
fn texts(alloc: Global, words: &str) -> Result<Seq<Text>, NoMemory> {
    let mut texts = Seq::new(alloc);
    or_drop!(add_texts(alloc, &mut texts, words); texts);
    Ok(texts)
}

fn add_texts(alloc: Global, texts: &mut Seq<Text>, words: &str) -> Result<(), NoMemory> {
    if words.is_empty() {
        return Ok(());
    }
    for word in words.split(' ') {
        texts.push(Text::new(alloc, word)?)?;
    }
    Ok(())
}

fn property(alloc: Global, name: &str, words: &str) -> Result<PropDesc, NoMemory> {
    let name = Text::new(alloc, name)?;
    let type_name = or_drop!(Text::new(alloc, ""); name);
    let mut prop = PropDesc {
        name,
        type_name,
        lower: 0,
        upper: Some(1),
        composite: false,
        ordered: false,
        opposite: None,
    };
    or_drop!(add_words(alloc, &mut prop, words); prop);
    Ok(prop)
}

fn add_words(alloc: Global, prop: &mut PropDesc, words: &str) -> Result<(), NoMemory> {
    for word in words.split(' ') {
        add_word(alloc, prop, word)?;
    }
    Ok(())
}

/// Reads one word on a property: a mark, bounds, the opposite or the type.
fn add_word(alloc: Global, prop: &mut PropDesc, word: &str) -> Result<(), NoMemory> {
    match word {
        "composite" => prop.composite = true,
        "ordered" => prop.ordered = true,
        _ => match word.split_once("..") {
            Some((lower, upper)) => {
                prop.lower = lower.parse().unwrap_or(0);
                prop.upper = upper.parse().ok();
            }
            None => return add_name(alloc, prop, word),
        },
    }
    Ok(())
}

/// Reads the opposite or the type.
fn add_name(alloc: Global, prop: &mut PropDesc, word: &str) -> Result<(), NoMemory> {
    match word.split_once('.') {
        Some((class, own)) => prop.opposite = Some(opposite(alloc, class, own)?),
        None => prop.type_name = Text::new(alloc, word)?,
    }
    Ok(())
}

fn opposite(alloc: Global, class: &str, own: &str) -> Result<OppDesc, NoMemory> {
    let class = Text::new(alloc, class)?;
    let prop = or_drop!(Text::new(alloc, own); class);
    Ok(OppDesc { class, prop })
}
