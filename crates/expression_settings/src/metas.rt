//! The metamodels of a setting.
use crate::refused::{Refused, put_if_refused};
use case_texts::Pen;
use model_building::described;
use mof_metamodel::{MetaModel, NoMemory, Text, or_drop};
use ocl_environments::Metas;
use std::alloc::Global;

/// The metamodels of a setting, whose name is its first line.
pub fn metamodels(alloc: Global, pen: &mut Pen, setting: &str) -> Result<Metas, NoMemory> {
    let mut metas = Metas::new(alloc);
    for part in setting.split("\nmetamodel ").skip(1) {
        let items = or_drop!(items(alloc, part); metas);
        let added = add_metamodel(alloc, &mut metas, items.as_str());
        put_if_refused(pen, items.as_str(), &added);
        drop(items);
    }
    Ok(metas)
}

/// The metamodels of these names in a setting, one behind the other.
pub fn metamodels_named(alloc: Global, setting: &str, names: &[Text]) -> Result<Metas, Refused> {
    let mut metas = Metas::new(alloc);
    for name in names {
        let part = or_drop!(part_named(setting, name.as_str()).ok_or(Refused); metas);
        let items = or_drop!(items(alloc, part); metas);
        let added = add_metamodel(alloc, &mut metas, items.as_str());
        drop(items);
        or_drop!(added; metas);
    }
    Ok(metas)
}

/// The lines of the metamodel of a name, from the name on.
fn part_named<'s>(setting: &'s str, name: &str) -> Option<&'s str> {
    for part in setting.split("\nmetamodel ").skip(1) {
        if part.lines().next().unwrap_or("") == name {
            return Some(part);
        }
    }
    None
}

/// The name of a metamodel and the indented lines below it, with `; ` between them.
fn items(alloc: Global, part: &str) -> Result<Text, NoMemory> {
    let mut lines = part.lines();
    let mut items = Text::new(alloc, lines.next().unwrap_or(""))?;
    for line in lines.take_while(|line| line.starts_with(' ')) {
        items.push_str("; ")?;
        items.push_str(line.trim_start())?;
    }
    Ok(items)
}

fn add_metamodel(alloc: Global, metas: &mut Metas, items: &str) -> Result<(), Refused> {
    let description = described(alloc, items)?;
    let meta = MetaModel::new(alloc, description).map_err(|_| Refused)?;
    metas.push(meta)?;
    Ok(())
}
