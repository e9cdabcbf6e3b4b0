//! The objects of the repaired model by their numbers: the old ones, and behind them the fresh ones.
use crate::told::Told;
use demand_set::DemandSet;
use mof_metamodel::{ClassId, NoMemory, Text};
use object_tables::{Model, ObjId};
use ocl_eval::is_of_class;
use qv_syntax::{Dom, ItemValue, Rel, Tmpl, Ty};
use qvtr_semantics::Datum;
use std::alloc::Global;

/// An object: of the old ones that are live the class and the identifier, and whether it stays.
#[derive(Drop)]
pub struct Row {
    pub class: Option<ClassId>,
    pub id: Text,
    pub stays: bool,
}

// ---- classes of which enforcement makes objects

fn class_of(rel: &Rel, variable: u32) -> Option<ClassId> {
    match rel.vars.as_slice().get(variable as usize) {
        Some(var) => match &var.ty {
            Ty::Class(_, class) => Some(*class),
            _ => None,
        },
        None => None,
    }
}

fn put_class(rel: &Rel, variable: u32, classes: &mut Vec<ClassId>) -> Result<(), NoMemory> {
    if rel.existential.as_slice().contains(&variable) {
        if let Some(class) = class_of(rel, variable) {
            classes.push(class)?;
        }
    }
    Ok(())
}

#[cycle(templates)]
fn put_nested(rel: &Rel, template: &Tmpl, classes: &mut Vec<ClassId>) -> Result<(), NoMemory> {
    for item in template.items.as_slice() {
        put_content(rel, &item.value, classes)?;
    }
    Ok(())
}

#[cycle(templates)]
fn put_content(rel: &Rel, value: &ItemValue, classes: &mut Vec<ClassId>) -> Result<(), NoMemory> {
    match value {
        ItemValue::Nested { template } => {
            put_class(rel, template.var, classes)?;
            put_nested(rel, template, classes)
        }
        _ => Ok(()),
    }
}

fn put_domain(rel: &Rel, dom: &Dom, classes: &mut Vec<ClassId>) -> Result<(), NoMemory> {
    if rel.top {
        put_class(rel, dom.root, classes)?;
    }
    match &dom.template {
        Some(template) => put_nested(rel, template, classes),
        None => Ok(()),
    }
}

fn put_relation(target: u32, rel: &Rel, classes: &mut Vec<ClassId>) -> Result<(), NoMemory> {
    for dom in rel.domains.as_slice() {
        if rel.in_direction && dom.model == Some(target) {
            put_domain(rel, dom, classes)?;
        }
    }
    Ok(())
}

fn managed_classes(told: &Told<'_, '_>) -> Result<Vec<ClassId>, NoMemory> {
    let mut classes = Vec::new(told.alloc);
    for rel in told.program.rels.as_slice() {
        put_relation(told.program.target, rel, &mut classes)?;
    }
    Ok(classes)
}

// ---- old objects

fn container_in(target: &Model<'_>, object: u32) -> Option<u32> {
    if target.is_live(ObjId(object)) {
        target.container(ObjId(object)).map(|(whole, _)| whole.0)
    } else {
        None
    }
}

fn is_image(images: &[Option<u32>], numbers: &[usize], object: u32) -> bool {
    numbers.iter().any(|n| match images.get(*n) {
        Some(image) => *image == Some(object),
        None => false,
    })
}

/// Whether it goes: an object of a managed class that is no image, or one that is no image and is contained in one that goes.
fn is_deleted(
    told: &Told<'_, '_>,
    target: &Model<'_>,
    classes: &[ClassId],
    images: &[Option<u32>],
    numbers: &[usize],
    object: u32,
) -> bool {
    let mut at = Some(object);
    for _ in 0..=target.end() {
        match at {
            Some(here) if !is_image(images, numbers, here) => {
                let datum = Datum::Obj(told.program.target, ObjId(here));
                if classes
                    .iter()
                    .any(|class| is_of_class(told.models, *class, &datum))
                {
                    return true;
                }
                at = container_in(target, here);
            }
            _ => return false,
        }
    }
    false
}

fn old_row(target: &Model<'_>, alloc: Global, object: u32, stays: bool) -> Result<Row, NoMemory> {
    if target.is_live(ObjId(object)) {
        Ok(Row {
            class: Some(target.class_of(ObjId(object))),
            id: Text::new(alloc, target.id_of(ObjId(object)))?,
            stays,
        })
    } else {
        Ok(Row {
            class: None,
            id: Text::new(alloc, "")?,
            stays: false,
        })
    }
}

fn put_old_rows(
    told: &Told<'_, '_>,
    demands: &DemandSet,
    target: &Model<'_>,
    images: &[Option<u32>],
    rows: &mut Vec<Row>,
) -> Result<(), NoMemory> {
    let classes = managed_classes(told)?;
    for object in 0..target.end() {
        let goes = is_deleted(
            told,
            target,
            classes.as_slice(),
            images,
            demands.numbered().terms,
            object,
        );
        rows.push(old_row(target, told.alloc, object, !goes)?)?;
    }
    Ok(())
}

// ---- fresh ones

/// The next identifier `n0`, `n1`, .. from this number on that no old object has, and the number behind it. So many are tried that one is
/// unused.
fn next_id(alloc: Global, target: &Model<'_>, from: u64) -> Result<Option<(Text, u64)>, NoMemory> {
    for number in from..from.saturating_add(u64::from(target.end()) + 1) {
        let id = Text::from_string(format!(in alloc; "n{number}")?);
        if target.by_id(id.as_str()).is_none() {
            return Ok(Some((id, number.saturating_add(1))));
        }
    }
    Ok(None)
}

fn put_fresh_rows(
    told: &Told<'_, '_>,
    demands: &DemandSet,
    target: &Model<'_>,
    images: &[Option<u32>],
    rows: &mut Vec<Row>,
) -> Result<(), NoMemory> {
    let mut next = 0;
    for number in demands.numbered().terms {
        if let Some(None) = images.get(*number) {
            next = put_fresh_row(told, demands, target, *number, next, rows)?;
        }
    }
    Ok(())
}

fn put_fresh_row(
    told: &Told<'_, '_>,
    demands: &DemandSet,
    target: &Model<'_>,
    number: usize,
    next: u64,
    rows: &mut Vec<Row>,
) -> Result<u64, NoMemory> {
    match next_id(told.alloc, target, next)? {
        Some((id, behind)) => {
            rows.push(Row {
                class: class_of_term(demands, number),
                id,
                stays: true,
            })?;
            Ok(behind)
        }
        None => Ok(next),
    }
}

fn class_of_term(demands: &DemandSet, number: usize) -> Option<ClassId> {
    let table = demands.numbered().table;
    if number < table.len() {
        Some(table.at(number).class)
    } else {
        None
    }
}

/// The objects by their numbers.
pub fn rows_of(
    told: &Told<'_, '_>,
    demands: &DemandSet,
    target: &Model<'_>,
    images: &[Option<u32>],
) -> Result<Vec<Row>, NoMemory> {
    let mut rows = Vec::new(told.alloc);
    put_old_rows(told, demands, target, images, &mut rows)?;
    put_fresh_rows(told, demands, target, images, &mut rows)?;
    Ok(rows)
}

/// The numbers of the objects of all terms, by the numbers of the terms, nothing for one that is not demanded and has no image; and the number
/// behind all objects.
pub fn numbers_of(
    told: &Told<'_, '_>,
    demands: &DemandSet,
    end: u32,
    images: &[Option<u32>],
) -> Result<(Vec<Option<u32>>, u32), NoMemory> {
    let mut objects = Vec::new(told.alloc);
    for image in images {
        objects.push(*image)?;
    }
    let mut next = end;
    for number in demands.numbered().terms {
        if let Some(slot) = objects.get_mut(*number) {
            if slot.is_none() {
                *slot = Some(next);
                next = next.saturating_add(1);
            }
        }
    }
    Ok((objects, next))
}
