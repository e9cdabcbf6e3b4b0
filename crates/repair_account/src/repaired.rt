//! What a repair makes of the target.
use crate::against::{Against, first_against};
use crate::contents::{Made, claims_by, old_contents};
use crate::data::put_datum;
use crate::facts::FactTable;
use crate::images::images_of;
use crate::objects::{numbers_of, rows_of};
use crate::outcome::{Outcome, put_breach, put_head, put_limit, put_name, put_report};
use crate::slots::{Slot, Slots};
use crate::told::Told;
use case_texts::Pen;
use demand_set::DemandSet;
use mof_metamodel::{MetaModel, NoMemory};
use object_tables::Model;
use ocl_eval::same_datum;
use qvtr_semantics::Datum;
use repair_semantics::Report;

fn made_of(
    told: &Told<'_, '_>,
    demands: &DemandSet,
    meta: &MetaModel,
    target: &Model<'_>,
) -> Result<Made, NoMemory> {
    let facts = FactTable::new(told.alloc, meta)?;
    let images = images_of(told, demands, target.end())?;
    let rows = rows_of(told, demands, target, images.as_slice())?;
    let (objects, count) = numbers_of(told, demands, target.end(), images.as_slice())?;
    let claims = claims_by(told, demands, &facts, objects.as_slice())?;
    Ok(Made {
        facts,
        rows,
        claims,
        end: target.end(),
        count,
    })
}

// ---- what is reported

fn same_contents(ones: &[Datum], others: &[Datum]) -> bool {
    ones.len() == others.len() && ones.iter().zip(others).all(|(a, b)| same_datum(a, b))
}

/// Whether a slot of an old object changes.
fn is_updated(
    told: &Told<'_, '_>,
    made: &Made,
    object: u32,
    slots: &[Slot],
) -> Result<bool, NoMemory> {
    for slot in slots {
        let old = old_contents(told, made, object, slot.prop)?;
        if !same_contents(old.as_slice(), slot.held.as_slice()) {
            return Ok(true);
        }
    }
    Ok(false)
}

/// Whether an object is one of the old ones that go.
fn is_deleted(made: &Made, object: u32) -> bool {
    match made.rows.get(object as usize) {
        Some(row) => row.class.is_some() && !row.stays,
        None => false,
    }
}

/// How many old objects change.
fn updated_count(told: &Told<'_, '_>, made: &Made, slots: &Slots) -> Result<u32, NoMemory> {
    let mut count = 0u32;
    for object in 0..made.end {
        if is_updated(told, made, object, slots.of(object))? {
            count = count.saturating_add(1);
        }
    }
    Ok(count)
}

/// How many old objects go.
fn deleted_count(made: &Made) -> u32 {
    let mut count = 0u32;
    for object in 0..made.end {
        if is_deleted(made, object) {
            count = count.saturating_add(1);
        }
    }
    count
}

fn report_of(told: &Told<'_, '_>, made: &Made, slots: &Slots) -> Result<Report, NoMemory> {
    let created = made.count.saturating_sub(made.end);
    let updated = updated_count(told, made, slots)?;
    let deleted = deleted_count(made);
    Ok(Report {
        created,
        updated,
        deleted,
        unchanged: created == 0 && updated == 0 && deleted == 0,
    })
}

// ---- as it is printed

fn put_element(pen: &mut Pen, told: &Told<'_, '_>, made: &Made, held: &Datum) {
    pen.put(" ");
    match held {
        Datum::Obj(model, object) if *model == told.program.target => {
            pen.put(made.id_of(object.0));
        }
        _ => put_datum(pen, told, held),
    }
}

fn put_slot(pen: &mut Pen, told: &Told<'_, '_>, made: &Made, slot: &Slot) {
    for (i, datum) in slot.held.as_slice().iter().enumerate() {
        if i == 0 {
            put_name(pen, told.any_prop_name(slot.prop));
        }
        put_element(pen, told, made, datum);
    }
}

fn put_object(pen: &mut Pen, told: &Told<'_, '_>, made: &Made, slots: &Slots, object: u32) {
    if let Some(class) = made.class_of(object) {
        put_head(pen, made.id_of(object), told.class_name(class));
        for slot in slots.of(object) {
            put_slot(pen, told, made, slot);
        }
    }
}

fn put_objects(pen: &mut Pen, told: &Told<'_, '_>, made: &Made, slots: &Slots) {
    for object in 0..made.count {
        put_object(pen, told, made, slots, object);
    }
}

fn put_against(pen: &mut Pen, told: &Told<'_, '_>, made: &Made, against: Against) {
    match against {
        Against::Limit(kind) => put_limit(pen, kind),
        Against::Invalid(kind, object, prop) => {
            put_breach(pen, told, kind, made.id_of(object), prop);
        }
    }
}

// ---- how it ends

fn put_end(
    pen: &mut Pen,
    told: &Told<'_, '_>,
    made: &Made,
    slots: &Slots,
) -> Result<Option<Report>, NoMemory> {
    match first_against(made, slots) {
        Some(against) => {
            put_against(pen, told, made, against);
            Ok(None)
        }
        None => {
            put_objects(pen, told, made, slots);
            Ok(Some(report_of(told, made, slots)?))
        }
    }
}

fn outcome_of(told: &Told<'_, '_>, meta: &MetaModel, made: &Made) -> Result<Outcome, NoMemory> {
    let slots = Slots::new(told, meta, made)?;
    let mut pen = Pen::new(told.alloc)?;
    let report = put_end(&mut pen, told, made, &slots)?;
    let text = pen.written()?;
    Ok(Outcome { report, text })
}

/// How a repair of the target ends, if there is a target.
pub fn account_repair(
    told: &Told<'_, '_>,
    demands: &DemandSet,
) -> Result<Option<Outcome>, NoMemory> {
    let target = told.models.get(told.program.target as usize);
    match (told.meta(told.target_meta()), target) {
        (Some(meta), Some(target)) => {
            let made = made_of(told, demands, meta, target)?;
            let outcome = outcome_of(told, meta, &made)?;
            Ok(Some(outcome))
        }
        _ => Ok(None),
    }
}

/// What a repair makes of the target: what is reported, and each object with what its slots hold; or what stands against it.
pub fn put_repaired(
    pen: &mut Pen,
    told: &Told<'_, '_>,
    demands: &DemandSet,
) -> Result<(), NoMemory> {
    if let Some(outcome) = account_repair(told, demands)? {
        if let Some(report) = outcome.report {
            put_report(pen, told.alloc, report);
        }
        pen.put(outcome.text.as_str());
    }
    Ok(())
}
