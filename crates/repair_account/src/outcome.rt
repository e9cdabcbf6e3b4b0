//! How a repair ends, and its parts as they are printed.
use crate::told::Told;
use case_texts::Pen;
use mof_metamodel::{PropId, Text};
use object_tables::{BreachKind, LimitKind};
use repair_semantics::Report;
use std::alloc::Global;

/// How a repair of the target ends: what it changes, with a line for each object of the repaired model, or no report and what stands against it.
#[derive(Drop)]
pub struct Outcome {
    pub report: Option<Report>,
    pub text: Text,
}

fn are_same_reports(one: Report, other: Report) -> bool {
    one.created == other.created
        && one.updated == other.updated
        && one.deleted == other.deleted
        && one.unchanged == other.unchanged
}

impl Outcome {
    /// Whether both repairs end in the same way.
    pub fn is_same(&self, other: &Outcome) -> bool {
        let reported = match (self.report, other.report) {
            (Some(one), Some(another)) => are_same_reports(one, another),
            (None, None) => true,
            _ => false,
        };
        reported && self.text.is(other.text.as_str())
    }
}

/// How many objects are made, changed and deleted.
pub fn put_report(pen: &mut Pen, alloc: Global, report: Report) {
    let Report {
        created,
        updated,
        deleted,
        ..
    } = report;
    pen.put_string(format!(in alloc; " created {created} updated {updated} deleted {deleted}"));
}

/// A limit that is passed.
pub fn put_limit(pen: &mut Pen, kind: LimitKind) {
    pen.put(" limit ");
    pen.put(match kind {
        LimitKind::Objects => "objects",
        LimitKind::Depth => "depth",
    });
}

/// A rule that the object of this identifier breaks, with the property of a bound.
pub fn put_breach(
    pen: &mut Pen,
    told: &Told<'_, '_>,
    kind: BreachKind,
    id: &str,
    prop: Option<PropId>,
) {
    pen.put(" invalid ");
    pen.put(kind.word());
    pen.put(" ");
    pen.put(id);
    if let Some(prop) = prop {
        pen.put(" ");
        pen.put(told.any_prop_name(prop));
    }
}

/// The begin of an object's line.
pub fn put_head(pen: &mut Pen, id: &str, class: &str) {
    pen.put("\n  ");
    pen.put(id);
    pen.put(" ");
    pen.put(class);
}

/// The begin of a slot that holds something.
pub fn put_name(pen: &mut Pen, name: &str) {
    pen.put(", ");
    pen.put(name);
}
