ghost use Rattle.mof_metamodel.specs.Tables.{IsPropOf};
ghost use Rattle.object_tables.specs.Models.{IsLive};

use mof_metamodel::PropId;
use object_tables::{Model, ObjId};

/// Whether b stands among the partners of a at p.
fn is_partner(model: &Model<'_>, p: PropId, a: ObjId, b: ObjId) -> bool {
    if !model.has_reference(a, p) {
        return false;
    }
    for other in model.partners(a, p) {
        if other == b {
            return true;
        }
    }
    false
}

fn is_linked(model: &Model<'_>, p: PropId, a: ObjId, b: ObjId) -> bool {
    model.has_reference(a, p) && model.is_live(b) && model.linked(p, a, b)
}

/// Whether a at p stands among the incoming links of b.
fn is_incoming(model: &Model<'_>, p: PropId, a: ObjId, b: ObjId) -> bool {
    if !model.is_live(b) {
        return false;
    }
    for (other, q) in model.incoming(b) {
        if other == a && q == p {
            return true;
        }
    }
    false
}

/// Whether all calls agree on whether b is a partner of a at p, and a at the other end.
fn is_mirrored_at(model: &Model<'_>, p: PropId, a: ObjId, b: ObjId) -> bool
    requires { IsPropOf model.now.meta p }
{
    let there = is_partner(model, p, a, b);
    let back = match model.meta().opposite(p) {
        Some(q) => is_partner(model, q, b, a),
        None => is_incoming(model, p, a, b),
    };
    there == back && there == is_linked(model, p, a, b)
}

fn is_mirrored_for(model: &Model<'_>, a: ObjId, b: ObjId) -> bool
    requires { IsLive model.now a.0 }
{
    for p in model.meta().props(model.class_of(a)) {
        if !is_mirrored_at(model, *p, a, b) {
            return false;
        }
    }
    true
}

fn is_mirrored_from(model: &Model<'_>, a: ObjId) -> bool
    requires { IsLive model.now a.0 }
{
    for b in 0..model.end() {
        if !is_mirrored_for(model, a, ObjId(b)) {
            return false;
        }
    }
    true
}

/// Whether for any two objects and any reference the calls on both ends agree on whether the objects are
/// linked.
pub(crate) fn is_mirrored(model: &Model<'_>) -> bool {
    for a in 0..model.end() {
        if model.is_live(ObjId(a)) && !is_mirrored_from(model, ObjId(a)) {
            return false;
        }
    }
    true
}
