ghost use Rattle.std.specs.Prelude.{◌≡◌, ℕ, [], IfSome, IfNone};
ghost use Rattle.object_tables.specs.Kept.{Kept};
ghost use Rattle.object_tables.specs.Models.{IsLive, IsLinked, IsReferenceOf, partners_at};
ghost use Rattle.model_filling.specs.Unlinked.{without_links, Loses};

use mof_metamodel::PropId;
use object_tables::{Model, ObjId};

/// Takes all links out of a model (MOF 2.5.1, Reflection: links). The values stay. It takes no memory.
pub fn unlink_all(model: &mut Model<'_>)
    ensures { model.new ≡ without_links model.old }
{
    for o in 0..model.end() {
        unlink_object(model, ObjId(o));
    }
}

/// Takes the partners of an object at all its references away, if there is an object.
fn unlink_object(model: &mut Model<'_>, o: ObjId)
    requires { Kept model.old }
    ensures loses { Loses model.old model.new }
    ensures none { (p : ℕ) → IsReferenceOf model.old o.0 p → partners_at model.new o.0 p ≡ [] }
{
    if !model.is_live(o) {
        return;
    }
    for p in model.meta().props(model.class_of(o)) {
        unlink_property(model, o, *p);
    }
}

/// Takes the partners of an object at a property away, if it is a reference.
fn unlink_property(model: &mut Model<'_>, o: ObjId, p: PropId)
    requires { Kept model.old }
    ensures loses { Loses model.old model.new }
    ensures none { partners_at model.new o.0 p.0 ≡ [] }
{
    while let Some(b) = first_partner(model, o, p) {
        model.unlink(p, o, b);
    }
}

/// The first partner of an object at a property.
fn first_partner(model: &Model<'_>, o: ObjId, p: PropId) -> Option<ObjId>
    requires { Kept model.now }
    ensures linked { IfSome result (λ b. IsLinked model.now p.0 o.0 b.0) }
    ensures live { IfSome result (λ b. IsLive model.now b.0) }
    ensures none { IfNone result (partners_at model.now o.0 p.0 ≡ []) }
{
    if !model.has_reference(o, p) {
        return None;
    }
    model.partners(o, p).next()
}
