ghost use Rattle.std.specs.Prelude.{◌≡◌, ◌==◌, ◌<◌, map, IfOk, IfSome, if◌then◌else◌};
ghost use Rattle.std.specs.Option.{option_map};
ghost use Rattle.mof_metamodel.specs.Metamodels.{class_count};
ghost use Rattle.qvtr_semantics.specs.Expressions.{class_operation};
ghost use Rattle.qvtr_semantics.specs.declared.out.Out.TheVariants.{One, Invalid};
ghost use Rattle.qvtr_semantics.specs.Outs.{boolean, given};
ghost use Rattle.qvtr_semantics.specs.Objects.{object_datum, is_kind_of, conforms_at, extent_of, extent};
ghost use Rattle.qvtr_semantics.specs.Templates.{conforms};
ghost use Rattle.ocl_eval.specs.Worlds.{setting_of, class_in};

use crate::models::Models;
use crate::outs::boolean;
use crate::world::World;
use key_index::is_kind_of;
use mof_metamodel::{ClassId, MetaModel, NoMemory, Seq};
use object_tables::{Model, ObjId};
use qv_syntax::{ClassOperation, Kind};
use qvtr_semantics::{Datum, Out};
use std::alloc::Global;

/// Whether the number is that of a live object whose class is the class or inherits from it.
#[tactic(auto, using(crate::proofs::ClassLaws::gone, crate::proofs::ClassLaws::live))]
fn conforms_at(model: &Model<'_>, class: ClassId, object: ObjId) -> bool
    ensures { result ≡ conforms_at model.now class.0 object.0 }
{
    if model.is_live(object) {
        is_kind_of(model.meta(), model.class_of(object), class)
    } else {
        false
    }
}

/// The live objects of a model whose class is the class or inherits from it, by number (OCL 2.4, section 7.5.10). The model is the
/// one of this number.
pub fn extent_of(
    alloc: Global,
    number: u32,
    model: &Model<'_>,
    class: ClassId,
) -> Result<Seq<Datum>, NoMemory>
    ensures { IfOk result (λ objects. objects ≡ map (object_datum number) (extent_of model.now class.0)) }
{
    let mut objects = Seq::new(alloc);
    for object in 0..model.end() {
        if conforms_at(model, class, ObjId(object)) {
            objects.push(Datum::Obj(number, ObjId(object)))?;
        }
    }
    Ok(objects)
}

/// `C.allInstances()` (OCL 2.4, section 7.5.10): the live objects of a model whose class is the class or inherits from it.
pub(crate) fn extent(world: &World<'_, '_>, number: u32, class: ClassId) -> Result<Out, NoMemory>
    ensures { IfOk result (λ out. out ≡ extent (setting_of world.now) number class.0) }
{
    match world.models.get(number as usize) {
        Some(model) => {
            let objects = extent_of(world.alloc, number, model, class)?;
            Ok(Out::Many(Kind::Set, objects))
        }
        None => Ok(Out::Invalid),
    }
}

/// The class of a live object, with its metamodel.
fn class_of<'m>(models: &Models<'m>, datum: &Datum) -> Option<(&'m MetaModel, ClassId)>
    ensures class { option_map (λ c. record { meta = c.0.now; class = c.1.0 }) result ≡ class_in models.now datum.now }
    ensures within { IfSome result (λ c. c.1.0 < class_count c.0.now) }
{
    match datum {
        Datum::Obj(number, object) => match models.get(*number as usize) {
            Some(model) => {
                if model.is_live(*object) {
                    Some((model.meta(), model.class_of(*object)))
                } else {
                    None
                }
            }
            None => None,
        },
        Datum::Val(..) => None,
    }
}

/// Whether the datum is a live object whose class is the class or inherits from it (OCL 2.4, section 11.3.1).
pub fn is_of_class(models: &Models<'_>, class: ClassId, datum: &Datum) -> bool
    ensures { result ≡ conforms class.0 (class_in models.now datum.now) }
{
    match class_of(models, datum) {
        Some((meta, of)) => is_kind_of(meta, of, class),
        None => false,
    }
}

/// `x.oclIsTypeOf(C)`
fn is_type_of(models: &Models<'_>, class: ClassId, datum: &Datum) -> Out
    ensures { result ≡ given (class_in models.now datum.now) (λ c. boolean (c.class == class.0)) }
{
    match class_of(models, datum) {
        Some((_, of)) => boolean(of.0 == class.0),
        None => Out::Invalid,
    }
}

/// `x.oclIsKindOf(C)`
fn is_of_kind(models: &Models<'_>, class: ClassId, datum: &Datum) -> Out
    ensures { result ≡ given (class_in models.now datum.now) (λ c. boolean (is_kind_of c.meta c.class class.0)) }
{
    match class_of(models, datum) {
        Some((meta, of)) => boolean(is_kind_of(meta, of, class)),
        None => Out::Invalid,
    }
}

/// `x.oclAsType(C)`
fn as_type(models: &Models<'_>, class: ClassId, datum: Datum) -> Out
    ensures { result ≡ given (class_in models.now datum) (λ c. if is_kind_of c.meta c.class class.0 then One datum else Invalid) }
{
    match class_of(models, &datum) {
        Some((meta, of)) => {
            if is_kind_of(meta, of, class) {
                Out::One(datum)
            } else {
                Out::Invalid
            }
        }
        None => Out::Invalid,
    }
}

/// What is asked of an object and a class (OCL 2.4, section 11.3.1).
pub(crate) fn class_operation(
    world: &World<'_, '_>,
    operation: ClassOperation,
    class: ClassId,
    x: Out,
) -> Out
    ensures { result ≡ class_operation (setting_of world.now) operation class.0 x }
{
    match x {
        Out::One(datum) => match operation {
            ClassOperation::IsTypeOf => is_type_of(world.models, class, &datum),
            ClassOperation::IsKindOf => is_of_kind(world.models, class, &datum),
            ClassOperation::AsType => as_type(world.models, class, datum),
        },
        _ => Out::Invalid,
    }
}
