ghost use Rattle.std.specs.Prelude.{IfOk};
ghost use Rattle.model_assembly.specs.AssemblyModels.{IsLinkedModel, IsOrderedModel, StandsAsWritten};
ghost use Rattle.model_assembly.specs.AssemblyObjects.{AreObjects, bare_model};
ghost use Rattle.model_assembly.specs.AssemblyReferences.{AreAnswered, MayBeAssembled};
ghost use Rattle.model_assembly.specs.AssemblyValues.{AreValuesOf, HasValues};

use super::links::link_all;
use super::naming::Naming;
use super::objects::bare_model;
use super::orders::order_all;
use super::values::put_values;
use crate::filed::{Filed, WrittenValue};
use mof_metamodel::{ClassId, MetaModel, NoMemory, Seq, Text, or_drop};
use object_tables::Model;
use std::alloc::Global;

/// The objects of a file with their values.
fn valued_model<'m>(
    alloc: Global,
    meta: &'m MetaModel,
    classes: &[ClassId],
    ids: &[Text],
    values: Seq<WrittenValue>,
) -> Result<Model<'m>, NoMemory>
    requires objects { AreObjects meta.now classes.now ids.now }
    requires values { AreValuesOf (bare_model meta.now classes.now ids.now) values }
    ensures { IfOk result (HasValues (bare_model meta.now classes.now ids.now) values) }
{
    let mut model = or_drop!(bare_model(alloc, meta, classes, ids); values);
    or_drop!(put_values(alloc, &mut model, values); model);
    Ok(model)
}

/// The same with their links. The partners stand in the order in which they were linked.
fn linked_model<'m>(
    alloc: Global,
    meta: &'m MetaModel,
    filed: Filed,
    namings: &[Naming],
) -> Result<Model<'m>, NoMemory>
    requires sound { MayBeAssembled meta.now filed }
    requires values { AreValuesOf (bare_model meta.now filed.classes filed.ids) filed.values }
    requires answered { AreAnswered meta.now filed namings.now }
    ensures { IfOk result (IsLinkedModel meta.now filed namings.now) }
{
    let Filed {
        ids,
        classes,
        values,
        references,
        mentions,
    } = filed;
    drop(references);
    drop(mentions);
    let valued = valued_model(alloc, meta, classes.as_slice(), ids.as_slice(), values);
    drop(ids);
    drop(classes);
    let mut model = valued?;
    // What every model keeps is known here.
    let _ = model.end();
    or_drop!(link_all(alloc, &mut model, namings); model);
    Ok(model)
}

/// The same with the partners of each object that names some in the order in which it names them.
pub(super) fn ordered_model<'m>(
    alloc: Global,
    meta: &'m MetaModel,
    filed: Filed,
    namings: &[Naming],
) -> Result<Model<'m>, NoMemory>
    requires sound { MayBeAssembled meta.now filed }
    requires values { AreValuesOf (bare_model meta.now filed.classes filed.ids) filed.values }
    requires answered { AreAnswered meta.now filed namings.now }
    ensures { IfOk result (λ m. IsOrderedModel meta.now filed namings.now m × StandsAsWritten meta.now filed m) }
{
    let mut model = linked_model(alloc, meta, filed, namings)?;
    or_drop!(order_all(alloc, &mut model, namings); model);
    Ok(model)
}
