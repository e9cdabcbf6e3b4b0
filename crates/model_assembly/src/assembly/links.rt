ghost use Rattle.std.specs.Prelude.{◌≡◌, ◌<◌, ◌||◌, All, false, OnOk};
ghost use Rattle.std.specs.List.{list_any};
ghost use Rattle.mof_metamodel.specs.Metamodels.{prop_count};
ghost use Rattle.model_assembly.specs.declared.assembly.naming.Naming.{Naming};
ghost use Rattle.model_assembly.specs.AssemblyFirsts.{same_naming};
ghost use Rattle.model_assembly.specs.AssemblyLinks as links;

use super::met::Met;
use super::naming::{Naming, key_of};
use mof_metamodel::{MetaModel, NoMemory, PropId};
use object_tables::{Model, ObjId};
use std::alloc::Global;

/// Meets the pair of a naming, seen from both of its ends.
fn meet_pair(meta: &MetaModel, pairs: &mut Met<Naming>, naming: Naming) -> Result<(), NoMemory>
    requires { naming.property < prop_count meta.now }
    ensures { OnOk result ((other : Naming) → list_any (same_naming other) pairs.new.set.keys ≡ (links.is_pair_of meta.now naming other || list_any (same_naming other) pairs.old.set.keys)) }
{
    pairs.meet(naming)?;
    if let Some(q) = meta.opposite(PropId(naming.property)) {
        pairs.meet(Naming {
            object: naming.target,
            property: q.0,
            target: naming.object,
        })?;
    }
    Ok(())
}

/// Links what is named, unless the two are linked.
fn link_once(model: &mut Model<'_>, pairs: &mut Met<Naming>, naming: Naming) -> Result<(), NoMemory>
    requires within { naming.property < prop_count model.old.meta }
    requires pairs { links.ArePairs model.old pairs.old.set.keys }
    requires may { links.has_partner model.old naming ≡ false → links.IsLinkable model.old naming }
    ensures model { OnOk result (model.new ≡ links.linked_once model.old naming) }
    ensures pairs { OnOk result (links.ArePairs model.new pairs.new.set.keys) }
{
    if pairs.has(&naming) {
        return Ok(());
    }
    // What every model keeps is known here.
    let _ = model.end();
    meet_pair(model.meta(), pairs, naming)?;
    model.link(
        PropId(naming.property),
        ObjId(naming.object),
        ObjId(naming.target),
    )
}

/// Links what each naming names, each pair once.
pub(super) fn link_all(
    alloc: Global,
    model: &mut Model<'_>,
    namings: &[Naming],
) -> Result<(), NoMemory>
    requires within { All (λ n. n.property < prop_count model.old.meta) namings.now }
    requires empty { (n : Naming) → links.has_partner model.old n ≡ false }
    requires may { links.MayBeLinked model.old namings.now }
    ensures { OnOk result (model.new ≡ links.linked_all model.old namings.now) }
{
    let mut pairs = Met::new(alloc, key_of(namings));
    for naming in namings {
        link_once(model, &mut pairs, *naming)?;
    }
    Ok(())
}
