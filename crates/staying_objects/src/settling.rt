ghost use Rattle.std.specs.Prelude.{◌≡◌, ◌++◌, length, map, IfOk, OnOk};
ghost use Rattle.std.specs.List.{range_with_len};
ghost use Rattle.mof_metamodel.specs.Tables.{table};
ghost use Rattle.repair_semantics.specs.Deletions as deletions;
ghost use Rattle.repair_semantics.specs.Deletions.{managed_classes};
ghost use Rattle.staying_objects.specs.Fates.{target_of, stays, AreFates};

use crate::classes::managed_classes;
use crate::climbing::settle;
use crate::fate::Fate;
use crate::fates::first_fates;
use crate::repair::Repair;
use mof_metamodel::{NoMemory, Seq};
use object_tables::{Model, ObjId};
use qv_syntax::Program;
use std::alloc::Global;

/// For each object whether it stays. The fates that aren't known yet are found on the way.
fn settle_all(
    alloc: Global,
    repair: &Repair<'_, '_>,
    fates: &mut [Fate],
) -> Result<Seq<bool>, NoMemory>
    requires { AreFates repair.now fates.old }
    ensures { IfOk result (λ found. found ≡ table (stays repair.now) (length (target_of repair.now).objects)) }
{
    let mut found = Seq::new(alloc);
    for o in 0..repair.target.end() {
        found.push(settle(repair, fates, ObjId(o)))?;
    }
    Ok(found)
}

/// The same, from the beginning.
fn staying_by(alloc: Global, repair: &Repair<'_, '_>) -> Result<Seq<bool>, NoMemory>
    ensures { IfOk result (λ found. found ≡ table (stays repair.now) (length (target_of repair.now).objects)) }
{
    let mut fates = first_fates(alloc, repair)?.into_vec();
    settle_all(alloc, repair, fates.as_mut_slice())
}

/// Which objects of the target stay, by their numbers, where these objects are the images of the demanded terms (QVT 1.3, section 7.2:
/// enforcement deletes what no relation asks for; which objects these are is this engine's own).
///
/// # Errors
///
/// `NoMemory` where memory runs out.
pub fn staying(
    alloc: Global,
    program: &Program,
    target: &Model<'_>,
    images: &[ObjId],
) -> Result<Seq<bool>, NoMemory>
    ensures { IfOk result (λ found. found ≡ map (deletions.stays target.now (managed_classes program.now) (map (λ o. o.0) images.now)) (range_with_len 0 (length target.now.objects))) }
{
    let classes = managed_classes(alloc, program)?;
    staying_by(
        alloc,
        &Repair {
            target,
            classes: classes.as_slice(),
            images,
        },
    )
}
