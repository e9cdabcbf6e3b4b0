//! The fate of an object, from the first one on the way up its containers that is known.
ghost use Rattle.std.specs.Prelude.{◌≡◌, ◌<◌, length};
ghost use Rattle.object_tables.specs.Models.{IsLive};
ghost use Rattle.staying_objects.specs.Fates.{target_of, is_deleted, stays, known_fate, is_going, fate_at, AreFates};

use crate::fate::Fate;
use crate::repair::Repair;
use object_tables::ObjId;

/// What is known of an object.
fn fate_of(fates: &[Fate], o: ObjId) -> Fate
    requires { o.0 < length fates.now }
    ensures { result ≡ fate_at fates.now o.0 }
{
    fates[o.0 as usize]
}

/// Whether an object of this fate is known to go.
fn is_going(fate: Fate) -> bool
    ensures { result ≡ is_going fate }
{
    match fate {
        Fate::Goes => true,
        Fate::Stays | Fate::Open => false,
    }
}

/// The fate of an object that goes, or stays.
fn known_fate(goes: bool) -> Fate
    ensures { result ≡ known_fate goes }
{
    if goes { Fate::Goes } else { Fate::Stays }
}

/// Whether an object goes: as the first one does on the way up its containers whose fate is known. On a cycle of containers whose fates
/// are open all stay.
fn goes(repair: &Repair<'_, '_>, fates: &[Fate], o: ObjId) -> bool
    requires live { IsLive (target_of repair.now) o.0 }
    requires fates { AreFates repair.now fates.now }
    ensures { result ≡ is_deleted repair.now o.0 }
{
    let mut at = o;
    for _step in 0..repair.target.end() {
        match fate_of(fates, at) {
            Fate::Goes => return true,
            Fate::Stays => return false,
            Fate::Open => {}
        }
        match repair.target.container(at) {
            Some((container, _)) => at = container,
            None => return false,
        }
    }
    let last = fate_of(fates, at);
    is_going(last)
}

/// Puts down whether an object goes, for it and for those on the way up whose fate isn't known yet.
fn put(repair: &Repair<'_, '_>, fates: &mut [Fate], o: ObjId, goes: bool)
    requires live { IsLive (target_of repair.now) o.0 }
    requires fates { AreFates repair.now fates.old }
    requires goes { goes ≡ is_deleted repair.now o.0 }
    ensures { AreFates repair.now fates.new }
{
    // What every model keeps is known here.
    let _ = repair.target.end();
    let mut at = o;
    while let Fate::Open = fate_of(fates, at) {
        fates[at.0 as usize] = known_fate(goes);
        match repair.target.container(at) {
            Some((container, _)) => at = container,
            None => return,
        }
    }
}

/// Whether an object stays. Its fate, and the fates of those on the way up, are known from then on.
pub(crate) fn settle(repair: &Repair<'_, '_>, fates: &mut [Fate], o: ObjId) -> bool
    requires { AreFates repair.now fates.old }
    ensures stays { result ≡ stays repair.now o.0 }
    ensures fates { AreFates repair.now fates.new }
{
    if !repair.target.is_live(o) {
        return false;
    }
    let goes = goes(repair, fates, o);
    put(repair, fates, o, goes);
    !goes
}
