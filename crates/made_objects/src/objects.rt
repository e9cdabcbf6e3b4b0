ghost use Rattle.std.specs.Prelude.{◌≡◌, ◌<◌, ◌≤◌, ◌+◌, ℕ, false, List, length, All, IfOk, IfSome, IfNone, OnOk, IsTrue};
ghost use Rattle.mof_metamodel.specs.Characters.{is_identifier_text};
ghost use Rattle.mof_metamodel.specs.Metamodels.{class_count};
ghost use Rattle.object_tables.specs.declared.limit.TheConstants.{MAX_OBJECTS};
ghost use Rattle.object_tables.specs.Models.{live_count, added, IsAddable};
ghost use Rattle.qv_syntax.specs.declared.program.Program.{Program};
ghost use Rattle.repair_semantics.specs.declared.term.Term.{out-Term};
ghost use Rattle.repair_semantics.specs.Claims.{Claim};
ghost use Rattle.term_table.specs.TermTables.{term_at};
ghost use Rattle.model_filling.specs.Unlinked.{HasNoLinks};
ghost use Rattle.model_filling.specs.Counterparts.{HasObjectsOf};
ghost use Rattle.candidate_laws.specs.Placing.{IsConcrete};
ghost use Rattle.made_objects.specs.Making.{terms_at, is_staying, made_of};
ghost use Rattle.made_objects.specs.Headers.{KeepsWhere, is_spared, HasRoom, with_fresh};

use crate::identifiers::next_unused;
use model_filling::unlink_all;
use mof_metamodel::{ClassId, NoMemory, Text};
use object_tables::{AddFault, MAX_OBJECTS, Model, ObjId};
use std::alloc::Global;
use term_table::TermTable;

/// The model with the objects of the target that stay, under their numbers, and a fresh one for each of these terms behind them, without links
/// (QVT 1.3, section 7.2; which objects these are is this engine's own). None where these are more than a model may have.
pub fn made_objects<'m>(
    alloc: Global,
    target: &Model<'m>,
    table: &TermTable,
    staying: &[bool],
    fresh: &[usize],
) -> Result<Option<Model<'m>>, NoMemory>
    requires staying { length staying.now ≡ length target.now.objects }
    requires within { All (λ k. k < length table.now) fresh.now }
    requires concrete { All (λ k. IsConcrete target.now.meta (out-Term (term_at table.now k)).class.0) fresh.now }
    requires few { length fresh.now ≤ MAX_OBJECTS }
    requires room { length target.now.objects ≤ 3_999_000_000 }
    ensures objects { IfOk result (λ r. IfSome r (λ made. (program : Program) (claims : List (Claim ℕ)) → HasObjectsOf made (made_of program target.now staying.now claims table.now fresh.now))) }
    ensures bare { IfOk result (λ r. IfSome r HasNoLinks) }
    ensures few { IfOk result (λ r. IfSome r (λ _. (program : Program) (claims : List (Claim ℕ)) → live_count (made_of program target.now staying.now claims table.now fresh.now) ≤ MAX_OBJECTS)) }
    ensures many { IfOk result (λ r. IfNone r ((program : Program) (claims : List (Claim ℕ)) → MAX_OBJECTS < live_count (made_of program target.now staying.now claims table.now fresh.now))) }
{
    let mut made = staying_objects(alloc, target, staying)?;
    if made.len() as usize + fresh.len() > MAX_OBJECTS as usize {
        return Ok(None);
    }
    add_fresh(alloc, &mut made, target, table, fresh)?;
    Ok(Some(made))
}

/// The objects of the target that stay, under their numbers, without links.
fn staying_objects<'m>(
    alloc: Global,
    target: &Model<'m>,
    staying: &[bool],
) -> Result<Model<'m>, NoMemory>
    requires { length staying.now ≡ length target.now.objects }
    ensures { IfOk result (KeepsWhere target.now (is_staying staying.now)) }
{
    let mut made = target.duplicate(alloc)?;
    unlink_all(&mut made);
    for o in 0..made.end() {
        delete_unless(&mut made, ObjId(o), staying[o as usize]);
    }
    Ok(made)
}

/// Removes an object, unless it stays or is gone.
fn delete_unless(made: &mut Model<'_>, o: ObjId, stays: bool)
    requires { HasNoLinks made.old }
    ensures { KeepsWhere made.old (is_spared o.0 stays) made.new }
{
    if !stays && made.is_live(o) {
        made.delete(o);
    }
}

/// Adds a fresh object for each of these terms.
fn add_fresh(
    alloc: Global,
    made: &mut Model<'_>,
    target: &Model<'_>,
    table: &TermTable,
    fresh: &[usize],
) -> Result<(), NoMemory>
    requires room { HasRoom target.now (length fresh.now) made.old }
    requires within { All (λ k. k < length table.now) fresh.now }
    requires concrete { All (λ k. IsConcrete target.now.meta (out-Term (term_at table.now k)).class.0) fresh.now }
    ensures { OnOk result (made.new ≡ with_fresh target.now made.old (terms_at table.now fresh.now)) }
{
    let mut next = 0;
    for term in fresh {
        let found = next_unused(alloc, target, next)?;
        next = found.next;
        add_object(made, table.at(*term).class, found.id)?;
    }
    Ok(())
}

/// Adds an object that can be added.
fn add_object(made: &mut Model<'_>, class: ClassId, id: Text) -> Result<(), NoMemory>
    requires class { class.0 < class_count made.old.meta }
    requires identifier { IsTrue (is_identifier_text id) }
    requires addable { IsAddable made.old class.0 id }
    ensures { OnOk result (made.new ≡ added made.old class.0 id) }
{
    match made.add(class, id) {
        Ok(_) => Ok(()),
        Err(AddFault::NoMemory) => Err(NoMemory),
        Err(_) => unreachable!(),
    }
}
