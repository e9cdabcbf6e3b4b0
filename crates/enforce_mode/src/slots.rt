ghost use Rattle.std.specs.Prelude.{◌≡◌, ◌≤◌, ◌+◌, ◌^◌, ◌++◌, map, length, IfOk, OnOk};
ghost use Rattle.std.specs.List.{filter_map};
ghost use Rattle.std.specs.Option.{option_to_list};
ghost use Rattle.repair_semantics.specs.Candidates.{value_held, partner_held};
ghost use Rattle.slot_claims.specs.HeldValues.{held_by};

use model_filling::Contents;
use mof_metamodel::{NoMemory, PropId, Seq};
use object_tables::{ObjId, Value};
use qvtr_semantics::Datum;
use slot_claims::{HeldValue, Repair, contents};
use std::alloc::Global;
use term_table::TermTable;

/// Puts what a slot holds behind the others, if it is a value.
fn put_value(held: HeldValue, values: &mut Seq<Value>) -> Result<(), NoMemory>
    ensures { OnOk result (values.new ≡ values.old ++ option_to_list (value_held (held_by held))) }
{
    match held {
        HeldValue::Datum(Datum::Val(_, value)) => values.push(value),
        HeldValue::Datum(Datum::Obj(..)) | HeldValue::Object(_) => Ok(()),
    }
}

/// The values among what a slot holds.
fn values_among(alloc: Global, held: Seq<HeldValue>) -> Result<Seq<Value>, NoMemory>
    ensures { IfOk result (λ values. values ≡ filter_map value_held (map held_by held)) }
{
    let mut values = Seq::new(alloc);
    for one in held.into_vec() {
        put_value(one, &mut values)?;
    }
    Ok(values)
}

/// Puts what a slot holds behind the others, if it is an object.
fn put_partner(held: &HeldValue, partners: &mut Seq<ObjId>) -> Result<(), NoMemory>
    ensures { OnOk result (map (λ b. b.0) partners.new ≡ map (λ b. b.0) partners.old ++ option_to_list (partner_held (held_by held.now))) }
{
    match held {
        HeldValue::Object(object) => partners.push(*object),
        HeldValue::Datum(_) => Ok(()),
    }
}

/// The objects among what a slot holds.
fn partners_among(alloc: Global, held: &[HeldValue]) -> Result<Seq<ObjId>, NoMemory>
    ensures { IfOk result (λ partners. map (λ b. b.0) partners ≡ filter_map partner_held (map held_by held.now)) }
{
    let mut partners = Seq::new(alloc);
    for one in held {
        put_partner(one, &mut partners)?;
    }
    Ok(partners)
}

/// What the slots of the model hold that is made, with fresh objects for these terms of a table (QVT 1.3, section 7.2 on enforcement).
#[derive(Drop)]
pub(crate) struct MadeSlots<'r, 'm, 'd> {
    pub(crate) alloc: Global,
    pub(crate) repair: Repair<'r, 'm, 'd>,
    pub(crate) table: &'r TermTable,
    pub(crate) fresh: &'r [usize],
    ghost few: { length fresh.now + length repair.target.now.objects ≤ 2 ^ 64 },
}

impl Contents for MadeSlots<'_, '_, '_> {
    ghost use Rattle.made_objects.specs.Making.{made_of};

    ghost held = { λ s. made_of s.repair.program.now s.repair.target.now s.repair.staying.now s.repair.claims.now s.table.now s.fresh.now };

    fn values(&self, o: ObjId, p: PropId) -> Result<Seq<Value>, NoMemory> {
        let held = contents(self.alloc, &self.repair, o, p)?;
        values_among(self.alloc, held)
    }

    fn partners(&self, o: ObjId, p: PropId) -> Result<Seq<ObjId>, NoMemory> {
        let held = contents(self.alloc, &self.repair, o, p)?;
        let partners = partners_among(self.alloc, held.as_slice());
        drop(held);
        partners
    }
}
