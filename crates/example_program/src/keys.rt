//! The keys of the target's classes.
ghost use Rattle.std.specs.Prelude.{◌≡◌, [], ◌∷◌, ◌++◌, IfOk, OnOk};
ghost use Rattle.example_program.specs.Words.{key_of};
ghost use Rattle.example_program.specs.MainProgram.{main_keys};

use crate::models::TARGET;
use mof_metamodel::{ClassId, NoMemory, PropId, Seq, or_drop};
use qv_syntax::Key;
use std::alloc::Global;

/// Puts a key of the properties with these numbers behind others.
fn push_key(keys: &mut Seq<Key>, class: u32, props: Seq<PropId>) -> Result<(), NoMemory>
    ensures { OnOk result (keys.new ≡ keys.old ++ record { meta = 1; class = record { 0 = class }; props = props } ∷ []) }
{
    keys.push(Key {
        meta: TARGET,
        class: ClassId(class),
        props,
    })
}

/// The keys of the transformation.
pub(crate) fn main_keys(alloc: Global) -> Result<Seq<Key>, NoMemory>
    ensures { IfOk result (λ keys. keys ≡ main_keys) }
{
    let mut keys = Seq::new(alloc);
    let name = or_drop!(Seq::from_slice(alloc, &[PropId(0)]); keys);
    or_drop!(push_key(&mut keys, 1, name); keys);
    let schema_and_name = or_drop!(Seq::from_slice(alloc, &[PropId(2), PropId(0)]); keys);
    or_drop!(push_key(&mut keys, 2, schema_and_name); keys);
    let table_and_name = or_drop!(Seq::from_slice(alloc, &[PropId(6), PropId(0)]); keys);
    or_drop!(push_key(&mut keys, 3, table_and_name); keys);
    Ok(keys)
}
