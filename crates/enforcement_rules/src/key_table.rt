//! The keys of the classes of the target's metamodel (QVT 1.3, section 7.10.2).
ghost use Rattle.std.specs.Prelude.{◌≡◌, ◌<◌, ℕ, List, None, not, length, replicate, Contains, IfOk};
ghost use Rattle.std.specs.List.{list_any};
ghost use Rattle.mof_metamodel.specs.declared.desc.PropId.{PropId};
ghost use Rattle.mof_metamodel.specs.Metamodels.{class_count, prop_count};
ghost use Rattle.qv_syntax.specs.declared.program.Key.{Key};
ghost use Rattle.ocl_environments.specs.Navigation.{is_single};
ghost use Rattle.ocl_environments.specs.Environments.{meta_at};
ghost use Rattle.enforcement_rules.specs.KeyTests.{is_many_prop, AreKeyNumbers, IsKeyTable};
ghost use Rattle.enforcement_rules.specs.KeyTables.{with_key, with_keys, IsKeyWithin};
ghost use Rattle.enforcement_rules.specs.TargetParts.{target_meta};

use crate::class_key::ClassKey;
use mof_metamodel::{MetaModel, NoMemory, PropId};
use ocl_environments::Metas;
use qv_syntax::{Key, Program};
use std::alloc::Global;

/// Whether a bound is at most one.
fn is_single(upper: Option<u32>) -> bool
    ensures { result ≡ is_single upper }
{
    match upper {
        Some(n) => n <= 1,
        None => false,
    }
}

/// Whether a property may have several values.
fn is_many(meta: &MetaModel, p: PropId) -> bool
    requires { p.0 < prop_count meta.now }
    ensures { result ≡ is_many_prop meta.now p }
{
    !is_single(meta.bounds(p).1)
}

/// Whether one of the properties may.
fn any_many(meta: &MetaModel, props: &[PropId]) -> bool
    requires { (p : PropId) → Contains props.now p → p.0 < prop_count meta.now }
    ensures { result ≡ list_any (is_many_prop meta.now) props.now }
{
    for p in props {
        if is_many(meta, *p) {
            return true;
        }
    }
    false
}

/// Puts a key in the place of its class, if that is one of the metamodel of this number.
fn put_key(number: u32, meta: &MetaModel, k: usize, key: &Key, table: &mut [Option<ClassKey>])
    requires { IsKeyWithin meta.now number (length table.old) key.now }
    ensures { table.new ≡ with_key meta.now number k key.now table.old }
{
    if key.meta == number {
        table[key.class.0 as usize] = Some(ClassKey {
            key: k,
            is_many: any_many(meta, key.props.as_slice()),
        });
    }
}

/// The same of all keys.
fn put_keys(number: u32, meta: &MetaModel, keys: &[Key], table: &mut [Option<ClassKey>])
    requires { (key : Key) → Contains keys.now key → IsKeyWithin meta.now number (length table.old) key }
    ensures { table.new ≡ with_keys meta.now number 0 keys.now table.old }
{
    for k in 0..keys.len() {
        put_key(number, meta, k, &keys[k], table);
    }
}

/// No key, for each of so many classes.
fn no_keys(alloc: Global, count: u32) -> Result<Vec<Option<ClassKey>>, NoMemory>
    ensures { IfOk result (λ table. table.items ≡ replicate count None) }
{
    let mut table = Vec::new(alloc);
    for _i in 0..count {
        table.push(None)?;
    }
    Ok(table)
}

/// The key of each class of the metamodel of this number.
pub(crate) fn key_table(
    alloc: Global,
    program: &Program,
    metas: &Metas,
    number: u32,
) -> Result<Vec<Option<ClassKey>>, NoMemory>
    requires meta { number < length metas.now }
    requires target { number ≡ target_meta program.now }
    requires keys { (key : Key) → Contains program.now.keys key → IsKeyWithin (meta_at metas.now number) number (class_count (meta_at metas.now number)) key }
    ensures table { IfOk result (λ table. IsKeyTable metas.now program.now table.items) }
    ensures numbers { IfOk result (λ table. AreKeyNumbers program.now table.items) }
{
    let meta = metas.get(number);
    let mut table = no_keys(alloc, meta.class_count())?;
    put_keys(number, meta, program.keys.as_slice(), table.as_mut_slice());
    Ok(table)
}
