//! E7: no class of the target's metamodel conforms to two classes that have keys (QVT 1.3, section 7.10.2). From each class that has a key
//! the classes below it are marked with it. No class is marked twice, so each superclass that is written is looked at once at most.
ghost use Rattle.std.specs.Prelude.{◌≡◌, ◌<◌, ◌++◌, ◌↔◌, ℕ, List, [], None, length, replicate, Contains, IfOk, OnOk, IsTrue};
ghost use Rattle.mof_metamodel.specs.declared.desc.MetaDesc.{MetaDesc};
ghost use Rattle.mof_metamodel.specs.Metamodels.{class_count, supers_of};
ghost use Rattle.mof_metamodel.specs.Tables.{class_numbers};
ghost use Rattle.qv_syntax.specs.declared.program.Key.{Key};
ghost use Rattle.ocl_environments.specs.Environments.{meta_at};
ghost use Rattle.enforcement_rules.specs.Edges.{edges_to};
ghost use Rattle.enforcement_rules.specs.Keys.{HasTwoKeys};
ghost use Rattle.enforcement_rules.specs.KeyTables.{IsKeyWithin};
ghost use Rattle.enforcement_rules.specs.TargetParts.{target_meta};
ghost use Rattle.enforcement_rules.specs.TwoKeys.{AreBelowEdges, AreBelow, keyed_class, keyed_classes, own_pairs, mark_at, marked, more_pending, has_other, IsMarkable, IsMarking, MeetsTwo};

use crate::edges::{put_edges_to, rows_of};
use mof_metamodel::{ClassId, MetaModel, NoMemory, Seq};
use ocl_environments::Metas;
use qv_syntax::{Key, Program};
use std::alloc::Global;

// ---- the classes below each

/// The numbers of classes.
fn put_numbers(classes: &[ClassId], out: &mut Seq<u32>) -> Result<(), NoMemory>
    ensures { OnOk result (out.new ≡ out.old ++ class_numbers classes.now) }
{
    for c in classes {
        out.push(c.0)?;
    }
    Ok(())
}

/// Edges from the superclasses that a class writes.
fn put_class(
    alloc: Global,
    meta: &MetaModel,
    c: u32,
    edges: &mut Seq<(u32, u32)>,
) -> Result<(), NoMemory>
    requires { c < class_count meta.now }
    ensures { OnOk result (edges.new ≡ edges.old ++ edges_to c (supers_of meta.now c)) }
{
    let mut supers = Seq::new(alloc);
    put_numbers(meta.supers(ClassId(c)), &mut supers)?;
    put_edges_to(c, supers.as_slice(), edges)
}

/// Edges from superclasses to the classes that write them.
fn edges_below(alloc: Global, meta: &MetaModel, count: u32) -> Result<Seq<(u32, u32)>, NoMemory>
    requires { count ≡ class_count meta.now }
    ensures { IfOk result (AreBelowEdges meta.now count) }
{
    let mut edges = Seq::new(alloc);
    for c in 0..count {
        put_class(alloc, meta, c, &mut edges)?;
    }
    Ok(edges)
}

/// For each class those that write it as a superclass.
fn classes_below(alloc: Global, meta: &MetaModel) -> Result<Vec<Seq<u32>>, NoMemory>
    ensures { IfOk result (λ below. AreBelow meta.now below.items) }
{
    let count = meta.class_count();
    let edges = edges_below(alloc, meta, count)?;
    rows_of(alloc, count as usize, edges.as_slice())
}

// ---- the classes that have keys

/// The class of a key, if it is one of the metamodel of this number.
fn put_keyed(number: u32, key: &Key, keyed: &mut Seq<u32>) -> Result<(), NoMemory>
    ensures { OnOk result (keyed.new ≡ keyed.old ++ keyed_class number key.now) }
{
    if key.meta == number {
        return keyed.push(key.class.0);
    }
    Ok(())
}

/// The classes of keys, those of the metamodel of this number.
fn keyed_classes(alloc: Global, number: u32, keys: &[Key]) -> Result<Seq<u32>, NoMemory>
    ensures { IfOk result (λ keyed. keyed ≡ keyed_classes number keys.now) }
{
    let mut keyed = Seq::new(alloc);
    for key in keys {
        put_keyed(number, key, &mut keyed)?;
    }
    Ok(keyed)
}

/// Each class with itself.
fn own_pairs(alloc: Global, keyed: &[u32]) -> Result<Seq<(u32, u32)>, NoMemory>
    ensures { IfOk result (λ pending. pending ≡ own_pairs keyed.now) }
{
    let mut pending = Seq::new(alloc);
    for k in keyed {
        pending.push((*k, *k))?;
    }
    Ok(pending)
}

// ---- marks

/// For each of so many classes that it is known to conform to none that has a key.
fn no_marks(alloc: Global, count: usize) -> Result<Vec<Option<u32>>, NoMemory>
    ensures { IfOk result (λ marks. marks.items ≡ replicate count None) }
{
    let mut marks = Vec::new(alloc);
    for _i in 0..count {
        marks.push(None)?;
    }
    Ok(marks)
}

/// Marks a class with one that has a key, to which it conforms. The classes below it conform to that, too. It tells whether the class has
/// another mark already.
fn mark(
    below: &[Seq<u32>],
    marks: &mut [Option<u32>],
    pending: &mut Seq<(u32, u32)>,
    next: (u32, u32),
) -> Result<bool, NoMemory>
    requires class { next.0 < length marks.old }
    requires below { length below.now ≡ length marks.old }
    ensures other { IfOk result (λ b. b ≡ has_other next.1 (mark_at marks.old next.0)) }
    ensures marks { OnOk result (marks.new ≡ marked marks.old next.0 next.1 (mark_at marks.old next.0)) }
    ensures pending { OnOk result (pending.new ≡ more_pending below.now pending.old next.0 next.1 (mark_at marks.old next.0)) }
{
    let (c, keyed) = next;
    match marks[c as usize] {
        Some(other) => Ok(other != keyed),
        None => {
            marks[c as usize] = Some(keyed);
            put_edges_to(keyed, below[c as usize].as_slice(), pending)?;
            Ok(false)
        }
    }
}

/// Whether a class conforms to two that have keys, by what is still to be marked.
fn meets_two(
    below: &[Seq<u32>],
    marks: &mut [Option<u32>],
    pending: &mut Seq<(u32, u32)>,
) -> Result<bool, NoMemory>
    requires { IsMarkable below.now marks.old pending.old }
    ensures { IfOk result (λ b. (desc : MetaDesc) (keyed : List ℕ) → AreBelow desc below.now → IsMarking desc keyed marks.old pending.old → IsTrue b ↔ MeetsTwo desc keyed) }
{
    while let Some(next) = pending.pop() {
        let other = mark(below, marks, pending, next)?;
        if other {
            return Ok(true);
        }
    }
    Ok(false)
}

/// Whether a class conforms to two of the classes that have keys.
fn meets_two_of(alloc: Global, meta: &MetaModel, keyed: &[u32]) -> Result<bool, NoMemory>
    requires { (k : ℕ) → Contains keyed.now k → k < class_count meta.now }
    ensures { IfOk result (λ b. IsTrue b ↔ MeetsTwo meta.now keyed.now) }
{
    let below = classes_below(alloc, meta)?;
    let mut marks = no_marks(alloc, below.len())?;
    let mut pending = own_pairs(alloc, keyed)?;
    meets_two(below.as_slice(), marks.as_mut_slice(), &mut pending)
}

/// E7, broken: whether a class of the metamodel of this number conforms to two that have keys.
pub(crate) fn has_two_keys(
    alloc: Global,
    program: &Program,
    metas: &Metas,
    number: u32,
) -> Result<bool, NoMemory>
    requires meta { number < length metas.now }
    requires target { number ≡ target_meta program.now }
    requires keys { (key : Key) → Contains program.now.keys key → IsKeyWithin (meta_at metas.now number) number (class_count (meta_at metas.now number)) key }
    ensures { IfOk result (λ b. IsTrue b ↔ HasTwoKeys metas.now program.now) }
{
    let keyed = keyed_classes(alloc, number, program.keys.as_slice())?;
    meets_two_of(alloc, metas.get(number), keyed.as_slice())
}
