ghost use Rattle.std.specs.Prelude.{◌≡◌, ◌++◌, chars, codes, IfOk, OnOk};
ghost use Rattle.mof_metamodel.specs.Metamodels.{class_at, enum_at};
ghost use Rattle.ocl_environments.specs.Environments.{meta_at};
ghost use Rattle.ocl_environments.specs.Naming.{kind_text, type_text as type_text_of, behind_colons, texts_of, path_text as path_text_of};

use crate::metas::Metas;
use mof_metamodel::{ClassId, EnumId, MetaModel, NoMemory, Text};
use qv_syntax::{Kind, Name, Path, Ty};
use std::alloc::Global;

/// Puts names at the end, each behind `::`.
fn push_names(text: &mut Text, names: &[Name]) -> Result<(), NoMemory>
    ensures { OnOk result (text.new ≡ text.old ++ behind_colons (texts_of names.now)) }
{
    for name in names {
        push_name(text, name)?;
    }
    Ok(())
}

/// Puts a name at the end, behind `::`.
#[tactic(auto, using(crate::proofs::NamingLaws::colons_characters, crate::proofs::NamingLaws::joined))]
fn push_name(text: &mut Text, name: &Name) -> Result<(), NoMemory>
    ensures { OnOk result (text.new ≡ text.old ++ (codes "::" ++ name.now.text)) }
{
    text.push_str("::")?;
    text.push_str(name.text.as_str())
}

/// The text of a path, as it is written.
pub fn path_text(alloc: Global, path: &Path) -> Result<Text, NoMemory>
    ensures { IfOk result (λ t. t ≡ path_text_of path.now) }
{
    match path.names.as_slice() {
        [] => Text::new(alloc, ""),
        [first, rest @ ..] => {
            let mut text = first.text.duplicate(alloc)?;
            push_names(&mut text, rest)?;
            Ok(text)
        }
    }
}

/// The name of a kind of collection.
#[tactic(auto, using(crate::proofs::NamingLaws::set_characters, crate::proofs::NamingLaws::bag_characters, crate::proofs::NamingLaws::sequence_characters, crate::proofs::NamingLaws::ordered_set_characters))]
pub fn kind_name(kind: Kind) -> &'static str
    ensures { chars result.now ≡ kind_text kind }
{
    match kind {
        Kind::Set => "Set",
        Kind::Bag => "Bag",
        Kind::Sequence => "Sequence",
        Kind::OrderedSet => "OrderedSet",
    }
}

/// The text of a type: as it is written, classes and enumerations by their names, and `Null` for the type of null. A
/// class or an enumeration that isn't there has no name.
pub fn type_text(alloc: Global, metas: &Metas, ty: &Ty) -> Result<Text, NoMemory>
    ensures { IfOk result (λ t. t ≡ type_text_of metas.now ty.now) }
{
    text_of(alloc, metas.as_slice(), ty)
}

/// The name of a class of a metamodel, if it is there.
#[tactic(auto, using(crate::proofs::NamingLaws::empty_characters, crate::proofs::NamingLaws::no_class_name))]
fn class_name(alloc: Global, meta: &MetaModel, c: ClassId) -> Result<Text, NoMemory>
    ensures { IfOk result (λ t. t ≡ (class_at meta.now c.0).name) }
{
    if c.0 >= meta.class_count() {
        return Text::new(alloc, "");
    }
    Text::new(alloc, meta.class_name(c))
}

/// The name of a class, if its metamodel is there.
#[tactic(auto, using(crate::proofs::NamingLaws::empty_characters, crate::proofs::NamingLaws::no_meta_class_name))]
fn class_text(alloc: Global, metas: &[MetaModel], m: u32, c: ClassId) -> Result<Text, NoMemory>
    ensures { IfOk result (λ t. t ≡ (class_at (meta_at metas.now m) c.0).name) }
{
    let m = m as usize;
    if m >= metas.len() {
        return Text::new(alloc, "");
    }
    class_name(alloc, &metas[m], c)
}

/// The name of an enumeration of a metamodel, if it is there.
#[tactic(auto, using(crate::proofs::NamingLaws::empty_characters, crate::proofs::NamingLaws::no_enum_name))]
fn enum_name(alloc: Global, meta: &MetaModel, e: EnumId) -> Result<Text, NoMemory>
    ensures { IfOk result (λ t. t ≡ (enum_at meta.now e.0).name) }
{
    if e.0 >= meta.enum_count() {
        return Text::new(alloc, "");
    }
    Text::new(alloc, meta.enum_name(e))
}

/// The name of an enumeration, if its metamodel is there.
#[tactic(auto, using(crate::proofs::NamingLaws::empty_characters, crate::proofs::NamingLaws::no_meta_enum_name))]
fn enum_text(alloc: Global, metas: &[MetaModel], m: u32, e: EnumId) -> Result<Text, NoMemory>
    ensures { IfOk result (λ t. t ≡ (enum_at (meta_at metas.now m) e.0).name) }
{
    let m = m as usize;
    if m >= metas.len() {
        return Text::new(alloc, "");
    }
    enum_name(alloc, &metas[m], e)
}

/// The same, over a slice of metamodels.
pub(crate) fn text_of(alloc: Global, metas: &[MetaModel], ty: &Ty) -> Result<Text, NoMemory>
    ensures { IfOk result (λ t. t ≡ type_text_of metas.now ty.now) }
{
    match ty {
        Ty::Str => Text::new(alloc, "String"),
        Ty::Int => Text::new(alloc, "Integer"),
        Ty::Bool => Text::new(alloc, "Boolean"),
        Ty::Enum(m, e) => enum_text(alloc, metas, *m, *e),
        Ty::Class(m, c) => class_text(alloc, metas, *m, *c),
        Ty::Coll(kind, of) => {
            let inner = text_of(alloc, metas, of.get())?;
            collection_text(alloc, *kind, &inner)
        }
        Ty::Null => Text::new(alloc, "Null"),
    }
}

/// The text of a collection type, of that of its elements.
#[tactic(auto, using(crate::proofs::NamingLaws::enclosed))]
fn collection_text(alloc: Global, kind: Kind, inner: &Text) -> Result<Text, NoMemory>
    ensures { IfOk result (λ t. t ≡ kind_text kind ++ codes "(" ++ inner.now ++ codes ")") }
{
    let mut text = Text::new(alloc, kind_name(kind))?;
    text.push('(')?;
    text.push_str(inner.as_str())?;
    text.push(')')?;
    Ok(text)
}
