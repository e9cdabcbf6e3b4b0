ghost use Rattle.std.specs.Prelude.{◌≡◌, ◌++◌, ◌∷◌, [], slice_index_or, IfOk, OnOk, All, map};
ghost use Rattle.std.specs.List.{flat_map};
ghost use Rattle.std.specs.Option.{option_map};
ghost use Rattle.mof_metamodel.specs.Characters.{same_name};
ghost use Rattle.mof_metamodel.specs.Metamodels.{class_number};
ghost use Rattle.ocl_environments.specs.Environments.{meta_at};
ghost use Rattle.ocl_environments.specs.Naming.{texts_of};
ghost use Rattle.ocl_environments.specs.Written.{IfFault};
ghost use Rattle.script_scopes.specs.Environments.{slots_of as slots, metamodel_names as metamodels};
ghost use Rattle.script_scopes.specs.Declarations.{template_class as class_of_template};
ghost use Rattle.script_scopes.specs.BorrowedPieces.{shown_variable};
ghost use Rattle.script_scopes.specs.LocatedPieces.{shown_located, located as all_located};
ghost use Rattle.script_scopes.specs.FirstEntries.{first_entries};
ghost use Rattle.script_scopes.specs.VariableTypes.{metamodel_numbers as numbers, class_in, object_typing, class_typing, HasClass, LacksClass, IsClassFault, template_types as types_of_templates};

use crate::first_names::put_first;
use crate::located::{LocatedPiece, located_pieces};
use crate::names::is_name;
use crate::occurrences::variable_text;
use crate::piece::{BorrowedPiece, VariableName};
use crate::script_names::{metamodel_names, slots_of};
use mof_metamodel::{ClassId, MetaModel, NameTable, NoMemory, Seq, Text};
use ocl_environments::{TypeError, TypeFault, path_text};
use qv_syntax::{ModelSlot, Name, Path, RelationTree, Script, Ty};
use std::alloc::Global;

/// The models of a script, each with the number of its metamodel, and the names of the metamodels by their numbers.
#[derive(Drop)]
pub struct ModelNames {
    pub models: NameTable<u32>,
    pub metas: Seq<Text>,
}

/// Models with the numbers of their metamodels, as a table.
fn metamodel_numbers(alloc: Global, slots: &[ModelSlot]) -> Result<NameTable<u32>, NoMemory>
    ensures { IfOk result (λ table. table ≡ first_entries (numbers slots.now)) }
{
    let mut table = NameTable::new(alloc);
    for slot in slots {
        let name = slot.name.duplicate(alloc)?;
        put_first(&mut table, name, slot.meta)?;
    }
    Ok(table)
}

/// The models of a script and the names of its metamodels.
pub fn model_names(alloc: Global, script: &Script) -> Result<ModelNames, NoMemory>
    ensures models { IfOk result (λ names. names.models ≡ first_entries (numbers (slots script.now))) }
    ensures metas { IfOk result (λ names. names.metas ≡ metamodels script.now) }
{
    let slots = slots_of(alloc, script)?;
    let models = metamodel_numbers(alloc, slots.as_slice())?;
    let metas = metamodel_names(alloc, script)?;
    Ok(ModelNames { models, metas })
}

/// The class of this name in a metamodel.
fn class_named(metas: &[MetaModel], meta: u32, name: &Text) -> Option<ClassId>
    ensures { result ≡ option_map (λ c. record { 0 = c }) (class_number (meta_at metas.now meta) name.now) }
{
    let m = meta as usize;
    if m >= metas.len() {
        return None;
    }
    metas[m].class_named(name.as_str())
}

/// Whether the metamodel of this number has this name.
fn is_named(names: &[Text], meta: u32, name: &Text) -> bool
    ensures { result ≡ same_name name.now (slice_index_or names.now meta []) }
{
    let m = meta as usize;
    if m >= names.len() {
        return name.is_empty();
    }
    is_name(&names[m], name.as_str())
}

/// The class that a template's path names in a metamodel.
pub fn template_class(
    metas: &[MetaModel],
    names: &[Text],
    meta: u32,
    path: &[Name],
) -> Option<ClassId>
    ensures { result ≡ class_of_template metas.now names.now meta (texts_of path.now) }
{
    match path {
        [class] => class_named(metas, meta, &class.text),
        [qualifier, class] => {
            if !is_named(names, meta, &qualifier.text) {
                return None;
            }
            class_named(metas, meta, &class.text)
        }
        _ => None,
    }
}

/// The class that a template's path names in a domain of this model, with the number of its metamodel: one of that metamodel alone.
pub(crate) fn class_in_model(
    metas: &[MetaModel],
    names: &ModelNames,
    model: &Text,
    path: &Path,
) -> Option<(u32, ClassId)>
    ensures { result ≡ class_in metas.now names.now model.now path.now }
{
    let meta = *names.models.get(model.as_str())?;
    let class = template_class(metas, names.metas.as_slice(), meta, path.names.as_slice())?;
    Some((meta, class))
}

/// Puts a variable of a class behind others.
fn push_object(
    alloc: Global,
    variable: &VariableName<'_>,
    class: (u32, ClassId),
    out: &mut Seq<(Text, Ty)>,
) -> Result<(), NoMemory>
    ensures { OnOk result (out.new ≡ out.old ++ object_typing (shown_variable variable.now) class ∷ []) }
{
    let name = variable_text(alloc, variable)?;
    out.push((name, Ty::Class(class.0, class.1)))
}

/// Refuses a template whose path names no class, and puts its variable with its class behind others.
fn add_class(
    alloc: Global,
    metas: &[MetaModel],
    names: &ModelNames,
    located: &LocatedPiece<'_>,
    out: &mut Seq<(Text, Ty)>,
) -> Result<(), TypeError>
    ensures typed { OnOk result (out.new ≡ out.old ++ class_typing (class_in metas.now names.now) (shown_located located.now)) }
    ensures known { OnOk result (HasClass (class_in metas.now names.now) (shown_located located.now)) }
    ensures fault { IfFault result (LacksClass (class_in metas.now names.now) (shown_located located.now)) }
{
    match &located.piece {
        BorrowedPiece::Begins {
            variable,
            class,
            ..
        } => match class_in_model(metas, names, located.model, class) {
            Some(found) => Ok(push_object(alloc, variable, found, out)?),
            None => Err(TypeError::Fault(TypeFault::UnknownName(path_text(alloc, class)?))),
        },
        BorrowedPiece::Asks { .. } => Ok(()),
    }
}

/// The same of pieces one behind the other.
fn add_classes(
    alloc: Global,
    metas: &[MetaModel],
    names: &ModelNames,
    pieces: &[LocatedPiece<'_>],
    out: &mut Seq<(Text, Ty)>,
) -> Result<(), TypeError>
    ensures typed { OnOk result (out.new ≡ out.old ++ flat_map (class_typing (class_in metas.now names.now)) (map shown_located pieces.now)) }
    ensures known { OnOk result (All (HasClass (class_in metas.now names.now)) (map shown_located pieces.now)) }
    ensures fault { IfFault result (IsClassFault (class_in metas.now names.now) (map shown_located pieces.now)) }
{
    for piece in pieces {
        add_class(alloc, metas, names, piece, out)?;
    }
    Ok(())
}

/// The variables of a relation's templates with their classes, in the order of the text (QVT 1.3, section 7.11.2.2).
pub fn template_types(
    alloc: Global,
    metas: &[MetaModel],
    names: &ModelNames,
    r: &RelationTree,
) -> Result<Seq<(Text, Ty)>, TypeError>
    ensures typed { IfOk result (λ types. types ≡ types_of_templates (class_in metas.now names.now) r.now) }
    ensures known { OnOk result (All (HasClass (class_in metas.now names.now)) (all_located r.now)) }
    ensures fault { IfFault result (IsClassFault (class_in metas.now names.now) (all_located r.now)) }
{
    let pieces = located_pieces(alloc, r)?;
    let mut out = Seq::new(alloc);
    add_classes(alloc, metas, names, pieces.as_slice(), &mut out)?;
    Ok(out)
}
