ghost use Rattle.std.specs.Prelude.{◌≡◌, ◌≢◌, ◌++◌, [], IfOk, OnOk, All, map, Err};
ghost use Rattle.std.specs.List.{flat_map};
ghost use Rattle.mof_metamodel.specs.Giving.{Gives};
ghost use Rattle.ocl_environments.specs.Written.{IfFault, fault_in, written};
ghost use Rattle.ocl_environments.specs.Outcomes.{wrong_type as wrong};
ghost use Rattle.ocl_types.specs.TypingScopes.{element as element_of};
ghost use Rattle.script_scopes.specs.FirstEntries.{entries_onto, first_entries};
ghost use Rattle.script_scopes.specs.VariableTypes.{shown_written, single_type as single, written_typing, HasSingle, IsWrittenFault, IsAgreed, IsOtherThan, IsOtherClass, AreTyped, StandsInTypes, class_in, written_types as types_written, declared_types as types_declared, variable_types as types_of_variables};

use mof_metamodel::{MetaModel, NameTable, NoMemory, Seq, Text};
use ocl_environments::{Env, TypeError, written_type, wrong_type};
use qv_syntax::{RelationTree, Ty, TypeTree};
use script_scopes::{ModelNames, WrittenType, put_first, template_types, written_types};
use std::alloc::Global;

/// Refuses a type that is a collection.
fn refuse_collection(alloc: Global, metas: &[MetaModel], ty: &Ty) -> Result<(), TypeError>
    ensures { Gives fault_in (λ u. ty.now) result (element_of metas.now ty.now) }
{
    match ty {
        Ty::Coll(_, inner) => Err(TypeError::Fault(wrong_type(alloc, metas, inner.get(), ty)?)),
        _ => Ok(()),
    }
}

/// The type that is written for a variable of a relation: no collection.
fn single_type(alloc: Global, env: &Env<'_>, tree: &TypeTree) -> Result<Ty, TypeError>
    ensures { Gives fault_in (λ x. x) result (single env.now tree.now) }
{
    let ty = written_type(alloc, env, tree)?;
    refuse_collection(alloc, env.metas(), &ty)?;
    Ok(ty)
}

/// Puts a variable with the type that is written for it behind others.
fn add_typing(
    alloc: Global,
    env: &Env<'_>,
    written: &WrittenType<'_>,
    out: &mut Seq<(Text, Ty)>,
) -> Result<(), TypeError>
    ensures typed { OnOk result (out.new ≡ out.old ++ written_typing env.now (shown_written written.now)) }
    ensures single { OnOk result (HasSingle env.now (shown_written written.now)) }
    ensures fault { IfFault result (λ f. single env.now written.now.tree.now ≡ Err f) }
{
    let ty = single_type(alloc, env, written.tree)?;
    let name = written.name.duplicate(alloc)?;
    Ok(out.push((name, ty))?)
}

/// The same of variables one behind the other.
fn add_typings(
    alloc: Global,
    env: &Env<'_>,
    written: &[WrittenType<'_>],
    out: &mut Seq<(Text, Ty)>,
) -> Result<(), TypeError>
    ensures typed { OnOk result (out.new ≡ out.old ++ flat_map (written_typing env.now) (map shown_written written.now)) }
    ensures single { OnOk result (All (HasSingle env.now) (map shown_written written.now)) }
    ensures fault { IfFault result (IsWrittenFault env.now (map shown_written written.now)) }
{
    for w in written {
        add_typing(alloc, env, w, out)?;
    }
    Ok(())
}

/// Puts names with types behind those of a table: the first of each name stays.
fn put_types(
    alloc: Global,
    typings: &[(Text, Ty)],
    table: &mut NameTable<Ty>,
) -> Result<(), NoMemory>
    ensures { OnOk result (table.new ≡ entries_onto table.old typings.now) }
{
    for typing in typings {
        let name = typing.0.duplicate(alloc)?;
        let ty = typing.1.duplicate(alloc)?;
        put_first(table, name, ty)?;
    }
    Ok(())
}

/// Refuses a class in the place of another type.
fn refuse_class(alloc: Global, metas: &[MetaModel], ty: &Ty, class: &Ty) -> Result<(), TypeError>
    ensures agreed { OnOk result (ty.now ≡ class.now) }
    ensures fault { IfFault result (λ f. (ty.now ≢ class.now) × (f ≡ wrong metas.now ty.now class.now)) }
{
    if ty.same(class) {
        return Ok(());
    }
    Err(TypeError::Fault(wrong_type(alloc, metas, ty, class)?))
}

/// Refuses another class where a template's variable has a declared type.
fn refuse_one(
    alloc: Global,
    metas: &[MetaModel],
    declared: &NameTable<Ty>,
    name: &Text,
    class: &Ty,
) -> Result<(), TypeError>
    ensures agreed { OnOk result (IsAgreed declared.now (name.now, class.now)) }
    ensures fault { IfFault result (IsOtherThan metas.now declared.now (name.now, class.now)) }
{
    match declared.get(name.as_str()) {
        Some(ty) => refuse_class(alloc, metas, ty, class),
        None => Ok(()),
    }
}

/// The same of all variables of templates.
fn refuse_other(
    alloc: Global,
    metas: &[MetaModel],
    declared: &NameTable<Ty>,
    classes: &[(Text, Ty)],
) -> Result<(), TypeError>
    ensures agreed { OnOk result (All (IsAgreed declared.now) classes.now) }
    ensures fault { IfFault result (IsOtherClass metas.now declared.now classes.now) }
{
    for class in classes {
        refuse_one(alloc, metas, declared, &class.0, &class.1)?;
    }
    Ok(())
}

/// The types that a relation writes for its variables, as a table.
fn declared_types(
    alloc: Global,
    env: &Env<'_>,
    r: &RelationTree,
) -> Result<NameTable<Ty>, TypeError>
    ensures types { IfOk result (λ types. types ≡ first_entries (types_declared env.now r.now)) }
    ensures single { OnOk result (All (HasSingle env.now) (types_written r.now)) }
    ensures fault { IfFault result (IsWrittenFault env.now (types_written r.now)) }
{
    let written = written_types(alloc, r)?;
    let listed = written.as_slice();
    let mut typings = Seq::new(alloc);
    add_typings(alloc, env, listed, &mut typings)?;
    let mut table = NameTable::new(alloc);
    put_types(alloc, typings.as_slice(), &mut table)?;
    Ok(table)
}

/// Refuses another class where a template's variable has a declared type, and puts the others behind these.
fn put_classes(
    alloc: Global,
    metas: &[MetaModel],
    classes: &[(Text, Ty)],
    types: &mut NameTable<Ty>,
) -> Result<(), TypeError>
    ensures types { OnOk result (types.new ≡ entries_onto types.old classes.now) }
    ensures agreed { OnOk result (All (IsAgreed types.old) classes.now) }
    ensures fault { IfFault result (IsOtherClass metas.now types.old classes.now) }
{
    refuse_other(alloc, metas, types, classes)?;
    Ok(put_types(alloc, classes, types)?)
}

/// The types of a relation's variables: those that are written, and the classes of its templates (QVT 1.3, sections 7.11.1.4 and 7.11.2).
pub(crate) fn variable_types(
    alloc: Global,
    env: &Env<'_>,
    names: &ModelNames,
    r: &RelationTree,
) -> Result<NameTable<Ty>, TypeError>
    ensures types { IfOk result (λ types. types ≡ types_of_variables env.now (class_in env.now.metas names.now) r.now) }
    ensures typed { OnOk result (AreTyped env.now (class_in env.now.metas names.now) r.now) }
    ensures fault { IfFault result (StandsInTypes env.now (class_in env.now.metas names.now) r.now) }
{
    let mut types = declared_types(alloc, env, r)?;
    let classes = template_types(alloc, env.metas(), names, r)?;
    put_classes(alloc, env.metas(), classes.as_slice(), &mut types)?;
    Ok(types)
}
