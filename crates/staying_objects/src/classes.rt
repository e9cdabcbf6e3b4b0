//! The classes of which enforcement makes objects.
ghost use Rattle.std.specs.Prelude.{◌≡◌, ◌++◌, map, length, IfOk, OnOk};
ghost use Rattle.std.specs.List.{flat_map};
ghost use Rattle.std.specs.Option.{option_map, option_to_list};
ghost use Rattle.mof_metamodel.specs.Tables.{class_numbers, table};
ghost use Rattle.qvtr_semantics.specs.Objects.{is_number_among};
ghost use Rattle.repair_semantics.specs.TargetItems.{class_in, class_of_variable, nested_variables};
ghost use Rattle.repair_semantics.specs.Deletions.{classes_in, managed_classes};
ghost use Rattle.staying_objects.specs.Classes.{class_if, classes_among};

use crate::nested::target_variables;
use mof_metamodel::{ClassId, NoMemory, Seq};
use qv_syntax::{Program, Rel, Ty};
use std::alloc::Global;
use template_match::marks::{is_marked, variable_marks};

/// The class that a type is.
fn class_in(ty: &Ty) -> Option<ClassId>
    ensures { option_map (λ c. c.0) result ≡ class_in ty.now }
{
    match ty {
        Ty::Class(_, class) => Some(*class),
        _ => None,
    }
}

/// The class of an object variable.
fn class_of_variable(rel: &Rel, variable: u32) -> Option<ClassId>
    ensures { option_map (λ c. c.0) result ≡ class_of_variable rel.now variable }
{
    match rel.vars.as_slice().get(variable as usize) {
        Some(var) => class_in(&var.ty),
        None => None,
    }
}

/// Puts the class of a variable behind others, if it is an object variable that is marked.
fn put_class(
    rel: &Rel,
    marks: &[bool],
    variable: u32,
    out: &mut Seq<ClassId>,
) -> Result<(), NoMemory>
    ensures { OnOk result (class_numbers out.new ≡ class_numbers out.old ++ class_if rel.now marks.now variable) }
{
    if !is_marked(marks, variable) {
        return Ok(());
    }
    match class_of_variable(rel, variable) {
        Some(class) => out.push(class),
        None => Ok(()),
    }
}

/// The same of variables.
fn put_classes(
    rel: &Rel,
    marks: &[bool],
    variables: &[u32],
    out: &mut Seq<ClassId>,
) -> Result<(), NoMemory>
    ensures { OnOk result (class_numbers out.new ≡ class_numbers out.old ++ classes_among rel.now marks.now variables.now) }
{
    for variable in variables {
        put_class(rel, marks, *variable, out)?;
    }
    Ok(())
}

/// Puts the classes of which a relation makes objects behind others.
fn put_relation(
    alloc: Global,
    program: &Program,
    rel: &Rel,
    out: &mut Seq<ClassId>,
) -> Result<(), NoMemory>
    ensures { OnOk result (class_numbers out.new ≡ class_numbers out.old ++ classes_in program.now rel.now (nested_variables program.now rel.now)) }
{
    if !rel.in_direction {
        return Ok(());
    }
    let existential = variable_marks(alloc, rel.vars.len(), rel.existential.as_slice())?;
    let variables = target_variables(alloc, program, rel)?;
    put_classes(rel, existential.as_slice(), variables.as_slice(), out)
}

/// The classes of which enforcement makes objects (QVT 1.3, section 7.2): those of target templates of the direction whose variables are
/// existential, each as often as it stands there. In the number of the variables of relations and of the items of templates.
///
/// # Errors
///
/// `NoMemory` where memory runs out.
pub fn managed_classes(alloc: Global, program: &Program) -> Result<Seq<ClassId>, NoMemory>
    ensures { IfOk result (λ found. map (λ c. c.0) found ≡ managed_classes program.now) }
{
    let mut classes = Seq::new(alloc);
    for rel in program.rels.as_slice() {
        put_relation(alloc, program, rel, &mut classes)?;
    }
    Ok(classes)
}
