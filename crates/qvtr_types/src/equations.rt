//! Which conjuncts of a clause are equations (QVT 1.3, section 7.11.1.4).
ghost use Rattle.std.specs.Prelude.{◌≡◌, ◌&&◌, not, Some, map, IfOk, OnOk};
ghost use Rattle.std.specs.Option.{option_map};
ghost use Rattle.std.specs.Set.{is_member};
ghost use Rattle.mof_metamodel.specs.Characters.{same_name};
ghost use Rattle.script_scopes.specs.Usages.{variables_in};
ghost use Rattle.qvtr_types.specs.Equations.{unless_named as unnamed, given_by as given, with_given, taken, first_given as first, equation_behind as behind, is_data_named as data_named, equation_test};

use mof_metamodel::{NameTable, NoMemory, Seq, Text};
use qv_syntax::{Expr, Var};
use script_scopes::{add_new, add_variables, equation_of, is_class, is_given, is_sought};
use std::alloc::Global;

/// The variables of a relation: their numbers by their names, themselves by their numbers, and the names of the universal ones.
#[derive(Clone, Copy)]
pub(crate) struct Variables<'a> {
    pub numbers: &'a NameTable<u32>,
    pub vars: &'a [Var],
    pub universal: &'a NameTable<u32>,
}

/// Whether an expression names a variable.
fn names_variable(alloc: Global, e: &Expr, name: &Text) -> Result<bool, NoMemory>
    ensures { IfOk result (λ named. named ≡ is_member same_name (variables_in e.now) name.now) }
{
    let mut names = Seq::new(alloc);
    add_variables(alloc, e, &mut names)?;
    Ok(is_given(names.as_slice(), name))
}

/// An equation, unless its expression names its variable.
fn unless_named<'a>(
    alloc: Global,
    said: (&'a Text, &'a Expr),
) -> Result<Option<(&'a Text, &'a Expr)>, NoMemory>
    ensures { IfOk result (λ o. option_map (λ p. (p.0.now, p.1.now)) o ≡ unnamed (Some (said.entry.0.now, said.entry.1.now))) }
{
    let (name, value) = said;
    if names_variable(alloc, value, name)? {
        return Ok(None);
    }
    Ok(Some((name, value)))
}

/// The variable that a conjunct gives by an expression that doesn't name it, and the expression.
fn given_by<'a>(alloc: Global, conjunct: &'a Expr) -> Result<Option<(&'a Text, &'a Expr)>, NoMemory>
    ensures { IfOk result (λ o. option_map (λ p. (p.0.now, p.1.now)) o ≡ given conjunct.now) }
{
    match equation_of(conjunct) {
        Some(said) => unless_named(alloc, said),
        None => Ok(None),
    }
}

/// Whether a name is that of a data variable.
fn is_data_named(variables: &Variables<'_>, name: &Text) -> bool
    ensures { result ≡ data_named (map (λ e. e.0) variables.now.numbers.now) variables.now.vars.now name.now }
{
    match variables.numbers.find(name) {
        Some((place, _)) => place < variables.vars.len() && !is_class(&variables.vars[place].ty),
        None => false,
    }
}

/// Whether a variable has an equation in a clause: one of data, which is universal or else existential.
fn has_equation(variables: &Variables<'_>, wanted: bool, name: &Text) -> bool
    ensures { result ≡ equation_test variables.now wanted name.now }
{
    is_data_named(variables, name) && is_sought(variables.universal, wanted, name)
}

/// Whether a variable has an equation here, and isn't met.
fn is_first(variables: &Variables<'_>, wanted: bool, met: &NameTable<u32>, name: &Text) -> bool
    ensures { result ≡ (equation_test variables.now wanted name.now && not (is_member same_name (map (λ e. e.0) met.now) name.now)) }
{
    has_equation(variables, wanted, name) && !met.contains(name)
}

/// An equation, if it is one.
fn equation_if<'a>(first: bool, said: (&'a Text, &'a Expr)) -> Option<(&'a Text, &'a Expr)>
    ensures { option_map (λ p. (p.0.now, p.1.now)) result ≡ taken first (said.entry.0.now, said.entry.1.now) }
{
    if first { Some(said) } else { None }
}

/// The equation, where a conjunct gives a variable that has one here first. Then the variable is met.
fn first_given<'a>(
    alloc: Global,
    variables: &Variables<'_>,
    wanted: bool,
    met: &mut NameTable<u32>,
    said: (&'a Text, &'a Expr),
) -> Result<Option<(&'a Text, &'a Expr)>, NoMemory>
    ensures equation { IfOk result (λ o. option_map (λ p. (p.0.now, p.1.now)) o ≡ first (equation_test variables.now wanted) (map (λ e. e.0) met.old) (Some (said.entry.0.now, said.entry.1.now))) }
    ensures met { OnOk result (map (λ e. e.0) met.new ≡ with_given (map (λ e. e.0) met.old) (Some (said.entry.0.now, said.entry.1.now))) }
{
    let first = is_first(variables, wanted, met, said.0);
    add_new(met, said.0.duplicate(alloc)?)?;
    Ok(equation_if(first, said))
}

/// The equation, if a conjunct is one behind those that give the variables that are met. Then that is met too which it gives.
pub(crate) fn next_equation<'a>(
    alloc: Global,
    variables: &Variables<'_>,
    wanted: bool,
    met: &mut NameTable<u32>,
    conjunct: &'a Expr,
) -> Result<Option<(&'a Text, &'a Expr)>, NoMemory>
    ensures equation { IfOk result (λ o. option_map (λ p. (p.0.now, p.1.now)) o ≡ behind (equation_test variables.now wanted) (map (λ e. e.0) met.old) conjunct.now) }
    ensures met { OnOk result (map (λ e. e.0) met.new ≡ with_given (map (λ e. e.0) met.old) (given conjunct.now)) }
{
    match given_by(alloc, conjunct)? {
        Some(said) => first_given(alloc, variables, wanted, met, said),
        None => Ok(None),
    }
}
