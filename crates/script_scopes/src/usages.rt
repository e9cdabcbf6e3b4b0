ghost use Rattle.std.specs.Prelude.{◌≡◌, ◌++◌, [], map, OnOk, if◌then◌else◌};
ghost use Rattle.std.specs.List.{flat_map};
ghost use Rattle.script_scopes.specs.Usages.{is_of as of_variable, without, named_usages, expr_usages, infix_usages, postfix_usages, args_usages, usages, is_nothing, is_extent as extent, is_all_instances as all_instances};

use crate::usage::Usage;
use mof_metamodel::{NoMemory, Seq, Text};
use qv_syntax::{Args, Expr, Infix, Path, Postfix};
use std::alloc::Global;

/// Whether it is a usage of this variable.
fn is_of(name: &Text, usage: &Usage) -> bool
    ensures { result ≡ of_variable name.now usage.now }
{
    match usage {
        Usage::Variable(other) => name == other,
        Usage::Call(_) => false,
    }
}

/// Puts usages, but for those of one variable, behind others.
fn append_without(name: &Text, inner: Seq<Usage>, out: &mut Seq<Usage>) -> Result<(), NoMemory>
    ensures { OnOk result (out.new ≡ out.old ++ without name.now inner) }
{
    for usage in inner.into_vec() {
        if !is_of(name, &usage) {
            out.push(usage)?;
        }
    }
    Ok(())
}

/// Whether a call is `.allInstances()`.
fn is_all_instances(call: &Postfix) -> bool
    ensures { result ≡ (postfix_usages call.now).is_extent }
{
    match call {
        Postfix::Dot { name, args, .. } => is_instances(&name.text) && is_empty(args),
        _ => false,
    }
}

/// Whether it is the name `allInstances`.
fn is_instances(name: &Text) -> bool
    ensures { result ≡ all_instances name.now }
{
    name.is("allInstances")
}

/// Whether there are no expressions.
fn is_none(exprs: &[Expr]) -> bool
    ensures { result ≡ is_nothing (map expr_usages exprs.now) }
{
    match exprs {
        [] => true,
        _ => false,
    }
}

/// Whether nothing stands between the parentheses.
fn is_empty(args: &Args) -> bool
    ensures { result ≡ (args_usages args.now).is_empty }
{
    match args {
        Args::Values { values } => is_none(values.as_slice()),
        Args::Class { .. } => false,
    }
}

/// Whether an expression is one or two names, which may be the path of a class.
fn is_class(e: &Expr) -> bool
    ensures { result ≡ (expr_usages e.now).is_class }
{
    match e {
        Expr::Named { path } => path.names.len() <= 2,
        _ => false,
    }
}

/// Whether the calls behind a part begin with `.allInstances()`, which makes the part a class.
fn is_extent(part: &Expr, calls: &[Postfix]) -> bool
    ensures { result ≡ extent (expr_usages part.now).is_class (map postfix_usages calls.now) }
{
    match calls {
        [] => false,
        [call, ..] => is_class(part) && is_all_instances(call),
    }
}

/// The variable, where a path is one name.
fn add_named(alloc: Global, path: &Path, out: &mut Seq<Usage>) -> Result<(), NoMemory>
    ensures { OnOk result (out.new ≡ out.old ++ named_usages path.now.names) }
{
    match path.names.as_slice() {
        [name] => out.push(Usage::Variable(name.text.duplicate(alloc)?)),
        _ => Ok(()),
    }
}

/// Puts the names that an expression uses, in the order of the text, behind others: variables that the expression doesn't bring in
/// itself, and what it calls by name.
#[cycle(usages)]
pub fn add_usages(alloc: Global, e: &Expr, out: &mut Seq<Usage>) -> Result<(), NoMemory>
    ensures { OnOk result (out.new ≡ out.old ++ usages e.now) }
{
    match e {
        Expr::Let {
            name,
            value,
            body,
            ..
        } => {
            add_usages(alloc, value.get(), out)?;
            add_in_scope(alloc, &name.text, body.get(), out)
        }
        Expr::Chain { first, rest, .. } => {
            add_usages(alloc, first.get(), out)?;
            add_infixes(alloc, rest.as_slice(), out)
        }
        Expr::Not { operand, .. } => add_usages(alloc, operand.get(), out),
        Expr::Negated { operand, .. } => add_usages(alloc, operand.get(), out),
        Expr::Calls { of, calls, .. } => {
            add_part(alloc, of.get(), calls.as_slice(), out)?;
            add_postfixes(alloc, calls.as_slice(), out)
        }
        Expr::Number { .. } => Ok(()),
        Expr::Str { .. } => Ok(()),
        Expr::Bool { .. } => Ok(()),
        Expr::Null { .. } => Ok(()),
        Expr::Invalid { .. } => Ok(()),
        Expr::Parens { inner, .. } => add_usages(alloc, inner.get(), out),
        Expr::If {
            condition,
            one,
            other,
            ..
        } => {
            add_usages(alloc, condition.get(), out)?;
            add_usages(alloc, one.get(), out)?;
            add_usages(alloc, other.get(), out)
        }
        Expr::Coll { elements, .. } => add_exprs(alloc, elements.as_slice(), out),
        Expr::Call { name, args, .. } => {
            out.push(Usage::Call(name.text.duplicate(alloc)?))?;
            add_args(alloc, args, out)
        }
        Expr::Named { path } => add_named(alloc, path, out),
    }
}

/// The usages of an expression in which a variable is in reach.
#[cycle(usages)]
fn add_in_scope(
    alloc: Global,
    name: &Text,
    body: &Expr,
    out: &mut Seq<Usage>,
) -> Result<(), NoMemory>
    ensures { OnOk result (out.new ≡ out.old ++ without name.now (usages body.now)) }
{
    let mut inner = Seq::new(alloc);
    add_usages(alloc, body, &mut inner)?;
    append_without(name, inner, out)
}

/// The usages of a part on which something is called.
#[cycle(usages)]
fn add_part(
    alloc: Global,
    part: &Expr,
    calls: &[Postfix],
    out: &mut Seq<Usage>,
) -> Result<(), NoMemory>
    ensures { OnOk result (out.new ≡ out.old ++ (if extent (expr_usages part.now).is_class (map postfix_usages calls.now) then [] else usages part.now)) }
{
    if is_extent(part, calls) {
        return Ok(());
    }
    add_usages(alloc, part, out)
}

/// The usages of expressions one behind the other.
#[cycle(usages)]
fn add_exprs(alloc: Global, exprs: &[Expr], out: &mut Seq<Usage>) -> Result<(), NoMemory>
    ensures { OnOk result (out.new ≡ out.old ++ flat_map (λ e. e.usages) (map expr_usages exprs.now)) }
{
    for e in exprs {
        add_usages(alloc, e, out)?;
    }
    Ok(())
}

/// The usages of the parts behind operators.
#[cycle(usages)]
fn add_infixes(alloc: Global, links: &[Infix], out: &mut Seq<Usage>) -> Result<(), NoMemory>
    ensures { OnOk result (out.new ≡ out.old ++ flat_map (λ r. r) (map infix_usages links.now)) }
{
    for link in links {
        add_usages(alloc, &link.right, out)?;
    }
    Ok(())
}

/// The usages of calls one behind the other.
#[cycle(usages)]
fn add_postfixes(alloc: Global, calls: &[Postfix], out: &mut Seq<Usage>) -> Result<(), NoMemory>
    ensures { OnOk result (out.new ≡ out.old ++ flat_map (λ c. c.usages) (map postfix_usages calls.now)) }
{
    for call in calls {
        add_postfix(alloc, call, out)?;
    }
    Ok(())
}

/// The usages of a call.
#[cycle(usages)]
fn add_postfix(alloc: Global, call: &Postfix, out: &mut Seq<Usage>) -> Result<(), NoMemory>
    ensures { OnOk result (out.new ≡ out.old ++ (postfix_usages call.now).usages) }
{
    match call {
        Postfix::Property { .. } => Ok(()),
        Postfix::Dot { args, .. } => add_args(alloc, args, out),
        Postfix::Arrow { args, .. } => add_args(alloc, args, out),
        Postfix::Iterator { variable, body, .. } => {
            add_in_scope(alloc, &variable.text, body.get(), out)
        }
    }
}

/// The usages of what stands between parentheses.
#[cycle(usages)]
fn add_args(alloc: Global, args: &Args, out: &mut Seq<Usage>) -> Result<(), NoMemory>
    ensures { OnOk result (out.new ≡ out.old ++ (args_usages args.now).usages) }
{
    match args {
        Args::Values { values } => add_exprs(alloc, values.as_slice(), out),
        Args::Class { .. } => Ok(()),
    }
}
