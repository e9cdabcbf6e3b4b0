ghost use Rattle.std.specs.Prelude.{◌≡◌, ◌++◌, map, IfOk, OnOk};
ghost use Rattle.std.specs.List.{flat_map, list_all};
ghost use Rattle.std.specs.Option.{option_map};
ghost use Rattle.qv_syntax.specs.declared.expr.Infix.{out-Infix};
ghost use Rattle.qv_syntax.specs.declared.expr.Args.{out-Args};
ghost use Rattle.script_scopes.specs.Conjuncts.{is_and as conjoins, behind, conjuncts, clause_conjuncts as all_conjuncts, name_alone as alone, one_name, equal_to as equal, behind_equals as equated, variable_with as paired, equation_of as equation, called_with as called, call_of as call, is_null as null};

use mof_metamodel::{NoMemory, Seq, Text};
use qv_syntax::{Args, BlockTree, Expr, Infix, Operator, Path};
use std::alloc::Global;

/// Whether an operator is `and`.
fn is_and_operator(operator: &Operator) -> bool
    ensures { result ≡ conjoins operator.now }
{
    match operator {
        Operator::And => true,
        _ => false,
    }
}

/// Whether it is `and`, with the part behind it.
fn is_and(link: &Infix) -> bool
    ensures { result ≡ (behind link.now).is_and }
{
    is_and_operator(&link.operator)
}

/// Whether all operators are `and`.
fn are_and(links: &[Infix]) -> bool
    ensures { result ≡ list_all (λ l. (behind l).is_and) links.now }
{
    for link in links {
        if !is_and(link) {
            return false;
        }
    }
    true
}

/// Puts the conjuncts of an expression, in the order of the text, behind others: `a and b` counts as two; parentheses, and a part on
/// which nothing is called, are looked through (QVT 1.3, section 7.11.1.4).
#[cycle(conjuncts)]
pub fn add_conjuncts<'a>(e: &'a Expr, out: &mut Seq<&'a Expr>) -> Result<(), NoMemory>
    ensures { OnOk result (map (λ r. r.now) out.new ≡ map (λ r. r.now) out.old ++ conjuncts e.now) }
{
    match e {
        Expr::Chain { first, rest, .. } => {
            if !are_and(rest.as_slice()) {
                return out.push(e);
            }
            add_conjuncts(first.get(), out)?;
            add_behind(rest.as_slice(), out)
        }
        Expr::Parens { inner, .. } => add_conjuncts(inner.get(), out),
        Expr::Calls { of, calls, .. } => {
            if calls.is_empty() {
                return add_conjuncts(of.get(), out);
            }
            out.push(e)
        }
        _ => out.push(e),
    }
}

/// The conjuncts behind each `and`.
#[cycle(conjuncts)]
fn add_behind<'a>(links: &'a [Infix], out: &mut Seq<&'a Expr>) -> Result<(), NoMemory>
    ensures { OnOk result (map (λ r. r.now) out.new ≡ map (λ r. r.now) out.old ++ flat_map (λ l. (behind l).conjuncts) links.now) }
{
    for link in links {
        add_conjuncts(&link.right, out)?;
    }
    Ok(())
}

/// The conjuncts of expressions one behind the other.
fn add_all<'a>(exprs: &'a [Expr], out: &mut Seq<&'a Expr>) -> Result<(), NoMemory>
    ensures { OnOk result (map (λ r. r.now) out.new ≡ map (λ r. r.now) out.old ++ flat_map conjuncts exprs.now) }
{
    for e in exprs {
        add_conjuncts(e, out)?;
    }
    Ok(())
}

/// Those of a clause; one that isn't written has none.
fn add_clause<'a>(block: &'a Option<BlockTree>, out: &mut Seq<&'a Expr>) -> Result<(), NoMemory>
    ensures { OnOk result (map (λ r. r.now) out.new ≡ map (λ r. r.now) out.old ++ all_conjuncts block.now) }
{
    match block {
        Some(block) => add_all(block.exprs.as_slice(), out),
        None => Ok(()),
    }
}

/// The conjuncts of a when or a where clause, in the order of the text.
pub fn clause_conjuncts<'a>(
    alloc: Global,
    block: &'a Option<BlockTree>,
) -> Result<Seq<&'a Expr>, NoMemory>
    ensures { IfOk result (λ found. map (λ r. r.now) found ≡ all_conjuncts block.now) }
{
    let mut out = Seq::new(alloc);
    add_clause(block, &mut out)?;
    Ok(out)
}

/// The name, where a path is one name.
fn one(path: &Path) -> Option<&Text>
    ensures { option_map (λ n. n.now) result ≡ one_name path.now.names }
{
    match path.names.as_slice() {
        [name] => Some(&name.text),
        _ => None,
    }
}

/// The name, where an expression is a variable alone; parentheses, and a part on which nothing is called, are looked through.
pub fn name_alone(e: &Expr) -> Option<&Text>
    ensures { option_map (λ n. n.now) result ≡ alone e.now }
{
    match e {
        Expr::Parens { inner, .. } => name_alone(inner.get()),
        Expr::Calls { of, calls, .. } => {
            if calls.is_empty() {
                return name_alone(of.get());
            }
            None
        }
        Expr::Named { path } => one(path),
        _ => None,
    }
}

/// What stands behind the operator, where it is `=`.
fn equal_to(link: &Infix) -> Option<&Expr>
    ensures { option_map (λ e. e.now) result ≡ equal (out-Infix link.now).operator (out-Infix link.now).right }
{
    match link.operator {
        Operator::Equal => Some(&link.right),
        _ => None,
    }
}

/// What stands behind `=`, where that is the only operator.
fn behind_equals(links: &[Infix]) -> Option<&Expr>
    ensures { option_map (λ e. e.now) result ≡ equated links.now }
{
    match links {
        [link] => equal_to(link),
        _ => None,
    }
}

/// A variable with the expression that it is to equal, where both are there.
fn variable_with<'a>(
    name: Option<&'a Text>,
    value: Option<&'a Expr>,
) -> Option<(&'a Text, &'a Expr)>
    ensures { option_map (λ p. (p.0.now, p.1.now)) result ≡ paired (option_map (λ n. n.now) name.entry) (option_map (λ e. e.now) value.entry) }
{
    Some((name?, value?))
}

/// The variable and the expression, where a conjunct is `v = e` (QVT 1.3, section 7.11.1.4).
pub fn equation_of(e: &Expr) -> Option<(&Text, &Expr)>
    ensures { option_map (λ p. (p.0.now, p.1.now)) result ≡ equation e.now }
{
    match e {
        Expr::Chain { first, rest, .. } => {
            variable_with(name_alone(first.get()), behind_equals(rest.as_slice()))
        }
        _ => None,
    }
}

/// A name with its arguments, where they are expressions.
fn called_with<'a>(name: &'a Text, args: &'a Args) -> Option<(&'a Text, &'a [Expr])>
    ensures { option_map (λ p. (p.0.now, p.1.now)) result ≡ called name.now (out-Args args.now) }
{
    match args {
        Args::Values { values } => Some((name, values.as_slice())),
        Args::Class { .. } => None,
    }
}

/// The name and the arguments, where a conjunct is `name(e1, ..)`.
pub fn call_of(e: &Expr) -> Option<(&Text, &[Expr])>
    ensures { option_map (λ p. (p.0.now, p.1.now)) result ≡ call e.now }
{
    match e {
        Expr::Call { name, args, .. } => called_with(&name.text, args),
        _ => None,
    }
}

/// Whether an expression is the literal `null`, in parentheses or not: as an item it asks for an empty slot.
pub fn is_null(e: &Expr) -> bool
    ensures { result ≡ null e.now }
{
    match e {
        Expr::Null { .. } => true,
        Expr::Parens { inner, .. } => is_null(inner.get()),
        _ => false,
    }
}
