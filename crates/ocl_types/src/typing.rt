ghost use Rattle.std.specs.Prelude.{◌≡◌, [], map, IfOk, IsTrue, OnOk, option_copied};
ghost use Rattle.mof_metamodel.specs.Giving.{Gives};
ghost use Rattle.qv_syntax.specs.TypedTrees.{IsTyped};
ghost use Rattle.ocl_environments.specs.Written.{IfFault, fault_in};
ghost use Rattle.ocl_environments.specs.Environments.{is_over};
ghost use Rattle.ocl_types.specs.TypedContext.{context_of, variables_of, typing_of};
ghost use Rattle.ocl_types.specs.HasType.{HasType, Stands};
ghost use Rattle.ocl_environments.specs.Scopes.{in_reach};
ghost use Rattle.ocl_environments.specs.Parts.{plain_part, tree_of, uncalled as started};
ghost use Rattle.ocl_types.specs.Forms.{is_let, is_if, is_calls, is_iterator};
ghost use Rattle.ocl_types.specs.Typing.{meaning, operated_by, calling, given, parts_from, chained_from, called_from, query_typing, linked_part as part_linked, called_part as part_called, called_whole, has_no_values, is_all_instances as names_extent, path_of_extent, dot_typing, arrow_typing, typed};

use crate::typing_collections::{collection_operation_rule, iterator_rule, iterator_variable};
use crate::typing_literals::literal_rule;
use crate::typing_operators::{chain_part, if_rule, link_rule, negated_rule, not_rule, unchained};
use crate::typing_scopes::{let_part, let_type, path_part};
use crate::typing_steps::{
    class_operation_rule, extent_rule, operation_rule, property_rule, query_rule,
};
use mof_metamodel::{Boxed, NoMemory, Seq, Text, or_drop};
use ocl_environments::{
    CallsSoFar, Chained, Env, Scope, TypeError, TypedPart, let_variable, unknown_name,
};
use qv_syntax::{Args, Expr, Infix, Name, Node, Path, Postfix, Ty, Typed};
use std::alloc::Global;

/// A part that is no object.
fn plain(ty: Ty, node: Node) -> TypedPart
    ensures { result ≡ plain_part ty node }
{
    TypedPart {
        ty,
        model: None,
        node,
    }
}

/// `let name : type = value in body`
#[cycle(typing)]
fn type_let(alloc: Global, scope: &mut Scope<'_>, expr: &Expr) -> Result<TypedPart, TypeError>
    requires { IsTrue (is_let expr.now) }
    ensures value { Gives fault_in (λ x. x) result ((meaning expr.now).typing (in_reach scope.old)) }
    ensures scope { OnOk result (scope.new ≡ scope.old) }
{
    match expr {
        Expr::Let {
            name,
            ty,
            value,
            body,
            ..
        } => {
            let number = scope.size();
            let wanted = let_type(alloc, scope, &name.text, ty)?;
            let value = or_drop!(type_part(alloc, scope, value.get()); wanted);
            let variable =
                or_drop!(let_variable(alloc, scope.env().metas(), wanted, &value); value);
            let text = or_drop!(name.text.duplicate(alloc); variable, value);
            or_drop!(scope.enter(text, variable); value);
            let body = or_drop!(type_part(alloc, scope, body.get()); value);
            scope.leave();
            Ok(let_part(alloc, number, value, body)?)
        }
        _ => unreachable!(),
    }
}

/// A part and what is called on it. One or two names with `.allInstances()` behind them are an extent.
#[cycle(typing)]
fn type_calls(alloc: Global, scope: &mut Scope<'_>, expr: &Expr) -> Result<TypedPart, TypeError>
    requires { IsTrue (is_calls expr.now) }
    ensures value { Gives fault_in (λ x. x) result ((meaning expr.now).typing (in_reach scope.old)) }
    ensures scope { OnOk result (scope.new ≡ scope.old) }
{
    match expr {
        Expr::Calls { of, calls, .. } => match calls.as_slice() {
            [] => type_part(alloc, scope, of.get()),
            [first, rest @ ..] => match extent_path(of.get(), first) {
                Some(path) => {
                    let part = extent_rule(alloc, scope, path)?;
                    type_called(alloc, scope, part, rest)
                }
                None => {
                    let part = type_part(alloc, scope, of.get())?;
                    type_called(alloc, scope, part, calls.as_slice())
                }
            },
        }
        _ => unreachable!(),
    }
}

/// `if condition then one else other endif`
#[cycle(typing)]
#[tactic(auto, using(crate::proofs::TypingLaws::if_given))]
fn type_if(alloc: Global, scope: &mut Scope<'_>, expr: &Expr) -> Result<TypedPart, TypeError>
    requires { IsTrue (is_if expr.now) }
    ensures value { Gives fault_in (λ x. x) result ((meaning expr.now).typing (in_reach scope.old)) }
    ensures scope { OnOk result (scope.new ≡ scope.old) }
{
    match expr {
        Expr::If {
            condition,
            one,
            other,
            ..
        } => {
            let condition = type_part(alloc, scope, condition.get())?;
            let one = or_drop!(type_part(alloc, scope, one.get()); condition);
            let other = or_drop!(type_part(alloc, scope, other.get()); condition, one);
            if_rule(alloc, scope.env().metas(), condition, one, other)
        }
        _ => unreachable!(),
    }
}

/// The part that an expression is, with these names in reach.
#[cycle(typing)]
#[tactic(auto, using(crate::proofs::TypingLaws::not_given, crate::proofs::TypingLaws::negated_given))]
fn type_part(alloc: Global, scope: &mut Scope<'_>, expr: &Expr) -> Result<TypedPart, TypeError>
    ensures value { Gives fault_in (λ x. x) result ((meaning expr.now).typing (in_reach scope.old)) }
    ensures scope { OnOk result (scope.new ≡ scope.old) }
{
    match expr {
        Expr::Let { .. } => type_let(alloc, scope, expr),
        Expr::Chain { first, rest, .. } => {
            let first = type_part(alloc, scope, first.get())?;
            type_linked(alloc, scope, first, rest.as_slice())
        }
        Expr::Not { operand, .. } => {
            let operand = type_part(alloc, scope, operand.get())?;
            not_rule(alloc, scope.env().metas(), operand)
        }
        Expr::Negated { operand, .. } => {
            let operand = type_part(alloc, scope, operand.get())?;
            negated_rule(alloc, scope.env().metas(), operand)
        }
        Expr::Calls { .. } => type_calls(alloc, scope, expr),
        Expr::Number { value, .. } => Ok(plain(Ty::Int, Node::Number { value: *value })),
        Expr::Str { value, .. } => {
            let value = value.duplicate(alloc)?;
            Ok(plain(Ty::Str, Node::Str { value }))
        }
        Expr::Bool { value, .. } => Ok(plain(Ty::Bool, Node::Bool { value: *value })),
        Expr::Null { .. } => Ok(plain(Ty::Null, Node::Null)),
        Expr::Invalid { .. } => Ok(plain(Ty::Null, Node::Invalid)),
        Expr::Parens { inner, .. } => type_part(alloc, scope, inner.get()),
        Expr::If { .. } => type_if(alloc, scope, expr),
        Expr::Coll { kind, elements, .. } => {
            let elements = type_parts(alloc, scope, elements.as_slice())?;
            literal_rule(alloc, scope.env().metas(), *kind, elements)
        }
        Expr::Call { name, args, .. } => type_query(alloc, scope, name, args),
        Expr::Named { path } => path_part(alloc, scope, path),
    }
}

/// The parts of a list of expressions.
#[cycle(typing)]
#[tactic(auto, unfolding(crate::specs::Typing::parts_from))]
fn type_parts(
    alloc: Global,
    scope: &mut Scope<'_>,
    exprs: &[Expr],
) -> Result<Seq<TypedPart>, TypeError>
    ensures value { Gives fault_in (λ x. x) result (parts_from (in_reach scope.old) [] (map (λ e. e.typing) (map meaning exprs.now))) }
    ensures scope { OnOk result (scope.new ≡ scope.old) }
{
    let mut parts = Seq::new(alloc);
    for expr in exprs {
        let part = type_part(alloc, scope, expr)?;
        parts.push(part)?;
    }
    Ok(parts)
}

/// Operators and the parts behind them, on what stands before.
#[cycle(typing)]
#[tactic(auto, unfolding(crate::specs::Typing::chained_from))]
fn type_links(
    alloc: Global,
    scope: &mut Scope<'_>,
    chain: Chained,
    links: &[Infix],
) -> Result<Chained, TypeError>
    ensures value { Gives fault_in (λ x. x) result (chained_from (in_reach scope.old) chain (map operated_by links.now)) }
    ensures scope { OnOk result (scope.new ≡ scope.old) }
{
    let mut reached = chain;
    for link in links {
        let right = type_part(alloc, scope, &link.right)?;
        reached = link_rule(alloc, scope.env().metas(), reached, link.operator, right)?;
    }
    Ok(reached)
}

/// A part with the operators behind it.
#[cycle(typing)]
#[tactic(auto, unfolding(crate::specs::Typing::linked_part))]
fn type_linked(
    alloc: Global,
    scope: &mut Scope<'_>,
    part: TypedPart,
    links: &[Infix],
) -> Result<TypedPart, TypeError>
    ensures value { Gives fault_in (λ x. x) result (part_linked (in_reach scope.old) part (map operated_by links.now)) }
    ensures scope { OnOk result (scope.new ≡ scope.old) }
{
    let chain = or_drop!(unchained(alloc, &part); part);
    let chain = or_drop!(type_links(alloc, scope, chain, links); part);
    Ok(chain_part(alloc, part, chain)?)
}

/// `name(args)`: a call of a query.
#[cycle(typing)]
fn type_query(
    alloc: Global,
    scope: &mut Scope<'_>,
    name: &Name,
    args: &Args,
) -> Result<TypedPart, TypeError>
    ensures value { Gives fault_in (λ x. x) result (query_typing (in_reach scope.old) name.now.text (given args.now)) }
    ensures scope { OnOk result (scope.new ≡ scope.old) }
{
    match args {
        Args::Values { values } => {
            let args = type_parts(alloc, scope, values.as_slice())?;
            query_rule(alloc, scope, &name.text, args)
        }
        Args::Class { .. } => Err(TypeError::Fault(unknown_name(alloc, name.text.as_str())?)),
    }
}

/// `.name(args)`
#[cycle(typing)]
fn type_dot(
    alloc: Global,
    scope: &mut Scope<'_>,
    name: &Name,
    args: &Args,
    called: CallsSoFar,
) -> Result<CallsSoFar, TypeError>
    ensures value { Gives fault_in (λ x. x) result (dot_typing name.now.text (given args.now) (in_reach scope.old) called) }
    ensures scope { OnOk result (scope.new ≡ scope.old) }
{
    match args {
        Args::Values { values } => {
            let args = type_parts(alloc, scope, values.as_slice())?;
            operation_rule(alloc, scope.env().metas(), &name.text, called, args)
        }
        Args::Class { path } => class_operation_rule(alloc, scope, &name.text, path, called),
    }
}

/// `->name(args)`
#[cycle(typing)]
fn type_arrow(
    alloc: Global,
    scope: &mut Scope<'_>,
    name: &Name,
    args: &Args,
    called: CallsSoFar,
) -> Result<CallsSoFar, TypeError>
    ensures value { Gives fault_in (λ x. x) result (arrow_typing name.now.text (given args.now) (in_reach scope.old) called) }
    ensures scope { OnOk result (scope.new ≡ scope.old) }
{
    match args {
        Args::Values { values } => {
            let args = or_drop!(type_parts(alloc, scope, values.as_slice()); called);
            collection_operation_rule(alloc, scope.env().metas(), &name.text, called, args)
        }
        Args::Class { .. } => {
            drop(called);
            Err(TypeError::Fault(unknown_name(alloc, name.text.as_str())?))
        }
    }
}

/// `->name(variable : type | body)`
#[cycle(typing)]
fn type_iterator(
    alloc: Global,
    scope: &mut Scope<'_>,
    called: CallsSoFar,
    call: &Postfix,
) -> Result<CallsSoFar, TypeError>
    requires { IsTrue (is_iterator call.now) }
    ensures value { Gives fault_in (λ x. x) result ((calling call.now).after (in_reach scope.old) called) }
    ensures scope { OnOk result (scope.new ≡ scope.old) }
{
    match call {
        Postfix::Iterator {
            name,
            variable,
            ty,
            body,
            ..
        } => {
            let number = scope.size();
            let element =
                or_drop!(iterator_variable(alloc, scope, &variable.text, ty, &called); called);
            let text = or_drop!(variable.text.duplicate(alloc); element, called);
            or_drop!(scope.enter(text, element); called);
            let body = or_drop!(type_part(alloc, scope, body.get()); called);
            scope.leave();
            iterator_rule(alloc, scope.env().metas(), &name.text, number, called, body)
        }
        _ => unreachable!(),
    }
}

/// What is called on a part, on what was called before.
#[cycle(typing)]
fn type_postfix(
    alloc: Global,
    scope: &mut Scope<'_>,
    called: CallsSoFar,
    call: &Postfix,
) -> Result<CallsSoFar, TypeError>
    ensures value { Gives fault_in (λ x. x) result ((calling call.now).after (in_reach scope.old) called) }
    ensures scope { OnOk result (scope.new ≡ scope.old) }
{
    match call {
        Postfix::Property { name } => property_rule(alloc, scope.env().metas(), &name.text, called),
        Postfix::Dot { name, args, .. } => type_dot(alloc, scope, name, args, called),
        Postfix::Arrow { name, args, .. } => type_arrow(alloc, scope, name, args, called),
        Postfix::Iterator { .. } => type_iterator(alloc, scope, called, call),
    }
}

/// The same of several.
#[cycle(typing)]
#[tactic(auto, unfolding(crate::specs::Typing::called_from))]
fn type_postfixes(
    alloc: Global,
    scope: &mut Scope<'_>,
    called: CallsSoFar,
    calls: &[Postfix],
) -> Result<CallsSoFar, TypeError>
    ensures value { Gives fault_in (λ x. x) result (called_from (in_reach scope.old) called (map calling calls.now)) }
    ensures scope { OnOk result (scope.new ≡ scope.old) }
{
    let mut reached = called;
    for call in calls {
        reached = type_postfix(alloc, scope, reached, call)?;
    }
    Ok(reached)
}

/// A part with what is called on it.
#[tactic(auto, unfolding(crate::specs::Typing::called_whole))]
fn calls_part(alloc: Global, part: TypedPart, called: CallsSoFar) -> Result<TypedPart, NoMemory>
    ensures { IfOk result (λ p. p ≡ called_whole part called) }
{
    let of = Boxed::new(alloc, part.into_tree())?;
    Ok(TypedPart {
        ty: called.ty,
        model: called.model,
        node: Node::Calls {
            of,
            calls: called.calls,
        },
    })
}

/// Nothing is called yet.
fn uncalled(alloc: Global, part: &TypedPart) -> Result<CallsSoFar, NoMemory>
    ensures { IfOk result (λ c. c ≡ started part.now) }
{
    let ty = part.ty.duplicate(alloc)?;
    Ok(CallsSoFar {
        calls: Seq::new(alloc),
        ty,
        model: part.model,
    })
}

/// A part with what is called on it; with nothing it stays what it is.
#[cycle(typing)]
#[tactic(auto, unfolding(crate::specs::Typing::called_part))]
fn type_called(
    alloc: Global,
    scope: &mut Scope<'_>,
    part: TypedPart,
    calls: &[Postfix],
) -> Result<TypedPart, TypeError>
    ensures value { Gives fault_in (λ x. x) result (part_called (in_reach scope.old) part (map calling calls.now)) }
    ensures scope { OnOk result (scope.new ≡ scope.old) }
{
    if calls.is_empty() {
        return Ok(part);
    }
    let called = or_drop!(uncalled(alloc, &part); part);
    let called = or_drop!(type_postfixes(alloc, scope, called, calls); part);
    Ok(calls_part(alloc, part, called)?)
}

/// Whether nothing stands between the parentheses.
fn is_empty(args: &Args) -> bool
    ensures { result ≡ has_no_values (given args.now).values (given args.now).class }
{
    match args {
        Args::Values { values } => match values.as_slice() {
            [] => true,
            [_, ..] => false,
        },
        Args::Class { .. } => false,
    }
}

/// Whether it is the name of what gives an extent.
#[tactic(auto, unfolding(crate::specs::Typing::is_all_instances))]
fn is_all_instances(name: &Text) -> bool
    ensures { result ≡ names_extent name.now }
{
    name.as_str() == "allInstances"
}

/// Whether a call is `.allInstances()`.
fn is_extent(call: &Postfix) -> bool
    ensures { result ≡ (calling call.now).is_extent }
{
    match call {
        Postfix::Dot { name, args, .. } => is_all_instances(&name.text) && is_empty(args),
        Postfix::Property { .. } | Postfix::Arrow { .. } | Postfix::Iterator { .. } => false,
    }
}

/// The path that an expression is, if it is one or two names.
fn short_path(expr: &Expr) -> Option<&Path>
    ensures { option_copied result ≡ (meaning expr.now).path }
{
    match expr {
        Expr::Named { path } => match path.names.as_slice() {
            [_] | [_, _] => Some(path),
            _ => None,
        },
        _ => None,
    }
}

/// The path of an extent: of one or two names with `.allInstances()` behind them.
fn extent_path<'e>(of: &'e Expr, call: &Postfix) -> Option<&'e Path>
    ensures { option_copied result ≡ path_of_extent (meaning of.now).path (calling call.now).is_extent }
{
    if is_extent(call) {
        short_path(of)
    } else {
        None
    }
}

/// The typed tree of an expression (OCL 2.4, chapters 9 and 11).
///
/// # Errors
///
/// The first fault in the order of evaluation, and `NoMemory`.
#[tactic(auto, unfolding(crate::specs::Typing::typed, crate::specs::Typing::part_of))]
pub fn type_expr(alloc: Global, env: &Env<'_>, expr: &Expr) -> Result<Typed, TypeError>
    ensures { Gives fault_in (λ x. x) result (typed env.now expr.now) }
{
    let mut scope = Scope::over(alloc, env);
    let part = type_part(alloc, &mut scope, expr)?;
    Ok(part.into_tree())
}

/// The part that an expression is, over an environment.
fn part_over(alloc: Global, env: &Env<'_>, expr: &Expr) -> Result<TypedPart, TypeError>
    ensures { Gives fault_in (λ x. x) result ((meaning expr.now).typing env.now) }
{
    let mut scope = Scope::over(alloc, env);
    type_part(alloc, &mut scope, expr)
}

/// The type of an expression, the model of its objects and its tree.
///
/// # Errors
///
/// As those of `type_expr`.
pub fn type_whole(alloc: Global, env: &Env<'_>, expr: &Expr) -> Result<TypedPart, TypeError>
    ensures typed { IfOk result (λ p. HasType env.now expr.now p) }
    ensures tree { IfOk result (λ p. IsTyped (context_of env.now) (variables_of env.now) (tree_of p) (typing_of p)) }
    ensures within { IfOk result (λ p. IsTrue (is_over env.now.metas p.ty)) }
    ensures fault { IfFault result (λ f. Stands env.now expr.now f) }
{
    env.in_order();
    part_over(alloc, env, expr)
}
