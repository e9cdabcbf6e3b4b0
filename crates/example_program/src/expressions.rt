//! Expressions.
ghost use Rattle.std.specs.Prelude.{◌≡◌, IsTrue, IfOk};
ghost use Rattle.mof_metamodel.specs.Characters.{is_storable_text};
ghost use Rattle.qv_syntax.specs.declared.ty.Ty.TheVariants as types;
ghost use Rattle.qv_syntax.specs.declared.typed.Node.TheVariants as nodes;
ghost use Rattle.example_models.specs.Descriptions.{is_ascii};
ghost use Rattle.example_program.specs.Words.{text, the_text, the_object, equal_to, joined_to, is_empty, joined, prefixed};

use crate::variables::{ascii, class_of};
use mof_metamodel::{Boxed, NoMemory, Seq, or_drop};
use qv_syntax::{Literal, Node, Operator, Ty, Typed, TypedInfix};
use std::alloc::Global;

/// A text.
pub(crate) fn text(alloc: Global, characters: &str) -> Result<Typed, NoMemory>
    requires ascii { IsTrue (is_ascii characters.now) }
    requires storable { IsTrue (is_storable_text characters.now) }
    ensures { IfOk result (λ e. e ≡ text characters.now) }
{
    let characters = ascii(alloc, characters)?;
    match Literal::new(characters) {
        Some(value) => Ok(Typed {
            ty: Ty::Str,
            node: Node::Str { value },
        }),
        None => unreachable!(),
    }
}

/// A variable of texts.
pub(crate) fn the_text(variable: u32) -> Typed
    ensures { result ≡ the_text variable }
{
    Typed {
        ty: Ty::Str,
        node: Node::Variable { number: variable },
    }
}

/// A variable of objects of a class of a model.
pub(crate) fn the_object(variable: u32, model: u32, class: u32) -> Typed
    ensures { result ≡ the_object variable model class }
{
    Typed {
        ty: class_of(model, class),
        node: Node::Variable { number: variable },
    }
}

/// `= right`
fn equal_to(right: Typed) -> TypedInfix
    ensures { result ≡ equal_to right }
{
    TypedInfix {
        operator: Operator::Equal,
        right,
        ty: Ty::Bool,
    }
}

/// `+ right`
fn joined_to(right: Typed) -> TypedInfix
    ensures { result ≡ joined_to right }
{
    TypedInfix {
        operator: Operator::Plus,
        right,
        ty: Ty::Str,
    }
}

/// A part with operators behind it.
fn chain(alloc: Global, ty: Ty, first: Typed, rest: Seq<TypedInfix>) -> Result<Typed, NoMemory>
    ensures { IfOk result (λ e. e ≡ record { ty = ty; node = nodes.Chain first rest }) }
{
    let first = or_drop!(Boxed::new(alloc, first); ty, rest);
    Ok(Typed {
        ty,
        node: Node::Chain { first, rest },
    })
}

/// `prefix = ''`
fn is_empty(alloc: Global, prefix: u32) -> Result<Typed, NoMemory>
    ensures { IfOk result (λ e. e ≡ is_empty prefix) }
{
    let empty = text(alloc, "")?;
    let mut rest = Seq::new(alloc);
    or_drop!(rest.push(equal_to(empty)); rest);
    chain(alloc, Ty::Bool, the_text(prefix), rest)
}

/// `prefix + '_' + name`
fn joined(alloc: Global, prefix: u32, name: u32) -> Result<Typed, NoMemory>
    ensures { IfOk result (λ e. e ≡ joined prefix name) }
{
    let between = text(alloc, "_")?;
    let mut rest = Seq::new(alloc);
    or_drop!(rest.push(joined_to(between)); rest);
    or_drop!(rest.push(joined_to(the_text(name))); rest);
    chain(alloc, Ty::Str, the_text(prefix), rest)
}

/// An `if` between texts.
fn choice(alloc: Global, condition: Typed, one: Typed, other: Typed) -> Result<Typed, NoMemory>
    ensures { IfOk result (λ e. e ≡ record { ty = types.Str; node = nodes.If condition one other }) }
{
    let condition = or_drop!(Boxed::new(alloc, condition); one, other);
    let one = or_drop!(Boxed::new(alloc, one); condition, other);
    let other = or_drop!(Boxed::new(alloc, other); condition, one);
    Ok(Typed {
        ty: Ty::Str,
        node: Node::If {
            condition,
            one,
            other,
        },
    })
}

/// `if prefix = '' then name else prefix + '_' + name endif`
pub(crate) fn prefixed(alloc: Global, prefix: u32, name: u32) -> Result<Typed, NoMemory>
    ensures { IfOk result (λ e. e ≡ prefixed prefix name) }
{
    let condition = is_empty(alloc, prefix)?;
    let other = or_drop!(joined(alloc, prefix, name); condition);
    choice(alloc, condition, the_text(name), other)
}
