//! Relations and calls of them.
ghost use Rattle.std.specs.Prelude.{◌≡◌, true, [], ◌∷◌, ◌++◌, IsTrue, IfOk, OnOk};
ghost use Rattle.qv_syntax.specs.declared.program.Conj.TheVariants as conjuncts;
ghost use Rattle.example_models.specs.Descriptions.{is_ascii};

use crate::variables::ascii;
use mof_metamodel::{NoMemory, Seq, or_drop};
use qv_syntax::{Conj, Dom, Rel, Typed, Var};
use std::alloc::Global;

/// What a relation is called, whether it is top, its stratum, and which of its variables are universal.
#[derive(Clone, Copy)]
pub(crate) struct Head<'a> {
    pub(crate) name: &'a str,
    pub(crate) top: bool,
    pub(crate) stratum: u32,
    pub(crate) universal: &'a [u32],
    pub(crate) existential: &'a [u32],
}

/// A relation of the direction.
pub(crate) fn relation(
    alloc: Global,
    head: &Head<'_>,
    vars: Seq<Var>,
    domains: Seq<Dom>,
    whens: Seq<Conj>,
    wheres: Seq<Conj>,
) -> Result<Rel, NoMemory>
    requires { IsTrue (is_ascii head.now.name.now) }
    ensures { IfOk result (λ r. r ≡ record {
      name = head.now.name.now;
      top = head.now.top;
      in_direction = true;
      stratum = head.now.stratum;
      vars = vars;
      universal = head.now.universal.now;
      existential = head.now.existential.now;
      domains = domains;
      whens = whens;
      wheres = wheres;
    }) }
{
    let name = or_drop!(ascii(alloc, head.name); vars, domains, whens, wheres);
    let universal =
        or_drop!(Seq::from_slice(alloc, head.universal); name, vars, domains, whens, wheres);
    let existential = or_drop!(
        Seq::from_slice(alloc, head.existential);
        name, universal, vars, domains, whens, wheres
    );
    Ok(Rel {
        name,
        top: head.top,
        in_direction: true,
        stratum: head.stratum,
        vars,
        universal,
        existential,
        domains,
        whens,
        wheres,
    })
}

/// A list of two expressions.
pub(crate) fn two(alloc: Global, first: Typed, second: Typed) -> Result<Seq<Typed>, NoMemory>
    ensures { IfOk result (λ es. es ≡ first ∷ second ∷ []) }
{
    let mut exprs = Seq::new(alloc);
    or_drop!(exprs.push(first); exprs, second);
    or_drop!(exprs.push(second); exprs);
    Ok(exprs)
}

/// Puts a call of a relation with two objects and a text behind other conjuncts.
pub(crate) fn push_call(
    clause: &mut Seq<Conj>,
    relation: u32,
    objects: Seq<Typed>,
    text: Typed,
) -> Result<(), NoMemory>
    ensures { OnOk result (clause.new ≡ clause.old ++ conjuncts.Call relation (objects ++ text ∷ []) ∷ []) }
{
    let mut args = objects;
    or_drop!(args.push(text); args);
    clause.push(Conj::Call(relation, args))
}
