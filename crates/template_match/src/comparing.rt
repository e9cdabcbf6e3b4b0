//! What the conditions and equations of a side's clause ask of the slots of objects: those that compare
//! `x.p`, a property of one value at most, with something else.
ghost use Rattle.std.specs.Prelude.{◌≡◌, ◌++◌, OnOk};
ghost use Rattle.std.specs.List.{flat_map};
ghost use Rattle.qv_syntax.specs.declared.typed.Call.{out-Call};
ghost use Rattle.qv_syntax.specs.declared.typed.Node.{out-Node};
ghost use Rattle.template_match.specs.Asked.{asked_values, asker_of, single_prop, slot_by, slot_alone, asked_at, compared_by, chain_asked, condition_asked, conjunct_asked};
ghost use Rattle.template_match.specs.Sides.{clause_of};

use crate::asked::{Asked, AskedBy};
use crate::expressions::variable_alone;
use crate::side::Side;
use crate::sides::clause_of;
use mof_metamodel::{NoMemory, PropId, Seq};
use qv_syntax::{Call, Conj, Node, Operator, Rel, Typed, TypedInfix, TypedPostfix, Values};

// ---- `x.p` alone: x and p

/// The property that is navigated to, if it has one value at most.
fn single_prop(call: &Call) -> Option<PropId>
    ensures { result ≡ single_prop (out-Call call.now) }
{
    match call {
        Call::Property { prop, values } => match values {
            Values::Single => Some(*prop),
            _ => None,
        },
        _ => None,
    }
}

/// The variable with the property, if that alone is called.
fn slot_by(variable: Option<u32>, steps: &[TypedPostfix]) -> Option<(u32, PropId)>
    ensures { result ≡ slot_by variable steps.now }
{
    match variable {
        Some(x) => match steps {
            [step] => match single_prop(&step.call) {
                Some(prop) => Some((x, prop)),
                None => None,
            },
            _ => None,
        },
        None => None,
    }
}

/// x and p of an expression `x.p`, where p has one value at most.
fn slot_alone(e: &Typed) -> Option<(u32, PropId)>
    ensures { result ≡ slot_alone (out-Node e.now.node) }
{
    match &e.node {
        Node::Calls { of, calls } => slot_by(variable_alone(of.get()), calls.as_slice()),
        _ => None,
    }
}

// ---- what is compared with it

/// That this is asked of the slot, if there is one.
fn add_at<'a>(
    slot: Option<(u32, PropId)>,
    by: AskedBy<'a>,
    out: &mut Seq<Asked<'a>>,
) -> Result<(), NoMemory>
    ensures { OnOk result (asked_values out.new ≡ asked_values out.old ++ asked_at slot (asker_of by.entry)) }
{
    match slot {
        Some((holder, prop)) => out.push(Asked { holder, prop, by }),
        None => Ok(()),
    }
}

/// What `one = other` asks, if the operator is that.
fn add_compared<'a>(
    operator: Operator,
    one: &'a Typed,
    other: &'a Typed,
    out: &mut Seq<Asked<'a>>,
) -> Result<(), NoMemory>
    ensures { OnOk result (asked_values out.new ≡ asked_values out.old ++ compared_by operator one.now other.now) }
{
    match operator {
        Operator::Equal => {
            add_at(slot_alone(one), AskedBy::Condition(other), out)?;
            add_at(slot_alone(other), AskedBy::Condition(one), out)
        }
        _ => Ok(()),
    }
}

/// What a condition asks that is a part with operators behind it.
fn add_chain_asked<'a>(
    first: &'a Typed,
    rest: &'a [TypedInfix],
    out: &mut Seq<Asked<'a>>,
) -> Result<(), NoMemory>
    ensures { OnOk result (asked_values out.new ≡ asked_values out.old ++ chain_asked first.now rest.now) }
{
    match rest {
        [link] => add_compared(link.operator, first, &link.right, out),
        _ => Ok(()),
    }
}

/// What a condition asks.
fn add_condition_asked<'a>(e: &'a Typed, out: &mut Seq<Asked<'a>>) -> Result<(), NoMemory>
    ensures { OnOk result (asked_values out.new ≡ asked_values out.old ++ condition_asked (out-Node e.now.node)) }
{
    match &e.node {
        Node::Chain { first, rest } => add_chain_asked(first.get(), rest.as_slice(), out),
        _ => Ok(()),
    }
}

/// What a conjunct asks.
fn add_conjunct_asked<'a>(conjunct: &'a Conj, out: &mut Seq<Asked<'a>>) -> Result<(), NoMemory>
    ensures { OnOk result (asked_values out.new ≡ asked_values out.old ++ conjunct_asked conjunct.now) }
{
    match conjunct {
        Conj::Cond(e) => add_condition_asked(e, out),
        Conj::Equation(variable, e) => add_at(slot_alone(e), AskedBy::Equation(*variable), out),
        Conj::Call(..) => Ok(()),
    }
}

/// What the clause of a side asks.
pub(crate) fn add_clause_asked<'a>(
    side: Side,
    rel: &'a Rel,
    out: &mut Seq<Asked<'a>>,
) -> Result<(), NoMemory>
    ensures { OnOk result (asked_values out.new ≡ asked_values out.old ++ flat_map conjunct_asked (clause_of side rel.now)) }
{
    for conjunct in clause_of(side, rel) {
        add_conjunct_asked(conjunct, out)?;
    }
    Ok(())
}
