//! The variables of a relation that its expressions name.
ghost use Rattle.std.specs.Prelude.{◌≡◌, ◌++◌, IfOk, OnOk};
ghost use Rattle.enforcement_rules.specs.Mentions.{own_variable, variables_among, variables_of};

use crate::mention::Mention;
use crate::mentions::mentions;
use mof_metamodel::{NoMemory, Seq};
use qv_syntax::Typed;
use std::alloc::Global;

/// A variable, if what is named is one of the first so many.
fn push_variable(count: usize, mention: Mention, out: &mut Seq<u32>) -> Result<(), NoMemory>
    ensures { OnOk result (out.new ≡ out.old ++ own_variable count mention) }
{
    match mention {
        Mention::Variable(v) => {
            if (v as usize) < count {
                return out.push(v);
            }
            Ok(())
        }
        Mention::Query(_) | Mention::Extent(_) => Ok(()),
    }
}

/// The same of what is named, in its order.
fn push_variables(count: usize, found: &[Mention], out: &mut Seq<u32>) -> Result<(), NoMemory>
    ensures { OnOk result (out.new ≡ out.old ++ variables_among count found.now) }
{
    for mention in found {
        push_variable(count, *mention, out)?;
    }
    Ok(())
}

/// The variables that the expression names, of a relation that has so many.
pub fn variables_of(alloc: Global, count: usize, e: &Typed) -> Result<Seq<u32>, NoMemory>
    ensures { IfOk result (λ out. out ≡ variables_of count e.now) }
{
    let found = mentions(alloc, e)?;
    let mut out = Seq::new(alloc);
    push_variables(count, found.as_slice(), &mut out)?;
    Ok(out)
}
