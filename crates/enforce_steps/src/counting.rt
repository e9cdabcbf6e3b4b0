//! What numbers of 32 bits count of a program: its variables, by their numbers.
ghost use Rattle.std.specs.Prelude.{◌<◌, ◌≤◌, ◌^◌, ℕ, List, length, Contains};
ghost use Rattle.mof_metamodel.specs.declared.desc.MetaDesc.{MetaDesc};
ghost use Rattle.qv_syntax.specs.declared.program.Rel.{Rel};
ghost use Rattle.qv_syntax.specs.WellFormed.{IsWellFormed};
ghost use Rattle.enforce_steps.specs.Premises.{AreFew, AreNumbered};

use qv_syntax::{Program, Rel};

/// A number of 32 bits is below their count.
fn few_number(number: &u32)
    ensures { number.now < 2 ^ 32 }
{
    let _number = *number;
}

/// So are several.
fn few_numbers(numbers: &[u32])
    ensures { AreFew numbers.now }
{
    for number in numbers {
        few_number(number);
    }
}

/// So are those of the variables of relations.
fn few_in_each(rels: &[Rel])
    ensures { AreNumbered rels.now }
{
    for rel in rels {
        few_numbers(rel.universal.as_slice());
        few_numbers(rel.existential.as_slice());
    }
}

/// Each relation of a program that is well formed has no more variables than numbers of 32 bits count: each variable has its number. In time linear in
/// the variables.
pub fn variables_are_few(program: &Program)
    ensures { (metas : List MetaDesc) → IsWellFormed metas program.now → (rel : Rel) → Contains program.now.rels rel → length rel.vars ≤ 2 ^ 32 }
{
    few_in_each(program.rels.as_slice())
}
