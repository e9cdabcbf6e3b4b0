ghost use Rattle.std.specs.Prelude.{◌↔◌, ◌<◌, ◌^◌, suc, List, length, IfOk, IfErr, IsTrue};
ghost use Rattle.object_tables.specs.Models.{ModelData};
ghost use Rattle.qv_syntax.specs.declared.program.Program.{Program};
ghost use Rattle.qv_syntax.specs.declared.program.Rel.{Rel};
ghost use Rattle.qvtr_semantics.specs.Chains.{Chain};
ghost use Rattle.qvtr_semantics.specs.Satisfaction.{IsTop};
ghost use Rattle.relation_calls.specs.Seen.{AreClean};
ghost use Rattle.relation_calls.specs.Faults.{IsFault};
ghost use Rattle.relation_calls.specs.Askable.{IsFormed};
ghost use Rattle.relation_calls.specs.Memos.{IsTold};
ghost use Rattle.check_mode.specs.Verdicts.{IsVerdict, IsVerdictOf, IsFoundOf, ChainOfTop};

use crate::verdict::Verdict;
use ocl_eval::Models;
use qv_syntax::Program;
use qvtr_semantics::Binding;
use relation_calls::{CallError, Memo, failing_binding};
use std::alloc::Global;

/// Whether the number is that of a top relation of the direction.
fn is_top(program: &Program, number: u32) -> bool
    requires { number < length program.now.rels }
    ensures { IsTrue result ↔ ((rel : Rel) × IsTop program.now number rel) }
{
    let rel = &program.rels.as_slice()[number as usize];
    rel.top & rel.in_direction
}

/// The least failing binding of a relation, if it is a top relation of the direction.
fn failing_of(
    alloc: Global,
    program: &Program,
    models: &Models<'_>,
    memo: &mut Memo,
    number: u32,
) -> Result<Option<Binding>, CallError>
    requires formed { IsFormed program.now }
    requires within { number < length program.now.rels }
    requires told { IsTold program.now models.now memo.old }
    ensures value { IfOk result (IsFoundOf program.now models.now number) }
    ensures clean { IfOk result (λ _. AreClean (ChainOfTop program.now models.now number)) }
    ensures fault { IfErr result (IsFault (ChainOfTop program.now models.now number)) }
    ensures told { IsTold program.now models.now memo.new }
{
    if is_top(program, number) {
        failing_binding(alloc, program, models, memo, number)
    } else {
        Ok(None)
    }
}

/// The verdict where one relation more is looked at.
fn with_relation(verdict: Verdict, number: u32, failing: Option<Binding>) -> Verdict
    ensures { (program : Program) (models : List ModelData) → IsVerdictOf program models number verdict → IsFoundOf program models number failing
        → IsVerdictOf program models (suc number) result }
{
    match verdict {
        Verdict::Yes => match failing {
            Some(binding) => Verdict::No {
                relation: number,
                binding,
            },
            None => Verdict::Yes,
        },
        Verdict::No { relation, binding } => Verdict::No { relation, binding },
    }
}

/// Whether the top relations of the direction are satisfied, and else the least failing binding of the first that isn't (QVT 1.3, sections
/// 7.2.1, 7.9 and 7.10.2). It is refused where a chain of calls is reached that comes back to one of its calls or has more than
/// `MAX_CALLS`.
pub fn check(alloc: Global, program: &Program, models: &Models<'_>) -> Result<Verdict, CallError>
    requires formed { IsFormed program.now }
    requires few { length program.now.rels < 2 ^ 32 }
    ensures value { IfOk result (IsVerdict program.now models.now) }
    ensures clean { IfOk result (λ _. AreClean (Chain program.now models.now)) }
    ensures fault { IfErr result (IsFault (Chain program.now models.now)) }
{
    let mut memo = Memo::new(alloc);
    let mut verdict = Verdict::Yes;
    let count = program.rels.len() as u32;
    for number in 0..count {
        let failing = failing_of(alloc, program, models, &mut memo, number)?;
        verdict = with_relation(verdict, number, failing);
    }
    Ok(verdict)
}
