ghost use Rattle.std.specs.Prelude.{◌≡◌, ◌↔◌, IfOk, IfErr, IsTrue, MatchOption};
ghost use Rattle.qv_syntax.specs.declared.program.Rel.{Rel};
ghost use Rattle.qvtr_semantics.specs.Templates.{Values};
ghost use Rattle.qvtr_semantics.specs.Calls.{Match, Holds, free};
ghost use Rattle.qvtr_semantics.specs.Chains.{HoldsChain, MatchChain};
ghost use Rattle.qvtr_semantics.specs.Satisfaction.{IsTop, Failing};
ghost use Rattle.relation_calls.specs.Names.{call_named};
ghost use Rattle.relation_calls.specs.Seen.{AreClean, TopChain};
ghost use Rattle.relation_calls.specs.Faults.{IsFault};
ghost use Rattle.relation_calls.specs.Askable.{IsFormed, IsAskable};
ghost use Rattle.relation_calls.specs.Founds.{IsLeastOf};
ghost use Rattle.relation_calls.specs.Memos.{IsTold};

use crate::asking::{explore, is_match};
use crate::chain::longer_chain;
use crate::error::CallError;
use crate::failing::least_failing;
use crate::memo::Memo;
use crate::name::CallName;
use crate::outcome::is_any_alone;
use crate::visit::Visit;
use mof_metamodel::{NoMemory, Seq};
use ocl_eval::Models;
use qv_syntax::Program;
use qvtr_semantics::Binding;
use std::alloc::Global;
use template_match::{duplicate_binding, plan_of};

/// The name of a call with these roots.
fn name_of(alloc: Global, rel: u32, roots: &Binding) -> Result<CallName, NoMemory>
    ensures { IfOk result (λ name. call_named name ≡ record { rel = rel; roots = roots.now.values }) }
{
    let roots = duplicate_binding(alloc, roots)?;
    Ok(CallName { rel, roots })
}

/// Whether a call holds that no other made.
fn holds_alone(
    alloc: Global,
    program: &Program,
    models: &Models<'_>,
    memo: &mut Memo,
    name: &CallName,
) -> Result<bool, CallError>
    requires formed { IsFormed program.now }
    requires askable { IsAskable program.now (call_named name.now) }
    requires told { IsTold program.now models.now memo.old }
    ensures value { IfOk result (λ holds. IsTrue holds ↔ Holds program.now models.now (call_named name.now)) }
    ensures clean { IfOk result (λ _. AreClean (HoldsChain program.now models.now (call_named name.now))) }
    ensures fault { IfErr result (IsFault (HoldsChain program.now models.now (call_named name.now))) }
    ensures told { IsTold program.now models.now memo.new }
{
    let none = Seq::new(alloc);
    let upto = longer_chain(alloc, none.as_slice(), name)?;
    let found = explore(alloc, program, models, memo, upto.as_slice(), name)?;
    Ok(!is_any_alone(found.outcomes.as_slice()))
}

/// Whether a relation that is called in a where clause holds for these roots (QVT 1.3, section 7.10.2). It is refused where a chain of
/// calls is reached that comes back to one of its calls or has more than `MAX_CALLS`. The memo has answers of this program over these
/// models alone.
pub fn holds_call(
    alloc: Global,
    program: &Program,
    models: &Models<'_>,
    memo: &mut Memo,
    rel: u32,
    roots: &Binding,
) -> Result<bool, CallError>
    requires formed { IsFormed program.now }
    requires askable { IsAskable program.now (record { rel = rel; roots = roots.now.values }) }
    requires told { IsTold program.now models.now memo.old }
    ensures value { IfOk result (λ holds. IsTrue holds ↔ Holds program.now models.now (record { rel = rel; roots = roots.now.values })) }
    ensures clean { IfOk result (λ _. AreClean (HoldsChain program.now models.now (record { rel = rel; roots = roots.now.values }))) }
    ensures fault { IfErr result (IsFault (HoldsChain program.now models.now (record { rel = rel; roots = roots.now.values }))) }
    ensures told { IsTold program.now models.now memo.new }
{
    let name = name_of(alloc, rel, roots)?;
    holds_alone(alloc, program, models, memo, &name)
}

/// Whether some binding of a relation that is called in a when clause has these roots and a partner (QVT 1.3, section 7.10.2). It is
/// refused where a chain of calls is reached that comes back to one of its calls or has more than `MAX_CALLS`. The memo has answers of
/// this program over these models alone.
pub fn match_call(
    alloc: Global,
    program: &Program,
    models: &Models<'_>,
    memo: &mut Memo,
    rel: u32,
    roots: &Binding,
) -> Result<bool, CallError>
    requires formed { IsFormed program.now }
    requires askable { IsAskable program.now (record { rel = rel; roots = roots.now.values }) }
    requires told { IsTold program.now models.now memo.old }
    ensures value { IfOk result (λ matches. IsTrue matches ↔ Match program.now models.now (record { rel = rel; roots = roots.now.values })) }
    ensures clean { IfOk result (λ _. AreClean (MatchChain program.now models.now (record { rel = rel; roots = roots.now.values }))) }
    ensures fault { IfErr result (IsFault (MatchChain program.now models.now (record { rel = rel; roots = roots.now.values }))) }
    ensures told { IsTold program.now models.now memo.new }
{
    let name = name_of(alloc, rel, roots)?;
    is_match(alloc, program, models, memo, &name)
}

/// The least binding of a top relation that meets its source, whose calls match, and that has no partner (QVT 1.3, sections 7.2.1 and
/// 7.10.2). It is refused where a chain of calls is reached that comes back to one of its calls or has more than `MAX_CALLS`. The memo has
/// answers of this program over these models alone.
pub fn failing_binding(
    alloc: Global,
    program: &Program,
    models: &Models<'_>,
    memo: &mut Memo,
    number: u32,
) -> Result<Option<Binding>, CallError>
    requires formed { IsFormed program.now }
    requires top { (rel : Rel) × IsTop program.now number rel }
    requires told { IsTold program.now models.now memo.old }
    ensures value { IfOk result (λ found. MatchOption found ((b : Values) → ¬ Failing program.now models.now number b) (λ b. IsLeastOf program.now models.now number b.values)) }
    ensures clean { IfOk result (λ _. (rel : Rel) → IsTop program.now number rel → AreClean (TopChain program.now models.now (record { rel = number; roots = free rel }))) }
    ensures fault { IfErr result (λ e. (rel : Rel) → IsTop program.now number rel → IsFault (TopChain program.now models.now (record { rel = number; roots = free rel })) e) }
    ensures told { IsTold program.now models.now memo.new }
{
    let plan = plan_of(alloc, program, number)?;
    let none = Seq::new(alloc);
    let visit = Visit {
        alloc,
        program,
        models,
        rel: &program.rels.as_slice()[number as usize],
        plan: &plan,
        upto: none.as_slice(),
    };
    least_failing(&visit, memo)
}
