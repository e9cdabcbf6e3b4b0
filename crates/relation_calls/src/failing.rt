ghost use Rattle.std.specs.Prelude.{◌≡◌, [], IfOk, IfErr, MatchOption, Contains};
ghost use Rattle.std.specs.Option.{option_map};
ghost use Rattle.qvtr_semantics.specs.Templates.{Values};
ghost use Rattle.qvtr_semantics.specs.Calls.{free};
ghost use Rattle.qvtr_semantics.specs.Satisfaction.{IsTop, Failing};
ghost use Rattle.template_match.specs.Search.{values_of};
ghost use Rattle.template_match.specs.Posed.{HasPrimitives};
ghost use Rattle.relation_calls.specs.Seen.{AreClean, TopChain};
ghost use Rattle.relation_calls.specs.Faults.{IsFault};
ghost use Rattle.relation_calls.specs.Founds.{IsLeastOf};
ghost use Rattle.relation_calls.specs.Memos.{IsTold};
ghost use Rattle.relation_calls.specs.Visits.{IsVisit};
ghost use Rattle.relation_calls.specs.Seeds.{IsSeedOf, IsAloneFrom, IsAloneFromAny, SeenFrom, SeenFromAny, IsLeastFound, lesser};

use crate::asking::outcomes_of;
use crate::error::CallError;
use crate::joins::enough_bindings;
use crate::memo::Memo;
use crate::outcome::first_alone;
use crate::seeds::seeds_for;
use crate::visit::Visit;
use qvtr_semantics::Binding;
use template_match::binding_order;

/// The least binding without a partner of those that begin with a seed, meet the source and whose calls
/// match.
fn first_from(
    visit: &Visit<'_, '_>,
    memo: &mut Memo,
    seed: &Binding,
) -> Result<Option<Binding>, CallError>
    requires visit { IsVisit visit.now }
    requires first { visit.now.upto.now ≡ [] }
    requires seed { IsSeedOf visit.now.rel.now seed.now.values }
    requires told { IsTold visit.now.program.now visit.now.models.now memo.old }
    ensures value { IfOk result (IsLeastFound visit.now.rel.now.universal (IsAloneFrom visit.now seed.now.values)) }
    ensures clean { IfOk result (λ _. AreClean (SeenFrom visit.now seed.now.values)) }
    ensures fault { IfErr result (IsFault (SeenFrom visit.now seed.now.values)) }
    ensures told { IsTold visit.now.program.now visit.now.models.now memo.new }
{
    let bs = enough_bindings(visit, memo, seed)?;
    let outcomes = outcomes_of(visit, memo, bs.as_slice())?;
    Ok(first_alone(visit.alloc, bs.as_slice(), outcomes.as_slice())?)
}

/// The lesser of two bindings by the values of the variables, the first where they tie; the one that there
/// is, if there is one alone.
fn lesser(variables: &[u32], one: Option<Binding>, other: Option<Binding>) -> Option<Binding>
    ensures { result ≡ lesser variables.now one other }
{
    match other {
        Some(new) => match one {
            Some(old) => if binding_order(variables, &new, &old).is_lt() {
                Some(new)
            } else {
                Some(old)
            },
            None => Some(new),
        },
        None => one,
    }
}

/// The least of those that begin with one of the seeds. What was found with a seed is let go before the next.
fn least_from(
    visit: &Visit<'_, '_>,
    memo: &mut Memo,
    seeds: &[Binding],
) -> Result<Option<Binding>, CallError>
    requires visit { IsVisit visit.now }
    requires first { visit.now.upto.now ≡ [] }
    requires seeds { (f : Values) → Contains (values_of seeds.now) f → IsSeedOf visit.now.rel.now f }
    requires told { IsTold visit.now.program.now visit.now.models.now memo.old }
    ensures value { IfOk result (IsLeastFound visit.now.rel.now.universal (IsAloneFromAny visit.now (values_of seeds.now))) }
    ensures clean { IfOk result (λ _. AreClean (SeenFromAny visit.now (values_of seeds.now))) }
    ensures fault { IfErr result (IsFault (SeenFromAny visit.now (values_of seeds.now))) }
    ensures told { IsTold visit.now.program.now visit.now.models.now memo.new }
{
    let mut least = None;
    for seed in seeds {
        let first = first_from(visit, memo, seed)?;
        least = lesser(visit.rel.universal.as_slice(), least, first);
    }
    Ok(least)
}

/// The least binding of a top relation that fails.
pub(crate) fn least_failing(
    visit: &Visit<'_, '_>,
    memo: &mut Memo,
) -> Result<Option<Binding>, CallError>
    requires visit { IsVisit visit.now }
    requires first { visit.now.upto.now ≡ [] }
    requires top { IsTop visit.now.program.now visit.now.plan.now.rel visit.now.rel.now }
    requires told { IsTold visit.now.program.now visit.now.models.now memo.old }
    ensures value { IfOk result (λ found. MatchOption found ((b : Values) → ¬ Failing visit.now.program.now visit.now.models.now visit.now.plan.now.rel b)
        (λ b. IsLeastOf visit.now.program.now visit.now.models.now visit.now.plan.now.rel b.values)) }
    ensures clean { IfOk result (λ _. AreClean (TopChain visit.now.program.now visit.now.models.now (record { rel = visit.now.plan.now.rel; roots = free visit.now.rel.now }))) }
    ensures fault { IfErr result (IsFault (TopChain visit.now.program.now visit.now.models.now (record { rel = visit.now.plan.now.rel; roots = free visit.now.rel.now }))) }
    ensures told { IsTold visit.now.program.now visit.now.models.now memo.new }
{
    let seeds = seeds_for(visit)?;
    least_from(visit, memo, seeds.as_slice())
}
