//! Which queries read objects of the target: their bodies, or those of queries that they call, use `allInstances` of its metamodel.
ghost use Rattle.std.specs.Prelude.{◌≡◌, ◌++◌, ◌∷◌, ◌<◌, ◌^◌, [], length, IfOk, OnOk};
ghost use Rattle.std.specs.List.{flat_map};
ghost use Rattle.enforcement_rules.specs.ReaderTests.{AreReaders, is_of_meta, mention_rules, query_rules, rules_from};
ghost use Rattle.enforcement_rules.specs.TargetParts.{target_meta};

use crate::derivations::derived;
use crate::mention::Mention;
use crate::mentions::mentions;
use mof_metamodel::{NoMemory, Seq};
use qv_syntax::{Program, Query};
use std::alloc::Global;

/// Whether the model is one of the metamodel.
pub(crate) fn is_of_meta(program: &Program, meta: u32, model: u32) -> bool
    ensures { result ≡ is_of_meta program.now meta model }
{
    match program.models.as_slice().get(model as usize) {
        Some(slot) => slot.meta == meta,
        None => false,
    }
}

/// A query is a reader where one that it calls is.
fn put_call(
    alloc: Global,
    q: u32,
    called: u32,
    rules: &mut Seq<(u32, Seq<u32>)>,
) -> Result<(), NoMemory>
    ensures { OnOk result (rules.new ≡ rules.old ++ (q, called ∷ []) ∷ []) }
{
    let mut asked = Seq::new(alloc);
    asked.push(called)?;
    rules.push((q, asked))
}

/// What makes a query a reader of the target, of what its body names.
fn put_mention(
    alloc: Global,
    program: &Program,
    meta: u32,
    q: u32,
    mention: Mention,
    rules: &mut Seq<(u32, Seq<u32>)>,
) -> Result<(), NoMemory>
    ensures { OnOk result (rules.new ≡ rules.old ++ mention_rules program.now meta q mention) }
{
    match mention {
        Mention::Variable(_) => Ok(()),
        Mention::Query(called) => {
            if (called as usize) < program.queries.len() {
                return put_call(alloc, q, called, rules);
            }
            Ok(())
        }
        Mention::Extent(model) => {
            if is_of_meta(program, meta, model) {
                return rules.push((q, Seq::new(alloc)));
            }
            Ok(())
        }
    }
}

/// The same of all that is named.
fn put_mentions(
    alloc: Global,
    program: &Program,
    meta: u32,
    q: u32,
    found: &[Mention],
    rules: &mut Seq<(u32, Seq<u32>)>,
) -> Result<(), NoMemory>
    ensures { OnOk result (rules.new ≡ rules.old ++ flat_map (mention_rules program.now meta q) found.now) }
{
    for mention in found {
        put_mention(alloc, program, meta, q, *mention, rules)?;
    }
    Ok(())
}

/// The same of all that its body names.
fn put_query(
    alloc: Global,
    program: &Program,
    meta: u32,
    q: u32,
    query: &Query,
    rules: &mut Seq<(u32, Seq<u32>)>,
) -> Result<(), NoMemory>
    ensures { OnOk result (rules.new ≡ rules.old ++ query_rules program.now meta q query.now) }
{
    let found = mentions(alloc, &query.body)?;
    put_mentions(alloc, program, meta, q, found.as_slice(), rules)
}

/// The same of each of the queries.
fn put_queries(
    alloc: Global,
    program: &Program,
    meta: u32,
    queries: &[Query],
    rules: &mut Seq<(u32, Seq<u32>)>,
) -> Result<(), NoMemory>
    requires { length queries.now < 2 ^ 32 }
    ensures { OnOk result (rules.new ≡ rules.old ++ rules_from program.now meta 0 queries.now) }
{
    let mut q: u32 = 0;
    for query in queries {
        put_query(alloc, program, meta, q, query, rules)?;
        q += 1;
    }
    Ok(())
}

/// The rules by which queries read objects of the target.
fn reader_rules(
    alloc: Global,
    program: &Program,
    meta: u32,
) -> Result<Seq<(u32, Seq<u32>)>, NoMemory>
    requires { length program.now.queries < 2 ^ 32 }
    ensures { IfOk result (λ rules. rules ≡ rules_from program.now meta 0 program.now.queries) }
{
    let mut rules = Seq::new(alloc);
    put_queries(alloc, program, meta, program.queries.as_slice(), &mut rules)?;
    Ok(rules)
}

/// For each query whether it reads objects of the target.
pub(crate) fn readers(alloc: Global, program: &Program, meta: u32) -> Result<Vec<bool>, NoMemory>
    requires few { length program.now.queries < 2 ^ 32 }
    requires meta { meta ≡ target_meta program.now }
    ensures { IfOk result (λ readers. AreReaders program.now readers.items) }
{
    let rules = reader_rules(alloc, program, meta)?;
    derived(alloc, program.queries.len(), rules)
}
