ghost use Rattle.std.specs.Prelude.{◌≡◌, ◌++◌, map, IfOk, OnOk};
ghost use Rattle.std.specs.List.{filter_map};
ghost use Rattle.std.specs.Option.{option_to_list};
ghost use Rattle.script_scopes.specs.Occurrences.{relation_in, relations_of as relations};
ghost use Rattle.script_scopes.specs.Declarations.{key_in, query_in, keys_of as keys, queries_of as queries};

use mof_metamodel::{NoMemory, Seq};
use qv_syntax::{Declaration, KeyTree, QueryTree, RelationTree, Script};
use std::alloc::Global;

/// Puts what is declared, if it is a relation, behind others.
fn push_relation<'a>(
    declaration: &'a Declaration,
    out: &mut Seq<&'a RelationTree>,
) -> Result<(), NoMemory>
    ensures { OnOk result (map (λ r. r.now) out.new ≡ map (λ r. r.now) out.old ++ option_to_list (relation_in declaration.now)) }
{
    match declaration {
        Declaration::Relation { relation } => out.push(relation),
        _ => Ok(()),
    }
}

/// Puts what is declared, if it is a key, behind others.
fn push_key<'a>(declaration: &'a Declaration, out: &mut Seq<&'a KeyTree>) -> Result<(), NoMemory>
    ensures { OnOk result (map (λ r. r.now) out.new ≡ map (λ r. r.now) out.old ++ option_to_list (key_in declaration.now)) }
{
    match declaration {
        Declaration::Key { key } => out.push(key),
        _ => Ok(()),
    }
}

/// Puts what is declared, if it is a query, behind others.
fn push_query<'a>(
    declaration: &'a Declaration,
    out: &mut Seq<&'a QueryTree>,
) -> Result<(), NoMemory>
    ensures { OnOk result (map (λ r. r.now) out.new ≡ map (λ r. r.now) out.old ++ option_to_list (query_in declaration.now)) }
{
    match declaration {
        Declaration::Query { query } => out.push(query),
        _ => Ok(()),
    }
}

/// The relations among declarations.
fn relations_in<'a>(
    alloc: Global,
    declarations: &'a [Declaration],
) -> Result<Seq<&'a RelationTree>, NoMemory>
    ensures { IfOk result (λ found. map (λ r. r.now) found ≡ filter_map relation_in declarations.now) }
{
    let mut out = Seq::new(alloc);
    for declaration in declarations {
        push_relation(declaration, &mut out)?;
    }
    Ok(out)
}

/// The keys among declarations.
fn keys_in<'a>(alloc: Global, declarations: &'a [Declaration]) -> Result<Seq<&'a KeyTree>, NoMemory>
    ensures { IfOk result (λ found. map (λ r. r.now) found ≡ filter_map key_in declarations.now) }
{
    let mut out = Seq::new(alloc);
    for declaration in declarations {
        push_key(declaration, &mut out)?;
    }
    Ok(out)
}

/// The queries among declarations.
fn queries_in<'a>(
    alloc: Global,
    declarations: &'a [Declaration],
) -> Result<Seq<&'a QueryTree>, NoMemory>
    ensures { IfOk result (λ found. map (λ r. r.now) found ≡ filter_map query_in declarations.now) }
{
    let mut out = Seq::new(alloc);
    for declaration in declarations {
        push_query(declaration, &mut out)?;
    }
    Ok(out)
}

/// The relations of a script, in the order of the text (QVT 1.3, section 7.11.1).
pub fn relations_of(alloc: Global, script: &Script) -> Result<Seq<&RelationTree>, NoMemory>
    ensures { IfOk result (λ found. map (λ r. r.now) found ≡ relations script.now) }
{
    relations_in(alloc, script.declarations.as_slice())
}

/// The keys of a script, in the order of the text (QVT 1.3, section 7.10.2).
pub fn keys_of(alloc: Global, script: &Script) -> Result<Seq<&KeyTree>, NoMemory>
    ensures { IfOk result (λ found. map (λ r. r.now) found ≡ keys script.now) }
{
    keys_in(alloc, script.declarations.as_slice())
}

/// The queries of a script, in the order of the text (QVT 1.3, section 7.11.1.4).
pub fn queries_of(alloc: Global, script: &Script) -> Result<Seq<&QueryTree>, NoMemory>
    ensures { IfOk result (λ found. map (λ r. r.now) found ≡ queries script.now) }
{
    queries_in(alloc, script.declarations.as_slice())
}
