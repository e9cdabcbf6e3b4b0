ghost use Rattle.std.specs.Prelude.{◌≡◌, ◌++◌, map, IfOk, OnOk};
ghost use Rattle.std.specs.List.{flat_map};
ghost use Rattle.script_scopes.specs.VariableTypes.{written_in, primitive_written, written_types as types_written, shown_written};

use mof_metamodel::{NoMemory, Seq, Text};
use qv_syntax::{DomainTree, Name, RelationTree, TypeTree, VarsTree};
use std::alloc::Global;

/// A variable with the type that is written for it.
#[derive(Clone, Copy)]
pub struct WrittenType<'a> {
    pub name: &'a Text,
    pub tree: &'a TypeTree,
}

/// Names with the type that is written for all of them.
fn add_names<'a>(
    names: &'a [Name],
    tree: &'a TypeTree,
    out: &mut Seq<WrittenType<'a>>,
) -> Result<(), NoMemory>
    ensures { OnOk result (map shown_written out.new ≡ map shown_written out.old ++ map (λ n. (n.text, tree.now)) names.now) }
{
    for name in names {
        out.push(WrittenType {
            name: &name.text,
            tree,
        })?;
    }
    Ok(())
}

/// The variables of declarations one behind the other.
fn add_declarations<'a>(
    declarations: &'a [VarsTree],
    out: &mut Seq<WrittenType<'a>>,
) -> Result<(), NoMemory>
    ensures { OnOk result (map shown_written out.new ≡ map shown_written out.old ++ flat_map written_in declarations.now) }
{
    for vars in declarations {
        add_names(vars.names.as_slice(), &vars.ty, out)?;
    }
    Ok(())
}

/// The root of a domain, if it is a primitive one.
fn push_primitive<'a>(
    domain: &'a DomainTree,
    out: &mut Seq<WrittenType<'a>>,
) -> Result<(), NoMemory>
    ensures { OnOk result (map shown_written out.new ≡ map shown_written out.old ++ primitive_written domain.now) }
{
    match domain {
        DomainTree::Pattern { .. } => Ok(()),
        DomainTree::Primitive { root, ty, .. } => out.push(WrittenType {
            name: &root.text,
            tree: ty,
        }),
    }
}

/// The roots of the primitive ones among domains.
fn add_primitives<'a>(
    domains: &'a [DomainTree],
    out: &mut Seq<WrittenType<'a>>,
) -> Result<(), NoMemory>
    ensures { OnOk result (map shown_written out.new ≡ map shown_written out.old ++ flat_map primitive_written domains.now) }
{
    for domain in domains {
        push_primitive(domain, out)?;
    }
    Ok(())
}

/// The types that a relation writes for its variables, in the order of the text: in declarations of variables, and in primitive domains
/// (QVT 1.3, sections 7.11.1.4 and 7.11.1.6).
pub fn written_types<'a>(
    alloc: Global,
    r: &'a RelationTree,
) -> Result<Seq<WrittenType<'a>>, NoMemory>
    ensures { IfOk result (λ found. map shown_written found ≡ types_written r.now) }
{
    let mut out = Seq::new(alloc);
    add_declarations(r.vars.as_slice(), &mut out)?;
    add_primitives(r.domains.as_slice(), &mut out)?;
    Ok(out)
}
