//! Templates, and domains with them.
ghost use Rattle.std.specs.Prelude.{◌≡◌, [], ◌∷◌, ◌++◌, IfOk, OnOk};
ghost use Rattle.example_program.specs.Words.{value_item, object_item, template, source_domain, target_domain, primitive_domain};

use crate::models::{SOURCE, TARGET};
use mof_metamodel::{ClassId, NoMemory, PropId, Seq, or_drop};
use qv_syntax::{Dom, Item, ItemValue, Marker, Tmpl, Typed};
use std::alloc::Global;

/// Puts `property = value` behind other items.
pub(crate) fn push_value(items: &mut Seq<Item>, prop: u32, value: Typed) -> Result<(), NoMemory>
    ensures { OnOk result (items.new ≡ items.old ++ value_item prop value ∷ []) }
{
    items.push(Item {
        prop: PropId(prop),
        value: ItemValue::Expr { value },
    })
}

/// Puts `property = template` behind other items.
pub(crate) fn push_template(
    items: &mut Seq<Item>,
    prop: u32,
    template: Tmpl,
) -> Result<(), NoMemory>
    ensures { OnOk result (items.new ≡ items.old ++ object_item prop template ∷ []) }
{
    items.push(Item {
        prop: PropId(prop),
        value: ItemValue::Nested { template },
    })
}

/// `variable : class {items}`
pub(crate) fn template(variable: u32, class: u32, items: Seq<Item>) -> Tmpl
    ensures { result ≡ template variable class items }
{
    Tmpl {
        var: variable,
        class: ClassId(class),
        items,
    }
}

/// `variable : class {}`
pub(crate) fn bare(alloc: Global, variable: u32, class: u32) -> Tmpl
    ensures { result ≡ template variable class [] }
{
    template(variable, class, Seq::new(alloc))
}

/// The source's domain.
fn source_domain(root: u32, pattern: Tmpl) -> Dom
    ensures { result ≡ source_domain root pattern }
{
    Dom {
        model: Some(SOURCE),
        marker: Marker::Checkonly,
        root,
        template: Some(pattern),
    }
}

/// The target's.
fn target_domain(root: u32, pattern: Tmpl) -> Dom
    ensures { result ≡ target_domain root pattern }
{
    Dom {
        model: Some(TARGET),
        marker: Marker::Enforce,
        root,
        template: Some(pattern),
    }
}

/// Puts a primitive domain behind others.
pub(crate) fn push_primitive(domains: &mut Seq<Dom>, root: u32) -> Result<(), NoMemory>
    ensures { OnOk result (domains.new ≡ domains.old ++ primitive_domain root ∷ []) }
{
    domains.push(Dom {
        model: None,
        marker: Marker::Primitive,
        root,
        template: None,
    })
}

/// The domains of the source and of the target, each with its root and its template.
pub(crate) fn two_domains(
    alloc: Global,
    from: (u32, Tmpl),
    to: (u32, Tmpl),
) -> Result<Seq<Dom>, NoMemory>
    ensures { IfOk result (λ domains. domains ≡ source_domain from.0 from.1 ∷ target_domain to.0 to.1 ∷ []) }
{
    let (source_root, source) = from;
    let (target_root, target) = to;
    let mut domains = Seq::new(alloc);
    or_drop!(domains.push(source_domain(source_root, source)); domains, target);
    or_drop!(domains.push(target_domain(target_root, target)); domains);
    Ok(domains)
}
