ghost use Rattle.std.specs.Prelude.{◌≡◌, ◌+◌, map, All, Option, Some, IfOk, OnOk};
ghost use Rattle.qv_syntax.specs.declared.script.TemplateTree.{out-TemplateTree};
ghost use Rattle.ocl_environments.specs.Written.{IfFault};
ghost use Rattle.qv_syntax.specs.declared.name.Name.{Name as NameTree};
ghost use Rattle.script_scopes.specs.Environments.{place_of as place};
ghost use Rattle.script_scopes.specs.Occurrences.{variable_text as text_of_variable, in_turn, template_body, item_pieces};
ghost use Rattle.script_scopes.specs.ResolvedTemplates.{class_named as class_of_path, IsTemplate, AreItems, IsItem};
ghost use Rattle.qvtr_types.specs.TemplatePieces.{IsMeant, IsPieceFault};

use crate::domain_scope::DomainScope;
use crate::items::{item_property, item_value, nested_class};
use mof_metamodel::{ClassId, Seq, or_drop};
use ocl_environments::TypeError;
use qv_syntax::{Item, ItemTree, ItemValue, ItemValueTree, Path, TemplateTree, Tmpl};
use script_scopes::{BorrowedProperty, next_number};
use std::alloc::Global;

/// A template, which has this number, and the number of the next one (QVT 1.3, section 7.11.2). `head` has the number of its variable and
/// its class. Each item is as the property asks that it names.
///
/// # Errors
///
/// `UnknownName` with a path that names no class of the domain's metamodel, or with an item's name that the class has no property of; a
/// fault that stands in an item's expression; `WrongType` and `ModelMix` where a value doesn't fit its property; any one where several
/// stand; and `NoMemory`.
#[cycle(templates)]
pub(crate) fn resolve_template(
    alloc: Global,
    scope: &DomainScope<'_>,
    k: u32,
    head: (u32, ClassId),
    tree: &TemplateTree,
) -> Result<(Tmpl, u32), TypeError>
    requires { class_of_path scope.now (out-TemplateTree tree.now).class ≡ Some head.1 }
    ensures is { IfOk result (λ r. (v : Option NameTree) → head.0 ≡ place (text_of_variable k v) scope.now.variables → IsTemplate scope.now k v tree.now r.0 r.1) }
    ensures next { IfOk result (λ r. r.1 ≡ k + (1 + (template_body tree.now).items.count)) }
    ensures meant { OnOk result (All (IsMeant scope.now) ((template_body tree.now).items.from (k + 1) (template_body tree.now).class)) }
    ensures fault { IfFault result (IsPieceFault scope.now ((template_body tree.now).items.from (k + 1) (template_body tree.now).class)) }
{
    let (var, class) = head;
    let first = next_number(k)?;
    let of = (class, &tree.class);
    let (items, last) = resolve_items(alloc, scope, first, of, tree.items.as_slice())?;
    Ok((Tmpl { var, class, items }, last))
}

/// The items of a template of this class and path, whose nested templates have numbers from `first` on.
#[cycle(templates)]
fn resolve_items(
    alloc: Global,
    scope: &DomainScope<'_>,
    first: u32,
    of: (ClassId, &Path),
    trees: &[ItemTree],
) -> Result<(Seq<Item>, u32), TypeError>
    requires { class_of_path scope.now of.1.now ≡ Some of.0 }
    ensures are { IfOk result (λ r. AreItems scope.now of.entry.0 first trees.now r.0 r.1) }
    ensures next { IfOk result (λ r. r.1 ≡ first + (in_turn (map item_pieces trees.now)).count) }
    ensures meant { OnOk result (All (IsMeant scope.now) ((in_turn (map item_pieces trees.now)).from first of.entry.1.now)) }
    ensures fault { IfFault result (IsPieceFault scope.now ((in_turn (map item_pieces trees.now)).from first of.entry.1.now)) }
{
    let mut items = Seq::new(alloc);
    let mut k = first;
    for tree in trees {
        let (item, after) = or_drop!(resolve_item(alloc, scope, k, of, tree); items);
        or_drop!(items.push(item); items);
        k = after;
    }
    Ok((items, k))
}

/// An item of such a template.
#[cycle(templates)]
fn resolve_item(
    alloc: Global,
    scope: &DomainScope<'_>,
    k: u32,
    of: (ClassId, &Path),
    tree: &ItemTree,
) -> Result<(Item, u32), TypeError>
    requires { class_of_path scope.now of.1.now ≡ Some of.0 }
    ensures is { IfOk result (λ r. IsItem scope.now of.entry.0 k tree.now r.0 r.1) }
    ensures next { IfOk result (λ r. r.1 ≡ k + (item_pieces tree.now).count) }
    ensures meant { OnOk result (All (IsMeant scope.now) ((item_pieces tree.now).from k of.entry.1.now)) }
    ensures fault { IfFault result (IsPieceFault scope.now ((item_pieces tree.now).from k of.entry.1.now)) }
{
    let at = BorrowedProperty {
        class: of.1,
        name: &tree.prop.text,
    };
    let (prop, ty) = item_property(alloc, scope, of.0, at)?;
    match &tree.value {
        ItemValueTree::Expr { value } => {
            let value = item_value(alloc, scope, &ty, &tree.prop.text, value);
            drop(ty);
            let value = value?;
            Ok((Item { prop, value }, k))
        }
        ItemValueTree::Nested { variable, template } => {
            let class = nested_class(alloc, scope, &ty, &template.class);
            drop(ty);
            let class = class?;
            let var = scope.variable(alloc, k, variable)?;
            let (inner, after) = resolve_template(alloc, scope, k, (var, class), template)?;
            let value = ItemValue::Nested { template: inner };
            Ok((Item { prop, value }, after))
        }
    }
}
