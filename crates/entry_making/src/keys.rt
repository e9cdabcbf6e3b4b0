//! Where the values of the key properties of the templates of a relation come from.
ghost use Rattle.std.specs.Prelude.{◌≡◌, ◌<◌, map, All, IfOk, IfSome};
ghost use Rattle.std.specs.Option.{option_map, option_copied};
ghost use Rattle.std.specs.List.{find};
ghost use Rattle.mof_metamodel.specs.Metamodels.{prop_count, opposite_of};
ghost use Rattle.repair_semantics.specs.TargetItems.{variable_of, class_of_variable, class_in, key_of, is_key_of, target_meta_number};
ghost use Rattle.repair_semantics.specs.Making.{first_item, item_around, is_item_at, is_option_of};
ghost use Rattle.entry_making.specs.Items.{shown_content, shown_item, IsItemOf};
ghost use Rattle.entry_making.specs.Givers.{shown_origin, expression_giver, content_giver, parent_giver, key_giver};

use crate::content::{Content, OwnedItem};
use crate::origin::Origin;
use mof_metamodel::{ClassId, MetaModel, NoMemory, PropId, Seq};
use qv_syntax::{Key, Node, Program, Rel, Ty, Typed};
use std::alloc::Global;

/// What gives the value of an expression.
pub(crate) fn expression_origin(e: &Typed) -> Origin<'_>
    ensures { shown_origin result ≡ expression_giver e.now }
{
    match &e.node {
        Node::Variable { number } => Origin::Variable(*number),
        _ => Origin::Expression(e),
    }
}

/// What gives the value of an item.
pub(crate) fn content_origin(content: Content<'_>) -> Origin<'_>
    ensures { shown_origin result ≡ content_giver (shown_content content.entry) }
{
    match content {
        Content::Empty => Origin::Nothing,
        Content::Expression(e) => expression_origin(e),
        Content::Template(v) => Origin::Variable(v),
    }
}

/// Whether the item stands in the template of the variable, at the property.
fn is_item_at(item: &OwnedItem<'_>, variable: usize, prop: PropId) -> bool
    ensures { result ≡ is_item_at variable prop.0 (shown_item item.now) }
{
    item.owner as usize == variable && item.prop.0 == prop.0
}

/// The first item of the template of a variable at a property.
fn first_item<'p>(items: &[OwnedItem<'p>], variable: usize, prop: PropId) -> Option<OwnedItem<'p>>
    ensures { option_map shown_item result ≡ first_item (map shown_item items.now) variable prop.0 }
{
    for item in items {
        if is_item_at(item, variable, prop) {
            return Some(*item);
        }
    }
    None
}

/// Whether the content is the template of the variable.
fn is_template_of(content: Content<'_>, variable: usize) -> bool
    ensures { result ≡ is_option_of (variable_of (shown_content content.entry)) variable }
{
    match content {
        Content::Template(v) => v as usize == variable,
        Content::Empty | Content::Expression(_) => false,
    }
}

/// The item in which the template of a variable stands.
fn item_around<'p>(
    meta: &MetaModel,
    items: &[OwnedItem<'p>],
    variable: usize,
) -> Option<OwnedItem<'p>>
    requires { All (IsItemOf meta.now) items.now }
    ensures item { option_map shown_item result ≡ item_around (map shown_item items.now) variable }
    ensures within { IfSome result (IsItemOf meta.now) }
{
    for item in items {
        if is_template_of(item.content, variable) {
            return Some(*item);
        }
    }
    None
}

/// Whether the property is the opposite of the other one.
fn is_opposite(meta: &MetaModel, of: PropId, prop: PropId) -> bool
    requires { of.0 < prop_count meta.now }
    ensures { result ≡ is_option_of (opposite_of meta.now of.0) prop.0 }
{
    match meta.opposite(of) {
        Some(opposite) => opposite.0 == prop.0,
        None => false,
    }
}

/// The object of the template around, where the property is the opposite of that at which the template stands in it.
fn parent_origin<'p>(meta: &MetaModel, prop: PropId, around: Option<OwnedItem<'p>>) -> Origin<'p>
    requires { IfSome around (IsItemOf meta.now) }
    ensures { shown_origin result ≡ parent_giver meta.now prop.0 (option_map shown_item around.entry) }
{
    match around {
        Some(item) => {
            if is_opposite(meta, item.prop, prop) {
                Origin::Variable(item.owner)
            } else {
                Origin::Nothing
            }
        }
        None => Origin::Nothing,
    }
}

/// What gives the value of a key property of the template of a variable.
fn key_origin<'p>(
    meta: &MetaModel,
    items: &[OwnedItem<'p>],
    variable: usize,
    prop: PropId,
) -> Origin<'p>
    requires { All (IsItemOf meta.now) items.now }
    ensures { shown_origin result ≡ key_giver meta.now (map shown_item items.now) variable prop }
{
    match first_item(items, variable, prop) {
        Some(item) => content_origin(item.content),
        None => parent_origin(meta, prop, item_around(meta, items, variable)),
    }
}

/// What gives the values of the key properties of the template of a variable.
pub(crate) fn key_origins<'p>(
    alloc: Global,
    meta: &MetaModel,
    items: &[OwnedItem<'p>],
    variable: usize,
    props: &[PropId],
) -> Result<Seq<Origin<'p>>, NoMemory>
    requires { All (IsItemOf meta.now) items.now }
    ensures { IfOk result (λ keys. map shown_origin keys ≡ map (key_giver meta.now (map shown_item items.now) variable) props.now) }
{
    let mut keys = Seq::new(alloc);
    for prop in props {
        keys.push(key_origin(meta, items, variable, *prop))?;
    }
    Ok(keys)
}

/// The class that a type is.
fn class_in(ty: &Ty) -> Option<ClassId>
    ensures { option_map (λ c. c.0) result ≡ class_in ty.now }
{
    match ty {
        Ty::Class(_, class) => Some(*class),
        _ => None,
    }
}

/// The class of an object variable.
pub(crate) fn class_of_variable(rel: &Rel, variable: usize) -> Option<ClassId>
    ensures { option_map (λ c. c.0) result ≡ class_of_variable rel.now variable }
{
    match rel.vars.as_slice().get(variable) {
        Some(var) => class_in(&var.ty),
        None => None,
    }
}

/// The number of the metamodel of the target model.
fn target_meta_number(program: &Program) -> u32
    ensures { result ≡ target_meta_number program.now }
{
    match program.models.as_slice().get(program.target as usize) {
        Some(slot) => slot.meta,
        None => 0,
    }
}

/// Whether the key is that of a class of the target.
fn is_key_of(program: &Program, class: ClassId, key: &Key) -> bool
    ensures { result ≡ is_key_of program.now class.0 key.now }
{
    key.meta == target_meta_number(program) && key.class.0 == class.0
}

/// The key of a class of the target.
fn class_key<'p>(program: &'p Program, class: ClassId) -> Option<&'p Key>
    ensures { option_copied result ≡ find (is_key_of program.now class.0) program.now.keys }
{
    for key in program.keys.as_slice() {
        if is_key_of(program, class, key) {
            return Some(key);
        }
    }
    None
}

/// The properties of the key of a class of the target.
pub(crate) fn key_of<'p>(program: &'p Program, class: ClassId) -> Option<&'p [PropId]>
    ensures { option_copied result ≡ key_of program.now class.0 }
{
    match class_key(program, class) {
        Some(key) => Some(key.props.as_slice()),
        None => None,
    }
}
