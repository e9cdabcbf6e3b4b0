//! E1, E3 and E4: what the target domain and the where clause of a relation have to be (QVT 1.3, sections 7.10.2 and 7.11.2).
ghost use Rattle.std.specs.Prelude.{◌≡◌, ◌↔◌, ◌++◌, ◌<◌, ◌&&◌, map, length, Contains, IfOk, OnOk, IsTrue};
ghost use Rattle.std.specs.List.{list_any, list_all, flat_map};
ghost use Rattle.mof_metamodel.specs.Metamodels.{class_count, prop_count};
ghost use Rattle.ocl_environments.specs.Environments.{meta_at};
ghost use Rattle.qv_syntax.specs.declared.ty.Ty.TheVariants as types;
ghost use Rattle.qv_syntax.specs.declared.program.Tmpl.{out-Tmpl};
ghost use Rattle.qv_syntax.specs.declared.program.Item.{Item};
ghost use Rattle.enforcement_rules.specs.KnownTests.{IsKnownTable, is_over_known, is_marked};
ghost use Rattle.enforcement_rules.specs.NumberSets.{is_among, has};
ghost use Rattle.enforcement_rules.specs.Patterns.{IsUnmarked, HasUnsettledPart, HasUnmadeObject};
ghost use Rattle.enforcement_rules.specs.PatternTests.{is_unmarked, is_settled_conjunct, fits_property, is_object_settled, is_settled_expression, is_settled_item, is_settled_template, AreSound, concrete_variable, concrete_variables, target_root, handed_roots, is_unmade, has_unmade};
ghost use Rattle.enforcement_rules.specs.Standings.{shown_standing, AreTargetTemplates};
ghost use Rattle.enforcement_rules.specs.TargetParts.{target_meta};
ghost use Rattle.enforcement_rules.specs.Tasks.{IsRelationOf};

use crate::expressions::variable_alone;
use crate::known::is_marked;
use crate::number_set::NumberSet;
use crate::standing::Standing;
use crate::target::{has_class, is_object_variable, is_of_target, is_target_variable};
use crate::task::Task;
use crate::variables::variables_of;
use mof_metamodel::{NoMemory, PropId, Seq};
use ocl_environments::{fits, prop_type};
use qv_syntax::{Conj, Dom, Item, ItemValue, Marker, Program, Rel, Tmpl, Ty, Typed};

/// Whether a domain of the target isn't marked enforce.
fn is_unmarked(program: &Program, dom: &Dom) -> bool
    ensures { result ≡ is_unmarked program.now dom.now }
{
    match dom.marker {
        Marker::Enforce => false,
        Marker::Checkonly | Marker::Primitive => is_of_target(program, dom.model),
    }
}

/// Whether one of the domains is.
fn any_unmarked(program: &Program, rel: &Rel) -> bool
    ensures { result ≡ list_any (is_unmarked program.now) rel.now.domains }
{
    for dom in rel.domains.as_slice() {
        if is_unmarked(program, dom) {
            return true;
        }
    }
    false
}

/// E1, broken: whether the domain of the target isn't marked enforce.
pub(crate) fn is_unmarked_relation(program: &Program, rel: &Rel) -> bool
    ensures { IsTrue result ↔ IsUnmarked program.now rel.now }
{
    any_unmarked(program, rel)
}

/// Whether each of the variables is known.
fn all_known(known: &[bool], variables: &[u32]) -> bool
    ensures { result ≡ list_all (is_marked known.now) variables.now }
{
    for v in variables {
        if !is_marked(known, *v) {
            return false;
        }
    }
    true
}

/// Whether each variable of the relation that the expression names is known.
fn is_over_known(task: &Task<'_>, known: &[bool], e: &Typed) -> Result<bool, NoMemory>
    ensures { IfOk result (λ b. b ≡ is_over_known task.now.rel.now known.now e.now) }
{
    let variables = variables_of(task.alloc, task.rel.vars.len(), e)?;
    Ok(all_known(known, variables.as_slice()))
}

/// Whether a conjunct of where is a call, an equation, or a condition over known variables.
fn is_settled_conjunct(task: &Task<'_>, known: &[bool], conjunct: &Conj) -> Result<bool, NoMemory>
    ensures { IfOk result (λ b. b ≡ is_settled_conjunct task.now.rel.now known.now conjunct.now) }
{
    match conjunct {
        Conj::Cond(e) => is_over_known(task, known, e),
        Conj::Equation(_, _) | Conj::Call(_, _) => Ok(true),
    }
}

/// Whether each conjunct is.
fn are_settled_conjuncts(
    task: &Task<'_>,
    known: &[bool],
    conjuncts: &[Conj],
) -> Result<bool, NoMemory>
    ensures { IfOk result (λ b. b ≡ list_all (is_settled_conjunct task.now.rel.now known.now) conjuncts.now) }
{
    for conjunct in conjuncts {
        if !is_settled_conjunct(task, known, conjunct)? {
            return Ok(false);
        }
    }
    Ok(true)
}

/// Whether objects of the type may stand at the property of the target's metamodel.
fn fits_property(task: &Task<'_>, prop: PropId, ty: &Ty) -> bool
    requires meta { task.now.meta < length task.now.metas.now }
    requires prop { prop.0 < prop_count (meta_at task.now.metas.now task.now.meta) }
    ensures { result ≡ fits_property task.now.metas.now task.now.meta prop ty.now }
{
    let of = prop_type(task.meta, task.metas.get(task.meta), prop);
    fits(task.metas.as_slice(), ty, &of)
}

/// Whether the expression is a target object variable alone, of a type that fits the property.
fn is_object_settled(task: &Task<'_>, prop: PropId, e: &Typed) -> bool
    requires meta { task.now.meta < length task.now.metas.now }
    requires prop { prop.0 < prop_count (meta_at task.now.metas.now task.now.meta) }
    ensures { result ≡ is_object_settled task.now.metas.now task.now.program.now task.now.rel.now task.now.meta prop e.now }
{
    match variable_alone(e) {
        Some(v) => {
            is_target_variable(task.program, task.rel, v) && fits_property(task, prop, &e.ty)
        }
        None => false,
    }
}

/// Whether a template that an item nests fits the property.
fn is_nested_settled(task: &Task<'_>, prop: PropId, part: &Tmpl) -> bool
    requires meta { task.now.meta < length task.now.metas.now }
    requires prop { prop.0 < prop_count (meta_at task.now.metas.now task.now.meta) }
    ensures { result ≡ fits_property task.now.metas.now task.now.meta prop (types.Class task.now.meta (out-Tmpl part.now).class) }
{
    fits_property(task, prop, &Ty::Class(task.meta, part.class))
}

/// Whether the value of an item is a target object variable alone that fits the property, or data over known variables.
fn is_settled_expression(
    task: &Task<'_>,
    known: &[bool],
    prop: PropId,
    e: &Typed,
) -> Result<bool, NoMemory>
    requires meta { task.now.meta < length task.now.metas.now }
    requires prop { prop.0 < prop_count (meta_at task.now.metas.now task.now.meta) }
    ensures { IfOk result (λ b. b ≡ is_settled_expression task.now.metas.now task.now.program.now task.now.rel.now task.now.meta known.now prop e.now) }
{
    if has_class(&e.ty) {
        return Ok(is_object_settled(task, prop, e));
    }
    is_over_known(task, known, e)
}

/// Whether an item of a target template is settled.
fn is_settled_item(task: &Task<'_>, known: &[bool], item: &Item) -> Result<bool, NoMemory>
    requires meta { task.now.meta < length task.now.metas.now }
    requires prop { item.now.prop.0 < prop_count (meta_at task.now.metas.now task.now.meta) }
    ensures { IfOk result (λ b. b ≡ is_settled_item task.now.metas.now task.now.program.now task.now.rel.now task.now.meta known.now item.now) }
{
    match &item.value {
        ItemValue::Null => Ok(false),
        ItemValue::Expr { value } => is_settled_expression(task, known, item.prop, value),
        ItemValue::Nested { template } => Ok(is_nested_settled(task, item.prop, template)),
    }
}

/// Whether each item of a target template is settled.
fn are_settled_items(task: &Task<'_>, known: &[bool], items: &[Item]) -> Result<bool, NoMemory>
    requires meta { task.now.meta < length task.now.metas.now }
    requires props { (item : Item) → Contains items.now item → item.prop.0 < prop_count (meta_at task.now.metas.now task.now.meta) }
    ensures { IfOk result (λ b. b ≡ list_all (is_settled_item task.now.metas.now task.now.program.now task.now.rel.now task.now.meta known.now) items.now) }
{
    for item in items {
        if !is_settled_item(task, known, item)? {
            return Ok(false);
        }
    }
    Ok(true)
}

/// Whether each item of the target templates is settled.
fn are_settled_templates(
    task: &Task<'_>,
    known: &[bool],
    templates: &[Standing<'_>],
) -> Result<bool, NoMemory>
    requires meta { task.now.meta < length task.now.metas.now }
    requires sound { AreSound (meta_at task.now.metas.now task.now.meta) (map shown_standing templates.now) }
    ensures { IfOk result (λ b. b ≡ list_all (is_settled_template task.now.metas.now task.now.program.now task.now.rel.now task.now.meta known.now) (map shown_standing templates.now)) }
{
    for standing in templates {
        if !are_settled_items(task, known, standing.template.items.as_slice())? {
            return Ok(false);
        }
    }
    Ok(true)
}

/// Whether each conjunct of where and each item of a target template is settled.
fn are_settled(
    task: &Task<'_>,
    known: &[bool],
    templates: &[Standing<'_>],
) -> Result<bool, NoMemory>
    requires meta { task.now.meta < length task.now.metas.now }
    requires sound { AreSound (meta_at task.now.metas.now task.now.meta) (map shown_standing templates.now) }
    ensures { IfOk result (λ b. b ≡ (list_all (is_settled_conjunct task.now.rel.now known.now) task.now.rel.now.wheres
        && list_all (is_settled_template task.now.metas.now task.now.program.now task.now.rel.now task.now.meta known.now) (map shown_standing templates.now))) }
{
    if !are_settled_conjuncts(task, known, task.rel.wheres.as_slice())? {
        return Ok(false);
    }
    are_settled_templates(task, known, templates)
}

/// E3, broken: whether a conjunct of where or an item of a target template isn't settled.
pub(crate) fn has_unsettled(
    task: &Task<'_>,
    known: &[bool],
    templates: &[Standing<'_>],
) -> Result<bool, NoMemory>
    requires meta { task.now.meta < length task.now.metas.now }
    requires target { task.now.meta ≡ target_meta task.now.program.now }
    requires relation { IsRelationOf task.now.metas.now task.now.program.now task.now.rel.now }
    requires known { IsKnownTable task.now.program.now task.now.rel.now known.now }
    requires templates { AreTargetTemplates task.now.program.now task.now.rel.now (map shown_standing templates.now) }
    requires sound { AreSound (meta_at task.now.metas.now task.now.meta) (map shown_standing templates.now) }
    ensures { IfOk result (λ b. IsTrue b ↔ HasUnsettledPart task.now.metas.now task.now.program.now task.now.rel.now) }
{
    // No fault stands in the metamodels.
    let _count = task.metas.len();
    let settled = are_settled(task, known, templates)?;
    Ok(!settled)
}

// ---- E4

/// The variable of a template, if its class isn't abstract.
fn put_concrete(task: &Task<'_>, template: &Tmpl, out: &mut Seq<u32>) -> Result<(), NoMemory>
    requires meta { task.now.meta < length task.now.metas.now }
    requires class { (out-Tmpl template.now).class.0 < class_count (meta_at task.now.metas.now task.now.meta) }
    ensures { OnOk result (out.new ≡ out.old ++ concrete_variable (meta_at task.now.metas.now task.now.meta) template.now) }
{
    if task.metas.get(task.meta).is_abstract(template.class) {
        return Ok(());
    }
    out.push(template.var)
}

/// The variables of templates whose class isn't abstract.
fn concrete_variables(task: &Task<'_>, templates: &[Standing<'_>]) -> Result<Seq<u32>, NoMemory>
    requires meta { task.now.meta < length task.now.metas.now }
    requires sound { AreSound (meta_at task.now.metas.now task.now.meta) (map shown_standing templates.now) }
    ensures { IfOk result (λ out. out ≡ concrete_variables (meta_at task.now.metas.now task.now.meta) (map shown_standing templates.now)) }
{
    let mut out = Seq::new(task.alloc);
    for standing in templates {
        put_concrete(task, standing.template, &mut out)?;
    }
    Ok(out)
}

/// The root of a domain, if it is one of the target.
fn put_root(program: &Program, dom: &Dom, out: &mut Seq<u32>) -> Result<(), NoMemory>
    ensures { OnOk result (out.new ≡ out.old ++ target_root program.now dom.now) }
{
    if is_of_target(program, dom.model) {
        return out.push(dom.root);
    }
    Ok(())
}

/// The roots of the target's domains.
fn put_roots(program: &Program, doms: &[Dom], out: &mut Seq<u32>) -> Result<(), NoMemory>
    ensures { OnOk result (out.new ≡ out.old ++ flat_map (target_root program.now) doms.now) }
{
    for dom in doms {
        put_root(program, dom, out)?;
    }
    Ok(())
}

/// The target's root, where a caller hands it on: in a relation that isn't top.
fn handed_roots(task: &Task<'_>) -> Result<Seq<u32>, NoMemory>
    ensures { IfOk result (λ out. out ≡ handed_roots task.now.program.now task.now.rel.now) }
{
    let mut out = Seq::new(task.alloc);
    if !task.rel.top {
        put_roots(task.program, task.rel.domains.as_slice(), &mut out)?;
    }
    Ok(out)
}

/// Whether an existential variable is for objects that nothing makes: it has no concrete template and isn't handed on.
fn is_unmade(task: &Task<'_>, concrete: &NumberSet, handed: &NumberSet, v: u32) -> bool
    ensures { result ≡ is_unmade task.now.program.now task.now.rel.now (has concrete.now) (has handed.now) v }
{
    is_object_variable(task.rel, v)
        && !handed.contains(v)
        && !(is_target_variable(task.program, task.rel, v) && concrete.contains(v))
}

/// Whether one of the existential variables is.
fn any_unmade(task: &Task<'_>, concrete: &NumberSet, handed: &NumberSet) -> bool
    ensures { result ≡ list_any (is_unmade task.now.program.now task.now.rel.now (has concrete.now) (has handed.now)) task.now.rel.now.existential }
{
    for v in task.rel.existential.as_slice() {
        if is_unmade(task, concrete, handed, *v) {
            return true;
        }
    }
    false
}

/// Whether an existential variable is for objects that nothing makes, of which templates are concrete and which roots are handed on.
fn find_unmade(task: &Task<'_>, variables: &[u32], roots: &[u32]) -> Result<bool, NoMemory>
    ensures { IfOk result (λ b. b ≡ list_any (is_unmade task.now.program.now task.now.rel.now (is_among variables.now) (is_among roots.now)) task.now.rel.now.existential) }
{
    let concrete = NumberSet::of(task.alloc, variables)?;
    let handed = NumberSet::of(task.alloc, roots)?;
    Ok(any_unmade(task, &concrete, &handed))
}

/// The same, of the templates of the target.
fn any_unmade_of(task: &Task<'_>, templates: &[Standing<'_>]) -> Result<bool, NoMemory>
    requires meta { task.now.meta < length task.now.metas.now }
    requires sound { AreSound (meta_at task.now.metas.now task.now.meta) (map shown_standing templates.now) }
    ensures { IfOk result (λ b. b ≡ has_unmade task.now.metas.now task.now.program.now task.now.rel.now task.now.meta (map shown_standing templates.now)) }
{
    let variables = concrete_variables(task, templates)?;
    let roots = handed_roots(task)?;
    find_unmade(task, variables.as_slice(), roots.as_slice())
}

/// E4, broken: whether an existential variable is for objects that nothing makes.
pub(crate) fn has_unmade(task: &Task<'_>, templates: &[Standing<'_>]) -> Result<bool, NoMemory>
    requires meta { task.now.meta < length task.now.metas.now }
    requires target { task.now.meta ≡ target_meta task.now.program.now }
    requires relation { IsRelationOf task.now.metas.now task.now.program.now task.now.rel.now }
    requires templates { AreTargetTemplates task.now.program.now task.now.rel.now (map shown_standing templates.now) }
    requires sound { AreSound (meta_at task.now.metas.now task.now.meta) (map shown_standing templates.now) }
    ensures { IfOk result (λ b. IsTrue b ↔ HasUnmadeObject task.now.metas.now task.now.program.now task.now.rel.now) }
{
    any_unmade_of(task, templates)
}
