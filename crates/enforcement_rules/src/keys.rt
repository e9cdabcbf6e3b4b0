//! E5, E6 and E8: what the keys of the target's classes have to be (QVT 1.3, section 7.10.2).
ghost use Rattle.std.specs.Prelude.{◌≡◌, ◌↔◌, ◌++◌, ◌<◌, ◌&&◌, ℕ, Some, not, map, length, AllPairs, IfOk, OnOk, IsTrue};
ghost use Rattle.std.specs.Option.{option_map};
ghost use Rattle.std.specs.List.{list_all};
ghost use Rattle.mof_metamodel.specs.Metamodels.{prop_count};
ghost use Rattle.ocl_environments.specs.Environments.{meta_at};
ghost use Rattle.qv_syntax.specs.declared.program.Tmpl.{out-Tmpl};
ghost use Rattle.enforcement_rules.specs.NumberSets.{is_among, has};
ghost use Rattle.enforcement_rules.specs.KeyTests.{key_at, key_props, item_props, opposite_number, given_props, is_given, is_keyed, is_made, is_many_key, has_unkeyed, has_many, AreKeyNumbers, IsKeyTable, HaveVariables};
ghost use Rattle.enforcement_rules.specs.PatternTests.{AreSound, IsSound};
ghost use Rattle.enforcement_rules.specs.Standings.{shown_standing, AreTargetTemplates};
ghost use Rattle.enforcement_rules.specs.Keys.{HasUnkeyedTemplate, HasManyValuedKey};
ghost use Rattle.enforcement_rules.specs.TargetParts.{target_meta};
ghost use Rattle.enforcement_rules.specs.Tasks.{IsRelationOf};
ghost use Rattle.qv_syntax.specs.Keys.{AreOfTwoClasses};
ghost use Rattle.enforcement_rules.specs.declared.standing.Place.{Place};

use crate::class_key::ClassKey;
use crate::number_set::NumberSet;
use crate::standing::{Place, Standing};
use crate::task::Task;
use mof_metamodel::{ClassId, NoMemory, PropId, Seq};
use qv_syntax::{Item, Program};

/// The key of exactly the class, if it has one.
pub(crate) fn key_of(keys: &[Option<ClassKey>], class: ClassId) -> Option<ClassKey>
    ensures { result ≡ key_at keys.now class.0 }
{
    match keys.get(class.0 as usize) {
        Some(key) => *key,
        None => None,
    }
}

/// The properties of a key.
pub(crate) fn key_props(program: &Program, key: ClassKey) -> &[PropId]
    requires { key.key < length program.now.keys }
    ensures { result.now ≡ key_props program.now key }
{
    program.keys.as_slice()[key.key].props.as_slice()
}

/// Whether the relation makes the template's objects: its variable is existential, and no caller hands it on.
pub(crate) fn is_made(task: &Task<'_>, existential: &NumberSet, standing: &Standing<'_>) -> bool
    ensures { result ≡ is_made task.now.rel.now (has existential.now) (shown_standing standing.now) }
{
    existential.contains(standing.template.var) && (task.rel.top || standing.at.is_some())
}

// ---- E5

/// The properties of items.
fn put_props(items: &[Item], out: &mut Seq<u32>) -> Result<(), NoMemory>
    ensures { OnOk result (out.new ≡ out.old ++ item_props items.now) }
{
    for item in items {
        out.push(item.prop.0)?;
    }
    Ok(())
}

/// The opposite of the property at which a template stands.
pub(crate) fn opposite_at(task: &Task<'_>, at: Option<Place>) -> Option<PropId>
    requires meta { task.now.meta < length task.now.metas.now }
    requires place { (place : Place) → at ≡ Some place → place.prop.0 < prop_count (meta_at task.now.metas.now task.now.meta) }
    ensures { option_map (λ p. p.0) result ≡ opposite_number (meta_at task.now.metas.now task.now.meta) at }
{
    match at {
        Some(place) => task.metas.get(task.meta).opposite(place.prop),
        None => None,
    }
}

/// The properties that a template is given: by its items, and by its parent.
fn given_props(task: &Task<'_>, standing: &Standing<'_>) -> Result<Seq<u32>, NoMemory>
    requires meta { task.now.meta < length task.now.metas.now }
    requires sound { IsSound (meta_at task.now.metas.now task.now.meta) (shown_standing standing.now) }
    ensures { IfOk result (λ out. out ≡ given_props (meta_at task.now.metas.now task.now.meta) (shown_standing standing.now)) }
{
    let mut out = Seq::new(task.alloc);
    put_props(standing.template.items.as_slice(), &mut out)?;
    if let Some(p) = opposite_at(task, standing.at) {
        out.push(p.0)?;
    }
    Ok(out)
}

/// Whether a property is given.
fn is_given(given: &NumberSet, p: PropId) -> bool
    ensures { result ≡ is_given (has given.now) p }
{
    given.contains(p.0)
}

/// Whether each of the properties is.
fn all_given(given: &NumberSet, props: &[PropId]) -> bool
    ensures { result ≡ list_all (is_given (has given.now)) props.now }
{
    for p in props {
        if !is_given(given, *p) {
            return false;
        }
    }
    true
}

/// Whether the class of a template has a key, each property of which is given.
fn is_keyed(task: &Task<'_>, standing: &Standing<'_>) -> Result<bool, NoMemory>
    requires meta { task.now.meta < length task.now.metas.now }
    requires sound { IsSound (meta_at task.now.metas.now task.now.meta) (shown_standing standing.now) }
    requires keys { AreKeyNumbers task.now.program.now task.now.keys.now }
    ensures { IfOk result (λ b. b ≡ is_keyed task.now.metas.now task.now.program.now task.now.meta task.now.keys.now (shown_standing standing.now)) }
{
    match key_of(task.keys, standing.template.class) {
        Some(key) => {
            let props = given_props(task, standing)?;
            let given = NumberSet::of(task.alloc, props.as_slice())?;
            Ok(all_given(&given, key_props(task.program, key)))
        }
        None => Ok(false),
    }
}

/// Whether the relation makes the template's objects, and these have no key.
fn is_unkeyed(
    task: &Task<'_>,
    existential: &NumberSet,
    standing: &Standing<'_>,
) -> Result<bool, NoMemory>
    requires meta { task.now.meta < length task.now.metas.now }
    requires sound { IsSound (meta_at task.now.metas.now task.now.meta) (shown_standing standing.now) }
    requires keys { AreKeyNumbers task.now.program.now task.now.keys.now }
    ensures { IfOk result (λ b. b ≡ (is_made task.now.rel.now (has existential.now) (shown_standing standing.now)
        && not (is_keyed task.now.metas.now task.now.program.now task.now.meta task.now.keys.now (shown_standing standing.now)))) }
{
    if !is_made(task, existential, standing) {
        return Ok(false);
    }
    Ok(!is_keyed(task, standing)?)
}

/// Whether the objects of one of the templates have no key.
fn any_unkeyed(
    task: &Task<'_>,
    existential: &NumberSet,
    templates: &[Standing<'_>],
) -> Result<bool, NoMemory>
    requires meta { task.now.meta < length task.now.metas.now }
    requires sound { AreSound (meta_at task.now.metas.now task.now.meta) (map shown_standing templates.now) }
    requires keys { AreKeyNumbers task.now.program.now task.now.keys.now }
    ensures { IfOk result (λ b. b ≡ has_unkeyed task.now.metas.now task.now.program.now task.now.rel.now task.now.meta task.now.keys.now (has existential.now) (map shown_standing templates.now)) }
{
    for standing in templates {
        if is_unkeyed(task, existential, standing)? {
            return Ok(true);
        }
    }
    Ok(false)
}

/// E5, broken: whether the objects of a template of the target have no key, or a property of it isn't given.
pub(crate) fn has_unkeyed(
    task: &Task<'_>,
    existential: &NumberSet,
    templates: &[Standing<'_>],
) -> Result<bool, NoMemory>
    requires meta { task.now.meta < length task.now.metas.now }
    requires target { task.now.meta ≡ target_meta task.now.program.now }
    requires relation { IsRelationOf task.now.metas.now task.now.program.now task.now.rel.now }
    requires one { AllPairs AreOfTwoClasses task.now.program.now.keys }
    requires templates { AreTargetTemplates task.now.program.now task.now.rel.now (map shown_standing templates.now) }
    requires sound { AreSound (meta_at task.now.metas.now task.now.meta) (map shown_standing templates.now) }
    requires variables { HaveVariables task.now.rel.now (map shown_standing templates.now) }
    requires existential { (q : ℕ) → has existential.now q ≡ is_among task.now.rel.now.existential q }
    requires numbers { AreKeyNumbers task.now.program.now task.now.keys.now }
    requires keys { IsKeyTable task.now.metas.now task.now.program.now task.now.keys.now }
    ensures { IfOk result (λ b. IsTrue b ↔ HasUnkeyedTemplate task.now.metas.now task.now.program.now task.now.rel.now) }
{
    any_unkeyed(task, existential, templates)
}

// ---- E6

/// Whether the relation makes the template's objects, and a property of their key may have several values.
fn is_many(task: &Task<'_>, existential: &NumberSet, standing: &Standing<'_>) -> bool
    ensures { result ≡ (is_made task.now.rel.now (has existential.now) (shown_standing standing.now) && is_many_key (key_at task.now.keys.now (out-Tmpl standing.now.template.now).class.0)) }
{
    match key_of(task.keys, standing.template.class) {
        Some(key) => is_made(task, existential, standing) && key.is_many,
        None => false,
    }
}

/// Whether that is so of one of the templates.
fn any_many(task: &Task<'_>, existential: &NumberSet, templates: &[Standing<'_>]) -> bool
    ensures { result ≡ has_many task.now.rel.now task.now.keys.now (has existential.now) (map shown_standing templates.now) }
{
    for standing in templates {
        if is_many(task, existential, standing) {
            return true;
        }
    }
    false
}

/// E6, broken: whether a property of the key of such a template's class may have several values.
pub(crate) fn has_many(task: &Task<'_>, existential: &NumberSet, templates: &[Standing<'_>]) -> bool
    requires relation { IsRelationOf task.now.metas.now task.now.program.now task.now.rel.now }
    requires one { AllPairs AreOfTwoClasses task.now.program.now.keys }
    requires templates { AreTargetTemplates task.now.program.now task.now.rel.now (map shown_standing templates.now) }
    requires variables { HaveVariables task.now.rel.now (map shown_standing templates.now) }
    requires existential { (q : ℕ) → has existential.now q ≡ is_among task.now.rel.now.existential q }
    requires keys { IsKeyTable task.now.metas.now task.now.program.now task.now.keys.now }
    ensures { IsTrue result ↔ HasManyValuedKey task.now.metas.now task.now.program.now task.now.rel.now }
{
    any_many(task, existential, templates)
}
