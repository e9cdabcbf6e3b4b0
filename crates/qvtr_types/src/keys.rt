ghost use Rattle.std.specs.Prelude.{◌≡◌, ℕ, List, map, length, Some, None, Contains, All, AllPairs, IfOk, OnOk, MatchOption};
ghost use Rattle.std.specs.List.{AllZip};
ghost use Rattle.qv_syntax.specs.declared.program.Program.{Program};
ghost use Rattle.qv_syntax.specs.Keys.{AreOfTwoClasses, AreKeys as AreProgramKeys};
ghost use Rattle.ocl_environments.specs.declared.fault.TypeFault.{TypeFault as Fault};
ghost use Rattle.ocl_environments.specs.declared.fault.TypeFault.TheVariants.{UnknownName};
ghost use Rattle.ocl_environments.specs.Environments.{Environment};
ghost use Rattle.ocl_environments.specs.Naming.{texts_of};
ghost use Rattle.ocl_environments.specs.Written.{IfFault};
ghost use Rattle.script_scopes.specs.Declarations.{key_class as class_of_key, key_property as property_number, keys_of as keys_in_script};
ghost use Rattle.script_scopes.specs.Keys.{IsKey, IsShaped, StandsInKey, AreKeys, StandsInKeys};
ghost use Rattle.qvtr_types.specs.ClassPlaces.{IsClassAt};
ghost use Rattle.qvtr_types.specs.KeySearches.{IsLacking, IsSecond, IsSecondFault, AreEachKeys, StandsInOneKey};

use crate::met_classes::MetClasses;
use crate::properties::prop_named;
use mof_metamodel::{ClassId, NoMemory, PropId, Seq, Text};
use ocl_environments::{Env, TypeError, TypeFault, path_text};
use qv_syntax::{Key, KeyTree, Name, Script};
use script_scopes::{first_repeat, keys_of};
use std::alloc::Global;

/// The class of a key, with the number of its metamodel.
fn key_class(alloc: Global, env: &Env<'_>, tree: &KeyTree) -> Result<(u32, ClassId), TypeError>
    ensures found { IfOk result (λ class. class_of_key env.now tree.now ≡ Some class) }
    ensures fault { IfFault result (StandsInKey env.now tree.now) }
{
    match env.named_class(&tree.class) {
        Some(class) => Ok(class),
        None => {
            let text = path_text(alloc, &tree.class)?;
            Err(TypeError::Fault(TypeFault::UnknownName(text)))
        }
    }
}

/// The property of this name of a class, or the fault that there is none.
fn key_prop(
    alloc: Global,
    env: &Env<'_>,
    class: (u32, ClassId),
    name: &Text,
) -> Result<PropId, TypeError>
    requires { IsClassAt env.now.metas class }
    ensures found { IfOk result (λ prop. property_number env.now class name.now ≡ Some prop.0) }
    ensures fault { IfFault result (λ f. (property_number env.now class name.now ≡ None) × (f ≡ UnknownName name.now)) }
{
    match prop_named(env.metas(), class, name) {
        Some(prop) => Ok(prop),
        None => {
            let text = name.duplicate(alloc)?;
            Err(TypeError::Fault(TypeFault::UnknownName(text)))
        }
    }
}

/// The properties of these names of a class.
fn key_props(
    alloc: Global,
    env: &Env<'_>,
    class: (u32, ClassId),
    names: &[Name],
) -> Result<Seq<PropId>, TypeError>
    requires { IsClassAt env.now.metas class }
    ensures found { IfOk result (λ props. AllZip (λ name prop. property_number env.now class name.text ≡ Some prop.0) names.now props) }
    ensures fault { IfFault result (IsLacking env.now class names.now) }
{
    let mut props = Seq::new(alloc);
    for name in names {
        let prop = key_prop(alloc, env, class, &name.text)?;
        props.push(prop)?;
    }
    Ok(props)
}

/// The texts of names.
fn texts(alloc: Global, names: &[Name]) -> Result<Seq<Text>, NoMemory>
    ensures { IfOk result (λ out. out ≡ texts_of names.now) }
{
    let mut out = Seq::new(alloc);
    for name in names {
        out.push(name.text.duplicate(alloc)?)?;
    }
    Ok(out)
}

/// Refuses a key that has no property, or one twice.
fn refuse_shape(alloc: Global, tree: &KeyTree) -> Result<(), TypeError>
    ensures shaped { OnOk result (IsShaped tree.now) }
    ensures fault { IfFault result (λ f. (env : Environment) → StandsInKey env tree.now f) }
{
    if tree.props.is_empty() {
        let text = path_text(alloc, &tree.class)?;
        return Err(TypeError::Fault(TypeFault::KeyShape(text)));
    }
    let names = texts(alloc, tree.props.as_slice())?;
    match first_repeat(alloc, names.as_slice())? {
        Some(name) => Err(TypeError::Fault(TypeFault::KeyShape(name))),
        None => Ok(()),
    }
}

/// A key with its names resolved.
fn resolve_key(alloc: Global, env: &Env<'_>, tree: &KeyTree) -> Result<Key, TypeError>
    ensures is { IfOk result (λ key. IsKey env.now tree.now key) }
    ensures shaped { OnOk result (IsShaped tree.now) }
    ensures fault { IfFault result (StandsInKey env.now tree.now) }
{
    let class = key_class(alloc, env, tree)?;
    refuse_shape(alloc, tree)?;
    let props = key_props(alloc, env, class, tree.props.as_slice())?;
    Ok(Key {
        meta: class.0,
        class: class.1,
        props,
    })
}

/// Keys one behind the other.
fn resolve_all(alloc: Global, env: &Env<'_>, trees: &[&KeyTree]) -> Result<Seq<Key>, TypeError>
    ensures are { IfOk result (λ keys. AreEachKeys env.now (map (λ t. t.now) trees.now) keys) }
    ensures fault { IfFault result (StandsInOneKey env.now (map (λ t. t.now) trees.now)) }
{
    let mut keys = Seq::new(alloc);
    for tree in trees {
        let key = resolve_key(alloc, env, tree)?;
        keys.push(key)?;
    }
    Ok(keys)
}

/// The place of the first key whose class an earlier one has.
fn second_place(alloc: Global, keys: &[Key]) -> Result<Option<usize>, NoMemory>
    ensures { IfOk result (λ found. MatchOption found (AllPairs AreOfTwoClasses keys.now) (IsSecond keys.now)) }
{
    let mut met = MetClasses::new(alloc);
    for (place, key) in keys.iter().enumerate() {
        let is_new = met.meet((key.meta, key.class.0))?;
        if !is_new {
            return Ok(Some(place));
        }
    }
    Ok(None)
}

/// Refuses keys of which two are of one class.
fn refuse_second(alloc: Global, trees: &[&KeyTree], keys: &[Key]) -> Result<(), TypeError>
    requires { length trees.now ≡ length keys.now }
    ensures apart { OnOk result (AllPairs AreOfTwoClasses keys.now) }
    ensures fault { IfFault result (IsSecondFault (map (λ t. t.now) trees.now) keys.now) }
{
    match second_place(alloc, keys)? {
        Some(place) => {
            let text = path_text(alloc, &trees[place].class)?;
            Err(TypeError::Fault(TypeFault::KeyShape(text)))
        }
        None => Ok(()),
    }
}

/// The keys of a script, with their names resolved (QVT 1.3, section 7.10.2): each names one class and one or more of its properties,
/// each once, and a class has at most one key.
///
/// # Errors
///
/// `UnknownName` with a path that names no class alone, or with a name that the class has no property of; `KeyShape` with the path of
/// a key that has no property or whose class has a key before it, or with a property that stands twice; any one where several stand;
/// and `NoMemory`.
pub fn resolve_keys(alloc: Global, env: &Env<'_>, script: &Script) -> Result<Seq<Key>, TypeError>
    ensures are { IfOk result (λ keys. AreKeys env.now (keys_in_script script.now) keys) }
    ensures meant { IfOk result (λ keys. (program : Program) → program.keys ≡ keys → AreProgramKeys env.now.metas program) }
    ensures none { OnOk result ((f : Fault) → ¬ StandsInKeys env.now (keys_in_script script.now) f) }
    ensures fault { IfFault result (StandsInKeys env.now (keys_in_script script.now)) }
{
    let trees = keys_of(alloc, script)?;
    let keys = resolve_all(alloc, env, trees.as_slice())?;
    refuse_second(alloc, trees.as_slice(), keys.as_slice())?;
    Ok(keys)
}
