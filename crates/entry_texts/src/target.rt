//! The metamodel of the target, and names in it; what isn't there has none.
ghost use Rattle.std.specs.Prelude.{◌≡◌};
ghost use Rattle.std.specs.Option.{option_map_or};
ghost use Rattle.fault_lines.specs.Lines.{shown};
ghost use Rattle.mof_metamodel.specs.Metamodels.{class_at, prop_at, prop_count};
ghost use Rattle.repair_semantics.specs.TargetItems.{target_metamodel, no_metamodel};
ghost use Rattle.entry_texts.specs.Naming.{number_behind};

use mof_metamodel::{ClassId, MetaModel, PropId};
use ocl_eval::Models;
use qv_syntax::Program;

/// The metamodel of the target, if there is a model of its number.
pub(crate) fn target_meta<'m>(program: &Program, models: &Models<'m>) -> Option<&'m MetaModel>
    ensures { option_map_or (λ m. m.now) result no_metamodel ≡ target_metamodel program.now models.now }
{
    match models.get(program.target as usize) {
        Some(model) => Some(model.meta()),
        None => None,
    }
}

/// The number behind that of the last of some properties, or 0.
fn number_behind(props: &[PropId]) -> usize
    ensures { result ≡ number_behind props.now }
{
    match props.last() {
        Some(prop) => prop.0 as usize + 1,
        None => 0,
    }
}

/// How many properties a metamodel has: a class has its own behind those that it inherits.
pub(crate) fn prop_count(meta: &MetaModel) -> usize
    ensures { result ≡ prop_count meta.now }
{
    let mut count: usize = 0;
    for class in 0..meta.class_count() {
        count = count.max(number_behind(meta.props(ClassId(class))));
    }
    count
}

/// The name of a class, nothing where there is none of this number.
pub(crate) fn class_name(meta: &MetaModel, class: ClassId) -> &str
    ensures { result.now ≡ shown (class_at meta.now class.0).name }
{
    if class.0 < meta.class_count() {
        meta.class_name(class)
    } else {
        ""
    }
}

/// The name of a property, nothing where there is none of this number.
pub(crate) fn prop_name(meta: &MetaModel, count: usize, prop: PropId) -> &str
    requires { count ≡ prop_count meta.now }
    ensures { result.now ≡ shown (prop_at meta.now prop.0).name }
{
    if (prop.0 as usize) < count {
        meta.prop(prop).name.as_str()
    } else {
        ""
    }
}
