ghost use Rattle.std.specs.Prelude.{◌≡◌, ◌<◌, chars, IfOk, Some};
ghost use Rattle.std.specs.Fmt.{signed_decimal};
ghost use Rattle.mof_metamodel.specs.Metamodels.{prop_count, opposite_of};
ghost use Rattle.object_tables.specs.Models.{is_class_type};
ghost use Rattle.model_assembly.specs.Forms as forms;
ghost use Rattle.model_assembly.specs.Profile as profile;
ghost use Rattle.xmi_profile.specs.Canon as canon;
ghost use Rattle.xmi_profile.specs.Writable.{IsTold, chosen_form};

use model_assembly::Form;
use mof_metamodel::{MetaModel, NoMemory, PropId, PropType, Text};
use object_tables::Value;
use std::alloc::Global;

/// How a property is written in its object's element.
#[tactic(auto, using(crate::proofs::WritingForms::form_from))]
pub(super) fn form_of(meta: &MetaModel, p: PropId) -> Form
    requires { p.0 < prop_count meta.now }
    ensures { result ≡ forms.form_of meta.now p.0 }
{
    let prop = meta.prop(p);
    chosen(
        is_class(prop.ty),
        prop.composite,
        is_opposite_composite(meta, p),
        is_one(prop.upper),
    )
}

/// The form of a reference that is composite, or whose opposite is, and that of an attribute that has at most one value.
fn chosen(class: bool, composite: bool, opposed: bool, one: bool) -> Form
    ensures { result ≡ chosen_form class composite opposed one }
{
    if class {
        if composite {
            Form::Parts
        } else if opposed {
            Form::Nesting
        } else {
            Form::Identifiers
        }
    } else if one {
        Form::Attribute
    } else {
        Form::Elements
    }
}

/// Whether a type is a class.
fn is_class(ty: PropType) -> bool
    ensures { result ≡ is_class_type (Some ty) }
{
    matches!(ty, PropType::Class(_))
}

/// Whether the opposite of a property is composite.
fn is_opposite_composite(meta: &MetaModel, p: PropId) -> bool
    requires { p.0 < prop_count meta.now }
    ensures { result ≡ forms.is_composite meta.now (opposite_of meta.now p.0) }
{
    match meta.opposite(p) {
        Some(q) => meta.prop(q).composite,
        None => false,
    }
}

/// Whether an upper bound is one.
fn is_one(upper: Option<u32>) -> bool
    ensures { result ≡ forms.is_one upper }
{
    match upper {
        Some(upper) => upper == 1,
        None => false,
    }
}

/// The name of a property.
pub(super) fn prop_name<'m>(meta: &'m MetaModel, p: PropId) -> &'m str
    requires { p.0 < prop_count meta.now }
    ensures { chars result.now ≡ profile.prop_name meta.now p.0 }
{
    meta.prop(p).name.as_str()
}

#[tactic(auto, using(crate::proofs::WritingTexts::true_characters, crate::proofs::WritingTexts::false_characters))]
/// The text of a value (XML Schema 1.0 part 2, 3.2 and 3.3: the canonical lexical forms).
pub(super) fn value_text(alloc: Global, meta: &MetaModel, value: &Value) -> Result<Text, NoMemory>
    requires { IsTold meta.now value.now }
    ensures { IfOk result (λ text. text ≡ canon.value_text meta.now value.now) }
{
    match value {
        Value::Str(text) => text.duplicate(alloc),
        Value::Int(number) => number_text(alloc, *number),
        Value::Bool(true) => Text::new(alloc, "true"),
        Value::Bool(false) => Text::new(alloc, "false"),
        Value::Lit(e, number) => meta.literals(*e)[*number as usize].duplicate(alloc),
    }
}

/// A number in decimal digits.
#[tactic(auto, using(crate::proofs::WritingTexts::signed_characters))]
pub(super) fn number_text(alloc: Global, number: i64) -> Result<Text, NoMemory>
    ensures { IfOk result (λ text. text ≡ signed_decimal number) }
{
    let text = format!(in alloc; "{number}")?;
    Ok(Text::from_string(text))
}
