ghost use Rattle.std.specs.Prelude.{◌≡◌, ◌<◌, ◌≤◌, ◌==◌, ◌^◌, ◌++◌, ◌∷◌, [], length, chars, IfOk, OnOk, Some};
ghost use Rattle.std.specs.List.{fold};
ghost use Rattle.mof_metamodel.specs.declared.desc.PropType.TheVariants as types;
ghost use Rattle.mof_metamodel.specs.Metamodels.{enum_count, IsTypeOf};
ghost use Rattle.mof_metamodel.specs.WellMeta.{is_digit as digit};
ghost use Rattle.xmi_profile.specs.Lexical as lexical;
ghost use Rattle.model_assembly.specs.Values as texts;

use crate::names::is_named;
use model_assembly::empty_text;
use mof_metamodel::{EnumId, MetaModel, NoMemory, PropType, Text, is_blank_character};
use object_tables::Value;
use std::alloc::Global;

/// What was read of an integer.
#[derive(Clone, Copy)]
pub(crate) enum Scan {
    /// Nothing.
    Start,
    /// A sign; whether it is `-`.
    Signed(bool),
    /// Whether a `-` came first, and the number that the digits spell.
    Digits(bool, u64),
    /// No integer, or one outside 64 bits.
    Wrong,
}

fn is_digit(c: char) -> bool
    ensures { result ≡ digit c }
{
    matches!(c, '0'..='9')
}

/// Takes one more digit, if it is one.
fn digit_on(negative: bool, value: u64, c: char) -> Scan
    requires { value ≤ 2 ^ 63 }
    ensures { result ≡ lexical.digit_on negative value c }
{
    if is_digit(c) {
        digits_within(negative, value as u128 * 10 + (c as u32 - 48) as u128)
    } else {
        Scan::Wrong
    }
}

/// Digits that spell this number, if it is one of 64 bits.
fn digits_within(negative: bool, value: u128) -> Scan
    ensures { result ≡ lexical.digits_within negative value }
{
    let limit = if negative { 1 << 63 } else { (1 << 63) - 1 };
    if value <= limit {
        Scan::Digits(negative, value as u64)
    } else {
        Scan::Wrong
    }
}

fn scan_on(scan: Scan, c: char) -> Scan
    requires { lexical.IsSmall scan }
    ensures scan { result ≡ lexical.scan_on scan c }
    ensures small { lexical.IsSmall result }
{
    match scan {
        Scan::Start => match c {
            '+' => Scan::Signed(false),
            '-' => Scan::Signed(true),
            _ => digit_on(false, 0, c),
        },
        Scan::Signed(negative) => digit_on(negative, 0, c),
        Scan::Digits(negative, value) => digit_on(negative, value, c),
        Scan::Wrong => Scan::Wrong,
    }
}

/// The integer with this sign and number.
fn signed(negative: bool, value: u64) -> i64
    requires { value ≤ lexical.limit_of negative }
    ensures { result ≡ lexical.signed_value negative value }
{
    if negative {
        (-(value as i128)) as i64
    } else {
        value as i64
    }
}

fn scanned(scan: Scan) -> Option<i64>
    requires { lexical.IsSmall scan }
    ensures { result ≡ lexical.scanned scan }
{
    match scan {
        Scan::Digits(negative, value) => Some(signed(negative, value)),
        _ => None,
    }
}

/// The integer that a text is, without blanks around it.
pub(crate) fn integer_of(text: &str) -> Option<i64>
    ensures { result ≡ texts.integer_of (chars text.now) }
{
    let mut scan = Scan::Start;
    for c in text.chars() {
        scan = scan_on(scan, c);
    }
    scanned(scan)
}

/// The Boolean that a text is.
#[tactic(auto, using(crate::proofs::Literals::truth, crate::proofs::Literals::one, crate::proofs::Literals::falsehood, crate::proofs::Literals::zero))]
pub(crate) fn boolean_of(text: &str) -> Option<bool>
    ensures { result ≡ texts.boolean_of (chars text.now) }
{
    if is_named(text, "true") || is_named(text, "1") {
        Some(true)
    } else if is_named(text, "false") || is_named(text, "0") {
        Some(false)
    } else {
        None
    }
}

/// A text without the blanks around it, and the blanks behind it.
#[derive(Drop)]
struct Trim {
    text: Text,
    blanks: Text,
}

impl std::marker::Model for Trim {
    ghost use Rattle.xmi_profile.specs.Lexical as lexical;

    ghost Value = { lexical.Trim };

    ghost view = { λ t. (t.text, t.blanks) };
}

impl Trim {
    fn new(alloc: Global) -> Trim
        ensures { result ≡ ([], []) }
    {
        Trim {
            text: empty_text(alloc),
            blanks: empty_text(alloc),
        }
    }

    fn take_blank(&mut self, c: char) -> Result<(), NoMemory>
        ensures { OnOk result (self.new ≡ lexical.trim_blank (length self.old.0 == 0) self.old c) }
    {
        if self.text.is_empty() {
            return Ok(());
        }
        self.blanks.push(c)
    }

    fn take_other(&mut self, alloc: Global, c: char) -> Result<(), NoMemory>
        ensures { OnOk result (self.new ≡ ((self.old.0 ++ self.old.1) ++ c ∷ [], [])) }
    {
        self.text.push_str(self.blanks.as_str())?;
        self.text.push(c)?;
        self.blanks = empty_text(alloc);
        Ok(())
    }

    fn take(&mut self, alloc: Global, c: char) -> Result<(), NoMemory>
        ensures { OnOk result (self.new ≡ lexical.trim_on self.old c) }
    {
        if is_blank_character(c) {
            self.take_blank(c)
        } else {
            self.take_other(alloc, c)
        }
    }
}

fn trim_all(alloc: Global, trim: &mut Trim, text: &str) -> Result<(), NoMemory>
    ensures { OnOk result (trim.new ≡ fold lexical.trim_on trim.old (chars text.now)) }
{
    for c in text.chars() {
        trim.take(alloc, c)?;
    }
    Ok(())
}

/// A text without the blanks around it.
#[tactic(auto, using(crate::proofs::LexicalLaws::trimmed_folded))]
pub(crate) fn trimmed(alloc: Global, text: &str) -> Result<Text, NoMemory>
    ensures { IfOk result (λ t. t ≡ texts.trimmed (chars text.now)) }
{
    let mut trim = Trim::new(alloc);
    trim_all(alloc, &mut trim, text)?;
    Ok(trim.text)
}

/// The literal of this name.
fn literal_of(meta: &MetaModel, e: EnumId, text: &str) -> Option<Value>
    requires { e.0 < enum_count meta.now }
    ensures { result ≡ texts.value_of meta.now (Some (types.Enum e)) (chars text.now) }
{
    match meta.literal_named(e, text) {
        Some(number) => Some(Value::Lit(e, number)),
        None => None,
    }
}

/// The value of this type that a text is.
pub(crate) fn value_of(
    alloc: Global,
    meta: &MetaModel,
    ty: PropType,
    text: &str,
) -> Result<Option<Value>, NoMemory>
    requires { IsTypeOf meta.now ty }
    ensures { IfOk result (λ v. v ≡ texts.value_of meta.now (Some ty) (chars text.now)) }
{
    match ty {
        PropType::Str => Ok(Some(Value::Str(Text::new(alloc, text)?))),
        PropType::Int => Ok(integer_of(trimmed(alloc, text)?.as_str()).map(Value::Int)),
        PropType::Bool => Ok(boolean_of(trimmed(alloc, text)?.as_str()).map(Value::Bool)),
        PropType::Enum(e) => Ok(literal_of(meta, e, text)),
        PropType::Class(_) => Ok(None),
    }
}
