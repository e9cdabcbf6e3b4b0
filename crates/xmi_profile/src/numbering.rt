ghost use Rattle.std.specs.Prelude.{◌≡◌, ◌<◌, ◌+◌, ◌^◌, All, None, Some, false, chars, is_some, IfSome, IfOk, OnOk};
ghost use Rattle.mof_metamodel.specs.Metamodels.{class_count};
ghost use Rattle.std.specs.Fmt.{decimal};
ghost use Rattle.mof_metamodel.specs.NameTables.{value_of};
ghost use Rattle.xmi_profile.specs.declared.element.Element.{Element};
ghost use Rattle.xmi_profile.specs.Judging as judging;
ghost use Rattle.xmi_profile.specs.Numbering as numbers;
ghost use Rattle.model_assembly.specs.Source as sources;

use crate::element::Element;
use crate::judging::{Found, first_of};
use crate::names::{Own, is_named};
use crate::roles::{Profile, concrete_class};
use model_assembly::{ModelFault, Role, Target};
use mof_metamodel::{MetaModel, NameTable, NoMemory, Seq, Text, is_identifier, or_drop};
use std::alloc::Global;
use std::marker::Model;

/// What is known of the objects of a file: their identifiers by number, the first object of each identifier, and the
/// first fault of a repeated one.
#[derive(Drop)]
pub(crate) struct Numbers {
    ids: Seq<Text>,
    names: NameTable<u64>,
    repeated: Option<Found>,
}

impl Model for Numbers {
    ghost use Rattle.xmi_profile.specs.Numbering as numbers;

    ghost Value = { numbers.Numbers };

    ghost view = { λ n. record { ids = n.ids; names = n.names; repeated = n.repeated } };
}

/// A number in decimal digits.
#[tactic(auto, using(crate::proofs::LexicalLaws::decimal_characters))]
fn number_text(alloc: Global, number: u64) -> Result<Text, NoMemory>
    ensures { IfOk result (λ t. t ≡ decimal number) }
{
    let text = format!(in alloc; "{number}")?;
    Ok(Text::from_string(text))
}

/// The identifier of an object that writes none: `_` and its number.
#[tactic(auto, using(crate::proofs::Literals::underscore))]
pub(crate) fn given_id(alloc: Global, number: u64) -> Result<Text, NoMemory>
    ensures { IfOk result (λ t. t ≡ sources.given_id number) }
{
    let mut text = Text::new(alloc, "_")?;
    let digits = number_text(alloc, number)?;
    text.push_str(digits.as_str())?;
    Ok(text)
}

/// The identifier that an object's element writes, or the one that it is given.
fn own_id(alloc: Global, element: &Element, number: u64) -> Result<Text, NoMemory>
    ensures { IfOk result (λ t. t ≡ numbers.own_id element.now number) }
{
    match element.attrs.value(Own::Id) {
        Some(id) => id.duplicate(alloc),
        None => given_id(alloc, number),
    }
}

/// The identifier that is printed of an object: its own, if it is an identifier.
pub(crate) fn printed_id(alloc: Global, ids: &[Text], o: u64) -> Result<Text, NoMemory>
    ensures { IfOk result (λ t. t ≡ judging.printed_of ids.now o) }
{
    match ids.get(o as usize) {
        Some(id) if is_identifier(id.as_str()) => id.duplicate(alloc),
        _ => given_id(alloc, o),
    }
}

/// Whether an element is an object.
fn is_object(element: &Element) -> bool
    ensures { result ≡ numbers.is_object_element element.now }
{
    match element.role {
        Role::AnObject(_) => true,
        _ => false,
    }
}

/// The fault of an object that has the identifier of an earlier one.
fn repeated_at(element: &Element, id: Text) -> Option<Found>
    requires { element.now.place + 2 ^ 64 < 2 ^ 128 }
    ensures { result ≡ Some (numbers.repeated_at element.now id) }
{
    Some(Found {
        place: element.own_place(Own::Id),
        fault: ModelFault::DuplicateId { id },
    })
}

impl Numbers {
    /// No object.
    fn new(alloc: Global) -> Numbers
        ensures { result ≡ numbers.no_numbers }
    {
        Numbers {
            ids: Seq::new(alloc),
            names: NameTable::new(alloc),
            repeated: None,
        }
    }

    /// The identifiers by number.
    pub(crate) fn ids(&self) -> &[Text]
        ensures { result.now ≡ self.now.ids }
    {
        self.ids.as_slice()
    }

    /// Moves the identifiers out.
    pub(crate) fn into_ids(self) -> Seq<Text>
        ensures { result ≡ self.ids }
    {
        let Numbers {
            ids,
            names,
            repeated,
        } = self;
        drop(names);
        drop(repeated);
        ids
    }

    /// The number of the first object of this identifier.
    pub(crate) fn number(&self, id: &str) -> Option<u64>
        ensures { result ≡ value_of self.now.names (chars id.now) }
    {
        self.names.get(id).copied()
    }

    /// Takes out the first fault of a repeated identifier.
    pub(crate) fn take_repeated(&mut self) -> Option<Found>
        ensures result { result ≡ self.old.repeated }
        ensures rest { self.new ≡ record self.old { repeated = None } }
    {
        self.repeated.take()
    }

    /// Adds an object whose identifier is new.
    fn add_new(&mut self, alloc: Global, id: Text) -> Result<(), NoMemory>
        requires { is_some (value_of self.old.names id) ≡ false }
        ensures { OnOk result (self.new ≡ numbers.with_new self.old id) }
    {
        let number = self.ids.len() as u64;
        self.names.put(id.duplicate(alloc)?, number)?;
        self.ids.push(id)
    }

    /// Adds an object that has the identifier of an earlier one.
    fn add_repeated(&mut self, alloc: Global, element: &Element, id: Text) -> Result<(), NoMemory>
        requires { element.now.place + 2 ^ 64 < 2 ^ 128 }
        ensures { OnOk result (self.new ≡ numbers.with_repeated self.old element.now id) }
    {
        let copy = or_drop!(id.duplicate(alloc); id);
        let repeated = repeated_at(element, copy);
        or_drop!(self.ids.push(id); repeated);
        let first = first_of(self.repeated.take(), repeated);
        drop(std::mem::replace(&mut self.repeated, first));
        Ok(())
    }

    /// Adds an object with its identifier.
    fn add_id(&mut self, alloc: Global, element: &Element, id: Text) -> Result<(), NoMemory>
        requires { element.now.place + 2 ^ 64 < 2 ^ 128 }
        ensures { OnOk result (self.new ≡ numbers.with_id self.old element.now id) }
    {
        if self.names.contains(&id) {
            self.add_repeated(alloc, element, id)
        } else {
            self.add_new(alloc, id)
        }
    }

    /// Adds an element, if it is an object.
    fn add(&mut self, alloc: Global, element: &Element) -> Result<(), NoMemory>
        requires { element.now.place + 2 ^ 64 < 2 ^ 128 }
        ensures { OnOk result (self.new ≡ numbers.with_object self.old element.now) }
    {
        if is_object(element) {
            let id = own_id(alloc, element, self.ids.len() as u64)?;
            self.add_id(alloc, element, id)
        } else {
            Ok(())
        }
    }

    /// Adds all of a list of elements.
    fn add_all(&mut self, alloc: Global, elements: &[Element]) -> Result<(), NoMemory>
        requires { All (λ (e : Element). e.place + 2 ^ 64 < 2 ^ 128) elements.now }
        ensures { OnOk result (self.new ≡ numbers.numbered self.old elements.now) }
    {
        for element in elements {
            self.add(alloc, element)?;
        }
        Ok(())
    }
}

/// Whether an element is a reference to the primitive type of this name.
fn uses(name: &str, role: &Role) -> bool
    ensures { result ≡ sources.uses (chars name.now) role.now }
{
    match role {
        Role::AReference(_, _, target) => is_extern(name, target),
        _ => false,
    }
}

/// Whether a target is the primitive type of this name.
fn is_extern(name: &str, target: &Target) -> bool
    ensures { result ≡ sources.is_extern (chars name.now) target.now }
{
    match target {
        Target::Extern(other) => is_named(name, other.as_str()),
        _ => false,
    }
}

/// Whether an element of a list is a reference to the primitive type of this name.
fn is_used(name: &str, elements: &[Element]) -> bool
    ensures { result ≡ numbers.is_used elements.now (chars name.now) }
{
    for element in elements {
        if uses(name, &element.role) {
            return true;
        }
    }
    false
}

/// The class of primitive types.
#[tactic(auto, using(crate::proofs::Literals::primitive))]
pub(crate) fn primitive_class(meta: &MetaModel) -> Option<u32>
    ensures class { result ≡ sources.primitive_class meta.now }
    ensures within { IfSome result (λ c. c < class_count meta.now) }
{
    concrete_class(meta, "PrimitiveType")
}

impl Numbers {
    /// Whether the primitive type of this name is an object beside those of the file.
    fn is_extern_new(&self, meta: &MetaModel, elements: &[Element], name: &Text) -> bool
        ensures { result ≡ numbers.is_extern_new meta.now elements.now self.now name.now }
    {
        is_used(name.as_str(), elements)
            && !self.names.contains(name)
            && primitive_class(meta).is_some()
    }

    /// Adds the primitive type of this name, if it is named and isn't in the file.
    fn add_extern(
        &mut self,
        profile: &Profile<'_>,
        elements: &[Element],
        name: &str,
    ) -> Result<(), NoMemory>
        ensures { OnOk result (self.new ≡ numbers.with_extern profile.now.meta.now elements.now self.old (chars name.now)) }
    {
        let name = Text::new(profile.alloc, name)?;
        if self.is_extern_new(profile.meta, elements, &name) {
            self.add_new(profile.alloc, name)
        } else {
            Ok(())
        }
    }

    /// Adds the primitive types that are named and aren't in the file.
    #[tactic(auto, using(crate::proofs::Literals::string, crate::proofs::Literals::integer, crate::proofs::Literals::boolean))]
    pub(crate) fn add_externs(
        &mut self,
        profile: &Profile<'_>,
        elements: &[Element],
    ) -> Result<(), NoMemory>
        ensures { OnOk result (self.new ≡ numbers.with_externs profile.now.meta.now elements.now self.old) }
    {
        self.add_extern(profile, elements, "String")?;
        self.add_extern(profile, elements, "Integer")?;
        self.add_extern(profile, elements, "Boolean")
    }
}

/// The objects of a list of elements.
pub(crate) fn numbered(alloc: Global, elements: &[Element]) -> Result<Numbers, NoMemory>
    requires { All (λ (e : Element). e.place + 2 ^ 64 < 2 ^ 128) elements.now }
    ensures { IfOk result (λ n. n ≡ numbers.numbered numbers.no_numbers elements.now) }
{
    let mut numbers = Numbers::new(alloc);
    or_drop!(numbers.add_all(alloc, elements); numbers);
    Ok(numbers)
}
