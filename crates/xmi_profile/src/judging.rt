ghost use Rattle.std.specs.Prelude.{◌≡◌, ◌<◌, ◌+◌, ◌^◌, All, IfOk, IfSome, Some, chars};
ghost use Rattle.mof_metamodel.specs.Metamodels.{prop_count, class_count, type_of};
ghost use Rattle.xmi_profile.specs.declared.element.Element.{Element};
ghost use Rattle.model_assembly.specs.declared.fault.ModelFault.TheVariants as faults;
ghost use Rattle.model_assembly.specs.AssemblyFirsts.{conforms_to};
ghost use Rattle.model_assembly.specs.Elements.{attr_place};
ghost use Rattle.model_assembly.specs.FirstFault as kinds;
ghost use Rattle.model_assembly.specs.Judged as judged;
ghost use Rattle.xmi_profile.specs.Judging as judging;
ghost use Rattle.xmi_profile.specs.Scanning.{IsWithin, HasProperty, pairs_of};

use crate::attributes::Attributes;
use crate::element::Element;
use crate::lexical::value_of;
use crate::names::{Own, is_kept_name, is_own, is_passed_name};
use crate::numbering::{given_id, printed_id};
use model_assembly::{ModelFault, ObjectRole, Role, conforms_to};
use mof_metamodel::{ClassId, MetaModel, NoMemory, PropId, PropType, Text, is_identifier, or_drop};
use std::alloc::Global;
use xmi_text::Attr;

/// A fault with its place.
#[derive(Drop)]
pub(crate) struct Found {
    pub place: u128,
    pub fault: ModelFault,
}

/// The place of a kind among the kinds.
fn rank(fault: &ModelFault) -> u8
    ensures { result ≡ kinds.rank fault.now }
{
    match fault {
        ModelFault::UnknownClass { .. } => 2,
        ModelFault::UnknownProperty { .. } => 3,
        ModelFault::WrongValue { .. } => 4,
        ModelFault::DuplicateId { .. } => 5,
        ModelFault::Dangling { .. } => 6,
        ModelFault::TwoContainers { .. } => 7,
        ModelFault::Mismatch { .. } => 8,
        ModelFault::Invalid(_, _) => 9,
        ModelFault::Limit(_) => 10,
    }
}

/// Whether a fault comes first: by its place, and at one place by its kind.
fn is_first(a: &Found, b: &Found) -> bool
    ensures { result ≡ judging.is_first a.now b.now }
{
    a.place < b.place || (a.place == b.place && rank(&a.fault) <= rank(&b.fault))
}

/// The one that comes first.
pub(crate) fn first_of(a: Option<Found>, b: Option<Found>) -> Option<Found>
    ensures { result ≡ judging.first_of a b }
{
    match a {
        Some(a) => match b {
            Some(b) => {
                if is_first(&a, &b) {
                    drop(b);
                    Some(a)
                } else {
                    drop(a);
                    Some(b)
                }
            }
            None => Some(a),
        },
        None => b,
    }
}

/// The metamodel and the identifiers of the objects of a file, by which its elements are judged.
#[derive(Clone, Copy)]
pub(crate) struct Judge<'m> {
    pub alloc: Global,
    pub meta: &'m MetaModel,
    pub ids: &'m [Text],
}

/// Whether an attribute of an object of this class has no meaning.
fn is_unknown_of_object(meta: &MetaModel, class: Option<u32>, name: &str) -> bool
    requires { IfSome class (λ c. c < class_count meta.now) }
    ensures { result ≡ judged.is_unknown_of_object meta.now class (chars name.now) }
{
    match class {
        None => false,
        Some(c) => {
            if is_own(Own::Id, name) || is_own(Own::Type, name) {
                false
            } else {
                is_kept_name(name) || meta.prop_of(ClassId(c), name).is_none()
            }
        }
    }
}

/// Whether an attribute of a reference's element has no meaning.
fn is_unknown_of_reference(attrs: &Attributes, name: &str) -> bool
    ensures { result ≡ judged.is_unknown_of_reference attrs.now (chars name.now) }
{
    if attrs.value(Own::Idref).is_some() {
        !(is_own(Own::Idref, name) || is_own(Own::Type, name))
    } else {
        !(is_own(Own::Href, name) || is_own(Own::Type, name))
    }
}

/// Whether an attribute of this name has no meaning at an element of this role.
fn is_unknown_of(meta: &MetaModel, role: &Role, attrs: &Attributes, name: &str) -> bool
    requires { IsWithin meta.now role.now }
    ensures { result ≡ judged.is_unknown_of meta.now role.now attrs.now (chars name.now) }
{
    match role {
        Role::Document => true,
        Role::AnObject(object) => is_unknown_of_object(meta, object.class, name),
        Role::AValue(_, _) => !is_own(Own::Nil, name),
        Role::AReference(_, _, _) => is_unknown_of_reference(attrs, name),
        _ => false,
    }
}

/// Whether an attribute isn't passed over, and has no meaning at the element.
fn is_unknown(meta: &MetaModel, element: &Element, name: &str) -> bool
    requires { IsWithin meta.now element.now.role }
    ensures { result ≡ judging.is_unknown meta.now element.now (chars name.now) }
{
    !is_passed_name(name) && is_unknown_of(meta, &element.role, &element.attrs, name)
}

/// The class of an object's element.
pub(crate) fn class_by(role: &Role) -> Option<u32>
    ensures { result ≡ judging.class_by role.now }
{
    match role {
        Role::AnObject(object) => object.class,
        _ => None,
    }
}

/// What is printed where a fault stands in no object.
#[tactic(auto, using(crate::proofs::Literals::dash))]
fn no_id(alloc: Global) -> Result<Text, NoMemory>
    ensures { IfOk result (λ t. t ≡ judged.no_id) }
{
    Text::new(alloc, "-")
}

/// A fault of the attribute of this number.
fn attr_found(element: &Element, number: usize, fault: ModelFault) -> Found
    requires { element.now.place + 2 ^ 64 < 2 ^ 128 }
    ensures { result ≡ judging.found_at (attr_place element.now.place number) fault }
{
    let place = element.place + number as u128 + 1;
    Found { place, fault }
}

impl<'m> Judge<'m> {
    /// Whether a text is no value of an attribute's type.
    fn is_no_value(&self, p: PropId, text: &str) -> Result<bool, NoMemory>
        requires { p.0 < prop_count self.now.meta.now }
        ensures { IfOk result (λ b. b ≡ judging.is_no_value self.now.meta.now (type_of self.now.meta.now p.0) (chars text.now)) }
    {
        let ty = self.meta.prop(p).ty;
        Ok(value_of(self.alloc, self.meta, ty, text)?.is_none())
    }

    /// Whether a text is wrong as an attribute of a property that has one.
    fn is_wrong_value(&self, text: &str, p: PropId) -> Result<bool, NoMemory>
        requires { p.0 < prop_count self.now.meta.now }
        ensures { IfOk result (λ b. b ≡ judging.is_wrong_value self.now.meta.now (chars text.now) (Some p.0)) }
    {
        match self.meta.prop(p).ty {
            PropType::Class(_) => Ok(false),
            _ => self.is_no_value(p, text),
        }
    }

    /// Whether an attribute of an object of this class is a text that is no value of the property.
    fn is_wrong_attr(&self, class: Option<u32>, name: &str, text: &str) -> Result<bool, NoMemory>
        requires { IfSome class (λ c. c < class_count self.now.meta.now) }
        ensures { IfOk result (λ b. b ≡ judging.is_wrong_attr self.now.meta.now class (chars name.now) (chars text.now)) }
    {
        match class {
            None => Ok(false),
            Some(c) => match self.meta.prop_of(ClassId(c), name) {
                Some(p) => self.is_wrong_value(text, p),
                None => Ok(false),
            },
        }
    }

    /// The identifier that is printed of a fault in an element of this role.
    fn id_by(&self, role: &Role) -> Result<Text, NoMemory>
        ensures { IfOk result (λ id. id ≡ judging.id_by self.now.ids.now role.now) }
    {
        match role {
            Role::AnObject(object) => printed_id(self.alloc, self.ids, object.number),
            Role::AValue(o, _) => printed_id(self.alloc, self.ids, *o),
            Role::AReference(o, _, _) => printed_id(self.alloc, self.ids, *o),
            Role::Neither(o, _) => printed_id(self.alloc, self.ids, *o),
            Role::Misplaced(o, _) => printed_id(self.alloc, self.ids, *o),
            Role::Stranger(o) => printed_id(self.alloc, self.ids, *o),
            _ => no_id(self.alloc),
        }
    }

    /// The fault of an attribute.
    fn attr_fault(
        &self,
        element: &Element,
        name: &Text,
        value: &str,
    ) -> Result<Option<ModelFault>, NoMemory>
        requires { IsWithin self.now.meta.now element.now.role }
        ensures { IfOk result (λ f. f ≡ judging.attr_fault self.now.meta.now self.now.ids.now element.now (name.now, chars value.now)) }
    {
        if is_unknown(self.meta, element, name.as_str()) {
            let id = self.id_by(&element.role)?;
            let prop = name.duplicate(self.alloc)?;
            return Ok(Some(ModelFault::UnknownProperty { id, prop }));
        }
        if self.is_wrong_attr(class_by(&element.role), name.as_str(), value)? {
            let id = self.id_by(&element.role)?;
            let prop = Some(name.duplicate(self.alloc)?);
            return Ok(Some(ModelFault::WrongValue { id, prop }));
        }
        Ok(None)
    }

    /// The first fault of attributes.
    fn attrs_fault(&self, element: &Element, attrs: &[Attr]) -> Result<Option<Found>, NoMemory>
        requires within { IsWithin self.now.meta.now element.now.role }
        requires room { element.now.place + 2 ^ 64 < 2 ^ 128 }
        ensures { IfOk result (λ f. f ≡ judging.attrs_fault self.now.meta.now self.now.ids.now element.now 0 (pairs_of attrs.now)) }
    {
        for (number, attr) in attrs.iter().enumerate() {
            if let Some(fault) = self.attr_fault(element, &attr.name, attr.value.as_str())? {
                return Ok(Some(attr_found(element, number, fault)));
            }
        }
        Ok(None)
    }

    /// A wrong value of an object's property.
    fn wrong_of(&self, place: u128, o: u64, p: PropId) -> Result<Option<Found>, NoMemory>
        requires { p.0 < prop_count self.now.meta.now }
        ensures { IfOk result (λ f. f ≡ Some (judging.found_at place (judging.wrong_of self.now.meta.now self.now.ids.now o p.0))) }
    {
        let id = printed_id(self.alloc, self.ids, o)?;
        let prop = Some(self.meta.prop(p).name.duplicate(self.alloc)?);
        let fault = ModelFault::WrongValue { id, prop };
        Ok(Some(Found { place, fault }))
    }

    /// The fault of characters in the document.
    fn document_fault(&self, element: &Element) -> Result<Option<Found>, NoMemory>
        ensures { IfOk result (λ f. f ≡ judging.document_fault element.now) }
    {
        match element.odd_at {
            Some(place) => {
                let id = no_id(self.alloc)?;
                let fault = ModelFault::WrongValue { id, prop: None };
                Ok(Some(Found { place, fault }))
            }
            None => Ok(None),
        }
    }

    /// The fault of characters in an object.
    fn text_fault(&self, element: &Element, o: u64) -> Result<Option<Found>, NoMemory>
        ensures { IfOk result (λ f. f ≡ judging.text_fault self.now.ids.now element.now o) }
    {
        match element.odd_at {
            Some(place) => {
                let id = printed_id(self.alloc, self.ids, o)?;
                let fault = ModelFault::WrongValue { id, prop: None };
                Ok(Some(Found { place, fault }))
            }
            None => Ok(None),
        }
    }

    /// The fault of characters in a reference's element.
    fn reference_fault(
        &self,
        element: &Element,
        o: u64,
        p: PropId,
    ) -> Result<Option<Found>, NoMemory>
        requires { p.0 < prop_count self.now.meta.now }
        ensures { IfOk result (λ f. f ≡ judging.reference_fault self.now.meta.now self.now.ids.now element.now o p.0) }
    {
        match element.odd_at {
            Some(place) => self.wrong_of(place, o, p),
            None => Ok(None),
        }
    }

    /// The fault of the text of a value's element.
    fn value_fault(&self, element: &Element, o: u64, p: PropId) -> Result<Option<Found>, NoMemory>
        requires within { p.0 < prop_count self.now.meta.now }
        requires room { element.now.place + 2 ^ 64 < 2 ^ 128 }
        ensures { IfOk result (λ f. f ≡ judging.value_fault self.now.meta.now self.now.ids.now element.now o p.0) }
    {
        if element.attrs.is_nil() || !self.is_no_value(p, element.text.as_str())? {
            return Ok(None);
        }
        self.wrong_of(element.text_place(), o, p)
    }

    /// The fault of an object's identifier.
    fn id_fault(&self, element: &Element, o: u64) -> Result<Option<Found>, NoMemory>
        requires { element.now.place + 2 ^ 64 < 2 ^ 128 }
        ensures { IfOk result (λ f. f ≡ judging.id_fault element.now o) }
    {
        match element.attrs.value(Own::Id) {
            Some(id) if !is_identifier(id.as_str()) => {
                let id = given_id(self.alloc, o)?;
                let fault = ModelFault::WrongValue { id, prop: None };
                let place = element.own_place(Own::Id);
                Ok(Some(Found { place, fault }))
            }
            _ => Ok(None),
        }
    }

    /// The fault of an object whose class is unknown.
    fn class_fault(&self, element: &Element, named: &Text) -> Result<Option<Found>, NoMemory>
        requires { element.now.place + 2 ^ 64 < 2 ^ 128 }
        ensures { IfOk result (λ f. f ≡ judging.class_fault element.now named.now) }
    {
        let name = named.duplicate(self.alloc)?;
        let fault = ModelFault::UnknownClass { name };
        let place = element.own_place(Own::Type);
        Ok(Some(Found { place, fault }))
    }

    /// The fault of a contained object whose class doesn't conform to the property's type.
    fn part_fault(
        &self,
        element: &Element,
        class: ClassId,
        within: Option<(u64, u32)>,
    ) -> Result<Option<Found>, NoMemory>
        requires class { class.0 < class_count self.now.meta.now }
        requires within { HasProperty self.now.meta.now within }
        ensures { IfOk result (λ f. f ≡ judging.part_fault self.now.meta.now self.now.ids.now element.now class.0 within) }
    {
        match within {
            Some((o, p)) => {
                if self.is_of_type(class, PropId(p)) {
                    return Ok(None);
                }
                self.wrong_of(element.place, o, PropId(p))
            }
            None => Ok(None),
        }
    }

    /// Whether a class conforms to the type of a property.
    fn is_of_type(&self, class: ClassId, p: PropId) -> bool
        requires class { class.0 < class_count self.now.meta.now }
        requires within { p.0 < prop_count self.now.meta.now }
        ensures { result ≡ conforms_to self.now.meta.now class.0 (type_of self.now.meta.now p.0) }
    {
        match self.meta.prop(p).ty {
            PropType::Class(d) => conforms_to(self.meta, class, d),
            _ => false,
        }
    }

    /// The fault of an object that its class tells.
    fn fault_by_class(
        &self,
        element: &Element,
        object: &ObjectRole,
    ) -> Result<Option<Found>, NoMemory>
        requires class { IfSome object.now.class (λ c. c < class_count self.now.meta.now) }
        requires within { HasProperty self.now.meta.now object.now.within }
        requires room { element.now.place + 2 ^ 64 < 2 ^ 128 }
        ensures { IfOk result (λ f. f ≡ judging.fault_by_class self.now.meta.now self.now.ids.now element.now object.now object.now.class) }
    {
        match object.class {
            Some(class) => {
                let of_text = self.text_fault(element, object.number)?;
                let of_part =
                    or_drop!(self.part_fault(element, ClassId(class), object.within); of_text);
                Ok(first_of(of_text, of_part))
            }
            None => self.class_fault(element, &object.named),
        }
    }

    /// The first fault of an object by itself, without those of its attributes.
    fn object_fault(
        &self,
        element: &Element,
        object: &ObjectRole,
    ) -> Result<Option<Found>, NoMemory>
        requires class { IfSome object.now.class (λ c. c < class_count self.now.meta.now) }
        requires within { HasProperty self.now.meta.now object.now.within }
        requires room { element.now.place + 2 ^ 64 < 2 ^ 128 }
        ensures { IfOk result (λ f. f ≡ judging.object_fault self.now.meta.now self.now.ids.now element.now object.now) }
    {
        let of_id = self.id_fault(element, object.number)?;
        let of_class = or_drop!(self.fault_by_class(element, object); of_id);
        Ok(first_of(of_id, of_class))
    }

    /// The fault of an element of XMI's namespace that the profile hasn't.
    fn alien_fault(&self, element: &Element) -> Result<Option<Found>, NoMemory>
        ensures { IfOk result (λ f. f ≡ Some (judging.found_at element.now.place (faults.UnknownClass element.now.name))) }
    {
        let name = element.name.duplicate(self.alloc)?;
        let fault = ModelFault::UnknownClass { name };
        let place = element.place;
        Ok(Some(Found { place, fault }))
    }

    /// The fault of an element that names no property.
    fn stranger_fault(&self, element: &Element, o: u64) -> Result<Option<Found>, NoMemory>
        ensures { IfOk result (λ f. f ≡ Some (judging.found_at element.now.place (faults.UnknownProperty (judging.printed_of self.now.ids.now o) element.now.name))) }
    {
        let id = printed_id(self.alloc, self.ids, o)?;
        let prop = element.name.duplicate(self.alloc)?;
        let fault = ModelFault::UnknownProperty { id, prop };
        let place = element.place;
        Ok(Some(Found { place, fault }))
    }

    /// The first fault of an element, without those of its attributes.
    fn role_fault(&self, element: &Element, role: &Role) -> Result<Option<Found>, NoMemory>
        requires within { IsWithin self.now.meta.now role.now }
        requires room { element.now.place + 2 ^ 64 < 2 ^ 128 }
        ensures { IfOk result (λ f. f ≡ judging.role_fault self.now.meta.now self.now.ids.now element.now role.now) }
    {
        match role {
            Role::Document => self.document_fault(element),
            Role::AnObject(object) => self.object_fault(element, object),
            Role::AValue(o, p) => self.value_fault(element, *o, PropId(*p)),
            Role::AReference(o, p, _) => self.reference_fault(element, *o, PropId(*p)),
            Role::Neither(o, p) => self.wrong_of(element.place, *o, PropId(*p)),
            Role::Misplaced(o, p) => self.wrong_of(element.place, *o, PropId(*p)),
            Role::Stranger(o) => self.stranger_fault(element, *o),
            Role::Alien => self.alien_fault(element),
            Role::Skipped => Ok(None),
        }
    }

    /// The first fault of an element.
    fn element_fault(&self, element: &Element) -> Result<Option<Found>, NoMemory>
        requires within { IsWithin self.now.meta.now element.now.role }
        requires room { element.now.place + 2 ^ 64 < 2 ^ 128 }
        ensures { IfOk result (λ f. f ≡ judging.element_fault self.now.meta.now self.now.ids.now element.now) }
    {
        let of_attrs = self.attrs_fault(element, element.attrs.as_slice())?;
        let of_role = or_drop!(self.role_fault(element, &element.role); of_attrs);
        Ok(first_of(of_attrs, of_role))
    }

    /// The first of this fault and those of elements.
    pub(crate) fn first_fault(
        &self,
        found: Option<Found>,
        elements: &[Element],
    ) -> Result<Option<Found>, NoMemory>
        requires within { All (λ (e : Element). IsWithin self.now.meta.now e.role) elements.now }
        requires room { All (λ (e : Element). e.place + 2 ^ 64 < 2 ^ 128) elements.now }
        ensures { IfOk result (λ f. f ≡ judging.first_fault self.now.meta.now self.now.ids.now found elements.now) }
    {
        let mut found = found;
        for element in elements {
            let other = or_drop!(self.element_fault(element); found);
            found = first_of(found, other);
        }
        Ok(found)
    }
}
