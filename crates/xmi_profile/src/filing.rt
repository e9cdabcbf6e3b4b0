ghost use Rattle.std.specs.Prelude.{◌≡◌, ◌<◌, ◌+◌, ◌^◌, [], length, All, IfSome, Some, IfOk, OnOk, chars, option_map};
ghost use Rattle.mof_metamodel.specs.Metamodels.{class_count, prop_count, type_of};
ghost use Rattle.mof_metamodel.specs.NameTables.{value_of as number_named};
ghost use Rattle.mof_metamodel.specs.Tables.{IsPropOf, prop_numbers};
ghost use Rattle.object_tables.specs.Models.{is_class_type};
ghost use Rattle.xmi_profile.specs.declared.element.Element.{Element};
ghost use Rattle.model_assembly.specs.Content.{is_string};
ghost use Rattle.xmi_profile.specs.Filing as filing;
ghost use Rattle.model_assembly.specs.declared.target.Target.TheVariants.{Named};
ghost use Rattle.mof_metamodel.specs.declared.desc.PropId.{PropId};
ghost use Rattle.xmi_profile.specs.Scanning.{IsWithin, pairs_of};
ghost use Rattle.model_assembly.specs.Values as values;

use crate::element::Element;
use crate::lexical::value_of;
use crate::met::Met;
use crate::names::is_named;
use crate::numbering::{Numbers, primitive_class};
use crate::words::words_of;
use model_assembly::{Mention, Role, Target, WrittenReference, WrittenValue, empty_text};
use mof_metamodel::{ClassId, MetaModel, NoMemory, PropId, PropType, Seq, Text};
use object_tables::Value;
use std::alloc::Global;
use xmi_text::Attr;

/// What elements write so far.
#[derive(Drop)]
pub(crate) struct Writings {
    pub values: Seq<WrittenValue>,
    pub references: Seq<WrittenReference>,
    pub mentions: Seq<Mention>,
}

/// The metamodel and the objects by which elements are filed.
#[derive(Clone, Copy)]
pub(crate) struct Filer<'m> {
    pub alloc: Global,
    pub meta: &'m MetaModel,
    pub numbers: &'m Numbers,
}

/// A property of an object.
#[derive(Clone, Copy)]
pub(crate) struct Slot {
    pub object: u32,
    pub property: PropId,
}

/// The property of this object.
fn slot_of(o: u64, p: u32) -> Slot
    requires { o < 2 ^ 32 }
    ensures object { result.object ≡ o }
    ensures property { result.property.0 ≡ p }
{
    Slot {
        object: o as u32,
        property: PropId(p),
    }
}

/// A number that is small.
fn small(number: u64) -> u32
    requires { number < 2 ^ 32 }
    ensures { result ≡ number }
{
    number as u32
}

impl<'m> Filer<'m> {
    /// The number of the first object of this identifier.
    fn number_named(&self, id: &Text) -> Option<u32>
        requires { filing.AreFew self.now.numbers.now }
        ensures { result ≡ number_named self.now.numbers.now.names id.now }
    {
        match self.numbers.number(id.as_str()) {
            Some(number) => Some(small(number)),
            None => None,
        }
    }

    /// The number of the object that a target names.
    fn number_by(&self, target: &Target) -> Option<u32>
        requires few { filing.AreFew self.now.numbers.now }
        requires small { filing.IsSmallTarget target.now }
        ensures { result ≡ filing.number_by self.now.numbers.now.names target.now }
    {
        match target {
            Target::Named(id) => self.number_named(id),
            Target::Extern(name) => self.number_named(name),
            Target::Contained(object) => Some(small(*object)),
            Target::Nowhere(_) => None,
        }
    }

    /// The identifier of the object of this number.
    fn id_by_number(&self, o: u64) -> Result<Text, NoMemory>
        ensures { IfOk result (λ t. t ≡ filing.id_by_number self.now.numbers.now.ids o) }
    {
        match self.numbers.ids().get(o as usize) {
            Some(id) => id.duplicate(self.alloc),
            None => Ok(empty_text(self.alloc)),
        }
    }

    /// How a target is printed.
    fn text_by(&self, target: &Target) -> Result<Text, NoMemory>
        ensures { IfOk result (λ t. t ≡ filing.text_by self.now.numbers.now.ids target.now) }
    {
        match target {
            Target::Named(id) => id.duplicate(self.alloc),
            Target::Extern(name) => name.duplicate(self.alloc),
            Target::Contained(object) => self.id_by_number(*object),
            Target::Nowhere(text) => text.duplicate(self.alloc),
        }
    }

    /// Whether the partners of objects are written at a property.
    fn is_reference(&self, p: PropId) -> bool
        requires { p.0 < prop_count self.now.meta.now }
        ensures { result ≡ is_class_type (type_of self.now.meta.now p.0) }
    {
        match self.meta.prop(p).ty {
            PropType::Class(_) => true,
            _ => false,
        }
    }

    /// The value of an attribute that a text is.
    fn value_by(&self, p: PropId, text: &str) -> Result<Option<Value>, NoMemory>
        requires { p.0 < prop_count self.now.meta.now }
        ensures { IfOk result (λ v. v ≡ values.value_of self.now.meta.now (type_of self.now.meta.now p.0) (chars text.now)) }
    {
        let ty = self.meta.prop(p).ty;
        value_of(self.alloc, self.meta, ty, text)
    }
}

impl Writings {
    /// Nothing.
    pub(crate) fn new(alloc: Global) -> Writings
        ensures { result ≡ filing.no_writings }
    {
        Writings {
            values: Seq::new(alloc),
            references: Seq::new(alloc),
            mentions: Seq::new(alloc),
        }
    }

    /// Adds a reference to the object of this number, if there is one, and how it is printed.
    fn add_reference(&mut self, slot: Slot, target: Option<u32>, text: Text) -> Result<(), NoMemory>
        ensures { OnOk result (self.new ≡ filing.with_reference self.old slot.object slot.property.0 target text) }
    {
        self.references.push(WrittenReference {
            object: slot.object,
            property: slot.property,
            target,
            text,
        })
    }

    /// Adds what an object writes at a reference.
    fn add_target(&mut self, filer: &Filer<'_>, slot: Slot, target: &Target) -> Result<(), NoMemory>
        requires few { filing.AreFew filer.now.numbers.now }
        requires small { filing.IsSmallTarget target.now }
        ensures { OnOk result (self.new ≡ filing.with_target filer.now.numbers.now self.old slot.object slot.property.0 target.now) }
    {
        let number = filer.number_by(target);
        let text = filer.text_by(target)?;
        self.add_reference(slot, number, text)
    }

    /// Adds a word that an object writes at a reference.
    fn add_word(&mut self, filer: &Filer<'_>, slot: Slot, word: &Text) -> Result<(), NoMemory>
        requires { filing.AreFew filer.now.numbers.now }
        ensures { OnOk result (self.new ≡ filing.with_target filer.now.numbers.now self.old slot.object slot.property.0 (Named word.now)) }
    {
        let number = filer.number_named(word);
        let text = word.duplicate(filer.alloc)?;
        self.add_reference(slot, number, text)
    }

    /// Adds words that an object writes at a reference.
    fn add_words(&mut self, filer: &Filer<'_>, slot: Slot, words: &[Text]) -> Result<(), NoMemory>
        requires { filing.AreFew filer.now.numbers.now }
        ensures { OnOk result (self.new ≡ filing.with_words filer.now.numbers.now self.old slot.object slot.property.0 words.now) }
    {
        for word in words {
            self.add_word(filer, slot, word)?;
        }
        Ok(())
    }

    /// Adds that an object writes a reference as an attribute.
    fn add_mention(&mut self, slot: Slot) -> Result<(), NoMemory>
        ensures { OnOk result (self.new ≡ filing.with_mention self.old slot.object slot.property.0) }
    {
        self.mentions.push(Mention {
            object: slot.object,
            property: slot.property,
        })
    }

    /// Adds a value.
    fn add_value_if(&mut self, slot: Slot, value: Option<Value>) -> Result<(), NoMemory>
        ensures { OnOk result (self.new ≡ filing.with_value_if self.old slot.object slot.property.0 value) }
    {
        match value {
            Some(value) => self.values.push(WrittenValue {
                object: slot.object,
                property: slot.property,
                value,
            }),
            None => Ok(()),
        }
    }

    /// Adds the value that a text is.
    fn add_value(&mut self, filer: &Filer<'_>, slot: Slot, text: &str) -> Result<(), NoMemory>
        requires { slot.property.0 < prop_count filer.now.meta.now }
        ensures { OnOk result (self.new ≡ filing.with_value filer.now.meta.now self.old slot.object slot.property.0 (chars text.now)) }
    {
        let value = filer.value_by(slot.property, text)?;
        self.add_value_if(slot, value)
    }

    /// Adds the text of an attribute.
    fn add_text(&mut self, filer: &Filer<'_>, slot: Slot, text: &str) -> Result<(), NoMemory>
        requires few { filing.AreFew filer.now.numbers.now }
        requires within { slot.property.0 < prop_count filer.now.meta.now }
        ensures { OnOk result (self.new ≡ filing.with_text filer.now.meta.now filer.now.numbers.now self.old slot.object slot.property.0 (chars text.now)) }
    {
        if filer.is_reference(slot.property) {
            let words = words_of(filer.alloc, text)?;
            self.add_mention(slot)?;
            self.add_words(filer, slot, words.as_slice())
        } else {
            self.add_value(filer, slot, text)
        }
    }

    /// Adds the text of an attribute, if its property wasn't met before.
    fn add_attr(
        &mut self,
        filer: &Filer<'_>,
        met: &Met,
        o: u32,
        p: Option<PropId>,
        text: &str,
    ) -> Result<(), NoMemory>
        requires few { filing.AreFew filer.now.numbers.now }
        requires within { IfSome p (IsPropOf filer.now.meta.now) }
        ensures { OnOk result (self.new ≡ filing.with_attr filer.now.meta.now filer.now.numbers.now o self.old met.now (chars text.now) (option_map (λ (q : PropId). q.0) p)) }
    {
        match p {
            Some(property) => {
                if met.has(property.0) {
                    Ok(())
                } else {
                    let slot = Slot {
                        object: o,
                        property,
                    };
                    self.add_text(filer, slot, text)
                }
            }
            None => Ok(()),
        }
    }

    /// Adds the attributes of an object of a class.
    fn add_attrs(
        &mut self,
        filer: &Filer<'_>,
        o: u32,
        class: ClassId,
        attrs: &[Attr],
    ) -> Result<(), NoMemory>
        requires few { filing.AreFew filer.now.numbers.now }
        requires within { class.0 < class_count filer.now.meta.now }
        ensures { OnOk result (self.new ≡ filing.with_attrs filer.now.meta.now filer.now.numbers.now o class.0 self.old [] (pairs_of attrs.now)) }
    {
        let mut met = Met::new(filer.alloc);
        for attr in attrs {
            let p = filer.meta.prop_of(class, attr.name.as_str());
            self.add_attr(filer, &met, o, p, attr.value.as_str())?;
            met.meet(p)?;
        }
        Ok(())
    }

    /// Adds the attributes of an object's element.
    fn add_own_attrs(
        &mut self,
        filer: &Filer<'_>,
        element: &Element,
        role: &Role,
    ) -> Result<(), NoMemory>
        requires few { filing.AreFew filer.now.numbers.now }
        requires within { IsWithin filer.now.meta.now role.now }
        requires small { filing.IsSmall role.now }
        ensures { OnOk result (self.new ≡ filing.with_own_attrs filer.now.meta.now filer.now.numbers.now self.old element.now.attrs role.now) }
    {
        match role {
            Role::AnObject(object) => match object.class {
                Some(class) => self.add_attrs(
                    filer,
                    small(object.number),
                    ClassId(class),
                    element.attrs.as_slice(),
                ),
                None => Ok(()),
            },
            _ => Ok(()),
        }
    }

    /// Adds the attributes of all objects.
    fn add_all_attrs(&mut self, filer: &Filer<'_>, elements: &[Element]) -> Result<(), NoMemory>
        requires few { filing.AreFew filer.now.numbers.now }
        requires within { All (λ (e : Element). IsWithin filer.now.meta.now e.role) elements.now }
        requires small { All (λ (e : Element). filing.IsSmall e.role) elements.now }
        ensures { OnOk result (self.new ≡ filing.with_all_attrs filer.now.meta.now filer.now.numbers.now self.old elements.now) }
    {
        for element in elements {
            self.add_own_attrs(filer, element, &element.role)?;
        }
        Ok(())
    }

    /// Adds the text of a value's element.
    fn add_inner(
        &mut self,
        filer: &Filer<'_>,
        slot: Slot,
        element: &Element,
    ) -> Result<(), NoMemory>
        requires { slot.property.0 < prop_count filer.now.meta.now }
        ensures { OnOk result (self.new ≡ filing.with_inner filer.now.meta.now self.old slot.object slot.property.0 element.now) }
    {
        if element.attrs.is_nil() {
            Ok(())
        } else {
            self.add_value(filer, slot, element.text.as_str())
        }
    }

    /// Adds a contained object.
    fn add_part(
        &mut self,
        filer: &Filer<'_>,
        number: u64,
        within: Option<(u64, u32)>,
    ) -> Result<(), NoMemory>
        requires few { filing.AreFew filer.now.numbers.now }
        requires number { number < 2 ^ 32 }
        requires small { IfSome within (λ container. container.0 < 2 ^ 32) }
        ensures { OnOk result (self.new ≡ filing.with_part filer.now.numbers.now self.old number within) }
    {
        match within {
            Some((o, p)) => self.add_target(filer, slot_of(o, p), &Target::Contained(number)),
            None => Ok(()),
        }
    }

    /// Adds what an element writes at a property.
    fn add_element(
        &mut self,
        filer: &Filer<'_>,
        element: &Element,
        role: &Role,
    ) -> Result<(), NoMemory>
        requires few { filing.AreFew filer.now.numbers.now }
        requires within { IsWithin filer.now.meta.now role.now }
        requires small { filing.IsSmall role.now }
        ensures { OnOk result (self.new ≡ filing.with_element filer.now.meta.now filer.now.numbers.now self.old element.now role.now) }
    {
        match role {
            Role::AValue(o, p) => self.add_inner(filer, slot_of(*o, *p), element),
            Role::AReference(o, p, target) => self.add_target(filer, slot_of(*o, *p), target),
            Role::AnObject(object) => self.add_part(filer, object.number, object.within),
            _ => Ok(()),
        }
    }

    /// Adds what all elements write at properties.
    fn add_elements(&mut self, filer: &Filer<'_>, elements: &[Element]) -> Result<(), NoMemory>
        requires few { filing.AreFew filer.now.numbers.now }
        requires within { All (λ (e : Element). IsWithin filer.now.meta.now e.role) elements.now }
        requires small { All (λ (e : Element). filing.IsSmall e.role) elements.now }
        ensures { OnOk result (self.new ≡ filing.with_elements filer.now.meta.now filer.now.numbers.now self.old elements.now) }
    {
        for element in elements {
            self.add_element(filer, element, &element.role)?;
        }
        Ok(())
    }
}

/// Whether a property is a name.
#[tactic(auto, using(crate::proofs::Literals::name))]
fn is_name_prop(meta: &MetaModel, p: PropId) -> bool
    requires { p.0 < prop_count meta.now }
    ensures { result ≡ filing.is_name_prop meta.now p.0 }
{
    let prop = meta.prop(p);
    is_named(prop.name.as_str(), "name") && is_string(prop.ty)
}

/// Whether values of a type are texts.
fn is_string(ty: PropType) -> bool
    ensures { result ≡ is_string (Some ty) }
{
    match ty {
        PropType::Str => true,
        _ => false,
    }
}

impl Writings {
    /// Adds the identifier of a primitive type as its name, if the property is one.
    fn add_name(&mut self, filer: &Filer<'_>, slot: Slot, id: &Text) -> Result<(), NoMemory>
        requires { slot.property.0 < prop_count filer.now.meta.now }
        ensures { OnOk result (self.new ≡ filing.with_name filer.now.meta.now self.old slot.object id.now slot.property.0) }
    {
        if is_name_prop(filer.meta, slot.property) {
            self.add_value(filer, slot, id.as_str())
        } else {
            Ok(())
        }
    }

    /// Adds the identifier of a primitive type as its name, at each property that is one.
    fn add_names(
        &mut self,
        filer: &Filer<'_>,
        o: u32,
        id: &Text,
        props: &[PropId],
    ) -> Result<(), NoMemory>
        requires { All (IsPropOf filer.now.meta.now) props.now }
        ensures { OnOk result (self.new ≡ filing.with_names filer.now.meta.now self.old o id.now (prop_numbers props.now)) }
    {
        for p in props {
            let slot = Slot {
                object: o,
                property: *p,
            };
            self.add_name(filer, slot, id)?;
        }
        Ok(())
    }

    /// Adds the names of primitive types of this class with these identifiers, of which the first has this number.
    fn add_added(
        &mut self,
        filer: &Filer<'_>,
        class: ClassId,
        first: usize,
        ids: &[Text],
    ) -> Result<(), NoMemory>
        requires class { class.0 < class_count filer.now.meta.now }
        requires few { first + length ids.now < 2 ^ 32 }
        ensures { OnOk result (self.new ≡ filing.with_added filer.now.meta.now class.0 self.old first ids.now) }
    {
        for (number, id) in ids.iter().enumerate() {
            let o = (first + number) as u32;
            self.add_names(filer, o, id, filer.meta.props(class))?;
        }
        Ok(())
    }

    /// The same, where there is such a class.
    fn add_added_by(
        &mut self,
        filer: &Filer<'_>,
        class: Option<u32>,
        first: usize,
        ids: &[Text],
    ) -> Result<(), NoMemory>
        requires class { IfSome class (λ c. c < class_count filer.now.meta.now) }
        requires few { first + length ids.now < 2 ^ 32 }
        ensures { OnOk result (self.new ≡ filing.with_added_by filer.now.meta.now class self.old first ids.now) }
    {
        match class {
            Some(class) => self.add_added(filer, ClassId(class), first, ids),
            None => Ok(()),
        }
    }

    /// Adds all that elements write, and the names of what is added.
    pub(crate) fn add_all(
        &mut self,
        filer: &Filer<'_>,
        elements: &[Element],
        first: usize,
        ids: &[Text],
    ) -> Result<(), NoMemory>
        requires known { filing.AreFileable filer.now.meta.now filer.now.numbers.now elements.now }
        requires few { first + length ids.now < 2 ^ 32 }
        requires nothing { self.old ≡ filing.no_writings }
        ensures { OnOk result (self.new ≡ filing.all_writings filer.now.meta.now filer.now.numbers.now elements.now ids.now first) }
    {
        self.add_all_attrs(filer, elements)?;
        self.add_elements(filer, elements)?;
        self.add_added_by(filer, primitive_class(filer.meta), first, ids)
    }
}
