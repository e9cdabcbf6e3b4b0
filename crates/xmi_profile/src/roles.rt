ghost use Rattle.std.specs.Prelude.{◌≡◌, ◌<◌, ◌↔◌, chars, option_copied, option_map, IfOk, IfSome, IsTrue, None, Some};
ghost use Rattle.mof_metamodel.specs.declared.desc.MetaDesc.{MetaDesc};
ghost use Rattle.mof_metamodel.specs.Metamodels.{class_count, prop_count, type_of, IsProp};
ghost use Rattle.object_tables.specs.Models.{is_class_type};
ghost use Rattle.model_assembly.specs.Elements as elements;
ghost use Rattle.model_assembly.specs.Profile as words;
ghost use Rattle.model_assembly.specs.References as references;
ghost use Rattle.xmi_profile.specs.Scanning.{IsWithin, HasProperty};

use crate::attributes::Attributes;
use crate::names::{Own, is_alien_name, is_document_name, is_skipped_name, local_part};
use crate::targets::href_target;
use model_assembly::{Externs, ObjectRole, Role, Target};
use mof_metamodel::{ClassId, MetaModel, NoMemory, PropId, PropType, Text};
use std::alloc::Global;

/// The metamodel by which elements are read, and what may be named outside the file.
#[derive(Clone, Copy)]
pub(crate) struct Profile<'m> {
    pub alloc: Global,
    pub meta: &'m MetaModel,
    pub outside: Externs,
}

/// The concrete class of this name.
pub(crate) fn concrete_class(meta: &MetaModel, name: &str) -> Option<u32>
    ensures class { result ≡ elements.concrete_class meta.now (chars name.now) }
    ensures within { IfSome result (λ c. c < class_count meta.now) }
{
    match meta.class_named(name) {
        Some(class) => {
            if meta.is_abstract(class) {
                None
            } else {
                Some(class.0)
            }
        }
        None => None,
    }
}

/// The name of the class of an element: the local part of what it writes as its type, or else this name.
fn class_named_by(alloc: Global, attrs: &Attributes, name: &str) -> Result<Text, NoMemory>
    ensures { IfOk result (λ t. t ≡ elements.class_named_by attrs.now (chars name.now)) }
{
    match attrs.value(Own::Type) {
        Some(written) => local_part(alloc, written.as_str()),
        None => Text::new(alloc, name),
    }
}

/// The element of an object whose class has this name.
fn object_role(meta: &MetaModel, number: u64, named: Text, within: Option<(u64, u32)>) -> Role
    requires { HasProperty meta.now within }
    ensures role { result ≡ elements.object_role meta.now number named within }
    ensures within { IsWithin meta.now result }
{
    let class = concrete_class(meta, named.as_str());
    Role::AnObject(ObjectRole {
        number,
        named,
        class,
        within,
    })
}

impl<'m> Profile<'m> {
    /// A top object.
    fn top_role(&self, number: u64, name: &str, attrs: &Attributes) -> Result<Role, NoMemory>
        ensures role { IfOk result (λ r. r ≡ elements.top_role self.now.meta.now number (chars name.now) attrs.now) }
        ensures within { IfOk result (IsWithin self.now.meta.now) }
    {
        let local = local_part(self.alloc, name)?;
        let named = class_named_by(self.alloc, attrs, local.as_str())?;
        Ok(object_role(self.meta, number, named, None))
    }

    /// An element in the document.
    fn role_in_document(
        &self,
        number: u64,
        name: &str,
        attrs: &Attributes,
    ) -> Result<Role, NoMemory>
        ensures role { IfOk result (λ r. r ≡ elements.role_in_document self.now.meta.now number (chars name.now) attrs.now) }
        ensures within { IfOk result (IsWithin self.now.meta.now) }
    {
        if is_skipped_name(name) {
            Ok(Role::Skipped)
        } else if is_alien_name(name) {
            Ok(Role::Alien)
        } else {
            self.top_role(number, name, attrs)
        }
    }

    /// The root.
    pub(crate) fn role_of_root(&self, name: &str, attrs: &Attributes) -> Result<Role, NoMemory>
        ensures role { IfOk result (λ r. r ≡ elements.role_of_root self.now.meta.now (chars name.now) attrs.now) }
        ensures within { IfOk result (IsWithin self.now.meta.now) }
    {
        if is_document_name(name) {
            Ok(Role::Document)
        } else {
            self.role_in_document(0, name, attrs)
        }
    }

    /// What an element at a reference names, if it is no contained object: one with `xmi:idref` is a reference, and so is
    /// one with `href` and without `xmi:id`.
    fn element_target(&self, attrs: &Attributes) -> Result<Option<Target>, NoMemory>
        ensures { IfOk result (λ t. t ≡ references.element_target self.now.outside attrs.now) }
    {
        if let Some(id) = attrs.value(Own::Idref) {
            return Ok(Some(Target::Named(id.duplicate(self.alloc)?)));
        }
        if attrs.value(Own::Id).is_some() {
            return Ok(None);
        }
        match attrs.value(Own::Href) {
            Some(text) => Ok(Some(href_target(self.alloc, self.outside, text)?)),
            None => Ok(None),
        }
    }

    /// A contained object, whose class is that of the property's type if it writes none.
    fn part_role(
        &self,
        number: u64,
        within: (u64, u32),
        class: ClassId,
        attrs: &Attributes,
    ) -> Result<Role, NoMemory>
        requires class { class.0 < class_count self.now.meta.now }
        requires within { within.1 < prop_count self.now.meta.now }
        ensures role { IfOk result (λ r. r ≡ elements.object_role self.now.meta.now number (elements.class_named_by attrs.now (words.class_name self.now.meta.now class.0)) (Some within)) }
        ensures within { IfOk result (IsWithin self.now.meta.now) }
    {
        let named = class_named_by(self.alloc, attrs, self.meta.class_name(class))?;
        Ok(object_role(self.meta, number, named, Some(within)))
    }

    /// An element at a property of an object.
    fn role_at_property(
        &self,
        number: u64,
        o: u64,
        p: PropId,
        attrs: &Attributes,
    ) -> Result<Role, NoMemory>
        requires { p.0 < prop_count self.now.meta.now }
        ensures role { IfOk result (λ r. r ≡ elements.role_at self.now.meta.now self.now.outside number o attrs.now (Some p.0)) }
        ensures within { IfOk result (IsWithin self.now.meta.now) }
    {
        let prop = self.meta.prop(p);
        match prop.ty {
            PropType::Class(class) => match self.element_target(attrs)? {
                Some(target) => Ok(Role::AReference(o, p.0, target)),
                None => {
                    if prop.composite {
                        self.part_role(number, (o, p.0), class, attrs)
                    } else {
                        Ok(Role::Neither(o, p.0))
                    }
                }
            },
            _ => Ok(Role::AValue(o, p.0)),
        }
    }

    /// An element in an object of a class.
    fn role_in_object(
        &self,
        number: u64,
        object: (u64, ClassId),
        name: &str,
        attrs: &Attributes,
    ) -> Result<Role, NoMemory>
        requires { object.1.0 < class_count self.now.meta.now }
        ensures role { IfOk result (λ r. r ≡ elements.role_in_object self.now.meta.now self.now.outside number object.0 object.1.0 (chars name.now) attrs.now) }
        ensures within { IfOk result (IsWithin self.now.meta.now) }
    {
        if is_skipped_name(name) {
            return Ok(Role::Skipped);
        }
        if is_alien_name(name) {
            return Ok(Role::Alien);
        }
        match self.meta.prop_of(object.1, name) {
            Some(p) => self.role_at_property(number, object.0, p, attrs),
            None => Ok(Role::Stranger(object.0)),
        }
    }

    /// An element in the element of an object.
    fn role_in_class(
        &self,
        number: u64,
        object: &ObjectRole,
        name: &str,
        attrs: &Attributes,
    ) -> Result<Role, NoMemory>
        requires { IfSome object.now.class (λ c. c < class_count self.now.meta.now) }
        ensures role { IfOk result (λ r. r ≡ elements.role_in_class self.now.meta.now self.now.outside number object.now.number object.now.class (chars name.now) attrs.now) }
        ensures within { IfOk result (IsWithin self.now.meta.now) }
    {
        match object.class {
            Some(class) => self.role_in_object(
                number,
                (object.number, ClassId(class)),
                name,
                attrs,
            ),
            None => Ok(Role::Skipped),
        }
    }

    /// An element in one of this role, where the next object has this number.
    pub(crate) fn role_in(
        &self,
        parent: &Role,
        number: u64,
        name: &str,
        attrs: &Attributes,
    ) -> Result<Role, NoMemory>
        requires { IsWithin self.now.meta.now parent.now }
        ensures role { IfOk result (λ r. r ≡ elements.role_in self.now.meta.now self.now.outside parent.now number (chars name.now) attrs.now) }
        ensures within { IfOk result (IsWithin self.now.meta.now) }
    {
        match parent {
            Role::Document => self.role_in_document(number, name, attrs),
            Role::AnObject(object) => self.role_in_class(number, object, name, attrs),
            Role::AValue(o, p) => Ok(role_in_property(*o, *p, name)),
            Role::AReference(o, p, _) => Ok(role_in_property(*o, *p, name)),
            _ => Ok(Role::Skipped),
        }
    }
}

/// An element in the element of a value or of a reference.
fn role_in_property(o: u64, p: u32, name: &str) -> Role
    ensures role { result ≡ elements.role_in_property o p (chars name.now) }
    ensures within { (meta : MetaDesc) → p < prop_count meta → IsWithin meta result }
{
    if is_skipped_name(name) {
        Role::Skipped
    } else if is_alien_name(name) {
        Role::Alien
    } else {
        Role::Misplaced(o, p)
    }
}
