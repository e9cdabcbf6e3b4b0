ghost use Rattle.std.specs.Prelude.{◌≡◌, ◌<◌, ◌≤◌, ◌+◌, length, chars, IsTrue, IfOk, IfSome};

use crate::desc::{ClassDesc, ClassId, EnumDesc, EnumId, MetaDesc, PropDesc, PropType};
use crate::memory::NoMemory;
use crate::name_table::NameTable;
use crate::names::is_named;
use crate::numbering::{
    class_names, enum_names, first_numbers, literal_names, own_names, prop_places,
};
use crate::or_drop;
use std::alloc::Global;
use std::marker::Model;

/// The place of a property: its class, and its index in it.
#[derive(Clone, Copy)]
pub(crate) struct Place {
    pub(crate) class: u32,
    pub(crate) index: u32,
}

/// A description within the limits, with tables of its names and of the places of its properties. Contracts see it as the
/// description.
#[derive(Drop)]
pub(crate) struct Named {
    desc: MetaDesc,
    classes: NameTable<u32>,
    enums: NameTable<u32>,
    own: Vec<NameTable<u32>>,
    literals: Vec<NameTable<u32>>,
    firsts: Vec<u32>,
    places: Vec<Place>,
}

impl Model for Named {
    ghost use Rattle.mof_metamodel.specs.declared.desc.MetaDesc.{MetaDesc};
    ghost use Rattle.mof_metamodel.specs.Tables.{IsNamed};

    ghost Value = { MetaDesc };

    ghost view = { λ m. m.desc };

    ghost invariant = { λ m. IsNamed m.desc m.classes m.enums m.own.items m.literals.items m.firsts.items m.places.items };
}

impl Named {
    ghost use Rattle.mof_metamodel.specs.Metamodels.{class_count, class_number, class_at, enum_count, enum_at, enum_number, prop_count, first_own, own_number, literal_number, owner_of, prop_at, declared_type, type_named, IsTypeOf};
    ghost use Rattle.mof_metamodel.specs.MetaFaults.{is_within_limits};

    /// The tables of a description.
    pub(crate) fn new(alloc: Global, desc: MetaDesc) -> Result<Named, NoMemory>
        requires { IsTrue (is_within_limits desc) }
        ensures { IfOk result (λ m. m ≡ desc) }
    {
        let classes = or_drop!(class_names(alloc, desc.classes.as_slice()); desc);
        let enums = or_drop!(enum_names(alloc, desc.enums.as_slice()); desc, classes);
        let own = or_drop!(own_names(alloc, &desc); desc, classes, enums);
        let literals = or_drop!(literal_names(alloc, &desc); desc, classes, enums, own);
        let firsts = or_drop!(first_numbers(alloc, &desc); desc, classes, enums, own, literals);
        let places =
            or_drop!(prop_places(alloc, &desc); desc, classes, enums, own, literals, firsts);
        Ok(Named {
            desc,
            classes,
            enums,
            own,
            literals,
            firsts,
            places,
        })
    }

    /// The description.
    pub(crate) fn desc(&self) -> &MetaDesc
        ensures { result.now ≡ self.now }
    {
        &self.desc
    }

    /// How many classes there are.
    pub(crate) fn class_count(&self) -> u32
        ensures { result ≡ class_count self.now }
    {
        self.desc.classes.len() as u32
    }

    /// How many enumerations there are.
    pub(crate) fn enum_count(&self) -> u32
        ensures { result ≡ enum_count self.now }
    {
        self.desc.enums.len() as u32
    }

    /// The enumeration of this number.
    pub(crate) fn enumeration(&self, e: u32) -> &EnumDesc
        requires { e < enum_count self.now }
        ensures { result.now ≡ enum_at self.now e }
    {
        &self.desc.enums.as_slice()[e as usize]
    }

    /// How many properties there are.
    pub(crate) fn prop_count(&self) -> u32
        ensures { result ≡ prop_count self.now }
    {
        self.places.len() as u32
    }

    /// The number of the class of this name.
    pub(crate) fn class_number(&self, name: &str) -> Option<u32>
        ensures number { result ≡ class_number self.now (chars name.now) }
        ensures within { IfSome result (λ c. c < class_count self.now) }
    {
        self.classes.number(name)
    }

    /// The number of the enumeration of this name.
    pub(crate) fn enum_number(&self, name: &str) -> Option<u32>
        ensures number { result ≡ enum_number self.now (chars name.now) }
        ensures within { IfSome result (λ e. e < enum_count self.now) }
    {
        self.enums.number(name)
    }

    /// The class of this number.
    pub(crate) fn class(&self, c: u32) -> &ClassDesc
        requires { c < class_count self.now }
        ensures { result.now ≡ class_at self.now c }
    {
        &self.desc.classes.as_slice()[c as usize]
    }

    /// The number of the first property that a class owns.
    pub(crate) fn first_own(&self, c: u32) -> u32
        requires { c < class_count self.now }
        ensures number { result ≡ first_own self.now c }
        ensures fits { result + length (class_at self.now c).props ≤ 65536 }
    {
        self.firsts[c as usize]
    }

    /// The number of the property of this name that a class owns.
    pub(crate) fn own_number(&self, c: u32, name: &str) -> Option<u32>
        requires { c < class_count self.now }
        ensures number { result ≡ own_number self.now c (chars name.now) }
        ensures within { IfSome result (λ p. p < prop_count self.now) }
    {
        let index = self.own[c as usize].number(name)?;
        Some(self.first_own(c) + index)
    }

    /// The number of the literal of this name of an enumeration.
    pub(crate) fn literal_number(&self, e: u32, name: &str) -> Option<u32>
        requires { e < enum_count self.now }
        ensures { result ≡ literal_number self.now e (chars name.now) }
    {
        self.literals[e as usize].number(name)
    }

    /// The class that owns a property.
    pub(crate) fn owner(&self, p: u32) -> u32
        requires { p < prop_count self.now }
        ensures owner { result ≡ owner_of self.now p }
        ensures within { result < class_count self.now }
    {
        self.places[p as usize].class
    }

    /// The property of this number.
    pub(crate) fn prop(&self, p: u32) -> &PropDesc
        requires { p < prop_count self.now }
        ensures { result.now ≡ prop_at self.now p }
    {
        let place = self.places[p as usize];
        &self.class(place.class).props.as_slice()[place.index as usize]
    }

    /// The type of this name: a primitive, or else an enumeration, or else a class.
    #[tactic(auto, using(crate::proofs::NameLemmas::string_characters, crate::proofs::NameLemmas::integer_characters, crate::proofs::NameLemmas::boolean_characters))]
    pub(crate) fn type_named(&self, name: &str) -> Option<PropType>
        ensures named { result ≡ type_named self.now (chars name.now) }
        ensures within { IfSome result (IsTypeOf self.now) }
    {
        if is_named(name, "String") {
            Some(PropType::Str)
        } else if is_named(name, "Integer") {
            Some(PropType::Int)
        } else if is_named(name, "Boolean") {
            Some(PropType::Bool)
        } else {
            self.declared_type(name)
        }
    }

    /// The enumeration, or else the class, of this name.
    fn declared_type(&self, name: &str) -> Option<PropType>
        ensures named { result ≡ declared_type self.now (chars name.now) }
        ensures within { IfSome result (IsTypeOf self.now) }
    {
        match self.enum_number(name) {
            Some(e) => Some(PropType::Enum(EnumId(e))),
            None => match self.class_number(name) {
                Some(c) => Some(PropType::Class(ClassId(c))),
                None => None,
            },
        }
    }
}
