ghost use Rattle.std.specs.Prelude.{length, nat_eq, position, ◌≡◌, ◌<◌, ◌++◌, ◌↔◌, All, chars, IsTrue, IfOk, IfErr, IfSome, OnOk, IsOkUnless, MatchOption, MatchResult, None};
ghost use Rattle.std.specs.Option.{option_map};
ghost use Rattle.mof_metamodel.specs.WellMeta.{WellMeta, IsAcyclic};
ghost use Rattle.mof_metamodel.specs.MetaFaults.{IsSearchedWell, IsRefusal, PassesNames, PassesCycles, IsFirstCircular, IsFaultOf};

use crate::checks::{first_bad_bounds, first_bad_name, is_within_limits};
use crate::circles::first_circle;
use crate::desc::{ClassId, EnumId, MetaDesc, Prop, PropId};
use crate::duplicates::first_duplicate;
use crate::entries::{Entry, value_of};
use crate::fault::{MetaError, MetaFault, MetaKind};
use crate::hierarchy::Hierarchy;
use crate::memory::NoMemory;
use crate::name_table::NameTable;
use crate::named::Named;
use crate::or_drop;
use crate::ordered::Ordered;
use crate::prop_names::{all_holders, all_names};
use crate::resolved::{first_bad_opposite, first_two_containers, first_unknown, resolved_props};
use crate::seq::Seq;
use crate::text::Text;
use std::alloc::Global;
use std::marker::Model;

/// A metamodel: a description without faults, and tables by which it is read.
///
/// Contracts see it as its description. Classes, properties and enumerations go by their numbers, and a reading call asks
/// that a number is of this metamodel. The tables take room for each class and each class that it inherits from, and for
/// each property of each class, inherited ones included. Making them takes time for each of these; for each written
/// superclass a look-up of its name, and a look at each class of its order where the order before it lacks the superclass;
/// for each class a mark for each other one; and for each class that reaches a circle of superclasses, a look at each class
/// that it reaches and at each superclass that these write.
#[derive(Drop)]
pub struct MetaModel {
    ordered: Ordered,
    props: Seq<Prop>,
    names: NameTable<u32>,
    holders: Vec<Seq<Entry>>,
}

impl Model for MetaModel {
    ghost use Rattle.mof_metamodel.specs.declared.desc.MetaDesc.{MetaDesc};
    ghost use Rattle.mof_metamodel.specs.Tables.{IsTabled};

    ghost Value = { MetaDesc };

    ghost view = { λ m. m.ordered };

    ghost invariant = { λ m. IsTabled m.ordered m.props m.names m.holders.items };
}

/// Refuses a description for a fault of this kind, if there is one.
fn refuse(kind: MetaKind, name: Option<Text>) -> Result<(), MetaError>
    ensures { MatchResult result (λ _. name ≡ None) (IsFaultOf kind name) }
{
    match name {
        Some(name) => Err(MetaError::Fault(MetaFault { kind, name })),
        None => Ok(()),
    }
}

/// Refuses a description for its size or a wrong name.
fn check_names(alloc: Global, desc: &MetaDesc) -> Result<(), MetaError>
    ensures ok { OnOk result (PassesNames desc.now) }
    ensures fault { IfErr result (IsRefusal desc.now) }
{
    if !is_within_limits(desc) {
        let name = Text::new(alloc, "")?;
        return refuse(MetaKind::Limit, Some(name));
    }
    refuse(MetaKind::BadName, first_bad_name(alloc, desc)?)
}

/// The tables of a description.
fn order(alloc: Global, desc: MetaDesc) -> Result<Ordered, NoMemory>
    requires { PassesNames desc }
    ensures { IfOk result (λ o. o ≡ desc) }
{
    let named = Named::new(alloc, desc)?;
    let hierarchy = Hierarchy::new(alloc, named)?;
    Ordered::new(alloc, hierarchy)
}

/// The name of the first class that reaches itself by superclasses.
fn circular_name(alloc: Global, ordered: &Ordered) -> Result<Option<Text>, NoMemory>
    ensures { IfOk result (λ o. MatchOption o (IsAcyclic ordered.now) (IsFirstCircular ordered.now)) }
{
    if ordered.is_grounded() {
        return Ok(None);
    }
    match first_circle(alloc, ordered.hierarchy())? {
        Some(c) => Ok(Some(ordered.named().class(c).name.duplicate(alloc)?)),
        None => Ok(None),
    }
}

/// Refuses a description for a name that stands twice, one that names nothing, or a circle of superclasses.
fn check_order(alloc: Global, ordered: &Ordered) -> Result<(), MetaError>
    requires { PassesNames ordered.now }
    ensures ok { OnOk result (PassesCycles ordered.now) }
    ensures fault { IfErr result (IsRefusal ordered.now) }
{
    refuse(MetaKind::DuplicateName, first_duplicate(alloc, ordered)?)?;
    refuse(
        MetaKind::UnknownType,
        first_unknown(alloc, ordered.named())?,
    )?;
    refuse(MetaKind::SuperCycle, circular_name(alloc, ordered)?)
}

/// Refuses a description for the bounds or the opposite of a property.
fn check_props(alloc: Global, ordered: &Ordered) -> Result<(), MetaError>
    requires { PassesCycles ordered.now }
    ensures ok { OnOk result (IsSearchedWell ordered.now) }
    ensures fault { IfErr result (IsRefusal ordered.now) }
{
    let named = ordered.named();
    refuse(
        MetaKind::BadBounds,
        first_bad_bounds(alloc, named.desc().classes.as_slice())?,
    )?;
    refuse(MetaKind::BadOpposite, first_bad_opposite(alloc, named)?)?;
    refuse(MetaKind::TwoContainers, first_two_containers(alloc, named)?)
}

impl MetaModel {
    ghost use Rattle.mof_metamodel.specs.Metamodels.{class_count, class_number, class_at, enum_count, enum_number, enum_at, literal_at, literal_number, supers_of, Conforms, prop_count, props_of, inherited_props, own_props, prop_number, prop_at, opposite_of, IsProp};
    ghost use Rattle.mof_metamodel.specs.Tables.{class_numbers, prop_numbers, IsClassOf, IsPropOf, IsEnumOf};
    ghost use Rattle.mof_metamodel.specs.WellMeta.{AreOpposites, HaveOneContainer};
    ghost use Rattle.mof_metamodel.specs.Members.{HasWhatItConformsTo, IsPropNamed, HasNoPropNamed, HasNoLiteral};

    /// The metamodel of a description, or its first fault: limits come first, then names, and then the kinds of faults in
    /// the order of `MetaKind`; of one kind the first in the order of the description.
    pub fn new(alloc: Global, desc: MetaDesc) -> Result<MetaModel, MetaError>
        ensures ok { IfOk result (λ m. WellMeta desc × (m ≡ desc)) }
        ensures fault { IfErr result (IsRefusal desc) }
        ensures only { WellMeta desc → IsOkUnless result MetaError.NoMemory }
    {
        MetaModel::checked(alloc, desc)
    }

    /// The same, without the words on when it succeeds.
    fn checked(alloc: Global, desc: MetaDesc) -> Result<MetaModel, MetaError>
        ensures ok { IfOk result (λ m. WellMeta desc × (m ≡ desc)) }
        ensures fault { IfErr result (IsRefusal desc) }
    {
        or_drop!(check_names(alloc, &desc); desc);
        let ordered = order(alloc, desc)?;
        or_drop!(check_order(alloc, &ordered); ordered);
        or_drop!(check_props(alloc, &ordered); ordered);
        Ok(MetaModel::tabled(alloc, ordered)?)
    }

    /// The metamodel of a description in which no fault was found.
    fn tabled(alloc: Global, ordered: Ordered) -> Result<MetaModel, NoMemory>
        requires { IsSearchedWell ordered }
        ensures { IfOk result (λ m. m ≡ ordered) }
    {
        let props = or_drop!(resolved_props(alloc, ordered.named()); ordered);
        let names = or_drop!(all_names(alloc, ordered.named()); props, ordered);
        let holders = or_drop!(all_holders(alloc, &ordered, &names); names, props, ordered);
        Ok(MetaModel {
            ordered,
            props,
            names,
            holders,
        })
    }

    /// The name of the metamodel.
    pub fn name(&self) -> &str
        ensures { chars result.now ≡ self.now.name }
    {
        self.ordered.named().desc().name.as_str()
    }

    /// How many classes there are. Their numbers are those below. No fault stands in the description.
    pub fn class_count(&self) -> u32
        ensures count { result ≡ class_count self.now }
        ensures well { WellMeta self.now }
    {
        self.ordered.named().class_count()
    }

    /// How many enumerations there are. Their numbers are those below.
    pub fn enum_count(&self) -> u32
        ensures { result ≡ enum_count self.now }
    {
        self.ordered.named().enum_count()
    }

    /// The class of this name.
    pub fn class_named(&self, name: &str) -> Option<ClassId>
        ensures number { option_map (λ c. c.0) result ≡ class_number self.now (chars name.now) }
        ensures within { IfSome result (IsClassOf self.now) }
    {
        self.ordered.named().class_number(name).map(ClassId)
    }

    /// The enumeration of this name.
    pub fn enum_named(&self, name: &str) -> Option<EnumId>
        ensures number { option_map (λ e. e.0) result ≡ enum_number self.now (chars name.now) }
        ensures within { IfSome result (IsEnumOf self.now) }
    {
        self.ordered.named().enum_number(name).map(EnumId)
    }

    /// The name of a class.
    pub fn class_name(&self, c: ClassId) -> &str
        requires { c.0 < class_count self.now }
        ensures { chars result.now ≡ (class_at self.now c.0).name }
    {
        self.ordered.named().class(c.0).name.as_str()
    }

    /// Whether a class is abstract (EMOF's `Class::isAbstract`).
    pub fn is_abstract(&self, c: ClassId) -> bool
        requires { c.0 < class_count self.now }
        ensures { result ≡ (class_at self.now c.0).is_abstract }
    {
        self.ordered.named().class(c.0).is_abstract
    }

    /// Whether a class is another, or reaches it by superclasses (MOF's `conformsTo`): by a binary search among the classes
    /// that inherit from the other.
    pub fn conforms(&self, c: ClassId, d: ClassId) -> bool
        requires { c.0 < class_count self.now }
        ensures { IsTrue result ↔ Conforms self.now c.0 d.0 }
    {
        self.ordered.conforms(c.0, d.0)
    }

    /// The properties of a class in class order, inherited ones included: for each superclass in the written order its
    /// properties, each once and at its first place, and then the class's own.
    pub fn props(&self, c: ClassId) -> &[PropId]
        requires { c.0 < class_count self.now }
        ensures numbers { prop_numbers result.now ≡ props_of self.now c.0 }
        ensures order { props_of self.now c.0 ≡ inherited_props self.now c.0 ++ own_props self.now c.0 }
        ensures within { All (IsPropOf self.now) result.now }
        ensures inherited { HasWhatItConformsTo self.now c.0 }
    {
        self.ordered.props(c.0)
    }

    /// The place of a property in `props(c)`, or `None` where the class doesn't have it: by a binary search among the classes
    /// that inherit from the property's owner.
    pub fn place_of(&self, c: ClassId, p: PropId) -> Option<usize>
        requires { c.0 < class_count self.now }
        ensures { result ≡ position (nat_eq p.0) (props_of self.now c.0) }
    {
        self.ordered.place_of(c.0, p.0)
    }

    /// The property of this name of a class, inherited ones included: one look-up of the name, and a binary search of the class.
    pub fn prop_of(&self, c: ClassId, name: &str) -> Option<PropId>
        requires { c.0 < class_count self.now }
        ensures number { option_map (λ p. p.0) result ≡ prop_number self.now c.0 (chars name.now) }
        ensures within { IfSome result (IsPropOf self.now) }
        ensures named { MatchOption result (HasNoPropNamed self.now c.0 (chars name.now)) (IsPropNamed self.now c.0 (chars name.now)) }
    {
        self.prop_number(c.0, name).map(PropId)
    }

    /// The number of this property.
    fn prop_number(&self, c: u32, name: &str) -> Option<u32>
        requires { c < class_count self.now }
        ensures number { result ≡ prop_number self.now c (chars name.now) }
        ensures within { IfSome result (λ p. p < prop_count self.now) }
    {
        match self.names.number(name) {
            Some(number) => value_of(self.holders[number as usize].as_slice(), c),
            None => None,
        }
    }

    /// A property with its names resolved.
    pub fn prop(&self, p: PropId) -> &Prop
        requires { p.0 < prop_count self.now }
        ensures { IsProp self.now p.0 result.now }
    {
        self.resolved(p)
    }

    /// The same, of a metamodel without faults.
    fn resolved(&self, p: PropId) -> &Prop
        requires { p.0 < prop_count self.now }
        ensures prop { IsProp self.now p.0 result.now }
        ensures well { WellMeta self.now }
    {
        &self.props.as_slice()[p.0 as usize]
    }

    /// The opposite of a property (EMOF's `Property::opposite`): a property whose opposite it is, and not itself. Each has
    /// the type of the class that owns the other, and at most one is composite.
    pub fn opposite(&self, p: PropId) -> Option<PropId>
        requires { p.0 < prop_count self.now }
        ensures number { option_map (λ q. q.0) result ≡ opposite_of self.now p.0 }
        ensures within { IfSome result (IsPropOf self.now) }
        ensures pair { IfSome result (λ q. AreOpposites self.now p.0 q.0) }
        ensures container { IfSome result (λ q. HaveOneContainer self.now p.0 q.0) }
    {
        self.resolved(p).opposite
    }

    /// The lower and the upper bound of a property. An upper bound of `None` is unbounded.
    pub fn bounds(&self, p: PropId) -> (u32, Option<u32>)
        requires { p.0 < prop_count self.now }
        ensures lower { result.0 ≡ (prop_at self.now p.0).lower }
        ensures upper { result.1 ≡ (prop_at self.now p.0).upper }
    {
        let prop = self.prop(p);
        (prop.lower, prop.upper)
    }

    /// The literals of an enumeration in their order.
    pub fn literals(&self, e: EnumId) -> &[Text]
        requires { e.0 < enum_count self.now }
        ensures { result.now ≡ (enum_at self.now e.0).literals }
    {
        self.ordered.named().enumeration(e.0).literals.as_slice()
    }

    /// The literal of this name of an enumeration: its place in `literals(e)`.
    pub fn literal_named(&self, e: EnumId, name: &str) -> Option<u32>
        requires { e.0 < enum_count self.now }
        ensures number { result ≡ literal_number self.now e.0 (chars name.now) }
        ensures within { IfSome result (λ l. l < length (enum_at self.now e.0).literals) }
        ensures named { MatchOption result (HasNoLiteral self.now e.0 (chars name.now)) (λ l. literal_at self.now e.0 l ≡ chars name.now) }
    {
        self.ordered.named().literal_number(e.0, name)
    }

    /// The name of an enumeration.
    pub fn enum_name(&self, e: EnumId) -> &str
        requires { e.0 < enum_count self.now }
        ensures { chars result.now ≡ (enum_at self.now e.0).name }
    {
        self.ordered.named().enumeration(e.0).name.as_str()
    }

    /// The superclasses that a class writes, in their order, repeats included.
    pub fn supers(&self, c: ClassId) -> &[ClassId]
        requires { c.0 < class_count self.now }
        ensures numbers { class_numbers result.now ≡ supers_of self.now c.0 }
        ensures within { All (IsClassOf self.now) result.now }
    {
        self.ordered.hierarchy().supers(c.0)
    }
}
