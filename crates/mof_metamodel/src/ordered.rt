ghost use Rattle.std.specs.Prelude.{nat_eq, position, ◌≡◌, ◌<◌, ◌↔◌, ◌++◌, All, Contains, map, IsTrue, IfOk, OnOk, MatchOption};
ghost use Rattle.std.specs.List.{flat_map};
ghost use Rattle.mof_metamodel.specs.Metamodels.{class_count, own_props, props_of, lineage_of};
ghost use Rattle.mof_metamodel.specs.Tables.{prop_numbers, table};

use crate::desc::PropId;
use crate::entries::{Entry, value_of};
use crate::heirs::all_heirs;
use crate::hierarchy::Hierarchy;
use crate::lineages::{all_found, all_lineages, all_lines};
use crate::memory::NoMemory;
use crate::named::Named;
use crate::or_drop;
use crate::seq::Seq;
use std::alloc::Global;
use std::marker::Model;

/// A description with its class orders, and the properties of each class in class order. Contracts see it as the description.
#[derive(Drop)]
pub(crate) struct Ordered {
    hierarchy: Hierarchy,
    grounded: bool,
    orders: Vec<Seq<PropId>>,
    heirs: Vec<Seq<Entry>>,
}

impl Model for Ordered {
    ghost use Rattle.mof_metamodel.specs.declared.desc.MetaDesc.{MetaDesc};
    ghost use Rattle.mof_metamodel.specs.Tables.{IsOrdered};

    ghost Value = { MetaDesc };

    ghost view = { λ o. o.hierarchy };

    ghost invariant = { λ o. IsOrdered o.hierarchy o.grounded o.orders.items o.heirs.items };
}

impl Ordered {
    ghost use Rattle.mof_metamodel.specs.Tables.{IsPropOf, IsGrounded, IsStart};
    ghost use Rattle.mof_metamodel.specs.Metamodels.{Conforms};

    /// The orders of a description.
    pub(crate) fn new(alloc: Global, hierarchy: Hierarchy) -> Result<Ordered, NoMemory>
        ensures { IfOk result (λ o. o ≡ hierarchy) }
    {
        let lines = or_drop!(all_lines(alloc, &hierarchy); hierarchy);
        let grounded = all_found(lines.as_slice());
        let lineages = all_lineages(alloc, &hierarchy, lines.as_slice());
        drop(lines);
        let lineages = or_drop!(lineages; hierarchy);
        let named = hierarchy.named();
        let orders = or_drop!(prop_orders(alloc, named, lineages.as_slice()); lineages, hierarchy);
        let heirs = all_heirs(alloc, named, lineages.as_slice());
        drop(lineages);
        let heirs = or_drop!(heirs; orders, hierarchy);
        Ok(Ordered {
            hierarchy,
            grounded,
            orders,
            heirs,
        })
    }

    /// The description with its superclasses.
    pub(crate) fn hierarchy(&self) -> &Hierarchy
        ensures { result.now ≡ self.now }
    {
        &self.hierarchy
    }

    /// The description.
    pub(crate) fn named(&self) -> &Named
        ensures { result.now ≡ self.now }
    {
        self.hierarchy.named()
    }

    /// The properties of a class in class order.
    pub(crate) fn props(&self, c: u32) -> &[PropId]
        requires { c < class_count self.now }
        ensures numbers { prop_numbers result.now ≡ props_of self.now c }
        ensures within { All (IsPropOf self.now) result.now }
    {
        self.orders[c as usize].as_slice()
    }

    /// How many properties stand before those of a class among those of another, which conforms to it.
    fn start(&self, c: u32, d: u32) -> Option<u32>
        requires { c < class_count self.now }
        ensures { MatchOption result (Contains (lineage_of self.now c) d → ⊥) (IsStart self.now c d) }
    {
        if d >= self.named().class_count() {
            return None;
        }
        value_of(self.heirs[d as usize].as_slice(), c)
    }

    /// The place of a property among those of a class in class order: behind those of the classes before its owner.
    pub(crate) fn place_of(&self, c: u32, p: u32) -> Option<usize>
        requires { c < class_count self.now }
        ensures { result ≡ position (nat_eq p) (props_of self.now c) }
    {
        let named = self.named();
        if p >= named.prop_count() {
            return None;
        }
        let owner = named.owner(p);
        let start = self.start(c, owner)?;
        Some((start + (p - named.first_own(owner))) as usize)
    }

    /// Whether each class has a class order.
    pub(crate) fn is_grounded(&self) -> bool
        ensures { IsTrue result → IsGrounded self.now }
    {
        self.grounded
    }

    /// Whether a class is another, or reaches it by superclasses.
    pub(crate) fn conforms(&self, c: u32, d: u32) -> bool
        requires { c < class_count self.now }
        ensures { IsTrue result ↔ Conforms self.now c d }
    {
        self.start(c, d).is_some()
    }
}

/// Adds the properties that a class owns.
fn add_own(order: &mut Seq<PropId>, named: &Named, c: u32) -> Result<(), NoMemory>
    requires { c < class_count named.now }
    ensures { OnOk result (prop_numbers order.new ≡ prop_numbers order.old ++ own_props named.now c) }
{
    let first = named.first_own(c);
    let count = named.class(c).props.len() as u32;
    for p in first..first + count {
        order.push(PropId(p))?;
    }
    Ok(())
}

/// The properties of the classes of a class order.
fn props_in(alloc: Global, named: &Named, classes: &[u32]) -> Result<Seq<PropId>, NoMemory>
    requires { All (λ c. c < class_count named.now) classes.now }
    ensures { IfOk result (λ order. prop_numbers order ≡ flat_map (own_props named.now) classes.now) }
{
    let mut order = Seq::new(alloc);
    for c in classes {
        add_own(&mut order, named, *c)?;
    }
    Ok(order)
}

/// The properties of each class in class order.
fn prop_orders(
    alloc: Global,
    named: &Named,
    lineages: &[Seq<u32>],
) -> Result<Vec<Seq<PropId>>, NoMemory>
    requires { lineages.now ≡ table (lineage_of named.now) (class_count named.now) }
    ensures { IfOk result (λ orders. map prop_numbers orders.items ≡ table (props_of named.now) (class_count named.now)) }
{
    let mut orders = Vec::new(alloc);
    for c in 0..named.class_count() {
        let order = props_in(alloc, named, lineages[c as usize].as_slice())?;
        orders.push(order)?;
    }
    Ok(orders)
}
