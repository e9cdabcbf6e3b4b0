ghost use Rattle.std.specs.Prelude.{◌≡◌, ◌<◌, ◌++◌, All, IfOk, OnOk};
ghost use Rattle.std.specs.List.{filter_map};
ghost use Rattle.std.specs.Option.{option_to_list};
ghost use Rattle.mof_metamodel.specs.Metamodels.{class_number};
ghost use Rattle.mof_metamodel.specs.Tables.{class_numbers, AreSupers};

use crate::desc::ClassId;
use crate::memory::NoMemory;
use crate::named::Named;
use crate::or_drop;
use crate::seq::Seq;
use crate::text::Text;
use std::alloc::Global;
use std::marker::Model;

/// A description with a table of the superclasses that its classes write. Contracts see it as the description.
#[derive(Drop)]
pub(crate) struct Hierarchy {
    named: Named,
    supers: Vec<Seq<ClassId>>,
}

impl Model for Hierarchy {
    ghost use Rattle.mof_metamodel.specs.declared.desc.MetaDesc.{MetaDesc};
    ghost use Rattle.mof_metamodel.specs.Tables.{AreSupers};

    ghost Value = { MetaDesc };

    ghost view = { λ h. h.named };

    ghost invariant = { λ h. AreSupers h.named h.supers.items };
}

impl Hierarchy {
    ghost use Rattle.mof_metamodel.specs.Metamodels.{class_count, supers_of};
    ghost use Rattle.mof_metamodel.specs.Tables.{class_numbers, IsClassOf};

    /// The superclasses of a description's classes.
    pub(crate) fn new(alloc: Global, named: Named) -> Result<Hierarchy, NoMemory>
        ensures { IfOk result (λ h. h ≡ named) }
    {
        let supers = or_drop!(all_supers(alloc, &named); named);
        Ok(Hierarchy { named, supers })
    }

    /// The description.
    pub(crate) fn named(&self) -> &Named
        ensures { result.now ≡ self.now }
    {
        &self.named
    }

    /// The superclasses that a class writes, in their order.
    pub(crate) fn supers(&self, c: u32) -> &[ClassId]
        requires { c < class_count self.now }
        ensures numbers { class_numbers result.now ≡ supers_of self.now c }
        ensures within { All (IsClassOf self.now) result.now }
    {
        self.supers[c as usize].as_slice()
    }
}

/// Adds a class, if there is one.
fn add_class(ids: &mut Seq<ClassId>, number: Option<u32>) -> Result<(), NoMemory>
    ensures { OnOk result (class_numbers ids.new ≡ class_numbers ids.old ++ option_to_list number) }
{
    if let Some(number) = number {
        ids.push(ClassId(number))?;
    }
    Ok(())
}

/// The classes of these names, without the names that name none.
fn named_classes(alloc: Global, named: &Named, names: &[Text]) -> Result<Seq<ClassId>, NoMemory>
    ensures { IfOk result (λ ids. class_numbers ids ≡ filter_map (class_number named.now) names.now) }
{
    let mut ids = Seq::new(alloc);
    for name in names {
        add_class(&mut ids, named.class_number(name.as_str()))?;
    }
    Ok(ids)
}

/// The superclasses that each class writes.
fn all_supers(alloc: Global, named: &Named) -> Result<Vec<Seq<ClassId>>, NoMemory>
    ensures { IfOk result (λ supers. AreSupers named.now supers.items) }
{
    let mut supers = Vec::new(alloc);
    for class in named.desc().classes.as_slice() {
        let ids = named_classes(alloc, named, class.supers.as_slice())?;
        supers.push(ids)?;
    }
    Ok(supers)
}
