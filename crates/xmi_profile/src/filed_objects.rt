ghost use Rattle.std.specs.Prelude.{◌≡◌, IfOk, OnOk};
ghost use Rattle.xmi_profile.specs.Filing as filing;
ghost use Rattle.xmi_profile.specs.Known.{ReadsFiled};

use crate::element::Element;
use crate::fault::XmiError;
use crate::filing::{Filer, Writings};
use crate::judging::class_by;
use crate::numbering::primitive_class;
use crate::objects::{Objects, read_objects};
use crate::roles::Profile;
use model_assembly::Filed;
use mof_metamodel::{ClassId, NoMemory, Seq, Text, or_drop};
use std::alloc::Global;

/// The classes of objects, and what they write.
#[derive(Drop)]
pub(crate) struct Lists {
    pub classes: Seq<ClassId>,
    pub writings: Writings,
}

/// Adds a class, if there is one.
fn add_class(classes: &mut Seq<ClassId>, class: Option<u32>) -> Result<(), NoMemory>
    ensures { OnOk result (classes.new ≡ filing.with_class classes.old class) }
{
    match class {
        Some(class) => classes.push(ClassId(class)),
        None => Ok(()),
    }
}

/// Adds the classes of the objects among elements.
fn add_classes(classes: &mut Seq<ClassId>, elements: &[Element]) -> Result<(), NoMemory>
    ensures { OnOk result (classes.new ≡ filing.with_classes classes.old elements.now) }
{
    for element in elements {
        add_class(classes, class_by(&element.role))?;
    }
    Ok(())
}

/// Adds a class for each of these identifiers.
fn add_class_each(
    classes: &mut Seq<ClassId>,
    class: Option<u32>,
    ids: &[Text],
) -> Result<(), NoMemory>
    ensures { OnOk result (classes.new ≡ filing.with_class_each class classes.old ids.now) }
{
    for id in ids {
        add_class(classes, class)?;
    }
    Ok(())
}

impl Lists {
    fn new(alloc: Global) -> Lists
        ensures { result ≡ filing.no_lists }
    {
        Lists {
            classes: Seq::new(alloc),
            writings: Writings::new(alloc),
        }
    }

    /// Adds what elements write.
    fn fill(&mut self, filer: &Filer<'_>, elements: &[Element]) -> Result<(), NoMemory>
        requires known { filing.AreFileable filer.now.meta.now filer.now.numbers.now elements.now }
        requires nothing { self.old ≡ filing.no_lists }
        ensures { OnOk result (self.new ≡ filing.lists_of filer.now.meta.now filer.now.numbers.now elements.now) }
    {
        add_classes(&mut self.classes, elements)?;
        let first = self.classes.len();
        let added = &filer.numbers.ids()[first..];
        self.writings.add_all(filer, elements, first, added)?;
        add_class_each(&mut self.classes, primitive_class(filer.meta), added)
    }
}

/// The classes of objects, and what they write.
fn lists_of(profile: &Profile<'_>, objects: &Objects) -> Result<Lists, NoMemory>
    requires { filing.AreFileable profile.now.meta.now objects.now.numbers objects.now.listing.elements }
    ensures { IfOk result (λ lists. lists ≡ filing.lists_of profile.now.meta.now objects.now.numbers objects.now.listing.elements) }
{
    let filer = Filer {
        alloc: profile.alloc,
        meta: profile.meta,
        numbers: &objects.numbers,
    };
    let mut lists = Lists::new(profile.alloc);
    or_drop!(lists.fill(&filer, objects.listing.elements()); lists);
    Ok(lists)
}

/// The lists of objects with these identifiers.
fn filed_with(objects: Objects, lists: Lists) -> Filed
    ensures { result ≡ filing.filed_with objects.numbers.ids lists }
{
    let Objects { listing, numbers } = objects;
    drop(listing);
    Filed {
        ids: numbers.into_ids(),
        classes: lists.classes,
        values: lists.writings.values,
        references: lists.writings.references,
        mentions: lists.writings.mentions,
    }
}

/// What objects write, as flat lists.
fn filed_of(profile: &Profile<'_>, objects: Objects) -> Result<Filed, NoMemory>
    requires { filing.AreFileable profile.now.meta.now objects.numbers objects.listing.elements }
    ensures { IfOk result (λ filed. filed ≡ filing.filed_of profile.now.meta.now objects.numbers objects.listing.elements) }
{
    let lists = or_drop!(lists_of(profile, &objects); objects);
    Ok(filed_with(objects, lists))
}

/// What the objects of bytes write, as flat lists; or the fault of their markup, or the first fault of an object by itself.
pub(crate) fn read_filed(profile: &Profile<'_>, bytes: &[u8]) -> Result<Filed, XmiError>
    ensures { ReadsFiled profile.now.meta.now profile.now.outside bytes.now result }
{
    match read_objects(profile, bytes) {
        Ok(objects) => Ok(filed_of(profile, objects)?),
        Err(error) => Err(error),
    }
}
