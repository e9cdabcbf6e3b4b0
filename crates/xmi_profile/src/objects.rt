ghost use Rattle.std.specs.Prelude.{◌≡◌, None, IfOk, OnOk};
ghost use Rattle.xmi_profile.specs.Judging as judging;
ghost use Rattle.xmi_profile.specs.Known as known;
ghost use Rattle.xmi_profile.specs.Known.{Answers, ReadsObjects};
ghost use Rattle.xmi_profile.specs.Listing.{AreKnown};
ghost use Rattle.xmi_profile.specs.Numbering.{no_numbers, numbered, all_numbered};

use crate::element::Element;
use crate::fault::XmiError;
use crate::judging::{Found, Judge, first_of};
use crate::listing::Listing;
use crate::numbering::{Numbers, numbered};
use crate::reading::read_listing;
use crate::roles::Profile;
use model_assembly::ModelFault;
use mof_metamodel::{NoMemory, Text, or_drop};
use object_tables::{LimitKind, MAX_OBJECTS};

/// The elements of a file, and its objects, none of which has a fault by itself.
#[derive(Drop)]
pub(crate) struct Objects {
    pub listing: Listing,
    pub numbers: Numbers,
}

/// The fault that was found.
fn fault_in(found: Option<Found>) -> Option<ModelFault>
    ensures { result ≡ known.fault_in found }
{
    match found {
        Some(found) => Some(found.fault),
        None => None,
    }
}

/// Too many objects, or else the fault that was found.
fn told(numbers: &Numbers, found: Option<Found>) -> Option<ModelFault>
    ensures { result ≡ known.told numbers.now found }
{
    if numbers.ids().len() > MAX_OBJECTS as usize {
        drop(found);
        Some(ModelFault::Limit(LimitKind::Objects))
    } else {
        fault_in(found)
    }
}

/// The first fault of elements by themselves.
fn found_in(
    profile: &Profile<'_>,
    elements: &[Element],
    ids: &[Text],
) -> Result<Option<Found>, NoMemory>
    requires { AreKnown profile.now.meta.now elements.now }
    ensures { IfOk result (λ f. f ≡ judging.first_fault profile.now.meta.now ids.now None elements.now) }
{
    let judge = Judge {
        alloc: profile.alloc,
        meta: profile.meta,
        ids,
    };
    judge.first_fault(None, elements)
}

/// The objects, unless there is a fault.
fn unless_fault(numbers: Numbers, fault: Option<ModelFault>) -> Result<Numbers, XmiError>
    ensures { result ≡ known.unless_fault numbers fault }
{
    match fault {
        Some(fault) => {
            drop(numbers);
            Err(XmiError::Content(fault))
        }
        None => Ok(numbers),
    }
}

/// The first fault of elements by themselves, whose objects are then those of the file and the primitive types that are added.
fn fault_of(
    profile: &Profile<'_>,
    elements: &[Element],
    numbers: &mut Numbers,
) -> Result<Option<ModelFault>, NoMemory>
    requires known { AreKnown profile.now.meta.now elements.now }
    requires numbered { numbers.old ≡ numbered no_numbers elements.now }
    ensures fault { IfOk result (λ f. f ≡ known.fault_of profile.now.meta.now elements.now) }
    ensures numbers { OnOk result (numbers.new ≡ record (all_numbered profile.now.meta.now elements.now) { repeated = None }) }
{
    let found = found_in(profile, elements, numbers.ids())?;
    or_drop!(numbers.add_externs(profile, elements); found);
    let repeated = numbers.take_repeated();
    Ok(told(numbers, first_of(repeated, found)))
}

/// The objects of elements, or the first fault of one by itself.
fn judged(profile: &Profile<'_>, elements: &[Element]) -> Result<Numbers, XmiError>
    requires { AreKnown profile.now.meta.now elements.now }
    ensures { Answers result (known.judged profile.now.meta.now elements.now) }
{
    let mut numbers = numbered(profile.alloc, elements)?;
    let fault = or_drop!(fault_of(profile, elements, &mut numbers); numbers);
    unless_fault(numbers, fault)
}

/// The objects of elements, with these.
fn with_numbers(profile: &Profile<'_>, listing: Listing) -> Result<Objects, XmiError>
    requires { AreKnown profile.now.meta.now listing.elements }
    ensures { Answers result (known.with_listing listing (known.judged profile.now.meta.now listing.elements)) }
{
    match judged(profile, listing.elements()) {
        Ok(numbers) => Ok(Objects { listing, numbers }),
        Err(error) => {
            drop(listing);
            Err(error)
        }
    }
}

/// The objects of bytes, or the fault of their markup, or the first fault of an object by itself. A model is made of them,
/// with the links between them.
pub(crate) fn read_objects(profile: &Profile<'_>, bytes: &[u8]) -> Result<Objects, XmiError>
    ensures { ReadsObjects profile.now.meta.now profile.now.outside bytes.now result }
{
    match read_listing(profile, bytes) {
        Ok(listing) => with_numbers(profile, listing),
        Err(error) => Err(XmiError::from(error)),
    }
}
