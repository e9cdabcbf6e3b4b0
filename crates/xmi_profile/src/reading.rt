ghost use Rattle.std.specs.Prelude.{◌≡◌, ◌<◌, ◌≤◌, ◌+◌, ◌^◌, ◌∷◌, [], true, IfOk, OnOk, Ok};
ghost use Rattle.mof_metamodel.specs.Giving.{Gives};
ghost use Rattle.xmi_text.specs.Trees.{told};
ghost use Rattle.xmi_profile.specs.Bytes.{text_fault, next_of, behind_next, listing_of, IsSaid, mark_of, unless_end};
ghost use Rattle.xmi_profile.specs.Listing as lists;
ghost use Rattle.xmi_profile.specs.Listing.{IsSound, AreKnown};

use crate::listing::Listing;
use crate::roles::Profile;
use mof_metamodel::{NoMemory, or_drop};
use xmi_text::{Mark, Reader, Step, TextError};

/// What an answer on a whole text says of the next mark.
fn mark_of(answer: Result<Step, TextError>) -> Result<Option<Mark>, TextError>
    requires { IsSaid answer }
    ensures { result ≡ mark_of answer }
{
    match answer {
        Ok(step) => mark_of_step(step),
        Err(error) => Err(error),
    }
}

/// What a step says of the next mark.
fn mark_of_step(step: Step) -> Result<Option<Mark>, TextError>
    requires { IsSaid (Ok step) }
    ensures { result ≡ mark_of (Ok step) }
{
    match step {
        Step::Mark(mark) => Ok(unless_end(mark)),
        Step::NotYet => unreachable!(),
    }
}

/// A mark, unless it is the end.
fn unless_end(mark: Mark) -> Option<Mark>
    ensures { result ≡ unless_end mark }
{
    match mark {
        Mark::End => None,
        mark => Some(mark),
    }
}

/// The next mark of a whole text, or none behind the last one, or the fault.
fn next_mark(reader: &mut Reader) -> Result<Option<Mark>, TextError>
    requires { reader.old.finished ≡ true }
    ensures gives { Gives text_fault (λ mark. mark) result (next_of reader.old) }
    ensures behind { reader.new ≡ behind_next result reader.old }
{
    let answer = reader.next();
    mark_of(answer)
}

/// Adds what a mark says.
fn take_mark(listing: &mut Listing, profile: &Profile<'_>, mark: Mark) -> Result<(), NoMemory>
    requires sound { IsSound profile.now.meta.now listing.old }
    requires room { listing.old.place + 2 ^ 64 < 2 ^ 128 }
    ensures ok { OnOk result (listing.new ≡ lists.listed profile.now.meta.now profile.now.outside listing.old (told (mark ∷ []))) }
    ensures sound { OnOk result (IsSound profile.now.meta.now listing.new) }
    ensures room { OnOk result (listing.new.place ≤ listing.old.place + 2 ^ 63) }
{
    match mark {
        Mark::Open { name, attrs, at: _ } => listing.begin(profile, name, attrs),
        Mark::Data { text, at: _ } => listing.say(text.as_str()),
        Mark::Close { at: _ } => {
            listing.end();
            Ok(())
        }
        Mark::End => Ok(()),
    }
}

/// The elements of all marks of a reader, or the fault of its text.
fn list_marks(
    profile: &Profile<'_>,
    reader: &mut Reader,
    bytes: &[u8],
) -> Result<Listing, TextError>
    requires { reader.old ≡ record { bytes = bytes.now; finished = true; given = 0 } }
    ensures gives { Gives text_fault (λ listing. listing) result (listing_of profile.now.meta.now profile.now.outside bytes.now) }
    ensures known { IfOk result (λ listing. AreKnown profile.now.meta.now listing.elements) }
{
    let mut listing = Listing::new(profile.alloc);
    let _length = bytes.len();
    while let Some(mark) = next_mark(reader)? {
        take_mark(&mut listing, profile, mark)?;
    }
    Ok(listing)
}

/// The elements that bytes spell, or the fault of their markup.
pub(crate) fn read_listing(profile: &Profile<'_>, bytes: &[u8]) -> Result<Listing, TextError>
    ensures gives { Gives text_fault (λ listing. listing) result (listing_of profile.now.meta.now profile.now.outside bytes.now) }
    ensures known { IfOk result (λ listing. AreKnown profile.now.meta.now listing.elements) }
{
    let mut reader = Reader::new(profile.alloc);
    or_drop!(reader.feed(bytes); reader);
    reader.finish();
    let listing = list_marks(profile, &mut reader, bytes);
    drop(reader);
    listing
}
