ghost use Rattle.std.specs.Prelude.{◌≡◌, ◌<◌, ◌+◌, ◌^◌};
ghost use Rattle.xmi_profile.specs.Judging as judging;
ghost use Rattle.xmi_profile.specs.Scanning.{is_own};

use crate::attributes::Attributes;
use crate::names::Own;
use model_assembly::Role;
use mof_metamodel::Text;

/// What is kept of an element: its place, what it is, its name and attributes, the characters directly in it, the place of
/// the first run of them, and the place of the first run that isn't all blank.
#[derive(Drop)]
pub(crate) struct Element {
    pub place: u128,
    pub role: Role,
    pub name: Text,
    pub attrs: Attributes,
    pub text: Text,
    pub text_at: Option<u128>,
    pub odd_at: Option<u128>,
}

impl Element {
    /// The place of its first attribute of this name, or else its own.
    pub(crate) fn own_place(&self, own: Own) -> u128
        requires { self.now.place + 2 ^ 64 < 2 ^ 128 }
        ensures { result ≡ judging.place_of (is_own own) self.now }
    {
        match self.attrs.number(own) {
            Some(number) => self.place + number as u128 + 1,
            None => self.place,
        }
    }

    /// The place of its first run of characters, or else that directly behind its start tag.
    pub(crate) fn text_place(&self) -> u128
        requires { self.now.place + 2 ^ 64 < 2 ^ 128 }
        ensures { result ≡ judging.text_place self.now }
    {
        match self.text_at {
            Some(place) => place,
            None => self.place + self.attrs.len() as u128 + 1,
        }
    }
}
