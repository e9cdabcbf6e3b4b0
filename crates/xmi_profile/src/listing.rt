ghost use Rattle.std.specs.Prelude.{◌≡◌, ◌<◌, ◌≤◌, ◌+◌, ◌^◌, List, [], length, chars, IfOk, IfSome, OnOk, All};
ghost use Rattle.object_tables.specs.Lists.{update_at};
ghost use Rattle.model_assembly.specs.Elements.{number_in};
ghost use Rattle.xmi_profile.specs.Listing as lists;
ghost use Rattle.xmi_profile.specs.Listing.{IsSound};
ghost use Rattle.xmi_profile.specs.Scanning.{IsWithin, pairs_of};
ghost use Rattle.model_assembly.specs.Values as texts;

use crate::attributes::Attributes;
use crate::element::Element;
use crate::names::is_all_blank;
use crate::roles::Profile;
use model_assembly::{Role, empty_text};
use mof_metamodel::{NoMemory, Seq, Text, or_drop};
use std::alloc::Global;
use std::marker::Model;
use xmi_text::Attr;

/// The elements of a text so far in document order.
#[derive(Drop)]
pub(crate) struct Listing {
    elements: Vec<Element>,
    /// The numbers of the open ones, the innermost last.
    ancestors: Vec<usize>,
    /// The place, and the number of the next object, behind them.
    place: u128,
    number: u64,
}

impl Model for Listing {
    ghost use Rattle.xmi_profile.specs.Listing as lists;

    ghost Value = { lists.Listing };

    ghost view = { λ l. record { elements = l.elements.items; ancestors = l.ancestors.items; place = l.place; number = l.number } };
}

/// An element whose start tag was read.
fn begun(alloc: Global, place: u128, role: Role, name: Text, attrs: Attributes) -> Element
    ensures { result ≡ lists.begun place role name attrs }
{
    Element {
        place,
        role,
        name,
        attrs,
        text: empty_text(alloc),
        text_at: None,
        odd_at: None,
    }
}

/// The first place.
fn or_place(earlier: Option<u128>, place: u128) -> Option<u128>
    ensures { result ≡ lists.or_place earlier place }
{
    match earlier {
        Some(earlier) => Some(earlier),
        None => Some(place),
    }
}

/// The place of the first run that isn't all blank.
fn odd_place(characters: &str, odd: Option<u128>, place: u128) -> Option<u128>
    ensures { result ≡ lists.odd_place (texts.is_all_blank (chars characters.now)) odd place }
{
    if is_all_blank(characters) {
        odd
    } else {
        or_place(odd, place)
    }
}

/// Adds a run of characters to an element.
fn add_run(element: &mut Element, place: u128, characters: &str) -> Result<(), NoMemory>
    ensures { OnOk result (element.new ≡ lists.with_run place (chars characters.now) element.old) }
{
    element.text.push_str(characters)?;
    element.text_at = or_place(element.text_at, place);
    element.odd_at = odd_place(characters, element.odd_at, place);
    Ok(())
}

/// Adds a run of characters to an element of a list.
fn add_at(elements: &mut [Element], n: usize, place: u128, characters: &str) -> Result<(), NoMemory>
    requires { n < length elements.old }
    ensures { OnOk result (elements.new ≡ update_at elements.old n (lists.with_run place (chars characters.now))) }
{
    add_run(&mut elements[n], place, characters)?;
    Ok(())
}

/// Adds a run of characters to the innermost open element.
fn add_inside(
    elements: &mut [Element],
    innermost: Option<usize>,
    place: u128,
    characters: &str,
) -> Result<(), NoMemory>
    requires { IfSome innermost (λ n. n < length elements.old) }
    ensures { OnOk result (elements.new ≡ lists.said_in elements.old place (chars characters.now) innermost) }
{
    match innermost {
        Some(n) => add_at(elements, n, place, characters),
        None => Ok(()),
    }
}

/// The number of the innermost open element.
fn innermost(ancestors: &[usize]) -> Option<usize>
    ensures { result ≡ lists.innermost ancestors.now }
{
    ancestors.last().copied()
}

/// The number of the next object behind the start of an element of this role.
fn number_in(role: &Role, number: u64) -> u64
    requires { number + 1 < 2 ^ 64 }
    ensures { result ≡ number_in role.now number }
{
    match role {
        Role::AnObject(_) => number + 1,
        _ => number,
    }
}

impl Listing {
    /// No element.
    pub(crate) fn new(alloc: Global) -> Listing
        ensures { result ≡ lists.nothing }
    {
        Listing {
            elements: Vec::new(alloc),
            ancestors: Vec::new(alloc),
            place: 0,
            number: 0,
        }
    }

    /// The elements.
    pub(crate) fn elements(&self) -> &[Element]
        ensures { result.now ≡ self.now.elements }
    {
        self.elements.as_slice()
    }

    /// What the next element is.
    fn next_role(
        &self,
        profile: &Profile<'_>,
        name: &str,
        attrs: &Attributes,
    ) -> Result<Role, NoMemory>
        requires { IsSound profile.now.meta.now self.now }
        ensures role { IfOk result (λ r. r ≡ lists.role_by profile.now.meta.now profile.now.outside self.now.number (chars name.now) attrs.now (lists.parent_of self.now)) }
        ensures within { IfOk result (IsWithin profile.now.meta.now) }
    {
        match innermost(self.ancestors.as_slice()) {
            Some(n) => profile.role_in(&self.elements[n].role, self.number, name, attrs),
            None => profile.role_of_root(name, attrs),
        }
    }

    /// Adds an element to the innermost open one.
    fn add(
        &mut self,
        alloc: Global,
        role: Role,
        name: Text,
        attrs: Attributes,
    ) -> Result<(), NoMemory>
        requires number { self.old.number ≤ length self.old.elements }
        requires room { self.old.place + 2 ^ 64 < 2 ^ 128 }
        ensures ok { OnOk result (self.new ≡ lists.with_element self.old role name attrs) }
        ensures few { length attrs + 1 ≤ 2 ^ 63 }
    {
        let n = self.elements.len();
        let number = number_in(&role, self.number);
        let place = self.place + attrs.len() as u128 + 1;
        or_drop!(self.ancestors.push(n); role, name, attrs);
        self.elements
            .push(begun(alloc, self.place, role, name, attrs))?;
        self.place = place;
        self.number = number;
        Ok(())
    }

    /// Takes a start tag.
    pub(crate) fn begin(
        &mut self,
        profile: &Profile<'_>,
        name: Text,
        attrs: Seq<Attr>,
    ) -> Result<(), NoMemory>
        requires sound { IsSound profile.now.meta.now self.old }
        requires room { self.old.place + 2 ^ 64 < 2 ^ 128 }
        ensures ok { OnOk result (self.new ≡ lists.opened profile.now.meta.now profile.now.outside self.old name (pairs_of attrs)) }
        ensures sound { OnOk result (IsSound profile.now.meta.now self.new) }
        ensures room { OnOk result (self.new.place ≤ self.old.place + 2 ^ 63) }
    {
        let attrs = Attributes::new(attrs);
        let role = or_drop!(self.next_role(profile, name.as_str(), &attrs); name, attrs);
        self.add(profile.alloc, role, name, attrs)
    }

    /// Takes a run of characters.
    pub(crate) fn say(&mut self, characters: &str) -> Result<(), NoMemory>
        requires sound { All (λ n. n < length self.old.elements) self.old.ancestors }
        requires room { self.old.place + 1 < 2 ^ 128 }
        ensures { OnOk result (self.new ≡ lists.said self.old (chars characters.now)) }
    {
        let innermost = innermost(self.ancestors.as_slice());
        let elements = self.elements.as_mut_slice();
        add_inside(elements, innermost, self.place, characters)?;
        self.place += 1;
        Ok(())
    }

    /// Takes an end tag.
    pub(crate) fn end(&mut self)
        requires { self.old.place + 1 < 2 ^ 128 }
        ensures { self.new ≡ lists.closed self.old }
    {
        self.ancestors.pop();
        self.place += 1;
    }
}
