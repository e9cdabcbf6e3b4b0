ghost use Rattle.std.specs.Prelude.{◌≡◌, List, ◌==◌, length, [], ◌∷◌, ◌++◌, IsTrue, IfOk, OnOk, OnErr, None, chars, nat_eq, encode_utf8_all};
ghost use Rattle.std.specs.Cmp.Lexicographic.{pointwise};
ghost use Rattle.xmi_text.specs.Writing as writing;
ghost use Rattle.xmi_text.specs.Calls.{Call, AllMay, wrote, meant};
ghost use Rattle.xmi_text.specs.Markup.{joined_runs, Markup};
ghost use Rattle.xmi_text.specs.Trees.{Tree, events};
ghost use Rattle.xmi_text.specs.Names.{is_name};
ghost use Rattle.mof_metamodel.specs.Characters.{is_storable_text};

use crate::attributes::empty_text;
use crate::limits::MAX_XMI_NESTING;
use mof_metamodel::{NoMemory, Seq, Text};
use std::alloc::Global;
use std::marker::Model;

/// Writes the markup of one root element. Contracts see the characters so far, whether the root element was begun, the
/// names of the open elements, and the names of the attributes of the start tag that isn't ended yet, if there is one.
/// After `NoMemory` a writer is as it was.
#[derive(Drop)]
pub struct Writer {
    alloc: Global,
    text: Text,
    rooted: bool,
    elements: Vec<Text>,
    in_tag: bool,
    names: Vec<Text>,
}

impl Model for Writer {
    ghost use Rattle.xmi_text.specs.Writing.{Written, names_of};

    ghost Value = { Written };

    ghost view = { λ w. record { text = w.text; rooted = w.rooted; elements = w.elements.items; names = names_of w.in_tag w.names.items } };
}

impl Writer {
    /// A writer that wrote nothing.
    pub fn new(alloc: Global) -> Writer
        ensures { result ≡ writing.nothing }
    {
        Writer {
            alloc,
            text: empty_text(alloc),
            rooted: false,
            elements: Vec::new(alloc),
            in_tag: false,
            names: Vec::new(alloc),
        }
    }

    /// Whether nothing was written yet.
    pub fn is_empty(&self) -> bool
        ensures { result ≡ writing.is_empty self.now }
    {
        is_empty(self.text.as_str())
    }

    /// Whether an element is open.
    pub fn is_inside(&self) -> bool
        ensures { result ≡ writing.is_inside self.now }
    {
        self.elements.len() > 0
    }

    /// Whether an element may begin: the root, or one in fewer than `MAX_XMI_NESTING` others.
    pub fn may_open(&self) -> bool
        ensures { result ≡ writing.may_open self.now }
    {
        if self.is_inside() {
            self.elements.len() < MAX_XMI_NESTING
        } else {
            !self.rooted
        }
    }

    /// Whether a start tag isn't ended yet and has no attribute of this name. It takes time in the number of the tag's
    /// attributes.
    pub fn may_attr(&self, name: &str) -> bool
        ensures { result ≡ writing.may_attr self.now (chars name.now) }
    {
        self.in_tag && !has(self.names.as_slice(), name)
    }

    /// Whether the root element was written, and ended.
    pub fn is_whole(&self) -> bool
        ensures { result ≡ writing.is_whole self.now }
    {
        !self.is_inside() && self.rooted
    }

    /// Writes the XML declaration (XML 1.0, 2.8), which comes before all else.
    pub fn declare(&mut self) -> Result<(), NoMemory>
        requires { IsTrue (writing.is_empty self.old) }
        ensures ok { OnOk result (self.new ≡ writing.declared self.old) }
        ensures err { OnErr result (self.new ≡ self.old) }
    {
        push_declaration(&mut self.text)?;
        Ok(())
    }

    /// Ends the line, and indents the next one by two spaces for each level of depth. They are written as they are, so
    /// that in an element they are characters of it.
    pub fn line(&mut self, depth: usize) -> Result<(), NoMemory>
        ensures ok { OnOk result (self.new ≡ writing.with_line self.old depth) }
        ensures err { OnErr result (self.new ≡ self.old) }
    {
        let mut piece = start(self.alloc, self.in_tag)?;
        end_line(&mut piece, depth)?;
        self.text.push_str(piece.as_str())?;
        self.in_tag = false;
        Ok(())
    }

    /// Begins an element: the root, or one in the innermost open element.
    pub fn open(&mut self, name: &str) -> Result<(), NoMemory>
        requires name { IsTrue (is_name (chars name.now)) }
        requires place { IsTrue (writing.may_open self.old) }
        ensures ok { OnOk result (self.new ≡ writing.opened self.old (chars name.now)) }
        ensures err { OnErr result (self.new ≡ self.old) }
    {
        let mut piece = start(self.alloc, self.in_tag)?;
        piece.push('<')?;
        piece.push_str(name)?;
        let name = Text::new(self.alloc, name)?;
        put(&mut self.elements, name, &mut self.text, &piece)?;
        self.rooted = true;
        self.in_tag = true;
        self.names.clear();
        Ok(())
    }

    /// Writes an attribute of the element that was just begun.
    pub fn attr(&mut self, name: &str, value: &str) -> Result<(), NoMemory>
        requires name { IsTrue (is_name (chars name.now)) }
        requires value { IsTrue (is_storable_text (chars value.now)) }
        requires fresh { IsTrue (writing.may_attr self.old (chars name.now)) }
        ensures ok { OnOk result (self.new ≡ writing.with_attr self.old (chars name.now) (chars value.now)) }
        ensures err { OnErr result (self.new ≡ self.old) }
    {
        let mut piece = empty_text(self.alloc);
        piece.push(' ')?;
        piece.push_str(name)?;
        piece.push('=')?;
        piece.push('"')?;
        escape(&mut piece, value)?;
        piece.push('"')?;
        let name = Text::new(self.alloc, name)?;
        put(&mut self.names, name, &mut self.text, &piece)
    }

    /// Writes characters in the innermost open element.
    pub fn data(&mut self, text: &str) -> Result<(), NoMemory>
        requires text { IsTrue (is_storable_text (chars text.now)) }
        requires inside { IsTrue (writing.is_inside self.old) }
        ensures ok { OnOk result (self.new ≡ writing.with_data self.old (chars text.now)) }
        ensures err { OnErr result (self.new ≡ self.old) }
    {
        if is_empty(text) {
            return Ok(());
        }
        let mut piece = start(self.alloc, self.in_tag)?;
        escape(&mut piece, text)?;
        self.text.push_str(piece.as_str())?;
        self.in_tag = false;
        Ok(())
    }

    /// Ends the innermost open element.
    pub fn close(&mut self) -> Result<(), NoMemory>
        requires { IsTrue (writing.is_inside self.old) }
        ensures ok { OnOk result (self.new ≡ writing.closed self.old) }
        ensures err { OnErr result (self.new ≡ self.old) }
    {
        let piece = end(self.alloc, self.in_tag, self.elements.as_slice())?;
        self.text.push_str(piece.as_str())?;
        self.in_tag = false;
        let _ = self.elements.pop();
        Ok(())
    }

    /// The bytes of the whole text. They are a document, of the tree that the calls mean which wrote it.
    pub fn into_bytes(self) -> Seq<u8>
        requires { IsTrue (writing.is_whole self) }
        ensures text { result ≡ encode_utf8_all self.text }
        ensures tree { (calls : List Call) → AllMay writing.nothing calls → wrote writing.nothing calls ≡ self → (tree : Tree) × (joined_runs (meant calls) ≡ events tree) × Markup result tree }
    {
        let Writer { text, .. } = self;
        Seq::from_vec(text.into_string().into_bytes())
    }
}

/// Whether a text has no character.
fn is_empty(text: &str) -> bool
    ensures { result ≡ (length (chars text.now) == 0) }
{
    text.is_empty()
}

/// Whether a name has these characters.
fn is_same(one: &Text, name: &str) -> bool
    ensures { result ≡ pointwise nat_eq one.now (chars name.now) }
{
    one.is(name)
}

/// Whether one of the names has these characters.
fn has(names: &[Text], name: &str) -> bool
    ensures { result ≡ writing.has names.now (chars name.now) }
{
    names.iter().any(|one| is_same(one, name))
}

/// Adds the XML declaration.
fn push_declaration(piece: &mut Text) -> Result<(), NoMemory>
    ensures ok { OnOk result (piece.new ≡ piece.old ++ writing.declaration) }
    ensures err { OnErr result (piece.new ≡ piece.old) }
{
    piece.push_str("<?xml version=\"1.0\" encoding=\"UTF-8\"?>")
}

/// Adds the end of a line and the next one's indent.
fn end_line(piece: &mut Text, depth: usize) -> Result<(), NoMemory>
    ensures { OnOk result (piece.new ≡ piece.old ++ writing.line_end depth) }
{
    piece.push('\n')?;
    for _level in 0..depth {
        piece.push(' ')?;
        piece.push(' ')?;
    }
    Ok(())
}

/// What ends a start tag that is open.
fn start(alloc: Global, in_tag: bool) -> Result<Text, NoMemory>
    ensures { IfOk result (λ piece. piece ≡ writing.tag_end in_tag) }
{
    let mut piece = empty_text(alloc);
    if in_tag {
        piece.push('>')?;
    }
    Ok(piece)
}

/// What ends the innermost element.
fn end(alloc: Global, in_tag: bool, elements: &[Text]) -> Result<Text, NoMemory>
    ensures { IfOk result (λ piece. piece ≡ writing.element_end in_tag elements.now) }
{
    let mut piece = empty_text(alloc);
    if in_tag {
        piece.push('/')?;
        piece.push('>')?;
        return Ok(piece);
    }
    piece.push('<')?;
    piece.push('/')?;
    if let Some(name) = elements.last() {
        piece.push_str(name.as_str())?;
    }
    piece.push('>')?;
    Ok(piece)
}

/// Adds a name to a list and a piece to a text, both or neither.
fn put(names: &mut Vec<Text>, name: Text, text: &mut Text, piece: &Text) -> Result<(), NoMemory>
    ensures named { OnOk result (names.new.items ≡ names.old.items ++ name ∷ []) }
    ensures written { OnOk result (text.new ≡ text.old ++ piece.now) }
    ensures same_names { OnErr result (names.new.items ≡ names.old.items) }
    ensures same_text { OnErr result (text.new ≡ text.old) }
{
    names.push(name)?;
    match text.push_str(piece.as_str()) {
        Ok(()) => Ok(()),
        Err(NoMemory) => {
            let _ = names.pop();
            Err(NoMemory)
        }
    }
}

/// Adds the characters of a text, those that markup uses as references (XML 1.0, 2.4 and 4.1).
fn escape(piece: &mut Text, text: &str) -> Result<(), NoMemory>
    ensures { OnOk result (piece.new ≡ piece.old ++ writing.escaped (chars text.now)) }
{
    for c in text.chars() {
        push_escaped(piece, c)?;
    }
    Ok(())
}

/// Adds a character, as a reference if markup uses it.
#[tactic(auto, using(crate::proofs::writing::Literals::amp_characters, crate::proofs::writing::Literals::lt_characters, crate::proofs::writing::Literals::gt_characters, crate::proofs::writing::Literals::quot_characters, crate::proofs::writing::Literals::apos_characters, crate::proofs::writing::Literals::tab_characters, crate::proofs::writing::Literals::feed_characters, crate::proofs::writing::Literals::carriage_characters))]
fn push_escaped(piece: &mut Text, c: char) -> Result<(), NoMemory>
    ensures { OnOk result (piece.new ≡ piece.old ++ writing.escaped_character c) }
{
    match c {
        '&' => piece.push_str("&amp;"),
        '<' => piece.push_str("&lt;"),
        '>' => piece.push_str("&gt;"),
        '"' => piece.push_str("&quot;"),
        '\'' => piece.push_str("&apos;"),
        '\t' => piece.push_str("&#9;"),
        '\n' => piece.push_str("&#10;"),
        '\r' => piece.push_str("&#13;"),
        _ => piece.push(c),
    }
}
