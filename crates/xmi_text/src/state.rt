ghost use Rattle.std.specs.Prelude.{◌≡◌, ◌<◌, [], ◌∷◌, ◌++◌, OnOk, OnErr, IfOk, IfNone, IsTrue, ◌↔◌, option_to_list};
ghost use Rattle.xmi_text.specs.States as states;

use crate::attributes::{Attributes, empty_text};
use crate::error::{TextFault, TextKind};
use crate::mark::{Attr, Mark};
use crate::reference::Reference;
use crate::utf_eight::Partial;
use mof_metamodel::{NoMemory, Seq, Text};
use std::alloc::Global;
use std::mem;

/// Which quote ends an attribute's value (XML 1.0, AttValue).
#[derive(Clone, Copy)]
pub(crate) enum Quote {
    Double,
    Single,
}

/// Where a reference stands.
#[derive(Clone, Copy)]
pub(crate) enum Within {
    Content,
    Value(Quote),
}

/// How many `]` stand behind one another at the end of what was read of a CDATA section, two at most.
#[derive(Clone, Copy)]
pub(crate) enum Brackets {
    None,
    One,
    Two,
}

/// Where in the grammar the bytes so far end. A `u64` is the place of a byte, a `bool` says whether a name
/// has its `:`.
#[derive(Clone, Copy)]
pub(crate) enum Mode {
    /// No byte came yet.
    Start,
    /// Before or behind the root element.
    Outside,
    /// In the content of an element.
    Inside,
    /// Behind the `<` at this place.
    Less(u64),
    /// Behind the `<!` at this place.
    Bang(u64),
    /// Behind `<!-`.
    Dash,
    /// In a comment, behind no dash, one dash and at least two.
    Comment,
    CommentDash,
    CommentDashes,
    /// Behind so many bytes of `DOCTYPE`, with the places of `<` and of `D`.
    Doctype {
        at: u64,
        word_at: u64,
        matched: u8,
    },
    /// Behind so many bytes of `[CDATA[`.
    CdataStart(u8),
    /// In a CDATA section.
    Cdata(Brackets),
    /// Behind `<?`.
    Question,
    /// In the name of an instruction.
    Target(bool),
    /// In an instruction, behind a `?` or not.
    Instruction,
    InstructionQuestion,
    /// In the name of a start tag.
    TagName(bool),
    /// Behind a blank in a start tag.
    Tag,
    /// In the name of an attribute.
    AttrName(bool),
    /// Behind the name of an attribute and a blank.
    AfterName,
    /// Behind the `=` of an attribute.
    BeforeValue,
    /// In the value of an attribute.
    Value(Quote),
    /// Behind the value of an attribute.
    AfterValue,
    /// Behind the `/` of an empty element's tag.
    Slash,
    /// In an end tag, behind so many bytes of the element's name.
    EndName {
        at: u64,
        matched: usize,
    },
    /// Behind the name of an end tag and a blank.
    EndTail(u64),
    /// In the reference whose `&` stands at this place.
    Reference {
        at: u64,
        within: Within,
        part: Reference,
    },
    /// The bytes have a fault.
    Failed(TextFault),
}

/// Which marks the last byte has completed.
#[derive(Clone, Copy)]
pub(crate) enum Ready {
    Nothing,
    Data,
    Open,
    Empty,
    Close(u64),
}

/// All that the bytes so far leave to know: where they end in the grammar, the open elements, and what has
/// come of the next mark.
#[derive(Drop)]
pub(crate) struct State {
    pub mode: Mode,
    /// The character of several bytes that isn't whole yet.
    pub partial: Option<Partial>,
    /// Whether the last byte is a carriage return of text, so that a line feed adds nothing.
    pub returned: bool,
    /// Whether the root element was begun.
    pub rooted: bool,
    /// The names of the open elements, the root first.
    pub elements: Seq<Text>,
    /// The characters since the last tag.
    pub run: Text,
    pub run_at: u64,
    /// The last start tag.
    pub tag: Text,
    pub tag_at: u64,
    pub attrs: Attributes,
    /// The attribute that isn't whole yet.
    pub attr: Attr,
    pub ready: Ready,
}

impl State {
    /// No byte came yet.
    pub(crate) fn new(alloc: Global) -> State
        ensures { result ≡ states.start }
    {
        State {
            mode: Mode::Start,
            partial: None,
            returned: false,
            rooted: false,
            elements: Seq::new(alloc),
            run: empty_text(alloc),
            run_at: 0,
            tag: empty_text(alloc),
            tag_at: 0,
            attrs: Attributes::new(alloc),
            attr: Attr {
                name: empty_text(alloc),
                value: empty_text(alloc),
                at: 0,
            },
            ready: Ready::Nothing,
        }
    }

    /// Goes on in another mode.
    pub(crate) fn go(&mut self, mode: Mode)
        ensures { self.new ≡ states.go self.old mode }
    {
        self.mode = mode;
        self.returned = false;
    }

    /// Has a fault from now on.
    pub(crate) fn fail(&mut self, kind: TextKind, at: u64)
        ensures { self.new ≡ states.fail self.old kind at }
    {
        self.go(Mode::Failed(TextFault { kind, at }));
    }

    /// Whether an element is open.
    pub(crate) fn is_inside(&self) -> bool
        ensures { result ≡ states.is_inside self.now }
    {
        self.elements.len() > 0
    }

    /// Where text goes on behind a comment, an instruction or a tag.
    pub(crate) fn around(&self) -> Mode
        ensures { result ≡ states.around self.now }
    {
        if self.is_inside() {
            Mode::Inside
        } else {
            Mode::Outside
        }
    }

    /// Adds a character to the run of text.
    pub(crate) fn add(&mut self, mode: Mode, c: char, returned: bool) -> Result<(), NoMemory>
        ensures ok { OnOk result (self.new ≡ states.add self.old mode (c ∷ []) returned) }
        ensures err { OnErr result (self.new ≡ self.old) }
    {
        self.run.push(c)?;
        self.mode = mode;
        self.returned = returned;
        Ok(())
    }

    /// Adds the brackets that were held back, and a character, to the run of text.
    pub(crate) fn add_behind(
        &mut self,
        alloc: Global,
        brackets: Brackets,
        c: char,
        returned: bool,
    ) -> Result<(), NoMemory>
        ensures ok { OnOk result (self.new ≡ states.add self.old (states.cdata) (states.brackets brackets ++ c ∷ []) returned) }
        ensures err { OnErr result (self.new ≡ self.old) }
    {
        push_behind(alloc, &mut self.run, brackets, c)?;
        self.mode = Mode::Cdata(Brackets::None);
        self.returned = returned;
        Ok(())
    }

    /// Adds a character to the name of the tag.
    pub(crate) fn add_to_tag(&mut self, colon: bool, c: char) -> Result<(), NoMemory>
        ensures ok { OnOk result (self.new ≡ states.add_to_tag self.old colon c) }
        ensures err { OnErr result (self.new ≡ self.old) }
    {
        self.tag.push(c)?;
        self.go(Mode::TagName(colon));
        Ok(())
    }

    /// Adds a character to the name of the attribute.
    pub(crate) fn add_to_name(&mut self, colon: bool, c: char) -> Result<(), NoMemory>
        ensures ok { OnOk result (self.new ≡ states.add_to_name self.old colon c) }
        ensures err { OnErr result (self.new ≡ self.old) }
    {
        self.attr.name.push(c)?;
        self.go(Mode::AttrName(colon));
        Ok(())
    }

    /// Adds a character to the value of the attribute.
    pub(crate) fn add_to_value(
        &mut self,
        quote: Quote,
        c: char,
        returned: bool,
    ) -> Result<(), NoMemory>
        ensures ok { OnOk result (self.new ≡ states.add_to_value self.old quote c returned) }
        ensures err { OnErr result (self.new ≡ self.old) }
    {
        self.attr.value.push(c)?;
        self.mode = Mode::Value(quote);
        self.returned = returned;
        Ok(())
    }

    /// Begins an attribute.
    pub(crate) fn begin_attr(&mut self, alloc: Global, at: u64, c: char) -> Result<(), NoMemory>
        ensures ok { OnOk result (self.new ≡ states.begin_attr self.old at c) }
        ensures err { OnErr result (self.new ≡ self.old) }
    {
        let mut name = empty_text(alloc);
        name.push(c)?;
        self.attr = Attr {
            name,
            value: empty_text(alloc),
            at,
        };
        self.go(Mode::AttrName(false));
        Ok(())
    }

    /// Ends the value of the attribute.
    pub(crate) fn end_attr(&mut self, alloc: Global) -> Result<(), NoMemory>
        ensures ok { OnOk result (self.new ≡ states.end_attr self.old) }
        ensures err { OnErr result (self.new ≡ self.old) }
    {
        self.attrs.take_in(alloc, &mut self.attr)?;
        self.go(Mode::AfterValue);
        Ok(())
    }

    /// Which mark is complete where a tag begins.
    pub(crate) fn due(&self) -> Ready
        ensures { result ≡ states.due self.now.run }
    {
        if self.run.is_empty() {
            Ready::Nothing
        } else {
            Ready::Data
        }
    }

    /// Begins the element whose `<` stands at this place.
    pub(crate) fn begin_tag(&mut self, alloc: Global, less: u64, c: char) -> Result<(), NoMemory>
        ensures ok { OnOk result (self.new ≡ states.begin_tag self.old less c) }
        ensures err { OnErr result (self.new ≡ self.old) }
    {
        let mut tag = empty_text(alloc);
        tag.push(c)?;
        self.ready = self.due();
        self.tag = tag;
        self.tag_at = less;
        self.attrs = Attributes::new(alloc);
        self.rooted = true;
        self.go(Mode::TagName(false));
        Ok(())
    }

    /// Ends a start tag at this place.
    pub(crate) fn open_tag(&mut self, alloc: Global, at: u64) -> Result<(), NoMemory>
        requires { at < u64.MAX }
        ensures ok { OnOk result (self.new ≡ states.open_tag self.old at) }
        ensures err { OnErr result (self.new ≡ self.old) }
    {
        let name = self.tag.duplicate(alloc)?;
        self.elements.push(name)?;
        self.ready = Ready::Open;
        self.run_at = at + 1;
        self.go(Mode::Inside);
        Ok(())
    }

    /// Ends the tag of an empty element at this place.
    pub(crate) fn empty_tag(&mut self, at: u64)
        requires { at < u64.MAX }
        ensures { self.new ≡ states.empty_tag self.old at }
    {
        self.ready = Ready::Empty;
        self.run_at = at + 1;
        self.go(self.around());
    }

    /// Ends an end tag at this place.
    pub(crate) fn close_tag(&mut self, less: u64, at: u64)
        requires { at < u64.MAX }
        ensures { self.new ≡ states.close_tag self.old less at }
    {
        let _ = self.elements.pop();
        self.ready = Ready::Close(less);
        self.run_at = at + 1;
        self.go(self.around());
    }

    /// Begins the end tag whose `<` stands at this place.
    pub(crate) fn begin_end(&mut self, less: u64)
        ensures { self.new ≡ states.begin_end self.old less }
    {
        self.ready = self.due();
        self.go(Mode::EndName {
            at: less,
            matched: 0,
        });
    }

    /// Whether no mark is complete.
    pub(crate) fn is_idle(&self) -> bool
        ensures { IsTrue result ↔ (self.now.ready ≡ Ready.Nothing) }
    {
        matches!(self.ready, Ready::Nothing)
    }

    /// Moves the first complete mark out.
    pub(crate) fn take_mark(&mut self, alloc: Global) -> Option<Mark>
        ensures marks { states.complete self.old ≡ option_to_list result ++ states.complete self.new }
        ensures rest { states.cleared self.new ≡ states.cleared self.old }
        ensures idle { IfNone result (self.old.ready ≡ Ready.Nothing) }
        ensures kept { IfNone result (self.new ≡ self.old) }
    {
        match self.ready {
            Ready::Nothing => None,
            Ready::Data => {
                self.ready = Ready::Nothing;
                Some(Mark::Data {
                    text: mem::replace(&mut self.run, empty_text(alloc)),
                    at: self.run_at,
                })
            }
            Ready::Open => {
                self.ready = Ready::Nothing;
                Some(self.take_open(alloc))
            }
            Ready::Empty => {
                self.ready = Ready::Close(self.tag_at);
                Some(self.take_open(alloc))
            }
            Ready::Close(at) => {
                self.ready = Ready::Nothing;
                Some(Mark::Close { at })
            }
        }
    }

    /// Moves the start tag out.
    fn take_open(&mut self, alloc: Global) -> Mark
        ensures mark { result ≡ states.open_mark self.old }
        ensures rest { self.new ≡ states.without_tag self.old }
    {
        let attrs = mem::replace(&mut self.attrs, Attributes::new(alloc));
        Mark::Open {
            name: mem::replace(&mut self.tag, empty_text(alloc)),
            attrs: attrs.into_items(),
            at: self.tag_at,
        }
    }
}

/// Adds the brackets that were held back, and a character, to a text, both or neither. Where none was held back, no
/// memory is taken beside the text's own.
fn push_behind(alloc: Global, text: &mut Text, brackets: Brackets, c: char) -> Result<(), NoMemory>
    ensures ok { OnOk result (text.new ≡ text.old ++ (states.brackets brackets ++ c ∷ [])) }
    ensures err { OnErr result (text.new ≡ text.old) }
{
    match brackets {
        Brackets::None => text.push(c),
        held => {
            let mut piece = bracketed(alloc, held)?;
            piece.push(c)?;
            text.push_str(piece.as_str())
        }
    }
}

/// The brackets that were held back.
fn bracketed(alloc: Global, brackets: Brackets) -> Result<Text, NoMemory>
    ensures { IfOk result (λ text. text ≡ states.brackets brackets) }
{
    let mut text = empty_text(alloc);
    match brackets {
        Brackets::None => {}
        Brackets::One => text.push(']')?,
        Brackets::Two => {
            text.push(']')?;
            text.push(']')?;
        }
    }
    Ok(text)
}
