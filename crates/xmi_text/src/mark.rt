use mof_metamodel::{Seq, Text};

/// What a reader answers.
#[derive(Drop)]
pub enum Step {
    /// The next mark of the text.
    Mark(Mark),
    /// The bytes so far leave the next answer open.
    NotYet,
}

/// A tag or a run of character data (XML 1.0, 2.4 and 3.1). Places are bytes of the whole text, from 0.
#[derive(Drop)]
pub enum Mark {
    /// A start tag. Its place is that of its `<`.
    Open {
        name: Text,
        attrs: Seq<Attr>,
        at: u64,
    },
    /// The characters between two tags. Their place is the first byte behind the tag before them.
    Data {
        text: Text,
        at: u64,
    },
    /// An end tag, or the end of an empty element's tag. Its place is that of its `<`.
    Close {
        at: u64,
    },
    /// The text is whole.
    End,
}

/// An attribute of a start tag (XML 1.0, 3.1). Its place is the first byte of its name.
#[derive(Drop)]
pub struct Attr {
    pub name: Text,
    pub value: Text,
    pub at: u64,
}
