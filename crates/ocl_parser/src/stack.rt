ghost use Rattle.std.specs.Prelude.{◌≡◌, [], ◌∷◌, drop, OnOk, OnErr, MatchOption};
ghost use Rattle.ocl_parser.specs.Moves.{frame_levels as levels_of, open_levels};

use crate::frame::Frame;
use mof_metamodel::NoMemory;
use std::alloc::Global;
use std::marker::Model;

/// The constructs that are open, with the levels of nesting that they open. Contracts see the innermost first.
#[derive(Drop)]
pub(crate) struct Stack {
    frames: Vec<Frame>,
    levels: usize,
}

impl Model for Stack {
    ghost use Rattle.std.specs.Prelude.{◌≡◌, List, reverse};
    ghost use Rattle.ocl_parser.specs.declared.frame.Frame.{Frame};

    ghost Value = { List Frame };

    ghost use Rattle.std.specs.Coded.{coded_list};
    ghost use Rattle.ocl_parser.specs.contracts.frame.Frame as frame;

    ghost coded = { coded_list frame.the_row.coded };

    ghost use Rattle.ocl_parser.specs.Moves.{open_levels};

    ghost view = { λ s. reverse s.frames.items };

    ghost invariant = { λ s. s.levels ≡ open_levels (reverse s.frames.items) };
}

/// How many levels of nesting a construct opens.
pub(crate) fn frame_levels(frame: &Frame) -> usize
    ensures { result ≡ levels_of frame.now }
{
    match frame {
        Frame::Row { .. } => 0,
        _ => 1,
    }
}

impl Stack {
    /// No construct.
    pub(crate) fn new(alloc: Global) -> Stack
        ensures { result ≡ [] }
    {
        Stack {
            frames: Vec::new(alloc),
            levels: 0,
        }
    }

    /// Opens a construct. After `NoMemory` the stack is as it was.
    pub(crate) fn push(&mut self, frame: Frame) -> Result<(), NoMemory>
        ensures ok { OnOk result (self.new ≡ frame ∷ self.old) }
        ensures err { OnErr result (self.new ≡ self.old) }
    {
        let levels = frame_levels(&frame);
        self.frames.push(frame)?;
        let _count = self.frames.len();
        self.levels += levels;
        Ok(())
    }

    /// Takes the innermost construct off, if one is open.
    pub(crate) fn pop(&mut self) -> Option<Frame>
        ensures { MatchOption result ((self.old ≡ []) × (self.new ≡ [])) (λ top. self.old ≡ top ∷ self.new) }
    {
        let frame = self.frames.pop()?;
        self.levels -= frame_levels(&frame);
        Some(frame)
    }

    /// The innermost construct.
    pub(crate) fn top(&self) -> Option<&Frame>
        ensures { MatchOption result (self.now ≡ []) (λ top. self.now ≡ top.now ∷ drop 1 self.now) }
    {
        self.frames.last()
    }

    /// How many levels of nesting are open.
    pub(crate) fn levels(&self) -> usize
        ensures { result ≡ open_levels self.now }
    {
        self.levels
    }
}
