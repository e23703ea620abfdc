// What is made of trees so far.
ghost use Rattle.std.specs.Prelude.{◌≡◌, []};
ghost use Rattle.flat_builder.specs.Building.{empty};

use crate::locals::Entry;
use flat_builder::FlatBuilder;
use std::alloc::Global;
use tla_model::{Level, Meaning};
use tla_symbols::{Lexeme, Span};
use tool_list::List;

/// What is asked of one thing that is made.
#[derive(Clone, Copy)]
pub enum Asked {
    /// The level of a use is that of a node.
    UseOf { name: Lexeme, node: usize },
    /// The level of a use is known.
    UseAs { name: Lexeme, level: Level },
    /// Whether a node has a kind, unless something that it is made of has none.
    HasKind { at: Span, node: usize },
    /// Whether a replacement has at most this level.
    IsAtMost { at: Span, node: usize, most: u8 },
    /// Whether a definition is not too deep.
    IsShallow { name: Lexeme, definition: usize },
    /// The same of a module definition, by its instance.
    IsShallowInstance { name: Lexeme, instance: usize },
    /// The same of an assumption or a theorem, by its first word.
    IsShallowNode { word: Lexeme, node: usize },
    /// Whether an assumption is constant, or has no kind.
    IsConstant { at: Span, node: usize },
}

/// A question about what stands over a frame, by the number of the frame.
#[derive(Clone, Copy)]
pub struct Question {
    pub frame: usize,
    pub asked: Asked,
}

/// A flat module that grows, with the names in scope, the frames of questions, and what is asked.
pub struct Flattening {
    pub flat: FlatBuilder,
    pub(crate) locals: Vec<Entry>,
    /// For each frame the symbols and parameters at its places.
    pub frames: Vec<List<Meaning>>,
    pub asked: Vec<Question>,
}

// By hand, so that a proof meets one call wherever a value ends.
impl Drop for Flattening {
    fn drop(self) {
        let Flattening {
            flat: _,
            locals: _,
            frames: _,
            asked: _,
        } = self;
    }
}

impl Flattening {
    /// Nothing is made, no name is in scope, and nothing is asked. It takes no memory.
    pub fn new(alloc: Global) -> Flattening
        ensures flat { result.flat ≡ empty }
        ensures locals { result.locals.items ≡ [] }
        ensures frames { result.frames.items ≡ [] }
        ensures asked { result.asked.items ≡ [] }
    {
        Flattening {
            flat: FlatBuilder::new(alloc),
            locals: Vec::new(alloc),
            frames: Vec::new(alloc),
            asked: Vec::new(alloc),
        }
    }
}
