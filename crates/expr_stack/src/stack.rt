// The stack of frames that wait for their parts.
ghost use Rattle.std.specs.Prelude.{◌≡◌, ◌+◌, ◌<◌, ◌≤◌, ℕ, List, [], ◌∷◌, ◌++◌, length, drop, reverse, OnOk, OnSome, IfOk};
ghost use Rattle.tla_symbols.specs.declared.lexeme.Lexeme.{Lexeme};
ghost use Rattle.tla_tree.specs.Arena.{Node};
ghost use Rattle.tla_tree.specs.Syntax as syntax;
ghost use Rattle.tla_tree.specs.Syntax.{trees};
ghost use Rattle.tla_tree.specs.Lexemes.{built};
ghost use Rattle.expr_grammar.specs.Machine as machine;
ghost use Rattle.tree_parts.specs.Parts as spans;
ghost use Rattle.tree_parts.specs.Parts.{IsPart, IsThere};
ghost use Rattle.expr_stack.specs.StackMeaning.{IsOpen, AreFrames, Stands, Opens, IsTop, IsWait, Made};

use expr_grammar::Wait;
use expr_kinds::list_of;
use std::alloc::Global;
use tla_symbols::{Lexeme, Span};
use tla_tree::{Form, Tree};
use tool_list::Memory;
use tree_parts::{Part, add, covered, joined};

/// What a frame has read: where its parts begin on the stack of parts, and the span of its
/// lexemes, if there are any.
#[derive(Clone, Copy)]
pub struct Opening {
    first: usize,
    span: Option<Span>,
}

/// A frame of the stack.
#[derive(Clone, Copy)]
pub struct Frame {
    pub wait: Wait,
    pub opening: Opening,
    // The column from which lexemes stand inside all aligned lists up to this frame.
    inner: u64,
}

/// Frames, the innermost last, and the numbers of the nodes of all their parts.
pub struct Stack {
    alloc: Global,
    frames: Vec<Frame>,
    parts: Vec<u32>,
}

// By hand, so that a proof meets one call wherever a value ends.
impl Drop for Stack {
    fn drop(self) {
        let Stack {
            alloc: _,
            frames: _,
            parts: _,
        } = self;
    }
}

// The column from which lexemes stand inside the lists of a frame with this wait.
fn inside(wait: Wait, inner: u64) -> u64
    ensures { result ≡ machine.inside wait inner }
{
    match list_of(wait) {
        None => inner,
        Some(bullet) => inner.max(bullet.col as u64 + 1),
    }
}

impl Opening {
    /// The frame reads the lexemes of one more span.
    pub fn reads(self, span: Option<Span>) -> Opening
        ensures { result ≡ record { first = self.first; span = spans.joined self.span span } }
    {
        Opening {
            first: self.first,
            span: joined(self.span, span),
        }
    }
}

impl Stack {
    /// No frame waits.
    pub fn new(alloc: Global) -> Stack
        ensures { (nodes : List Node) → Stands nodes result [] }
    {
        Stack {
            alloc,
            frames: Vec::new(alloc),
            parts: Vec::new(alloc),
        }
    }

    /// Where its memory is from.
    pub fn alloc(&self) -> Global {
        self.alloc
    }

    /// The frames, the innermost last.
    pub fn frames(&self) -> &[Frame]
        ensures { result.now ≡ self.now.frames.items }
    {
        self.frames.as_slice()
    }

    /// The column from which lexemes stand inside all aligned lists.
    pub fn inner(&self) -> u64
        ensures { (nodes : List Node) → (numbers : List ℕ) → (frames : List machine.Frame)
            → AreFrames nodes (reverse self.now.frames.items) numbers frames
            → result ≡ machine.inner frames }
    {
        match self.frames.last() {
            Some(frame) => frame.inner,
            None => 0,
        }
    }

    /// What the innermost frame waits for.
    pub fn wait(&self) -> Option<Wait>
        ensures top { (nodes : List Node) → (frames : List machine.Frame)
            → Stands nodes self.now frames → IsWait result frames }
        ensures some { OnSome result (0 < length self.now.frames.items) }
    {
        match self.frames.last() {
            Some(frame) => Some(frame.wait),
            None => None,
        }
    }

    /// Takes the innermost frame from the stack. Its parts stay.
    pub fn pop(&mut self) -> Option<Frame>
        ensures top { (nodes : List Node) → (frames : List machine.Frame)
            → Stands nodes self.old frames → IsTop nodes self.new result frames }
        ensures fewer { OnSome result (length self.new.frames.items + 1
            ≡ length self.old.frames.items) }
    {
        self.frames.pop()
    }

    /// A frame that has read the lexemes of the span, and no part.
    pub fn opening(&self, span: Option<Span>) -> Opening
        ensures { (nodes : List Node) → (frames : List machine.Frame) → (read : List Lexeme)
            → Stands nodes self.now frames → span ≡ spans.span_of read
            → Opens nodes self.now result [] read frames }
    {
        Opening {
            first: self.parts.len(),
            span,
        }
    }

    /// Puts a frame on the stack. `Memory` only where there is no room: it counts nothing.
    pub fn put(&mut self, wait: Wait, opening: Opening) -> Result<(), Memory>
        ensures { OnOk result ((nodes : List Node) → (parts : List syntax.Tree)
            → (read : List Lexeme) → (below : List machine.Frame)
            → Opens nodes self.old opening parts read below
            → Stands nodes self.new (machine.frame wait parts read ∷ below)) }
    {
        let inner = inside(wait, self.inner());
        let frame = Frame {
            wait,
            opening,
            inner,
        };
        let Ok(()) = self.frames.push(frame) else {
            return Err(Memory);
        };
        Ok(())
    }

    /// The frame takes a part.
    pub fn hold(&mut self, opening: Opening, part: Part) -> Result<Opening, Memory>
        ensures same { OnOk result (self.new.frames.items ≡ self.old.frames.items) }
        ensures more { IfOk result (λ more. (nodes : List Node) → (parts : List syntax.Tree)
            → (read : List Lexeme) → (below : List machine.Frame) → (tree : syntax.Tree)
            → (spelled : List Lexeme) → Opens nodes self.old opening parts read below
            → IsPart nodes part tree spelled
            → Opens nodes self.new more (parts ++ tree ∷ []) (read ++ spelled) below) }
    {
        self.parts.push(part.node)?;
        Ok(opening.reads(part.span))
    }

    /// The node of a frame that ends: it is no longer on the stack. `Memory` also where the tree can
    /// number no further node.
    pub fn node(&mut self, tree: &mut Tree, form: Form, opening: Opening) -> Result<Part, Memory>
        requires { IsOpen tree.old self.old opening }
        ensures same { OnOk result (self.new.frames.items ≡ self.old.frames.items) }
        ensures made { IfOk result (λ part. (parts : List syntax.Tree) → (read : List Lexeme)
            → (below : List machine.Frame) → Opens tree.old self.old opening parts read below
            → Made tree.old tree.new self.new part (built form (trees parts) read) read below) }
    {
        let children = from(self.parts.as_slice(), opening.first);
        let node = add(tree, form, children, covered(opening.span))?;
        self.parts.truncate(opening.first);
        Ok(Part {
            node,
            span: opening.span,
        })
    }

    /// The node of a frame that ends with a last part. `Memory` as in [`Stack::node`].
    pub fn close(
        &mut self,
        tree: &mut Tree,
        form: Form,
        opening: Opening,
        part: Part,
    ) -> Result<Part, Memory>
        requires opened { IsOpen tree.old self.old opening }
        requires part { IsThere tree.old part }
        ensures same { OnOk result (self.new.frames.items ≡ self.old.frames.items) }
        ensures made { IfOk result (λ whole. (parts : List syntax.Tree) → (read : List Lexeme)
            → (below : List machine.Frame) → (last : syntax.Tree) → (spelled : List Lexeme)
            → Opens tree.old self.old opening parts read below → IsPart tree.old part last spelled
            → Made tree.old tree.new self.new whole
            (built form (trees (parts ++ last ∷ [])) (read ++ spelled)) (read ++ spelled) below) }
    {
        let opening = self.hold(opening, part)?;
        let whole = self.node(tree, form, opening)?;
        Ok(whole)
    }
}

fn from(numbers: &[u32], first: usize) -> &[u32]
    requires { first ≤ length numbers.now }
    ensures { result.now ≡ drop first numbers.now }
{
    &numbers[first..]
}
