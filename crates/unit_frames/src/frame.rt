// Frames: parts of units that wait for what is due next.
ghost use Rattle.std.specs.Prelude.{◌≡◌, ◌+◌, ◌<◌, ◌≤◌, List, [], ◌∷◌, ◌++◌, IfOk, OnOk, length};
ghost use Rattle.tla_symbols.specs.declared.lexeme.Lexeme.{Lexeme};
ghost use Rattle.tla_tree.specs.Arena.{Node, AreThere};
ghost use Rattle.tla_tree.specs.Syntax as syntax;
ghost use Rattle.tla_tree.specs.Syntax.{Nil, Trees};
ghost use Rattle.tla_tree.specs.Lexemes as lexemes;
ghost use Rattle.tla_tree.specs.Lexemes.{built};
ghost use Rattle.tree_parts.specs.Parts.{IsPart, parts_of, span_of};
ghost use Rattle.unit_machine.specs.Machine as machine;
ghost use Rattle.unit_frames.specs.FrameMeaning.{AreParts, IsFrame, Makes, Takes};

use std::alloc::Global;
use tla_symbols::{Lexeme, Span};
use tla_tree::{Form, Tree};
use tool_list::{List, Memory, copied};
use tree_parts::{Part, add, covered, joined, leaf};
use unit_machine::Wait;

/// A part of a unit that is read: what it waits for, the nodes of its own parts, and the span of
/// the lexemes that it has read, if there are any.
#[derive(Drop)]
pub struct Frame {
    pub wait: Wait,
    pub parts: List<u32>,
    span: Option<Span>,
}

/// Numbers of nodes, and one more.
pub fn then(numbers: List<u32>, node: u32) -> Result<List<u32>, Memory>
    ensures { IfOk result (λ more. (nodes : List Node) → (parts : Trees) → (tree : syntax.Tree)
        → (spelled : List Lexeme) → (part : Part) → AreParts nodes numbers parts → part.node ≡ node
        → IsPart nodes part tree spelled → AreParts nodes more (lexemes.then parts tree)) }
{
    let mut numbers = numbers;
    numbers.push(node)?;
    Ok(numbers)
}

impl Frame {
    /// A frame that has read the lexemes of the span, and no part.
    pub fn new(alloc: Global, wait: Wait, span: Option<Span>) -> Frame
        ensures { (nodes : List Node) → (read : List Lexeme) → span ≡ span_of read
            → IsFrame nodes result (machine.frame wait Nil read) }
    {
        Frame {
            wait,
            parts: List::new(alloc),
            span,
        }
    }

    /// The frame reads a lexeme, and waits for this.
    pub fn reads(self, wait: Wait, lexeme: Lexeme) -> Frame
        ensures { (nodes : List Node) → (frame : machine.Frame) → IsFrame nodes self frame
            → IsFrame nodes result (machine.frame wait frame.parts (frame.read ++ lexeme ∷ [])) }
    {
        Frame {
            wait,
            parts: self.parts,
            span: joined(self.span, Some(lexeme.span)),
        }
    }

    /// The frame takes a part, and waits for this.
    pub fn takes(&mut self, wait: Wait, part: Part) -> Result<(), Memory>
        ensures { OnOk result ((nodes : List Node) → (frame : machine.Frame) → (tree : syntax.Tree)
            → (spelled : List Lexeme) → IsFrame nodes self.old frame
            → IsPart nodes part tree spelled
            → IsFrame nodes self.new
            (machine.frame wait (lexemes.then frame.parts tree) (frame.read ++ spelled))) }
    {
        self.parts.push(part.node)?;
        self.wait = wait;
        self.span = joined(self.span, part.span);
        Ok(())
    }

    /// The frame takes the bounds that a node has as its children, and waits for this.
    pub fn takes_bounds(
        &mut self,
        alloc: Global,
        tree: &Tree,
        wait: Wait,
        part: Part,
    ) -> Result<(), Memory>
        requires { part.node < length tree.now }
        ensures { OnOk result ((frame : machine.Frame) → (bounds : syntax.Tree)
            → (spelled : List Lexeme) → IsFrame tree.now self.old frame
            → IsPart tree.now part bounds spelled
            → IsFrame tree.now self.new
            (machine.frame wait (parts_of bounds) (frame.read ++ spelled))) }
    {
        self.parts = copied(alloc, tree.children(part.node))?;
        self.wait = wait;
        self.span = joined(self.span, part.span);
        Ok(())
    }

    /// The frame takes a leaf that is made of a lexeme, reads a lexeme, which may be another, and
    /// waits for this. `Memory` also where the tree can number no further node.
    pub fn takes_leaf(
        &mut self,
        tree: &mut Tree,
        form: Form,
        name: Lexeme,
        wait: Wait,
        lexeme: Lexeme,
    ) -> Result<(), Memory>
        ensures takes { OnOk result ((frame : machine.Frame) → IsFrame tree.old self.old frame
            → Takes tree.old tree.new self.new (machine.frame wait
            (lexemes.then frame.parts (built form Nil (name ∷ [])))
            (frame.read ++ lexeme ∷ []))) }
        ensures few { OnOk result (length tree.new ≤ length tree.old + 1) }
    {
        let part = leaf(tree, form, name)?;
        let part = Part {
            node: part.node,
            span: Some(lexeme.span),
        };
        self.takes(wait, part)
    }

    /// The node of a frame that ends. `Memory` as in [`Frame::takes_leaf`].
    pub fn node(&self, tree: &mut Tree, form: Form) -> Result<Part, Memory>
        requires { AreThere tree.old self.now.parts }
        ensures made { IfOk result (λ part. (frame : machine.Frame)
            → IsFrame tree.old self.now frame
            → Makes tree.old tree.new part (machine.node form frame) frame.read) }
        ensures few { OnOk result (length tree.new ≤ length tree.old + 1) }
    {
        let node = add(tree, form, self.parts.as_slice(), covered(self.span))?;
        Ok(Part {
            node,
            span: self.span,
        })
    }

    /// The node of a frame that ends with a lexeme. `Memory` as in [`Frame::takes_leaf`].
    pub fn closed(self, tree: &mut Tree, form: Form, lexeme: Lexeme) -> Result<Part, Memory>
        requires { (frame : machine.Frame) × IsFrame tree.old self frame }
        ensures made { IfOk result (λ part. (frame : machine.Frame) → IsFrame tree.old self frame
            → Makes tree.old tree.new part (built form frame.parts (frame.read ++ lexeme ∷ []))
            (frame.read ++ lexeme ∷ [])) }
        ensures few { OnOk result (length tree.new ≤ length tree.old + 1) }
    {
        let wait = self.wait;
        let frame = self.reads(wait, lexeme);
        frame.node(tree, form)
    }
}
