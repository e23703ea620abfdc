// Trees as lists of nodes.
ghost use Rattle.std.specs.Prelude.{◌≡◌, ◌↔◌, ◌-◌, ◌<◌, ◌^◌, [], ◌∷◌, ◌++◌, ◌≤◌, length, take, drop, IsTrue, IfOk, OnOk, OnErr};
ghost use Rattle.std.specs.List.{AllByRecursion};
ghost use Rattle.tla_tree.specs.Arena.{AreThere, node_at, height_at};
ghost use Rattle.tla_tree.specs.Stored as stored;
ghost use Rattle.tla_tree.specs.Syntax.{above};

use crate::form::{Form, helps};
use std::alloc::Global;
use std::marker::Model;
use tla_symbols::Span;
use tool_list::Memory;

// A node, with the place of its children's numbers.
#[derive(Clone, Copy)]
struct Node {
    form: Form,
    span: Span,
    height: u32,
    first: usize,
    end: usize,
}

/// Nodes by number, from 0, each with its form, span, height and children. Children come before
/// their parents. Contracts see the list of nodes, and each node as the tree below it.
pub struct Tree {
    nodes: Vec<Node>,
    children: Vec<u32>,
}

// By hand, so that a proof meets one call wherever a value ends.
impl Drop for Tree {
    fn drop(self) {
        let Tree {
            nodes: _,
            children: _,
        } = self;
    }
}

impl Model for Tree {
    ghost use Rattle.std.specs.Prelude.{List};
    ghost use Rattle.tla_tree.specs.Arena.{Node};

    ghost Value = { List Node };

    ghost use Rattle.tla_tree.specs.Stored.{nodes_of, IsStored};

    ghost view = { λ t. nodes_of t.children.items t.nodes.items };

    ghost invariant = { λ t. IsStored t.children.items t.nodes.items };
}

impl Tree {
    /// The tree of no node. It takes no memory.
    pub fn new(alloc: Global) -> Tree
        ensures { result ≡ [] }
    {
        Tree {
            nodes: Vec::new(alloc),
            children: Vec::new(alloc),
        }
    }

    /// How many nodes there are.
    pub fn len(&self) -> usize
        ensures { result ≡ length self.now }
    {
        self.nodes.as_slice().len()
    }

    /// Whether there is no node.
    pub fn is_empty(&self) -> bool
        ensures { IsTrue result ↔ (length self.now ≡ 0) }
    {
        self.len() == 0
    }

    /// Adds a node and answers its number. After `Memory` the tree is as before.
    pub fn push(&mut self, form: Form, children: &[u32], span: Span) -> Result<u32, Memory>
        requires there { AreThere self.old children.now }
        requires room { length self.old < 2 ^ 32 - 1 }
        ensures number { IfOk result (λ number. number ≡ length self.old) }
        ensures ok { OnOk result (self.new
            ≡ self.old ++ record { form = form; span = span; children = children.now } ∷ []) }
        ensures err { OnErr result (self.new ≡ self.old) }
    {
        let nodes = self.nodes.as_slice();
        let number = nodes.len() as u32;
        let height = height_above(form, highest_of(nodes, children));
        let first = self.children.as_slice().len();
        self.children.extend_from_slice(children)?;
        let end = self.children.as_slice().len();
        self.nodes.push(Node {
            form,
            span,
            height,
            first,
            end,
        })?;
        Ok(number)
    }

    /// The node's form.
    pub fn form(&self, node: u32) -> Form
        requires { node < length self.now }
        ensures { result ≡ (node_at self.now node).form }
    {
        kept(self.nodes.as_slice(), node).form
    }

    /// The place of the node's lexemes in the text, in bytes.
    pub fn span(&self, node: u32) -> Span
        requires { node < length self.now }
        ensures { result ≡ (node_at self.now node).span }
    {
        kept(self.nodes.as_slice(), node).span
    }

    /// The node's height: that of its highest part, and one more unless its form is a helper form.
    pub fn height(&self, node: u32) -> u32
        requires { node < length self.now }
        ensures { result ≡ height_at self.now node }
    {
        kept(self.nodes.as_slice(), node).height
    }

    /// The numbers of the node's children, in the order of the text.
    pub fn children(&self, node: u32) -> &[u32]
        requires { node < length self.now }
        ensures children { result.now ≡ (node_at self.now node).children }
        ensures before { AllByRecursion (λ child. child < node) result.now }
    {
        let Node { first, end, .. } = kept(self.nodes.as_slice(), node);
        stretch(self.children.as_slice(), first, end)
    }
}

fn kept(nodes: &[Node], node: u32) -> Node
    requires { node < length nodes.now }
    ensures { result ≡ stored.kept_at nodes.now node }
{
    nodes[node as usize]
}

fn stretch(numbers: &[u32], first: usize, end: usize) -> &[u32]
    requires order { first ≤ end }
    requires there { end ≤ length numbers.now }
    ensures { result.now ≡ take (end - first) (drop first numbers.now) }
{
    &numbers[first..end]
}

// The greatest height of the children.
fn highest_of(nodes: &[Node], children: &[u32]) -> u32
    requires { AllByRecursion (λ child. child < length nodes.now) children.now }
    ensures { result ≡ stored.highest_of nodes.now children.now }
{
    let mut highest: u32 = 0;
    for child in children {
        highest = kept(nodes, *child).height.max(highest);
    }
    highest
}

// The height of a node whose highest part has this one.
fn height_above(form: Form, highest: u32) -> u32
    requires { highest < 2 ^ 32 - 1 }
    ensures { result ≡ above form highest }
{
    if helps(form) { highest } else { highest + 1 }
}
