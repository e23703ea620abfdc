// Definitions with their names resolved, as lists in the order of declarations.
ghost use Rattle.std.specs.Prelude.{◌≡◌, IfOk, OnErr, OnOk, length, take};
ghost use Rattle.kind_table.specs.Flattened.{GivesFirsts, IsFirsts, first_among, first_inner, first_of, flat_of, path_at};

use crate::numbers::number_at;
use std::alloc::{AllocError, Global};
use tla_symbols::{Kind, Rule};

/// What a node is. Definitions, and paths of instances, are told by number.
#[derive(Clone, Copy)]
pub enum Form {
    /// Of a kind of its own: a number, a string, a bound name.
    Leaf(Kind),
    /// The symbol or parameter at a place.
    Parameter(usize),
    /// The operator at a place, on its operands.
    Call(usize),
    /// A form with a rule of levels, on its operands.
    Operation(Rule),
    /// `\A` or `\E` over sets: the body, and then the sets.
    Bounded,
    /// `@`: the function and the indices of its EXCEPT.
    Old,
    /// LET: the body, and then what stands in its definitions.
    Let,
    /// Behind a path, a definition: the arguments of the path, and then its own.
    Use(usize, usize),
    /// The same as a bare operator: the arguments of the path.
    Name(usize, usize),
    /// A bare built-in operator.
    Symbol(Rule),
    /// LAMBDA, as a definition of its own.
    Lambda(usize),
}

/// A node, with the earlier nodes that are its parts.
#[derive(Drop)]
pub struct Node {
    pub form: Form,
    /// The number of places of a bare operator.
    pub places: Option<usize>,
    pub parts: Vec<usize>,
}

/// The definition of an operator or of a function.
#[derive(Clone, Copy)]
pub struct Definition {
    /// How many places stand round it.
    pub outer: usize,
    /// The node of its body.
    pub root: usize,
}

/// What stands for one symbol of a module.
#[derive(Clone, Copy)]
pub struct Replacement {
    pub root: usize,
    /// The greatest level that it may have; a symbol that stays has none.
    pub most: Option<u8>,
}

/// An instance of a module.
#[derive(Drop)]
pub struct Instance {
    /// How many places stand round it.
    pub outer: usize,
    pub parameters: usize,
    /// Whether its replacements are judged.
    pub guards: bool,
    /// What stands at each place round what its module defines.
    pub replacements: Vec<Replacement>,
}

/// What a module and those that it reaches define.
#[derive(Drop)]
pub struct FlatModule {
    pub nodes: Vec<Node>,
    pub definitions: Vec<Definition>,
    pub instances: Vec<Instance>,
    /// The paths of uses, each as the numbers of its instances.
    pub paths: Vec<Vec<usize>>,
}

impl FlatModule {
    /// The instances of a path. No path is there at any further number, and leads nowhere.
    pub fn path(&self, number: usize) -> &[usize]
        ensures { result.now ≡ path_at self.now.paths.items number }
    {
        match self.paths.get(number) {
            Some(path) => path.as_slice(),
            None => &[],
        }
    }
}

/// For each node the first of those that its kind is made of, whatever stands round it. What stands
/// in the definitions of a LET is left out.
pub fn first_nodes(alloc: Global, flat: &FlatModule) -> Result<Vec<usize>, AllocError>
    ensures { IfOk result (λ firsts. IsFirsts (flat_of flat.now) firsts.items) }
{
    let mut firsts = Vec::new(alloc);
    add_first_nodes(&mut firsts, flat)?;
    Ok(firsts)
}

/// The same where nodes were added: what is known of the others stays. After an error all is as
/// before.
pub fn extend_first_nodes(firsts: &mut Vec<usize>, flat: &FlatModule) -> Result<(), AllocError>
    ensures firsts { OnOk result (GivesFirsts (flat_of flat.now) firsts.old.items
        firsts.new.items) }
    ensures kept { OnErr result (firsts.new.items ≡ firsts.old.items) }
{
    let known = firsts.len();
    match add_first_nodes(firsts, flat) {
        Ok(()) => Ok(()),
        Err(error) => {
            firsts.truncate(known);
            Err(error)
        }
    }
}

// Appends the first nodes of further nodes. After an error some may be missing.
fn add_first_nodes(firsts: &mut Vec<usize>, flat: &FlatModule) -> Result<(), AllocError>
    ensures firsts { OnOk result (GivesFirsts (flat_of flat.now) firsts.old.items
        firsts.new.items) }
    ensures kept { take (length firsts.old.items) firsts.new.items ≡ firsts.old.items }
{
    for number in firsts.len()..flat.nodes.len() {
        let first = first_of_node(firsts, number, &flat.nodes[number]);
        firsts.push(first)?;
    }
    Ok(())
}

// The first node that a node's kind is made of, by those of the nodes before it.
fn first_of_node(firsts: &[usize], number: usize, node: &Node) -> usize
    ensures { result ≡ first_of firsts.now number node.now.form node.now.parts.items }
{
    match node.form {
        Form::Let => first_of_inner(firsts, number, &node.parts),
        _ => first_of_parts(firsts, number, &node.parts),
    }
}

// The same of LET, where the body alone counts.
fn first_of_inner(firsts: &[usize], number: usize, parts: &[usize]) -> usize
    ensures { result ≡ first_inner firsts.now number parts.now }
{
    match parts.first() {
        Some(inner) => number.min(number_at(firsts, *inner)),
        None => number,
    }
}

// The same of other forms, where each part counts.
fn first_of_parts(firsts: &[usize], number: usize, parts: &[usize]) -> usize
    ensures { result ≡ first_among firsts.now number parts.now }
{
    let mut first = number;
    for part in parts {
        first = first.min(number_at(firsts, *part));
    }
    first
}
