// What a node is made of, by numbers.
ghost use Rattle.std.specs.Prelude.{◌≡◌, IfOk, map, slice_index_or};
ghost use Rattle.std.specs.Cmp.Rules.{hashing};
ghost use Rattle.std.proofs.Common.{rules};
ghost use Rattle.kind_table.specs.Flattened.{flat_of, form_of};
ghost use Rattle.tree_numbers.specs.Keys.{HasContents, body_at, body_in, definition_in, head_input, number_in, path_in, root_in};
ghost use Rattle.tree_numbers.specs.Keys as spec;

use kind_table::{FlatModule, Form, Instance, Replacement};
use std::alloc::{AllocError, Global};
use std::hash::{Hash, Hasher};
use tla_symbols::{Kind, Rule};

/// A form without the numbers of its path and of its definition.
#[derive(Clone, Copy, PartialEq, Eq)]
pub(crate) enum Head {
    Leaf(Kind),
    Parameter(usize),
    Call(usize),
    Operation(Rule),
    Bounded,
    Old,
    Let,
    Use,
    Name,
    Symbol(Rule),
    Lambda,
}

impl Hash for Head {
    ghost hash_input = { head_input };

    ghost respects_eq = { Prim.search (hashing, rules) };

    fn hash<H: Hasher>(&self, state: &mut H) {
        match self {
            Head::Parameter(place) => place.hash(state),
            Head::Call(place) => place.hash(state),
            _ => {}
        }
    }
}

/// A definition: how many places stand round it, and the number of its body.
#[derive(Clone, Copy, PartialEq, Eq, Hash)]
pub(crate) struct Body {
    pub(crate) outer: usize,
    pub(crate) root: usize,
}

/// What a node is made of: instances by the first ones with their contents, and nodes by their
/// numbers.
#[derive(Drop, PartialEq, Eq, Hash)]
pub(crate) struct Key {
    pub(crate) head: Head,
    pub(crate) path: Vec<usize>,
    pub(crate) body: Option<Body>,
    pub(crate) places: Option<usize>,
    pub(crate) parts: Vec<usize>,
}

/// What stands for one symbol of a module: the number of a node, and the greatest level that it
/// may have.
#[derive(Clone, Copy, PartialEq, Eq, Hash)]
pub(crate) struct Root {
    pub(crate) root: usize,
    pub(crate) most: Option<u8>,
}

/// What an instance is made of.
#[derive(Drop, PartialEq, Eq, Hash)]
pub(crate) struct Contents {
    pub(crate) outer: usize,
    pub(crate) parameters: usize,
    pub(crate) guards: bool,
    pub(crate) roots: Vec<Root>,
}

/// The number of a node. One that has none yet stands for itself.
pub(crate) fn number_of(numbers: &[usize], node: usize) -> usize
    ensures { result ≡ number_in numbers.now node }
{
    match numbers.get(node) {
        Some(number) => *number,
        None => node,
    }
}

/// The numbers of nodes.
pub(crate) fn numbers_of(
    alloc: Global,
    numbers: &[usize],
    nodes: &[usize],
) -> Result<Vec<usize>, AllocError>
    ensures { IfOk result (λ v. v.items ≡ map (number_in numbers.now) nodes.now) }
{
    let mut found = Vec::with_capacity(alloc, nodes.len())?;
    for node in nodes {
        found.push(number_of(numbers, *node))?;
    }
    Ok(found)
}

// What stands for symbols, by numbers.
fn roots_of(
    alloc: Global,
    numbers: &[usize],
    replacements: &[Replacement],
) -> Result<Vec<Root>, AllocError>
    ensures { IfOk result (λ v. v.items ≡ map (root_in numbers.now) replacements.now) }
{
    let mut roots = Vec::with_capacity(alloc, replacements.len())?;
    for replacement in replacements {
        roots.push(Root {
            root: number_of(numbers, replacement.root),
            most: replacement.most,
        })?;
    }
    Ok(roots)
}

/// What an instance is made of, by numbers.
pub(crate) fn contents_of(
    alloc: Global,
    numbers: &[usize],
    instance: &Instance,
) -> Result<Contents, AllocError>
    ensures { IfOk result (λ contents. HasContents numbers.now instance.now contents) }
{
    let roots = roots_of(alloc, numbers, &instance.replacements)?;
    Ok(Contents {
        outer: instance.outer,
        parameters: instance.parameters,
        guards: instance.guards,
        roots,
    })
}

/// A form without its path and its definition.
pub(crate) fn head_of(flat: &FlatModule, form: Form) -> Head
    ensures { result ≡ spec.head_of (form_of flat.now.paths.items form) }
{
    match form {
        Form::Leaf(kind) => Head::Leaf(kind),
        Form::Parameter(place) => Head::Parameter(place),
        Form::Call(place) => Head::Call(place),
        Form::Operation(rule) => Head::Operation(rule),
        Form::Bounded => Head::Bounded,
        Form::Old => Head::Old,
        Form::Let => Head::Let,
        Form::Use(_, _) => Head::Use,
        Form::Name(_, _) => Head::Name,
        Form::Symbol(rule) => Head::Symbol(rule),
        Form::Lambda(_) => Head::Lambda,
    }
}

/// The path of a form.
pub(crate) fn path_of(flat: &FlatModule, form: Form) -> &[usize]
    ensures { result.now ≡ path_in (form_of flat.now.paths.items form) }
{
    match form {
        Form::Use(path, _) => flat.path(path),
        Form::Name(path, _) => flat.path(path),
        _ => &[],
    }
}

// The definition that a form names.
fn definition_of(flat: &FlatModule, form: Form) -> Option<usize>
    ensures { result ≡ definition_in (form_of flat.now.paths.items form) }
{
    match form {
        Form::Use(_, definition) => Some(definition),
        Form::Name(_, definition) => Some(definition),
        Form::Lambda(definition) => Some(definition),
        _ => None,
    }
}

/// The definition that a form names, by the number of its body.
pub(crate) fn body_of(flat: &FlatModule, numbers: &[usize], form: Form) -> Option<Body>
    ensures { result ≡ body_in (flat_of flat.now) numbers.now
        (definition_in (form_of flat.now.paths.items form)) }
{
    match definition_of(flat, form) {
        None => None,
        Some(definition) => numbered_body(flat, numbers, definition),
    }
}

// A definition, by the number of its body.
fn numbered_body(flat: &FlatModule, numbers: &[usize], definition: usize) -> Option<Body>
    ensures { result ≡ body_at (flat_of flat.now) numbers.now definition }
{
    match flat.definitions.get(definition) {
        None => None,
        Some(here) => Some(Body {
            outer: here.outer,
            root: number_of(numbers, here.root),
        }),
    }
}
