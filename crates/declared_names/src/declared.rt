// The names that a text declares.
ghost use Rattle.std.specs.Prelude.{◌≡◌, ◌++◌, ◌<◌, ◌≤◌, IfOk, OnOk, length, map, reverse};
ghost use Rattle.tla_tree.specs.Arena.{AreThere, tree_at};
ghost use Rattle.tla_tree.specs.Syntax.{trees};
ghost use Rattle.tla_model.specs.Entities as entities;
ghost use Rattle.unit_grammar.specs.UnitNodes.{HasNodes, nodes_in, module_of, unit_at};
ghost use Rattle.declared_names.specs.Collecting as due;

use crate::forms::{binding_in, follows_first};
use crate::parts::{defined, push_placed};
use std::alloc::Global;
use tla_model::{Binder, Binding, Entity};
use tla_symbols::Lexeme;
use tla_tree::{ModuleTree, Tree, Unit};
use tool_list::{List, Memory};

/// What is due of a tree whose declaring names are collected.
#[derive(Clone, Copy)]
pub enum Due {
    /// The names below a node, and as what those are bound that it holds for others.
    Names { node: u32, binding: Binding },
    /// The name that a node defines.
    Defined { node: u32 },
}

// Puts nodes on top of what is due, the first one last.
fn push_nodes(todo: &mut Vec<Due>, binding: Binding, nodes: &[u32]) -> Result<(), Memory>
    ensures { OnOk result (todo.new.items
        ≡ todo.old.items ++ due.names_of binding (reverse nodes.now)) }
{
    for node in nodes.iter().rev().copied() {
        todo.push(Due::Names { node, binding })?;
    }
    Ok(())
}

// How many parts of a node stand before the name that it defines.
fn lead(follows: bool, parts: &[u32]) -> usize
    ensures lead { result ≡ due.lead follows parts.now }
    ensures within { result ≤ length parts.now }
{
    if !follows || parts.is_empty() {
        return 0;
    }
    1
}

// Puts what is due of a node's parts on top, with the name that it defines in its place.
fn push_parts(todo: &mut Vec<Due>, tree: &Tree, node: u32, binding: Binding) -> Result<(), Memory>
    requires there { node < length tree.now }
    requires due { due.AreDue tree.now (due.stack todo.old.items) }
    ensures { OnOk result (due.IsOpened tree.now node binding (due.stack todo.old.items)
        (due.stack todo.new.items)) }
{
    let form = tree.form(node);
    let binding = binding_in(binding, form);
    let children = tree.children(node);
    let lead = lead(follows_first(form), children);
    let (before, behind) = children.split_at(lead);
    push_nodes(todo, binding, behind)?;
    todo.push(Due::Defined { node })?;
    push_nodes(todo, binding, before)?;
    Ok(())
}

// Appends the name that a node defines.
fn push_defined(
    alloc: Global,
    names: &mut List<Binder>,
    tree: &Tree,
    node: u32,
) -> Result<(), Memory>
    requires { node < length tree.now }
    ensures { OnOk result (names.new ≡ names.old ++ due.due_of tree.now (due.defined node)) }
{
    if let Some(name) = defined(alloc, tree, node, tree.children(node))? {
        names.push(name)?;
    }
    Ok(())
}

// Goes on with what was due next.
fn take(
    alloc: Global,
    names: &mut List<Binder>,
    todo: &mut Vec<Due>,
    tree: &Tree,
    next: Due,
) -> Result<(), Memory>
    requires there { due.IsThere tree.now next }
    requires due { due.AreDue tree.now (due.stack todo.old.items) }
    ensures { OnOk result (due.IsTaken tree.now next names.old names.new (due.stack todo.old.items)
        (due.stack todo.new.items)) }
{
    match next {
        Due::Names { node, binding } => {
            push_placed(names, binding, tree.form(node))?;
            push_parts(todo, tree, node, binding)
        }
        Due::Defined { node } => push_defined(alloc, names, tree, node),
    }
}

// Appends the names that the trees of some nodes declare.
fn push_declared(
    alloc: Global,
    names: &mut List<Binder>,
    tree: &Tree,
    binding: Binding,
    nodes: &[u32],
) -> Result<(), Memory>
    requires { AreThere tree.now nodes.now }
    ensures { OnOk result (names.new
        ≡ names.old ++ entities.declared_among binding (trees (map (tree_at tree.now) nodes.now))) }
{
    let mut todo = Vec::new(alloc);
    push_nodes(&mut todo, binding, nodes)?;
    while let Some(next) = todo.pop() {
        take(alloc, names, &mut todo, tree, next)?;
    }
    Ok(())
}

// Appends declared variables.
fn push_variables(names: &mut List<Binder>, variables: &[Lexeme]) -> Result<(), Memory>
    ensures { OnOk result (names.new ≡ names.old ++ entities.variables variables.now) }
{
    for name in variables {
        names.push(Binder {
            name: *name,
            entity: Entity::Variable,
        })?;
    }
    Ok(())
}

/// Appends the names that a unit declares.
pub fn push_unit(
    alloc: Global,
    names: &mut List<Binder>,
    tree: &Tree,
    unit: &Unit,
) -> Result<(), Memory>
    requires { AreThere tree.now (nodes_in unit.now) }
    ensures { OnOk result (names.new
        ≡ names.old ++ entities.declared_by (unit_at tree.now unit.now)) }
{
    let bound = Binding::Bound { state: false };
    match unit {
        Unit::Variables { names: variables } => push_variables(names, variables.as_slice()),
        Unit::Constants { declarations } => push_declared(
            alloc,
            names,
            tree,
            Binding::Constant,
            declarations.as_slice(),
        ),
        Unit::OperatorDefinition { node, .. }
        | Unit::FunctionDefinition { node, .. }
        | Unit::ModuleDefinition { node, .. }
        | Unit::Instance { node, .. }
        | Unit::Assumption { node, .. }
        | Unit::Theorem { node, .. } => push_declared(alloc, names, tree, bound, &[*node]),
        Unit::ModuleBegin { name, .. } => {
            let entity = Entity::Module;
            names.push(Binder {
                name: *name,
                entity,
            })
        }
        Unit::Line(_) | Unit::ModuleEnd(_) => Ok(()),
    }
}

/// The names that a text declares, in its order.
pub fn declaring(alloc: Global, tree: &ModuleTree) -> Result<List<Binder>, Memory>
    requires { HasNodes tree.now }
    ensures { IfOk result (λ names. names ≡ entities.declaring (module_of tree.now).units) }
{
    let mut names = List::new(alloc);
    for unit in tree.units.as_slice() {
        push_unit(alloc, &mut names, &tree.tree, unit)?;
    }
    Ok(names)
}
