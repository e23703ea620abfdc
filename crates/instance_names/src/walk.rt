// A walk over the nodes of a unit, in the order of the text.
ghost use Rattle.std.specs.Prelude.{◌≡◌, ◌++◌, IfOk, OnOk, reverse};
ghost use Rattle.tla_model.specs.Stretches.{one_of};
ghost use Rattle.instance_names.specs.Collected.{AreDue, IsStep, root_in};

use std::alloc::Global;
use tla_tree::{Tree, Unit};
use tool_list::Memory;

// The node of a unit in whose tree names are used.
fn root_of(unit: &Unit) -> Option<u32>
    ensures { one_of result ≡ root_in unit.now }
{
    match unit {
        Unit::OperatorDefinition { node, .. }
        | Unit::FunctionDefinition { node, .. }
        | Unit::ModuleDefinition { node, .. }
        | Unit::Instance { node, .. }
        | Unit::Assumption { node, .. }
        | Unit::Theorem { node, .. } => Some(*node),
        _ => None,
    }
}

// Appends a node, if there is one.
fn push_node(todo: &mut Vec<u32>, node: Option<u32>) -> Result<(), Memory>
    ensures { OnOk result (todo.new.items ≡ todo.old.items ++ one_of node) }
{
    let Some(node) = node else {
        return Ok(());
    };
    todo.push(node)?;
    Ok(())
}

/// The nodes that are due before a walk over a unit.
pub fn due_in(alloc: Global, unit: &Unit) -> Result<Vec<u32>, Memory>
    ensures { IfOk result (λ todo. todo.items ≡ root_in unit.now) }
{
    let mut todo = Vec::new(alloc);
    push_node(&mut todo, root_of(unit))?;
    Ok(todo)
}

// Appends numbers, the last one first.
fn push_reversed(todo: &mut Vec<u32>, numbers: &[u32]) -> Result<(), Memory>
    ensures { OnOk result (todo.new.items ≡ todo.old.items ++ reverse numbers.now) }
{
    for number in numbers.iter().rev().copied() {
        todo.push(number)?;
    }
    Ok(())
}

/// Takes the next one of the nodes that are due, of which the first one stands last, if there is one.
/// Its children are due in its place.
pub fn step(tree: &Tree, todo: &mut Vec<u32>) -> Result<Option<u32>, Memory>
    requires { AreDue tree.now todo.old.items }
    ensures { IfOk result (λ found. IsStep tree.now found todo.old.items todo.new.items) }
{
    let Some(node) = todo.pop() else {
        return Ok(None);
    };
    push_reversed(todo, tree.children(node))?;
    Ok(Some(node))
}
