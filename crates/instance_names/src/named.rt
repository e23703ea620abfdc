// The instances that a unit names.
ghost use Rattle.std.specs.Prelude.{◌≡◌, ◌<◌, ◌++◌, IfOk, OnOk, length, map};
ghost use Rattle.tla_tree.specs.Arena.{AreThere, node_at};
ghost use Rattle.tla_tree.specs.Syntax.{trees};
ghost use Rattle.unit_grammar.specs.UnitNodes.{nodes_in, unit_at};
ghost use Rattle.module_model.specs.Instances.{all_named_instances, named_instance, unit_trees};
ghost use Rattle.instance_names.specs.Named.{named_as};
ghost use Rattle.instance_names.specs.Collected.{parts_of};

use crate::forms::{defined_in, instance_among};
use crate::walk::{due_in, step};
use std::alloc::Global;
use tla_symbols::Lexeme;
use tla_tree::{Tree, Unit};
use tool_list::{List, Memory};

/// An instance that a text names.
#[derive(Clone, Copy)]
pub struct NamedInstance {
    /// Its name.
    pub name: Lexeme,
    /// The name of its module.
    pub module: Option<Lexeme>,
}

// Appends the instance that a node names, if it names one.
fn push_named(found: &mut List<NamedInstance>, tree: &Tree, node: u32) -> Result<(), Memory>
    requires { node < length tree.now }
    ensures { OnOk result (map named_as found.new ≡ map named_as found.old
        ++ named_instance (node_at tree.now node).form (trees (parts_of tree.now node))) }
{
    let Some(name) = defined_in(tree.form(node)) else {
        return Ok(());
    };
    let module = instance_among(tree, tree.children(node));
    found.push(NamedInstance { name, module })?;
    Ok(())
}

/// The instances that a unit names, in the order of the text. `Memory` comes where there was no room.
pub fn named_instances(
    alloc: Global,
    tree: &Tree,
    unit: &Unit,
) -> Result<List<NamedInstance>, Memory>
    requires { AreThere tree.now (nodes_in unit.now) }
    ensures { IfOk result (λ found. map named_as found
        ≡ all_named_instances (unit_trees (unit_at tree.now unit.now))) }
{
    let mut found = List::new(alloc);
    let mut todo = due_in(alloc, unit)?;
    while let Some(node) = step(tree, &mut todo)? {
        push_named(&mut found, tree, node)?;
    }
    Ok(found)
}
