// The module names of a unit.
ghost use Rattle.std.specs.Prelude.{◌≡◌, IfOk};
ghost use Rattle.tla_tree.specs.Arena.{AreThere};
ghost use Rattle.unit_grammar.specs.UnitNodes.{nodes_in, unit_at};
ghost use Rattle.tla_model.specs.ModuleNames as names_of;
ghost use Rattle.module_graph.specs.UnitNames.{InstancesAt};

use crate::trees::instances;
use std::alloc::Global;
use tla_symbols::Lexeme;
use tla_tree::{Tree, Unit};
use tool_list::{List, Memory, copied};

/// The node of a unit in which instances may stand.
pub fn node_of(unit: &Unit) -> Option<u32>
    ensures { InstancesAt unit.now result }
{
    match unit {
        Unit::OperatorDefinition { node, .. }
        | Unit::FunctionDefinition { node, .. }
        | Unit::ModuleDefinition { node, .. }
        | Unit::Instance { node, .. }
        | Unit::Assumption { node, .. }
        | Unit::Theorem { node, .. } => Some(*node),
        _ => None,
    }
}

/// The module names of a unit, in the order of the text. `Memory` comes where there was no room.
pub fn module_names(alloc: Global, tree: &Tree, unit: &Unit) -> Result<List<Lexeme>, Memory>
    requires { AreThere tree.now (nodes_in unit.now) }
    ensures { IfOk result (λ names. names ≡ names_of.module_names (unit_at tree.now unit.now)) }
{
    if let Unit::ModuleBegin { extends, .. } = unit {
        return copied(alloc, extends.as_slice());
    }
    match node_of(unit) {
        Some(node) => {
            let names = instances(alloc, tree, node)?;
            Ok(names)
        }
        None => Ok(List::new(alloc)),
    }
}
