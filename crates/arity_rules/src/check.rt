// The faults of arity in a module.
ghost use Rattle.std.specs.Prelude.{◌≡◌, ◌++◌, ℕ, List as ListOf, IfOk, OnOk};
ghost use Rattle.tla_tree.specs.Arena.{AreThere};
ghost use Rattle.unit_grammar.specs.UnitNodes.{HasNodes, module_of, nodes_in, unit_at};
ghost use Rattle.tla_model.specs.Scopes.{Finding};
ghost use Rattle.module_model.specs.Bindings.{IsBoundBy};
ghost use Rattle.arity_rules.specs.Arities as arities;
ghost use Rattle.arity_rules.specs.Noted.{told};

use crate::entity::arity;
use crate::faults::push_use;
use crate::meanings::Meanings;
use crate::place::due_by;
use crate::walk::push_trees;
use module_model::{Bound, Implied};
use std::alloc::Global;
use tla_model::Diagnostic;
use tla_tree::{ModuleTree, Tree, Unit};
use tool_list::{List, Memory};

// Appends the faults of a unit's tree.
fn push_unit(
    alloc: Global,
    faults: &mut List<Diagnostic>,
    meanings: &Meanings,
    tree: &Tree,
    unit: &Unit,
) -> Result<(), Memory>
    requires { AreThere tree.now (nodes_in unit.now) }
    ensures { OnOk result (faults.new ≡ faults.old
        ++ arities.unit_faults (told meanings.now) (unit_at tree.now unit.now)) }
{
    match unit {
        Unit::OperatorDefinition { node, .. }
        | Unit::FunctionDefinition { node, .. }
        | Unit::ModuleDefinition { node, .. }
        | Unit::Instance { node, .. }
        | Unit::Assumption { node, .. }
        | Unit::Theorem { node, .. } => push_trees(alloc, faults, meanings, tree, &[*node]),
        Unit::Variables { .. }
        | Unit::Constants { .. }
        | Unit::Line(_)
        | Unit::ModuleBegin { .. }
        | Unit::ModuleEnd(_) => Ok(()),
    }
}

// Appends the faults of units' trees.
fn push_units(
    alloc: Global,
    faults: &mut List<Diagnostic>,
    meanings: &Meanings,
    tree: &ModuleTree,
) -> Result<(), Memory>
    requires { HasNodes tree.now }
    ensures { OnOk result (faults.new ≡ faults.old
        ++ arities.all_unit_faults (told meanings.now) (module_of tree.now).units) }
{
    for unit in tree.units.as_slice() {
        push_unit(alloc, faults, meanings, &tree.tree, unit)?;
    }
    Ok(())
}

// Appends the fault of a replacement that is not written.
fn push_implied(faults: &mut List<Diagnostic>, replaced: &Implied) -> Result<(), Memory>
    ensures { OnOk result (faults.new ≡ faults.old ++ arities.implied_fault replaced.now) }
{
    let due = due_by(Some(arity(&replaced.parameter)), replaced.at);
    push_use(faults, due, replaced.at, 0, Some(&replaced.symbol))
}

// Appends the faults of replacements that are not written.
fn push_all_implied(faults: &mut List<Diagnostic>, replaced: &[Implied]) -> Result<(), Memory>
    ensures { OnOk result (faults.new ≡ faults.old ++ arities.implied_faults replaced.now) }
{
    for one in replaced {
        push_implied(faults, one)?;
    }
    Ok(())
}

/// The faults E501, E502 and E503 of a module, by what is found at its names, which `bound` says. Those
/// of its units stand in the order of the text, each whole before its parts, and behind them those of
/// replacements that are not written. `Memory` comes for want of memory alone.
pub fn check_arity(
    alloc: Global,
    tree: &ModuleTree,
    bound: &Bound,
) -> Result<List<Diagnostic>, Memory>
    requires { HasNodes tree.now }
    ensures { IfOk result (λ faults. (found : ListOf Finding) (source : ListOf ℕ)
        → IsBoundBy found source (module_of tree.now) bound.now
        → faults ≡ arities.arity_faults found (module_of tree.now).units) }
{
    let meanings = Meanings::new(
        alloc,
        bound.uses.as_slice(),
        bound.entities.as_slice(),
        bound.faults.as_slice(),
    )?;
    let mut faults = List::new(alloc);
    push_units(alloc, &mut faults, &meanings, tree)?;
    push_all_implied(&mut faults, bound.implied.as_slice())?;
    Ok(faults)
}
