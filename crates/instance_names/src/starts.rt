// Where things begin in a text.
ghost use Rattle.std.specs.Prelude.{◌≡◌, ◌++◌, IfOk, OnOk};
ghost use Rattle.tla_tree.specs.Arena.{AreThere};
ghost use Rattle.unit_grammar.specs.UnitNodes.{HasNodes, module_of, nodes_in, unit_at};
ghost use Rattle.tla_model.specs.Stretches.{one_of};
ghost use Rattle.module_model.specs.Instances as instances;
ghost use Rattle.module_model.specs.Instances.{paths_in, unit_trees};
ghost use Rattle.module_model.specs.Resolution.{words_of};
ghost use Rattle.instance_names.specs.Forms.{word_at};
ghost use Rattle.instance_names.specs.Collected.{all_collected};

use crate::forms::{path_start, word_start};
use crate::scan::{may_hold_path, may_hold_word};
use crate::walk::{due_in, step};
use std::alloc::Global;
use tla_model::Starts;
use tla_tree::{ModuleTree, Tree, Unit};
use tool_list::Memory;

// Appends where something begins, if it does.
fn push_start(starts: &mut Vec<u32>, start: Option<u32>) -> Result<(), Memory>
    ensures { OnOk result (starts.new.items ≡ starts.old.items ++ one_of start) }
{
    let Some(start) = start else {
        return Ok(());
    };
    starts.push(start)?;
    Ok(())
}

// Appends where the paths of a unit begin.
fn push_paths(alloc: Global, starts: &mut Vec<u32>, tree: &Tree, unit: &Unit) -> Result<(), Memory>
    requires { AreThere tree.now (nodes_in unit.now) }
    ensures { OnOk result (starts.new.items ≡ starts.old.items
        ++ all_collected instances.path_start (unit_trees (unit_at tree.now unit.now))) }
{
    let mut todo = due_in(alloc, unit)?;
    while let Some(node) = step(tree, &mut todo)? {
        push_start(starts, path_start(tree, node))?;
    }
    Ok(())
}

// Appends where the module names behind INSTANCE of a unit begin.
fn push_words(alloc: Global, starts: &mut Vec<u32>, tree: &Tree, unit: &Unit) -> Result<(), Memory>
    requires { AreThere tree.now (nodes_in unit.now) }
    ensures { OnOk result (starts.new.items ≡ starts.old.items
        ++ all_collected word_at (unit_trees (unit_at tree.now unit.now))) }
{
    let mut todo = due_in(alloc, unit)?;
    while let Some(node) = step(tree, &mut todo)? {
        push_start(starts, word_start(tree.form(node)))?;
    }
    Ok(())
}

// Where the paths begin, in order.
fn all_paths(alloc: Global, tree: &ModuleTree) -> Result<Vec<u32>, Memory>
    requires { HasNodes tree.now }
    ensures { IfOk result (λ starts. starts.items ≡ paths_in (module_of tree.now).units) }
{
    let mut starts = Vec::new(alloc);
    if !may_hold_path(&tree.tree) {
        return Ok(starts);
    }
    for unit in tree.units.as_slice() {
        push_paths(alloc, &mut starts, &tree.tree, unit)?;
    }
    Ok(starts)
}

// Where the module names behind INSTANCE begin, in order.
fn all_words(alloc: Global, tree: &ModuleTree) -> Result<Vec<u32>, Memory>
    requires { HasNodes tree.now }
    ensures { IfOk result (λ starts. starts.items ≡ words_of (module_of tree.now)) }
{
    let mut starts = Vec::new(alloc);
    if !may_hold_word(&tree.tree) {
        return Ok(starts);
    }
    for unit in tree.units.as_slice() {
        push_words(alloc, &mut starts, &tree.tree, unit)?;
    }
    Ok(starts)
}

/// Where the paths that lead through instances begin in a text, in its order. `Memory` comes where so
/// many can't be counted, too.
pub fn path_starts(alloc: Global, tree: &ModuleTree) -> Result<Starts, Memory>
    requires { HasNodes tree.now }
    ensures { IfOk result (λ starts. starts ≡ paths_in (module_of tree.now).units) }
{
    let starts = all_paths(alloc, tree)?;
    let kept = Starts::new(alloc, starts.as_slice())?;
    Ok(kept)
}

/// Where the module names behind INSTANCE begin in a text, in its order. `Memory` comes where so many
/// can't be counted, too.
pub fn instance_words(alloc: Global, tree: &ModuleTree) -> Result<Starts, Memory>
    requires { HasNodes tree.now }
    ensures { IfOk result (λ starts. starts ≡ words_of (module_of tree.now)) }
{
    let starts = all_words(alloc, tree)?;
    let kept = Starts::new(alloc, starts.as_slice())?;
    Ok(kept)
}
