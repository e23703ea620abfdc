// What is due of a node, put on top.
ghost use Rattle.std.specs.Prelude.{◌≡◌, ◌++◌, ◌∷◌, OnOk};
ghost use Rattle.tla_tree.specs.Arena.{AreThere};
ghost use Rattle.tree_tasks.specs.WalkTasks as walking;
ghost use Rattle.tree_tasks.specs.WalkTasks.{stack};

use crate::held::Held;
use crate::tasks::{Task, push_chain, push_chosen, push_each, push_task};
use name_context::Mark;
use tla_symbols::Lexeme;
use tla_tree::Tree;
use tool_list::Memory;

// What is in the scope of the names that a node binds, and the end of the scope.
fn push_inside(
    tasks: &mut Vec<Task<'_>>,
    tree: &Tree,
    node: u32,
    children: &[u32],
    mark: Mark,
) -> Result<(), Memory>
    requires { AreThere tree.now children.now }
    ensures { OnOk result (stack tasks.new.items
        ≡ walking.in_scope tree.now node children.now mark (stack tasks.old.items)) }
{
    push_task(tasks, Task::Leave { mark })?;
    push_chosen(tasks, tree, children, false)?;
    push_task(tasks, Task::Bind { node })?;
    Ok(())
}

/// Sets of bounds, and then what is in the scope of the names.
pub fn push_scope(
    tasks: &mut Vec<Task<'_>>,
    tree: &Tree,
    node: u32,
    children: &[u32],
    mark: Mark,
) -> Result<(), Memory>
    requires { AreThere tree.now children.now }
    ensures { OnOk result (stack tasks.new.items
        ≡ walking.scope_tasks tree.now node children.now mark (stack tasks.old.items)) }
{
    push_inside(tasks, tree, node, children, mark)?;
    push_chosen(tasks, tree, children, true)
}

/// The same of a function, whose name is a bound name in its body.
pub fn push_function(
    tasks: &mut Vec<Task<'_>>,
    tree: &Tree,
    node: u32,
    name: Lexeme,
    children: &[u32],
    mark: Mark,
) -> Result<(), Memory>
    requires { AreThere tree.now children.now }
    ensures { OnOk result (stack tasks.new.items
        ≡ walking.function_tasks tree.now node name children.now mark (stack tasks.old.items)) }
{
    push_inside(tasks, tree, node, children, mark)?;
    push_task(tasks, Task::Function { name })?;
    push_task(tasks, Task::Leave { mark })?;
    push_chosen(tasks, tree, children, true)
}

/// What is in the scope of the names, and then the sets of their bounds.
pub fn push_image(
    tasks: &mut Vec<Task<'_>>,
    tree: &Tree,
    node: u32,
    children: &[u32],
    mark: Mark,
) -> Result<(), Memory>
    requires { AreThere tree.now children.now }
    ensures { OnOk result (stack tasks.new.items
        ≡ walking.image_tasks tree.now node children.now mark (stack tasks.old.items)) }
{
    push_chosen(tasks, tree, children, true)?;
    push_inside(tasks, tree, node, children, mark)
}

/// Definitions one after another, with what is in their scope, and the end of the scope.
pub fn push_definitions(
    tasks: &mut Vec<Task<'_>>,
    children: &[u32],
    mark: Mark,
) -> Result<(), Memory>
    ensures { OnOk result (stack tasks.new.items
        ≡ walking.chain children.now ++ (walking.leave mark ∷ stack tasks.old.items)) }
{
    push_task(tasks, Task::Leave { mark })?;
    push_chain(tasks, children)
}

/// Operands, with a symbol behind the first of them.
pub fn push_between(tasks: &mut Vec<Task<'_>>, children: &[u32], at: Lexeme) -> Result<(), Memory>
    ensures { OnOk result (stack tasks.new.items
        ≡ walking.between_tasks at children.now (stack tasks.old.items)) }
{
    let Some((&first, rest)) = children.split_first() else {
        push_task(tasks, Task::Symbol { at })?;
        return Ok(());
    };
    push_each(tasks, rest)?;
    push_task(tasks, Task::Symbol { at })?;
    push_task(tasks, Task::Visit { node: first })?;
    Ok(())
}

/// Operands, and a symbol behind them.
pub fn push_behind(tasks: &mut Vec<Task<'_>>, children: &[u32], at: Lexeme) -> Result<(), Memory>
    ensures { OnOk result (stack tasks.new.items
        ≡ walking.visits children.now ++ (walking.used at ∷ stack tasks.old.items)) }
{
    push_task(tasks, Task::Symbol { at })?;
    push_each(tasks, children)
}

/// The segments of an identifier from this one on, where the one before it leads on.
pub fn push_path<'a>(
    tasks: &mut Vec<Task<'a>>,
    node: u32,
    from: usize,
    number: u32,
    held: Option<Held<'a>>,
) -> Result<(), Memory>
    ensures { OnOk result (stack tasks.new.items
        ≡ walking.path_tasks node from number held.entry (stack tasks.old.items)) }
{
    let Some(held) = held else {
        return Ok(());
    };
    push_task(
        tasks,
        Task::Path {
            node,
            from,
            number,
            held,
        },
    )?;
    Ok(())
}
