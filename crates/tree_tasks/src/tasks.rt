// What is due of a walk over a tree.
ghost use Rattle.std.specs.Prelude.{◌≡◌, ◌++◌, ◌∷◌, IfOk, OnOk, filter, reverse};
ghost use Rattle.tla_tree.specs.Arena.{AreThere};
ghost use Rattle.tla_model.specs.Scopes as scopes;
ghost use Rattle.tree_tasks.specs.WalkTasks as walking;

use crate::held::Held;
use name_context::Mark;
use tla_symbols::Lexeme;
use tla_tree::{Form, Tree};
use tool_list::Memory;

/// What is to be done next.
#[derive(Clone, Copy)]
pub enum Task<'a> {
    /// To find what is found below a node.
    Visit {
        node: u32,
    },
    /// To look at the use of a symbol.
    Symbol {
        at: Lexeme,
    },
    /// To look at the segments of an identifier, from the child of this index on. `number` is that of
    /// the path, and `held` is where the segments before have come to.
    Path {
        node: u32,
        from: usize,
        number: u32,
        held: Held<'a>,
    },
    /// To look at the left side of a replacement, whose name is replaced before it or not, by the
    /// module of an INSTANCE.
    Replace {
        left: Lexeme,
        module: Lexeme,
        again: bool,
    },
    /// To look at the parameters of the module of an INSTANCE that are not replaced at its node.
    Imply {
        node: u32,
        module: Lexeme,
    },
    /// To put the names that a node binds for its parts into the context.
    Bind {
        node: u32,
    },
    /// To put the name that a node defines into the context.
    Define {
        node: u32,
    },
    /// To put the name of a function into the context, for its body.
    Function {
        name: Lexeme,
    },
    /// To leave a scope, for the context of a mark.
    Leave {
        mark: Mark,
    },
}

/// Where a form uses a symbol, and in which order its parts are looked at.
#[derive(Clone, Copy, Debug, PartialEq, Eq)]
pub enum Naming {
    /// The segments of a general identifier.
    Path,
    /// A symbol alone.
    Bare(Lexeme),
    /// A symbol before its operand.
    Prefix(Lexeme),
    /// A symbol behind the first of its operands.
    Infix(Lexeme),
    /// A symbol behind its operand.
    Postfix(Lexeme),
    /// Definitions, each for what stands behind it.
    InOrder,
    /// What stands before the bounds is in the scope of their names.
    BoundsLast,
    /// Sets of bounds, then what is in the scope of the names; the function's name is a bound name there.
    Function(Lexeme),
    /// What is replaced in the module of this name.
    Instance(Lexeme),
    /// Sets of bounds, then what is in the scope of the names.
    BoundsFirst,
}

// Whether a form has a set, which stands outside the scope of the names of its list.
fn has_set(form: Form) -> bool
    ensures { result ≡ scopes.has_set form }
{
    matches!(form, Form::Bound | Form::TupleBound)
}

/// How a form names things.
pub fn naming_of(form: Form) -> Naming
    ensures { result ≡ walking.naming form }
{
    match form {
        Form::Identifier => Naming::Path,
        Form::Symbol(symbol) => Naming::Bare(symbol),
        Form::Prefix(symbol) => Naming::Prefix(symbol),
        Form::Infix(symbol) => Naming::Infix(symbol),
        Form::Postfix(symbol) => Naming::Postfix(symbol),
        Form::Let => Naming::InOrder,
        Form::SetImage => Naming::BoundsLast,
        Form::FunctionDefinition(name) => Naming::Function(name),
        Form::Instance(module) => Naming::Instance(module),
        _ => Naming::BoundsFirst,
    }
}

// Appends visits, the last one first.
fn append_visits(tasks: &mut Vec<Task<'_>>, nodes: &[u32]) -> Result<(), Memory>
    ensures { OnOk result (tasks.new.items
        ≡ tasks.old.items ++ walking.visits (reverse nodes.now)) }
{
    for node in nodes.iter().rev().copied() {
        tasks.push(Task::Visit { node })?;
    }
    Ok(())
}

/// Puts a task on top of what is due.
pub fn push_task<'a>(tasks: &mut Vec<Task<'a>>, task: Task<'a>) -> Result<(), Memory>
    ensures { OnOk result (walking.stack tasks.new.items
        ≡ task.entry ∷ walking.stack tasks.old.items) }
{
    tasks.push(task)?;
    Ok(())
}

/// Puts visits on top of what is due, the first one uppermost.
pub fn push_each(tasks: &mut Vec<Task<'_>>, nodes: &[u32]) -> Result<(), Memory>
    ensures { OnOk result (walking.stack tasks.new.items
        ≡ walking.visits nodes.now ++ walking.stack tasks.old.items) }
{
    append_visits(tasks, nodes)?;
    Ok(())
}

/// Appends visits, the first one first.
pub fn append_each(tasks: &mut Vec<Task<'_>>, nodes: &[u32]) -> Result<(), Memory>
    ensures { OnOk result (tasks.new.items ≡ tasks.old.items ++ walking.visits nodes.now) }
{
    for node in nodes.iter().copied() {
        tasks.push(Task::Visit { node })?;
    }
    Ok(())
}

// Appends tasks, the last one first.
fn append_tasks<'a>(tasks: &mut Vec<Task<'a>>, more: &[Task<'a>]) -> Result<(), Memory>
    ensures { OnOk result (tasks.new.items ≡ tasks.old.items ++ reverse more.now) }
{
    for task in more.iter().rev().copied() {
        tasks.push(task)?;
    }
    Ok(())
}

/// Puts tasks on top of what is due, the first one uppermost.
pub fn push_tasks<'a>(tasks: &mut Vec<Task<'a>>, more: &[Task<'a>]) -> Result<(), Memory>
    ensures { OnOk result (walking.stack tasks.new.items
        ≡ more.now ++ walking.stack tasks.old.items) }
{
    append_tasks(tasks, more)?;
    Ok(())
}

// Appends visits of the nodes that have a set, or of those that have none, the last one first.
fn append_chosen(
    tasks: &mut Vec<Task<'_>>,
    tree: &Tree,
    nodes: &[u32],
    sets: bool,
) -> Result<(), Memory>
    requires { AreThere tree.now nodes.now }
    ensures { OnOk result (tasks.new.items ≡ tasks.old.items
        ++ walking.visits (reverse (filter (walking.is_chosen tree.now sets) nodes.now))) }
{
    let mut index = nodes.len();
    while index > 0 {
        index -= 1;
        let node = nodes[index];
        if is_same(has_set(tree.form(node)), sets) {
            tasks.push(Task::Visit { node })?;
        }
    }
    Ok(())
}

fn is_same(one: bool, other: bool) -> bool
    ensures { result ≡ walking.same one other }
{
    one == other
}

/// Puts visits of the nodes on top that have a set, or of those that have none, the first one
/// uppermost.
pub fn push_chosen(
    tasks: &mut Vec<Task<'_>>,
    tree: &Tree,
    nodes: &[u32],
    sets: bool,
) -> Result<(), Memory>
    requires { AreThere tree.now nodes.now }
    ensures { OnOk result (walking.stack tasks.new.items ≡ walking.with_sets tree.now sets nodes.now
        ++ walking.stack tasks.old.items) }
{
    append_chosen(tasks, tree, nodes, sets)?;
    Ok(())
}

// Appends visits, each behind the definition of its name, the last one first.
fn append_chain(tasks: &mut Vec<Task<'_>>, nodes: &[u32]) -> Result<(), Memory>
    ensures { OnOk result (tasks.new.items
        ≡ tasks.old.items ++ walking.chain_back (reverse nodes.now)) }
{
    for node in nodes.iter().rev().copied() {
        tasks.push(Task::Define { node })?;
        tasks.push(Task::Visit { node })?;
    }
    Ok(())
}

/// Puts visits on top, each with the definition of its name behind it, the first one uppermost.
pub fn push_chain(tasks: &mut Vec<Task<'_>>, nodes: &[u32]) -> Result<(), Memory>
    ensures { OnOk result (walking.stack tasks.new.items
        ≡ walking.chain nodes.now ++ walking.stack tasks.old.items) }
{
    append_chain(tasks, nodes)?;
    Ok(())
}
