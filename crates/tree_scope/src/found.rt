// What is found in a tree.
ghost use Rattle.std.specs.Prelude.{◌≡◌, ◌++◌, ◌<◌, OnOk, length};
ghost use Rattle.std.specs.List.{AllByRecursion};
ghost use Rattle.tla_tree.specs.Arena.{tree_at};
ghost use Rattle.tla_model.specs.Contexts as contexts;
ghost use Rattle.tla_model.specs.Lexemes.{LiesIn, lexemes};
ghost use Rattle.tla_model.specs.Scopes as scopes;
ghost use Rattle.module_model.specs.TreeFindings as in_trees;
ghost use Rattle.name_context.specs.AsTables.{context_of};
ghost use Rattle.declared_names.specs.Nodes.{binders_at};
ghost use Rattle.tree_scope.specs.TasksDone.{AreReady, IsDone, IsNode, IsReady};
ghost use Rattle.tree_tasks.specs.WalkTasks.{stack};

use crate::paths::go_on;
use crate::replacements::{imply, replace};
use crate::surroundings::Surround;
use crate::visits::visit;
use declared_names::{binders, defined};
use name_context::Context;
use std::alloc::Global;
use tla_model::Finding;
use tla_tree::Tree;
use tool_list::{List, Memory};
use tree_names::{ModuleText, bind, bind_all, bind_function, use_symbol};
use tree_tasks::Task;

// Puts the names into the context that a node binds for its parts.
fn bind_names<'a>(
    alloc: Global,
    text: &ModuleText<'a>,
    tree: &Tree,
    node: u32,
    context: &mut Context<'a>,
    findings: &mut List<Finding>,
) -> Result<(), Memory>
    requires { IsNode text.now tree.now node }
    ensures context { OnOk result (context_of context.new
        ≡ contexts.bind_all text.now (context_of context.old) (binders_at tree.now node)) }
    ensures findings { OnOk result (findings.new
        ≡ findings.old ++ scopes.all_refused text.now (context_of context.old)
        (binders_at tree.now node)) }
{
    let names = binders(alloc, tree, node, tree.children(node))?;
    bind_all(text, context, names, findings)
}

// Puts the name into the context that a node defines.
fn define<'a>(
    alloc: Global,
    text: &ModuleText<'a>,
    tree: &Tree,
    node: u32,
    context: &mut Context<'a>,
) -> Result<(), Memory>
    requires { IsNode text.now tree.now node }
    ensures { OnOk result (context_of context.new
        ≡ contexts.bind_all text.now (context_of context.old)
        (scopes.definition (tree_at tree.now node))) }
{
    if let Some(binder) = defined(alloc, tree, node, tree.children(node))? {
        bind(text, context, binder)?;
    }
    Ok(())
}

// Does what was due next.
fn perform<'a, S: Surround<'a>>(
    alloc: Global,
    text: &ModuleText<'a>,
    around: &S,
    tree: &Tree,
    next: Task<'a>,
    context: &mut Context<'a>,
    findings: &mut List<Finding>,
    tasks: &mut Vec<Task<'a>>,
) -> Result<(), Memory>
    requires next { IsReady text.now tree.now next }
    requires tasks { AreReady text.now tree.now (stack tasks.old.items) }
    ensures { OnOk result (IsDone text.now (S.around around.now)
        (S.held around.now) tree.now next.entry
        (context_of context.old) (context_of context.new) findings.old findings.new
        (stack tasks.old.items) (stack tasks.new.items)) }
{
    match next {
        Task::Visit { node } => visit(alloc, text, around, tree, node, context, findings, tasks),
        Task::Symbol { at } => use_symbol(context, at, findings),
        Task::Path {
            node,
            from,
            number,
            held,
        } => go_on(
            text, around, tree, node, from, number, held, findings, tasks,
        ),
        Task::Replace {
            left,
            module,
            again,
        } => replace(text, around, left, module, again, findings),
        Task::Imply { node, module } => {
            imply(alloc, text, around, tree, node, module, context, findings)
        }
        Task::Bind { node } => {
            bind_names(alloc, text, tree, node, context, findings)?;
            Ok(())
        }
        Task::Define { node } => define(alloc, text, tree, node, context),
        Task::Function { name } => bind_function(text, context, name),
        Task::Leave { mark } => {
            context.cut(mark);
            Ok(())
        }
    }
}

/// Appends what is found in the tree below a node, in the order of the text. The context is behind it
/// as it was before.
pub fn walk<'a, S: Surround<'a>>(
    alloc: Global,
    text: &ModuleText<'a>,
    around: &S,
    tree: &Tree,
    node: u32,
    context: &mut Context<'a>,
    findings: &mut List<Finding>,
) -> Result<(), Memory>
    requires there { node < length tree.now }
    requires lie { AllByRecursion (LiesIn text.now.source) (lexemes (tree_at tree.now node)) }
    ensures context { OnOk result (context_of context.new ≡ context_of context.old) }
    ensures findings { OnOk result (findings.new
        ≡ findings.old ++ in_trees.walk text.now (S.around around.now) (context_of context.old)
        (tree_at tree.now node)) }
{
    let mut tasks = Vec::new(alloc);
    tasks.push(Task::Visit { node })?;
    while let Some(next) = tasks.pop() {
        perform(
            alloc, text, around, tree, next, context, findings, &mut tasks,
        )?;
    }
    Ok(())
}
