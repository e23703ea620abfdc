// Visits of nodes.
ghost use Rattle.std.specs.Prelude.{◌≡◌, ◌++◌, OnOk};
ghost use Rattle.tla_tree.specs.Arena.{AreThere, node_at};
ghost use Rattle.tla_model.specs.Scopes as scopes;
ghost use Rattle.name_context.specs.AsTables.{context_of};
ghost use Rattle.declared_names.specs.Nodes.{defined_at, form_at, parts_at};
ghost use Rattle.tree_scope.specs.TasksDone.{AreReady, IsDone, IsNode};
ghost use Rattle.tree_tasks.specs.WalkTasks.{stack, visited};

use crate::paths::begin_path;
use crate::replacements::push_instance;
use crate::surroundings::Surround;
use declared_names::defined;
use name_context::Context;
use std::alloc::Global;
use tla_model::Finding;
use tla_tree::Tree;
use tool_list::{List, Memory};
use tree_names::{ModuleText, refuse, reserve, use_prefix, use_symbol};
use tree_tasks::{
    Naming, Task, naming_of, push_behind, push_between, push_definitions, push_each, push_function,
    push_image, push_scope,
};

// Finds fault with the name that a node defines, where it is taken, and takes it.
fn begin<'a>(
    alloc: Global,
    text: &ModuleText<'a>,
    tree: &Tree,
    node: u32,
    children: &[u32],
    context: &mut Context<'a>,
    findings: &mut List<Finding>,
) -> Result<(), Memory>
    requires node { IsNode text.now tree.now node }
    requires children { children.now ≡ (node_at tree.now node).children }
    requires there { AreThere tree.now children.now }
    ensures context { OnOk result (context_of context.new
        ≡ scopes.reserved text.now (context_of context.old) (form_at tree.now node)
        (parts_at tree.now node)) }
    ensures findings { OnOk result (findings.new
        ≡ findings.old ++ scopes.all_refused text.now (context_of context.old)
        (defined_at tree.now node)) }
{
    if let Some(binder) = defined(alloc, tree, node, children)? {
        refuse(text, context, binder.name, findings)?;
        reserve(text, context, binder.name)?;
    }
    Ok(())
}

/// Looks at a node: what is due of it is put on top.
pub fn visit<'a, S: Surround<'a>>(
    alloc: Global,
    text: &ModuleText<'a>,
    around: &S,
    tree: &Tree,
    node: u32,
    context: &mut Context<'a>,
    findings: &mut List<Finding>,
    tasks: &mut Vec<Task<'a>>,
) -> Result<(), Memory>
    requires node { IsNode text.now tree.now node }
    requires tasks { AreReady text.now tree.now (stack tasks.old.items) }
    ensures { OnOk result (IsDone text.now (S.around around.now) (S.held around.now) tree.now
        (visited node) (context_of context.old) (context_of context.new) findings.old findings.new
        (stack tasks.old.items) (stack tasks.new.items)) }
{
    let children = tree.children(node);
    let mark = context.mark()?;
    match naming_of(tree.form(node)) {
        Naming::Path => begin_path(text, around, tree, node, context, findings, tasks),
        Naming::Bare(at) => use_symbol(context, at, findings),
        Naming::Prefix(at) => {
            use_prefix(context, at, findings)?;
            push_each(tasks, children)
        }
        Naming::Infix(at) => push_between(tasks, children, at),
        Naming::Postfix(at) => push_behind(tasks, children, at),
        Naming::InOrder => push_definitions(tasks, children, mark),
        Naming::BoundsLast => push_image(tasks, tree, node, children, mark),
        Naming::Function(name) => {
            begin(alloc, text, tree, node, children, context, findings)?;
            push_function(tasks, tree, node, name, children, mark)
        }
        Naming::Instance(module) => {
            push_instance(alloc, text, tasks, tree, node, module)?;
            Ok(())
        }
        Naming::BoundsFirst => {
            begin(alloc, text, tree, node, children, context, findings)?;
            push_scope(tasks, tree, node, children, mark)
        }
    }
}
