// What INSTANCE replaces.
ghost use Rattle.std.specs.Prelude.{◌≡◌, ◌++◌, IfOk, IfSome, OnOk};
ghost use Rattle.tla_tree.specs.Arena.{node_at};
ghost use Rattle.tla_model.specs.Lexemes.{LiesIn};
ghost use Rattle.tla_model.specs.Tables as tables;
ghost use Rattle.module_model.specs.Instances as instances;
ghost use Rattle.module_model.specs.TreeFindings.{replaceable};
ghost use Rattle.name_context.specs.AsTables.{context_of};
ghost use Rattle.declared_names.specs.Nodes.{parts_at};
ghost use Rattle.tree_names.specs.Parameters.{entry_in};
ghost use Rattle.tree_scope.specs.TasksDone as done;
ghost use Rattle.tree_tasks.specs.WalkTasks as walking;
ghost use Rattle.tree_scope.specs.TasksDone.{IsNode};
ghost use Rattle.tree_tasks.specs.WalkTasks.{AreWhole, stack};

use crate::surroundings::Surround;
use name_context::Context;
use std::alloc::Global;
use tla_model::{Finding, Meaning};
use tla_symbols::Lexeme;
use tla_tree::{Form, Tree};
use tool_list::{List, Memory};
use tree_names::{ModuleText, Parameter, meaning_of};
use tree_tasks::{Task, append_each, push_task, push_tasks};

// The left side of a replacement.
fn left_of(form: Form) -> Option<Lexeme>
    ensures { result ≡ walking.left_of form }
{
    match form {
        Form::Replacement(left) => Some(left),
        _ => None,
    }
}

// Notes a left side, if there is one.
fn note<'a>(
    text: &ModuleText<'a>,
    names: &mut Context<'a>,
    left: Option<Lexeme>,
) -> Result<(), Memory>
    requires { IfSome left (LiesIn text.now.source) }
    ensures { OnOk result (context_of names.new
        ≡ walking.noted text.now.source (context_of names.old) left) }
{
    let Some(left) = left else {
        return Ok(());
    };
    names.put(text.name_of(left), None)
}

// The left sides of the replacements among these nodes.
fn left_sides<'a>(
    alloc: Global,
    text: &ModuleText<'a>,
    tree: &Tree,
    nodes: &[u32],
) -> Result<Context<'a>, Memory>
    requires { done.IsPath text.now tree.now nodes.now }
    ensures { IfOk result (λ names. context_of names
        ≡ walking.noted_all text.now.source tree.now tables.empty nodes.now) }
{
    let mut names = Context::new(alloc);
    for node in nodes {
        note(text, &mut names, left_of(tree.form(*node)))?;
    }
    Ok(names)
}

// Appends what is due of a replacement, behind these left sides.
fn push_replacement<'a>(
    text: &ModuleText<'a>,
    names: &Context<'a>,
    module: Lexeme,
    left: Option<Lexeme>,
    right: &[u32],
    due: &mut Vec<Task<'_>>,
) -> Result<(), Memory>
    requires { IfSome left (LiesIn text.now.source) }
    ensures { OnOk result (due.new.items
        ≡ due.old.items ++ walking.replacing text.now.source (context_of names.now) «module» left
        right.now) }
{
    let Some(left) = left else {
        return Ok(());
    };
    let again = names.get(text.name_of(left)).is_some();
    due.push(Task::Replace {
        left,
        module,
        again,
    })?;
    append_each(due, right)
}

// What is due of the replacements among these nodes, the next one first.
fn replacements<'a>(
    alloc: Global,
    text: &ModuleText<'a>,
    tree: &Tree,
    module: Lexeme,
    nodes: &[u32],
) -> Result<Vec<Task<'a>>, Memory>
    requires { done.IsPath text.now tree.now nodes.now }
    ensures due { IfOk result (λ due. due.items
        ≡ walking.replacements text.now.source tree.now tables.empty «module» nodes.now) }
    ensures whole { IfOk result (λ due. AreWhole tree.now nodes.now) }
{
    let mut names = Context::new(alloc);
    let mut due = Vec::new(alloc);
    for node in nodes {
        let left = left_of(tree.form(*node));
        push_replacement(text, &names, module, left, tree.children(*node), &mut due)?;
        note(text, &mut names, left)?;
    }
    Ok(due)
}

/// What is due of an INSTANCE: its replacements, and those that are not written.
pub fn push_instance<'a>(
    alloc: Global,
    text: &ModuleText<'a>,
    tasks: &mut Vec<Task<'a>>,
    tree: &Tree,
    node: u32,
    module: Lexeme,
) -> Result<(), Memory>
    requires { IsNode text.now tree.now node }
    ensures due { OnOk result (stack tasks.new.items
        ≡ walking.instance_tasks text.now.source tree.now tables.empty node «module»
        (node_at tree.now node).children (stack tasks.old.items)) }
    ensures whole { OnOk result (AreWhole tree.now (node_at tree.now node).children) }
{
    let due = replacements(alloc, text, tree, module, tree.children(node))?;
    push_task(tasks, Task::Imply { node, module })?;
    push_tasks(tasks, due.as_slice())
}

// Finds that a parameter is replaced before, where it is.
fn refuse_again(left: Lexeme, again: bool, findings: &mut List<Finding>) -> Result<(), Memory>
    ensures { OnOk result (findings.new ≡ findings.old ++ walking.twice left again) }
{
    if again {
        findings.push(Finding::ReplacedTwice { at: left })?;
    }
    Ok(())
}

// Looks at a left side, by the parameter that it names.
fn push_left(
    left: Lexeme,
    again: bool,
    parameter: Option<Meaning>,
    findings: &mut List<Finding>,
) -> Result<(), Memory>
    ensures { OnOk result (findings.new
        ≡ findings.old ++ instances.replaced_as left again parameter) }
{
    let Some(meaning) = parameter else {
        findings.push(Finding::NotReplaceable { at: left })?;
        return Ok(());
    };
    findings.push(Finding::Means { at: left, meaning })?;
    refuse_again(left, again, findings)
}

/// Looks at the left side of a replacement.
pub fn replace<'a, S: Surround<'a>>(
    text: &ModuleText<'a>,
    around: &S,
    left: Lexeme,
    module: Lexeme,
    again: bool,
    findings: &mut List<Finding>,
) -> Result<(), Memory>
    requires left { LiesIn text.now.source left }
    requires name { LiesIn text.now.source «module» }
    ensures { OnOk result (findings.new
        ≡ findings.old ++ instances.replaced_as left again
        (done.parameter_of text.now (S.around around.now) left «module»)) }
{
    let parameter = around.parameter(text.spelled(module), text.name_of(left))?;
    push_left(left, again, parameter, findings)
}

// Looks at a parameter that is not replaced, by what its name means.
fn push_implied(
    module: Lexeme,
    parameter: Meaning,
    meaning: Option<Meaning>,
    findings: &mut List<Finding>,
) -> Result<(), Memory>
    ensures { OnOk result (findings.new
        ≡ findings.old ++ instances.implied_as «module» parameter meaning) }
{
    match meaning {
        Some(meaning) => findings.push(Finding::Implied {
            at: module,
            parameter,
            meaning,
        }),
        None => findings.push(Finding::Unreplaced { at: module }),
    }
}

// Looks at a parameter, unless its name is one of the left sides.
fn imply_one<'a>(
    context: &Context<'a>,
    written: &Context<'a>,
    module: Lexeme,
    parameter: Parameter,
    findings: &mut List<Finding>,
) -> Result<(), Memory>
    ensures { OnOk result (findings.new
        ≡ findings.old
        ++ walking.implied_of (context_of context.now) (context_of written.now) «module»
        (entry_in parameter)) }
{
    if written.get(parameter.name.named()).is_some() {
        return Ok(());
    }
    let meaning = meaning_of(context, parameter.name.named())?;
    push_implied(module, parameter.meaning, meaning, findings)
}

/// Looks at the parameters of the module of an INSTANCE that are not replaced at its node.
pub fn imply<'a, S: Surround<'a>>(
    alloc: Global,
    text: &ModuleText<'a>,
    around: &S,
    tree: &Tree,
    node: u32,
    module: Lexeme,
    context: &Context<'a>,
    findings: &mut List<Finding>,
) -> Result<(), Memory>
    requires node { IsNode text.now tree.now node }
    requires name { LiesIn text.now.source «module» }
    ensures { OnOk result (findings.new
        ≡ findings.old
        ++ instances.implied (context_of context.now) «module»
        (instances.left_sides text.now.source (parts_at tree.now node))
        (replaceable text.now (S.around around.now) «module»)) }
{
    let written = left_sides(alloc, text, tree, tree.children(node))?;
    let parameters = around.parameters(alloc, text.spelled(module))?;
    for parameter in parameters.into_vec() {
        imply_one(context, &written, module, parameter, findings)?;
    }
    Ok(())
}
