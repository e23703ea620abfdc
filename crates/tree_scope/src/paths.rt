// Segments of paths.
ghost use Rattle.std.specs.Prelude.{◌≡◌, ◌++◌, ◌<◌, [], true, IfOk, OnOk, length};
ghost use Rattle.std.specs.Option.{option_map};
ghost use Rattle.tla_model.specs.Contexts as contexts;
ghost use Rattle.tla_model.specs.Entities as entities;
ghost use Rattle.tla_model.specs.Lexemes.{LiesIn};
ghost use Rattle.tla_model.specs.Scopes as scopes;
ghost use Rattle.module_model.specs.Exports as exports;
ghost use Rattle.module_model.specs.TreeFindings as in_trees;
ghost use Rattle.name_context.specs.AsTables.{context_of};
ghost use Rattle.tree_tasks.specs.WalkTasks as walking;
ghost use Rattle.tree_scope.specs.TasksDone.{AreFound, IsPath, children_from, trees_at};
ghost use Rattle.tree_tasks.specs.WalkTasks.{stack};

use crate::surroundings::Surround;
use name_context::Context;
use tla_model::{Callee, Finding, Meaning};
use tla_symbols::Lexeme;
use tla_tree::{Form, Tree};
use tool_list::{List, Memory};
use tree_names::{ModuleText, meaning_of, push_use, use_name};
use tree_tasks::{Held, Task, push_each, push_path};

// The name of a segment.
fn segment_of(form: Form) -> Option<Lexeme>
    ensures { result ≡ walking.segment_of form }
{
    match form {
        Form::Segment(name) => Some(name),
        _ => None,
    }
}

// Where a path comes to whose first name means this.
fn behind<'a, S: Surround<'a>>(around: &S, meaning: &Option<Meaning>) -> Option<Held<'a>>
    ensures { option_map (S.held around.now) result
        ≡ walking.leads meaning.now
        (exports.behind_meaning (S.around around.now).known meaning.now) }
{
    match meaning {
        Some(meaning) => Some(around.behind(meaning)),
        None => None,
    }
}

// Looks at the use of the first name of a path, and answers where it leads.
fn use_first<'a, S: Surround<'a>>(
    text: &ModuleText<'a>,
    around: &S,
    context: &Context<'a>,
    at: Lexeme,
    findings: &mut List<Finding>,
) -> Result<Option<Held<'a>>, Memory>
    requires { LiesIn text.now.source at }
    ensures held { IfOk result (λ held. option_map (S.held around.now) held
        ≡ walking.leads
        (contexts.meaning_of (context_of context.now) (entities.name_of text.now.source at))
        (exports.behind_meaning (S.around around.now).known
        (contexts.meaning_of (context_of context.now) (entities.name_of text.now.source at)))) }
    ensures findings { OnOk result (findings.new
        ≡ findings.old
        ++ scopes.use_findings at
        (contexts.meaning_of (context_of context.now) (entities.name_of text.now.source at))) }
{
    let meaning = meaning_of(context, text.name_of(at))?;
    let held = behind(around, &meaning);
    push_use(findings, at, meaning)?;
    Ok(held)
}

// The same callee, which is called through the path of a number.
fn through(callee: Callee, number: u32) -> Callee
    ensures { result ≡ record callee { instance = number } }
{
    let mut callee = callee;
    callee.instance = number;
    callee
}

// What the last segment of a path calls.
fn last_called(number: u32, meaning: Option<Meaning>) -> Option<Meaning>
    ensures { result ≡ walking.called true number meaning }
{
    match meaning?.into_declared() {
        Some((entity, callee)) => Some(Meaning::Declared {
            entity,
            callee: through(callee, number),
        }),
        None => Some(Meaning::BuiltIn),
    }
}

// What a segment calls, which is the last one of its path or not.
fn called(last: bool, number: u32, meaning: Option<Meaning>) -> Option<Meaning>
    ensures { result ≡ walking.called last number meaning }
{
    if last {
        return last_called(number, meaning);
    }
    meaning
}

// Where a path comes to by a name more, which means this.
fn onward<'a, S: Surround<'a>>(
    text: &ModuleText<'a>,
    around: &S,
    held: Held<'a>,
    at: Lexeme,
    meaning: &Option<Meaning>,
) -> Option<Held<'a>>
    requires { LiesIn text.now.source at }
    ensures { option_map (S.held around.now) result
        ≡ walking.leads meaning.now
        (exports.onward (S.held around.now held.entry) (entities.name_of text.now.source at)) }
{
    match meaning {
        Some(_) => Some(around.onward(held, text.name_of(at))),
        None => None,
    }
}

// Looks at the use of a further name of a path, and answers where it leads.
fn use_further<'a, S: Surround<'a>>(
    text: &ModuleText<'a>,
    around: &S,
    held: Held<'a>,
    number: u32,
    at: Lexeme,
    last: bool,
    findings: &mut List<Finding>,
) -> Result<Option<Held<'a>>, Memory>
    requires { LiesIn text.now.source at }
    ensures held { IfOk result (λ next. option_map (S.held around.now) next
        ≡ walking.leads
        (exports.entry_of (S.held around.now held.entry []) (entities.name_of text.now.source at))
        (exports.onward (S.held around.now held.entry) (entities.name_of text.now.source at))) }
    ensures findings { OnOk result (findings.new
        ≡ findings.old
        ++ scopes.use_findings at
        (walking.called last number
        (exports.entry_of (S.held around.now held.entry [])
        (entities.name_of text.now.source at)))) }
{
    let meaning = around.entry(held, text.name_of(at))?;
    let next = onward(text, around, held, at, &meaning);
    push_use(findings, at, called(last, number, meaning))?;
    Ok(next)
}

/// Looks at the first segment of an identifier. Visits of its arguments are put on top, and below
/// them the other segments, where it leads on. Of an identifier of one segment nothing is asked but
/// what it means.
pub fn begin_path<'a, S: Surround<'a>>(
    text: &ModuleText<'a>,
    around: &S,
    tree: &Tree,
    node: u32,
    context: &Context<'a>,
    findings: &mut List<Finding>,
    tasks: &mut Vec<Task<'a>>,
) -> Result<(), Memory>
    requires there { node < length tree.now }
    requires path { IsPath text.now tree.now (children_from tree.now node 0) }
    ensures { OnOk result
        (AreFound text.now (S.around around.now) (S.held around.now) tree.now
        (children_from tree.now node 0)
        (in_trees.segments text.now (S.around around.now) (context_of context.now)
        (trees_at tree.now (children_from tree.now node 0))) (context_of context.now) findings.old
        findings.new (stack tasks.old.items) (stack tasks.new.items)) }
{
    let segments = tree.children(node);
    let Some(&segment) = segments.first() else {
        return Ok(());
    };
    let Some(name) = segment_of(tree.form(segment)) else {
        return Ok(());
    };
    if segments.len() == 1 {
        use_name(text, context, name, findings)?;
        push_each(tasks, tree.children(segment))?;
        return Ok(());
    }
    let held = use_first(text, around, context, name, findings)?;
    push_path(tasks, node, 1, around.path_number(name.span.start), held)?;
    push_each(tasks, tree.children(segment))?;
    Ok(())
}

/// Looks at a further segment of an identifier, behind what the path has come to.
pub fn go_on<'a, S: Surround<'a>>(
    text: &ModuleText<'a>,
    around: &S,
    tree: &Tree,
    node: u32,
    from: usize,
    number: u32,
    held: Held<'a>,
    findings: &mut List<Finding>,
    tasks: &mut Vec<Task<'a>>,
) -> Result<(), Memory>
    requires there { node < length tree.now }
    requires path { IsPath text.now tree.now (children_from tree.now node from) }
    ensures { OnOk result
        ((context : contexts.Context) → AreFound text.now (S.around around.now) (S.held around.now)
        tree.now (children_from tree.now node from)
        (in_trees.path text.now (S.around around.now) context number (S.held around.now held.entry)
        (trees_at tree.now (children_from tree.now node from))) context findings.old findings.new
        (stack tasks.old.items) (stack tasks.new.items)) }
{
    let segments = tree.children(node);
    let Some(&segment) = segments.get(from) else {
        return Ok(());
    };
    let Some(name) = segment_of(tree.form(segment)) else {
        return Ok(());
    };
    let behind = from + 1;
    let last = behind == segments.len();
    let next = use_further(text, around, held, number, name, last, findings)?;
    push_path(tasks, node, behind, number, next)?;
    push_each(tasks, tree.children(segment))?;
    Ok(())
}
