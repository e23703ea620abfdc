// Paths of names.
ghost use Rattle.std.specs.Prelude.{◌≡◌, ◌++◌, drop, false, IfOk, IfSome, None, OnOk, map};
ghost use Rattle.std.specs.Option.{option_or};
ghost use Rattle.tla_tree.specs.Arena.{AreThere, tree_at};
ghost use Rattle.tla_tree.specs.Syntax.{trees};
ghost use Rattle.tla_model.specs.Lexemes.{LiesIn};
ghost use Rattle.tree_kinds.specs.Expanding.{is_bare};
ghost use Rattle.tree_kinds.specs.TreeDepths.{path_names};
ghost use Rattle.flattened_trees.specs.NodeForms.{last_segment};
ghost use Rattle.name_context.specs.AsTables.{meant_by};
ghost use Rattle.tree_flattener.specs.Making.{names_of, segment_of};
ghost use Rattle.tree_flattener.specs.Worlds.{AreNodes};

use name_context::Named;
use std::alloc::Global;
use tla_symbols::Lexeme;
use tla_tree::{Form, Tree};
use tool_list::Memory;
use tree_names::ModuleText;

// The name of a segment.
pub(crate) fn segment_of(form: Form) -> Option<Lexeme>
    ensures { result ≡ segment_of form }
{
    match form {
        Form::Segment(name) => Some(name),
        _ => None,
    }
}

// What follows the first of these.
pub(crate) fn rest(nodes: &[u32]) -> &[u32]
    ensures { result.now ≡ drop 1 nodes.now }
{
    match nodes {
        [] => &[],
        [_, rest @ ..] => rest,
    }
}

// Appends the name of a segment.
fn push_name<'a>(
    names: &mut Vec<Named<'a>>,
    text: &ModuleText<'a>,
    segment: Option<Lexeme>,
) -> Result<(), Memory>
    requires { IfSome segment (LiesIn text.now.source) }
    ensures { OnOk result (map meant_by names.new.items
        ≡ map meant_by names.old.items ++ names_of text.now.source segment) }
{
    let Some(name) = segment else {
        return Ok(());
    };
    names.push(text.name_of(name))?;
    Ok(())
}

// The names of the segments among these nodes.
pub(crate) fn path_names<'a>(
    alloc: Global,
    text: &ModuleText<'a>,
    tree: &Tree,
    nodes: &[u32],
) -> Result<Vec<Named<'a>>, Memory>
    requires { AreNodes text.now.source tree.now nodes.now }
    ensures { IfOk result (λ names. map meant_by names.items
        ≡ path_names text.now.source (trees (map (tree_at tree.now) nodes.now))) }
{
    let mut names = Vec::new(alloc);
    for node in nodes {
        push_name(&mut names, text, segment_of(tree.form(*node)))?;
    }
    Ok(names)
}

// Whether the last of these nodes has no parts.
pub(crate) fn is_bare(tree: &Tree, nodes: &[u32]) -> bool
    requires { AreThere tree.now nodes.now }
    ensures { result ≡ is_bare false (trees (map (tree_at tree.now) nodes.now)) }
{
    let mut bare = false;
    for node in nodes {
        bare = tree.children(*node).is_empty();
    }
    bare
}

// The name of a segment, or the one before it.
fn next_segment(before: Option<Lexeme>, segment: Option<Lexeme>) -> Option<Lexeme>
    ensures { result ≡ option_or segment before }
{
    match segment {
        Some(name) => Some(name),
        None => before,
    }
}

// The name of the last segment among these nodes.
pub(crate) fn last_segment(tree: &Tree, nodes: &[u32]) -> Option<Lexeme>
    requires { AreThere tree.now nodes.now }
    ensures { result ≡ last_segment None (trees (map (tree_at tree.now) nodes.now)) }
{
    let mut last = None;
    for node in nodes {
        last = next_segment(last, segment_of(tree.form(*node)));
    }
    last
}
