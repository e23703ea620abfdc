// Nodes of trees.
ghost use Rattle.std.specs.Prelude.{◌≡◌, ◌<◌, [], Some, IfOk, OnOk, length, map};
ghost use Rattle.tla_tree.specs.Arena.{node_at, tree_at};
ghost use Rattle.tla_model.specs.Entities as entities;
ghost use Rattle.tla_model.specs.Lexemes.{LiesIn, spelled};
ghost use Rattle.declared_names.specs.Nodes.{IsWhole, form_at, parts_at};
ghost use Rattle.tree_names.specs.Parameters.{entry_in};
ghost use Rattle.tree_flattener.specs.declared.shapes.Shape.TheVariants as shape;
ghost use Rattle.tree_flattener.specs.Flattens.{Flattens, IsMadeDefinition, Links, Reads, ReadsAll};
ghost use Rattle.tree_flattener.specs.Flattens.{operands_of, updates_of};
ghost use Rattle.tree_flattener.specs.Making.{shape_of};
ghost use Rattle.tree_flattener.specs.Replacing.{IsFirst};
ghost use Rattle.tree_flattener.specs.Righting.{Rights, RightsAll};
ghost use Rattle.tree_flattener.specs.Worlds.{IsNode, IsReady, setting_of, world_of};

use crate::adding::{add_let, add_operation, with_first};
use crate::asking::{ask_definition, ask_instance, ask_node, give_number};
use crate::defining::{define, put_body, root_of};
use crate::forms::add_form;
use crate::instances::{Placed, Right, ask_left, first_instance, instantiate, left_of, push_right};
use crate::locals::Local;
use crate::names::Names;
use crate::paths::rest;
use crate::rules::{Taken, is_taken, is_whole};
use crate::scopes::{enter, leave, put_name};
use crate::shapes::{Definition, Shape, definition_of, form_of, shape_of};
use crate::state::Flattening;
use crate::written::Written;
use std::alloc::Global;
use tla_symbols::{Lexeme, Rule};
use tla_tree::helps;
use tool_list::Memory;
use tree_names::Parameter;

/// Makes the node of an expression, and answers its number.
#[cycle(flatten)]
pub fn flatten<N: Names>(
    alloc: Global,
    names: &N,
    written: &Written<'_>,
    state: &mut Flattening,
    frame: usize,
    olds: &[usize],
    node: u32,
) -> Result<usize, Memory>
    requires node { IsNode (world_of (N.leads names.now) (N.faces names.now) written.now) node }
    requires ready { IsReady (world_of (N.leads names.now) (N.faces names.now) written.now)
        state.old frame olds.now }
    ensures { IfOk result (λ i. Flattens (world_of (N.leads names.now) (N.faces names.now)
        written.now) state.old state.new frame olds.now (tree_at written.now.tree.now node) i) }
{
    let form = form_of(written.tree, node);
    match shape_of(form, written.tree.children(node)) {
        Shape::Let => {
            let i = chain(alloc, names, written, state, frame, olds, node)?;
            Ok(i)
        }
        Shape::Except(function) => {
            let i = except(alloc, names, written, state, frame, olds, node, function)?;
            Ok(i)
        }
        Shape::Plain => {
            let i = plain(alloc, names, written, state, frame, olds, node)?;
            Ok(i)
        }
    }
}

/// Makes the node of an expression that is no LET, and no EXCEPT with a function.
#[cycle(flatten)]
fn plain<N: Names>(
    alloc: Global,
    names: &N,
    written: &Written<'_>,
    state: &mut Flattening,
    frame: usize,
    olds: &[usize],
    node: u32,
) -> Result<usize, Memory>
    requires node { IsNode (world_of (N.leads names.now) (N.faces names.now) written.now) node }
    requires ready { IsReady (world_of (N.leads names.now) (N.faces names.now) written.now)
        state.old frame olds.now }
    requires whole { IsWhole written.now.tree.now node }
    requires shape { shape_of (form_at written.now.tree.now node)
        (node_at written.now.tree.now node).children ≡ shape.Plain }
    ensures { IfOk result (λ i. Flattens (world_of (N.leads names.now) (N.faces names.now)
        written.now) state.old state.new frame olds.now (tree_at written.now.tree.now node) i) }
{
    let from = state.asked.len();
    ask_node(state, frame, written.tree, node)?;
    let to = state.asked.len();
    let mut is = Vec::new(alloc);
    operands(
        alloc,
        names,
        written,
        state,
        frame,
        olds,
        node,
        Taken::All,
        &mut is,
    )?;
    let i = add_form(alloc, names, written, state, olds, node, is)?;
    give_number(state, from, to, i);
    Ok(i)
}

/// Appends the nodes of the expressions that some parts of a node are made of.
#[cycle(flatten)]
fn operands<N: Names>(
    alloc: Global,
    names: &N,
    written: &Written<'_>,
    state: &mut Flattening,
    frame: usize,
    olds: &[usize],
    node: u32,
    which: Taken,
    is: &mut Vec<usize>,
) -> Result<(), Memory>
    requires node { IsNode (world_of (N.leads names.now) (N.faces names.now) written.now) node }
    requires ready { IsReady (world_of (N.leads names.now) (N.faces names.now) written.now)
        state.old frame olds.now }
    ensures { OnOk result (ReadsAll (operands_of (world_of (N.leads names.now) (N.faces names.now)
        written.now) (setting_of (world_of (N.leads names.now) (N.faces names.now) written.now)
        state.old frame olds.now) which) state.old state.new (parts_at written.now.tree.now node)
        is.old.items is.new.items) }
{
    let children = written.tree.children(node);
    for child in children {
        operand(alloc, names, written, state, frame, olds, *child, which, is)?;
    }
    Ok(())
}

/// Appends the nodes of the expressions that a part is made of, where it is looked at.
#[cycle(flatten)]
fn operand<N: Names>(
    alloc: Global,
    names: &N,
    written: &Written<'_>,
    state: &mut Flattening,
    frame: usize,
    olds: &[usize],
    child: u32,
    which: Taken,
    is: &mut Vec<usize>,
) -> Result<(), Memory>
    requires node { IsNode (world_of (N.leads names.now) (N.faces names.now) written.now) child }
    requires ready { IsReady (world_of (N.leads names.now) (N.faces names.now) written.now)
        state.old frame olds.now }
    ensures { OnOk result (Reads (operands_of (world_of (N.leads names.now) (N.faces names.now)
        written.now) (setting_of (world_of (N.leads names.now) (N.faces names.now) written.now)
        state.old frame olds.now) which) state.old state.new (tree_at written.now.tree.now child)
        is.old.items is.new.items) }
{
    let form = form_of(written.tree, child);
    if !is_taken(which, form) {
        return Ok(());
    }
    if !is_whole(form) {
        operands(
            alloc,
            names,
            written,
            state,
            frame,
            olds,
            child,
            Taken::All,
            is,
        )?;
        return Ok(());
    }
    let i = flatten(alloc, names, written, state, frame, olds, child)?;
    is.push(i)?;
    Ok(())
}

/// Makes the node of an EXCEPT.
#[cycle(flatten)]
fn except<N: Names>(
    alloc: Global,
    names: &N,
    written: &Written<'_>,
    state: &mut Flattening,
    frame: usize,
    olds: &[usize],
    node: u32,
    function: u32,
) -> Result<usize, Memory>
    requires node { IsNode (world_of (N.leads names.now) (N.faces names.now) written.now) node }
    requires ready { IsReady (world_of (N.leads names.now) (N.faces names.now) written.now)
        state.old frame olds.now }
    requires whole { IsWhole written.now.tree.now node }
    requires shape { shape_of (form_at written.now.tree.now node)
        (node_at written.now.tree.now node).children ≡ shape.Except function }
    ensures { IfOk result (λ i. Flattens (world_of (N.leads names.now) (N.faces names.now)
        written.now) state.old state.new frame olds.now (tree_at written.now.tree.now node) i) }
{
    let children = written.tree.children(node);
    let from = state.asked.len();
    ask_node(state, frame, written.tree, node)?;
    let to = state.asked.len();
    let f = flatten(alloc, names, written, state, frame, olds, function)?;
    let mut is = Vec::new(alloc);
    is.push(f)?;
    let updates = rest(children);
    for update in updates {
        change(
            alloc, names, written, state, frame, olds, *update, f, &mut is,
        )?;
    }
    let i = add_operation(state, Rule::Plain, is)?;
    give_number(state, from, to, i);
    Ok(i)
}

/// Appends the nodes of an update: those of its indices, and then of its right side.
#[cycle(flatten)]
fn change<N: Names>(
    alloc: Global,
    names: &N,
    written: &Written<'_>,
    state: &mut Flattening,
    frame: usize,
    olds: &[usize],
    update: u32,
    f: usize,
    is: &mut Vec<usize>,
) -> Result<(), Memory>
    requires node { IsNode (world_of (N.leads names.now) (N.faces names.now) written.now) update }
    requires ready { IsReady (world_of (N.leads names.now) (N.faces names.now) written.now)
        state.old frame olds.now }
    requires f { f < length state.old.flat.nodes }
    ensures { OnOk result (Reads (updates_of (world_of (N.leads names.now) (N.faces names.now)
        written.now) (setting_of (world_of (N.leads names.now) (N.faces names.now) written.now)
        state.old frame olds.now) f) state.old state.new (tree_at written.now.tree.now update)
        is.old.items is.new.items) }
{
    let _form = form_of(written.tree, update);
    let mut indices = Vec::new(alloc);
    operands(
        alloc,
        names,
        written,
        state,
        frame,
        olds,
        update,
        Taken::Outside,
        &mut indices,
    )?;
    let repeated = with_first(alloc, f, &indices)?;
    is.extend_from_slice(indices.as_slice())?;
    operands(
        alloc,
        names,
        written,
        state,
        frame,
        &repeated,
        update,
        Taken::Inside,
        is,
    )?;
    Ok(())
}

/// Makes the node of a LET.
#[cycle(flatten)]
fn chain<N: Names>(
    alloc: Global,
    names: &N,
    written: &Written<'_>,
    state: &mut Flattening,
    frame: usize,
    olds: &[usize],
    node: u32,
) -> Result<usize, Memory>
    requires node { IsNode (world_of (N.leads names.now) (N.faces names.now) written.now) node }
    requires ready { IsReady (world_of (N.leads names.now) (N.faces names.now) written.now)
        state.old frame olds.now }
    requires whole { IsWhole written.now.tree.now node }
    requires shape { shape_of (form_at written.now.tree.now node)
        (node_at written.now.tree.now node).children ≡ shape.Let }
    ensures { IfOk result (λ i. Flattens (world_of (N.leads names.now) (N.faces names.now)
        written.now) state.old state.new frame olds.now (tree_at written.now.tree.now node) i) }
{
    let mark = state.locals.len();
    let mut body = None;
    let mut roots = Vec::new(alloc);
    let children = written.tree.children(node);
    for child in children {
        link(
            alloc, names, written, state, frame, olds, *child, &mut body, &mut roots,
        )?;
    }
    leave(state, mark);
    let i = add_let(alloc, state, body, roots)?;
    Ok(i)
}

/// Makes a definition of a LET, or its body.
#[cycle(flatten)]
fn link<N: Names>(
    alloc: Global,
    names: &N,
    written: &Written<'_>,
    state: &mut Flattening,
    frame: usize,
    olds: &[usize],
    child: u32,
    body: &mut Option<usize>,
    roots: &mut Vec<usize>,
) -> Result<(), Memory>
    requires node { IsNode (world_of (N.leads names.now) (N.faces names.now) written.now) child }
    requires ready { IsReady (world_of (N.leads names.now) (N.faces names.now) written.now)
        state.old frame olds.now }
    ensures { OnOk result (Links (world_of (N.leads names.now) (N.faces names.now) written.now)
        state.old state.new frame olds.now (tree_at written.now.tree.now child) body.old body.new
        roots.old.items roots.new.items) }
{
    if helps(form_of(written.tree, child)) {
        definition(alloc, names, written, state, frame, olds, child, roots)?;
        return Ok(());
    }
    let i = flatten(alloc, names, written, state, frame, olds, child)?;
    put_body(body, i);
    Ok(())
}

/// Makes what a form defines, and puts its name into scope.
#[cycle(flatten)]
pub fn definition<N: Names>(
    alloc: Global,
    names: &N,
    written: &Written<'_>,
    state: &mut Flattening,
    frame: usize,
    olds: &[usize],
    node: u32,
    roots: &mut Vec<usize>,
) -> Result<(), Memory>
    requires node { IsNode (world_of (N.leads names.now) (N.faces names.now) written.now) node }
    requires ready { IsReady (world_of (N.leads names.now) (N.faces names.now) written.now)
        state.old frame olds.now }
    ensures { OnOk result (IsMadeDefinition (world_of (N.leads names.now) (N.faces names.now)
        written.now) state.old state.new frame olds.now (tree_at written.now.tree.now node)
        roots.old.items roots.new.items) }
{
    match definition_of(form_of(written.tree, node)) {
        Definition::Nothing => Ok(()),
        Definition::Operator(name) => {
            operator(alloc, names, written, state, frame, olds, node, name, roots)?;
            Ok(())
        }
        Definition::Function(name) => {
            function(alloc, names, written, state, frame, olds, node, name, roots)?;
            Ok(())
        }
        Definition::Module(name) => {
            module_definition(alloc, names, written, state, frame, olds, node, name, roots)?;
            Ok(())
        }
    }
}

/// Makes the definition of an operator.
#[cycle(flatten)]
fn operator<N: Names>(
    alloc: Global,
    names: &N,
    written: &Written<'_>,
    state: &mut Flattening,
    frame: usize,
    olds: &[usize],
    node: u32,
    name: Lexeme,
    roots: &mut Vec<usize>,
) -> Result<(), Memory>
    requires node { IsNode (world_of (N.leads names.now) (N.faces names.now) written.now) node }
    requires ready { IsReady (world_of (N.leads names.now) (N.faces names.now) written.now)
        state.old frame olds.now }
    requires whole { IsWhole written.now.tree.now node }
    requires defines { entities.defines (form_at written.now.tree.now node) ≡ entities.Operator
        name }
    ensures { OnOk result (IsMadeDefinition (world_of (N.leads names.now) (N.faces names.now)
        written.now) state.old state.new frame olds.now (tree_at written.now.tree.now node)
        roots.old.items roots.new.items) }
{
    let from = state.asked.len();
    ask_definition(state, frame, name)?;
    let to = state.asked.len();
    let mark = state.locals.len();
    let entered = enter(alloc, written, state, frame, node)?;
    let mut is = Vec::new(alloc);
    operands(
        alloc,
        names,
        written,
        state,
        entered.frame,
        olds,
        node,
        Taken::All,
        &mut is,
    )?;
    leave(state, mark);
    let root = root_of(alloc, state, is.as_slice())?;
    roots.push(root)?;
    let d = define(state, frame, root)?;
    put_name(written, state, name, Local::Definition(d))?;
    give_number(state, from, to, d);
    Ok(())
}

/// Makes the definition of a function.
#[cycle(flatten)]
fn function<N: Names>(
    alloc: Global,
    names: &N,
    written: &Written<'_>,
    state: &mut Flattening,
    frame: usize,
    olds: &[usize],
    node: u32,
    name: Lexeme,
    roots: &mut Vec<usize>,
) -> Result<(), Memory>
    requires node { IsNode (world_of (N.leads names.now) (N.faces names.now) written.now) node }
    requires ready { IsReady (world_of (N.leads names.now) (N.faces names.now) written.now)
        state.old frame olds.now }
    requires whole { IsWhole written.now.tree.now node }
    requires defines { entities.defines (form_at written.now.tree.now node) ≡ entities.Function
        name }
    ensures { OnOk result (IsMadeDefinition (world_of (N.leads names.now) (N.faces names.now)
        written.now) state.old state.new frame olds.now (tree_at written.now.tree.now node)
        roots.old.items roots.new.items) }
{
    let from = state.asked.len();
    ask_definition(state, frame, name)?;
    let middle = state.asked.len();
    ask_node(state, frame, written.tree, node)?;
    let to = state.asked.len();
    let mut is = Vec::new(alloc);
    operands(
        alloc,
        names,
        written,
        state,
        frame,
        olds,
        node,
        Taken::All,
        &mut is,
    )?;
    let root = add_operation(state, Rule::Plain, is)?;
    give_number(state, middle, to, root);
    roots.push(root)?;
    let d = define(state, frame, root)?;
    put_name(written, state, name, Local::Definition(d))?;
    give_number(state, from, middle, d);
    Ok(())
}

/// Makes a module definition: the instance of the first INSTANCE in it.
#[cycle(flatten)]
fn module_definition<N: Names>(
    alloc: Global,
    names: &N,
    written: &Written<'_>,
    state: &mut Flattening,
    frame: usize,
    olds: &[usize],
    node: u32,
    name: Lexeme,
    roots: &mut Vec<usize>,
) -> Result<(), Memory>
    requires node { IsNode (world_of (N.leads names.now) (N.faces names.now) written.now) node }
    requires ready { IsReady (world_of (N.leads names.now) (N.faces names.now) written.now)
        state.old frame olds.now }
    requires whole { IsWhole written.now.tree.now node }
    requires defines { entities.defines (form_at written.now.tree.now node) ≡ entities.Module name }
    ensures { OnOk result (IsMadeDefinition (world_of (N.leads names.now) (N.faces names.now)
        written.now) state.old state.new frame olds.now (tree_at written.now.tree.now node)
        roots.old.items roots.new.items) }
{
    let children = written.tree.children(node);
    match first_instance(written.tree, children) {
        None => {
            put_name(written, state, name, Local::Nothing)?;
            Ok(())
        }
        Some(placed) => {
            instance_definition(
                alloc, names, written, state, frame, olds, node, name, placed, roots,
            )?;
            Ok(())
        }
    }
}

/// Makes the instance of a module definition.
#[cycle(flatten)]
fn instance_definition<N: Names>(
    alloc: Global,
    names: &N,
    written: &Written<'_>,
    state: &mut Flattening,
    frame: usize,
    olds: &[usize],
    node: u32,
    name: Lexeme,
    placed: Placed,
    roots: &mut Vec<usize>,
) -> Result<(), Memory>
    requires node { IsNode (world_of (N.leads names.now) (N.faces names.now) written.now) node }
    requires ready { IsReady (world_of (N.leads names.now) (N.faces names.now) written.now)
        state.old frame olds.now }
    requires whole { IsWhole written.now.tree.now node }
    requires defines { entities.defines (form_at written.now.tree.now node) ≡ entities.Module name }
    requires placed { IsFirst written.now.tree.now (node_at written.now.tree.now node).children
        (Some placed) }
    ensures { OnOk result (IsMadeDefinition (world_of (N.leads names.now) (N.faces names.now)
        written.now) state.old state.new frame olds.now (tree_at written.now.tree.now node)
        roots.old.items roots.new.items) }
{
    let children = written.tree.children(node);
    let _form = form_of(written.tree, placed.node);
    let from = state.asked.len();
    ask_instance(state, frame, name)?;
    let to = state.asked.len();
    let mark = state.locals.len();
    let entered = enter(alloc, written, state, frame, node)?;
    let mut found = Vec::new(alloc);
    right_sides(
        alloc,
        names,
        written,
        state,
        entered.frame,
        olds,
        placed.node,
        placed.module,
        &mut found,
        roots,
    )?;
    let j = instantiate(
        alloc,
        names,
        written,
        state,
        entered.frame,
        frame,
        entered.count,
        true,
        placed.module,
        &found,
    )?;
    leave(state, mark);
    let local = Local::Instance {
        number: j,
        module: placed.module,
    };
    put_name(written, state, name, local)?;
    give_number(state, from, to, j);
    Ok(())
}

/// Appends the right sides of the replacements of an INSTANCE, with their nodes.
#[cycle(flatten)]
pub fn right_sides<'a, N: Names>(
    alloc: Global,
    names: &N,
    written: &Written<'a>,
    state: &mut Flattening,
    frame: usize,
    olds: &[usize],
    node: u32,
    module: Lexeme,
    found: &mut Vec<Right<'a>>,
    roots: &mut Vec<usize>,
) -> Result<(), Memory>
    requires node { IsNode (world_of (N.leads names.now) (N.faces names.now) written.now) node }
    requires ready { IsReady (world_of (N.leads names.now) (N.faces names.now) written.now)
        state.old frame olds.now }
    requires lies { LiesIn written.now.text.now.source «module» }
    requires none { found.old.items ≡ [] }
    ensures { OnOk result (RightsAll (world_of (N.leads names.now) (N.faces names.now)
        written.now) state.old state.new frame olds.now «module» (parts_at written.now.tree.now
        node) found.new.items roots.old.items roots.new.items) }
{
    let parameters = names.parameters(alloc, written.text.spelled(module))?;
    let items = parameters.as_slice();
    let children = written.tree.children(node);
    for child in children {
        right_side(
            alloc, names, written, state, frame, olds, *child, module, items, found, roots,
        )?;
    }
    Ok(())
}

/// Appends the right side of a replacement, with its node.
#[cycle(flatten)]
fn right_side<'a, N: Names>(
    alloc: Global,
    names: &N,
    written: &Written<'a>,
    state: &mut Flattening,
    frame: usize,
    olds: &[usize],
    child: u32,
    module: Lexeme,
    parameters: &[Parameter],
    found: &mut Vec<Right<'a>>,
    roots: &mut Vec<usize>,
) -> Result<(), Memory>
    requires node { IsNode (world_of (N.leads names.now) (N.faces names.now) written.now) child }
    requires ready { IsReady (world_of (N.leads names.now) (N.faces names.now) written.now)
        state.old frame olds.now }
    requires parameters { map entry_in parameters.now ≡ (N.faces names.now
        (spelled written.now.text.now.source «module»)).parameters }
    ensures { OnOk result (Rights (world_of (N.leads names.now) (N.faces names.now) written.now)
        state.old state.new frame olds.now «module» (tree_at written.now.tree.now child)
        found.old.items found.new.items roots.old.items roots.new.items) }
{
    let form = form_of(written.tree, child);
    match left_of(form) {
        None => Ok(()),
        Some(left) => {
            ask_left(written, state, frame, parameters, left)?;
            let mut is = Vec::new(alloc);
            operands(
                alloc,
                names,
                written,
                state,
                frame,
                olds,
                child,
                Taken::All,
                &mut is,
            )?;
            push_right(found, written, left, child, is.as_slice())?;
            roots.extend_from_slice(is.as_slice())?;
            Ok(())
        }
    }
}
