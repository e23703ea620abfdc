// Instances with their replacements.
ghost use Rattle.std.specs.Prelude.{◌≡◌, ◌∷◌, ◌++◌, ◌+◌, ◌<◌, [], IfOk, OnOk, Some};
ghost use Rattle.std.specs.Prelude.{if◌then◌else◌, drop, length, map, nat_lt, slice_get};
ghost use Rattle.std.specs.List.{AllByRecursion};
ghost use Rattle.std.specs.Option.{option_copied, option_map};
ghost use Rattle.tla_tree.specs.Arena.{AreThere};
ghost use Rattle.tla_model.specs.Entities.{name_of};
ghost use Rattle.tla_model.specs.Lexemes.{LiesIn, spelled};
ghost use Rattle.tla_model.specs.Tables as tables;
ghost use Rattle.module_model.specs.Exports.{entry_of};
ghost use Rattle.tree_kinds.specs.TreeLevels.{declared_level};
ghost use Rattle.declared_names.specs.Nodes.{parts_at};
ghost use Rattle.name_context.specs.AsTables.{meant_by};
ghost use Rattle.tree_names.specs.Parameters.{entry_in};
ghost use Rattle.flattened_trees.specs.Flattened as flattened;
ghost use Rattle.flattened_trees.specs.Questions as questions;
ghost use Rattle.tree_flattener.specs.Making.{left_of, module_of};
ghost use Rattle.tree_flattener.specs.Replacing.{AreStayed, Instantiates, IsFirst, IsRighted};
ghost use Rattle.tree_flattener.specs.Replacing.{Replaces, ReplacesAll, right_in, rights_in};
ghost use Rattle.tree_flattener.specs.Steps.{Asks};
ghost use Rattle.tree_flattener.specs.Worlds.{IsReady, frame_at, implied_of, setting_of, world_of};

use crate::adding::{add_name, add_plain};
use crate::asking::ask;
use crate::defining::frame_len;
use crate::leading::lead_of;
use crate::names::Names;
use crate::state::{Asked, Flattening};
use crate::written::Written;
use kind_table::{Form as NodeForm, Instance, Replacement};
use name_context::Named;
use std::alloc::Global;
use tla_model::{Level, Meaning};
use tla_symbols::{Lexeme, Span};
use tla_tree::{Form, Tree};
use tool_list::Memory;
use tree_names::Parameter;
use tree_rules::{declared_level, greatest_level, operator_places};

/// A right side that is written for a name, with its node.
#[derive(Clone, Copy)]
pub struct Right<'a> {
    pub name: Named<'a>,
    pub node: usize,
    pub at: Span,
}

// Whether both are one identifier, or one symbol.
fn same_named(a: Named<'_>, b: Named<'_>) -> bool
    ensures { result ≡ tables.same_named (meant_by a.entry) (meant_by b.entry) }
{
    match a {
        Named::Word(a) => match b {
            Named::Word(b) => a == b,
            Named::Symbol(_) => false,
        },
        Named::Symbol(a) => match b {
            Named::Word(_) => false,
            Named::Symbol(b) => a == b,
        },
    }
}

// The first right side that is written for a name.
fn right_for<'a>(rights: &[Right<'a>], name: Named<'_>) -> Option<Right<'a>>
    ensures { option_map right_in result
        ≡ flattened.right_for (rights_in rights.now) (meant_by name.entry) }
{
    for right in rights {
        if same_named(name, right.name) {
            return Some(*right);
        }
    }
    None
}

/// Adds the symbols that stay in an instance, so many of them from the first place on.
pub fn stay(
    alloc: Global,
    state: &mut Flattening,
    count: usize,
    made: &mut Vec<Replacement>,
) -> Result<(), Memory>
    ensures { OnOk result (AreStayed state.old state.new count made.old.items made.new.items) }
{
    for place in 0..count {
        let root = add_plain(state, NodeForm::Parameter(place), Vec::new(alloc))?;
        made.push(Replacement { root, most: None })?;
    }
    Ok(())
}

// Replaces a symbol by a node, and asks whether that is of a level that it may have.
fn replace_by(
    state: &mut Flattening,
    frame: usize,
    at: Span,
    root: usize,
    most: u8,
    made: &mut Vec<Replacement>,
) -> Result<(), Memory>
    ensures asks { OnOk result (Asks state.old state.new frame
        (questions.IsAtMost at root most ∷ [])) }
    ensures made { OnOk result (made.new.items
        ≡ made.old.items ++ record { root = root; most = Some most } ∷ []) }
{
    let what = Asked::IsAtMost {
        at,
        node: root,
        most,
    };
    ask(&mut state.asked, frame, what)?;
    made.push(Replacement {
        root,
        most: Some(most),
    })?;
    Ok(())
}

// The place behind one among so many.
fn behind_one(next: usize, count: usize) -> usize
    ensures { result ≡ (if nat_lt next count then next + 1 else next) }
{
    if next < count { next + 1 } else { next }
}

// The symbol at a place.
fn symbol_at(symbols: &[Meaning], next: usize) -> Option<&Meaning>
    ensures { option_copied result ≡ slice_get symbols.now next }
{
    match symbols.get(next) {
        Some(symbol) => Some(symbol),
        None => None,
    }
}

// Replaces a parameter: by the first right side that is written for its name, or else by the next
// of the symbols that stand in. Answers which symbol is the next one then.
fn replace_one<N: Names>(
    alloc: Global,
    names: &N,
    written: &Written<'_>,
    state: &mut Flattening,
    frame: usize,
    module: Lexeme,
    constant: bool,
    rights: &[Right<'_>],
    parameter: &Parameter,
    next: usize,
    made: &mut Vec<Replacement>,
) -> Result<usize, Memory>
    requires ready { IsReady (world_of (N.leads names.now) (N.faces names.now) written.now)
        state.old frame [] }
    requires rights { AllByRecursion (λ right. right.node < length state.old.flat.nodes)
        rights.now }
    ensures { IfOk result (λ left. Replaces (setting_of (world_of (N.leads names.now) (N.faces
        names.now) written.now) state.old frame []) constant (rights_in rights.now) «module»
        state.old state.new (entry_in parameter.now) (drop next (implied_of written.now
        «module».span.start)) (drop left (implied_of written.now «module».span.start))
        made.old.items made.new.items) }
{
    let most = greatest_level(constant, &parameter.meaning);
    match right_for(rights, parameter.name.named()) {
        Some(right) => {
            replace_by(state, frame, right.at, right.node, most, made)?;
            Ok(next)
        }
        None => {
            let symbols = written.implied(module.span.start);
            let places = operator_places(Some(&parameter.meaning));
            let symbol = symbol_at(symbols, next);
            let lead = lead_of(alloc, names, written, &state.locals, symbol, &[])?;
            let root = add_name(alloc, state, places, lead, Vec::new(alloc))?;
            replace_by(state, frame, module.span, root, most, made)?;
            Ok(behind_one(next, symbols.len()))
        }
    }
}

// Replaces all parameters of a module.
fn replace_all<N: Names>(
    alloc: Global,
    names: &N,
    written: &Written<'_>,
    state: &mut Flattening,
    frame: usize,
    module: Lexeme,
    rights: &[Right<'_>],
    made: &mut Vec<Replacement>,
) -> Result<(), Memory>
    requires ready { IsReady (world_of (N.leads names.now) (N.faces names.now) written.now)
        state.old frame [] }
    requires rights { AllByRecursion (λ right. right.node < length state.old.flat.nodes)
        rights.now }
    requires lies { LiesIn written.now.text.now.source «module» }
    ensures { OnOk result (ReplacesAll (setting_of (world_of (N.leads names.now) (N.faces
        names.now) written.now) state.old frame []) (N.faces names.now (spelled
        written.now.text.now.source «module»)).is_constant (rights_in rights.now) «module»
        state.old state.new (N.faces names.now (spelled written.now.text.now.source
        «module»)).parameters (implied_of written.now «module».span.start) made.old.items
        made.new.items) }
{
    let name = written.text.spelled(module);
    let constant = names.is_constant(name);
    let parameters = names.parameters(alloc, name)?;
    let items = parameters.as_slice();
    let mut next = 0;
    for parameter in items {
        next = replace_one(
            alloc, names, written, state, frame, module, constant, rights, parameter, next, made,
        )?;
    }
    Ok(())
}

/// Makes an instance of a module over a frame, with so many parameters and all places of another
/// frame round it, by the right sides that are written.
pub fn instantiate<N: Names>(
    alloc: Global,
    names: &N,
    written: &Written<'_>,
    state: &mut Flattening,
    frame: usize,
    outside: usize,
    count: usize,
    guards: bool,
    module: Lexeme,
    rights: &[Right<'_>],
) -> Result<usize, Memory>
    requires ready { IsReady (world_of (N.leads names.now) (N.faces names.now) written.now)
        state.old frame [] }
    requires outside { outside < length state.old.frames.items }
    requires rights { AllByRecursion (λ right. right.node < length state.old.flat.nodes)
        rights.now }
    requires lies { LiesIn written.now.text.now.source «module» }
    ensures { IfOk result (λ j. Instantiates (world_of (N.leads names.now) (N.faces names.now)
        written.now) (setting_of (world_of (N.leads names.now) (N.faces names.now) written.now)
        state.old frame []) (length (frame_at state.old.frames.items outside)) count guards
        «module» (rights_in rights.now) state.old state.new j) }
{
    let outer = frame_len(state, outside);
    let mut made = Vec::new(alloc);
    stay(
        alloc,
        state,
        names.outer(written.text.spelled(module)),
        &mut made,
    )?;
    replace_all(
        alloc, names, written, state, frame, module, rights, &mut made,
    )?;
    let j = state.flat.instantiate(Instance {
        outer,
        parameters: count,
        guards,
        replacements: made,
    })?;
    Ok(j)
}

// The level of the parameter of a name, by its declaration.
fn level_among(parameters: &[Parameter], name: Named<'_>) -> Level
    ensures { result ≡ declared_level (entry_of (map entry_in parameters.now)
        (meant_by name.entry)) }
{
    for parameter in parameters {
        if same_named(name, parameter.name.named()) {
            return declared_level(Some(&parameter.meaning));
        }
    }
    Level::Constant
}

/// Asks for the left side of a replacement, by the parameters of the module.
pub(crate) fn ask_left(
    written: &Written<'_>,
    state: &mut Flattening,
    frame: usize,
    parameters: &[Parameter],
    left: Lexeme,
) -> Result<(), Memory>
    requires { LiesIn written.now.text.now.source left }
    ensures { OnOk result (Asks state.old state.new frame (questions.UseAs left
        (declared_level (entry_of (map entry_in parameters.now)
        (name_of written.now.text.now.source left))) ∷ [])) }
{
    let level = level_among(parameters, written.text.name_of(left));
    ask(&mut state.asked, frame, Asked::UseAs { name: left, level })?;
    Ok(())
}

/// Appends the right side of a replacement, by the nodes of its parts.
pub(crate) fn push_right<'a>(
    rights: &mut Vec<Right<'a>>,
    written: &Written<'a>,
    left: Lexeme,
    node: u32,
    is: &[usize],
) -> Result<(), Memory>
    requires node { node < length written.now.tree.now }
    requires left { LiesIn written.now.text.now.source left }
    ensures { OnOk result (IsRighted rights.old.items rights.new.items
        (flattened.right_of (name_of written.now.text.now.source left)
        (parts_at written.now.tree.now node) is.now)) }
{
    let children = written.tree.children(node);
    match children {
        [] => Ok(()),
        [first, ..] => match is {
            [] => Ok(()),
            [i, ..] => {
                rights.push(Right {
                    name: written.text.name_of(left),
                    node: *i,
                    at: written.tree.span(*first),
                })?;
                Ok(())
            }
        },
    }
}

// The left side of a replacement.
pub(crate) fn left_of(form: Form) -> Option<Lexeme>
    ensures { result ≡ left_of form }
{
    match form {
        Form::Replacement(left) => Some(left),
        _ => None,
    }
}

// The name of the module of an INSTANCE.
fn module_of(form: Form) -> Option<Lexeme>
    ensures { result ≡ module_of form }
{
    match form {
        Form::Instance(name) => Some(name),
        _ => None,
    }
}

/// An INSTANCE, by its node and the name of its module.
#[derive(Clone, Copy)]
pub(crate) struct Placed {
    pub node: u32,
    pub module: Lexeme,
}

/// The first INSTANCE among these nodes.
pub(crate) fn first_instance(tree: &Tree, nodes: &[u32]) -> Option<Placed>
    requires { AreThere tree.now nodes.now }
    ensures { IsFirst tree.now nodes.now result }
{
    for node in nodes {
        if let Some(module) = module_of(tree.form(*node)) {
            return Some(Placed {
                node: *node,
                module,
            });
        }
    }
    None
}
