// Definitions whose names are kept elsewhere, claims, and frames.
ghost use Rattle.std.specs.Prelude.{◌≡◌, ◌∷◌, IfOk, OnOk, Some, [], slice_get};
ghost use Rattle.std.specs.Option.{option_map};
ghost use Rattle.tla_tree.specs.Arena.{tree_at};
ghost use Rattle.tree_kinds.specs.Standing.{operator_places};
ghost use Rattle.flattened_trees.specs.NodeForms.{name_node};
ghost use Rattle.flattened_trees.specs.Questions as questions;
ghost use Rattle.tree_flattener.specs.Apart.{IsMadeApart, IsMadeClaim};
ghost use Rattle.tree_flattener.specs.Steps.{Adds, AddsFrame, Asks};
ghost use Rattle.tree_flattener.specs.Worlds.{IsKnown, IsNode, IsReady, with_locals, world_of};

use crate::adding::add_name;
use crate::asking::{ask, give_number};
use crate::flattening::{definition, flatten};
use crate::leading::lead_of;
use crate::locals::{Entry, Local};
use crate::names::Names;
use crate::scopes::leave;
use crate::state::{Asked, Flattening};
use crate::written::Written;
use std::alloc::Global;
use tla_model::Meaning;
use tla_symbols::{Lexeme, Span};
use tool_list::{List, Memory};
use tree_rules::operator_places;

// Where the name behind a mark leads, if there is one.
fn behind_mark(locals: &[Entry], mark: usize) -> Option<Local>
    ensures { result ≡ option_map (λ entry. entry.local) (slice_get locals.now mark) }
{
    match locals.get(mark) {
        Some(entry) => Some(entry.local),
        None => None,
    }
}

/// Makes what a form defines, and answers where its name leads, which is not in scope then; none
/// where it defines nothing.
pub fn definition_apart<N: Names>(
    alloc: Global,
    names: &N,
    written: &Written<'_>,
    state: &mut Flattening,
    frame: usize,
    olds: &[usize],
    node: u32,
    roots: &mut Vec<usize>,
) -> Result<Option<Local>, Memory>
    requires node { IsNode (world_of (N.leads names.now) (N.faces names.now) written.now) node }
    requires ready { IsReady (world_of (N.leads names.now) (N.faces names.now) written.now)
        state.old frame olds.now }
    ensures { IfOk result (λ local. IsMadeApart (world_of (N.leads names.now) (N.faces names.now)
        written.now) state.old state.new frame olds.now (tree_at written.now.tree.now node) local
        roots.old.items roots.new.items) }
{
    let mark = state.locals.len();
    definition(alloc, names, written, state, frame, olds, node, roots)?;
    let local = behind_mark(&state.locals, mark);
    leave(state, mark);
    Ok(local)
}

// Asks whether a claim is not too deep, whose node has no number yet.
fn ask_claim(state: &mut Flattening, frame: usize, word: Lexeme) -> Result<(), Memory>
    ensures { OnOk result (Asks state.old state.new frame (questions.IsShallowNode word 0 ∷ [])) }
{
    let what = Asked::IsShallowNode { word, node: 0 };
    ask(&mut state.asked, frame, what)?;
    Ok(())
}

/// Makes the node of an assumption or a theorem, and asks by its first word whether it is not too
/// deep. Answers its number.
pub fn claim<N: Names>(
    alloc: Global,
    names: &N,
    written: &Written<'_>,
    state: &mut Flattening,
    frame: usize,
    olds: &[usize],
    word: Lexeme,
    node: u32,
) -> Result<usize, Memory>
    requires node { IsNode (world_of (N.leads names.now) (N.faces names.now) written.now) node }
    requires ready { IsReady (world_of (N.leads names.now) (N.faces names.now) written.now)
        state.old frame olds.now }
    ensures { IfOk result (λ i. IsMadeClaim (world_of (N.leads names.now) (N.faces names.now)
        written.now) state.old state.new frame olds.now word (tree_at written.now.tree.now node)
        i) }
{
    let from = state.asked.len();
    ask_claim(state, frame, word)?;
    let to = state.asked.len();
    let i = flatten(alloc, names, written, state, frame, olds, node)?;
    give_number(state, from, to, i);
    Ok(i)
}

/// Asks whether an assumption is constant, by its node.
pub fn ask_constant(
    state: &mut Flattening,
    frame: usize,
    at: Span,
    node: usize,
) -> Result<(), Memory>
    ensures { OnOk result (Asks state.old state.new frame (questions.IsConstant at node ∷ [])) }
{
    let what = Asked::IsConstant { at, node };
    ask(&mut state.asked, frame, what)?;
    Ok(())
}

/// Adds a frame with these symbols at its places, and answers its number.
pub fn add_frame(state: &mut Flattening, symbols: List<Meaning>) -> Result<usize, Memory>
    ensures { IfOk result (λ frame. AddsFrame state.old state.new symbols frame) }
{
    let frame = state.frames.len();
    state.frames.push(symbols)?;
    Ok(frame)
}

/// Adds the node of a bare name of this meaning, as an operator where it takes arguments.
pub fn add_meaning<N: Names>(
    alloc: Global,
    names: &N,
    written: &Written<'_>,
    state: &mut Flattening,
    meaning: &Meaning,
) -> Result<usize, Memory>
    requires { IsKnown (world_of (N.leads names.now) (N.faces names.now) written.now) state.old }
    ensures { IfOk result (λ i. Adds state.old state.new (name_node
        (operator_places (Some meaning.now)) (with_locals (world_of (N.leads names.now) (N.faces
        names.now) written.now) (N.leads names.now) state.old.locals.items meaning.now []) []) i) }
{
    let places = operator_places(Some(meaning));
    let lead = lead_of(alloc, names, written, &state.locals, Some(meaning), &[])?;
    let i = add_name(alloc, state, places, lead, Vec::new(alloc))?;
    Ok(i)
}
