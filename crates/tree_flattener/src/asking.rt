// What is asked of the node of a form.
ghost use Rattle.std.specs.Prelude.{◌≡◌, ◌∷◌, ◌++◌, ◌≤◌, ◌<◌, [], OnOk, if◌then◌else◌, length, map};
ghost use Rattle.tla_tree.specs.Arena.{AreThere, node_at, tree_at};
ghost use Rattle.tla_tree.specs.Syntax.{trees};
ghost use Rattle.declared_names.specs.Nodes.{form_at, parts_at};
ghost use Rattle.flattened_trees.specs.Questions as questions;
ghost use Rattle.tree_flattener.specs.Steps.{Asks, Numbers, noted, numbered, question_about};
ghost use Rattle.tree_flattener.specs.Steps as steps;
ghost use Rattle.tla_model.specs.Scopes as scopes;
ghost use Rattle.tree_flattener.specs.Asking.{segment_asks};

use crate::paths::segment_of;
use crate::state::{Asked, Flattening, Question};
use tla_model::Level;
use tla_symbols::{LexKind, Lexeme, Op, Span};
use tla_tree::{Form, Tree};
use tool_list::Memory;
use tree_rules::{is_free, is_judged, prefixed};

// Asks something over a frame.
pub(crate) fn ask(asked: &mut Vec<Question>, frame: usize, what: Asked) -> Result<(), Memory>
    ensures { OnOk result (asked.new.items
        ≡ asked.old.items ++ record { frame = frame; asked = what } ∷ []) }
{
    asked.push(Question { frame, asked: what })?;
    Ok(())
}

// Asks for the name of a segment; for the last one of a path, the level of the node.
fn ask_segment(
    asked: &mut Vec<Question>,
    frame: usize,
    segment: Option<Lexeme>,
    is_last: bool,
) -> Result<(), Memory>
    ensures { OnOk result (asked.new.items
        ≡ asked.old.items ++ noted frame (segment_asks 0 segment is_last)) }
{
    let Some(name) = segment else {
        return Ok(());
    };
    if is_last {
        return ask(asked, frame, Asked::UseOf { name, node: 0 });
    }
    ask(
        asked,
        frame,
        Asked::UseAs {
            name,
            level: Level::Instance,
        },
    )
}

// Asks for the names of a path, the last one with the level of the node.
fn ask_path(
    asked: &mut Vec<Question>,
    frame: usize,
    tree: &Tree,
    segments: &[u32],
) -> Result<(), Memory>
    requires { AreThere tree.now segments.now }
    ensures { OnOk result (asked.new.items ≡ asked.old.items ++ noted frame
        (questions.path_asks 0 (trees (map (tree_at tree.now) segments.now)))) }
{
    for (i, segment) in segments.iter().enumerate() {
        let is_last = i + 1 == segments.len();
        ask_segment(asked, frame, segment_of(tree.form(*segment)), is_last)?;
    }
    Ok(())
}

// Asks for a symbol that modules define.
fn ask_op(asked: &mut Vec<Question>, frame: usize, name: Lexeme, op: Op) -> Result<(), Memory>
    ensures { OnOk result (asked.new.items ≡ asked.old.items ++ noted frame
        (if scopes.is_free op then questions.UseOf name 0 ∷ [] else [])) }
{
    if is_free(op) {
        ask(asked, frame, Asked::UseOf { name, node: 0 })?;
    }
    Ok(())
}

// Asks for the symbol that a lexeme is, as it is spelled.
fn ask_symbol(asked: &mut Vec<Question>, frame: usize, name: Lexeme) -> Result<(), Memory>
    ensures { OnOk result (asked.new.items ≡ asked.old.items ++ noted frame
        (questions.symbol_asks 0 name scopes.itself name.kind)) }
{
    match name.kind {
        LexKind::Sym(op) => ask_op(asked, frame, name, op),
        _ => Ok(()),
    }
}

// The same before an operand.
fn ask_prefix(asked: &mut Vec<Question>, frame: usize, name: Lexeme) -> Result<(), Memory>
    ensures { OnOk result (asked.new.items ≡ asked.old.items ++ noted frame
        (questions.symbol_asks 0 name scopes.prefixed name.kind)) }
{
    match name.kind {
        LexKind::Sym(op) => ask_op(asked, frame, name, prefixed(op)),
        _ => Ok(()),
    }
}

// Asks for the uses that a form is itself.
fn ask_form(asked: &mut Vec<Question>, frame: usize, tree: &Tree, node: u32) -> Result<(), Memory>
    requires { node < length tree.now }
    ensures { OnOk result (asked.new.items ≡ asked.old.items ++ noted frame
        (questions.form_asks 0 (form_at tree.now node) (parts_at tree.now node))) }
{
    match tree.form(node) {
        Form::Identifier => ask_path(asked, frame, tree, tree.children(node)),
        Form::Symbol(name) | Form::Infix(name) | Form::Postfix(name) => {
            ask_symbol(asked, frame, name)
        }
        Form::Prefix(name) => ask_prefix(asked, frame, name),
        _ => Ok(()),
    }
}

// Asks whether a form that is judged has a kind.
fn ask_kind(asked: &mut Vec<Question>, frame: usize, form: Form, at: Span) -> Result<(), Memory>
    ensures { OnOk result (asked.new.items
        ≡ asked.old.items ++ noted frame (questions.kind_asks 0 form at)) }
{
    if is_judged(form) {
        ask(asked, frame, Asked::HasKind { at, node: 0 })?;
    }
    Ok(())
}

// Asks all that is asked of the node of a form itself, which has no number yet.
pub(crate) fn ask_own(
    asked: &mut Vec<Question>,
    frame: usize,
    tree: &Tree,
    node: u32,
) -> Result<(), Memory>
    requires { node < length tree.now }
    ensures { OnOk result (asked.new.items ≡ asked.old.items ++ noted frame
        (questions.asks_at 0 (form_at tree.now node) (node_at tree.now node).span
        (parts_at tree.now node))) }
{
    ask_form(asked, frame, tree, node)?;
    ask_kind(asked, frame, tree.form(node), tree.span(node))
}

// The same question about what has this number.
fn about(what: Asked, number: usize) -> Asked
    ensures { result ≡ steps.about number what }
{
    match what {
        Asked::UseOf { name, .. } => Asked::UseOf { name, node: number },
        Asked::UseAs { name, level } => Asked::UseAs { name, level },
        Asked::HasKind { at, .. } => Asked::HasKind { at, node: number },
        Asked::IsAtMost { at, most, .. } => Asked::IsAtMost {
            at,
            node: number,
            most,
        },
        Asked::IsShallow { name, .. } => Asked::IsShallow {
            name,
            definition: number,
        },
        Asked::IsShallowInstance { name, .. } => Asked::IsShallowInstance {
            name,
            instance: number,
        },
        Asked::IsShallowNode { word, .. } => Asked::IsShallowNode { word, node: number },
        Asked::IsConstant { at, .. } => Asked::IsConstant { at, node: number },
    }
}

// Makes questions be about what has this number.
fn give_all(asked: &mut [Question], number: usize)
    ensures { asked.new ≡ map (question_about number) asked.old }
{
    for question in asked.iter_mut() {
        question.asked = about(question.asked, number);
    }
}

// Makes the questions from one place to another be about what has this number.
pub(crate) fn give(asked: &mut Vec<Question>, from: usize, to: usize, number: usize)
    requires order { from ≤ to }
    requires there { to ≤ length asked.old.items }
    ensures { asked.new.items ≡ numbered from to number asked.old.items }
{
    give_all(&mut asked[from..to], number);
}

/// Asks all that is asked of the node of a form itself, which has no number yet.
pub(crate) fn ask_node(
    state: &mut Flattening,
    frame: usize,
    tree: &Tree,
    node: u32,
) -> Result<(), Memory>
    requires { node < length tree.now }
    ensures { OnOk result (Asks state.old state.new frame
        (questions.asks_at 0 (form_at tree.now node) (node_at tree.now node).span
        (parts_at tree.now node))) }
{
    ask_own(&mut state.asked, frame, tree, node)?;
    Ok(())
}

/// Asks whether a definition is not too deep, which has no number yet.
pub(crate) fn ask_definition(
    state: &mut Flattening,
    frame: usize,
    name: Lexeme,
) -> Result<(), Memory>
    ensures { OnOk result (Asks state.old state.new frame (questions.IsShallow name 0 ∷ [])) }
{
    let what = Asked::IsShallow {
        name,
        definition: 0,
    };
    ask(&mut state.asked, frame, what)?;
    Ok(())
}

/// Asks whether a module definition is not too deep, whose instance has no number yet.
pub(crate) fn ask_instance(state: &mut Flattening, frame: usize, name: Lexeme) -> Result<(), Memory>
    ensures { OnOk result (Asks state.old state.new frame
        (questions.IsShallowInstance name 0 ∷ [])) }
{
    let what = Asked::IsShallowInstance { name, instance: 0 };
    ask(&mut state.asked, frame, what)?;
    Ok(())
}

/// Gives a number to what the questions from one place to another are about.
pub(crate) fn give_number(state: &mut Flattening, from: usize, to: usize, number: usize)
    requires order { from ≤ to }
    requires there { to ≤ length state.old.asked.items }
    ensures { Numbers state.old state.new from to number }
{
    give(&mut state.asked, from, to, number);
}
