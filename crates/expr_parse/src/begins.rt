// What a lexeme does where a part or a lexeme is due.
ghost use Rattle.std.specs.Prelude.{◌≡◌, ◌↔◌, List, [], ◌∷◌, Option, Some, None, IsTrue, ◌<◌, ◌-◌, ◌^◌, IfOk};
ghost use Rattle.tla_symbols.specs.declared.lexeme.Lexeme.{Lexeme};
ghost use Rattle.tla_tree.specs.Arena.{Node};
ghost use Rattle.tla_tree.specs.Syntax as syntax;
ghost use Rattle.expr_grammar.specs.Tables as tables;
ghost use Rattle.expr_grammar.specs.Machine as machine;
ghost use Rattle.expr_grammar.specs.Counting as counting;
ghost use Rattle.expr_grammar.specs.declared.wait.MarkMove.TheVariants as MarkMove;
ghost use Rattle.tree_parts.specs.Parts.{IsPart, span_of};
ghost use Rattle.expr_stack.specs.StackMeaning.{IsOpen, Stands, Opens};
ghost use Rattle.expr_parse.specs.TurnMeaning.{IsDue, IsTurn, Turns};

use crate::parts::have;
use crate::turn::Turn;
use expr_grammar::{MarkMove, Start, Wait};
use expr_kinds::{absorbs, child, mode};
use expr_moves::at_mark;
use expr_stack::{Frame, Opening, Stack};
use expr_starts::{begins, endable};
use tla_symbols::{Lexeme, Span};
use tla_tree::{Form, Tree};
use tool_list::Memory;
use tree_parts::{Part, leaf};

// The bounds of a function may begin as an operand.
fn entry(wait: Wait) -> Wait
    ensures { result ≡ machine.entry wait }
{
    match wait {
        Wait::FunctionNames(actions) => Wait::SquareFirst(actions),
        _ => wait,
    }
}

// The span of the lexeme that a frame hands to its part.
fn handed(wait: Wait) -> Option<Span>
    ensures { (part : tables.Child) → tables.child wait ≡ Some part → result ≡ span_of part.read }
{
    match wait {
        Wait::Handing(_, lexeme) => Some(lexeme.span),
        _ => None,
    }
}

/// The frame goes on, waiting for this. A part with a frame of its own begins at once.
pub(crate) fn goes_on(stack: &mut Stack, wait: Wait, opening: Opening) -> Result<Turn, Memory>
    ensures { IfOk result (λ turn. (nodes : List Node) → (parts : List syntax.Tree)
        → (read : List Lexeme) → (below : List machine.Frame)
        → Opens nodes stack.old opening parts read below
        → IsTurn nodes stack.new turn
        (Some (machine.ready (machine.frame wait parts read ∷ below)))) }
{
    stack.put(entry(wait), opening)?;
    if let Some(part) = child(wait) {
        let opening = stack.opening(handed(wait));
        stack.put(part, opening)?;
    }
    Ok(Turn::Due)
}

// A frame begins with the lexeme.
fn push(stack: &mut Stack, wait: Wait, lexeme: Lexeme) -> Result<Turn, Memory>
    ensures { IfOk result (λ turn. (nodes : List Node) → (frames : List machine.Frame)
        → Stands nodes stack.old frames
        → IsTurn nodes stack.new turn
        (Some (machine.ready (machine.frame wait [] (lexeme ∷ []) ∷ frames)))) }
{
    let opening = stack.opening(Some(lexeme.span));
    let turn = goes_on(stack, wait, opening)?;
    Ok(turn)
}

// A frame begins with the lexeme, and with a part that is made of it.
fn push_part(stack: &mut Stack, wait: Wait, part: Part) -> Result<Turn, Memory>
    ensures { IfOk result (λ turn. (nodes : List Node) → (frames : List machine.Frame)
        → (tree : syntax.Tree) → (spelled : List Lexeme) → Stands nodes stack.old frames
        → IsPart nodes part tree spelled
        → IsTurn nodes stack.new turn
        (Some (machine.ready (machine.frame wait (tree ∷ []) spelled ∷ frames)))) }
{
    let opening = stack.opening(None);
    let opening = stack.hold(opening, part)?;
    let turn = goes_on(stack, wait, opening)?;
    Ok(turn)
}

// The frame takes a leaf that is made of a lexeme, and reads a lexeme, which may be another.
fn take_leaf(
    stack: &mut Stack,
    tree: &mut Tree,
    opening: Opening,
    form: Form,
    name: Lexeme,
    lexeme: Lexeme,
    wait: Wait,
) -> Result<Turn, Memory>
    ensures { IfOk result (λ turn. (parts : List syntax.Tree) → (read : List Lexeme)
        → (below : List machine.Frame) → Opens tree.old stack.old opening parts read below
        → Turns tree.old tree.new stack.new turn
        (machine.marked (MarkMove.LeafOf form name wait) (machine.frame wait parts read) below
        lexeme) 1) }
{
    let part = leaf(tree, form, name)?;
    let part = Part {
        node: part.node,
        span: Some(lexeme.span),
    };
    let opening = stack.hold(opening, part)?;
    let turn = goes_on(stack, wait, opening)?;
    Ok(turn)
}

/// A part that ended with its own last lexeme. A frame may take it at once.
pub(crate) fn complete(stack: &mut Stack, part: Part) -> Result<Turn, Memory>
    ensures { IfOk result (λ turn. (nodes : List Node) → (frames : List machine.Frame)
        → (tree : syntax.Tree) → (spelled : List Lexeme) → Stands nodes stack.old frames
        → IsPart nodes part tree spelled
        → IsTurn nodes stack.new turn (Some (machine.complete frames tree spelled))) }
{
    let Some(frame) = stack.pop() else {
        return Ok(Turn::Read(part));
    };
    match absorbs(frame.wait) {
        None => {
            stack.put(frame.wait, frame.opening)?;
            Ok(Turn::Read(part))
        }
        Some(wait) => {
            let opening = stack.hold(frame.opening, part)?;
            stack.put(wait, opening)?;
            Ok(Turn::Due)
        }
    }
}

// The frame's node, which closes with a lexeme.
fn close_with(
    stack: &mut Stack,
    tree: &mut Tree,
    form: Form,
    opening: Opening,
    lexeme: Lexeme,
) -> Result<Turn, Memory>
    requires { IsOpen tree.old stack.old opening }
    ensures { IfOk result (λ turn. (frame : machine.Frame) → (below : List machine.Frame)
        → Opens tree.old stack.old opening frame.parts frame.read below
        → Turns tree.old tree.new stack.new turn
        (machine.marked (MarkMove.Close form) frame below lexeme) 1) }
{
    let part = stack.node(tree, form, opening.reads(Some(lexeme.span)))?;
    let turn = complete(stack, part)?;
    Ok(turn)
}

// A frame ends before the lexeme, if it may end without a further part.
fn end(stack: &mut Stack, tree: &mut Tree, frame: Frame, lexeme: Lexeme) -> Result<Turn, Memory>
    requires { IsOpen tree.old stack.old frame.opening }
    ensures { IfOk result (λ turn. (top : machine.Frame) → (below : List machine.Frame)
        → frame.wait ≡ top.wait → Opens tree.old stack.old frame.opening top.parts top.read below
        → Turns tree.old tree.new stack.new turn
        (machine.ended (tables.endable top.wait (Some lexeme.kind)) top below lexeme)
        (counting.made_ended (tables.endable top.wait (Some lexeme.kind)) top below lexeme)) }
{
    let Some(form) = endable(frame.wait, Some(lexeme.kind)) else {
        return Ok(Turn::Refused);
    };
    let part = stack.node(tree, form, frame.opening)?;
    let turn = have(stack, tree, part, lexeme)?;
    Ok(turn)
}

// Whether there is room to count one place more of an operator's parameter: it has fewer than
// 2^32 - 1 so far.
fn counts(wait: Wait) -> bool
    ensures { IsTrue result ↔ tables.places_of wait < 2 ^ 32 - 1 }
{
    match wait {
        Wait::Places(_, places) => places < u32::MAX,
        _ => true,
    }
}

// A lexeme of the frame's own form. `Memory` also where an operator's parameter that is read has
// 2^32 - 1 places.
fn mark(stack: &mut Stack, tree: &mut Tree, frame: Frame, lexeme: Lexeme) -> Result<Turn, Memory>
    requires { IsOpen tree.old stack.old frame.opening }
    ensures { IfOk result (λ turn. (top : machine.Frame) → (below : List machine.Frame)
        → frame.wait ≡ top.wait → Opens tree.old stack.old frame.opening top.parts top.read below
        → Turns tree.old tree.new stack.new turn
        (machine.marked (tables.at_mark top.wait lexeme) top below lexeme)
        (counting.made_mark (tables.at_mark top.wait lexeme) top below lexeme)) }
{
    let opening = frame.opening;
    if !counts(frame.wait) {
        return Err(Memory);
    }
    match at_mark(frame.wait, lexeme) {
        MarkMove::Shift(wait) => {
            let turn = goes_on(stack, wait, opening.reads(Some(lexeme.span)))?;
            Ok(turn)
        }
        MarkMove::Leaf(form, wait) => {
            let turn = take_leaf(stack, tree, opening, form, lexeme, lexeme, wait)?;
            Ok(turn)
        }
        MarkMove::LeafOf(form, name, wait) => {
            let turn = take_leaf(stack, tree, opening, form, name, lexeme, wait)?;
            Ok(turn)
        }
        MarkMove::Push(wait) => {
            stack.put(frame.wait, opening)?;
            let turn = push(stack, wait, lexeme)?;
            Ok(turn)
        }
        MarkMove::Hand(kind) => {
            let turn = goes_on(stack, Wait::Handing(kind, lexeme), opening)?;
            Ok(turn)
        }
        MarkMove::Close(form) => {
            let turn = close_with(stack, tree, form, opening, lexeme)?;
            Ok(turn)
        }
        MarkMove::Refused => {
            let turn = end(stack, tree, frame, lexeme)?;
            Ok(turn)
        }
    }
}

// A lexeme of the innermost frame's own form.
fn mark_top(stack: &mut Stack, tree: &mut Tree, lexeme: Lexeme) -> Result<Turn, Memory>
    requires { IsDue tree.old stack.old }
    ensures { IfOk result (λ turn. (top : machine.Frame) → (below : List machine.Frame)
        → Stands tree.old stack.old (top ∷ below)
        → Turns tree.old tree.new stack.new turn
        (machine.marked (tables.at_mark top.wait lexeme) top below lexeme)
        (counting.made_mark (tables.at_mark top.wait lexeme) top below lexeme)) }
{
    let Some(frame) = stack.pop() else {
        return Ok(Turn::Refused);
    };
    let turn = mark(stack, tree, frame, lexeme)?;
    Ok(turn)
}

// The innermost frame ends before the lexeme, if it may end without a further part.
fn end_top(stack: &mut Stack, tree: &mut Tree, lexeme: Lexeme) -> Result<Turn, Memory>
    requires { IsDue tree.old stack.old }
    ensures { IfOk result (λ turn. (top : machine.Frame) → (below : List machine.Frame)
        → Stands tree.old stack.old (top ∷ below)
        → Turns tree.old tree.new stack.new turn
        (machine.ended (tables.endable top.wait (Some lexeme.kind)) top below lexeme)
        (counting.made_ended (tables.endable top.wait (Some lexeme.kind)) top below lexeme)) }
{
    let Some(frame) = stack.pop() else {
        return Ok(Turn::Refused);
    };
    let turn = end(stack, tree, frame, lexeme)?;
    Ok(turn)
}

// What the lexeme begins, or else does to the innermost frame.
fn begin(stack: &mut Stack, tree: &mut Tree, start: Start, lexeme: Lexeme) -> Result<Turn, Memory>
    requires { IsDue tree.old stack.old }
    ensures { IfOk result (λ turn. (top : machine.Frame) → (below : List machine.Frame)
        → Stands tree.old stack.old (top ∷ below)
        → Turns tree.old tree.new stack.new turn (machine.begun start top below lexeme)
        (counting.made_begun start top below lexeme)) }
{
    match start {
        Start::Leaf(form) => {
            let part = leaf(tree, form, lexeme)?;
            Ok(Turn::Read(part))
        }
        Start::Push(wait) => {
            let turn = push(stack, wait, lexeme)?;
            Ok(turn)
        }
        Start::PushLeaf(form, wait) => {
            let part = leaf(tree, form, lexeme)?;
            let turn = push_part(stack, wait, part)?;
            Ok(turn)
        }
        Start::Hand(kind) => {
            let opening = stack.opening(None);
            let turn = goes_on(stack, Wait::Handing(kind, lexeme), opening)?;
            Ok(turn)
        }
        Start::NoStart => {
            let turn = mark_top(stack, tree, lexeme)?;
            Ok(turn)
        }
    }
}

/// What a lexeme does where a part or a lexeme is due. One that stands left of the items of an
/// aligned list begins nothing inside it.
pub(crate) fn due(stack: &mut Stack, tree: &mut Tree, lexeme: Lexeme) -> Result<Turn, Memory>
    requires { IsDue tree.old stack.old }
    ensures { IfOk result (λ turn. (frames : List machine.Frame) → Stands tree.old stack.old frames
        → Turns tree.old tree.new stack.new turn (machine.due frames lexeme)
        (counting.made_due frames lexeme)) }
{
    let Some(wait) = stack.wait() else {
        return Ok(Turn::Refused);
    };
    if (lexeme.col as u64) < stack.inner() {
        let turn = end_top(stack, tree, lexeme)?;
        return Ok(turn);
    }
    let turn = begin(stack, tree, begins(mode(wait), lexeme), lexeme)?;
    Ok(turn)
}
