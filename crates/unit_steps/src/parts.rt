// What a lexeme does to the parts of a unit: frames end before it, and it moves the one that is left.
ghost use Rattle.std.specs.Prelude.{◌+◌, ◌≤◌, ℕ, List, ◌++◌, IfOk, length};
ghost use Rattle.tla_symbols.specs.declared.lexeme.Lexeme.{Lexeme};
ghost use Rattle.tla_tree.specs.Syntax as syntax;
ghost use Rattle.tla_tree.specs.Lexemes as lexemes;
ghost use Rattle.tree_parts.specs.Parts.{IsPart, parts_of};
ghost use Rattle.unit_grammar.specs.Units as units;
ghost use Rattle.unit_machine.specs.Tables as tables;
ghost use Rattle.unit_machine.specs.Machine as machine;
ghost use Rattle.unit_frames.specs.FrameMeaning.{IsFrame, IsBegun, IsReached, IsUnder};
ghost use Rattle.unit_steps.specs.PointMeaning.{Moves, IsEnded, IsReadyEnded, IsReadyPart, IsReadyTaking, IsReadyWhole};
ghost use Rattle.unit_steps.specs.Waiting.{waiting, waiting_ended};

use crate::endings::{counts, end_frames};
use crate::moves::move_frame;
use crate::point::Next;
use crate::whole::finish;
use tla_symbols::Lexeme;
use tla_tree::Tree;
use tool_list::Memory;
use tree_parts::Part;
use unit_frames::{Frame, Unfinished};
use unit_tables::{after_bounds, after_expression, frame_move};

/// What a lexeme does once the frames that end before it have ended. `Memory` also where an operator
/// that is declared has 2^32 - 1 places, and where the tree can number no further node.
fn go_on(
    unfinished: Unfinished,
    frame: Frame,
    whole: Option<Part>,
    tree: &mut Tree,
    lexeme: Lexeme,
) -> Result<Option<Next>, Memory>
    requires { IsReadyEnded tree.old unfinished frame whole lexeme }
    ensures moves { IfOk result (λ moved. (depth : ℕ) → (us : List units.UnitTree)
        → (b : machine.Begun) → (fs : List machine.Frame) → (f : machine.Frame)
        → IsReached tree.old unfinished.reached depth us → IsBegun tree.old unfinished.begun b
        → IsEnded tree.old unfinished.below.items frame whole f fs lexeme
        → Moves tree.old tree.new moved (machine.part_step fs b f depth us lexeme)) }
    ensures few { IfOk result (λ moved. length tree.new + waiting moved
        ≤ length tree.old + (waiting_ended unfinished.below.items whole + 1)) }
{
    if let Some(part) = whole {
        return finish(unfinished, tree, part, lexeme);
    }
    if !counts(frame.wait) {
        return Err(Memory);
    }
    let to = frame_move(frame.wait, lexeme);
    move_frame(unfinished, frame, tree, to, lexeme)
}

/// A lexeme where a frame waits for one.
pub(crate) fn part_step(
    unfinished: Unfinished,
    frame: Frame,
    tree: &mut Tree,
    lexeme: Lexeme,
) -> Result<Option<Next>, Memory>
    requires { IsReadyPart tree.old unfinished frame }
    ensures moves { IfOk result (λ moved. (depth : ℕ) → (us : List units.UnitTree)
        → (b : machine.Begun) → (fs : List machine.Frame) → (f : machine.Frame)
        → IsUnder tree.old unfinished b fs depth us → IsFrame tree.old frame f
        → Moves tree.old tree.new moved (machine.part_step fs b f depth us lexeme)) }
    ensures few { IfOk result (λ moved. length tree.new + waiting moved
        ≤ length tree.old + (length unfinished.below.items + 2)) }
{
    let mut unfinished = unfinished;
    let mut frame = frame;
    let Ok(whole) = end_frames(&mut unfinished.below, &mut frame, tree, lexeme) else {
        return Err(Memory);
    };
    go_on(unfinished, frame, whole, tree, lexeme)
}

// A frame takes an expression that is whole before the lexeme.
fn give_to(
    unfinished: Unfinished,
    frame: Frame,
    part: Part,
    tree: &mut Tree,
    lexeme: Lexeme,
) -> Result<Option<Next>, Memory>
    requires { IsReadyTaking tree.old unfinished frame part }
    ensures moves { IfOk result (λ moved. (depth : ℕ) → (us : List units.UnitTree)
        → (b : machine.Begun) → (fs : List machine.Frame) → (f : machine.Frame) → (x : syntax.Tree)
        → (spelled : List Lexeme) → IsUnder tree.old unfinished b fs depth us
        → IsFrame tree.old frame f → IsPart tree.old part x spelled
        → Moves tree.old tree.new moved (machine.part_step fs b
        (machine.frame (tables.after_expression f.wait) (lexemes.then f.parts x)
        (f.read ++ spelled)) depth us lexeme)) }
    ensures few { IfOk result (λ moved. length tree.new + waiting moved
        ≤ length tree.old + (length unfinished.below.items + 2)) }
{
    let mut frame = frame;
    let wait = after_expression(frame.wait);
    let Ok(()) = frame.takes(wait, part) else {
        return Err(Memory);
    };
    part_step(unfinished, frame, tree, lexeme)
}

/// An expression is whole before the lexeme.
pub fn give(
    unfinished: Unfinished,
    part: Part,
    tree: &mut Tree,
    lexeme: Lexeme,
) -> Result<Option<Next>, Memory>
    requires { IsReadyWhole tree.old unfinished part }
    ensures moves { IfOk result (λ moved. (depth : ℕ) → (us : List units.UnitTree)
        → (b : machine.Begun) → (fs : List machine.Frame) → (x : syntax.Tree)
        → (spelled : List Lexeme)
        → IsUnder tree.old unfinished b fs depth us → IsPart tree.old part x spelled
        → Moves tree.old tree.new moved (machine.given fs b x spelled depth us lexeme)) }
    ensures few { IfOk result (λ moved. length tree.new + waiting moved
        ≤ length tree.old + (length unfinished.below.items + 1)) }
{
    let mut unfinished = unfinished;
    match unfinished.below.pop() {
        Some(frame) => give_to(unfinished, frame, part, tree, lexeme),
        None => finish(unfinished, tree, part, lexeme),
    }
}

/// A frame takes the bounds that are whole before the lexeme.
pub fn take_bounds(
    unfinished: Unfinished,
    frame: Frame,
    part: Part,
    tree: &mut Tree,
    lexeme: Lexeme,
) -> Result<Option<Next>, Memory>
    requires { IsReadyTaking tree.old unfinished frame part }
    ensures moves { IfOk result (λ moved. (depth : ℕ) → (us : List units.UnitTree)
        → (b : machine.Begun) → (fs : List machine.Frame) → (f : machine.Frame) → (x : syntax.Tree)
        → (spelled : List Lexeme) → IsUnder tree.old unfinished b fs depth us
        → IsFrame tree.old frame f → IsPart tree.old part x spelled
        → Moves tree.old tree.new moved (machine.part_step fs b
        (machine.frame (tables.after_bounds f.wait) (parts_of x) (f.read ++ spelled))
        depth us lexeme)) }
    ensures few { IfOk result (λ moved. length tree.new + waiting moved
        ≤ length tree.old + (length unfinished.below.items + 2)) }
{
    let mut frame = frame;
    let wait = after_bounds(frame.wait);
    let Ok(()) = frame.takes_bounds(unfinished.reached.alloc, tree, wait, part) else {
        return Err(Memory);
    };
    part_step(unfinished, frame, tree, lexeme)
}
