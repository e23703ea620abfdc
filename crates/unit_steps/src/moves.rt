// What a lexeme does to a frame that does not end before it.
ghost use Rattle.std.specs.Prelude.{◌≡◌, ◌+◌, ◌≤◌, ℕ, List, [], ◌∷◌, Some, None, IfOk, length};
ghost use Rattle.tla_symbols.specs.declared.lexeme.Lexeme.{Lexeme};
ghost use Rattle.tla_tree.specs.Arena as arena;
ghost use Rattle.tla_tree.specs.Syntax.{Nil};
ghost use Rattle.expr_grammar.specs.Machine as expressions;
ghost use Rattle.tree_parts.specs.Parts.{span_of};
ghost use Rattle.unit_grammar.specs.Units as units;
ghost use Rattle.unit_machine.specs.Machine as machine;
ghost use Rattle.unit_machine.specs.declared.wait.Move.TheVariants as Move;
ghost use Rattle.unit_frames.specs.FrameMeaning.{IsFrame, IsUnder};
ghost use Rattle.unit_steps.specs.PointMeaning.{IsMoved, Moves};
ghost use Rattle.unit_steps.specs.Waiting.{waiting};

use crate::point::{Next, Point};
use crate::whole::shut;
use tla_symbols::{Lexeme, Span};
use tla_tree::{Form, Tree};
use tool_list::Memory;
use unit_frames::{Frame, Unfinished};
use unit_machine::{Move, Wait};

// The lexeme is the first of an expression for which a frame waits.
fn begin_expression(
    unfinished: Unfinished,
    frame: Frame,
    lexeme: Lexeme,
) -> Result<Option<Next>, Memory>
    ensures moves { IfOk result (λ moved. (nodes : List arena.Node) → (depth : ℕ)
        → (us : List units.UnitTree) → (b : machine.Begun) → (fs : List machine.Frame)
        → (f : machine.Frame) → IsUnder nodes unfinished b fs depth us → IsFrame nodes frame f
        → IsMoved nodes moved (machine.reading (expressions.step expressions.start lexeme) b
        (f ∷ fs) (lexeme ∷ []) depth us)) }
    ensures few { IfOk result (λ moved. waiting moved ≤ length unfinished.below.items + 1) }
{
    let mut unfinished = unfinished;
    let Ok(()) = unfinished.under(frame) else {
        return Err(Memory);
    };
    Ok(Some(Next::Begins(unfinished, lexeme)))
}

// A part begins, in a frame of its own that has read the lexemes of the span, and this one waits
// for it.
fn begin_part(
    unfinished: Unfinished,
    frame: Frame,
    wait: Wait,
    span: Option<Span>,
) -> Result<Option<Next>, Memory>
    ensures moves { IfOk result (λ moved. (nodes : List arena.Node) → (depth : ℕ)
        → (us : List units.UnitTree) → (b : machine.Begun) → (fs : List machine.Frame)
        → (f : machine.Frame) → (read : List Lexeme) → IsUnder nodes unfinished b fs depth us
        → IsFrame nodes frame f → span ≡ span_of read
        → IsMoved nodes moved
        (Some (machine.state depth us (machine.Part b (machine.frame wait Nil read) (f ∷ fs))))) }
    ensures few { IfOk result (λ moved. waiting moved ≤ length unfinished.below.items + 2) }
{
    let mut unfinished = unfinished;
    let Ok(()) = unfinished.under(frame) else {
        return Err(Memory);
    };
    let frame = Frame::new(unfinished.reached.alloc, wait, span);
    Ok(Some(Next::At(Point::Part(unfinished, frame))))
}

// The frame takes a leaf that is made of a lexeme, and reads one, which may be another.
fn take_leaf(
    unfinished: Unfinished,
    frame: Frame,
    tree: &mut Tree,
    form: Form,
    name: Lexeme,
    wait: Wait,
    lexeme: Lexeme,
) -> Result<Option<Next>, Memory>
    ensures moves { IfOk result (λ moved. (depth : ℕ) → (us : List units.UnitTree)
        → (b : machine.Begun) → (fs : List machine.Frame) → (f : machine.Frame)
        → IsUnder tree.old unfinished b fs depth us → IsFrame tree.old frame f
        → Moves tree.old tree.new moved
        (machine.moved (Move.LeafOf form name wait) b f fs depth us lexeme (λ x. None))) }
    ensures few { IfOk result (λ moved. length tree.new + waiting moved
        ≤ length tree.old + (length unfinished.below.items + 2)) }
{
    let mut frame = frame;
    let Ok(()) = frame.takes_leaf(tree, form, name, wait, lexeme) else {
        return Err(Memory);
    };
    Ok(Some(Next::At(Point::Part(unfinished, frame))))
}

// The frame ends with the lexeme.
fn close(
    unfinished: Unfinished,
    frame: Frame,
    tree: &mut Tree,
    form: Form,
    lexeme: Lexeme,
) -> Result<Option<Next>, Memory>
    requires { (f : machine.Frame) × IsFrame tree.old frame f }
    ensures moves { IfOk result (λ moved. (depth : ℕ) → (us : List units.UnitTree)
        → (b : machine.Begun) → (fs : List machine.Frame) → (f : machine.Frame)
        → IsUnder tree.old unfinished b fs depth us → IsFrame tree.old frame f
        → Moves tree.old tree.new moved (machine.moved (Move.Close form) b f fs depth us lexeme
        (λ x. None))) }
    ensures few { IfOk result (λ moved. length tree.new + waiting moved
        ≤ length tree.old + (length unfinished.below.items + 1)) }
{
    let Ok(part) = frame.closed(tree, form, lexeme) else {
        return Err(Memory);
    };
    shut(unfinished, part)
}

/// What a lexeme does to a frame that does not end before it.
pub(crate) fn move_frame(
    unfinished: Unfinished,
    frame: Frame,
    tree: &mut Tree,
    to: Move,
    lexeme: Lexeme,
) -> Result<Option<Next>, Memory>
    requires { (f : machine.Frame) × IsFrame tree.old frame f }
    ensures moves { IfOk result (λ moved. (depth : ℕ) → (us : List units.UnitTree)
        → (b : machine.Begun) → (fs : List machine.Frame) → (f : machine.Frame)
        → IsUnder tree.old unfinished b fs depth us → IsFrame tree.old frame f
        → Moves tree.old tree.new moved (machine.moved to b f fs depth us lexeme (λ form. None))) }
    ensures few { IfOk result (λ moved. length tree.new + waiting moved
        ≤ length tree.old + (length unfinished.below.items + 2)) }
{
    match to {
        Move::Shift(wait) => Ok(Some(Next::At(Point::Part(unfinished, frame.reads(wait, lexeme))))),
        Move::Leaf(form, wait) => take_leaf(unfinished, frame, tree, form, lexeme, wait, lexeme),
        Move::LeafOf(form, name, wait) => take_leaf(
            unfinished, frame, tree, form, name, wait, lexeme,
        ),
        Move::Push(wait) => begin_part(unfinished, frame, wait, Some(lexeme.span)),
        Move::Opens(wait, first) => begin_part(unfinished, frame.reads(wait, lexeme), first, None),
        Move::Close(form) => close(unfinished, frame, tree, form, lexeme),
        Move::Ends(_) => Ok(None),
        Move::Expression => begin_expression(unfinished, frame, lexeme),
        Move::Bounds(wait) => Ok(Some(Next::Bounds(unfinished.alone(), frame.reads(wait, lexeme)))),
        Move::Refused => Ok(None),
    }
}
