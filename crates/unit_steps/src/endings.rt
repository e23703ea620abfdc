// Which frames end before a lexeme.
ghost use Rattle.std.specs.Prelude.{◌≡◌, ◌↔◌, ◌+◌, ◌-◌, ◌^◌, ◌<◌, ◌≤◌, List, reverse, None, IsTrue, IfOk, length};
ghost use Rattle.tla_tree.specs.Arena.{AreThere};
ghost use Rattle.unit_machine.specs.Tables as tables;
ghost use Rattle.unit_machine.specs.Machine as machine;
ghost use Rattle.unit_frames.specs.FrameMeaning.{AreFrames, IsFrame};
ghost use Rattle.unit_steps.specs.PointMeaning.{EndsFrame, Ends, form_of_end};
ghost use Rattle.unit_steps.specs.Waiting.{waiting_ended};

use tla_symbols::Lexeme;
use tla_tree::{Form, Tree};
use tool_list::Memory;
use tree_parts::Part;
use unit_frames::Frame;
use unit_machine::{Move, Wait};
use unit_tables::{after_part, frame_move};

/// Whether there is room to count one place more of an operator's declaration: it has fewer than
/// 2^32 - 1 so far.
pub(crate) fn counts(wait: Wait) -> bool
    ensures { IsTrue result ↔ (tables.places_of wait < 2 ^ 32 - 1) }
{
    match wait {
        Wait::Places(_, places) => places < u32::MAX,
        _ => true,
    }
}

/// The form of the node that a frame becomes, if it ends before the lexeme.
fn form_ended(wait: Wait, lexeme: Lexeme) -> Option<Form>
    ensures { result ≡ form_of_end (tables.move wait lexeme) }
{
    if !counts(wait) {
        return None;
    }
    match frame_move(wait, lexeme) {
        Move::Ends(form) => Some(form),
        _ => None,
    }
}

// Ends a frame: the one below takes its part and its span. The part, where there is none below.
fn end_frame(
    below: &mut Vec<Frame>,
    frame: &mut Frame,
    tree: &mut Tree,
    form: Form,
) -> Result<Option<Part>, Memory>
    requires { AreThere tree.old frame.old.parts }
    ensures ends { IfOk result (λ ended. (f : machine.Frame) → (fs : List machine.Frame)
        → IsFrame tree.old frame.old f → AreFrames tree.old (reverse below.old.items) fs
        → EndsFrame tree.old tree.new below.new.items frame.new form f fs ended) }
    ensures fewer { IfOk result (λ ended. ended ≡ None
        → length below.new.items < length below.old.items) }
    ensures few { IfOk result (λ ended. length tree.new + waiting_ended below.new.items ended
        ≤ length tree.old + (length below.old.items + 1)) }
{
    let part = frame.node(tree, form)?;
    let Some(outer) = below.pop() else {
        return Ok(Some(part));
    };
    let wait = after_part(outer.wait);
    *frame = outer;
    frame.takes(wait, part)?;
    Ok(None)
}

/// Ends the frames that end before the lexeme. Where the outermost one is among them, the part that it
/// became; else the frame is the one that is left, which the lexeme moves.
pub(crate) fn end_frames(
    below: &mut Vec<Frame>,
    frame: &mut Frame,
    tree: &mut Tree,
    lexeme: Lexeme,
) -> Result<Option<Part>, Memory>
    requires { (f : machine.Frame) × (fs : List machine.Frame)
        × IsFrame tree.old frame.old f × AreFrames tree.old (reverse below.old.items) fs }
    ensures ends { IfOk result (λ whole. (f : machine.Frame) → (fs : List machine.Frame)
        → IsFrame tree.old frame.old f → AreFrames tree.old (reverse below.old.items) fs
        → Ends tree.old tree.new below.new.items frame.new whole f fs lexeme) }
    ensures few { IfOk result (λ whole. length tree.new + waiting_ended below.new.items whole
        ≤ length tree.old + (length below.old.items + 1)) }
{
    'ending: loop {
        let Some(form) = form_ended(frame.wait, lexeme) else {
            return Ok(None);
        };
        if let Some(part) = end_frame(below, frame, tree, form)? {
            return Ok(Some(part));
        }
    }
}
