// How what is read comes to its end.
ghost use Rattle.std.specs.Prelude.{◌≡◌, ◌<◌, List, [], ◌∷◌, Option, Some, None, IfOk, length, reverse};
ghost use Rattle.tla_symbols.specs.declared.lexeme.Lexeme.{Lexeme};
ghost use Rattle.tla_tree.specs.Arena as Arena;
ghost use Rattle.tla_tree.specs.Syntax as syntax;
ghost use Rattle.expr_grammar.specs.Machine as machine;
ghost use Rattle.expr_grammar.specs.Counting as counting;
ghost use Rattle.expr_parse.specs.Ending as ends;
ghost use Rattle.expr_parse.specs.Ending.{Closes, IsGoal};
ghost use Rattle.tree_parts.specs.Parts.{IsPart};
ghost use Rattle.expr_stack.specs.StackMeaning.{Stands};
ghost use Rattle.expr_parse.specs.TurnMeaning.{IsDue, IsReady, IsTurn, IsTurnReady};

use crate::goal::Goal;
use crate::turn::Turn;
use expr_grammar::{Shape, Wait};
use expr_kinds::{finishes, is_expression};
use expr_parts::shape;
use expr_stack::{Frame, Stack};
use expr_starts::endable;
use tla_tree::{Form, Tree, helps};
use tool_list::Memory;
use tree_parts::Part;

/// What the form of a part says of its shape.
fn shape_of_form(form: Form) -> Shape
    ensures { result ≡ ends.shape_of_form form }
{
    match form {
        Form::Names | Form::TupleNames => Shape::Names,
        Form::Bound | Form::TupleBound => Shape::Bound,
        Form::Arm => Shape::Arm,
        Form::OtherArm => Shape::OtherArm,
        Form::Instance(_) => Shape::Instance,
        Form::Symbol(_) => Shape::Symbol,
        _ => {
            if helps(form) {
                Shape::Helper
            } else {
                Shape::Expression
            }
        }
    }
}

// Whether the outermost frame takes a part of this shape as the whole.
fn takes_whole(goal: Goal, wait: Wait, shape: Shape) -> bool
    ensures { result ≡ ends.takes_whole goal wait shape }
{
    match goal {
        Goal::Expression => match wait {
            Wait::Whole => is_expression(shape),
            _ => false,
        },
        Goal::Bounds => match wait {
            Wait::WholeBounds => matches!(&shape, Shape::Bound),
            _ => false,
        },
    }
}

// Whether all frames end after a part of this shape, and the outermost one takes it as the whole.
fn all_end(goal: Goal, frames: &[Frame], last: Shape) -> bool
    ensures { result ≡ ends.all_end goal (reverse frames.now) last }
{
    let mut shape = last;
    let mut open = frames.len();
    while open > 1 {
        open -= 1;
        let Some(form) = finishes(frames[open].wait, shape) else {
            return false;
        };
        shape = shape_of_form(form);
    }
    open == 1 && takes_whole(goal, frames[0].wait, shape)
}

// The frames but the innermost.
fn outer(frames: &[Frame]) -> &[Frame]
    requires { 0 < length frames.now }
    ensures { (last : Frame) → (below : List Frame) → reverse frames.now ≡ last ∷ below
        → reverse result.now ≡ below }
{
    &frames[..frames.len() - 1]
}

// Whether what is read is whole after the frames.
fn is_whole_due(stack: &Stack, goal: Goal) -> bool
    ensures { (nodes : List Arena.Node) → (frames : List machine.Frame)
        → Stands nodes stack.now frames
        → result ≡ ends.is_whole goal (ends.ending (machine.At frames)) }
{
    let Some(wait) = stack.wait() else {
        return false;
    };
    let Some(form) = endable(wait, None) else {
        return false;
    };
    all_end(goal, outer(stack.frames()), shape_of_form(form))
}

/// Whether what is read is whole.
pub(crate) fn is_whole(stack: &Stack, tree: &Tree, turn: Turn, goal: Goal) -> bool
    requires { IsTurnReady tree.now stack.now turn }
    ensures { (state : Option machine.State) → IsTurn tree.now stack.now turn state
        → result ≡ ends.is_whole goal (ends.ending_of state) }
{
    match turn {
        Turn::Refused => false,
        Turn::Due => is_whole_due(stack, goal),
        Turn::Read(part) => all_end(goal, stack.frames(), shape(tree, part.node)),
    }
}

// Ends all frames but the outermost one after a part. `None` where one may not end.
fn close_all(stack: &mut Stack, tree: &mut Tree, operand: Part) -> Result<Option<Part>, Memory>
    requires { IsReady tree.old stack.old operand }
    ensures { IfOk result (λ left. (frames : List machine.Frame) → (part : syntax.Tree)
        → (spelled : List Lexeme) → Stands tree.old stack.old frames
        → IsPart tree.old operand part spelled
        → Closes tree.old tree.new stack.new left (ends.closing frames part spelled)
        (counting.made_close frames part spelled)) }
{
    let mut part = operand;
    while stack.frames().len() > 1 {
        let Some(frame) = stack.pop() else {
            return Ok(None);
        };
        let Some(form) = finishes(frame.wait, shape(tree, part.node)) else {
            return Ok(None);
        };
        part = stack.close(tree, form, frame.opening, part)?;
    }
    if stack.frames().len() < 1 {
        return Ok(None);
    }
    Ok(Some(part))
}

// The same where a part or a lexeme is due: the innermost frame ends first.
fn close_due(stack: &mut Stack, tree: &mut Tree) -> Result<Option<Part>, Memory>
    requires { IsDue tree.old stack.old }
    ensures { IfOk result (λ left. (frames : List machine.Frame) → Stands tree.old stack.old frames
        → Closes tree.old tree.new stack.new left (ends.ending (machine.At frames))
        (counting.made_last frames)) }
{
    let Some(frame) = stack.pop() else {
        return Ok(None);
    };
    let Some(form) = endable(frame.wait, None) else {
        return Ok(None);
    };
    let part = stack.node(tree, form, frame.opening)?;
    let left = close_all(stack, tree, part)?;
    Ok(left)
}

/// Ends all frames but the outermost one. `None` where one may not end.
pub(crate) fn close(stack: &mut Stack, tree: &mut Tree, turn: Turn) -> Result<Option<Part>, Memory>
    requires { IsTurnReady tree.old stack.old turn }
    ensures { IfOk result (λ left. (state : Option machine.State)
        → IsTurn tree.old stack.old turn state
        → Closes tree.old tree.new stack.new left (ends.ending_of state)
        (counting.made_finish state)) }
{
    match turn {
        Turn::Refused => Ok(None),
        Turn::Due => {
            let left = close_due(stack, tree)?;
            Ok(left)
        }
        Turn::Read(part) => {
            let left = close_all(stack, tree, part)?;
            Ok(left)
        }
    }
}

/// The node of what is read, where its last part stands beside the outermost frame.
pub(crate) fn whole(
    stack: &mut Stack,
    tree: &mut Tree,
    part: Part,
    goal: Goal,
) -> Result<u32, Memory>
    requires { IsReady tree.old stack.old part }
    ensures { IfOk result (λ node. (frame : machine.Frame) → (last : syntax.Tree)
        → (spelled : List Lexeme) → Stands tree.old stack.old (frame ∷ [])
        → IsPart tree.old part last spelled → IsGoal tree.old tree.new node goal frame last) }
{
    match goal {
        Goal::Expression => Ok(part.node),
        Goal::Bounds => {
            let Some(frame) = stack.pop() else {
                return Ok(part.node);
            };
            let bounds = stack.close(tree, Form::Bounds, frame.opening, part)?;
            Ok(bounds.node)
        }
    }
}
