// What a lexeme does where an expression, or the bounds in a function's head, are read.
ghost use Rattle.std.specs.Prelude.{◌+◌, ℕ, List, [], Some, IfOk, length};
ghost use Rattle.tla_symbols.specs.declared.lexeme.Lexeme.{Lexeme};
ghost use Rattle.expr_grammar.specs.Machine as expressions;
ghost use Rattle.expr_grammar.specs.Following.{done_before, bounds_done_before};
ghost use Rattle.expr_parse.specs.declared.goal.Goal.TheVariants as goals;
ghost use Rattle.unit_grammar.specs.Units as units;
ghost use Rattle.unit_machine.specs.Machine as machine;
ghost use Rattle.unit_frames.specs.FrameMeaning.{IsFrame, IsUnder};
ghost use Rattle.unit_parse.specs.ReaderMeaning.{IsReading, IsFed, HasFedExpression, HasFedBounds, Moves, IsReadyExpression, IsReadyBounds};
ghost use Rattle.unit_parse.specs.NodeCounts.{IsFewRead, IsFewFed, IsFewMoved};

use crate::enter::enter;
use crate::reader::{ExprReader, Fed};
use crate::state::State;
use tla_symbols::Lexeme;
use tla_tree::Tree;
use tool_list::Memory;
use unit_frames::{Frame, Unfinished};
use unit_steps::{give, take_bounds};

/// What a lexeme does that was fed to an expression.
fn expression_fed(
    unfinished: Unfinished,
    reader: ExprReader,
    fed: Fed,
    tree: &mut Tree,
    lexeme: Lexeme,
) -> Result<Option<State>, Memory>
    requires { HasFedExpression tree.old unfinished reader lexeme fed }
    ensures moves { IfOk result (λ moved. (depth : ℕ) → (us : List units.UnitTree)
        → (b : machine.Begun) → (fs : List machine.Frame) → (st : expressions.State)
        → (read : List Lexeme)
        → IsUnder tree.old unfinished b fs depth us
        → IsFed tree.old reader goals.Expression st read lexeme fed
        → Moves tree.old tree.new moved
        (machine.expression_step (done_before (Some st) lexeme.kind) b fs st read depth us
        lexeme)) }
    ensures few { IfOk result (λ moved. (count : ℕ)
        → IsFewFed tree.old reader.machine (length unfinished.below.items) count lexeme fed
        → IsFewMoved tree.new moved (count + 1)) }
{
    match fed {
        Fed::Going => Ok(Some(State::Expression(unfinished, reader))),
        Fed::Done(part) => enter(give(unfinished, part, tree, lexeme), tree),
        Fed::Refused => Ok(None),
    }
}

/// A lexeme where an expression is read.
pub(crate) fn expression_step(
    unfinished: Unfinished,
    reader: ExprReader,
    tree: &mut Tree,
    lexeme: Lexeme,
) -> Result<Option<State>, Memory>
    requires { IsReadyExpression tree.old unfinished reader }
    ensures moves { IfOk result (λ moved. (depth : ℕ) → (us : List units.UnitTree)
        → (b : machine.Begun) → (fs : List machine.Frame) → (st : expressions.State)
        → (read : List Lexeme)
        → IsUnder tree.old unfinished b fs depth us
        → IsReading tree.old reader goals.Expression st read
        → Moves tree.old tree.new moved
        (machine.expression_step (done_before (Some st) lexeme.kind) b fs st read depth us
        lexeme)) }
    ensures few { IfOk result (λ moved. (count : ℕ)
        → IsFewRead tree.old reader.machine (length unfinished.below.items) count
        → IsFewMoved tree.new moved (count + 1)) }
{
    let mut reader = reader;
    let Ok(fed) = reader.feed(tree, lexeme) else {
        return Err(Memory);
    };
    expression_fed(unfinished, reader, fed, tree, lexeme)
}

/// What a lexeme does that was fed to the bounds in a function's head.
fn bounds_fed(
    unfinished: Unfinished,
    frame: Frame,
    reader: ExprReader,
    fed: Fed,
    tree: &mut Tree,
    lexeme: Lexeme,
) -> Result<Option<State>, Memory>
    requires { HasFedBounds tree.old unfinished frame reader lexeme fed }
    ensures moves { IfOk result (λ moved. (depth : ℕ) → (us : List units.UnitTree)
        → (b : machine.Begun) → (f : machine.Frame) → (st : expressions.State)
        → (read : List Lexeme)
        → IsUnder tree.old unfinished b [] depth us → IsFrame tree.old frame f
        → IsFed tree.old reader goals.Bounds st read lexeme fed
        → Moves tree.old tree.new moved
        (machine.bounds_step (bounds_done_before (Some st) lexeme.kind) b f st read depth us
        lexeme)) }
    ensures few { IfOk result (λ moved. (count : ℕ)
        → IsFewFed tree.old reader.machine (length unfinished.below.items + 1) count lexeme fed
        → IsFewMoved tree.new moved (count + 1)) }
{
    match fed {
        Fed::Going => Ok(Some(State::Bounds(unfinished, frame, reader))),
        Fed::Done(part) => enter(take_bounds(unfinished, frame, part, tree, lexeme), tree),
        Fed::Refused => Ok(None),
    }
}

/// A lexeme where the bounds in a function's head are read.
pub(crate) fn bounds_step(
    unfinished: Unfinished,
    frame: Frame,
    reader: ExprReader,
    tree: &mut Tree,
    lexeme: Lexeme,
) -> Result<Option<State>, Memory>
    requires { IsReadyBounds tree.old unfinished frame reader }
    ensures moves { IfOk result (λ moved. (depth : ℕ) → (us : List units.UnitTree)
        → (b : machine.Begun) → (f : machine.Frame) → (st : expressions.State)
        → (read : List Lexeme)
        → IsUnder tree.old unfinished b [] depth us → IsFrame tree.old frame f
        → IsReading tree.old reader goals.Bounds st read
        → Moves tree.old tree.new moved
        (machine.bounds_step (bounds_done_before (Some st) lexeme.kind) b f st read depth us
        lexeme)) }
    ensures few { IfOk result (λ moved. (count : ℕ)
        → IsFewRead tree.old reader.machine (length unfinished.below.items + 1) count
        → IsFewMoved tree.new moved (count + 1)) }
{
    let mut reader = reader;
    let Ok(fed) = reader.feed(tree, lexeme) else {
        return Err(Memory);
    };
    bounds_fed(unfinished, frame, reader, fed, tree, lexeme)
}
