// Where a lexeme leads: an expression, or bounds, are read by a machine of their own.
ghost use Rattle.std.specs.Prelude.{◌+◌, ℕ, List, [], Option, Some, IfOk, length};
ghost use Rattle.tla_symbols.specs.declared.lexeme.Lexeme.{Lexeme};
ghost use Rattle.tla_tree.specs.Arena as arena;
ghost use Rattle.expr_grammar.specs.Machine as expressions;
ghost use Rattle.expr_parse.specs.declared.goal.Goal.TheVariants as goals;
ghost use Rattle.unit_machine.specs.Machine as machine;
ghost use Rattle.unit_steps.specs.declared.point.Next.TheVariants as leads;
ghost use Rattle.unit_steps.specs.PointMeaning as steps;
ghost use Rattle.unit_steps.specs.Waiting.{waiting, waiting_next};
ghost use Rattle.unit_parse.specs.ReaderMeaning.{IsMoved, Moves, Feeds};
ghost use Rattle.unit_parse.specs.NodeCounts.{HasRoom, FeedsFew, IsFew, IsFewMoved};

use crate::reader::{ExprReader, Fed};
use crate::state::State;
use expr_parse::Goal;
use tla_symbols::Lexeme;
use tla_tree::Tree;
use tool_list::Memory;
use unit_frames::{Frame, Unfinished};
use unit_steps::Next;

// An expression is due.
fn await_expression(unfinished: Unfinished) -> State
    ensures moves { (nodes : List arena.Node) → (st : Option machine.State)
        → steps.IsMoved nodes (Some (leads.Awaits unfinished)) st → IsMoved nodes (Some result) st }
    ensures few { (nodes : List arena.Node) → (count : ℕ)
        → HasRoom (length nodes + length unfinished.below.items) count
        → IsFew nodes result (count + 1) }
{
    let alloc = unfinished.reached.alloc;
    State::Expression(unfinished, ExprReader::new(alloc, Goal::Expression))
}

// Bounds are due, for which the frame waits.
fn await_bounds(unfinished: Unfinished, frame: Frame) -> State
    ensures moves { (nodes : List arena.Node) → (st : Option machine.State)
        → steps.IsMoved nodes (Some (leads.Bounds unfinished frame)) st
        → IsMoved nodes (Some result) st }
    ensures few { (nodes : List arena.Node) → (count : ℕ)
        → HasRoom (length nodes + (length unfinished.below.items + 1)) count
        → IsFew nodes result (count + 1) }
{
    let alloc = unfinished.reached.alloc;
    State::Bounds(unfinished, frame, ExprReader::new(alloc, Goal::Bounds))
}

/// What an expression makes of its first lexeme.
fn expression_begun(unfinished: Unfinished, reader: ExprReader, fed: Fed) -> Option<State>
    ensures moves { (nodes : List arena.Node) → (more : List arena.Node) → (first : Lexeme)
        → (st : Option machine.State) → steps.Begins nodes unfinished first st
        → Feeds nodes more reader goals.Expression expressions.start [] first fed
        → Moves nodes more result st }
    ensures few { (nodes : List arena.Node) → (before : ℕ) → (first : Lexeme) → (count : ℕ)
        → FeedsFew nodes reader.machine before [] first fed
        → HasRoom (before + length unfinished.below.items) count
        → IsFewMoved nodes result (count + 1) }
{
    match fed {
        Fed::Going => Some(State::Expression(unfinished, reader)),
        _ => None,
    }
}

// The lexeme is the first of an expression.
fn begin_expression(
    unfinished: Unfinished,
    tree: &mut Tree,
    first: Lexeme,
) -> Result<Option<State>, Memory>
    ensures moves { IfOk result (λ moved. (st : Option machine.State)
        → steps.Begins tree.old unfinished first st → Moves tree.old tree.new moved st) }
    ensures few { IfOk result (λ moved. (count : ℕ)
        → HasRoom (length tree.old + length unfinished.below.items) count
        → IsFewMoved tree.new moved (count + 1)) }
{
    let mut reader = ExprReader::new(unfinished.reached.alloc, Goal::Expression);
    let Ok(fed) = reader.feed(tree, first) else {
        return Err(Memory);
    };
    Ok(expression_begun(unfinished, reader, fed))
}

// The reader goes where units and frames lead that do not refuse a lexeme.
fn enter_next(next: Next, tree: &mut Tree) -> Result<Option<State>, Memory>
    ensures moves { IfOk result (λ moved. (nodes : List arena.Node) → (st : Option machine.State)
        → steps.Moves nodes tree.old (Some next) st → Moves nodes tree.new moved st) }
    ensures few { IfOk result (λ moved. (count : ℕ)
        → HasRoom (length tree.old + waiting_next next) count
        → IsFewMoved tree.new moved (count + 1)) }
{
    match next {
        Next::At(point) => Ok(Some(State::At(point))),
        Next::Awaits(unfinished) => Ok(Some(await_expression(unfinished))),
        Next::Begins(unfinished, first) => begin_expression(unfinished, tree, first),
        Next::Bounds(unfinished, frame) => Ok(Some(await_bounds(unfinished, frame))),
    }
}

/// The reader goes where units and frames lead, or there was no room.
pub(crate) fn enter(
    next: Result<Option<Next>, Memory>,
    tree: &mut Tree,
) -> Result<Option<State>, Memory>
    ensures moves { IfOk result (λ moved. (nodes : List arena.Node) → (st : Option machine.State)
        → IfOk next (λ led. steps.Moves nodes tree.old led st) → Moves nodes tree.new moved st) }
    ensures few { IfOk result (λ moved. (count : ℕ)
        → IfOk next (λ led. HasRoom (length tree.old + waiting led) count)
        → IsFewMoved tree.new moved (count + 1)) }
{
    match next {
        Err(fault) => Err(fault),
        Ok(None) => Ok(None),
        Ok(Some(next)) => enter_next(next, tree),
    }
}
