// What a lexeme does where a unit, or a lexeme of the module's own form, is due.
ghost use Rattle.std.specs.Prelude.{◌≡◌, ◌≤◌, ℕ, suc, List, [], ◌∷◌, ◌++◌, Some, None, IfOk};
ghost use Rattle.tla_tree.specs.Arena as arena;
ghost use Rattle.tla_tree.specs.Syntax as syntax;
ghost use Rattle.expr_grammar.specs.Machine as expressions;
ghost use Rattle.unit_grammar.specs.Units as units;
ghost use Rattle.unit_machine.specs.Machine as machine;
ghost use Rattle.unit_grammar.specs.UnitNodes.{AreUnits};
ghost use Rattle.unit_frames.specs.FrameMeaning.{AreParts, IsFrame, IsBegun, IsReached};
ghost use Rattle.unit_steps.specs.PointMeaning.{IsMoved};
ghost use Rattle.unit_steps.specs.Waiting.{waiting, waiting_next};

use crate::point::{Next, Point};
use expr_kinds::is_comma;
use tla_symbols::Lexeme;
use tla_tree::Unit;
use tool_list::{List, Memory};
use unit_frames::{Begun, Frame, Reached, Unfinished};
use unit_machine::{Due, DueMove, UnitStart, Wait};
use unit_tables::unit_start;

// The run of `=` that ends a nested module.
fn end_module(reached: Reached, lexeme: Lexeme) -> Result<Option<Next>, Memory>
    ensures moves { IfOk result (λ moved. (nodes : List arena.Node) → (depth : ℕ)
        → (us : List units.UnitTree) → IsReached nodes reached depth us
        → IsMoved nodes moved (machine.ended depth us lexeme)) }
    ensures few { IfOk result (λ moved. waiting moved ≤ 1) }
{
    if reached.depth < 2 {
        return Ok(None);
    }
    let alloc = reached.alloc;
    let Ok(reached) = reached.closes().with(Unit::ModuleEnd(lexeme)) else {
        return Err(Memory);
    };
    Ok(Some(Next::At(Point::Stands(reached, Due::Unit, List::new(alloc)))))
}

// The run of `=` that closes the outermost module.
fn close_module(reached: Reached) -> Option<Next>
    ensures moves { (nodes : List arena.Node) → (depth : ℕ) → (us : List units.UnitTree)
        → IsReached nodes reached depth us → IsMoved nodes result (machine.closed depth us) }
    ensures few { waiting result ≤ 1 }
{
    if reached.depth != 1 {
        return None;
    }
    let alloc = reached.alloc;
    Some(Next::At(Point::Stands(reached.closes(), Due::Closed, List::new(alloc))))
}

// A unit begins of which a frame waits for its next lexeme.
fn begin_part(reached: Reached, begun: Begun, frame: Frame) -> Next
    ensures moves { (nodes : List arena.Node) → (depth : ℕ) → (us : List units.UnitTree)
        → (b : machine.Begun) → (f : machine.Frame) → IsReached nodes reached depth us
        → IsBegun nodes begun b → IsFrame nodes frame f
        → IsMoved nodes (Some result) (Some (machine.state depth us (machine.Focus.Part b f []))) }
    ensures few { waiting_next result ≤ 1 }
{
    let below = Vec::new(reached.alloc);
    let unfinished = Unfinished {
        reached,
        begun,
        below,
    };
    Next::At(Point::Part(unfinished, frame))
}

// A unit begins that is an expression.
fn begin_claim(reached: Reached, begun: Begun) -> Next
    ensures moves { (nodes : List arena.Node) → (depth : ℕ) → (us : List units.UnitTree)
        → (b : machine.Begun) → IsReached nodes reached depth us → IsBegun nodes begun b
        → IsMoved nodes (Some result)
        (Some (machine.state depth us (machine.Focus.Expression b [] expressions.start []))) }
    ensures few { waiting_next result ≤ 1 }
{
    let below = Vec::new(reached.alloc);
    Next::Awaits(Unfinished {
        reached,
        begun,
        below,
    })
}

// What begins a unit, after the LOCAL that stands before it, if one does.
fn start(
    reached: Reached,
    begins: UnitStart,
    local: Option<Lexeme>,
    lexeme: Lexeme,
) -> Result<Option<Next>, Memory>
    ensures moves { IfOk result (λ moved. (nodes : List arena.Node) → (depth : ℕ)
        → (us : List units.UnitTree) → IsReached nodes reached depth us
        → IsMoved nodes moved (machine.started begins local depth us lexeme)) }
    ensures few { IfOk result (λ moved. waiting moved ≤ 1) }
{
    let alloc = reached.alloc;
    let span = Some(lexeme.span);
    match begins {
        UnitStart::Goes(due) => Ok(Some(Next::At(Point::Stands(reached, due, List::new(alloc))))),
        UnitStart::Definition(wait) => Ok(Some(begin_part(
            reached,
            Begun::Definition(local),
            Frame::new(alloc, wait, span),
        ))),
        UnitStart::Instance => Ok(Some(begin_part(
            reached,
            Begun::Instance(local),
            Frame::new(alloc, Wait::InstanceName, span),
        ))),
        UnitStart::Constants => Ok(Some(begin_part(
            reached,
            Begun::Constants(List::new(alloc)),
            Frame::new(alloc, Wait::Declaration, None),
        ))),
        UnitStart::Assumption => Ok(Some(begin_claim(reached, Begun::Assumption(lexeme)))),
        UnitStart::Theorem => Ok(Some(begin_claim(reached, Begun::Theorem(lexeme)))),
        UnitStart::Ends => end_module(reached, lexeme),
        UnitStart::Closes => Ok(close_module(reached)),
        UnitStart::Refused => Ok(None),
    }
}

// A lexeme where a unit is due.
fn unit_due(reached: Reached, local: Option<Lexeme>, lexeme: Lexeme) -> Result<Option<Next>, Memory>
    ensures moves { IfOk result (λ moved. (nodes : List arena.Node) → (depth : ℕ)
        → (us : List units.UnitTree) → IsReached nodes reached depth us
        → IsMoved nodes moved (machine.unit_due local depth us lexeme)) }
    ensures few { IfOk result (λ moved. waiting moved ≤ 1) }
{
    start(reached, unit_start(lexeme), local, lexeme)
}

/// A unit is read, and the lexeme is due after it.
pub(crate) fn after_unit(
    reached: Reached,
    unit: Unit,
    lexeme: Lexeme,
) -> Result<Option<Next>, Memory>
    ensures moves { IfOk result (λ moved. (nodes : List arena.Node) → (depth : ℕ)
        → (us : List units.UnitTree) → (last : units.UnitTree) → IsReached nodes reached depth us
        → AreUnits nodes (unit ∷ []) (last ∷ [])
        → IsMoved nodes moved (machine.unit_due None depth (us ++ last ∷ []) lexeme)) }
    ensures few { IfOk result (λ moved. waiting moved ≤ 1) }
{
    let Ok(reached) = reached.with(unit) else {
        return Err(Memory);
    };
    unit_due(reached, None, lexeme)
}

// A module begins inside those that are open, and the lexeme is due in it.
fn begin_module(
    reached: Reached,
    dashes: Lexeme,
    name: Lexeme,
    extends: List<Lexeme>,
    lexeme: Lexeme,
) -> Result<Option<Next>, Memory>
    ensures moves { IfOk result (λ moved. (nodes : List arena.Node) → (depth : ℕ)
        → (us : List units.UnitTree) → IsReached nodes reached depth us
        → IsMoved nodes moved (machine.unit_due None (suc depth)
        (us ++ units.ModuleBegin dashes name extends ∷ []) lexeme)) }
    ensures few { IfOk result (λ moved. waiting moved ≤ 1) }
{
    let Ok(reached) = reached.opens() else {
        return Err(Memory);
    };
    let begin = Unit::ModuleBegin {
        dashes,
        name,
        extends,
    };
    after_unit(reached, begin, lexeme)
}

// The names of a list, and one more.
fn name_more(names: List<Lexeme>, name: Lexeme) -> Result<List<Lexeme>, Memory>
    ensures { IfOk result (λ more. more ≡ names ++ name ∷ []) }
{
    let mut names = names;
    names.push(name)?;
    Ok(names)
}

/// A lexeme of the module's own form.
pub(crate) fn move_due(
    reached: Reached,
    to: DueMove,
    names: List<Lexeme>,
    lexeme: Lexeme,
) -> Result<Option<Next>, Memory>
    ensures moves { IfOk result (λ moved. (nodes : List arena.Node) → (depth : ℕ)
        → (us : List units.UnitTree) → IsReached nodes reached depth us
        → IsMoved nodes moved (machine.due_moved to names depth us lexeme)) }
    ensures few { IfOk result (λ moved. waiting moved ≤ 1) }
{
    match to {
        DueMove::Goes(due) => Ok(Some(Next::At(Point::Stands(reached, due, names)))),
        DueMove::Named(due) => {
            let Ok(names) = name_more(names, lexeme) else {
                return Err(Memory);
            };
            Ok(Some(Next::At(Point::Stands(reached, due, names))))
        }
        DueMove::Begun(dashes, name) => begin_module(reached, dashes, name, names, lexeme),
        DueMove::Listed => after_unit(reached, Unit::Variables { names }, lexeme),
        DueMove::Lined(dashes) => after_unit(reached, Unit::Line(dashes), lexeme),
        DueMove::Begins(local) => unit_due(reached, local, lexeme),
        DueMove::Refused => Ok(None),
    }
}

/// A lexeme after declarations of constants.
pub(crate) fn after_declared(
    reached: Reached,
    declarations: List<u32>,
    lexeme: Lexeme,
) -> Result<Option<Next>, Memory>
    ensures moves { IfOk result (λ moved. (nodes : List arena.Node) → (depth : ℕ)
        → (us : List units.UnitTree) → (xs : syntax.Trees) → IsReached nodes reached depth us
        → AreParts nodes declarations xs
        → IsMoved nodes moved (machine.after_declared xs depth us lexeme)) }
    ensures few { IfOk result (λ moved. waiting moved ≤ 1) }
{
    if is_comma(lexeme.kind) {
        let frame = Frame::new(reached.alloc, Wait::Declaration, None);
        return Ok(Some(begin_part(reached, Begun::Constants(declarations), frame)));
    }
    after_unit(reached, Unit::Constants { declarations }, lexeme)
}
